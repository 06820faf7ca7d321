//! What commands do to an image: the space that they need and the refusals for lack of it, where new space is taken, what
//! stays as it was, and what compaction leaves.

ghost use Rattle.fc_image.specs.effects.Rows.{SpaceRows};
ghost use Rattle.fc_image.specs.effects.CompactionRows.{CompactionRows};
ghost use Rattle.fc_image.specs.effects.PlacingRows.{PlacingRows};
ghost use Rattle.fc_image.specs.effects.WrittenRows.{WrittenRows};
ghost use Rattle.fc_image.specs.effects.Laws.{LeftLaw, OldMapCompactedLaw, OneHoleLaw};

/// An object on a disc with an old map: the number of its node, its first unit and its number of units. Units have 256 bytes.
#[derive(Clone, Copy, Debug, PartialEq, Eq)]
pub struct Owned {
    pub node: u64,
    pub start: u32,
    pub len: u32,
}

/// Space on small images, worked out.
pub fn rows()
    ensures { SpaceRows }
{}

/// What compaction of old maps doesn't do, worked out.
pub fn compaction_rows()
    ensures { CompactionRows }
{}

/// Space that is taken from holes, worked out.
pub fn placing_rows()
    ensures { PlacingRows }
{}

/// What writing owes in bytes that reading ignores, worked out.
pub fn written_rows()
    ensures { WrittenRows }
{}

/// After a plan, what is left of each hole is long enough for a run.
pub fn left()
    ensures { LeftLaw }
{}

/// A settled old map without lost sectors has at most one hole.
pub fn one_hole()
    ensures { OneHoleLaw }
{}

/// So has an opened image with such a map, and none of its commands is refused because it needs compaction.
pub fn old_maps_compacted()
    ensures { OldMapCompactedLaw }
{}
