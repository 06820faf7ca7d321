// Zones that are laid out by their runs.
ghost use Rattle.std.specs.Prelude.{◌<◌, ◌+◌, ◌^◌, ◌++◌, ◌∷◌, [], ℕ, List};
ghost use Rattle.fc_bytes.specs.BitLaws.{AreBytes};
ghost use Rattle.fc_zone.specs.declared.Run.{Run};
ghost use Rattle.fc_zone.specs.declared.RunKind.TheVariants.{Id};
ghost use Rattle.fc_zone.specs.Zone.{IsShapeOf, Zone};
ghost use Rattle.fc_zone.specs.Edits.{CanBeBlank, CanSplit};
ghost use Rattle.fc_format.specs.Zones.{CanOwn, IsLaid, last_hole, owned_runs};

use fc_zone::{ZoneShape, blank, label, split};

// Gives the front of the hole that begins at `at` and ends the zone to an identifier.
fn take_front(b: &mut [u8], shape: &ZoneShape, at: u32, len: u32, id: u32)
    requires shape { IsShapeOf b.old shape.now }
    requires hole { (front : List Run) × Zone shape.now b.old (front ++ last_hole shape.now at ∷ []) }
    requires fits { CanSplit shape.now (last_hole shape.now at) len }
    requires some_id { 0 < id }
    requires id_fits { id < 2 ^ shape.now.idlen }
    ensures { (start : List ℕ) (front : List Run) → IsLaid shape.now start b.old (front ++ last_hole shape.now at ∷ [])
        → IsLaid shape.now start b.new (front ++ record { start = at; len = len; kind = Id id } ∷ last_hole shape.now (at + len) ∷ []) }
{
    split(b, shape, at, len);
    label(b, shape, at, id);
}

/// Lays out a zone: runs of these lengths and identifiers from its first bit on, and one hole after them. FreeLink is
/// written too, and no other byte.
pub fn lay_out(b: &mut [u8], shape: &ZoneShape, owned: &[(u32, u32)])
    requires shape { IsShapeOf b.old shape.now }
    requires blank { CanBeBlank b.old shape.now }
    requires owned { CanOwn shape.now shape.now.first owned.now }
    ensures laid { IsLaid shape.now b.old b.new (owned_runs shape.now shape.now.first owned.now) }
    ensures bytes { AreBytes b.new }
{
    blank(b, shape);
    let mut at = shape.first;
    for run in owned {
        take_front(b, shape, at, run.0, run.1);
        at += run.0;
    }
}
