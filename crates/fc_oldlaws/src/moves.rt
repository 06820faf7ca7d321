//! From what `squash` and the writes after it leave on a disc with an old map, to what compaction promises: of the image, of the
//! parts in memory, and of both together.

ghost use Rattle.fc_oldlaws.specs.moves.Laws.{AgreedLaw, BehindLaw, CompactedLaw, DirectoriesLaw, MovedWalkLaw, ReadyLaw, RewrittenLaw, SlidingLaw, TakenOverLaw};

use fc_oldmap::reads_back;

/// A walk finds every object where it has slid.
pub fn walks()
    ensures { MovedWalkLaw }
{}

/// After its steps compaction has done what it promises.
pub fn compacted()
    ensures { CompactedLaw }
{
    reads_back();
}

/// The nodes that slide are the objects that do.
pub fn sliding()
    ensures { SlidingLaw }
{}

/// The nodes that slide, sorted by their starts, are ready to be squashed.
pub fn ready()
    ensures { ReadyLaw }
{}

/// The parts of a volume still agree.
pub fn agreed()
    ensures { AgreedLaw }
{}

/// Compaction has done what it promises, and the volume stands for the new image.
pub fn taken_over()
    ensures { TakenOverLaw }
{
    reads_back();
}

/// The directories of a volume lie on its disc, apart from each other.
pub fn directories()
    ensures { DirectoriesLaw }
{}

/// Directories that are written by their nodes are written.
pub fn rewritten()
    ensures { RewrittenLaw }
{}

/// The holes still lie after the map.
pub fn behind()
    ensures { BehindLaw }
{}
