//! Compaction of new maps: runs that slide into the holes before them, and identifiers whose runs are joined into one, so
//! that a crash at any moment leaves every object whole.
//!
//! The order of writes is fcore's own (docs/FORMAT.md, "Two copies"): data is copied into a hole and synced, and then
//! the map that makes the copy current is committed.
#![tactic(auto)]

mod candidates;
mod compaction;
mod copy;
mod counts;
mod holes;
mod joins;
mod listed;
mod longest;
mod lookup;
mod release;
mod rounds;
mod settlement;
mod shift;
mod slides;
mod survey;

ghost use Rattle.fc_compact.specs.Laws.{Laws};
ghost use Rattle.fc_compact.specs.Compaction.{ByOwnersLaw};

pub use compaction::compact;
pub use joins::join;
pub use settlement::settle_all;
pub use slides::slide;

// What fc_image and fc_newmap prove.
fn laws()
    ensures { Laws }
{
    fc_image::holes();
    fc_image::hole_steps();
    fc_image::commits();
    fc_image::carries();
    fc_image::one_map();
    fc_image::keeps_objects();
    fc_image::maps();
    fc_image::pieces();
    fc_newmap::ids();
    fc_newmap::one_zone();
    fc_newmap::apart();
}

/// What is said of a compacted map by its owners holds by its objects.
pub fn by_owners()
    ensures { ByOwnersLaw }
{}
