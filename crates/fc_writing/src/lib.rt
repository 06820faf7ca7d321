//! One change of a disc, written: what is new, the map, and what is written over.
//!
//! A change that is ready says which sectors get which bytes and what becomes of the map. It knows nothing of directories or
//! commands. First comes all that may be written before the map has it, then the map's first step, then what must be written after
//! it, and then the second step, by which space goes back that nothing names any more (docs/FORMAT.md, "Two copies"). So a change of
//! which everything is early and one step is the last is there as a whole or not at all.
#![tactic(auto)]

ghost use Rattle.fc_writing.specs.Laws.{LaterLaw, LeavesLaw};

mod copies;
mod new;
mod old;
mod old_front;
mod pieces;
mod ready;
mod steps;

pub use copies::{Copies, match_copies};
pub use new::write_new;
pub use old::write_old;
pub use pieces::{copy_in, store_in};
pub use ready::{MapStep, Piece, Ready, RootPlace, Source, SpaceStep, Transfer};

/// What follows from what a change leaves, for changes of fewer stages.
pub fn leaves()
    ensures { LeavesLaw }
{}

/// A second step that only gives space back can be made ready before the first is made.
pub fn later()
    ensures { LaterLaw }
{}
