//! Small directories: those of 2048 bytes on D, E and F discs, and those of 1280 bytes on L discs.
//!
//! A directory is read whole, kept as its head and its entries in stored order, and written whole. The layout is that
//! of the RISC OS PRM, chapter FileCore; if it leaves a choice, of docs/FORMAT.md.
#![tactic(auto)]

mod bytes;
mod copy;
mod entries;
mod entry;
mod head;
mod small;

ghost use Rattle.fc_smalldir.specs.Laws.{ReadsBack};

pub use copy::copied_entries;
pub use fc_dirs::{DirError, DirFault, Entry, InsertError, SmallForm};
pub use small::SmallDir;

/// A law: what is written reads as the same head and entries.
pub fn reads_back()
    ensures { ReadsBack }
{}
