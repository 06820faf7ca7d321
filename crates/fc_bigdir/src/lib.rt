//! Big directories, on E+ and F+ discs.
//!
//! A directory is read whole, kept as its head, its heap of names and its entries in stored order, and written whole.
//! The layout is that of the RISC OS 4 notes on big directories; if they leave a choice, of docs/FORMAT.md.
#![tactic(auto)]

mod big;
mod bytes;
mod change;
mod copy;
mod enter;
mod entries;
mod frame;
mod insert;
mod needed;
mod put;
mod read;
mod rename;
mod space;
mod twins;
mod write;

ghost use Rattle.fc_bigdir.specs.Laws.{ReadsBack};

pub use big::BigDir;
pub use fc_dirs::{DirError, DirFault, Entry, InsertError};
pub use space::size_for;

/// A law: what is written reads as the same head, entries and form of the head's name.
pub fn reads_back()
    ensures { ReadsBack }
{}
