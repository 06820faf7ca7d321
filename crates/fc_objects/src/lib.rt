//! Pieces of objects. An object is given by its extents, and its sectors are those of the extents, one after another; a
//! piece is one of them, by its number from 0.
#![tactic(auto)]

mod copier;
mod pieces;
mod reader;
mod sectors;
mod writer;

pub use copier::copy_sectors;
pub use pieces::{read_piece, write_piece};
pub use reader::ObjectReader;
pub use writer::write_object;
