//! Objects of a disc that become files of the host, block by block: no memory of an object's size is needed.
#![tactic(auto)]

mod file;

pub use file::{ExportFault, export};
