//! Real things: a disk over a file of the machine, the files of the current folder by their names, and a source and a sink over
//! streams. None makes known what it holds.
#![tactic(auto)]

mod file_disk;
mod file_host;
mod folder;
mod opened;
mod streams;

pub use file_disk::FileDisk;
pub use file_host::FileHost;
pub use streams::{StdSink, StdSource};

#[cfg(test)]
mod tests;
