//! What a volume holds in memory of its disc, when that stands for the disk, and why a command isn't done.
#![tactic(auto)]

mod error;
mod holdings;

pub use error::CommandError;
pub use fc_writing::Copies;
pub use holdings::Holdings;
