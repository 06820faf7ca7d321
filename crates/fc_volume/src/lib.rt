//! Volumes: the filing system over one disk; their compaction, and lost space given back.
#![tactic(auto)]

mod commands;
mod compacting;
mod fitness;
mod lines;
mod maps;
mod misplaced;
mod mount;
pub mod old;
mod owners;
mod pieces;
mod reading;
mod reclaiming;
mod volume;

pub use fc_change::{FileWords, ObjectWords};
pub use fc_commands::GivenError;
pub use fc_holdings::{CommandError, Copies, Holdings};
pub use fitness::is_fit_after;
pub use lines::{FileRef, Line, Listed, MountError};
pub use reclaiming::reclaim;
pub use volume::Volume;
