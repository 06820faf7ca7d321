//! Commands in the safe mode, each done whole or not at all: judged over the nodes in memory as ever (fc_commands), and what it is about
//! goes to `transact`, the course of a change there: each directory that changes is written into new runs of its identifier, what else
//! lies there is copied, and one commit makes all of it count.
#![tactic(auto)]

mod anew;
mod commands;
mod course;
mod judged;
mod laws;
mod views;

pub use commands::cdir::cdir;
pub use commands::delete::delete;
pub use commands::mark::mark;
pub use commands::rename::rename;
pub use commands::save::{create, save};
pub use commands::set::set;
pub use course::transact;
pub use fc_commands::Holdings;
pub use fc_safe::{SafeError, suits};
pub use laws::safe_jobs;
pub use views::{jobs, judged as judged_jobs};
