//! Commands that change a volume, by the one path: each is judged over the nodes in memory, and what it is about goes to `change`, the
//! course of a change: made ready in memory, written, and taken over. There is one course for all jobs, on new maps and old ones, with
//! growth and without.
#![tactic(auto)]

mod commands;
mod course;
mod given;
mod judged;
mod laws;
mod maps;
mod name;
mod stages;
mod writing;

pub use commands::cdir::{cdir, cdir_job};
pub use commands::delete::{delete, delete_job};
pub use commands::mark::{can_mark, mark, mark_job};
pub use commands::rename::{rename, rename_job};
pub use commands::save::{create, file_job, save};
pub use commands::save_from::save_from;
pub use commands::set::{set, set_job};
pub use course::change;
pub use fc_holdings::{CommandError, Holdings};
pub use given::{GivenError, change_from};
pub use judged::Judged;
pub use laws::jobs;
pub use maps::is_map;
pub use stages::Prepared;
