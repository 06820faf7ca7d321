//! Why commands that change a volume are refused, over the nodes of its tree, and which nodes they are about if they
//! aren't. It needs neither disk nor memory.
#![tactic(auto)]

mod cdir;
mod delete;
mod places;
mod rename;
mod save;
mod set;
mod target;

pub use cdir::judge_cdir;
pub use delete::judge_delete;
pub use rename::judge_rename;
pub use save::judge_save;
pub use set::judge_set;
pub use target::{Renaming, Slot, Target};
