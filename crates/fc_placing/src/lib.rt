//! What commands need of space on discs with new maps: which identifier goes back, places for
//! new objects, and which identifier a new file may share with others of its directory.
#![tactic(auto)]

mod addressing;
mod copying;
mod extents;
mod leaving;
mod lows;
mod placing;
mod room;
mod share;

pub use addressing::{address_of, directory_address};
pub use copying::copies;
pub use extents::push_met;
pub use fc_plan::{Plan, PlanError};
pub use leaving::{has_other, left_by_replaced};
pub use placing::{Placing, places, slack_by_owners};
pub use share::{Share, slack};
