//! The safe mode's places: what a command needs of space if each directory that it changes is written anew, where first fit finds it, and
//! what goes back.
#![tactic(auto)]

mod changed;
mod error;
mod extents;
mod first;
mod gone;
mod grown;
mod laws;
mod lists;
mod moving;
mod needs;
mod planned;
mod sets;
mod staying;
mod step;
mod suitability;
mod zones;

pub use changed::changed_nodes;
pub use error::SafeError;
pub use extents::{Stretch, extents_at};
pub use first::place_first;
pub use gone::gone_ids;
pub use laws::{plain, stirred};
pub use lists::push;
pub use moving::{Moved, moved_of, moving_of, needs_of};
pub use needs::{Need, plan_needs};
pub use planned::{Planned, plan_job};
pub use staying::{Longer, Moving};
pub use suitability::suits;
pub use zones::zones_of;
