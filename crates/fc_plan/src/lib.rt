//! Where new space is taken from a new map, how it is cut from the holes, and how old space goes back.
#![tactic(auto)]

mod applying;
mod beginnings;
mod changing;
mod fitting;
mod giving;
mod holes;
mod laws;
mod plan;
mod planning;
mod supply;
mod taking;

pub use applying::apply;
pub use changing::changed_zones;
pub use giving::give_back;
pub use laws::{
    any_order, apart_parts, cut_plans, new_ids_rise, nothing_taken, plans_can_be_taken,
    plans_exist, same_rest, second_taking, two_plans, whole_units,
};
pub use plan::{Part, Plan};
pub use supply::{PlanError, Supply};
pub use taking::take;
