//! Which trees fit another format: the paths of a tree's objects in order, and the first object that doesn't fit. The commands that
//! make a tree.
#![tactic(auto)]

mod counts;
mod fit;
mod found;
mod order;
mod paths;

ghost use Rattle.fc_fit.specs.Doing.{ConvertsLaw};
ghost use Rattle.fc_fit.specs.Makes.{MakesLaw};
ghost use Rattle.fc_fit.specs.Rising.{RisingLaw};

pub use counts::{Counts, counts_of};
pub use fit::{Misfit, What, first_misfit, form_of};
pub use found::node_at;
pub use paths::paths_of;

/// A law: of a tree that fits, the commands for its objects are accepted one after another, and make it.
pub fn makes()
    ensures { MakesLaw }
{}

/// A law: rising paths are those of the tree's entries, and what is found and counted by them among nodes is so in the tree.
pub fn rising()
    ensures { RisingLaw }
{}

/// A law: on a fresh volume the commands for a tree that fits leave the tree; if one is refused, then for want of space, and it is the one
/// that makes an object.
pub fn converts()
    ensures { ConvertsLaw }
{
    fc_format::opens();
}
