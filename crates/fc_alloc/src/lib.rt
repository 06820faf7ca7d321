//! Who owns which identifier of a new map: the objects of a disc by the identifier that each lies in. More than one small
//! object of a directory may share one identifier.
#![tactic(auto)]

mod held;
mod index;
pub mod lists;
mod owner;
mod owners;

pub use owner::Owner;
pub use owners::Owners;
