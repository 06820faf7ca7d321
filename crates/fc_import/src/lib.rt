//! Bytes that are given in order and become those of an object, block by block: no memory of their number is needed.
#![tactic(auto)]

mod place;

pub use place::{ImportFault, import};
