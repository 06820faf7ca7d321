//! Lost space given back: runs of identifiers that no object owns become holes, so that a crash at any moment leaves every
//! object whole.
//!
//! A lost run that holds a sector of the map, or of a place where a boot block fits, is kept. The order of writes is that of
//! every commit (docs/FORMAT.md, "Two copies").
#![tactic(auto)]

mod boot;
mod copies;
mod map;
mod rows;
mod zone;

pub use copies::reclaim_map;
