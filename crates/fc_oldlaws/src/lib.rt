//! Laws of the compaction of volumes with old maps in memory.
#![tactic(auto)]

pub mod moves;
