//! Laws of volumes in memory: what edits of objects make of nodes and owners, that the parts still agree, and what a changed
//! volume promises; on discs with old maps, too (`old`).
#![tactic(auto)]

pub mod agree;
pub mod nodes;
pub mod old;
pub mod takeover;
