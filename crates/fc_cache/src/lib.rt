//! A disk that keeps the sectors that were used last, so that they are read again without a call of the disk below. Of a row
//! of several sectors it keeps none. Nothing else shows of it: it writes through, and all that it means is what the disk below
//! means.
#![tactic(auto)]

mod cached;
mod kept;

pub use cached::CachedDisk;
