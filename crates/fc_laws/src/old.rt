// Laws of volumes with old maps.

pub mod agree;
pub mod takeover;
