//! The two copies of a new map: which of them counts, how one is made equal to the other, and how changed zones are
//! written so that a crash leaves the old map or the new one, whole.
//!
//! The copies and their checks are those of the RISC OS PRM, chapter FileCore; the order of the writes and the gate,
//! which turns the CrossChecks of changed zones so that no mix of old and new zones is sound, are fcore's own
//! (docs/FORMAT.md, "Two copies").

ghost use Rattle.std.specs.Prelude.{◌≡◌};
ghost use Rattle.fc_newmap.specs.CopiesLaw.{CopiesLaw};
ghost use Rattle.fc_newmap.specs.Gate.{GateHolds, MixLaw};
ghost use Rattle.fc_newmap.specs.declared.copies.CopyError.TheVariants as errors;

mod committing;
mod reading;
mod repairing;
mod zones;

pub use committing::{commit, commit_wide};
use fc_device::DiskFault;
pub use reading::fetch;
pub use repairing::repair;
pub use zones::commit_zones;

/// One of the two copies of the map: the one at the map's address, or the one after it.
#[derive(Clone, Copy, Debug, PartialEq, Eq)]
pub enum Which {
    One,
    Two,
}

/// Why no copy was chosen.
#[derive(Clone, Copy, Debug, PartialEq, Eq)]
pub enum CopyError {
    /// Neither copy is sound. Each number is the first zone of that copy whose ZoneCheck is wrong, or the number of
    /// zones if only the total of the CrossChecks is.
    BothBad { c1: u16, c2: u16 },
    /// A read failed.
    DiskFault,
}

impl From<DiskFault> for CopyError {
    ghost from_gives = { λ _ e. e ≡ errors.DiskFault };

    fn from(_: DiskFault) -> Self
        ensures { result ≡ errors.DiskFault }
    {
        CopyError::DiskFault
    }
}

/// For 2 to 9 changed zones: the deltas of no mix of old and new zones cancel, and all of them together do.
pub fn gate()
    ensures { GateHolds }
{}

/// A copy in which only some of the changed zones are new is not sound.
pub fn mix()
    ensures { MixLaw }
{}

/// A valid record's map has a zone, and an image that its disc fits into has the sectors of both copies.
pub fn copies_fit()
    ensures { CopiesLaw }
{}
