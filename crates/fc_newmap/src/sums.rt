// Sums over all holes of a map.

ghost use Rattle.std.specs.Prelude.{◌≡◌};
ghost use Rattle.fc_newmap.specs.Map.{bits_in, hole_runs, longest};

use crate::NewMap;
use crate::walk::Walk;

/// What the holes of a map come to, in bits.
#[derive(Clone, Copy, Debug, PartialEq, Eq)]
pub struct HoleSums {
    /// All holes together.
    pub total: u64,
    /// The longest hole; 0 if there is none.
    pub longest: u64,
}

impl NewMap {
    /// The bits of all holes together, and of the longest, in one pass over the runs.
    pub fn hole_sums(&self) -> HoleSums
        ensures total { result.total ≡ bits_in (hole_runs self.now) }
        ensures longest { result.longest ≡ longest (hole_runs self.now) }
    {
        let mut total = 0;
        let mut most = 0;
        let mut walk = Walk::over_all(self);
        while let Some((_, run)) = walk.next_hole(self) {
            let len = u64::from(run.len);
            total += len;
            most = len.max(most);
        }
        HoleSums {
            total,
            longest: most,
        }
    }

    /// The bits of all holes together.
    pub fn free_bits(&self) -> u64
        ensures { result ≡ bits_in (hole_runs self.now) }
    {
        self.hole_sums().total
    }

    /// The bits of the longest hole, and 0 if there is none.
    pub fn largest_hole(&self) -> u64
        ensures { result ≡ longest (hole_runs self.now) }
    {
        self.hole_sums().longest
    }
}
