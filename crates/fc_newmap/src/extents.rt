// Runs as rows of sectors of the disc.

ghost use Rattle.std.specs.Prelude.{◌≡◌, IfOk, map};
ghost use Rattle.fc_newmap.specs.Map.{extent_of, hole_runs, id_runs};
ghost use Rattle.fc_newmap.specs.NewMap.{IsOfRecord};
ghost use Rattle.fc_newmap.specs.Walk.{IsInZone};

use crate::NewMap;
use crate::runs::RunCursor;
use crate::shapes::{base, first_bit};
use crate::walk::Walk;
use fc_device::{Extent, NoMemory};
use fc_record::Geometry;
use fc_zone::Run;
use std::alloc::Global;

/// A run of a zone as a row of sectors of the disc.
pub fn extent_of(g: &Geometry, z: u16, run: Run) -> Extent
    requires geometry { IsOfRecord g.now }
    requires run { IsInZone g.now (z, run) }
    ensures { result ≡ extent_of g.now (z, run) }
{
    let bit = base(g, z) + u64::from(run.start - first_bit(z));
    let sector = u64::from(g.sector);
    Extent {
        first: bit * g.bit_bytes / sector,
        sectors: u64::from(run.len) * g.bit_bytes / sector,
    }
}

impl NewMap {
    /// The runs of an identifier as rows of sectors, in the order of `first_run` and `next_run`.
    pub fn extents(&self, alloc: Global, id: u32) -> Result<Vec<Extent>, NoMemory>
        ensures { IfOk result (λ extents. extents.items ≡ map (extent_of self.now.geometry) (id_runs self.now id)) }
    {
        let mut extents = Vec::new(alloc);
        let mut cursor = RunCursor::start(self, id);
        while let Some((z, run)) = cursor.next(self) {
            if extents.push(extent_of(self.geometry(), z, run)).is_err() {
                return Err(NoMemory);
            }
        }
        Ok(extents)
    }

    /// All holes as rows of sectors, rising.
    pub fn holes(&self, alloc: Global) -> Result<Vec<Extent>, NoMemory>
        ensures { IfOk result (λ extents. extents.items ≡ map (extent_of self.now.geometry) (hole_runs self.now)) }
    {
        let mut extents = Vec::new(alloc);
        let mut walk = Walk::over_all(self);
        while let Some((z, run)) = walk.next_hole(self) {
            if extents.push(extent_of(self.geometry(), z, run)).is_err() {
                return Err(NoMemory);
            }
        }
        Ok(extents)
    }
}
