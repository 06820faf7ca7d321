// The run in which a bit of the disc lies.

ghost use Rattle.std.specs.Prelude.{◌≡◌, ◌+◌, ◌-◌, ◌<◌, ◌≤◌, Some};
ghost use Rattle.fc_record.specs.Record.{base, end_bit, first_bit};
ghost use Rattle.fc_zone.specs.declared.Run.{Run};
ghost use Rattle.fc_newmap.specs.Map.{holds_bit, run_at};
ghost use Rattle.fc_newmap.specs.NewMap.{IsOfRecord};
ghost use Rattle.fc_newmap.specs.Walk.{IsInZone};

use crate::NewMap;
use crate::shapes::{RECORD_BITS, base, first_bit};
use crate::walk::Walk;
use fc_record::Geometry;
use fc_zone::Run;

// The zone in which a bit of the disc lies. Each zone but the first begins as many bits lower as the record takes.
fn zone_of_bit(g: &Geometry, bit: u64) -> u16
    requires geometry { IsOfRecord g.now }
    requires bit { bit < g.now.disc_bits }
    ensures low { result < g.now.zones }
    ensures from { base g.now result ≤ bit }
    ensures to { bit < base g.now result + (end_bit g.now result - first_bit result) }
{
    let zones = u64::from(g.zones);
    let z = (bit + RECORD_BITS) / u64::from(g.zone_size);
    prove!(z < zones);
    z as u16
}

// Whether a bit of the disc lies in a run.
fn holds_bit(g: &Geometry, bit: u64, z: u16, run: Run) -> bool
    requires geometry { IsOfRecord g.now }
    requires run { IsInZone g.now (z, run) }
    ensures { result ≡ holds_bit g.now bit (z, run) }
{
    let first = base(g, z) + u64::from(run.start - first_bit(z));
    first <= bit && bit < first + u64::from(run.len)
}

impl NewMap {
    /// The run in which a bit of the disc lies, with its zone. It costs a pass over the runs of one zone at most.
    pub fn run_at(&self, bit: u64) -> (u16, Run)
        requires { bit < self.now.geometry.disc_bits }
        ensures { run_at self.now bit ≡ Some result }
    {
        let g = self.geometry();
        let mut walk = Walk::from_zone(self, zone_of_bit(g, bit), 0);
        loop {
            let (z, run) = walk.next(self).unwrap();
            if holds_bit(g, bit, z, run) {
                return (z, run);
            }
        }
    }
}
