// The numbers that follow from a record.
ghost use Rattle.std.specs.Prelude.{◌≡◌, ◌≤◌, ◌<◌};
ghost use Rattle.fc_record.specs.Record.{geometry, zone_start, IsRecord};

use crate::{DiscRecord, Geometry};

/// What follows from a valid record (docs/FORMAT.md, "Disc record" and "New map").
pub fn geometry(r: &DiscRecord) -> Geometry
    requires { IsRecord r.now }
    ensures { result ≡ geometry r.now }
{
    measured(r)
}

// The disc map bit at which a zone begins: each zone but the first lies 480 bits lower than its number says.
pub(crate) fn zone_start(zone_size: u32, z: u16) -> u64
    ensures { result ≡ zone_start zone_size z }
{
    if z == 0 {
        0
    } else {
        (u64::from(z) * u64::from(zone_size)).saturating_sub(480)
    }
}

// The same numbers, also of a record that is only known to have a sector and a bit of sizes that there may be.
pub(crate) fn measured(r: &DiscRecord) -> Geometry
    requires sector { r.now.log2_sector ≤ 10 }
    requires bit { r.now.log2_bit ≤ 20 }
    requires share { r.now.log2_share < 16 }
    ensures { result ≡ geometry r.now }
{
    let sector = 1u32 << r.log2_sector;
    let bit_bytes = 1u64 << r.log2_bit;
    let zone_size = (8 * sector).saturating_sub(u32::from(r.spare));
    let id_bits = u32::from(r.idlen) + 1;
    let q = (u64::from(sector) / bit_bytes).max(1) as u32;
    Geometry {
        sector,
        idlen: r.idlen,
        bit_bytes,
        zones: r.zones,
        zone_size,
        disc_bits: r.size / bit_bytes,
        q,
        min: id_bits.next_multiple_of(q),
        share: u64::from(sector) << r.log2_share,
        ids_per_zone: zone_size / id_bits,
        map_sector: zone_start(zone_size, r.zones / 2) * bit_bytes / u64::from(sector),
        version: r.version,
    }
}
