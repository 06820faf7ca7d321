// Where a zone's bits lie on the disc, and where its bytes lie in a copy of the map.

ghost use Rattle.std.specs.Prelude.{◌≡◌, ◌+◌, ◌*◌, ◌<◌, ℕ, List, length};
ghost use Rattle.fc_newmap.specs.Map.{sector_of, shape};
ghost use Rattle.fc_newmap.specs.NewMap.{IsOfRecord, map_in};
ghost use Rattle.fc_record.specs.Record.{base, end_bit, first_bit};
ghost use Rattle.fc_zone.specs.Zone.{IsShapeOf};

use fc_record::Geometry;
use fc_zone::ZoneShape;

// The bits of a map that are the disc record's: in zone 0 they stand before the runs.
pub const RECORD_BITS: u64 = 480;

// The place of a zone's first bit in its sector.
pub fn first_bit(z: u16) -> u32
    ensures { result ≡ first_bit z }
{
    if z == 0 { 512 } else { 32 }
}

// The number of a zone's first bit among all bits of the map.
pub fn base(g: &Geometry, z: u16) -> u64
    ensures { result ≡ base g.now z }
{
    if z == 0 {
        0
    } else {
        (u64::from(z) * u64::from(g.zone_size)).saturating_sub(RECORD_BITS)
    }
}

// The place after a zone's last bit.
fn end_bit(g: &Geometry, z: u16) -> u32
    requires geometry { IsOfRecord g.now }
    requires zone { z < g.now.zones }
    ensures { result ≡ end_bit g.now z }
{
    if z + 1 == g.zones {
        (u64::from(first_bit(z)) + g.disc_bits - base(g, z)) as u32
    } else {
        32 + g.zone_size
    }
}

// Where a zone's bits lie, and which lengths its runs may have.
pub fn shape_of(g: &Geometry, z: u16) -> ZoneShape
    requires geometry { IsOfRecord g.now }
    requires zone { z < g.now.zones }
    ensures value { result ≡ shape g.now z }
    ensures fits { (sector : List ℕ) → length sector ≡ g.now.sector → IsShapeOf sector (shape g.now z) }
{
    ZoneShape {
        zone: z,
        first: first_bit(z),
        end: end_bit(g, z),
        base: base(g, z),
        idlen: g.idlen,
        q: g.q,
        min: g.min,
    }
}

// The place of a zone's first byte in a copy of the map.
pub fn place_of(g: &Geometry, z: u16) -> usize
    ensures { result ≡ z * g.now.sector }
{
    usize::from(z) * g.sector as usize
}

// The bytes of a zone in a copy of the map.
pub fn sector_in<'a>(zones: &'a [u8], g: &Geometry, z: u16) -> &'a [u8]
    requires whole { length zones.now ≡ g.now.zones * g.now.sector }
    requires zone { z < g.now.zones }
    ensures value { result.now ≡ sector_of (map_in g.now zones.now) z }
    ensures long { length result.now ≡ g.now.sector }
{
    let from = place_of(g, z);
    &zones[from..from + g.sector as usize]
}
