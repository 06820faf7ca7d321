// Addresses of new files.

ghost use Rattle.std.specs.Prelude.{◌≡◌, ◌<◌, ◌^◌, ◌*◌, ◌+◌, ◌-◌, min};
ghost use Rattle.fc_newmap.specs.Map.{bits_in};
ghost use Rattle.fc_newmap.specs.NewMap.{IsOfRecord};
ghost use Rattle.fc_image.specs.effects.Placed.{file_low, has_spare_share};
ghost use Rattle.fc_plan.specs.Parts.{fronts};
ghost use Rattle.fc_placing.specs.Places.{address_in, id_in};

use crate::placing::Placing;
use fc_newmap::NewMap;
use fc_plan::{Part, Plan};
use fc_record::Geometry;

// The bits of some parts, or the greatest number if they are more.
fn bits_of(parts: &[Part]) -> u64
    ensures { result ≡ min (bits_in (fronts parts.now)) (2 ^ 64 - 1) }
{
    let mut bits: u64 = 0;
    for part in parts {
        bits = bits.saturating_add(u64::from(part.len));
    }
    bits
}

// Whether another whole share unit follows a file of so many bytes in new space, and its number is a low byte.
fn has_spare_share(g: &Geometry, parts: &[Part], bytes: u64) -> bool
    requires record { IsOfRecord g.now }
    requires few { bytes < 2 ^ 63 }
    ensures { result ≡ has_spare_share g.now (bits_in (fronts parts.now) * g.now.bit_bytes) bytes }
{
    let space = bits_of(parts).saturating_mul(g.bit_bytes);
    let end = bytes.next_multiple_of(g.share);
    end + g.share <= space && end / g.share <= 254
}

// The low byte of a file of so many bytes in new space.
fn file_low(g: &Geometry, parts: &[Part], bytes: u64) -> u8
    requires record { IsOfRecord g.now }
    requires few { bytes < 2 ^ 63 }
    ensures { result ≡ file_low g.now (bits_in (fronts parts.now) * g.now.bit_bytes) bytes }
{
    if has_spare_share(g, parts, bytes) {
        1
    } else {
        0
    }
}

// An identifier and a low byte as an address.
fn address(id: u32, low: u8) -> u32
    requires { id < 2 ^ 24 }
    ensures { result ≡ 256 * id + low }
{
    id * 256 + u32::from(low)
}

/// The address of a file of so many bytes that is placed there.
pub fn address_of(place: &Placing, map: &NewMap, bytes: u64) -> u32
    requires few { bytes < 2 ^ 63 }
    requires id { id_in place.now < 2 ^ 24 }
    ensures { result ≡ address_in map.now place.now bytes }
{
    match place {
        Placing::Nowhere => 0,
        Placing::Shared(share) => address(share.id, share.low),
        Placing::New(plan) => address(plan.id, file_low(map.geometry(), &plan.parts, bytes)),
    }
}

/// The address of a directory that is placed so.
pub fn directory_address(plan: &Plan) -> u32
    requires { plan.now.id < 2 ^ 24 }
    ensures { result ≡ 256 * plan.now.id }
{
    address(plan.id, 0)
}
