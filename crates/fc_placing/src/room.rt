// Whether an identifier has room after a low byte.

ghost use Rattle.std.specs.Prelude.{◌≡◌, ◌<◌, ◌^◌, IfSome, length, nat_lt};
ghost use Rattle.fc_image.specs.Layout.{id_sectors};
ghost use Rattle.fc_placing.specs.Lows.{has_room};

use crate::lows::LOW_LIMIT;
use fc_newmap::NewMap;
use fc_space::{low_start, sector_of_id};

// How many sectors an identifier has by the map's tally, if that reaches so far.
fn tallied(map: &NewMap, id: u32) -> Option<u64>
    ensures { IfSome result (λ sectors. sectors ≡ length (id_sectors map.now id)) }
{
    let bits = map.bits_of(id)?;
    let g = map.geometry();
    Some(bits * g.bit_bytes / u64::from(g.sector))
}

// Whether an identifier has a sector of this number: by the map's tally, or else by a pass over the identifier's runs.
fn has_sector(map: &NewMap, id: u32, number: u64) -> bool
    ensures { result ≡ nat_lt number (length (id_sectors map.now id)) }
{
    match tallied(map, id) {
        Some(sectors) => number < sectors,
        None => sector_of_id(map, id, number).is_some(),
    }
}

/// Whether an identifier has `need` sectors from a low byte on.
pub fn has_room(map: &NewMap, id: u32, low: u32, need: u64) -> bool
    requires some { 0 < need }
    requires few { need < 2 ^ 63 }
    ensures { result ≡ has_room map.now id low need }
{
    low < LOW_LIMIT && has_sector(map, id, low_start(map, low) + (need - 1))
}
