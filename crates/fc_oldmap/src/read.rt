// The holes of a map's bytes.

ghost use Rattle.std.specs.Prelude.{◌≡◌, ◌+◌, ◌*◌, ◌^◌, ◌<◌, ◌≤◌, length, IfOk, IfErr, None, Some};
ghost use Rattle.fc_bytes.specs.Words.{u24_at};
ghost use Rattle.fc_oldmap.specs.Holes.{hole, hole_end};
ghost use Rattle.fc_oldmap.specs.OldMap.{holes_of, is_free_end, is_hole_right, map_units, wrong_hole};

use crate::Hole;
use crate::holes::{Holes, PLACES};
use arrayvec::ArrayVec;
use fc_bytes::le24;

// The hole of an index, as it is stored.
fn stored_hole(b: &[u8], index: usize) -> Hole
    requires size { length b.now ≡ 512 }
    requires place { index < 82 }
    ensures hole { result ≡ hole (u24_at b.now (3 * index)) (u24_at b.now (256 + 3 * index)) }
    ensures fits { hole_end result < 2 ^ 25 }
{
    Hole {
        start: le24(b, 3 * index),
        len: le24(b, 256 + 3 * index),
    }
}

// Whether a hole lies from `floor` on inside the disc and in whole sectors.
#[tactic(auto, unfolding(crate::specs::OldMap::is_hole_right))]
fn is_hole_right(hole: Hole, floor: u32, disc_units: u32, sector_units: u32) -> bool
    requires fits { hole_end hole < 2 ^ 32 }
    requires units { 0 < sector_units }
    ensures { result ≡ is_hole_right disc_units sector_units floor hole }
{
    let end = hole.end();
    0 < hole.len
        && floor <= hole.start
        && end <= disc_units
        && hole.start % sector_units == 0
        && end % sector_units == 0
}

// The units of the map itself.
fn map_units(sector_units: u32) -> u32
    ensures { result ≡ map_units sector_units }
{
    if sector_units == 4 { 4 } else { 2 }
}

/// Whether FreeEnd is three times a number of holes that a map has places for.
pub fn is_free_end(free_end: u8) -> bool
    ensures { result ≡ is_free_end free_end }
{
    free_end % 3 == 0 && usize::from(free_end) <= PLACES
}

/// The first holes of a map's 512 bytes, or the index of the first of them that is wrong.
pub fn read_holes(b: &[u8], count: usize, disc_units: u32, sector_units: u32) -> Result<Holes, u32>
    requires size { length b.now ≡ 512 }
    requires few { count ≤ 82 }
    requires units { 0 < sector_units }
    ensures ok { IfOk result (λ holes. (holes.items ≡ holes_of b.now count) × (wrong_hole disc_units sector_units 0 (map_units sector_units) (holes_of b.now count) ≡ None)) }
    ensures err { IfErr result (λ index. wrong_hole disc_units sector_units 0 (map_units sector_units) (holes_of b.now count) ≡ Some index) }
{
    let mut holes: Holes = ArrayVec::new();
    let mut floor = map_units(sector_units);
    for index in 0..count {
        let hole = stored_hole(b, index);
        if !is_hole_right(hole, floor, disc_units, sector_units) {
            return Err(index as u32);
        }
        floor = hole.end();
        holes.push(hole);
    }
    Ok(holes)
}
