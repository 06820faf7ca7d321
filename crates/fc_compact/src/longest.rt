// The longest hole of a map, found again without a pass over the holes of all zones.
ghost use Rattle.std.specs.Prelude.{◌≡◌, ◌<◌, ◌≤◌, ℕ, All, Contains, IfNone, IfSome, get_or, length, true, false};
ghost use Rattle.fc_newmap.specs.Map.{ZoneRun};
ghost use Rattle.fc_compact.specs.Joins.{is_listed};

use crate::lookup::walk_in;
use fc_newmap::NewMap;
use fc_zone::Run;

/// How many zones a map can have at most: one for each number of a zone.
pub const ZONES: usize = 65536;

ghost use Rattle.fc_compact.specs.Longest.{AreLongest, IsLongest, holes_of, longest_in, zones_at_most};

// The length of the longest hole of a zone, or 0 if it has none.
fn longest_in(map: &NewMap, z: u16) -> u16
    requires { z < map.now.geometry.zones }
    ensures { result ≡ longest_in map.now z }
{
    map.is_map();
    let mut most = 0;
    let mut walk = walk_in(map, z);
    while let Some((_, hole)) = walk.next_hole(map) {
        most = hole.len.max(most);
    }
    most as u16
}

// Finds the longest hole of each zone.
pub fn measure_all(map: &NewMap, lens: &mut [u16])
    requires { length lens.old ≡ zones_at_most }
    ensures size { length lens.new ≡ zones_at_most }
    ensures longest { AreLongest map.now lens.new }
{
    for z in 0..map.geometry().zones {
        lens[z as usize] = longest_in(map, z);
    }
}

// Finds the longest hole again of each of these zones.
pub fn measure(map: &NewMap, lens: &mut [u16], zones: &[u16])
    requires size { length lens.old ≡ zones_at_most }
    requires low { All (λ z. z < map.now.geometry.zones) zones.now }
    ensures size { length lens.new ≡ zones_at_most }
    ensures here { (z : ℕ) → is_listed zones.now z ≡ true → get_or lens.new z 0 ≡ longest_in map.now z }
    ensures others { (z : ℕ) → is_listed zones.now z ≡ false → get_or lens.new z 0 ≡ get_or lens.old z 0 }
{
    for z in zones {
        lens[*z as usize] = longest_in(map, *z);
    }
}

// The first zone with a hole as long as any.
fn longest_zone(lens: &[u16], zones: u16) -> u16
    requires size { length lens.now ≡ zones_at_most }
    requires some { 0 < zones }
    ensures low { result < zones }
    ensures most { (z : ℕ) → z < zones → get_or lens.now z 0 ≤ get_or lens.now result 0 }
{
    let mut best = 0;
    for z in 0..zones {
        if lens[best as usize] < lens[z as usize] {
            best = z;
        }
    }
    best
}

// The first hole of a zone that has this length.
fn hole_in(map: &NewMap, z: u16, len: u16) -> Option<(u16, Run)>
    requires { z < map.now.geometry.zones }
    ensures found { IfSome result (λ p. Contains (holes_of map.now z) p × (p.1.len ≡ len)) }
    ensures none { IfNone result ((p : ZoneRun) → Contains (holes_of map.now z) p → p.1.len ≡ len → ⊥) }
{
    let mut walk = walk_in(map, z);
    while let Some((zone, hole)) = walk.next_hole(map) {
        if hole.len == u32::from(len) {
            return Some((zone, hole));
        }
    }
    None
}

// The longest hole of a map, with its zone, by the longest of each zone.
pub fn longest_hole(map: &NewMap, lens: &[u16]) -> Option<(u16, Run)>
    requires size { length lens.now ≡ zones_at_most }
    requires longest { AreLongest map.now lens.now }
    ensures { IsLongest map.now result }
{
    let z = longest_zone(lens, map.geometry().zones);
    hole_in(map, z, lens[z as usize])
}
