// Whether a new map has the space that an object and a directory need.
ghost use Rattle.std.specs.Prelude.{◌≡◌, ◌<◌, ◌≤◌, ◌^◌, length, nat_le};
ghost use Rattle.fc_image.specs.effects.Sharing.{new_ids, units};
ghost use Rattle.fc_image.specs.effects.Short.{one_if};
ghost use Rattle.fc_newmap.specs.NewMap.{IsOfRecord};
ghost use Rattle.fc_change.specs.Shortage.{AnswersBits, bits_for, ids_for, short_of};

use fc_names::Refusal;
use fc_newmap::NewMap;
use fc_record::Geometry;

// The bits that so many bytes take.
fn units(g: &Geometry, bytes: u32) -> u64
    requires record { IsOfRecord g.now }
    ensures value { result ≡ units g.now bytes }
    ensures few { result < 2 ^ 62 }
{
    if bytes == 0 {
        return 0;
    }
    let bits = u64::from(bytes).div_ceil(g.bit_bytes);
    bits.next_multiple_of(u64::from(g.q)).max(u64::from(g.min))
}

// The bits that the holes must have together, for an object and for a directory.
fn bits_for(g: &Geometry, object: u64, dir: u64) -> u64
    requires record { IsOfRecord g.now }
    requires object { object < 2 ^ 62 }
    requires dir { dir < 2 ^ 62 }
    ensures { result ≡ bits_for g.now object dir }
{
    if object > 0 && dir > 0 {
        object + dir + 2 * u64::from(g.min)
    } else {
        object + dir
    }
}

// 1 if a test holds.
fn one_if(test: bool) -> u64
    ensures value { result ≡ one_if test }
    ensures few { result ≤ 1 }
{
    if test { 1 } else { 0 }
}

// The new identifiers that both need. A directory that was alone in its own keeps that.
fn ids_for(object: u64, alone: bool, dir: u64) -> u64
    ensures { result ≡ ids_for object alone dir }
{
    one_if(object > 0) + one_if(dir > 0 && !alone)
}

/// Whether so many identifiers are left for new objects.
pub fn has_ids(map: &NewMap, count: u64) -> bool
    ensures { result ≡ nat_le count (length (new_ids map.now)) }
{
    map.is_map();
    let mut from = 3;
    for _ in 0..count {
        let Some(id) = map.next_unused(from) else {
            return false;
        };
        from = id + 1;
    }
    true
}

/// The bits that the holes of a map must have together for an object of so many bytes, and for a directory that gets `len` new ones
/// and may be alone in its identifier; none of either is needed for 0. `IdsFull` if too few identifiers are left.
pub fn bits_needed(map: &NewMap, bytes: u32, alone: bool, len: u32) -> Result<u64, Refusal>
    ensures { AnswersBits map.now (short_of map.now bytes alone len) result }
{
    map.is_map();
    let g = map.geometry();
    let object = units(g, bytes);
    let dir = units(g, len);
    if has_ids(map, ids_for(object, alone, dir)) {
        Ok(bits_for(g, object, dir))
    } else {
        Err(Refusal::IdsFull)
    }
}
