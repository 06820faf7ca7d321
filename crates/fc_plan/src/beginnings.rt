// Where runs of some identifiers begin in a zone, and how many bits they have.

ghost use Rattle.std.specs.Prelude.{◌≡◌, ◌<◌, ◌≤◌, IfSome, min};
ghost use Rattle.std.specs.Option.{option_map_or};
ghost use Rattle.fc_newmap.specs.Map.{runs_of};
ghost use Rattle.fc_newmap.specs.NewMap.{IsNewMap};
ghost use Rattle.fc_plan.specs.Beginnings.{BeginAt, StandsAhead, bits_if_of, bits_of_ids};

use crate::giving::is_one_of;
use fc_newmap::{NewMap, Walk};
use fc_zone::{Cursor, Run, RunKind};

// The lesser of a place and another, if there is another.
fn least(first: Option<u32>, start: u32) -> u32
    ensures { result ≡ option_map_or (min start) first start }
{
    match first {
        Some(first) => start.min(first),
        None => start,
    }
}

// Where the first run of a zone begins that is of one of these identifiers. `None` says nothing: the map's tally doesn't
// tell it of one of them, or none has a run there.
fn first_start(map: &NewMap, ids: &[u32], z: u16) -> Option<u32>
    requires zone { z < map.now.geometry.zones }
    requires map { IsNewMap map.now }
    ensures { IfSome result (BeginAt ids.now (runs_of map.now z)) }
{
    let mut first = None;
    for i in 0..ids.len() {
        if map.may_have(ids[i], z) {
            first = Some(least(first, map.start_in(ids[i], z)?));
        }
    }
    first
}

// Before the first run of a zone that is of one of these identifiers, or before all runs of the zone if the map's tally
// doesn't tell where that is; and the hole before that place, if there is one.
pub fn beginning(map: &NewMap, ids: &[u32], z: u16) -> (Walk, Option<Run>)
    requires zone { z < map.now.geometry.zones }
    requires map { IsNewMap map.now }
    ensures { StandsAhead map.now ids.now z result.0 result.1 }
{
    let mut walk = Walk::from_zone(map, z, 0);
    let Some(start) = first_start(map, ids, z) else {
        return (walk, None);
    };
    walk.place = Cursor::before_run(map.bytes(z), &walk.shape, start);
    (walk, map.hole_before(z, start))
}

// At least the bits that these identifiers have in a zone: no more, if the map's tally tells it of that zone.
pub fn bits_of_all(map: &NewMap, ids: &[u32], z: u16) -> u64
    requires zone { z < map.now.geometry.zones }
    requires map { IsNewMap map.now }
    ensures { bits_of_ids ids.now (runs_of map.now z) ≤ result }
{
    let mut bits = 0u64;
    for i in 0..ids.len() {
        bits = bits.saturating_add(map.bits_in_zone(ids[i], z).unwrap_or(u64::MAX));
    }
    bits
}

// The bits of a run, if it is of one of these identifiers.
pub fn bits_if_of(ids: &[u32], run: Run) -> u64
    ensures { result ≡ bits_if_of ids.now run }
{
    match run.kind {
        RunKind::Id(id) if is_one_of(ids, id) => u64::from(run.len),
        _ => 0,
    }
}
