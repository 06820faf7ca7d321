// The runs of an identifier that are given back, and the one that stands for them.
ghost use Rattle.std.specs.Prelude.{◌≡◌, ◌<◌, ◌≤◌, ◌+◌, ◌%◌, ◌^◌, ◌++◌, ◌∷◌, List, All, ℕ};
ghost use Rattle.std.specs.List.Sorted.{IsStrictlyIncreasing};
ghost use Rattle.fc_zone.specs.declared.Run.{Run};
ghost use Rattle.fc_newmap.specs.Edits.{IsEdit};
ghost use Rattle.fc_newmap.specs.Map.{runs_of};
ghost use Rattle.fc_compact.specs.Slides.{HasRuns, IsPart, hole_at, run_at};
ghost use Rattle.fc_compact.specs.Joins.{EditsListed, HasBetween, all_freed, changed_runs, freed, hole_part};

use crate::lookup::has_id;
use fc_newmap::{NewMap, Walk};
use fc_zone::Run;

// Turns a run into a hole, if it is one of the identifier.
fn release_run(map: &mut NewMap, z: u16, run: Run, id: u32)
    requires zone { z < map.old.geometry.zones }
    requires run { HasBetween map.old z run }
    ensures runs { (front rest : List Run) → HasRuns map.old z (front ++ run ∷ rest) → HasRuns map.new z (front ++ freed id run ∷ rest) }
    ensures edit { IsEdit map.old map.new z }
{
    map.is_map();
    if has_id(id, run.kind) {
        map.release(z, run.start);
    }
}

// Turns each run of an identifier in a zone into a hole, in one pass over the zone's words.
fn release_in(map: &mut NewMap, z: u16, id: u32)
    requires zone { z < map.old.geometry.zones }
    ensures runs { runs_of map.new z ≡ all_freed id (runs_of map.old z) }
    ensures edit { IsEdit map.old map.new z }
{
    let walk = Walk::from_zone(map, z, 0);
    let shape = walk.shape;
    let mut place = walk.place;
    while let Some(run) = place.next(map.bytes(z), &shape) {
        release_run(map, z, run, id);
    }
}

// Turns all runs of an identifier in these zones into holes.
pub fn release_all(map: &mut NewMap, changed: &[u16], id: u32)
    requires rising { IsStrictlyIncreasing changed.now }
    requires zones { All (λ z. z < map.old.geometry.zones) changed.now }
    ensures edits { EditsListed map.old map.new changed.now }
    ensures runs { (z : ℕ) → runs_of map.new z ≡ changed_runs (all_freed id) changed.now z (runs_of map.old z) }
{
    map.is_map();
    for z in changed {
        release_in(map, *z, id);
    }
}

// Cuts a hole after `len` bits, if more are left of it.
fn cut_hole(map: &mut NewMap, z: u16, start: u32, len: u32, left: u32)
    requires zone { z < map.old.geometry.zones }
    requires whole { len % map.old.geometry.q ≡ 0 }
    requires room { map.old.geometry.min ≤ len }
    requires left { IsPart map.old.geometry.min left }
    requires hole { HasBetween map.old z (hole_at start (len + left)) }
    ensures runs { (front rest : List Run) → HasRuns map.old z (front ++ hole_at start (len + left) ∷ rest)
        → HasRuns map.new z (front ++ hole_at start len ∷ hole_part (start + len) left rest) }
    ensures edit { IsEdit map.old map.new z }
{
    map.is_map();
    if left > 0 {
        map.split(z, start, len);
    }
}

// Makes the front of a hole a run of an identifier.
pub fn take_front(map: &mut NewMap, z: u16, start: u32, id: u32, len: u32, left: u32)
    requires zone { z < map.old.geometry.zones }
    requires some_id { 0 < id }
    requires id_fits { id < 2 ^ map.old.geometry.idlen }
    requires whole { len % map.old.geometry.q ≡ 0 }
    requires room { map.old.geometry.min ≤ len }
    requires left { IsPart map.old.geometry.min left }
    requires hole { HasBetween map.old z (hole_at start (len + left)) }
    ensures runs { (front rest : List Run) → HasRuns map.old z (front ++ hole_at start (len + left) ∷ rest)
        → HasRuns map.new z (front ++ run_at start len id ∷ hole_part (start + len) left rest) }
    ensures edit { IsEdit map.old map.new z }
{
    cut_hole(map, z, start, len, left);
    map.label(z, start, id);
}
