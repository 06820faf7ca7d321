// A walk over the runs of some zones of a map, in one pass over the zones' words.

ghost use Rattle.std.specs.Prelude.{◌≡◌, ◌+◌, ◌-◌, ◌^◌, ◌<◌, ◌≤◌, ◌++◌, ◌∷◌, [], List, IfSome, IsFalse, IsTrue, MatchOption};
ghost use Rattle.fc_zone.specs.Edits.{HasRunAt};
ghost use Rattle.fc_zone.specs.declared.Run.{Run};
ghost use Rattle.fc_newmap.specs.Map.{ZoneRun, all_runs, runs_in, runs_of, sector_of, shape};
ghost use Rattle.fc_newmap.specs.NewMap.{IsNewMap};
ghost use Rattle.fc_newmap.specs.RunsLaw.{placed};

use crate::NewMap;
use crate::shapes::shape_of;
use fc_record::Geometry;
use fc_zone::{Cursor, Run, ZoneShape};

/// A place before the runs that are left in a zone and in the zones after it, round to zone 0, for a walk in one pass
/// over the words of the zones.
///
/// It borrows nothing, and is right as long as the map's runs stay as they are.
#[derive(Clone, Copy, Debug)]
pub struct Walk {
    /// The shape of the zone in which it stands.
    pub shape: ZoneShape,
    /// Where it stands in that zone.
    pub place: Cursor,
    /// How many zones come after that zone.
    pub more: u16,
}

ghost use Rattle.fc_newmap.specs.Walk.{zone_after};

// The zone above a zone, or zone 0 above the last.
fn zone_after(g: &Geometry, z: u16) -> u16
    requires { z < g.now.zones }
    ensures value { result ≡ zone_after g.now z }
    ensures low { result < g.now.zones }
{
    let last = g.zones - 1;
    if z == last { 0 } else { z + 1 }
}

impl Walk {
    ghost use Rattle.fc_newmap.specs.Walk.{HasPassedHole, IsInZone, StandsBefore, bits_left, holes_in, runs_after, zones_from};

    /// Before the runs of a zone and of `more` zones after it.
    pub fn from_zone(map: &NewMap, z: u16, more: u16) -> Self
        requires { z < map.now.geometry.zones }
        ensures stands { StandsBefore map.now (placed z (runs_of map.now z) ++ runs_in map.now (zones_from map.now.geometry (zone_after map.now.geometry z) more)) result }
        ensures zone { result.shape.zone ≡ z }
        ensures map { IsNewMap map.now }
        ensures more { result.more ≡ more }
        ensures short { result.shape.end - result.place.at ≤ 8192 }
    {
        let shape = shape_of(map.geometry(), z);
        let place = Cursor::start(map.bytes(z), &shape);
        Walk { shape, place, more }
    }

    /// Before the run of a zone that begins at `start`, and before the runs of `more` zones after that zone. Of the zone only
    /// the links of the holes before the place are read.
    pub fn at_run(map: &NewMap, z: u16, start: u32, more: u16) -> Self
        requires zone { z < map.now.geometry.zones }
        requires run { HasRunAt (shape map.now.geometry z) (sector_of map.now z) start }
        ensures { (front rest : List Run) (run : Run) → runs_of map.now z ≡ front ++ run ∷ rest → run.start ≡ start
            → StandsBefore map.now (placed z (run ∷ rest) ++ runs_in map.now (zones_from map.now.geometry (zone_after map.now.geometry z) more)) result }
    {
        let shape = shape_of(map.geometry(), z);
        let place = Cursor::before_run(map.bytes(z), &shape, start);
        Walk { shape, place, more }
    }

    /// After the run of a zone that begins at `start`, and before `more` zones after that zone.
    pub fn behind(map: &NewMap, z: u16, start: u32, more: u16) -> Self
        requires zone { z < map.now.geometry.zones }
        requires run { (run : Run) × ((front rest : List Run) × ((run.start ≡ start) × (runs_of map.now z ≡ front ++ run ∷ rest))) }
        ensures { (front rest : List Run) (run : Run) → run.start ≡ start → runs_of map.now z ≡ front ++ run ∷ rest
            → StandsBefore map.now (placed z rest ++ runs_in map.now (zones_from map.now.geometry (zone_after map.now.geometry z) more)) result }
    {
        map.is_map();
        let mut walk = Walk::at_run(map, z, start, more);
        let _ = walk.next(map);
        walk
    }

    /// Before all runs of a map, in the order of zones and places.
    pub fn over_all(map: &NewMap) -> Self
        ensures stands { StandsBefore map.now (all_runs map.now) result }
        ensures short { bits_left result ≤ 2 ^ 32 }
        ensures map { IsNewMap map.now }
    {
        Walk::from_zone(map, 0, map.geometry().zones - 1)
    }

    /// Goes past the next run and gives it, with its zone. `None` exactly at the end, where it stays.
    pub fn next(&mut self, map: &NewMap) -> Option<(u16, Run)>
        requires { (left : List ZoneRun) × StandsBefore map.now left self.old }
        ensures value { (left : List ZoneRun) → StandsBefore map.now left self.old
            → MatchOption result ((left ≡ []) × StandsBefore map.now [] self.new) (λ p. (rest : List ZoneRun) × ((left ≡ p ∷ rest) × StandsBefore map.now rest self.new)) }
        ensures onward { IfSome result (λ p. (0 < p.1.len) × (bits_left self.new + p.1.len ≤ bits_left self.old)) }
        ensures within { IfSome result (IsInZone map.now.geometry) }
    {
        loop {
            if let Some(run) = self.next_here(map) {
                return Some((self.shape.zone, run));
            }
            if !self.next_zone(map) {
                return None;
            }
        }
    }

    /// Goes past the next hole and gives it, with its zone. `None` exactly if none is left. It costs a step for each hole and
    /// each zone, by the links between the holes of a zone.
    pub fn next_hole(&mut self, map: &NewMap) -> Option<(u16, Run)>
        requires { (left : List ZoneRun) × StandsBefore map.now left self.old }
        ensures value { (left : List ZoneRun) → StandsBefore map.now left self.old
            → MatchOption result ((holes_in left ≡ []) × StandsBefore map.now [] self.new) (λ p. (rest : List ZoneRun) × ((holes_in left ≡ p ∷ holes_in rest) × StandsBefore map.now rest self.new)) }
        ensures onward { IfSome result (λ p. (0 < p.1.len) × (bits_left self.new + p.1.len ≤ bits_left self.old)) }
        ensures within { IfSome result (IsInZone map.now.geometry) }
    {
        loop {
            if let Some(run) = self.next_hole_here(map) {
                return Some((self.shape.zone, run));
            }
            if !self.next_zone(map) {
                return None;
            }
        }
    }

    // Goes on to before the runs of the next zone, and answers whether one is left.
    fn next_zone(&mut self, map: &NewMap) -> bool
        requires { self.old.shape.zone < map.now.geometry.zones }
        ensures last { IsFalse result → (self.new ≡ self.old) × (self.new.more ≡ 0) }
        ensures stands { IsTrue result → StandsBefore map.now (runs_after map.now self.old) self.new }
        ensures less { IsTrue result → self.new.more + 1 ≡ self.old.more }
        ensures short { IsTrue result → self.new.shape.end - self.new.place.at ≤ 8192 }
    {
        if self.more == 0 {
            return false;
        }
        let z = zone_after(map.geometry(), self.shape.zone);
        *self = Walk::from_zone(map, z, self.more - 1);
        true
    }

    // Goes past the next hole of the zone, or past all its runs.
    fn next_hole_here(&mut self, map: &NewMap) -> Option<Run>
        requires { (left : List ZoneRun) × StandsBefore map.now left self.old }
        ensures value { (left : List ZoneRun) → StandsBefore map.now left self.old → HasPassedHole map.now left self.old self.new result }
        ensures zone { (self.new.shape ≡ self.old.shape) × (self.new.more ≡ self.old.more) }
        ensures onward { IfSome result (λ run. (0 < run.len) × (bits_left self.new + run.len ≤ bits_left self.old)) }
        ensures within { IfSome result (λ run. IsInZone map.now.geometry (self.new.shape.zone, run)) }
    {
        self.place
            .next_hole(map.bytes(self.shape.zone), &self.shape)
    }

    // Goes past the next run of the zone.
    fn next_here(&mut self, map: &NewMap) -> Option<Run>
        requires { (left : List ZoneRun) × StandsBefore map.now left self.old }
        ensures value { (left : List ZoneRun) → StandsBefore map.now left self.old
            → MatchOption result ((self.new ≡ self.old) × (left ≡ runs_in map.now (zones_from map.now.geometry (zone_after map.now.geometry self.old.shape.zone) self.old.more)))
            (λ run. (rest : List ZoneRun) × ((left ≡ (self.new.shape.zone, run) ∷ rest) × StandsBefore map.now rest self.new)) }
        ensures onward { IfSome result (λ run. (0 < run.len) × (bits_left self.new + run.len ≤ bits_left self.old)) }
        ensures within { IfSome result (λ run. IsInZone map.now.geometry (self.new.shape.zone, run)) }
    {
        self.place.next(map.bytes(self.shape.zone), &self.shape)
    }
}
