// The runs of an identifier, in the order in which they are found.

ghost use Rattle.std.specs.Prelude.{◌≡◌, ◌<◌, ◌++◌, ◌∷◌, [], List, Contains, IfSome, MatchOption, OnSome, slice_get};
ghost use Rattle.fc_newmap.specs.Map.{ZoneRun, has_id, home_zone, id_runs};
ghost use Rattle.fc_newmap.specs.NewMap.{IsNewMap, IsOfRecord};
ghost use Rattle.fc_newmap.specs.Tally.{IsFirstIn};
ghost use Rattle.fc_newmap.specs.Walk.{IsBehind, StandsBeforeFirst, zone_up};

use crate::NewMap;
use crate::tally::Search;
use crate::walk::Walk;
use fc_record::Geometry;
use fc_zone::{Run, RunKind};

/// A place between two runs of an identifier, for a walk over all of them that can stop early. It costs a pass over
/// the words of the zones that it comes to. It begins in the zone in which the identifier's runs are looked for first,
/// and comes to all zones. With a tally of the map it begins at the identifier's first run, if that is known, or else
/// in the first zone that can have one, and ends in the last that can.
///
/// It borrows nothing, and is right as long as the map's runs stay as they are.
#[derive(Clone, Copy, Debug)]
pub struct RunCursor {
    /// The identifier.
    pub id: u32,
    /// Where it stands among all runs.
    pub walk: Walk,
}

/// The identifier of the map, and of the root on discs with one zone's map.
pub const MAP_ID: u32 = 2;

/// The zone in which an identifier's runs are looked for first.
pub fn home_zone(g: &Geometry, id: u32) -> u16
    requires { IsOfRecord g.now }
    ensures value { result ≡ home_zone g.now id }
    ensures low { result < g.now.zones }
{
    let zones = g.zones;
    if id == MAP_ID {
        zones / 2
    } else {
        (id / g.ids_per_zone % u32::from(zones)) as u16
    }
}

// The zone so many zones above a zone, and round.
pub fn zone_up(g: &Geometry, z: u16, n: u16) -> u16
    requires zone { z < g.now.zones }
    requires few { n < g.now.zones }
    ensures value { result ≡ zone_up g.now z n }
    ensures low { result < g.now.zones }
{
    let above = g.zones - z;
    if n < above { z + n } else { n - above }
}

// How many zones come after a zone in a search that begins at zone `home`.
fn zones_behind(g: &Geometry, home: u16, z: u16) -> u16
    requires zone { z < g.now.zones }
    requires home { home < g.now.zones }
    ensures { IsBehind g.now home z result }
{
    if z >= home {
        g.zones - 1 - (z - home)
    } else {
        home - 1 - z
    }
}

// Whether a run is one of an identifier.
fn has_id(id: u32, kind: RunKind) -> bool
    ensures { result ≡ has_id id kind }
{
    match kind {
        RunKind::Hole => false,
        RunKind::Id(other) => other == id,
    }
}

// Before the runs of an identifier in the zone in which its search begins, and in the zones after it.
fn before_first(map: &NewMap, id: u32, z: u16, search: Search) -> Walk
    requires map { IsNewMap map.now }
    requires zone { z < map.now.geometry.zones }
    requires start { (search.start ≡ 0 → ⊥) → IsFirstIn map.now id z search.start }
    ensures { StandsBeforeFirst map.now id z search.more result }
{
    if search.start == 0 {
        Walk::from_zone(map, z, search.more)
    } else {
        Walk::at_run(map, z, search.start, search.more)
    }
}

impl RunCursor {
    ghost use Rattle.fc_newmap.specs.Walk.{IsInZone, StandsAt, bits_left};

    /// Before the first run of an identifier.
    pub fn start(map: &NewMap, id: u32) -> Self
        ensures stands { StandsAt map.now (id_runs map.now id) result }
        ensures map { IsNewMap map.now }
    {
        let g = map.geometry();
        let search = map.search(id);
        let first = zone_up(g, home_zone(g, id), search.ahead);
        let walk = before_first(map, id, first, search);
        RunCursor { id, walk }
    }

    /// Goes past the next run of the identifier and gives it, with its zone. `None` exactly at the end, where it stays.
    pub fn next(&mut self, map: &NewMap) -> Option<(u16, Run)>
        requires { (left : List ZoneRun) × StandsAt map.now left self.old }
        ensures value { (left : List ZoneRun) → StandsAt map.now left self.old
            → MatchOption result ((left ≡ []) × StandsAt map.now [] self.new) (λ p. (rest : List ZoneRun) × ((left ≡ p ∷ rest) × StandsAt map.now rest self.new)) }
        ensures onward { OnSome result (bits_left self.new.walk < bits_left self.old.walk) }
        ensures within { IfSome result (IsInZone map.now.geometry) }
    {
        while let Some((z, run)) = self.walk.next(map) {
            if has_id(self.id, run.kind) {
                return Some((z, run));
            }
        }
        None
    }
}

impl NewMap {
    /// The first run of an identifier, with its zone.
    ///
    /// An identifier's runs are those found from its home zone upwards and round to the zone below it, each zone from its
    /// first bit (the RISC OS PRM, chapter FileCore, "New maps"). The home zone is that of the identifier divided by
    /// the identifiers of a zone, and the middle zone for identifier 2.
    pub fn first_run(&self, id: u32) -> Option<(u16, Run)>
        ensures { result ≡ slice_get (id_runs self.now id) 0 }
    {
        RunCursor::start(self, id).next(self)
    }

    /// The run that follows a run of an identifier, in the same order. It passes over the runs of the zone up to that
    /// run: a `RunCursor` goes through all runs without that.
    pub fn next_run(&self, id: u32, at: (u16, Run)) -> Option<(u16, Run)>
        requires { Contains (id_runs self.now id) at }
        ensures { (front rest : List ZoneRun) → id_runs self.now id ≡ front ++ at ∷ rest → result ≡ slice_get rest 0 }
    {
        let g = self.geometry();
        let more = zones_behind(g, home_zone(g, id), at.0);
        let walk = Walk::behind(self, at.0, at.1.start, more);
        RunCursor { id, walk }.next(self)
    }
}
