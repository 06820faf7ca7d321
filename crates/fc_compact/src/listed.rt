// The runs of an identifier, looked for in few zones.
ghost use Rattle.std.specs.Prelude.{◌≡◌, ◌<◌, ◌≤◌, ◌+◌, ◌*◌, ◌^◌, ◌++◌, ◌∷◌, ◌-◌, [], ◌&&◌, All, List, IfSome, IsFalse, IsTrue, MatchOption, OnSome, nat_le, nat_lt, drop, length};
ghost use Rattle.fc_newmap.specs.Map.{ZoneRun, bits_in, id_runs};
ghost use Rattle.fc_newmap.specs.Walk.{IsInZone, StandsAt, bits_left};
ghost use Rattle.fc_compact.specs.Joins.{HoldsRuns, ids_in};

use crate::lookup::{push_above, push_below};
use arrayvec::ArrayVec;
use fc_newmap::{NewMap, RunCursor, Walk, home_zone};
use fc_zone::Run;

/// A place between two runs of an identifier, for a walk over all of them, in their order, that comes to few zones alone: to
/// the one in which they are looked for first, and to those of a list.
///
/// It borrows nothing, and is right as long as the map's runs stay as they are.
#[derive(Drop)]
pub struct ListedRuns {
    /// The identifier.
    pub id: u32,
    /// The zones of the list, in the order in which runs are looked for.
    pub zones: ArrayVec<u16, 9>,
    /// To how many of them it has come.
    pub come: usize,
    /// Where it stands in a zone.
    pub cursor: RunCursor,
}

ghost use Rattle.fc_compact.specs.Listed.{StandsIn, runs_listed, zones_left};

// Before the runs of an identifier in one zone.
fn before_zone(map: &NewMap, id: u32, z: u16) -> RunCursor
    requires { z < map.now.geometry.zones }
    ensures stands { StandsAt map.now (ids_in map.now id z) result }
    ensures short { bits_left result.walk ≤ 8192 }
{
    let walk = Walk::from_zone(map, z, 0);
    RunCursor { id, walk }
}

impl ListedRuns {
    // Before the first run of an identifier, all of whose runs stand in these zones.
    pub fn start(map: &NewMap, id: u32, zones: &ArrayVec<u16, 9>) -> Self
        requires { HoldsRuns map.now id zones.now.items }
        ensures { StandsIn map.now (id_runs map.now id) result }
    {
        let home = home_zone(map.geometry(), id);
        let mut order: ArrayVec<u16, 9> = ArrayVec::new();
        push_above(&mut order, zones, home);
        push_below(&mut order, zones, home);
        let cursor = before_zone(map, id, home);
        ListedRuns {
            id,
            zones: order,
            come: 0,
            cursor,
        }
    }

    // Goes past the next run of the identifier and gives it, with its zone. `None` exactly at the end, where it stays.
    pub fn next(&mut self, map: &NewMap) -> Option<(u16, Run)>
        requires { (left : List ZoneRun) × StandsIn map.now left self.old }
        ensures value { (left : List ZoneRun) → StandsIn map.now left self.old
            → MatchOption result ((left ≡ []) × StandsIn map.now [] self.new) (λ p. (rest : List ZoneRun) × ((left ≡ p ∷ rest) × StandsIn map.now rest self.new)) }
        ensures onward { OnSome result (zones_left self.new < zones_left self.old) }
        ensures within { IfSome result (IsInZone map.now.geometry) }
    {
        loop {
            if let Some(run) = self.cursor.next(map) {
                return Some(run);
            }
            if !self.next_zone(map) {
                return None;
            }
        }
    }

    // Goes on to before the runs of the identifier in the next zone, and answers whether one is left.
    fn next_zone(&mut self, map: &NewMap) -> bool
        requires { All (λ z. z < map.now.geometry.zones) self.old.zones.items }
        ensures last { IsFalse result → (self.new ≡ self.old) × (drop self.old.come self.old.zones.items ≡ []) }
        ensures stands { IsTrue result → StandsIn map.now (runs_listed map.now self.old.id (drop self.old.come self.old.zones.items)) self.new }
        ensures less { IsTrue result → zones_left self.new < 8193 * (length self.old.zones.items - self.old.come) }
        ensures short { IsTrue result → length self.new.zones.items - self.new.come < length self.old.zones.items - self.old.come }
    {
        if self.come >= self.zones.len() {
            return false;
        }
        self.cursor = before_zone(map, self.id, self.zones[self.come]);
        self.come += 1;
        true
    }
}

// Whether an identifier has more than one run. Goes no further than to the second.
fn has_two(map: &NewMap, id: u32, zones: &ArrayVec<u16, 9>) -> bool
    requires { HoldsRuns map.now id zones.now.items }
    ensures { result ≡ nat_lt 1 (length (id_runs map.now id)) }
{
    let mut runs = ListedRuns::start(map, id, zones);
    let Some(_) = runs.next(map) else {
        return false;
    };
    let Some(_) = runs.next(map) else {
        return false;
    };
    true
}

// Whether an identifier has more than one run, and all together have at most so many bits, by a search for them.
fn several_found(map: &NewMap, id: u32, zones: &ArrayVec<u16, 9>, most: u32) -> bool
    requires { HoldsRuns map.now id zones.now.items }
    ensures { result ≡ (nat_lt 1 (length (id_runs map.now id)) && nat_le (bits_in (id_runs map.now id)) most) }
{
    let mut total = 0u64;
    let mut seen = false;
    let mut several = false;
    let mut runs = ListedRuns::start(map, id, zones);
    while let Some((_, run)) = runs.next(map) {
        total += u64::from(run.len);
        several = seen;
        seen = true;
        if total > u64::from(most) {
            return false;
        }
    }
    several
}

// Whether an identifier has more than one run, and all together have at most so many bits. All of them stand in these zones.
pub fn has_several(map: &NewMap, id: u32, zones: &ArrayVec<u16, 9>, most: u32) -> bool
    requires { HoldsRuns map.now id zones.now.items }
    ensures { result ≡ (nat_lt 1 (length (id_runs map.now id)) && nat_le (bits_in (id_runs map.now id)) most) }
{
    match map.bits_of(id) {
        Some(bits) => bits <= u64::from(most) && has_two(map, id, zones),
        None => several_found(map, id, zones, most),
    }
}

// The bits of all runs of an identifier, by a search for them.
fn bits_found(map: &NewMap, id: u32, zones: &ArrayVec<u16, 9>) -> u32
    requires few { bits_in (id_runs map.now id) < 2 ^ 32 }
    requires zones { HoldsRuns map.now id zones.now.items }
    ensures { result ≡ bits_in (id_runs map.now id) }
{
    let mut total = 0;
    let mut runs = ListedRuns::start(map, id, zones);
    while let Some((_, run)) = runs.next(map) {
        total += run.len;
    }
    total
}

// The bits of all runs of an identifier. All of them stand in these zones.
pub fn bits_of(map: &NewMap, id: u32, zones: &ArrayVec<u16, 9>) -> u32
    requires few { bits_in (id_runs map.now id) < 2 ^ 32 }
    requires zones { HoldsRuns map.now id zones.now.items }
    ensures { result ≡ bits_in (id_runs map.now id) }
{
    match map.bits_of(id) {
        Some(bits) => bits as u32,
        None => bits_found(map, id, zones),
    }
}
