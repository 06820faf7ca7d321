// What a join looks up in a map.
ghost use Rattle.std.specs.Prelude.{◌≡◌, ◌<◌, ◌≤◌, ◌+◌, ◌++◌, ◌∷◌, [], true, if◌then◌else◌, filter, length, nat_lt};
ghost use Rattle.fc_newmap.specs.Map.{has_id, runs_of};
ghost use Rattle.fc_newmap.specs.RunsLaw.{placed};
ghost use Rattle.fc_newmap.specs.Walk.{StandsBefore};
ghost use Rattle.fc_image.specs.effects.Settled.{zones_with};
ghost use Rattle.fc_compact.specs.Joins.{has_run_in};

use arrayvec::ArrayVec;
use fc_newmap::{NewMap, Walk};
use fc_zone::RunKind;

// Whether a run is one of an identifier.
pub fn has_id(id: u32, kind: RunKind) -> bool
    ensures { result ≡ has_id id kind }
{
    match kind {
        RunKind::Hole => false,
        RunKind::Id(other) => other == id,
    }
}

// Before the runs of one zone.
pub fn walk_in(map: &NewMap, z: u16) -> Walk
    requires { z < map.now.geometry.zones }
    ensures { StandsBefore map.now (placed z (runs_of map.now z)) result }
{
    Walk::from_zone(map, z, 0)
}

// Whether a zone has a run of an identifier.
pub fn has_run(map: &NewMap, z: u16, id: u32) -> bool
    requires { z < map.now.geometry.zones }
    ensures { result ≡ has_run_in map.now id z }
{
    if !map.may_have(id, z) {
        return false;
    }
    let mut walk = walk_in(map, z);
    while let Some((_, run)) = walk.next(map) {
        if has_id(id, run.kind) {
            return true;
        }
    }
    false
}

// Appends a number to a list, if it is flagged.
pub fn push_if(changed: &mut ArrayVec<u16, 9>, z: u16, flag: bool)
    requires { flag ≡ true → length changed.old.items < 9 }
    ensures { changed.new.items ≡ (if flag then changed.old.items ++ z ∷ [] else changed.old.items) }
{
    if flag {
        changed.push(z);
    }
}

// The zones in which an identifier has runs.
pub fn zones_of(map: &NewMap, id: u32) -> ArrayVec<u16, 9>
    requires { length (zones_with map.now id) ≤ 8 }
    ensures { result.items ≡ zones_with map.now id }
{
    let zones = map.geometry().zones;
    let mut found: ArrayVec<u16, 9> = ArrayVec::new();
    for z in 0..zones {
        let flag = has_run(map, z, id);
        push_if(&mut found, z, flag);
    }
    found
}

// Appends those of some zones that are above a zone.
pub fn push_above(list: &mut ArrayVec<u16, 9>, zones: &[u16], z: u16)
    requires { length list.old.items + length (filter (λ y. nat_lt z y) zones.now) ≤ 9 }
    ensures { list.new.items ≡ list.old.items ++ filter (λ y. nat_lt z y) zones.now }
{
    for y in zones {
        push_if(list, *y, z < *y);
    }
}

// Appends those of some zones that are below a zone.
pub fn push_below(list: &mut ArrayVec<u16, 9>, zones: &[u16], z: u16)
    requires { length list.old.items + length (filter (λ y. nat_lt y z) zones.now) ≤ 9 }
    ensures { list.new.items ≡ list.old.items ++ filter (λ y. nat_lt y z) zones.now }
{
    for y in zones {
        push_if(list, *y, *y < z);
    }
}

// The zones that a join into a hole of this zone changes, by those in which the identifier has runs.
pub fn with_zone(zones: &ArrayVec<u16, 9>, zone: u16) -> ArrayVec<u16, 9>
    requires { length zones.now.items ≤ 8 }
    ensures { result.items ≡ filter (λ y. nat_lt y zone) zones.now.items ++ zone ∷ filter (λ y. nat_lt zone y) zones.now.items }
{
    let mut changed: ArrayVec<u16, 9> = ArrayVec::new();
    push_below(&mut changed, zones, zone);
    changed.push(zone);
    push_above(&mut changed, zones, zone);
    changed
}
