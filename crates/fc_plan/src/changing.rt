// Which zones a command changes.

ghost use Rattle.std.specs.Prelude.{◌≡◌, ◌<◌, ◌≤◌, ◌++◌, ◌∷◌, [], if◌then◌else◌, ℕ, List, AllPairs, Contains, IsTrue, OnErr, OnOk, true, false, filter};
ghost use Rattle.fc_image.specs.effects.Placed.{BeginsBefore};
ghost use Rattle.fc_image.specs.effects.Steady.{has_id_that};
ghost use Rattle.fc_newmap.specs.Map.{runs_of, zone_numbers};
ghost use Rattle.fc_plan.specs.Applied.{is_changed, parts_in, plan_in};
ghost use Rattle.fc_plan.specs.Giving.{has_run_of, is_one_of};

use crate::Plan;
use crate::applying::parts_in;
use crate::giving::{is_one_of, next_zone};
use crate::plan::{has_part, next_part};
use fc_device::NoMemory;
use fc_newmap::{NewMap, Walk};
use fc_zone::RunKind;

// Whether a run is of one of some identifiers.
fn is_of(ids: &[u32], kind: RunKind) -> bool
    ensures { result ≡ has_id_that (is_one_of ids.now) kind }
{
    match kind {
        RunKind::Hole => false,
        RunKind::Id(id) => is_one_of(ids, id),
    }
}

// Whether the map's tally says that a zone has a run of one of some identifiers. `false` says nothing. Costs no search.
fn is_said_to_have(map: &NewMap, z: u16, ids: &[u32]) -> bool
    requires { z < map.now.geometry.zones }
    ensures { IsTrue result → has_run_of ids.now (runs_of map.now z) ≡ true }
{
    for i in 0..ids.len() {
        if map.only_zone_of(ids[i]) == Some(z) {
            return true;
        }
    }
    false
}

// Whether a pass over a zone comes to a run of one of some identifiers.
fn meets_run_of(map: &NewMap, z: u16, ids: &[u32]) -> bool
    requires { z < map.now.geometry.zones }
    ensures { result ≡ has_run_of ids.now (runs_of map.now z) }
{
    let mut walk = Walk::from_zone(map, z, 0);
    while let Some((_, run)) = walk.next(map) {
        if is_of(ids, run.kind) {
            return true;
        }
    }
    false
}

// Whether a zone has a run of one of some identifiers. The pass over it is saved where the tally knows.
fn has_run_of(map: &NewMap, z: u16, ids: &[u32]) -> bool
    requires { z < map.now.geometry.zones }
    ensures { result ≡ has_run_of ids.now (runs_of map.now z) }
{
    is_said_to_have(map, z, ids) || meets_run_of(map, z, ids)
}

// Whether something is taken or given back in a zone.
fn is_changed(map: &NewMap, object: Option<&Plan>, dir: Option<&Plan>, gone: &[u32], z: u16) -> bool
    requires zone { z < map.now.geometry.zones }
    requires object { AllPairs BeginsBefore (parts_in (plan_in object)) }
    requires dir { AllPairs BeginsBefore (parts_in (plan_in dir)) }
    ensures { result ≡ is_changed map.now (plan_in object.entry) (plan_in dir.entry) gone.now z }
{
    has_part(parts_in(object), z) || has_part(parts_in(dir), z) || has_run_of(map, z, gone)
}

// The least zone from one on that may change, and the number of zones if none does.
fn next_change(map: &NewMap, object: Option<&Plan>, dir: Option<&Plan>, gone: &[u32], z: u16) -> u16
    requires zone { z ≤ map.now.geometry.zones }
    requires object { AllPairs BeginsBefore (parts_in (plan_in object)) }
    requires dir { AllPairs BeginsBefore (parts_in (plan_in dir)) }
    ensures onward { z ≤ result }
    ensures low { result ≤ map.now.geometry.zones }
    ensures none { (y : ℕ) → z ≤ y → y < result → is_changed map.now (plan_in object.entry) (plan_in dir.entry) gone.now y ≡ false }
{
    let taken = next_part(parts_in(object), z).min(next_part(parts_in(dir), z));
    next_zone(map, gone, z).min(taken)
}

// Appends a zone, if it changes.
fn push_if(zones: &mut Vec<u16>, z: u16, changes: bool) -> Result<(), NoMemory>
    ensures ok { OnOk result (zones.new.items ≡ (if changes then zones.old.items ++ z ∷ [] else zones.old.items)) }
    ensures err { OnErr result (zones.new.items ≡ zones.old.items) }
{
    if !changes {
        return Ok(());
    }
    if zones.push(z).is_err() {
        return Err(NoMemory);
    }
    Ok(())
}

// Appends the zones that change, and after `NoMemory` some of them.
fn push_changed(
    map: &NewMap,
    object: Option<&Plan>,
    dir: Option<&Plan>,
    gone: &[u32],
    zones: &mut Vec<u16>,
) -> Result<(), NoMemory>
    requires object { AllPairs BeginsBefore (parts_in (plan_in object)) }
    requires dir { AllPairs BeginsBefore (parts_in (plan_in dir)) }
    ensures ok { OnOk result (zones.new.items ≡ zones.old.items ++ filter (is_changed map.now (plan_in object.entry) (plan_in dir.entry) gone.now) (zone_numbers map.now.geometry)) }
    ensures grown { (more : List ℕ) × (zones.new.items ≡ zones.old.items ++ more) }
{
    let all = map.geometry().zones;
    let mut z = next_change(map, object, dir, gone, 0);
    while z < all {
        let changes = is_changed(map, object, dir, gone, z);
        push_if(zones, z, changes)?;
        z = next_change(map, object, dir, gone, z + 1);
    }
    Ok(())
}

/// Appends the zones in which `apply` with these plans and identifiers takes something or gives something back, rising
/// and each once. The map is the one before `apply`. After `NoMemory` the vector is as before.
pub fn changed_zones(
    map: &NewMap,
    object: Option<&Plan>,
    dir: Option<&Plan>,
    gone: &[u32],
    zones: &mut Vec<u16>,
) -> Result<(), NoMemory>
    requires object { AllPairs BeginsBefore (parts_in (plan_in object)) }
    requires dir { AllPairs BeginsBefore (parts_in (plan_in dir)) }
    ensures ok { OnOk result (zones.new.items ≡ zones.old.items ++ filter (is_changed map.now (plan_in object.entry) (plan_in dir.entry) gone.now) (zone_numbers map.now.geometry)) }
    ensures others { OnOk result ((z : ℕ) → z < map.now.geometry.zones → (Contains zones.new.items z → ⊥) → is_changed map.now (plan_in object.entry) (plan_in dir.entry) gone.now z ≡ false) }
    ensures err { OnErr result (zones.new.items ≡ zones.old.items) }
{
    let len = zones.len();
    let pushed = push_changed(map, object, dir, gone, zones);
    if pushed.is_err() {
        zones.truncate(len);
    }
    pushed
}
