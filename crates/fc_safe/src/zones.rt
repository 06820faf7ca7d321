// The zones that change.
ghost use Rattle.std.specs.Prelude.{◌≡◌, ◌<◌, ◌++◌, ◌∷◌, [], ℕ, map, true, if◌then◌else◌, IfOk, OnOk};
ghost use Rattle.std.specs.List.Sorted.{IsStrictlyIncreasing};
ghost use Rattle.fc_plan.specs.Giving.{is_one_of};
ghost use Rattle.fc_plan.specs.declared.plan.Part.{Part};
ghost use Rattle.fc_safe.specs.Zones.{is_turned, zones_of_plans};

use crate::lists::push;
use crate::sets::zone_set;
use fc_device::NoMemory;
use fc_newmap::NewMap;
use fc_plan::{Part, Plan, changed_zones};
use std::alloc::Global;

// Adds the zones of parts.
fn push_zones(zones: &mut Vec<u16>, parts: &[Part]) -> Result<(), NoMemory>
    ensures { OnOk result (zones.new.items ≡ zones.old.items ++ map (λ (p : Part). p.zone) parts.now) }
{
    for part in parts {
        push(zones, part.zone)?;
    }
    Ok(())
}

// Adds the zones of the parts of plans.
fn push_plans(zones: &mut Vec<u16>, plans: &[Plan]) -> Result<(), NoMemory>
    ensures { OnOk result (zones.new.items ≡ zones.old.items ++ zones_of_plans plans.now) }
{
    for plan in plans {
        push_zones(zones, &plan.parts)?;
    }
    Ok(())
}

// Adds zone 0, if the record of the disc has another root.
fn push_root(zones: &mut Vec<u16>, root: bool) -> Result<(), NoMemory>
    ensures { OnOk result (zones.new.items ≡ zones.old.items ++ (if root then 0 ∷ [] else [])) }
{
    if !root {
        return Ok(());
    }
    push(zones, 0)
}

/// The zones that change if plans are taken and identifiers go back, rising and each once; zone 0 among them if the record of the disc has another root.
pub fn zones_of(
    alloc: Global,
    map: &NewMap,
    plans: &[Plan],
    gone: &[u32],
    root: bool,
) -> Result<Vec<u16>, NoMemory>
    requires { (z : ℕ) → is_one_of (zones_of_plans plans.now) z ≡ true → z < map.now.geometry.zones }
    ensures rising { IfOk result (λ zones. IsStrictlyIncreasing zones.items) }
    ensures same { IfOk result (λ zones. (z : ℕ) → is_one_of zones.items z ≡ is_turned map.now plans.now gone.now root z) }
{
    map.is_map();
    let mut zones = Vec::new(alloc);
    changed_zones(map, None, None, gone, &mut zones)?;
    push_plans(&mut zones, plans)?;
    push_root(&mut zones, root)?;
    Ok(zone_set(zones))
}
