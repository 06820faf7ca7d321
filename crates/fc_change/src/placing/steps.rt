// Steps of a new map: what is taken of it, and what goes back.
ghost use Rattle.std.specs.Prelude.{◌≡◌, [], AllPairs, IfOk, IfSome, None};
ghost use Rattle.fc_image.specs.effects.Placed.{BeginsBefore};
ghost use Rattle.fc_plan.specs.Parts.{fronts};
ghost use Rattle.fc_change.specs.GrownSpace.{gone_at_once, kept_parts, plans_of, root_of};
ghost use Rattle.fc_change.specs.Steps.{IsStep, with_zone_0, zones_of};

use crate::lists::{as_list, push};
use crate::spaces::GrownPlace;
use fc_device::NoMemory;
use fc_newmap::NewMap;
use fc_plan::{Part, Plan, changed_zones};
use fc_writing::{MapStep, RootPlace, SpaceStep};
use std::alloc::Global;

// ---- what a step has

// The plan of an object, and then that of a directory, if there are any.
fn plans_of(alloc: Global, object: Option<Plan>, dir: Option<Plan>) -> Result<Vec<Plan>, NoMemory>
    ensures { IfOk result (λ plans. plans.items ≡ plans_of object dir) }
{
    let mut plans = as_list(alloc, object)?;
    if let Some(plan) = dir {
        push(&mut plans, plan)?;
    }
    Ok(plans)
}

// The identifier of a directory that keeps it: its old runs go back with the step that takes the new ones.
fn gone_at_once(alloc: Global, dir: &Option<Plan>, alone: bool) -> Result<Vec<u32>, NoMemory>
    ensures { IfOk result (λ gone. gone.items ≡ gone_at_once dir.now alone) }
{
    let Some(plan) = dir else {
        return Ok(Vec::new(alloc));
    };
    if !alone {
        return Ok(Vec::new(alloc));
    }
    let mut gone = Vec::new(alloc);
    push(&mut gone, plan.id)?;
    Ok(gone)
}

// The parts of that directory's plan: they don't go back.
fn kept_parts(alloc: Global, dir: &Option<Plan>, alone: bool) -> Result<Vec<Part>, NoMemory>
    ensures { IfOk result (λ kept. kept.items ≡ kept_parts dir.now alone) }
{
    let Some(plan) = dir else {
        return Ok(Vec::new(alloc));
    };
    if !alone {
        return Ok(Vec::new(alloc));
    }
    let mut kept = Vec::new(alloc);
    kept.extend_from_slice(&plan.parts)?;
    Ok(kept)
}

/// The root's new place in the record of the disc, if it is the root that grows.
pub fn root_of(grown: &Option<GrownPlace>) -> Option<RootPlace>
    ensures { result ≡ root_of grown.now }
{
    let Some(place) = grown else {
        return None;
    };
    if place.directory.node != 0 {
        return None;
    }
    Some(RootPlace {
        address: place.directory.address,
        len: place.directory.len,
    })
}

// Puts zone 0 before some zones, unless it is the first of them.
fn with_zone_0(zones: Vec<u16>) -> Result<Vec<u16>, NoMemory>
    ensures { IfOk result (λ more. more.items ≡ with_zone_0 zones.items) }
{
    let mut zones = zones;
    if let Some(0) = zones.first() {
        return Ok(zones);
    }
    match zones.insert(0, 0) {
        Ok(()) => Ok(zones),
        Err(_) => Err(NoMemory),
    }
}

// The zones that change, rising; zone 0 among them if the record of the disc has another root.
fn zones_of(
    alloc: Global,
    map: &NewMap,
    object: &Option<Plan>,
    dir: &Option<Plan>,
    gone: &[u32],
    root: Option<RootPlace>,
) -> Result<Vec<u16>, NoMemory>
    requires object { IfSome object.now (λ plan. AllPairs BeginsBefore (fronts plan.parts.items)) }
    requires dir { IfSome dir.now (λ plan. AllPairs BeginsBefore (fronts plan.parts.items)) }
    ensures { IfOk result (λ zones. zones.items ≡ zones_of map.now (plans_of object.now dir.now) gone.now root) }
{
    let mut zones = Vec::new(alloc);
    changed_zones(map, object.as_ref(), dir.as_ref(), gone, &mut zones)?;
    match root {
        Some(_) => with_zone_0(zones),
        None => Ok(zones),
    }
}

// ---- steps

/// The step by which the plan of an object is taken, and then that of a directory, if there are any, and by which the record of
/// the disc gets another root, if there is one. A directory that keeps its identifier gives its old runs back with it.
pub fn take_step(
    alloc: Global,
    map: &NewMap,
    object: Option<Plan>,
    dir: Option<Plan>,
    alone: bool,
    root: Option<RootPlace>,
) -> Result<MapStep, NoMemory>
    requires object { IfSome object (λ plan. AllPairs BeginsBefore (fronts plan.parts.items)) }
    requires dir { IfSome dir (λ plan. AllPairs BeginsBefore (fronts plan.parts.items)) }
    ensures { IfOk result (IsStep map.now (plans_of object dir) (gone_at_once dir alone) (kept_parts dir alone) root) }
{
    if object.is_none() && dir.is_none() && root.is_none() {
        return Ok(MapStep::Nothing);
    }
    let gone = gone_at_once(alloc, &dir, alone)?;
    let kept = kept_parts(alloc, &dir, alone)?;
    let zones = zones_of(alloc, map, &object, &dir, &gone, root)?;
    let plans = plans_of(alloc, object, dir)?;
    Ok(MapStep::New(SpaceStep {
        plans,
        gone,
        kept,
        root,
        zones,
    }))
}

/// The step by which identifiers go back, if any do.
pub fn give_step(alloc: Global, map: &NewMap, gone: Vec<u32>) -> Result<MapStep, NoMemory>
    ensures { IfOk result (IsStep map.now [] gone.items [] None) }
{
    if gone.is_empty() {
        return Ok(MapStep::Nothing);
    }
    let mut zones = Vec::new(alloc);
    changed_zones(map, None, None, &gone, &mut zones)?;
    Ok(MapStep::New(SpaceStep {
        plans: Vec::new(alloc),
        gone,
        kept: Vec::new(alloc),
        root: None,
        zones,
    }))
}
