// The extents of an object in a plan's space, from a sector of it on, before the map has it.
ghost use Rattle.std.specs.Prelude.{◌≡◌, ◌<◌, ◌+◌, ◌^◌, ◌++◌, All, IfOk, OnOk, drop, length, take};
ghost use Rattle.fc_newmap.specs.Map.{sectors_of};
ghost use Rattle.fc_newmap.specs.NewMap.{IsOfRecord};
ghost use Rattle.fc_newmap.specs.Walk.{IsInZone};
ghost use Rattle.fc_objects.specs.Extents.{extent_sectors, sectors_in};
ghost use Rattle.fc_plan.specs.Parts.{front_at, fronts};
ghost use Rattle.fc_placing.specs.Extents.{parts_met, sectors_if};
ghost use Rattle.fc_change.specs.GrownSpace.{plan_sectors};
ghost use Rattle.fc_safe.specs.Extents.{stretch_left};

use crate::lists::push;
use fc_device::{Extent, NoMemory};
use fc_newmap::{NewMap, extent_of};
use fc_plan::{Part, Plan};
use fc_record::Geometry;
use fc_space::is_met;
use fc_zone::{Run, RunKind};
use std::alloc::Global;

/// What is looked for in rows of sectors: so many sectors, after so many others.
#[derive(Clone, Copy)]
pub struct Stretch {
    pub skip: u64,
    pub need: u64,
}

// Adds a row, unless it is empty.
fn push_some(place: &mut Vec<Extent>, row: Extent) -> Result<(), NoMemory>
    ensures { OnOk result (sectors_in place.new.items ≡ sectors_in place.old.items ++ extent_sectors row) }
{
    if row.sectors == 0 {
        return Ok(());
    }
    push(place, row)?;
    Ok(())
}

// Adds what is looked for of a row, and answers what is still missing.
fn push_row(place: &mut Vec<Extent>, row: Extent, wanted: Stretch) -> Result<Stretch, NoMemory>
    requires fits { row.first + row.sectors < 2 ^ 64 }
    ensures sectors { IfOk result (λ left. sectors_in place.new.items ≡ sectors_in place.old.items ++ take wanted.need (drop wanted.skip (extent_sectors row))) }
    ensures left { IfOk result (λ left. left ≡ stretch_left wanted row.sectors) }
{
    let passed = wanted.skip.min(row.sectors);
    let sectors = wanted.need.min(row.sectors - passed);
    let left = Stretch {
        skip: wanted.skip - passed,
        need: wanted.need - sectors,
    };
    let first = row.first + passed;
    push_some(place, Extent { first, sectors })?;
    Ok(left)
}

// The same of a part, if it is met.
fn push_part(
    place: &mut Vec<Extent>,
    g: &Geometry,
    part: Part,
    met: bool,
    wanted: Stretch,
) -> Result<Stretch, NoMemory>
    requires record { IsOfRecord g.now }
    requires part { IsInZone g.now (front_at part) }
    ensures sectors { IfOk result (λ left. sectors_in place.new.items ≡ sectors_in place.old.items ++ take wanted.need (drop wanted.skip (sectors_if g.now met (front_at part)))) }
    ensures left { IfOk result (λ left. left ≡ stretch_left wanted (length (sectors_if g.now met (front_at part)))) }
{
    if !met {
        return Ok(wanted);
    }
    let run = Run {
        start: part.start,
        len: part.len,
        kind: RunKind::Hole,
    };
    push_row(place, extent_of(g, part.zone, run), wanted)
}

// The same of all parts that are met before the search for the plan's identifier turns, or afterwards.
fn push_met(
    place: &mut Vec<Extent>,
    g: &Geometry,
    plan: &Plan,
    ahead: bool,
    wanted: Stretch,
) -> Result<Stretch, NoMemory>
    requires record { IsOfRecord g.now }
    requires parts { All (λ part. IsInZone g.now (front_at part)) plan.now.parts.items }
    ensures sectors { IfOk result (λ left. sectors_in place.new.items ≡ sectors_in place.old.items ++ take wanted.need (drop wanted.skip (sectors_of g.now (parts_met g.now plan.now.id ahead (fronts plan.now.parts.items))))) }
    ensures left { IfOk result (λ left. left ≡ stretch_left wanted (length (sectors_of g.now (parts_met g.now plan.now.id ahead (fronts plan.now.parts.items))))) }
{
    let mut left = wanted;
    for part in &plan.parts {
        let met = is_met(g, ahead, plan.id, part.zone);
        left = push_part(place, g, *part, met, left)?;
    }
    Ok(left)
}

/// So many sectors of a plan's space after the first ones, in the order in which an object's bytes lie there, once the plan's parts are all the runs of its identifier.
/// If it has fewer, all from there on.
pub fn extents_at(
    alloc: Global,
    map: &NewMap,
    plan: &Plan,
    first: u64,
    need: u64,
) -> Result<Vec<Extent>, NoMemory>
    requires { All (λ part. IsInZone map.now.geometry (front_at part)) plan.now.parts.items }
    ensures { IfOk result (λ place. sectors_in place.items ≡ take need (drop first (plan_sectors map.now.geometry plan.now))) }
{
    let g = map.geometry();
    let mut place = Vec::new(alloc);
    let left = push_met(&mut place, g, plan, true, Stretch { skip: first, need })?;
    push_met(&mut place, g, plan, false, left)?;
    Ok(place)
}
