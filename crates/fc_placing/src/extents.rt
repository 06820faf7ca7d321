// The extents of an object in new space, before the map has its runs.

ghost use Rattle.std.specs.Prelude.{◌≡◌, ◌<◌, ◌-◌, ◌++◌, All, IfOk, length, take};
ghost use Rattle.fc_newmap.specs.Map.{sectors_of};
ghost use Rattle.fc_newmap.specs.NewMap.{IsOfRecord};
ghost use Rattle.fc_newmap.specs.Walk.{IsInZone};
ghost use Rattle.fc_objects.specs.Extents.{extent_sectors, sectors_in};
ghost use Rattle.fc_space.specs.Space.{HaveSectors};
ghost use Rattle.fc_plan.specs.Parts.{front_at, fronts};
ghost use Rattle.fc_placing.specs.Extents.{parts_met, sectors_if};

use fc_device::{Extent, NoMemory};
use fc_newmap::extent_of;
use fc_plan::{Part, Plan};
use fc_record::Geometry;
use fc_space::is_met;
use fc_zone::{Run, RunKind};

// Adds the sectors of an extent to a place, `need` of them at most, and answers how many are still missing.
fn push(place: &mut Vec<Extent>, extent: Extent, need: u64) -> Result<u64, NoMemory>
    ensures sectors { IfOk result (λ left. sectors_in place.new.items ≡ sectors_in place.old.items ++ take need (extent_sectors extent)) }
    ensures left { IfOk result (λ left. left ≡ need - extent.sectors) }
    ensures each { IfOk result (λ left. HaveSectors place.old.items → HaveSectors place.new.items) }
{
    let sectors = need.min(extent.sectors);
    if sectors == 0 {
        return Ok(need);
    }
    let part = Extent {
        first: extent.first,
        sectors,
    };
    if place.push(part).is_err() {
        return Err(NoMemory);
    }
    Ok(need - sectors)
}

// Adds the sectors of a part, if it is met.
fn push_part(
    place: &mut Vec<Extent>,
    g: &Geometry,
    part: Part,
    met: bool,
    need: u64,
) -> Result<u64, NoMemory>
    requires record { IsOfRecord g.now }
    requires part { IsInZone g.now (front_at part) }
    ensures sectors { IfOk result (λ left. sectors_in place.new.items ≡ sectors_in place.old.items ++ take need (sectors_if g.now met (front_at part))) }
    ensures left { IfOk result (λ left. left ≡ need - length (sectors_if g.now met (front_at part))) }
    ensures each { IfOk result (λ left. HaveSectors place.old.items → HaveSectors place.new.items) }
{
    if !met {
        return Ok(need);
    }
    let run = Run {
        start: part.start,
        len: part.len,
        kind: RunKind::Hole,
    };
    push(place, extent_of(g, part.zone, run), need)
}

/// Adds the sectors of all parts that are met before the search for the plan's identifier turns, or afterwards, `need` of
/// them at most, and answers how many are still missing.
pub fn push_met(
    place: &mut Vec<Extent>,
    g: &Geometry,
    plan: &Plan,
    ahead: bool,
    need: u64,
) -> Result<u64, NoMemory>
    requires record { IsOfRecord g.now }
    requires parts { All (λ part. IsInZone g.now (front_at part)) plan.now.parts.items }
    ensures sectors { IfOk result (λ left. sectors_in place.new.items ≡ sectors_in place.old.items ++ take need (sectors_of g.now (parts_met g.now plan.now.id ahead (fronts plan.now.parts.items)))) }
    ensures left { IfOk result (λ left. left ≡ need - length (sectors_of g.now (parts_met g.now plan.now.id ahead (fronts plan.now.parts.items)))) }
    ensures each { IfOk result (λ left. HaveSectors place.old.items → HaveSectors place.new.items) }
{
    let mut need = need;
    for part in &plan.parts {
        let met = is_met(g, ahead, plan.id, part.zone);
        need = push_part(place, g, *part, met, need)?;
    }
    Ok(need)
}
