// Which fronts of which holes are taken by first fit.

ghost use Rattle.std.specs.Prelude.{◌≡◌, ◌<◌, ◌≤◌, ◌%◌, All, IfOk, IfSome};
ghost use Rattle.std.specs.Option.{option_map};
ghost use Rattle.fc_newmap.specs.NewMap.{IsOfRecord};
ghost use Rattle.fc_image.specs.effects.Placed.{HasRunLength, holes_left};
ghost use Rattle.fc_image.specs.safe.FirstFit.{first_fit};
ghost use Rattle.fc_plan.specs.Plan.{AreFreeRuns};

use crate::planning::{Taking, first_fit, front_of, holes_left, last_needed};
use fc_device::NoMemory;
use fc_record::Geometry;
use fc_zone::Run;
use std::alloc::Global;

// The parts of these holes that are taken: of the first hole that has all the bits, if there is one. Else the holes
// from the first one on are taken whole, and of the last one what is still missing.
fn first_parts(holes: Vec<(u16, Run)>, bits: u64, g: &Geometry) -> Option<Vec<(u16, Run)>>
    requires some { 0 < bits }
    requires least { g.now.min ≤ bits }
    requires positive { 0 < g.now.min }
    requires long { All (HasRunLength g.now) holes.items }
    ensures { option_map (λ parts. parts.items) result ≡ first_fit g.now bits holes.items }
{
    let mut parts = holes;
    if let Some(hole) = first_fit(&parts, bits) {
        parts[0] = front_of(hole, bits, g.min);
        parts.truncate(1);
        return Some(parts);
    }
    let (last, missing) = last_needed(&parts, bits)?;
    parts[last] = front_of(parts[last], missing, g.min);
    parts.truncate(last + 1);
    Some(parts)
}

/// Takes so many bits from holes by first fit: the parts, and what they leave. No rest is shorter than a run may be.
/// `None` exactly if the holes together have too few bits.
pub fn first_fitting(
    alloc: Global,
    holes: &[(u16, Run)],
    bits: u64,
    g: &Geometry,
) -> Result<Option<Taking>, NoMemory>
    requires some { 0 < bits }
    requires least { g.now.min ≤ bits }
    requires whole { bits % g.now.q ≡ 0 }
    requires record { IsOfRecord g.now }
    requires holes { AreFreeRuns g.now holes.now }
    ensures fit { IfOk result (λ taking. option_map (λ t. t.parts.items) taking ≡ first_fit g.now bits holes.now) }
    ensures left { IfOk result (λ taking. IfSome taking (λ t. t.left.items ≡ holes_left holes.now t.parts.items)) }
    ensures free { IfOk result (λ taking. IfSome taking (λ t. AreFreeRuns g.now t.left.items)) }
{
    let copy = Vec::from_slice(alloc, holes)?;
    let Some(parts) = first_parts(copy, bits, g) else {
        return Ok(None);
    };
    let left = holes_left(alloc, holes, &parts)?;
    Ok(Some(Taking { parts, left }))
}
