// The one step of the map by which all is taken and goes back.
ghost use Rattle.std.specs.Prelude.{◌≡◌, ◌≤◌, ◌++◌, [], AllPairs, IsPermutation, IfOk, OnOk, is_some, if◌then◌else◌};
ghost use Rattle.std.specs.List.Sorted.{IsStrictlyIncreasing};
ghost use Rattle.fc_newmap.specs.Map.{hole_runs};
ghost use Rattle.fc_image.specs.effects.Placed.{BeginsBefore};
ghost use Rattle.fc_image.specs.safe.SafeShort.{spread_or};
ghost use Rattle.fc_plan.specs.Giving.{is_one_of};
ghost use Rattle.fc_plan.specs.Parts.{fronts};
ghost use Rattle.fc_plan.specs.Plan.{AreApart};
ghost use Rattle.fc_writing.specs.Steps.{CanTakeAll};
ghost use Rattle.fc_safe.specs.Answers.{AnswersSafe};
ghost use Rattle.fc_safe.specs.FirstNeeds.{zones_turned};
ghost use Rattle.fc_safe.specs.FirstSpace.{IsStepFirst, all_fronts, parts_kept};
ghost use Rattle.fc_safe.specs.Needs.{parts_of};

use crate::error::SafeError;
use crate::sets::place_of_id;
use crate::zones::zones_of;
use fc_change::{MapStep, RootPlace, SpaceStep};
use fc_device::NoMemory;
use fc_newmap::NewMap;
use fc_plan::{Part, Plan};
use std::alloc::Global;

// The most zones that one commit may change.
const MOST_ZONES: usize = 9;

// ---- the parts that stay

// Adds the parts of a plan, if its identifier is one of these.
fn push_kept(kept: &mut Vec<Part>, plan: &Plan, gone: &[u32]) -> Result<(), NoMemory>
    requires { IsStrictlyIncreasing gone.now }
    ensures { OnOk result (kept.new.items ≡ kept.old.items ++ (if is_one_of gone.now plan.now.id then plan.now.parts.items else [])) }
{
    match place_of_id(gone, plan.id) {
        None => Ok(()),
        Some(_) => {
            kept.extend_from_slice(&plan.parts)?;
            Ok(())
        }
    }
}

// The parts of plans whose identifiers are among these.
fn gather_kept(alloc: Global, plans: &[Plan], gone: &[u32]) -> Result<Vec<Part>, NoMemory>
    requires { IsStrictlyIncreasing gone.now }
    ensures { IfOk result (λ kept. kept.items ≡ parts_kept plans.now gone.now) }
{
    let mut kept = Vec::new(alloc);
    for plan in plans {
        push_kept(&mut kept, plan, gone)?;
    }
    Ok(kept)
}

// Parts in their order over the disc.
fn sorted_parts(parts: Vec<Part>) -> Vec<Part>
    requires { AreApart (fronts parts.items) }
    ensures same { IsPermutation parts.items result.items }
    ensures rise { AllPairs BeginsBefore (fronts result.items) }
{
    let mut parts = parts;
    parts.sort_unstable_by_key(|part| (part.zone, part.start));
    parts
}

// The parts of plans whose identifiers go back, in their order over the disc.
fn kept_parts(alloc: Global, plans: &[Plan], gone: &[u32]) -> Result<Vec<Part>, NoMemory>
    requires rising { IsStrictlyIncreasing gone.now }
    requires apart { AreApart (all_fronts plans.now) }
    ensures same { IfOk result (λ kept. IsPermutation (parts_kept plans.now gone.now) kept.items) }
    ensures rise { IfOk result (λ kept. AllPairs BeginsBefore (fronts kept.items)) }
{
    let kept = gather_kept(alloc, plans, gone)?;
    Ok(sorted_parts(kept))
}

// ---- the step

// Refuses more zones than one commit may change. There are `all` zones, so that their number is one of 16 bits.
fn check_zones(all: u16, count: usize) -> Result<(), SafeError>
    requires { count ≤ all }
    ensures { AnswersSafe result (spread_or count) }
{
    if count > MOST_ZONES {
        return Err(SafeError::Spread(count as u16));
    }
    Ok(())
}

/// The step by which plans are taken and identifiers go back, whose parts among the plans stay. `Spread` exactly if it changes more zones
/// than one commit may.
pub fn step_of(
    alloc: Global,
    map: &NewMap,
    plans: Vec<Plan>,
    gone: Vec<u32>,
    root: Option<RootPlace>,
) -> Result<MapStep, SafeError>
    requires can { CanTakeAll map.now.geometry (hole_runs map.now) plans.items }
    requires rising { IsStrictlyIncreasing gone.items }
    ensures step { IfOk result (IsStepFirst map.now plans.items gone.items root) }
    ensures refused { AnswersSafe result (spread_or (zones_turned map.now (parts_of plans.items) gone.items (is_some root))) }
{
    map.is_map();
    let zones = zones_of(alloc, map, &plans, &gone, root.is_some())?;
    if let Err(error) = check_zones(map.geometry().zones, zones.len()) {
        return Err(error);
    }
    let kept = kept_parts(alloc, &plans, &gone)?;
    Ok(MapStep::New(SpaceStep {
        plans,
        gone,
        kept,
        root,
        zones,
    }))
}
