// The needs of a job, and the plans that meet them.
ghost use Rattle.std.specs.Prelude.{◌≡◌, ◌<◌, ◌≤◌, ◌^◌, ◌+◌, ◌++◌, ℕ, All, count_by, length, nat_le, if◌then◌else◌, Contains, IfOk, IsTrue, Some, None, is_some, nat_lt, Option};
ghost use Rattle.fc_alloc.specs.declared.owner.Owner.{Owner};
ghost use Rattle.fc_image.specs.effects.Sharing.{new_ids};
ghost use Rattle.fc_image.specs.effects.Short.{one_if};
ghost use Rattle.fc_change.specs.declared.job.Growth.{Growth};
ghost use Rattle.fc_change.specs.Held.{parts_of};
ghost use Rattle.fc_safe.specs.Answers.{AnswersSafe};
ghost use Rattle.fc_safe.specs.FirstNeeds.{longer_of, moving_out, short_of_needs, needs_by, stir_of};
ghost use Rattle.fc_safe.specs.Moving.{IsPlacedOwner};
ghost use Rattle.fc_safe.specs.Planned.{IsOwnFirst, IsPlanned};

use crate::error::SafeError;
use crate::moving::{moved_of, moving_of, needs_of};
use crate::needs::plan_needs;
use crate::staying::Moving;
use fc_change::{Growth, Held, Job, Wants, has_ids};
use fc_device::NoMemory;
use fc_names::Refusal;
use fc_newmap::NewMap;
use fc_plan::Plan;
use std::alloc::Global;

// 1 if a test holds.
fn one_if(test: bool) -> u64
    ensures value { result ≡ one_if test }
    ensures few { result ≤ 1 }
{
    if test { 1 } else { 0 }
}

// Whether identifiers are left for an object of so many bytes, and for a directory that gets a new one.
fn has_new_ids(map: &NewMap, bytes: u32, out: Option<Growth>) -> bool
    ensures { result ≡ nat_le (one_if (nat_lt 0 bytes) + one_if (is_some out)) (length (new_ids map.now)) }
{
    has_ids(map, one_if(bytes > 0) + one_if(out.is_some()))
}

/// The plans that meet the needs of a job, the identifiers that hold a directory which is written anew, and the nodes of the objects that leave
/// theirs.
#[derive(Drop)]
pub struct Planned {
    pub plans: Vec<Plan>,
    pub ids: Vec<u32>,
    pub leaving: Vec<u64>,
}

/// Plans space for an object of so many bytes, and for what the job stirs. `out` is a directory that grows, if it gets a new identifier.
pub fn plan_job(
    alloc: Global,
    held: &Held,
    map: &NewMap,
    job: &Job,
    wants: &Wants,
    bytes: u32,
    out: Option<Growth>,
) -> Result<Planned, SafeError>
    requires placed { (o : Owner) → Contains held.now.owners.now o → IsPlacedOwner map.now.geometry (longer_of map.now.geometry wants.now.grows) o }
    requires out { out ≡ moving_out map.now (parts_of held.now) wants.now.grows }
    requires longer { (g : Growth) → wants.now.grows ≡ Some g → (0 < g.len) × (g.len < 2 ^ 32) }
    ensures planned { IfOk result (IsPlanned map.now (parts_of held.now) (stir_of map.now (parts_of held.now) job.now wants.now) bytes) }
    ensures refused { AnswersSafe result (short_of_needs map.now (needs_by map.now (parts_of held.now) (stir_of map.now (parts_of held.now) job.now wants.now) bytes)) }
{
    map.is_map();
    if !has_new_ids(map, bytes, out) {
        return Err(SafeError::Refused(Refusal::IdsFull));
    }
    let moving = moving_of(alloc, map.geometry(), held.tree, job, wants, out)?;
    let moved = moved_of(alloc, map.geometry(), held.owners, &moving)?;
    let needs = needs_of(alloc, bytes, &moved, out)?;
    let plans = match plan_needs(alloc, map, &needs) {
        Ok(plans) => plans,
        Err(error) => return Err(error),
    };
    Ok(Planned {
        plans,
        ids: moved.ids,
        leaving: moving.leaving,
    })
}

/// The first plan, with memory of its own, if an object has bytes.
pub fn own_plan(alloc: Global, bytes: u32, plans: &[Plan]) -> Result<Option<Plan>, NoMemory>
    requires { 0 < bytes → 0 < length plans.now }
    ensures { IfOk result (IsOwnFirst bytes plans.now) }
{
    if bytes == 0 {
        return Ok(None);
    }
    let id = plans[0].id;
    let mut parts = Vec::new(alloc);
    parts.extend_from_slice(&plans[0].parts)?;
    Ok(Some(Plan { id, parts }))
}
