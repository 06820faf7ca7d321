// Places for what a job wants of a new map in the safe mode.
ghost use Rattle.std.specs.Prelude.{◌≡◌, ◌<◌, ◌^◌, IfOk};
ghost use Rattle.fc_image.specs.Layout.{Layout};
ghost use Rattle.fc_placing.specs.Places.{id_in};
ghost use Rattle.fc_space.specs.Space.{layout_of};
ghost use Rattle.fc_change.specs.Held.{parts_of};
ghost use Rattle.fc_change.specs.Places.{IsPlaceFor};
ghost use Rattle.fc_safe.specs.Answers.{AnswersSafe};
ghost use Rattle.fc_safe.specs.FirstNeeds.{first_shortage};
ghost use Rattle.fc_safe.specs.FirstSpace.{ArePlacedFirst, CanLie, CanPlaceFirst};

use crate::error::SafeError;
use crate::gone::gone_ids;
use crate::grown::{moving_out, place_grown};
use crate::planned::{Planned, own_plan, plan_job};
use crate::step::step_of;
use fc_change::{
    Held, Job, MapStep, Place, Spaces, Wants, address_for, bytes_left, copied_from, extents_in,
    object_place, placing_of, root_of, share_for, shared_id,
};
use fc_device::NoMemory;
use fc_newmap::NewMap;
use fc_placing::Placing;
use std::alloc::Global;

// The object's place, if it has one: in the space of its plan, in slack, or nowhere.
fn place_object(
    alloc: Global,
    held: &Held,
    map: &NewMap,
    wants: &Wants,
    placing: &Placing,
) -> Result<Option<Place>, NoMemory>
    requires map { layout_of held.now.places.now ≡ Layout.New map.now }
    requires few { wants.now.bytes < 2 ^ 32 }
    requires id { id_in placing.now < 2 ^ 24 }
    requires can { CanLie map.now held.now.owners.now wants.now placing.now }
    ensures { IfOk result (IsPlaceFor map.now wants.now placing.now) }
{
    let Placing::New(plan) = placing else {
        return object_place(alloc, held, map, wants, placing);
    };
    let address = address_for(map, wants, placing);
    let extents = extents_in(alloc, map, plan, wants.bytes)?;
    Ok(Some(Place { address, extents }))
}

/// Finds the space that a job wants of a new map in the safe mode. An identifier that holds a directory which the job changes gets new runs,
/// and its old ones go back. A directory that grows lies in the new runs of its own, or in those of a new one. All is taken and goes back
/// by one step. The map stays as it is. Refused exactly as the command is for want of space.
pub fn place_first(
    alloc: Global,
    held: &Held,
    map: &NewMap,
    job: &Job,
    wants: &Wants,
) -> Result<Spaces, SafeError>
    requires map { layout_of held.now.places.now ≡ Layout.New map.now }
    requires can { CanPlaceFirst map.now (parts_of held.now) job.now wants.now }
    ensures places { IfOk result (ArePlacedFirst map.now (parts_of held.now) job.now wants.now) }
    ensures refused { AnswersSafe result (first_shortage map.now (parts_of held.now) job.now wants.now) }
{
    map.is_map();
    let share = share_for(alloc, map, held.owners, wants)?;
    let bytes = bytes_left(&share, wants.bytes);
    let out = moving_out(alloc, held, map, wants.grows)?;
    let Planned {
        plans,
        ids,
        leaving,
    } = match plan_job(alloc, held, map, job, wants, bytes, out) {
        Ok(planned) => planned,
        Err(error) => return Err(error),
    };
    let placing = placing_of(share, own_plan(alloc, bytes, &plans)?);
    let gone = gone_ids(alloc, held.owners, &ids, &leaving, shared_id(&placing))?;
    let object = place_object(alloc, held, map, wants, &placing)?;
    let copied = copied_from(alloc, held, wants.copied)?;
    let grown = place_grown(alloc, held, map, wants.grows, out, &plans)?;
    let take = match step_of(alloc, map, plans, gone, root_of(&grown)) {
        Ok(take) => take,
        Err(error) => return Err(error),
    };
    Ok(Spaces {
        object,
        copied,
        grown,
        take,
        give: MapStep::Nothing,
    })
}
