// A job, from its judge's answer to the disc and the volume that it leaves, in the safe mode.
ghost use Rattle.std.specs.Prelude.{◌≡◌, IfErr, IfOk, IsFalse, IsTrue, OnErr, OnOk};
ghost use Rattle.fc_device.specs.Calls.{StopsAndExitsLeave};
ghost use Rattle.fc_image.specs.Layout.{Layout};
ghost use Rattle.fc_model.specs.Command.{Command};
ghost use Rattle.fc_newmap.specs.Map.{Map};
ghost use Rattle.fc_space.specs.Space.{layout_of};
ghost use Rattle.fc_change.specs.Held.{parts_of as held_parts};
ghost use Rattle.fc_holdings.specs.Holdings.{Stands, parts_of};
ghost use Rattle.fc_commands.specs.Jobs.{HasLaws, IsJobFor, IsJudged};
ghost use Rattle.fc_commands.specs.Stages.{IsAdmitted};
ghost use Rattle.fc_safe.specs.Suits.{Suits};
ghost use Rattle.fc_safecommands.specs.Anew.{IsPreparedAnew};
ghost use Rattle.fc_safecommands.specs.JobAnswers.{AnswersSafeOver};
ghost use Rattle.fc_safecommands.specs.Stages.{CanPrepareAnew, RefusesAnew};
ghost use Rattle.fc_safecommands.specs.Promises.{HasChangedSafely, LeavesTree, SafeKeeps, WritesFreeOf};

use crate::anew::prepare_anew;
use crate::laws::safe_jobs;
use fc_change::{Held, Job, admit, draft, take_over, wants};
use fc_commands::{Holdings, Prepared, is_map};
use fc_device::{Disk, DiskFault};
use fc_names::Name;
use fc_newmap::NewMap;
use fc_safe::{SafeError, place_first};
use fc_space::Space;
use fc_writing::{Copies, write_new};
use std::alloc::Global;

// Makes a job's change ready, whole in memory; nothing that the volume has is touched.
fn prepare_job(
    alloc: Global,
    held: &Held,
    map: &NewMap,
    job: &Job,
    name: &Name,
) -> Result<Prepared, SafeError>
    requires map { layout_of held.now.places.now ≡ Layout.New map.now }
    requires can { CanPrepareAnew map.now (held_parts held.now) job.now name.now }
    ensures ready { IfOk result (IsPreparedAnew map.now (held_parts held.now) job.now name.now) }
    ensures refused { IfErr result (RefusesAnew map.now (held_parts held.now) job.now name.now) }
{
    let wanted = match wants(held, job, name) {
        Ok(wanted) => wanted,
        Err(refusal) => return Err(SafeError::Refused(refusal)),
    };
    let spaces = place_first(alloc, held, map, job, &wanted)?;
    let change = draft(alloc, held, *job, name, &spaces)?;
    let ready = prepare_anew(alloc, held, map, &wanted, &change, spaces)?;
    Ok(Prepared { change, ready })
}

// The same over holdings, with the memory that the volume needs for it.
fn make_ready(
    alloc: Global,
    holdings: &mut Holdings,
    job: &Job,
    name: &Name,
) -> Result<Prepared, SafeError>
    requires new { (m : Map) × ((parts_of holdings.old).layout ≡ Layout.New m) }
    requires can { (m : Map) → (parts_of holdings.old).layout ≡ Layout.New m → CanPrepareAnew m (parts_of holdings.old) job.now name.now }
    ensures ready { IfOk result (λ p. (m : Map) → (parts_of holdings.old).layout ≡ Layout.New m → IsPreparedAnew m (parts_of holdings.old) job.now name.now p) }
    ensures admitted { IfOk result (λ p. IsAdmitted holdings.old holdings.new p.change) }
    ensures refused { IfErr result (λ error. (m : Map) → (parts_of holdings.old).layout ≡ Layout.New m → RefusesAnew m (parts_of holdings.old) job.now name.now error) }
    ensures same { OnErr result (holdings.new ≡ holdings.old) }
{
    let held = Held {
        tree: &holdings.tree,
        places: &holdings.places,
        owners: &holdings.owners,
    };
    let Space::NewMapped(map) = holdings.places.space() else {
        // The volume suits.
        unreachable!()
    };
    let prepared = prepare_job(alloc, &held, map, job, name)?;
    admit(
        &mut holdings.tree,
        &mut holdings.owners,
        &holdings.places,
        &prepared.change,
    )?;
    Ok(prepared)
}

/// Does what a command that nothing in the tree refuses is about as a whole or not at all: makes its change ready, writes it where
/// nothing lies, makes it count by one commit, and takes it over. `name` is the name of a new entry, and `bytes` are those of a file
/// that is saved.
///
/// Refused with the first reason that applies: as ever, no space by first fit, or more zones than one commit may change; nothing has
/// changed then, and after `NoMemory` either. At any moment, a crash or an I/O error, the disc has the tree before the command or the
/// tree after it, and beside the map only sectors were written in which nothing lay. `DiskFault` only if the disk's count of faults
/// rose; the holdings stand for nothing afterwards.
pub fn transact<D: Disk>(
    alloc: Global,
    disk: &mut D,
    holdings: &mut Holdings,
    job: &Job,
    name: &Name,
    bytes: &[u8],
) -> Result<(), SafeError>
    requires attached { IsTrue (D.attached disk.old) }
    requires settled { IsFalse (D.pending disk.old) }
    requires stands { Stands D.Disk holdings.old disk.old }
    requires suits { Suits (parts_of holdings.old).layout (parts_of holdings.old).nodes }
    requires judged { IsJudged (parts_of holdings.old) job.now name.now bytes.now }
    requires covered { HasLaws (parts_of holdings.old) job.now name.now }
    ensures refused { (c : Command) → IsJobFor c (parts_of holdings.old) job.now name.now bytes.now → AnswersSafeOver c (parts_of holdings.old) result }
    ensures changed { OnOk result ((c : Command) → IsJobFor c (parts_of holdings.old) job.now name.now bytes.now
        → HasChangedSafely D.Disk c (parts_of holdings.old) (parts_of holdings.new) disk.old disk.new) }
    ensures tree { (c : Command) → IsJobFor c (parts_of holdings.old) job.now name.now bytes.now
        → StopsAndExitsLeave D.Disk disk.old disk.new (LeavesTree c (parts_of holdings.old)) }
    ensures free { StopsAndExitsLeave D.Disk disk.old disk.new (WritesFreeOf (parts_of holdings.old)) }
    ensures keeps { SafeKeeps D.Disk disk.old disk.new holdings.old holdings.new result }
{
    safe_jobs();
    fc_safecrash::crash();
    is_map(&holdings.places);
    let Prepared { change, ready } = make_ready(alloc, holdings, job, name)?;
    let copies = holdings.copies;
    let Space::NewMapped(map) = holdings.places.edit() else {
        // The volume suits.
        unreachable!()
    };
    match write_new(disk, map, copies, &ready, bytes) {
        Ok(()) => {
            holdings.copies = Copies::Equal;
            take_over(
                &mut holdings.tree,
                &mut holdings.owners,
                &holdings.places,
                change,
            );
            Ok(())
        }
        Err(DiskFault) => Err(SafeError::DiskFault),
    }
}
