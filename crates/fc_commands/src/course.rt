// A job, from its judge's answer to the disc and the volume that it leaves.
ghost use Rattle.std.specs.Prelude.{◌≡◌, IfErr, IfOk, IsTrue, IsFalse, OnErr, OnOk};
ghost use Rattle.fc_device.specs.Calls.{StopsAndExitsLeave};
ghost use Rattle.fc_model.specs.Command.{Command};
ghost use Rattle.fc_commands.specs.Answers.{AnswersShort};
ghost use Rattle.fc_holdings.specs.Holdings.{Stands, parts_of};
ghost use Rattle.fc_commands.specs.Jobs.{HasLaws, IsJobFor, IsJudged};
ghost use Rattle.fc_commands.specs.Stages.{CanPrepareJob, IsAdmitted, IsPreparedFor, RefusesJob};
ghost use Rattle.fc_commands.specs.Promises.{ChangeKeeps, HasChanged, JobLeaves, WritesPlacesOf};

use crate::laws::jobs;
use crate::maps::is_map;
use crate::stages::{Prepared, prepare_job};
use crate::writing::write_change;
use fc_change::{Held, Job, admit, take_over};
use fc_device::{Disk, DiskFault};
use fc_holdings::{CommandError, Holdings};
use fc_names::Name;
use fc_writing::Copies;
use std::alloc::Global;

/// Makes a job's change ready, and takes the memory that the volume needs for it.
pub fn make_ready(
    alloc: Global,
    holdings: &mut Holdings,
    job: &Job,
    name: &Name,
) -> Result<Prepared, CommandError>
    requires { CanPrepareJob (parts_of holdings.old) job.now name.now }
    ensures ready { IfOk result (IsPreparedFor (parts_of holdings.old) job.now name.now) }
    ensures admitted { IfOk result (λ p. IsAdmitted holdings.old holdings.new p.change) }
    ensures refused { IfErr result (RefusesJob (parts_of holdings.old) job.now name.now) }
    ensures same { OnErr result (holdings.new ≡ holdings.old) }
{
    let held = Held {
        tree: &holdings.tree,
        places: &holdings.places,
        owners: &holdings.owners,
    };
    let prepared = prepare_job(alloc, &held, job, name)?;
    admit(
        &mut holdings.tree,
        &mut holdings.owners,
        &holdings.places,
        &prepared.change,
    )?;
    Ok(prepared)
}

/// Does what a command that nothing in the tree refuses is about: makes its change ready, writes it, and takes it over. `name` is the name
/// of a new entry, and `bytes` are those of a file that is saved.
///
/// Refused for want of space, with the first reason that applies, and then nothing has changed; `NoMemory` leaves all as it was, too.
/// At any moment, a crash or an I/O error, only the space that the change gets is written, the directories that say something else, and
/// the map, of which the copy that counts is that before, that with the new space, or that without what went back (`leaves`).
/// `DiskFault` only if the disk's count of faults rose; the holdings stand for nothing afterwards.
pub fn change<D: Disk>(
    alloc: Global,
    disk: &mut D,
    holdings: &mut Holdings,
    job: &Job,
    name: &Name,
    bytes: &[u8],
) -> Result<(), CommandError>
    requires attached { IsTrue (D.attached disk.old) }
    requires settled { IsFalse (D.pending disk.old) }
    requires stands { Stands D.Disk holdings.old disk.old }
    requires judged { IsJudged (parts_of holdings.old) job.now name.now bytes.now }
    requires covered { HasLaws (parts_of holdings.old) job.now name.now }
    ensures refused { (c : Command) → IsJobFor c (parts_of holdings.old) job.now name.now bytes.now → AnswersShort c (parts_of holdings.old) result }
    ensures changed { OnOk result ((c : Command) → IsJobFor c (parts_of holdings.old) job.now name.now bytes.now
        → HasChanged D.Disk c (parts_of holdings.old) (parts_of holdings.new) disk.old disk.new) }
    ensures places { (c : Command) → IsJobFor c (parts_of holdings.old) job.now name.now bytes.now
        → StopsAndExitsLeave D.Disk disk.old disk.new (WritesPlacesOf c (parts_of holdings.old)) }
    ensures leaves { StopsAndExitsLeave D.Disk disk.old disk.new (JobLeaves (parts_of holdings.old) job.now name.now) }
    ensures keeps { ChangeKeeps D.Disk disk.old disk.new holdings.old holdings.new result }
{
    jobs();
    is_map(&holdings.places);
    holdings.places.places_suffice();
    let Prepared { change, ready } = make_ready(alloc, holdings, job, name)?;
    match write_change(disk, &mut holdings.places, holdings.copies, ready, bytes) {
        Ok(()) => {
            holdings.copies = Copies::Equal;
            take_over(
                &mut holdings.tree,
                &mut holdings.owners,
                &holdings.places,
                change,
            );
            Ok(())
        }
        Err(DiskFault) => Err(CommandError::DiskFault),
    }
}
