// `delete`: a file, or an empty directory, goes.
ghost use Rattle.std.specs.Prelude.{[], IfOk, IsFalse, IsTrue, OnOk};
ghost use Rattle.fc_device.specs.Calls.{StopsAndExitsLeave};
ghost use Rattle.fc_model.specs.Command.{Command};
ghost use Rattle.fc_holdings.specs.Holdings.{Stands, parts_of};
ghost use Rattle.fc_commands.specs.Jobs.{HasLaws};
ghost use Rattle.fc_commands.specs.Promises.{ChangeKeeps, HasChanged, WritesPlacesOf};
ghost use Rattle.fc_commands.specs.Answers.{AnswersOver};
ghost use Rattle.fc_commands.specs.Judgments.{CommandLeaves, IsJudgment};

use crate::judged::{Judged, carry_out};
use crate::name::last_name;
use crate::{CommandError, Holdings};
use fc_change::Job;
use fc_device::Disk;
use fc_names::Path;
use fc_refusals::judge_delete;
use std::alloc::Global;

/// The job of `delete`, or why it is refused: the path leads to nothing, it is the root's, the object is locked, it is a directory that
/// holds something, or nothing may be changed.
pub fn delete_job(
    alloc: Global,
    holdings: &Holdings,
    read_only: bool,
    path: &Path,
) -> Result<Judged, CommandError>
    ensures judged { IsJudgment read_only (Command.Delete path.now) (parts_of holdings.now) [] result }
    ensures covered { IfOk result (λ judged. HasLaws (parts_of holdings.now) judged.job judged.name) }
{
    let target = judge_delete(&holdings.tree, read_only, path)?;
    let name = last_name(alloc, path)?;
    Ok(Judged {
        job: Job::Removal(target),
        name,
    })
}

/// Takes a file or an empty directory away. Copies of a new map that may differ are made equal first; then the directory that held it is
/// written, and then the map without its space, if no other object has the identifier. So a crash between two of these writes leaves
/// lost space at worst. One inside the directory's may tear it, and then the disc isn't accepted.
///
/// Refused with the first reason that applies, and then nothing has changed; `NoMemory` leaves all as it was, too. `DiskFault` only if
/// the disk's count of faults rose; the holdings stand for nothing afterwards.
pub fn delete<D: Disk>(
    alloc: Global,
    disk: &mut D,
    holdings: &mut Holdings,
    read_only: bool,
    path: &Path,
) -> Result<(), CommandError>
    requires attached { IsTrue (D.attached disk.old) }
    requires settled { IsFalse (D.pending disk.old) }
    requires stands { Stands D.Disk holdings.old disk.old }
    ensures refused { AnswersOver read_only (Command.Delete path.now) (parts_of holdings.old) result }
    ensures changed { OnOk result (HasChanged D.Disk (Command.Delete path.now) (parts_of holdings.old) (parts_of holdings.new) disk.old disk.new) }
    ensures places { StopsAndExitsLeave D.Disk disk.old disk.new (WritesPlacesOf (Command.Delete path.now) (parts_of holdings.old)) }
    ensures leaves { StopsAndExitsLeave D.Disk disk.old disk.new (CommandLeaves (Command.Delete path.now) (parts_of holdings.old)) }
    ensures keeps { ChangeKeeps D.Disk disk.old disk.new holdings.old holdings.new result }
{
    let judged = delete_job(alloc, holdings, read_only, path);
    carry_out(alloc, disk, holdings, judged, &[])
}
