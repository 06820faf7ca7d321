// `cdir`: an empty directory.
ghost use Rattle.std.specs.Prelude.{[], IfOk, IsFalse, IsTrue, OnOk};
ghost use Rattle.fc_device.specs.Calls.{StopsAndExitsLeave};
ghost use Rattle.fc_model.specs.Command.{Command};
ghost use Rattle.fc_holdings.specs.Holdings.{Stands, parts_of};
ghost use Rattle.fc_commands.specs.Jobs.{HasLaws};
ghost use Rattle.fc_commands.specs.Promises.{ChangeKeeps, HasChanged, WritesPlacesOf};
ghost use Rattle.fc_commands.specs.Answers.{AnswersOver};
ghost use Rattle.fc_commands.specs.Judgments.{CommandLeaves, IsJudgment};

use crate::judged::{Judged, carry_out};
use crate::name::last_name;
use crate::{CommandError, Holdings};
use fc_change::Job;
use fc_device::Disk;
use fc_names::Path;
use fc_refusals::judge_cdir;
use std::alloc::Global;

/// The job of `cdir`, or why it is refused: the name can't be written, the path of the holder leads to no directory, there is something
/// at the path, or nothing may be changed.
pub fn cdir_job(
    alloc: Global,
    holdings: &Holdings,
    read_only: bool,
    path: &Path,
) -> Result<Judged, CommandError>
    ensures judged { IsJudgment read_only (Command.Cdir path.now) (parts_of holdings.now) [] result }
    ensures covered { IfOk result (λ judged. HasLaws (parts_of holdings.now) judged.job judged.name) }
{
    let dir = judge_cdir(&holdings.tree, holdings.places.dir_form(), read_only, path)?;
    let name = last_name(alloc, path)?;
    Ok(Judged {
        job: Job::Directory(dir),
        name,
    })
}

/// Makes an empty directory. Copies of a new map that may differ are made equal first; then the new directory is written into space that
/// was free, the map with its space, and the directory that holds it. If that has to grow, it is written to its new place, and then those
/// around it whose entries or heads name its place; what it has left goes back at last. No other sector is written.
///
/// Refused with the first reason that applies, and then nothing has changed; `NoMemory` leaves all as it was, too. `DiskFault` only if
/// the disk's count of faults rose; the holdings stand for nothing afterwards.
pub fn cdir<D: Disk>(
    alloc: Global,
    disk: &mut D,
    holdings: &mut Holdings,
    read_only: bool,
    path: &Path,
) -> Result<(), CommandError>
    requires attached { IsTrue (D.attached disk.old) }
    requires settled { IsFalse (D.pending disk.old) }
    requires stands { Stands D.Disk holdings.old disk.old }
    ensures refused { AnswersOver read_only (Command.Cdir path.now) (parts_of holdings.old) result }
    ensures changed { OnOk result (HasChanged D.Disk (Command.Cdir path.now) (parts_of holdings.old) (parts_of holdings.new) disk.old disk.new) }
    ensures places { StopsAndExitsLeave D.Disk disk.old disk.new (WritesPlacesOf (Command.Cdir path.now) (parts_of holdings.old)) }
    ensures leaves { StopsAndExitsLeave D.Disk disk.old disk.new (CommandLeaves (Command.Cdir path.now) (parts_of holdings.old)) }
    ensures keeps { ChangeKeeps D.Disk disk.old disk.new holdings.old holdings.new result }
{
    let judged = cdir_job(alloc, holdings, read_only, path);
    carry_out(alloc, disk, holdings, judged, &[])
}
