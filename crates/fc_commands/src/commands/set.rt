// `set`: other words and access bits for one object.
ghost use Rattle.std.specs.Prelude.{◌<◌, [], IfOk, IsFalse, IsTrue, OnOk};
ghost use Rattle.fc_device.specs.Calls.{StopsAndExitsLeave};
ghost use Rattle.fc_model.specs.Command.{Command};
ghost use Rattle.fc_holdings.specs.Holdings.{Stands, parts_of};
ghost use Rattle.fc_commands.specs.Jobs.{HasLaws};
ghost use Rattle.fc_commands.specs.Promises.{ChangeKeeps, HasChanged, SameMap, WritesPlacesOf};
ghost use Rattle.fc_commands.specs.Answers.{AnswersOver};
ghost use Rattle.fc_commands.specs.Judgments.{CommandLeaves, IsJudgment};

use crate::judged::{Judged, carry_out};
use crate::name::last_name;
use crate::{CommandError, Holdings};
use fc_change::{Job, ObjectWords};
use fc_device::Disk;
use fc_names::Path;
use fc_refusals::judge_set;
use std::alloc::Global;

/// The job of `set`, or why it is refused: the path leads to nothing, it is the root's, or nothing may be changed.
pub fn set_job(
    alloc: Global,
    holdings: &Holdings,
    read_only: bool,
    path: &Path,
    words: ObjectWords,
) -> Result<Judged, CommandError>
    requires { words.access < 8 }
    ensures judged { IsJudgment read_only (Command.Set path.now words.load words.exec words.access) (parts_of holdings.now) [] result }
    ensures covered { IfOk result (λ judged. HasLaws (parts_of holdings.now) judged.job judged.name) }
{
    let target = judge_set(&holdings.tree, read_only, path)?;
    let name = last_name(alloc, path)?;
    Ok(Judged {
        job: Job::Words(target, words),
        name,
    })
}

/// Gives an object other load and exec words, and other access bits (bits 0 to 2 of its attributes; the others stay). Before the
/// directory that holds it is written, copies of a new map that may differ are made equal; no other sector is written, and at any moment
/// the map is the one before.
///
/// Refused with the first reason that applies, and then nothing has changed; `NoMemory` leaves all as it was, too. `DiskFault` only if
/// the disk's count of faults rose; the holdings stand for nothing afterwards.
pub fn set<D: Disk>(
    alloc: Global,
    disk: &mut D,
    holdings: &mut Holdings,
    read_only: bool,
    path: &Path,
    words: ObjectWords,
) -> Result<(), CommandError>
    requires attached { IsTrue (D.attached disk.old) }
    requires settled { IsFalse (D.pending disk.old) }
    requires stands { Stands D.Disk holdings.old disk.old }
    requires access { words.access < 8 }
    ensures refused { AnswersOver read_only (Command.Set path.now words.load words.exec words.access) (parts_of holdings.old) result }
    ensures changed { OnOk result (HasChanged D.Disk (Command.Set path.now words.load words.exec words.access) (parts_of holdings.old) (parts_of holdings.new) disk.old disk.new) }
    ensures places { StopsAndExitsLeave D.Disk disk.old disk.new (WritesPlacesOf (Command.Set path.now words.load words.exec words.access) (parts_of holdings.old)) }
    ensures leaves { StopsAndExitsLeave D.Disk disk.old disk.new (CommandLeaves (Command.Set path.now words.load words.exec words.access) (parts_of holdings.old)) }
    ensures map { StopsAndExitsLeave D.Disk disk.old disk.new (SameMap (parts_of holdings.old).layout) }
    ensures keeps { ChangeKeeps D.Disk disk.old disk.new holdings.old holdings.new result }
{
    let judged = set_job(alloc, holdings, read_only, path, words);
    carry_out(alloc, disk, holdings, judged, &[])
}
