// `save` and `create`: a file, new or in the place of another.
ghost use Rattle.std.specs.Prelude.{◌≡◌, [], IfOk, IsFalse, IsTrue, List, OnOk, ℕ, length};
ghost use Rattle.fc_device.specs.Calls.{StopsAndExitsLeave};
ghost use Rattle.fc_model.specs.Command.{Command};
ghost use Rattle.fc_holdings.specs.Holdings.{Stands, parts_of};
ghost use Rattle.fc_commands.specs.Given.{IsFile};
ghost use Rattle.fc_commands.specs.Jobs.{HasLaws};
ghost use Rattle.fc_commands.specs.Promises.{ChangeKeeps, HasChanged, WritesPlacesOf};
ghost use Rattle.fc_commands.specs.Answers.{AnswersOver};
ghost use Rattle.fc_commands.specs.Judgments.{CommandLeaves, IsJudgment};

use crate::judged::{Judged, carry_out};
use crate::name::last_name;
use crate::{CommandError, Holdings};
use fc_change::{FileWords, Job};
use fc_device::Disk;
use fc_names::Path;
use fc_refusals::judge_save;
use std::alloc::Global;

/// The job of `save`, with as many bytes as these words say, and of `create`, with zeros; or why they are refused: the name can't be
/// written, the path of the holder leads to no directory, a directory or a locked file is at the path, or nothing may be changed.
pub fn file_job(
    alloc: Global,
    holdings: &Holdings,
    read_only: bool,
    path: &Path,
    words: FileWords,
) -> Result<Judged, CommandError>
    ensures saved { (bytes : List ℕ) → length bytes ≡ words.len
        → IsJudgment read_only (Command.Save path.now words.load words.exec bytes) (parts_of holdings.now) bytes result }
    ensures created { IsJudgment read_only (Command.Create path.now words.load words.exec words.len) (parts_of holdings.now) [] result }
    ensures covered { IfOk result (λ judged. HasLaws (parts_of holdings.now) judged.job judged.name) }
    ensures file { IfOk result (λ judged. IsFile judged.job) }
{
    let slot = judge_save(&holdings.tree, holdings.places.dir_form(), read_only, path)?;
    let name = last_name(alloc, path)?;
    Ok(Judged {
        job: Job::File(slot, words),
        name,
    })
}

/// Writes a file of these bytes, new or in the place of another, which keeps its name and its attributes. Copies of a new map that may
/// differ are made equal first; then the bytes are written into space that was free, or into slack that other files of the directory
/// leave, the map with their space, the directory, and the map without the space of the file that was there. If the directory has to grow
/// by a new file, it is written to its new place, and then those around it whose entries or heads name its place; what it has left goes
/// back at last. No other sector is written.
///
/// Refused with the first reason that applies, and then nothing has changed; `NoMemory` leaves all as it was, too. `DiskFault` only if
/// the disk's count of faults rose; the holdings stand for nothing afterwards.
pub fn save<D: Disk>(
    alloc: Global,
    disk: &mut D,
    holdings: &mut Holdings,
    read_only: bool,
    path: &Path,
    words: FileWords,
    bytes: &[u8],
) -> Result<(), CommandError>
    requires attached { IsTrue (D.attached disk.old) }
    requires settled { IsFalse (D.pending disk.old) }
    requires stands { Stands D.Disk holdings.old disk.old }
    requires length { length bytes.now ≡ words.len }
    ensures refused { AnswersOver read_only (Command.Save path.now words.load words.exec bytes.now) (parts_of holdings.old) result }
    ensures changed { OnOk result (HasChanged D.Disk (Command.Save path.now words.load words.exec bytes.now) (parts_of holdings.old) (parts_of holdings.new) disk.old disk.new) }
    ensures places { StopsAndExitsLeave D.Disk disk.old disk.new (WritesPlacesOf (Command.Save path.now words.load words.exec bytes.now) (parts_of holdings.old)) }
    ensures leaves { StopsAndExitsLeave D.Disk disk.old disk.new (CommandLeaves (Command.Save path.now words.load words.exec bytes.now) (parts_of holdings.old)) }
    ensures keeps { ChangeKeeps D.Disk disk.old disk.new holdings.old holdings.new result }
{
    let judged = file_job(alloc, holdings, read_only, path, words);
    carry_out(alloc, disk, holdings, judged, bytes)
}

/// Writes a file of as many zeros as these words say, new or in the place of another, as `save` does. No memory of the file's size is
/// taken.
pub fn create<D: Disk>(
    alloc: Global,
    disk: &mut D,
    holdings: &mut Holdings,
    read_only: bool,
    path: &Path,
    words: FileWords,
) -> Result<(), CommandError>
    requires attached { IsTrue (D.attached disk.old) }
    requires settled { IsFalse (D.pending disk.old) }
    requires stands { Stands D.Disk holdings.old disk.old }
    ensures refused { AnswersOver read_only (Command.Create path.now words.load words.exec words.len) (parts_of holdings.old) result }
    ensures changed { OnOk result (HasChanged D.Disk (Command.Create path.now words.load words.exec words.len) (parts_of holdings.old) (parts_of holdings.new) disk.old disk.new) }
    ensures places { StopsAndExitsLeave D.Disk disk.old disk.new (WritesPlacesOf (Command.Create path.now words.load words.exec words.len) (parts_of holdings.old)) }
    ensures leaves { StopsAndExitsLeave D.Disk disk.old disk.new (CommandLeaves (Command.Create path.now words.load words.exec words.len) (parts_of holdings.old)) }
    ensures keeps { ChangeKeeps D.Disk disk.old disk.new holdings.old holdings.new result }
{
    let judged = file_job(alloc, holdings, read_only, path, words);
    carry_out(alloc, disk, holdings, judged, &[])
}
