// `save` and `create` in the safe mode.
ghost use Rattle.std.specs.Prelude.{◌≡◌, IsFalse, IsTrue, OnOk, length};
ghost use Rattle.fc_device.specs.Calls.{StopsAndExitsLeave};
ghost use Rattle.fc_model.specs.Command.{Command};
ghost use Rattle.fc_holdings.specs.Holdings.{Stands, parts_of};
ghost use Rattle.fc_safe.specs.Suits.{Suits};
ghost use Rattle.fc_safecommands.specs.Promises.{HasChangedSafely, LeavesTree, SafeKeeps, WritesFreeOf};
ghost use Rattle.fc_safecommands.specs.Answers.{AnswersSafelyOver};

use crate::judged::carry_out;
use crate::{Holdings, SafeError};
use fc_change::FileWords;
use fc_commands::file_job;
use fc_device::Disk;
use fc_names::Path;
use std::alloc::Global;

/// Writes a file of these bytes, new or in the place of another, which keeps its name and its attributes, whole or not at all: at any
/// moment, a crash or an I/O error, the disc has the tree before the command or the tree after it. The bytes are written into free space,
/// or into slack that other files of the directory leave, and the directory into new runs of its identifier, with a copy of what else
/// lies there; one commit of at most nine zones makes them count and gives all the old space back. If the directory grows, so are those
/// around it whose entries or heads name its place. Beside the map only sectors are written in which nothing lay.
///
/// Refused with the first reason that applies, `Spread` the last of them, and then nothing has changed; `NoMemory` leaves all as it was,
/// too. `DiskFault` only if the disk's count of faults rose; the holdings stand for nothing afterwards.
pub fn save<D: Disk>(
    alloc: Global,
    disk: &mut D,
    holdings: &mut Holdings,
    read_only: bool,
    path: &Path,
    words: FileWords,
    bytes: &[u8],
) -> Result<(), SafeError>
    requires attached { IsTrue (D.attached disk.old) }
    requires settled { IsFalse (D.pending disk.old) }
    requires stands { Stands D.Disk holdings.old disk.old }
    requires suits { Suits (parts_of holdings.old).layout (parts_of holdings.old).nodes }
    requires length { length bytes.now ≡ words.len }
    ensures refused { AnswersSafelyOver read_only (Command.Save path.now words.load words.exec bytes.now) (parts_of holdings.old) result }
    ensures changed { OnOk result (HasChangedSafely D.Disk (Command.Save path.now words.load words.exec bytes.now) (parts_of holdings.old) (parts_of holdings.new) disk.old disk.new) }
    ensures tree { StopsAndExitsLeave D.Disk disk.old disk.new (LeavesTree (Command.Save path.now words.load words.exec bytes.now) (parts_of holdings.old)) }
    ensures free { StopsAndExitsLeave D.Disk disk.old disk.new (WritesFreeOf (parts_of holdings.old)) }
    ensures keeps { SafeKeeps D.Disk disk.old disk.new holdings.old holdings.new result }
{
    let judged = file_job(alloc, holdings, read_only, path, words);
    carry_out(alloc, disk, holdings, judged, bytes)
}

/// Writes a file of as many zeros as these words say, new or in the place of another, as `save` does. No memory of the file's size is
/// taken.
pub fn create<D: Disk>(
    alloc: Global,
    disk: &mut D,
    holdings: &mut Holdings,
    read_only: bool,
    path: &Path,
    words: FileWords,
) -> Result<(), SafeError>
    requires attached { IsTrue (D.attached disk.old) }
    requires settled { IsFalse (D.pending disk.old) }
    requires stands { Stands D.Disk holdings.old disk.old }
    requires suits { Suits (parts_of holdings.old).layout (parts_of holdings.old).nodes }
    ensures refused { AnswersSafelyOver read_only (Command.Create path.now words.load words.exec words.len) (parts_of holdings.old) result }
    ensures changed { OnOk result (HasChangedSafely D.Disk (Command.Create path.now words.load words.exec words.len) (parts_of holdings.old) (parts_of holdings.new) disk.old disk.new) }
    ensures tree { StopsAndExitsLeave D.Disk disk.old disk.new (LeavesTree (Command.Create path.now words.load words.exec words.len) (parts_of holdings.old)) }
    ensures free { StopsAndExitsLeave D.Disk disk.old disk.new (WritesFreeOf (parts_of holdings.old)) }
    ensures keeps { SafeKeeps D.Disk disk.old disk.new holdings.old holdings.new result }
{
    let judged = file_job(alloc, holdings, read_only, path, words);
    carry_out(alloc, disk, holdings, judged, &[])
}
