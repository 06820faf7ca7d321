// `set` in the safe mode.
ghost use Rattle.std.specs.Prelude.{◌<◌, IsFalse, IsTrue, OnOk};
ghost use Rattle.fc_device.specs.Calls.{StopsAndExitsLeave};
ghost use Rattle.fc_model.specs.Command.{Command};
ghost use Rattle.fc_holdings.specs.Holdings.{Stands, parts_of};
ghost use Rattle.fc_safe.specs.Suits.{Suits};
ghost use Rattle.fc_safecommands.specs.Promises.{HasChangedSafely, LeavesTree, SafeKeeps, WritesFreeOf};
ghost use Rattle.fc_safecommands.specs.Answers.{AnswersSafelyOver};

use crate::judged::carry_out;
use crate::{Holdings, SafeError};
use fc_change::ObjectWords;
use fc_commands::set_job;
use fc_device::Disk;
use fc_names::Path;
use std::alloc::Global;

/// Gives an object other load and exec words, and other access bits (bits 0 to 2 of its attributes; the others stay), whole or not at all,
/// as `delete` does: at any moment, a crash or an I/O error, the disc has the tree before the command or the tree after it, and beside the
/// map only sectors are written in which nothing lay.
///
/// Refused with the first reason that applies, and then nothing has changed; `NoMemory` leaves all as it was, too. `DiskFault` only if
/// the disk's count of faults rose; the holdings stand for nothing afterwards.
pub fn set<D: Disk>(
    alloc: Global,
    disk: &mut D,
    holdings: &mut Holdings,
    read_only: bool,
    path: &Path,
    words: ObjectWords,
) -> Result<(), SafeError>
    requires attached { IsTrue (D.attached disk.old) }
    requires settled { IsFalse (D.pending disk.old) }
    requires stands { Stands D.Disk holdings.old disk.old }
    requires suits { Suits (parts_of holdings.old).layout (parts_of holdings.old).nodes }
    requires access { words.access < 8 }
    ensures refused { AnswersSafelyOver read_only (Command.Set path.now words.load words.exec words.access) (parts_of holdings.old) result }
    ensures changed { OnOk result (HasChangedSafely D.Disk (Command.Set path.now words.load words.exec words.access) (parts_of holdings.old) (parts_of holdings.new) disk.old disk.new) }
    ensures tree { StopsAndExitsLeave D.Disk disk.old disk.new (LeavesTree (Command.Set path.now words.load words.exec words.access) (parts_of holdings.old)) }
    ensures free { StopsAndExitsLeave D.Disk disk.old disk.new (WritesFreeOf (parts_of holdings.old)) }
    ensures keeps { SafeKeeps D.Disk disk.old disk.new holdings.old holdings.new result }
{
    let judged = set_job(alloc, holdings, read_only, path, words);
    carry_out(alloc, disk, holdings, judged, &[])
}
