// `delete` in the safe mode.
ghost use Rattle.std.specs.Prelude.{IsFalse, IsTrue, OnOk};
ghost use Rattle.fc_device.specs.Calls.{StopsAndExitsLeave};
ghost use Rattle.fc_model.specs.Command.{Command};
ghost use Rattle.fc_holdings.specs.Holdings.{Stands, parts_of};
ghost use Rattle.fc_safe.specs.Suits.{Suits};
ghost use Rattle.fc_safecommands.specs.Promises.{HasChangedSafely, LeavesTree, SafeKeeps, WritesFreeOf};
ghost use Rattle.fc_safecommands.specs.Answers.{AnswersSafelyOver};

use crate::judged::carry_out;
use crate::{Holdings, SafeError};
use fc_commands::delete_job;
use fc_device::Disk;
use fc_names::Path;
use std::alloc::Global;

/// Takes a file or an empty directory away, whole or not at all: at any moment, a crash or an I/O error, the disc has the tree before the
/// command or the tree after it. The directory that held the object is written into new runs of its identifier, what else lies there is
/// copied, and one commit of at most nine zones makes it count and gives all the old space back. Beside the map only sectors are written
/// in which nothing lay.
///
/// Refused with the first reason that applies, `Spread` the last of them, and then nothing has changed; `NoMemory` leaves all as it was,
/// too. `DiskFault` only if the disk's count of faults rose; the holdings stand for nothing afterwards.
pub fn delete<D: Disk>(
    alloc: Global,
    disk: &mut D,
    holdings: &mut Holdings,
    read_only: bool,
    path: &Path,
) -> Result<(), SafeError>
    requires attached { IsTrue (D.attached disk.old) }
    requires settled { IsFalse (D.pending disk.old) }
    requires stands { Stands D.Disk holdings.old disk.old }
    requires suits { Suits (parts_of holdings.old).layout (parts_of holdings.old).nodes }
    ensures refused { AnswersSafelyOver read_only (Command.Delete path.now) (parts_of holdings.old) result }
    ensures changed { OnOk result (HasChangedSafely D.Disk (Command.Delete path.now) (parts_of holdings.old) (parts_of holdings.new) disk.old disk.new) }
    ensures tree { StopsAndExitsLeave D.Disk disk.old disk.new (LeavesTree (Command.Delete path.now) (parts_of holdings.old)) }
    ensures free { StopsAndExitsLeave D.Disk disk.old disk.new (WritesFreeOf (parts_of holdings.old)) }
    ensures keeps { SafeKeeps D.Disk disk.old disk.new holdings.old holdings.new result }
{
    let judged = delete_job(alloc, holdings, read_only, path);
    carry_out(alloc, disk, holdings, judged, &[])
}
