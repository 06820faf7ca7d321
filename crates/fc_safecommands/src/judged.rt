// A judged command, carried out in the safe mode.
ghost use Rattle.std.specs.Prelude.{◌≡◌, Bool, IfOk, IsFalse, IsTrue, OnOk};
ghost use Rattle.fc_device.specs.Calls.{StopsAndExitsLeave};
ghost use Rattle.fc_model.specs.Command.{Command};
ghost use Rattle.fc_holdings.specs.Holdings.{Stands, parts_of};
ghost use Rattle.fc_commands.specs.Judgments.{IsJudgment};
ghost use Rattle.fc_commands.specs.Jobs.{HasLaws};
ghost use Rattle.fc_safe.specs.Suits.{Suits};
ghost use Rattle.fc_safecommands.specs.Promises.{HasChangedSafely, LeavesTree, SafeKeeps, WritesFreeOf};
ghost use Rattle.fc_safecommands.specs.Answers.{AnswersSafelyOver, safe_error};

use crate::{Holdings, SafeError, transact};
use fc_commands::{CommandError, Judged};
use fc_device::Disk;
use std::alloc::Global;

// A judge's error, as one of the safe mode.
fn safe_error(error: CommandError) -> SafeError
    ensures { result ≡ safe_error error }
{
    match error {
        CommandError::Refused(refusal) => SafeError::Refused(refusal),
        CommandError::NoMemory => SafeError::NoMemory,
        CommandError::DiskFault => SafeError::DiskFault,
    }
}

// Does what a judged command is about as a whole or not at all, or answers why it is refused. `bytes` are those of a file that is saved.
pub fn carry_out<D: Disk>(
    alloc: Global,
    disk: &mut D,
    holdings: &mut Holdings,
    judged: Result<Judged, CommandError>,
    bytes: &[u8],
) -> Result<(), SafeError>
    requires attached { IsTrue (D.attached disk.old) }
    requires settled { IsFalse (D.pending disk.old) }
    requires stands { Stands D.Disk holdings.old disk.old }
    requires suits { Suits (parts_of holdings.old).layout (parts_of holdings.old).nodes }
    requires judged { (c : Command) × (read_only : Bool) × IsJudgment read_only c (parts_of holdings.old) bytes.now judged }
    requires covered { IfOk judged (λ j. HasLaws (parts_of holdings.old) j.job j.name) }
    ensures refused { (c : Command) (read_only : Bool) → IsJudgment read_only c (parts_of holdings.old) bytes.now judged → AnswersSafelyOver read_only c (parts_of holdings.old) result }
    ensures changed { OnOk result ((c : Command) (read_only : Bool) → IsJudgment read_only c (parts_of holdings.old) bytes.now judged
        → HasChangedSafely D.Disk c (parts_of holdings.old) (parts_of holdings.new) disk.old disk.new) }
    ensures tree { (c : Command) (read_only : Bool) → IsJudgment read_only c (parts_of holdings.old) bytes.now judged
        → StopsAndExitsLeave D.Disk disk.old disk.new (LeavesTree c (parts_of holdings.old)) }
    ensures free { StopsAndExitsLeave D.Disk disk.old disk.new (WritesFreeOf (parts_of holdings.old)) }
    ensures keeps { SafeKeeps D.Disk disk.old disk.new holdings.old holdings.new result }
{
    match judged {
        Ok(Judged { job, name }) => transact(alloc, disk, holdings, &job, &name, bytes),
        Err(error) => Err(safe_error(error)),
    }
}
