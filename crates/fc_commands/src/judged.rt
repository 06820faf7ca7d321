// A judged command, carried out.
ghost use Rattle.std.specs.Prelude.{Bool, IfOk, IsFalse, IsTrue, OnOk};
ghost use Rattle.fc_device.specs.Calls.{StopsAndExitsLeave};
ghost use Rattle.fc_model.specs.Command.{Command};
ghost use Rattle.fc_holdings.specs.Holdings.{Stands, parts_of};
ghost use Rattle.fc_commands.specs.Jobs.{HasLaws};
ghost use Rattle.fc_commands.specs.Promises.{ChangeKeeps, HasChanged, WritesPlacesOf};
ghost use Rattle.fc_commands.specs.Answers.{AnswersOver};
ghost use Rattle.fc_commands.specs.Judgments.{CommandLeaves, IsJudgment};

use crate::{CommandError, Holdings, change, is_map};
use fc_change::Job;
use fc_device::Disk;
use fc_names::Name;
use std::alloc::Global;

/// What a command that nothing in the tree refuses is about, and the last name of its path, or of its new one.
#[derive(Drop)]
pub struct Judged {
    pub job: Job,
    pub name: Name,
}

/// Does what a judged command is about, or answers why it is refused. `bytes` are those of a file that is saved.
pub fn carry_out<D: Disk>(
    alloc: Global,
    disk: &mut D,
    holdings: &mut Holdings,
    judged: Result<Judged, CommandError>,
    bytes: &[u8],
) -> Result<(), CommandError>
    requires attached { IsTrue (D.attached disk.old) }
    requires settled { IsFalse (D.pending disk.old) }
    requires stands { Stands D.Disk holdings.old disk.old }
    requires judged { (c : Command) × (read_only : Bool) × IsJudgment read_only c (parts_of holdings.old) bytes.now judged }
    requires covered { IfOk judged (λ j. HasLaws (parts_of holdings.old) j.job j.name) }
    ensures refused { (c : Command) (read_only : Bool) → IsJudgment read_only c (parts_of holdings.old) bytes.now judged → AnswersOver read_only c (parts_of holdings.old) result }
    ensures changed { OnOk result ((c : Command) (read_only : Bool) → IsJudgment read_only c (parts_of holdings.old) bytes.now judged
        → HasChanged D.Disk c (parts_of holdings.old) (parts_of holdings.new) disk.old disk.new) }
    ensures places { (c : Command) (read_only : Bool) → IsJudgment read_only c (parts_of holdings.old) bytes.now judged
        → StopsAndExitsLeave D.Disk disk.old disk.new (WritesPlacesOf c (parts_of holdings.old)) }
    ensures leaves { (c : Command) (read_only : Bool) → IsJudgment read_only c (parts_of holdings.old) bytes.now judged
        → StopsAndExitsLeave D.Disk disk.old disk.new (CommandLeaves c (parts_of holdings.old)) }
    ensures keeps { ChangeKeeps D.Disk disk.old disk.new holdings.old holdings.new result }
{
    is_map(&holdings.places);
    match judged {
        Ok(Judged { job, name }) => change(alloc, disk, holdings, &job, &name, bytes),
        Err(error) => Err(error),
    }
}
