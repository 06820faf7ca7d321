// Conversion's `mark`: other attributes for one object.
ghost use Rattle.std.specs.Prelude.{◌↔◌, [], IfOk, IsFalse, IsTrue, OnOk};
ghost use Rattle.fc_device.specs.Calls.{StopsAndExitsLeave};
ghost use Rattle.fc_image.specs.Layout.{dir_form};
ghost use Rattle.fc_model.specs.Command.{Command};
ghost use Rattle.fc_space.specs.Space.{layout_of};
ghost use Rattle.fc_holdings.specs.Holdings.{Stands, parts_of};
ghost use Rattle.fc_commands.specs.Jobs.{FitAttributes, HasLaws};
ghost use Rattle.fc_commands.specs.Promises.{ChangeKeeps, HasChanged, SameMap, WritesPlacesOf};
ghost use Rattle.fc_commands.specs.Answers.{AnswersOver};
ghost use Rattle.fc_commands.specs.Judgments.{CommandLeaves, IsJudgment};

use crate::judged::{Judged, carry_out};
use crate::name::last_name;
use crate::{CommandError, Holdings};
use fc_change::Job;
use fc_device::Disk;
use fc_names::{NameForm, Path};
use fc_refusals::judge_set;
use fc_space::Places;
use std::alloc::Global;

/// Whether the entries of a disc can hold these attributes.
pub fn can_mark(places: &Places, attrs: u32) -> bool
    ensures { (IsTrue result) ↔ (FitAttributes (dir_form (layout_of places.now)) attrs) }
{
    match places.dir_form() {
        NameForm::Seven => attrs < 1024,
        NameForm::Ten => attrs < 256,
        NameForm::Long => true,
    }
}

/// The job of `mark`, or why it is refused: for the reasons of `set`.
pub fn mark_job(
    alloc: Global,
    holdings: &Holdings,
    read_only: bool,
    path: &Path,
    attrs: u32,
) -> Result<Judged, CommandError>
    requires { FitAttributes (dir_form (parts_of holdings.now).layout) attrs }
    ensures judged { IsJudgment read_only (Command.Mark path.now attrs) (parts_of holdings.now) [] result }
    ensures covered { IfOk result (λ judged. HasLaws (parts_of holdings.now) judged.job judged.name) }
{
    let target = judge_set(&holdings.tree, read_only, path)?;
    let name = last_name(alloc, path)?;
    Ok(Judged {
        job: Job::Marks(target, attrs),
        name,
    })
}

/// Gives an object other attributes, but for bit 3. What is written is as for `set`.
///
/// Refused with the first reason that applies, and then nothing has changed; `NoMemory` leaves all as it was, too. `DiskFault` only if
/// the disk's count of faults rose; the holdings stand for nothing afterwards.
pub fn mark<D: Disk>(
    alloc: Global,
    disk: &mut D,
    holdings: &mut Holdings,
    read_only: bool,
    path: &Path,
    attrs: u32,
) -> Result<(), CommandError>
    requires attached { IsTrue (D.attached disk.old) }
    requires settled { IsFalse (D.pending disk.old) }
    requires stands { Stands D.Disk holdings.old disk.old }
    requires fit { FitAttributes (dir_form (parts_of holdings.old).layout) attrs }
    ensures refused { AnswersOver read_only (Command.Mark path.now attrs) (parts_of holdings.old) result }
    ensures changed { OnOk result (HasChanged D.Disk (Command.Mark path.now attrs) (parts_of holdings.old) (parts_of holdings.new) disk.old disk.new) }
    ensures places { StopsAndExitsLeave D.Disk disk.old disk.new (WritesPlacesOf (Command.Mark path.now attrs) (parts_of holdings.old)) }
    ensures leaves { StopsAndExitsLeave D.Disk disk.old disk.new (CommandLeaves (Command.Mark path.now attrs) (parts_of holdings.old)) }
    ensures map { StopsAndExitsLeave D.Disk disk.old disk.new (SameMap (parts_of holdings.old).layout) }
    ensures keeps { ChangeKeeps D.Disk disk.old disk.new holdings.old holdings.new result }
{
    let judged = mark_job(alloc, holdings, read_only, path, attrs);
    carry_out(alloc, disk, holdings, judged, &[])
}
