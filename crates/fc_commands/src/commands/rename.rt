// `rename`: another name, or another directory, or both.
ghost use Rattle.std.specs.Prelude.{◌<◌, ◌^◌, [], IfOk, IsFalse, IsTrue, OnOk};
ghost use Rattle.fc_device.specs.Calls.{StopsAndExitsLeave};
ghost use Rattle.fc_model.specs.Command.{Command};
ghost use Rattle.fc_tree.specs.Nodes.{nodes_of};
ghost use Rattle.fc_change.specs.Needs.{len_at};
ghost use Rattle.fc_holdings.specs.Holdings.{Stands, parts_of};
ghost use Rattle.fc_commands.specs.Jobs.{HasLaws};
ghost use Rattle.fc_commands.specs.Promises.{ChangeKeeps, HasChanged, WritesPlacesOf};
ghost use Rattle.fc_commands.specs.Answers.{AnswersOver};
ghost use Rattle.fc_commands.specs.Judgments.{CommandLeaves, IsJudgment};

use crate::judged::{Judged, carry_out};
use crate::name::last_name;
use crate::{CommandError, Holdings};
use fc_change::Job;
use fc_device::Disk;
use fc_names::Path;
use fc_refusals::judge_rename;
use fc_tree::Tree;
use std::alloc::Global;

// A law: 32 bits say fewer than 2 to the 32.
fn below(len: u32)
    ensures { len < 2 ^ 32 }
{}

// A law: an entry says fewer bytes than that.
fn few_bytes(tree: &Tree, n: u64)
    ensures { len_at (nodes_of tree.now) n < 2 ^ 32 }
{
    if let Some(node) = tree.node(n) {
        below(node.entry.len);
    }
}

/// The job of `rename`, or why it is refused: the new name can't be written, the path leads to nothing, the path of the new holder leads
/// to no directory, something else is at the new path, the root can't be renamed, a directory can't be moved into itself, the object is
/// locked, or nothing may be changed.
pub fn rename_job(
    alloc: Global,
    holdings: &Holdings,
    read_only: bool,
    from: &Path,
    to: &Path,
) -> Result<Judged, CommandError>
    ensures judged { IsJudgment read_only (Command.Rename from.now to.now) (parts_of holdings.now) [] result }
    ensures covered { IfOk result (λ judged. HasLaws (parts_of holdings.now) judged.job judged.name) }
{
    let form = holdings.places.dir_form();
    let renaming = judge_rename(&holdings.tree, form, read_only, from, to)?;
    let name = last_name(alloc, to)?;
    few_bytes(&holdings.tree, renaming.target.node);
    Ok(Judged {
        job: Job::Move(renaming),
        name,
    })
}

/// Gives an object another name, another directory, or both. Copies of a new map that may differ are made equal first. The directory that
/// gets the entry is written, then the object's own, if it is a directory, and last the directory that loses the entry. The object
/// stays where it is, and so does the map; but a file that shares its identifier and leaves its directory is copied first, and gives
/// its space back last. If the directory that gets the entry has to grow, it is written to its new place first.
///
/// Refused with the first reason that applies, and then nothing has changed; `NoMemory` leaves all as it was, too. `DiskFault` only if
/// the disk's count of faults rose; the holdings stand for nothing afterwards.
pub fn rename<D: Disk>(
    alloc: Global,
    disk: &mut D,
    holdings: &mut Holdings,
    read_only: bool,
    from: &Path,
    to: &Path,
) -> Result<(), CommandError>
    requires attached { IsTrue (D.attached disk.old) }
    requires settled { IsFalse (D.pending disk.old) }
    requires stands { Stands D.Disk holdings.old disk.old }
    ensures refused { AnswersOver read_only (Command.Rename from.now to.now) (parts_of holdings.old) result }
    ensures changed { OnOk result (HasChanged D.Disk (Command.Rename from.now to.now) (parts_of holdings.old) (parts_of holdings.new) disk.old disk.new) }
    ensures places { StopsAndExitsLeave D.Disk disk.old disk.new (WritesPlacesOf (Command.Rename from.now to.now) (parts_of holdings.old)) }
    ensures leaves { StopsAndExitsLeave D.Disk disk.old disk.new (CommandLeaves (Command.Rename from.now to.now) (parts_of holdings.old)) }
    ensures keeps { ChangeKeeps D.Disk disk.old disk.new holdings.old holdings.new result }
{
    let judged = rename_job(alloc, holdings, read_only, from, to);
    carry_out(alloc, disk, holdings, judged, &[])
}
