// `put`: a file, new or in the place of another, from bytes that are given in order.
ghost use Rattle.std.specs.Prelude.{◌≡◌, [], Err, IsFalse, IsTrue, List, OnOk, ℕ, length};
ghost use Rattle.fc_device.specs.Calls.{StopsAndExitsLeave};
ghost use Rattle.fc_model.specs.Command.{Command};
ghost use Rattle.fc_holdings.specs.Holdings.{Stands, parts_of};
ghost use Rattle.fc_commands.specs.Given.{GivenKeeps, OpensAlikeOf, as_held, filled};
ghost use Rattle.fc_commands.specs.Promises.{HasChanged, WritesPlacesOf};
ghost use Rattle.fc_commands.specs.declared.given.GivenError.TheVariants as errors;
ghost use Rattle.fc_commands.specs.Answers.{AnswersOver};
ghost use Rattle.fc_commands.specs.Judgments.{CommandLeaves, FillsPlace};

use crate::commands::save::file_job;
use crate::judged::Judged;
use crate::{GivenError, Holdings, change_from, is_map};
use fc_change::FileWords;
use fc_device::Disk;
use fc_host::Supply;
use fc_names::Path;
use std::alloc::Global;

/// Writes a file as `save` does, of as many bytes as these words say, which are given in order. None is given yet, and they are asked for
/// only once the command is accepted and has its space: each is then written to its sector, and the map, the directory and what else
/// changes when all are there. No memory of their number is taken.
///
/// Refused as `save` is, with the first reason that applies, whatever the bytes, and then nothing has changed and none was given;
/// `NoMemory` leaves all as it was, too. At any moment, a crash or an error, the disk is as `save` may leave it for the bytes that were
/// given and zeros in place of the others. `GivenError::Supply` only if the supply's count of faults rose: then only sectors that the new
/// file would get have other bytes, in which nothing lies, the image opens as the very same, and the holdings stand for it. After
/// `DiskFault`, which comes only if the disk's count rose, they stand for nothing.
pub fn save_from<D: Disk, B: Supply>(
    alloc: Global,
    disk: &mut D,
    holdings: &mut Holdings,
    read_only: bool,
    path: &Path,
    words: FileWords,
    from: &mut B,
) -> Result<(), GivenError>
    requires attached { IsTrue (D.attached disk.old) }
    requires settled { IsFalse (D.pending disk.old) }
    requires stands { Stands D.Disk holdings.old disk.old }
    requires fresh { B.given from.old ≡ [] }
    requires length { B.total from.old ≡ words.len }
    ensures refused { (bytes : List ℕ) → length bytes ≡ words.len
        → AnswersOver read_only (Command.Save path.now words.load words.exec bytes) (parts_of holdings.old) (as_held result) }
    ensures given { OnOk result (length (B.given from.new) ≡ words.len) }
    ensures changed { OnOk result (HasChanged D.Disk (Command.Save path.now words.load words.exec (B.given from.new)) (parts_of holdings.old) (parts_of holdings.new) disk.old disk.new) }
    ensures places { StopsAndExitsLeave D.Disk disk.old disk.new (WritesPlacesOf (Command.Save path.now words.load words.exec (filled words.len (B.given from.new))) (parts_of holdings.old)) }
    ensures leaves { StopsAndExitsLeave D.Disk disk.old disk.new (CommandLeaves (Command.Save path.now words.load words.exec (filled words.len (B.given from.new))) (parts_of holdings.old)) }
    ensures stopped { result ≡ Err errors.Supply
        → StopsAndExitsLeave D.Disk disk.old disk.new (FillsPlace (Command.Save path.now words.load words.exec (filled words.len (B.given from.new))) (parts_of holdings.old)) }
    ensures alike { result ≡ Err errors.Supply → StopsAndExitsLeave D.Disk disk.old disk.new (OpensAlikeOf (parts_of holdings.old)) }
    ensures keeps { GivenKeeps D.Disk B.Supply disk.old disk.new from.old from.new holdings.old holdings.new result }
{
    is_map(&holdings.places);
    match file_job(alloc, holdings, read_only, path, words) {
        Ok(Judged { job, name }) => change_from(alloc, disk, holdings, &job, &name, from),
        Err(error) => Err(GivenError::Command(error)),
    }
}
