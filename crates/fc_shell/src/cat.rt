// The reply to `cat`.
ghost use Rattle.std.specs.Prelude.{◌≡◌, IfOk, IsTrue};
ghost use Rattle.fc_model.specs.Command.{Command as Model};
ghost use Rattle.fc_volume.specs.Volume.{StandsFor};
ghost use Rattle.fc_shell.specs.Answered.{ForState, IsReply, volume_reply};
ghost use Rattle.fc_shell.specs.Told.{told_length, told_lines};

use crate::reply::{Reply, refusal};
use fc_device::{Disk, NoMemory};
use fc_names::Path;
use fc_script::entry_text;
use fc_volume::{CommandError, Line, Listed, Volume};
use std::alloc::Global;

// The length of a file; a directory has none.
fn told_length(listed: Listed) -> Option<u64>
    ensures { result ≡ told_length listed }
{
    match listed {
        Listed::Dir => None,
        Listed::File(len) => Some(len),
    }
}

// The lines of a directory as a reply.
fn listing(alloc: Global, lines: &Vec<Line>) -> Result<Reply, NoMemory>
    ensures { IfOk result (λ reply. IsReply reply (told_lines lines.now.items)) }
{
    let mut text = Vec::new(alloc);
    for line in lines {
        entry_text(
            &line.name,
            line.attrs,
            line.load,
            line.exec,
            told_length(line.listed),
            &mut text,
        )?;
    }
    text.extend_from_slice(b"ok\n")?;
    Ok(Reply {
        text,
        is_error: false,
    })
}

/// Lists a directory.
pub fn cat<D: Disk>(
    alloc: Global,
    volume: &Volume,
    disk: &mut D,
    path: &Path,
) -> Result<Reply, NoMemory>
    requires fit { IsTrue volume.now.fit }
    requires stands { StandsFor D.Disk volume.now disk.old }
    ensures reply { ForState (D.bytes disk.old) volume.now (λ kind s. IfOk result (λ reply. IsReply reply (volume_reply kind volume.now s (Model.Cat path.now)))) }
    ensures disk { disk.new ≡ disk.old }
{
    match volume.cat(alloc, disk, path) {
        Ok(lines) => listing(alloc, &lines),
        Err(CommandError::Refused(reason)) => refusal(alloc, reason),
        Err(CommandError::NoMemory) => Err(NoMemory),
        Err(CommandError::DiskFault) => unreachable!(),
    }
}
