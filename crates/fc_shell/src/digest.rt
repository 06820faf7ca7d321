// The reply to `digest`, written as the file is read.
ghost use Rattle.std.specs.Prelude.{IsTrue};
ghost use Rattle.std.specs.Option.{ForSome};
ghost use Rattle.fc_device.specs.Calls.{OnlyReads};
ghost use Rattle.fc_model.specs.Command.{Command as Model};
ghost use Rattle.fc_script.specs.Texts.{digest_reply};
ghost use Rattle.fc_volume.specs.Answers.{IsRef, ref_bytes};
ghost use Rattle.fc_volume.specs.Volume.{StandsFor};
ghost use Rattle.fc_shell.specs.Answered.{Answered, ForState, IsCaused, volume_reply};

use crate::answer::LineFault;
use crate::files::write_digest;
use crate::reply::{refusal, tell};
use fc_device::{Disk, Sink};
use fc_names::Path;
use fc_volume::{CommandError, FileRef, Volume};
use std::alloc::Global;

// Writes the digest of a file's bytes.
fn tell_file<D: Disk, K: Sink>(
    alloc: Global,
    volume: &Volume,
    disk: &mut D,
    out: &mut K,
    file: &FileRef,
) -> Result<bool, LineFault>
    requires attached { IsTrue (D.attached disk.old) }
    requires stands { StandsFor D.Disk volume.now disk.old }
    requires named { IsRef volume.now file.now }
    ensures answered { ForSome (D.bytes disk.old) (λ image. Answered (digest_reply (ref_bytes image volume.now file.now)) (K.taken out.old) (K.taken out.new) result) }
    ensures reads { OnlyReads D.Disk disk.old disk.new }
    ensures caused { IsCaused D.Disk K.Sink disk.old disk.new out.old out.new result }
{
    let place = volume.place(alloc, file)?;
    let size = volume.space().sector_bytes() as usize;
    write_digest(disk, out, size, &place, file.len)?;
    Ok(false)
}

/// Answers `digest`.
pub fn digest<D: Disk, K: Sink>(
    alloc: Global,
    volume: &Volume,
    disk: &mut D,
    out: &mut K,
    path: &Path,
) -> Result<bool, LineFault>
    requires attached { IsTrue (D.attached disk.old) }
    requires fit { IsTrue volume.now.fit }
    requires stands { StandsFor D.Disk volume.now disk.old }
    ensures answered { ForState (D.bytes disk.old) volume.now (λ kind s. Answered (volume_reply kind volume.now s (Model.Digest path.now)) (K.taken out.old) (K.taken out.new) result) }
    ensures reads { OnlyReads D.Disk disk.old disk.new }
    ensures caused { IsCaused D.Disk K.Sink disk.old disk.new out.old out.new result }
{
    match volume.load(disk, path) {
        Ok(file) => tell_file(alloc, volume, disk, out, &file),
        Err(CommandError::Refused(reason)) => tell(out, refusal(alloc, reason)),
        Err(CommandError::NoMemory) => Err(LineFault::NoMemory),
        Err(CommandError::DiskFault) => unreachable!(),
    }
}
