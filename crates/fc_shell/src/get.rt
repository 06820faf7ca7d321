// The reply to `get`: a file of the disc becomes one of the host.
ghost use Rattle.std.specs.Prelude.{◌≡◌, ◌<◌, ◌≤◌, Bool, Ok, length, IsFalse, IsTrue};
ghost use Rattle.std.specs.Option.{ForSome};
ghost use Rattle.fc_device.specs.Calls.{OnlyReads};
ghost use Rattle.fc_runs.specs.HostAsks.{GetAsks};
ghost use Rattle.fc_script.specs.HostLines.{HostLine};
ghost use Rattle.fc_volume.specs.Answers.{IsRef, ref_bytes};
ghost use Rattle.fc_volume.specs.Volume.{StandsFor};
ghost use Rattle.fc_shell.specs.Answered.{ForState};
ghost use Rattle.fc_shell.specs.Getting.{FileMoves};
ghost use Rattle.fc_shell.specs.Modes.{mode_of};
ghost use Rattle.fc_shell.specs.Moving.{AreCaused, AsksMore, LineMoves};

use crate::change::tell_done;
use crate::moving::{MoveFault, moved};
use crate::reply::{refusal, tell};
use fc_device::{Disk, Sink};
use fc_export::export;
use fc_host::Host;
use fc_names::{Path, Refusal};
use fc_volume::{CommandError, FileRef, Volume};
use std::alloc::Global;

// Makes a file of the host with the bytes of a file of the volume, and writes the reply.
fn get_file<D: Disk, K: Sink, H: Host>(
    alloc: Global,
    volume: &Volume,
    disk: &mut D,
    out: &mut K,
    host: &mut H,
    file: &FileRef,
    name: &[u8],
) -> Result<bool, MoveFault>
    requires attached { IsTrue (D.attached disk.old) }
    requires stands { StandsFor D.Disk volume.now disk.old }
    requires named { IsRef volume.now file.now }
    requires some { 0 < length name.now }
    requires most { length name.now ≤ 64 }
    ensures moved { ForSome (D.bytes disk.old) (λ image. AsksMore H.Host host.old host.new (λ asked.
        FileMoves name.now (ref_bytes image volume.now file.now) asked (H.files host.old) (H.files host.new) (K.taken out.old) (K.taken out.new) result)) }
    ensures asks { AsksMore H.Host host.old host.new (GetAsks name.now) }
    ensures reads { OnlyReads D.Disk disk.old disk.new }
    ensures caused { AreCaused D.Disk K.Sink H.Host disk.old disk.new out.old out.new host.old host.new result }
{
    let place = volume.place(alloc, file)?;
    let size = volume.space().sector_bytes() as usize;
    if !export(disk, host, name, size, &place, file.len)? {
        return moved(tell(out, refusal(alloc, Refusal::HostExists)));
    }
    moved(tell_done(out))
}

/// Answers `get`: makes a file of the host with the bytes of an object, and writes the reply. Answers whether the reply is an error
/// line.
pub fn get<D: Disk, K: Sink, H: Host>(
    alloc: Global,
    volume: &Volume,
    disk: &mut D,
    out: &mut K,
    host: &mut H,
    path: &Path,
    name: &[u8],
) -> Result<bool, MoveFault>
    requires attached { IsTrue (D.attached disk.old) }
    requires fit { IsTrue volume.now.fit }
    requires stands { StandsFor D.Disk volume.now disk.old }
    requires settled { IsFalse (D.pending disk.old) }
    requires some { 0 < length name.now }
    requires most { length name.now ≤ 64 }
    ensures step { (safe : Bool) → ForState (D.bytes disk.old) volume.now (λ kind s. AsksMore H.Host host.old host.new (λ asked.
        LineMoves D.Disk disk.old disk.new (mode_of kind volume.now.read_only safe) s volume.now (Ok (HostLine.Get path.now name.now)) (K.taken out.old) (K.taken out.new) asked (H.files host.old) (H.files host.new) result)) }
    ensures asks { AsksMore H.Host host.old host.new (GetAsks name.now) }
    ensures reads { OnlyReads D.Disk disk.old disk.new }
    ensures caused { AreCaused D.Disk K.Sink H.Host disk.old disk.new out.old out.new host.old host.new result }
{
    match volume.load(disk, path) {
        Ok(file) => get_file(alloc, volume, disk, out, host, &file, name),
        Err(CommandError::Refused(reason)) => moved(tell(out, refusal(alloc, reason))),
        Err(CommandError::NoMemory) => Err(MoveFault::NoMemory),
        Err(CommandError::DiskFault) => unreachable!(),
    }
}
