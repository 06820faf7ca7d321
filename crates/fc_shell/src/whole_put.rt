// The reply to `put` in the safe mode: a file of the host becomes one of the disc, whole or not at all.
ghost use Rattle.std.specs.Prelude.{◌≡◌, ◌⊎◌, ◌<◌, ◌≤◌, Err, IfErr, IfOk, IsFalse, IsTrue, Ok, length, true};
ghost use Rattle.std.specs.Option.{ForSome};
ghost use Rattle.fc_device.specs.Faults.{Rose};
ghost use Rattle.fc_host.specs.Files.{bytes_of};
ghost use Rattle.fc_host.specs.Looks.{LooksAt, Takes};
ghost use Rattle.fc_runs.specs.HostAsks.{PutAsks};
ghost use Rattle.fc_safe.specs.Suits.{Suits};
ghost use Rattle.fc_script.specs.HostLines.{HostLine};
ghost use Rattle.fc_volume.specs.Volume.{StandsFor, parts_of};
ghost use Rattle.fc_shell.specs.Answered.{ForState};
ghost use Rattle.fc_shell.specs.Modes.{mode_of};
ghost use Rattle.fc_shell.specs.Moving.{AreCaused, AsksMore, KeepsServing, LineMoves};

use crate::moving::{MoveFault, moved};
use crate::put::{Target, measure};
use crate::reply::{refusal, tell};
use crate::safety::{save_safely, tell_safely};
use fc_device::{Disk, NoMemory, Sink};
use fc_host::{Host, take_all};
use fc_refusals::judge_save;
use fc_volume::{FileWords, Volume};
use std::alloc::Global;

// So many bytes of memory.
fn zeros(alloc: Global, len: u32) -> Result<Vec<u8>, NoMemory>
    ensures { IfOk result (λ bytes. length bytes.items ≡ len) }
{
    let mut bytes = Vec::new(alloc);
    bytes.resize(len as usize, 0)?;
    Ok(bytes)
}

// All bytes of a file of the host, which has so many.
fn take_file<H: Host>(
    alloc: Global,
    host: &mut H,
    name: &[u8],
    len: u32,
) -> Result<Vec<u8>, MoveFault>
    requires some { 0 < length name.now }
    requires most { length name.now ≤ 64 }
    requires size { ForSome (H.files host.old) (λ files. length (bytes_of files name.now) ≡ len) }
    ensures taken { IfOk result (λ bytes. Takes name.now 0 bytes.items (H.asked host.old) (H.asked host.new)) }
    ensures whole { IfOk result (λ bytes. length bytes.items ≡ len) }
    ensures told { IfOk result (λ bytes. ForSome (H.files host.old) (λ files. bytes.items ≡ bytes_of files name.now)) }
    ensures looks { LooksAt name.now (H.asked host.old) (H.asked host.new) }
    ensures files { H.files host.new ≡ H.files host.old }
    ensures later { H.faults host.old ≤ H.faults host.new }
    ensures errors { IfErr result (λ fault. (fault ≡ MoveFault.Host) ⊎ (fault ≡ MoveFault.NoMemory)) }
    ensures failed { result ≡ Err MoveFault.Host → Rose (H.faults host.old) (H.faults host.new) }
{
    let mut bytes = zeros(alloc, len)?;
    take_all(host, name, 0, &mut bytes)?;
    Ok(bytes)
}

/// Answers `put` in the safe mode: takes the bytes of a file of the host, all of them into memory, saves them whole or not at all, and
/// writes the reply. The path is judged before the host is asked. Answers whether the reply is an error line.
pub fn put_safely<D: Disk, K: Sink, H: Host>(
    alloc: Global,
    volume: &mut Volume,
    disk: &mut D,
    out: &mut K,
    host: &mut H,
    name: &[u8],
    target: &Target<'_>,
) -> Result<bool, MoveFault>
    requires attached { IsTrue (D.attached disk.old) }
    requires fit { IsTrue volume.old.fit }
    requires stands { StandsFor D.Disk volume.old disk.old }
    requires settled { IsFalse (D.pending disk.old) }
    requires suits { Suits (parts_of volume.old).layout (parts_of volume.old).nodes }
    requires some { 0 < length name.now }
    requires most { length name.now ≤ 64 }
    ensures step { ForState (D.bytes disk.old) volume.old (λ kind s. AsksMore H.Host host.old host.new (λ asked.
        LineMoves D.Disk disk.old disk.new (mode_of kind volume.old.read_only true) s volume.new (Ok (HostLine.Put name.now target.now.path.now target.now.load target.now.exec)) (K.taken out.old) (K.taken out.new) asked (H.files host.old) (H.files host.new) result)) }
    ensures asks { AsksMore H.Host host.old host.new (PutAsks name.now) }
    ensures keeps { KeepsServing D.Disk disk.old disk.new volume.old volume.new (Ok (HostLine.Put name.now target.now.path.now target.now.load target.now.exec)) result }
    ensures suits { IfOk result (λ refused. Suits (parts_of volume.new).layout (parts_of volume.new).nodes) }
    ensures caused { AreCaused D.Disk K.Sink H.Host disk.old disk.new out.old out.new host.old host.new result }
{
    if let Err(reason) = judge_save(
        volume.tree(),
        volume.space().dir_form(),
        volume.read_only,
        target.path,
    ) {
        return moved(tell(out, refusal(alloc, reason)));
    }
    let len = match measure(host, name)? {
        Ok(len) => len,
        Err(reason) => return moved(tell(out, refusal(alloc, reason))),
    };
    let bytes = take_file(alloc, host, name, len)?;
    let words = FileWords {
        load: target.load,
        exec: target.exec,
        len,
    };
    let saved = save_safely(alloc, volume, disk, target.path, words, &bytes);
    moved(tell_safely(alloc, out, saved))
}
