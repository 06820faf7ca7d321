// The reply to `put`: a file of the host becomes one of the disc.
ghost use Rattle.std.specs.Prelude.{◌≡◌, ◌<◌, ◌≤◌, [], false, length, Bool, IfOk, IsFalse, IsTrue, List, Ok, ℕ};
ghost use Rattle.std.specs.Option.{ForSome};
ghost use Rattle.fc_device.specs.Faults.{HasCause};
ghost use Rattle.fc_host.specs.Asked.{taken_by};
ghost use Rattle.fc_host.specs.Files.{bytes_of};
ghost use Rattle.fc_host.specs.Looks.{LooksAt};
ghost use Rattle.fc_model.specs.Command.{Command as Model};
ghost use Rattle.fc_runs.specs.HostAsks.{PutAsks};
ghost use Rattle.fc_script.specs.HostLines.{HostLine};
ghost use Rattle.fc_volume.specs.Volume.{StandsFor};
ghost use Rattle.fc_shell.specs.Answered.{ForState};
ghost use Rattle.fc_shell.specs.Modes.{mode_of};
ghost use Rattle.fc_shell.specs.Moving.{AreCaused, AsksMore, KeepsServing, LineMoves};
ghost use Rattle.fc_shell.specs.Putting.{IsMeasured, SavesFile, SavesGiven, TellsSaved};

use crate::change::{has_map, tell_done, tell_error};
use crate::moving::{MoveFault, moved};
use crate::reply::{refusal, tell};
use fc_device::{Disk, Failed, Sink};
use fc_host::{Host, HostSupply};
use fc_names::{Path, Refusal};
use fc_refusals::judge_save;
use fc_volume::{CommandError, FileWords, GivenError, Volume};
use std::alloc::Global;

/// Where a file goes, and the words that it gets.
#[derive(Clone, Copy)]
pub struct Target<'a> {
    pub path: &'a Path,
    pub load: u32,
    pub exec: u32,
}

/// How many bytes a file of the host has, or why it can't become one of a disc: it isn't there, or has more than an entry can say.
pub fn measure<H: Host>(host: &mut H, name: &[u8]) -> Result<Result<u32, Refusal>, Failed>
    requires some { 0 < length name.now }
    requires most { length name.now ≤ 64 }
    ensures measured { IfOk result (λ found. IsMeasured name.now (H.asked host.old) (H.asked host.new) (H.files host.old) found) }
    ensures looks { LooksAt name.now (H.asked host.old) (H.asked host.new) }
    ensures files { H.files host.new ≡ H.files host.old }
    ensures cause { HasCause (H.faults host.old) (H.faults host.new) result }
{
    let Some(size) = host.size(name)? else {
        return Ok(Err(Refusal::NoHostFile));
    };
    match u32::try_from(size) {
        Ok(len) => Ok(Ok(len)),
        Err(_) => Ok(Err(Refusal::HostTooLong)),
    }
}

// Asks a volume to save the bytes that are given of a file of the host.
fn save_given<D: Disk, H: Host>(
    alloc: Global,
    volume: &mut Volume,
    disk: &mut D,
    path: &Path,
    words: FileWords,
    from: &mut HostSupply<'_, H>,
) -> Result<(), GivenError>
    requires attached { IsTrue (D.attached disk.old) }
    requires fit { IsTrue volume.old.fit }
    requires stands { StandsFor D.Disk volume.old disk.old }
    requires settled { IsFalse (D.pending disk.old) }
    requires fresh { (taken_by from.old.given.list ≡ []) × (from.old.failed ≡ false) }
    requires total { from.old.total ≡ words.len }
    ensures same_reference { from.new.host.ghost_name ≡ from.old.host.ghost_name }
    ensures saved { SavesGiven D.Disk H.Host from.old.name.now words.len (Model.Save path.now words.load words.exec) volume.old volume.new disk.old disk.new
        (record { host = from.old.host.now; given = []; failed = false }) (record { host = from.new.host.now; given = taken_by from.new.given.list; failed = from.new.failed }) result }
{
    volume.save_from(alloc, disk, path, words, from)
}

// Saves a file of the host, which has as many bytes as the words say. What was written isn't synced if the host fails.
fn save_unsynced<D: Disk, H: Host>(
    alloc: Global,
    volume: &mut Volume,
    disk: &mut D,
    host: &mut H,
    name: &[u8],
    path: &Path,
    words: FileWords,
) -> Result<(), GivenError>
    requires attached { IsTrue (D.attached disk.old) }
    requires fit { IsTrue volume.old.fit }
    requires stands { StandsFor D.Disk volume.old disk.old }
    requires settled { IsFalse (D.pending disk.old) }
    requires some { 0 < length name.now }
    requires most { length name.now ≤ 64 }
    requires size { ForSome (H.files host.old) (λ files. length (bytes_of files name.now) ≡ words.len) }
    ensures { (given : List ℕ) × (failed : Bool) × SavesGiven D.Disk H.Host name.now words.len (Model.Save path.now words.load words.exec) volume.old volume.new disk.old disk.new
        (record { host = host.old; given = []; failed = false }) (record { host = host.new; given = given; failed = failed }) result }
{
    let mut from = HostSupply::new(host, name, u64::from(words.len));
    save_given(alloc, volume, disk, path, words, &mut from)
}

// Saves a file of the host, which has as many bytes as the words say. If the host fails, what was written meanwhile is synced.
fn save_file<D: Disk, H: Host>(
    alloc: Global,
    volume: &mut Volume,
    disk: &mut D,
    host: &mut H,
    name: &[u8],
    path: &Path,
    words: FileWords,
) -> Result<(), GivenError>
    requires attached { IsTrue (D.attached disk.old) }
    requires fit { IsTrue volume.old.fit }
    requires stands { StandsFor D.Disk volume.old disk.old }
    requires settled { IsFalse (D.pending disk.old) }
    requires some { 0 < length name.now }
    requires most { length name.now ≤ 64 }
    requires size { ForSome (H.files host.old) (λ files. length (bytes_of files name.now) ≡ words.len) }
    ensures { SavesFile D.Disk H.Host name.now words.len (Model.Save path.now words.load words.exec) volume.old volume.new disk.old disk.new host.old host.new result }
{
    let saved = save_unsynced(alloc, volume, disk, host, name, path, words);
    let Err(GivenError::Supply) = saved else {
        return saved;
    };
    match disk.sync() {
        Ok(()) => Err(GivenError::Supply),
        Err(Failed) => Err(GivenError::Command(CommandError::DiskFault)),
    }
}

// Writes the reply, by what the volume answered.
fn tell_saved<K: Sink>(
    alloc: Global,
    out: &mut K,
    saved: Result<(), GivenError>,
) -> Result<bool, MoveFault>
    ensures { TellsSaved K.Sink out.old out.new saved result }
{
    match saved {
        Ok(()) => moved(tell_done(out)),
        Err(GivenError::Command(error)) => moved(tell_error(alloc, out, error)),
        Err(GivenError::Supply) => Err(MoveFault::Host),
    }
}

/// Answers `put`: saves the bytes of a file of the host, and writes the reply. The path is judged before the host is asked. Answers
/// whether the reply is an error line.
pub fn put<D: Disk, K: Sink, H: Host>(
    alloc: Global,
    volume: &mut Volume,
    disk: &mut D,
    out: &mut K,
    host: &mut H,
    name: &[u8],
    target: &Target<'_>,
) -> Result<bool, MoveFault>
    requires attached { IsTrue (D.attached disk.old) }
    requires fit { IsTrue volume.old.fit }
    requires stands { StandsFor D.Disk volume.old disk.old }
    requires settled { IsFalse (D.pending disk.old) }
    requires some { 0 < length name.now }
    requires most { length name.now ≤ 64 }
    ensures step { ForState (D.bytes disk.old) volume.old (λ kind s. AsksMore H.Host host.old host.new (λ asked.
        LineMoves D.Disk disk.old disk.new (mode_of kind volume.old.read_only false) s volume.new (Ok (HostLine.Put name.now target.now.path.now target.now.load target.now.exec)) (K.taken out.old) (K.taken out.new) asked (H.files host.old) (H.files host.new) result)) }
    ensures asks { AsksMore H.Host host.old host.new (PutAsks name.now) }
    ensures keeps { KeepsServing D.Disk disk.old disk.new volume.old volume.new (Ok (HostLine.Put name.now target.now.path.now target.now.load target.now.exec)) result }
    ensures caused { AreCaused D.Disk K.Sink H.Host disk.old disk.new out.old out.new host.old host.new result }
{
    if let Err(reason) = judge_save(
        volume.tree(),
        volume.space().dir_form(),
        volume.read_only,
        target.path,
    ) {
        return moved(tell(out, refusal(alloc, reason)));
    }
    has_map(volume);
    let len = match measure(host, name)? {
        Ok(len) => len,
        Err(reason) => return moved(tell(out, refusal(alloc, reason))),
    };
    let words = FileWords {
        load: target.load,
        exec: target.exec,
        len,
    };
    let saved = save_file(alloc, volume, disk, host, name, target.path, words);
    tell_saved(alloc, out, saved)
}
