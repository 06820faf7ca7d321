// Commands that change the disc in the safe mode: each is done whole or not at all.
ghost use Rattle.std.specs.Prelude.{◌≡◌, ◌≤◌, List, ℕ, length, true, false, IfOk, Ok, Err, IsFalse, IsTrue, codes};
ghost use Rattle.fc_holdings.specs.Holdings.{Stands, parts_of as held_parts};
ghost use Rattle.fc_model.specs.Command.{Command as Model};
ghost use Rattle.fc_runs.specs.Run.{keeps_tree};
ghost use Rattle.fc_safe.specs.Suits.{Suits};
ghost use Rattle.fc_script.specs.Lines.{command_of};
ghost use Rattle.fc_script.specs.Reading.{command};
ghost use Rattle.fc_volume.specs.Volume.{StandsFor, parts_of};
ghost use Rattle.fc_shell.specs.Answered.{Answered, ForState, OnlyTells};
ghost use Rattle.fc_shell.specs.Changing.{ChangesSafely, IsAskedSafely, TellsSafely, is_usable_after};
ghost use Rattle.fc_shell.specs.Line.{KeepsGoing, LineEnds};
ghost use Rattle.fc_shell.specs.Modes.{mode_of};
ghost use Rattle.fc_shell.specs.Replies.{script_limit};

use crate::answer::LineFault;
use crate::change::{file_words, object_words, tell_done};
use crate::reply::{refusal, tell};
use crate::sink::write_all;
use fc_device::{Disk, Sink};
use fc_names::Path;
use fc_safecommands::{Holdings, SafeError, cdir, create, delete, rename, save, set};
use fc_script::Command;
use fc_volume::{FileWords, Volume};
use std::alloc::Global;

// Writes the line of the refusal that too many zones would change.
fn tell_spread<K: Sink>(out: &mut K) -> Result<bool, LineFault>
    ensures answered { Answered (codes "error 17 Spread\n") (K.taken out.old) (K.taken out.new) result }
    ensures only { OnlyTells K.Sink out.old out.new result }
{
    write_all(out, b"error 17 Spread\n")?;
    Ok(true)
}

// Writes the line of a refusal in the safe mode. After any other error nothing is written.
fn tell_safe_error<K: Sink>(alloc: Global, out: &mut K, error: SafeError) -> Result<bool, LineFault>
    ensures { TellsSafely K.Sink out.old out.new (Err error) result }
{
    match error {
        SafeError::Refused(reason) => tell(out, refusal(alloc, reason)),
        SafeError::Spread(_) => tell_spread(out),
        SafeError::NoMemory => Err(LineFault::NoMemory),
        SafeError::DiskFault => Err(LineFault::Disk),
    }
}

/// Writes the reply to a command that was asked for in the safe mode. Answers whether it is an error line.
pub fn tell_safely<K: Sink>(
    alloc: Global,
    out: &mut K,
    changed: Result<(), SafeError>,
) -> Result<bool, LineFault>
    ensures { TellsSafely K.Sink out.old out.new changed result }
{
    match changed {
        Ok(()) => tell_done(out),
        Err(error) => tell_safe_error(alloc, out, error),
    }
}

// Does a command that changes the tree over what a volume holds.
fn change_held<D: Disk>(
    alloc: Global,
    disk: &mut D,
    holdings: &mut Holdings,
    read_only: bool,
    asked: &Command,
) -> Result<(), SafeError>
    requires attached { IsTrue (D.attached disk.old) }
    requires settled { IsFalse (D.pending disk.old) }
    requires stands { Stands D.Disk holdings.old disk.old }
    requires suits { Suits (held_parts holdings.old).layout (held_parts holdings.old).nodes }
    requires changes { keeps_tree (command asked.now) ≡ false }
    requires spelled { (line : List ℕ) × (command_of line ≡ Ok (command asked.now)) × (length line ≤ script_limit) }
    ensures { ChangesSafely D.Disk (command asked.now) read_only holdings.old holdings.new disk.old disk.new result }
{
    match asked {
        Command::Cdir { path } => cdir(alloc, disk, holdings, read_only, path),
        Command::Delete { path } => delete(alloc, disk, holdings, read_only, path),
        Command::Set {
            path,
            load,
            exec,
            access,
        } => set(
            alloc,
            disk,
            holdings,
            read_only,
            path,
            object_words(*load, *exec, *access),
        ),
        Command::Save {
            path,
            load,
            exec,
            bytes,
        } => {
            let bytes = bytes.list();
            let words = file_words(*load, *exec, bytes.len() as u32);
            save(alloc, disk, holdings, read_only, path, words, bytes)
        }
        Command::Create {
            path,
            load,
            exec,
            len,
        } => create(
            alloc,
            disk,
            holdings,
            read_only,
            path,
            file_words(*load, *exec, *len),
        ),
        Command::Rename { from, to } => rename(alloc, disk, holdings, read_only, from, to),
        _ => unreachable!(),
    }
}

// Whether a volume can be used after such an answer: always, unless the disk failed.
fn is_usable_after(changed: &Result<(), SafeError>) -> bool
    ensures { result ≡ is_usable_after changed.now }
{
    !matches!(changed, Err(SafeError::DiskFault))
}

// Asks a volume to do a command that changes the tree, whole or not at all.
fn change_safely<D: Disk>(
    alloc: Global,
    volume: &mut Volume,
    disk: &mut D,
    asked: &Command,
) -> Result<(), SafeError>
    requires attached { IsTrue (D.attached disk.old) }
    requires fit { IsTrue volume.old.fit }
    requires stands { StandsFor D.Disk volume.old disk.old }
    requires settled { IsFalse (D.pending disk.old) }
    requires suits { Suits (parts_of volume.old).layout (parts_of volume.old).nodes }
    requires changes { keeps_tree (command asked.now) ≡ false }
    requires spelled { (line : List ℕ) × (command_of line ≡ Ok (command asked.now)) × (length line ≤ script_limit) }
    ensures { IsAskedSafely D.Disk (command asked.now) volume.old volume.new disk.old disk.new result }
{
    let read_only = volume.read_only;
    let changed = change_held(alloc, disk, &mut volume.holdings, read_only, asked);
    volume.fit = is_usable_after(&changed);
    changed
}

/// Asks a volume to save these bytes, whole or not at all.
pub fn save_safely<D: Disk>(
    alloc: Global,
    volume: &mut Volume,
    disk: &mut D,
    path: &Path,
    words: FileWords,
    bytes: &[u8],
) -> Result<(), SafeError>
    requires attached { IsTrue (D.attached disk.old) }
    requires fit { IsTrue volume.old.fit }
    requires stands { StandsFor D.Disk volume.old disk.old }
    requires settled { IsFalse (D.pending disk.old) }
    requires suits { Suits (parts_of volume.old).layout (parts_of volume.old).nodes }
    requires length { length bytes.now ≡ words.len }
    ensures { IsAskedSafely D.Disk (Model.Save path.now words.load words.exec bytes.now) volume.old volume.new disk.old disk.new result }
{
    let read_only = volume.read_only;
    let changed = save(
        alloc,
        disk,
        &mut volume.holdings,
        read_only,
        path,
        words,
        bytes,
    );
    volume.fit = is_usable_after(&changed);
    changed
}

/// Answers a command that changes the tree in the safe mode: does it whole or not at all, and then writes the reply. Answers whether the
/// reply is an error line.
pub fn answer_safely<D: Disk, K: Sink>(
    alloc: Global,
    volume: &mut Volume,
    disk: &mut D,
    out: &mut K,
    asked: &Command,
) -> Result<bool, LineFault>
    requires attached { IsTrue (D.attached disk.old) }
    requires fit { IsTrue volume.old.fit }
    requires stands { StandsFor D.Disk volume.old disk.old }
    requires settled { IsFalse (D.pending disk.old) }
    requires suits { Suits (parts_of volume.old).layout (parts_of volume.old).nodes }
    requires changes { keeps_tree (command asked.now) ≡ false }
    requires spelled { (line : List ℕ) × (command_of line ≡ Ok (command asked.now)) × (length line ≤ script_limit) }
    ensures step { (line : List ℕ) → command_of line ≡ Ok (command asked.now) → ForState (D.bytes disk.old) volume.old (λ kind s.
        LineEnds D.Disk disk.old disk.new (mode_of kind volume.old.read_only true) s volume.new line (K.taken out.old) (K.taken out.new) result) }
    ensures keeps { (line : List ℕ) → command_of line ≡ Ok (command asked.now)
        → KeepsGoing D.Disk K.Sink disk.old disk.new out.old out.new volume.old volume.new line result }
    ensures suits { IfOk result (λ refused. Suits (parts_of volume.new).layout (parts_of volume.new).nodes) }
{
    let changed = change_safely(alloc, volume, disk, asked);
    tell_safely(alloc, out, changed)
}
