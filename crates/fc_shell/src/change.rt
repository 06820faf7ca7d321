// Commands that change the disc.
ghost use Rattle.std.specs.Prelude.{◌≡◌, ◌≤◌, List, ℕ, length, true, false, IfOk, Ok, Err, IsFalse, IsTrue};
ghost use Rattle.fc_commands.specs.Run.{IsMapIn};
ghost use Rattle.fc_image.specs.Stays.{IsNewLayout};
ghost use Rattle.fc_volume.specs.OldChanging.{IsOldLayout};
ghost use Rattle.fc_runs.specs.Run.{keeps_tree};
ghost use Rattle.fc_script.specs.Lines.{command_of};
ghost use Rattle.fc_script.specs.Reading.{command};
ghost use Rattle.fc_script.specs.Texts.{ok_line};
ghost use Rattle.fc_volume.specs.Changing.{IsAsked};
ghost use Rattle.fc_volume.specs.Volume.{StandsFor, parts_of};
ghost use Rattle.fc_shell.specs.Answered.{Answered, ForState, OnlyTells};
ghost use Rattle.fc_shell.specs.Changing.{Tells, TellsError};
ghost use Rattle.fc_shell.specs.Replies.{script_limit};
ghost use Rattle.fc_shell.specs.Line.{KeepsGoing, LineEnds};
ghost use Rattle.fc_shell.specs.Modes.{SuitsMode, mode_of};

use crate::answer::LineFault;
use crate::reply::{refusal, tell};
use crate::safety::answer_safely;
use crate::sink::write_all;
use fc_device::{Disk, Sink};
use fc_script::Command;
use fc_space::Space;
use fc_volume::{CommandError, FileWords, ObjectWords, Volume};
use std::alloc::Global;

/// Writes the reply to a command that was done. No memory is needed.
pub fn tell_done<K: Sink>(out: &mut K) -> Result<bool, LineFault>
    ensures answered { Answered ok_line (K.taken out.old) (K.taken out.new) result }
    ensures only { OnlyTells K.Sink out.old out.new result }
{
    write_all(out, b"ok\n")?;
    Ok(false)
}

/// Writes the line of a refusal. After any other error nothing is written.
pub fn tell_error<K: Sink>(
    alloc: Global,
    out: &mut K,
    error: CommandError,
) -> Result<bool, LineFault>
    ensures { TellsError K.Sink out.old out.new error result }
{
    match error {
        CommandError::Refused(reason) => tell(out, refusal(alloc, reason)),
        CommandError::NoMemory => Err(LineFault::NoMemory),
        CommandError::DiskFault => Err(LineFault::Disk),
    }
}

/// Writes the reply to a command that changes the disc, by what the volume answered. Answers whether it is an error line.
pub fn tell_change<K: Sink>(
    alloc: Global,
    out: &mut K,
    changed: Result<(), CommandError>,
) -> Result<bool, LineFault>
    ensures { Tells K.Sink out.old out.new changed result }
{
    match changed {
        Ok(()) => tell_done(out),
        Err(error) => tell_error(alloc, out, error),
    }
}

/// Whether a volume's disc has an old map.
pub fn has_old_map(volume: &Volume) -> bool
    ensures old_map { result ≡ true → IsOldLayout (parts_of volume.now).layout }
    ensures new_map { result ≡ false → IsNewLayout (parts_of volume.now).layout }
{
    matches!(volume.space(), Space::OldMapped(_))
}

/// A law: the map of a volume is one.
pub fn has_map(volume: &Volume)
    ensures { IsMapIn (parts_of volume.now).layout }
{
    match volume.space() {
        Space::NewMapped(map) => map.is_map(),
        Space::OldMapped(map) => {
            let _ = map.holes();
        }
    }
}

/// The words of a file.
pub fn file_words(load: u32, exec: u32, len: u32) -> FileWords
    ensures { result ≡ record { load = load; exec = exec; len = len } }
{
    FileWords { load, exec, len }
}

/// The words that an object gets.
pub fn object_words(load: u32, exec: u32, access: u32) -> ObjectWords
    ensures { result ≡ record { load = load; exec = exec; access = access } }
{
    ObjectWords { load, exec, access }
}

// Asks a volume to do a command that changes the tree.
fn change<D: Disk>(
    alloc: Global,
    volume: &mut Volume,
    disk: &mut D,
    asked: &Command,
) -> Result<(), CommandError>
    requires attached { IsTrue (D.attached disk.old) }
    requires fit { IsTrue volume.old.fit }
    requires stands { StandsFor D.Disk volume.old disk.old }
    requires settled { IsFalse (D.pending disk.old) }
    requires changes { keeps_tree (command asked.now) ≡ false }
    requires spelled { (line : List ℕ) × (command_of line ≡ Ok (command asked.now)) × (length line ≤ script_limit) }
    ensures { IsAsked D.Disk (command asked.now) volume.old volume.new disk.old disk.new result }
{
    match asked {
        Command::Cdir { path } => volume.cdir(alloc, disk, path),
        Command::Delete { path } => volume.delete(alloc, disk, path),
        Command::Set {
            path,
            load,
            exec,
            access,
        } => volume.set(alloc, disk, path, object_words(*load, *exec, *access)),
        Command::Save {
            path,
            load,
            exec,
            bytes,
        } => {
            let bytes = bytes.list();
            let words = file_words(*load, *exec, bytes.len() as u32);
            volume.save(alloc, disk, path, words, bytes)
        }
        Command::Create {
            path,
            load,
            exec,
            len,
        } => volume.create(alloc, disk, path, file_words(*load, *exec, *len)),
        Command::Rename { from, to } => volume.rename(alloc, disk, from, to),
        _ => unreachable!(),
    }
}

/// Answers a command that changes the tree, in the safe mode or not: does it, and then writes the reply. Answers whether the reply is an
/// error line.
pub fn answer_change<D: Disk, K: Sink>(
    alloc: Global,
    volume: &mut Volume,
    disk: &mut D,
    out: &mut K,
    asked: &Command,
    safe: bool,
) -> Result<bool, LineFault>
    requires attached { IsTrue (D.attached disk.old) }
    requires fit { IsTrue volume.old.fit }
    requires stands { StandsFor D.Disk volume.old disk.old }
    requires settled { IsFalse (D.pending disk.old) }
    requires suits { SuitsMode safe volume.old }
    requires changes { keeps_tree (command asked.now) ≡ false }
    requires spelled { (line : List ℕ) × (command_of line ≡ Ok (command asked.now)) × (length line ≤ script_limit) }
    ensures step { (line : List ℕ) → command_of line ≡ Ok (command asked.now) → ForState (D.bytes disk.old) volume.old (λ kind s.
        LineEnds D.Disk disk.old disk.new (mode_of kind volume.old.read_only safe) s volume.new line (K.taken out.old) (K.taken out.new) result) }
    ensures keeps { (line : List ℕ) → command_of line ≡ Ok (command asked.now)
        → KeepsGoing D.Disk K.Sink disk.old disk.new out.old out.new volume.old volume.new line result }
    ensures suits { IfOk result (λ refused. SuitsMode safe volume.new) }
{
    if safe {
        return answer_safely(alloc, volume, disk, out, asked);
    }
    has_map(volume);
    let changed = change(alloc, volume, disk, asked);
    tell_change(alloc, out, changed)
}
