// The answer to a line of the script.
ghost use Rattle.std.specs.Prelude.{◌≡◌, ◌≤◌, List, ℕ, length, Ok, IfOk, IsFalse, IsTrue};
ghost use Rattle.fc_device.specs.Calls.{OnlyReads};
ghost use Rattle.fc_runs.specs.ReadLaw.{is_reading};
ghost use Rattle.fc_script.specs.Lines.{command_of};
ghost use Rattle.fc_script.specs.Reading.{command};
ghost use Rattle.fc_volume.specs.Volume.{StandsFor};
ghost use Rattle.fc_shell.specs.Answered.{Answered, ForState, IsCaused, volume_reply};
ghost use Rattle.fc_shell.specs.Replies.{script_limit};
ghost use Rattle.fc_shell.specs.Line.{KeepsGoing, LineEnds};
ghost use Rattle.fc_shell.specs.Modes.{SuitsMode, mode_of};
ghost use Rattle.fc_shell.specs.declared.answer.LineFault.TheVariants as errors;

use crate::cat::cat;
use crate::change::answer_change;
use crate::check::check;
use crate::compact::compact;
use crate::digest::digest;
use crate::free::free;
use crate::load::load;
use crate::reclaim::reclaim;
use crate::reply::{refusal, tell};
use fc_device::{Disk, DiskFault, Failed, NoMemory, Sink};
use fc_names::Refusal;
use fc_script::{Command, LineError, read_line};
use fc_volume::Volume;
use std::alloc::Global;

/// Why a line wasn't answered.
#[derive(Clone, Copy)]
pub enum LineFault {
    /// A call of the disk failed.
    Disk,
    /// A call of the output failed.
    Out,
    NoMemory,
}

impl From<DiskFault> for LineFault {
    ghost from_gives = { λ _ e. e ≡ errors.Disk };

    fn from(_: DiskFault) -> Self
        ensures { result ≡ errors.Disk }
    {
        LineFault::Disk
    }
}

/// A failure is the output's, since a disk's is a `DiskFault`.
impl From<Failed> for LineFault {
    ghost from_gives = { λ _ e. e ≡ errors.Out };

    fn from(_: Failed) -> Self
        ensures { result ≡ errors.Out }
    {
        LineFault::Out
    }
}

impl From<NoMemory> for LineFault {
    ghost from_gives = { λ _ e. e ≡ errors.NoMemory };

    fn from(_: NoMemory) -> Self
        ensures { result ≡ errors.NoMemory }
    {
        LineFault::NoMemory
    }
}

// Whether a command changes nothing.
fn is_reading(asked: &Command) -> bool
    ensures { result ≡ is_reading (command asked.now) }
{
    match asked {
        Command::Cat { .. }
        | Command::Load { .. }
        | Command::Digest { .. }
        | Command::Free
        | Command::Check => true,
        Command::Cdir { .. }
        | Command::Delete { .. }
        | Command::Save { .. }
        | Command::Create { .. }
        | Command::Rename { .. }
        | Command::Set { .. }
        | Command::Compact
        | Command::Reclaim => false,
    }
}

// Answers a command that changes nothing.
fn answer_reading<D: Disk, K: Sink>(
    alloc: Global,
    volume: &Volume,
    disk: &mut D,
    out: &mut K,
    asked: &Command,
) -> Result<bool, LineFault>
    requires attached { IsTrue (D.attached disk.old) }
    requires fit { IsTrue volume.now.fit }
    requires stands { StandsFor D.Disk volume.now disk.old }
    requires reading { IsTrue (is_reading (command asked.now)) }
    ensures answered { ForState (D.bytes disk.old) volume.now (λ kind s. Answered (volume_reply kind volume.now s (command asked.now)) (K.taken out.old) (K.taken out.new) result) }
    ensures reads { OnlyReads D.Disk disk.old disk.new }
    ensures caused { IsCaused D.Disk K.Sink disk.old disk.new out.old out.new result }
{
    match asked {
        Command::Cat { path } => tell(out, cat(alloc, volume, disk, path)),
        Command::Load { path } => load(alloc, volume, disk, out, path),
        Command::Digest { path } => digest(alloc, volume, disk, out, path),
        Command::Free => tell(out, free(alloc, volume)),
        Command::Check => tell(out, check(alloc, volume)),
        _ => unreachable!(),
    }
}

// Before a file's place is asked for: the index of the map may be made again, which a change drops.
fn renew_index(alloc: Global, volume: &mut Volume, asked: &Command)
    ensures { volume.new ≡ volume.old }
{
    if matches!(asked, Command::Load { .. } | Command::Digest { .. }) {
        volume.renew_index(alloc);
    }
}

/// Answers a command, in the safe mode or not. `line` of the clauses is each line that spells it.
pub fn answer_command<D: Disk, K: Sink>(
    alloc: Global,
    volume: &mut Volume,
    disk: &mut D,
    out: &mut K,
    asked: &Command,
    safe: bool,
) -> Result<bool, LineFault>
    requires attached { IsTrue (D.attached disk.old) }
    requires fit { IsTrue volume.old.fit }
    requires stands { StandsFor D.Disk volume.old disk.old }
    requires settled { IsFalse (D.pending disk.old) }
    requires suits { SuitsMode safe volume.old }
    requires spelled { (line : List ℕ) × (command_of line ≡ Ok (command asked.now)) × (length line ≤ script_limit) }
    ensures step { (line : List ℕ) → command_of line ≡ Ok (command asked.now) → ForState (D.bytes disk.old) volume.old (λ kind s.
        LineEnds D.Disk disk.old disk.new (mode_of kind volume.old.read_only safe) s volume.new line (K.taken out.old) (K.taken out.new) result) }
    ensures keeps { (line : List ℕ) → command_of line ≡ Ok (command asked.now)
        → KeepsGoing D.Disk K.Sink disk.old disk.new out.old out.new volume.old volume.new line result }
    ensures suits { IfOk result (λ refused. SuitsMode safe volume.new) }
{
    if is_reading(asked) {
        renew_index(alloc, volume, asked);
        return answer_reading(alloc, volume, disk, out, asked);
    }
    match asked {
        Command::Compact => compact(alloc, volume, disk, out),
        Command::Reclaim => reclaim(alloc, volume, disk, out),
        _ => answer_change(alloc, volume, disk, out, asked, safe),
    }
}

/// Answers a command line of the script, in the safe mode or not: does it, and writes its whole reply. Answers whether the reply is an error line.
pub fn answer_line<D: Disk, K: Sink>(
    alloc: Global,
    volume: &mut Volume,
    disk: &mut D,
    out: &mut K,
    line: &[u8],
    safe: bool,
) -> Result<bool, LineFault>
    requires attached { IsTrue (D.attached disk.old) }
    requires fit { IsTrue volume.old.fit }
    requires stands { StandsFor D.Disk volume.old disk.old }
    requires settled { IsFalse (D.pending disk.old) }
    requires suits { SuitsMode safe volume.old }
    requires short { length line.now ≤ script_limit }
    ensures step { ForState (D.bytes disk.old) volume.old (λ kind s.
        LineEnds D.Disk disk.old disk.new (mode_of kind volume.old.read_only safe) s volume.new line.now (K.taken out.old) (K.taken out.new) result) }
    ensures keeps { KeepsGoing D.Disk K.Sink disk.old disk.new out.old out.new volume.old volume.new line.now result }
    ensures suits { IfOk result (λ refused. SuitsMode safe volume.new) }
{
    match read_line(alloc, line) {
        Ok(asked) => answer_command(alloc, volume, disk, out, &asked, safe),
        Err(LineError::BadCommand) => tell(out, refusal(alloc, Refusal::BadCommand)),
        Err(LineError::BadName) => tell(out, refusal(alloc, Refusal::BadName)),
        Err(LineError::NoMemory) => Err(LineFault::NoMemory),
    }
}
