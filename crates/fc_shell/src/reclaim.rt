// The reply to `reclaim`.
ghost use Rattle.std.specs.Prelude.{List, ℕ, ◌≡◌, Bool, Ok, IfOk, IsFalse, IsTrue, OnOk};
ghost use Rattle.std.specs.Fmt.{decimal};
ghost use Rattle.fc_device.specs.Faults.{HasCause};
ghost use Rattle.fc_model.specs.Command.{Command as Model};
ghost use Rattle.fc_script.specs.Lines.{command_of};
ghost use Rattle.fc_volume.specs.Volume.{StandsFor};
ghost use Rattle.fc_shell.specs.Answered.{Answered, ForState, OnlyTells};
ghost use Rattle.fc_shell.specs.Changing.{IsReclaiming, TellsBy, reclaimed_reply};
ghost use Rattle.fc_shell.specs.Line.{KeepsGoing, LineEnds};
ghost use Rattle.fc_shell.specs.Modes.{SuitsMode, mode_of};
ghost use Rattle.fc_shell.specs.Writing.{Wrote, WrotePart};

use crate::answer::LineFault;
use crate::change::tell_error;
use crate::sink::write_all;
use fc_device::{Disk, Failed, Sink};
use fc_volume::{CommandError, Volume};
use itoa::Buffer;
use std::alloc::Global;

// Writes a number.
fn write_number<K: Sink>(out: &mut K, number: u64) -> Result<(), Failed>
    ensures written { OnOk result (Wrote (K.taken out.old) (K.taken out.new) (decimal number)) }
    ensures part { WrotePart (K.taken out.old) (K.taken out.new) (decimal number) }
    ensures cause { HasCause (K.faults out.old) (K.faults out.new) result }
{
    write_all(out, Buffer::new().format(number).as_bytes())
}

// Writes how many bytes were given back. No memory is needed.
fn write_reclaimed<K: Sink>(out: &mut K, bytes: u64) -> Result<(), Failed>
    ensures written { OnOk result (Wrote (K.taken out.old) (K.taken out.new) (reclaimed_reply bytes)) }
    ensures part { WrotePart (K.taken out.old) (K.taken out.new) (reclaimed_reply bytes) }
    ensures cause { HasCause (K.faults out.old) (K.faults out.new) result }
{
    write_all(out, b"reclaimed ")?;
    write_number(out, bytes)?;
    write_all(out, b"\nok\n")
}

// Writes the reply if lost space was given back.
fn tell_bytes<K: Sink>(out: &mut K, bytes: u64) -> Result<bool, LineFault>
    ensures answered { Answered (reclaimed_reply bytes) (K.taken out.old) (K.taken out.new) result }
    ensures only { OnlyTells K.Sink out.old out.new result }
{
    write_reclaimed(out, bytes)?;
    Ok(false)
}

// Writes the reply to `reclaim`, by what the volume answered.
fn tell_reclaimed<K: Sink>(
    alloc: Global,
    out: &mut K,
    reclaimed: Result<u64, CommandError>,
) -> Result<bool, LineFault>
    ensures { TellsBy reclaimed_reply K.Sink out.old out.new reclaimed result }
{
    match reclaimed {
        Ok(bytes) => tell_bytes(out, bytes),
        Err(error) => tell_error(alloc, out, error),
    }
}

// Asks a volume to give its lost space back.
fn reclaim_disc<D: Disk>(volume: &mut Volume, disk: &mut D) -> Result<u64, CommandError>
    requires attached { IsTrue (D.attached disk.old) }
    requires fit { IsTrue volume.old.fit }
    requires stands { StandsFor D.Disk volume.old disk.old }
    requires settled { IsFalse (D.pending disk.old) }
    ensures { IsReclaiming D.Disk volume.old volume.new disk.old disk.new result }
{
    fc_volume::reclaim(volume, disk)
}

/// Answers `reclaim`: gives the disc's lost space back, and then writes the reply. Answers whether the reply is an error line. It is
/// one call for both modes.
pub fn reclaim<D: Disk, K: Sink>(
    alloc: Global,
    volume: &mut Volume,
    disk: &mut D,
    out: &mut K,
) -> Result<bool, LineFault>
    requires attached { IsTrue (D.attached disk.old) }
    requires fit { IsTrue volume.old.fit }
    requires stands { StandsFor D.Disk volume.old disk.old }
    requires settled { IsFalse (D.pending disk.old) }
    ensures step { (line : List ℕ) → command_of line ≡ Ok Model.Reclaim → (safe : Bool) → SuitsMode safe volume.old → ForState (D.bytes disk.old) volume.old (λ kind s.
        LineEnds D.Disk disk.old disk.new (mode_of kind volume.old.read_only safe) s volume.new line (K.taken out.old) (K.taken out.new) result) }
    ensures keeps { (line : List ℕ) → command_of line ≡ Ok Model.Reclaim
        → KeepsGoing D.Disk K.Sink disk.old disk.new out.old out.new volume.old volume.new line result }
    ensures suits { (safe : Bool) → SuitsMode safe volume.old → IfOk result (λ refused. SuitsMode safe volume.new) }
{
    let reclaimed = reclaim_disc(volume, disk);
    tell_reclaimed(alloc, out, reclaimed)
}
