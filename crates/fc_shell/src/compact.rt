// The reply to `compact`.
ghost use Rattle.std.specs.Prelude.{◌≡◌, Bool, List, ℕ, Ok, IfOk, IsFalse, IsTrue};
ghost use Rattle.fc_image.specs.Stays.{IsNewLayout};
ghost use Rattle.fc_model.specs.Command.{Command as Model};
ghost use Rattle.fc_volume.specs.OldChanging.{IsOldLayout};
ghost use Rattle.fc_script.specs.Lines.{command_of};
ghost use Rattle.fc_volume.specs.Volume.{StandsFor, parts_of};
ghost use Rattle.fc_shell.specs.Answered.{ForState};
ghost use Rattle.fc_shell.specs.Changing.{IsCompacting};
ghost use Rattle.fc_shell.specs.Line.{KeepsGoing, LineEnds};
ghost use Rattle.fc_shell.specs.Modes.{SuitsMode, mode_of};

use crate::answer::LineFault;
use crate::change::{has_old_map, tell_change};
use fc_device::{Disk, Sink};
use fc_volume::{CommandError, Volume};
use std::alloc::Global;

// Asks a volume with a new map to compact its disc.
fn compact_new<D: Disk>(
    alloc: Global,
    volume: &mut Volume,
    disk: &mut D,
) -> Result<(), CommandError>
    requires attached { IsTrue (D.attached disk.old) }
    requires fit { IsTrue volume.old.fit }
    requires stands { StandsFor D.Disk volume.old disk.old }
    requires settled { IsFalse (D.pending disk.old) }
    requires new_map { IsNewLayout (parts_of volume.old).layout }
    ensures { IsCompacting D.Disk volume.old volume.new disk.old disk.new result }
{
    volume.compact(alloc, disk)
}

// The same of a volume with an old map.
fn compact_old<D: Disk>(
    alloc: Global,
    volume: &mut Volume,
    disk: &mut D,
) -> Result<(), CommandError>
    requires attached { IsTrue (D.attached disk.old) }
    requires fit { IsTrue volume.old.fit }
    requires stands { StandsFor D.Disk volume.old disk.old }
    requires settled { IsFalse (D.pending disk.old) }
    requires old_map { IsOldLayout (parts_of volume.old).layout }
    ensures { IsCompacting D.Disk volume.old volume.new disk.old disk.new result }
{
    fc_volume::old::compact(volume, alloc, disk)
}

// Asks a volume to compact its disc.
fn compact_disc<D: Disk>(
    alloc: Global,
    volume: &mut Volume,
    disk: &mut D,
) -> Result<(), CommandError>
    requires attached { IsTrue (D.attached disk.old) }
    requires fit { IsTrue volume.old.fit }
    requires stands { StandsFor D.Disk volume.old disk.old }
    requires settled { IsFalse (D.pending disk.old) }
    ensures { IsCompacting D.Disk volume.old volume.new disk.old disk.new result }
{
    if has_old_map(volume) {
        return compact_old(alloc, volume, disk);
    }
    compact_new(alloc, volume, disk)
}

/// Answers `compact`: compacts the disc, and then writes the reply. Answers whether the reply is an error line. It is
/// one call for both modes.
pub fn compact<D: Disk, K: Sink>(
    alloc: Global,
    volume: &mut Volume,
    disk: &mut D,
    out: &mut K,
) -> Result<bool, LineFault>
    requires attached { IsTrue (D.attached disk.old) }
    requires fit { IsTrue volume.old.fit }
    requires stands { StandsFor D.Disk volume.old disk.old }
    requires settled { IsFalse (D.pending disk.old) }
    ensures step { (line : List ℕ) → command_of line ≡ Ok Model.Compact → (safe : Bool) → SuitsMode safe volume.old → ForState (D.bytes disk.old) volume.old (λ kind s.
        LineEnds D.Disk disk.old disk.new (mode_of kind volume.old.read_only safe) s volume.new line (K.taken out.old) (K.taken out.new) result) }
    ensures keeps { (line : List ℕ) → command_of line ≡ Ok Model.Compact
        → KeepsGoing D.Disk K.Sink disk.old disk.new out.old out.new volume.old volume.new line result }
    ensures suits { (safe : Bool) → SuitsMode safe volume.old → IfOk result (λ refused. SuitsMode safe volume.new) }
{
    let compacted = compact_disc(alloc, volume, disk);
    tell_change(alloc, out, compacted)
}
