// The lines of a script over a volume, if they may move files of the host.
ghost use Rattle.std.specs.Prelude.{◌≡◌, ◌≤◌, Err, false, length, IsFalse, IsTrue};
ghost use Rattle.fc_device.specs.Calls.{OnlyReads};
ghost use Rattle.fc_runs.specs.Meanwhile.{GoesOn};
ghost use Rattle.fc_runs.specs.Run.{commands_in};
ghost use Rattle.fc_volume.specs.Volume.{StandsFor};
ghost use Rattle.fc_shell.specs.Answered.{ForState};
ghost use Rattle.fc_shell.specs.Modes.{SuitsMode, mode_of};
ghost use Rattle.fc_shell.specs.Moving.{AreCaused, AsksMore, HostSpares, LinesMove, ScriptAsks};
ghost use Rattle.fc_shell.specs.Replies.{script_limit};

use crate::host_line::answer_host_line;
use crate::lines::CommandLines;
use crate::moving::MoveFault;
use crate::tally::Tally;
use fc_device::{Disk, Sink};
use fc_host::Host;
use fc_volume::Volume;
use std::alloc::Global;

/// Serves the command lines of a script in turn over a volume that stands for the disk, with the files of a host. Answers how many
/// replies there are, and how many are error lines.
pub fn serve_with<D: Disk, K: Sink, H: Host>(
    alloc: Global,
    volume: &mut Volume,
    disk: &mut D,
    out: &mut K,
    host: &mut H,
    script: &[u8],
    safe: bool,
) -> Result<Tally, MoveFault>
    requires attached { IsTrue (D.attached disk.old) }
    requires fit { IsTrue volume.old.fit }
    requires stands { StandsFor D.Disk volume.old disk.old }
    requires settled { IsFalse (D.pending disk.old) }
    requires suits { SuitsMode safe volume.old }
    requires short { length script.now ≤ script_limit }
    ensures served { ForState (D.bytes disk.old) volume.old (λ kind s. AsksMore H.Host host.old host.new (λ asked.
        LinesMove D.Disk disk.old disk.new (mode_of kind volume.old.read_only safe) s script.now (K.taken out.old) (K.taken out.new) asked (H.files host.old) (H.files host.new) result)) }
    ensures asks { AsksMore H.Host host.old host.new (ScriptAsks script.now) }
    ensures goes { GoesOn D.Disk disk.old disk.new }
    ensures settled { (result ≡ Err MoveFault.Disk → ⊥) → D.pending disk.new ≡ false }
    ensures reads { HostSpares volume.old.read_only (commands_in script.now) → OnlyReads D.Disk disk.old disk.new }
    ensures caused { AreCaused D.Disk K.Sink H.Host disk.old disk.new out.old out.new host.old host.new result }
{
    let mut tally = Tally::new();
    let mut lines = CommandLines::new(script);
    while let Some(line) = lines.next() {
        let refused = answer_host_line(alloc, volume, disk, out, host, line, safe)?;
        tally.count(refused);
    }
    Ok(tally)
}
