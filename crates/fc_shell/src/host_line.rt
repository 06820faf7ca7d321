// The answer to a line that may move a file of the host.
ghost use Rattle.std.specs.Prelude.{◌≡◌, ◌≤◌, length, IfOk, IsFalse, IsTrue};
ghost use Rattle.fc_runs.specs.HostAsks.{LineAsks};
ghost use Rattle.fc_script.specs.HostLines.{host_line_of};
ghost use Rattle.fc_volume.specs.Volume.{StandsFor};
ghost use Rattle.fc_shell.specs.Answered.{ForState};
ghost use Rattle.fc_shell.specs.Modes.{SuitsMode, mode_of};
ghost use Rattle.fc_shell.specs.Moving.{AreCaused, AsksMore, KeepsServing, LineMoves};
ghost use Rattle.fc_shell.specs.Replies.{script_limit};

use crate::answer::answer_command;
use crate::get::get;
use crate::moving::{MoveFault, moved};
use crate::put::{Target, put};
use crate::reply::{refusal, tell};
use crate::whole_put::put_safely;
use fc_device::{Disk, Sink};
use fc_host::Host;
use fc_names::Refusal;
use fc_script::{HostLine, LineError, read_host_line};
use fc_volume::Volume;
use std::alloc::Global;

/// Answers a command line of the script, which may move a file between the volume and the host: does it, and writes its whole reply.
/// Answers whether the reply is an error line.
pub fn answer_host_line<D: Disk, K: Sink, H: Host>(
    alloc: Global,
    volume: &mut Volume,
    disk: &mut D,
    out: &mut K,
    host: &mut H,
    line: &[u8],
    safe: bool,
) -> Result<bool, MoveFault>
    requires attached { IsTrue (D.attached disk.old) }
    requires fit { IsTrue volume.old.fit }
    requires stands { StandsFor D.Disk volume.old disk.old }
    requires settled { IsFalse (D.pending disk.old) }
    requires suits { SuitsMode safe volume.old }
    requires short { length line.now ≤ script_limit }
    ensures step { ForState (D.bytes disk.old) volume.old (λ kind s. AsksMore H.Host host.old host.new (λ asked.
        LineMoves D.Disk disk.old disk.new (mode_of kind volume.old.read_only safe) s volume.new (host_line_of line.now) (K.taken out.old) (K.taken out.new) asked (H.files host.old) (H.files host.new) result)) }
    ensures asks { AsksMore H.Host host.old host.new (LineAsks (host_line_of line.now)) }
    ensures keeps { KeepsServing D.Disk disk.old disk.new volume.old volume.new (host_line_of line.now) result }
    ensures suits { IfOk result (λ refused. SuitsMode safe volume.new) }
    ensures caused { AreCaused D.Disk K.Sink H.Host disk.old disk.new out.old out.new host.old host.new result }
{
    match read_host_line(alloc, line) {
        Ok(HostLine::Get { path, host: name }) => {
            volume.renew_index(alloc);
            get(alloc, volume, disk, out, host, &path, name.bytes())
        }
        Ok(
            HostLine::Put {
                host: name,
                path,
                load,
                exec,
            },
        ) => {
            let target = Target {
                path: &path,
                load,
                exec,
            };
            if safe {
                return put_safely(alloc, volume, disk, out, host, name.bytes(), &target);
            }
            put(alloc, volume, disk, out, host, name.bytes(), &target)
        }
        Ok(HostLine::Other(asked)) => moved(answer_command(alloc, volume, disk, out, &asked, safe)),
        Err(LineError::BadCommand) => moved(tell(out, refusal(alloc, Refusal::BadCommand))),
        Err(LineError::BadName) => moved(tell(out, refusal(alloc, Refusal::BadName))),
        Err(LineError::NoMemory) => Err(MoveFault::NoMemory),
    }
}
