// The reply to `check`.
ghost use Rattle.std.specs.Prelude.{IfOk, ◌++◌};
ghost use Rattle.fc_check.specs.Counted.{counts_in};
ghost use Rattle.fc_model.specs.Command.{Command as Model};
ghost use Rattle.fc_runs.specs.Replies.{counts_line};
ghost use Rattle.fc_script.specs.Texts.{ok_line};
ghost use Rattle.fc_shell.specs.Answered.{ForView, IsReply, volume_reply};

use crate::reply::Reply;
use fc_check::counts::Report;
use fc_check::report;
use fc_device::NoMemory;
use fc_script::check_text;
use fc_volume::Volume;
use std::alloc::Global;

// Counts as a reply.
fn counts_reply(alloc: Global, counts: &Report) -> Result<Reply, NoMemory>
    ensures { IfOk result (λ reply. IsReply reply (counts_line (counts_in counts.now) ++ ok_line)) }
{
    let mut text = Vec::new(alloc);
    let told = [
        counts.files,
        counts.dirs,
        counts.lost,
        counts.holes,
        counts.free,
        counts.unsorted,
        counts.parents,
    ];
    check_text(&told, &mut text)?;
    text.extend_from_slice(b"ok\n")?;
    Ok(Reply {
        text,
        is_error: false,
    })
}

/// Counts what the disc holds.
pub fn check(alloc: Global, volume: &Volume) -> Result<Reply, NoMemory>
    ensures { ForView volume.now (λ kind s. IfOk result (λ reply. IsReply reply (volume_reply kind volume.now s Model.Check))) }
{
    counts_reply(
        alloc,
        &report(volume.tree(), volume.space(), volume.owners()),
    )
}
