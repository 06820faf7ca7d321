// The reply to `free`.
ghost use Rattle.std.specs.Prelude.{IfOk};
ghost use Rattle.fc_model.specs.Command.{Command as Model};
ghost use Rattle.fc_shell.specs.Answered.{ForView, IsReply, volume_reply};

use crate::reply::Reply;
use fc_device::NoMemory;
use fc_script::free_text;
use fc_volume::Volume;
use std::alloc::Global;

/// Tells the bytes of all holes, and of the largest.
pub fn free(alloc: Global, volume: &Volume) -> Result<Reply, NoMemory>
    ensures { ForView volume.now (λ kind s. IfOk result (λ reply. IsReply reply (volume_reply kind volume.now s Model.Free))) }
{
    let (total, largest) = volume.free();
    let mut text = Vec::new(alloc);
    free_text(total, largest, &mut text)?;
    text.extend_from_slice(b"ok\n")?;
    Ok(Reply {
        text,
        is_error: false,
    })
}
