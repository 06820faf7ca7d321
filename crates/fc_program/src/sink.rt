// Writing to the end of a piece.
ghost use Rattle.std.specs.Prelude.{OnOk};
ghost use Rattle.fc_device.specs.Faults.{HasCause};
ghost use Rattle.fc_program.specs.Writing.{Wrote, WrotePart};

use fc_device::{Failed, Sink};

/// Writes the whole piece. After a failure a part from its front was written.
pub fn write_all<K: Sink>(out: &mut K, piece: &[u8]) -> Result<(), Failed>
    ensures written { OnOk result (Wrote (K.taken out.old) (K.taken out.new) piece.now) }
    ensures part { WrotePart (K.taken out.old) (K.taken out.new) piece.now }
    ensures cause { HasCause (K.faults out.old) (K.faults out.new) result }
{
    let mut at = 0;
    while at < piece.len() {
        at += out.write(&piece[at..])?;
    }
    Ok(())
}
