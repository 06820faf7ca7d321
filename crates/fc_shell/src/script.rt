// The script: read to its end, or until it is longer than any that is run.
ghost use Rattle.std.specs.Prelude.{◌≡◌, ◌≤◌, Err, IfOk, option_map};
ghost use Rattle.fc_device.specs.Faults.{Rose};
ghost use Rattle.fc_shell.specs.Script.{IsScript};

use fc_device::Source;
use std::alloc::Global;

/// The most bytes of a script.
const LIMIT: usize = 16_777_216;

/// How many bytes are asked for at once.
const PIECE: usize = 4096;

/// The script wasn't read.
#[derive(Clone, Copy, Debug)]
pub enum ScriptError {
    Source,
    NoMemory,
}

/// Reads the script to its end. None if it is longer than 16,777,216 bytes; then the first 16,777,217 were taken, and
/// the others are left.
pub fn read_script<S: Source>(alloc: Global, script: &mut S) -> Result<Option<Vec<u8>>, ScriptError>
    ensures script { IfOk result (λ read. IsScript (S.left script.old) (S.left script.new) (option_map (λ bytes. bytes.items) read)) }
    ensures later { S.faults script.old ≤ S.faults script.new }
    ensures cause { result ≡ Err ScriptError.Source → Rose (S.faults script.old) (S.faults script.new) }
{
    let mut bytes = Vec::new(alloc);
    let mut piece = [0; PIECE];
    while bytes.len() <= LIMIT {
        let room = PIECE.min(LIMIT + 1 - bytes.len());
        let Ok(count) = script.read(&mut piece[..room]) else {
            return Err(ScriptError::Source);
        };
        if count == 0 {
            return Ok(Some(bytes));
        }
        if bytes.extend_from_slice(&piece[..count]).is_err() {
            return Err(ScriptError::NoMemory);
        }
    }
    Ok(None)
}
