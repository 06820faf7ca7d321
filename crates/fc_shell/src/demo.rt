// A demo: its replies in memory, and the one line that is written in their place.
ghost use Rattle.std.specs.Prelude.{◌≡◌, ◌⊎◌, ◌<◌, ◌≤◌, ◌^◌, ◌∷◌, ◌++◌, [], Some, IfOk, OnOk};
ghost use Rattle.hex.specs.Hex.{encode_lower};
ghost use Rattle.sha2.specs.Sha256.{sha256};
ghost use Rattle.fc_device.specs.Faults.{Rose};
ghost use Rattle.fc_shell.specs.Counted.{has_refused, tally_line};
ghost use Rattle.fc_shell.specs.Ends.{end_after};
ghost use Rattle.fc_shell.specs.Lines.{spaced};
ghost use Rattle.fc_shell.specs.Writing.{Wrote, WrotePart};

use crate::digits::put_digits;
use crate::ending::End;
use crate::sink::write_all;
use crate::tally::Tally;
use crate::texts::{push_count, push_number, push_word};
use fc_device::{Failed, NoMemory, Sink};
use sha2::{Digest, Sha256};
use std::alloc::Global;

/// A sink in memory for the replies of a demo. It fails only if no memory is found.
#[derive(Drop)]
pub struct Replies {
    bytes: Vec<u8>,
    faults: u64,
    ghost few: { faults < 2 ^ 64 },
}

impl Replies {
    /// It has taken nothing yet.
    pub fn new(alloc: Global) -> Replies
        ensures { result.bytes.items ≡ [] }
    {
        Replies {
            bytes: Vec::new(alloc),
            faults: 0,
        }
    }

    /// The text that it took.
    pub fn text(&self) -> &[u8]
        ensures { result.now ≡ self.now.bytes.items }
    {
        &self.bytes
    }
}

impl Sink for Replies {
    ghost taken = { λ s. Some s.bytes.items };

    ghost faults = { λ s. s.faults };

    ghost faults_fit = { λ s. s.few };

    fn write(&mut self, from: &[u8]) -> Result<usize, Failed> {
        if self.bytes.extend_from_slice(from).is_err() {
            self.faults = self.faults.saturating_add(1);
            return Err(Failed);
        }
        Ok(from.len())
    }
}

// Appends a space and the digest of a text.
fn push_digest(line: &mut Vec<u8>, text: &[u8]) -> Result<(), NoMemory>
    ensures { OnOk result (line.new.items ≡ line.old.items ++ spaced (encode_lower (sha256 text.now) ∷ [])) }
{
    let mut digits = [0; 64];
    put_digits(&Sha256::digest(text), &mut digits);
    push_word(line, &digits)
}

// The line of a demo.
fn tally_line(alloc: Global, n: u32, tally: Tally, text: &[u8]) -> Result<Vec<u8>, NoMemory>
    ensures { IfOk result (λ line. line.items ≡ tally_line n tally text.now) }
{
    let mut line = Vec::new(alloc);
    line.extend_from_slice(b"demo")?;
    push_number(&mut line, u64::from(n))?;
    push_count(&mut line, b"commands", u64::from(tally.replies))?;
    push_count(&mut line, b"refused", u64::from(tally.refused))?;
    push_word(&mut line, b"sha256")?;
    push_digest(&mut line, text)?;
    line.extend_from_slice(b"\n")?;
    Ok(line)
}

/// How a run ends at its script's end.
pub fn end_after(tally: Tally) -> End
    ensures { result ≡ end_after (has_refused tally) }
{
    if tally.refused > 0 {
        return End::Refused;
    }
    End::Done
}

/// Ends a demo whose replies are this text: writes its line.
pub fn tell_tally<K: Sink>(alloc: Global, out: &mut K, n: u32, tally: Tally, text: &[u8]) -> End
    ensures told { result ≡ end_after (has_refused tally) → Wrote (K.taken out.old) (K.taken out.new) (tally_line n tally text.now) }
    ensures part { WrotePart (K.taken out.old) (K.taken out.new) (tally_line n tally text.now) }
    ensures no_memory { result ≡ End.NoMemory → out.new ≡ out.old }
    ensures later { K.faults out.old ≤ K.faults out.new }
    ensures out_fault { result ≡ End.OutFault → Rose (K.faults out.old) (K.faults out.new) }
    ensures ended { (result ≡ end_after (has_refused tally)) ⊎ ((result ≡ End.OutFault) ⊎ (result ≡ End.NoMemory)) }
{
    let Ok(line) = tally_line(alloc, n, tally, text) else {
        return End::NoMemory;
    };
    match write_all(out, &line) {
        Ok(()) => end_after(tally),
        Err(Failed) => End::OutFault,
    }
}
