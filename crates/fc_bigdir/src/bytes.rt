// Parts of rows of bytes.
ghost use Rattle.std.specs.Prelude.{◌≡◌, ◌+◌, ◌≤◌, length};
ghost use Rattle.fc_bytes.specs.Words.{u32_at};

use byteorder::{ByteOrder, LittleEndian};

// The number in the four bytes from byte `at`.
pub fn word_at(b: &[u8], at: usize) -> u32
    requires { at + 4 ≤ length b.now }
    ensures { result ≡ u32_at b.now at }
{
    LittleEndian::read_u32(&b[at..])
}
