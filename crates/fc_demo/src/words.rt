// The words of a demo's lines.
ghost use Rattle.std.specs.Prelude.{◌≡◌, ◌<◌, ◌++◌, ◌^◌, OnOk, take};
ghost use Rattle.std.specs.Fmt.{decimal};
ghost use Rattle.fc_runs.specs.Demo.{dir_path, file_path, saved_bytes, saved_word};

use fc_device::NoMemory;
use itoa::Buffer;

/// The most bytes that a line saves, and one more.
const SAVED: usize = 64;

/// Appends bytes.
pub fn append(into: &mut Vec<u8>, bytes: &[u8]) -> Result<(), NoMemory>
    ensures { OnOk result (into.new.items ≡ into.old.items ++ bytes.now) }
{
    into.extend_from_slice(bytes)?;
    Ok(())
}

/// Appends a number in decimal.
pub fn push_number(into: &mut Vec<u8>, n: u32) -> Result<(), NoMemory>
    ensures { OnOk result (into.new.items ≡ into.old.items ++ decimal n) }
{
    append(into, Buffer::new().format(n).as_bytes())
}

/// Appends the path of a directory.
pub fn push_dir(into: &mut Vec<u8>, d: u32) -> Result<(), NoMemory>
    ensures { OnOk result (into.new.items ≡ into.old.items ++ dir_path d) }
{
    append(into, b"$.D")?;
    push_number(into, d)
}

/// Appends the path of a file.
pub fn push_file(into: &mut Vec<u8>, d: u32, f: u32) -> Result<(), NoMemory>
    ensures { OnOk result (into.new.items ≡ into.old.items ++ file_path d f) }
{
    push_dir(into, d)?;
    append(into, b".F")?;
    push_number(into, f)
}

// The bytes that a line saves, followed by zeros.
fn saved_bytes(i: u32, count: usize) -> [u8; SAVED]
    requires line { i < 2 ^ 31 }
    requires few { count < 64 }
    ensures { take count result ≡ saved_bytes i count }
{
    let mut bytes = [0; SAVED];
    for j in 0..count {
        bytes[j] = ((i as usize + j) % 256) as u8;
    }
    bytes
}

/// Appends the word for the bytes that a line saves: their digits, or `-` for none.
pub fn push_saved(into: &mut Vec<u8>, i: u32, count: usize) -> Result<(), NoMemory>
    requires line { i < 2 ^ 31 }
    requires few { count < 64 }
    ensures { OnOk result (into.new.items ≡ into.old.items ++ saved_word (saved_bytes i count)) }
{
    if count == 0 {
        return append(into, b"-");
    }
    let bytes = saved_bytes(i, count);
    let mut digits = [0; 2 * SAVED];
    let _ = hex::encode_to_slice(&bytes[..count], &mut digits[..2 * count]);
    append(into, &digits[..2 * count])
}
