// The bytes of files, block by block.
ghost use Rattle.std.specs.Prelude.{◌≡◌, ◌≤◌, ◌*◌, ◌++◌, ◌∷◌, Err, length, IfOk, OnOk};
ghost use Rattle.std.specs.Option.{ForSome};
ghost use Rattle.hex.specs.Hex.{encode_lower};
ghost use Rattle.sha2.specs.Sha256.{sha256};
ghost use Rattle.fc_device.specs.Calls.{FailsByFault, OnlyReads};
ghost use Rattle.fc_device.specs.Faults.{HasCause, Rose};
ghost use Rattle.fc_image.specs.Layout.{bytes_in};
ghost use Rattle.fc_objects.specs.Extents.{sectors_in};
ghost use Rattle.fc_script.specs.Texts.{digest_reply, load_reply, ok_line};
ghost use Rattle.fc_shell.specs.Answered.{Told};
ghost use Rattle.fc_shell.specs.Readable.{HasSectors, IsReadable};
ghost use Rattle.fc_shell.specs.Writing.{Wrote, WrotePart};

use crate::answer::LineFault;
use crate::digits::put_digits;
use crate::sink::write_all;
use fc_device::{Disk, DiskFault, Extent, Failed, Sink};
use fc_objects::ObjectReader;
use sha2::{Digest, Sha256};

// How many bytes are read at once: of a small file, and of another.
const SMALL: usize = 4096;

const BLOCK: usize = 65_536;

// Writes bytes as hexadecimal digits, for which `text` has room.
fn write_hex<K: Sink>(out: &mut K, bytes: &[u8], text: &mut [u8]) -> Result<(), Failed>
    requires { 2 * length bytes.now ≤ length text.old }
    ensures written { OnOk result (Wrote (K.taken out.old) (K.taken out.new) (encode_lower bytes.now)) }
    ensures part { WrotePart (K.taken out.old) (K.taken out.new) (encode_lower bytes.now) }
    ensures cause { HasCause (K.faults out.old) (K.faults out.new) result }
{
    let digits = &mut text[..2 * bytes.len()];
    put_digits(bytes, digits);
    write_all(out, digits)
}

// Writes the first `len` bytes of a place as hexadecimal digits, a block at a time, with buffers for a block and its digits.
fn write_blocks<D: Disk, K: Sink>(
    disk: &mut D,
    out: &mut K,
    size: usize,
    place: &[Extent],
    len: u64,
    block: &mut [u8],
    text: &mut [u8],
) -> Result<(), LineFault>
    requires disk { IsReadable D.Disk disk.old size }
    requires on_disk { HasSectors D.Disk disk.old (sectors_in place.now) }
    requires room { size ≤ length block.old }
    requires text_room { 2 * length block.old ≤ length text.old }
    ensures told { ForSome (D.bytes disk.old) (λ image. Told (encode_lower (bytes_in size image (sectors_in place.now) len)) (K.taken out.old) (K.taken out.new) result) }
    ensures reads { OnlyReads D.Disk disk.old disk.new }
    ensures out_faults { K.faults out.old ≤ K.faults out.new }
    ensures disk_cause { result ≡ Err LineFault.Disk → Rose (D.faults disk.old) (D.faults disk.new) }
    ensures out_cause { result ≡ Err LineFault.Out → Rose (K.faults out.old) (K.faults out.new) }
{
    let mut reader = ObjectReader::new(place, size, len);
    loop {
        let count = reader.read(disk, block)?;
        if count == 0 {
            return Ok(());
        }
        write_hex(out, &block[..count], text)?;
    }
}

// Writes the first `len` bytes of a place as hexadecimal digits.
fn write_place<D: Disk, K: Sink>(
    disk: &mut D,
    out: &mut K,
    size: usize,
    place: &[Extent],
    len: u64,
) -> Result<(), LineFault>
    requires disk { IsReadable D.Disk disk.old size }
    requires on_disk { HasSectors D.Disk disk.old (sectors_in place.now) }
    ensures told { ForSome (D.bytes disk.old) (λ image. Told (encode_lower (bytes_in size image (sectors_in place.now) len)) (K.taken out.old) (K.taken out.new) result) }
    ensures reads { OnlyReads D.Disk disk.old disk.new }
    ensures out_faults { K.faults out.old ≤ K.faults out.new }
    ensures disk_cause { result ≡ Err LineFault.Disk → Rose (D.faults disk.old) (D.faults disk.new) }
    ensures out_cause { result ≡ Err LineFault.Out → Rose (K.faults out.old) (K.faults out.new) }
{
    if len <= SMALL as u64 {
        let mut block = [0; SMALL];
        let mut text = [0; 2 * SMALL];
        write_blocks(disk, out, size, place, len, &mut block, &mut text)
    } else {
        let mut block = [0; BLOCK];
        let mut text = [0; 2 * BLOCK];
        write_blocks(disk, out, size, place, len, &mut block, &mut text)
    }
}

// The digest of the first `len` bytes of a place, a block at a time, with a buffer for a block.
fn hash_blocks<D: Disk>(
    disk: &mut D,
    size: usize,
    place: &[Extent],
    len: u64,
    block: &mut [u8],
) -> Result<[u8; 32], DiskFault>
    requires disk { IsReadable D.Disk disk.old size }
    requires on_disk { HasSectors D.Disk disk.old (sectors_in place.now) }
    requires room { size ≤ length block.old }
    ensures digest { ForSome (D.bytes disk.old) (λ image. IfOk result (λ digest. digest ≡ sha256 (bytes_in size image (sectors_in place.now) len))) }
    ensures reads { OnlyReads D.Disk disk.old disk.new }
    ensures cause { FailsByFault D.Disk disk.old disk.new result }
{
    let mut hasher = Sha256::new();
    let mut reader = ObjectReader::new(place, size, len);
    loop {
        let count = reader.read(disk, block)?;
        if count == 0 {
            return Ok(hasher.finalize());
        }
        hasher.update(&block[..count]);
    }
}

// The digest of the first `len` bytes of a place.
fn hash_place<D: Disk>(
    disk: &mut D,
    size: usize,
    place: &[Extent],
    len: u64,
) -> Result<[u8; 32], DiskFault>
    requires disk { IsReadable D.Disk disk.old size }
    requires on_disk { HasSectors D.Disk disk.old (sectors_in place.now) }
    ensures digest { ForSome (D.bytes disk.old) (λ image. IfOk result (λ digest. digest ≡ sha256 (bytes_in size image (sectors_in place.now) len))) }
    ensures reads { OnlyReads D.Disk disk.old disk.new }
    ensures cause { FailsByFault D.Disk disk.old disk.new result }
{
    if len <= SMALL as u64 {
        hash_blocks(disk, size, place, len, &mut [0; SMALL])
    } else {
        hash_blocks(disk, size, place, len, &mut [0; BLOCK])
    }
}

/// Writes the reply of `load`: the first `len` bytes of a place.
pub fn write_file<D: Disk, K: Sink>(
    disk: &mut D,
    out: &mut K,
    size: usize,
    place: &[Extent],
    len: u64,
) -> Result<(), LineFault>
    requires disk { IsReadable D.Disk disk.old size }
    requires on_disk { HasSectors D.Disk disk.old (sectors_in place.now) }
    ensures told { ForSome (D.bytes disk.old) (λ image. Told (load_reply (bytes_in size image (sectors_in place.now) len)) (K.taken out.old) (K.taken out.new) result) }
    ensures reads { OnlyReads D.Disk disk.old disk.new }
    ensures out_faults { K.faults out.old ≤ K.faults out.new }
    ensures disk_cause { result ≡ Err LineFault.Disk → Rose (D.faults disk.old) (D.faults disk.new) }
    ensures out_cause { result ≡ Err LineFault.Out → Rose (K.faults out.old) (K.faults out.new) }
{
    write_place(disk, out, size, place, len)?;
    write_all(out, b"\nok\n")?;
    Ok(())
}

// Writes the reply of a digest.
fn write_sum<K: Sink>(out: &mut K, sum: &[u8; 32]) -> Result<(), Failed>
    ensures written { OnOk result (Wrote (K.taken out.old) (K.taken out.new) (encode_lower sum.now ++ 10 ∷ ok_line)) }
    ensures part { WrotePart (K.taken out.old) (K.taken out.new) (encode_lower sum.now ++ 10 ∷ ok_line) }
    ensures cause { HasCause (K.faults out.old) (K.faults out.new) result }
{
    write_hex(out, sum, &mut [0; 64])?;
    write_all(out, b"\nok\n")
}

/// Writes the reply of `digest`: the digest of the first `len` bytes of a place.
pub fn write_digest<D: Disk, K: Sink>(
    disk: &mut D,
    out: &mut K,
    size: usize,
    place: &[Extent],
    len: u64,
) -> Result<(), LineFault>
    requires disk { IsReadable D.Disk disk.old size }
    requires on_disk { HasSectors D.Disk disk.old (sectors_in place.now) }
    ensures told { ForSome (D.bytes disk.old) (λ image. Told (digest_reply (bytes_in size image (sectors_in place.now) len)) (K.taken out.old) (K.taken out.new) result) }
    ensures reads { OnlyReads D.Disk disk.old disk.new }
    ensures out_faults { K.faults out.old ≤ K.faults out.new }
    ensures disk_cause { result ≡ Err LineFault.Disk → Rose (D.faults disk.old) (D.faults disk.new) }
    ensures out_cause { result ≡ Err LineFault.Out → Rose (K.faults out.old) (K.faults out.new) }
{
    let sum = hash_place(disk, size, place, len)?;
    write_sum(out, &sum)?;
    Ok(())
}
