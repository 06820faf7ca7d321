// Reading the front of an image.
ghost use Rattle.std.specs.Prelude.{◌≡◌, ◌≤◌, ◌+◌, ◌*◌, ◌/◌, ◌%◌, ◌^◌, true, Ok, length, nat_le, IsTrue, IfOk};
ghost use Rattle.std.specs.Option.{ForSome};
ghost use Rattle.fc_bytes.specs.Words.{bytes_at};
ghost use Rattle.fc_device.specs.Calls.{FailsByFault, OnlyReads};
ghost use Rattle.fc_record.specs.Kinds.{sectors_there};

use fc_device::{Disk, DiskFault, Extent};

/// The bytes in a sector while an image has no kind.
pub const SECTOR: usize = 256;

/// Fills `into`, which is as long as some sectors of 256 bytes, with the bytes from sector `first` on. Answers
/// whether the image has as many; if it hasn't, nothing is read.
pub fn fetch<D: Disk>(disk: &mut D, first: u64, into: &mut [u8]) -> Result<bool, DiskFault>
    requires attached { IsTrue (D.attached disk.old) }
    requires size { D.sector_size disk.old ≡ 256 }
    requires whole { length into.old % 256 ≡ 0 }
    requires fits { first ≤ 2 ^ 32 }
    ensures there { IfOk result (λ there. ForSome (D.bytes disk.old) (λ image. there ≡ nat_le (256 * first + length into.old) (length image))) }
    ensures filled { result ≡ Ok true → ForSome (D.bytes disk.old) (λ image. into.new ≡ bytes_at image (256 * first) (length into.old)) }
    ensures reads { OnlyReads D.Disk disk.old disk.new }
    ensures few { D.read_calls disk.new ≤ D.read_calls disk.old + length into.old / 256 }
    ensures most { ForSome (D.bytes disk.old) (λ image. D.read_calls disk.new ≤ D.read_calls disk.old + sectors_there image (256 * first + length into.old) (length into.old / 256)) }
    ensures cause { FailsByFault D.Disk disk.old disk.new result }
{
    let sectors = (into.len() / SECTOR) as u64;
    if first + sectors > disk.sectors() {
        return Ok(false);
    }
    disk.read_row(Extent { first, sectors }, into)?;
    Ok(true)
}
