// The bytes of an object, block by block.
ghost use Rattle.std.specs.Prelude.{◌≡◌, ◌<◌, ◌≤◌, ◌+◌, ◌*◌, ◌++◌, [], ℕ, List, All, IfOk, IsTrue, Ok, OnErr, length, take};
ghost use Rattle.std.specs.Int.{div_ceil};
ghost use Rattle.std.specs.Option.{ForSome};
ghost use Rattle.fc_device.specs.Calls.{FailsByFault, OnlyReads};
ghost use Rattle.fc_objects.specs.Extents.{sectors_in};
ghost use Rattle.fc_objects.specs.Ahead.{ahead};
ghost use Rattle.fc_objects.specs.Bytes.{bytes_ahead, length_ahead};
ghost use Rattle.fc_objects.specs.Calls.{sectors_left};

use crate::sectors::Sectors;
use fc_device::{Disk, DiskFault, Extent};

/// Gives the bytes of an object from its first to its last, a block at a time.
#[derive(Clone, Copy)]
pub struct ObjectReader<'a> {
    sectors: Sectors<'a>,
    // The bytes of a sector.
    size: usize,
    // The bytes that are left.
    len: u64,
}

// How many sectors of `size` bytes to read at once: those that fit into `room` bytes, but none past the last of `len` bytes.
fn sectors_at_once(room: usize, size: usize, len: u64) -> u64
    requires size { 0 < size }
    requires room { size ≤ room }
    requires len { 0 < len }
    ensures some { 0 < result }
    ensures fit { result * size ≤ room }
    ensures needed { result ≤ div_ceil len size }
{
    let fitting = (room / size) as u64;
    fitting.min(len.div_ceil(size as u64))
}

impl<'a> ObjectReader<'a> {
    /// All of an object: the first `len` bytes of its sectors, which have `size` bytes each.
    pub fn new(place: &'a [Extent], size: usize, len: u64) -> ObjectReader<'a>
        ensures sectors { ahead result.sectors ≡ sectors_in place.now }
        ensures size { result.size ≡ size }
        ensures len { result.len ≡ len }
    {
        ObjectReader {
            sectors: Sectors::of(place),
            size,
            len,
        }
    }

    /// Puts the next bytes of the object at the front of `into`, which has room for a sector at least, and answers how many;
    /// 0 exactly at the object's end. It fails only if the disk's read fails; the next call then begins at the same byte.
    /// After the bytes, and after a failure, `into` may hold anything. Read calls that were made and sectors that are left don't
    /// grow in sum: if none fails, the whole object takes no more read calls than its bytes have sectors.
    pub fn read<D: Disk>(&mut self, disk: &mut D, into: &mut [u8]) -> Result<usize, DiskFault>
        requires attached { IsTrue (D.attached disk.old) }
        requires size { D.sector_size disk.old ≡ self.old.size }
        requires on_disk { All (λ n. n < D.sectors disk.old) (ahead self.old.sectors) }
        requires room { self.old.size ≤ length into.old }
        ensures bytes { IfOk result (λ count. ForSome (D.bytes disk.old) (λ image. bytes_ahead image self.old ≡ take count into.new ++ bytes_ahead image self.new)) }
        ensures end { result ≡ Ok 0 → (length_ahead self.old ≡ 0) × ((image : List ℕ) → bytes_ahead image self.old ≡ []) }
        ensures bound { IfOk result (λ count. count ≤ length into.new) }
        ensures length { IfOk result (λ count. length_ahead self.old ≡ count + length_ahead self.new) }
        ensures failed { OnErr result (self.new ≡ self.old) }
        ensures size_stays { self.new.size ≡ self.old.size }
        ensures on_disk { All (λ n. n < D.sectors disk.new) (ahead self.new.sectors) }
        ensures reads { OnlyReads D.Disk disk.old disk.new }
        ensures few { D.read_calls disk.new ≤ D.read_calls disk.old + sectors_left self.old }
        ensures calls { IfOk result (λ _. D.read_calls disk.new + sectors_left self.new ≤ D.read_calls disk.old + sectors_left self.old) }
        ensures cause { FailsByFault D.Disk disk.old disk.new result }
    {
        if self.len == 0 {
            return Ok(0);
        }
        let mut sectors = self.sectors;
        let most = sectors_at_once(into.len(), self.size, self.len);
        let Some(row) = sectors.next_row(most) else {
            return Ok(0);
        };
        let whole = row.sectors as usize * self.size;
        disk.read_row(row, &mut into[..whole])?;
        let count = self.len.min(whole as u64);
        self.sectors = sectors;
        self.len -= count;
        Ok(count as usize)
    }
}
