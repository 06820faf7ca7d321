// The bytes of an object, written.
ghost use Rattle.std.specs.Prelude.{◌≡◌, ◌<◌, ◌≤◌, ◌+◌, ◌*◌, ℕ, List, All, IsTrue, IsFalse, OnOk, Some, length, option_map};
ghost use Rattle.std.specs.Option.{ForSome};
ghost use Rattle.fc_device.specs.Calls.{FailsByFault, SameForm, StopsAndExitsLeave, StopsTearRow};
ghost use Rattle.fc_device.specs.Sectors.{with_row};
ghost use Rattle.fc_device.specs.Stops.{HasRowPart, StillLeaves};
ghost use Rattle.fc_objects.specs.Bytes.{first_bytes};
ghost use Rattle.fc_objects.specs.Extents.{sectors_in};
ghost use Rattle.fc_objects.specs.Written.{AreApart, HasParts, IsPartWritten, StopsTear, padded};

use crate::sectors::Sectors;
use fc_device::{Disk, DiskFault, Extent, Failed, MAX_SECTOR};

// The bytes of a short row: two of the largest sectors, as the least objects of E discs have.
const SHORT_ROW: usize = 2 * MAX_SECTOR;

// So many bytes are written at once where the bytes end and zeros follow.
const ROW: usize = 16384;

// How many sectors to write at once: those that so many bytes fill, or a row of zeros if they fill none.
fn sectors_at_once(left: usize, size: usize) -> u64
    requires some { 0 < size }
    requires size { size ≤ 1024 }
    ensures some { 0 < result }
    ensures zeros { left < size → result * size ≤ 16384 }
    ensures enough { size ≤ left → result * size ≤ left }
{
    if left < size {
        (ROW / size) as u64
    } else {
        (left / size) as u64
    }
}

// Writes a row of so many bytes: the first of these, or all of them and zeros after them. Clearing the buffer of a long row is
// dear, so it is made only where that of a short one has no room.
fn write_next<D: Disk>(disk: &mut D, row: Extent, from: &[u8], whole: usize) -> Result<(), Failed>
    requires attached { IsTrue (D.attached disk.old) }
    requires on_disk { row.first + row.sectors ≤ D.sectors disk.old }
    requires whole { whole ≡ row.sectors * D.sector_size disk.old }
    requires zeros { length from.now < whole → whole ≤ 16384 }
    ensures written { OnOk result (D.bytes disk.new ≡ option_map (λ image. with_row (D.sector_size disk.old) image row.first (padded whole from.now)) (D.bytes disk.old)) }
    ensures old_or_new { HasRowPart (D.sector_size disk.old) row.first (padded whole from.now) (D.bytes disk.old) (D.bytes disk.new) }
    ensures form { SameForm D.Disk disk.old disk.new }
    ensures stops { StopsTearRow D.Disk disk.old disk.new row.first (padded whole from.now) }
    ensures still { StillLeaves D.moment D.left_since disk.old disk.new }
    ensures read_calls { D.read_calls disk.new ≡ D.read_calls disk.old }
    ensures cause { FailsByFault D.Disk disk.old disk.new result }
{
    let count = from.len();
    if whole <= count {
        disk.write_row(row, &from[..whole])
    } else if whole <= SHORT_ROW {
        let mut bytes = [0; SHORT_ROW];
        bytes[..count].copy_from_slice(from);
        disk.write_row(row, &bytes[..whole])
    } else {
        let mut bytes = [0; ROW];
        bytes[..count].copy_from_slice(from);
        disk.write_row(row, &bytes[..whole])
    }
}

/// Writes bytes into the sectors of an object, one after another, and zeros into what is left of them. Sectors that lie in a row are
/// written in one call if the bytes fill them, and some at once where zeros follow. Bytes for which the sectors have no room are left
/// out. The object is given by its extents, all of which lie on the disk, and `size` is the bytes of a sector. No other sector changes.
/// Until a sync, a crash may leave each of these sectors old or new, and so does a failure. It fails only if the disk's write fails.
pub fn write_object<D: Disk>(
    disk: &mut D,
    size: usize,
    at: &[Extent],
    from: &[u8],
) -> Result<(), DiskFault>
    requires attached { IsTrue (D.attached disk.old) }
    requires size { D.sector_size disk.old ≡ size }
    requires on_disk { All (λ n. n < D.sectors disk.old) (sectors_in at.now) }
    ensures written { OnOk result (AreApart (sectors_in at.now) → ForSome (D.bytes disk.new) (HasParts (D.sector_size disk.old) (sectors_in at.now) from.now)) }
    ensures reads_back { OnOk result (AreApart (sectors_in at.now) → length from.now ≤ length (sectors_in at.now) * D.sector_size disk.old
        → ForSome (D.bytes disk.new) (λ image. first_bytes (D.sector_size disk.old) image (sectors_in at.now) (length from.now) ≡ from.now)) }
    ensures part { ForSome (D.bytes disk.old) (λ was. (image : List ℕ) × (D.bytes disk.new ≡ Some image) × IsPartWritten (D.sector_size disk.old) (sectors_in at.now) from.now was image) }
    ensures stops { StopsTear D.Disk disk.old disk.new (sectors_in at.now) from.now }
    ensures keeps { IsFalse (D.pending disk.old) → StopsAndExitsLeave D.Disk disk.old disk.new (IsPartWritten (D.sector_size disk.old) (sectors_in at.now) from.now) }
    ensures form { SameForm D.Disk disk.old disk.new }
    ensures still { StillLeaves D.moment D.left_since disk.old disk.new }
    ensures read_calls { D.read_calls disk.new ≡ D.read_calls disk.old }
    ensures cause { FailsByFault D.Disk disk.old disk.new result }
{
    let mut sectors = Sectors::of(at);
    let mut left = from;
    while let Some(row) = sectors.next_row(sectors_at_once(left.len(), size)) {
        let whole = row.sectors as usize * size;
        write_next(disk, row, left, whole)?;
        left = &left[whole.min(left.len())..];
    }
    Ok(())
}
