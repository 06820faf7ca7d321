// An old map, written to the disk.
ghost use Rattle.std.specs.Prelude.{◌≡◌, ◌≤◌, ◌*◌, ◌++◌, [], IsTrue, IsFalse, OnOk, drop, length, take};
ghost use Rattle.std.specs.Option.{ForSome};
ghost use Rattle.fc_device.specs.Calls.{FailsByFault, SameForm, StopsAndExitsLeave};
ghost use Rattle.fc_changes.specs.old.Owed.{IsWritten};
ghost use Rattle.fc_oldmap.specs.OldMap.{with_holes};
ghost use Rattle.fc_volume.specs.OldWriting.{ChangesFront, IsFrontWritten, IsMapWritten};

use fc_device::{Disk, DiskFault, Extent};
use fc_oldmap::OldMap;
use fc_writing::store_in;

// Writes the holes of a map over the first 512 of some bytes.
fn patch(map: &OldMap, front: &mut [u8])
    requires { 512 ≤ length front.old }
    ensures bytes { front.new ≡ with_holes (take 512 front.old) map.now.holes ++ drop 512 front.old }
    ensures long { length (with_holes (take 512 front.old) map.now.holes) ≡ 512 }
{
    map.write(&mut front[..512]);
}

// Writes the holes of a map over the first bytes of a disk's first sectors, through a buffer as long as these, and syncs.
fn write_front<D: Disk>(
    disk: &mut D,
    size: usize,
    row: Extent,
    map: &OldMap,
    front: &mut [u8],
) -> Result<(), DiskFault>
    requires attached { IsTrue (D.attached disk.old) }
    requires settled { IsFalse (D.pending disk.old) }
    requires size { D.sector_size disk.old ≡ size }
    requires first { row.first ≡ 0 }
    requires on_disk { row.sectors ≤ D.sectors disk.old }
    requires whole { length front.old ≡ row.sectors * size }
    requires long { 512 ≤ length front.old }
    ensures keeps { StopsAndExitsLeave D.Disk disk.old disk.new (ChangesFront size row.sectors) }
    ensures written { OnOk result (ForSome (D.bytes disk.old) (λ was. ForSome (D.bytes disk.new) (IsFrontWritten map.now (row.sectors * size) was))) }
    ensures durable { OnOk result (IsFalse (D.pending disk.new)) }
    ensures form { SameForm D.Disk disk.old disk.new }
    ensures cause { FailsByFault D.Disk disk.old disk.new result }
{
    disk.read_row(row, front)?;
    patch(map, front);
    store_in(disk, size, &[row], front)
}

/// Writes the holes of a map over the map on the disk, and syncs. Beside the holes, FreeEnd and the checks nothing changes.
pub fn write_map<D: Disk>(disk: &mut D, map: &OldMap) -> Result<(), DiskFault>
    requires attached { IsTrue (D.attached disk.old) }
    requires settled { IsFalse (D.pending disk.old) }
    requires size { D.sector_size disk.old ≡ 256 * map.now.sector_units }
    requires on_disk { 2 ≤ D.sectors disk.old }
    ensures keeps { StopsAndExitsLeave D.Disk disk.old disk.new (IsWritten map.now []) }
    ensures written { OnOk result (ForSome (D.bytes disk.old) (λ was. ForSome (D.bytes disk.new) (IsMapWritten map.now was))) }
    ensures durable { OnOk result (IsFalse (D.pending disk.new)) }
    ensures form { SameForm D.Disk disk.old disk.new }
    ensures cause { FailsByFault D.Disk disk.old disk.new result }
{
    if map.sector_units() == 4 {
        let row = Extent {
            first: 0,
            sectors: 1,
        };
        write_front(disk, 1024, row, map, &mut [0u8; 1024])
    } else {
        let row = Extent {
            first: 0,
            sectors: 2,
        };
        write_front(disk, 256, row, map, &mut [0u8; 512])
    }
}
