// The map of a disc with an old map, in its first 512 bytes.

ghost use Rattle.std.specs.Prelude.{◌≡◌, ◌≤◌, ◌*◌, length, take, IsTrue, IsFalse, OnOk};
ghost use Rattle.std.specs.Option.{ForSome};
ghost use Rattle.fc_device.specs.Calls.{FailsByFault, SameForm, StopsAndExitsLeave};
ghost use Rattle.fc_writing.specs.Old.{FrontLeaves, IsOfDisc, StepLeaves, front_after, front_in, with_map};

use crate::pieces::store_in;
use crate::ready::MapStep;
use fc_device::{Disk, DiskFault, Extent};
use fc_oldmap::OldMap;

// Writes the holes of a map over the first 512 of some bytes.
fn patch(map: &OldMap, front: &mut [u8])
    requires { 512 ≤ length front.old }
    ensures { front.new ≡ with_map map.now front.old }
{
    map.write(&mut front[..512]);
}

// Writes the holes of a map over the first bytes of a disk's first sectors, through a buffer as long as these, and syncs.
fn write_front<D: Disk>(
    disk: &mut D,
    size: usize,
    row: Extent,
    map: &OldMap,
    front: &mut [u8],
) -> Result<(), DiskFault>
    requires attached { IsTrue (D.attached disk.old) }
    requires settled { IsFalse (D.pending disk.old) }
    requires size { D.sector_size disk.old ≡ size }
    requires first { row.first ≡ 0 }
    requires on_disk { row.sectors ≤ D.sectors disk.old }
    requires whole { length front.old ≡ row.sectors * size }
    requires long { 512 ≤ length front.old }
    ensures keeps { StopsAndExitsLeave D.Disk disk.old disk.new (λ was image. FrontLeaves size row.sectors (with_map map.now (take (row.sectors * size) was)) was image) }
    ensures written { OnOk result (ForSome (D.bytes disk.old) (λ was. ForSome (D.bytes disk.new) (λ image.
        take (row.sectors * size) image ≡ with_map map.now (take (row.sectors * size) was)))) }
    ensures durable { OnOk result (IsFalse (D.pending disk.new)) }
    ensures form { SameForm D.Disk disk.old disk.new }
    ensures cause { FailsByFault D.Disk disk.old disk.new result }
{
    disk.read_row(row, front)?;
    patch(map, front);
    store_in(disk, size, &[row], front)
}

// Writes the holes of a map over the map on the disk, and syncs.
fn write_map<D: Disk>(disk: &mut D, map: &OldMap) -> Result<(), DiskFault>
    requires attached { IsTrue (D.attached disk.old) }
    requires settled { IsFalse (D.pending disk.old) }
    requires size { D.sector_size disk.old ≡ 256 * map.now.sector_units }
    requires on_disk { 2 ≤ D.sectors disk.old }
    ensures keeps { StopsAndExitsLeave D.Disk disk.old disk.new (StepLeaves map.now (MapStep.Old map.now)) }
    ensures written { OnOk result (ForSome (D.bytes disk.old) (λ was. ForSome (D.bytes disk.new) (λ image. front_in map.now image ≡ with_map map.now (front_in map.now was)))) }
    ensures durable { OnOk result (IsFalse (D.pending disk.new)) }
    ensures form { SameForm D.Disk disk.old disk.new }
    ensures cause { FailsByFault D.Disk disk.old disk.new result }
{
    if map.sector_units() == 4 {
        let row = Extent {
            first: 0,
            sectors: 1,
        };
        write_front(disk, 1024, row, map, &mut [0u8; 1024])
    } else {
        let row = Extent {
            first: 0,
            sectors: 2,
        };
        write_front(disk, 256, row, map, &mut [0u8; 512])
    }
}

/// Makes a step of an old map on the disk; `map` is of the same disc. No sector but the map's changes, and of these a crash leaves each
/// as it was or new.
pub fn make_old_step<D: Disk>(disk: &mut D, map: &OldMap, step: &MapStep) -> Result<(), DiskFault>
    requires attached { IsTrue (D.attached disk.old) }
    requires settled { IsFalse (D.pending disk.old) }
    requires size { D.sector_size disk.old ≡ 256 * map.now.sector_units }
    requires on_disk { 2 ≤ D.sectors disk.old }
    requires disc { IsOfDisc map.now step.now }
    ensures keeps { StopsAndExitsLeave D.Disk disk.old disk.new (StepLeaves map.now step.now) }
    ensures written { OnOk result (ForSome (D.bytes disk.old) (λ was. ForSome (D.bytes disk.new) (λ image. front_in map.now image ≡ front_after step.now (front_in map.now was)))) }
    ensures durable { OnOk result (IsFalse (D.pending disk.new)) }
    ensures form { SameForm D.Disk disk.old disk.new }
    ensures cause { FailsByFault D.Disk disk.old disk.new result }
{
    match step {
        MapStep::Nothing => Ok(()),
        MapStep::Old(space) => write_map(disk, space),
        MapStep::New(_) => unreachable!(),
    }
}
