// A change of a disc with an old map, written.

ghost use Rattle.std.specs.Prelude.{◌≡◌, ◌⊎◌, ◌≤◌, ◌*◌, IsTrue, IsFalse, OnOk};
ghost use Rattle.std.specs.Option.{ForSome};
ghost use Rattle.fc_device.specs.Calls.{FailsByFault, SameForm, StopsAndExitsLeave};
ghost use Rattle.fc_writing.specs.Old.{CanWrite, ChangeLeaves, GiveLeaves, IsChanged, IsWritten, TakeLeaves, front_after, front_in, front_taken};
ghost use Rattle.fc_writing.specs.Ready.{early_content, late_content};

use crate::old_front::make_old_step;
use crate::pieces::{put, put_early};
use crate::ready::Ready;
use fc_device::{Disk, DiskFault};
use fc_oldmap::OldMap;

// Writes what comes before the map's first step, and makes it.
fn write_early<D: Disk>(
    disk: &mut D,
    map: &OldMap,
    ready: &Ready,
    bytes: &[u8],
) -> Result<(), DiskFault>
    requires attached { IsTrue (D.attached disk.old) }
    requires settled { IsFalse (D.pending disk.old) }
    requires size { D.sector_size disk.old ≡ 256 * map.now.sector_units }
    requires on_disk { 2 ≤ D.sectors disk.old }
    requires can { CanWrite (D.sectors disk.old) map.now ready.now }
    ensures units { (map.now.sector_units ≡ 1) ⊎ (map.now.sector_units ≡ 4) }
    ensures keeps { StopsAndExitsLeave D.Disk disk.old disk.new (TakeLeaves map.now ready.now bytes.now) }
    ensures taken { OnOk result (ForSome (D.bytes disk.old) (λ was. ForSome (D.bytes disk.new)
        (IsWritten map.now (front_taken map.now ready.now was) (early_content (256 * map.now.sector_units) was bytes.now ready.now) was))) }
    ensures durable { OnOk result (IsFalse (D.pending disk.new)) }
    ensures form { SameForm D.Disk disk.old disk.new }
    ensures cause { FailsByFault D.Disk disk.old disk.new result }
{
    put_early(disk, 256 * map.sector_units() as usize, ready, bytes)?;
    make_old_step(disk, map, &ready.take)
}

// Writes what comes after the map's first step, and makes the second.
fn write_late<D: Disk>(disk: &mut D, map: &OldMap, ready: &Ready) -> Result<(), DiskFault>
    requires attached { IsTrue (D.attached disk.old) }
    requires settled { IsFalse (D.pending disk.old) }
    requires size { D.sector_size disk.old ≡ 256 * map.now.sector_units }
    requires on_disk { 2 ≤ D.sectors disk.old }
    requires can { CanWrite (D.sectors disk.old) map.now ready.now }
    ensures keeps { StopsAndExitsLeave D.Disk disk.old disk.new (GiveLeaves map.now ready.now) }
    ensures given { OnOk result (ForSome (D.bytes disk.old) (λ was. ForSome (D.bytes disk.new)
        (IsWritten map.now (front_after ready.now.give (front_in map.now was)) (late_content (256 * map.now.sector_units) ready.now) was))) }
    ensures durable { OnOk result (IsFalse (D.pending disk.new)) }
    ensures form { SameForm D.Disk disk.old disk.new }
    ensures cause { FailsByFault D.Disk disk.old disk.new result }
{
    put(disk, 256 * map.sector_units() as usize, &ready.late)?;
    make_old_step(disk, map, &ready.give)
}

/// Writes a change of a disc with an old map, of which `map` is the one before, in the order of `write_new`; the map has no
/// copy, and is written over the one that is there.
///
/// At every crash and at every exit, an I/O error included, nothing differs but the sectors that the change names and the
/// map's. The map's are as before until all that is early is written; then each has its bytes of before or those after
/// the first step; then all have these, until all is written; and then each has these or those after the second. At Ok
/// all is written, the map has the holes of its last step, no other byte has changed, and nothing is pending. It fails
/// only if the disk's count of faults rose.
pub fn write_old<D: Disk>(
    disk: &mut D,
    map: &OldMap,
    ready: &Ready,
    bytes: &[u8],
) -> Result<(), DiskFault>
    requires attached { IsTrue (D.attached disk.old) }
    requires settled { IsFalse (D.pending disk.old) }
    requires size { D.sector_size disk.old ≡ 256 * map.now.sector_units }
    requires on_disk { 2 ≤ D.sectors disk.old }
    requires can { CanWrite (D.sectors disk.old) map.now ready.now }
    ensures keeps { StopsAndExitsLeave D.Disk disk.old disk.new (ChangeLeaves map.now ready.now bytes.now) }
    ensures done { OnOk result (ForSome (D.bytes disk.old) (λ was. ForSome (D.bytes disk.new) (IsChanged map.now ready.now bytes.now was))) }
    ensures durable { OnOk result (IsFalse (D.pending disk.new)) }
    ensures form { SameForm D.Disk disk.old disk.new }
    ensures cause { FailsByFault D.Disk disk.old disk.new result }
{
    write_early(disk, map, ready, bytes)?;
    write_late(disk, map, ready)
}
