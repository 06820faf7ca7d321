// A change of a disc with a new map, written.

ghost use Rattle.std.specs.Prelude.{◌≡◌, ◌⊎◌, ◌≤◌, ◌+◌, ◌*◌, [], IsTrue, IsFalse, OnOk};
ghost use Rattle.std.specs.Option.{ForSome};
ghost use Rattle.fc_newmap.specs.Copies.{Chooses, HoldsCopies};
ghost use Rattle.fc_device.specs.Calls.{FailsByFault, SameForm, StopsAndExitsLeave};
ghost use Rattle.fc_newmap.specs.Map.{map_sectors};
ghost use Rattle.fc_writing.specs.Copies.{HasCopies};
ghost use Rattle.fc_writing.specs.New.{CanWrite, ChangeLeaves, GiveLeaves, IsChanged, IsGiven, IsReached, IsTaken, IsWritten, TakeLeaves};
ghost use Rattle.fc_writing.specs.Ready.{CanPut, early_content, late_content};
ghost use Rattle.fc_writing.specs.Stages.{Stage};
ghost use Rattle.fc_writing.specs.Steps.{CanStep, HasStepped};

use crate::copies::{Copies, match_copies};
use crate::pieces::{put, put_early};
use crate::ready::Ready;
use crate::steps::make_step;
use fc_device::{Disk, DiskFault};
use fc_newmap::NewMap;

// Makes the copies of the map equal, if they may differ, and writes what comes before the map's first step.
fn lay<D: Disk>(
    disk: &mut D,
    map: &NewMap,
    copies: Copies,
    ready: &Ready,
    bytes: &[u8],
) -> Result<(), DiskFault>
    requires attached { IsTrue (D.attached disk.old) }
    requires settled { IsFalse (D.pending disk.old) }
    requires size { D.sector_size disk.old ≡ map.now.geometry.sector }
    requires on_disk { map.now.geometry.map_sector + 2 * map.now.geometry.zones ≤ D.sectors disk.old }
    requires put { CanPut (D.sectors disk.old) (map_sectors map.now.geometry) ready.now }
    requires known { ForSome (D.bytes disk.old) (HasCopies copies map.now) }
    ensures keeps { StopsAndExitsLeave D.Disk disk.old disk.new (λ was image.
        Stage map.now.geometry.sector (map_sectors map.now.geometry) [] (early_content map.now.geometry.sector was bytes.now ready.now) (Chooses map.now.geometry map.now.zones) was image) }
    ensures laid { OnOk result (ForSome (D.bytes disk.old) (λ was. ForSome (D.bytes disk.new)
        (IsWritten map.now.geometry map.now.zones (early_content map.now.geometry.sector was bytes.now ready.now) was))) }
    ensures durable { OnOk result (IsFalse (D.pending disk.new)) }
    ensures form { SameForm D.Disk disk.old disk.new }
    ensures cause { FailsByFault D.Disk disk.old disk.new result }
{
    match_copies(disk, map, copies)?;
    put_early(disk, map.geometry().sector as usize, ready, bytes)
}

// Writes what comes before the map's first step, and makes it.
fn write_early<D: Disk>(
    disk: &mut D,
    map: &mut NewMap,
    copies: Copies,
    ready: &Ready,
    bytes: &[u8],
) -> Result<(), DiskFault>
    requires attached { IsTrue (D.attached disk.old) }
    requires settled { IsFalse (D.pending disk.old) }
    requires size { D.sector_size disk.old ≡ map.old.geometry.sector }
    requires on_disk { map.old.geometry.map_sector + 2 * map.old.geometry.zones ≤ D.sectors disk.old }
    requires can { CanWrite (D.sectors disk.old) map.old ready.now }
    requires known { ForSome (D.bytes disk.old) (HasCopies copies map.old) }
    ensures keeps { StopsAndExitsLeave D.Disk disk.old disk.new (TakeLeaves map.old ready.now bytes.now) }
    ensures taken { OnOk result (ForSome (D.bytes disk.old) (λ was. ForSome (D.bytes disk.new)
        (IsWritten map.old.geometry map.new.zones (early_content map.old.geometry.sector was bytes.now ready.now) was))) }
    ensures map { (map.new ≡ map.old) ⊎ IsTaken map.old ready.now map.new }
    ensures stepped { OnOk result (IsTaken map.old ready.now map.new) }
    ensures durable { OnOk result (IsFalse (D.pending disk.new)) }
    ensures form { SameForm D.Disk disk.old disk.new }
    ensures cause { FailsByFault D.Disk disk.old disk.new result }
{
    lay(disk, map, copies, ready, bytes)?;
    make_step(disk, map, &ready.take)
}

// Writes what comes after the map's first step, and makes the second.
fn write_late<D: Disk>(disk: &mut D, map: &mut NewMap, ready: &Ready) -> Result<(), DiskFault>
    requires attached { IsTrue (D.attached disk.old) }
    requires settled { IsFalse (D.pending disk.old) }
    requires size { D.sector_size disk.old ≡ map.old.geometry.sector }
    requires on_disk { map.old.geometry.map_sector + 2 * map.old.geometry.zones ≤ D.sectors disk.old }
    requires put { CanPut (D.sectors disk.old) (map_sectors map.old.geometry) ready.now }
    requires give { CanStep map.old ready.now.give }
    requires copies { ForSome (D.bytes disk.old) (HoldsCopies map.old.geometry map.old.zones) }
    ensures keeps { StopsAndExitsLeave D.Disk disk.old disk.new (GiveLeaves map.old ready.now) }
    ensures given { OnOk result (ForSome (D.bytes disk.old) (λ was. ForSome (D.bytes disk.new)
        (IsWritten map.old.geometry map.new.zones (late_content map.old.geometry.sector ready.now) was))) }
    ensures map { (map.new ≡ map.old) ⊎ HasStepped map.old map.new ready.now.give }
    ensures stepped { OnOk result (HasStepped map.old map.new ready.now.give) }
    ensures durable { OnOk result (IsFalse (D.pending disk.new)) }
    ensures form { SameForm D.Disk disk.old disk.new }
    ensures cause { FailsByFault D.Disk disk.old disk.new result }
{
    put(disk, map.geometry().sector as usize, &ready.late)?;
    make_step(disk, map, &ready.give)
}

/// Writes a change of a disc with a new map. The copies of the map are made equal first; `copies` says what is known of
/// them. Then come, each with a sync: the new object, from `bytes` or copied; what is carried along; what is early; the
/// map's first step, by one commit; what is late; and the second step, by one commit. A step in which no zone changes
/// writes nothing.
///
/// At every crash and at every exit, an I/O error included, nothing differs but the sectors that the change names and the
/// map's. The copy that counts has the zones of before; or those after the first step, once all that is early is
/// written; or those after the second, once all is written. Inside a commit of more than nine zones nothing is said of
/// the copies. At Ok all is written, both copies are the new map, no other byte has changed, and nothing is pending. The
/// map in memory is always one of the three, at Ok the last. It fails only if the disk's count of faults rose.
pub fn write_new<D: Disk>(
    disk: &mut D,
    map: &mut NewMap,
    copies: Copies,
    ready: &Ready,
    bytes: &[u8],
) -> Result<(), DiskFault>
    requires attached { IsTrue (D.attached disk.old) }
    requires settled { IsFalse (D.pending disk.old) }
    requires size { D.sector_size disk.old ≡ map.old.geometry.sector }
    requires on_disk { map.old.geometry.map_sector + 2 * map.old.geometry.zones ≤ D.sectors disk.old }
    requires can { CanWrite (D.sectors disk.old) map.old ready.now }
    requires known { ForSome (D.bytes disk.old) (HasCopies copies map.old) }
    ensures keeps { StopsAndExitsLeave D.Disk disk.old disk.new (ChangeLeaves map.old ready.now bytes.now) }
    ensures done { OnOk result (ForSome (D.bytes disk.old) (λ was. ForSome (D.bytes disk.new) (IsChanged map.old map.new ready.now bytes.now was))) }
    ensures map { IsReached map.old ready.now map.new }
    ensures given { OnOk result (IsGiven map.old ready.now map.new) }
    ensures durable { OnOk result (IsFalse (D.pending disk.new)) }
    ensures form { SameForm D.Disk disk.old disk.new }
    ensures cause { FailsByFault D.Disk disk.old disk.new result }
{
    write_early(disk, map, copies, ready, bytes)?;
    write_late(disk, map, ready)
}
