// A change, written by the map that a volume has.
ghost use Rattle.std.specs.Prelude.{◌≡◌, ◌≤◌, ◌*◌, IsTrue, IsFalse, OnErr, OnOk};
ghost use Rattle.std.specs.Option.{ForSome};
ghost use Rattle.fc_device.specs.Calls.{FailsByFault, SameForm, StopsAndExitsLeave};
ghost use Rattle.fc_image.specs.Layout.{sector_bytes};
ghost use Rattle.fc_space.specs.Space.{layout_of};
ghost use Rattle.fc_writing.specs.Old.{CanWrite, ChangeLeaves, IsChanged};
ghost use Rattle.fc_holdings.specs.Holdings.{CopiesAre, HoldsMap, IsSameKind};
ghost use Rattle.fc_commands.specs.Written.{CanWriteOn, ChangeLeavesOn, IsChangedOn, IsGivenOn, map_after, space_after};

use fc_device::{Disk, DiskFault};
use fc_oldmap::OldMap;
use fc_space::{Places, Space};
use fc_writing::{Copies, MapStep, Ready, write_new, write_old};

// The map becomes that of a step, if the step has one.
fn hold_map(map: &mut OldMap, step: MapStep)
    ensures { map.new ≡ space_after step map.old }
{
    match step {
        MapStep::Old(now) => *map = now,
        MapStep::New(_space) => {}
        MapStep::Nothing => {}
    }
}

// Writes a change of a disc with an old map, and then the map in memory is the last one that was written.
fn write_and_hold<D: Disk>(
    disk: &mut D,
    map: &mut OldMap,
    ready: Ready,
    bytes: &[u8],
) -> Result<(), DiskFault>
    requires attached { IsTrue (D.attached disk.old) }
    requires settled { IsFalse (D.pending disk.old) }
    requires size { D.sector_size disk.old ≡ 256 * map.old.sector_units }
    requires on_disk { 2 ≤ D.sectors disk.old }
    requires can { CanWrite (D.sectors disk.old) map.old ready }
    ensures keeps { StopsAndExitsLeave D.Disk disk.old disk.new (ChangeLeaves map.old ready bytes.now) }
    ensures done { OnOk result (ForSome (D.bytes disk.old) (λ was. ForSome (D.bytes disk.new) (IsChanged map.old ready bytes.now was))) }
    ensures map { OnOk result (map.new ≡ map_after map.old ready) }
    ensures stays { OnErr result (map.new ≡ map.old) }
    ensures durable { OnOk result (IsFalse (D.pending disk.new)) }
    ensures form { SameForm D.Disk disk.old disk.new }
    ensures cause { FailsByFault D.Disk disk.old disk.new result }
{
    write_old(disk, map, &ready, bytes)?;
    let Ready { take, give, .. } = ready;
    hold_map(map, take);
    hold_map(map, give);
    Ok(())
}

/// Writes a change, and then the map in memory is the one after it. What is left at crashes and at exits, and when it fails, is said of
/// `write_new` and `write_old`.
pub fn write_change<D: Disk>(
    disk: &mut D,
    places: &mut Places,
    copies: Copies,
    ready: Ready,
    bytes: &[u8],
) -> Result<(), DiskFault>
    requires attached { IsTrue (D.attached disk.old) }
    requires settled { IsFalse (D.pending disk.old) }
    requires size { D.sector_size disk.old ≡ sector_bytes (layout_of places.old) }
    requires room { HoldsMap (layout_of places.old) (D.sectors disk.old) }
    requires can { CanWriteOn (layout_of places.old) (D.sectors disk.old) ready }
    requires known { ForSome (D.bytes disk.old) (CopiesAre copies (layout_of places.old)) }
    ensures keeps { StopsAndExitsLeave D.Disk disk.old disk.new (ChangeLeavesOn (layout_of places.old) ready bytes.now) }
    ensures done { OnOk result (ForSome (D.bytes disk.old) (λ was. ForSome (D.bytes disk.new) (IsChangedOn (layout_of places.old) (layout_of places.new) ready bytes.now was))) }
    ensures given { OnOk result (IsGivenOn (layout_of places.old) ready (layout_of places.new)) }
    ensures kind { IsSameKind (layout_of places.old) (layout_of places.new) }
    ensures durable { OnOk result (IsFalse (D.pending disk.new)) }
    ensures form { SameForm D.Disk disk.old disk.new }
    ensures cause { FailsByFault D.Disk disk.old disk.new result }
{
    match places.edit() {
        Space::NewMapped(map) => write_new(disk, map, copies, &ready, bytes),
        Space::OldMapped(map) => write_and_hold(disk, map, ready, bytes),
    }
}
