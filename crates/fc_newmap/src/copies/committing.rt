// A map that is written into both copies.
ghost use Rattle.std.specs.Prelude.{◌≡◌, ◌<◌, ◌≤◌, ◌+◌, ◌^◌, [], All, length, IsTrue, IsFalse, IsOk, OnOk};
ghost use Rattle.std.specs.List.Sorted.{IsStrictlyIncreasing};
ghost use Rattle.std.specs.Option.{ForSome};
ghost use Rattle.fc_device.specs.Calls.{FailsByFault, SameForm, StopsAndExitsLeave};
ghost use Rattle.fc_newmap.specs.Edits.{KeepsRuns};
ghost use Rattle.fc_newmap.specs.Map.{sector_of, with_zone};
ghost use Rattle.fc_newmap.specs.NewMap.{IsNewMap};
ghost use Rattle.fc_newmap.specs.Committing.{CanWrite, KeepsContents, TakesCopies};
ghost use Rattle.fc_newmap.specs.Copies.{copy_of, sealed_zones, ChangesCopies, CommitEnds, CommitLeaves};
ghost use Rattle.fc_newmap.specs.declared.copies.Which.TheVariants.{One};
ghost use Rattle.fc_newmap.specs.Gate.{gate_delta, gated, gated_sector};
ghost use Rattle.fc_newmap.specs.Passes.{HasEach, HasPassedBoth, IsPartWritten, PassesBoth};

use super::reading::start_of;
use crate::{NewMap, Which};
use arrayvec::ArrayVec;
use fc_device::{Disk, DiskFault};

/// The place of CrossCheck in a zone's sector.
const CROSS_CHECK: usize = 3;

// What the CrossCheck of the i-th of k zones is exclusively ored with, counted from 0.
fn delta_of(k: usize, i: usize) -> u8
    requires within { i < k }
    requires few { k ≤ 9 }
    ensures { result ≡ gate_delta k i }
{
    if i + 1 == k {
        ((1u16 << i) - 1) as u8
    } else {
        1 << i
    }
}

// Turns the CrossCheck of a zone by a delta, and sets its ZoneCheck.
fn turn(map: &mut NewMap, z: u16, delta: u8)
    requires zone { z < map.old.geometry.zones }
    requires header { 3 < map.old.geometry.sector }
    ensures map { map.new ≡ with_zone map.old z (gated_sector (sector_of map.old z) delta) }
    ensures runs { KeepsRuns map.old map.new }
    ensures contents { KeepsContents map.old map.new }
{
    let cross = map.bytes(z)[CROSS_CHECK];
    map.set_cross(z, cross ^ delta);
    map.seal(z);
}

// Turns the CrossChecks of the zones, so that no mix of old and new ones is sound, and sets their ZoneChecks.
fn gate_zones(map: &mut NewMap, changed: &[u16])
    requires few { length changed.now ≤ 9 }
    requires header { 3 < map.old.geometry.sector }
    requires zones { All (λ z. z < map.old.geometry.zones) changed.now }
    ensures map { map.new ≡ record map.old { zones = gated changed.now map.old.zones } }
    ensures runs { KeepsRuns map.old map.new }
    ensures contents { KeepsContents map.old map.new }
{
    map.is_map();
    for (i, z) in changed.iter().enumerate() {
        turn(map, *z, delta_of(changed.len(), i));
    }
}

// Sets the ZoneChecks of the zones.
fn seal_zones(map: &mut NewMap, changed: &[u16])
    requires zones { All (λ z. z < map.old.geometry.zones) changed.now }
    ensures map { map.new ≡ record map.old { zones = sealed_zones changed.now map.old.zones } }
    ensures runs { KeepsRuns map.old map.new }
    ensures contents { KeepsContents map.old map.new }
{
    map.is_map();
    for z in changed {
        map.seal(*z);
    }
}

// Writes these zones into the copy that begins at sector `start`, and syncs.
fn write_zones<D: Disk>(
    disk: &mut D,
    map: &NewMap,
    start: u64,
    changed: &[u16],
) -> Result<(), DiskFault>
    requires attached { IsTrue (D.attached disk.old) }
    requires settled { IsFalse (D.pending disk.old) }
    requires size { D.sector_size disk.old ≡ map.now.geometry.sector }
    requires on_disk { start + map.now.geometry.zones ≤ D.sectors disk.old }
    requires fits { start + map.now.geometry.zones < 2 ^ 64 }
    requires zones { All (λ z. z < map.now.geometry.zones) changed.now }
    ensures keeps { StopsAndExitsLeave D.Disk disk.old disk.new (IsPartWritten (D.sector_size disk.old) start 0 map.now.geometry.zones (sector_of map.now)) }
    ensures written { OnOk result (ForSome (D.bytes disk.old) (λ was. ForSome (D.bytes disk.new) (HasEach (D.sector_size disk.old) start changed.now (sector_of map.now)))) }
    ensures durable { OnOk result (IsFalse (D.pending disk.new)) }
    ensures form { SameForm D.Disk disk.old disk.new }
    ensures read_calls { D.read_calls disk.new ≡ D.read_calls disk.old }
    ensures cause { FailsByFault D.Disk disk.old disk.new result }
{
    for z in changed {
        disk.write(start + u64::from(*z), map.bytes(*z))?;
    }
    disk.sync()?;
    Ok(())
}

// Writes these zones into copy 1, syncs, then writes them into copy 2, and syncs. For no zones it does nothing.
fn write_both<D: Disk>(disk: &mut D, map: &NewMap, changed: &[u16]) -> Result<(), DiskFault>
    requires disk { TakesCopies D.Disk disk.old map.now.geometry }
    requires zones { All (λ z. z < map.now.geometry.zones) changed.now }
    ensures keeps { StopsAndExitsLeave D.Disk disk.old disk.new (PassesBoth map.now.geometry changed.now (sector_of map.now)) }
    ensures map { IsNewMap map.now }
    ensures nothing { changed.now ≡ [] → IsOk result × (disk.new ≡ disk.old) }
    ensures written { OnOk result (ForSome (D.bytes disk.old) (λ was. ForSome (D.bytes disk.new) (HasPassedBoth map.now.geometry changed.now (sector_of map.now) was))) }
    ensures durable { OnOk result (IsFalse (D.pending disk.new)) }
    ensures form { SameForm D.Disk disk.old disk.new }
    ensures read_calls { D.read_calls disk.new ≡ D.read_calls disk.old }
    ensures cause { FailsByFault D.Disk disk.old disk.new result }
{
    let one = start_of(map.geometry(), Which::One);
    let two = start_of(map.geometry(), Which::Two);
    if changed.is_empty() {
        return Ok(());
    }
    write_zones(disk, map, one, changed)?;
    write_zones(disk, map, two, changed)
}

/// Writes the changed zones of a map into both copies, so that a crash leaves the old map or the new one, whole
/// (docs/FORMAT.md, "Two copies"). `changed` is a rising list of zones; for none nothing is written, and the answer is
/// Ok. The disk is attached, has the geometry's sectors and holds both copies, and nothing is pending. If the disk tells
/// its bytes, the two copies are equal and sound, the map has their CrossChecks, and its zones that aren't listed are
/// theirs.
///
/// The CrossChecks of the listed zones are turned first, so that no mix of old and new zones is sound, and their
/// ZoneChecks are set; this is what the map holds afterwards, whatever the answer: all its runs and all other bytes
/// stay. Then copy 1 is written, and copy 2 once it stands. At every crash and at every exit the copy that counts is the
/// old map or the new one, each sector of the two copies is as before or as in the map, none of copy 2 is new before
/// copy 1 is whole, and no sector outside the two copies changes. Nothing is read. It fails only if the disk's count of
/// faults rose.
pub fn commit<D: Disk>(
    disk: &mut D,
    map: &mut NewMap,
    changed: &ArrayVec<u16, 9>,
) -> Result<(), DiskFault>
    requires disk { TakesCopies D.Disk disk.old map.old.geometry }
    requires rising { IsStrictlyIncreasing changed.now.items }
    requires zones { All (λ z. z < map.old.geometry.zones) changed.now.items }
    requires ready { ForSome (D.bytes disk.old) (CanWrite map.old changed.now.items) }
    ensures map { map.new ≡ record map.old { zones = gated changed.now.items map.old.zones } }
    ensures runs { KeepsRuns map.old map.new }
    ensures contents { KeepsContents map.old map.new }
    ensures keeps { StopsAndExitsLeave D.Disk disk.old disk.new (λ start image.
        CommitLeaves map.old.geometry start (copy_of map.old.geometry One start) map.new.zones image) }
    ensures passes { StopsAndExitsLeave D.Disk disk.old disk.new (PassesBoth map.old.geometry changed.now.items (sector_of map.new)) }
    ensures nothing { changed.now.items ≡ [] → IsOk result × (disk.new ≡ disk.old) }
    ensures ends { OnOk result (ForSome (D.bytes disk.old) (λ start. ForSome (D.bytes disk.new) (CommitEnds map.old.geometry start map.new.zones))) }
    ensures durable { OnOk result (IsFalse (D.pending disk.new)) }
    ensures form { SameForm D.Disk disk.old disk.new }
    ensures read_calls { D.read_calls disk.new ≡ D.read_calls disk.old }
    ensures cause { FailsByFault D.Disk disk.old disk.new result }
{
    gate_zones(map, changed);
    write_both(disk, map, changed)
}

/// Writes any number of changed zones of a map into both copies, without the gate: what a crash leaves of the two copies
/// is not promised. The conditions are those of `commit`, but that the list may have any order; for no zones nothing is
/// written, and the answer is Ok. The ZoneChecks of the listed zones are set, and their CrossChecks stay, and with them
/// the total.
///
/// At every crash and at every exit no sector outside the two copies changes, and at the end both copies are the map.
/// Nothing is read. It fails only if the disk's count of faults rose.
pub fn commit_wide<D: Disk>(
    disk: &mut D,
    map: &mut NewMap,
    changed: &Vec<u16>,
) -> Result<(), DiskFault>
    requires disk { TakesCopies D.Disk disk.old map.old.geometry }
    requires zones { All (λ z. z < map.old.geometry.zones) changed.now.items }
    requires ready { ForSome (D.bytes disk.old) (CanWrite map.old changed.now.items) }
    ensures map { map.new ≡ record map.old { zones = sealed_zones changed.now.items map.old.zones } }
    ensures runs { KeepsRuns map.old map.new }
    ensures contents { KeepsContents map.old map.new }
    ensures frame { StopsAndExitsLeave D.Disk disk.old disk.new (ChangesCopies map.old.geometry) }
    ensures nothing { changed.now.items ≡ [] → IsOk result × (disk.new ≡ disk.old) }
    ensures ends { OnOk result (ForSome (D.bytes disk.old) (λ start. ForSome (D.bytes disk.new) (CommitEnds map.old.geometry start map.new.zones))) }
    ensures durable { OnOk result (IsFalse (D.pending disk.new)) }
    ensures form { SameForm D.Disk disk.old disk.new }
    ensures read_calls { D.read_calls disk.new ≡ D.read_calls disk.old }
    ensures cause { FailsByFault D.Disk disk.old disk.new result }
{
    seal_zones(map, changed);
    write_both(disk, map, changed)
}
