// `reclaim`.
ghost use Rattle.std.specs.Prelude.{◌≡◌, ◌⊎◌, ◌↔◌, ◌≤◌, ◌+◌, ◌*◌, true, false, Some, Err, IfErr, IfOk, IsFalse, IsTrue, OnOk};
ghost use Rattle.std.specs.Option.{ForSome};
ghost use Rattle.fc_device.specs.Calls.{FailsByFault, SameForm, StopsAndExitsLeave};
ghost use Rattle.fc_newmap.specs.Map.{Map};
ghost use Rattle.fc_newmap.specs.Copies.{ChangesCopies};
ghost use Rattle.fc_image.specs.Layout.{Layout, sector_bytes};
ghost use Rattle.fc_image.specs.Stays.{IsNewLayout};
ghost use Rattle.fc_reclaim.specs.Reclaiming.{CanReclaim, LeavesOwned};
ghost use Rattle.fc_space.specs.Space.{layout_of};
ghost use Rattle.fc_holdings.specs.Holdings.{HoldsMap};
ghost use Rattle.fc_volume.specs.Volume.{StandsFor, parts_of};
ghost use Rattle.fc_volume.specs.Reclaiming.{HasGeometryOf, HasGivenBack, HasReclaimed, LeavesOwnedOf, ReclaimKeeps, reclaim_refusal, which_in};

use crate::{CommandError, Copies, Volume};
use fc_alloc::Owners;
use fc_bytes::are_bytes;
use fc_device::{Disk, DiskFault};
use fc_names::Refusal;
use fc_newmap::{NewMap, Which};
use fc_reclaim::reclaim_map;
use fc_space::{Places, Space};

// The copy of a map that counts, if the other may differ from it.
fn which_of(copies: Copies) -> Option<Which>
    ensures { result ≡ which_in copies }
{
    match copies {
        Copies::Equal => None,
        Copies::Chosen(which) => Some(which),
    }
}

// Gives the lost runs of a map back, whose record keeps the disc's version.
fn reclaim_runs<D: Disk>(
    disk: &mut D,
    map: &mut NewMap,
    which: Option<Which>,
    owners: &Owners,
) -> Result<u64, DiskFault>
    requires attached { IsTrue (D.attached disk.old) }
    requires settled { IsFalse (D.pending disk.old) }
    requires size { D.sector_size disk.old ≡ map.old.geometry.sector }
    requires on_disk { map.old.geometry.map_sector + 2 * map.old.geometry.zones ≤ D.sectors disk.old }
    requires ready { ForSome (D.bytes disk.old) (CanReclaim map.old which owners.now) }
    ensures owned { StopsAndExitsLeave D.Disk disk.old disk.new (LeavesOwned map.old owners.now) }
    ensures frame { StopsAndExitsLeave D.Disk disk.old disk.new (ChangesCopies map.old.geometry) }
    ensures given { IfOk result (λ bytes. HasGivenBack D.Disk map.old map.new owners.now bytes disk.old disk.new) }
    ensures geometry { map.new.geometry ≡ map.old.geometry }
    ensures durable { OnOk result (IsFalse (D.pending disk.new)) }
    ensures form { SameForm D.Disk disk.old disk.new }
    ensures cause { FailsByFault D.Disk disk.old disk.new result }
{
    map.is_map();
    are_bytes(map.bytes(0));
    let given = reclaim_map(disk, map, which, owners)?;
    are_bytes(map.bytes(0));
    Ok(given)
}

// Gives the lost runs of a disc with a new map back. The map has no index afterwards.
fn reclaim_places<D: Disk>(
    disk: &mut D,
    places: &mut Places,
    which: Option<Which>,
    owners: &Owners,
) -> Result<u64, DiskFault>
    requires attached { IsTrue (D.attached disk.old) }
    requires settled { IsFalse (D.pending disk.old) }
    requires size { D.sector_size disk.old ≡ sector_bytes (layout_of places.old) }
    requires map_room { HoldsMap (layout_of places.old) (D.sectors disk.old) }
    requires new_map { IsNewLayout (layout_of places.old) }
    requires ready { (m : Map) → layout_of places.old ≡ Layout.New m → ForSome (D.bytes disk.old) (CanReclaim m which owners.now) }
    ensures owned { (m : Map) → layout_of places.old ≡ Layout.New m → StopsAndExitsLeave D.Disk disk.old disk.new (LeavesOwned m owners.now) }
    ensures frame { (m : Map) → layout_of places.old ≡ Layout.New m → StopsAndExitsLeave D.Disk disk.old disk.new (ChangesCopies m.geometry) }
    ensures given { IfOk result (λ bytes. (m : Map) → layout_of places.old ≡ Layout.New m
        → (m' : Map) × (layout_of places.new ≡ Layout.New m') × HasGivenBack D.Disk m m' owners.now bytes disk.old disk.new) }
    ensures geometry { HasGeometryOf (layout_of places.old) (layout_of places.new) }
    ensures durable { OnOk result (IsFalse (D.pending disk.new)) }
    ensures form { SameForm D.Disk disk.old disk.new }
    ensures cause { FailsByFault D.Disk disk.old disk.new result }
{
    match places.edit() {
        Space::NewMapped(map) => reclaim_runs(disk, map, which, owners),
        Space::OldMapped(_) => unreachable!(),
    }
}

// Whether a disc has an old map.
fn has_old_map(places: &Places) -> bool
    ensures old_map { result ≡ true → IsNewLayout (layout_of places.now) → ⊥ }
    ensures new_map { result ≡ false → IsNewLayout (layout_of places.now) }
{
    matches!(places.space(), Space::OldMapped(_))
}

/// Gives the space of lost identifiers back on a disc with a new map, of which nothing is pending: copies of the map that may
/// differ are made equal first, then in each zone the runs of identifiers that no object owns become holes, joined with all
/// holes that they touch, and the zone is committed. Identifiers 1 and 2 stay, and so does a lost run that holds a sector of
/// the map, or of a boot block that fits, whatever kind the disc was opened as (docs/FORMAT.md, "Kinds"). Answers the bytes
/// given back. No memory is needed; the index of the map is made again when it is needed next.
///
/// A crash at any moment leaves the same tree and the extents and bytes of every identifier that is owned, and of 1 and 2, and
/// so does every exit; no sector but those of the map changes.
///
/// The refusals are `ReadOnly`, exactly if the volume may not be changed, and after it `NotNewMap`, exactly if the disc has an
/// old map; nothing is done then. `DiskFault` only if the disk's count of faults rose; the volume is unfit afterwards.
pub fn reclaim<D: Disk>(volume: &mut Volume, disk: &mut D) -> Result<u64, CommandError>
    requires attached { IsTrue (D.attached disk.old) }
    requires settled { IsFalse (D.pending disk.old) }
    requires fit { IsTrue volume.old.fit }
    requires stands { StandsFor D.Disk volume.old disk.old }
    ensures refused { (reason : Refusal) → (result ≡ Err (CommandError.Refused reason)) ↔ (reclaim_refusal volume.old.read_only (parts_of volume.old).layout ≡ Some reason) }
    ensures errors { IfErr result (λ error. ((reason : Refusal) × (error ≡ CommandError.Refused reason)) ⊎ (error ≡ CommandError.DiskFault)) }
    ensures reclaimed { IfOk result (λ bytes. HasReclaimed D.Disk (parts_of volume.old) (parts_of volume.new) bytes disk.old disk.new) }
    ensures owned { IsNewLayout (parts_of volume.old).layout → StopsAndExitsLeave D.Disk disk.old disk.new (LeavesOwnedOf (parts_of volume.old)) }
    ensures frame { (m : Map) → (parts_of volume.old).layout ≡ Layout.New m → StopsAndExitsLeave D.Disk disk.old disk.new (ChangesCopies m.geometry) }
    ensures keeps { ReclaimKeeps D.Disk disk.old disk.new volume.old volume.new result }
{
    if volume.read_only {
        return Err(CommandError::Refused(Refusal::ReadOnly));
    }
    if has_old_map(&volume.holdings.places) {
        return Err(CommandError::Refused(Refusal::NotNewMap));
    }
    let which = which_of(volume.holdings.copies);
    match reclaim_places(
        disk,
        &mut volume.holdings.places,
        which,
        &volume.holdings.owners,
    ) {
        Ok(bytes) => {
            volume.holdings.copies = Copies::Equal;
            Ok(bytes)
        }
        Err(DiskFault) => {
            volume.fit = false;
            Err(CommandError::DiskFault)
        }
    }
}
