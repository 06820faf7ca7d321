// A map of which the copies may differ: they are made equal, and then its lost runs go back.
ghost use Rattle.std.specs.Prelude.{◌≡◌, ◌≤◌, ◌+◌, ◌*◌, IfOk, IsFalse, IsTrue, OnOk};
ghost use Rattle.std.specs.Option.{ForSome};
ghost use Rattle.fc_device.specs.Calls.{FailsByFault, SameForm, StopsAndExitsLeave};
ghost use Rattle.fc_record.specs.Kinds.{is_boot};
ghost use Rattle.fc_newmap.specs.Copies.{ChangesCopies, HoldsCopies};
ghost use Rattle.fc_reclaim.specs.Kept.{IsReadyBy, KeepsOwned, KeepsOwnedAll};
ghost use Rattle.fc_reclaim.specs.Map.{IsReclaimed, bits_back};
ghost use Rattle.fc_reclaim.specs.Reclaiming.{CanReclaim, CountsIn, HasReclaimed, KeepsContent, LeavesOwned, ReclaimsMap};

use crate::boot::find_boot;
use crate::map::reclaim_zones;
use fc_alloc::Owners;
use fc_device::{Disk, DiskFault};
use fc_newmap::{NewMap, Which, repair};

// Makes the copies of a map equal, if one counts from which the other may differ.
fn match_copies<D: Disk>(disk: &mut D, map: &NewMap, which: Option<Which>) -> Result<(), DiskFault>
    requires attached { IsTrue (D.attached disk.old) }
    requires settled { IsFalse (D.pending disk.old) }
    requires size { D.sector_size disk.old ≡ map.now.geometry.sector }
    requires on_disk { map.now.geometry.map_sector + 2 * map.now.geometry.zones ≤ D.sectors disk.old }
    requires known { ForSome (D.bytes disk.old) (CountsIn map.now which) }
    ensures keeps { StopsAndExitsLeave D.Disk disk.old disk.new (λ was image. CountsIn map.now which was → KeepsContent map.now was image) }
    ensures equal { OnOk result (ForSome (D.bytes disk.new) (HoldsCopies map.now.geometry map.now.zones)) }
    ensures durable { OnOk result (IsFalse (D.pending disk.new)) }
    ensures form { SameForm D.Disk disk.old disk.new }
    ensures cause { FailsByFault D.Disk disk.old disk.new result }
{
    match which {
        None => Ok(()),
        Some(which) => repair(disk, map.geometry(), which),
    }
}

// Makes the copies of a map equal, and gives its lost runs back. Answers their bits.
fn reclaim_copies<D: Disk>(
    disk: &mut D,
    map: &mut NewMap,
    which: Option<Which>,
    owners: &Owners,
    boot: bool,
) -> Result<u64, DiskFault>
    requires attached { IsTrue (D.attached disk.old) }
    requires settled { IsFalse (D.pending disk.old) }
    requires size { D.sector_size disk.old ≡ map.old.geometry.sector }
    requires on_disk { map.old.geometry.map_sector + 2 * map.old.geometry.zones ≤ D.sectors disk.old }
    requires ready { ForSome (D.bytes disk.old) (CanReclaim map.old which owners.now) }
    requires boot { ForSome (D.bytes disk.old) (λ image. boot ≡ is_boot image) }
    ensures keeps { StopsAndExitsLeave D.Disk disk.old disk.new (KeepsOwned boot owners.now map.old.geometry) }
    ensures ready { OnOk result (ForSome (D.bytes disk.new) (IsReadyBy boot map.new owners.now)) }
    ensures reclaimed { OnOk result (IsReclaimed boot owners.now map.old map.new) }
    ensures bits { IfOk result (λ bits. (bits ≡ bits_back boot owners.now map.old) × (bits ≤ map.old.geometry.disc_bits)) }
    ensures geometry { map.new.geometry ≡ map.old.geometry }
    ensures durable { OnOk result (IsFalse (D.pending disk.new)) }
    ensures form { SameForm D.Disk disk.old disk.new }
    ensures cause { FailsByFault D.Disk disk.old disk.new result }
{
    map.is_map();
    match_copies(disk, map, which)?;
    reclaim_zones(disk, map, owners, boot)
}

// Looks for a boot block, makes the copies equal, and gives the lost runs of a map back. Answers their bytes.
fn reclaim_runs<D: Disk>(
    disk: &mut D,
    map: &mut NewMap,
    which: Option<Which>,
    owners: &Owners,
) -> Result<u64, DiskFault>
    requires attached { IsTrue (D.attached disk.old) }
    requires settled { IsFalse (D.pending disk.old) }
    requires size { D.sector_size disk.old ≡ map.old.geometry.sector }
    requires on_disk { map.old.geometry.map_sector + 2 * map.old.geometry.zones ≤ D.sectors disk.old }
    requires ready { ForSome (D.bytes disk.old) (CanReclaim map.old which owners.now) }
    ensures keeps { StopsAndExitsLeave D.Disk disk.old disk.new (KeepsOwnedAll owners.now map.old.geometry) }
    ensures done { IfOk result (HasReclaimed D.Disk disk.old disk.new map.old map.new owners.now) }
    ensures geometry { map.new.geometry ≡ map.old.geometry }
    ensures durable { OnOk result (IsFalse (D.pending disk.new)) }
    ensures form { SameForm D.Disk disk.old disk.new }
    ensures cause { FailsByFault D.Disk disk.old disk.new result }
{
    let g = *map.geometry();
    let boot = find_boot(disk, g.sector)?;
    let bits = reclaim_copies(disk, map, which, owners, boot)?;
    Ok(bits * g.bit_bytes)
}

/// Gives the space of lost identifiers back on a disc with this map, of which nothing is pending: if one copy of the map counts,
/// the other is made equal first, then in each zone the runs of identifiers that no object owns become holes, joined with all
/// holes that they touch, and the zone is committed. Identifiers 1 and 2 stay, and so does a lost run that holds a sector of the
/// map, or of a boot block that fits, whatever kind the disc was opened as (docs/FORMAT.md, "Kinds"). Answers the bytes given
/// back. No memory is needed.
///
/// The disk is attached, has the geometry's sectors and holds both copies. If its bytes are known, they are an image that opens as
/// a kind by this map, and these are the owners of its objects.
///
/// A crash at any moment leaves the same tree and the extents and bytes of every identifier that is owned, and of 1 and 2, and so
/// does every exit; no sector but those of the two copies changes. It fails only if the disk's count of faults rose; what the map
/// holds is then not said, but for its geometry.
pub fn reclaim_map<D: Disk>(
    disk: &mut D,
    map: &mut NewMap,
    which: Option<Which>,
    owners: &Owners,
) -> Result<u64, DiskFault>
    requires attached { IsTrue (D.attached disk.old) }
    requires settled { IsFalse (D.pending disk.old) }
    requires size { D.sector_size disk.old ≡ map.old.geometry.sector }
    requires on_disk { map.old.geometry.map_sector + 2 * map.old.geometry.zones ≤ D.sectors disk.old }
    requires ready { ForSome (D.bytes disk.old) (CanReclaim map.old which owners.now) }
    ensures owned { StopsAndExitsLeave D.Disk disk.old disk.new (LeavesOwned map.old owners.now) }
    ensures frame { StopsAndExitsLeave D.Disk disk.old disk.new (ChangesCopies map.old.geometry) }
    ensures reclaimed { IfOk result (λ bytes. ForSome (D.bytes disk.old) (λ was. ForSome (D.bytes disk.new) (ReclaimsMap map.old map.new owners.now bytes was))) }
    ensures done { IfOk result (HasReclaimed D.Disk disk.old disk.new map.old map.new owners.now) }
    ensures geometry { map.new.geometry ≡ map.old.geometry }
    ensures durable { OnOk result (IsFalse (D.pending disk.new)) }
    ensures form { SameForm D.Disk disk.old disk.new }
    ensures cause { FailsByFault D.Disk disk.old disk.new result }
{
    reclaim_runs(disk, map, which, owners)
}
