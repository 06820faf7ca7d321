// The lost runs of a map, which go back zone by zone.
ghost use Rattle.std.specs.Prelude.{◌≡◌, ◌<◌, ◌≤◌, ◌+◌, ◌*◌, ◌∷◌, [], IfOk, IsFalse, IsTrue, OnOk};
ghost use Rattle.std.specs.Option.{ForSome};
ghost use Rattle.fc_device.specs.Calls.{FailsByFault, SameForm, StopsAndExitsLeave};
ghost use Rattle.fc_record.specs.Record.{end_bit, first_bit};
ghost use Rattle.fc_newmap.specs.Edits.{KeepsRuns};
ghost use Rattle.fc_newmap.specs.Map.{bits_in, runs_of};
ghost use Rattle.fc_newmap.specs.declared.copies.Which.TheVariants.{One};
ghost use Rattle.fc_newmap.specs.Committing.{CanWrite, KeepsContents};
ghost use Rattle.fc_newmap.specs.Copies.{CommitEnds, CommitLeaves, copy_of};
ghost use Rattle.fc_reclaim.specs.Kept.{IsReadyBy, KeepsOwned};
ghost use Rattle.fc_reclaim.specs.Lost.{goes_back};
ghost use Rattle.fc_reclaim.specs.Map.{IsReclaimed, IsReclaimedAt, bits_back};
ghost use Rattle.fc_reclaim.specs.Zone.{going};

use crate::zone::reclaim_in;
use arrayvec::ArrayVec;
use fc_alloc::Owners;
use fc_device::{Disk, DiskFault};
use fc_newmap::{NewMap, commit};

// Commits one zone of a map.
fn commit_zone<D: Disk>(disk: &mut D, map: &mut NewMap, z: u16) -> Result<(), DiskFault>
    requires attached { IsTrue (D.attached disk.old) }
    requires settled { IsFalse (D.pending disk.old) }
    requires size { D.sector_size disk.old ≡ map.old.geometry.sector }
    requires on_disk { map.old.geometry.map_sector + 2 * map.old.geometry.zones ≤ D.sectors disk.old }
    requires zone { z < map.old.geometry.zones }
    requires ready { ForSome (D.bytes disk.old) (CanWrite map.old (z ∷ [])) }
    ensures runs { KeepsRuns map.old map.new }
    ensures contents { KeepsContents map.old map.new }
    ensures keeps { StopsAndExitsLeave D.Disk disk.old disk.new (λ start image.
        CommitLeaves map.old.geometry start (copy_of map.old.geometry One start) map.new.zones image) }
    ensures ends { OnOk result (ForSome (D.bytes disk.old) (λ start. ForSome (D.bytes disk.new) (CommitEnds map.old.geometry start map.new.zones))) }
    ensures durable { OnOk result (IsFalse (D.pending disk.new)) }
    ensures form { SameForm D.Disk disk.old disk.new }
    ensures cause { FailsByFault D.Disk disk.old disk.new result }
{
    let mut changed: ArrayVec<u16, 9> = ArrayVec::new();
    changed.push(z);
    commit(disk, map, &changed)
}

// Gives the lost runs of a zone back, and commits the zone if it has any. Answers their bits.
fn reclaim_zone<D: Disk>(
    disk: &mut D,
    map: &mut NewMap,
    owners: &Owners,
    boot: bool,
    z: u16,
) -> Result<u32, DiskFault>
    requires attached { IsTrue (D.attached disk.old) }
    requires settled { IsFalse (D.pending disk.old) }
    requires size { D.sector_size disk.old ≡ map.old.geometry.sector }
    requires on_disk { map.old.geometry.map_sector + 2 * map.old.geometry.zones ≤ D.sectors disk.old }
    requires zone { z < map.old.geometry.zones }
    requires ready { ForSome (D.bytes disk.old) (IsReadyBy boot map.old owners.now) }
    ensures keeps { StopsAndExitsLeave D.Disk disk.old disk.new (KeepsOwned boot owners.now map.old.geometry) }
    ensures ready { OnOk result (ForSome (D.bytes disk.new) (IsReadyBy boot map.new owners.now)) }
    ensures reclaimed { OnOk result (IsReclaimedAt boot owners.now map.old map.new z) }
    ensures bits { IfOk result (λ bits. bits ≡ bits_in (going (goes_back boot owners.now map.old.geometry) z (runs_of map.old z))) }
    ensures short { IfOk result (λ bits. first_bit z + bits ≤ end_bit map.old.geometry z) }
    ensures geometry { map.new.geometry ≡ map.old.geometry }
    ensures durable { OnOk result (IsFalse (D.pending disk.new)) }
    ensures form { SameForm D.Disk disk.old disk.new }
    ensures cause { FailsByFault D.Disk disk.old disk.new result }
{
    map.is_map();
    let bits = reclaim_in(map, z, owners, boot);
    if bits == 0 {
        return Ok(0);
    }
    commit_zone(disk, map, z)?;
    Ok(bits)
}

// Gives the lost runs of all zones back, one zone after another. Answers their bits.
pub fn reclaim_zones<D: Disk>(
    disk: &mut D,
    map: &mut NewMap,
    owners: &Owners,
    boot: bool,
) -> Result<u64, DiskFault>
    requires attached { IsTrue (D.attached disk.old) }
    requires settled { IsFalse (D.pending disk.old) }
    requires size { D.sector_size disk.old ≡ map.old.geometry.sector }
    requires on_disk { map.old.geometry.map_sector + 2 * map.old.geometry.zones ≤ D.sectors disk.old }
    requires ready { ForSome (D.bytes disk.old) (IsReadyBy boot map.old owners.now) }
    ensures keeps { StopsAndExitsLeave D.Disk disk.old disk.new (KeepsOwned boot owners.now map.old.geometry) }
    ensures ready { OnOk result (ForSome (D.bytes disk.new) (IsReadyBy boot map.new owners.now)) }
    ensures reclaimed { OnOk result (IsReclaimed boot owners.now map.old map.new) }
    ensures bits { IfOk result (λ bits. (bits ≡ bits_back boot owners.now map.old) × (bits ≤ map.old.geometry.disc_bits)) }
    ensures geometry { map.new.geometry ≡ map.old.geometry }
    ensures durable { OnOk result (IsFalse (D.pending disk.new)) }
    ensures form { SameForm D.Disk disk.old disk.new }
    ensures cause { FailsByFault D.Disk disk.old disk.new result }
{
    map.is_map();
    let zones = map.geometry().zones;
    let mut total = 0;
    for z in 0..zones {
        total += u64::from(reclaim_zone(disk, map, owners, boot, z)?);
    }
    Ok(total)
}
