// Compaction.
ghost use Rattle.std.specs.Prelude.{◌≡◌, ◌⊎◌, ◌↔◌, ◌≤◌, ◌+◌, ◌*◌, true, Err, IfErr, OnOk, IsTrue, IsFalse};
ghost use Rattle.std.specs.Option.{ForSome};
ghost use Rattle.fc_device.specs.Calls.{FailsByFault, SameForm, StopsAndExitsLeave};
ghost use Rattle.fc_newmap.specs.Map.{Map};
ghost use Rattle.fc_image.specs.Layout.{Layout, disc_sectors, sector_bytes};
ghost use Rattle.fc_image.specs.Moves.{KeepsObjects};
ghost use Rattle.fc_image.specs.Stays.{IsNewLayout};
ghost use Rattle.fc_compact.specs.Compaction.{ChangesLoose};
ghost use Rattle.fc_space.specs.Space.{layout_of};
ghost use Rattle.fc_holdings.specs.Holdings.{HoldsMap};
ghost use Rattle.fc_volume.specs.Changing.{KeepsVolume};
ghost use Rattle.fc_volume.specs.Compacting.{CanCompact, HasCompacted, IsDone, KeepsDisc};
ghost use Rattle.fc_volume.specs.Volume.{StandsFor, parts_of};

use crate::{CommandError, Copies, Volume};
use fc_alloc::Owners;
use fc_bytes::are_bytes;
use fc_compact::compact;
use fc_device::{Disk, DiskFault};
use fc_names::Refusal;
use fc_newmap::NewMap;
use fc_space::{Places, Space};
use fc_writing::match_copies;
use std::alloc::Global;

// Makes the copies of a map equal and compacts it.
fn compact_map<D: Disk>(
    disk: &mut D,
    map: &mut NewMap,
    copies: Copies,
    owners: &Owners,
) -> Result<(), DiskFault>
    requires attached { IsTrue (D.attached disk.old) }
    requires settled { IsFalse (D.pending disk.old) }
    requires size { D.sector_size disk.old ≡ map.old.geometry.sector }
    requires on_disk { map.old.geometry.map_sector + 2 * map.old.geometry.zones ≤ D.sectors disk.old }
    requires disc { disc_sectors (Layout.New map.old) ≤ D.sectors disk.old }
    requires ready { ForSome (D.bytes disk.old) (CanCompact map.old copies owners.now) }
    ensures exits { KeepsDisc D.Disk map.old owners.now disk.old disk.new }
    ensures done { OnOk result (IsDone D.Disk map.old map.new owners.now disk.new) }
    ensures durable { OnOk result (IsFalse (D.pending disk.new)) }
    ensures form { SameForm D.Disk disk.old disk.new }
    ensures cause { FailsByFault D.Disk disk.old disk.new result }
{
    fc_image::commits();
    fc_image::keeps_objects();
    fc_image::maps();
    map.is_map();
    are_bytes(map.bytes(0));
    match_copies(disk, map, copies)?;
    compact(disk, map, owners)?;
    are_bytes(map.bytes(0));
    Ok(())
}

// The map of a disc with a new map: makes its copies equal and compacts it. It has no index afterwards.
fn compact_places<D: Disk>(
    disk: &mut D,
    places: &mut Places,
    copies: Copies,
    owners: &Owners,
) -> Result<(), DiskFault>
    requires attached { IsTrue (D.attached disk.old) }
    requires settled { IsFalse (D.pending disk.old) }
    requires size { D.sector_size disk.old ≡ sector_bytes (layout_of places.old) }
    requires room { disc_sectors (layout_of places.old) ≤ D.sectors disk.old }
    requires map_room { HoldsMap (layout_of places.old) (D.sectors disk.old) }
    requires new_map { IsNewLayout (layout_of places.old) }
    requires ready { (m : Map) → layout_of places.old ≡ Layout.New m → ForSome (D.bytes disk.old) (CanCompact m copies owners.now) }
    ensures exits { (m : Map) → layout_of places.old ≡ Layout.New m → KeepsDisc D.Disk m owners.now disk.old disk.new }
    ensures done { OnOk result ((m : Map) → layout_of places.old ≡ Layout.New m → (m' : Map) × (layout_of places.new ≡ Layout.New m') × IsDone D.Disk m m' owners.now disk.new) }
    ensures new_map { IsNewLayout (layout_of places.new) }
    ensures durable { OnOk result (IsFalse (D.pending disk.new)) }
    ensures form { SameForm D.Disk disk.old disk.new }
    ensures cause { FailsByFault D.Disk disk.old disk.new result }
{
    match places.edit() {
        Space::NewMapped(map) => compact_map(disk, map, copies, owners),
        Space::OldMapped(_) => unreachable!(),
    }
}

impl Volume {
    /// Compacts a disc with a new map, of which nothing is pending: copies of the map that may differ are made equal first,
    /// then objects move into holes until nothing is left to do. A crash at any moment leaves every object with its address
    /// and its bytes, and so does every exit; no sector changes but those of the map, of holes and of what may move.
    ///
    /// The only refusal is `ReadOnly`, exactly if the volume may not be changed; nothing is done then. `DiskFault` only if
    /// the disk's count of faults rose; the volume is unfit afterwards. No memory is needed: `alloc` gives that of the index
    /// of the map, which is left out if memory is short.
    pub fn compact<D: Disk>(&mut self, alloc: Global, disk: &mut D) -> Result<(), CommandError>
        requires attached { IsTrue (D.attached disk.old) }
        requires settled { IsFalse (D.pending disk.old) }
        requires fit { IsTrue self.old.fit }
        requires stands { StandsFor D.Disk self.old disk.old }
        requires new_map { IsNewLayout (parts_of self.old).layout }
        ensures refused { (result ≡ Err (CommandError.Refused Refusal.ReadOnly)) ↔ (self.old.read_only ≡ true) }
        ensures errors { IfErr result (λ error. (error ≡ CommandError.Refused Refusal.ReadOnly) ⊎ (error ≡ CommandError.DiskFault)) }
        ensures compacted { OnOk result (HasCompacted D.Disk (parts_of self.old) (parts_of self.new) disk.old disk.new) }
        ensures objects { (m : Map) → (parts_of self.old).layout ≡ Layout.New m → StopsAndExitsLeave D.Disk disk.old disk.new (KeepsObjects m.geometry) }
        ensures frame { (m : Map) → (parts_of self.old).layout ≡ Layout.New m → StopsAndExitsLeave D.Disk disk.old disk.new (ChangesLoose m self.old.owners) }
        ensures tree { self.new.tree ≡ self.old.tree }
        ensures keeps { KeepsVolume D.Disk disk.old disk.new self.old self.new result }
    {
        fc_image::keeps_objects();
        fc_image::one_map();
        fc_compact::by_owners();
        if self.read_only {
            return Err(CommandError::Refused(Refusal::ReadOnly));
        }
        match compact_places(
            disk,
            &mut self.holdings.places,
            self.holdings.copies,
            &self.holdings.owners,
        ) {
            Ok(()) => {
                self.holdings.copies = Copies::Equal;
                let _ = self.holdings.places.index(alloc);
                Ok(())
            }
            Err(DiskFault) => {
                self.fit = false;
                Err(CommandError::DiskFault)
            }
        }
    }
}
