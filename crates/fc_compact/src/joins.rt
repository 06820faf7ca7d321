// All runs of an identifier that are joined into one.
ghost use Rattle.std.specs.Prelude.{◌≡◌, ◌<◌, ◌≤◌, ◌+◌, ◌*◌, ◌%◌, ◌^◌, ◌++◌, ◌∷◌, [], ℕ, List, true, length, All, Contains, IsTrue, IsFalse, OnOk, ◌⊎◌, ◌-◌, ◌==◌, ◌||◌, nat_lt, if◌then◌else◌};
ghost use Rattle.std.specs.Option.{ForSome};
ghost use Rattle.fc_zone.specs.declared.Run.{Run};
ghost use Rattle.fc_zone.specs.declared.RunKind.TheVariants.{Id};
ghost use Rattle.fc_newmap.specs.Map.{bits_in, hole_runs, id_runs, runs_of};
ghost use Rattle.fc_image.specs.Layout.{Layout, disc_sectors, hole_sectors, id_sectors, is_among};
ghost use Rattle.fc_image.specs.effects.Moves.{Joined, with_holes_joined};
ghost use Rattle.fc_image.specs.effects.Placed.{front_of};
ghost use Rattle.fc_image.specs.effects.Settled.{zones_with};
ghost use Rattle.fc_compact.specs.Ready.{IsReady, Stands};
ghost use Rattle.fc_compact.specs.Slides.{IsPart, run_at};
ghost use Rattle.fc_compact.specs.Steps.{Leads, MoveKeeps};

use crate::copy::copy_row;
use crate::holes::join_holes;
use crate::laws;
use crate::listed::{ListedRuns, bits_of};
use crate::lookup::{with_zone, zones_of};
use crate::release::{release_all, take_front};
use arrayvec::ArrayVec;
use fc_alloc::Owners;
use fc_device::{Disk, DiskFault};
use fc_newmap::{NewMap, commit, extent_of};
use fc_zone::{Run, RunKind};

// Copies the sectors of all runs of an identifier, which stand in these zones, in their order into a hole, to those from sector
// `to` on, and syncs once.
pub fn copy_runs<D: Disk>(
    disk: &mut D,
    map: &NewMap,
    owners: &Owners,
    id: u32,
    zones: &ArrayVec<u16, 9>,
    to: u64,
) -> Result<(), DiskFault>
    requires stands { Stands D.Disk disk.old map.now owners.now }
    requires zones { HoldsRuns map.now id zones.now.items }
    requires to_on_disc { to + length (id_sectors map.now id) ≤ disc_sectors (Layout.New map.now) }
    requires hole { (i : ℕ) → i < length (id_sectors map.now id) → is_among (hole_sectors (Layout.New map.now)) (to + i) ≡ true }
    ensures keeps { MoveKeeps D.Disk disk.old disk.new map.now map.now owners.now result }
    ensures still_ready { ForSome (D.bytes disk.new) (IsReady map.now owners.now) }
    ensures put { OnOk result (ForSome (D.bytes disk.new) (ArePut map.now.geometry.sector to (id_sectors map.now id))) }
{
    laws();
    let g = *map.geometry();
    let mut runs = ListedRuns::start(map, id, zones);
    let mut at = to;
    while let Some((z, run)) = runs.next(map) {
        let from = extent_of(&g, z, run);
        copy_row(disk, g.sector, from.first, at, from.sectors)?;
        at += from.sectors;
    }
    disk.sync()?;
    Ok(())
}

/// The runs of an identifier that become one run: in which zone it starts where, its bits, and those that are left of the
/// hole in which it stands at the front.
#[derive(Clone, Copy, Debug)]
struct JoinedRun {
    id: u32,
    zone: u16,
    start: u32,
    len: u32,
    left: u32,
}

ghost use Rattle.fc_compact.specs.Joins.{ArePut, AreJoinZones, CanJoin, HoldsRuns, IsJoin, TakesFront, all_freed, changed_runs};

// Moves all runs of an identifier into one run at the front of a hole, by one commit of the zones of a list, in which all of
// them stand and the hole too. There no two holes touch afterwards.
fn join_into<D: Disk>(
    disk: &mut D,
    map: &mut NewMap,
    owners: &Owners,
    join: JoinedRun,
    changed: &ArrayVec<u16, 9>,
) -> Result<(), DiskFault>
    requires stands { Stands D.Disk disk.old map.old owners.now }
    requires join { IsJoin map.old owners.now join }
    requires zones { AreJoinZones map.old join changed.now.items }
    ensures keeps { MoveKeeps D.Disk disk.old disk.new map.old map.new owners.now result }
    ensures one { OnOk result (id_runs map.new join.id ≡ (join.zone, run_at join.start join.len join.id) ∷ []) }
    ensures others { OnOk result ((k : ℕ) → (k ≡ join.id → ⊥) → id_runs map.new k ≡ id_runs map.old k) }
    ensures taken { OnOk result (TakesFront map.old map.new join) }
    ensures freed { OnOk result ((y : ℕ) → (y ≡ join.zone → ⊥) → runs_of map.new y ≡ changed_runs (λ runs. with_holes_joined (all_freed join.id runs)) changed.now.items y (runs_of map.old y)) }
    ensures leads { OnOk result (Leads owners.now map.old map.new) }
{
    laws();
    let g = *map.geometry();
    let JoinedRun {
        id,
        zone,
        start,
        len,
        left,
    } = join;
    let hole = Run {
        start,
        len,
        kind: RunKind::Hole,
    };
    let to = extent_of(&g, zone, hole);
    copy_runs(disk, map, owners, id, changed, to.first)?;
    let zones = changed.as_slice();
    release_all(map, zones, id);
    take_front(map, zone, start, id, len, left);
    join_holes(map, zones);
    commit(disk, map, changed)
}

// How many bits of a hole of `size` bits are taken for `bits` bits: all, if less than min would stay.
fn front_len(size: u32, bits: u32, min: u32) -> u32
    requires fits { bits + min < 2 ^ 32 }
    requires room { bits ≤ size }
    ensures value { result ≡ (if nat_lt size (bits + min) then size else bits) }
    ensures enough { bits ≤ result }
    ensures within { result ≤ size }
    ensures left { IsPart min (size - result) }
    ensures which { (result ≡ size) ⊎ (result ≡ bits) }
{
    if size < bits + min { size } else { bits }
}

// Moves all runs of a movable identifier, which stand in these zones, into one run at the start of a hole, as `join` does.
pub fn join_listed<D: Disk>(
    disk: &mut D,
    map: &mut NewMap,
    owners: &Owners,
    id: u32,
    zone: u16,
    hole: u32,
    zones: &ArrayVec<u16, 9>,
) -> Result<(), DiskFault>
    requires stands { Stands D.Disk disk.old map.old owners.now }
    requires runs { CanJoin map.old owners.now id zone hole }
    requires zones { zones.now.items ≡ zones_with map.old id }
    ensures keeps { MoveKeeps D.Disk disk.old disk.new map.old map.new owners.now result }
    ensures one { (run : Run) → Contains (hole_runs map.old) (zone, run) → run.start ≡ hole
        → OnOk result (id_runs map.new id ≡ (zone, record (front_of map.old.geometry (bits_in (id_runs map.old id)) (zone, run)).1 { kind = Id id }) ∷ []) }
    ensures others { OnOk result ((k : ℕ) → (k ≡ id → ⊥) → id_runs map.new k ≡ id_runs map.old k) }
    ensures joined { (run : Run) → Contains (hole_runs map.old) (zone, run) → run.start ≡ hole → OnOk result (Joined map.old map.new id (zone, run)) }
    ensures leads { OnOk result (Leads owners.now map.old map.new) }
{
    let min = map.geometry().min;
    let bits = bits_of(map, id, zones);
    let gap = map.run_from(zone, hole);
    let len = front_len(gap.len, bits, min);
    let changed = with_zone(zones, zone);
    let join = JoinedRun {
        id,
        zone,
        start: hole,
        len,
        left: gap.len - len,
    };
    join_into(disk, map, owners, join, &changed)
}

/// Moves all runs of a movable identifier into one run at the start of a hole that has room for them, by one commit; the
/// whole hole is taken if less than min would stay. In the zones that this changes, no two holes touch afterwards. The hole
/// begins at `hole` in the zone, and the runs stand in at most eight zones.
///
/// The other conditions are those of `slide`. After a crash at any moment and at every exit the image opens as before, with
/// every object at its address and with its bytes, and what lies outside the map, holes and movable identifiers is as it
/// was. It fails only if the disk's count of faults rose; what the map holds is then not said, but for its geometry.
pub fn join<D: Disk>(
    disk: &mut D,
    map: &mut NewMap,
    owners: &Owners,
    id: u32,
    zone: u16,
    hole: u32,
) -> Result<(), DiskFault>
    requires stands { Stands D.Disk disk.old map.old owners.now }
    requires runs { CanJoin map.old owners.now id zone hole }
    ensures keeps { MoveKeeps D.Disk disk.old disk.new map.old map.new owners.now result }
    ensures one { (run : Run) → Contains (hole_runs map.old) (zone, run) → run.start ≡ hole
        → OnOk result (id_runs map.new id ≡ (zone, record (front_of map.old.geometry (bits_in (id_runs map.old id)) (zone, run)).1 { kind = Id id }) ∷ []) }
    ensures others { OnOk result ((k : ℕ) → (k ≡ id → ⊥) → id_runs map.new k ≡ id_runs map.old k) }
    ensures joined { (run : Run) → Contains (hole_runs map.old) (zone, run) → run.start ≡ hole → OnOk result (Joined map.old map.new id (zone, run)) }
    ensures leads { OnOk result (Leads owners.now map.old map.new) }
{
    let zones = zones_of(map, id);
    join_listed(disk, map, owners, id, zone, hole, &zones)
}
