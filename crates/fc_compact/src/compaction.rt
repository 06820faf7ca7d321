// Compaction of a whole map.
ghost use Rattle.std.specs.Prelude.{◌≡◌, ◌<◌, ◌≤◌, ◌+◌, ◌*◌, ◌%◌, false, get_or, ℕ, Contains, IsTrue, IsFalse, OnOk, IfOk};
ghost use Rattle.std.specs.Option.{ForSome};
ghost use Rattle.fc_device.specs.Calls.{FailsByFault, SameForm, StopsAndExitsLeave};
ghost use Rattle.fc_newmap.specs.Map.{id_runs};
ghost use Rattle.fc_image.specs.Layout.{Layout, disc_sectors};
ghost use Rattle.fc_image.specs.Moves.{KeepsObjects};
ghost use Rattle.fc_compact.specs.Ready.{IsReady, Stands, is_movable_by};
ghost use Rattle.fc_compact.specs.Compaction.{ChangesLoose, CompactedBy, IsSettledBy, ZoneStays};
ghost use Rattle.fc_compact.specs.Candidates.{AreSettledZones, AreTakenIn, IsSurvey, Tries, TriesAll, places};
ghost use Rattle.fc_compact.specs.Steps.{MoveKeeps, Packs};

use crate::counts::may_have_several;
use crate::joins::join_listed;
use crate::laws;
use crate::listed::has_several;
use crate::settlement::{is_movable, settle_all};
use crate::survey::Survey;
use fc_alloc::{Owner, Owners};
use fc_device::{Disk, DiskFault};
use fc_newmap::NewMap;

// Joins the runs of an identifier, if it has several and the longest hole holds them. Answers whether it did.
fn join_one<D: Disk>(
    disk: &mut D,
    map: &mut NewMap,
    owners: &Owners,
    id: u32,
    survey: &mut Survey,
) -> Result<bool, DiskFault>
    requires stands { Stands D.Disk disk.old map.old owners.now }
    requires survey { IsSurvey map.old survey.old }
    requires taken { 2 ≤ get_or survey.old.seen (id % places) 0 → Contains survey.old.candidates.ids.items id }
    ensures keeps { MoveKeeps D.Disk disk.old disk.new map.old map.new owners.now result }
    ensures tries { IfOk result (Tries owners.now map.old map.new id) }
    ensures survey { OnOk result (IsSurvey map.new survey.new) }
    ensures seen { survey.new.seen ≡ survey.old.seen }
    ensures ids { survey.new.candidates.ids ≡ survey.old.candidates.ids }
{
    laws();
    map.is_map();
    if !may_have_several(&survey.seen, id) {
        return Ok(false);
    }
    if !is_movable(owners, id) {
        return Ok(false);
    }
    let Some((zone, hole)) = survey.best else {
        return Ok(false);
    };
    let zones = survey.candidates.zones_of(id);
    if zones.is_full() {
        return Ok(false);
    }
    if !has_several(map, id, zones, hole.len) {
        return Ok(false);
    }
    join_listed(disk, map, owners, id, zone, hole.start, zones)?;
    survey.follow(map, id, zone);
    Ok(true)
}

// Tries the identifiers of these owners once, which a survey has taken in. Answers whether one was joined.
fn join_some<D: Disk>(
    disk: &mut D,
    map: &mut NewMap,
    owners: &Owners,
    list: &[Owner],
    survey: &mut Survey,
) -> Result<bool, DiskFault>
    requires stands { Stands D.Disk disk.old map.old owners.now }
    requires survey { IsSurvey map.old survey.old }
    requires taken { AreTakenIn survey.old.seen survey.old.candidates.ids.items list.now }
    ensures keeps { MoveKeeps D.Disk disk.old disk.new map.old map.new owners.now result }
    ensures tries { IfOk result (TriesAll owners.now list.now map.old map.new) }
    ensures survey { OnOk result (IsSurvey map.new survey.new) }
{
    laws();
    map.is_map();
    let mut any = false;
    for owner in list {
        let joined = join_one(disk, map, owners, owner.id, survey)?;
        any |= joined;
    }
    Ok(any)
}

// Tries the identifiers of these owners once. Answers whether one was joined.
fn join_pass<D: Disk>(
    disk: &mut D,
    map: &mut NewMap,
    owners: &Owners,
    list: &[Owner],
) -> Result<bool, DiskFault>
    requires stands { Stands D.Disk disk.old map.old owners.now }
    ensures keeps { MoveKeeps D.Disk disk.old disk.new map.old map.new owners.now result }
    ensures tries { IfOk result (TriesAll owners.now list.now map.old map.new) }
{
    laws();
    map.is_map();
    let mut survey = Survey::of(map);
    let mut left = list;
    let mut any = false;
    while !left.is_empty() {
        let count = survey.take_in(map, left);
        let (now, later) = left.split_at(count);
        let joined = join_some(disk, map, owners, now, &mut survey)?;
        any |= joined;
        left = later;
    }
    Ok(any)
}

// Joins the identifiers for which there is room, and settles the zones after all of them: what lies behind the holes that
// they left slides once, and not once for each.
fn join_and_settle<D: Disk>(
    disk: &mut D,
    map: &mut NewMap,
    owners: &Owners,
    list: &[Owner],
) -> Result<(), DiskFault>
    requires stands { Stands D.Disk disk.old map.old owners.now }
    ensures keeps { MoveKeeps D.Disk disk.old disk.new map.old map.new owners.now result }
    ensures packs { OnOk result (Packs owners.now map.old map.new) }
    ensures done { OnOk result (AreSettledZones owners.now map.new) }
{
    laws();
    map.is_map();
    join_pass(disk, map, owners, list)?;
    settle_all(disk, map, owners)
}

/// Slides runs into the holes before them, joins what touches, and moves identifiers of several runs into holes that hold
/// them, until nothing is left to do. No memory is taken.
///
/// The disk is attached, has the geometry's sectors and holds the disc and both copies, and nothing is pending. If its
/// bytes are known, they are an image that opens as a kind by this map, with two equal and sound copies of it, and
/// these are the owners of its objects; at Ok this is so again, by the map as it is then.
///
/// After a crash at any moment and at every exit the image opens as before, with every object at its address and with its bytes. It
/// fails only if the disk's count of faults rose; what the map holds is then not said, but for its geometry.
pub fn compact<D: Disk>(disk: &mut D, map: &mut NewMap, owners: &Owners) -> Result<(), DiskFault>
    requires stands { Stands D.Disk disk.old map.old owners.now }
    ensures keeps { StopsAndExitsLeave D.Disk disk.old disk.new (KeepsObjects map.old.geometry) }
    ensures frame { StopsAndExitsLeave D.Disk disk.old disk.new (ChangesLoose map.old owners.now) }
    ensures ready { OnOk result (ForSome (D.bytes disk.new) (IsReady map.new owners.now)) }
    ensures settled { OnOk result (IsSettledBy map.new owners.now) }
    ensures compacted { OnOk result (CompactedBy map.old map.new owners.now) }
    ensures fixed { OnOk result ((id : ℕ) → is_movable_by owners.now id ≡ false → id_runs map.new id ≡ id_runs map.old id) }
    ensures zones { OnOk result ((z : ℕ) → z < map.old.geometry.zones → ZoneStays map.old map.new z) }
    ensures geometry { map.new.geometry ≡ map.old.geometry }
    ensures durable { OnOk result (IsFalse (D.pending disk.new)) }
    ensures form { SameForm D.Disk disk.old disk.new }
    ensures cause { FailsByFault D.Disk disk.old disk.new result }
{
    laws();
    map.is_map();
    let list = owners.list();
    let mut any = true;
    while any {
        join_and_settle(disk, map, owners, list)?;
        any = join_pass(disk, map, owners, list)?;
    }
    Ok(())
}
