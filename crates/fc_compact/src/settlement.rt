// A zone whose runs slide and are joined until nothing is left to do in it.
ghost use Rattle.std.specs.Prelude.{◌≡◌, ◌<◌, ◌≤◌, ◌+◌, ◌*◌, ◌++◌, ◌∷◌, ◌||◌, ◌&&◌, ℕ, List, IsTrue, IsFalse, OnOk, IfOk};
ghost use Rattle.std.specs.Option.{ForSome};
ghost use Rattle.fc_device.specs.Calls.{FailsByFault, SameForm, StopsAndExitsLeave};
ghost use Rattle.fc_zone.specs.declared.Run.{Run};
ghost use Rattle.fc_newmap.specs.Map.{runs_of};
ghost use Rattle.fc_image.specs.Layout.{Layout, disc_sectors};
ghost use Rattle.fc_image.specs.effects.Settled.{can_slide, passes_adjacent};
ghost use Rattle.fc_compact.specs.Compaction.{is_done_by};
ghost use Rattle.fc_compact.specs.Ready.{Stands, is_movable_by};
ghost use Rattle.fc_compact.specs.Joins.{joined};
ghost use Rattle.fc_compact.specs.Slides.{HasRuns};
ghost use Rattle.fc_compact.specs.Steps.{MoveKeeps, Packs};

use crate::laws;
use crate::longest::ZONES;
use crate::lookup::walk_in;
use crate::rounds::{gather, gather_rounds};
use crate::slides::{commit_zone, slide};
use fc_alloc::Owners;
use fc_device::{Disk, DiskFault};
use fc_newmap::{MAP_ID, NewMap, Walk};
use fc_record::Geometry;
use fc_zone::{Run, RunKind};

/// What is left to do between a run and the next.
#[derive(Clone, Copy, Debug, PartialEq, Eq)]
pub enum Step {
    Done,
    Merge,
    Slide,
}

/// What became of a run and the next: the run from which to go on, and whether anything has changed.
#[derive(Clone, Copy, Debug)]
pub struct Stepped {
    pub run: Run,
    pub changed: bool,
}

ghost use Rattle.fc_compact.specs.Settlement.{CanMergeRuns, IsSettledZone, Passes, StepIs, Steps};

// Whether an identifier may move by these owners.
pub fn is_movable(owners: &Owners, id: u32) -> bool
    ensures { result ≡ is_movable_by owners.now id }
{
    owners.owned(id) && MAP_ID < id
}

// Whether a run of `len` bits can slide into a hole of `hole` bits.
fn can_slide(g: &Geometry, hole: u32, len: u32) -> bool
    ensures { result ≡ can_slide g.now hole len }
{
    len <= hole || 2 * u64::from(g.min) <= u64::from(len)
}

// What is left to do between a run and the next.
fn step_of(g: &Geometry, owners: &Owners, run: Run, next: Run) -> Step
    ensures { StepIs g.now owners.now run next result }
{
    match run.kind {
        RunKind::Hole => match next.kind {
            RunKind::Hole => Step::Merge,
            RunKind::Id(id) => {
                if is_movable(owners, id) && can_slide(g, run.len, next.len) {
                    Step::Slide
                } else {
                    Step::Done
                }
            }
        },
        RunKind::Id(id) => match next.kind {
            RunKind::Hole => Step::Done,
            RunKind::Id(other) => {
                if id == other && is_movable(owners, id) {
                    Step::Merge
                } else {
                    Step::Done
                }
            }
        },
    }
}

// Joins a run with the next, which is of its kind, and commits the zone.
fn merge_runs<D: Disk>(
    disk: &mut D,
    map: &mut NewMap,
    owners: &Owners,
    z: u16,
    one: Run,
    two: Run,
) -> Result<(), DiskFault>
    requires stands { Stands D.Disk disk.old map.old owners.now }
    requires runs { CanMergeRuns map.old owners.now z one two }
    ensures keeps { MoveKeeps D.Disk disk.old disk.new map.old map.new owners.now result }
    ensures packs { OnOk result (Packs owners.now map.old map.new) }
    ensures runs { OnOk result ((front rest : List Run) → HasRuns map.old z (front ++ one ∷ two ∷ rest) → HasRuns map.new z (front ++ joined one two ∷ rest)) }
    ensures others { OnOk result ((y : ℕ) → (y ≡ z → ⊥) → runs_of map.new y ≡ runs_of map.old y) }
{
    laws();
    map.is_map();
    map.merge(z, one.start);
    commit_zone(disk, map, z)
}

// Takes the step that is left between a run and the next, if one is.
fn settle_pair<D: Disk>(
    disk: &mut D,
    map: &mut NewMap,
    owners: &Owners,
    z: u16,
    run: Run,
    next: Run,
) -> Result<Stepped, DiskFault>
    requires stands { Stands D.Disk disk.old map.old owners.now }
    requires zone { z < map.old.geometry.zones }
    requires pair { (front rest : List Run) × HasRuns map.old z (front ++ run ∷ next ∷ rest) }
    ensures keeps { MoveKeeps D.Disk disk.old disk.new map.old map.new owners.now result }
    ensures steps { IfOk result (Steps owners.now map.old map.new z run next) }
{
    laws();
    map.is_map();
    match step_of(map.geometry(), owners, run, next) {
        Step::Done => Ok(Stepped {
            run: next,
            changed: false,
        }),
        Step::Merge => {
            merge_runs(disk, map, owners, z, run, next)?;
            Ok(Stepped {
                run: Run {
                    len: run.len + next.len,
                    ..run
                },
                changed: true,
            })
        }
        Step::Slide => {
            slide(disk, map, owners, z, run.start)?;
            Ok(Stepped {
                run: Run {
                    start: run.start + next.len,
                    ..run
                },
                changed: true,
            })
        }
    }
}

// Passes over the runs of a zone once, and takes the steps that are left. Answers whether one was.
fn settle_pass<D: Disk>(
    disk: &mut D,
    map: &mut NewMap,
    owners: &Owners,
    z: u16,
) -> Result<bool, DiskFault>
    requires stands { Stands D.Disk disk.old map.old owners.now }
    requires zone { z < map.old.geometry.zones }
    ensures keeps { MoveKeeps D.Disk disk.old disk.new map.old map.new owners.now result }
    ensures passes { IfOk result (Passes owners.now map.old map.new z) }
{
    laws();
    let walk = Walk::from_zone(map, z, 0);
    let shape = walk.shape;
    let mut place = walk.place;
    let Some(first) = place.next(map.bytes(z), &shape) else {
        return Ok(false);
    };
    let mut run = first;
    let mut changed = false;
    while let Some(next) = place.next(map.bytes(z), &shape) {
        let step = settle_pair(disk, map, owners, z, run, next)?;
        run = step.run;
        changed |= step.changed;
    }
    Ok(changed)
}

// Whether nothing is left to do between a run and the next.
fn is_done(g: &Geometry, owners: &Owners, run: Run, next: Run) -> bool
    ensures { result ≡ is_done_by g.now owners.now run next }
{
    matches!(step_of(g, owners, run, next), Step::Done)
}

// Whether nothing is left to do in a zone.
fn is_settled_in(map: &NewMap, owners: &Owners, z: u16) -> bool
    requires { z < map.now.geometry.zones }
    ensures { result ≡ passes_adjacent (is_done_by map.now.geometry owners.now) (runs_of map.now z) }
{
    let mut walk = walk_in(map, z);
    let Some((_, first)) = walk.next(map) else {
        return true;
    };
    let mut run = first;
    while let Some((_, next)) = walk.next(map) {
        if !is_done(map.geometry(), owners, run, next) {
            return false;
        }
        run = next;
    }
    true
}

// The end of the range that is one zone.
fn end_of(g: &Geometry, z: u16) -> u16
    requires { z < g.now.zones }
    ensures { result ≡ z + 1 }
{
    let after = g.zones - z - 1;
    g.zones - after
}

// Takes the steps that are left in a zone: all that one commit can, or if it can none, one after another. Answers whether one
// was taken.
fn settle_more<D: Disk>(
    disk: &mut D,
    map: &mut NewMap,
    owners: &Owners,
    z: u16,
    quiet: &mut [bool; ZONES],
) -> Result<bool, DiskFault>
    requires stands { Stands D.Disk disk.old map.old owners.now }
    requires zone { z < map.old.geometry.zones }
    ensures keeps { MoveKeeps D.Disk disk.old disk.new map.old map.new owners.now result }
    ensures passes { IfOk result (Passes owners.now map.old map.new z) }
{
    laws();
    map.is_map();
    let end = end_of(map.geometry(), z);
    quiet[z as usize] = false;
    let gathered = gather(disk, map, owners, z, end, quiet)?;
    if gathered.any {
        return Ok(true);
    }
    settle_pass(disk, map, owners, z)
}

// Passes over a zone until nothing is left to do in it.
fn settle_zone<D: Disk>(
    disk: &mut D,
    map: &mut NewMap,
    owners: &Owners,
    z: u16,
    quiet: &mut [bool; ZONES],
) -> Result<(), DiskFault>
    requires stands { Stands D.Disk disk.old map.old owners.now }
    requires zone { z < map.old.geometry.zones }
    ensures keeps { MoveKeeps D.Disk disk.old disk.new map.old map.new owners.now result }
    ensures packs { OnOk result (Packs owners.now map.old map.new) }
    ensures others { OnOk result ((y : ℕ) → (y ≡ z → ⊥) → runs_of map.new y ≡ runs_of map.old y) }
    ensures done { OnOk result (IsSettledZone owners.now map.new z) }
{
    laws();
    map.is_map();
    while !is_settled_in(map, owners, z) {
        settle_more(disk, map, owners, z, quiet)?;
    }
    Ok(())
}

/// Slides runs into the holes before them, and joins holes that touch and runs of one movable identifier that touch, zone
/// after zone, until nothing is left to do between a run and the next. No run leaves its zone, and no memory is taken.
///
/// The disk is attached, has the geometry's sectors and holds the disc and both copies, and nothing is pending. If its
/// bytes are known, they are an image that opens as a kind by this map, with two equal and sound copies of it, and
/// these are the owners of its objects; at Ok this is so again, by the map as it is then.
///
/// After a crash at any moment and at every exit the image opens as before, with every object at its address and with its bytes, and
/// what lies outside the map, holes and movable identifiers is as it was. It fails only if the disk's count of faults rose; what
/// the map holds is then not said, but for its geometry.
pub fn settle_all<D: Disk>(disk: &mut D, map: &mut NewMap, owners: &Owners) -> Result<(), DiskFault>
    requires stands { Stands D.Disk disk.old map.old owners.now }
    ensures keeps { MoveKeeps D.Disk disk.old disk.new map.old map.new owners.now result }
    ensures packs { OnOk result (Packs owners.now map.old map.new) }
    ensures done { OnOk result ((z : ℕ) → z < map.new.geometry.zones → IsSettledZone owners.now map.new z) }
{
    laws();
    map.is_map();
    let zones = map.geometry().zones;
    let mut quiet = [false; ZONES];
    gather_rounds(disk, map, owners, &mut quiet)?;
    for z in 0..zones {
        settle_zone(disk, map, owners, z, &mut quiet)?;
    }
    Ok(())
}
