// A run that slides into the hole before it, piece by piece.
ghost use Rattle.std.specs.Prelude.{◌≡◌, ◌≢◌, ◌⊎◌, ◌<◌, ◌≤◌, ◌+◌, ◌-◌, ◌*◌, ◌%◌, ◌^◌, ◌++◌, ◌∷◌, [], ℕ, List, IsTrue, IsFalse, OnOk};
ghost use Rattle.std.specs.Option.{ForSome};
ghost use Rattle.fc_device.specs.Calls.{FailsByFault, SameForm, StopsAndExitsLeave};
ghost use Rattle.fc_zone.specs.declared.Run.{Run};
ghost use Rattle.fc_zone.specs.declared.RunKind.TheVariants.{Id};
ghost use Rattle.fc_newmap.specs.Edits.{KeepsRuns};
ghost use Rattle.fc_newmap.specs.NewMap.{IsNewMap};
ghost use Rattle.fc_newmap.specs.Map.{extent_of, runs_of};
ghost use Rattle.fc_newmap.specs.Walk.{IsInZone};
ghost use Rattle.fc_newmap.specs.declared.copies.Which.TheVariants.{One};
ghost use Rattle.fc_newmap.specs.Committing.{CanWrite, KeepsContents};
ghost use Rattle.fc_newmap.specs.Copies.{CommitEnds, CommitLeaves, copy_of};
ghost use Rattle.fc_image.specs.effects.Moves.{Slid};
ghost use Rattle.fc_compact.specs.Ready.{Stands, is_movable_by};
ghost use Rattle.fc_compact.specs.Slides.{CanShift, CanSlide, HasShifted, IsPart, IsSlide, run_at};
ghost use Rattle.fc_compact.specs.Steps.{Leads, MoveKeeps};

use crate::copy::copy_into;
use crate::laws;
use crate::shift::{Slide, shift};
use arrayvec::ArrayVec;
use fc_alloc::Owners;
use fc_device::{Disk, DiskFault, Extent};
use fc_newmap::{NewMap, commit, extent_of};
use fc_zone::{Run, RunKind};

// Commits one zone of a map.
pub fn commit_zone<D: Disk>(disk: &mut D, map: &mut NewMap, z: u16) -> Result<(), DiskFault>
    requires attached { IsTrue (D.attached disk.old) }
    requires settled { IsFalse (D.pending disk.old) }
    requires size { D.sector_size disk.old ≡ map.old.geometry.sector }
    requires on_disk { map.old.geometry.map_sector + 2 * map.old.geometry.zones ≤ D.sectors disk.old }
    requires zone { z < map.old.geometry.zones }
    requires ready { ForSome (D.bytes disk.old) (CanWrite map.old (z ∷ [])) }
    ensures runs { KeepsRuns map.old map.new }
    ensures contents { KeepsContents map.old map.new }
    ensures keeps { StopsAndExitsLeave D.Disk disk.old disk.new (λ start image.
        CommitLeaves map.old.geometry start (copy_of map.old.geometry One start) map.new.zones image) }
    ensures ends { OnOk result (ForSome (D.bytes disk.old) (λ start. ForSome (D.bytes disk.new) (CommitEnds map.old.geometry start map.new.zones))) }
    ensures durable { OnOk result (IsFalse (D.pending disk.new)) }
    ensures form { SameForm D.Disk disk.old disk.new }
    ensures cause { FailsByFault D.Disk disk.old disk.new result }
{
    let mut changed: ArrayVec<u16, 9> = ArrayVec::new();
    changed.push(z);
    commit(disk, map, &changed)
}

// The sectors of so many bits of a slide's zone, from a place on.
fn extent_at(map: &NewMap, slide: Slide, start: u32, len: u32) -> Extent
    requires { IsInZone map.now.geometry (slide.zone, run_at start len slide.id) }
    ensures { result ≡ extent_of map.now.geometry (slide.zone, run_at start len slide.id) }
{
    let run = Run {
        start,
        len,
        kind: RunKind::Id(slide.id),
    };
    extent_of(map.geometry(), slide.zone, run)
}

// Moves the hole of a slide `n` bits up over the run that follows it, of which `done` bits stand before it: copies these bits
// into the hole, and commits the zone, in which they join what has slid before.
fn slide_piece<D: Disk>(
    disk: &mut D,
    map: &mut NewMap,
    owners: &Owners,
    slide: Slide,
    done: u32,
    n: u32,
) -> Result<(), DiskFault>
    requires stands { Stands D.Disk disk.old map.old owners.now }
    requires movable { IsTrue (is_movable_by owners.now slide.id) }
    requires shift { CanShift map.old slide done n }
    requires some { 0 < n }
    requires few { n ≤ slide.hole }
    requires done_whole { done % map.old.geometry.q ≡ 0 }
    requires piece_whole { n % map.old.geometry.q ≡ 0 }
    ensures keeps { MoveKeeps D.Disk disk.old disk.new map.old map.new owners.now result }
    ensures shifted { OnOk result (HasShifted map.old map.new slide done n) }
    ensures others { OnOk result ((y : ℕ) → y ≢ slide.zone → runs_of map.new y ≡ runs_of map.old y) }
    ensures leads { OnOk result (Leads owners.now map.old map.new) }
{
    laws();
    map.is_map();
    let place = slide.start + done;
    let from = extent_at(map, slide, place + slide.hole, n);
    let to = extent_at(map, slide, place, n);
    copy_into(disk, map, owners, from.first, to.first, to.sectors)?;
    shift(map, slide, done, n);
    commit_zone(disk, map, slide.zone)
}

// The hole that begins there, and the run that follows it.
fn slide_at(map: &NewMap, zone: u16, start: u32) -> Slide
    requires map { IsNewMap map.now }
    requires zone { zone < map.now.geometry.zones }
    requires run { (front rest : List Run) × ((hole run : Run) × ((id : ℕ) × ((runs_of map.now zone ≡ front ++ hole ∷ run ∷ rest) × (hole.start ≡ start) × (run.kind ≡ Id id)))) }
    ensures { (front rest : List Run) (hole run : Run) (id : ℕ) → runs_of map.now zone ≡ front ++ hole ∷ run ∷ rest → hole.start ≡ start → run.kind ≡ Id id
        → result ≡ record { zone = zone; start = start; id = id; hole = hole.len; len = run.len } }
{
    let hole = map.run_from(zone, start);
    let none = Slide {
        zone,
        start,
        id: 0,
        hole: hole.len,
        len: 0,
    };
    let Some(run) = map.next_in(zone, hole) else {
        return none;
    };
    let RunKind::Id(id) = run.kind else {
        return none;
    };
    Slide {
        id,
        len: run.len,
        ..none
    }
}

// How many bits of a run of which `left` bits are left move next into a hole: at most the hole's, and so many that a run
// remains, if any bits do.
fn next_piece(hole: u32, left: u32, min: u32) -> u32
    requires some { 0 < min }
    requires hole { min ≤ hole }
    requires left { min ≤ left }
    ensures some { 0 < result }
    ensures within { result ≤ left }
    ensures few { result ≤ hole }
    ensures rest { IsPart min (left - result) }
    ensures which { (result ≡ left) ⊎ ((result ≡ hole) ⊎ ((hole < left) × (result ≡ left - min))) }
{
    if left <= hole {
        left
    } else {
        hole.min(left - min)
    }
}

// Slides a run into the hole before it, in pieces no longer than the hole.
fn slide_run<D: Disk>(
    disk: &mut D,
    map: &mut NewMap,
    owners: &Owners,
    slide: Slide,
) -> Result<(), DiskFault>
    requires stands { Stands D.Disk disk.old map.old owners.now }
    requires slide { IsSlide map.old owners.now slide }
    ensures keeps { MoveKeeps D.Disk disk.old disk.new map.old map.new owners.now result }
    ensures shifted { OnOk result (HasShifted map.old map.new slide 0 slide.len) }
    ensures others { OnOk result ((y : ℕ) → y ≢ slide.zone → runs_of map.new y ≡ runs_of map.old y) }
    ensures leads { OnOk result (Leads owners.now map.old map.new) }
{
    laws();
    map.is_map();
    let min = map.geometry().min;
    let mut done = 0;
    while done < slide.len {
        let n = next_piece(slide.hole, slide.len - done, min);
        slide_piece(disk, map, owners, slide, done, n)?;
        done += n;
    }
    Ok(())
}

/// Moves the movable run that follows a hole to the hole's start, in pieces no longer than the hole, so that the hole
/// follows the run. The hole begins at `hole` in the zone, and the run is no longer than it, or can be cut in two.
///
/// The disk is attached, has the geometry's sectors and holds the disc and both copies, and nothing is pending. If its
/// bytes are known, they are an image that opens as a kind by this map, with two equal and sound copies of it, and
/// these are the owners of its objects; at Ok this is so again, by the map as it is then.
///
/// After a crash at any moment and at every exit the image opens as before, with every object at its address and with its bytes, and
/// what lies outside the map, holes and movable identifiers is as it was. It fails only if the disk's count of faults rose; what
/// the map holds is then not said, but for its geometry.
pub fn slide<D: Disk>(
    disk: &mut D,
    map: &mut NewMap,
    owners: &Owners,
    zone: u16,
    hole: u32,
) -> Result<(), DiskFault>
    requires stands { Stands D.Disk disk.old map.old owners.now }
    requires zone { zone < map.old.geometry.zones }
    requires run { CanSlide map.old owners.now zone hole }
    ensures keeps { MoveKeeps D.Disk disk.old disk.new map.old map.new owners.now result }
    ensures slid { OnOk result (Slid map.old map.new zone hole) }
    ensures leads { OnOk result (Leads owners.now map.old map.new) }
{
    map.is_map();
    let slide = slide_at(map, zone, hole);
    slide_run(disk, map, owners, slide)
}
