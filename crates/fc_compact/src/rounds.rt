// Runs that move up into the holes of their zones, as many as there is room for, by one commit of at most nine zones.
ghost use Rattle.std.specs.Prelude.{◌≡◌, ◌<◌, ◌≤◌, ◌+◌, ◌*◌, ◌++◌, ◌∷◌, [], true, false, ℕ, List, IsTrue, IsFalse, OnOk, IfOk, IfSome};
ghost use Rattle.std.specs.Option.{ForSome};
ghost use Rattle.fc_device.specs.Calls.{FailsByFault, SameForm, StopsAndExitsLeave};
ghost use Rattle.fc_zone.specs.declared.Run.{Run};
ghost use Rattle.fc_newmap.specs.Map.{Map, first_sector, sector_count};
ghost use Rattle.fc_image.specs.Layout.{Layout, disc_sectors};
ghost use Rattle.fc_compact.specs.Copy.{ChangesHoles, IsCopied, TearsRow};
ghost use Rattle.fc_compact.specs.Ready.{HoldsDisc, Stands, is_movable_by};
ghost use Rattle.fc_compact.specs.Slides.{HasRuns};
ghost use Rattle.fc_compact.specs.Settlement.{one_if};
ghost use Rattle.fc_compact.specs.Steps.{MoveKeeps, Packs};

use crate::copy::copy_row;
use crate::holes::join_holes_in;
use crate::laws;
use crate::longest::ZONES;
use crate::lookup::push_if;
use crate::settlement::is_movable;
use crate::shift::{Slide, shift};
use arrayvec::ArrayVec;
use fc_alloc::Owners;
use fc_device::{Disk, DiskFault};
use fc_newmap::{NewMap, Walk, commit, extent_of};
use fc_zone::{Run, RunKind};

/// A run of a zone, and how many bits at its front were a hole when the moves began and are one still.
#[derive(Clone, Copy, Debug)]
pub struct Front {
    pub run: Run,
    pub fresh: u32,
    pub moved: bool,
}

/// How far a gathering came: the zone after those that were looked at, and whether a run was drawn.
#[derive(Clone, Copy, Debug)]
pub struct Gathered {
    pub next: u16,
    pub any: bool,
}

ghost use Rattle.fc_compact.specs.Rounds.{CanDraw, Carrying, Drawn, Fits, Gathers, GathersZones, HasDrawn, HasGathered, IsGathered, Spares, StaysInHoles, all_weight, fresh_of};

// The bits of a run that are a hole.
fn fresh_of(run: Run) -> u32
    ensures { result ≡ fresh_of run }
{
    match run.kind {
        RunKind::Hole => run.len,
        RunKind::Id(_) => 0,
    }
}

// The identifier of the next run, if that may move up into the front of the hole before it.
fn fitting_id(owners: &Owners, run: Run, next: Run, fresh: u32) -> Option<u32>
    ensures { IfSome result (Fits owners.now run next fresh) }
{
    let RunKind::Hole = run.kind else {
        return None;
    };
    let RunKind::Id(id) = next.kind else {
        return None;
    };
    if next.len <= fresh && is_movable(owners, id) {
        Some(id)
    } else {
        None
    }
}

// Copies a run of an identifier into the front of the hole before it, and lets them change places in memory. The sync and
// the commit are left to the caller.
fn draw<D: Disk>(
    disk: &mut D,
    map: &mut NewMap,
    z: u16,
    hole: Run,
    run: Run,
    id: u32,
) -> Result<(), DiskFault>
    requires disc { HoldsDisc D.Disk disk.old map.old }
    requires zone { z < map.old.geometry.zones }
    requires runs { CanDraw map.old z hole run id }
    ensures tears { TearsRow D.Disk disk.old disk.new (first_sector map.old.geometry (z, hole)) (sector_count map.old.geometry (z, run)) }
    ensures copied { OnOk result (ForSome (D.bytes disk.new)
        (IsCopied map.old.geometry.sector (first_sector map.old.geometry (z, run)) (first_sector map.old.geometry (z, hole)) (sector_count map.old.geometry (z, run)))) }
    ensures drawn { OnOk result (Drawn map.old map.new z hole run) }
    ensures geometry { map.new.geometry ≡ map.old.geometry }
    ensures form { SameForm D.Disk disk.old disk.new }
    ensures cause { FailsByFault D.Disk disk.old disk.new result }
{
    map.is_map();
    let g = *map.geometry();
    let from = extent_of(&g, z, run);
    let to = extent_of(
        &g,
        z,
        Run {
            len: run.len,
            ..hole
        },
    );
    copy_row(disk, g.sector, from.first, to.first, from.sectors)?;
    let slide = Slide {
        zone: z,
        start: hole.start,
        id,
        hole: hole.len,
        len: run.len,
    };
    shift(map, slide, 0, run.len);
    Ok(())
}

// Draws the next run into the front of the hole before it, if it may and fits there.
fn gather_pair<D: Disk>(
    disk: &mut D,
    map: &mut NewMap,
    owners: &Owners,
    z: u16,
    run: Run,
    next: Run,
    fresh: u32,
) -> Result<Front, DiskFault>
    requires disc { HoldsDisc D.Disk disk.old map.old }
    requires zone { z < map.old.geometry.zones }
    requires pair { (front rest : List Run) × HasRuns map.old z (front ++ run ∷ next ∷ rest) }
    requires fresh { fresh ≤ run.len }
    ensures tears { TearsRow D.Disk disk.old disk.new (first_sector map.old.geometry (z, run)) (sector_count map.old.geometry (z, record run { len = fresh })) }
    ensures copied { IfOk result (λ s. s.moved ≡ true → ForSome (D.bytes disk.new)
        (IsCopied map.old.geometry.sector (first_sector map.old.geometry (z, next)) (first_sector map.old.geometry (z, run)) (sector_count map.old.geometry (z, next)))) }
    ensures still { IfOk result (λ s. s.moved ≡ false → disk.new ≡ disk.old) }
    ensures gathered { IfOk result (IsGathered owners.now map.old map.new z run next fresh) }
    ensures geometry { map.new.geometry ≡ map.old.geometry }
    ensures form { SameForm D.Disk disk.old disk.new }
    ensures cause { FailsByFault D.Disk disk.old disk.new result }
{
    map.is_map();
    let Some(id) = fitting_id(owners, run, next, fresh) else {
        return Ok(Front {
            run: next,
            fresh: fresh_of(next),
            moved: false,
        });
    };
    draw(disk, map, z, run, next, id)?;
    Ok(Front {
        run: Run {
            start: run.start + next.len,
            ..run
        },
        fresh: fresh - next.len,
        moved: true,
    })
}

// Draws runs up into the holes of a zone, from its front to its back, each into what was a hole when this began. Nothing is
// synced or committed. Answers whether one was.
//
// Before, runs of other zones may have been drawn: what holds of them from a map on holds of these runs too.
fn gather_runs<D: Disk>(
    disk: &mut D,
    map: &mut NewMap,
    owners: &Owners,
    z: u16,
) -> Result<bool, DiskFault>
    requires disc { HoldsDisc D.Disk disk.old map.old }
    requires zone { z < map.old.geometry.zones }
    ensures kept { (m : Map) → Spares m map.old owners.now z → StaysInHoles D.Disk disk.old disk.new m }
    ensures carrying { (m : Map) → Spares m map.old owners.now z → ForSome (D.bytes disk.old) (Carrying m map.old owners.now)
        → OnOk result (ForSome (D.bytes disk.new) (Carrying m map.new owners.now)) }
    ensures gathers { IfOk result (Gathers owners.now map.old map.new z) }
    ensures still { IfOk result (λ any. any ≡ false → disk.new ≡ disk.old) }
    ensures geometry { map.new.geometry ≡ map.old.geometry }
    ensures form { SameForm D.Disk disk.old disk.new }
    ensures cause { FailsByFault D.Disk disk.old disk.new result }
{
    laws();
    let walk = Walk::from_zone(map, z, 0);
    let shape = walk.shape;
    let mut place = walk.place;
    let Some(first) = place.next(map.bytes(z), &shape) else {
        return Ok(false);
    };
    let mut run = first;
    let mut fresh = fresh_of(first);
    let mut any = false;
    while let Some(next) = place.next(map.bytes(z), &shape) {
        let front = gather_pair(disk, map, owners, z, run, next, fresh)?;
        run = front.run;
        fresh = front.fresh;
        any |= front.moved;
    }
    Ok(any)
}

// Draws runs up into the holes of a zone, and joins holes that touch. Nothing is synced or committed. Answers whether a run
// was drawn. A quiet zone, in which none was the last time, is passed by: nothing in it has changed since.
fn gather_zone<D: Disk>(
    disk: &mut D,
    map: &mut NewMap,
    owners: &Owners,
    z: u16,
    quiet: &mut [bool; ZONES],
) -> Result<bool, DiskFault>
    requires disc { HoldsDisc D.Disk disk.old map.old }
    requires zone { z < map.old.geometry.zones }
    ensures kept { (m : Map) → Spares m map.old owners.now z → StaysInHoles D.Disk disk.old disk.new m }
    ensures carrying { (m : Map) → Spares m map.old owners.now z → ForSome (D.bytes disk.old) (Carrying m map.old owners.now)
        → OnOk result (ForSome (D.bytes disk.new) (Carrying m map.new owners.now)) }
    ensures drawn { IfOk result (HasDrawn owners.now map.old map.new z) }
    ensures still { IfOk result (λ any. any ≡ false → disk.new ≡ disk.old) }
    ensures geometry { map.new.geometry ≡ map.old.geometry }
    ensures form { SameForm D.Disk disk.old disk.new }
    ensures cause { FailsByFault D.Disk disk.old disk.new result }
{
    laws();
    map.is_map();
    if quiet[z as usize] {
        return Ok(false);
    }
    let any = gather_runs(disk, map, owners, z)?;
    quiet[z as usize] = !any;
    if !any {
        return Ok(false);
    }
    join_holes_in(map, z);
    Ok(true)
}

// Draws runs up in the zones from `from` on and before `end`, until nine have changed, and lists these. Nothing is synced or
// committed. Answers the zone after those that were looked at.
fn gather_zones<D: Disk>(
    disk: &mut D,
    map: &mut NewMap,
    owners: &Owners,
    from: u16,
    end: u16,
    changed: &mut ArrayVec<u16, 9>,
    quiet: &mut [bool; ZONES],
) -> Result<u16, DiskFault>
    requires disc { HoldsDisc D.Disk disk.old map.old }
    requires settled { IsFalse (D.pending disk.old) }
    requires some { from < end }
    requires end { end ≤ map.old.geometry.zones }
    requires none { changed.old.items ≡ [] }
    ensures kept { StopsAndExitsLeave D.Disk disk.old disk.new (ChangesHoles map.old) }
    ensures carrying { OnOk result (ForSome (D.bytes disk.new) (Carrying map.old map.new owners.now)) }
    ensures gathers { OnOk result (GathersZones owners.now map.old map.new from end changed.new.items) }
    ensures next { IfOk result (λ next. from < next) }
    ensures still { OnOk result (changed.new.items ≡ [] → disk.new ≡ disk.old) }
    ensures geometry { map.new.geometry ≡ map.old.geometry }
    ensures form { SameForm D.Disk disk.old disk.new }
    ensures cause { FailsByFault D.Disk disk.old disk.new result }
{
    laws();
    map.is_map();
    for z in from..end {
        if changed.is_full() {
            return Ok(z);
        }
        let any = gather_zone(disk, map, owners, z, quiet)?;
        push_if(changed, z, any);
    }
    Ok(end)
}

// Draws runs up into the holes of the zones from `from` on and before `end`, until nine zones have changed, joins holes that
// touch, and commits these zones once.
pub fn gather<D: Disk>(
    disk: &mut D,
    map: &mut NewMap,
    owners: &Owners,
    from: u16,
    end: u16,
    quiet: &mut [bool; ZONES],
) -> Result<Gathered, DiskFault>
    requires stands { Stands D.Disk disk.old map.old owners.now }
    requires some { from < end }
    requires end { end ≤ map.old.geometry.zones }
    ensures keeps { MoveKeeps D.Disk disk.old disk.new map.old map.new owners.now result }
    ensures gathered { IfOk result (HasGathered owners.now map.old map.new from end) }
{
    laws();
    map.is_map();
    let mut changed: ArrayVec<u16, 9> = ArrayVec::new();
    let next = gather_zones(disk, map, owners, from, end, &mut changed, quiet)?;
    if changed.is_empty() {
        return Ok(Gathered { next, any: false });
    }
    disk.sync()?;
    commit(disk, map, &changed)?;
    Ok(Gathered { next, any: true })
}

// Draws runs up in all zones, nine zones to a commit. Answers whether one was drawn.
fn gather_all<D: Disk>(
    disk: &mut D,
    map: &mut NewMap,
    owners: &Owners,
    quiet: &mut [bool; ZONES],
) -> Result<bool, DiskFault>
    requires stands { Stands D.Disk disk.old map.old owners.now }
    ensures keeps { MoveKeeps D.Disk disk.old disk.new map.old map.new owners.now result }
    ensures packs { OnOk result (Packs owners.now map.old map.new) }
    ensures falls { IfOk result (λ any. all_weight map.new + one_if any ≤ all_weight map.old) }
{
    laws();
    map.is_map();
    let zones = map.geometry().zones;
    let mut next = 0;
    let mut any = false;
    while next < zones {
        let step = gather(disk, map, owners, next, zones, quiet)?;
        next = step.next;
        any |= step.any;
    }
    Ok(any)
}

// Draws runs up in all zones that aren't quiet, again and again until none moves.
pub fn gather_rounds<D: Disk>(
    disk: &mut D,
    map: &mut NewMap,
    owners: &Owners,
    quiet: &mut [bool; ZONES],
) -> Result<(), DiskFault>
    requires stands { Stands D.Disk disk.old map.old owners.now }
    ensures keeps { MoveKeeps D.Disk disk.old disk.new map.old map.new owners.now result }
    ensures packs { OnOk result (Packs owners.now map.old map.new) }
{
    laws();
    map.is_map();
    let mut any = true;
    while any {
        any = gather_all(disk, map, owners, quiet)?;
    }
    Ok(())
}
