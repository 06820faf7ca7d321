// Holes of a map in memory that touch, and become one.
ghost use Rattle.std.specs.Prelude.{◌≡◌, ◌<◌, ◌++◌, ◌∷◌, ℕ, List, All};
ghost use Rattle.std.specs.List.Sorted.{IsStrictlyIncreasing};
ghost use Rattle.fc_zone.specs.declared.Run.{Run};
ghost use Rattle.fc_newmap.specs.Edits.{IsEdit};
ghost use Rattle.fc_newmap.specs.Map.{is_hole, runs_of};
ghost use Rattle.fc_image.specs.effects.Moves.{with_holes_joined};
ghost use Rattle.fc_compact.specs.Joins.{EditsListed, are_holes, changed_runs, hole_or_next, passed};
ghost use Rattle.fc_compact.specs.Slides.{HasRuns};

use fc_newmap::{NewMap, Walk};
use fc_zone::{Run, RunKind};

// Whether a run is a hole.
fn is_hole(kind: RunKind) -> bool
    ensures { result ≡ is_hole kind }
{
    match kind {
        RunKind::Hole => true,
        RunKind::Id(_) => false,
    }
}

// Whether two runs are holes.
fn are_holes(one: Run, two: Run) -> bool
    ensures { result ≡ are_holes one two }
{
    is_hole(one.kind) && is_hole(two.kind)
}

// Makes one hole of a run and the next, if both are holes, and gives the run from which to go on.
fn join_pair(map: &mut NewMap, z: u16, run: Run, next: Run) -> Run
    requires zone { z < map.old.geometry.zones }
    requires pair { (front rest : List Run) × HasRuns map.old z (front ++ run ∷ next ∷ rest) }
    ensures runs { (front rest : List Run) → HasRuns map.old z (front ++ run ∷ next ∷ rest)
        → HasRuns map.new z (front ++ passed run next (hole_or_next run next ∷ rest)) }
    ensures value { result ≡ hole_or_next run next }
    ensures edit { IsEdit map.old map.new z }
{
    map.is_map();
    if !are_holes(run, next) {
        return next;
    }
    map.merge(z, run.start);
    Run {
        len: run.len + next.len,
        ..run
    }
}

// Makes one hole of those that touch, in a zone, in one pass over the zone's words.
pub fn join_holes_in(map: &mut NewMap, z: u16)
    requires zone { z < map.old.geometry.zones }
    ensures runs { runs_of map.new z ≡ with_holes_joined (runs_of map.old z) }
    ensures edit { IsEdit map.old map.new z }
{
    let walk = Walk::from_zone(map, z, 0);
    let shape = walk.shape;
    let mut place = walk.place;
    let Some(first) = place.next(map.bytes(z), &shape) else {
        return;
    };
    let mut run = first;
    while let Some(next) = place.next(map.bytes(z), &shape) {
        run = join_pair(map, z, run, next);
    }
}

// Makes one hole of those that touch, in each of these zones.
pub fn join_holes(map: &mut NewMap, changed: &[u16])
    requires rising { IsStrictlyIncreasing changed.now }
    requires zones { All (λ z. z < map.old.geometry.zones) changed.now }
    ensures edits { EditsListed map.old map.new changed.now }
    ensures runs { (z : ℕ) → runs_of map.new z ≡ changed_runs with_holes_joined changed.now z (runs_of map.old z) }
{
    map.is_map();
    for z in changed {
        join_holes_in(map, *z);
    }
}
