// A walk over the runs of a zone.

ghost use Rattle.std.specs.Prelude.{◌≡◌, ◌+◌, ◌-◌, ◌<◌, ◌≤◌, ◌++◌, ◌∷◌, [], List, IfSome, OnSome, MatchOption};
ghost use Rattle.fc_zone.specs.declared.Run.{Run};
ghost use Rattle.fc_zone.specs.declared.RunKind.TheVariants.{Hole};
ghost use Rattle.fc_zone.specs.Edits.{HasRunAt};
ghost use Rattle.fc_zone.specs.Zone.{IsShapeOf, IsZone, Zone, hole_starts};

use crate::links::{first_hole, holder_before, hole_from, next_hole};
use crate::reading::{run_at, run_from};
use crate::{Run, RunKind, ZoneShape};

/// A place between two runs of a zone, for a walk over all of them in one pass over the zone's words.
///
/// It borrows nothing, so the runs that it has passed may be edited on the way: it stays right as long as the runs
/// before it take the same bits and those after it are the same.
#[derive(Clone, Copy, Debug, PartialEq, Eq)]
pub struct Cursor {
    /// The place after the runs that were passed.
    pub at: u32,
    /// The place of the first hole from there on.
    pub hole: Option<u32>,
}

impl Cursor {
    ghost use Rattle.fc_zone.specs.Cursor.{StandsBetween};

    /// Before the first run of a zone that `check_zone` passes.
    pub fn start(b: &[u8], shape: &ZoneShape) -> Self
        requires shape { IsShapeOf b.now shape.now }
        requires zone { IsZone shape.now b.now }
        ensures { (runs : List Run) → Zone shape.now b.now runs → StandsBetween shape.now b.now [] runs result }
    {
        Cursor {
            at: shape.first,
            hole: first_hole(b),
        }
    }

    /// Before the run of a zone that begins at `start`, if one does. The chain of holes is followed up to it; no run is
    /// read.
    pub fn before_run(b: &[u8], shape: &ZoneShape, start: u32) -> Self
        requires shape { IsShapeOf b.now shape.now }
        requires run { HasRunAt shape.now b.now start }
        ensures { (front rest : List Run) (run : Run) → Zone shape.now b.now (front ++ run ∷ rest) → run.start ≡ start → StandsBetween shape.now b.now front (run ∷ rest) result }
    {
        let holder = holder_before(b, shape, start);
        let hole = hole_from(b, shape, holder);
        Cursor { at: start, hole }
    }

    /// Goes past the next run and gives it, and stays where it is at the zone's end.
    pub fn next(&mut self, b: &[u8], shape: &ZoneShape) -> Option<Run>
        requires shape { IsShapeOf b.now shape.now }
        requires stands { (done left : List Run) × StandsBetween shape.now b.now done left self.old }
        ensures value { (done left : List Run) → StandsBetween shape.now b.now done left self.old
            → MatchOption result ((left ≡ []) × (self.new ≡ self.old)) (λ run. (rest : List Run) × ((left ≡ run ∷ rest) × StandsBetween shape.now b.now (done ++ run ∷ []) rest self.new)) }
        ensures place { IfSome result (λ run. (run.start ≡ self.old.at) × (self.new.at ≡ run.start + run.len)) }
        ensures onward { OnSome result (shape.now.end - self.new.at < shape.now.end - self.old.at) }
    {
        let run = run_from(b, shape, self.at, self.hole)?;
        if let RunKind::Hole = run.kind {
            self.hole = next_hole(b, shape, run.start);
        }
        self.at = run.start + run.len;
        Some(run)
    }

    /// Goes past the next hole and all runs before it, which aren't read, and gives it. `None` if no hole is left: then
    /// it stands at the zone's end.
    pub fn next_hole(&mut self, b: &[u8], shape: &ZoneShape) -> Option<Run>
        requires shape { IsShapeOf b.now shape.now }
        requires stands { (done left : List Run) × StandsBetween shape.now b.now done left self.old }
        ensures value { (done left : List Run) → StandsBetween shape.now b.now done left self.old
            → MatchOption result ((hole_starts left ≡ []) × StandsBetween shape.now b.now (done ++ left) [] self.new)
            (λ run. (passed rest : List Run) × ((left ≡ passed ++ run ∷ rest) × (hole_starts passed ≡ []) × (run.kind ≡ Hole) × StandsBetween shape.now b.now ((done ++ passed) ++ run ∷ []) rest self.new)) }
        ensures onward { IfSome result (λ run. (self.old.at ≤ run.start) × (self.new.at ≡ run.start + run.len)) }
    {
        let Some(at) = self.hole else {
            self.at = shape.end;
            return None;
        };
        let run = run_at(b, shape, at, Some(at));
        self.hole = next_hole(b, shape, at);
        self.at = at + run.len;
        Some(run)
    }
}
