// Reading a zone: whether its bits are runs, and which.

ghost use Rattle.std.specs.Prelude.{◌≡◌, ◌+◌, ◌-◌, ◌^◌, ◌<◌, ◌≤◌, ◌↔◌, ◌++◌, ◌∷◌, ℕ, List, slice_get, IfSome, IfNone, IsOk, IfErr, OnOk, MatchResult, IsTrue};
ghost use Rattle.fc_bytes.specs.Bits.{bits};
ghost use Rattle.fc_zone.specs.Cursor.{HasLeft};
ghost use Rattle.fc_zone.specs.Edits.{HasRunAt};
ghost use Rattle.fc_zone.specs.Reading.{run_of, runs_of, zone_of};
ghost use Rattle.fc_zone.specs.Zone.{EndsInHole, HasRun, IsFault, IsOnSector, IsRun, IsShapeOf, IsZone, Zone, field_at};

use crate::links::{first_hole, holder_before, hole_from, next_hole};
use crate::{Run, RunKind, ZoneFault, ZoneShape};
use fc_bytes::{get_bits, next_one};

// Whether a place stands for the first byte of a sector of the disc.
fn on_sector(shape: &ZoneShape, at: u32) -> bool
    requires from_first { shape.now.first ≤ at }
    requires step { 0 < shape.now.q }
    requires disc { shape.now.base + (at - shape.now.first) < 2 ^ 64 }
    ensures { IsTrue result ↔ IsOnSector shape.now at }
{
    (shape.base + u64::from(at - shape.first)) % u64::from(shape.q) == 0
}

// The end of the run that begins at `at`, if one does.
fn run_end(b: &[u8], shape: &ZoneShape, at: u32) -> Option<u32>
    requires shape { IsShapeOf b.now shape.now }
    requires from_first { shape.now.first ≤ at }
    requires early { at < shape.now.end }
    requires begins { IsOnSector shape.now at }
    ensures found { IfSome result (λ end. IsRun shape.now (bits b.now) at end) }
    ensures none { IfNone result ((end : ℕ) → IsRun shape.now (bits b.now) at end → ⊥) }
{
    let field = u32::from(shape.idlen);
    if shape.end - at <= field {
        return None;
    }
    let last = next_one(b, at + field, shape.end)?;
    on_sector(shape, last + 1).then_some(last + 1)
}

/// Whether the sector's bits are a zone of this shape, in one pass over its words.
///
/// The fault is at the start of the first run that is too short, has no last 1, or begins or ends inside a sector of
/// the disc; if all runs are right, at the first place that the chain of holes names and where no run begins.
pub fn check_zone(b: &[u8], shape: &ZoneShape) -> Result<(), ZoneFault>
    requires { IsShapeOf b.now shape.now }
    ensures exact { IsOk result ↔ IsZone shape.now b.now }
    ensures runs { OnOk result (Zone shape.now b.now (runs_of shape.now b.now)) }
    ensures zone { IfErr result (λ fault. fault.zone ≡ shape.now.zone) }
    ensures bit { IfErr result (λ fault. IsFault shape.now (bits b.now) fault.bit) }

    // The same by the function that reads a zone.
    ensures reads { MatchResult result (λ _. zone_of shape.now b.now ≡ Ok (runs_of shape.now b.now)) (λ fault. zone_of shape.now b.now ≡ Err fault) }
{
    let zone = shape.zone;
    let mut at = shape.first;
    if at < shape.end && !on_sector(shape, at) {
        return Err(ZoneFault { zone, bit: at });
    }
    let mut hole = first_hole(b);
    while at < shape.end {
        let Some(end) = run_end(b, shape, at) else {
            return Err(ZoneFault { zone, bit: at });
        };
        if hole == Some(at) {
            hole = next_hole(b, shape, at);
        }
        at = end;
    }
    match hole {
        None => Ok(()),
        Some(bit) => Err(ZoneFault { zone, bit }),
    }
}

// The end of the run that begins at `at`.
pub fn end_of(b: &[u8], shape: &ZoneShape, at: u32) -> u32
    requires shape { IsShapeOf b.now shape.now }
    requires begins { (end : ℕ) × IsRun shape.now (bits b.now) at end }
    ensures { IsRun shape.now (bits b.now) at result }
{
    next_one(b, at + u32::from(shape.idlen), shape.end).unwrap() + 1
}

// The run that begins at `at`, if the chain names `hole` as the first hole from there on.
pub fn run_at(b: &[u8], shape: &ZoneShape, at: u32, hole: Option<u32>) -> Run
    requires shape { IsShapeOf b.now shape.now }
    requires begins { (end : ℕ) × IsRun shape.now (bits b.now) at end }
    ensures run { IsRun shape.now (bits b.now) at (at + result.len) }
    ensures value { result ≡ run_of hole at result.len (field_at shape.now (bits b.now) at) }
{
    let len = end_of(b, shape, at) - at;
    let kind = if hole == Some(at) {
        RunKind::Hole
    } else {
        RunKind::Id(get_bits(b, at, u32::from(shape.idlen)))
    };
    Run {
        start: at,
        len,
        kind,
    }
}

// The first of the runs from `at` on, if the chain names `hole` as their first hole.
pub fn run_from(b: &[u8], shape: &ZoneShape, at: u32, hole: Option<u32>) -> Option<Run>
    requires shape { IsShapeOf b.now shape.now }
    requires left { (left : List Run) × HasLeft shape.now (bits b.now) at hole left }
    ensures { (left : List Run) → HasLeft shape.now (bits b.now) at hole left → result ≡ slice_get left 0 }
{
    if at == shape.end {
        return None;
    }
    Some(run_at(b, shape, at, hole))
}

// The kind of the run that begins at `at`.
pub fn kind_at(b: &[u8], shape: &ZoneShape, at: u32) -> RunKind
    requires shape { IsShapeOf b.now shape.now }
    requires zone { IsZone shape.now b.now }
    requires from_first { shape.now.first ≤ at }
    requires within { at + shape.now.idlen ≤ shape.now.end }
    ensures { (front rest : List Run) (run : Run) → Zone shape.now b.now (front ++ run ∷ rest) → run.start ≡ at → result ≡ run.kind }
{
    let holder = holder_before(b, shape, at);
    if hole_from(b, shape, holder) == Some(at) {
        RunKind::Hole
    } else {
        RunKind::Id(get_bits(b, at, u32::from(shape.idlen)))
    }
}

/// The run that begins at `start`, if one does. The chain of holes is followed up to it; no other run is read.
pub fn run_beginning(b: &[u8], shape: &ZoneShape, start: u32) -> Run
    requires shape { IsShapeOf b.now shape.now }
    requires run { HasRunAt shape.now b.now start }
    ensures value { (front rest : List Run) (run : Run) → Zone shape.now b.now (front ++ run ∷ rest) → run.start ≡ start → result ≡ run }
    ensures run { HasRun shape.now b.now result }
{
    let len = end_of(b, shape, start) - start;
    let kind = kind_at(b, shape, start);
    Run { start, len, kind }
}

/// The run right before the one that begins at `start`, if it is a hole. The chain of holes is followed up to it; no run
/// but this hole is read.
pub fn hole_before(b: &[u8], shape: &ZoneShape, start: u32) -> Option<Run>
    requires shape { IsShapeOf b.now shape.now }
    requires run { HasRunAt shape.now b.now start }
    ensures { (front rest : List Run) (run : Run) → Zone shape.now b.now (front ++ run ∷ rest) → run.start ≡ start → EndsInHole front result }
{
    let hole = holder_before(b, shape, start)?;
    if end_of(b, shape, hole) != start {
        return None;
    }
    Some(Run {
        start: hole,
        len: start - hole,
        kind: RunKind::Hole,
    })
}

/// The first run of a zone that `check_zone` passes, and `None` if the zone has no bits.
pub fn first(b: &[u8], shape: &ZoneShape) -> Option<Run>
    requires shape { IsShapeOf b.now shape.now }
    requires zone { IsZone shape.now b.now }
    ensures value { (runs : List Run) → Zone shape.now b.now runs → result ≡ slice_get runs 0 }
    ensures run { IfSome result (HasRun shape.now b.now) }
{
    run_from(b, shape, shape.first, first_hole(b))
}

/// The run that follows a run of the zone, and `None` at the last.
///
/// After a hole its own link tells what the next run is. After another run the chain is followed up to it: a
/// `Cursor` goes through all runs without that.
pub fn next(b: &[u8], shape: &ZoneShape, after: Run) -> Option<Run>
    requires shape { IsShapeOf b.now shape.now }
    requires run { HasRun shape.now b.now after }
    ensures value { (front rest : List Run) → Zone shape.now b.now (front ++ after ∷ rest) → result ≡ slice_get rest 0 }
    ensures run { IfSome result (λ run. HasRun shape.now b.now run × (run.start ≡ after.start + after.len)) }
{
    let hole = match after.kind {
        RunKind::Hole => next_hole(b, shape, after.start),
        RunKind::Id(_) => hole_from(b, shape, holder_before(b, shape, after.start)),
    };
    run_from(b, shape, after.start + after.len, hole)
}
