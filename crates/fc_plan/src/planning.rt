// Which fronts of which holes are taken: as few holes as can be.

ghost use Rattle.std.specs.Prelude.{◌≡◌, ◌<◌, ◌≤◌, ◌+◌, ◌*◌, ◌%◌, ◌++◌, ℕ, max, nat_le, All, IfOk, IfSome, IfNone, MatchOption, OnOk};
ghost use Rattle.std.specs.List.{find};
ghost use Rattle.std.specs.Option.{option_to_list};
ghost use Rattle.fc_record.specs.declared.Geometry.{Geometry};
ghost use Rattle.fc_newmap.specs.Map.{bits_in};
ghost use Rattle.fc_newmap.specs.NewMap.{IsOfRecord};
ghost use Rattle.fc_image.specs.effects.Placed.{HasRunLength, IsFront, IsPlan, front_of, holes_left, left_behind, stands_at};
ghost use Rattle.fc_plan.specs.Plan.{AreFreeRuns, IsChoice, IsLast, first_at, left_of_both, rest_at};

use fc_device::NoMemory;
use fc_record::Geometry;
use fc_zone::Run;
use std::alloc::Global;
use std::cmp::Reverse;

/// Parts of holes, and what they leave of them.
#[derive(Drop)]
pub struct Taking {
    pub parts: Vec<(u16, Run)>,
    pub left: Vec<(u16, Run)>,
}

/// What is taken of a hole for bits that are still missing: no less than `min`, and all of it if less would stay.
pub fn front_of(hole: (u16, Run), missing: u64, min: u32) -> (u16, Run)
    requires some { 0 < missing }
    requires has { missing ≤ hole.1.len }
    requires long { min ≤ hole.1.len }
    requires positive { 0 < min }
    ensures front { (g : Geometry) → g.min ≡ min → IsFront g hole result }
    ensures long { min ≤ result.1.len }
    ensures enough { missing ≤ result.1.len }
    ensures few_more { result.1.len < missing + 2 * min }
    ensures whole { (q : ℕ) → hole.1.len % q ≡ 0 → missing % q ≡ 0 → min % q ≡ 0 → result.1.len % q ≡ 0 }
    ensures exact { (g : Geometry) → g.min ≡ min → result ≡ front_of g (max missing min) hole }
{
    let (z, run) = hole;
    let len = (missing as u32).max(min);
    if run.len - len < min {
        (z, run)
    } else {
        (z, Run { len, ..run })
    }
}

/// The first hole that has all the bits.
pub fn first_fit(holes: &[(u16, Run)], bits: u64) -> Option<(u16, Run)>
    ensures { result ≡ find (λ hole. nat_le bits hole.1.len) holes.now }
{
    holes
        .iter()
        .copied()
        .find(|hole| bits <= u64::from(hole.1.len))
}

/// Where holes are taken from the first on: the place of the last one, and the bits that it has to give.
pub fn last_needed(holes: &[(u16, Run)], bits: u64) -> Option<(usize, u64)>
    requires { 0 < bits }
    ensures last { IfSome result (λ last. IsLast holes.now bits last.0 last.1) }
    ensures none { IfNone result (bits_in holes.now < bits) }
{
    let mut missing = bits;
    for (place, hole) in holes.iter().enumerate() {
        let len = u64::from(hole.1.len);
        if missing <= len {
            return Some((place, missing));
        }
        missing -= len;
    }
    None
}

// The parts of these holes that are taken: if one hole has all the bits, of the first such hole. Else the longest
// holes are taken whole, and of the last one what is still missing.
fn parts_of(holes: Vec<(u16, Run)>, bits: u64, g: &Geometry) -> Option<Vec<(u16, Run)>>
    requires some { 0 < bits }
    requires positive { 0 < g.now.min }
    requires long { All (HasRunLength g.now) holes.items }
    requires whole { bits % g.now.q ≡ 0 }
    requires min { g.now.min % g.now.q ≡ 0 }
    ensures { MatchOption result (bits_in holes.items < bits) (λ parts. IsChoice g.now holes.items bits parts.items) }
{
    let mut parts = holes;
    if let Some(hole) = first_fit(&parts, bits) {
        parts[0] = front_of(hole, bits, g.min);
        parts.truncate(1);
        return Some(parts);
    }
    parts.sort_unstable_by_key(|hole| Reverse(hole.1.len));
    let (last, missing) = last_needed(&parts, bits)?;
    parts[last] = front_of(parts[last], missing, g.min);
    parts.truncate(last + 1);
    Some(parts)
}

// The parts that are taken, rising.
fn rising_parts(holes: Vec<(u16, Run)>, bits: u64, g: &Geometry) -> Option<Vec<(u16, Run)>>
    requires some { 0 < bits }
    requires positive { 0 < g.now.min }
    requires holes { AreFreeRuns g.now holes.items }
    requires whole { bits % g.now.q ≡ 0 }
    requires min { g.now.min % g.now.q ≡ 0 }
    ensures { MatchOption result (bits_in holes.items < bits) (λ parts. IsPlan g.now holes.items bits parts.items) }
{
    let mut parts = parts_of(holes, bits, g)?;
    parts.sort_unstable_by_key(|part| (part.0, part.1.start));
    Some(parts)
}

// What a part of a hole leaves of it.
fn left_behind(hole: (u16, Run), found: Option<(u16, Run)>) -> Option<(u16, Run)>
    requires start { hole.1.start ≤ 8192 }
    requires part { IfSome found (λ part. part.1.len ≤ 8192) }
    ensures { option_to_list result ≡ left_behind hole found }
{
    let Some((_, part)) = found else {
        return Some(hole);
    };
    let (z, run) = hole;
    if part.len == run.len {
        return None;
    }
    let rest = Run {
        start: run.start + part.len,
        len: run.len.saturating_sub(part.len),
        ..run
    };
    Some((z, rest))
}

// Adds a hole, if there is one.
fn push(holes: &mut Vec<(u16, Run)>, hole: Option<(u16, Run)>) -> Result<(), NoMemory>
    ensures { OnOk result (holes.new.items ≡ holes.old.items ++ option_to_list hole) }
{
    if let Some(hole) = hole {
        if holes.push(hole).is_err() {
            return Err(NoMemory);
        }
    }
    Ok(())
}

// Whether a part stands at a hole.
fn stands_at(hole: (u16, Run), part: (u16, Run)) -> bool
    ensures { result ≡ stands_at hole part }
{
    hole.0 == part.0 && hole.1.start == part.1.start
}

// The first part, if it stands at a hole.
fn first_at(hole: (u16, Run), parts: &[(u16, Run)]) -> Option<(u16, Run)>
    ensures { result ≡ first_at hole parts.now }
{
    let part = *parts.first()?;
    if stands_at(hole, part) {
        Some(part)
    } else {
        None
    }
}

// The parts after the first, if that stands at a hole.
fn rest_at(hole: (u16, Run), parts: &[(u16, Run)]) -> &[(u16, Run)]
    ensures { result.now ≡ rest_at hole parts.now }
{
    match parts.split_first() {
        Some((part, rest)) if stands_at(hole, *part) => rest,
        _ => parts,
    }
}

/// What parts leave of holes, both rising.
pub fn holes_left(
    alloc: Global,
    holes: &[(u16, Run)],
    parts: &[(u16, Run)],
) -> Result<Vec<(u16, Run)>, NoMemory>
    requires holes { All (λ hole. hole.1.start ≤ 8192) holes.now }
    requires parts { All (λ part. part.1.len ≤ 8192) parts.now }
    ensures { IfOk result (λ left. left.items ≡ left_of_both holes.now parts.now) }
{
    let mut left = Vec::new(alloc);
    let mut rest = parts;
    for hole in holes {
        push(&mut left, left_behind(*hole, first_at(*hole, rest)))?;
        rest = rest_at(*hole, rest);
    }
    Ok(left)
}

/// Takes so many bits from holes: the parts, and what they leave. If one hole has them all, the first such hole gives
/// them. Else the longest holes are taken whole, and of the last one what is still missing. No rest is shorter than a run
/// may be. `None` exactly if the holes together have too few bits.
pub fn fewest(
    alloc: Global,
    holes: &[(u16, Run)],
    bits: u64,
    g: &Geometry,
) -> Result<Option<Taking>, NoMemory>
    requires some { 0 < bits }
    requires whole { bits % g.now.q ≡ 0 }
    requires record { IsOfRecord g.now }
    requires holes { AreFreeRuns g.now holes.now }
    ensures plan { IfOk result (λ taking. MatchOption taking (bits_in holes.now < bits) (λ t. IsPlan g.now holes.now bits t.parts.items)) }
    ensures left { IfOk result (λ taking. IfSome taking (λ t. t.left.items ≡ holes_left holes.now t.parts.items)) }
    ensures free { IfOk result (λ taking. IfSome taking (λ t. AreFreeRuns g.now t.left.items)) }
{
    let copy = Vec::from_slice(alloc, holes)?;
    let Some(parts) = rising_parts(copy, bits, g) else {
        return Ok(None);
    };
    let left = holes_left(alloc, holes, &parts)?;
    Ok(Some(Taking { parts, left }))
}
