// Plans: where an object is to lie.

ghost use Rattle.std.specs.Prelude.{◌≡◌, ◌<◌, ◌≤◌, ℕ, false, AllPairs, is_none, map, not, IfOk};
ghost use Rattle.std.specs.List.{find};
ghost use Rattle.fc_zone.specs.declared.Run.{Run};
ghost use Rattle.fc_image.specs.effects.Placed.{BeginsBefore, stands_at};
ghost use Rattle.fc_plan.specs.Parts.{begins_at, begins_before, fronts, has_part, part_of};

use fc_device::NoMemory;
use fc_zone::Run;
use std::alloc::Global;

/// The front of a hole that is to become a run: its zone, its first place there, and how many bits it has.
#[derive(Clone, Copy, Debug, PartialEq, Eq)]
pub struct Part {
    pub zone: u16,
    pub start: u32,
    pub len: u32,
}

/// Where an object is to lie: its identifier, and the fronts of holes that become the identifier's runs. They rise over
/// the disc, and no hole is used twice.
#[derive(Drop)]
pub struct Plan {
    pub id: u32,
    pub parts: Vec<Part>,
}

// The fronts of holes as parts.
pub fn as_parts(alloc: Global, fronts: &[(u16, Run)]) -> Result<Vec<Part>, NoMemory>
    ensures { IfOk result (λ parts. parts.items ≡ map part_of fronts.now) }
{
    let mut parts = Vec::new(alloc);
    for (zone, run) in fronts {
        let part = Part {
            zone: *zone,
            start: run.start,
            len: run.len,
        };
        if parts.push(part).is_err() {
            return Err(NoMemory);
        }
    }
    Ok(parts)
}

// Whether a part begins before a place of a zone.
fn begins_before(part: Part, z: u16, start: u32) -> bool
    ensures { result ≡ begins_before z start part }
{
    part.zone < z || (part.zone == z && part.start < start)
}

// Whether a part begins at a place of a zone.
fn begins_at(part: Part, z: u16, start: u32) -> bool
    ensures { result ≡ begins_at z start part }
{
    part.zone == z && part.start == start
}

// Whether one of some parts, which rise, begins at a place of a zone.
pub fn is_front(parts: &[Part], z: u16, start: u32) -> bool
    requires { AllPairs BeginsBefore (fronts parts.now) }
    ensures { (run : Run) → run.start ≡ start → result ≡ not (is_none (find (stands_at (z, run)) (fronts parts.now))) }
{
    let place = parts.partition_point(|part| begins_before(*part, z, start));
    match parts.get(place) {
        Some(part) => begins_at(*part, z, start),
        None => false,
    }
}

// Whether one of some parts, which rise, lies in a zone.
pub fn has_part(parts: &[Part], z: u16) -> bool
    requires { AllPairs BeginsBefore (fronts parts.now) }
    ensures { result ≡ has_part (fronts parts.now) z }
{
    let place = parts.partition_point(|part| part.zone < z);
    match parts.get(place) {
        Some(part) => part.zone == z,
        None => false,
    }
}

// The least zone from one on in which one of some parts lies, which rise. The greatest number if none does.
pub fn next_part(parts: &[Part], z: u16) -> u16
    requires { AllPairs BeginsBefore (fronts parts.now) }
    ensures onward { z ≤ result }
    ensures none { (y : ℕ) → z ≤ y → y < result → has_part (fronts parts.now) y ≡ false }
{
    let place = parts.partition_point(|part| part.zone < z);
    match parts.get(place) {
        Some(part) => part.zone,
        None => u16::MAX,
    }
}
