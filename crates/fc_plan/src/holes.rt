// The holes of a map, met one after another as they are looked for.

ghost use Rattle.std.specs.Prelude.{◌≡◌, ◌-◌, ◌<◌, ◌++◌, [], nat_le, IfOk, MatchOption, OnOk};
ghost use Rattle.std.specs.Option.{option_to_list};
ghost use Rattle.fc_newmap.specs.Map.{bits_in, hole_runs};
ghost use Rattle.fc_newmap.specs.Walk.{bits_left};
ghost use Rattle.fc_plan.specs.Supply.{IsMetFor, IsWalked, all_holes, holes_ahead};

use crate::planning::first_fit;
use fc_device::NoMemory;
use fc_newmap::{NewMap, Walk};
use fc_zone::Run;
use std::alloc::Global;

/// Holes that were met, and the place in the map from which the others are met.
#[derive(Drop)]
pub struct Holes {
    /// Those that were met, without what was taken from them.
    pub met: Vec<(u16, Run)>,
    /// Before the others.
    pub walk: Walk,
    /// How many holes of the map were met.
    pub count: u64,
}

// The bits that are missing after those of holes.
fn missing_after(holes: &[(u16, Run)], bits: u64) -> u64
    ensures { result ≡ bits - bits_in holes.now }
{
    let mut missing = bits;
    for (_, run) in holes {
        missing = missing.saturating_sub(u64::from(run.len));
    }
    missing
}

impl Holes {
    /// All holes of a map, of which none was met yet.
    pub fn all(alloc: Global, map: &NewMap) -> Holes
        ensures walked { IsWalked map.now result }
        ensures all { all_holes map.now result ≡ hole_runs map.now }
    {
        Holes {
            met: Vec::new(alloc),
            walk: Walk::over_all(map),
            count: 0,
        }
    }

    /// Whether all holes together have so many bits. It goes over them until it is known.
    pub fn have_bits(&self, map: &NewMap, bits: u64) -> bool
        requires { IsWalked map.now self.now }
        ensures { result ≡ nat_le bits (bits_in (all_holes map.now self.now)) }
    {
        let mut missing = missing_after(&self.met, bits);
        let mut walk = self.walk;
        while missing > 0 {
            let Some((_, run)) = walk.next_hole(map) else {
                return false;
            };
            missing = missing.saturating_sub(u64::from(run.len));
        }
        true
    }

    // Meets the next hole, if one is left.
    fn meet_next(&mut self, map: &NewMap) -> Result<Option<(u16, Run)>, NoMemory>
        requires { IsWalked map.now self.old }
        ensures walked { IsWalked map.now self.new }
        ensures same { all_holes map.now self.new ≡ all_holes map.now self.old }
        ensures met { IfOk result (λ hole. self.new.met.items ≡ self.old.met.items ++ option_to_list hole) }
        ensures onward { IfOk result (λ hole. MatchOption hole (holes_ahead map.now self.new ≡ []) (λ _. bits_left self.new.walk < bits_left self.old.walk)) }
    {
        let mut walk = self.walk;
        let Some(hole) = walk.next_hole(map) else {
            return Ok(None);
        };
        if self.met.push(hole).is_err() {
            return Err(NoMemory);
        }
        self.walk = walk;
        self.count += 1;
        Ok(Some(hole))
    }

    /// Meets holes until one that was met has all the bits, or all were met.
    pub fn meet(&mut self, map: &NewMap, bits: u64) -> Result<(), NoMemory>
        requires { IsWalked map.now self.old }
        ensures walked { IsWalked map.now self.new }
        ensures same { all_holes map.now self.new ≡ all_holes map.now self.old }
        ensures met { OnOk result (IsMetFor bits self.new.met.items (holes_ahead map.now self.new)) }
    {
        if first_fit(&self.met, bits).is_some() {
            return Ok(());
        }
        while let Some(hole) = self.meet_next(map)? {
            if bits <= u64::from(hole.1.len) {
                return Ok(());
            }
        }
        Ok(())
    }
}
