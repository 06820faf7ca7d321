// The space of a map that is not spoken for, from which the plans of one command are taken one after another.

ghost use Rattle.std.specs.Prelude.{◌≡◌, ◌<◌, ◌+◌, ◌^◌, ◌∷◌, ◌++◌, [], List, map, nat_le, None, Some, IfOk, IsErrOf, OnErr};
ghost use Rattle.std.specs.Option.{option_map};
ghost use Rattle.fc_newmap.specs.Map.{ZoneRun, bits_in};
ghost use Rattle.fc_newmap.specs.NewMap.{IsOfRecord};
ghost use Rattle.fc_image.specs.effects.Placed.{IsPlan, holes_left};
ghost use Rattle.fc_image.specs.effects.Sharing.{units};
ghost use Rattle.fc_image.specs.safe.FirstFit.{first_fit};
ghost use Rattle.fc_plan.specs.Parts.{fronts, part_of};
ghost use Rattle.fc_plan.specs.Plan.{AreFreeRuns, AreParts};
ghost use Rattle.fc_plan.specs.Supply.{stock_of};
ghost use Rattle.fc_plan.specs.declared.supply.PlanError.TheVariants as errors;

use crate::fitting::first_fitting;
use crate::holes::Holes;
use crate::plan::as_parts;
use crate::planning::fewest;
use crate::{Part, Plan};
use fc_device::NoMemory;
use fc_newmap::NewMap;
use fc_record::Geometry;
use fc_zone::Run;
use std::alloc::Global;
use std::marker::Model;

/// Why there is no plan.
#[derive(Clone, Copy, Debug, PartialEq, Eq)]
pub enum PlanError {
    /// Every identifier that a new object may have is used.
    IdsFull,
    /// The holes together have too few bits.
    DiscFull,
    NoMemory,
}

impl From<NoMemory> for PlanError {
    ghost from_gives = { λ _ e. e ≡ errors.NoMemory };

    fn from(_: NoMemory) -> Self
        ensures { result ≡ errors.NoMemory }
    {
        PlanError::NoMemory
    }
}

/// The holes and the unused identifiers of a new map. The plans of one command are taken from it one after another, so
/// that none uses what another has; the map stays as it is until they are applied. After an error a supply is as before.
#[derive(Drop)]
pub struct Supply<'a> {
    map: &'a NewMap,
    holes: Holes,
    // The identifiers from here on that no run has are left.
    next: u32,
}

impl<'a> Model for Supply<'a> {
    ghost use Rattle.fc_newmap.specs.Ids.{unused_from};
    ghost use Rattle.fc_plan.specs.Supply.{IsStocked, Stock, all_holes};

    ghost Value = { Stock };

    ghost view = { λ s. record { geometry = s.map.now.geometry; holes = all_holes s.map.now s.holes; ids = unused_from s.map.now s.next } };

    ghost invariant = { λ s. IsStocked s.map.now s.holes };
}

// The bits that so many bytes take.
fn units(g: &Geometry, bytes: u64) -> u64
    requires record { IsOfRecord g.now }
    requires some { 0 < bytes }
    requires few { bytes < 2 ^ 63 }
    ensures { result ≡ units g.now bytes }
{
    let bits = bytes.div_ceil(g.bit_bytes);
    bits.next_multiple_of(u64::from(g.q)).max(u64::from(g.min))
}

// Parts that are taken from holes, and what they leave.
#[derive(Drop)]
struct Cut {
    parts: Vec<Part>,
    left: Vec<(u16, Run)>,
}

// Takes the bits of so many bytes from holes.
fn cut_from(alloc: Global, holes: &[(u16, Run)], g: &Geometry, bytes: u64) -> Result<Cut, PlanError>
    requires some { 0 < bytes }
    requires few { bytes < 2 ^ 63 }
    requires record { IsOfRecord g.now }
    requires holes { AreFreeRuns g.now holes.now }
    ensures plan { IfOk result (λ t. IsPlan g.now holes.now (units g.now bytes) (fronts t.parts.items)) }
    ensures cut { IfOk result (λ t. AreParts g.now holes.now (fronts t.parts.items)) }
    ensures left { IfOk result (λ t. t.left.items ≡ holes_left holes.now (fronts t.parts.items)) }
    ensures free { IfOk result (λ t. (ahead : List ZoneRun) → AreFreeRuns g.now (holes.now ++ ahead) → AreFreeRuns g.now (t.left.items ++ ahead)) }
    ensures full { IsErrOf result PlanError.DiscFull → bits_in holes.now < units g.now bytes }
    ensures ids { IsErrOf result PlanError.IdsFull → ⊥ }
{
    let Some(taking) = fewest(alloc, holes, units(g, bytes), g)? else {
        return Err(PlanError::DiscFull);
    };
    let parts = as_parts(alloc, &taking.parts)?;
    Ok(Cut {
        parts,
        left: taking.left,
    })
}

// Takes the bits of so many bytes from holes by first fit.
fn cut_first(
    alloc: Global,
    holes: &[(u16, Run)],
    g: &Geometry,
    bytes: u64,
) -> Result<Cut, PlanError>
    requires some { 0 < bytes }
    requires few { bytes < 2 ^ 63 }
    requires record { IsOfRecord g.now }
    requires holes { AreFreeRuns g.now holes.now }
    ensures fit { IfOk result (λ t. option_map (map part_of) (first_fit g.now (units g.now bytes) holes.now) ≡ Some t.parts.items) }
    ensures cut { IfOk result (λ t. AreParts g.now holes.now (fronts t.parts.items)) }
    ensures left { IfOk result (λ t. t.left.items ≡ holes_left holes.now (fronts t.parts.items)) }
    ensures free { IfOk result (λ t. (ahead : List ZoneRun) → AreFreeRuns g.now (holes.now ++ ahead) → AreFreeRuns g.now (t.left.items ++ ahead)) }
    ensures full { IsErrOf result PlanError.DiscFull → first_fit g.now (units g.now bytes) holes.now ≡ None }
    ensures ids { IsErrOf result PlanError.IdsFull → ⊥ }
{
    let Some(taking) = first_fitting(alloc, holes, units(g, bytes), g)? else {
        return Err(PlanError::DiscFull);
    };
    let parts = as_parts(alloc, &taking.parts)?;
    Ok(Cut {
        parts,
        left: taking.left,
    })
}

impl<'a> Supply<'a> {
    /// All holes and unused identifiers of a map. Both are looked for as they are taken.
    pub fn new(alloc: Global, map: &'a NewMap) -> Result<Supply<'a>, NoMemory>
        ensures { IfOk result (λ supply. supply ≡ stock_of map.now) }
    {
        map.is_map();
        Ok(Supply {
            map,
            holes: Holes::all(alloc, map),
            next: 3,
        })
    }

    /// Whether all holes together have so many bits. It goes over them until it is known.
    pub fn has_bits(&self, bits: u64) -> bool
        ensures { result ≡ nat_le bits (bits_in self.now.holes) }
    {
        self.holes.have_bits(self.map, bits)
    }

    /// Plans parts for so many bytes, without an identifier: as few holes as can be, no rest shorter than a run may be.
    /// `DiscFull` exactly if the holes together have too few bits.
    pub fn take_parts(&mut self, alloc: Global, bytes: u64) -> Result<Vec<Part>, PlanError>
        requires some { 0 < bytes }
        requires few { bytes < 2 ^ 63 }
        ensures plan { IfOk result (λ parts. IsPlan self.old.geometry self.old.holes (units self.old.geometry bytes) (fronts parts.items)) }
        ensures cut { IfOk result (λ parts. AreParts self.old.geometry self.old.holes (fronts parts.items)) }
        ensures rest { IfOk result (λ parts. self.new ≡ record self.old { holes = holes_left self.old.holes (fronts parts.items) }) }
        ensures full { IsErrOf result PlanError.DiscFull → bits_in self.old.holes < units self.old.geometry bytes }
        ensures ids { IsErrOf result PlanError.IdsFull → ⊥ }
        ensures err { OnErr result (self.new ≡ self.old) }
    {
        let g = self.map.geometry();
        self.holes.meet(self.map, units(g, bytes))?;
        let cut = cut_from(alloc, &self.holes.met, g, bytes)?;
        self.holes.met = cut.left;
        Ok(cut.parts)
    }

    /// Plans an object of so many bytes: the least identifier that is left, and parts. `IdsFull` exactly if no
    /// identifier is left, `DiscFull` exactly if one is and the holes together have too few bits.
    pub fn plan(&mut self, alloc: Global, bytes: u64) -> Result<Plan, PlanError>
        requires some { 0 < bytes }
        requires few { bytes < 2 ^ 63 }
        ensures plan { IfOk result (λ plan. IsPlan self.old.geometry self.old.holes (units self.old.geometry bytes) (fronts plan.parts.items)) }
        ensures cut { IfOk result (λ plan. AreParts self.old.geometry self.old.holes (fronts plan.parts.items)) }
        ensures id { IfOk result (λ plan. self.old.ids ≡ plan.id ∷ self.new.ids) }
        ensures rest { IfOk result (λ plan. self.new ≡ record self.old { holes = holes_left self.old.holes (fronts plan.parts.items); ids = self.new.ids }) }
        ensures ids { IsErrOf result PlanError.IdsFull → self.old.ids ≡ [] }
        ensures full { IsErrOf result PlanError.DiscFull → (self.old.ids ≡ [] → ⊥) × (bits_in self.old.holes < units self.old.geometry bytes) }
        ensures err { OnErr result (self.new ≡ self.old) }
    {
        let Some(id) = self.map.next_unused(self.next) else {
            return Err(PlanError::IdsFull);
        };
        let parts = self.take_parts(alloc, bytes)?;
        self.next = id + 1;
        Ok(Plan { id, parts })
    }

    /// Plans parts for so many bytes by first fit, without an identifier. `DiscFull` exactly if the first fit fails.
    pub fn take_first(&mut self, alloc: Global, bytes: u64) -> Result<Vec<Part>, PlanError>
        requires some { 0 < bytes }
        requires few { bytes < 2 ^ 63 }
        ensures fit { IfOk result (λ parts. option_map (map part_of) (first_fit self.old.geometry (units self.old.geometry bytes) self.old.holes) ≡ Some parts.items) }
        ensures cut { IfOk result (λ parts. AreParts self.old.geometry self.old.holes (fronts parts.items)) }
        ensures rest { IfOk result (λ parts. self.new ≡ record self.old { holes = holes_left self.old.holes (fronts parts.items) }) }
        ensures full { IsErrOf result PlanError.DiscFull → first_fit self.old.geometry (units self.old.geometry bytes) self.old.holes ≡ None }
        ensures ids { IsErrOf result PlanError.IdsFull → ⊥ }
        ensures err { OnErr result (self.new ≡ self.old) }
    {
        let g = self.map.geometry();
        self.holes.meet(self.map, units(g, bytes))?;
        let cut = cut_first(alloc, &self.holes.met, g, bytes)?;
        self.holes.met = cut.left;
        Ok(cut.parts)
    }

    /// Plans an object of so many bytes by first fit: the least identifier that is left, and parts. `IdsFull` exactly
    /// if no identifier is left, `DiscFull` exactly if one is and the first fit fails.
    pub fn plan_first(&mut self, alloc: Global, bytes: u64) -> Result<Plan, PlanError>
        requires some { 0 < bytes }
        requires few { bytes < 2 ^ 63 }
        ensures fit { IfOk result (λ plan. option_map (map part_of) (first_fit self.old.geometry (units self.old.geometry bytes) self.old.holes) ≡ Some plan.parts.items) }
        ensures cut { IfOk result (λ plan. AreParts self.old.geometry self.old.holes (fronts plan.parts.items)) }
        ensures id { IfOk result (λ plan. self.old.ids ≡ plan.id ∷ self.new.ids) }
        ensures rest { IfOk result (λ plan. self.new ≡ record self.old { holes = holes_left self.old.holes (fronts plan.parts.items); ids = self.new.ids }) }
        ensures ids { IsErrOf result PlanError.IdsFull → self.old.ids ≡ [] }
        ensures full { IsErrOf result PlanError.DiscFull → (self.old.ids ≡ [] → ⊥) × (first_fit self.old.geometry (units self.old.geometry bytes) self.old.holes ≡ None) }
        ensures err { OnErr result (self.new ≡ self.old) }
    {
        let Some(id) = self.map.next_unused(self.next) else {
            return Err(PlanError::IdsFull);
        };
        let parts = self.take_first(alloc, bytes)?;
        self.next = id + 1;
        Ok(Plan { id, parts })
    }
}
