// Identifiers that may be joined, and the zones in which their runs stand.
ghost use Rattle.std.specs.Prelude.{◌≡◌, ◌<◌, ◌≤◌, ◌+◌, ◌%◌, ◌++◌, ◌∷◌, [], ℕ, Bool, List, All, Contains, get_or, length, take, if◌then◌else◌};
ghost use Rattle.fc_zone.specs.declared.Run.{Run};
ghost use Rattle.fc_newmap.specs.Map.{Map};
ghost use Rattle.fc_image.specs.effects.Settled.{zones_with};

use crate::counts::may_have_several;
use crate::lookup::walk_in;
use arrayvec::ArrayVec;
use fc_alloc::Owner;
use fc_newmap::NewMap;
use fc_zone::{Run, RunKind};

/// Some identifiers, rising, and for each the zones in which it has runs: the first nine, if there are more. One pass over a map
/// finds the zones of all of them, in place of one for each.
#[derive(Drop)]
pub struct Candidates {
    pub ids: ArrayVec<u32, 1024>,
    pub zones: ArrayVec<ArrayVec<u16, 9>, 1024>,
}

ghost use Rattle.fc_compact.specs.Candidates.{AreCandidates, AreFoundIn, AreTakenIn, IsPlaced, Rises, places, zones_at};

// Takes in a zone, unless it is there or nine are.
fn put_zone(zones: &mut ArrayVec<u16, 9>, z: u16)
    ensures { (front : List ℕ) (there : Bool) → All (λ y. y < z) front → zones.old.items ≡ take 9 (front ++ (if there then z ∷ [] else [])) → zones.new.items ≡ take 9 (front ++ z ∷ []) }
{
    if zones.is_full() {
        return;
    }
    if zones.contains(&z) {
        return;
    }
    zones.push(z);
}

// Makes a zone the only one.
fn put_alone(zones: &mut ArrayVec<u16, 9>, z: u16)
    ensures { zones.new.items ≡ z ∷ [] }
{
    zones.clear();
    zones.push(z);
}

impl Candidates {
    // None.
    pub fn new() -> Self
        ensures ids { result.ids.items ≡ [] }
        ensures zones { result.zones.items ≡ [] }
    {
        Candidates {
            ids: ArrayVec::new(),
            zones: ArrayVec::new(),
        }
    }

    // Where an identifier stands.
    fn place(&self, id: u32) -> Option<usize>
        requires { Rises self.now.ids.items }
        ensures { IsPlaced self.now.ids.items id result }
    {
        self.ids.binary_search(&id).ok()
    }

    // Takes in an identifier, unless it is there.
    fn put(&mut self, id: u32)
        requires rises { Rises self.old.ids.items }
        requires room { length self.old.ids.items < 1024 }
        ensures rises { Rises self.new.ids.items }
        ensures there { Contains self.new.ids.items id }
        ensures others { (k : ℕ) → Contains self.old.ids.items k → Contains self.new.ids.items k }
    {
        if let Err(at) = self.ids.binary_search(&id) {
            self.ids.insert(at, id);
        }
    }

    // Takes in an identifier, if it may have several runs.
    fn put_several(&mut self, id: u32, seen: &[u8])
        requires size { length seen.now ≡ places }
        requires rises { Rises self.old.ids.items }
        requires room { length self.old.ids.items < 1024 }
        ensures rises { Rises self.new.ids.items }
        ensures there { 2 ≤ get_or seen.now (id % places) 0 → Contains self.new.ids.items id }
        ensures others { (k : ℕ) → Contains self.old.ids.items k → Contains self.new.ids.items k }
    {
        if may_have_several(seen, id) {
            self.put(id);
        }
    }

    // Takes in those identifiers of owners that may have several runs, in place of those that it had, until there is no room. Gives
    // how many owners were looked at.
    pub fn take_in(&mut self, list: &[Owner], seen: &[u8]) -> usize
        requires size { length seen.now ≡ places }
        requires some { 0 < length list.now }
        ensures rises { Rises self.new.ids.items }
        ensures some { 0 < result }
        ensures within { result ≤ length list.now }
        ensures taken { AreTakenIn seen.now self.new.ids.items (take result list.now) }
    {
        self.ids.clear();
        for i in 0..list.len() {
            if self.ids.is_full() {
                return i;
            }
            self.put_several(list[i].id, seen);
        }
        list.len()
    }

    // Forgets the zones of all identifiers.
    fn clear_zones(&mut self)
        ensures ids { self.new.ids ≡ self.old.ids }
        ensures size { length self.new.zones.items ≡ length self.old.ids.items }
        ensures none { (k : ℕ) → zones_at self.new k ≡ [] }
    {
        self.zones.clear();
        while self.zones.len() < self.ids.len() {
            self.zones.push(ArrayVec::new());
        }
    }

    // Takes in the zone of a run, if its identifier is there.
    fn see(&mut self, z: u16, run: Run)
        requires rises { Rises self.old.ids.items }
        requires size { length self.old.zones.items ≡ length self.old.ids.items }
        ensures ids { self.new.ids ≡ self.old.ids }
        ensures size { length self.new.zones.items ≡ length self.old.ids.items }
        ensures found { (m : Map) (done : List Run) → AreFoundIn m z done self.old → AreFoundIn m z (done ++ run ∷ []) self.new }
    {
        let RunKind::Id(id) = run.kind else {
            return;
        };
        if let Some(k) = self.place(id) {
            put_zone(&mut self.zones[k], z);
        }
    }

    // Takes in a zone, after all zones below it.
    fn see_zone(&mut self, map: &NewMap, z: u16)
        requires zone { z < map.now.geometry.zones }
        requires rises { Rises self.old.ids.items }
        requires found { AreFoundIn map.now z [] self.old }
        ensures ids { self.new.ids ≡ self.old.ids }
        ensures found { AreFoundIn map.now (z + 1) [] self.new }
    {
        let mut walk = walk_in(map, z);
        while let Some((_, run)) = walk.next(map) {
            self.see(z, run);
        }
    }

    // Finds the zones of all identifiers.
    pub fn find(&mut self, map: &NewMap)
        requires { Rises self.old.ids.items }
        ensures ids { self.new.ids ≡ self.old.ids }
        ensures candidates { AreCandidates map.now self.new }
    {
        self.clear_zones();
        for z in 0..map.geometry().zones {
            self.see_zone(map, z);
        }
    }

    // The zones of an identifier that is there.
    pub fn zones_of(&self, id: u32) -> &ArrayVec<u16, 9>
        requires rises { Rises self.now.ids.items }
        requires size { length self.now.zones.items ≡ length self.now.ids.items }
        requires there { Contains self.now.ids.items id }
        ensures { (m : Map) → AreCandidates m self.now → result.now.items ≡ take 9 (zones_with m id) }
    {
        let k = self.place(id).unwrap();
        &self.zones[k]
    }

    // Notes that all runs of an identifier stand in this zone now.
    pub fn set_zone(&mut self, id: u32, z: u16)
        requires rises { Rises self.old.ids.items }
        requires size { length self.old.zones.items ≡ length self.old.ids.items }
        requires there { Contains self.old.ids.items id }
        ensures ids { self.new.ids ≡ self.old.ids }
        ensures size { length self.new.zones.items ≡ length self.old.ids.items }
        ensures here { (k : ℕ) → k < length self.old.ids.items → get_or self.old.ids.items k 0 ≡ id → zones_at self.new k ≡ z ∷ [] }
        ensures others { (k : ℕ) → (get_or self.old.ids.items k 0 ≡ id → ⊥) → zones_at self.new k ≡ zones_at self.old k }
    {
        let k = self.place(id).unwrap();
        put_alone(&mut self.zones[k], z);
    }
}
