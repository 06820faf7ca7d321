// A hole and a run that change places in a map in memory.
ghost use Rattle.std.specs.Prelude.{◌≡◌, ◌<◌, ◌≤◌, ◌+◌, ◌^◌, ◌%◌, ◌++◌, ◌∷◌, List};
ghost use Rattle.fc_zone.specs.declared.Run.{Run};
ghost use Rattle.fc_newmap.specs.Edits.{IsEdit};

use fc_newmap::NewMap;

/// A run that slides into the hole before it: their zone, where the hole starts, the run's identifier, and the bits of the
/// hole and of the run.
#[derive(Clone, Copy, Debug)]
pub struct Slide {
    pub zone: u16,
    pub start: u32,
    pub id: u32,
    pub hole: u32,
    pub len: u32,
}

ghost use Rattle.fc_compact.specs.Slides.{CanShift, HasRuns, HasShifted, IsPart, hole_at, part, row, run_at};

// Joins a run with the part of it before, if there is one.
fn merge_front(map: &mut NewMap, z: u16, start: u32, id: u32, done: u32, len: u32)
    requires zone { z < map.old.geometry.zones }
    requires row { (front rest : List Run) × HasRuns map.old z (front ++ part start done id (run_at (start + done) len id ∷ rest)) }
    ensures runs { (front rest : List Run) → HasRuns map.old z (front ++ part start done id (run_at (start + done) len id ∷ rest))
        → HasRuns map.new z (front ++ run_at start (done + len) id ∷ rest) }
    ensures edit { IsEdit map.old map.new z }
{
    map.is_map();
    if done > 0 {
        map.merge(z, start);
    }
}

// Cuts a run after `len` bits, if more are left of it.
fn cut_back(map: &mut NewMap, z: u16, start: u32, id: u32, len: u32, left: u32)
    requires zone { z < map.old.geometry.zones }
    requires whole { len % map.old.geometry.q ≡ 0 }
    requires room { map.old.geometry.min ≤ len }
    requires left { IsPart map.old.geometry.min left }
    requires row { (front rest : List Run) × HasRuns map.old z (front ++ run_at start (len + left) id ∷ rest) }
    ensures runs { (front rest : List Run) → HasRuns map.old z (front ++ run_at start (len + left) id ∷ rest)
        → HasRuns map.new z (front ++ run_at start len id ∷ part (start + len) left id rest) }
    ensures edit { IsEdit map.old map.new z }
{
    map.is_map();
    if left > 0 {
        map.split(z, start, len);
    }
}

// Makes one run of a hole and the parts of a run before and after it.
fn close(map: &mut NewMap, z: u16, start: u32, id: u32, done: u32, hole: u32, left: u32)
    requires zone { z < map.old.geometry.zones }
    requires some_id { 0 < id }
    requires id_fits { id < 2 ^ map.old.geometry.idlen }
    requires fits { start + done + hole + left < 2 ^ 32 }
    requires some { 0 < left }
    requires row { (front rest : List Run) × HasRuns map.old z (front ++ row start id done hole left rest) }
    ensures runs { (front rest : List Run) → HasRuns map.old z (front ++ row start id done hole left rest)
        → HasRuns map.new z (front ++ run_at start (done + hole + left) id ∷ rest) }
    ensures edit { IsEdit map.old map.new z }
{
    map.is_map();
    map.label(z, start + done, id);
    merge_front(map, z, start, id, done, hole);
    map.merge(z, start);
}

// Cuts a hole out of a run, `done` bits after its start.
fn open(map: &mut NewMap, z: u16, start: u32, id: u32, done: u32, hole: u32, left: u32)
    requires zone { z < map.old.geometry.zones }
    requires fits { start + done + hole + left < 2 ^ 32 }
    requires done_whole { done % map.old.geometry.q ≡ 0 }
    requires hole_whole { hole % map.old.geometry.q ≡ 0 }
    requires done_room { map.old.geometry.min ≤ done }
    requires hole_room { map.old.geometry.min ≤ hole }
    requires left { IsPart map.old.geometry.min left }
    requires row { (front rest : List Run) × HasRuns map.old z (front ++ run_at start (done + hole + left) id ∷ rest) }
    ensures runs { (front rest : List Run) → HasRuns map.old z (front ++ run_at start (done + hole + left) id ∷ rest)
        → HasRuns map.new z (front ++ run_at start done id ∷ hole_at (start + done) hole ∷ part (start + done + hole) left id rest) }
    ensures edit { IsEdit map.old map.new z }
{
    map.is_map();
    map.split(z, start, done);
    cut_back(map, z, start + done, id, hole, left);
    map.release(z, start + done);
}

// Moves the hole of a slide `n` bits up over the run that follows it, of which `done` bits stand before it.
pub fn shift(map: &mut NewMap, slide: Slide, done: u32, n: u32)
    requires some_id { 0 < slide.id }
    requires id_fits { slide.id < 2 ^ map.old.geometry.idlen }
    requires shift { CanShift map.old slide done n }
    ensures shifted { HasShifted map.old map.new slide done n }
    ensures edit { IsEdit map.old map.new slide.zone }
{
    let Slide {
        zone,
        start,
        id,
        hole,
        len,
    } = slide;
    close(map, zone, start, id, done, hole, len - done);
    open(map, zone, start, id, done + n, hole, len - (done + n));
}
