// New maps in memory.

ghost use Rattle.std.specs.Prelude.{◌≡◌, ◌+◌, ◌*◌, ◌<◌, ◌≤◌, ◌^◌, length, slice_get, slice_set, ◌++◌, ◌∷◌, List, IsTrue, IfOk, IfSome, IfNone, Ok, Err, MatchResult, OnOk};
ghost use Rattle.std.specs.List.{zip};
ghost use Rattle.fc_zone.specs.declared.RunKind.{RunKind};
ghost use Rattle.fc_zone.specs.Edits.{HasHoleAt, HasRunAt, HasRunToSplit, HasRunsToMerge, sealed};
ghost use Rattle.fc_zone.specs.Reading.{zone_of};
ghost use Rattle.fc_zone.specs.declared.Run.{Run};
ghost use Rattle.fc_zone.specs.Zone.{HasRun, Zone};
ghost use Rattle.fc_bytes.specs.Bits.{overwritten};
ghost use Rattle.byteorder.specs.Endian.{little_bytes};
ghost use Rattle.fc_record.specs.Record.{is_root_right, is_root_size_right};
ghost use Rattle.fc_newmap.specs.Map.{first_fault, runs_of, sector_of, shape, with_cross, with_root, with_zone, zone_numbers, zones_in};
ghost use Rattle.fc_newmap.specs.Edits.{IsEdit, KeepsRuns, MergesIn, RelabelsIn, SplitsIn, WritesLinksOf};
ghost use Rattle.fc_newmap.specs.NewMap.{IsNewMap, IsOfRecord, map_in, rooted};
ghost use Rattle.fc_newmap.specs.Loaded.{loaded};
ghost use Rattle.fc_newmap.specs.RunsLaw.{HasZones};

use crate::MapError;
use crate::shapes::{place_of, sector_in, shape_of};
use crate::tally::{IdTally, count, uncount};
use byteorder::{ByteOrder, LittleEndian};
use fc_record::Geometry;
use fc_zone::{Run, ZoneFault, check_zone};
use std::marker::Model;

/// One copy of a new map, read and edited in place: its zones in one buffer, one sector each.
///
/// Contracts see its geometry and the list of its sectors. The geometry is that of a valid record, and each zone has
/// runs. A zone's number, if a call takes one, is less than the geometry's number of zones.
///
/// `tally` counts the runs of each identifier, so that searches for them are short. Every edit keeps the counts right.
#[derive(Drop)]
pub struct NewMap {
    geometry: Geometry,
    zones: Vec<u8>,
    // What the runs of each identifier come to. `None`: it was not made, or memory was short.
    pub(crate) tally: Option<Vec<IdTally>>,
}

impl Model for NewMap {
    ghost use Rattle.fc_newmap.specs.Map.{Map};
    ghost use Rattle.fc_newmap.specs.NewMap.{map_in};
    ghost use Rattle.fc_newmap.specs.Tally.{IsTallied};

    ghost Value = { Map };

    ghost view = { λ m. map_in m.geometry m.zones.items };

    ghost invariant = { λ m. IsTallied m.geometry m.zones.items m.tally };
}

// Whether a zone of a copy has runs.
fn check(zones: &[u8], g: &Geometry, z: u16) -> Result<(), ZoneFault>
    requires whole { length zones.now ≡ g.now.zones * g.now.sector }
    requires geometry { IsOfRecord g.now }
    requires zone { z < g.now.zones }
    ensures right { OnOk result (Zone (shape g.now z) (sector_of (map_in g.now zones.now) z) (runs_of (map_in g.now zones.now) z)) }
    ensures reads { MatchResult result (λ _. zone_of (shape g.now z) (sector_of (map_in g.now zones.now) z) ≡ Ok (runs_of (map_in g.now zones.now) z)) (λ fault. zone_of (shape g.now z) (sector_of (map_in g.now zones.now) z) ≡ Err fault) }
{
    let shape = shape_of(g, z);
    check_zone(sector_in(zones, g, z), &shape)
}

// The fault of the first zone of a copy that has one.
fn first_fault(zones: &[u8], g: &Geometry) -> Option<ZoneFault>
    requires whole { length zones.now ≡ g.now.zones * g.now.sector }
    requires geometry { IsOfRecord g.now }
    ensures fault { result ≡ first_fault g.now (zip (zone_numbers g.now) (zones_in g.now zones.now)) }
    ensures right { IfNone result (HasZones (map_in g.now zones.now)) }
{
    for z in 0..g.zones {
        if let Err(fault) = check(zones, g, z) {
            return Some(fault);
        }
    }
    None
}

impl NewMap {
    /// The map whose zones stand one after another in `zones`, which is one whole copy. The geometry is that of a valid
    /// record. `Zone` exactly if a zone has no runs, with the fault of the first such zone. No memory is taken.
    pub fn load(zones: Vec<u8>, g: Geometry) -> Result<NewMap, MapError>
        requires whole { length zones.items ≡ g.zones * g.sector }
        requires geometry { IsOfRecord g }
        ensures value { result ≡ loaded g zones.items }
        ensures map { IfOk result IsNewMap }
    {
        match first_fault(&zones, &g) {
            None => Ok(NewMap {
                geometry: g,
                zones,
                tally: None,
            }),
            Some(fault) => Err(MapError::Zone(fault)),
        }
    }

    /// The geometry of the disc.
    pub fn geometry(&self) -> &Geometry
        ensures value { result.now ≡ self.now.geometry }
        ensures map { IsNewMap self.now }
    {
        &self.geometry
    }

    /// Every map in memory is one. Nothing is done: a caller has this of a map that it changes afterwards.
    pub fn is_map(&self)
        ensures { IsNewMap self.now }
    {
        let _ = &self.geometry;
    }

    /// The sector of a zone.
    pub fn bytes(&self, z: u16) -> &[u8]
        requires { z < self.now.geometry.zones }
        ensures value { result.now ≡ sector_of self.now z }
        ensures long { length result.now ≡ self.now.geometry.sector }
        ensures map { IsNewMap self.now }
    {
        sector_in(&self.zones, &self.geometry, z)
    }

    /// Turns the hole of a zone that begins at `start` into a run of an identifier.
    ///
    /// This and the edits below are those of `fc_zone` in one zone: every other zone keeps its bytes, and in the zone every
    /// bit outside FreeLink and the runs stays, ZoneCheck too, which `seal` writes. Links that name what they named keep
    /// all their bits. None takes memory.
    pub fn label(&mut self, z: u16, start: u32, id: u32)
        requires zone { z < self.old.geometry.zones }
        requires hole { HasHoleAt (shape self.old.geometry z) (sector_of self.old z) start }
        requires some_id { 0 < id }
        requires id_fits { id < 2 ^ self.old.geometry.idlen }
        ensures edit { IsEdit self.old self.new z }
        ensures runs { RelabelsIn self.old self.new z start (RunKind.Id id) }
        ensures links { WritesLinksOf self.old self.new z }
    {
        let shape = shape_of(&self.geometry, z);
        let from = place_of(&self.geometry, z);
        let size = self.geometry.sector as usize;
        let hole = self.run_from(z, start);
        fc_zone::label(&mut self.zones[from..from + size], &shape, start, id);
        count(&mut self.tally, &self.geometry, z, id, hole);
    }

    /// Turns the run of a zone that begins at `start` into a hole, and joins it with none.
    pub fn release(&mut self, z: u16, start: u32)
        requires zone { z < self.old.geometry.zones }
        requires run { HasRunAt (shape self.old.geometry z) (sector_of self.old z) start }
        ensures edit { IsEdit self.old self.new z }
        ensures runs { RelabelsIn self.old self.new z start RunKind.Hole }
        ensures links { WritesLinksOf self.old self.new z }
    {
        let shape = shape_of(&self.geometry, z);
        let from = place_of(&self.geometry, z);
        let size = self.geometry.sector as usize;
        let run = self.run_from(z, start);
        fc_zone::release(&mut self.zones[from..from + size], &shape, start);
        uncount(&mut self.tally, &self.geometry, z, run);
    }

    /// Cuts the run of a zone that begins at `start` into two of its kind, the first of `len` bits. Both parts have at least
    /// the geometry's `min` bits and are multiples of its `q`.
    pub fn split(&mut self, z: u16, start: u32, len: u32)
        requires zone { z < self.old.geometry.zones }
        requires run { HasRunToSplit (shape self.old.geometry z) (sector_of self.old z) start len }
        ensures edit { IsEdit self.old self.new z }
        ensures runs { SplitsIn self.old self.new z start len }
        ensures links { WritesLinksOf self.old self.new z }
    {
        let shape = shape_of(&self.geometry, z);
        let from = place_of(&self.geometry, z);
        let size = self.geometry.sector as usize;
        fc_zone::split(&mut self.zones[from..from + size], &shape, start, len);
    }

    /// Joins the run of a zone that begins at `start` with the next, which is of its kind: both are holes, or of one
    /// identifier.
    pub fn merge(&mut self, z: u16, start: u32)
        requires zone { z < self.old.geometry.zones }
        requires runs { HasRunsToMerge (shape self.old.geometry z) (sector_of self.old z) start }
        ensures edit { IsEdit self.old self.new z }
        ensures runs { MergesIn self.old self.new z start }
        ensures links { WritesLinksOf self.old self.new z }
    {
        let shape = shape_of(&self.geometry, z);
        let from = place_of(&self.geometry, z);
        let size = self.geometry.sector as usize;
        fc_zone::merge(&mut self.zones[from..from + size], &shape, start);
    }

    /// Writes the right ZoneCheck into a zone, and changes no other byte.
    pub fn seal(&mut self, z: u16)
        requires { z < self.old.geometry.zones }
        ensures map { self.new ≡ with_zone self.old z (sealed (sector_of self.old z)) }
        ensures runs { KeepsRuns self.old self.new }
    {
        let from = place_of(&self.geometry, z);
        let size = self.geometry.sector as usize;
        fc_zone::seal(&mut self.zones[from..from + size]);
    }

    /// Replaces a zone's CrossCheck, and no other byte.
    pub fn set_cross(&mut self, z: u16, v: u8)
        requires { z < self.old.geometry.zones }
        ensures map { self.new ≡ with_cross self.old z v }
        ensures runs { KeepsRuns self.old self.new }
    {
        let from = place_of(&self.geometry, z);
        let size = self.geometry.sector as usize;
        put_cross(&mut self.zones[from..from + size], v);
    }

    /// Replaces the root and the root's size in the record of zone 0, and no other byte. With them the record stays
    /// valid (docs/FORMAT.md, "Valid records").
    pub fn set_root(&mut self, root: u32, size: u32)
        requires root { IsTrue (is_root_right (rooted self.old root size)) }
        requires size { IsTrue (is_root_size_right (rooted self.old root size)) }
        ensures map { self.new ≡ with_zone self.old 0 (with_root (sector_of self.old 0) root size) }
        ensures runs { KeepsRuns self.old self.new }
    {
        let from = place_of(&self.geometry, 0);
        let sector = self.geometry.sector as usize;
        put_root(&mut self.zones[from..from + sector], root, size);
    }

    /// The first run of a zone, and `None` if the zone has no bits.
    pub fn first_in(&self, z: u16) -> Option<Run>
        requires { z < self.now.geometry.zones }
        ensures value { result ≡ slice_get (runs_of self.now z) 0 }
        ensures run { IfSome result (HasRun (shape self.now.geometry z) (sector_of self.now z)) }
    {
        let shape = shape_of(&self.geometry, z);
        fc_zone::first(sector_in(&self.zones, &self.geometry, z), &shape)
    }

    /// The run that follows a run of a zone, and `None` at the zone's last.
    pub fn next_in(&self, z: u16, after: Run) -> Option<Run>
        requires zone { z < self.now.geometry.zones }
        requires run { HasRun (shape self.now.geometry z) (sector_of self.now z) after }
        ensures value { (front rest : List Run) → runs_of self.now z ≡ front ++ after ∷ rest → result ≡ slice_get rest 0 }
        ensures run { IfSome result (λ run. HasRun (shape self.now.geometry z) (sector_of self.now z) run × (run.start ≡ after.start + after.len)) }
    {
        let shape = shape_of(&self.geometry, z);
        fc_zone::next(sector_in(&self.zones, &self.geometry, z), &shape, after)
    }

    /// The run that begins at a place of a zone, if one does. Of the zone only the links of the holes before the place
    /// are read, and no other run.
    pub fn run_from(&self, z: u16, start: u32) -> Run
        requires zone { z < self.now.geometry.zones }
        requires run { HasRunAt (shape self.now.geometry z) (sector_of self.now z) start }
        ensures value { (front rest : List Run) (run : Run) → runs_of self.now z ≡ front ++ run ∷ rest → run.start ≡ start → result ≡ run }
        ensures run { HasRun (shape self.now.geometry z) (sector_of self.now z) result }
    {
        let shape = shape_of(&self.geometry, z);
        fc_zone::run_beginning(sector_in(&self.zones, &self.geometry, z), &shape, start)
    }
}

/// The place of CrossCheck in a sector.
const CROSS_CHECK: usize = 3;

/// The places of the root and of its size in the sector of zone 0, whose record begins at byte 4.
const ROOT: usize = 4 + 12;

const ROOT_SIZE: usize = 4 + 48;

// Writes a sector's CrossCheck.
fn put_cross(b: &mut [u8], v: u8)
    requires { 3 < length b.old }
    ensures { b.new ≡ slice_set b.old 3 v }
{
    b[CROSS_CHECK] = v;
}

// Writes a number into the four bytes from byte `at` on, the lowest first.
fn put_u32(b: &mut [u8], at: usize, v: u32)
    requires { at + 4 ≤ length b.old }
    ensures { b.new ≡ overwritten b.old at (little_bytes 4 v) }
{
    LittleEndian::write_u32(&mut b[at..], v);
}

// Writes the root and its size into the sector of zone 0.
fn put_root(b: &mut [u8], root: u32, size: u32)
    requires { 56 ≤ length b.old }
    ensures { b.new ≡ with_root b.old root size }
{
    put_u32(b, ROOT, root);
    put_u32(b, ROOT_SIZE, size);
}
