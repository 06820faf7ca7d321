// The lost runs of a zone, which become holes.
ghost use Rattle.std.specs.Prelude.{◌≡◌, ◌<◌, ◌≤◌, ◌+◌, ◌-◌, ◌++◌, ◌∷◌, List, Some, None, IsFalse, IsTrue, slice_get, if◌then◌else◌};
ghost use Rattle.fc_record.specs.Record.{end_bit, first_bit};
ghost use Rattle.fc_zone.specs.declared.Run.{Run};
ghost use Rattle.fc_zone.specs.declared.RunKind.TheVariants.{Hole};
ghost use Rattle.fc_zone.specs.Cursor.{StandsBetween};
ghost use Rattle.fc_zone.specs.Zone.{IsShapeOf};
ghost use Rattle.fc_newmap.specs.Edits.{IsEdit};
ghost use Rattle.fc_newmap.specs.Map.{bits_in, is_hole, runs_of};
ghost use Rattle.fc_newmap.specs.NewMap.{IsNewMap};
ghost use Rattle.fc_newmap.specs.Walk.{IsInZone};
ghost use Rattle.fc_plan.specs.Giving.{AreTwoHoles, IsNext, joined};
ghost use Rattle.fc_reclaim.specs.Lost.{goes_back, is_lost_by};
ghost use Rattle.fc_reclaim.specs.Zone.{AreHoles, FollowsChain, IsReclaimedIn, behind_holes, chain_after, given, going, joined_all, left_after};

use crate::rows::{boot_row, map_row, meet};
use fc_alloc::Owners;
use fc_newmap::{MAP_ID, NewMap, Walk, extent_of};
use fc_zone::{Cursor, Run, RunKind, ZoneShape};

/// The identifier of defects.
const DEFECTS: u32 = 1;

// Whether no owner has an identifier, which is neither that of defects nor that of the map.
fn is_lost(owners: &Owners, id: u32) -> bool
    ensures { result ≡ is_lost_by owners.now id }
{
    !owners.owned(id) && id != DEFECTS && id != MAP_ID
}

// Whether a run is a hole.
fn is_hole(run: Run) -> bool
    ensures { result ≡ is_hole run.kind }
{
    match run.kind {
        RunKind::Hole => true,
        RunKind::Id(_) => false,
    }
}

// Whether a run of a zone is lost, and holds no sector of the map or, if a boot block fits, of that.
fn goes_back(map: &NewMap, owners: &Owners, boot: bool, z: u16, run: Run) -> bool
    requires run { IsInZone map.now.geometry (z, run) }
    ensures { result ≡ goes_back boot owners.now map.now.geometry (z, run) }
{
    let RunKind::Id(id) = run.kind else {
        return false;
    };
    let g = map.geometry();
    let place = extent_of(g, z, run);
    let of_map = meet(place, map_row(g));
    let of_boot = meet(place, boot_row(g, boot));
    is_lost(owners, id) && !of_map && !of_boot
}

// Joins two holes of a zone, one after the other.
fn join(map: &mut NewMap, z: u16, one: Run, two: Run) -> Run
    requires holes { AreTwoHoles map.old z one two }
    requires map { IsNewMap map.old }
    ensures edit { IsEdit map.old map.new z }
    ensures runs { (front rest : List Run) → runs_of map.old z ≡ front ++ one ∷ two ∷ rest → runs_of map.new z ≡ front ++ joined one two ∷ rest }
    ensures value { result ≡ joined one two }
{
    map.merge(z, one.start);
    Run {
        len: one.len + two.len,
        ..one
    }
}

// Joins a hole of a zone with all holes that follow it, one after another.
fn join_all(map: &mut NewMap, z: u16, first: Run) -> Run
    requires run { IsNext map.old z None first }
    requires kind { first.kind ≡ Hole }
    requires map { IsNewMap map.old }
    ensures edit { IsEdit map.old map.new z }
    ensures runs { (front rest : List Run) → runs_of map.old z ≡ front ++ first ∷ rest → runs_of map.new z ≡ front ++ joined_all first rest ∷ behind_holes rest }
    ensures value { (front rest : List Run) → runs_of map.old z ≡ front ++ first ∷ rest → result ≡ joined_all first rest }
{
    let mut hole = first;
    while let Some(next) = map.next_in(z, hole) {
        if !is_hole(next) {
            return hole;
        }
        hole = join(map, z, hole, next);
    }
    hole
}

// Turns a run of a zone into a hole, and joins it with all holes around it. `chain` is the first of the holes that touch each
// other up to the run. Answers the hole.
fn give_back(map: &mut NewMap, z: u16, chain: Option<Run>, run: Run) -> Run
    requires run { FollowsChain map.old z chain run }
    requires map { IsNewMap map.old }
    ensures edit { IsEdit map.old map.new z }
    ensures runs { (front links rest : List Run) → runs_of map.old z ≡ front ++ (links ++ run ∷ rest) → chain ≡ slice_get links 0 → AreHoles links
        → runs_of map.new z ≡ front ++ given links run rest ∷ behind_holes rest }
    ensures value { (front links rest : List Run) → runs_of map.old z ≡ front ++ (links ++ run ∷ rest) → chain ≡ slice_get links 0 → AreHoles links → result ≡ given links run rest }
{
    map.release(z, run.start);
    let hole = Run {
        kind: RunKind::Hole,
        ..run
    };
    join_all(map, z, chain.unwrap_or(hole))
}

// The first of the holes that touch each other up to the end of a run.
fn chain_after(chain: Option<Run>, run: Run) -> Option<Run>
    ensures { result ≡ chain_after chain run }
{
    if is_hole(run) {
        Some(chain.unwrap_or(run))
    } else {
        None
    }
}

// Gives a run of a zone back, if it goes back. Answers the first of the holes that touch each other up to the place after it.
fn pass(map: &mut NewMap, z: u16, chain: Option<Run>, run: Run, goes: bool) -> Option<Run>
    requires run { FollowsChain map.old z chain run }
    requires map { IsNewMap map.old }
    ensures edit { IsEdit map.old map.new z }
    ensures runs { IsTrue goes → (front links rest : List Run) → runs_of map.old z ≡ front ++ (links ++ run ∷ rest) → chain ≡ slice_get links 0 → AreHoles links
        → (runs_of map.new z ≡ front ++ given links run rest ∷ behind_holes rest) × (result ≡ Some (given links run rest)) }
    ensures stays { IsFalse goes → result ≡ chain_after chain run }
    ensures same { IsFalse goes → map.new ≡ map.old }
{
    if !goes {
        return chain_after(chain, run);
    }
    Some(give_back(map, z, chain, run))
}

// Goes past the holes that come next, if they are joined with a run that goes back.
fn past_holes(b: &[u8], shape: &ZoneShape, place: Cursor, goes: bool) -> Cursor
    requires shape { IsShapeOf b.now shape.now }
    requires stands { (done left : List Run) × StandsBetween shape.now b.now done left place }
    ensures stands { (done left : List Run) → StandsBetween shape.now b.now done left place → (passed : List Run) × StandsBetween shape.now b.now passed (left_after goes left) result }
    ensures onward { shape.now.end - result.at ≤ shape.now.end - place.at }
    ensures past { place.at ≤ result.at }
{
    let mut past = place;
    if !goes {
        return past;
    }
    let mut ahead = past;
    while let Some(next) = ahead.next(b, shape) {
        if !is_hole(next) {
            return past;
        }
        past = ahead;
    }
    past
}

// The bits of a run, if it goes back.
fn bits_of(run: Run, goes: bool) -> u32
    ensures { result ≡ (if goes then run.len else 0) }
{
    if goes { run.len } else { 0 }
}

// Gives the lost runs of a zone back, in one pass over the zone's words, and answers their bits.
pub fn reclaim_in(map: &mut NewMap, z: u16, owners: &Owners, boot: bool) -> u32
    requires zone { z < map.old.geometry.zones }
    requires map { IsNewMap map.old }
    ensures edit { IsEdit map.old map.new z }
    ensures reclaimed { IsReclaimedIn (goes_back boot owners.now map.old.geometry) map.old map.new z }
    ensures bits { result ≡ bits_in (going (goes_back boot owners.now map.old.geometry) z (runs_of map.old z)) }
    ensures short { first_bit z + result ≤ end_bit map.old.geometry z }
    ensures same { result ≡ 0 → map.new ≡ map.old }
{
    let walk = Walk::from_zone(map, z, 0);
    let shape = walk.shape;
    let mut place = walk.place;
    let mut chain = None;
    let mut bits = 0;
    while let Some(run) = place.next(map.bytes(z), &shape) {
        let goes = goes_back(map, owners, boot, z, run);
        place = past_holes(map.bytes(z), &shape, place, goes);
        chain = pass(map, z, chain, run, goes);
        bits += bits_of(run, goes);
    }
    bits
}
