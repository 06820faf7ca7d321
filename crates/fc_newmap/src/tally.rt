// A tally of a map's runs by their identifiers, kept while the map is edited.

ghost use Rattle.std.specs.Prelude.{◌≡◌, ◌<◌, ◌≤◌, ◌⊎◌, ◌+◌, ◌^◌, ℕ, true, false, IfOk, IfSome, IsFalse};
ghost use Rattle.std.specs.List.{list_any};
ghost use Rattle.std.specs.Option.{option_map};
ghost use Rattle.fc_zone.specs.declared.RunKind.TheVariants.{Id};
ghost use Rattle.fc_record.specs.Record.{id_limit};
ghost use Rattle.fc_newmap.specs.Map.{bits_in, has_id, id_runs, runs_of};
ghost use Rattle.fc_newmap.specs.NewMap.{IsOfRecord};
ghost use Rattle.fc_newmap.specs.Tally.{HasBits, HasRoom, IsFirstIn, IsRow, IsSearch, IsTally, bits_there, counted, has_run_of, id_runs_in, uncounted, zones_before};

mod rows;

use crate::NewMap;
use crate::runs::{home_zone, zone_up};
use crate::walk::Walk;
use fc_device::NoMemory;
use fc_record::Geometry;
use fc_zone::{Run, RunKind};
use rows::{bits_at, first_start, is_told, no_runs, row_less, start_at};
use std::alloc::Global;

/// What the runs of one identifier come to, and in which zones they are.
#[derive(Clone, Copy)]
pub struct IdTally {
    /// The bits of all of them.
    pub bits: u32,
    /// So many zones at the beginning of the search for the identifier have none of them. There can be more such zones.
    pub ahead: u16,
    /// The zones from this one on, in the order of the search, have none of them. There can be more such zones.
    pub reach: u16,
    /// Where the first of them begins in the zone after those of `ahead`, or 0 if that isn't known.
    pub start: u32,
    /// The run that was counted last. Once its bits are all that are left, it says where the runs are.
    pub newest: NewestRun,
    /// The one counted before it, with other bits. Once the two have all bits that are left, they say where runs are.
    pub former: NewestRun,
}

/// A run that was counted, and all of whose bits are the identifier's still. It can have been split or merged since.
#[derive(Clone, Copy)]
pub struct NewestRun {
    /// The search for the identifier comes to so many zones before that of the run.
    pub before: u16,
    /// Where it begins.
    pub start: u32,
    /// Its bits, or 0 if no such run is known.
    pub len: u32,
}

/// Where a search for the runs of an identifier begins, and how far it goes.
#[derive(Clone, Copy)]
pub struct Search {
    /// So many zones at its beginning have none of them.
    pub ahead: u16,
    /// It comes to so many zones after its first. The zones after those have none of them.
    pub more: u16,
    /// Where the first of them begins in its first zone, or 0 if that isn't known.
    pub start: u32,
}

/// The identifiers of objects are below it. A tally reaches as far.
pub fn id_limit(g: &Geometry) -> u32
    requires { IsOfRecord g.now }
    ensures { result ≡ id_limit g.now }
{
    let ids = u64::from(g.ids_per_zone) * u64::from(g.zones);
    ids.min(1 << g.idlen) as u32
}

// How many zones the search for an identifier comes to before this one.
fn zones_before(g: &Geometry, id: u32, z: u16) -> u16
    requires record { IsOfRecord g.now }
    requires zone { z < g.now.zones }
    ensures value { result ≡ zones_before g.now id z }
    ensures few { g.now.zones < 2 ^ 16 }
{
    let zones = g.zones;
    let home = home_zone(g, id);
    if z >= home {
        z - home
    } else {
        zones - home + z
    }
}

// Counts a run of an identifier, if the rows reach so far.
fn count_in(rows: &mut Vec<IdTally>, g: &Geometry, z: u16, id: u32, run: Run)
    requires record { IsOfRecord g.now }
    requires zone { z < g.now.zones }
    requires room { HasRoom g.now rows.old.items (Id id) run.len }
    ensures { rows.new.items ≡ counted g.now rows.old.items z (Id id) run.start run.len }
{
    let before = zones_before(g, id, z);
    if let Some(row) = rows.get_mut(id as usize) {
        *row = IdTally {
            bits: row.bits + run.len,
            ahead: row.ahead.min(before),
            reach: row.reach.max(before + 1),
            start: first_start(*row, before, run.start),
            newest: NewestRun {
                before,
                start: run.start,
                len: run.len,
            },
            former: row.newest,
        };
    }
}

// Counts a run, if it has an identifier.
fn count_run(rows: &mut Vec<IdTally>, g: &Geometry, z: u16, run: Run)
    requires record { IsOfRecord g.now }
    requires zone { z < g.now.zones }
    requires room { HasRoom g.now rows.old.items run.kind run.len }
    ensures { rows.new.items ≡ counted g.now rows.old.items z run.kind run.start run.len }
{
    if let RunKind::Id(id) = run.kind {
        count_in(rows, g, z, id, run);
    }
}

/// Counts a run that becomes one of an identifier, if there is a tally.
pub fn count(tally: &mut Option<Vec<IdTally>>, g: &Geometry, z: u16, id: u32, run: Run)
    requires record { IsOfRecord g.now }
    requires zone { z < g.now.zones }
    requires room { IfSome tally.old (λ rows. HasRoom g.now rows.items (Id id) run.len) }
    ensures { option_map (λ rows. rows.items) tally.new ≡ option_map (λ rows. counted g.now rows.items z (Id id) run.start run.len) tally.old }
{
    if let Some(rows) = tally {
        count_in(rows, g, z, id, run);
    }
}

// Counts a run of an identifier no more, if the rows reach so far.
fn uncount_in(rows: &mut Vec<IdTally>, g: &Geometry, z: u16, id: u32, run: Run)
    requires record { IsOfRecord g.now }
    requires zone { z < g.now.zones }
    requires bits { HasBits rows.old.items (Id id) run.len }
    ensures { rows.new.items ≡ uncounted g.now rows.old.items z (Id id) run.start run.len }
{
    let before = zones_before(g, id, z);
    if let Some(row) = rows.get_mut(id as usize) {
        *row = row_less(g, *row, before, run);
    }
}

/// Counts a run that is gone no more, if there is a tally.
pub fn uncount(tally: &mut Option<Vec<IdTally>>, g: &Geometry, z: u16, run: Run)
    requires record { IsOfRecord g.now }
    requires zone { z < g.now.zones }
    requires bits { IfSome tally.old (λ rows. HasBits rows.items run.kind run.len) }
    ensures { option_map (λ rows. rows.items) tally.new ≡ option_map (λ rows. uncounted g.now rows.items z run.kind run.start run.len) tally.old }
{
    if let (Some(rows), RunKind::Id(id)) = (tally, run.kind) {
        uncount_in(rows, g, z, id, run);
    }
}

/// The tally of all runs of a map, made in one pass over them.
pub fn tally_of(alloc: Global, map: &NewMap) -> Result<Vec<IdTally>, NoMemory>
    ensures { IfOk result (λ rows. IsTally map.now rows.items) }
{
    let g = map.geometry();
    let mut rows = vec![in alloc; no_runs(g); id_limit(g) as usize]?;
    let mut walk = Walk::over_all(map);
    while let Some((z, run)) = walk.next(map) {
        count_run(&mut rows, g, z, run);
    }
    Ok(rows)
}

// The search that a row allows, over zones the last of which comes after `last` others.
fn search_by(row: IdTally, last: u16) -> Search
    ensures ahead { result.ahead ≤ row.ahead }
    ensures within { result.ahead + result.more ≤ last }
    ensures reach { result.ahead + result.more < last → row.reach ≤ result.ahead + result.more + 1 }
    ensures start { (result.start ≡ 0 → ⊥) → (result.ahead ≡ row.ahead) × (result.start ≡ row.start) }
{
    if row.ahead > last {
        return Search {
            ahead: last,
            more: 0,
            start: 0,
        };
    }
    let end = row.reach.saturating_sub(1).min(last);
    Search {
        ahead: row.ahead,
        more: end.saturating_sub(row.ahead),
        start: row.start,
    }
}

// The least zone from one on that may have runs of an identifier by its row, and the number of zones if none does. The
// zones that may have some follow each other in the search: those before its end, from its first one on.
fn next_zone_by(g: &Geometry, id: u32, row: IdTally, z: u16) -> u16
    requires record { IsOfRecord g.now }
    requires zone { z < g.now.zones }
    ensures onward { z ≤ result }
    ensures low { result ≤ g.now.zones }
    ensures none { (y : ℕ) → z ≤ y → y < result → (zones_before g.now id y < row.ahead) ⊎ (row.reach ≤ zones_before g.now id y) }
{
    if row.ahead >= row.reach || row.ahead >= g.zones {
        return g.zones;
    }
    let before = zones_before(g, id, z);
    if row.ahead <= before && before < row.reach {
        return z;
    }
    let first = zone_up(g, home_zone(g, id), row.ahead);
    if first > z { first } else { g.zones }
}

// The zone of a counted run, if it isn't before zone z, and else the number of zones.
fn next_of_run(g: &Geometry, id: u32, run: NewestRun, z: u16) -> u16
    requires record { IsOfRecord g.now }
    requires zone { z < g.now.zones }
    ensures onward { z ≤ result }
    ensures low { result ≤ g.now.zones }
    ensures none { (y : ℕ) → z ≤ y → y < result → bits_there run (zones_before g.now id y) ≡ 0 }
{
    if run.len == 0 || run.before >= g.zones {
        return g.zones;
    }
    let zone = zone_up(g, home_zone(g, id), run.before);
    if zone >= z { zone } else { g.zones }
}

// The least zone from one on that has one of the two runs that were counted last, and the number of zones if none does.
fn next_of_two(g: &Geometry, id: u32, row: IdTally, z: u16) -> u16
    requires record { IsOfRecord g.now }
    requires zone { z < g.now.zones }
    ensures onward { z ≤ result }
    ensures low { result ≤ g.now.zones }
    ensures none { (y : ℕ) → z ≤ y → y < result → (bits_there row.newest (zones_before g.now id y) ≡ 0) × (bits_there row.former (zones_before g.now id y) ≡ 0) }
{
    let newest = next_of_run(g, id, row.newest, z);
    newest.min(next_of_run(g, id, row.former, z))
}

impl NewMap {
    // What the tally says of an identifier, if it reaches so far.
    fn row(&self, id: u32) -> Option<IdTally>
        ensures { IfSome result (IsRow self.now id) }
    {
        let rows = self.tally.as_ref()?;
        rows.get(id as usize).copied()
    }

    /// A search that comes to all runs of an identifier: as short as the map's tally allows, but nothing rests on that.
    pub(crate) fn search(&self, id: u32) -> Search
        ensures { IsSearch self.now id result }
    {
        let last = self.geometry().zones - 1;
        match self.row(id) {
            Some(row) => search_by(row, last),
            None => Search {
                ahead: 0,
                more: last,
                start: 0,
            },
        }
    }

    /// Whether a zone may have runs of an identifier: `false` only if it has none; `true` says nothing, and is the answer
    /// if the map has no tally. Costs no search.
    pub fn may_have(&self, id: u32, z: u16) -> bool
        requires { z < self.now.geometry.zones }
        ensures { IsFalse result → list_any (λ run. has_id id run.kind) (runs_of self.now z) ≡ false }
    {
        let Some(row) = self.row(id) else {
            return true;
        };
        let before = zones_before(self.geometry(), id, z);
        row.ahead <= before && before < row.reach && bits_at(row, before) > 0
    }

    /// The least zone from one on that may have runs of an identifier, and the number of zones if none does: no zone
    /// before it has one. The zone itself says nothing, and is the answer if the map has no tally. Costs no search.
    pub fn next_zone_of(&self, id: u32, z: u16) -> u16
        requires { z ≤ self.now.geometry.zones }
        ensures onward { z ≤ result }
        ensures low { result ≤ self.now.geometry.zones }
        ensures none { (y : ℕ) → z ≤ y → y < result → has_run_of self.now id y ≡ false }
    {
        let g = self.geometry();
        if z == g.zones {
            return z;
        }
        match self.row(id) {
            Some(row) if is_told(row) => next_of_two(g, id, row, z),
            Some(row) => next_zone_by(g, id, row, z),
            None => z,
        }
    }

    /// A zone that has runs of an identifier: the only one, by the map's tally. `None` says nothing. Costs no search.
    pub fn only_zone_of(&self, id: u32) -> Option<u16>
        ensures { IfSome result (λ z. (z < self.now.geometry.zones) × (has_run_of self.now id z ≡ true)) }
    {
        let g = self.geometry();
        let row = self.row(id)?;
        if row.bits == 0 || row.ahead >= g.zones || row.reach != row.ahead + 1 {
            return None;
        }
        Some(zone_up(g, home_zone(g, id), row.ahead))
    }

    /// Makes the tally of the runs of all identifiers, in one pass over the runs, unless there is one. If memory is short,
    /// the map is searched as before.
    pub fn tally(&mut self, alloc: Global) -> Result<(), NoMemory>
        ensures { self.new ≡ self.old }
    {
        if self.tally.is_some() {
            return Ok(());
        }
        let rows = tally_of(alloc, self)?;
        self.tally = Some(rows);
        Ok(())
    }

    /// At least the bits of an identifier's runs in a zone, by the map's tally. `None` says nothing: there is no tally, or
    /// it doesn't reach so far. Costs no search.
    pub fn bits_in_zone(&self, id: u32, z: u16) -> Option<u64>
        requires { z < self.now.geometry.zones }
        ensures { IfSome result (λ bits. bits_in (id_runs_in self.now id z) ≤ bits) }
    {
        let row = self.row(id)?;
        let before = zones_before(self.geometry(), id, z);
        Some(bits_at(row, before))
    }

    /// Where the first run of an identifier in a zone begins, if the last two that were counted are all of its runs.
    pub(crate) fn start_told(&self, id: u32, z: u16) -> Option<u32>
        requires { z < self.now.geometry.zones }
        ensures { IfSome result (IsFirstIn self.now id z) }
    {
        let row = self.row(id)?;
        let before = zones_before(self.geometry(), id, z);
        start_at(row, before)
    }

    /// The bits of all runs of an identifier, by the map's tally. `None` says nothing: there is no tally, or it doesn't
    /// reach so far. Costs no search.
    pub fn bits_of(&self, id: u32) -> Option<u64>
        ensures { IfSome result (λ bits. bits ≡ bits_in (id_runs self.now id)) }
    {
        let row = self.row(id)?;
        Some(u64::from(row.bits))
    }
}
