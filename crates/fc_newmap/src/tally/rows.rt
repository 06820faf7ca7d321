// The rows of a tally, and what a run more or less makes of them.

ghost use Rattle.std.specs.Prelude.{◌≡◌, ◌≤◌};
ghost use Rattle.fc_newmap.specs.Tally.{bits_at, bits_there, first_of_two, first_start, former_of, is_told, meets, newest_left, newest_of, no_newest, no_runs, row_less, row_only, start_at, start_left};

use super::{IdTally, NewestRun};
use fc_record::Geometry;
use fc_zone::Run;

// No newest run is known.
fn no_newest() -> NewestRun
    ensures { result ≡ no_newest }
{
    NewestRun {
        before: 0,
        start: 0,
        len: 0,
    }
}

/// The row of an identifier without runs.
pub fn no_runs(g: &Geometry) -> IdTally
    ensures { result ≡ no_runs g.now }
{
    IdTally {
        bits: 0,
        ahead: g.zones,
        reach: 0,
        start: 0,
        newest: no_newest(),
        former: no_newest(),
    }
}

/// Where the first run begins, with a run more that begins at `start` in a zone after `before` zones of the search.
pub fn first_start(row: IdTally, before: u16, start: u32) -> u32
    ensures { result ≡ first_start row before start }
{
    if before < row.ahead {
        start
    } else if before == row.ahead {
        row.start.min(start)
    } else {
        row.start
    }
}

// Where the first run begins when a run goes: that isn't known, if that one was the first.
fn start_left(row: IdTally, before: u16, start: u32) -> u32
    ensures { result ≡ start_left row before start }
{
    if before == row.ahead && start == row.start {
        0
    } else {
        row.start
    }
}

// Whether a run in a zone after `before` zones of the search and the newest have bits in common.
fn meets(newest: NewestRun, before: u16, run: Run) -> bool
    ensures { result ≡ meets newest before run.start run.len }
{
    if before != newest.before {
        false
    } else if run.start <= newest.start {
        newest.start - run.start < run.len
    } else {
        run.start - newest.start < newest.len
    }
}

// The newest run, or the one before it, when a run goes: it isn't known, if they have bits in common.
fn newest_left(newest: NewestRun, before: u16, run: Run) -> NewestRun
    ensures { result ≡ newest_left newest before run.start run.len }
{
    if meets(newest, before, run) {
        no_newest()
    } else {
        newest
    }
}

// The newest of the two runs that are left.
fn newest_of(newest: NewestRun, former: NewestRun) -> NewestRun
    ensures { result ≡ newest_of newest former }
{
    if newest.len == 0 { former } else { newest }
}

// The one before the newest of the two runs that are left.
fn former_of(newest: NewestRun, former: NewestRun) -> NewestRun
    ensures { result ≡ former_of newest former }
{
    if newest.len == 0 { no_newest() } else { former }
}

// The row of an identifier all of whose bits are those of the newest run.
fn row_only(row: IdTally) -> IdTally
    ensures { result ≡ row_only row }
{
    IdTally {
        ahead: row.ahead.max(row.newest.before),
        reach: row.reach.min(row.newest.before.saturating_add(1)),
        start: row.newest.start,
        ..row
    }
}

/// A row with a run less, which was in a zone after `before` zones of the search.
pub fn row_less(g: &Geometry, row: IdTally, before: u16, run: Run) -> IdTally
    requires { run.len ≤ row.bits }
    ensures { result ≡ row_less g.now row before run.start run.len }
{
    if row.bits == run.len {
        return no_runs(g);
    }
    let newest = newest_left(row.newest, before, run);
    let former = newest_left(row.former, before, run);
    let left = IdTally {
        bits: row.bits - run.len,
        start: start_left(row, before, run.start),
        newest: newest_of(newest, former),
        former: former_of(newest, former),
        ..row
    };
    if left.bits == left.newest.len {
        row_only(left)
    } else {
        left
    }
}

/// Whether all bits of the identifier are those of the two runs that were counted last.
pub fn is_told(row: IdTally) -> bool
    ensures { result ≡ is_told row }
{
    u64::from(row.bits) == u64::from(row.newest.len) + u64::from(row.former.len)
}

// The bits that a counted run has in the zone after `before` zones of the search.
fn bits_there(run: NewestRun, before: u16) -> u32
    ensures { result ≡ bits_there run before }
{
    if before == run.before { run.len } else { 0 }
}

/// The bits of the identifier in the zone after `before` zones of the search, or more.
pub fn bits_at(row: IdTally, before: u16) -> u64
    ensures { result ≡ bits_at row before }
{
    if is_told(row) {
        u64::from(bits_there(row.newest, before)) + u64::from(bits_there(row.former, before))
    } else {
        u64::from(row.bits)
    }
}

// Where the first of the two runs that were counted last begins in the zone after `before` zones of the search.
fn first_of_two(row: IdTally, before: u16) -> Option<u32>
    ensures { result ≡ first_of_two row before }
{
    let newest = bits_there(row.newest, before);
    let former = bits_there(row.former, before);
    if newest == 0 {
        return if former == 0 {
            None
        } else {
            Some(row.former.start)
        };
    }
    if former == 0 {
        return Some(row.newest.start);
    }
    Some(row.newest.start.min(row.former.start))
}

/// Where the identifier's first run begins in the zone after `before` zones of the search, if the row tells all zones.
pub fn start_at(row: IdTally, before: u16) -> Option<u32>
    ensures { result ≡ start_at row before }
{
    if is_told(row) {
        first_of_two(row, before)
    } else {
        None
    }
}
