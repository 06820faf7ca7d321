// The least low byte of an identifier from which on its owners leave so many sectors of it free.

ghost use Rattle.std.specs.Prelude.{◌≡◌, ◌<◌, ◌≤◌, ◌+◌, ◌^◌, ℕ, nat_le};
ghost use Rattle.std.specs.List.Sorted.{IsNonDecreasingBy};
ghost use Rattle.fc_placing.specs.Lows.{IsLow, IsPast, is_clear, start_of};

use fc_alloc::Owner;
use fc_newmap::NewMap;
use fc_space::low_start;

/// More than any low byte.
pub const LOW_LIMIT: u32 = 256;

// Whether what an owner has of its identifier ends before a sector of it.
fn ends_by(o: &Owner, first: u64) -> bool
    ensures { result ≡ nat_le (o.now.first + o.now.sectors) first }
{
    o.sectors <= first && o.first <= first - o.sectors
}

// Whether an owner has none of `need` sectors of its identifier from `first` on.
fn is_clear(o: &Owner, first: u64, need: u64) -> bool
    requires few { first + need < 2 ^ 64 }
    ensures { result ≡ is_clear first need o.now }
{
    first + need <= o.first || ends_by(o, first) || o.sectors == 0
}

// How many sectors into its identifier a low byte begins, where each begins `step` sectors after the one before.
fn start_of(step: u64, low: u32) -> u64
    requires step { step < 2 ^ 34 }
    requires low { low < 256 }
    ensures { result ≡ start_of step low }
{
    u64::from(low).saturating_sub(1) * step
}

// The least low byte, from one on, that begins after what an owner has.
fn low_behind(step: u64, low: u32, o: &Owner) -> u32
    requires some { 0 < step }
    requires step { step < 2 ^ 34 }
    requires first { 0 < low }
    requires low { low < 256 }
    ensures from { low ≤ result }
    ensures byte { result ≤ 256 }
    ensures behind { result < 256 → o.now.first + o.now.sectors ≤ start_of step result }
    ensures least { (k : ℕ) → low ≤ k → k < result → start_of step k < o.now.first + o.now.sectors }
{
    let Some(end) = o.first.checked_add(o.sectors) else {
        return LOW_LIMIT;
    };
    let steps = end.div_ceil(step).min(u64::from(LOW_LIMIT - 1));
    low.max(steps as u32 + 1)
}

// The least low byte, from one on, at which an owner isn't in the way of `need` sectors.
fn low_past(step: u64, low: u32, o: &Owner, need: u64) -> u32
    requires some { 0 < step }
    requires step { step < 2 ^ 34 }
    requires first { 0 < low }
    requires few { need < 2 ^ 63 }
    ensures { IsPast step need o.now low result }
{
    if low >= LOW_LIMIT {
        return low;
    }
    if is_clear(o, start_of(step, low), need) {
        low
    } else {
        low_behind(step, low, o)
    }
}

/// The least low byte at which none of these owners of one identifier, in the order of their first sectors, is in the way
/// of `need` sectors; `LOW_LIMIT` if each low byte has one in the way.
pub fn free_low(map: &NewMap, owners: &[Owner], need: u64) -> u32
    requires few { need < 2 ^ 63 }
    requires sorted { IsNonDecreasingBy (λ o. o.first) owners.now }
    ensures { IsLow map.now need owners.now result }
{
    let step = low_start(map, 2);
    let mut low = 1;
    for o in owners {
        low = low_past(step, low, o, need);
    }
    low
}
