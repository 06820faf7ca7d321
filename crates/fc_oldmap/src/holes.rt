// Edits of a list of holes, by the index of a hole.

ghost use Rattle.std.specs.Prelude.{◌≡◌, ◌+◌, ◌^◌, ◌<◌, IsTrue, ◌↔◌, length, slice_get, All, IfSome, IfNone, IsErr, OnOk, OnErr, slice_set, nat_lt, if◌then◌else◌};
ghost use Rattle.fc_oldmap.specs.declared.TakeError.TheVariants.{DiscFull, CompactionRequired};
ghost use Rattle.std.specs.Option.{ForSome};
ghost use Rattle.arrayvec.specs.ArrayVec.{array_vec_len};
ghost use Rattle.fc_oldmap.specs.Holes.{AreApart, AreOfSomeDisc, IsFirstFit, IsFirstReaching, TouchesNext, after_give, after_take, first_fit_place, hole_end, hole_limit, hole_sum, joined_at, shifted, tidied};

use crate::{Hole, MapFull, TakeError};
use arrayvec::ArrayVec;

/// The holes that a map has places for.
pub const HOLES: usize = 82;

/// The bytes of the places for holes in each half of a map.
pub const PLACES: usize = 3 * HOLES;

/// A map's holes.
pub type Holes = ArrayVec<Hole, HOLES>;

/// Why no hole has `n` units.
pub fn shortage(holes: &[Hole], n: u32) -> TakeError
    requires { hole_sum holes.now < 2 ^ 32 }
    ensures { result ≡ (if nat_lt (hole_sum holes.now) n then DiscFull else CompactionRequired) }
{
    let sum: u32 = holes.iter().map(|hole| hole.len).sum();
    if sum < n {
        TakeError::DiscFull
    } else {
        TakeError::CompactionRequired
    }
}

// The first hole of at least `n` units, and its index.
fn first_fit(holes: &[Hole], n: u32) -> Option<(usize, Hole)>
    ensures found { IfSome result (λ found. IsFirstFit holes.now n found.0 found.1) }
    ensures none { IfNone result (All (λ h. h.len < n) holes.now) }
{
    for (i, hole) in holes.iter().enumerate() {
        if n <= hole.len {
            return Some((i, *hole));
        }
    }
    None
}

// The index of the first hole that ends at a unit or after it, or the number of holes.
fn first_reaching(holes: &[Hole], start: u32) -> usize
    requires { All (λ h. hole_end h < 2 ^ 32) holes.now }
    ensures { IsFirstReaching holes.now start result }
{
    for (i, hole) in holes.iter().enumerate() {
        if start <= hole.end() {
            return i;
        }
    }
    holes.len()
}

// The hole of an index, if there is one.
fn hole_at(holes: &[Hole], i: usize) -> Option<Hole>
    ensures { result ≡ slice_get holes.now i }
{
    holes.get(i).copied()
}

// Puts another hole in the place of one.
fn set(holes: &mut Holes, i: usize, hole: Hole)
    requires { i < array_vec_len holes.old }
    ensures { holes.new.items ≡ slice_set holes.old.items i hole }
{
    holes[i] = hole;
}

// Whether a hole and the next are there and touch.
fn touches_next(holes: &[Hole], i: usize) -> bool
    requires { All (λ h. hole_end h < 2 ^ 32) holes.now }
    ensures { IsTrue result ↔ TouchesNext holes.now i }
{
    i < holes.len() && i + 1 < holes.len() && holes[i].end() == holes[i + 1].start
}

// Joins a hole with the next where the two touch.
fn join_next(holes: &mut Holes, i: usize)
    requires { All (λ h. hole_end h < 2 ^ 32) holes.old.items }
    ensures { holes.new.items ≡ joined_at i holes.old.items }
{
    if touches_next(holes, i) {
        let hole = holes[i];
        let next = holes.remove(i + 1);
        let joined = Hole {
            start: hole.start,
            len: hole.len + next.len,
        };
        set(holes, i, joined);
    }
}

/// Takes the front `n` units of the first hole that is long enough, if there is one, and answers where
/// they begin.
pub fn take_from(holes: &mut Holes, n: u32) -> Option<u32>
    requires { AreOfSomeDisc holes.old.items }
    ensures start { result ≡ first_fit_place n holes.old.items }
    ensures holes { holes.new.items ≡ after_take n holes.old.items }
{
    let (at, hole) = first_fit(holes, n)?;
    if hole.len == n {
        holes.remove(at);
    } else {
        let rest = Hole {
            start: hole.start + n,
            len: hole.len - n,
        };
        set(holes, at, rest);
    }
    Some(hole.start)
}

/// Adds a space that lies apart from every hole, and joins it with those that it touches.
pub fn give_to(holes: &mut Holes, space: Hole) -> Result<(), MapFull>
    requires holes { AreOfSomeDisc holes.old.items }
    requires space { hole_end space < 2 ^ 32 }
    requires positive { 0 < space.len }
    requires apart { All (AreApart space) holes.old.items }
    ensures full { IsErr result ↔ (hole_limit < length (after_give space holes.old.items)) }
    ensures ok { OnOk result (holes.new.items ≡ after_give space holes.old.items) }
    ensures err { OnErr result (holes.new.items ≡ holes.old.items) }
{
    let end = space.end();
    let at = first_reaching(holes, space.start);
    match hole_at(holes, at) {
        Some(hole) if hole.end() == space.start => {
            let joined = Hole {
                start: hole.start,
                len: hole.len + space.len,
            };
            set(holes, at, joined);
            join_next(holes, at);
        }
        Some(hole) if hole.start == end => {
            let joined = Hole {
                start: space.start,
                len: space.len + hole.len,
            };
            set(holes, at, joined);
        }
        _ if holes.is_full() => return Err(MapFull),
        _ => holes.insert(at, space),
    }
    Ok(())
}

/// Moves a hole `n` units up, and joins it with the next if the two then touch.
pub fn shift_at(holes: &mut Holes, index: usize, n: u32)
    requires holes { AreOfSomeDisc holes.old.items }
    requires there { index < array_vec_len holes.old }
    requires fits { ForSome (slice_get holes.old.items index) (λ h. hole_end h + n < 2 ^ 32) }
    ensures { holes.new.items ≡ shifted index n holes.old.items }
{
    let hole = holes[index];
    let moved = Hole {
        start: hole.start + n,
        len: hole.len,
    };
    set(holes, index, moved);
    join_next(holes, index);
}

/// Joins every two holes that touch.
pub fn tidy_all(holes: &mut Holes)
    requires { AreOfSomeDisc holes.old.items }
    ensures { holes.new.items ≡ tidied holes.old.items }
{
    let mut i = holes.len();
    while i > 0 {
        i -= 1;
        join_next(holes, i);
    }
}
