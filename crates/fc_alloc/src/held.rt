// What is kept beside a list of owners of their directories: the owners that each holds.
ghost use Rattle.std.specs.Prelude.{◌≡◌, ◌≢◌, ◌∷◌, ◌≤◌, [], ℕ, List, Contains, IsPermutation, IfSome, IsTrue, IsFalse, IsOk, length};
ghost use Rattle.std.specs.List.{position};
ghost use Rattle.std.specs.List.Sorted.{IsPartitionPoint};
ghost use Rattle.fc_alloc.specs.declared.owner.Owner.{Owner};
ghost use Rattle.fc_alloc.specs.Held.{AreHeld};
ghost use Rattle.fc_alloc.specs.Lists.{row_at};
ghost use Rattle.fc_alloc.specs.Owners.{AreHeldBy, AreInOrder, comes_before, is_same};

use crate::Owner;
use crate::lists::grow;
use std::alloc::{AllocError, Global};

// The owners that each directory holds, in order from `settle` on. A disc's owners come in another order at first: if each were
// put in its place at once, that would take the square of a directory's length. Once there's no memory for one, the table is
// given up.
#[derive(Drop)]
pub struct Held {
    // By directory. A directory past the end holds none.
    rows: Vec<Vec<Owner>>,
    // Whether the table was not given up. If it was, it may lack owners.
    complete: bool,
    // Whether each row is in order, and is kept so.
    settled: bool,
}

impl Held {
    // For no owners.
    pub fn new(alloc: Global) -> Held
        ensures { AreHeld [] result }
    {
        Held {
            rows: Vec::new(alloc),
            complete: true,
            settled: false,
        }
    }

    // Takes in an owner more.
    pub fn put(&mut self, o: Owner)
        ensures { (owners more : List Owner) → IsPermutation more (o ∷ owners) → AreHeld owners self.old → AreHeld more self.new }
    {
        if self.complete && put_in_row(&mut self.rows, o, self.settled).is_err() {
            self.complete = false;
            self.rows.clear();
        }
    }

    // Lets an owner go.
    pub fn take(&mut self, o: Owner)
        ensures { (owners left : List Owner) → IsPermutation owners (o ∷ left) → AreHeld owners self.old → AreHeld left self.new }
    {
        if o.dir < self.rows.len() as u64 {
            take_out(&mut self.rows[o.dir as usize], &o, self.settled);
        }
    }

    // Takes in an owner in place of another.
    pub fn change(&mut self, was: Owner, o: Owner)
        ensures { (owners left changed : List Owner) → IsPermutation owners (was ∷ left) → IsPermutation changed (o ∷ left) → AreHeld owners self.old → AreHeld changed self.new }
    {
        self.take(was);
        self.put(o);
    }

    // Puts each row in order, and keeps it so from now on.
    pub fn settle(&mut self)
        ensures same { (owners : List Owner) → AreHeld owners self.old → AreHeld owners self.new }
        ensures settled { IsTrue self.new.settled }
    {
        if !self.settled {
            sort_rows(&mut self.rows);
            self.settled = true;
        }
    }

    // The owners that a directory holds, in order, if the table is settled and was not given up.
    pub fn get(&self, dir: u64) -> Option<&[Owner]>
        ensures { (owners : List Owner) → AreHeld owners self.now → IfSome result (λ held. AreHeldBy dir owners held.now) }
    {
        if !self.complete || !self.settled {
            return None;
        }
        match self.rows.get(dir as usize) {
            Some(row) => Some(row.as_slice()),
            None => Some(&[]),
        }
    }
}

// Puts an owner among those of its directory: in order if they are, and else last. There may be more rows even if there's no
// memory for the owner.
fn put_in_row(rows: &mut Vec<Vec<Owner>>, o: Owner, sorted: bool) -> Result<(), AllocError>
    ensures here { IsOk result → IsPermutation (o ∷ row_at rows.old.items o.dir) (row_at rows.new.items o.dir) }
    ensures sorted { IsOk result → IsTrue sorted → AreInOrder (row_at rows.old.items o.dir) → AreInOrder (row_at rows.new.items o.dir) }
    ensures elsewhere { (d : ℕ) → d ≢ o.dir → row_at rows.new.items d ≡ row_at rows.old.items d }
{
    let dir = o.dir as usize;
    grow(rows, dir)?;
    let row = &mut rows[dir];
    let place = if sorted { place_in(row, &o) } else { row.len() };
    row.insert(place, o)?;
    Ok(())
}

// Takes an owner out, which must be there. `sorted` says that the row is in order.
fn take_out(row: &mut Vec<Owner>, o: &Owner, sorted: bool)
    ensures same { (IsTrue sorted → AreInOrder row.old.items) → Contains row.old.items o.now → IsPermutation row.old.items (o.now ∷ row.new.items) }
    ensures sorted { AreInOrder row.old.items → AreInOrder row.new.items }
{
    let from = if sorted { place_in(row, o) } else { 0 };
    let (_, rest) = row.split_at(from);
    if let Some(further) = stands_at(rest, o) {
        row.remove(from + further);
    }
}

// Puts each row in order.
fn sort_rows(rows: &mut Vec<Vec<Owner>>)
    ensures same { (dir : ℕ) → IsPermutation (row_at rows.old.items dir) (row_at rows.new.items dir) }
    ensures sorted { (dir : ℕ) → AreInOrder (row_at rows.new.items dir) }
{
    for dir in 0..rows.len() {
        rows[dir].sort_unstable_by_key(|o| (o.id, o.first));
    }
}

// Where an owner stands first.
fn stands_at(row: &[Owner], o: &Owner) -> Option<usize>
    ensures { result ≡ position (λ p. is_same p o.now) row.now }
{
    row.iter().position(|p| p == o)
}

// Where an owner is put among owners in order, or stands first: behind all that come before it.
fn place_in(row: &[Owner], o: &Owner) -> usize
    ensures within { result ≤ length row.now }
    ensures point { AreInOrder row.now → IsPartitionPoint (λ p. IsTrue (comes_before p o.now)) (λ p. IsFalse (comes_before p o.now)) row.now result }
{
    row.partition_point(|p| comes_before(p, o))
}

// Whether an owner has a lower identifier than another, or the same and a lower first sector.
fn comes_before(p: &Owner, o: &Owner) -> bool
    ensures { result ≡ comes_before p.now o.now }
{
    p.id < o.id || (p.id == o.id && p.first < o.first)
}
