// What is kept beside a list of owners: by node, where its owner stands; by identifier, how many owners have it.
ghost use Rattle.std.specs.Prelude.{◌≡◌, ◌<◌, ◌≤◌, ◌+◌, ◌-◌, ◌^◌, ◌++◌, ℕ, Some, length, replicate, slice_index, slice_set, vec_len, count_by, OnOk, IsFalse, MatchOption};
ghost use Rattle.std.specs.List.{HoldsAt, find};
ghost use Rattle.fc_alloc.specs.Owners.{has_node, is_node, owns};
ghost use Rattle.fc_alloc.specs.Index.{AreCounts, ArePlaces};

use crate::Owner;
use fc_device::NoMemory;

// Where the owner of a node stands.
pub fn place_of(list: &[Owner], places: &[usize], node: u64) -> Option<usize>
    requires { ArePlaces list.now places.now }
    ensures { MatchOption result (IsFalse (has_node list.now node)) (λ k. (k < length list.now) × HoldsAt (λ o. o.node ≡ node) list.now k) }
{
    if node as usize >= places.len() {
        return None;
    }
    let place = places[node as usize];
    if place < list.len() && list[place].node == node {
        Some(place)
    } else {
        None
    }
}

// The owner of a node, if it has one.
pub fn owner_of(list: &[Owner], places: &[usize], node: u64) -> Option<Owner>
    requires { ArePlaces list.now places.now }
    ensures { result ≡ find (is_node node) list.now }
{
    let Some(place) = place_of(list, places, node) else {
        return None;
    };
    Some(list[place])
}

// Grows the table of places so that it has a node.
pub fn grow_places(places: &mut Vec<usize>, node: u64) -> Result<(), NoMemory>
    ensures grown { (n : ℕ) × (places.new.items ≡ places.old.items ++ replicate n 0) }
    ensures room { OnOk result (node < vec_len places.new) }
{
    let node = node as usize;
    if node < places.len() {
        return Ok(());
    }
    let Some(len) = node.checked_add(1) else {
        return Err(NoMemory);
    };
    places.resize(len, 0)?;
    Ok(())
}

// Grows the table of counts so that it has an identifier. It becomes twice as long at least, so that the owners are
// counted again only so often.
pub fn grow_counts(counts: &mut Vec<usize>, list: &[Owner], id: u32) -> Result<(), NoMemory>
    requires { AreCounts list.now counts.old.items }
    ensures counts { AreCounts list.now counts.new.items }
    ensures room { OnOk result (id < vec_len counts.new) }
{
    let id = id as usize;
    let len = counts.len();
    if id < len {
        return Ok(());
    }
    counts.resize(len.saturating_mul(2).max(id + 1), 0)?;
    count_from(counts, list, len);
    Ok(())
}

// Counts the owners of the identifiers from `from` on, whose counts are 0.
fn count_from(counts: &mut Vec<usize>, list: &[Owner], from: usize)
    requires { (id : ℕ) → from ≤ id → slice_index counts.old.items id ≡ 0 }
    ensures len { vec_len counts.new ≡ vec_len counts.old }
    ensures before { (id : ℕ) → id < from → slice_index counts.new.items id ≡ slice_index counts.old.items id }
    ensures counted { (id : ℕ) → from ≤ id → id < vec_len counts.old → slice_index counts.new.items id ≡ count_by (owns id) list.now }
{
    for owner in list {
        if from <= owner.id as usize {
            count_up(counts, owner.id);
        }
    }
}

// Counts one owner more of an identifier, if the table has it.
pub fn count_up(counts: &mut Vec<usize>, id: u32)
    requires { id < vec_len counts.old → slice_index counts.old.items id + 1 < 2 ^ 64 }
    ensures { counts.new.items ≡ slice_set counts.old.items id (slice_index counts.old.items id + 1) }
{
    let id = id as usize;
    if id < counts.len() {
        counts[id] += 1;
    }
}

// Counts one owner less of an identifier, if the table has it.
pub fn count_down(counts: &mut Vec<usize>, id: u32)
    requires { id < vec_len counts.old → 0 < slice_index counts.old.items id }
    ensures { counts.new.items ≡ slice_set counts.old.items id (slice_index counts.old.items id - 1) }
{
    let id = id as usize;
    if id < counts.len() {
        counts[id] -= 1;
    }
}

// How many owners have an identifier.
pub fn count_in(list: &[Owner], id: u32) -> usize
    ensures { result ≡ count_by (owns id) list.now }
{
    list.iter().filter(|o| o.id == id).count()
}
