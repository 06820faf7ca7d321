// What goes back of a new map once nothing names it any more.
ghost use Rattle.std.specs.Prelude.{◌≡◌, ◌++◌, ℕ, List, IfOk};
ghost use Rattle.std.specs.Option.{option_to_list};
ghost use Rattle.fc_change.specs.GrownSpace.{has_rest, is_file, left_by_growth, left_if};
ghost use Rattle.fc_change.specs.Places.{AreLeft};

use crate::job::Wants;
use crate::lists::{append, as_list};
use fc_alloc::Owners;
use fc_device::NoMemory;
use fc_newmap::MAP_ID;
use fc_placing::{has_other, left_by_replaced};
use fc_plan::Plan;
use std::alloc::Global;

// ---- of an object that goes

// The identifier of an object that goes, unless another owner has it, or it is the one that the new object shares.
fn gone_by(
    alloc: Global,
    owners: &Owners,
    goes: Option<u64>,
    shared: Option<u32>,
) -> Result<Vec<u32>, NoMemory>
    ensures { IfOk result (λ gone. AreLeft owners.now goes shared gone.items) }
{
    let Some(node) = goes else {
        return Ok(Vec::new(alloc));
    };
    let gone = as_list(alloc, left_by_replaced(owners, node, shared))?;
    Ok(gone)
}

// ---- of a directory that gets another identifier

// Whether a node is the one of a file that is copied.
fn is_copied(copied: Option<u64>, node: u64) -> bool
    ensures { result ≡ is_file copied node }
{
    match copied {
        Some(file) => node == file,
        None => false,
    }
}

// Whether an owner of another node has an identifier, and isn't a file that is copied, which leaves it. The owners are gone over only
// if one of another node has it.
fn has_rest(owners: &Owners, node: u64, copied: Option<u64>, id: u32) -> bool
    ensures { result ≡ has_rest owners.now node copied id }
{
    if !has_other(owners, node, id) {
        return false;
    }
    owners.list().iter().any(|o| o.id == id && o.node != node && !is_copied(copied, o.node))
}

// The identifier of a node's object, unless it is the map's, or another keeps it.
fn left_by_growth(owners: &Owners, node: u64, copied: Option<u64>) -> Option<u32>
    ensures { result ≡ left_by_growth owners.now node copied }
{
    let own = owners.of(node)?;
    let id = own.id;
    if id == MAP_ID || has_rest(owners, node, copied, id) {
        return None;
    }
    Some(id)
}

// The same of the directory that grows, if it has new space and wasn't alone.
fn freed(owners: &Owners, wants: &Wants, dir: &Option<Plan>, alone: bool) -> Option<u32>
    ensures { result ≡ left_if dir.now alone owners.now wants.now }
{
    if dir.is_none() || alone {
        return None;
    }
    let growth = wants.grows?;
    left_by_growth(owners, growth.node, wants.copied)
}

// ---- both

/// The identifiers that go back at last: that of a directory that gets another, and that of an object that goes.
pub fn gone_at_last(
    alloc: Global,
    owners: &Owners,
    wants: &Wants,
    shared: Option<u32>,
    dir: &Option<Plan>,
    alone: bool,
) -> Result<Vec<u32>, NoMemory>
    ensures { IfOk result (λ gone. (left : List ℕ) × AreLeft owners.now wants.now.goes shared left × (gone.items ≡ option_to_list (left_if dir.now alone owners.now wants.now) ++ left)) }
{
    let mut gone = as_list(alloc, freed(owners, wants, dir, alone))?;
    let left = gone_by(alloc, owners, wants.goes, shared)?;
    append(&mut gone, left)?;
    Ok(gone)
}
