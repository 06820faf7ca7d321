// What goes back: the old runs of identifiers that move, and identifiers that lose their last owner.
ghost use Rattle.std.specs.Prelude.{◌≡◌, ◌++◌, ◌||◌, ℕ, true, IfOk, OnOk};
ghost use Rattle.std.specs.List.Sorted.{IsStrictlyIncreasing};
ghost use Rattle.std.specs.List.{list_any};
ghost use Rattle.fc_plan.specs.Giving.{is_one_of};
ghost use Rattle.fc_placing.specs.Leaving.{is_kept};
ghost use Rattle.fc_safe.specs.Staying.{remains};
ghost use Rattle.fc_safe.specs.Gone.{is_left, is_lost_by, left_of};

use crate::lists::push;
use crate::sets::id_set;
use crate::staying::leaves;
use fc_alloc::{Owner, Owners};
use fc_device::NoMemory;
use fc_newmap::MAP_ID;
use fc_placing::has_other;
use std::alloc::Global;

// Whether an owner stays in the identifier of one that leaves it. The owners are gone over only if another node's has it, and several
// leave theirs.
fn has_staying(owners: &Owners, own: Owner, leaving: &[u64]) -> bool
    requires { is_one_of leaving.now own.node ≡ true }
    ensures { result ≡ list_any (remains leaving.now own.id) owners.now }
{
    if !has_other(owners, own.node, own.id) {
        return false;
    }
    if leaving.len() == 1 {
        return true;
    }
    owners
        .list()
        .iter()
        .any(|o| o.id == own.id && !leaves(leaving, o.node))
}

// Whether an identifier is the one that a new object shares.
fn is_kept(kept: Option<u32>, id: u32) -> bool
    ensures { result ≡ is_kept kept id }
{
    match kept {
        Some(other) => other == id,
        None => false,
    }
}

// Whether the identifier of an owner that leaves it goes back: nobody stays in it, no new object shares it, and it isn't the map's.
fn is_left(owners: &Owners, own: Owner, leaving: &[u64], shared: Option<u32>) -> bool
    requires { is_one_of leaving.now own.node ≡ true }
    ensures { result ≡ is_left leaving.now shared owners.now own.id }
{
    own.id > MAP_ID && !is_kept(shared, own.id) && !has_staying(owners, own, leaving)
}

// Adds the identifier of a node that leaves it, if that goes back.
fn push_left(
    gone: &mut Vec<u32>,
    owners: &Owners,
    n: u64,
    leaving: &[u64],
    shared: Option<u32>,
) -> Result<(), NoMemory>
    requires { is_one_of leaving.now n ≡ true }
    ensures { OnOk result (gone.new.items ≡ gone.old.items ++ left_of leaving.now shared owners.now n) }
{
    let Some(own) = owners.of(n) else {
        return Ok(());
    };
    if !is_left(owners, own, leaving, shared) {
        return Ok(());
    }
    push(gone, own.id)
}

/// The identifiers that go back, in their order: those that move, whose runs are taken anew, and those in which nobody stays. `shared` is the one that a new
/// object shares.
pub fn gone_ids(
    alloc: Global,
    owners: &Owners,
    ids: &[u32],
    leaving: &[u64],
    shared: Option<u32>,
) -> Result<Vec<u32>, NoMemory>
    ensures rising { IfOk result (λ gone. IsStrictlyIncreasing gone.items) }
    ensures same { IfOk result (λ gone. (id : ℕ) → is_one_of gone.items id ≡ (is_one_of ids.now id || is_lost_by leaving.now shared owners.now id)) }
{
    // Contracts see by this that no two owners are of one node.
    let _ = owners.list();
    let mut gone = Vec::from_slice(alloc, ids)?;
    for n in leaving {
        push_left(&mut gone, owners, *n, leaving, shared)?;
    }
    Ok(id_set(gone))
}
