// The owners of a disc's identifiers, from the nodes of its tree.
ghost use Rattle.std.specs.Prelude.{◌≡◌, ◌++◌, ℕ, List, Ok, IfOk, IsFalse, OnErr, OnOk};
ghost use Rattle.std.specs.FinMap.{get};
ghost use Rattle.fc_alloc.specs.Owners.{has_node};
ghost use Rattle.fc_image.specs.Objects.{objects_of};
ghost use Rattle.fc_image.specs.Walk.{Listing};
ghost use Rattle.fc_space.specs.Space.{layout_of};
ghost use Rattle.fc_tree.specs.Agree.{AreWalked, InOrder};
ghost use Rattle.fc_tree.specs.Nodes.{nodes_of};
ghost use Rattle.fc_tree.specs.Parts.{AreOwners};
ghost use Rattle.fc_volume.specs.Owners.{node_owner, owner_at, with_owner};

use fc_alloc::{Owner, Owners};
use fc_change::entry_owner;
use fc_device::NoMemory;
use fc_space::Space;
use fc_tree::{Node, Tree};
use std::alloc::Global;

// The owner that a node is.
fn node_owner(space: &Space, n: u64, node: &Node) -> Owner
    ensures { result ≡ node_owner (layout_of space.now) n node.now }
{
    entry_owner(space, n, node.holder, &node.entry)
}

// Adds an owner, if it has a sector at least.
fn add(owners: &mut Owners, owner: Owner) -> Result<(), NoMemory>
    requires { IsFalse (has_node owners.old owner.node) }
    ensures ok { OnOk result (owners.new ≡ with_owner owners.old owner) }
    ensures err { OnErr result (owners.new ≡ owners.old) }
{
    if owner.sectors == 0 {
        return Ok(());
    }
    owners.add(owner)
}

// Adds the owner that a number's node is, if one has it.
fn add_node(owners: &mut Owners, tree: &Tree, space: &Space, n: u64) -> Result<(), NoMemory>
    requires { IsFalse (has_node owners.old n) }
    ensures { OnOk result (owners.new ≡ owners.old ++ owner_at (layout_of space.now) n (get (nodes_of tree.now) n)) }
{
    match tree.node(n) {
        None => Ok(()),
        Some(node) => add(owners, node_owner(space, n, node)),
    }
}

/// The owners of a disc's identifiers: the objects of its tree with at least one sector.
pub fn owners_of(alloc: Global, tree: &Tree, space: &Space) -> Result<Owners, NoMemory>
    ensures { IfOk result (λ owners. (reserved : List ℕ) (address size : ℕ) (listings : List Listing)
        → AreWalked (nodes_of tree.now) (layout_of space.now) reserved address size listings → InOrder (nodes_of tree.now) listings
        → AreOwners owners (nodes_of tree.now) (layout_of space.now) (objects_of listings)) }
{
    let mut owners = Owners::new(alloc);
    for n in 0..tree.bound() {
        add_node(&mut owners, tree, space, n)?;
    }
    owners.settle();
    Ok(owners)
}
