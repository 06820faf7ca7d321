// The nodes and the owners after the objects have slid, in memory.
ghost use Rattle.std.specs.Prelude.{◌≡◌, ◌<◌, Some, length, slice_get};
ghost use Rattle.fc_image.specs.Layout.{Layout, dir_form};
ghost use Rattle.fc_laws.specs.nodes.Edits.{with_edited};
ghost use Rattle.fc_oldmap.specs.OldMap.{OldMapContent};
ghost use Rattle.fc_oldlaws.specs.moves.After.{start_after};
ghost use Rattle.fc_oldlaws.specs.moves.Nodes.{AreRemade};
ghost use Rattle.fc_space.specs.Space.{layout_of};
ghost use Rattle.fc_tree.specs.Nodes.{bound_of, nodes_of};
ghost use Rattle.fc_volume.specs.OldChanging.{IsOldLayout};
ghost use Rattle.fc_volume.specs.OldCompacting.{AreAddressed, AreSorted, IsRemade, addressed};

use super::directories::address_after;
use super::moves::Moves;
use fc_alloc::{Owner, Owners};
use fc_change::entry_owner;
use fc_space::Space;
use fc_tree::Tree;

// The node of a number, if it has one, has its new address. A node whose address stays isn't taken out of the tree's index.
fn move_number(tree: &mut Tree, n: u64, space: &Space, moves: &Moves)
    requires { AreSorted moves.now.before.items }
    ensures nodes { nodes_of tree.new ≡ with_edited n (addressed (dir_form (layout_of space.now)) (start_after moves.now.before.items moves.now.after.items)) (nodes_of tree.old) }
    ensures bound { bound_of tree.new ≡ bound_of tree.old }
{
    let _ = tree.bound();
    let Some(node) = tree.node(n) else {
        return;
    };
    let address = address_after(space, moves, &node.entry);
    if address == node.entry.address {
        return;
    }
    let mut node = tree.take_out(n);
    node.entry.address = address;
    tree.put_back(n, node);
}

/// Each node has its new address.
pub fn move_nodes(tree: &mut Tree, space: &Space, moves: &Moves)
    requires { AreSorted moves.now.before.items }
    ensures nodes { AreAddressed (dir_form (layout_of space.now)) (start_after moves.now.before.items moves.now.after.items) (nodes_of tree.old) (nodes_of tree.new) (bound_of tree.old) }
    ensures bound { bound_of tree.new ≡ bound_of tree.old }
{
    let bound = tree.bound();
    for n in 0..bound {
        move_number(tree, n, space, moves);
    }
}

// The owner at a place of the list.
fn owner_at(owners: &Owners, k: usize) -> Owner
    requires { k < length owners.now }
    ensures { slice_get owners.now k ≡ Some result }
{
    owners.list()[k]
}

// The owner at a place of the list is as its node is now.
fn remake(owners: &mut Owners, k: usize, tree: &Tree, space: &Space)
    requires old_map { IsOldLayout (layout_of space.now) }
    requires there { k < length owners.old }
    ensures made { (disc : OldMapContent) → layout_of space.now ≡ Layout.Old disc → IsRemade disc (nodes_of tree.now) owners.old owners.new k }
    ensures long { length owners.new ≡ length owners.old }
{
    let owner = owner_at(owners, k);
    let _ = owners.list();
    if let Some(node) = tree.node(owner.node) {
        owners.change(entry_owner(space, owner.node, node.holder, &node.entry));
    }
}

/// Each owner is as its node is now.
pub fn remake_owners(owners: &mut Owners, tree: &Tree, space: &Space)
    requires { IsOldLayout (layout_of space.now) }
    ensures { (disc : OldMapContent) → layout_of space.now ≡ Layout.Old disc → AreRemade disc (nodes_of tree.now) owners.old owners.new }
{
    for k in 0..owners.list().len() {
        remake(owners, k, tree, space);
    }
}
