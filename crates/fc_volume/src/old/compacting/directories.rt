// What directories say after the objects have slid, in memory.
ghost use Rattle.std.specs.Prelude.{◌≡◌, ℕ, false, Some, length, map, not, IfOk, OnOk};
ghost use Rattle.std.specs.FinMap.{get};
ghost use Rattle.std.specs.Str.{bytes_eq};
ghost use Rattle.fc_dirs.specs.declared.Entry.{Entry};
ghost use Rattle.fc_image.specs.effects.Settled.{has_same_places};
ghost use Rattle.fc_image.specs.Layout.{dir_form};
ghost use Rattle.fc_laws.specs.nodes.Edits.{with_edited};
ghost use Rattle.fc_oldlaws.specs.moves.After.{address_after, dir_after, entry_after, parent_after, readdressed, start_after};
ghost use Rattle.fc_oldlaws.specs.moves.Nodes.{body_after};
ghost use Rattle.fc_space.specs.Space.{layout_of};
ghost use Rattle.fc_tree.specs.Counts.{address_in};
ghost use Rattle.fc_tree.specs.Nodes.{bound_of, nodes_of};
ghost use Rattle.fc_tree.specs.declared.node.Node.{Node};
ghost use Rattle.fc_volume.specs.OldCompacting.{AreReaddressed, AreSorted, AreSpares, HasSpare, IsLow, IsNotBig, changes_at, entries_at, is_changed, readdressed_node, said_again};

use super::moves::Moves;
use fc_change::object_bytes;
use fc_device::NoMemory;
use fc_dirs::Entry;
use fc_smalldir::{SmallDir, copied_entries};
use fc_space::Space;
use fc_tree::{Body, Node, Tree};
use std::alloc::Global;

/// What a directory needs so that its entries can get other addresses with no more memory: copies of them. They are used
/// up, and then it tells whether something has changed.
#[derive(Drop)]
pub struct Spare {
    pub entries: Vec<Entry>,
    pub changed: bool,
}

// The copies for the node of a number, if it is that of a small directory.
fn entries_of(alloc: Global, tree: &Tree, n: u64) -> Result<Vec<Entry>, NoMemory>
    ensures { IfOk result (λ entries. entries.items ≡ entries_at (get (nodes_of tree.now) n)) }
{
    let Some(node) = tree.node(n) else {
        return Ok(Vec::new(alloc));
    };
    match &node.body {
        Body::Small(dir) => copied_entries(alloc, dir.entries()),
        _ => Ok(Vec::new(alloc)),
    }
}

// Puts them after the others.
fn push_spare(alloc: Global, spares: &mut Vec<Spare>, tree: &Tree, n: u64) -> Result<(), NoMemory>
    ensures { OnOk result (HasSpare (get (nodes_of tree.now) n) spares.old.items spares.new.items) }
{
    let spare = Spare {
        entries: entries_of(alloc, tree, n)?,
        changed: false,
    };
    if spares.push(spare).is_err() {
        return Err(NoMemory);
    }
    Ok(())
}

/// For each number below the tree's bound the copies that its node needs.
pub fn spares_of(alloc: Global, tree: &Tree) -> Result<Vec<Spare>, NoMemory>
    ensures { IfOk result (λ spares. AreSpares (nodes_of tree.now) (bound_of tree.now) spares.items) }
{
    let mut spares = Vec::new(alloc);
    for n in 0..tree.bound() {
        push_spare(alloc, &mut spares, tree, n)?;
    }
    Ok(spares)
}

/// The address in an entry afterwards.
pub fn address_after(space: &Space, moves: &Moves, e: &Entry) -> u32
    requires { AreSorted moves.now.before.items }
    ensures { result ≡ address_after (dir_form (layout_of space.now)) (start_after moves.now.before.items moves.now.after.items) e.now }
{
    if object_bytes(space, e) == 0 {
        e.address
    } else {
        moves.start_after(e.address)
    }
}

// The entries of a directory get their addresses. The answer is whether one has changed.
fn move_entries(dir: &mut SmallDir, spare: &mut Spare, space: &Space, moves: &Moves)
    requires copies { spare.old.entries.items ≡ dir.old.entries }
    requires sorted { AreSorted moves.now.before.items }
    requires low { IsLow (start_after moves.now.before.items moves.now.after.items) }
    ensures dir { dir.new ≡ record dir.old { entries = map (entry_after (dir_form (layout_of space.now)) (start_after moves.now.before.items moves.now.after.items)) dir.old.entries } }
    ensures changed { spare.new.changed ≡ not (bytes_eq (map (λ (e : Entry). e.address) dir.new.entries) (map (λ (e : Entry). e.address) dir.old.entries)) }
{
    let _ = dir.entries();
    spare.changed = false;
    while let Some(mut e) = spare.entries.pop() {
        let address = address_after(space, moves, &e);
        if address != e.address {
            spare.changed = true;
        }
        e.address = address;
        dir.change(spare.entries.len(), e);
    }
}

// The parent field of a directory afterwards, if its holder had this address.
fn parent_after(moves: &Moves, holder: u32, parent: u32) -> u32
    requires { AreSorted moves.now.before.items }
    ensures { result ≡ parent_after (start_after moves.now.before.items moves.now.after.items) holder parent }
{
    let now = moves.start_after(holder);
    if holder == now { parent } else { now }
}

// A directory whose holder had this address says what it says afterwards, and the answer is whether something has changed.
fn readdress(dir: &mut SmallDir, spare: &mut Spare, space: &Space, moves: &Moves, holder: u32)
    requires copies { spare.old.entries.items ≡ dir.old.entries }
    requires sorted { AreSorted moves.now.before.items }
    requires low { IsLow (start_after moves.now.before.items moves.now.after.items) }
    ensures dir { dir.new ≡ dir_after (dir_form (layout_of space.now)) (start_after moves.now.before.items moves.now.after.items) holder dir.old }
    ensures changed { spare.new.changed ≡ not (has_same_places dir.old (readdressed (dir_form (layout_of space.now)) (start_after moves.now.before.items moves.now.after.items) holder dir.old)) }
{
    let _ = dir.entries();
    move_entries(dir, spare, space, moves);
    let parent = parent_after(moves, holder, dir.parent());
    if parent != dir.parent() {
        spare.changed = true;
    }
    dir.set_parent(parent);
    if spare.changed {
        dir.touch();
    }
}

// A node says what it says afterwards. Its entry stays.
fn readdress_body(body: &mut Body, spare: &mut Spare, space: &Space, moves: &Moves, holder: u32)
    requires copies { spare.old.entries.items ≡ said_again body.old }
    requires sorted { AreSorted moves.now.before.items }
    requires low { IsLow (start_after moves.now.before.items moves.now.after.items) }
    requires small { IsNotBig body.old }
    requires idle { spare.old.changed ≡ false }
    ensures body { body.new ≡ body_after (dir_form (layout_of space.now)) (start_after moves.now.before.items moves.now.after.items) holder body.old }
    ensures changed { spare.new.changed ≡ is_changed (dir_form (layout_of space.now)) (start_after moves.now.before.items moves.now.after.items) holder body.old }
{
    if let Body::Small(dir) = body {
        readdress(dir, spare, space, moves, holder);
    }
}

// The address of the directory that holds a node.
fn holder_address(tree: &Tree, node: &Node) -> u32
    ensures { result ≡ address_in (nodes_of tree.now) node.now.holder }
{
    match tree.node(node.holder) {
        Some(above) => above.entry.address,
        None => 0,
    }
}

// The node of a number, if it has one, says what it says afterwards. A file says nothing, and isn't taken out of the tree's index.
fn readdress_number(tree: &mut Tree, n: u64, spare: &mut Spare, space: &Space, moves: &Moves)
    requires copies { spare.old.entries.items ≡ entries_at (get (nodes_of tree.old) n) }
    requires sorted { AreSorted moves.now.before.items }
    requires low { IsLow (start_after moves.now.before.items moves.now.after.items) }
    requires small { (node : Node) → get (nodes_of tree.old) n ≡ Some node → IsNotBig node.body }
    requires idle { spare.old.changed ≡ false }
    ensures nodes { nodes_of tree.new ≡ with_edited n (readdressed_node (dir_form (layout_of space.now)) (start_after moves.now.before.items moves.now.after.items) (nodes_of tree.old)) (nodes_of tree.old) }
    ensures bound { bound_of tree.new ≡ bound_of tree.old }
    ensures changed { spare.new.changed ≡ changes_at (dir_form (layout_of space.now)) (start_after moves.now.before.items moves.now.after.items) (nodes_of tree.old) (get (nodes_of tree.old) n) }
{
    let _ = tree.bound();
    let Some(node) = tree.node(n) else {
        return;
    };
    if let Body::File = node.body {
        return;
    }
    let holder = holder_address(tree, node);
    let mut node = tree.take_out(n);
    readdress_body(&mut node.body, spare, space, moves, holder);
    tree.put_back(n, node);
}

/// Each directory of a tree says what it says afterwards, and the answer says of each whether something has changed in it. The
/// entries of the nodes stay.
pub fn readdress_all(tree: &mut Tree, spares: &mut Vec<Spare>, space: &Space, moves: &Moves)
    requires spares { AreSpares (nodes_of tree.old) (bound_of tree.old) spares.old.items }
    requires sorted { AreSorted moves.now.before.items }
    requires low { IsLow (start_after moves.now.before.items moves.now.after.items) }
    requires small { (n : ℕ) (node : Node) → get (nodes_of tree.old) n ≡ Some node → IsNotBig node.body }
    ensures nodes { AreReaddressed (dir_form (layout_of space.now)) (start_after moves.now.before.items moves.now.after.items) (nodes_of tree.old) (nodes_of tree.new) spares.new.items (bound_of tree.old) }
    ensures long { length spares.new.items ≡ bound_of tree.old }
    ensures bound { bound_of tree.new ≡ bound_of tree.old }
{
    let _ = tree.bound();
    for n in 0..spares.len() {
        readdress_number(tree, n as u64, &mut spares[n], space, moves);
    }
}
