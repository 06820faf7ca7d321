// The directories around one that grows: the one that holds it, and, if it gets another address, those in it.
ghost use Rattle.std.specs.Prelude.{◌≡◌, ◌∷◌, [], Some, IsSome, OnOk};
ghost use Rattle.std.specs.List.{flat_map};
ghost use Rattle.std.specs.FinMap.{get};
ghost use Rattle.fc_tree.specs.Nodes.{nodes_of};
ghost use Rattle.fc_change.specs.Directories.{CanTellAround, CanTellThese, HasToldMore, IsGrownThere, around, child_of, children_of, holders_of, is_told, nodes_told, told_around};

use crate::change::{Regrowth, Says};
use crate::directories::entries_in;
use crate::lists::push;
use crate::rewriting::stay;
use fc_device::NoMemory;
use fc_dirs::Entry;
use fc_tree::Tree;
use std::alloc::Global;

// Whether the directory of a node is the first that is told something, or one of the last.
fn is_told(first: u64, last: &[Says], n: u64) -> bool
    ensures { result ≡ is_told (first ∷ nodes_told last.now) n }
{
    first == n || last.iter().any(|said| said.node == n)
}

// Tells the directory of a node of the other address, unless it is told something else.
fn tell_one(
    alloc: Global,
    tree: &Tree,
    grown: Regrowth,
    first: u64,
    last: &[Says],
    n: u64,
    says: &mut Vec<Says>,
) -> Result<(), NoMemory>
    requires { CanTellThese (nodes_of tree.now) (Some grown) (told_around (first ∷ nodes_told last.now) (n ∷ [])) }
    ensures { OnOk result (HasToldMore (nodes_of tree.now) (Some grown) (told_around (first ∷ nodes_told last.now) (n ∷ [])) says.old.items says.new.items) }
{
    if is_told(first, last, n) {
        return Ok(());
    }
    let said = stay(alloc, tree, Some(grown), n)?;
    push(says, said)?;
    Ok(())
}

// Tells the object of an entry, if it is a directory.
fn tell_child(
    alloc: Global,
    tree: &Tree,
    grown: Regrowth,
    first: u64,
    last: &[Says],
    e: &Entry,
    says: &mut Vec<Says>,
) -> Result<(), NoMemory>
    requires { CanTellThese (nodes_of tree.now) (Some grown) (told_around (first ∷ nodes_told last.now) (child_of (nodes_of tree.now) grown.node e.now)) }
    ensures { OnOk result (HasToldMore (nodes_of tree.now) (Some grown) (told_around (first ∷ nodes_told last.now) (child_of (nodes_of tree.now) grown.node e.now)) says.old.items says.new.items) }
{
    if !e.is_directory() {
        return Ok(());
    }
    match tree.child(grown.node, e.name.bytes()) {
        Some(n) => tell_one(alloc, tree, grown, first, last, n, says),
        None => Ok(()),
    }
}

// Tells the objects of some entries that are directories.
fn tell_entries(
    alloc: Global,
    tree: &Tree,
    grown: Regrowth,
    first: u64,
    last: &[Says],
    entries: &[Entry],
    says: &mut Vec<Says>,
) -> Result<(), NoMemory>
    requires { CanTellThese (nodes_of tree.now) (Some grown) (told_around (first ∷ nodes_told last.now) (flat_map (child_of (nodes_of tree.now) grown.node) entries.now)) }
    ensures { OnOk result (HasToldMore (nodes_of tree.now) (Some grown) (told_around (first ∷ nodes_told last.now) (flat_map (child_of (nodes_of tree.now) grown.node) entries.now)) says.old.items says.new.items) }
{
    for e in entries {
        tell_child(alloc, tree, grown, first, last, e, says)?;
    }
    Ok(())
}

// Tells the directories in the one that grows, if it gets another address.
fn tell_children(
    alloc: Global,
    tree: &Tree,
    grown: Regrowth,
    first: u64,
    last: &[Says],
    says: &mut Vec<Says>,
) -> Result<(), NoMemory>
    requires there { IsSome (get (nodes_of tree.now) grown.node) }
    requires can { CanTellThese (nodes_of tree.now) (Some grown) (told_around (first ∷ nodes_told last.now) (children_of (nodes_of tree.now) grown)) }
    ensures { OnOk result (HasToldMore (nodes_of tree.now) (Some grown) (told_around (first ∷ nodes_told last.now) (children_of (nodes_of tree.now) grown)) says.old.items says.new.items) }
{
    let node = tree.node(grown.node).unwrap();
    if node.entry.address == grown.address {
        return Ok(());
    }
    tell_entries(
        alloc,
        tree,
        grown,
        first,
        last,
        entries_in(&node.body),
        says,
    )?;
    Ok(())
}

// Tells the directory that holds the one that grows, if it isn't the root.
fn tell_above(
    alloc: Global,
    tree: &Tree,
    grown: Regrowth,
    first: u64,
    last: &[Says],
    says: &mut Vec<Says>,
) -> Result<(), NoMemory>
    requires there { IsSome (get (nodes_of tree.now) grown.node) }
    requires can { CanTellThese (nodes_of tree.now) (Some grown) (told_around (first ∷ nodes_told last.now) (holders_of (nodes_of tree.now) grown)) }
    ensures { OnOk result (HasToldMore (nodes_of tree.now) (Some grown) (told_around (first ∷ nodes_told last.now) (holders_of (nodes_of tree.now) grown)) says.old.items says.new.items) }
{
    if grown.node == 0 {
        return Ok(());
    }
    let node = tree.node(grown.node).unwrap();
    tell_one(alloc, tree, grown, first, last, node.holder, says)?;
    Ok(())
}

/// Tells the directories around a grown one of its address, but for the first that is told something, and the last ones.
pub fn tell_around(
    alloc: Global,
    tree: &Tree,
    grown: Option<Regrowth>,
    first: u64,
    last: &[Says],
    says: &mut Vec<Says>,
) -> Result<(), NoMemory>
    requires there { IsGrownThere (nodes_of tree.now) grown }
    requires can { CanTellAround (nodes_of tree.now) grown (first ∷ nodes_told last.now) }
    ensures { OnOk result (HasToldMore (nodes_of tree.now) grown (around grown (nodes_of tree.now) (first ∷ nodes_told last.now)) says.old.items says.new.items) }
{
    let Some(grown) = grown else {
        return Ok(());
    };
    tell_above(alloc, tree, grown, first, last, says)?;
    tell_children(alloc, tree, grown, first, last, says)?;
    Ok(())
}
