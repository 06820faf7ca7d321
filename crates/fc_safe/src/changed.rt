// The directories that a job rewrites.
ghost use Rattle.std.specs.Prelude.{◌≡◌, ◌++◌, ℕ, IfOk, OnOk};
ghost use Rattle.std.specs.List.{flat_map};
ghost use Rattle.std.specs.List.Sorted.{IsStrictlyIncreasing};
ghost use Rattle.fc_change.specs.Directories.{child_of, directories_in};
ghost use Rattle.fc_change.specs.Held.{parts_of};
ghost use Rattle.fc_plan.specs.Giving.{is_one_of};
ghost use Rattle.fc_tree.specs.Nodes.{nodes_of};
ghost use Rattle.fc_refusals.specs.Places.{entries_in};
ghost use Rattle.fc_safe.specs.Changed.{above_grown, changed_in, holder_of, named_in, renamed_in, within_moved};

use crate::lists::push;
use crate::sets::node_set;
use fc_change::{Growth, Job};
use fc_device::NoMemory;
use fc_dirs::Entry;
use fc_refusals::Slot;
use fc_tree::{Body, Tree};
use std::alloc::Global;

// Adds those in which a path that a job names has its last name.
fn push_named(nodes: &mut Vec<u64>, job: &Job) -> Result<(), NoMemory>
    ensures { OnOk result (nodes.new.items ≡ nodes.old.items ++ named_in job.now) }
{
    match job {
        Job::File(Slot::New(dir), _) => push(nodes, *dir),
        Job::File(Slot::Over(target), _) => push(nodes, target.holder),
        Job::Directory(dir) => push(nodes, *dir),
        Job::Removal(target) => push(nodes, target.holder),
        Job::Move(renaming) => {
            push(nodes, renaming.holder)?;
            push(nodes, renaming.target.holder)
        }
        Job::Words(target, _) => push(nodes, target.holder),
        Job::Marks(target, _) => push(nodes, target.holder),
    }
}

// Adds what is renamed, if it is a directory.
fn push_renamed(nodes: &mut Vec<u64>, tree: &Tree, job: &Job) -> Result<(), NoMemory>
    ensures { OnOk result (nodes.new.items ≡ nodes.old.items ++ renamed_in (nodes_of tree.now) job.now) }
{
    match job {
        Job::Move(renaming) if tree.is_directory(renaming.target.node) => {
            push(nodes, renaming.target.node)
        }
        _ => Ok(()),
    }
}

// Adds the directory that holds one that grows, if one does.
fn push_above(nodes: &mut Vec<u64>, tree: &Tree, grows: Option<Growth>) -> Result<(), NoMemory>
    ensures { OnOk result (nodes.new.items ≡ nodes.old.items ++ above_grown (nodes_of tree.now) grows) }
{
    let Some(growth) = grows else {
        return Ok(());
    };
    match tree.node(growth.node) {
        Some(node) if growth.node != 0 => push(nodes, node.holder),
        _ => Ok(()),
    }
}

// The entries of a body, none if it is a file's.
fn entries_in(body: &Body) -> &[Entry]
    ensures { result.now ≡ entries_in body.now }
{
    match body {
        Body::File => &[],
        Body::Small(dir) => dir.entries(),
        Body::Big(dir) => dir.entries(),
    }
}

// Adds the object of an entry, if it is a directory.
fn push_child(nodes: &mut Vec<u64>, tree: &Tree, n: u64, e: &Entry) -> Result<(), NoMemory>
    ensures { OnOk result (nodes.new.items ≡ nodes.old.items ++ child_of (nodes_of tree.now) n e.now) }
{
    if !e.is_directory() {
        return Ok(());
    }
    match tree.child(n, e.name.bytes()) {
        Some(child) => push(nodes, child),
        None => Ok(()),
    }
}

// Adds the objects of entries that are directories.
fn push_children(
    nodes: &mut Vec<u64>,
    tree: &Tree,
    n: u64,
    entries: &[Entry],
) -> Result<(), NoMemory>
    ensures { OnOk result (nodes.new.items ≡ nodes.old.items ++ flat_map (child_of (nodes_of tree.now) n) entries.now) }
{
    for e in entries {
        push_child(nodes, tree, n, e)?;
    }
    Ok(())
}

// Adds the directories in one that gets a new identifier, if one does.
fn push_within(nodes: &mut Vec<u64>, tree: &Tree, out: Option<Growth>) -> Result<(), NoMemory>
    ensures { OnOk result (nodes.new.items ≡ nodes.old.items ++ within_moved (nodes_of tree.now) out) }
{
    let Some(growth) = out else {
        return Ok(());
    };
    match tree.node(growth.node) {
        Some(node) => push_children(nodes, tree, growth.node, entries_in(&node.body)),
        None => Ok(()),
    }
}

/// The nodes of the directories that a job rewrites, in their order: those in which a path that it names has its last name, what is renamed if it is a
/// directory, the one that holds a directory which grows, and, if that gets a new identifier, those directly in it.
pub fn changed_nodes(
    alloc: Global,
    tree: &Tree,
    job: &Job,
    grows: Option<Growth>,
    out: Option<Growth>,
) -> Result<Vec<u64>, NoMemory>
    ensures rising { IfOk result (λ nodes. IsStrictlyIncreasing nodes.items) }
    ensures same { IfOk result (λ nodes. (n : ℕ) → is_one_of nodes.items n ≡ is_one_of (changed_in (nodes_of tree.now) job.now grows out) n) }
{
    let mut nodes = Vec::new(alloc);
    push_named(&mut nodes, job)?;
    push_renamed(&mut nodes, tree, job)?;
    push_above(&mut nodes, tree, grows)?;
    push_within(&mut nodes, tree, out)?;
    Ok(node_set(nodes))
}
