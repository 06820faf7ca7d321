// Directories of nodes, rewritten as a job has them.
ghost use Rattle.std.specs.Prelude.{◌≡◌, Some, IfOk, IsSome};
ghost use Rattle.std.specs.FinMap.{get};
ghost use Rattle.fc_tree.specs.Nodes.{nodes_of};
ghost use Rattle.fc_tree.specs.declared.node.Node.{Node};
ghost use Rattle.fc_change.specs.Directories.{CanTell, Rewriting, Tells, address_after};

use crate::change::{Regrowth, Says};
use crate::directories::{address_after, copy_at};
use fc_device::NoMemory;
use fc_dirs::Entry;
use fc_names::Name;
use fc_tree::Tree;
use std::alloc::Global;

// The address of the directory that holds a node's.
fn parent_of(tree: &Tree, grown: Option<Regrowth>, n: u64) -> u32
    requires { IsSome (get (nodes_of tree.now) n) }
    ensures { (node : Node) → get (nodes_of tree.now) n ≡ Some node → result ≡ address_after grown (nodes_of tree.now) node.holder }
{
    let node = tree.node(n).unwrap();
    address_after(tree, grown, node.holder)
}

/// The directory of a node, with an entry more. It has room for it, so that only memory may be short.
pub fn enter(
    alloc: Global,
    tree: &Tree,
    grown: Option<Regrowth>,
    n: u64,
    e: Entry,
) -> Result<Says, NoMemory>
    requires { CanTell grown (nodes_of tree.now) n (Rewriting.Enters e) }
    ensures { IfOk result (Tells grown (nodes_of tree.now) n (Rewriting.Enters e)) }
{
    let mut draft = copy_at(alloc, tree, grown, n)?;
    match draft.enter(parent_of(tree, grown, n), e) {
        Ok(()) => Ok(Says { node: n, draft }),
        Err(_) => Err(NoMemory),
    }
}

/// With another entry of the same name in the place of one.
pub fn replace(
    alloc: Global,
    tree: &Tree,
    grown: Option<Regrowth>,
    n: u64,
    at: usize,
    e: Entry,
) -> Result<Says, NoMemory>
    requires { CanTell grown (nodes_of tree.now) n (Rewriting.Replaces at e) }
    ensures { IfOk result (Tells grown (nodes_of tree.now) n (Rewriting.Replaces at e)) }
{
    let mut draft = copy_at(alloc, tree, grown, n)?;
    draft.replace(parent_of(tree, grown, n), at, e);
    Ok(Says { node: n, draft })
}

/// Without an entry.
pub fn leave(
    alloc: Global,
    tree: &Tree,
    grown: Option<Regrowth>,
    n: u64,
    at: usize,
) -> Result<Says, NoMemory>
    requires { CanTell grown (nodes_of tree.now) n (Rewriting.Leaves at) }
    ensures { IfOk result (Tells grown (nodes_of tree.now) n (Rewriting.Leaves at)) }
{
    let mut draft = copy_at(alloc, tree, grown, n)?;
    draft.leave(parent_of(tree, grown, n), at);
    Ok(Says { node: n, draft })
}

/// With an entry under another name. It has room for it.
pub fn rename(
    alloc: Global,
    tree: &Tree,
    grown: Option<Regrowth>,
    n: u64,
    at: usize,
    e: Entry,
) -> Result<Says, NoMemory>
    requires { CanTell grown (nodes_of tree.now) n (Rewriting.Renames at e) }
    ensures { IfOk result (Tells grown (nodes_of tree.now) n (Rewriting.Renames at e)) }
{
    let mut draft = copy_at(alloc, tree, grown, n)?;
    match draft.rename(parent_of(tree, grown, n), at, e) {
        Ok(()) => Ok(Says { node: n, draft }),
        Err(_) => Err(NoMemory),
    }
}

/// Under another name itself, in the directory of another node.
pub fn turn(
    alloc: Global,
    tree: &Tree,
    grown: Option<Regrowth>,
    n: u64,
    above: u64,
    name: &Name,
) -> Result<Says, NoMemory>
    requires { CanTell grown (nodes_of tree.now) n (Rewriting.Turns above name.now) }
    ensures { IfOk result (Tells grown (nodes_of tree.now) n (Rewriting.Turns above name.now)) }
{
    let mut draft = copy_at(alloc, tree, grown, n)?;
    draft.rename_head(address_after(tree, grown, above), name)?;
    Ok(Says { node: n, draft })
}

/// With another address alone: its holder's, or that of a directory in it.
pub fn stay(alloc: Global, tree: &Tree, grown: Option<Regrowth>, n: u64) -> Result<Says, NoMemory>
    requires { CanTell grown (nodes_of tree.now) n Rewriting.Stays }
    ensures { IfOk result (Tells grown (nodes_of tree.now) n Rewriting.Stays) }
{
    let mut draft = copy_at(alloc, tree, grown, n)?;
    draft.set_holder(parent_of(tree, grown, n));
    Ok(Says { node: n, draft })
}
