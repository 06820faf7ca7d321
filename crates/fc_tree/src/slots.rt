// Slots, of which each has the node of its number, or none.
ghost use Rattle.std.specs.Prelude.{◌≡◌, ◌<◌, ◌≤◌, false, [], ◌∷◌, ◌++◌, Some, None, is_none, length, map, slice_set, vec_capacity, vec_len, IsSome, IfOk};
ghost use Rattle.std.specs.List.{position_or_len};
ghost use Rattle.std.specs.Option.{option_map, option_map_or};
ghost use Rattle.fc_tree.specs.Slots.{AreFull, is_child, slot_at};

use crate::node::Node;
use fc_names::fold_cmp_bytes;
use std::alloc::{AllocError, Global};

// The node of a number.
pub fn node_at(slots: &[Option<Node>], n: u64) -> Option<&Node>
    ensures { option_map (λ node. node.now) result ≡ slot_at slots.now n }
{
    slots.get(n as usize)?.as_ref()
}

// Whether a directory has the node of a number under this name.
pub fn is_child(slots: &[Option<Node>], n: u64, dir: u64, name: &[u8]) -> bool
    ensures { result ≡ option_map_or (λ node. is_child dir name.now (n, node)) (slot_at slots.now n) false }
{
    match node_at(slots, n) {
        Some(node) => {
            node.holder == dir && n != 0 && fold_cmp_bytes(name, node.entry.name.bytes()).is_eq()
        }
        None => false,
    }
}

// After how many nodes the memory that they had is given back.
const AT_ONCE: usize = 4096;

// Gives memory of nodes back that are gone, each time when so many are.
fn shrink(nodes: &mut Vec<Node>)
    ensures items { nodes.new.items ≡ nodes.old.items }
    ensures len { vec_len nodes.new ≡ vec_len nodes.old }
{
    if nodes.len().is_multiple_of(AT_ONCE) {
        nodes.shrink_to_fit();
    }
}

// The slots of nodes. Nodes and slots at once would take twice the memory: so the nodes go from the last one on, and their
// memory with them.
pub fn slots_of(alloc: Global, nodes: Vec<Node>) -> Result<Vec<Option<Node>>, AllocError>
    ensures { IfOk result (λ slots. slots.items ≡ map Some nodes.items) }
{
    let mut nodes = nodes;
    let mut slots = Vec::with_capacity(alloc, nodes.len())?;
    while let Some(node) = nodes.pop() {
        slots.push(Some(node))?;
        shrink(&mut nodes);
    }
    slots.reverse();
    Ok(slots)
}

// Takes a node out of its slot.
pub fn take_slot(slots: &mut Vec<Option<Node>>, n: u64) -> Node
    requires { IsSome (slot_at slots.old.items n) }
    ensures node { slot_at slots.old.items n ≡ Some result }
    ensures items { slots.new.items ≡ slice_set slots.old.items n None }
    ensures capacity { vec_capacity slots.new ≡ vec_capacity slots.old }
{
    slots[n as usize].take().unwrap()
}

// Puts a node into a slot.
pub fn put_slot(slots: &mut Vec<Option<Node>>, n: u64, node: Node)
    requires { n < length slots.old.items }
    ensures items { slots.new.items ≡ slice_set slots.old.items n (Some node) }
    ensures capacity { vec_capacity slots.new ≡ vec_capacity slots.old }
{
    slots[n as usize] = Some(node);
}

// Adds a slot with a node. There is room for it.
pub fn push_slot(slots: &mut Vec<Option<Node>>, node: Node)
    requires { length slots.old.items < vec_capacity slots.old }
    ensures items { slots.new.items ≡ slots.old.items ++ Some node ∷ [] }
    ensures capacity { vec_capacity slots.old ≤ vec_capacity slots.new }
{
    let _ = slots.push(Some(node));
}

// The least number that no node has, if those below `least` have nodes.
pub fn first_vacant(slots: &[Option<Node>], least: usize) -> usize
    requires within { least ≤ length slots.now }
    requires full { AreFull slots.now least }
    ensures number { result ≡ position_or_len is_none slots.now }
    ensures within { result ≤ length slots.now }
    ensures full { AreFull slots.now result }
{
    match slots[least..].iter().position(|slot| slot.is_none()) {
        Some(at) => least + at,
        None => slots.len(),
    }
}
