// The index of the nodes that a directory holds: their numbers, in the order of their names by folding, then of the numbers
// themselves.
ghost use Rattle.std.specs.Prelude.{◌≡◌, ◌<◌, Some, length, map, slice_index, IfOk, IsSome};
ghost use Rattle.std.specs.List.{range_with_len};
ghost use Rattle.fc_tree.specs.Slots.{slot_at};
ghost use Rattle.fc_tree.specs.declared.node.Node.{Node};
ghost use Rattle.fc_tree.specs.Index.{IsIndex, IsRank, key_cmp, key_of};
ghost use Rattle.fc_tree.specs.Index as index;
ghost use Rattle.fc_tree.specs.Nodes.{child, nodes_of};
ghost use Rattle.fc_tree.specs.Places.{AreOrdered, key_in, shown};

use crate::node::Node;
use crate::slots::{is_child, node_at};
use fc_names::fold_cmp_bytes;
use std::alloc::{AllocError, Global};
use std::cmp::Ordering;

// Where a number stands in the index: by the directory that holds its node, and the name there.
#[derive(Clone, Copy)]
pub struct Place<'a> {
    pub holder: u64,
    pub name: &'a [u8],
    pub number: u64,
}

// Where a node stands that has this number.
pub fn place_of(n: u64, node: &Node) -> Place<'_>
    ensures { shown result ≡ key_of n node.now }
{
    Place {
        holder: node.holder,
        name: node.entry.name.bytes(),
        number: n,
    }
}

fn cmp_places(a: &Place<'_>, b: &Place<'_>) -> Ordering
    ensures { result ≡ key_cmp (shown a.now) (shown b.now) }
{
    match a.holder.cmp(&b.holder) {
        // Names count only in the same directory.
        Ordering::Equal => fold_cmp_bytes(a.name, b.name).then(a.number.cmp(&b.number)),
        order => order,
    }
}

// Whether there is a node of this number, and it stands before the place.
fn is_before(slots: &[Option<Node>], n: u64, place: &Place<'_>) -> bool
    ensures { result ≡ index.is_before slots.now (shown place.now) n }
{
    match node_at(slots, n) {
        Some(node) => cmp_places(&place_of(n, node), place).is_lt(),
        None => false,
    }
}

// How many numbers stand before the place.
pub fn rank(slots: &[Option<Node>], order: &[u64], place: &Place<'_>) -> usize
    requires { IsIndex place.now.holder slots.now order.now }
    ensures { IsRank slots.now order.now (shown place.now) result }
{
    order.partition_point(|n| is_before(slots, *n, place))
}

// Where in the index a number stands that has a node.
pub fn rank_of(slots: &[Option<Node>], order: &[u64], n: u64) -> usize
    requires index { (node : Node) → slot_at slots.now n ≡ Some node → IsIndex node.holder slots.now order.now }
    requires there { IsSome (slot_at slots.now n) }
    ensures within { result < length order.now }
    ensures number { slice_index order.now result ≡ n }
{
    let node = node_at(slots, n).unwrap();
    rank(slots, order, &place_of(n, node))
}

// The number of the node of a name in a directory: the least, if several have the name.
pub fn first_child(slots: &[Option<Node>], order: &[u64], dir: u64, name: &[u8]) -> Option<u64>
    requires { IsIndex dir slots.now order.now }
    ensures { result ≡ child (nodes_of (record { slots = slots.now; room = 0 })) dir name.now }
{
    // The root has the number 0, and is no child.
    let first = Place {
        holder: dir,
        name,
        number: 1,
    };
    let n = *order.get(rank(slots, order, &first))?;
    if is_child(slots, n, dir, name) {
        Some(n)
    } else {
        None
    }
}

// The same, found by a pass over all nodes.
pub fn child_among(slots: &[Option<Node>], dir: u64, name: &[u8]) -> Option<u64>
    ensures { result ≡ child (nodes_of (record { slots = slots.now; room = 0 })) dir name.now }
{
    for n in 0..slots.len() as u64 {
        if is_child(slots, n, dir, name) {
            return Some(n);
        }
    }
    None
}

// Where a number stands, of nodes that are numbered in their order.
fn place_in(nodes: &[Node], n: u64) -> Place<'_>
    ensures { shown result ≡ key_in nodes.now n }
{
    match nodes.get(n as usize) {
        Some(node) => place_of(n, node),
        None => Place {
            holder: 0,
            name: &[],
            number: n,
        },
    }
}

// Which of two numbers stands first.
fn cmp_numbers(nodes: &[Node], a: u64, b: u64) -> Ordering
    ensures { result ≡ key_cmp (key_in nodes.now a) (key_in nodes.now b) }
{
    cmp_places(&place_in(nodes, a), &place_in(nodes, b))
}

// The numbers of so many nodes.
fn numbers_below(alloc: Global, count: u64) -> Result<Vec<u64>, AllocError>
    ensures { IfOk result (λ numbers. numbers.items ≡ range_with_len 0 count) }
{
    let mut numbers = Vec::with_capacity(alloc, count as usize)?;
    for n in 0..count {
        numbers.push(n)?;
    }
    Ok(numbers)
}

// The numbers of nodes that are numbered in their order, by the directories that hold them, and in order there.
pub fn order_of(alloc: Global, nodes: &[Node]) -> Result<Vec<u64>, AllocError>
    ensures { IfOk result (λ order. AreOrdered (map Some nodes.now) order.items) }
{
    let mut order = numbers_below(alloc, nodes.len() as u64)?;
    order.sort_unstable_by(|a, b| cmp_numbers(nodes, *a, *b));
    Ok(order)
}
