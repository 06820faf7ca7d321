// The index of nodes: for each directory the numbers of the nodes that it holds.
ghost use Rattle.std.specs.Prelude.{◌≡◌, ◌≢◌, ◌<◌, ◌≤◌, ◌++◌, ◌∷◌, [], ℕ, List, Option, Some, None, filter, length, map, IfOk, IsOk, IsSome};
ghost use Rattle.std.specs.List.{insert, remove};
ghost use Rattle.fc_alloc.specs.Lists.{nodes_at};
ghost use Rattle.fc_tree.specs.declared.node.Node.{Node};
ghost use Rattle.fc_tree.specs.Nodes.{child, nodes_of};
ghost use Rattle.fc_tree.specs.Places.{is_in};
ghost use Rattle.fc_tree.specs.Slots.{AreSameBut, slot_at};
ghost use Rattle.fc_tree.specs.Table.{AreIndexed};

use crate::index::{child_among, first_child, order_of, place_of, rank, rank_of};
use crate::node::Node;
use crate::slots::node_at;
use fc_alloc::lists::{grow, put_last};
use std::alloc::{AllocError, Global};

// The numbers of the nodes that each directory holds. Once there's no memory for one, the table is given up.
#[derive(Drop)]
pub struct Table {
    // By directory, in the order of the names there. A directory past the end holds none.
    lists: Vec<Vec<u64>>,
    // Whether the table was not given up. If it was, it lacks numbers.
    complete: bool,
}

impl Table {
    // The numbers of a directory.
    fn list(&self, dir: u64) -> &[u64]
        ensures { result.now ≡ nodes_at self.now.lists.items dir }
    {
        match self.lists.get(dir as usize) {
            Some(numbers) => numbers.as_slice(),
            None => &[],
        }
    }

    // Takes in the number of a node that is to come into its slot.
    pub fn put(&mut self, slots: &[Option<Node>], n: u64, node: &Node)
        requires index { AreIndexed slots.now self.old }
        requires free { slot_at slots.now n ≡ None }
        ensures { (new : List (Option Node)) → slot_at new n ≡ Some node.now → AreSameBut n slots.now new → AreIndexed new self.new }
    {
        if !self.complete {
            return;
        }
        let at = rank(slots, self.list(node.holder), &place_of(n, node));
        if put_number(&mut self.lists, node.holder, at, n).is_err() {
            self.complete = false;
            self.lists.clear();
        }
    }

    // Lets the number of a node go that is to leave its slot.
    pub fn take(&mut self, slots: &[Option<Node>], n: u64)
        requires index { AreIndexed slots.now self.old }
        requires there { IsSome (slot_at slots.now n) }
        ensures { (new : List (Option Node)) → slot_at new n ≡ None → AreSameBut n slots.now new → AreIndexed new self.new }
    {
        if !self.complete {
            return;
        }
        let dir = node_at(slots, n).unwrap().holder;
        let at = rank_of(slots, self.list(dir), n);
        remove_number(&mut self.lists, dir, at);
    }

    // The number of the node of a name in a directory: the least, if several have the name.
    pub fn child(&self, slots: &[Option<Node>], dir: u64, name: &[u8]) -> Option<u64>
        requires { AreIndexed slots.now self.now }
        ensures { result ≡ child (nodes_of (record { slots = slots.now; room = 0 })) dir name.now }
    {
        if self.complete {
            first_child(slots, self.list(dir), dir, name)
        } else {
            child_among(slots, dir, name)
        }
    }
}

// Puts a number into the list of a directory. The table may have grown even if there's no memory for the number.
fn put_number(lists: &mut Vec<Vec<u64>>, dir: u64, at: usize, n: u64) -> Result<(), AllocError>
    requires { at ≤ length (nodes_at lists.old.items dir) }
    ensures here { IsOk result → nodes_at lists.new.items dir ≡ insert (nodes_at lists.old.items dir) at n }
    ensures elsewhere { IsOk result → (d : ℕ) → d ≢ dir → nodes_at lists.new.items d ≡ nodes_at lists.old.items d }
{
    let dir = dir as usize;
    grow(lists, dir)?;
    lists[dir].insert(at, n)?;
    Ok(())
}

// Takes a number out of the list of a directory.
fn remove_number(lists: &mut Vec<Vec<u64>>, dir: u64, at: usize)
    requires { at < length (nodes_at lists.old.items dir) }
    ensures here { nodes_at lists.new.items dir ≡ remove (nodes_at lists.old.items dir) at }
    ensures elsewhere { (d : ℕ) → d ≢ dir → nodes_at lists.new.items d ≡ nodes_at lists.old.items d }
{
    lists[dir as usize].remove(at);
}

// Puts the number of a node after the others of the directory that holds it.
fn put_node(lists: &mut Vec<Vec<u64>>, nodes: &[Node], n: u64) -> Result<(), AllocError>
    ensures { IsOk result → (dir : ℕ) → nodes_at lists.new.items dir ≡ nodes_at lists.old.items dir ++ filter (is_in nodes.now dir) (n ∷ []) }
{
    match nodes.get(n as usize) {
        Some(node) => put_last(lists, node.holder, n),
        None => Ok(()),
    }
}

// The numbers of each directory among those of nodes, which stay in order.
fn lists_of(alloc: Global, nodes: &[Node], order: &[u64]) -> Result<Vec<Vec<u64>>, AllocError>
    ensures { IfOk result (λ lists. (dir : ℕ) → nodes_at lists.items dir ≡ filter (is_in nodes.now dir) order.now) }
{
    let mut lists = Vec::new(alloc);
    for n in order {
        put_node(&mut lists, nodes, *n)?;
    }
    Ok(lists)
}

// The table of nodes that are numbered in their order.
pub fn table_of(alloc: Global, nodes: &[Node]) -> Result<Table, AllocError>
    ensures { IfOk result (λ table. AreIndexed (map Some nodes.now) table) }
{
    let order = order_of(alloc, nodes)?;
    Ok(Table {
        lists: lists_of(alloc, nodes, &order)?,
        complete: true,
    })
}
