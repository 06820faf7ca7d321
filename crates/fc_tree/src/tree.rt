// Trees of numbered nodes.

ghost use Rattle.std.specs.Prelude.{◌≡◌, ◌+◌, ◌-◌, ◌<◌, ◌≤◌, ℕ, Some, None, map, max, slice_set, IsSome, IfOk, OnOk, OnErr};
ghost use Rattle.std.specs.Option.{option_map};
ghost use Rattle.std.specs.FinMap.{get, insert, remove};
ghost use Rattle.fc_tree.specs.Nodes.{bound_of, child, found_in, is_directory_node, next_number, nodes_of};

use crate::node::{Found, Node};
use crate::slots::{node_at, push_slot, put_slot, slots_of, take_slot};
use crate::table::{Table, table_of};
use crate::vacancy::Vacancy;
use fc_device::NoMemory;
use fc_names::Path;
use std::alloc::Global;
use std::marker::Model;

/// The objects of a disc as nodes with numbers. Contracts see for each number below the bound the node that
/// has it, if one has, and how many more numbers there is room for; `nodes_of` is the finite map of these.
#[derive(Drop)]
pub struct Tree {
    // For each number its node.
    slots: Vec<Option<Node>>,
    // For each directory the numbers of the nodes that it holds.
    table: Table,
    // Where the least number is looked for that no node has.
    vacancy: Vacancy,
    // How many more nodes can be added with no more memory.
    room: usize,
}

impl Model for Tree {
    ghost use Rattle.fc_tree.specs.Nodes.{Numbers};

    ghost Value = { Numbers };

    ghost use Rattle.std.specs.Prelude.{vec_capacity};
    ghost use Rattle.fc_tree.specs.Table.{IsHeld};

    ghost view = { λ t. record { slots = t.slots.items; room = t.room } };

    ghost invariant = { λ t. IsHeld t.slots.items t.table t.vacancy t.room (vec_capacity t.slots) };
}

impl Tree {
    /// The tree of these nodes, numbered in their order.
    pub(crate) fn from_nodes(alloc: Global, nodes: Vec<Node>) -> Result<Tree, NoMemory>
        ensures { IfOk result (λ tree. tree ≡ record { slots = map Some nodes.items; room = 0 }) }
    {
        let table = table_of(alloc, &nodes)?;
        let slots = slots_of(alloc, nodes)?;
        let vacancy = Vacancy::past(slots.len());
        Ok(Tree {
            slots,
            table,
            vacancy,
            room: 0,
        })
    }

    /// A number above those of all nodes.
    pub fn bound(&self) -> u64
        ensures bound { result ≡ bound_of self.now }
        ensures above { (n : ℕ) → bound_of self.now ≤ n → get (nodes_of self.now) n ≡ None }
    {
        self.slots.len() as u64
    }

    /// The node of a number, if one has it.
    pub fn node(&self, n: u64) -> Option<&Node>
        ensures { option_map (λ node. node.now) result ≡ get (nodes_of self.now) n }
    {
        node_at(&self.slots, n)
    }

    /// Whether a directory has this number.
    pub fn is_directory(&self, n: u64) -> bool
        ensures { result ≡ is_directory_node (nodes_of self.now) n }
    {
        match self.node(n) {
            Some(node) => node.entry.is_directory(),
            None => false,
        }
    }

    /// The number of the node of a name in a directory, if it has that name. Names are compared by folding.
    pub fn child(&self, dir: u64, name: &[u8]) -> Option<u64>
        ensures { result ≡ child (nodes_of self.now) dir name.now }
    {
        self.table.child(&self.slots, dir, name)
    }

    /// Where a path leads. Names are compared by folding.
    pub fn find(&self, p: &Path) -> Found
        ensures { result ≡ found_in (nodes_of self.now) p.now }
    {
        let mut at = 0;
        for name in p.names() {
            if !self.is_directory(at) {
                return Found::NotDirectory;
            }
            match self.child(at, name) {
                Some(next) => at = next,
                None => return Found::Absent,
            }
        }
        Found::Node(at)
    }

    /// Takes the node of a number out. It takes no memory.
    pub fn take_out(&mut self, n: u64) -> Node
        requires { IsSome (get (nodes_of self.old) n) }
        ensures node { get (nodes_of self.old) n ≡ Some result }
        ensures nodes { nodes_of self.new ≡ remove (nodes_of self.old) n }
        ensures slots { self.new.slots ≡ slice_set self.old.slots n None }
        ensures bound { bound_of self.new ≡ bound_of self.old }
        ensures room { self.new.room ≡ self.old.room }
    {
        self.table.take(&self.slots, n);
        self.vacancy.take(n);
        take_slot(&mut self.slots, n)
    }

    /// Puts a node under a number below the bound that no node has. It never runs out of memory: if there is none for the
    /// number among those of its directory, these lists are given up, and names are looked for among all nodes.
    pub fn put_back(&mut self, n: u64, node: Node)
        requires below { n < bound_of self.old }
        requires free { get (nodes_of self.old) n ≡ None }
        ensures nodes { nodes_of self.new ≡ insert (nodes_of self.old) n node }
        ensures slots { self.new.slots ≡ slice_set self.old.slots n (Some node) }
        ensures bound { bound_of self.new ≡ bound_of self.old }
        ensures room { self.new.room ≡ self.old.room }
    {
        self.table.put(&self.slots, n, &node);
        self.vacancy.put(n);
        put_slot(&mut self.slots, n, node);
    }

    /// The number of the next new node, which none has.
    pub fn next_number(&mut self) -> u64
        ensures number { result ≡ next_number self.old }
        ensures within { result ≤ bound_of self.old }
        ensures free { get (nodes_of self.old) result ≡ None }
        ensures same { self.new ≡ self.old }
    {
        self.vacancy.find(&self.slots)
    }

    // Puts a node under a number below the bound.
    fn reuse(&mut self, n: u64, node: Node)
        requires below { n < bound_of self.old }
        requires free { get (nodes_of self.old) n ≡ None }
        requires room { 0 < self.old.room }
        ensures nodes { nodes_of self.new ≡ insert (nodes_of self.old) n node }
        ensures bound { bound_of self.new ≡ bound_of self.old }
        ensures room { self.new.room + 1 ≡ self.old.room }
    {
        self.put_back(n, node);
        self.room -= 1;
    }

    // Adds a node under the bound.
    fn append(&mut self, node: Node) -> u64
        requires { 0 < self.old.room }
        ensures number { result ≡ bound_of self.old }
        ensures nodes { nodes_of self.new ≡ insert (nodes_of self.old) result node }
        ensures bound { bound_of self.new ≡ bound_of self.old + 1 }
        ensures room { self.new.room + 1 ≡ self.old.room }
    {
        let n = self.slots.len() as u64;
        self.table.put(&self.slots, n, &node);
        self.vacancy.put(n);
        push_slot(&mut self.slots, node);
        self.room -= 1;
        n
    }

    /// Adds a node under the least number that no node has, which is the result. As `put_back`, it never runs out of memory.
    pub fn add(&mut self, node: Node) -> u64
        requires { 0 < self.old.room }
        ensures number { result ≡ next_number self.old }
        ensures free { get (nodes_of self.old) result ≡ None }
        ensures nodes { nodes_of self.new ≡ insert (nodes_of self.old) result node }
        ensures below { result < bound_of self.new }
        ensures bound { bound_of self.new ≡ max (bound_of self.old) (result + 1) }
        ensures room { self.new.room + 1 ≡ self.old.room }
    {
        let n = self.next_number();
        if n < self.bound() {
            self.reuse(n, node);
            n
        } else {
            self.append(node)
        }
    }

    /// Makes room for one more node. After `NoMemory` all is as before.
    pub fn reserve(&mut self) -> Result<(), NoMemory>
        ensures slots { self.new.slots ≡ self.old.slots }
        ensures ok { OnOk result (self.new ≡ record self.old { room = self.old.room + 1 }) }
        ensures err { OnErr result (self.new ≡ self.old) }
    {
        let room = self.room + 1;
        self.slots.reserve(room)?;
        self.room = room;
        Ok(())
    }

    /// Gives up the room for one node that `reserve` made, and keeps its memory for later.
    pub fn release(&mut self)
        requires { 0 < self.old.room }
        ensures { self.new ≡ record self.old { room = self.old.room - 1 } }
    {
        self.room -= 1;
    }
}
