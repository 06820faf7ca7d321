// The objects of a disc with an old map that slide down.
ghost use Rattle.std.specs.Prelude.{◌≡◌, ◌<◌, ◌^◌, ◌++◌, IfOk, IsPermutation, OnOk};
ghost use Rattle.std.specs.FinMap.{get};
ghost use Rattle.fc_image.specs.Layout.{Layout};
ghost use Rattle.fc_oldmap.specs.OldMap.{OldMapContent};
ghost use Rattle.fc_oldlaws.specs.moves.After.{start_after};
ghost use Rattle.fc_oldlaws.specs.moves.Nodes.{sliding_at, sliding_below, units_in};
ghost use Rattle.fc_space.specs.Space.{layout_of};
ghost use Rattle.fc_tree.specs.Nodes.{bound_of, nodes_of};
ghost use Rattle.fc_volume.specs.OldChanging.{IsOldLayout};
ghost use Rattle.fc_volume.specs.OldCompacting.{AreSorted};

use fc_change::{object_bytes, units_for};
use fc_device::NoMemory;
use fc_dirs::Entry;
use fc_space::Space;
use fc_squash::Owned;
use fc_tree::{Node, Tree};
use std::alloc::Global;

/// The objects that slide down, as they are before, and as they are afterwards, in the same order.
#[derive(Drop)]
pub struct Moves {
    pub before: Vec<Owned>,
    pub after: Vec<Owned>,
}

impl Moves {
    /// These objects, which have not moved yet.
    pub fn of(owned: Vec<Owned>) -> Result<Moves, NoMemory>
        ensures before { IfOk result (λ moves. moves.before.items ≡ owned.items) }
        ensures after { IfOk result (λ moves. moves.after.items ≡ owned.items) }
    {
        let after = owned.clone()?;
        Ok(Moves {
            before: owned,
            after,
        })
    }

    /// Where an object that began at an address begins afterwards. The objects are sorted by where they began.
    pub fn start_after(&self, address: u32) -> u32
        requires { AreSorted self.now.before.items }
        ensures { result ≡ start_after self.now.before.items self.now.after.items address }
    {
        let k = self.before.partition_point(|o| o.start < address);
        if k >= self.before.len().min(self.after.len()) {
            return address;
        }
        if self.before[k].start != address {
            return address;
        }
        self.after[k].start
    }
}

// The units that the object of an entry takes.
fn units_of(space: &Space, e: &Entry) -> u64
    requires { IsOldLayout (layout_of space.now) }
    ensures units { (disc : OldMapContent) → layout_of space.now ≡ Layout.Old disc → result ≡ units_in disc e.now }
    ensures few { result < 2 ^ 32 }
{
    // Contracts see by this that the length fits in 32 bits.
    let _len = e.len;
    let bytes = object_bytes(space, e);
    match space {
        Space::OldMapped(map) => {
            let _ = map.holes();
            units_for(map, bytes)
        }
        Space::NewMapped(_) => unreachable!(),
    }
}

// Adds the object of a node, if it slides.
fn add(owned: &mut Vec<Owned>, space: &Space, n: u64, node: &Node) -> Result<(), NoMemory>
    requires { IsOldLayout (layout_of space.now) }
    ensures { OnOk result ((disc : OldMapContent) → layout_of space.now ≡ Layout.Old disc → owned.new.items ≡ owned.old.items ++ sliding_at disc n (Some node.now)) }
{
    let len = units_of(space, &node.entry);
    if n == 0 || len == 0 {
        return Ok(());
    }
    let object = Owned {
        node: n,
        start: node.entry.address,
        len: len as u32,
    };
    if owned.push(object).is_err() {
        return Err(NoMemory);
    }
    Ok(())
}

// Adds the object of a number's node, if one has it and it slides.
fn add_number(owned: &mut Vec<Owned>, space: &Space, tree: &Tree, n: u64) -> Result<(), NoMemory>
    requires { IsOldLayout (layout_of space.now) }
    ensures { OnOk result ((disc : OldMapContent) → layout_of space.now ≡ Layout.Old disc → owned.new.items ≡ owned.old.items ++ sliding_at disc n (get (nodes_of tree.now) n)) }
{
    match tree.node(n) {
        None => Ok(()),
        Some(node) => add(owned, space, n, node),
    }
}

// All objects that slide, in the order of their nodes.
fn sliding(alloc: Global, tree: &Tree, space: &Space) -> Result<Vec<Owned>, NoMemory>
    requires { IsOldLayout (layout_of space.now) }
    ensures { IfOk result (λ owned. (disc : OldMapContent) → layout_of space.now ≡ Layout.Old disc → owned.items ≡ sliding_below disc (nodes_of tree.now) (bound_of tree.now)) }
{
    let mut owned = Vec::new(alloc);
    for n in 0..tree.bound() {
        add_number(&mut owned, space, tree, n)?;
    }
    Ok(owned)
}

/// All objects with sectors but the root, sorted by where they begin.
pub fn sorted_objects(alloc: Global, tree: &Tree, space: &Space) -> Result<Vec<Owned>, NoMemory>
    requires { IsOldLayout (layout_of space.now) }
    ensures all { IfOk result (λ owned. (disc : OldMapContent) → layout_of space.now ≡ Layout.Old disc → IsPermutation (sliding_below disc (nodes_of tree.now) (bound_of tree.now)) owned.items) }
    ensures sorted { IfOk result (λ owned. AreSorted owned.items) }
{
    let mut owned = sliding(alloc, tree, space)?;
    owned.sort_unstable_by_key(|o| o.start);
    Ok(owned)
}
