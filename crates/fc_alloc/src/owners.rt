// The owners of a disc's identifiers.
ghost use Rattle.std.specs.Prelude.{◌≡◌, [], ◌∷◌, ◌++◌, Contains, IsPermutation, IfSome, IsFalse, IsTrue, OnErr, OnOk, count_by};
ghost use Rattle.std.specs.List.{find};
ghost use Rattle.fc_alloc.specs.Owners.{AreHeldBy, HaveOwnNodes, has_node, is_id_owned, is_node, owns, with_changed};
ghost use Rattle.fc_alloc.specs.declared.owner.Owner.{Owner};

use crate::Owner;
use crate::held::Held;
use crate::index::{count_down, count_in, count_up, grow_counts, grow_places, owner_of, place_of};
use fc_device::NoMemory;
use std::alloc::Global;
use std::marker::Model;

/// The owners of a disc's identifiers, at most one for each node. Contracts see the list of them.
#[derive(Drop)]
pub struct Owners {
    list: Vec<Owner>,
    // By node, where its owner stands in the list. A node without an owner may have any number.
    places: Vec<usize>,
    // By identifier, how many owners have it. `change` may bring identifiers past the table's end.
    counts: Vec<usize>,
    // By directory, the owners that it holds.
    held: Held,
    // No owner has a greater identifier.
    top: u32,
}

impl Model for Owners {
    ghost use Rattle.std.specs.Prelude.{List};
    ghost use Rattle.fc_alloc.specs.declared.owner.Owner.{Owner};
    ghost use Rattle.fc_alloc.specs.Index.{IsIndexed};

    ghost Value = { List Owner };

    ghost view = { λ a. a.list.items };

    ghost invariant = { λ a. IsIndexed a.list.items a.places.items a.counts.items a.top a.held };
}

impl Owners {
    /// No owners.
    pub fn new(alloc: Global) -> Owners
        ensures { result ≡ [] }
    {
        Owners {
            list: Vec::new(alloc),
            places: Vec::new(alloc),
            counts: Vec::new(alloc),
            held: Held::new(alloc),
            top: 0,
        }
    }

    /// Puts an owner after the others, of which none may have its node. After `NoMemory` the list is as before.
    pub fn add(&mut self, o: Owner) -> Result<(), NoMemory>
        requires { IsFalse (has_node self.old o.node) }
        ensures ok { OnOk result (self.new ≡ self.old ++ o ∷ []) }
        ensures err { OnErr result (self.new ≡ self.old) }
    {
        grow_places(&mut self.places, o.node)?;
        grow_counts(&mut self.counts, &self.list, o.id)?;
        if self.list.push(o).is_err() {
            return Err(NoMemory);
        }
        self.places[o.node as usize] = self.list.len() - 1;
        count_up(&mut self.counts, o.id);
        self.held.put(o);
        self.top = self.top.max(o.id);
        Ok(())
    }

    /// Takes a node's owner out, if there is one. The others may change places.
    pub fn remove(&mut self, node: u64)
        ensures found { (o : Owner) → Contains self.old o → o.node ≡ node → IsPermutation self.old (o ∷ self.new) }
        ensures absent { IsFalse (has_node self.old node) → self.new ≡ self.old }
    {
        let Some(place) = place_of(&self.list, &self.places, node) else {
            return;
        };
        let removed = self.list.swap_remove(place);
        count_down(&mut self.counts, removed.id);
        self.held.take(removed);
        if place < self.list.len() {
            let moved = self.list[place].node;
            self.places[moved as usize] = place;
        }
    }

    /// Puts an owner in the place of the present one of its node, which must be there.
    pub fn change(&mut self, o: Owner)
        requires { IsTrue (has_node self.old o.node) }
        ensures { self.new ≡ with_changed o self.old }
    {
        let place = self.places[o.node as usize];
        let was = self.list[place];
        count_down(&mut self.counts, was.id);
        count_up(&mut self.counts, o.id);
        self.held.change(was, o);
        self.list[place] = o;
        self.top = self.top.max(o.id);
    }

    /// The owners. `add` puts one after the others; `remove` may change their order.
    pub fn list(&self) -> &[Owner]
        ensures same { result.now ≡ self.now }
        ensures nodes { HaveOwnNodes self.now }
    {
        &self.list
    }

    /// The owner of a node, if it has one.
    pub fn of(&self, node: u64) -> Option<Owner>
        ensures { result ≡ find (is_node node) self.now }
    {
        owner_of(&self.list, &self.places, node)
    }

    /// How many owners have an identifier.
    pub fn count(&self, id: u32) -> usize
        ensures { result ≡ count_by (owns id) self.now }
    {
        match self.counts.get(id as usize) {
            Some(count) => *count,
            None => count_in(&self.list, id),
        }
    }

    /// Puts the owners of each directory in order for `held_in`, and keeps them so from now on. It is called once all owners of a
    /// disc were added: to put each in its place as it comes takes the square of a directory's length where they come in another
    /// order.
    pub fn settle(&mut self)
        ensures { self.new ≡ self.old }
    {
        self.held.settle();
    }

    /// The owners of the objects that a directory holds, in order. The directory is given by the number of its node. `None`
    /// before `settle`, and if there was no memory to keep them.
    pub fn held_in(&self, dir: u64) -> Option<&[Owner]>
        ensures { IfSome result (λ held. AreHeldBy dir self.now held.now) }
    {
        self.held.get(dir)
    }

    /// Whether an owner has this identifier.
    pub fn owned(&self, id: u32) -> bool
        ensures { result ≡ is_id_owned self.now id }
    {
        match self.counts.get(id as usize) {
            Some(count) => *count > 0,
            None => id <= self.top && self.list.iter().any(|o| o.id == id),
        }
    }
}
