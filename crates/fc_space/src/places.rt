// The map of a disc with an index, for the places of many objects.

ghost use Rattle.std.specs.Prelude.{◌≡◌, ◌<◌, None, Some, IfOk, IsErrOf};
ghost use Rattle.std.specs.Borrow.{Lends, sem};
ghost use Rattle.fc_image.specs.Layout.{dir_form, sector_bytes, sectors_at};
ghost use Rattle.fc_objects.specs.Extents.{sectors_in};
ghost use Rattle.fc_space.specs.Space.{HaveSectors, PlacesSuffice, Suffice, layout_of};
ghost use Rattle.fc_space.specs.contracts.places.Places.{the_row};
ghost use Rattle.fc_space.specs.contracts.space.Space.{the_row as space_row};

use crate::index::{IdRow, index_of};
use crate::indexed::indexed_place;
use crate::{PlaceError, Space};
use fc_device::{Extent, NoMemory};
use fc_names::NameForm;
use std::alloc::Global;
use std::marker::Model;

/// A map that can have an index of its runs: a new map is walked over twice when the index is made, and then each place
/// costs a search. With no index the map itself is searched. Contracts see the map.
#[derive(Drop)]
pub struct Places {
    space: Space,
    index: Option<Vec<IdRow>>,
    // Whether a place was looked for since a change dropped the index.
    sought: bool,
}

impl Model for Places {
    ghost use Rattle.fc_space.specs.declared.space.Space.{Space};
    ghost use Rattle.fc_space.specs.Index.{IsIndexOf};

    ghost Value = { Space };

    ghost view = { λ p. p.space };

    ghost invariant = { λ p. IsIndexOf p.index p.space };
}

impl Places {
    /// A map, with no index yet. Takes no memory.
    pub fn new(space: Space) -> Places
        ensures { result ≡ space }
    {
        Places {
            space,
            index: None,
            sought: false,
        }
    }

    /// Makes the index of a new map and the map's tally, unless it has them. If memory is short, places are found as before;
    /// for the tally alone that is no error.
    pub fn index(&mut self, alloc: Global) -> Result<(), NoMemory>
        ensures { self.new ≡ self.old }
    {
        let Space::NewMapped(map) = &mut self.space else {
            return Ok(());
        };
        if self.index.is_none() {
            self.index = Some(index_of(alloc, map)?);
        }
        let _ = map.tally(alloc);
        Ok(())
    }

    /// Before a place is looked for: makes the index, if one was looked for since a change dropped it. So a single search
    /// between two changes costs no index. If memory is short, places are found as before.
    pub fn renew_index(&mut self, alloc: Global)
        ensures { self.new ≡ self.old }
    {
        if self.sought {
            let _ = self.index(alloc);
        }
        self.sought = true;
    }

    /// The map.
    pub fn space(&self) -> &Space
        ensures { result.now ≡ self.now }
    {
        &self.space
    }

    /// The map, to be changed. The index is dropped: until it is made again, the map itself is searched.
    pub fn edit(&mut self) -> &mut Space
        ensures* lends { sem 𝓛 (Lends the_row space_row self.entry result (λ space. space)) }
        ensures value { result.now ≡ self.old }
    {
        self.index = None;
        self.sought = false;
        &mut self.space
    }

    /// The bytes of a sector.
    pub fn sector_bytes(&self) -> u64
        ensures { result ≡ sector_bytes (layout_of self.now) }
    {
        self.space.sector_bytes()
    }

    /// The form of the disc's directories.
    pub fn dir_form(&self) -> NameForm
        ensures { result ≡ dir_form (layout_of self.now) }
    {
        self.space.dir_form()
    }

    /// A law: bytes that have a place lie on the disc.
    pub fn places_suffice(&self)
        ensures { PlacesSuffice (layout_of self.now) }
    {
        self.space.places_suffice();
    }

    /// What `Space::place_of` answers, by a search in the index if there is one.
    pub fn place_of(
        &self,
        alloc: Global,
        address: u32,
        bytes: u64,
    ) -> Result<Vec<Extent>, PlaceError>
        ensures place { IfOk result (λ place. sectors_at (layout_of self.now) address bytes ≡ Some (sectors_in place.items)) }
        ensures suffice { IfOk result (λ place. Suffice (layout_of self.now) bytes (sectors_in place.items)) }
        ensures each { IfOk result (λ place. HaveSectors place.items) }
        ensures outside { IsErrOf result PlaceError.Outside → sectors_at (layout_of self.now) address bytes ≡ None }
    {
        match (&self.index, &self.space) {
            (Some(rows), Space::NewMapped(map)) if bytes > 0 => {
                indexed_place(alloc, map, rows, address, bytes)
            }
            _ => self.space.place_of(alloc, address, bytes),
        }
    }
}
