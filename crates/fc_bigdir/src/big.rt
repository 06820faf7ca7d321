// Big directories.
ghost use Rattle.std.specs.Prelude.{◌≡◌, length};
ghost use Rattle.fc_dirs.specs.Big.{IsBig, head_space_of};
ghost use Rattle.fc_dirs.specs.Small.{next_sequence};

use crate::space::head_space;
use fc_dirs::Entry;
use std::marker::Model;

/// A big directory: its size, the fields of its head and tail, the heap of its names, and its entries in stored order.
#[derive(Drop)]
pub struct BigDir {
    pub(crate) size: u32,
    pub(crate) sequence: u8,
    pub(crate) parent: u32,
    // The name in the head: any bytes, as far as the size holds them.
    pub(crate) name: Vec<u8>,
    // Whether the head's name has the least space of whole words.
    pub(crate) second_form: bool,
    pub(crate) reserved: [u8; 2],
    pub(crate) heap: Vec<u8>,
    // Where the name of each entry begins in the heap.
    pub(crate) places: Vec<u32>,
    pub(crate) entries: Vec<Entry>,
    // The size of a heap of exactly the names of the entries, so that no call has to add it up.
    pub(crate) packed: usize,
}

impl Model for BigDir {
    ghost use Rattle.fc_dirs.specs.Big as big;

    ghost Value = { big.BigDir };

    ghost use Rattle.fc_bigdir.specs.Fields.{IsKept, dir_of};

    ghost view = { λ d. dir_of d.size d.sequence d.parent d.name.items d.second_form d.reserved d.heap.items d.places.items d.entries.items };

    // The parts fit, each name stands in the heap, no two names fold to one, and the size of the names is right.
    ghost invariant = { λ d. IsKept d.packed (dir_of d.size d.sequence d.parent d.name.items d.second_form d.reserved d.heap.items d.places.items d.entries.items) };
}

impl BigDir {
    /// The entries in stored order.
    pub fn entries(&self) -> &[Entry]
        ensures same { result.now ≡ self.now.entries }
        ensures big { IsBig self.now }
    {
        &self.entries
    }

    /// The disc address of the directory that holds this one, as its field says.
    pub fn parent(&self) -> u32
        ensures { result ≡ self.now.parent }
    {
        self.parent
    }

    /// Replaces the field of the parent.
    pub fn set_parent(&mut self, parent: u32)
        ensures { self.new ≡ record self.old { parent = parent } }
    {
        self.parent = parent;
    }

    /// The number of bytes of the directory.
    pub fn size(&self) -> usize
        ensures { result ≡ self.now.size }
    {
        self.size as usize
    }

    /// The number of bytes of the heap of names.
    pub fn heap(&self) -> usize
        ensures { result ≡ length self.now.heap }
    {
        self.heap.len()
    }

    /// The number of bytes that the head's name takes, with what fills it up.
    pub fn head_space(&self) -> usize
        ensures { result ≡ head_space_of self.now }
    {
        head_space(self.second_form, self.name.len())
    }

    /// Grows the sequence by one modulo 256, as each rewriting does.
    pub fn touch(&mut self)
        ensures { self.new ≡ record self.old { sequence = next_sequence self.old.sequence } }
    {
        self.sequence = self.sequence.wrapping_add(1);
    }
}
