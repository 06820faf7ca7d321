// New directories, and small changes.
ghost use Rattle.std.specs.Prelude.{◌≡◌, ◌<◌, Some, length, slice_get, IfOk, OnErr, OnOk};
ghost use Rattle.std.specs.Option.{option_map};
ghost use Rattle.fc_dirs.specs.Big.{bytes_for, empty_big, with_big_changed, with_head_name, without_big_entry};

use crate::BigDir;
use crate::space::{bytes_for, head_space, name_space};
use fc_device::NoMemory;
use fc_dirs::Entry;
use fc_names::Name;
use std::alloc::Global;

impl BigDir {
    /// A new directory of 2048 bytes, with sequence 0, 0 in the reserved bytes, its head's name in the first form, and no
    /// entry. `parent` is the disc address of the directory that holds it.
    pub fn empty(alloc: Global, parent: u32, name: &Name) -> Result<BigDir, NoMemory>
        ensures { IfOk result (λ dir. dir ≡ empty_big parent name.now) }
    {
        Ok(BigDir {
            size: 2048,
            sequence: 0,
            parent,
            name: Vec::from_slice(alloc, name.bytes())?,
            second_form: false,
            reserved: [0; 2],
            heap: Vec::new(alloc),
            places: Vec::new(alloc),
            entries: Vec::new(alloc),
            packed: 0,
        })
    }

    /// Takes the entry at a place out. Its name stays in the heap.
    pub fn remove(&mut self, at: usize)
        requires { at < length self.old.entries }
        ensures { self.new ≡ without_big_entry at self.old }
    {
        let gone = self.entries.remove(at);
        self.places.remove(at);
        self.packed -= name_space(&gone.name);
    }

    /// Replaces the entry at a place by one of the same name, byte for byte.
    pub fn change(&mut self, at: usize, e: Entry)
        requires present { at < length self.old.entries }
        requires same { option_map (λ d. d.name) (slice_get self.old.entries at) ≡ Some e.name }
        requires last { e.last ≡ 0 }
        ensures { self.new ≡ with_big_changed at e self.old }
    {
        self.entries[at] = e;
    }

    /// Replaces the head's name, which keeps its form, if the size holds it, and else changes nothing. A name in the
    /// second form is whole words; one that isn't is the same bytes in both forms, and then has the first.
    pub fn set_name(&mut self, name: &Name) -> Result<(), NoMemory>
        ensures ok { OnOk result (self.new ≡ with_head_name name.now self.old) }
        ensures err { OnErr result (self.new ≡ self.old) }
    {
        let bytes = name.bytes();
        let second_form = self.second_form && bytes.len() % 4 == 0;
        let space = head_space(second_form, bytes.len());
        if bytes_for(space, self.entries.len(), self.heap.len()) > self.size as usize {
            return Ok(());
        }
        self.name = Vec::from_slice(*self.name.allocator(), bytes)?;
        self.second_form = second_form;
        Ok(())
    }
}
