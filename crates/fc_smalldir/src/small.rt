// Small directories.
ghost use Rattle.std.specs.Prelude.{◌≡◌, ◌<◌, ◌≤◌, ◌↔◌, ◌^◌, Some, length, slice_get, slice_set, IfOk, IfErr, IsErrOf, IsFalse, IsTrue, OnErr, OnOk};
ghost use Rattle.std.specs.Option.{option_map};
ghost use Rattle.fc_names.specs.Names.{is_writable};
ghost use Rattle.fc_dirs.specs.Entries.{has_name, without_entry};
ghost use Rattle.fc_dirs.specs.Small.{IsSmall, IsSmallDir, attrs_limit, empty_small, is_full_small, last_limit, next_sequence, small_fault, tail_of, with_small_entry, with_small_name, with_small_renamed};
ghost use Rattle.fc_dirs.specs.Faults.{IsFaultOf};
ghost use Rattle.fc_smalldir.specs.Fields.{names_of_form};
ghost use Rattle.fc_dirs.specs.SmallBytes.{IsWrittenSmall, small_bytes};

use crate::bytes::padded;
use crate::entries::{count_entries, first_twin, put_entries, read_entries};
use crate::entry::words_fit;
use crate::head::{
    ENTRY, HEAD, Head, check_of, has_old_word, is_check_right, is_magic_right, is_sequence_right,
    put_head, put_tail, read_head,
};
use crate::{DirError, InsertError};
use fc_bytes::{put, put_zeros};
use fc_dirs::{DirFault, Entry, SmallForm, place_of};
use fc_names::Name;
use std::alloc::Global;
use std::marker::Model;

/// A directory of 2048 or of 1280 bytes: its form, the fields of its head and tail, and its entries in stored order.
#[derive(Drop)]
pub struct SmallDir {
    pub(crate) head: Head,
    pub(crate) entries: Vec<Entry>,
}

impl Model for SmallDir {
    ghost use Rattle.fc_dirs.specs.Small as small;

    ghost Value = { small.SmallDir };

    ghost use Rattle.fc_dirs.specs.Small.{IsSmall};
    ghost use Rattle.fc_smalldir.specs.Fields.{dir_of};

    ghost view = { λ d. dir_of d.head d.entries.items };

    // Each part fits its place in the bytes, and no two names fold to one.
    ghost invariant = { λ d. IsSmall (dir_of d.head d.entries.items) };
}

impl SmallDir {
    /// A new directory, which takes no memory until an entry is put into it. It has sequence 0, the word `Nick` (2048
    /// bytes) or `Hugo` (1280 bytes), its name as name and title, and 0 in the reserved bytes. `parent` is the disc
    /// address of the directory that holds it, below 2^24.
    pub fn empty(alloc: Global, form: SmallForm, parent: u32, name: &Name) -> SmallDir
        requires name { length name.now ≤ 10 }
        requires parent { parent < 2 ^ 24 }
        ensures { result ≡ empty_small form parent name.now }
    {
        SmallDir {
            head: Head {
                form,
                is_hugo: has_old_word(form),
                sequence: 0,
                parent,
                name: padded(name.bytes()),
                title: padded(name.bytes()),
                reserved: [0; 14],
            },
            entries: Vec::new(alloc),
        }
    }

    /// The directory that bytes of a form say. A fault is the first in the order of `DirFault`.
    pub fn read(alloc: Global, b: &[u8], form: SmallForm) -> Result<SmallDir, DirError>
        requires { length b.now ≡ (tail_of form).size }
        ensures ok { IfOk result (λ dir. IsSmallDir b.now dir) }
        ensures form { IfOk result (λ dir. dir.form ≡ form) }
        ensures err { IfErr result (IsFaultOf (small_fault form b.now)) }
    {
        if !is_magic_right(b, form) {
            return Err(DirFault::Magic.into());
        }
        if !is_sequence_right(b, form) {
            return Err(DirFault::Sequence.into());
        }
        let count = count_entries(b, form);
        if !is_check_right(b, form, count) {
            return Err(DirFault::Check.into());
        }
        let entries = read_entries(alloc, b, form, count)?;
        if let Some(at) = first_twin(&entries) {
            return Err(DirFault::Twin { at }.into());
        }
        Ok(SmallDir {
            head: read_head(b, form),
            entries,
        })
    }

    /// Fills the buffer, which is as long as the directory, with its bytes. Free places and the last mark are 0.
    pub fn write(&self, b: &mut [u8])
        requires { length b.old ≡ (tail_of self.now.form).size }
        ensures bytes { b.new ≡ small_bytes self.now }
        ensures written { IsWrittenSmall b.new self.now }
    {
        let form = self.head.form;
        let at = put_head(b, 0, &self.head);
        let at = put_entries(b, at, &self.entries, form);
        let tail = HEAD + 1 + ENTRY * form.places();
        put_zeros(b, at, tail);
        let at = put_tail(b, tail, &self.head);
        put(b, at, &[0]);
        b[at] = check_of(b, form, self.entries.len());
    }

    /// Puts an entry before the first whose folded name is greater, and else last. Its name may be written in the form
    /// and folds to no name of the directory, its address is below 2^24, and its attributes are below 256, or below
    /// 1024 in 1280 bytes. After a refusal the directory is as before.
    pub fn insert(&mut self, e: Entry) -> Result<(), InsertError>
        requires writable { IsTrue (is_writable (names_of_form self.old.form) e.name) }
        requires absent { IsFalse (has_name self.old.entries e.name) }
        requires address { e.address < 2 ^ 24 }
        requires attrs { e.attrs < attrs_limit self.old.form }
        requires last { e.last < last_limit self.old.form }
        ensures ok { OnOk result (self.new ≡ with_small_entry e self.old) }
        ensures err { OnErr result (self.new ≡ self.old) }
        ensures full { IsErrOf result InsertError.DirFull ↔ IsTrue (is_full_small self.old) }
    {
        if self.entries.len() == self.head.form.places() {
            return Err(InsertError::DirFull);
        }
        words_fit(&e);
        let at = place_of(&self.entries, &e.name);
        if self.entries.insert(at, e).is_err() {
            return Err(InsertError::NoMemory);
        }
        Ok(())
    }

    /// Takes the entry at a place out.
    pub fn remove(&mut self, at: usize)
        requires { at < length self.old.entries }
        ensures { self.new ≡ record self.old { entries = without_entry at self.old.entries } }
    {
        self.entries.remove(at);
    }

    /// Replaces the entry at a place by one of the same name.
    pub fn change(&mut self, at: usize, e: Entry)
        requires present { at < length self.old.entries }
        requires same { option_map (λ d. d.name) (slice_get self.old.entries at) ≡ Some e.name }
        requires address { e.address < 2 ^ 24 }
        requires attrs { e.attrs < attrs_limit self.old.form }
        requires last { e.last < last_limit self.old.form }
        ensures { self.new ≡ record self.old { entries = slice_set self.old.entries at e } }
    {
        words_fit(&e);
        self.entries[at] = e;
    }

    /// Takes the entry at a place out and puts another where `insert` would put it, under the conditions of `insert`:
    /// its name folds to no other name of the directory.
    pub fn rename(&mut self, at: usize, e: Entry)
        requires present { at < length self.old.entries }
        requires writable { IsTrue (is_writable (names_of_form self.old.form) e.name) }
        requires absent { IsFalse (has_name (without_entry at self.old.entries) e.name) }
        requires address { e.address < 2 ^ 24 }
        requires attrs { e.attrs < attrs_limit self.old.form }
        requires last { e.last < last_limit self.old.form }
        ensures { self.new ≡ with_small_renamed at e self.old }
    {
        words_fit(&e);
        self.entries.remove(at);
        let place = place_of(&self.entries, &e.name);
        // There is room, since an entry went.
        let done = self.entries.insert(place, e).is_ok();
        prove!(done);
    }

    /// The entries in stored order.
    pub fn entries(&self) -> &[Entry]
        ensures same { result.now ≡ self.now.entries }
        ensures small { IsSmall self.now }
    {
        &self.entries
    }

    /// The disc address of the directory that holds this one, as its field says.
    pub fn parent(&self) -> u32
        ensures { result ≡ self.now.parent }
    {
        self.head.parent
    }

    /// Replaces the field of the parent.
    pub fn set_parent(&mut self, parent: u32)
        requires { parent < 2 ^ 24 }
        ensures { self.new ≡ record self.old { parent = parent } }
    {
        self.head.parent = parent;
    }

    /// Replaces the field of the name. The title stays.
    pub fn set_name(&mut self, name: &Name)
        requires { length name.now ≤ 10 }
        ensures { self.new ≡ with_small_name name.now self.old }
    {
        self.head.name = padded(name.bytes());
    }

    /// Grows the sequence by one modulo 256, as each rewriting does.
    pub fn touch(&mut self)
        ensures { self.new ≡ record self.old { sequence = next_sequence self.old.sequence } }
    {
        self.head.sequence = self.head.sequence.wrapping_add(1);
    }
}
