// Renaming entries of big directories.
ghost use Rattle.std.specs.Prelude.{◌≡◌, ◌<◌, ◌↔◌, IsErrOf, IsFalse, IsTrue, MatchOption, OnErr, OnOk, length, slice_index};
ghost use Rattle.fc_names.specs.Names.{IsName};
ghost use Rattle.fc_dirs.specs.Entries.{has_name, without_entry};
ghost use Rattle.fc_dirs.specs.Big.{is_spelled, size_limit, size_with, with_big_entry, with_big_renamed, with_entry_at, without_big_entry};
ghost use Rattle.fc_bigdir.specs.Entered.{HasRoomFor};

use crate::enter::{Room, enter, place_entry, room_for};
use crate::{BigDir, InsertError};
use fc_dirs::{Entry, place_of};

impl BigDir {
    // Whether the entry at a place has that name, byte for byte.
    fn is_spelled(&self, at: usize, e: &Entry) -> bool
        requires { at < length self.now.entries }
        ensures { result ≡ is_spelled at e.now self.now }
    {
        self.entries[at].name.bytes() == e.name.bytes()
    }

    // The room for an entry in place of the one at a place.
    fn room_renamed(&self, at: usize, e: &Entry) -> Option<Room>
        requires { at < length self.now.entries }
        ensures room { MatchOption result (size_limit < size_with e.now (without_big_entry at self.now)) (HasRoomFor e.now (without_big_entry at self.now)) }
        ensures name { IsName e.now.name }
    {
        room_for(self.size, self.parts_renamed(at, &e.name))
    }

    // Takes the entry at a place out, and puts another in whose name is spelled the same.
    fn replace(&mut self, at: usize, e: Entry)
        requires present { at < length self.old.entries }
        requires spelled { IsTrue (is_spelled at e self.old) }
        requires absent { IsFalse (has_name (without_entry at self.old.entries) e.name) }
        requires last { e.last ≡ 0 }
        ensures { self.new ≡ with_entry_at (slice_index self.old.name_places at) e (without_big_entry at self.old) }
    {
        self.entries.remove(at);
        let place = self.places.remove(at);
        let number = place_of(&self.entries, &e.name);
        place_entry(&mut self.places, &mut self.entries, number, place, e);
    }

    // Takes the entry at a place out, and puts another in whose name is spelled otherwise.
    fn respell(&mut self, at: usize, e: Entry) -> Result<(), InsertError>
        requires present { at < length self.old.entries }
        requires absent { IsFalse (has_name (without_entry at self.old.entries) e.name) }
        requires last { e.last ≡ 0 }
        ensures ok { OnOk result (self.new ≡ with_big_entry e (without_big_entry at self.old)) }
        ensures err { OnErr result (self.new ≡ self.old) }
        ensures full { IsErrOf result InsertError.DirFull ↔ (size_limit < size_with e (without_big_entry at self.old)) }
    {
        let Some(room) = self.room_renamed(at, &e) else {
            return Err(InsertError::DirFull);
        };
        let old = self.entries.remove(at);
        let place = self.places.remove(at);
        if !enter(&mut self.heap, &mut self.places, &mut self.entries, e, room) {
            // There is room, since both went.
            let done = self.places.insert(at, place).is_ok();
            prove!(done);
            let done = self.entries.insert(at, old).is_ok();
            prove!(done);
            return Err(InsertError::NoMemory);
        }
        self.size = room.size;
        self.packed = room.tight;
        Ok(())
    }

    /// Takes the entry at a place out and puts another where `insert` would put it, under the conditions of `insert`: its
    /// name folds to no other name of the directory. A name that stays as it is, byte for byte, stays where it is in the
    /// heap; any other makes the directory grow as `insert` does. After a refusal the directory is as before.
    ///
    /// `DirFull` comes if the name is another and the directory would need more than 4,194,304 bytes.
    pub fn rename(&mut self, at: usize, e: Entry) -> Result<(), InsertError>
        requires present { at < length self.old.entries }
        requires absent { IsFalse (has_name (without_entry at self.old.entries) e.name) }
        requires last { e.last ≡ 0 }
        ensures ok { OnOk result (self.new ≡ with_big_renamed at e self.old) }
        ensures err { OnErr result (self.new ≡ self.old) }
        ensures full { IsErrOf result InsertError.DirFull ↔ (IsFalse (is_spelled at e self.old) × (size_limit < size_with e (without_big_entry at self.old))) }
    {
        if self.is_spelled(at, &e) {
            self.replace(at, e);
            return Ok(());
        }
        self.respell(at, e)
    }
}
