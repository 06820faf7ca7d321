// Putting entries into big directories.
ghost use Rattle.std.specs.Prelude.{◌≡◌, ◌<◌, ◌↔◌, IsErrOf, IsFalse, MatchOption, OnErr, OnOk};
ghost use Rattle.fc_names.specs.Names.{IsName};
ghost use Rattle.fc_dirs.specs.Entries.{has_name};
ghost use Rattle.fc_dirs.specs.Big.{size_limit, size_with, with_big_entry};
ghost use Rattle.fc_bigdir.specs.Entered.{HasRoomFor};

use crate::enter::{Room, enter, room_for};
use crate::{BigDir, InsertError};
use fc_dirs::Entry;

impl BigDir {
    // The room for a new entry.
    fn room_with(&self, e: &Entry) -> Option<Room>
        ensures room { MatchOption result (size_limit < size_with e.now self.now) (HasRoomFor e.now self.now) }
        ensures name { IsName e.now.name }
    {
        room_for(self.size, self.parts_with(&e.name))
    }

    /// Puts an entry before the first whose folded name is greater, and else last. Its name folds to no name of the
    /// directory, and its last byte is 0. The directory grows if it must; only if the heap is too long for that
    /// size with the new name, it is made anew, of exactly the names. After a refusal the directory is as before.
    ///
    /// `DirFull` comes if the directory would need more than 4,194,304 bytes.
    pub fn insert(&mut self, e: Entry) -> Result<(), InsertError>
        requires absent { IsFalse (has_name self.old.entries e.name) }
        requires last { e.last ≡ 0 }
        ensures ok { OnOk result (self.new ≡ with_big_entry e self.old) }
        ensures err { OnErr result (self.new ≡ self.old) }
        ensures full { IsErrOf result InsertError.DirFull ↔ (size_limit < size_with e self.old) }
    {
        let Some(room) = self.room_with(&e) else {
            return Err(InsertError::DirFull);
        };
        self.entries.reserve(1)?;
        self.places.reserve(1)?;
        if !enter(&mut self.heap, &mut self.places, &mut self.entries, e, room) {
            return Err(InsertError::NoMemory);
        }
        self.size = room.size;
        self.packed = room.tight;
        Ok(())
    }
}
