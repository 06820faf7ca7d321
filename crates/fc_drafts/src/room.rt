// The room that a directory has for a name, before anything is edited.
ghost use Rattle.std.specs.Prelude.{◌≡◌, ◌<◌, ℕ, List, length};
ghost use Rattle.fc_dirs.specs.declared.Entry.{Entry};
ghost use Rattle.fc_dirs.specs.Directory.{Directory, entries_of};
ghost use Rattle.fc_image.specs.effects.Short.{Gain};
ghost use Rattle.fc_drafts.specs.Draft.{directory_in};
ghost use Rattle.fc_drafts.specs.Gains.{GetsName, GetsNameFor, HasRoom, room_of_size, small_room};
ghost use Rattle.fc_drafts.specs.Rewriting.{IsAt};

use crate::Draft;
use fc_bigdir::BigDir;
use fc_bytes::BIG_LIMIT;
use fc_names::Name;
use fc_smalldir::SmallDir;

/// The room that a directory has for a name.
#[derive(Clone, Copy, Debug, PartialEq, Eq)]
pub enum Room {
    /// None: a small directory has too many entries, and a big one would pass 4,194,304 bytes.
    Full,
    /// The directory has to grow to so many bytes.
    Grows(u32),
    /// As it is.
    Fits,
}

// The room of a directory of so many bytes that needs so many.
fn room_of_size(size: usize, needed: u64) -> Room
    ensures { result ≡ room_of_size size needed }
{
    if needed > BIG_LIMIT as u64 {
        Room::Full
    } else if needed > size as u64 {
        Room::Grows(needed as u32)
    } else {
        Room::Fits
    }
}

// The room of a small directory for one entry more.
fn small_room(dir: &SmallDir) -> Room
    ensures { result ≡ small_room dir.now }
{
    if dir.entries().len() == dir.form().places() {
        Room::Full
    } else {
        Room::Fits
    }
}

impl Room {
    /// The room that a small directory has for a name that is not there.
    pub fn in_small(dir: &SmallDir) -> Room
        ensures { (name : List ℕ) (gain : Gain) → GetsName (Directory.Small dir.now) name gain → HasRoom (Directory.Small dir.now) gain result }
    {
        // Contracts see by this that there are no more entries than places.
        let _ = dir.entries();
        small_room(dir)
    }

    /// The room that a big directory has for a name that is not there.
    pub fn in_big(dir: &BigDir, name: &Name) -> Room
        ensures { (gain : Gain) → GetsName (Directory.Big dir.now) name.now gain → HasRoom (Directory.Big dir.now) gain result }
    {
        room_of_size(dir.size(), dir.needed_with(name))
    }

    /// The room that a big directory has for a name in place of that of the entry at a place. A name that is spelled as
    /// before always fits.
    pub fn in_big_renamed(dir: &BigDir, at: usize, name: &Name) -> Room
        requires { at < length dir.now.entries }
        ensures kept { (was : Entry) → IsAt dir.now.entries at was → was.name ≡ name.now → result ≡ Room.Fits }
        ensures respelled { (was : Entry) (gain : Gain) → IsAt dir.now.entries at was → (was.name ≡ name.now → ⊥) → GetsNameFor (Directory.Big dir.now) was.name name.now gain → HasRoom (Directory.Big dir.now) gain result }
    {
        if dir.entries()[at].name.bytes() == name.bytes() {
            return Room::Fits;
        }
        room_of_size(dir.size(), dir.needed_renamed(at, name))
    }
}

impl Draft {
    /// The room for a name in place of that of the entry at a place. A name that is spelled as before always fits.
    pub fn room_renamed(&self, at: usize, name: &Name) -> Room
        requires { at < length (entries_of (directory_in self.now)) }
        ensures kept { (was : Entry) → IsAt (entries_of (directory_in self.now)) at was → was.name ≡ name.now → result ≡ Room.Fits }
        ensures respelled { (was : Entry) (gain : Gain) → IsAt (entries_of (directory_in self.now)) at was → (was.name ≡ name.now → ⊥) → GetsNameFor (directory_in self.now) was.name name.now gain → HasRoom (directory_in self.now) gain result }
    {
        // Contracts see by this what holds of every directory.
        let _ = self.entries();
        match self {
            Draft::Small(_) => Room::Fits,
            Draft::Big(dir) => Room::in_big_renamed(dir, at, name),
        }
    }
}
