// The size that a directory needs for a name.
ghost use Rattle.std.specs.Prelude.{◌≡◌, ◌<◌, ◌++◌, ◌∷◌, [], length, map};
ghost use Rattle.fc_names.specs.Names.{IsName};
ghost use Rattle.fc_dirs.specs.Big.{needed_size, without_big_entry};
ghost use Rattle.fc_dirs.specs.Entries.{without_entry};
ghost use Rattle.fc_bigdir.specs.Entered.{AreSmall, ArePartsWith, needed_for};

use crate::BigDir;
use crate::space::{name_space, size_for};
use fc_names::Name;

// What a directory has with a new name: the space of its head's name, its number of entries, and the bytes of its heap,
// with the name after the present one (`loose`) or made anew of exactly the names (`tight`).
#[derive(Clone, Copy)]
pub struct Parts {
    pub head: usize,
    pub entries: usize,
    pub loose: usize,
    pub tight: usize,
}

impl Parts {
    // The least size in bytes of a directory with these parts.
    pub fn needed(&self) -> u64
        requires { AreSmall self.now }
        ensures { result ≡ needed_for self.now.head self.now.entries self.now.loose self.now.tight }
    {
        let loose = size_for(self.head, self.entries, self.loose);
        loose.min(size_for(self.head, self.entries, self.tight))
    }
}

impl BigDir {
    // The parts with one name more.
    pub fn parts_with(&self, name: &Name) -> Parts
        ensures parts { ArePartsWith self.now name.now result }
        ensures small { AreSmall result }
        ensures name { IsName name.now }
    {
        let space = name_space(name);
        Parts {
            head: self.head_space(),
            entries: self.entries.len() + 1,
            loose: self.heap.len() + space,
            tight: self.packed + space,
        }
    }

    // The parts with a name in place of that of the entry at a place.
    pub fn parts_renamed(&self, at: usize, name: &Name) -> Parts
        requires { at < length self.now.entries }
        ensures parts { ArePartsWith (without_big_entry at self.now) name.now result }
        ensures small { AreSmall result }
        ensures name { IsName name.now }
    {
        let space = name_space(name);
        let gone = name_space(&self.entries[at].name);
        Parts {
            head: self.head_space(),
            entries: self.entries.len(),
            loose: self.heap.len() + space,
            tight: self.packed - gone + space,
        }
    }

    /// The least size in bytes with which the directory holds one name more, whether its heap takes the name besides or is
    /// made anew. It may be more than any directory has, and less than this one has.
    pub fn needed_with(&self, name: &Name) -> u64
        ensures { result ≡ needed_size self.now (map (λ e. e.name) self.now.entries ++ name.now ∷ []) name.now }
    {
        self.parts_with(name).needed()
    }

    /// The same for a name in place of that of the entry at a place. The old name may stay in the heap.
    pub fn needed_renamed(&self, at: usize, name: &Name) -> u64
        requires { at < length self.now.entries }
        ensures { result ≡ needed_size self.now (map (λ e. e.name) (without_entry at self.now.entries) ++ name.now ∷ []) name.now }
    {
        self.parts_renamed(at, name).needed()
    }
}
