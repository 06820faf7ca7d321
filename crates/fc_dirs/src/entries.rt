// Entries, and where they stand among others.
ghost use Rattle.std.specs.Prelude.{◌≡◌, ◌≤◌, length, IfOk};
ghost use Rattle.fc_dirs.specs.Entries.{entry_place};
ghost use Rattle.fc_names.specs.Names.{is_directory};

use crate::Entry;
use fc_device::NoMemory;
use fc_names::{Attrs, Name, fold_less};

impl Entry {
    /// The same entry, with its own memory if the name is long.
    pub fn copied(&self) -> Result<Entry, NoMemory>
        ensures { IfOk result (λ copy. copy ≡ self.now) }
    {
        Ok(self.clone()?)
    }

    /// Whether it is a directory's entry.
    pub fn is_directory(&self) -> bool
        ensures { result ≡ is_directory self.now.attrs }
    {
        Attrs::new(self.attrs).is_directory()
    }
}

/// Where a new entry stands: before the first whose folded name is greater, and else last.
pub fn place_of(entries: &[Entry], name: &Name) -> usize
    ensures place { result ≡ entry_place name.now entries.now }
    ensures within { result ≤ length entries.now }
{
    entries
        .iter()
        .position(|e| fold_less(name, &e.name))
        .unwrap_or(entries.len())
}
