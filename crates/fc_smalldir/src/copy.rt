// Copies of directories, for changes that may be given up.
ghost use Rattle.std.specs.Prelude.{◌≡◌, ◌++◌, ◌∷◌, [], IfOk, OnOk};

use crate::SmallDir;
use fc_device::NoMemory;
use fc_dirs::{Entry, SmallForm};
use std::alloc::Global;

// Puts a copy of an entry after others.
fn push_copy(entries: &mut Vec<Entry>, entry: &Entry) -> Result<(), NoMemory>
    ensures { OnOk result (entries.new.items ≡ entries.old.items ++ entry.now ∷ []) }
{
    if entries.push(entry.copied()?).is_err() {
        return Err(NoMemory);
    }
    Ok(())
}

/// The same entries, with memory of their own.
pub fn copied_entries(alloc: Global, entries: &[Entry]) -> Result<Vec<Entry>, NoMemory>
    ensures { IfOk result (λ copy. copy.items ≡ entries.now) }
{
    let mut copy = Vec::with_capacity(alloc, entries.len())?;
    for e in entries {
        push_copy(&mut copy, e)?;
    }
    Ok(copy)
}

impl SmallDir {
    /// An equal directory with memory of its own.
    pub fn copied(&self, alloc: Global) -> Result<SmallDir, NoMemory>
        ensures { IfOk result (λ copy. copy ≡ self.now) }
    {
        Ok(SmallDir {
            head: self.head,
            entries: copied_entries(alloc, &self.entries)?,
        })
    }

    /// The form of the directory.
    pub fn form(&self) -> SmallForm
        ensures { result ≡ self.now.form }
    {
        self.head.form
    }
}
