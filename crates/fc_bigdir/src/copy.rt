// Copies of directories, for changes that may be given up.
ghost use Rattle.std.specs.Prelude.{◌≡◌, IfOk};

use crate::BigDir;
use fc_device::NoMemory;
use fc_smalldir::copied_entries;
use std::alloc::Global;

impl BigDir {
    /// An equal directory with memory of its own.
    pub fn copied(&self, alloc: Global) -> Result<BigDir, NoMemory>
        ensures { IfOk result (λ copy. copy ≡ self.now) }
    {
        Ok(BigDir {
            size: self.size,
            sequence: self.sequence,
            parent: self.parent,
            name: Vec::from_slice(alloc, &self.name)?,
            second_form: self.second_form,
            reserved: self.reserved,
            heap: Vec::from_slice(alloc, &self.heap)?,
            places: Vec::from_slice(alloc, &self.places)?,
            entries: copied_entries(alloc, &self.entries)?,
            packed: self.packed,
        })
    }
}
