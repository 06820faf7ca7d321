// `rename`: another name, or another directory, or both.
ghost use Rattle.std.specs.Prelude.{IsFalse, IsTrue};
ghost use Rattle.fc_model.specs.Command.{Command};
ghost use Rattle.fc_volume.specs.Changing.{IsAsked};
ghost use Rattle.fc_volume.specs.Volume.{StandsFor};

use crate::{CommandError, Volume, is_fit_after};
use fc_device::Disk;
use fc_names::Path;
use std::alloc::Global;

impl Volume {
    /// Gives an object another name, another directory, or both. Nothing of the disk is pending. Copies of a new map that may differ are
    /// made equal first. The directory that gets the entry is written, then the object's own, if it is a directory, and last the
    /// directory that loses the entry. The object stays where it is, and so does the map; but a file that shares its identifier and
    /// leaves its directory is copied first, and gives its space back last. If the directory that gets the entry has to grow, it is
    /// written to its new place first.
    ///
    /// Refused with the first reason that applies, and then nothing has changed; `NoMemory` leaves all as it was, too. `DiskFault` only
    /// if the disk's count of faults rose; the volume is unfit afterwards.
    pub fn rename<D: Disk>(
        &mut self,
        alloc: Global,
        disk: &mut D,
        from: &Path,
        to: &Path,
    ) -> Result<(), CommandError>
        requires attached { IsTrue (D.attached disk.old) }
        requires settled { IsFalse (D.pending disk.old) }
        requires fit { IsTrue self.old.fit }
        requires stands { StandsFor D.Disk self.old disk.old }
        ensures { IsAsked D.Disk (Command.Rename from.now to.now) self.old self.new disk.old disk.new result }
    {
        let answer = fc_commands::rename(alloc, disk, &mut self.holdings, self.read_only, from, to);
        self.fit = is_fit_after(&answer);
        answer
    }
}
