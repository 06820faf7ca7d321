// `delete`: a file, or an empty directory, goes.
ghost use Rattle.std.specs.Prelude.{IsFalse, IsTrue};
ghost use Rattle.fc_model.specs.Command.{Command};
ghost use Rattle.fc_volume.specs.Changing.{IsAsked};
ghost use Rattle.fc_volume.specs.Volume.{StandsFor};

use crate::{CommandError, Volume, is_fit_after};
use fc_device::Disk;
use fc_names::Path;
use std::alloc::Global;

impl Volume {
    /// Takes a file or an empty directory away. Nothing of the disk is pending. Copies of a new map that may differ are made equal
    /// first; then the directory that held it is written, and then the map without its space, if no other object has the identifier.
    /// A crash between two of these writes leaves lost space at worst. One inside the directory's, or an old map's, may tear it, and
    /// then the disc isn't accepted.
    ///
    /// Refused with the first reason that applies, and then nothing has changed: on an old map `MapFull` if it would have more than 82
    /// holes. `NoMemory` leaves all as it was, too. `DiskFault` only if the disk's count of faults rose; the volume is unfit afterwards.
    pub fn delete<D: Disk>(
        &mut self,
        alloc: Global,
        disk: &mut D,
        path: &Path,
    ) -> Result<(), CommandError>
        requires attached { IsTrue (D.attached disk.old) }
        requires settled { IsFalse (D.pending disk.old) }
        requires fit { IsTrue self.old.fit }
        requires stands { StandsFor D.Disk self.old disk.old }
        ensures { IsAsked D.Disk (Command.Delete path.now) self.old self.new disk.old disk.new result }
    {
        let answer = fc_commands::delete(alloc, disk, &mut self.holdings, self.read_only, path);
        self.fit = is_fit_after(&answer);
        answer
    }
}
