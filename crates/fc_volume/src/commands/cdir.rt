// `cdir`: an empty directory.
ghost use Rattle.std.specs.Prelude.{IsFalse, IsTrue};
ghost use Rattle.fc_model.specs.Command.{Command};
ghost use Rattle.fc_volume.specs.Changing.{IsAsked};
ghost use Rattle.fc_volume.specs.Volume.{StandsFor};

use crate::{CommandError, Volume, is_fit_after};
use fc_device::Disk;
use fc_names::Path;
use std::alloc::Global;

impl Volume {
    /// Makes an empty directory. Nothing of the disk is pending. Copies of a new map that may differ are made equal first; then the new
    /// directory is written into space that was free, the map with its space, and the directory that holds it. If that has to grow, it
    /// is written to its new place, and then those around it whose entries or heads name its place; what it has left goes back at last.
    /// A crash between two of these writes leaves lost space at worst, if no directory grows. While one grows, or inside a directory's
    /// write, or an old map's, it may leave a disc that isn't accepted.
    ///
    /// Refused with the first reason that applies, and then nothing has changed; `NoMemory` leaves all as it was, too. `DiskFault` only
    /// if the disk's count of faults rose; the volume is unfit afterwards.
    pub fn cdir<D: Disk>(
        &mut self,
        alloc: Global,
        disk: &mut D,
        path: &Path,
    ) -> Result<(), CommandError>
        requires attached { IsTrue (D.attached disk.old) }
        requires settled { IsFalse (D.pending disk.old) }
        requires fit { IsTrue self.old.fit }
        requires stands { StandsFor D.Disk self.old disk.old }
        ensures { IsAsked D.Disk (Command.Cdir path.now) self.old self.new disk.old disk.new result }
    {
        let answer = fc_commands::cdir(alloc, disk, &mut self.holdings, self.read_only, path);
        self.fit = is_fit_after(&answer);
        answer
    }
}
