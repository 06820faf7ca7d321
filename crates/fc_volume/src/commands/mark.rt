// Conversion's `mark`: other attributes for one object.
ghost use Rattle.std.specs.Prelude.{IsFalse, IsTrue};
ghost use Rattle.fc_device.specs.Calls.{StopsAndExitsLeave};
ghost use Rattle.fc_model.specs.Command.{Command};
ghost use Rattle.fc_image.specs.Layout.{dir_form};
ghost use Rattle.fc_commands.specs.Jobs.{FitAttributes};
ghost use Rattle.fc_commands.specs.Promises.{SameMap};
ghost use Rattle.fc_volume.specs.Changing.{IsAsked};
ghost use Rattle.fc_volume.specs.Volume.{StandsFor, parts_of};

use crate::{CommandError, Volume, is_fit_after};
use fc_device::Disk;
use fc_names::Path;
use std::alloc::Global;

impl Volume {
    /// Gives an object other attributes, but for bit 3. Nothing of the disk is pending, and the disc's entries can hold these attributes.
    /// What is written is as for `set`.
    ///
    /// Refused with the first reason that applies, and then nothing has changed; `NoMemory` leaves all as it was, too. `DiskFault` only
    /// if the disk's count of faults rose; the volume is unfit afterwards.
    pub fn mark<D: Disk>(
        &mut self,
        alloc: Global,
        disk: &mut D,
        path: &Path,
        attrs: u32,
    ) -> Result<(), CommandError>
        requires attached { IsTrue (D.attached disk.old) }
        requires settled { IsFalse (D.pending disk.old) }
        requires fit { IsTrue self.old.fit }
        requires stands { StandsFor D.Disk self.old disk.old }
        requires form { FitAttributes (dir_form (parts_of self.old).layout) attrs }
        ensures asked { IsAsked D.Disk (Command.Mark path.now attrs) self.old self.new disk.old disk.new result }
        ensures map { StopsAndExitsLeave D.Disk disk.old disk.new (SameMap (parts_of self.old).layout) }
    {
        let answer = fc_commands::mark(
            alloc,
            disk,
            &mut self.holdings,
            self.read_only,
            path,
            attrs,
        );
        self.fit = is_fit_after(&answer);
        answer
    }
}
