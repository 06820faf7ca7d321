// `set`: other words and access bits for one object.
ghost use Rattle.std.specs.Prelude.{◌<◌, IsFalse, IsTrue};
ghost use Rattle.fc_device.specs.Calls.{StopsAndExitsLeave};
ghost use Rattle.fc_model.specs.Command.{Command};
ghost use Rattle.fc_commands.specs.Promises.{SameMap};
ghost use Rattle.fc_volume.specs.Changing.{IsAsked};
ghost use Rattle.fc_volume.specs.Volume.{StandsFor, parts_of};

use crate::{CommandError, Volume, is_fit_after};
use fc_change::ObjectWords;
use fc_device::Disk;
use fc_names::Path;
use std::alloc::Global;

impl Volume {
    /// Gives an object other load and exec words, and other access bits (bits 0 to 2 of its attributes; the others stay). Nothing of the
    /// disk is pending. Before the directory that holds it is written, copies of a new map that may differ are made equal; no other
    /// sector is written, and at any moment the map is the one before.
    ///
    /// Refused with the first reason that applies, and then nothing has changed; `NoMemory` leaves all as it was, too. `DiskFault` only
    /// if the disk's count of faults rose; the volume is unfit afterwards.
    pub fn set<D: Disk>(
        &mut self,
        alloc: Global,
        disk: &mut D,
        path: &Path,
        words: ObjectWords,
    ) -> Result<(), CommandError>
        requires attached { IsTrue (D.attached disk.old) }
        requires settled { IsFalse (D.pending disk.old) }
        requires fit { IsTrue self.old.fit }
        requires stands { StandsFor D.Disk self.old disk.old }
        requires access { words.access < 8 }
        ensures asked { IsAsked D.Disk (Command.Set path.now words.load words.exec words.access) self.old self.new disk.old disk.new result }
        ensures map { StopsAndExitsLeave D.Disk disk.old disk.new (SameMap (parts_of self.old).layout) }
    {
        let answer = fc_commands::set(alloc, disk, &mut self.holdings, self.read_only, path, words);
        self.fit = is_fit_after(&answer);
        answer
    }
}
