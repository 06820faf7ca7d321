// `save` and `create`: a file, new or in the place of another.
ghost use Rattle.std.specs.Prelude.{◌≡◌, length, IsFalse, IsTrue};
ghost use Rattle.fc_model.specs.Command.{Command};
ghost use Rattle.fc_volume.specs.Changing.{IsAsked};
ghost use Rattle.fc_volume.specs.Volume.{StandsFor};

use crate::{CommandError, Volume, is_fit_after};
use fc_change::FileWords;
use fc_device::Disk;
use fc_names::Path;
use std::alloc::Global;

impl Volume {
    /// Writes a file of these bytes, new or in the place of another, which keeps its name and its attributes. Nothing of the disk is
    /// pending. Copies of a new map that may differ are made equal first; then the bytes are written into space that was free, or into
    /// slack that other files of the directory leave, the map with their space, the directory, and the map with the space of the file
    /// that was there. If the directory has to grow by a new file, it is written to its new place, and then those around it whose
    /// entries or heads name its place; what it has left goes back at last. A crash between two of these writes leaves lost space at
    /// worst, if no directory grows. While one grows, or inside a directory's write, or an old map's, it may leave a disc that isn't
    /// accepted.
    ///
    /// Refused with the first reason that applies, and then nothing has changed; `NoMemory` leaves all as it was, too. `DiskFault` only
    /// if the disk's count of faults rose; the volume is unfit afterwards.
    pub fn save<D: Disk>(
        &mut self,
        alloc: Global,
        disk: &mut D,
        path: &Path,
        words: FileWords,
        bytes: &[u8],
    ) -> Result<(), CommandError>
        requires attached { IsTrue (D.attached disk.old) }
        requires settled { IsFalse (D.pending disk.old) }
        requires fit { IsTrue self.old.fit }
        requires stands { StandsFor D.Disk self.old disk.old }
        requires length { length bytes.now ≡ words.len }
        ensures { IsAsked D.Disk (Command.Save path.now words.load words.exec bytes.now) self.old self.new disk.old disk.new result }
    {
        let answer = fc_commands::save(
            alloc,
            disk,
            &mut self.holdings,
            self.read_only,
            path,
            words,
            bytes,
        );
        self.fit = is_fit_after(&answer);
        answer
    }

    /// Writes a file of as many zeros as these words say, new or in the place of another, as `save` does. No memory of the file's size
    /// is taken.
    pub fn create<D: Disk>(
        &mut self,
        alloc: Global,
        disk: &mut D,
        path: &Path,
        words: FileWords,
    ) -> Result<(), CommandError>
        requires attached { IsTrue (D.attached disk.old) }
        requires settled { IsFalse (D.pending disk.old) }
        requires fit { IsTrue self.old.fit }
        requires stands { StandsFor D.Disk self.old disk.old }
        ensures { IsAsked D.Disk (Command.Create path.now words.load words.exec words.len) self.old self.new disk.old disk.new result }
    {
        let answer = fc_commands::create(
            alloc,
            disk,
            &mut self.holdings,
            self.read_only,
            path,
            words,
        );
        self.fit = is_fit_after(&answer);
        answer
    }
}
