// `put`: a file, new or in the place of another, from bytes that are given in order.
ghost use Rattle.std.specs.Prelude.{◌≡◌, [], IsFalse, IsTrue};
ghost use Rattle.fc_model.specs.Command.{Command};
ghost use Rattle.fc_volume.specs.Giving.{IsAskedGiving};
ghost use Rattle.fc_volume.specs.Volume.{StandsFor};

use crate::fitness::is_fit_after_giving;
use crate::{GivenError, Volume};
use fc_change::FileWords;
use fc_device::Disk;
use fc_host::Supply;
use fc_names::Path;
use std::alloc::Global;

impl Volume {
    /// Writes a file as `save` does, of as many bytes as these words say, which are given in order. None is given yet, and they are asked
    /// for only once the command is accepted and has its space: each is then written to its sector, and the map, the directory and what
    /// else changes when all are there. No memory of their number is taken.
    ///
    /// Refused as `save` is, whatever the bytes, and then nothing has changed and none was given; `NoMemory` leaves all as it was, too.
    /// `GivenError::Supply` only if the supply's count of faults rose: then only sectors have other bytes in which nothing lies, the image
    /// opens as the very same, and the volume stands for it. `DiskFault` only if the disk's count did; the volume is unfit afterwards.
    pub fn save_from<D: Disk, B: Supply>(
        &mut self,
        alloc: Global,
        disk: &mut D,
        path: &Path,
        words: FileWords,
        from: &mut B,
    ) -> Result<(), GivenError>
        requires attached { IsTrue (D.attached disk.old) }
        requires settled { IsFalse (D.pending disk.old) }
        requires fit { IsTrue self.old.fit }
        requires stands { StandsFor D.Disk self.old disk.old }
        requires fresh { B.given from.old ≡ [] }
        requires length { B.total from.old ≡ words.len }
        ensures { IsAskedGiving D.Disk B.Supply words.len (Command.Save path.now words.load words.exec) self.old self.new disk.old disk.new from.old from.new result }
    {
        let answer = fc_commands::save_from(
            alloc,
            disk,
            &mut self.holdings,
            self.read_only,
            path,
            words,
            from,
        );
        self.fit = is_fit_after_giving(&answer);
        answer
    }
}
