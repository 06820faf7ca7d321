// The sectors of an object, copied into those of another.
ghost use Rattle.std.specs.Prelude.{◌≡◌, ◌<◌, ◌≤◌, ◌+◌, All, IsTrue, IsFalse, OnOk, length, min};
ghost use Rattle.std.specs.Option.{ForSome};
ghost use Rattle.fc_device.specs.Calls.{FailsByFault, SameForm, StopsAndExitsLeave};
ghost use Rattle.fc_device.specs.Stops.{StillLeaves};
ghost use Rattle.fc_objects.specs.Copied.{AreFirstCopied, AreOthers, IsPartCopied};
ghost use Rattle.fc_objects.specs.Extents.{sectors_in};
ghost use Rattle.fc_objects.specs.Written.{AreApart};

use crate::sectors::Sectors;
use fc_device::{Disk, DiskFault, Extent};

/// Copies the sectors of an object to those of another, one after another, as many as both have. Both are given by their
/// extents, all of which lie on the disk, and none of the sectors is in both. `sector` has the bytes of a sector of the disk,
/// and then holds anything. Takes a read call and a write call for each sector, and time that is linear in sectors and
/// extents. After a crash and at every exit each sector is as before, or has its copy; no sector but those that are written
/// changes. It fails only if the disk's read or write fails.
pub fn copy_sectors<D: Disk>(
    disk: &mut D,
    from: &[Extent],
    to: &[Extent],
    sector: &mut [u8],
) -> Result<(), DiskFault>
    requires attached { IsTrue (D.attached disk.old) }
    requires settled { IsFalse (D.pending disk.old) }
    requires whole { length sector.old ≡ D.sector_size disk.old }
    requires on_disk { All (λ n. n < D.sectors disk.old) (sectors_in from.now) }
    requires to_on_disk { All (λ n. n < D.sectors disk.old) (sectors_in to.now) }
    requires others { AreOthers (sectors_in from.now) (sectors_in to.now) }
    ensures keeps { StopsAndExitsLeave D.Disk disk.old disk.new (IsPartCopied (D.sector_size disk.old) (sectors_in from.now) (sectors_in to.now)) }
    ensures copied { OnOk result (AreApart (sectors_in to.now) → ForSome (D.bytes disk.old) (λ was. ForSome (D.bytes disk.new)
        (AreFirstCopied (D.sector_size disk.old) (min (length (sectors_in from.now)) (length (sectors_in to.now))) (sectors_in from.now) (sectors_in to.now) was))) }
    ensures form { SameForm D.Disk disk.old disk.new }
    ensures still { StillLeaves D.moment D.left_since disk.old disk.new }
    ensures few { D.read_calls disk.new ≤ D.read_calls disk.old + min (length (sectors_in from.now)) (length (sectors_in to.now)) }
    ensures cause { FailsByFault D.Disk disk.old disk.new result }
{
    let mut source = Sectors::of(from);
    let mut target = Sectors::of(to);
    while let Some(here) = source.next_row(1) {
        let Some(there) = target.next_row(1) else {
            return Ok(());
        };
        disk.read(here.first, sector)?;
        disk.write(there.first, sector)?;
    }
    Ok(())
}
