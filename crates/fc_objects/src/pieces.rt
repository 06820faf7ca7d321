// One sector of an object.
ghost use Rattle.std.specs.Prelude.{◌≡◌, ◌⊎◌, ◌<◌, ◌≤◌, ◌+◌, ◌^◌, All, length, option_map, IsTrue, OnOk};
ghost use Rattle.std.specs.Option.{ForSome};
ghost use Rattle.fc_device.specs.Calls.{FailsByFault, OnlyReads, SameForm, StopsTearOne};
ghost use Rattle.fc_device.specs.Sectors.{sector_at, with_sector};
ghost use Rattle.fc_device.specs.Stops.{StillLeaves};
ghost use Rattle.fc_objects.specs.Extents.{object_sector, sectors_in};

use fc_device::{Disk, DiskFault, Extent};

// The disk's number of an object's sector.
fn object_sector(at: &[Extent], sector: u64) -> u64
    requires within { sector < length (sectors_in at.now) }
    requires fits { object_sector at.now sector < 2 ^ 64 }
    ensures { result ≡ object_sector at.now sector }
{
    let mut i = 0;
    let mut left = sector;
    while left >= at[i].sectors {
        left -= at[i].sectors;
        i += 1;
    }
    at[i].first + left
}

/// Fills `into`, which has the bytes of a sector of the disk, with an object's sector of a number. The object is given
/// by its extents, all of which lie on the disk, and has a sector of that number. Takes at most one read call, and time
/// that is linear in the extents. It fails only if the disk's read fails; `into` then holds anything.
pub fn read_piece<D: Disk>(
    disk: &mut D,
    at: &[Extent],
    sector: u64,
    into: &mut [u8],
) -> Result<(), DiskFault>
    requires attached { IsTrue (D.attached disk.old) }
    requires on_disk { All (λ n. n < D.sectors disk.old) (sectors_in at.now) }
    requires within { sector < length (sectors_in at.now) }
    requires whole { length into.old ≡ D.sector_size disk.old }
    ensures filled { OnOk result (ForSome (D.bytes disk.old) (λ image. into.new ≡ sector_at (D.sector_size disk.old) image (object_sector at.now sector))) }
    ensures reads { OnlyReads D.Disk disk.old disk.new }
    ensures few { D.read_calls disk.new ≤ D.read_calls disk.old + 1 }
    ensures cause { FailsByFault D.Disk disk.old disk.new result }
{
    disk.read(object_sector(at, sector), into)?;
    Ok(())
}

/// Replaces an object's sector of a number, and no other sector. The object is given by its extents, all of which lie
/// on the disk, and has a sector of that number. Takes one write call, and time that is linear in the extents. Until a
/// sync, a crash may leave the old sector or the new one. It fails only if the disk's write fails; the sector is then
/// as before or new.
pub fn write_piece<D: Disk>(
    disk: &mut D,
    at: &[Extent],
    sector: u64,
    from: &[u8],
) -> Result<(), DiskFault>
    requires attached { IsTrue (D.attached disk.old) }
    requires on_disk { All (λ n. n < D.sectors disk.old) (sectors_in at.now) }
    requires within { sector < length (sectors_in at.now) }
    requires whole { length from.now ≡ D.sector_size disk.old }
    ensures written { OnOk result (D.bytes disk.new ≡ option_map (λ image. with_sector (D.sector_size disk.old) image (object_sector at.now sector) from.now) (D.bytes disk.old)) }
    ensures old_or_new { (D.bytes disk.new ≡ D.bytes disk.old) ⊎ (D.bytes disk.new ≡ option_map (λ image. with_sector (D.sector_size disk.old) image (object_sector at.now sector) from.now) (D.bytes disk.old)) }
    ensures form { SameForm D.Disk disk.old disk.new }
    ensures stops { StopsTearOne D.Disk disk.old disk.new (object_sector at.now sector) from.now }
    ensures still { StillLeaves D.moment D.left_since disk.old disk.new }
    ensures read_calls { D.read_calls disk.new ≡ D.read_calls disk.old }
    ensures cause { FailsByFault D.Disk disk.old disk.new result }
{
    disk.write(object_sector(at, sector), from)?;
    Ok(())
}
