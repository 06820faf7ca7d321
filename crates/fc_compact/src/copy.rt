// Sectors that are copied into a hole.
ghost use Rattle.std.specs.Prelude.{◌≡◌, ◌⊎◌, ◌<◌, ◌≤◌, ◌+◌, ◌*◌, ◌^◌, ℕ, true, length, IsTrue, IsFalse, OnOk};
ghost use Rattle.std.specs.Option.{ForSome};
ghost use Rattle.fc_device.specs.Calls.{FailsByFault, SameForm};
ghost use Rattle.fc_image.specs.Layout.{Layout, hole_sectors, is_among};
ghost use Rattle.fc_compact.specs.Ready.{IsReady, Stands};
ghost use Rattle.fc_compact.specs.Steps.{MoveKeeps};
ghost use Rattle.fc_compact.specs.Copy.{HasCopied, IsCopied, TearsRow};

use crate::laws;
use fc_alloc::Owners;
use fc_device::{Disk, DiskFault, Extent};
use fc_newmap::NewMap;

// So many bytes are copied at once, if they lie in a row.
const ROW: usize = 16384;

// How many sectors these are.
fn sectors_at_once(size: u32) -> u64
    requires some { 0 < size }
    requires most { size ≤ 1024 }
    ensures some { 0 < result }
    ensures most { result * size ≤ 16384 }
{
    (ROW / size as usize) as u64
}

// Copies one row of sectors over another.
fn copy_piece<D: Disk>(
    disk: &mut D,
    from: Extent,
    to: Extent,
    piece: &mut [u8],
) -> Result<(), DiskFault>
    requires attached { IsTrue (D.attached disk.old) }
    requires on_disk { from.first + from.sectors ≤ D.sectors disk.old }
    requires to_on_disk { to.first + to.sectors ≤ D.sectors disk.old }
    requires same { from.sectors ≡ to.sectors }
    requires whole { length piece.old ≡ from.sectors * D.sector_size disk.old }
    requires some { 0 < to.sectors }
    ensures tears { TearsRow D.Disk disk.old disk.new to.first to.sectors }
    ensures copied { OnOk result (HasCopied D.Disk disk.old disk.new from.first to.first to.sectors) }
    ensures form { SameForm D.Disk disk.old disk.new }
    ensures cause { FailsByFault D.Disk disk.old disk.new result }
{
    disk.read_row(from, piece)?;
    disk.write_row(to, piece)?;
    Ok(())
}

// Copies `count` sectors of `size` bytes from sector `from` on to those from sector `to` on, which are none of them, and
// leaves the sync to its caller.
pub fn copy_row<D: Disk>(
    disk: &mut D,
    size: u32,
    from: u64,
    to: u64,
    count: u64,
) -> Result<(), DiskFault>
    requires attached { IsTrue (D.attached disk.old) }
    requires size { D.sector_size disk.old ≡ size }
    requires apart { (from + count ≤ to) ⊎ (to + count ≤ from) }
    requires on_disk { from + count ≤ D.sectors disk.old }
    requires to_on_disk { to + count ≤ D.sectors disk.old }
    requires fits { from + count < 2 ^ 64 }
    requires to_fits { to + count < 2 ^ 64 }
    ensures tears { TearsRow D.Disk disk.old disk.new to count }
    ensures copied { OnOk result (ForSome (D.bytes disk.new) (IsCopied size from to count)) }
    ensures form { SameForm D.Disk disk.old disk.new }
    ensures cause { FailsByFault D.Disk disk.old disk.new result }
{
    let mut row = [0; ROW];
    let most = sectors_at_once(size);
    let mut done = 0;
    while done < count {
        let sectors = most.min(count - done);
        let here = Extent {
            first: from + done,
            sectors,
        };
        let there = Extent {
            first: to + done,
            sectors,
        };
        copy_piece(
            disk,
            here,
            there,
            &mut row[..(sectors * u64::from(size)) as usize],
        )?;
        done += sectors;
    }
    Ok(())
}

// Copies `count` sectors from sector `from` on into a hole, to those from sector `to` on, and syncs. After a crash and at every
// exit all objects are there, and no other sector has changed; at Ok the copy is there.
pub fn copy_into<D: Disk>(
    disk: &mut D,
    map: &NewMap,
    owners: &Owners,
    from: u64,
    to: u64,
    count: u64,
) -> Result<(), DiskFault>
    requires stands { Stands D.Disk disk.old map.now owners.now }
    requires apart { (from + count ≤ to) ⊎ (to + count ≤ from) }
    requires on_disk { from + count ≤ D.sectors disk.old }
    requires to_on_disk { to + count ≤ D.sectors disk.old }
    requires fits { from + count < 2 ^ 64 }
    requires to_fits { to + count < 2 ^ 64 }
    requires hole { (i : ℕ) → i < count → is_among (hole_sectors (Layout.New map.now)) (to + i) ≡ true }
    ensures keeps { MoveKeeps D.Disk disk.old disk.new map.now map.now owners.now result }
    ensures still_ready { ForSome (D.bytes disk.new) (IsReady map.now owners.now) }
    ensures copied { OnOk result (ForSome (D.bytes disk.new) (IsCopied map.now.geometry.sector from to count)) }
{
    laws();
    copy_row(disk, map.geometry().sector, from, to, count)?;
    disk.sync()?;
    Ok(())
}
