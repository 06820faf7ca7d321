// What compaction writes of directories.
ghost use Rattle.std.specs.Prelude.{◌≡◌, ◌≤◌, ◌+◌, ◌*◌, ◌/◌, ℕ, List, IsFalse, IsTrue, OnOk, length};
ghost use Rattle.std.specs.Int.{div_ceil};
ghost use Rattle.fc_device.specs.Calls.{FailsByFault, SameForm};
ghost use Rattle.fc_dirs.specs.Small.{tail_of};
ghost use Rattle.fc_image.specs.Layout.{Layout, disc_sectors};
ghost use Rattle.fc_oldlaws.specs.moves.Writes.{AreDirectoriesPlaced};
ghost use Rattle.fc_changes.specs.old.Owed.{IsWritten};
ghost use Rattle.fc_squash.specs.Places.{ChangesRow, Leaves};
ghost use Rattle.fc_squash.specs.Sliding.{TellsAsBefore, TimeGoesOn};
ghost use Rattle.fc_tree.specs.Nodes.{nodes_of};
ghost use Rattle.fc_volume.specs.OldCompacting.{AreRowsWritten, DirectoriesWrittenBy, DirWrittenBy, HaveDirectories, marks};

use super::directories::Spare;
use fc_device::{Disk, DiskFault, Extent};
use fc_oldmap::OldMap;
use fc_smalldir::SmallDir;
use fc_tree::{Body, Tree};
use fc_writing::store_in;

// Writes a directory to a row of sectors, through a buffer as long as it is, and syncs.
fn write_directory<D: Disk>(
    disk: &mut D,
    size: usize,
    row: Extent,
    dir: &SmallDir,
    buffer: &mut [u8],
) -> Result<(), DiskFault>
    requires attached { IsTrue (D.attached disk.old) }
    requires settled { IsFalse (D.pending disk.old) }
    requires size { D.sector_size disk.old ≡ size }
    requires on_disk { row.first + row.sectors ≤ D.sectors disk.old }
    requires room { (tail_of dir.now.form).size ≤ row.sectors * size }
    requires whole { length buffer.old ≡ (tail_of dir.now.form).size }
    ensures written { OnOk result (DirWrittenBy D.Disk disk.old disk.new row.first row.sectors dir.now) }
    ensures places { Leaves D.Disk disk.old disk.new (ChangesRow size row.first row.sectors) }
    ensures durable { OnOk result (IsFalse (D.pending disk.new)) }
    ensures form { SameForm D.Disk disk.old disk.new }
    ensures stops { TimeGoesOn D.Disk disk.old disk.new }
    ensures told { TellsAsBefore D.Disk disk.old disk.new }
    ensures cause { FailsByFault D.Disk disk.old disk.new result }
{
    dir.write(buffer);
    store_in(disk, size, &[row], buffer)
}

// The sectors of a directory at an address.
fn row_at(map: &OldMap, address: u32, dir: &SmallDir) -> Extent
    ensures first { result.first ≡ address / map.now.sector_units }
    ensures sectors { result.sectors ≡ div_ceil (tail_of dir.now.form).size (256 * map.now.sector_units) }
{
    let _ = map.holes();
    let units = map.sector_units();
    Extent {
        first: u64::from(address / units),
        sectors: (dir.form().size() as u64).div_ceil(256 * u64::from(units)),
    }
}

// Writes the directory of a number, if it is one, to its place.
fn write_number<D: Disk>(disk: &mut D, map: &OldMap, tree: &Tree, n: u64) -> Result<(), DiskFault>
    requires attached { IsTrue (D.attached disk.old) }
    requires settled { IsFalse (D.pending disk.old) }
    requires size { D.sector_size disk.old ≡ 256 * map.now.sector_units }
    requires on_disk { disc_sectors (Layout.Old map.now) ≤ D.sectors disk.old }
    requires placed { AreDirectoriesPlaced map.now (nodes_of tree.now) }
    ensures written { OnOk result (AreRowsWritten D.Disk disk.old disk.new map.now (nodes_of tree.now) n) }
    ensures places { (sectors : List ℕ) → HaveDirectories map.now (nodes_of tree.now) sectors → Leaves D.Disk disk.old disk.new (IsWritten map.now sectors) }
    ensures durable { OnOk result (IsFalse (D.pending disk.new)) }
    ensures form { SameForm D.Disk disk.old disk.new }
    ensures stops { TimeGoesOn D.Disk disk.old disk.new }
    ensures told { TellsAsBefore D.Disk disk.old disk.new }
    ensures cause { FailsByFault D.Disk disk.old disk.new result }
{
    let _ = map.holes();
    if let Some(node) = tree.node(n) {
        if let Body::Small(dir) = &node.body {
            let row = row_at(map, node.entry.address, dir);
            let size = 256 * map.sector_units() as usize;
            write_directory(disk, size, row, dir, &mut [0u8; 2048][..dir.form().size()])?;
            return Ok(());
        }
    }
    Ok(())
}

/// Writes each directory that is marked, with what its node says, where its entry has it. The directories lie on the disc,
/// apart from each other.
pub fn write_directories<D: Disk>(
    disk: &mut D,
    map: &OldMap,
    tree: &Tree,
    spares: &[Spare],
) -> Result<(), DiskFault>
    requires attached { IsTrue (D.attached disk.old) }
    requires settled { IsFalse (D.pending disk.old) }
    requires size { D.sector_size disk.old ≡ 256 * map.now.sector_units }
    requires on_disk { disc_sectors (Layout.Old map.now) ≤ D.sectors disk.old }
    requires placed { AreDirectoriesPlaced map.now (nodes_of tree.now) }
    ensures written { OnOk result (DirectoriesWrittenBy D.Disk disk.old disk.new map.now (nodes_of tree.now) (marks spares.now) (length spares.now)) }
    ensures places { (sectors : List ℕ) → HaveDirectories map.now (nodes_of tree.now) sectors → Leaves D.Disk disk.old disk.new (IsWritten map.now sectors) }
    ensures durable { OnOk result (IsFalse (D.pending disk.new)) }
    ensures form { SameForm D.Disk disk.old disk.new }
    ensures stops { TimeGoesOn D.Disk disk.old disk.new }
    ensures told { TellsAsBefore D.Disk disk.old disk.new }
    ensures cause { FailsByFault D.Disk disk.old disk.new result }
{
    for n in 0..spares.len() {
        if spares[n].changed {
            write_number(disk, map, tree, n as u64)?;
        }
    }
    Ok(())
}
