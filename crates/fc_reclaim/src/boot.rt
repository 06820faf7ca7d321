// Whether a boot block fits, whatever kind a disc was opened as.
ghost use Rattle.std.specs.Prelude.{◌≡◌, ◌≤◌, ◌^◌, IfOk, IsTrue, IsFalse, length};
ghost use Rattle.std.specs.Option.{ForSome};
ghost use Rattle.fc_device.specs.Calls.{FailsByFault, OnlyReads};
ghost use Rattle.fc_device.specs.Sectors.{IsSectorSize};
ghost use Rattle.fc_record.specs.Kinds.{is_boot};
ghost use Rattle.fc_reclaim.specs.Boot.{is_boot_block};

use fc_bytes::boot_check;
use fc_device::{Disk, DiskFault, Extent};
use fc_record::read_record;

/// The sectors of 256 bytes that a boot block takes.
const BOOT_ROW: Extent = Extent {
    first: 12,
    sectors: 2,
};

// Whether the block's check is right and its disc record is valid.
fn is_boot_block(block: &[u8]) -> bool
    requires { length block.now ≡ 512 }
    ensures { result ≡ is_boot_block block.now }
{
    block[511] == boot_check(block) && read_record(&block[0x1C0..0x1C0 + 60]).is_ok()
}

// Whether a boot block fits on a disk with sectors of 256 bytes.
fn has_boot_block<D: Disk>(disk: &mut D) -> Result<bool, DiskFault>
    requires attached { IsTrue (D.attached disk.old) }
    requires size { D.sector_size disk.old ≡ 256 }
    ensures found { IfOk result (λ found. ForSome (D.bytes disk.old) (λ image. found ≡ is_boot image)) }
    ensures reads { OnlyReads D.Disk disk.old disk.new }
    ensures cause { FailsByFault D.Disk disk.old disk.new result }
{
    let mut block = [0u8; 512];
    if disk.sectors() < BOOT_ROW.first + BOOT_ROW.sectors {
        return Ok(false);
    }
    disk.read_row(BOOT_ROW, &mut block)?;
    Ok(is_boot_block(&block))
}

// The bytes in a sector are 2 to this power.
fn log2_sector(sector: u32) -> u8
    requires { IsSectorSize sector }
    ensures size { 2 ^ result ≡ sector }
    ensures least { 8 ≤ result }
    ensures most { result ≤ 10 }
{
    match sector {
        256 => 8,
        512 => 9,
        _ => 10,
    }
}

// Whether a boot block fits on a disk with sectors of any size. The disk has the same sectors afterwards.
pub fn find_boot<D: Disk>(disk: &mut D, sector: u32) -> Result<bool, DiskFault>
    requires attached { IsTrue (D.attached disk.old) }
    requires settled { IsFalse (D.pending disk.old) }
    requires size { D.sector_size disk.old ≡ sector }
    ensures found { IfOk result (λ found. ForSome (D.bytes disk.old) (λ image. found ≡ is_boot image)) }
    ensures reads { OnlyReads D.Disk disk.old disk.new }
    ensures cause { FailsByFault D.Disk disk.old disk.new result }
{
    disk.shape(8);
    let found = has_boot_block(disk);
    disk.shape(log2_sector(sector));
    found
}
