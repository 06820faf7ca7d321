//! The kind of an image.
ghost use Rattle.std.specs.Prelude.{◌≡◌, ◌+◌, ◌≤◌, ◌*◌, ◌^◌, length, Some, None, Err, OnOk, if◌then◌else◌, IsTrue, IfOk, IfSome};
ghost use Rattle.std.specs.Option.{ForSome};
ghost use Rattle.fc_bytes.specs.Words.{bytes_at};
ghost use Rattle.fc_device.specs.Calls.{FailsByFault, SameForm, StopsAsBefore, OnlyReads};
ghost use Rattle.fc_device.specs.Faults.{Rose};
ghost use Rattle.fc_device.specs.Stops.{StillLeaves};
ghost use Rattle.fc_record.specs.Front.{HasMapOf};
ghost use Rattle.fc_record.specs.Kinds.{is_boot, boot_record, kind_calls, kind_of, IsKind, Answers, FitsLength, front_reads, sectors_there};
ghost use Rattle.fc_record.specs.Parts.{record_in_boot, record_in_map, kind_in_old_map};
ghost use Rattle.fc_record.specs.Record.{IsRecord};

use crate::reads::fetch;
use crate::{DiscRecord, Front, Kind, KindError, read_record};
use fc_bytes::{boot_check, is_half_right, le24, zone_check};
use fc_device::{Disk, DiskFault};

/// The units of a D disc.
const D_UNITS: u32 = 3200;

/// The sector of 256 bytes at which a boot block begins.
const BOOT_SECTOR: u64 = 12;

/// The sector of 256 bytes at which the second copy of a map of 1024 bytes begins.
const COPY_SECTOR: u64 = 4;

/// The bytes of a map of one zone.
const MAP: u64 = 1024;

/// The bytes of an old map.
const OLD_MAP: usize = 512;

// The record in a boot block whose check is right, if it is valid.
fn record_in_boot(block: &[u8]) -> Option<DiscRecord>
    requires { length block.now ≡ 512 }
    ensures value { result ≡ record_in_boot block.now }
    ensures valid { IfSome result IsRecord }
{
    if block[511] != boot_check(block) {
        return None;
    }
    read_record(&block[0x1C0..0x1C0 + 60]).ok()
}

// The record in a sector of 1024 bytes that is the whole of a sound map.
fn record_in_map(sector: &[u8]) -> Option<DiscRecord>
    requires { length sector.now ≡ 1024 }
    ensures value { result ≡ record_in_map sector.now }
    ensures valid { IfSome result (λ r. IsKind (Kind.OneZone r)) }
{
    if sector[0] != zone_check(sector) || sector[3] != 255 {
        return None;
    }
    match read_record(&sector[4..64]) {
        Ok(record) if record.log2_sector == 10 && record.zones == 1 => Some(record),
        _ => None,
    }
}

// The kind of a disc with this old map.
fn kind_in_old_map(map: &[u8]) -> Option<Kind>
    requires { length map.now ≡ 512 }
    ensures value { result ≡ kind_in_old_map map.now }
    ensures sound { IfSome result IsKind }
    ensures calls { IfSome result (λ kind. kind_calls kind ≡ 10) }
{
    if !is_half_right(&map[..256]) || !is_half_right(&map[256..]) {
        return None;
    }
    match le24(map, 252) {
        D_UNITS => Some(Kind::DiscD),
        units @ 7..=2560 => Some(Kind::DiscL { units }),
        _ => None,
    }
}

/// The record in the boot block of an image, if it has a right one. The disk's sectors have 256 bytes. Takes at most two read calls, and
/// none of sectors that the image doesn't have. It fails only if the disk's read fails.
pub fn boot_record<D: Disk>(disk: &mut D) -> Result<Option<DiscRecord>, DiskFault>
    requires attached { IsTrue (D.attached disk.old) }
    requires size { D.sector_size disk.old ≡ 256 }
    ensures found { IfOk result (λ found. ForSome (D.bytes disk.old) (λ image. found ≡ (if is_boot image then Some (boot_record image) else None))) }
    ensures valid { IfOk result (λ found. IfSome found IsRecord) }
    ensures reads { OnlyReads D.Disk disk.old disk.new }
    ensures few { D.read_calls disk.new ≤ D.read_calls disk.old + 2 }
    ensures most { ForSome (D.bytes disk.old) (λ image. D.read_calls disk.new ≤ D.read_calls disk.old + sectors_there image 0xE00 2) }
    ensures cause { FailsByFault D.Disk disk.old disk.new result }
{
    let mut block = [0u8; 512];
    if !fetch(disk, BOOT_SECTOR, &mut block)? {
        return Ok(None);
    }
    Ok(record_in_boot(&block))
}

// The record in the 1024 bytes from sector `first` on, if they are the whole of a sound map. They are read into
// `sector`, if the image has them.
fn map_record<D: Disk>(
    disk: &mut D,
    first: u64,
    sector: &mut [u8; 1024],
) -> Result<Option<DiscRecord>, DiskFault>
    requires attached { IsTrue (D.attached disk.old) }
    requires size { D.sector_size disk.old ≡ 256 }
    requires fits { first ≤ 2 ^ 32 }
    ensures found { IfOk result (λ found. ForSome (D.bytes disk.old) (λ image. found ≡ record_in_map (bytes_at image (256 * first) 1024))) }
    ensures valid { IfOk result (λ found. IfSome found (λ r. IsKind (Kind.OneZone r))) }
    ensures filled { OnOk result (ForSome (D.bytes disk.old) (λ image. 256 * first + 1024 ≤ length image → sector.new ≡ bytes_at image (256 * first) 1024)) }
    ensures reads { OnlyReads D.Disk disk.old disk.new }
    ensures few { D.read_calls disk.new ≤ D.read_calls disk.old + 4 }
    ensures most { ForSome (D.bytes disk.old) (λ image. D.read_calls disk.new ≤ D.read_calls disk.old + sectors_there image (256 * first + 1024) 4) }
    ensures cause { FailsByFault D.Disk disk.old disk.new result }
{
    if !fetch(disk, first, sector)? {
        return Ok(None);
    }
    Ok(record_in_map(sector))
}

// The kind of a disc with an old map, if an image that is too short for a map of one zone has a right one. The map is
// read into `first`.
fn old_kind<D: Disk>(disk: &mut D, first: &mut [u8; 1024]) -> Result<Option<Kind>, DiskFault>
    requires attached { IsTrue (D.attached disk.old) }
    requires size { D.sector_size disk.old ≡ 256 }
    ensures found { IfOk result (λ found. ForSome (D.bytes disk.old) (λ image. found ≡ kind_in_old_map image)) }
    ensures valid { IfOk result (λ found. IfSome found IsKind) }
    ensures calls { IfOk result (λ found. IfSome found (λ kind. kind_calls kind ≡ 10)) }
    ensures map { IfOk result (λ found. ForSome (D.bytes disk.old) (λ image. (kind : Kind) → found ≡ Some kind → bytes_at first.new 0 512 ≡ bytes_at image 0 512)) }
    ensures reads { OnlyReads D.Disk disk.old disk.new }
    ensures few { D.read_calls disk.new ≤ D.read_calls disk.old + 2 }
    ensures most { ForSome (D.bytes disk.old) (λ image. D.read_calls disk.new ≤ D.read_calls disk.old + sectors_there image 512 2) }
    ensures cause { FailsByFault D.Disk disk.old disk.new result }
{
    let map = &mut first[..OLD_MAP];
    if !fetch(disk, 0, map)? {
        return Ok(None);
    }
    Ok(kind_in_old_map(map))
}

// The first kind that fits.
fn first_kind<D: Disk>(disk: &mut D, front: &mut Front) -> Result<Option<Kind>, DiskFault>
    requires attached { IsTrue (D.attached disk.old) }
    requires size { D.sector_size disk.old ≡ 256 }
    ensures found { IfOk result (λ found. ForSome (D.bytes disk.old) (λ image. found ≡ kind_of image)) }
    ensures valid { IfOk result (λ found. IfSome found IsKind) }
    ensures map { IfOk result (λ found. ForSome (D.bytes disk.old) (λ image. (kind : Kind) → found ≡ Some kind → HasMapOf image kind front.new)) }
    ensures reads { OnlyReads D.Disk disk.old disk.new }
    ensures few { IfOk result (λ found. IfSome found (λ kind. D.read_calls disk.new ≤ D.read_calls disk.old + kind_calls kind)) }
    ensures ten { D.read_calls disk.new ≤ D.read_calls disk.old + 10 }
    ensures most { ForSome (D.bytes disk.old) (λ image. D.read_calls disk.new ≤ D.read_calls disk.old + front_reads image) }
    ensures cause { FailsByFault D.Disk disk.old disk.new result }
{
    if let Some(record) = boot_record(disk)? {
        return Ok(Some(Kind::Boot(record)));
    }
    if disk.length() < MAP {
        return old_kind(disk, &mut front.first);
    }
    if let Some(record) = map_record(disk, 0, &mut front.first)? {
        return Ok(Some(Kind::OneZone(record)));
    }
    if let Some(record) = map_record(disk, COPY_SECTOR, &mut front.second)? {
        return Ok(Some(Kind::OneZone(record)));
    }
    Ok(kind_in_old_map(&front.first[..OLD_MAP]))
}

/// The kind of an image: the first of four that fits (docs/FORMAT.md, "Kinds"). The disk is attached and has sectors
/// of 256 bytes. No sector is read twice, whatever is answered: at most 10 read calls are made, 2 if the boot block has a disc
/// record, and nothing is written. What was read of a map of one zone, or of an old map, stands in `front` afterwards, so that
/// no one has to read it again.
///
/// The answer is `NoKind` exactly if none fits, `Short` exactly if the image is shorter than the disc of the
/// kind that fits, and `DiskFault` only if the disk's count of faults rose.
pub fn kind<D: Disk>(disk: &mut D, front: &mut Front) -> Result<Kind, KindError>
    requires attached { IsTrue (D.attached disk.old) }
    requires size { D.sector_size disk.old ≡ 256 }
    ensures answer { ForSome (D.bytes disk.old) (λ image. Answers image result) }
    ensures fits { FitsLength (D.image_length disk.old) result }
    ensures map { IfOk result (λ kind. ForSome (D.bytes disk.old) (λ image. HasMapOf image kind front.new)) }
    ensures form { SameForm D.Disk disk.old disk.new }
    ensures bytes { D.bytes disk.new ≡ D.bytes disk.old }
    ensures pending { D.pending disk.new ≡ D.pending disk.old }
    ensures stops { StopsAsBefore D.Disk disk.old disk.new }
    ensures still { StillLeaves D.moment D.left_since disk.old disk.new }
    ensures read_calls { (D.read_calls disk.old ≤ D.read_calls disk.new) × (D.read_calls disk.new ≤ D.read_calls disk.old + 10) }
    ensures few { IfOk result (λ kind. D.read_calls disk.new ≤ D.read_calls disk.old + kind_calls kind) }
    ensures most { ForSome (D.bytes disk.old) (λ image. D.read_calls disk.new ≤ D.read_calls disk.old + front_reads image) }
    ensures later { D.faults disk.old ≤ D.faults disk.new }
    ensures cause { result ≡ Err KindError.DiskFault → Rose (D.faults disk.old) (D.faults disk.new) }
{
    let have = disk.length();
    let Some(found) = first_kind(disk, front)? else {
        return Err(KindError::NoKind);
    };
    let need = found.disc_size();
    if have < need {
        return Err(KindError::Short { need, have });
    }
    Ok(found)
}
