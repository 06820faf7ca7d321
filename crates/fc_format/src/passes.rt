// Rows of sectors written one after another, over the front of an image.
ghost use Rattle.std.specs.Prelude.{◌≡◌, ◌<◌, ◌≤◌, ◌+◌, ◌-◌, ◌*◌, ◌/◌, ◌%◌, ◌++◌, length, IsTrue, IfOk, OnOk};
ghost use Rattle.fc_device.specs.Calls.{FailsByFault, SameForm};
ghost use Rattle.fc_format.specs.Fresh.{zeros};
ghost use Rattle.fc_format.specs.Passes.{AreParts, KeepsBehind, LengthensFront, laid};

use fc_device::{Disk, DiskFault};

// The bytes in a sector while a disk is made a fresh volume.
const SECTOR: usize = 256;

// Writes sector n.
fn write_sector<D: Disk>(disk: &mut D, n: u64, sector: &[u8]) -> Result<(), DiskFault>
    requires attached { IsTrue (D.attached disk.old) }
    requires size { D.sector_size disk.old ≡ 256 }
    requires whole { length sector.now ≡ 256 }
    requires on_disk { n < D.sectors disk.old }
    ensures front { OnOk result (LengthensFront D.Disk disk.old disk.new (256 * n) sector.now) }
    ensures keeps { KeepsBehind D.Disk disk.old disk.new (256 * (n + 1)) }
    ensures form { SameForm D.Disk disk.old disk.new }
    ensures cause { FailsByFault D.Disk disk.old disk.new result }
{
    disk.write(n, sector)?;
    Ok(())
}

// Writes bytes, which are whole sectors, from sector `first` on.
fn write_bytes<D: Disk>(disk: &mut D, first: u64, bytes: &[u8]) -> Result<(), DiskFault>
    requires attached { IsTrue (D.attached disk.old) }
    requires size { D.sector_size disk.old ≡ 256 }
    requires whole { length bytes.now % 256 ≡ 0 }
    requires on_disk { first + length bytes.now / 256 ≤ D.sectors disk.old }
    ensures front { OnOk result (LengthensFront D.Disk disk.old disk.new (256 * first) bytes.now) }
    ensures keeps { KeepsBehind D.Disk disk.old disk.new (256 * (first + length bytes.now / 256)) }
    ensures form { SameForm D.Disk disk.old disk.new }
    ensures cause { FailsByFault D.Disk disk.old disk.new result }
{
    for i in 0..bytes.len() / SECTOR {
        let at = i * SECTOR;
        write_sector(disk, first + i as u64, &bytes[at..at + SECTOR])?;
    }
    Ok(())
}

// Writes bytes 0 from sector `first` up to sector `end`.
fn write_zeros<D: Disk>(disk: &mut D, first: u64, end: u64) -> Result<(), DiskFault>
    requires attached { IsTrue (D.attached disk.old) }
    requires size { D.sector_size disk.old ≡ 256 }
    requires order { first ≤ end }
    requires on_disk { end ≤ D.sectors disk.old }
    ensures front { OnOk result (LengthensFront D.Disk disk.old disk.new (256 * first) (zeros (256 * (end - first)))) }
    ensures keeps { KeepsBehind D.Disk disk.old disk.new (256 * end) }
    ensures form { SameForm D.Disk disk.old disk.new }
    ensures cause { FailsByFault D.Disk disk.old disk.new result }
{
    let zeros = [0; SECTOR];
    for n in first..end {
        write_sector(disk, n, &zeros)?;
    }
    Ok(())
}

/// A part of a disc: its first sector, and its bytes.
pub type Part<'a> = (u64, &'a [u8]);

// Writes bytes 0 from sector `at` up to sector `first`, and bytes, which are whole sectors, after them. Answers the
// sector after all.
fn write_part<D: Disk>(disk: &mut D, at: u64, first: u64, bytes: &[u8]) -> Result<u64, DiskFault>
    requires attached { IsTrue (D.attached disk.old) }
    requires size { D.sector_size disk.old ≡ 256 }
    requires order { at ≤ first }
    requires whole { length bytes.now % 256 ≡ 0 }
    requires on_disk { first + length bytes.now / 256 ≤ D.sectors disk.old }
    ensures front { OnOk result (LengthensFront D.Disk disk.old disk.new (256 * at) (zeros (256 * (first - at)) ++ bytes.now)) }
    ensures end { IfOk result (λ end. end ≡ first + length bytes.now / 256) }
    ensures keeps { KeepsBehind D.Disk disk.old disk.new (256 * (first + length bytes.now / 256)) }
    ensures form { SameForm D.Disk disk.old disk.new }
    ensures cause { FailsByFault D.Disk disk.old disk.new result }
{
    write_zeros(disk, at, first)?;
    write_bytes(disk, first, bytes)?;
    Ok(first + (bytes.len() / SECTOR) as u64)
}

/// Writes the sectors up to `end`: the parts, which stand in this order, and bytes 0 between and after them.
pub fn write_parts<D: Disk>(disk: &mut D, parts: &[Part], end: u64) -> Result<(), DiskFault>
    requires attached { IsTrue (D.attached disk.old) }
    requires size { D.sector_size disk.old ≡ 256 }
    requires parts { AreParts 0 parts.now end }
    requires on_disk { end ≤ D.sectors disk.old }
    ensures front { OnOk result (LengthensFront D.Disk disk.old disk.new 0 (laid 0 parts.now end)) }
    ensures keeps { KeepsBehind D.Disk disk.old disk.new (256 * end) }
    ensures form { SameForm D.Disk disk.old disk.new }
    ensures cause { FailsByFault D.Disk disk.old disk.new result }
{
    let mut at = 0;
    for part in parts {
        at = write_part(disk, at, part.0, part.1)?;
    }
    write_zeros(disk, at, end)
}
