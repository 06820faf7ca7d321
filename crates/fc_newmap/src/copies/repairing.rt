// A copy that is made equal to the other.
ghost use Rattle.std.specs.Prelude.{◌≡◌, ◌⊎◌, ◌<◌, ◌≤◌, ◌+◌, ◌*◌, ◌^◌, Ok, true, false, length, option_map, IsTrue, IsFalse, OnOk};
ghost use Rattle.std.specs.Option.{ForSome};
ghost use Rattle.fc_device.specs.Calls.{FailsByFault, SameForm, StopsAndExitsLeave, StopsTearOne};
ghost use Rattle.fc_device.specs.Sectors.{sector_at, with_sector};
ghost use Rattle.fc_newmap.specs.Copies.{chosen, copy_of, HoldsCopies, RepairLeaves};
ghost use Rattle.fc_newmap.specs.Passes.{HasWritten, IsPartWritten, masked, zone_from};

use super::reading::start_of;
use crate::Which;
use fc_device::{Disk, DiskFault, MAX_SECTOR};
use fc_record::Geometry;

// Writes these bytes as sector n, if others stand there. Answers whether it wrote.
fn write_other<D: Disk>(disk: &mut D, n: u64, bytes: &[u8], there: &[u8]) -> Result<bool, DiskFault>
    requires attached { IsTrue (D.attached disk.old) }
    requires on_disk { n < D.sectors disk.old }
    requires whole { length bytes.now ≡ D.sector_size disk.old }
    ensures written { result ≡ Ok true → D.bytes disk.new ≡ option_map (λ image. with_sector (D.sector_size disk.old) image n bytes.now) (D.bytes disk.old) }
    ensures same { result ≡ Ok false → (there.now ≡ bytes.now) × (D.bytes disk.new ≡ D.bytes disk.old) × (D.pending disk.new ≡ D.pending disk.old) }
    ensures old_or_new { (D.bytes disk.new ≡ D.bytes disk.old) ⊎ (D.bytes disk.new ≡ option_map (λ image. with_sector (D.sector_size disk.old) image n bytes.now) (D.bytes disk.old)) }
    ensures stops { StopsTearOne D.Disk disk.old disk.new n bytes.now }
    ensures form { SameForm D.Disk disk.old disk.new }
    ensures read_calls { D.read_calls disk.new ≡ D.read_calls disk.old }
    ensures cause { FailsByFault D.Disk disk.old disk.new result }
{
    if bytes == there {
        return Ok(false);
    }
    disk.write(n, bytes)?;
    Ok(true)
}

// Writes each zone of the copy at sector `to` that differs from that at sector `from`, and syncs if it wrote. Each of
// the two buffers has the bytes of a sector.
fn match_copy<D: Disk>(
    disk: &mut D,
    from: u64,
    to: u64,
    zones: u16,
    bytes: &mut [u8],
    there: &mut [u8],
) -> Result<(), DiskFault>
    requires attached { IsTrue (D.attached disk.old) }
    requires settled { IsFalse (D.pending disk.old) }
    requires whole { length bytes.old ≡ D.sector_size disk.old }
    requires as_long { length there.old ≡ D.sector_size disk.old }
    requires behind { from + zones ≤ to }
    requires on_disk { to + zones ≤ D.sectors disk.old }
    requires fits { to + zones < 2 ^ 64 }
    ensures keeps { StopsAndExitsLeave D.Disk disk.old disk.new (λ was image. IsPartWritten (D.sector_size disk.old) to 0 zones (zone_from (D.sector_size disk.old) was from) was image) }
    ensures written { OnOk result (ForSome (D.bytes disk.old) (λ was. ForSome (D.bytes disk.new) (HasWritten (D.sector_size disk.old) to 0 zones (zone_from (D.sector_size disk.old) was from)))) }
    ensures durable { OnOk result (IsFalse (D.pending disk.new)) }
    ensures form { SameForm D.Disk disk.old disk.new }
    ensures few { D.read_calls disk.new ≤ D.read_calls disk.old + 2 * zones }
    ensures cause { FailsByFault D.Disk disk.old disk.new result }
{
    let mut wrote = false;
    for z in 0..zones {
        disk.read(from + u64::from(z), bytes)?;
        disk.read(to + u64::from(z), there)?;
        let written = write_other(disk, to + u64::from(z), bytes, there)?;
        wrote |= written;
    }
    if wrote {
        disk.sync()?;
    }
    Ok(())
}

// Writes the zones from 1 on of the copy at sector `to` as those at sector `from`, and syncs. The buffer has the bytes
// of a sector.
fn copy_rest<D: Disk>(
    disk: &mut D,
    from: u64,
    to: u64,
    zones: u16,
    sector: &mut [u8],
) -> Result<(), DiskFault>
    requires attached { IsTrue (D.attached disk.old) }
    requires settled { IsFalse (D.pending disk.old) }
    requires whole { length sector.old ≡ D.sector_size disk.old }
    requires before { to + zones ≤ from }
    requires on_disk { from + zones ≤ D.sectors disk.old }
    requires fits { from + zones < 2 ^ 64 }
    ensures keeps { StopsAndExitsLeave D.Disk disk.old disk.new (λ was image. IsPartWritten (D.sector_size disk.old) to 1 zones (zone_from (D.sector_size disk.old) was from) was image) }
    ensures written { OnOk result (ForSome (D.bytes disk.old) (λ was. ForSome (D.bytes disk.new) (HasWritten (D.sector_size disk.old) to 1 zones (zone_from (D.sector_size disk.old) was from)))) }
    ensures durable { OnOk result (IsFalse (D.pending disk.new)) }
    ensures form { SameForm D.Disk disk.old disk.new }
    ensures few { 1 ≤ zones → D.read_calls disk.new + 1 ≤ D.read_calls disk.old + zones }
    ensures cause { FailsByFault D.Disk disk.old disk.new result }
{
    for z in 1..zones {
        disk.read(from + u64::from(z), sector)?;
        disk.write(to + u64::from(z), sector)?;
    }
    disk.sync()?;
    Ok(())
}

// Writes sector `to` as sector `from` with its first byte exclusively ored with a mask, and syncs. The buffer has the
// bytes of a sector.
fn copy_first<D: Disk>(
    disk: &mut D,
    from: u64,
    to: u64,
    mask: u8,
    sector: &mut [u8],
) -> Result<(), DiskFault>
    requires attached { IsTrue (D.attached disk.old) }
    requires settled { IsFalse (D.pending disk.old) }
    requires whole { length sector.old ≡ D.sector_size disk.old }
    requires from { from < D.sectors disk.old }
    requires to { to < D.sectors disk.old }
    ensures keeps { StopsAndExitsLeave D.Disk disk.old disk.new (λ was image. IsPartWritten (D.sector_size disk.old) to 0 1 (λ z. masked mask (sector_at (D.sector_size disk.old) was from)) was image) }
    ensures written { OnOk result (ForSome (D.bytes disk.old) (λ was. ForSome (D.bytes disk.new) (HasWritten (D.sector_size disk.old) to 0 1 (λ z. masked mask (sector_at (D.sector_size disk.old) was from))))) }
    ensures durable { OnOk result (IsFalse (D.pending disk.new)) }
    ensures form { SameForm D.Disk disk.old disk.new }
    ensures few { D.read_calls disk.new ≤ D.read_calls disk.old + 1 }
    ensures cause { FailsByFault D.Disk disk.old disk.new result }
{
    disk.read(from, sector)?;
    sector[0] ^= mask;
    disk.write(to, sector)?;
    disk.sync()?;
    Ok(())
}

/// Makes the other copy equal to the chosen one (docs/FORMAT.md, "Two copies"). The disk is attached, has the
/// geometry's sectors and holds both copies, and nothing is pending. If it tells its bytes, `w` is what `fetch` answers
/// of them.
///
/// To repair copy 1, zone 0 is first written with a wrong ZoneCheck, then the other zones, and then zone 0 as it is in
/// copy 2: until that last write stands, copy 1 is not sound (of copy 2 the zones that differ are written). At every
/// crash and at every exit the copy that counts has the content of copy `w`, copy `w` itself stays, and no sector
/// outside the two copies changes. It makes at most two read calls a zone, and from copy 2 one a zone and one more. It
/// fails only if the disk's count of faults rose.
pub fn repair<D: Disk>(disk: &mut D, g: &Geometry, w: Which) -> Result<(), DiskFault>
    requires attached { IsTrue (D.attached disk.old) }
    requires settled { IsFalse (D.pending disk.old) }
    requires size { D.sector_size disk.old ≡ g.now.sector }
    requires zones { 1 ≤ g.now.zones }
    requires on_disk { g.now.map_sector + 2 * g.now.zones ≤ D.sectors disk.old }
    requires chosen { ForSome (D.bytes disk.old) (λ image. chosen g.now image ≡ Ok w) }
    ensures keeps { StopsAndExitsLeave D.Disk disk.old disk.new (λ start image. RepairLeaves g.now start w image) }
    ensures equal { OnOk result (ForSome (D.bytes disk.old) (λ start. ForSome (D.bytes disk.new) (HoldsCopies g.now (copy_of g.now w start)))) }
    ensures durable { OnOk result (IsFalse (D.pending disk.new)) }
    ensures form { SameForm D.Disk disk.old disk.new }
    ensures few { D.read_calls disk.new ≤ D.read_calls disk.old + 2 * g.now.zones }
    ensures one_a_zone { w ≡ Which.Two → D.read_calls disk.new ≤ D.read_calls disk.old + g.now.zones + 1 }
    ensures cause { FailsByFault D.Disk disk.old disk.new result }
{
    let one = start_of(g, Which::One);
    let two = start_of(g, Which::Two);
    let size = g.sector as usize;
    let mut first = [0; MAX_SECTOR];
    let mut second = [0; MAX_SECTOR];
    let sector = &mut first[..size];
    match w {
        Which::One => match_copy(disk, one, two, g.zones, sector, &mut second[..size]),
        Which::Two => {
            copy_first(disk, two, one, 0xFF, sector)?;
            copy_rest(disk, two, one, g.zones, sector)?;
            copy_first(disk, two, one, 0, sector)
        }
    }
}
