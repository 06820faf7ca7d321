// Which copy of the map counts, and its zones.
ghost use Rattle.std.specs.Prelude.{◌≡◌, ◌<◌, ◌≤◌, ◌+◌, ◌*◌, ◌%◌, ◌^◌, Ok, Err, length, IsTrue, IfOk, OnOk};
ghost use Rattle.std.specs.Option.{ForSome};
ghost use Rattle.fc_device.specs.Calls.{FailsByFault, OnlyReads};
ghost use Rattle.fc_device.specs.Faults.{Rose};
ghost use Rattle.fc_device.specs.Sectors.{IsSectorSize};
ghost use Rattle.fc_newmap.specs.Map.{zones_in};
ghost use Rattle.fc_newmap.specs.Copies.{chosen, copy_of, copy_start};
ghost use Rattle.fc_newmap.specs.Choosing.{Answers, copy_fault, cross_if_right};

use crate::{CopyError, Which};
use fc_bytes::zone_check;
use fc_device::{Disk, DiskFault, Extent};
use fc_record::Geometry;

/// The sector at which a copy begins.
pub fn start_of(g: &Geometry, w: Which) -> u64
    requires { g.now.map_sector + 2 * g.now.zones < 2 ^ 64 }
    ensures value { result ≡ copy_start g.now w }
    ensures within { result + g.now.zones ≤ g.now.map_sector + 2 * g.now.zones }
{
    match w {
        Which::One => g.map_sector,
        Which::Two => g.map_sector + u64::from(g.zones),
    }
}

// The CrossCheck of a zone's sector, if its ZoneCheck is right.
fn cross_in(sector: &[u8]) -> Option<u8>
    requires header { 3 < length sector.now }
    requires words { length sector.now % 4 ≡ 0 }
    ensures { result ≡ cross_if_right sector.now }
{
    if sector[0] == zone_check(sector) {
        Some(sector[3])
    } else {
        None
    }
}

// Where the zones of a copy are wrong: the first zone whose ZoneCheck is, or the number of zones if only the total
// of the CrossChecks is. None if the copy is sound.
fn fault_in(zones: &[u8], g: &Geometry) -> Option<u16>
    requires whole { length zones.now ≡ g.now.zones * g.now.sector }
    requires size { IsSectorSize g.now.sector }
    ensures { result ≡ copy_fault (zones_in g.now zones.now) }
{
    let size = g.sector as usize;
    let mut total = 0;
    for z in 0..g.zones {
        let at = usize::from(z) * size;
        match cross_in(&zones[at..at + size]) {
            Some(cross) => total ^= cross,
            None => return Some(z),
        }
    }
    if total == 255 { None } else { Some(g.zones) }
}

// Reads a copy whole, and answers where it is wrong.
fn read_copy<D: Disk>(
    disk: &mut D,
    g: &Geometry,
    w: Which,
    into: &mut [u8],
) -> Result<Option<u16>, DiskFault>
    requires attached { IsTrue (D.attached disk.old) }
    requires size { D.sector_size disk.old ≡ g.now.sector }
    requires on_disk { g.now.map_sector + 2 * g.now.zones ≤ D.sectors disk.old }
    requires whole { length into.old ≡ g.now.zones * g.now.sector }
    ensures found { IfOk result (λ fault. ForSome (D.bytes disk.old) (λ image. fault ≡ copy_fault (copy_of g.now w image))) }
    ensures filled { OnOk result (ForSome (D.bytes disk.old) (λ image. zones_in g.now into.new ≡ copy_of g.now w image)) }
    ensures reads { OnlyReads D.Disk disk.old disk.new }
    ensures few { D.read_calls disk.new ≤ D.read_calls disk.old + g.now.zones }
    ensures cause { FailsByFault D.Disk disk.old disk.new result }
{
    let copy = Extent {
        first: start_of(g, w),
        sectors: u64::from(g.zones),
    };
    disk.read_row(copy, into)?;
    Ok(fault_in(into, g))
}

/// Reads the copy that counts, and answers which it is: copy 1 if it is sound, else copy 2 if that is
/// (docs/FORMAT.md, "Two copies"). `into` has the bytes of all its zones, which stand in it one after another
/// afterwards. The disk is attached, has the geometry's sectors and holds both copies. There is at most a read call for
/// each of their sectors, of copy 1 alone if it is sound, whatever is answered; nothing is written.
///
/// The answer is `BothBad` exactly if neither is sound, and `DiskFault` only if the disk's count of faults rose.
pub fn fetch<D: Disk>(disk: &mut D, g: &Geometry, into: &mut [u8]) -> Result<Which, CopyError>
    requires attached { IsTrue (D.attached disk.old) }
    requires size { D.sector_size disk.old ≡ g.now.sector }
    requires on_disk { g.now.map_sector + 2 * g.now.zones ≤ D.sectors disk.old }
    requires whole { length into.old ≡ g.now.zones * g.now.sector }
    ensures answer { ForSome (D.bytes disk.old) (λ image. Answers g.now image result) }
    ensures filled { IfOk result (λ w. ForSome (D.bytes disk.old) (λ image. zones_in g.now into.new ≡ copy_of g.now w image)) }
    ensures reads { OnlyReads D.Disk disk.old disk.new }
    ensures few { D.read_calls disk.new ≤ D.read_calls disk.old + 2 * g.now.zones }
    ensures one_alone { result ≡ Ok Which.One → D.read_calls disk.new ≤ D.read_calls disk.old + g.now.zones }
    ensures first_alone { ForSome (D.bytes disk.old) (λ image. chosen g.now image ≡ Ok Which.One → D.read_calls disk.new ≤ D.read_calls disk.old + g.now.zones) }
    ensures cause { result ≡ Err CopyError.DiskFault → Rose (D.faults disk.old) (D.faults disk.new) }
{
    let Some(c1) = read_copy(disk, g, Which::One, into)? else {
        return Ok(Which::One);
    };
    match read_copy(disk, g, Which::Two, into)? {
        None => Ok(Which::Two),
        Some(c2) => Err(CopyError::BothBad { c1, c2 }),
    }
}
