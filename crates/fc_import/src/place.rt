// A place on the disk that gets bytes which are given in order.
ghost use Rattle.std.specs.Prelude.{◌≡◌, ◌<◌, ◌≤◌, ◌*◌, [], All, length, IfOk, IsTrue, IsFalse, OnErr, OnOk};
ghost use Rattle.std.specs.Option.{ForSome};
ghost use Rattle.fc_device.specs.Calls.{SameForm, StopsAndExitsLeave};
ghost use Rattle.fc_device.specs.Faults.{HasCause};
ghost use Rattle.fc_objects.specs.Extents.{extent_sectors, sectors_in};
ghost use Rattle.fc_objects.specs.Written.{AreApart, HasParts, IsPartWritten};
ghost use Rattle.fc_import.specs.Imports.{Drains, Fills, HasCauses, HasLeft, Imports, IsSameSupply, Takes};
ghost use Rattle.fc_import.specs.declared.place.ImportFault.TheVariants as errors;

use fc_device::{Disk, Extent, Failed};
use fc_host::Supply;

// How many bytes are written at once: of few, and of more.
const SMALL: usize = 4096;

const BLOCK: usize = 65_536;

/// Why not all bytes were written.
#[derive(Clone, Copy, Debug, PartialEq, Eq)]
pub enum ImportFault {
    /// A call of the disk failed.
    Disk,
    /// The bytes weren't given.
    Supply,
}

/// A failure is the supply's, since a disk's is told as such.
impl From<Failed> for ImportFault {
    ghost from_gives = { λ _ e. e ≡ errors.Supply };

    fn from(_: Failed) -> Self
        ensures { result ≡ errors.Supply }
    {
        ImportFault::Supply
    }
}

// Puts the next bytes at the front of a row, and zeros behind them if there are fewer. `left` are yet to be given; answers how many are
// then.
fn take_row<B: Supply>(from: &mut B, left: u64, row: &mut [u8]) -> Result<u64, Failed>
    requires left { HasLeft B.Supply left from.old }
    ensures left { IfOk result (λ more. HasLeft B.Supply more from.new) }
    ensures takes { OnOk result (Takes B.Supply (length row.old) left from.old from.new row.new) }
    ensures failed { OnErr result (B.given from.new ≡ B.given from.old) }
    ensures supply { IsSameSupply B.Supply from.old from.new }
    ensures cause { HasCause (B.faults from.old) (B.faults from.new) result }
{
    let count = left.min(row.len() as u64);
    row.fill(0);
    from.fill(&mut row[..count as usize])?;
    Ok(left - count)
}

// Writes the next bytes into sectors in a row, for which `block` has room. `left` are yet to be given; answers how many are then.
fn import_row<D: Disk, B: Supply>(
    disk: &mut D,
    size: usize,
    row: Extent,
    from: &mut B,
    left: u64,
    block: &mut [u8],
) -> Result<u64, ImportFault>
    requires attached { IsTrue (D.attached disk.old) }
    requires size { D.sector_size disk.old ≡ size }
    requires some { 0 < row.sectors }
    requires on_disk { All (λ s. s < D.sectors disk.old) (extent_sectors row) }
    requires room { row.sectors * size ≤ length block.old }
    requires left { HasLeft B.Supply left from.old }
    ensures left { IfOk result (λ more. HasLeft B.Supply more from.new) }
    ensures imports { Imports D.Disk B.Supply (extent_sectors row) left disk.old disk.new from.old from.new result }
    ensures causes { HasCauses D.Disk B.Supply disk.old disk.new from.old from.new result }
{
    let bytes = &mut block[..row.sectors as usize * size];
    let more = take_row(from, left, bytes)?;
    if let Err(Failed) = disk.write_row(row, bytes) {
        return Err(ImportFault::Disk);
    }
    Ok(more)
}

// How many sectors a block has room for.
fn sectors_at_once(room: usize, size: usize) -> u64
    requires size { 0 < size }
    requires room { size ≤ room }
    ensures some { 0 < result }
    ensures fit { result * size ≤ room }
{
    (room / size) as u64
}

// Writes the next bytes into the sectors of an extent, row by row. `block` has room for a sector at least. `left` bytes are yet to be
// given; answers how many are then.
fn import_extent<D: Disk, B: Supply>(
    disk: &mut D,
    size: usize,
    extent: Extent,
    from: &mut B,
    left: u64,
    block: &mut [u8],
) -> Result<u64, ImportFault>
    requires attached { IsTrue (D.attached disk.old) }
    requires size { D.sector_size disk.old ≡ size }
    requires on_disk { All (λ s. s < D.sectors disk.old) (extent_sectors extent) }
    requires room { size ≤ length block.old }
    requires left { HasLeft B.Supply left from.old }
    ensures left { IfOk result (λ more. HasLeft B.Supply more from.new) }
    ensures imports { Imports D.Disk B.Supply (extent_sectors extent) left disk.old disk.new from.old from.new result }
    ensures causes { HasCauses D.Disk B.Supply disk.old disk.new from.old from.new result }
{
    let most = sectors_at_once(block.len(), size);
    let mut ahead = extent;
    let mut more = left;
    while ahead.sectors > 0 {
        let first = ahead.first;
        let sectors = ahead.sectors.min(most);
        more = import_row(disk, size, Extent { first, sectors }, from, more, block)?;
        ahead = Extent {
            first: first + sectors,
            sectors: ahead.sectors - sectors,
        };
    }
    Ok(more)
}

// Writes bytes into the sectors of a place, extent by extent. `block` has room for a sector at least. Answers how many are left.
fn import_place<D: Disk, B: Supply>(
    disk: &mut D,
    size: usize,
    place: &[Extent],
    from: &mut B,
    block: &mut [u8],
) -> Result<u64, ImportFault>
    requires attached { IsTrue (D.attached disk.old) }
    requires size { D.sector_size disk.old ≡ size }
    requires on_disk { All (λ s. s < D.sectors disk.old) (sectors_in place.now) }
    requires room { size ≤ length block.old }
    requires fresh { B.given from.old ≡ [] }
    ensures left { IfOk result (λ more. HasLeft B.Supply more from.new) }
    ensures imports { Imports D.Disk B.Supply (sectors_in place.now) (B.total from.old) disk.old disk.new from.old from.new result }
    ensures causes { HasCauses D.Disk B.Supply disk.old disk.new from.old from.new result }
{
    let mut left = from.total();
    for extent in place {
        left = import_extent(disk, size, *extent, from, left, block)?;
    }
    Ok(left)
}

// Takes bytes that are left and drops them. `block` has room for some.
fn drain<B: Supply>(from: &mut B, left: u64, block: &mut [u8]) -> Result<(), Failed>
    requires left { HasLeft B.Supply left from.old }
    requires room { 0 < length block.old }
    ensures drained { Drains B.Supply left from.old from.new result }
    ensures cause { HasCause (B.faults from.old) (B.faults from.new) result }
{
    let mut more = left;
    while more > 0 {
        let count = more.min(block.len() as u64);
        from.fill(&mut block[..count as usize])?;
        more -= count;
    }
    Ok(())
}

// Writes bytes into the sectors of a place, as `import` does, with `block` for the bytes on their way.
fn import_blocks<D: Disk, B: Supply>(
    disk: &mut D,
    size: usize,
    place: &[Extent],
    from: &mut B,
    block: &mut [u8],
) -> Result<(), ImportFault>
    requires attached { IsTrue (D.attached disk.old) }
    requires size { D.sector_size disk.old ≡ size }
    requires on_disk { All (λ s. s < D.sectors disk.old) (sectors_in place.now) }
    requires room { size ≤ length block.old }
    requires fresh { B.given from.old ≡ [] }
    ensures fills { Fills D.Disk B.Supply (sectors_in place.now) disk.old disk.new from.old from.new result }
    ensures causes { HasCauses D.Disk B.Supply disk.old disk.new from.old from.new result }
{
    let left = import_place(disk, size, place, from, block)?;
    drain(from, left, block)?;
    Ok(())
}

// The same, with a block that is not much larger than the bytes if they are few.
fn import_all<D: Disk, B: Supply>(
    disk: &mut D,
    size: usize,
    place: &[Extent],
    from: &mut B,
) -> Result<(), ImportFault>
    requires attached { IsTrue (D.attached disk.old) }
    requires size { D.sector_size disk.old ≡ size }
    requires on_disk { All (λ s. s < D.sectors disk.old) (sectors_in place.now) }
    requires fresh { B.given from.old ≡ [] }
    ensures fills { Fills D.Disk B.Supply (sectors_in place.now) disk.old disk.new from.old from.new result }
    ensures causes { HasCauses D.Disk B.Supply disk.old disk.new from.old from.new result }
{
    if from.total() <= SMALL as u64 {
        import_blocks(disk, size, place, from, &mut [0; SMALL])
    } else {
        import_blocks(disk, size, place, from, &mut [0; BLOCK])
    }
}

/// Asks for all bytes and writes them into the sectors of a place, one sector after another, zeros into what is left of these, and
/// syncs. None is given yet. Bytes for which the sectors have no room are left out. `size` is the bytes of a sector.
///
/// At every crash and at every exit, an error included, no sector but the place's has changed, and each of these is as it was or has its
/// part of the bytes that were given. `ImportFault::Disk` only if the disk's count of faults rose, and `ImportFault::Supply` only if the
/// supply's did.
pub fn import<D: Disk, B: Supply>(
    disk: &mut D,
    size: usize,
    place: &[Extent],
    from: &mut B,
) -> Result<(), ImportFault>
    requires attached { IsTrue (D.attached disk.old) }
    requires settled { IsFalse (D.pending disk.old) }
    requires size { D.sector_size disk.old ≡ size }
    requires on_disk { All (λ s. s < D.sectors disk.old) (sectors_in place.now) }
    requires fresh { B.given from.old ≡ [] }
    ensures given { OnOk result (length (B.given from.new) ≡ B.total from.old) }
    ensures keeps { StopsAndExitsLeave D.Disk disk.old disk.new (IsPartWritten size (sectors_in place.now) (B.given from.new)) }
    ensures written { OnOk result (AreApart (sectors_in place.now) → ForSome (D.bytes disk.new) (HasParts size (sectors_in place.now) (B.given from.new))) }
    ensures durable { OnOk result (IsFalse (D.pending disk.new)) }
    ensures form { SameForm D.Disk disk.old disk.new }
    ensures supply { IsSameSupply B.Supply from.old from.new }
    ensures causes { HasCauses D.Disk B.Supply disk.old disk.new from.old from.new result }
{
    import_all(disk, size, place, from)?;
    if let Err(Failed) = disk.sync() {
        return Err(ImportFault::Disk);
    }
    Ok(())
}
