// The bytes of objects.
ghost use Rattle.std.specs.Prelude.{◌≡◌, ◌<◌, ◌≤◌, ◌+◌, ◌*◌, ◌++◌, min, All, Err, IsTrue, List, ℕ, OnOk, Some, length};
ghost use Rattle.std.specs.Option.{ForSome};
ghost use Rattle.fc_device.specs.Faults.{Rose};
ghost use Rattle.fc_device.specs.Calls.{OnlyReads};
ghost use Rattle.std.specs.Int.{div_ceil};
ghost use Rattle.fc_objects.specs.Bytes.{first_bytes};
ghost use Rattle.fc_objects.specs.Extents.{sectors_in};
ghost use Rattle.fc_image.specs.Edits.{IsAt};
ghost use Rattle.fc_image.specs.Layout.{dir_form, disc_sectors, sector_bytes, sectors_at};
ghost use Rattle.fc_image.specs.Walk.{Object, object_bytes, object_size};
ghost use Rattle.fc_space.specs.Space.{layout_of};
ghost use Rattle.fc_tree.specs.Calls.{entry_sectors};
ghost use Rattle.fc_tree.specs.declared.reading.ReadError.TheVariants as errors;

use crate::claim::object_size;
use fc_device::{Disk, DiskFault, Extent};
use fc_dirs::Entry;
use fc_objects::ObjectReader;
use fc_space::{PlaceError, Places};
use std::alloc::Global;

/// Why bytes are not read.
#[derive(Clone, Copy)]
pub enum ReadError {
    DiskFault,
    NoMemory,
}

impl From<DiskFault> for ReadError {
    ghost from_gives = { λ _ e. e ≡ errors.DiskFault };

    fn from(_: DiskFault) -> Self
        ensures { result ≡ errors.DiskFault }
    {
        ReadError::DiskFault
    }
}

// How many bytes are read at once.
const BLOCK: usize = 4096;

// Appends the first `len` bytes of a place, whose sectors have `size` bytes each.
fn append_bytes<D: Disk>(
    disk: &mut D,
    place: &[Extent],
    size: usize,
    len: u64,
    into: &mut Vec<u8>,
) -> Result<(), ReadError>
    requires attached { IsTrue (D.attached disk.old) }
    requires size { D.sector_size disk.old ≡ size }
    requires on_disk { All (λ s. s < D.sectors disk.old) (sectors_in place.now) }
    ensures bytes { OnOk result (ForSome (D.bytes disk.old) (λ image. into.new.items ≡ into.old.items ++ first_bytes size image (sectors_in place.now) len)) }
    ensures long { OnOk result (length into.new.items ≡ length into.old.items + min len (length (sectors_in place.now) * size)) }
    ensures reads { OnlyReads D.Disk disk.old disk.new }
    ensures few { D.read_calls disk.new ≤ D.read_calls disk.old + div_ceil len size }
    ensures cause { result ≡ Err ReadError.DiskFault → Rose (D.faults disk.old) (D.faults disk.new) }
{
    let mut reader = ObjectReader::new(place, size, len);
    let mut block = [0; BLOCK];
    loop {
        let count = reader.read(disk, &mut block)?;
        if count == 0 {
            return Ok(());
        }
        if into.extend_from_slice(&block[..count]).is_err() {
            return Err(ReadError::NoMemory);
        }
    }
}

/// Reads the bytes of an object of this entry, which has a place on the disc, with at most a read call for each sector
/// that they take.
pub fn read_object<D: Disk>(
    alloc: Global,
    disk: &mut D,
    places: &Places,
    entry: &Entry,
    into: &mut Vec<u8>,
) -> Result<(), ReadError>
    requires attached { IsTrue (D.attached disk.old) }
    requires size { D.sector_size disk.old ≡ sector_bytes (layout_of places.now) }
    requires room { disc_sectors (layout_of places.now) ≤ D.sectors disk.old }
    requires placed { (sectors : List ℕ) × (sectors_at (layout_of places.now) entry.now.address (object_size (dir_form (layout_of places.now)) entry.now) ≡ Some sectors) }
    ensures long { OnOk result (length into.new.items ≡ object_size (dir_form (layout_of places.now)) entry.now) }
    ensures bytes { OnOk result (ForSome (D.bytes disk.old) (λ image. (o : Object) → o.entry ≡ entry.now → IsAt (layout_of places.now) o
        → into.new.items ≡ object_bytes image (layout_of places.now) o)) }
    ensures reads { OnlyReads D.Disk disk.old disk.new }
    ensures few { D.read_calls disk.new ≤ D.read_calls disk.old + entry_sectors (layout_of places.now) entry.now }
    ensures cause { result ≡ Err ReadError.DiskFault → Rose (D.faults disk.old) (D.faults disk.new) }
{
    let len = u64::from(object_size(places.dir_form(), entry));
    let place = match places.place_of(alloc, entry.address, len) {
        Ok(place) => place,
        Err(PlaceError::Outside) => unreachable!(),
        Err(PlaceError::NoMemory) => return Err(ReadError::NoMemory),
    };
    into.clear();
    let size = places.sector_bytes() as usize;
    append_bytes(disk, &place, size, len, into)?;
    Ok(())
}
