// The bytes of a file, in memory.
ghost use Rattle.std.specs.Prelude.{◌≡◌, ◌<◌, ◌≤◌, ◌++◌, ◌*◌, ◌+◌, All, Err, IfOk, IsTrue, OnOk, length, min};
ghost use Rattle.std.specs.Option.{ForSome};
ghost use Rattle.fc_device.specs.Calls.{OnlyReads};
ghost use Rattle.fc_device.specs.Faults.{Rose};
ghost use Rattle.fc_objects.specs.Bytes.{first_bytes};
ghost use Rattle.fc_objects.specs.Extents.{sectors_in};
ghost use Rattle.fc_volume.specs.Answers.{IsRef, ref_bytes};
ghost use Rattle.fc_volume.specs.Volume.{StandsFor};
ghost use Rattle.fc_convert.specs.declared.blocks.ReadError.TheVariants as errors;

use fc_device::{Disk, DiskFault, Extent, NoMemory};
use fc_objects::ObjectReader;
use fc_volume::{FileRef, Volume};
use std::alloc::Global;

/// Why a file isn't read.
#[derive(Clone, Copy)]
pub enum ReadError {
    DiskFault,
    NoMemory,
}

impl From<DiskFault> for ReadError {
    ghost from_gives = { λ _ e. e ≡ errors.DiskFault };

    fn from(_: DiskFault) -> Self
        ensures { result ≡ errors.DiskFault }
    {
        ReadError::DiskFault
    }
}

impl From<NoMemory> for ReadError {
    ghost from_gives = { λ _ e. e ≡ errors.NoMemory };

    fn from(_: NoMemory) -> Self
        ensures { result ≡ errors.NoMemory }
    {
        ReadError::NoMemory
    }
}

// How many bytes are read at once.
const BLOCK: usize = 65_536;

// Appends the first `len` bytes of a place, whose sectors have `size` bytes each, a block at a time.
fn append_place<D: Disk>(
    disk: &mut D,
    place: &[Extent],
    size: usize,
    len: u64,
    block: &mut [u8],
    into: &mut Vec<u8>,
) -> Result<(), ReadError>
    requires attached { IsTrue (D.attached disk.old) }
    requires size { D.sector_size disk.old ≡ size }
    requires on_disk { All (λ s. s < D.sectors disk.old) (sectors_in place.now) }
    requires room { size ≤ length block.old }
    ensures bytes { OnOk result (ForSome (D.bytes disk.old) (λ image. into.new.items ≡ into.old.items ++ first_bytes size image (sectors_in place.now) len)) }
    ensures long { OnOk result (length into.new.items ≡ length into.old.items + min len (length (sectors_in place.now) * size)) }
    ensures reads { OnlyReads D.Disk disk.old disk.new }
    ensures cause { result ≡ Err ReadError.DiskFault → Rose (D.faults disk.old) (D.faults disk.new) }
{
    let mut reader = ObjectReader::new(place, size, len);
    loop {
        let count = reader.read(disk, block)?;
        if count == 0 {
            return Ok(());
        }
        if into.extend_from_slice(&block[..count]).is_err() {
            return Err(ReadError::NoMemory);
        }
    }
}

/// The bytes of a file.
pub fn read_file<D: Disk>(
    alloc: Global,
    volume: &Volume,
    disk: &mut D,
    file: &FileRef,
) -> Result<Vec<u8>, ReadError>
    requires attached { IsTrue (D.attached disk.old) }
    requires stands { StandsFor D.Disk volume.now disk.old }
    requires named { IsRef volume.now file.now }
    ensures bytes { ForSome (D.bytes disk.old) (λ image. IfOk result (λ bytes. bytes.items ≡ ref_bytes image volume.now file.now)) }
    ensures long { IfOk result (λ bytes. length bytes.items ≡ file.now.len) }
    ensures reads { OnlyReads D.Disk disk.old disk.new }
    ensures cause { result ≡ Err ReadError.DiskFault → Rose (D.faults disk.old) (D.faults disk.new) }
{
    let place = volume.place(alloc, file)?;
    let space = volume.space();
    // A law, for the proof alone: a file's place has room for all of it.
    space.places_suffice();
    let size = space.sector_bytes() as usize;
    let Ok(mut bytes) = Vec::with_capacity(alloc, file.len as usize) else {
        return Err(ReadError::NoMemory);
    };
    append_place(disk, &place, size, file.len, &mut [0; BLOCK], &mut bytes)?;
    Ok(bytes)
}
