// A file of the host with the bytes of an object.
ghost use Rattle.std.specs.Prelude.{◌≡◌, ◌<◌, ◌≤◌, length, IsTrue};
ghost use Rattle.std.specs.List.{Contains};
ghost use Rattle.std.specs.Option.{ForSome};
ghost use Rattle.fc_device.specs.Calls.{OnlyReads};
ghost use Rattle.fc_host.specs.Asked.{made_by};
ghost use Rattle.fc_host.specs.Files.{is_there};
ghost use Rattle.fc_objects.specs.Extents.{sectors_in};
ghost use Rattle.fc_export.specs.Exports.{Adds, Exports, HasCauses};
ghost use Rattle.fc_export.specs.Readable.{IsReadable, told_bytes};
ghost use Rattle.fc_export.specs.declared.file.ExportFault.TheVariants as errors;

use fc_device::{Disk, DiskFault, Extent, Failed};
use fc_host::Host;
use fc_objects::ObjectReader;

// How many bytes are read at once: of a small object, and of another.
const SMALL: usize = 4096;

const BLOCK: usize = 65_536;

/// Why an object didn't become a file.
#[derive(Clone, Copy)]
pub enum ExportFault {
    /// A call of the disk failed.
    Disk,
    /// A call of the host failed.
    Host,
}

impl From<DiskFault> for ExportFault {
    ghost from_gives = { λ _ e. e ≡ errors.Disk };

    fn from(_: DiskFault) -> Self
        ensures { result ≡ errors.Disk }
    {
        ExportFault::Disk
    }
}

/// A failure is the host's, since a disk's is a `DiskFault`.
impl From<Failed> for ExportFault {
    ghost from_gives = { λ _ e. e ≡ errors.Host };

    fn from(_: Failed) -> Self
        ensures { result ≡ errors.Host }
    {
        ExportFault::Host
    }
}

// Adds the first `len` bytes of a place to a file that the host made, a block at a time, with a buffer for a block.
fn add_blocks<D: Disk, H: Host>(
    disk: &mut D,
    host: &mut H,
    name: &[u8],
    size: usize,
    place: &[Extent],
    len: u64,
    block: &mut [u8],
) -> Result<(), ExportFault>
    requires some { 0 < length name.now }
    requires most { length name.now ≤ 64 }
    requires own { Contains (made_by (H.asked host.old)) name.now }
    requires there { ForSome (H.files host.old) (λ files. IsTrue (is_there files name.now)) }
    requires disk { IsReadable D.Disk disk.old size (sectors_in place.now) }
    requires room { size ≤ length block.old }
    ensures added { Adds H.Host name.now (told_bytes D.Disk disk.old size (sectors_in place.now) len) host.old host.new result }
    ensures reads { OnlyReads D.Disk disk.old disk.new }
    ensures causes { HasCauses D.Disk H.Host disk.old disk.new host.old host.new result }
{
    let mut reader = ObjectReader::new(place, size, len);
    loop {
        let count = reader.read(disk, block)?;
        if count == 0 {
            return Ok(());
        }
        host.append(name, &block[..count])?;
    }
}

// Adds the first `len` bytes of a place to a file that the host made.
fn add_object<D: Disk, H: Host>(
    disk: &mut D,
    host: &mut H,
    name: &[u8],
    size: usize,
    place: &[Extent],
    len: u64,
) -> Result<(), ExportFault>
    requires some { 0 < length name.now }
    requires most { length name.now ≤ 64 }
    requires own { Contains (made_by (H.asked host.old)) name.now }
    requires there { ForSome (H.files host.old) (λ files. IsTrue (is_there files name.now)) }
    requires disk { IsReadable D.Disk disk.old size (sectors_in place.now) }
    ensures added { Adds H.Host name.now (told_bytes D.Disk disk.old size (sectors_in place.now) len) host.old host.new result }
    ensures reads { OnlyReads D.Disk disk.old disk.new }
    ensures causes { HasCauses D.Disk H.Host disk.old disk.new host.old host.new result }
{
    if len <= SMALL as u64 {
        add_blocks(disk, host, name, size, place, len, &mut [0; SMALL])
    } else {
        add_blocks(disk, host, name, size, place, len, &mut [0; BLOCK])
    }
}

/// Makes a file of the host with the first `len` bytes of a place on the disk. Answers false if there is a file of that name, which
/// stays as it is. If the disk or the host fails meanwhile, the file is taken back: a part of it stays only if that fails too.
pub fn export<D: Disk, H: Host>(
    disk: &mut D,
    host: &mut H,
    name: &[u8],
    size: usize,
    place: &[Extent],
    len: u64,
) -> Result<bool, ExportFault>
    requires some { 0 < length name.now }
    requires most { length name.now ≤ 64 }
    requires disk { IsReadable D.Disk disk.old size (sectors_in place.now) }
    ensures exported { Exports H.Host name.now (told_bytes D.Disk disk.old size (sectors_in place.now) len) host.old host.new result }
    ensures reads { OnlyReads D.Disk disk.old disk.new }
    ensures causes { HasCauses D.Disk H.Host disk.old disk.new host.old host.new result }
{
    if !host.make(name)? {
        return Ok(false);
    }
    if let Err(fault) = add_object(disk, host, name, size, place, len) {
        // If the file can't be taken back either, the first failure is told all the same.
        let _ = host.remove(name);
        return Err(fault);
    }
    Ok(true)
}
