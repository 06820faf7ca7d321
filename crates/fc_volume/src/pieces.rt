// Where files lie, and their bytes.
ghost use Rattle.std.specs.Prelude.{◌≡◌, ◌<◌, ◌≤◌, ◌+◌, take, drop, length, IfOk, OnOk, IsTrue};
ghost use Rattle.std.specs.Option.{ForSome};
ghost use Rattle.fc_device.specs.Calls.{FailsByFault, OnlyReads};
ghost use Rattle.fc_device.specs.Sectors.{sector_at};
ghost use Rattle.fc_record.specs.declared.Kind.{Kind};
ghost use Rattle.fc_image.specs.Layout.{sector_bytes};
ghost use Rattle.fc_tree.specs.Agree.{Agree};
ghost use Rattle.fc_volume.specs.Answers.{IsPlace, IsRef, piece_length, ref_bytes};
ghost use Rattle.fc_volume.specs.Volume.{StandsFor, parts_of};

use crate::{FileRef, Volume};
use fc_device::{Disk, DiskFault, Extent, MAX_SECTOR, NoMemory};
use fc_space::PlaceError;
use std::alloc::Global;

// How many bytes of a file one call gives from a place on.
fn piece_length(sector: u64, len: u64, at: u64, most: usize) -> usize
    requires { 0 < sector }
    ensures { result ≡ piece_length sector len at most }
{
    let left = (sector - at % sector).min(len.saturating_sub(at));
    (most as u64).min(left) as usize
}

// Fills `into` with a part of a sector of `size` bytes, from byte `from` of it on.
fn read_part<D: Disk>(
    disk: &mut D,
    sector: u64,
    size: usize,
    from: usize,
    into: &mut [u8],
) -> Result<(), DiskFault>
    requires attached { IsTrue (D.attached disk.old) }
    requires on_disk { sector < D.sectors disk.old }
    requires size { D.sector_size disk.old ≡ size }
    requires part { from + length into.old ≤ size }
    ensures filled { OnOk result (ForSome (D.bytes disk.old) (λ image. into.new ≡ take (length into.old) (drop from (sector_at size image sector)))) }
    ensures reads { OnlyReads D.Disk disk.old disk.new }
    ensures few { D.read_calls disk.new ≤ D.read_calls disk.old + 1 }
    ensures cause { FailsByFault D.Disk disk.old disk.new result }
{
    let mut bytes = [0; MAX_SECTOR];
    disk.read(sector, &mut bytes[..size])?;
    into.copy_from_slice(&bytes[from..from + into.len()]);
    Ok(())
}

impl Volume {
    /// Where a file lies: its sectors in their order, as rows of whole sectors.
    pub fn place(&self, alloc: Global, f: &FileRef) -> Result<Vec<Extent>, NoMemory>
        requires agree { (kind : Kind) × Agree kind (parts_of self.now) }
        requires named { IsRef self.now f.now }
        ensures { IfOk result (λ place. IsPlace self.now f.now place.items) }
    {
        let node = self.holdings.tree.node(f.node).unwrap();
        match self
            .holdings
            .places
            .place_of(alloc, node.entry.address, f.len)
        {
            Ok(place) => Ok(place),
            Err(PlaceError::NoMemory) => Err(NoMemory),
            // Each file of the volume has a place.
            Err(PlaceError::Outside) => unreachable!(),
        }
    }

    /// A file's bytes from a place on: at most to the end of a sector, and at most as many as the buffer has. Answers how
    /// many; 0 exactly at or past the file's end, and for an empty buffer. The rest of the buffer stays. No memory is taken,
    /// and at most one read call is made.
    pub fn piece<D: Disk>(
        &self,
        disk: &mut D,
        f: &FileRef,
        at: u64,
        into: &mut [u8],
    ) -> Result<usize, DiskFault>
        requires attached { IsTrue (D.attached disk.old) }
        requires fit { IsTrue self.now.fit }
        requires stands { StandsFor D.Disk self.now disk.old }
        requires named { IsRef self.now f.now }
        ensures count { IfOk result (λ n. n ≡ piece_length (sector_bytes (parts_of self.now).layout) f.now.len at (length into.old)) }
        ensures filled { ForSome (D.bytes disk.old) (λ image. IfOk result (λ n. take n into.new ≡ take n (drop at (ref_bytes image self.now f.now)))) }
        ensures rest { IfOk result (λ n. drop n into.new ≡ drop n into.old) }
        ensures reads { OnlyReads D.Disk disk.old disk.new }
        ensures few { D.read_calls disk.new ≤ D.read_calls disk.old + 1 }
        ensures cause { FailsByFault D.Disk disk.old disk.new result }
    {
        let size = self.holdings.places.sector_bytes();
        let count = piece_length(size, f.len, at, into.len());
        if count == 0 {
            return Ok(0);
        }
        self.holdings.places.places_suffice();
        let node = self.holdings.tree.node(f.node).unwrap();
        let sector = self
            .holdings
            .places
            .space()
            .sector_of(node.entry.address, f.len, at / size);
        let from = (at % size) as usize;
        read_part(disk, sector, size as usize, from, &mut into[..count])?;
        Ok(count)
    }
}
