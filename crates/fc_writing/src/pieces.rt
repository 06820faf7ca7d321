// What is written beside the map, piece by piece. After each piece comes a sync.

ghost use Rattle.std.specs.Prelude.{◌≡◌, ◌<◌, ◌++◌, [], All, length, IsTrue, IsFalse, OnOk};
ghost use Rattle.std.specs.List.{flat_map};
ghost use Rattle.std.specs.Option.{ForSome};
ghost use Rattle.fc_device.specs.Calls.{FailsByFault, SameForm, StopsAndExitsLeave};
ghost use Rattle.fc_image.specs.Layout.{is_apart};
ghost use Rattle.fc_objects.specs.Extents.{sectors_in};
ghost use Rattle.fc_objects.specs.Written.{AreApart};
ghost use Rattle.fc_writing.specs.Content.{HasContent, IsPart, stored};
ghost use Rattle.fc_writing.specs.Ready.{CanPut, IsEnough, IsSourceEnough, carried_by, content_of, early_content, from_of, place_of, source_content, source_from, source_place, to_of};

use crate::ready::{Piece, Ready, Source, Transfer};
use fc_device::{Disk, DiskFault, Extent, MAX_SECTOR};
use fc_objects::{copy_sectors, write_object};

/// Writes bytes into some sectors, each of `size` bytes, and zeros after them, and syncs.
pub fn store_in<D: Disk>(
    disk: &mut D,
    size: usize,
    place: &[Extent],
    bytes: &[u8],
) -> Result<(), DiskFault>
    requires attached { IsTrue (D.attached disk.old) }
    requires settled { IsFalse (D.pending disk.old) }
    requires size { D.sector_size disk.old ≡ size }
    requires on_disk { All (λ s. s < D.sectors disk.old) (sectors_in place.now) }
    ensures keeps { StopsAndExitsLeave D.Disk disk.old disk.new (IsPart size [] (stored size (sectors_in place.now) bytes.now)) }
    ensures written { OnOk result (AreApart (sectors_in place.now) → ForSome (D.bytes disk.new) (HasContent size (stored size (sectors_in place.now) bytes.now))) }
    ensures durable { OnOk result (IsFalse (D.pending disk.new)) }
    ensures form { SameForm D.Disk disk.old disk.new }
    ensures cause { FailsByFault D.Disk disk.old disk.new result }
{
    write_object(disk, size, place, bytes)?;
    disk.sync()?;
    Ok(())
}

/// Copies sectors one for one into others, and syncs.
pub fn copy_in<D: Disk>(disk: &mut D, size: usize, transfer: &Transfer) -> Result<(), DiskFault>
    requires attached { IsTrue (D.attached disk.old) }
    requires settled { IsFalse (D.pending disk.old) }
    requires size { D.sector_size disk.old ≡ size }
    requires from_disk { All (λ s. s < D.sectors disk.old) (from_of transfer.now) }
    requires on_disk { All (λ s. s < D.sectors disk.old) (to_of transfer.now) }
    requires others { IsTrue (is_apart (from_of transfer.now) (to_of transfer.now)) }
    requires enough { IsEnough transfer.now }
    ensures keeps { StopsAndExitsLeave D.Disk disk.old disk.new (λ was image. IsPart size [] (carried_by size was transfer.now) was image) }
    ensures written { OnOk result (AreApart (to_of transfer.now)
        → ForSome (D.bytes disk.old) (λ was. ForSome (D.bytes disk.new) (HasContent size (carried_by size was transfer.now)))) }
    ensures durable { OnOk result (IsFalse (D.pending disk.new)) }
    ensures form { SameForm D.Disk disk.old disk.new }
    ensures cause { FailsByFault D.Disk disk.old disk.new result }
{
    let mut sector = [0; MAX_SECTOR];
    copy_sectors(disk, &transfer.from, &transfer.to, &mut sector[..size])?;
    disk.sync()?;
    Ok(())
}

// Writes the new object, if there is one.
fn write_source<D: Disk>(
    disk: &mut D,
    size: usize,
    source: &Source,
    bytes: &[u8],
) -> Result<(), DiskFault>
    requires attached { IsTrue (D.attached disk.old) }
    requires settled { IsFalse (D.pending disk.old) }
    requires size { D.sector_size disk.old ≡ size }
    requires from_disk { All (λ s. s < D.sectors disk.old) (source_from source.now) }
    requires on_disk { All (λ s. s < D.sectors disk.old) (source_place source.now) }
    requires once { AreApart (source_place source.now) }
    requires others { IsTrue (is_apart (source_from source.now) (source_place source.now)) }
    requires enough { IsSourceEnough source.now }
    ensures keeps { StopsAndExitsLeave D.Disk disk.old disk.new (λ was image. IsPart size [] (source_content size was bytes.now source.now) was image) }
    ensures written { OnOk result (ForSome (D.bytes disk.old) (λ was. ForSome (D.bytes disk.new) (HasContent size (source_content size was bytes.now source.now)))) }
    ensures durable { OnOk result (IsFalse (D.pending disk.new)) }
    ensures form { SameForm D.Disk disk.old disk.new }
    ensures cause { FailsByFault D.Disk disk.old disk.new result }
{
    match source {
        Source::Nothing => Ok(()),
        Source::Bytes(place) => store_in(disk, size, place, bytes),
        Source::Sectors(transfer) => copy_in(disk, size, transfer),
    }
}

// Copies what is carried along, one after another.
fn carry<D: Disk>(disk: &mut D, size: usize, carried: &[Transfer]) -> Result<(), DiskFault>
    requires attached { IsTrue (D.attached disk.old) }
    requires settled { IsFalse (D.pending disk.old) }
    requires size { D.sector_size disk.old ≡ size }
    requires from_disk { All (λ s. s < D.sectors disk.old) (flat_map from_of carried.now) }
    requires on_disk { All (λ s. s < D.sectors disk.old) (flat_map to_of carried.now) }
    requires once { AreApart (flat_map to_of carried.now) }
    requires others { IsTrue (is_apart (flat_map from_of carried.now) (flat_map to_of carried.now)) }
    requires enough { All IsEnough carried.now }
    ensures keeps { StopsAndExitsLeave D.Disk disk.old disk.new (λ was image. IsPart size [] (flat_map (carried_by size was) carried.now) was image) }
    ensures written { OnOk result (ForSome (D.bytes disk.old) (λ was. ForSome (D.bytes disk.new) (HasContent size (flat_map (carried_by size was) carried.now)))) }
    ensures durable { OnOk result (IsFalse (D.pending disk.new)) }
    ensures form { SameForm D.Disk disk.old disk.new }
    ensures cause { FailsByFault D.Disk disk.old disk.new result }
{
    for transfer in carried {
        copy_in(disk, size, transfer)?;
    }
    Ok(())
}

// Writes a piece, and syncs.
fn put_one<D: Disk>(disk: &mut D, size: usize, piece: &Piece) -> Result<(), DiskFault>
    requires attached { IsTrue (D.attached disk.old) }
    requires settled { IsFalse (D.pending disk.old) }
    requires size { D.sector_size disk.old ≡ size }
    requires on_disk { All (λ s. s < D.sectors disk.old) (place_of piece.now) }
    ensures keeps { StopsAndExitsLeave D.Disk disk.old disk.new (IsPart size [] (content_of size piece.now)) }
    ensures written { OnOk result (AreApart (place_of piece.now) → ForSome (D.bytes disk.new) (HasContent size (content_of size piece.now))) }
    ensures durable { OnOk result (IsFalse (D.pending disk.new)) }
    ensures form { SameForm D.Disk disk.old disk.new }
    ensures cause { FailsByFault D.Disk disk.old disk.new result }
{
    store_in(disk, size, &piece.place, &piece.bytes)
}

/// Writes pieces one after another.
pub fn put<D: Disk>(disk: &mut D, size: usize, pieces: &[Piece]) -> Result<(), DiskFault>
    requires attached { IsTrue (D.attached disk.old) }
    requires settled { IsFalse (D.pending disk.old) }
    requires size { D.sector_size disk.old ≡ size }
    requires on_disk { All (λ s. s < D.sectors disk.old) (flat_map place_of pieces.now) }
    requires once { AreApart (flat_map place_of pieces.now) }
    ensures keeps { StopsAndExitsLeave D.Disk disk.old disk.new (IsPart size [] (flat_map (content_of size) pieces.now)) }
    ensures written { OnOk result (ForSome (D.bytes disk.new) (HasContent size (flat_map (content_of size) pieces.now))) }
    ensures durable { OnOk result (IsFalse (D.pending disk.new)) }
    ensures form { SameForm D.Disk disk.old disk.new }
    ensures cause { FailsByFault D.Disk disk.old disk.new result }
{
    for piece in pieces {
        put_one(disk, size, piece)?;
    }
    Ok(())
}

/// Writes the new object of a change, what it carries along, and what else may be written before the map's first step.
pub fn put_early<D: Disk>(
    disk: &mut D,
    size: usize,
    ready: &Ready,
    bytes: &[u8],
) -> Result<(), DiskFault>
    requires attached { IsTrue (D.attached disk.old) }
    requires settled { IsFalse (D.pending disk.old) }
    requires size { D.sector_size disk.old ≡ size }
    requires can { CanPut (D.sectors disk.old) [] ready.now }
    ensures keeps { StopsAndExitsLeave D.Disk disk.old disk.new (λ was image. IsPart size [] (early_content size was bytes.now ready.now) was image) }
    ensures written { OnOk result (ForSome (D.bytes disk.old) (λ was. ForSome (D.bytes disk.new) (HasContent size (early_content size was bytes.now ready.now)))) }
    ensures durable { OnOk result (IsFalse (D.pending disk.new)) }
    ensures form { SameForm D.Disk disk.old disk.new }
    ensures cause { FailsByFault D.Disk disk.old disk.new result }
{
    write_source(disk, size, &ready.source, bytes)?;
    carry(disk, size, &ready.carried)?;
    put(disk, size, &ready.early)
}
