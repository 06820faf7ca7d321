// Opening the image of a disk.
ghost use Rattle.std.specs.Prelude.{◌≡◌, ◌≤◌, ◌+◌, ◌^◌, true, Ok, Err, Some, length, IsTrue, IsFalse, IfOk, IfErr};
ghost use Rattle.std.specs.Option.{ForSome};
ghost use Rattle.fc_device.specs.Faults.{Rose};
ghost use Rattle.fc_record.specs.declared.Kind.{Kind};
ghost use Rattle.fc_record.specs.Front.{HasMapOf};
ghost use Rattle.fc_record.specs.Kinds.{IsKind, disc_size, fits_kind, front_reads, kind_calls, kind_of, sector_size};
ghost use Rattle.fc_device.specs.Calls.{OnlyReads};
ghost use Rattle.fc_image.specs.Layout.{disc_sectors, sector_bytes};
ghost use Rattle.fc_image.specs.Opening.{Opened, open_image};
ghost use Rattle.fc_space.specs.Space.{layout_of};
ghost use Rattle.fc_tree.specs.Calls.{all_directory_sectors};
ghost use Rattle.fc_tree.specs.Parts.{ArePartsOf};
ghost use Rattle.fc_volume.specs.Answers.{IsFaultOf};
ghost use Rattle.fc_volume.specs.Calls.{map_reads, open_reads, walk_reads};
ghost use Rattle.fc_volume.specs.Maps.{found_of};
ghost use Rattle.fc_volume.specs.Mounting.{AreMounted, opened_with};
ghost use Rattle.fc_volume.specs.Volume.{OnlyShapes, StandsFor, parts_of};

use crate::maps::{MapFound, read_map};
use crate::misplaced::{misplaced_sector, reserved_rows};
use crate::owners::owners_of;
use crate::{MountError, Volume};
use fc_device::{Disk, NoMemory};
use fc_holdings::Holdings;
use fc_image::ImageFault;
use fc_record::kinds::kind;
use fc_record::{Front, Kind, KindError};
use fc_space::{Places, Space};
use fc_tree::load;
use std::alloc::Global;

// The kind of the disk's image, and what was read of its map on the way.
fn find_kind<D: Disk>(disk: &mut D, front: &mut Front) -> Result<Kind, MountError>
    requires attached { IsTrue (D.attached disk.old) }
    requires size { D.sector_size disk.old ≡ 256 }
    ensures kind { IfOk result IsKind }
    ensures long { IfOk result (λ kind. disc_size kind ≤ D.image_length disk.old) }
    ensures found { IfOk result (λ kind. ForSome (D.bytes disk.old) (λ image. (kind_of image ≡ Some kind) × (disc_size kind ≤ length image))) }
    ensures fits { IfOk result (λ kind. ForSome (D.bytes disk.old) (λ image. IsTrue (fits_kind image kind))) }
    ensures map { IfOk result (λ kind. ForSome (D.bytes disk.old) (λ image. HasMapOf image kind front.new)) }
    ensures fault { IfErr result (λ e. ForSome (D.bytes disk.old) (λ image. IsFaultOf (open_image image) e)) }
    ensures reads { OnlyReads D.Disk disk.old disk.new }
    ensures few { IfOk result (λ kind. D.read_calls disk.new ≤ D.read_calls disk.old + kind_calls kind) }
    ensures most { ForSome (D.bytes disk.old) (λ image. D.read_calls disk.new ≤ D.read_calls disk.old + front_reads image) }
    ensures cause { result ≡ Err MountError.DiskFault → Rose (D.faults disk.old) (D.faults disk.new) }
{
    fc_record::found_fits();
    match kind(disk, front) {
        Ok(kind) => Ok(kind),
        Err(KindError::NoKind) => Err(MountError::Image(ImageFault::NoKind)),
        Err(KindError::Short { need, have }) => {
            Err(MountError::Image(ImageFault::Short { need, have }))
        }
        Err(KindError::DiskFault) => Err(MountError::DiskFault),
    }
}

// The bytes in a sector of a kind's discs are 2 to this power.
fn log2_sector(kind: &Kind) -> u8
    requires { IsKind kind.now }
    ensures size { 2 ^ result ≡ sector_size kind.now }
    ensures least { 8 ≤ result }
    ensures most { result ≤ 10 }
{
    match kind {
        Kind::Boot(r) => r.log2_sector,
        Kind::OneZone(r) => r.log2_sector,
        Kind::DiscD => 10,
        Kind::DiscL { .. } => 8,
    }
}

// A map with its index.
fn with_index(alloc: Global, space: Space) -> Result<Places, NoMemory>
    ensures { IfOk result (λ places. places ≡ space) }
{
    let mut places = Places::new(space);
    places.index(alloc)?;
    Ok(places)
}

// The volume of a disk whose map was found.
fn volume_of<D: Disk>(
    alloc: Global,
    disk: &mut D,
    kind: &Kind,
    found: MapFound,
    read_only: bool,
) -> Result<Volume, MountError>
    requires attached { IsTrue (D.attached disk.old) }
    requires size { sector_bytes (layout_of found.space) ≡ D.sector_size disk.old }
    requires room { disc_sectors (layout_of found.space) ≤ D.sectors disk.old }
    ensures space { IfOk result (λ v. v.space ≡ found.space) }
    ensures copies { IfOk result (λ v. v.copies ≡ found.copies) }
    ensures parts { IfOk result (λ v. AreMounted kind.now found.root found.root_size (parts_of v) (D.bytes disk.old)) }
    ensures ready { IfOk result (λ v. (v.fit ≡ true) × (v.read_only ≡ read_only)) }
    ensures fault { IfErr result (λ e. ForSome (D.bytes disk.old) (λ image. IsFaultOf (opened_with image kind.now (found_of found)) e)) }
    ensures reads { OnlyReads D.Disk disk.old disk.new }
    ensures few { IfOk result (λ v. D.read_calls disk.new ≤ D.read_calls disk.old + all_directory_sectors (parts_of v).layout (parts_of v).nodes) }
    ensures most { ForSome (D.bytes disk.old) (λ image. D.read_calls disk.new ≤ D.read_calls disk.old + walk_reads image kind.now (found_of found)) }
    ensures cause { result ≡ Err MountError.DiskFault → Rose (D.faults disk.old) (D.faults disk.new) }
{
    fc_image::walking();
    let places = with_index(alloc, found.space)?;
    let space = places.space();
    let rows = reserved_rows(kind, space);
    let tree = load(alloc, disk, &places, found.root, found.root_size, &rows)?;
    let owners = owners_of(alloc, &tree, space)?;
    match misplaced_sector(kind, space, &owners) {
        None => Ok(Volume {
            holdings: Holdings {
                tree,
                places,
                owners,
                copies: found.copies,
            },
            read_only,
            fit: true,
        }),
        Some(sector) => Err(MountError::Image(ImageFault::MapPlace { sector })),
    }
}

impl Volume {
    /// Opens the image of a disk that has sectors of 256 bytes and nothing pending; afterwards the disk has the volume's
    /// sectors. Nothing is written. `Image` exactly if the image isn't accepted, with its first fault; `DiskFault` only if
    /// the disk's count of faults rose. A disc that opens takes at most 10 read calls for its kind, 2 if it has a boot block,
    /// then one for each sector of the map, none if it has one zone or is an old one, and one for each sector of a directory.
    ///
    /// Nothing is read twice, whatever is answered: at most those calls are taken that find the kind, and then, only if the
    /// image is long enough for it, those of the map's copies, and, only if the map has no fault, one for each sector of the
    /// directories that the walk comes to, up to its end or its first fault.
    pub fn mount<D: Disk>(
        alloc: Global,
        disk: &mut D,
        read_only: bool,
    ) -> Result<Volume, MountError>
        requires attached { IsTrue (D.attached disk.old) }
        requires settled { IsFalse (D.pending disk.old) }
        requires size { D.sector_size disk.old ≡ 256 }
        ensures opened { ForSome (D.bytes disk.old) (λ image. IfOk result (λ v. (view : Opened) × (open_image image ≡ Ok view) × ArePartsOf (parts_of v) view)) }
        ensures stands { IfOk result (λ v. StandsFor D.Disk v disk.new) }
        ensures ready { IfOk result (λ v. (v.fit ≡ true) × (v.read_only ≡ read_only)) }
        ensures fault { ForSome (D.bytes disk.old) (λ image. IfErr result (IsFaultOf (open_image image))) }
        ensures shapes { OnlyShapes D.Disk disk.old disk.new }
        ensures few { IfOk result (λ v. (kind : Kind) × ForSome (D.bytes disk.old) (λ image. kind_of image ≡ Some kind)
            × (D.read_calls disk.new ≤ D.read_calls disk.old + (kind_calls kind + map_reads kind (parts_of v).layout v.copies + all_directory_sectors (parts_of v).layout (parts_of v).nodes))) }
        ensures most { ForSome (D.bytes disk.old) (λ image. D.read_calls disk.new ≤ D.read_calls disk.old + open_reads image) }
        ensures cause { result ≡ Err MountError.DiskFault → Rose (D.faults disk.old) (D.faults disk.new) }
    {
        fc_image::opens();
        let mut front = Front::new();
        let kind = find_kind(disk, &mut front)?;
        disk.shape(log2_sector(&kind));
        let found = read_map(alloc, disk, &kind, &front)?;
        volume_of(alloc, disk, &kind, found, read_only)
    }
}
