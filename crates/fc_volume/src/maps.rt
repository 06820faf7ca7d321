// The map of a disk, and where its root is.
ghost use Rattle.std.specs.Prelude.{◌≡◌, ◌≤◌, ◌<◌, ◌+◌, ◌*◌, ◌/◌, ◌⊎◌, ◌&&◌, ◌==◌, ℕ, List, Ok, Err, Some, None, length, take, slice_index, IsTrue, IfOk, IfErr, MatchResult};
ghost use Rattle.std.specs.Option.{ForSome};
ghost use Rattle.fc_device.specs.Faults.{Rose};
ghost use Rattle.fc_record.specs.Record.{IsRecord, geometry};
ghost use Rattle.fc_device.specs.Calls.{OnlyReads};
ghost use Rattle.fc_record.specs.declared.DiscRecord.{DiscRecord};
ghost use Rattle.fc_record.specs.Front.{HasMapOf};
ghost use Rattle.fc_oldmap.specs.Holes.{AreHoles};
ghost use Rattle.fc_oldmap.specs.OldMap.{free_space, hole_fault, map_units};
ghost use Rattle.fc_record.specs.Kinds.{IsKind, disc_size, fits_kind, is_old_map, map_record, old_units, sector_size};
ghost use Rattle.fc_newmap.specs.Map.{zones_in};
ghost use Rattle.fc_newmap.specs.NewMap.{IsOfRecord};
ghost use Rattle.fc_newmap.specs.Copies.{chosen, copy_of, is_check_right};
ghost use Rattle.fc_newmap.specs.NewMap.{map_in as held_map};
ghost use Rattle.fc_image.specs.Layout.{Layout, disc_sectors, sector_bytes};
ghost use Rattle.fc_image.specs.Opening.{agreement, byte_compared, copy_or, difference, map_and_root, new_layout, old_layout};
ghost use Rattle.fc_space.specs.Space.{layout_of};
ghost use Rattle.fc_volume.specs.Answers.{IsFaultOf};
ghost use Rattle.fc_volume.specs.Calls.{chosen_reads, copies_reads, copy_reads, layout_reads, map_reads};
ghost use Rattle.fc_volume.specs.Maps.{Finds, FitsDisk, HasOldMap, found_of, zone_fault, zones_layout};
ghost use Rattle.fc_holdings.specs.Holdings.{CopiesAre, HoldsMap, TellsVersion};

use crate::{Copies, MountError};
use fc_bytes::zone_check;
use fc_device::{Disk, DiskFault, NoMemory};
use fc_image::ImageFault;
use fc_newmap::{CopyError, MapError, NewMap, Which, fetch};
use fc_oldmap::{OldMap, OldMapFault};
use fc_record::measures::geometry;
use fc_record::{
    DiscRecord, Front, Geometry, Kind, is_root_right, is_root_size_right, parse_record,
};
use fc_space::Space;
use std::alloc::Global;

/// A map, what is known of its copies, the root's address, and the size in bytes of a big root.
#[derive(Drop)]
pub struct MapFound {
    pub space: Space,
    pub copies: Copies,
    pub root: u32,
    pub root_size: u32,
}

/// The copy of a map that counts: which it is, and its bytes.
#[derive(Drop)]
struct CopyRead {
    which: Which,
    zones: Vec<u8>,
}

/// The bytes in which a map's record and the kind's have to agree.
const COMPARED: [u8; 20] = [
    0, 4, 5, 9, 10, 11, 16, 17, 18, 19, 36, 37, 38, 39, 40, 42, 44, 45, 46, 47,
];

// A byte of a record as it is compared. Of byte 40 the low four bits count.
fn byte_compared(r: &DiscRecord, at: u8) -> u8
    requires { at < 60 }
    ensures { result ≡ byte_compared r.now at }
{
    let byte = r.raw[usize::from(at)];
    if at == 40 { byte % 16 } else { byte }
}

// The first byte in which two records differ.
fn difference(r: &DiscRecord, s: &DiscRecord) -> Option<u8>
    ensures { result ≡ difference r.now s.now }
{
    for at in COMPARED {
        if byte_compared(r, at) != byte_compared(s, at) {
            return Some(at);
        }
    }
    None
}

// The record in a map's first sector, if it agrees with the kind's and has a right root.
fn own_record(r: &DiscRecord, sector: &[u8]) -> Result<DiscRecord, ImageFault>
    requires { 64 ≤ length sector.now }
    ensures { result ≡ agreement r.now (map_record sector.now) (difference r.now (map_record sector.now)) }
{
    let own = parse_record(&sector[4..64]);
    if let Some(offset) = difference(r, &own) {
        return Err(ImageFault::Differs { offset });
    }
    if !is_root_right(&own) {
        return Err(ImageFault::Bad { offset: 12 });
    }
    if !is_root_size_right(&own) {
        return Err(ImageFault::Bad { offset: 48 });
    }
    Ok(own)
}

// A zone's fault as the image's.
fn zone_fault(fault: MapError) -> ImageFault
    ensures { result ≡ zone_fault fault }
{
    let MapError::Zone(fault) = fault;
    ImageFault::Zone {
        zone: fault.zone,
        bit: fault.bit,
    }
}

// The map in the copy that counts.
fn map_in(copy: CopyRead, r: &DiscRecord) -> Result<MapFound, ImageFault>
    requires record { IsRecord r.now }
    requires whole { length copy.zones.items ≡ (geometry r.now).zones * (geometry r.now).sector }
    ensures found { Finds (zones_layout r.now (zones_in (geometry r.now) copy.zones.items)) result }
    ensures map { IfOk result (λ found. layout_of found.space ≡ Layout.New (held_map (geometry r.now) copy.zones.items)) }
    ensures copies { IfOk result (λ found. found.copies ≡ Copies.Chosen copy.which) }
    ensures version { IfOk result (λ found. TellsVersion (layout_of found.space)) }
    ensures geometry { IfOk result (λ found. (sector_bytes (layout_of found.space) ≡ (geometry r.now).sector) × (disc_sectors (layout_of found.space) ≡ (geometry r.now).disc_bits * (geometry r.now).bit_bytes / (geometry r.now).sector)) }
{
    let g = geometry(r);
    let CopyRead { which, zones } = copy;
    let own = own_record(r, &zones[..g.sector as usize])?;
    match NewMap::load(zones, g) {
        Ok(map) => Ok(MapFound {
            space: Space::NewMapped(map),
            copies: Copies::Chosen(which),
            root: own.root,
            root_size: own.root_size,
        }),
        Err(fault) => Err(zone_fault(fault)),
    }
}

// The copy that counts.
fn read_copy<D: Disk>(alloc: Global, disk: &mut D, g: &Geometry) -> Result<CopyRead, MountError>
    requires attached { IsTrue (D.attached disk.old) }
    requires geometry { IsOfRecord g.now }
    requires size { D.sector_size disk.old ≡ g.now.sector }
    requires on_disk { g.now.map_sector + 2 * g.now.zones ≤ D.sectors disk.old }
    ensures whole { IfOk result (λ copy. length copy.zones.items ≡ g.now.zones * g.now.sector) }
    ensures copy { IfOk result (λ copy. ForSome (D.bytes disk.old) (λ image. (chosen g.now image ≡ Ok copy.which) × (zones_in g.now copy.zones.items ≡ copy_of g.now copy.which image))) }
    ensures fault { IfErr result (λ e. ForSome (D.bytes disk.old) (λ image. IsFaultOf (copy_or (chosen g.now image)) e)) }
    ensures reads { OnlyReads D.Disk disk.old disk.new }
    ensures few { IfOk result (λ copy. D.read_calls disk.new ≤ D.read_calls disk.old + copy_reads copy.which g.now.zones) }
    ensures most { ForSome (D.bytes disk.old) (λ image. D.read_calls disk.new ≤ D.read_calls disk.old + chosen_reads (chosen g.now image) g.now.zones) }
    ensures cause { result ≡ Err MountError.DiskFault → Rose (D.faults disk.old) (D.faults disk.new) }
{
    let Ok(mut zones) = vec![in alloc; 0u8; usize::from(g.zones) * g.sector as usize] else {
        return Err(MountError::NoMemory);
    };
    match fetch(disk, g, &mut zones) {
        Ok(which) => Ok(CopyRead { which, zones }),
        Err(CopyError::BothBad { c1, c2 }) => {
            Err(MountError::Image(ImageFault::Copies { c1, c2 }))
        }
        Err(CopyError::DiskFault) => Err(MountError::DiskFault),
    }
}

// The map of a disc with a new map, whose kind has this record.
fn read_new<D: Disk>(alloc: Global, disk: &mut D, r: &DiscRecord) -> Result<MapFound, MountError>
    requires attached { IsTrue (D.attached disk.old) }
    requires record { IsRecord r.now }
    requires size { D.sector_size disk.old ≡ (geometry r.now).sector }
    requires long { r.now.size ≤ D.image_length disk.old }
    ensures found { IfOk result (λ found. ForSome (D.bytes disk.old) (λ image. new_layout image r.now ≡ Ok (found_of found))) }
    ensures stands { IfOk result (λ found. FitsDisk D.Disk found disk.old) }
    ensures fault { IfErr result (λ e. ForSome (D.bytes disk.old) (λ image. IsFaultOf (new_layout image r.now) e)) }
    ensures reads { OnlyReads D.Disk disk.old disk.new }
    ensures few { IfOk result (λ found. D.read_calls disk.new ≤ D.read_calls disk.old + layout_reads (layout_of found.space) found.copies) }
    ensures most { ForSome (D.bytes disk.old) (λ image. D.read_calls disk.new ≤ D.read_calls disk.old + chosen_reads (chosen (geometry r.now) image) (geometry r.now).zones) }
    ensures cause { result ≡ Err MountError.DiskFault → Rose (D.faults disk.old) (D.faults disk.new) }
{
    let g = geometry(r);
    let copy = read_copy(alloc, disk, &g)?;
    Ok(map_in(copy, r)?)
}

// Whether a sector is a sound copy of a map of one zone.
fn is_sound(sector: &[u8; 1024]) -> bool
    ensures { result ≡ (is_check_right sector.now && (slice_index sector.now 3 == 255)) }
{
    sector[0] == zone_check(sector) && sector[3] == 255
}

// A sector as the copy of a map of one zone.
fn copied(alloc: Global, which: Which, sector: &[u8; 1024]) -> Result<CopyRead, NoMemory>
    ensures which { IfOk result (λ copy. copy.which ≡ which) }
    ensures zones { IfOk result (λ copy. copy.zones.items ≡ sector.now) }
    ensures whole { IfOk result (λ copy. length copy.zones.items ≡ 1024) }
{
    let zones = sector.to_vec(alloc)?;
    Ok(CopyRead { which, zones })
}

// The copy of a map of one zone that counts, from what was read to find its kind.
fn held_copy(alloc: Global, front: &Front) -> Result<CopyRead, NoMemory>
    ensures whole { IfOk result (λ copy. length copy.zones.items ≡ 1024) }
    ensures copy { IfOk result (λ copy. (r : DiscRecord) (image : List ℕ) → IsKind (Kind.OneZone r) → HasMapOf image (Kind.OneZone r) front.now
        → (chosen (geometry r) image ≡ Ok copy.which) × (zones_in (geometry r) copy.zones.items ≡ copy_of (geometry r) copy.which image)) }
{
    if is_sound(&front.first) {
        return copied(alloc, Which::One, &front.first);
    }
    copied(alloc, Which::Two, &front.second)
}

// The map of a disc of one zone, from what was read to find its kind: no sector is read again.
fn map_of_one(alloc: Global, r: &DiscRecord, front: &Front) -> Result<MapFound, MountError>
    requires { IsKind (Kind.OneZone r.now) }
    ensures found { IfOk result (λ found. (image : List ℕ) → HasMapOf image (Kind.OneZone r.now) front.now → new_layout image r.now ≡ Ok (found_of found)) }
    ensures copies { IfOk result (λ found. (image : List ℕ) → HasMapOf image (Kind.OneZone r.now) front.now → CopiesAre found.copies (layout_of found.space) image) }
    ensures version { IfOk result (λ found. TellsVersion (layout_of found.space)) }
    ensures size { IfOk result (λ found. sector_bytes (layout_of found.space) ≡ (geometry r.now).sector) }
    ensures room { IfOk result (λ found. disc_sectors (layout_of found.space) ≡ (geometry r.now).disc_bits * (geometry r.now).bit_bytes / (geometry r.now).sector) }
    ensures map_room { IfOk result (λ found. (sectors : ℕ) → (geometry r.now).map_sector + 2 * (geometry r.now).zones ≤ sectors → HoldsMap (layout_of found.space) sectors) }
    ensures fault { IfErr result (λ e. (image : List ℕ) → HasMapOf image (Kind.OneZone r.now) front.now → IsFaultOf (new_layout image r.now) e) }
    ensures no_fault { result ≡ Err MountError.DiskFault → ⊥ }
{
    let copy = held_copy(alloc, front)?;
    Ok(map_in(copy, r)?)
}

// The old map at the front of a disc of so many units. Its checks, and its units, gave the kind.
fn old_map_in(front: &[u8], units: u32, sector_units: u32) -> Result<OldMap, ImageFault>
    requires size { length front.now ≡ 1024 }
    requires units { (sector_units ≡ 1) ⊎ (sector_units ≡ 4) }
    ensures map { IfOk result (λ map. (map ≡ free_space (take 512 front.now) sector_units) × (map.disc_units ≡ units)) }
    ensures behind { IfOk result (λ map. AreHoles map.disc_units map.sector_units (map_units map.sector_units) map.holes) }
    ensures holes { IsTrue (is_old_map (take 512 front.now) && (old_units (take 512 front.now) == units)) → MatchResult result (λ _. hole_fault (take 512 front.now) sector_units ≡ None) (λ fault. (index : ℕ) × (hole_fault (take 512 front.now) sector_units ≡ Some index) × (fault ≡ ImageFault.Hole index)) }
{
    match OldMap::read(&front[..512], sector_units) {
        Ok(map) => {
            if map.disc_units() == units {
                Ok(map)
            } else {
                Err(ImageFault::NoKind)
            }
        }
        Err(OldMapFault::Check { .. }) => Err(ImageFault::NoKind),
        Err(OldMapFault::Bad { index }) => Err(ImageFault::Hole { index }),
    }
}

// The map of a disc with an old map, of so many units, whose root is at a fixed address, from what was read to find its
// kind: no sector is read again.
fn map_of_old(
    front: &Front,
    units: u32,
    sector_units: u32,
    root: u32,
) -> Result<MapFound, MountError>
    requires { (sector_units ≡ 1) ⊎ (sector_units ≡ 4) }
    ensures found { IfOk result (λ found. (image : List ℕ) → HasOldMap image units front.now.first → old_layout image sector_units root ≡ Ok (found_of found)) }
    ensures copies { IfOk result (λ found. (image : List ℕ) → CopiesAre found.copies (layout_of found.space) image) }
    ensures version { IfOk result (λ found. TellsVersion (layout_of found.space)) }
    ensures size { IfOk result (λ found. sector_bytes (layout_of found.space) ≡ 256 * sector_units) }
    ensures room { IfOk result (λ found. disc_sectors (layout_of found.space) ≡ units / sector_units) }
    ensures map_room { IfOk result (λ found. (sectors : ℕ) → 2 ≤ sectors → HoldsMap (layout_of found.space) sectors) }
    ensures fault { IfErr result (λ e. (image : List ℕ) → HasOldMap image units front.now.first → IsFaultOf (old_layout image sector_units root) e) }
    ensures no_fault { result ≡ Err MountError.DiskFault → ⊥ }
{
    let map = old_map_in(&front.first, units, sector_units)?;
    Ok(MapFound {
        space: Space::OldMapped(map),
        copies: Copies::Equal,
        root,
        root_size: 0,
    })
}

/// The map of a disk and where its root is, as a disc of a kind whose test the image passes. The disk is attached, has
/// the kind's sectors and is as long as the disc; `front` has what was read of a map of one zone, or of an old map, to find
/// the kind, so that none of it is read again. Of other maps each sector of a copy is read once, and copy 2 only if copy 1
/// isn't sound, whatever is answered.
///
/// The answer is `Image` exactly if the copies of a new map, its record or its zones are wrong, or a hole of an
/// old map, with the first fault; and `DiskFault` only if the disk's count of faults rose.
pub fn read_map<D: Disk>(
    alloc: Global,
    disk: &mut D,
    kind: &Kind,
    front: &Front,
) -> Result<MapFound, MountError>
    requires attached { IsTrue (D.attached disk.old) }
    requires kind { IsKind kind.now }
    requires size { D.sector_size disk.old ≡ sector_size kind.now }
    requires long { disc_size kind.now ≤ D.image_length disk.old }
    requires fits { ForSome (D.bytes disk.old) (λ image. IsTrue (fits_kind image kind.now)) }
    requires held { ForSome (D.bytes disk.old) (λ image. HasMapOf image kind.now front.now) }
    ensures found { IfOk result (λ found. ForSome (D.bytes disk.old) (λ image. map_and_root image kind.now ≡ Ok (found_of found))) }
    ensures stands { IfOk result (λ found. FitsDisk D.Disk found disk.old) }
    ensures fault { IfErr result (λ e. ForSome (D.bytes disk.old) (λ image. IsFaultOf (map_and_root image kind.now) e)) }
    ensures reads { OnlyReads D.Disk disk.old disk.new }
    ensures few { IfOk result (λ found. D.read_calls disk.new ≤ D.read_calls disk.old + map_reads kind.now (layout_of found.space) found.copies) }
    ensures most { ForSome (D.bytes disk.old) (λ image. D.read_calls disk.new ≤ D.read_calls disk.old + copies_reads image kind.now) }
    ensures cause { result ≡ Err MountError.DiskFault → Rose (D.faults disk.old) (D.faults disk.new) }
{
    match kind {
        Kind::Boot(r) => read_new(alloc, disk, r),
        Kind::OneZone(r) => map_of_one(alloc, r, front),
        Kind::DiscD => map_of_old(front, 3200, 4, 4),
        Kind::DiscL { units } => map_of_old(front, *units, 1, 2),
    }
}
