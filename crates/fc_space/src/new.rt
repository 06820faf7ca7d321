// Places on discs with new maps.

ghost use Rattle.std.specs.Prelude.{◌≡◌, ◌<◌, ◌^◌, ◌+◌, ◌-◌, None, Some, IfOk, IsErrOf, take, drop, min, slice_get};
ghost use Rattle.fc_image.specs.Layout.{Layout, first_part, id_sectors, is_object_id, low_start, new_sectors};
ghost use Rattle.fc_newmap.specs.NewMap.{IsNewMap};
ghost use Rattle.fc_objects.specs.Extents.{extent_sectors, sectors_in};
ghost use Rattle.fc_space.specs.Space.{HaveSectors, Suffice};

use crate::PlaceError;
use fc_device::Extent;
use fc_newmap::{MAP_ID, NewMap, RunCursor, extent_of, id_limit};
use std::alloc::Global;

// The part of an extent that stands after `skip` sectors and has at most `need`.
pub fn part_of(extent: Extent, skip: u64, need: u64) -> Extent
    requires { extent.first + extent.sectors < 2 ^ 64 }
    ensures sectors { extent_sectors result ≡ take need (drop skip (extent_sectors extent)) }
    ensures count { result.sectors ≡ min need (extent.sectors - skip) }
{
    let passed = skip.min(extent.sectors);
    Extent {
        first: extent.first + passed,
        sectors: need.min(extent.sectors - passed),
    }
}

/// Whether an object may use this identifier.
pub fn is_object_id(map: &NewMap, id: u32) -> bool
    ensures { result ≡ is_object_id map.now id }
{
    id >= MAP_ID && id < id_limit(map.geometry())
}

/// How many sectors into its identifier an object of this low byte of an indirect address begins.
pub fn low_start(map: &NewMap, low: u32) -> u64
    requires { low < 256 }
    ensures value { result ≡ low_start map.now low }
    ensures few { result < 2 ^ 34 }
    ensures map { IsNewMap map.now }
{
    let g = map.geometry();
    u64::from(low).saturating_sub(1) * (g.share / u64::from(g.sector))
}

// The sectors `skip` to `skip + need` of an identifier, in the order of its runs, unless it has fewer.
fn sectors_of_id(
    alloc: Global,
    map: &NewMap,
    id: u32,
    skip: u64,
    need: u64,
) -> Result<Vec<Extent>, PlaceError>
    ensures place { IfOk result (λ place. first_part need (drop skip (id_sectors map.now id)) ≡ Some (sectors_in place.items)) }
    ensures each { IfOk result (λ place. HaveSectors place.items) }
    ensures outside { IsErrOf result PlaceError.Outside → first_part need (drop skip (id_sectors map.now id)) ≡ None }
{
    let mut skip = skip;
    let mut need = need;
    let mut place = Vec::new(alloc);
    let mut cursor = RunCursor::start(map, id);
    while need > 0 {
        let Some((z, run)) = cursor.next(map) else {
            return Err(PlaceError::Outside);
        };
        let extent = extent_of(map.geometry(), z, run);
        if skip >= extent.sectors {
            skip -= extent.sectors;
            continue;
        }
        let part = part_of(extent, skip, need);
        if place.push(part).is_err() {
            return Err(PlaceError::NoMemory);
        }
        skip = 0;
        need -= part.sectors;
    }
    Ok(place)
}

// The whole sectors of one byte or more at an indirect address.
pub fn new_place(
    alloc: Global,
    map: &NewMap,
    address: u32,
    bytes: u64,
) -> Result<Vec<Extent>, PlaceError>
    ensures place { IfOk result (λ place. new_sectors map.now address bytes ≡ Some (sectors_in place.items)) }
    ensures suffice { IfOk result (λ place. Suffice (Layout.New map.now) bytes (sectors_in place.items)) }
    ensures each { IfOk result (λ place. HaveSectors place.items) }
    ensures outside { IsErrOf result PlaceError.Outside → new_sectors map.now address bytes ≡ None }
{
    let id = address / 256;
    if !is_object_id(map, id) {
        return Err(PlaceError::Outside);
    }
    let skip = low_start(map, address % 256);
    let need = bytes.div_ceil(u64::from(map.geometry().sector));
    sectors_of_id(alloc, map, id, skip, need)
}

/// The sector of a number, from 0, among those of an identifier, in the order of its runs, if it has so many. Takes no
/// memory.
pub fn sector_of_id(map: &NewMap, id: u32, number: u64) -> Option<u64>
    ensures { result ≡ slice_get (id_sectors map.now id) number }
{
    let mut left = number;
    let mut cursor = RunCursor::start(map, id);
    while let Some((z, run)) = cursor.next(map) {
        let extent = extent_of(map.geometry(), z, run);
        if left < extent.sectors {
            return Some(extent.first + left);
        }
        left -= extent.sectors;
    }
    None
}
