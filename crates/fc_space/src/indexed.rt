// Places on discs with new maps, by an index.

ghost use Rattle.std.specs.Prelude.{◌≡◌, None, Some, IfOk, IsErrOf, All, drop};
ghost use Rattle.fc_image.specs.Layout.{Layout, first_part, new_sectors};
ghost use Rattle.fc_objects.specs.Extents.{sectors_in};
ghost use Rattle.fc_space.specs.Index.{IsIndex, IsLow, places_in};
ghost use Rattle.fc_space.specs.Space.{HaveSectors, Suffice};

use crate::PlaceError;
use crate::index::{IdRow, rows_of};
use crate::new::{is_object_id, low_start, part_of};
use fc_device::Extent;
use fc_newmap::NewMap;
use std::alloc::Global;

// The sectors `skip` to `skip + need` of some rows, unless these have fewer.
fn sectors_of_rows(
    alloc: Global,
    rows: &[IdRow],
    skip: u64,
    need: u64,
) -> Result<Vec<Extent>, PlaceError>
    requires { All IsLow rows.now }
    ensures place { IfOk result (λ place. first_part need (drop skip (sectors_in (places_in rows.now))) ≡ Some (sectors_in place.items)) }
    ensures each { IfOk result (λ place. HaveSectors place.items) }
    ensures outside { IsErrOf result PlaceError.Outside → first_part need (drop skip (sectors_in (places_in rows.now))) ≡ None }
{
    let mut before = skip;
    let mut left = need;
    let mut place = Vec::new(alloc);
    for row in rows {
        if left == 0 {
            return Ok(place);
        }
        let part = part_of(row.place, before, left);
        before = before.saturating_sub(row.place.sectors);
        left -= part.sectors;
        if part.sectors > 0 && place.push(part).is_err() {
            return Err(PlaceError::NoMemory);
        }
    }
    if left > 0 {
        return Err(PlaceError::Outside);
    }
    Ok(place)
}

// The whole sectors of one byte or more at an indirect address, by an index.
pub fn indexed_place(
    alloc: Global,
    map: &NewMap,
    rows: &[IdRow],
    address: u32,
    bytes: u64,
) -> Result<Vec<Extent>, PlaceError>
    requires { IsIndex map.now rows.now }
    ensures place { IfOk result (λ place. new_sectors map.now address bytes ≡ Some (sectors_in place.items)) }
    ensures suffice { IfOk result (λ place. Suffice (Layout.New map.now) bytes (sectors_in place.items)) }
    ensures each { IfOk result (λ place. HaveSectors place.items) }
    ensures outside { IsErrOf result PlaceError.Outside → new_sectors map.now address bytes ≡ None }
{
    let id = address / 256;
    if !is_object_id(map, id) {
        return Err(PlaceError::Outside);
    }
    let skip = low_start(map, address % 256);
    let need = bytes.div_ceil(u64::from(map.geometry().sector));
    sectors_of_rows(alloc, rows_of(rows, id), skip, need)
}
