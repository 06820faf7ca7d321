// Places on discs with old maps.

ghost use Rattle.std.specs.Prelude.{◌≡◌, ◌<◌, None, Some, IfOk, IsErrOf};
ghost use Rattle.fc_image.specs.Layout.{Layout, old_sectors};
ghost use Rattle.fc_objects.specs.Extents.{sectors_in};
ghost use Rattle.fc_space.specs.Space.{HaveSectors, Suffice};

use crate::PlaceError;
use fc_device::Extent;
use fc_oldmap::OldMap;
use std::alloc::Global;

// The whole sectors of one byte or more from an address on, unless they pass the disc's end.
pub fn old_place(
    alloc: Global,
    map: &OldMap,
    address: u32,
    bytes: u64,
) -> Result<Vec<Extent>, PlaceError>
    requires { 0 < bytes }
    ensures place { IfOk result (λ place. old_sectors map.now address bytes ≡ Some (sectors_in place.items)) }
    ensures suffice { IfOk result (λ place. Suffice (Layout.Old map.now) bytes (sectors_in place.items)) }
    ensures each { IfOk result (λ place. HaveSectors place.items) }
    ensures outside { IsErrOf result PlaceError.Outside → old_sectors map.now address bytes ≡ None }
{
    let units = map.sector_units();
    let first = u64::from(address / units);
    let sectors = bytes.div_ceil(256 * u64::from(units));
    if address % units != 0 || first + sectors > u64::from(map.disc_units() / units) {
        return Err(PlaceError::Outside);
    }
    Ok(vec![in alloc; Extent { first, sectors }; 1]?)
}
