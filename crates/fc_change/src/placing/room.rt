// Whether a directory may grow where it lies, and whether it is alone in its identifier.
ghost use Rattle.std.specs.Prelude.{◌≡◌, ◌<◌, ◌+◌, ◌^◌, true, false, nat_le, Some, IfOk, MatchOption};
ghost use Rattle.fc_image.specs.Layout.{Layout, sectors_at};
ghost use Rattle.fc_objects.specs.Extents.{sectors_in};
ghost use Rattle.fc_space.specs.Space.{layout_of};
ghost use Rattle.fc_change.specs.Shortage.{has_room_by, is_alone_by, leaves_free_for, others_leave_free};

use fc_alloc::{Owner, Owners};
use fc_device::{Extent, NoMemory};
use fc_newmap::{MAP_ID, NewMap};
use fc_placing::has_other;
use fc_space::{PlaceError, Places, low_start};
use std::alloc::Global;

// Whether what an owner has of its identifier ends before a sector of it.
fn ends_by(o: &Owner, first: u64) -> bool
    ensures { result ≡ nat_le (o.now.first + o.now.sectors) first }
{
    o.sectors <= first && o.first <= first - o.sectors
}

// Whether an owner is that of a node, or has none of `need` sectors of an identifier from `first` on.
fn leaves_free(o: &Owner, node: u64, id: u32, first: u64, need: u64) -> bool
    requires few { first + need < 2 ^ 64 }
    ensures { result ≡ leaves_free_for node id first need o.now }
{
    o.node == node || o.id != id || first + need <= o.first || ends_by(o, first) || o.sectors == 0
}

// Whether no owner of another node has any of them. The owners are gone over only if one of another node has the identifier.
fn others_leave_free(owners: &Owners, node: u64, id: u32, first: u64, need: u64) -> bool
    requires few { first + need < 2 ^ 64 }
    ensures { result ≡ others_leave_free owners.now node id first need }
{
    if !has_other(owners, node, id) {
        return true;
    }
    owners
        .list()
        .iter()
        .all(|o| leaves_free(o, node, id, first, need))
}

/// The sectors that the directory of a node takes if it gets so many bytes and stays at its address, or `None` if the
/// identifier hasn't so many, or another object has some of them. The owners are gone over only if another object has the
/// identifier too.
pub fn room_for(
    alloc: Global,
    places: &Places,
    map: &NewMap,
    owners: &Owners,
    dir: u64,
    address: u32,
    len: u32,
) -> Result<Option<Vec<Extent>>, NoMemory>
    requires map { layout_of places.now ≡ Layout.New map.now }
    requires some { 0 < len }
    ensures { IfOk result (λ room. MatchOption room (has_room_by map.now owners.now dir address len ≡ false)
        (λ place. (has_room_by map.now owners.now dir address len ≡ true) × (sectors_at (Layout.New map.now) address len ≡ Some (sectors_in place.items)))) }
{
    let id = address / 256;
    if id == MAP_ID {
        return Ok(None);
    }
    let bytes = u64::from(len);
    let place = match places.place_of(alloc, address, bytes) {
        Ok(place) => place,
        Err(PlaceError::Outside) => return Ok(None),
        Err(PlaceError::NoMemory) => return Err(NoMemory),
    };
    let first = low_start(map, address % 256);
    let need = bytes.div_ceil(u64::from(map.geometry().sector));
    if others_leave_free(owners, dir, id, first, need) {
        Ok(Some(place))
    } else {
        Ok(None)
    }
}

/// Whether the directory of a node is the only owner of its identifier, from the identifier's first sector on.
pub fn is_alone(owners: &Owners, dir: u64, address: u32) -> bool
    ensures { result ≡ is_alone_by owners.now dir address }
{
    let id = address / 256;
    id != 2 && !has_other(owners, dir, id) && address % 256 <= 1
}
