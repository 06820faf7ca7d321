// The owner that the object of an entry is.
ghost use Rattle.std.specs.Prelude.{◌≡◌, ◌<◌, OnErr, OnOk};
ghost use Rattle.std.specs.Int.{div_ceil};
ghost use Rattle.fc_alloc.specs.Owners.{has_node};
ghost use Rattle.fc_image.specs.Layout.{dir_form, sector_bytes};
ghost use Rattle.fc_image.specs.Walk.{object_size};
ghost use Rattle.fc_space.specs.Space.{layout_of};
ghost use Rattle.fc_tree.specs.Parts.{first_in};
ghost use Rattle.fc_change.specs.After.{HasPlaceFor};
ghost use Rattle.fc_change.specs.Owned.{IsOwnerNow, entry_owner, owner_if, owners_with_room};

use fc_alloc::{Owner, Owners};
use fc_device::NoMemory;
use fc_dirs::Entry;
use fc_names::NameForm;
use fc_space::Space;

/// The bytes of an object of an entry. Of a small directory they follow from its form.
pub fn object_bytes(space: &Space, e: &Entry) -> u64
    ensures { result ≡ object_size (dir_form (layout_of space.now)) e.now }
{
    if !e.is_directory() {
        return u64::from(e.len);
    }
    match space.dir_form() {
        NameForm::Seven => 1280,
        NameForm::Ten => 2048,
        NameForm::Long => u64::from(e.len),
    }
}

// How many sectors into its identifier an object of this low byte begins.
fn first_in(space: &Space, low: u32) -> u64
    requires { low < 256 }
    ensures { result ≡ first_in (layout_of space.now) low }
{
    match space {
        Space::OldMapped(_) => 0,
        Space::NewMapped(map) => {
            let g = map.geometry();
            u64::from(low).saturating_sub(1) * (g.share / u64::from(g.sector))
        }
    }
}

// The whole sectors that so many bytes take.
fn sectors_for(space: &Space, bytes: u64) -> u64
    ensures { result ≡ div_ceil bytes (sector_bytes (layout_of space.now)) }
{
    match space {
        Space::OldMapped(map) => bytes.div_ceil(256 * u64::from(map.sector_units())),
        Space::NewMapped(map) => bytes.div_ceil(u64::from(map.geometry().sector)),
    }
}

/// The owner that a node of this number is, by the number of its holder's node and by its entry.
pub fn entry_owner(space: &Space, n: u64, holder: u64, e: &Entry) -> Owner
    ensures { result ≡ entry_owner (layout_of space.now) n holder e.now }
{
    Owner {
        id: e.address / 256,
        dir: holder,
        node: n,
        file: !e.is_directory(),
        low: (e.address % 256) as u8,
        first: first_in(space, e.address % 256),
        sectors: sectors_for(space, object_bytes(space, e)),
    }
}

/// The same, if it has sectors.
pub fn owner_if(space: &Space, n: u64, holder: u64, e: &Entry) -> Option<Owner>
    ensures { result ≡ owner_if (layout_of space.now) n holder e.now }
{
    let owner = entry_owner(space, n, holder, e);
    if owner.sectors == 0 {
        return None;
    }
    Some(owner)
}

// Whether a node has an owner.
fn has_owner(owners: &Owners, node: u64) -> bool
    ensures { result ≡ has_node owners.now node }
{
    owners.of(node).is_some()
}

/// Takes the memory for an owner, if there is one: it is added, unless its node has one already. After `NoMemory` the owners
/// are as before.
pub fn make_room(owners: &mut Owners, owner: Option<Owner>) -> Result<(), NoMemory>
    ensures ok { OnOk result (owners.new ≡ owners_with_room owner owners.old) }
    ensures err { OnErr result (owners.new ≡ owners.old) }
{
    let Some(owner) = owner else {
        return Ok(());
    };
    if has_owner(owners, owner.node) {
        return Ok(());
    }
    owners.add(owner)
}

/// The node's owner becomes this, or goes if there is none. It never runs out of memory.
pub fn set_owner(owners: &mut Owners, node: u64, owner: Option<Owner>)
    requires { HasPlaceFor owner owners.old }
    ensures { IsOwnerNow node owner owners.old owners.new }
{
    match owner {
        Some(owner) => owners.change(owner),
        None => owners.remove(node),
    }
}
