// Which identifier goes back if an object goes.

ghost use Rattle.std.specs.Prelude.{◌≡◌, None, false, if◌then◌else◌};
ghost use Rattle.std.specs.Option.{option_map_or, option_to_list};
ghost use Rattle.std.specs.List.{find};
ghost use Rattle.fc_alloc.specs.Owners.{is_node, owns};
ghost use Rattle.fc_placing.specs.Leaving.{LeavesIds, LeavesUsed, has_other, is_kept, left_among};

use fc_alloc::Owners;
use fc_newmap::MAP_ID;

// Whether an identifier is the one that is kept.
fn is_kept(kept: Option<u32>, id: u32) -> bool
    ensures { result ≡ is_kept kept id }
{
    match kept {
        Some(other) => other == id,
        None => false,
    }
}

// How many owners a node has with an identifier, at most one.
fn own_count(owners: &Owners, node: u64, id: u32) -> usize
    ensures { result ≡ (if option_map_or (owns id) (find (is_node node) owners.now) false then 1 else 0) }
{
    match owners.of(node) {
        Some(own) if own.id == id => 1,
        _ => 0,
    }
}

/// Whether an owner of another node has an identifier.
pub fn has_other(owners: &Owners, node: u64, id: u32) -> bool
    ensures { result ≡ has_other owners.now node id }
{
    // Contracts see by this that no two owners are of one node.
    let _ = owners.list();
    owners.count(id) > own_count(owners, node, id)
}

// The identifier of a node's object, unless it is the map's, or the one that is kept, or another owner has it.
fn left_among(owners: &Owners, node: u64, kept: Option<u32>) -> Option<u32>
    ensures { result ≡ left_among owners.now node kept }
{
    let own = owners.of(node)?;
    let id = own.id;
    if id == MAP_ID || is_kept(kept, id) || has_other(owners, node, id) {
        return None;
    }
    Some(id)
}

/// The same if an object comes in the place of the one that goes: `shared` is the identifier of others that it shares, if
/// it does.
pub fn left_by_replaced(owners: &Owners, node: u64, shared: Option<u32>) -> Option<u32>
    ensures exactly { LeavesIds owners.now node shared (option_to_list result) }
    ensures used { LeavesUsed owners.now (option_to_list result) }
{
    left_among(owners, node, shared)
}
