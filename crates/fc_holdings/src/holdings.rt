// What a volume holds in memory of its disc.

use fc_alloc::Owners;
use fc_space::Places;
use fc_tree::Tree;
use fc_writing::Copies;

/// What a volume holds in memory of its disc: its objects, its map, who owns which identifier, and what is known of the map's copies.
#[derive(Drop)]
pub struct Holdings {
    pub tree: Tree,
    pub places: Places,
    pub owners: Owners,
    pub copies: Copies,
}
