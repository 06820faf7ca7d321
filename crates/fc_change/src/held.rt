// What commands read of a volume.

use fc_alloc::Owners;
use fc_space::Places;
use fc_tree::Tree;

/// What a command reads of a volume: its objects, its map, and who owns which identifier.
#[derive(Clone, Copy)]
pub struct Held<'a> {
    pub tree: &'a Tree,
    pub places: &'a Places,
    pub owners: &'a Owners,
}
