// Which volumes the safe mode serves.
ghost use Rattle.std.specs.Prelude.{◌≡◌, ℕ, true, false};
ghost use Rattle.fc_image.specs.Opening.{Opened};
ghost use Rattle.fc_image.specs.Sound.{AreSound};
ghost use Rattle.fc_image.specs.safe.SafeShort.{is_suitable};
ghost use Rattle.fc_change.specs.Held.{parts_of};
ghost use Rattle.fc_tree.specs.Nodes.{nodes_of};
ghost use Rattle.fc_tree.specs.Parts.{ArePartsOf};
ghost use Rattle.fc_safe.specs.Suits.{AnswersSuits, is_low_node};

use fc_change::Held;
use fc_newmap::MAP_ID;
use fc_space::Space;
use fc_tree::Tree;

// Whether a node is that of a directory in the map's identifier.
fn is_low_node(tree: &Tree, n: u64) -> bool
    ensures { result ≡ is_low_node (nodes_of tree.now) n }
{
    match tree.node(n) {
        Some(node) => node.entry.is_directory() && node.entry.address / 256 == MAP_ID,
        None => false,
    }
}

// Whether a directory lies in the map's identifier.
fn has_low_directory(tree: &Tree) -> bool
    ensures found { result ≡ true → (n : ℕ) × (is_low_node (nodes_of tree.now) n ≡ true) }
    ensures none { result ≡ false → (n : ℕ) → is_low_node (nodes_of tree.now) n ≡ false }
{
    for n in 0..tree.bound() {
        if is_low_node(tree, n) {
            return true;
        }
    }
    false
}

/// Whether the safe mode serves a volume: one with a new map and big directories, none of which lies in the map's identifier. All nodes are
/// gone over. No memory is taken.
pub fn suits(held: &Held) -> bool
    ensures nodes { AnswersSuits (parts_of held.now) result }
    ensures exactly { (v : Opened) → AreSound v.layout v.listings → ArePartsOf (parts_of held.now) v → result ≡ is_suitable v }
{
    match held.places.space() {
        Space::NewMapped(map) => map.geometry().version != 0 && !has_low_directory(held.tree),
        Space::OldMapped(_) => false,
    }
}
