// The nodes of the objects that a directory holds.
ghost use Rattle.std.specs.Prelude.{◌≡◌, ◌++◌, ◌∷◌, [], Err, IfErr, List, ℕ, Ok, OnOk, map};
ghost use Rattle.fc_image.specs.Layout.{disc_sectors};
ghost use Rattle.fc_image.specs.Walk.{Object, children_of, object_of};
ghost use Rattle.fc_space.specs.Space.{layout_of};
ghost use Rattle.fc_tree.specs.declared.node.Body.TheVariants as bodies;
ghost use Rattle.fc_tree.specs.Taken.{AreTaken};
ghost use Rattle.fc_tree.specs.Walking.{FailsAs, HoldsObject, new_node};

use crate::claim::{ClaimError, claim};
use crate::node::{Body, Node, TreeError};
use crate::paths::path_in;
use crate::taken::Taken;
use fc_dirs::Entry;
use fc_image::ImageFault;
use fc_space::Places;
use std::alloc::Global;

/// Adds a node after the others.
pub fn push_node(nodes: &mut Vec<Node>, node: Node) -> Result<(), TreeError>
    ensures ok { OnOk result (nodes.new.items ≡ nodes.old.items ++ node ∷ []) }
    ensures err { IfErr result (λ e. e ≡ TreeError.NoMemory) }
{
    if nodes.push(node).is_err() {
        return Err(TreeError::NoMemory);
    }
    Ok(())
}

// Adds the node of an object that is held by node `at` and says nothing yet.
fn push_child(nodes: &mut Vec<Node>, at: usize, entry: &Entry) -> Result<(), TreeError>
    ensures ok { OnOk result (nodes.new.items ≡ nodes.old.items ++ record { holder = at; entry = entry.now; body = bodies.File } ∷ []) }
    ensures err { IfErr result (λ e. e ≡ TreeError.NoMemory) }
{
    let node = Node {
        holder: at as u64,
        entry: entry.copied()?,
        body: Body::File,
    };
    push_node(nodes, node)
}

// Adds the node of an object that the directory of node `at` holds.
fn add_child(
    alloc: Global,
    places: &Places,
    nodes: &mut Vec<Node>,
    taken: &mut Taken,
    at: usize,
    entry: &Entry,
) -> Result<(), TreeError>
    requires disc { taken.old.sectors ≡ disc_sectors (layout_of places.now) }
    requires held { (dir : Object) × HoldsObject (layout_of places.now) nodes.old.items at dir }
    ensures sectors { taken.new.sectors ≡ taken.old.sectors }
    ensures ok { OnOk result ((dir : Object) (before : List ℕ) → HoldsObject (layout_of places.now) nodes.old.items at dir → AreTaken taken.old before
        → (o : Object) × (object_of (layout_of places.now) before (dir.path ++ entry.now.name ∷ []) entry.now ≡ Ok o)
        × AreTaken taken.new (o.sectors ++ before) × (nodes.new.items ≡ nodes.old.items ++ new_node at o ∷ [])) }
    ensures more { OnOk result ((node : Node) × (nodes.new.items ≡ nodes.old.items ++ node ∷ [])) }
    ensures no_fault { result ≡ Err TreeError.DiskFault → ⊥ }
    ensures err { IfErr result (λ e. (dir : Object) (before : List ℕ) → HoldsObject (layout_of places.now) nodes.old.items at dir → AreTaken taken.old before
        → FailsAs (object_of (layout_of places.now) before (dir.path ++ entry.now.name ∷ []) entry.now) e) }
{
    let unclaimed = match claim(alloc, places, taken, entry) {
        Ok(()) => return push_child(nodes, at, entry),
        Err(unclaimed) => unclaimed,
    };
    let path = path_in(alloc, nodes, at, &entry.name)?;
    match unclaimed {
        ClaimError::Outside => Err(TreeError::Image(ImageFault::Place { path })),
        ClaimError::Overlap => Err(TreeError::Image(ImageFault::Overlap { path })),
        ClaimError::NoMemory => Err(TreeError::NoMemory),
    }
}

/// Adds the nodes of the objects of these entries, which the directory of node `at` has.
pub fn add_children(
    alloc: Global,
    places: &Places,
    nodes: &mut Vec<Node>,
    taken: &mut Taken,
    at: usize,
    entries: &[Entry],
) -> Result<(), TreeError>
    requires disc { taken.old.sectors ≡ disc_sectors (layout_of places.now) }
    requires held { (dir : Object) × HoldsObject (layout_of places.now) nodes.old.items at dir }
    ensures sectors { taken.new.sectors ≡ taken.old.sectors }
    ensures ok { OnOk result ((dir : Object) (before : List ℕ) → HoldsObject (layout_of places.now) nodes.old.items at dir → AreTaken taken.old before
        → (objects : List Object) × (after : List ℕ) × (children_of (layout_of places.now) before dir.path entries.now ≡ Ok (objects, after))
        × AreTaken taken.new after × (nodes.new.items ≡ nodes.old.items ++ map (new_node at) objects)) }
    ensures more { OnOk result ((more : List Node) × (nodes.new.items ≡ nodes.old.items ++ more)) }
    ensures no_fault { result ≡ Err TreeError.DiskFault → ⊥ }
    ensures err { IfErr result (λ e. (dir : Object) (before : List ℕ) → HoldsObject (layout_of places.now) nodes.old.items at dir → AreTaken taken.old before
        → FailsAs (children_of (layout_of places.now) before dir.path entries.now) e) }
{
    for entry in entries {
        add_child(alloc, places, nodes, taken, at, entry)?;
    }
    Ok(())
}
