//! The walk over the directories of a disc, and its objects as a tree of numbered nodes; when a volume, or the parts of
//! one, stand for a disk.
#![tactic(auto)]

mod claim;
mod contents;
mod directory;
mod index;
mod loading;
mod node;
mod paths;
mod reading;
mod slots;
mod table;
mod taken;
mod tree;
mod vacancy;
mod walk;

ghost use Rattle.fc_tree.specs.Agree.{NodesLaw};
ghost use Rattle.fc_tree.specs.Counts.{CountsLaw, HolderLaw, TallyLaw};
ghost use Rattle.fc_tree.specs.Laws.{ChildrenLaw, EntriesLaw, FindLaw, NodeLaw, NumbersLaw, SoundLaw};

pub use loading::load;
pub use node::{Body, Found, Node, TreeError};
pub use tree::Tree;

/// The nodes of a tree tell what the listings say from which they were made.
pub fn nodes_tell()
    ensures { NodesLaw }
{}

/// The listings of an opened image are sound.
pub fn opened()
    ensures { SoundLaw }
{}

/// Nodes numbered in the order of a walk's objects hold them.
pub fn numbered()
    ensures { NumbersLaw }
{}

/// Nodes that hold the objects of a walk can be counted in place of them.
pub fn counted()
    ensures { CountsLaw }
{}

/// Numbered nodes that hold the objects of a walk have its counts.
pub fn tallied()
    ensures { TallyLaw }
{}

/// A directory's node says what the directory says, and the node above it has its holder's address.
pub fn holders()
    ensures { HolderLaw }
{}

/// Paths lead among nodes as in the tree of the image that they stand for.
pub fn finds()
    ensures { FindLaw }
{}

/// The tree of an image has the node of each object at its path.
pub fn object_nodes()
    ensures { NodeLaw }
{}

/// The objects of a directory have its entries, in stored order.
pub fn stored_entries()
    ensures { EntriesLaw }
{}

/// What a directory holds, in the order of folded names, is what the tree lists there.
pub fn children()
    ensures { ChildrenLaw }
{}
