// What stands at a path that leads to an object.
ghost use Rattle.std.specs.Prelude.{◌≡◌, ◌<◌, ◌^◌, Some, IsSome, length};
ghost use Rattle.fc_tree.specs.Nodes.{nodes_of};
ghost use Rattle.fc_fit.specs.Found.{entries_in, node_in};

use fc_dirs::Entry;
use fc_names::Path;
use fc_tree::{Body, Found, Node, Tree};

/// The node at a path that leads to one.
pub fn node_at<'a>(tree: &'a Tree, path: &Path) -> &'a Node
    requires { IsSome (node_in (nodes_of tree.now) path.now) }
    ensures { node_in (nodes_of tree.now) path.now ≡ Some result.now }
{
    match tree.find(path) {
        Found::Node(n) => tree.node(n).unwrap(),
        Found::Absent | Found::NotDirectory => unreachable!(),
    }
}

/// The entries of a directory, in stored order. A file has none.
pub fn entries_of(body: &Body) -> &[Entry]
    ensures same { result.now ≡ entries_in body.now }
    ensures few { length result.now < 2 ^ 20 }
{
    match body {
        Body::File => &[],
        Body::Small(dir) => dir.entries(),
        Body::Big(dir) => dir.entries(),
    }
}
