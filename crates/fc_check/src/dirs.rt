// The files and directories of a disc, and what is wrong with its directories.

ghost use Rattle.std.specs.Prelude.{◌≡◌, ◌+◌, ◌<◌, ◌^◌};
ghost use Rattle.fc_dirs.specs.Entries.{is_sorted_by_name};
ghost use Rattle.fc_tree.specs.Nodes.{bound_of, nodes_of};
ghost use Rattle.fc_tree.specs.Counts.{address_in, is_directory_said, is_file_said, is_unsorted_said, is_wrong_parent_said, tally};
ghost use Rattle.fc_check.specs.Dirs.{with_dir, with_said};

use fc_dirs::Entry;
use fc_names::fold_less;
use fc_tree::{Body, Node, Tree};

/// What the nodes of a tree come to.
#[derive(Clone, Copy)]
pub struct DirCounts {
    pub files: u64,
    /// The root counts.
    pub dirs: u64,
    /// Directories whose folded names don't rise.
    pub unsorted: u64,
    /// Directories whose parent field isn't their parent's address.
    pub parents: u64,
}

/// Whether the folded names of entries rise.
pub fn is_sorted(entries: &[Entry]) -> bool
    ensures { result ≡ is_sorted_by_name entries.now }
{
    entries.is_sorted_by(|e, f| fold_less(&e.name, &f.name))
}

// The address of the node of a number.
fn address_of(tree: &Tree, n: u64) -> u32
    ensures { result ≡ address_in (nodes_of tree.now) n }
{
    match tree.node(n) {
        Some(node) => node.entry.address,
        None => 0,
    }
}

// The counts with those of a directory more.
fn with_dir(counts: DirCounts, entries: &[Entry], is_parent_right: bool) -> DirCounts
    requires dirs { counts.dirs + 1 < 2 ^ 64 }
    requires unsorted { counts.unsorted + 1 < 2 ^ 64 }
    requires parents { counts.parents + 1 < 2 ^ 64 }
    ensures { result ≡ with_dir counts entries.now is_parent_right }
{
    DirCounts {
        dirs: counts.dirs + 1,
        unsorted: counts.unsorted + u64::from(!is_sorted(entries)),
        parents: counts.parents + u64::from(!is_parent_right),
        ..counts
    }
}

// The counts with those of a node more.
fn with_node(counts: DirCounts, tree: &Tree, node: &Node) -> DirCounts
    requires files { counts.files + 1 < 2 ^ 64 }
    requires dirs { counts.dirs + 1 < 2 ^ 64 }
    requires unsorted { counts.unsorted + 1 < 2 ^ 64 }
    requires parents { counts.parents + 1 < 2 ^ 64 }
    ensures { result ≡ with_said counts (node.now.entry, node.now.body, address_in (nodes_of tree.now) node.now.holder) }
{
    let address = address_of(tree, node.holder);
    match &node.body {
        Body::File => DirCounts {
            files: counts.files + 1,
            ..counts
        },
        Body::Small(dir) => with_dir(counts, dir.entries(), dir.parent() == address),
        Body::Big(dir) => with_dir(counts, dir.entries(), dir.parent() == address),
    }
}

/// The files and directories of a tree.
pub fn dir_counts(tree: &Tree) -> DirCounts
    ensures files { result.files ≡ tally (nodes_of tree.now) is_file_said (bound_of tree.now) }
    ensures dirs { result.dirs ≡ tally (nodes_of tree.now) is_directory_said (bound_of tree.now) }
    ensures unsorted { result.unsorted ≡ tally (nodes_of tree.now) is_unsorted_said (bound_of tree.now) }
    ensures parents { result.parents ≡ tally (nodes_of tree.now) is_wrong_parent_said (bound_of tree.now) }
{
    let mut counts = DirCounts {
        files: 0,
        dirs: 0,
        unsorted: 0,
        parents: 0,
    };
    for n in 0..tree.bound() {
        if let Some(node) = tree.node(n) {
            counts = with_node(counts, tree, node);
        }
    }
    counts
}
