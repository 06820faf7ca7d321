// How many files and directories a tree has.
ghost use Rattle.std.specs.Prelude.{◌≡◌};
ghost use Rattle.fc_tree.specs.Nodes.{nodes_of};
ghost use Rattle.fc_fit.specs.Counts.{counts_of};
ghost use Rattle.fc_fit.specs.Found.{AllLead};

use crate::found::node_at;
use fc_names::Path;
use fc_tree::Tree;

/// How many files and directories a tree has, the root counted.
#[derive(Clone, Copy)]
pub struct Counts {
    pub files: u64,
    pub dirs: u64,
}

/// The counts of a tree whose objects have these paths.
pub fn counts_of(tree: &Tree, paths: &[Path]) -> Counts
    requires { AllLead (nodes_of tree.now) paths.now }
    ensures { result ≡ counts_of (nodes_of tree.now) paths.now }
{
    let mut counts = Counts { files: 0, dirs: 0 };
    for path in paths {
        if node_at(tree, path).entry.is_directory() {
            counts.dirs += 1;
        } else {
            counts.files += 1;
        }
    }
    counts
}
