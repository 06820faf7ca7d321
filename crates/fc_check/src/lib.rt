//! The counts of a disc: its files and directories, and the space that nothing owns.
#![tactic(auto)]

pub mod counts;
mod dirs;
mod space;

ghost use Rattle.std.specs.Prelude.{◌≡◌, ℕ, List};
ghost use Rattle.fc_record.specs.declared.Kind.{Kind};
ghost use Rattle.fc_image.specs.Opening.{Opened};
ghost use Rattle.fc_image.specs.Report.{counts};
ghost use Rattle.fc_image.specs.Stays.{OpensAs};
ghost use Rattle.fc_space.specs.Space.{layout_of};
ghost use Rattle.fc_tree.specs.Nodes.{nodes_of};
ghost use Rattle.fc_tree.specs.Parts.{ArePartsOf};
ghost use Rattle.fc_check.specs.Counted.{counts_in};

use counts::Report;
use dirs::dir_counts;
use fc_alloc::Owners;
use fc_space::Space;
use fc_tree::Tree;
use space::space_counts;

/// The counts that `check` prints, of a volume with these parts: its tree, its map, and the owners of identifiers.
/// No memory is taken.
pub fn report(tree: &Tree, space: &Space, owners: &Owners) -> Report
    ensures { (image : List ℕ) (kind : Kind) (view : Opened) → OpensAs image kind view
        → ArePartsOf (record { layout = layout_of space.now; nodes = nodes_of tree.now; owners = owners.now }) view → counts_in result ≡ counts view }
{
    let nodes = dir_counts(tree);
    let sectors = space_counts(space, owners);
    Report {
        files: nodes.files,
        dirs: nodes.dirs,
        lost: sectors.lost,
        holes: sectors.holes,
        free: sectors.free,
        unsorted: nodes.unsorted,
        parents: nodes.parents,
    }
}
