// Whether the words and access bits of an object may be set.
ghost use Rattle.std.specs.Prelude.{◌≡◌, List, ℕ, IfOk};
ghost use Rattle.fc_names.specs.declared.name.NameForm.{NameForm};
ghost use Rattle.fc_model.specs.Answer.{first_of, reasons};
ghost use Rattle.fc_model.specs.Command.{Command};
ghost use Rattle.fc_image.specs.Layout.{Layout};
ghost use Rattle.fc_image.specs.Objects.{tree_of};
ghost use Rattle.fc_image.specs.Sound.{AreSound};
ghost use Rattle.fc_image.specs.Walk.{Listing};
ghost use Rattle.fc_tree.specs.Nodes.{HoldObjects, nodes_of};
ghost use Rattle.fc_refusals.specs.Targets.{IsTarget, refusal_of};

use crate::places::{is_root, number_at, target_in};
use crate::target::Target;
use fc_names::{Path, Refusal};
use fc_tree::Tree;

/// The object that `set` changes, or why it is refused: the path leads to none, it is the root, or nothing may be
/// changed.
pub fn judge_set(tree: &Tree, read_only: bool, path: &Path) -> Result<Target, Refusal>
    ensures refusal { (image : List ℕ) (layout : Layout) (listings : List Listing) (form : NameForm) (load exec access : ℕ)
        → AreSound layout listings → HoldObjects (nodes_of tree.now) listings
        → refusal_of result ≡ first_of (reasons (tree_of image layout listings) form read_only (Command.Set path.now load exec access)) }
    ensures target { IfOk result (λ t. (layout : Layout) (listings : List Listing)
        → AreSound layout listings → HoldObjects (nodes_of tree.now) listings → IsTarget (nodes_of tree.now) listings path.now t) }
{
    let n = number_at(tree, path)?;
    if is_root(path) {
        return Err(Refusal::RootRefused);
    }
    if read_only {
        return Err(Refusal::ReadOnly);
    }
    // The nodes of a walk's objects have their entries, so this error doesn't come.
    target_in(tree, n).ok_or(Refusal::NotFound)
}
