// Whether an object may be deleted.
ghost use Rattle.std.specs.Prelude.{◌≡◌, List, ℕ, IfOk};
ghost use Rattle.fc_names.specs.declared.name.NameForm.{NameForm};
ghost use Rattle.fc_model.specs.Answer.{first_of, reasons};
ghost use Rattle.fc_model.specs.Command.{Command};
ghost use Rattle.fc_image.specs.Layout.{Layout};
ghost use Rattle.fc_image.specs.Objects.{tree_of};
ghost use Rattle.fc_image.specs.Sound.{AreSound};
ghost use Rattle.fc_image.specs.Walk.{Listing};
ghost use Rattle.fc_tree.specs.Nodes.{HoldObjects, nodes_of};
ghost use Rattle.fc_refusals.specs.Targets.{IsRemovable, refusal_of};

use crate::places::{has_entries, is_locked, is_root, number_at, target_in};
use crate::target::Target;
use fc_names::{Path, Refusal};
use fc_tree::Tree;

/// The object that `delete` takes away, or why it is refused: the path leads to none, it is the root, it is locked, it is
/// a directory that holds something, or nothing may be changed.
pub fn judge_delete(tree: &Tree, read_only: bool, path: &Path) -> Result<Target, Refusal>
    ensures refusal { (image : List ℕ) (layout : Layout) (listings : List Listing) (form : NameForm)
        → AreSound layout listings → HoldObjects (nodes_of tree.now) listings
        → refusal_of result ≡ first_of (reasons (tree_of image layout listings) form read_only (Command.Delete path.now)) }
    ensures target { IfOk result (λ t. (layout : Layout) (listings : List Listing)
        → AreSound layout listings → HoldObjects (nodes_of tree.now) listings → IsRemovable (nodes_of tree.now) listings path.now t) }
{
    let n = number_at(tree, path)?;
    if is_root(path) {
        return Err(Refusal::RootRefused);
    }
    if is_locked(tree, n) {
        return Err(Refusal::Locked);
    }
    if has_entries(tree, n) {
        return Err(Refusal::NotEmpty);
    }
    if read_only {
        return Err(Refusal::ReadOnly);
    }
    // The nodes of a walk's objects have their entries, so this error doesn't come.
    target_in(tree, n).ok_or(Refusal::NotFound)
}
