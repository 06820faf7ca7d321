// Whether a directory may be made.
ghost use Rattle.std.specs.Prelude.{◌≡◌, List, ℕ, IfOk, OnOk, IsTrue};
ghost use Rattle.fc_names.specs.Names.{is_writable};
ghost use Rattle.fc_model.specs.Answer.{first_of, reasons};
ghost use Rattle.fc_model.specs.Command.{Command};
ghost use Rattle.fc_model.specs.Tree.{last_name};
ghost use Rattle.fc_image.specs.Layout.{Layout};
ghost use Rattle.fc_image.specs.Objects.{tree_of};
ghost use Rattle.fc_image.specs.Sound.{AreSound};
ghost use Rattle.fc_image.specs.Walk.{Listing};
ghost use Rattle.fc_tree.specs.Nodes.{HoldObjects, nodes_of};
ghost use Rattle.fc_refusals.specs.Targets.{IsVacant, refusal_of};

use crate::places::{holder_at, own_name};
use fc_names::{NameForm, Path, Refusal, writable_bytes};
use fc_tree::Tree;

/// The node of the directory in which `cdir` makes a directory, or why it is refused: the name can't be written, the
/// path of the holder leads to no directory, there is something at the path, or nothing may be changed.
pub fn judge_cdir(tree: &Tree, form: NameForm, read_only: bool, path: &Path) -> Result<u64, Refusal>
    ensures refusal { (image : List ℕ) (layout : Layout) (listings : List Listing)
        → AreSound layout listings → HoldObjects (nodes_of tree.now) listings
        → refusal_of result ≡ first_of (reasons (tree_of image layout listings) form read_only (Command.Cdir path.now)) }
    ensures vacant { IfOk result (λ n. (layout : Layout) (listings : List Listing)
        → AreSound layout listings → HoldObjects (nodes_of tree.now) listings → IsVacant (nodes_of tree.now) listings path.now n) }
    ensures name { OnOk result (IsTrue (is_writable form (last_name path.now))) }
{
    let Some(name) = own_name(path) else {
        // The root is there.
        return Err(Refusal::Exists);
    };
    if !writable_bytes(name, form) {
        return Err(Refusal::BadName);
    }
    let dir = holder_at(tree, path)?;
    if tree.child(dir, name).is_some() {
        return Err(Refusal::Exists);
    }
    if read_only {
        return Err(Refusal::ReadOnly);
    }
    Ok(dir)
}
