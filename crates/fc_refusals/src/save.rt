// Whether a file may be saved or created.
ghost use Rattle.std.specs.Prelude.{◌≡◌, List, ℕ, IfOk, OnOk, IsTrue};
ghost use Rattle.fc_names.specs.Names.{is_writable};
ghost use Rattle.fc_model.specs.Answer.{first_of, reasons};
ghost use Rattle.fc_model.specs.Command.{Command};
ghost use Rattle.fc_model.specs.Tree.{last_name};
ghost use Rattle.fc_image.specs.Layout.{Layout};
ghost use Rattle.fc_image.specs.Objects.{tree_of};
ghost use Rattle.fc_image.specs.Sound.{AreSound};
ghost use Rattle.fc_image.specs.Walk.{Listing};
ghost use Rattle.fc_tree.specs.Nodes.{HoldObjects, nodes_of};
ghost use Rattle.fc_refusals.specs.Slots.{IsSlot};
ghost use Rattle.fc_refusals.specs.Targets.{refusal_of};

use crate::places::{holder_at, is_locked, own_name, target_in};
use crate::target::Slot;
use fc_names::{NameForm, Path, Refusal, writable_bytes};
use fc_tree::Tree;

/// The place at which `save` and `create` put a file, or why they are refused: the name can't be written, the path of
/// the holder leads to no directory, a directory or a locked file is at the path, or nothing may be changed.
pub fn judge_save(
    tree: &Tree,
    form: NameForm,
    read_only: bool,
    path: &Path,
) -> Result<Slot, Refusal>
    ensures refusal { (image : List ℕ) (layout : Layout) (listings : List Listing) (load exec len : ℕ) (bytes : List ℕ)
        → AreSound layout listings → HoldObjects (nodes_of tree.now) listings
        → (refusal_of result ≡ first_of (reasons (tree_of image layout listings) form read_only (Command.Save path.now load exec bytes)))
        × (refusal_of result ≡ first_of (reasons (tree_of image layout listings) form read_only (Command.Create path.now load exec len))) }
    ensures slot { IfOk result (λ slot. (layout : Layout) (listings : List Listing)
        → AreSound layout listings → HoldObjects (nodes_of tree.now) listings → IsSlot (nodes_of tree.now) listings path.now slot) }
    ensures name { OnOk result (IsTrue (is_writable form (last_name path.now))) }
{
    let Some(name) = own_name(path) else {
        // The root is a directory.
        return Err(Refusal::IsDirectory);
    };
    if !writable_bytes(name, form) {
        return Err(Refusal::BadName);
    }
    let dir = holder_at(tree, path)?;
    let Some(n) = tree.child(dir, name) else {
        if read_only {
            return Err(Refusal::ReadOnly);
        }
        return Ok(Slot::New(dir));
    };
    if tree.is_directory(n) {
        return Err(Refusal::IsDirectory);
    }
    if is_locked(tree, n) {
        return Err(Refusal::Locked);
    }
    if read_only {
        return Err(Refusal::ReadOnly);
    }
    match target_in(tree, n) {
        Some(target) => Ok(Slot::Over(target)),
        // The nodes of a walk's objects have their entries, so this error doesn't come.
        None => Err(Refusal::NotFound),
    }
}
