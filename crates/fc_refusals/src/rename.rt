// Whether an object may be renamed.
ghost use Rattle.std.specs.Prelude.{◌≡◌, List, ℕ, IfOk, OnOk, IsTrue};
ghost use Rattle.fc_names.specs.Names.{is_writable};
ghost use Rattle.fc_model.specs.Answer.{first_of, reasons};
ghost use Rattle.fc_model.specs.Command.{Command};
ghost use Rattle.fc_model.specs.Tree.{last_name};
ghost use Rattle.fc_image.specs.Layout.{Layout};
ghost use Rattle.fc_image.specs.Objects.{tree_of};
ghost use Rattle.fc_image.specs.Sound.{AreSound};
ghost use Rattle.fc_image.specs.Walk.{Listing};
ghost use Rattle.fc_tree.specs.Nodes.{HoldObjects, found_in, nodes_of};
ghost use Rattle.fc_refusals.specs.Places.{is_other, refusal_to_root};
ghost use Rattle.fc_refusals.specs.Slots.{IsRenaming};
ghost use Rattle.fc_refusals.specs.Targets.{refusal_of};

use crate::places::{holder_at, is_above, is_locked, is_root, number_at, own_name, target_in};
use crate::target::Renaming;
use fc_names::{NameForm, Path, Refusal, writable_bytes};
use fc_tree::Tree;

// Whether there is a node of another number.
fn is_other(found: Option<u64>, n: u64) -> bool
    ensures { result ≡ is_other found n }
{
    match found {
        Some(m) => m != n,
        None => false,
    }
}

// Why nothing is renamed to the root's path.
fn refusal_to_root(tree: &Tree, from: &Path) -> Refusal
    ensures { result ≡ refusal_to_root (found_in (nodes_of tree.now) from.now) from.now }
{
    match number_at(tree, from) {
        Ok(_) if is_root(from) => Refusal::RootRefused,
        Ok(_) => Refusal::Exists,
        Err(refusal) => refusal,
    }
}

/// What `rename` renames, and the node of the directory that holds it then; or why it is refused: the new name can't be
/// written, the path leads to no object, the path of the new holder leads to no directory, something else is at the new
/// path, the root can't be renamed, a directory can't be moved into itself, the object is locked, or nothing may be
/// changed.
pub fn judge_rename(
    tree: &Tree,
    form: NameForm,
    read_only: bool,
    from: &Path,
    to: &Path,
) -> Result<Renaming, Refusal>
    ensures refusal { (image : List ℕ) (layout : Layout) (listings : List Listing)
        → AreSound layout listings → HoldObjects (nodes_of tree.now) listings
        → refusal_of result ≡ first_of (reasons (tree_of image layout listings) form read_only (Command.Rename from.now to.now)) }
    ensures renaming { IfOk result (λ renaming. (layout : Layout) (listings : List Listing)
        → AreSound layout listings → HoldObjects (nodes_of tree.now) listings → IsRenaming (nodes_of tree.now) listings from.now to.now renaming) }
    ensures name { OnOk result (IsTrue (is_writable form (last_name to.now))) }
{
    let Some(name) = own_name(to) else {
        return Err(refusal_to_root(tree, from));
    };
    if !writable_bytes(name, form) {
        return Err(Refusal::BadName);
    }
    let n = number_at(tree, from)?;
    let dir = holder_at(tree, to)?;
    if is_other(tree.child(dir, name), n) {
        return Err(Refusal::Exists);
    }
    if is_root(from) {
        return Err(Refusal::RootRefused);
    }
    if is_above(from, to) {
        return Err(Refusal::IntoItself);
    }
    if is_locked(tree, n) {
        return Err(Refusal::Locked);
    }
    if read_only {
        return Err(Refusal::ReadOnly);
    }
    match target_in(tree, n) {
        Some(target) => Ok(Renaming {
            target,
            holder: dir,
        }),
        // The nodes of a walk's objects have their entries, so this error doesn't come.
        None => Err(Refusal::NotFound),
    }
}
