// Directories of nodes, drafted.
ghost use Rattle.std.specs.Prelude.{◌≡◌, ◌<◌, None, Some, IfOk, IsSome, OnOk, length, slice_get};
ghost use Rattle.std.specs.FinMap.{get};
ghost use Rattle.fc_dirs.specs.Directory.{Directory};
ghost use Rattle.fc_drafts.specs.Draft.{directory_in, size_of};
ghost use Rattle.fc_image.specs.effects.Steady.{AreWritten};
ghost use Rattle.fc_refusals.specs.Places.{entries_at, entries_in};
ghost use Rattle.fc_tree.specs.Nodes.{body_in, nodes_of};
ghost use Rattle.fc_change.specs.Directories.{Amends, CanAmend, CanTell, HasCopied, Rewriting, address_after, is_holder};
ghost use Rattle.fc_change.specs.Drafts.{IsEntryOf};

use crate::change::Regrowth;
use fc_device::NoMemory;
use fc_dirs::Entry;
use fc_drafts::{Draft, regrown_entry};
use fc_refusals::Target;
use fc_tree::{Body, Tree};
use std::alloc::Global;

/// A copy of what the body of a directory says.
pub fn draft_of(alloc: Global, body: &Body) -> Result<Draft, NoMemory>
    requires { (content : Directory) × (body.now ≡ body_in content) }
    ensures { IfOk result (λ draft. body.now ≡ body_in (directory_in draft)) }
{
    match body {
        Body::Small(dir) => Draft::copy_small(alloc, dir),
        Body::Big(dir) => Draft::copy_big(alloc, dir),
        // It is a directory's.
        Body::File => unreachable!(),
    }
}

/// What a directory says, as the body of its node.
pub fn body_of(draft: Draft) -> Body
    ensures { result ≡ body_in (directory_in draft) }
{
    match draft {
        Draft::Small(dir) => Body::Small(dir),
        Draft::Big(dir) => Body::Big(dir),
    }
}

/// The bytes of a directory.
pub fn bytes_of(alloc: Global, draft: &Draft) -> Result<Vec<u8>, NoMemory>
    ensures written { IfOk result (λ bytes. AreWritten bytes.items (directory_in draft.now)) }
    ensures length { IfOk result (λ bytes. length bytes.items ≡ size_of (directory_in draft.now)) }
{
    let Ok(mut bytes) = vec![in alloc; 0u8; draft.size()] else {
        return Err(NoMemory);
    };
    draft.write(&mut bytes);
    Ok(bytes)
}

/// The entries of a body, none if it is a file's.
pub fn entries_in(body: &Body) -> &[Entry]
    ensures { result.now ≡ entries_in body.now }
{
    match body {
        Body::File => &[],
        Body::Small(dir) => dir.entries(),
        Body::Big(dir) => dir.entries(),
    }
}

/// The entry of a target.
pub fn entry_of(tree: &Tree, target: Target) -> &Entry
    requires { IsSome (slice_get (entries_at (nodes_of tree.now) target.holder) target.at) }
    ensures { IsEntryOf (nodes_of tree.now) target result.now }
{
    let node = tree.node(target.holder).unwrap();
    &entries_in(&node.body)[target.at]
}

/// The address of the object of a node, if a directory may have grown.
pub fn address_after(tree: &Tree, grown: Option<Regrowth>, n: u64) -> u32
    ensures { result ≡ address_after grown (nodes_of tree.now) n }
{
    match grown {
        Some(g) if n == g.node => g.address,
        _ => match tree.node(n) {
            Some(node) => node.entry.address,
            None => 0,
        },
    }
}

// Whether the directory of a node holds the grown one. The root is held by none.
fn is_holder(tree: &Tree, g: Regrowth, n: u64) -> bool
    ensures { result ≡ is_holder (nodes_of tree.now) g n }
{
    match tree.node(g.node) {
        Some(node) => g.node != 0 && node.holder == n,
        None => false,
    }
}

// Gives the entry of a grown directory its new address and length, if the drafted directory of a node holds that.
fn amend(tree: &Tree, grown: Option<Regrowth>, n: u64, draft: &mut Draft) -> Result<(), NoMemory>
    requires { CanAmend grown (nodes_of tree.now) n (directory_in draft.old) }
    ensures { OnOk result (Amends grown (nodes_of tree.now) n (directory_in draft.old) (directory_in draft.new)) }
{
    let Some(g) = grown else {
        return Ok(());
    };
    if !is_holder(tree, g, n) {
        return Ok(());
    }
    let node = tree.node(g.node).unwrap();
    let at = draft.place_of_name(&node.entry.name).unwrap();
    let entry = regrown_entry(&draft.entries()[at], g.address, g.len)?;
    draft.amend(at, entry);
    Ok(())
}

/// A copy of the directory of a node, in which the entry of a grown one has its new address and length.
pub fn copy_at(
    alloc: Global,
    tree: &Tree,
    grown: Option<Regrowth>,
    n: u64,
) -> Result<Draft, NoMemory>
    requires { (r : Rewriting) × CanTell grown (nodes_of tree.now) n r }
    ensures { IfOk result (λ draft. HasCopied grown (nodes_of tree.now) n (directory_in draft)) }
{
    let node = tree.node(n).unwrap();
    let mut draft = draft_of(alloc, &node.body)?;
    amend(tree, grown, n, &mut draft)?;
    Ok(draft)
}
