// The paths of a tree's objects.
ghost use Rattle.std.specs.Prelude.{◌≡◌, ◌<◌, ◌++◌, ◌∷◌, [], List, length, map, slice_index_or, IfOk, OnOk};
ghost use Rattle.fc_image.specs.Layout.{Layout};
ghost use Rattle.fc_image.specs.Sound.{AreSound};
ghost use Rattle.fc_image.specs.Walk.{Listing};
ghost use Rattle.fc_tree.specs.Nodes.{HoldObjects, nodes_of};
ghost use Rattle.fc_fit.specs.Paths.{AreRisingPaths, stored_paths};

use crate::found::{entries_of, node_at};
use crate::order::cmp_paths;
use fc_device::NoMemory;
use fc_dirs::Entry;
use fc_names::{Name, Path};
use fc_tree::Tree;
use std::alloc::Global;

// The path of an object of this name in the directory at a path.
fn path_in(dir: &Path, name: &Name) -> Result<Path, NoMemory>
    ensures { IfOk result (λ path. path ≡ dir.now ++ name.now ∷ []) }
{
    let mut path = dir.clone()?;
    path.push(name)?;
    Ok(path)
}

fn push_path(paths: &mut Vec<Path>, path: Path) -> Result<(), NoMemory>
    ensures { OnOk result (paths.new.items ≡ paths.old.items ++ path ∷ []) }
{
    match paths.push(path) {
        Ok(()) => Ok(()),
        Err(_) => Err(NoMemory),
    }
}

// Appends the paths of the objects of a directory, in stored order.
fn push_children(paths: &mut Vec<Path>, dir: &Path, entries: &[Entry]) -> Result<(), NoMemory>
    ensures { OnOk result (paths.new.items ≡ paths.old.items ++ map (λ e. dir.now ++ e.name ∷ []) entries.now) }
{
    for e in entries {
        push_path(paths, path_in(dir, &e.name)?)?;
    }
    Ok(())
}

// The path of this number.
fn path_at(paths: &[Path], at: usize) -> Result<Path, NoMemory>
    requires { at < length paths.now }
    ensures { IfOk result (λ path. path ≡ slice_index_or paths.now at []) }
{
    Ok(paths[at].clone()?)
}

// The paths of all objects, the root's first, and those that a directory holds after it.
fn stored_paths(alloc: Global, tree: &Tree) -> Result<Vec<Path>, NoMemory>
    requires { (layout : Layout) × (listings : List Listing) × AreSound layout listings × HoldObjects (nodes_of tree.now) listings }
    ensures { IfOk result (λ paths. (layout : Layout) (listings : List Listing) → AreSound layout listings → HoldObjects (nodes_of tree.now) listings → paths.items ≡ stored_paths listings) }
{
    let mut paths = Vec::new(alloc);
    push_path(&mut paths, Path::root(alloc))?;
    let mut at = 0;
    while at < paths.len() {
        let dir = path_at(&paths, at)?;
        push_children(&mut paths, &dir, entries_of(&node_at(tree, &dir).body))?;
        at += 1;
    }
    Ok(paths)
}

/// The paths of all objects, rising by folded names: the root's first, and each directory's before those of what it holds.
pub fn paths_of(alloc: Global, tree: &Tree) -> Result<Vec<Path>, NoMemory>
    requires { (layout : Layout) × (listings : List Listing) × AreSound layout listings × HoldObjects (nodes_of tree.now) listings }
    ensures { IfOk result (λ paths. (layout : Layout) (listings : List Listing) → AreSound layout listings → HoldObjects (nodes_of tree.now) listings → AreRisingPaths listings paths.items) }
{
    let mut paths = stored_paths(alloc, tree)?;
    paths.sort_unstable_by(cmp_paths);
    Ok(paths)
}
