// The paths of nodes, by the names on the way to the root.
ghost use Rattle.std.specs.Prelude.{◌≡◌, ◌++◌, ◌∷◌, [], IfOk, map, reverse};
ghost use Rattle.fc_names.specs.Names.{Path};
ghost use Rattle.fc_tree.specs.Walking.{Leads};

use crate::node::Node;
use fc_device::NoMemory;
use fc_names::{Name, Path};
use std::alloc::Global;

// The names from a node up to the root, which has none.
fn names_up(alloc: Global, nodes: &[Node], at: usize) -> Result<Vec<&Name>, NoMemory>
    requires { (names : Path) × Leads nodes.now at names }
    ensures { IfOk result (λ found. (names : Path) → Leads nodes.now at names → map (λ name. name.now) found.items ≡ names) }
{
    let mut names = Vec::new(alloc);
    let mut at = at;
    while at != 0 {
        let Some(node) = nodes.get(at) else {
            unreachable!();
        };
        if names.push(&node.entry.name).is_err() {
            return Err(NoMemory);
        }
        at = node.holder as usize;
    }
    Ok(names)
}

// The path of these names, the last of them first.
fn reversed(alloc: Global, names: Vec<&Name>) -> Result<Path, NoMemory>
    ensures { IfOk result (λ path. path ≡ reverse (map (λ name. name.now) names.entry.items)) }
{
    let mut names = names;
    let mut path = Path::root(alloc);
    while let Some(name) = names.pop() {
        path.push(name)?;
    }
    Ok(path)
}

/// The path of a node.
pub fn path_of(alloc: Global, nodes: &[Node], at: usize) -> Result<Path, NoMemory>
    requires { (names : Path) × Leads nodes.now at names }
    ensures { IfOk result (λ path. (names : Path) → Leads nodes.now at names → path ≡ reverse names) }
{
    let names = names_up(alloc, nodes, at)?;
    reversed(alloc, names)
}

/// The path of an object of that name in a node's directory.
pub fn path_in(alloc: Global, nodes: &[Node], at: usize, name: &Name) -> Result<Path, NoMemory>
    requires { (names : Path) × Leads nodes.now at names }
    ensures { IfOk result (λ path. (names : Path) → Leads nodes.now at names → path ≡ reverse names ++ name.now ∷ []) }
{
    let mut path = path_of(alloc, nodes, at)?;
    path.push(name)?;
    Ok(path)
}
