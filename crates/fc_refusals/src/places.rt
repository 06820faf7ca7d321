// Which nodes paths lead to, and at which places entries stand in their directories.
ghost use Rattle.std.specs.Prelude.{◌≡◌, option_map};
ghost use Rattle.fc_model.specs.Tree.{holder};
ghost use Rattle.fc_model.specs.Answer.{is_above, is_root};
ghost use Rattle.fc_tree.specs.Nodes.{found_in, nodes_of};
ghost use Rattle.fc_refusals.specs.Places.{directory_found, entries_at, entries_in, has_entries_at, is_locked_node, number_found, own_name, place_of, target_in};

use crate::target::Target;
use fc_dirs::Entry;
use fc_names::{Attrs, Name, Path, Refusal, fold_cmp_bytes, fold_eq};
use fc_tree::{Body, Found, Tree};

/// Whether a path is the root's.
pub fn is_root(path: &Path) -> bool
    ensures { result ≡ is_root path.now }
{
    path.names().next().is_none()
}

/// Whether the first path is that of a directory above the second, by their names alone.
pub fn is_above(above: &Path, path: &Path) -> bool
    ensures { result ≡ is_above above.now path.now }
{
    let mut rest = path.names();
    for name in above.names() {
        match rest.next() {
            Some(other) if fold_cmp_bytes(name, other).is_eq() => {}
            _ => return false,
        }
    }
    rest.next().is_some()
}

/// The number of the node to which a path leads, or why it leads to none.
pub fn number_at(tree: &Tree, path: &Path) -> Result<u64, Refusal>
    ensures { result ≡ number_found (found_in (nodes_of tree.now) path.now) }
{
    match tree.find(path) {
        Found::Node(n) => Ok(n),
        Found::Absent => Err(Refusal::NotFound),
        Found::NotDirectory => Err(Refusal::NotDirectory),
    }
}

/// The last name of a path; the root has none.
pub fn own_name(path: &Path) -> Option<&[u8]>
    ensures { option_map (λ name. name.now) result ≡ own_name path.now }
{
    let mut last = None;
    for name in path.names() {
        last = Some(name);
    }
    last
}

// What a path without its last name leads to.
fn find_holder(tree: &Tree, path: &Path) -> Found
    ensures { result ≡ found_in (nodes_of tree.now) (holder path.now) }
{
    let mut names = path.names();
    let mut name = match names.next() {
        Some(first) => first,
        None => return Found::Node(0),
    };
    let mut at = 0;
    for next in names {
        if !tree.is_directory(at) {
            return Found::NotDirectory;
        }
        match tree.child(at, name) {
            Some(child) => at = child,
            None => return Found::Absent,
        }
        name = next;
    }
    Found::Node(at)
}

/// The number of the directory that holds what is at a path, or why none does.
pub fn holder_at(tree: &Tree, path: &Path) -> Result<u64, Refusal>
    ensures { result ≡ directory_found (nodes_of tree.now) (found_in (nodes_of tree.now) (holder path.now)) }
{
    match find_holder(tree, path) {
        Found::Node(n) if tree.is_directory(n) => Ok(n),
        Found::Absent => Err(Refusal::NotFound),
        Found::Node(_) | Found::NotDirectory => Err(Refusal::NotDirectory),
    }
}

// The entries of a body, none if it is a file's.
fn entries_in(body: &Body) -> &[Entry]
    ensures { result.now ≡ entries_in body.now }
{
    match body {
        Body::File => &[],
        Body::Small(dir) => dir.entries(),
        Body::Big(dir) => dir.entries(),
    }
}

// The entries of the directory of a node, in stored order; none if no directory has this number.
fn entries_at(tree: &Tree, n: u64) -> &[Entry]
    ensures { result.now ≡ entries_at (nodes_of tree.now) n }
{
    match tree.node(n) {
        Some(node) => entries_in(&node.body),
        None => &[],
    }
}

/// Whether the directory of a node has entries.
pub fn has_entries(tree: &Tree, n: u64) -> bool
    ensures { result ≡ has_entries_at (nodes_of tree.now) n }
{
    !entries_at(tree, n).is_empty()
}

/// Whether the object of a node has the Locked bit.
pub fn is_locked(tree: &Tree, n: u64) -> bool
    ensures { result ≡ is_locked_node (nodes_of tree.now) n }
{
    match tree.node(n) {
        Some(node) => Attrs::new(node.entry.attrs).is_locked(),
        None => false,
    }
}

// The place of the first entry of a name.
fn place_of(entries: &[Entry], name: &Name) -> Option<usize>
    ensures { result ≡ place_of entries.now name.now }
{
    entries.iter().position(|e| fold_eq(name, &e.name))
}

/// The node of a number, as what a command is about.
pub fn target_in(tree: &Tree, n: u64) -> Option<Target>
    ensures { result ≡ target_in (nodes_of tree.now) n }
{
    let node = tree.node(n)?;
    let at = place_of(entries_at(tree, node.holder), &node.entry.name)?;
    Some(Target {
        holder: node.holder,
        at,
        node: n,
    })
}
