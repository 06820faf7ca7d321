// Which trees fit a format.
ghost use Rattle.std.specs.Prelude.{◌≡◌, ◌<◌, ◌≤◌, ◌*◌, ◌^◌, drop, length, not, sum_by};
ghost use Rattle.fc_dirs.specs.Big.{name_space};
ghost use Rattle.fc_tree.specs.Nodes.{nodes_of};
ghost use Rattle.fc_fit.specs.Fit.{are_names_right, form_of, is_attrs_right, name_fault};
ghost use Rattle.fc_fit.specs.Found.{AllLead};
ghost use Rattle.fc_fit.specs.Misfits.{entries_fault, entry_fault, first_from, first_misfit, names_of};

use crate::found::{entries_of, node_at};
use fc_bigdir::size_for;
use fc_dirs::Entry;
use fc_format::Format;
use fc_names::{Name, NameForm, Path, writable};
use fc_tree::{Node, Tree};

// The bytes of the largest big directory.
const LARGEST: u64 = 4_194_304;

/// What of an object doesn't fit another format.
#[derive(Clone, Copy, Debug, PartialEq, Eq)]
pub enum What {
    /// Its name can't be written.
    Name,
    /// An entry can't hold its attributes.
    Attributes,
    /// The directory can't hold all its entries.
    Entries,
}

/// An object that doesn't fit, by the number of its path.
#[derive(Clone, Copy)]
pub struct Misfit {
    pub at: usize,
    pub what: What,
}

/// The names of a format.
pub fn form_of(format: Format) -> NameForm
    ensures { result ≡ form_of format }
{
    match format {
        Format::E | Format::F | Format::D => NameForm::Ten,
        Format::L => NameForm::Seven,
        Format::EPlus | Format::FPlus => NameForm::Long,
    }
}

// Whether an entry can hold these attributes.
fn are_attrs_right(form: NameForm, attrs: u32) -> bool
    ensures { result ≡ is_attrs_right form attrs }
{
    match form {
        NameForm::Seven => attrs < 1024,
        NameForm::Ten => attrs < 256,
        NameForm::Long => true,
    }
}

// What of an object's entry doesn't fit.
fn name_fault(form: NameForm, entry: &Entry) -> Option<What>
    ensures { result ≡ name_fault form entry.now.name entry.now.attrs }
{
    if !writable(&entry.name, form) {
        return Some(What::Name);
    }
    if !are_attrs_right(form, entry.attrs) {
        return Some(What::Attributes);
    }
    None
}

// The bytes that a name takes in a big directory.
fn name_space(name: &Name) -> usize
    ensures value { result ≡ name_space name.now }
    ensures most { result ≤ 256 }
{
    (name.bytes().len() + 4) / 4 * 4
}

// The bytes that the names of entries take.
fn names_space(entries: &[Entry]) -> usize
    requires { length entries.now < 2 ^ 20 }
    ensures value { result ≡ sum_by name_space (names_of entries.now) }
    ensures most { result ≤ 256 * length entries.now }
{
    let mut space = 0;
    for e in entries {
        space += name_space(&e.name);
    }
    space
}

// Whether a directory of this name holds such entries.
fn holds(form: NameForm, own: &Name, entries: &[Entry]) -> bool
    requires { length entries.now < 2 ^ 20 }
    ensures { result ≡ are_names_right form own.now (names_of entries.now) }
{
    match form {
        NameForm::Seven => entries.len() <= 47,
        NameForm::Ten => entries.len() <= 77,
        NameForm::Long => {
            size_for(name_space(own), entries.len(), names_space(entries)) <= LARGEST
        }
    }
}

// Whether a directory can't hold its entries; a file has none.
fn entries_fault(form: NameForm, node: &Node) -> Option<What>
    ensures { result ≡ entries_fault form node.now }
{
    if !node.entry.is_directory() || holds(form, &node.entry.name, entries_of(&node.body)) {
        None
    } else {
        Some(What::Entries)
    }
}

// The first object but the root of which name or attributes don't fit.
fn entry_misfit(form: NameForm, tree: &Tree, paths: &[Path]) -> Option<Misfit>
    requires { AllLead (nodes_of tree.now) paths.now }
    ensures { result ≡ first_from (nodes_of tree.now) (entry_fault form) 1 (drop 1 paths.now) }
{
    for at in 1..paths.len() {
        if let Some(what) = name_fault(form, &node_at(tree, &paths[at]).entry) {
            return Some(Misfit { at, what });
        }
    }
    None
}

// The first directory that can't hold its entries.
fn directory_misfit(form: NameForm, tree: &Tree, paths: &[Path]) -> Option<Misfit>
    requires { AllLead (nodes_of tree.now) paths.now }
    ensures { result ≡ first_from (nodes_of tree.now) (entries_fault form) 0 paths.now }
{
    for at in 0..paths.len() {
        if let Some(what) = entries_fault(form, node_at(tree, &paths[at])) {
            return Some(Misfit { at, what });
        }
    }
    None
}

/// The first object that doesn't fit the format: by names and attributes, and then by the entries of directories.
pub fn first_misfit(format: Format, tree: &Tree, paths: &[Path]) -> Option<Misfit>
    requires { AllLead (nodes_of tree.now) paths.now }
    ensures { result ≡ first_misfit format (nodes_of tree.now) paths.now }
{
    let form = form_of(format);
    match entry_misfit(form, tree, paths) {
        Some(misfit) => Some(misfit),
        None => directory_misfit(form, tree, paths),
    }
}
