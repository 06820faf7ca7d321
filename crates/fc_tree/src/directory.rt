// One directory of a walk: its bytes, what they say, and the nodes of the objects that it holds.
ghost use Rattle.std.specs.Prelude.{◌≡◌, ◌≤◌, ◌+◌, Err, IfErr, IfOk, IsTrue, List, ℕ, Ok, OnOk, Some, length, reverse, slice_get};
ghost use Rattle.std.specs.Option.{ForSome};
ghost use Rattle.fc_device.specs.Faults.{Rose};
ghost use Rattle.fc_device.specs.Calls.{OnlyReads};
ghost use Rattle.fc_names.specs.Names.{Path};
ghost use Rattle.fc_dirs.specs.Directory.{Directory, directory_of, directory_size, entries_of};
ghost use Rattle.fc_image.specs.Layout.{dir_form, disc_sectors, sector_bytes};
ghost use Rattle.fc_image.specs.Walk.{Object, at_path, is_directory_object, reader_of};
ghost use Rattle.fc_space.specs.Space.{layout_of};
ghost use Rattle.fc_tree.specs.Agree.{HasForm, IsDirectory};
ghost use Rattle.fc_tree.specs.Calls.{entry_sectors};
ghost use Rattle.fc_tree.specs.declared.node.Node.{Node};
ghost use Rattle.fc_tree.specs.Nodes.{body_in};
ghost use Rattle.fc_tree.specs.Reading.{may_have_size};
ghost use Rattle.fc_tree.specs.Taken.{AreTaken};
ghost use Rattle.fc_tree.specs.Walking.{FailsAs, HoldsObject, IsDamaged, IsSaidBy, IsVisited, Leads, said_children};

use crate::contents::add_children;
use crate::node::{Body, Node, TreeError};
use crate::paths::path_of;
use crate::reading::read_object;
use crate::taken::Taken;
use fc_bigdir::BigDir;
use fc_bytes::is_big_size;
use fc_device::Disk;
use fc_dirs::{DirError, DirFault, Entry, SmallForm};
use fc_image::ImageFault;
use fc_names::NameForm;
use fc_smalldir::SmallDir;
use fc_space::Places;
use std::alloc::Global;

// What bytes say as a directory of the disc's form.
fn body_of(alloc: Global, form: NameForm, bytes: &[u8]) -> Result<Body, DirError>
    requires { length bytes.now ≡ directory_size form (length bytes.now) }
    ensures ok { IfOk result (λ body. (dir : Directory) × (body ≡ body_in dir) × (directory_of form bytes.now ≡ Ok dir) × HasForm form (length bytes.now) dir) }
    ensures err { IfErr result (IsSaidBy (directory_of form bytes.now)) }
{
    match form {
        NameForm::Seven => Ok(Body::Small(SmallDir::read(alloc, bytes, SmallForm::Bytes1280)?)),
        NameForm::Ten => Ok(Body::Small(SmallDir::read(alloc, bytes, SmallForm::Bytes2048)?)),
        NameForm::Long => Ok(Body::Big(BigDir::read(alloc, bytes)?)),
    }
}

// The entries of a directory in stored order; a file has none.
fn entries_of(body: &Body) -> &[Entry]
    ensures { (dir : Directory) → body.now ≡ body_in dir → (result.now ≡ entries_of dir) × IsDirectory dir }
{
    match body {
        Body::File => &[],
        Body::Small(dir) => dir.entries(),
        Body::Big(dir) => dir.entries(),
    }
}

// Whether a directory may have the size that its entry gives, which counts for a big one alone.
fn may_have_size(form: NameForm, len: u32) -> bool
    ensures { result ≡ may_have_size form len }
{
    match form {
        NameForm::Seven => true,
        NameForm::Ten => true,
        NameForm::Long => is_big_size(len as usize),
    }
}

// The fault of a node's directory.
fn damage_at(alloc: Global, nodes: &[Node], at: usize, fault: DirFault) -> TreeError
    requires { (names : Path) × Leads nodes.now at names }
    ensures { (names : Path) → Leads nodes.now at names → IsDamaged (reverse names) fault result }
{
    match path_of(alloc, nodes, at) {
        Ok(path) => TreeError::Image(ImageFault::Directory { path, fault }),
        Err(_) => TreeError::NoMemory,
    }
}

// Reads the directory of a node.
fn read_directory<D: Disk>(
    alloc: Global,
    disk: &mut D,
    places: &Places,
    nodes: &[Node],
    at: usize,
    bytes: &mut Vec<u8>,
) -> Result<Body, TreeError>
    requires attached { IsTrue (D.attached disk.old) }
    requires size { D.sector_size disk.old ≡ sector_bytes (layout_of places.now) }
    requires room { disc_sectors (layout_of places.now) ≤ D.sectors disk.old }
    requires there { (o : Object) × HoldsObject (layout_of places.now) nodes.now at o × IsTrue (is_directory_object o) }
    ensures ok { IfOk result (λ body. (o : Object) → HoldsObject (layout_of places.now) nodes.now at o
        → (dir : Directory) × (body ≡ body_in dir) × HasForm (dir_form (layout_of places.now)) o.entry.len dir
        × ForSome (D.bytes disk.old) (λ image. reader_of image (layout_of places.now) o ≡ Ok dir)) }
    ensures err { IfErr result (λ e. (o : Object) → HoldsObject (layout_of places.now) nodes.now at o
        → ForSome (D.bytes disk.old) (λ image. FailsAs (at_path o.path (reader_of image (layout_of places.now) o)) e)) }
    ensures reads { OnlyReads D.Disk disk.old disk.new }
    ensures few { (n : Node) → slice_get nodes.now at ≡ Some n → D.read_calls disk.new ≤ D.read_calls disk.old + entry_sectors (layout_of places.now) n.entry }
    ensures cause { result ≡ Err TreeError.DiskFault → Rose (D.faults disk.old) (D.faults disk.new) }
{
    let Some(node) = nodes.get(at) else {
        unreachable!();
    };
    let form = places.dir_form();
    if !may_have_size(form, node.entry.len) {
        // An entry may give any length: what can't be a directory is not read.
        places.places_suffice();
        return Err(damage_at(alloc, nodes, at, DirFault::Size));
    }
    read_object(alloc, disk, places, &node.entry, bytes)?;
    match body_of(alloc, form, bytes) {
        Ok(body) => Ok(body),
        Err(DirError::Fault(fault)) => Err(damage_at(alloc, nodes, at, fault)),
        Err(DirError::NoMemory) => Err(TreeError::NoMemory),
    }
}

/// Reads the directory of a node, gives it to the node, and adds the nodes of the objects that it holds. `bytes` is a
/// buffer. It takes at most a read call for each sector of the directory.
pub fn visit<D: Disk>(
    alloc: Global,
    disk: &mut D,
    places: &Places,
    nodes: &mut Vec<Node>,
    taken: &mut Taken,
    at: usize,
    bytes: &mut Vec<u8>,
) -> Result<(), TreeError>
    requires attached { IsTrue (D.attached disk.old) }
    requires size { D.sector_size disk.old ≡ sector_bytes (layout_of places.now) }
    requires room { disc_sectors (layout_of places.now) ≤ D.sectors disk.old }
    requires disc { taken.old.sectors ≡ disc_sectors (layout_of places.now) }
    requires there { (o : Object) × HoldsObject (layout_of places.now) nodes.old.items at o × IsTrue (is_directory_object o) }
    ensures sectors { taken.new.sectors ≡ taken.old.sectors }
    ensures ok { OnOk result ((o : Object) (before : List ℕ) → HoldsObject (layout_of places.now) nodes.old.items at o → AreTaken taken.old before
        → IsVisited (layout_of places.now) (D.bytes disk.old) nodes.old.items nodes.new.items at o before taken.new) }
    ensures err { IfErr result (λ e. (o : Object) (before : List ℕ) → HoldsObject (layout_of places.now) nodes.old.items at o → AreTaken taken.old before
        → ForSome (D.bytes disk.old) (λ image. FailsAs (said_children (layout_of places.now) before o.path (reader_of image (layout_of places.now) o)) e)) }
    ensures reads { OnlyReads D.Disk disk.old disk.new }
    ensures few { (n : Node) → slice_get nodes.old.items at ≡ Some n → D.read_calls disk.new ≤ D.read_calls disk.old + entry_sectors (layout_of places.now) n.entry }
    ensures cause { result ≡ Err TreeError.DiskFault → Rose (D.faults disk.old) (D.faults disk.new) }
{
    let body = read_directory(alloc, disk, places, nodes, at, bytes)?;
    add_children(alloc, places, nodes, taken, at, entries_of(&body))?;
    nodes[at].body = body;
    Ok(())
}
