// The walk over all directories of a disk.
ghost use Rattle.std.specs.Prelude.{◌≡◌, ◌<◌, ◌≤◌, ◌+◌, ◌++◌, [], Err, IfErr, IfOk, IfSome, IsTrue, List, ℕ, None, Ok, OnOk, length, reverse};
ghost use Rattle.std.specs.List.{sum_by};
ghost use Rattle.std.specs.Option.{ForSome};
ghost use Rattle.fc_device.specs.Faults.{Rose};
ghost use Rattle.fc_device.specs.Calls.{OnlyReads};
ghost use Rattle.fc_names.specs.Names.{Path};
ghost use Rattle.fc_dirs.specs.Directory.{directory_size};
ghost use Rattle.fc_objects.specs.Extents.{sectors_in};
ghost use Rattle.fc_image.specs.Layout.{Layout, disc_sectors, hole_sectors, sector_bytes};
ghost use Rattle.fc_image.specs.Walk.{Object, object_of, reader_of, root_entry, walk};
ghost use Rattle.fc_space.specs.Space.{layout_of};
ghost use Rattle.fc_tree.specs.Calls.{directory_sectors};
ghost use Rattle.fc_tree.specs.declared.node.Body.TheVariants as bodies;
ghost use Rattle.fc_tree.specs.Loaded.{not_free};
ghost use Rattle.fc_tree.specs.Reads.{walk_sectors};
ghost use Rattle.fc_tree.specs.Taken.{AreTaken};
ghost use Rattle.fc_tree.specs.Walking.{FailsAs, IsDirectoryAt, IsFileAt, IsFound, IsOverlap, Leads};

use crate::claim::{ClaimError, claim, directory_size};
use crate::contents::push_node;
use crate::directory::visit;
use crate::node::{Body, Node, TreeError};
use crate::paths::path_of;
use crate::taken::Taken;
use fc_device::{Disk, Extent, NoMemory};
use fc_dirs::Entry;
use fc_image::ImageFault;
use fc_names::{Name, NameForm, Path};
use fc_oldmap::OldMap;
use fc_space::{Places, Space};
use std::alloc::Global;

// Takes the sectors of an old map's holes.
fn take_holes(taken: &mut Taken, map: &OldMap)
    ensures sectors { taken.new.sectors ≡ taken.old.sectors }
    ensures taken { (before : List ℕ) → AreTaken taken.old before → AreTaken taken.new (hole_sectors (Layout.Old map.now) ++ before) }
{
    let units = map.sector_units();
    for hole in map.holes() {
        let extent = Extent {
            first: u64::from(hole.start / units),
            sectors: u64::from(hole.len / units),
        };
        taken.take_extent(&extent);
    }
}

// The sectors that no object may take: these, and on an old map the holes.
fn reserve(alloc: Global, space: &Space, reserved: &[Extent]) -> Result<Taken, NoMemory>
    ensures sectors { IfOk result (λ taken. taken.sectors ≡ disc_sectors (layout_of space.now)) }
    ensures taken { IfOk result (λ taken. AreTaken taken (not_free (layout_of space.now) (sectors_in reserved.now))) }
{
    let mut taken = Taken::new(alloc, space.disc_sectors())?;
    taken.take(reserved);
    if let Space::OldMapped(map) = space {
        take_holes(&mut taken, map);
    }
    Ok(taken)
}

// The root's node.
fn root_node(alloc: Global, form: NameForm, root: u32, root_size: u32) -> Result<Node, NoMemory>
    ensures { IfOk result (λ node. node ≡ record { holder = 0; entry = root_entry root (directory_size form root_size); body = bodies.File }) }
{
    Ok(Node {
        holder: 0,
        entry: Entry {
            name: Name::new(alloc, b"$")?,
            load: 0,
            exec: 0,
            len: directory_size(form, root_size),
            address: root,
            attrs: 8,
            last: 0,
        },
        body: Body::File,
    })
}

// Takes the root's sectors.
fn claim_root(
    alloc: Global,
    places: &Places,
    taken: &mut Taken,
    entry: &Entry,
) -> Result<(), TreeError>
    requires disc { taken.old.sectors ≡ disc_sectors (layout_of places.now) }
    ensures sectors { taken.new.sectors ≡ taken.old.sectors }
    ensures ok { OnOk result ((before : List ℕ) → AreTaken taken.old before
        → (o : Object) × (object_of (layout_of places.now) before [] entry.now ≡ Ok o) × AreTaken taken.new (o.sectors ++ before)) }
    ensures no_fault { result ≡ Err TreeError.DiskFault → ⊥ }
    ensures err { IfErr result (λ e. (before : List ℕ) → AreTaken taken.old before → FailsAs (object_of (layout_of places.now) before [] entry.now) e) }
{
    let path = Path::root(alloc);
    match claim(alloc, places, taken, entry) {
        Ok(()) => Ok(()),
        Err(ClaimError::Outside) => Err(TreeError::Image(ImageFault::Place { path })),
        Err(ClaimError::Overlap) => Err(TreeError::Image(ImageFault::Overlap { path })),
        Err(ClaimError::NoMemory) => Err(TreeError::NoMemory),
    }
}

// The first directory among the nodes of a number or a higher one.
fn next_directory(nodes: &[Node], from: usize) -> Option<usize>
    ensures some { IfSome result (λ at. (from ≤ at) × (at < length nodes.now) × IsDirectoryAt nodes.now at) }
    ensures first { IfSome result (λ at. (i : ℕ) → from ≤ i → i < at → IsFileAt nodes.now i) }
    ensures none { result ≡ None → (i : ℕ) → from ≤ i → IsFileAt nodes.now i }
{
    for i in from..nodes.len() {
        if nodes[i].entry.is_directory() {
            return Some(i);
        }
    }
    None
}

// The fault that a node's object overlaps what is taken.
fn overlap_at(alloc: Global, nodes: &[Node], at: usize) -> TreeError
    requires { (names : Path) × Leads nodes.now at names }
    ensures { (names : Path) → Leads nodes.now at names → IsOverlap (reverse names) result }
{
    match path_of(alloc, nodes, at) {
        Ok(path) => TreeError::Image(ImageFault::Overlap { path }),
        Err(_) => TreeError::NoMemory,
    }
}

/// The nodes of the objects of a disk, in the order in which the walk over its directories finds them. It takes at most
/// a read call for each sector of the directories that the walk comes to, whatever is answered, so no directory is read twice.
pub fn walk_disk<D: Disk>(
    alloc: Global,
    disk: &mut D,
    places: &Places,
    root: u32,
    root_size: u32,
    reserved: &[Extent],
) -> Result<Vec<Node>, TreeError>
    requires attached { IsTrue (D.attached disk.old) }
    requires size { D.sector_size disk.old ≡ sector_bytes (layout_of places.now) }
    requires room { disc_sectors (layout_of places.now) ≤ D.sectors disk.old }
    ensures ok { IfOk result (λ nodes. IsFound (layout_of places.now) (not_free (layout_of places.now) (sectors_in reserved.now)) root root_size (D.bytes disk.old) nodes.items) }
    ensures err { IfErr result (λ e. ForSome (D.bytes disk.old) (λ image.
        FailsAs (walk (reader_of image (layout_of places.now)) (layout_of places.now) (not_free (layout_of places.now) (sectors_in reserved.now)) root root_size) e)) }
    ensures reads { OnlyReads D.Disk disk.old disk.new }
    ensures few { IfOk result (λ nodes. D.read_calls disk.new ≤ D.read_calls disk.old + sum_by (directory_sectors (layout_of places.now)) nodes.items) }
    ensures most { ForSome (D.bytes disk.old) (λ image. D.read_calls disk.new ≤ D.read_calls disk.old
        + walk_sectors (reader_of image (layout_of places.now)) (layout_of places.now) (not_free (layout_of places.now) (sectors_in reserved.now)) root root_size) }
    ensures cause { result ≡ Err TreeError.DiskFault → Rose (D.faults disk.old) (D.faults disk.new) }
{
    let space = places.space();
    let mut taken = reserve(alloc, space, reserved)?;
    let node = root_node(alloc, space.dir_form(), root, root_size)?;
    claim_root(alloc, places, &mut taken, &node.entry)?;
    let mut nodes = Vec::new(alloc);
    push_node(&mut nodes, node)?;
    // Each directory takes sectors of its own, so that there are never more.
    let mut left = space.disc_sectors() + 1;
    let mut from = 0;
    let mut bytes = Vec::new(alloc);
    while let Some(at) = next_directory(&nodes, from) {
        if left == 0 {
            return Err(overlap_at(alloc, &nodes, at));
        }
        left -= 1;
        visit(alloc, disk, places, &mut nodes, &mut taken, at, &mut bytes)?;
        from = at + 1;
    }
    Ok(nodes)
}
