// The walk over the directories of a disk.
ghost use Rattle.std.specs.Prelude.{◌≡◌, ◌≤◌, ◌+◌, Err, IfErr, IfOk, IsTrue, List, Some, map};
ghost use Rattle.std.specs.Option.{ForSome};
ghost use Rattle.fc_device.specs.Faults.{Rose};
ghost use Rattle.fc_device.specs.Calls.{OnlyReads};
ghost use Rattle.fc_objects.specs.Extents.{sectors_in};
ghost use Rattle.fc_image.specs.Layout.{disc_sectors, sector_bytes};
ghost use Rattle.fc_image.specs.Walk.{reader_of, walk};
ghost use Rattle.fc_space.specs.Space.{layout_of};
ghost use Rattle.fc_tree.specs.Calls.{all_directory_sectors};
ghost use Rattle.fc_tree.specs.Nodes.{nodes_of};
ghost use Rattle.fc_tree.specs.declared.node.Node.{Node};
ghost use Rattle.fc_tree.specs.Loaded.{IsFaultOf, IsLoaded, not_free};
ghost use Rattle.fc_tree.specs.Reads.{walk_sectors};

use crate::node::TreeError;
use crate::tree::Tree;
use crate::walk::walk_disk;
use fc_device::{Disk, Extent};
use fc_space::Places;
use std::alloc::Global;

/// Walks the directories of a disk, the root first and the others in the order in which they are found, and numbers their
/// objects in that order. `root` is the root's address, and `root_size` its size in bytes, which counts for big
/// directories alone. `reserved` has the sectors of the map and of a boot block; no object may take them, nor a hole of
/// an old map. The disk is attached, has the map's sectors, and is at least as long as its disc. Each directory is read
/// once, whatever is answered: at most a read call is taken for each sector of the directories that the walk comes to, up to
/// its end or the first fault.
///
/// Each number below the tree's bound has a node, and there is no room for more yet.
///
/// The answer is `Image` exactly if the walk meets a fault, with the first, and `DiskFault` only if the disk's count
/// of faults rose.
pub fn load<D: Disk>(
    alloc: Global,
    disk: &mut D,
    places: &Places,
    root: u32,
    root_size: u32,
    reserved: &[Extent],
) -> Result<Tree, TreeError>
    requires attached { IsTrue (D.attached disk.old) }
    requires size { D.sector_size disk.old ≡ sector_bytes (layout_of places.now) }
    requires room { disc_sectors (layout_of places.now) ≤ D.sectors disk.old }
    ensures tree { IfOk result (λ tree. IsLoaded (nodes_of tree) (layout_of places.now) (sectors_in reserved.now) root root_size (D.bytes disk.old)) }
    ensures numbers { IfOk result (λ tree. (nodes : List Node) × (tree ≡ record { slots = map Some nodes; room = 0 })) }
    ensures fault { ForSome (D.bytes disk.old) (λ image. IfErr result
        (IsFaultOf (walk (reader_of image (layout_of places.now)) (layout_of places.now) (not_free (layout_of places.now) (sectors_in reserved.now)) root root_size))) }
    ensures reads { OnlyReads D.Disk disk.old disk.new }
    ensures few { IfOk result (λ tree. D.read_calls disk.new ≤ D.read_calls disk.old + all_directory_sectors (layout_of places.now) (nodes_of tree)) }
    ensures most { ForSome (D.bytes disk.old) (λ image. D.read_calls disk.new ≤ D.read_calls disk.old
        + walk_sectors (reader_of image (layout_of places.now)) (layout_of places.now) (not_free (layout_of places.now) (sectors_in reserved.now)) root root_size) }
    ensures cause { result ≡ Err TreeError.DiskFault → Rose (D.faults disk.old) (D.faults disk.new) }
{
    let nodes = walk_disk(alloc, disk, places, root, root_size, reserved)?;
    Ok(Tree::from_nodes(alloc, nodes)?)
}
