// `compact`: objects slide down, so that no hole is followed by one.
ghost use Rattle.std.specs.Prelude.{◌≡◌, ◌⊎◌, ◌↔◌, ◌<◌, ◌≤◌, ◌*◌, ℕ, List, true, Some, Err, IfErr, IfOk, IsFalse, IsTrue, OnOk};
ghost use Rattle.std.specs.FinMap.{get};
ghost use Rattle.fc_device.specs.Calls.{FailsByFault, SameForm};
ghost use Rattle.fc_image.specs.effects.Moves.{Squashed};
ghost use Rattle.fc_image.specs.declared.effects.Owned.{Owned};
ghost use Rattle.fc_image.specs.Layout.{Layout, disc_sectors};
ghost use Rattle.fc_names.specs.declared.refusal.Refusal.{Refusal};
ghost use Rattle.fc_laws.specs.nodes.Edits.{Nodes};
ghost use Rattle.fc_oldmap.specs.OldMap.{OldMapContent};
ghost use Rattle.fc_oldlaws.specs.moves.Nodes.{AreMoved};
ghost use Rattle.fc_oldlaws.specs.moves.Writes.{AreDirectoriesPlaced};
ghost use Rattle.fc_space.specs.Space.{layout_of};
ghost use Rattle.fc_changes.specs.old.Owed.{IsWritten};
ghost use Rattle.fc_squash.specs.Places.{ChangesRoom, Leaves};
ghost use Rattle.fc_squash.specs.Sliding.{GoesOn, TellsAsBefore, TimeGoesOn};
ghost use Rattle.fc_squash.specs.Squashing.{AreBodies, KeepsBodies, SquashedBy};
ghost use Rattle.fc_tree.specs.Nodes.{bound_of, nodes_of};
ghost use Rattle.fc_tree.specs.declared.node.Node.{Node};
ghost use Rattle.fc_volume.specs.Changing.{KeepsVolume};
ghost use Rattle.fc_volume.specs.Compacting.{HasCompacted};
ghost use Rattle.fc_volume.specs.Volume.{StandsFor, parts_of};
ghost use Rattle.fc_volume.specs.OldChanging.{IsOldLayout};
ghost use Rattle.fc_volume.specs.OldCompacting.{CanRewrite, CompactsOnlyRoom, HasReaddressed, HasSlidInMemory, HasSlidOnDisk, HasSquashed, HaveDirectories, IsNotBig, IsReadyToCompact, IsRoom, IsRewrittenBy, MoveLaws, marks, slide_by, slide_of};
ghost use Rattle.fc_change.specs.OldSpace.{LieBehind};

mod directories;
mod moves;
mod nodes;
mod writing;

use crate::old::laws::is_old_map;
use crate::old::writing::write_map;
use crate::{CommandError, Copies, Volume};
use directories::{Spare, readdress_all, spares_of};
use fc_change::copy_of;
use fc_device::{Disk, DiskFault, NoMemory};
use fc_names::Refusal;
use fc_oldmap::OldMap;
use fc_space::{Places, Space};
use fc_squash::squash;
use fc_tree::Tree;
use moves::{Moves, sorted_objects};
use nodes::{move_nodes, remake_owners};
use std::alloc::Global;
use writing::write_directories;

/// What compaction needs of memory: the objects that slide, and what the directories need.
#[derive(Drop)]
pub struct Ready {
    pub moves: Moves,
    pub spares: Vec<Spare>,
}

// All of it, before anything is written.
fn prepare(alloc: Global, tree: &Tree, space: &Space) -> Result<Ready, NoMemory>
    requires { IsOldLayout (layout_of space.now) }
    ensures { IfOk result (IsReadyToCompact (layout_of space.now) (nodes_of tree.now) (bound_of tree.now)) }
{
    let owned = sorted_objects(alloc, tree, space)?;
    let moves = Moves::of(owned)?;
    let spares = spares_of(alloc, tree)?;
    Ok(Ready { moves, spares })
}

// The objects slide down, and then nothing is pending.
fn slide<D: Disk>(disk: &mut D, map: &mut OldMap, moves: &mut Moves) -> Result<(), DiskFault>
    requires attached { IsTrue (D.attached disk.old) }
    requires size { D.sector_size disk.old ≡ 256 * map.old.sector_units }
    requires on_disk { disc_sectors (Layout.Old map.old) ≤ D.sectors disk.old }
    requires bodies { AreBodies map.old moves.old.after.items }
    ensures before { moves.new.before ≡ moves.old.before }
    ensures kept { KeepsBodies map.old map.new moves.old.after.items moves.new.after.items }
    ensures squashed { OnOk result (Squashed map.old map.new moves.old.after.items moves.new.after.items) }
    ensures bytes { OnOk result (SquashedBy D.Disk disk.old disk.new map.old moves.old.after.items moves.new.after.items) }
    ensures places { Leaves D.Disk disk.old disk.new (ChangesRoom map.old moves.old.after.items) }
    ensures durable { OnOk result (IsFalse (D.pending disk.new)) }
    ensures form { SameForm D.Disk disk.old disk.new }
    ensures stops { TimeGoesOn D.Disk disk.old disk.new }
    ensures told { TellsAsBefore D.Disk disk.old disk.new }
    ensures cause { FailsByFault D.Disk disk.old disk.new result }
{
    squash(disk, map, &mut moves.after)?;
    disk.sync()?;
    Ok(())
}

// The nodes get their new addresses, the directories in which something changes are written where they lie then, and then the
// map is.
fn rewrite<D: Disk>(
    disk: &mut D,
    space: &Space,
    map: &OldMap,
    tree: &mut Tree,
    ready: &mut Ready,
) -> Result<(), DiskFault>
    requires attached { IsTrue (D.attached disk.old) }
    requires settled { IsFalse (D.pending disk.old) }
    requires size { D.sector_size disk.old ≡ 256 * map.now.sector_units }
    requires on_disk { disc_sectors (Layout.Old map.now) ≤ D.sectors disk.old }
    requires two { 2 ≤ D.sectors disk.old }
    requires old_map { IsOldLayout (layout_of space.now) }
    requires can { CanRewrite (nodes_of tree.old) (bound_of tree.old) ready.old }
    requires placed { (disc : OldMapContent) (nodes : Nodes) → layout_of space.now ≡ Layout.Old disc
        → AreMoved (slide_of disc map.now ready.old.moves) (nodes_of tree.old) nodes → AreDirectoriesPlaced map.now nodes }
    ensures readdressed { HasReaddressed (layout_of space.now) map.now ready.old.moves (nodes_of tree.old) (nodes_of tree.new) ready.new.spares.items }
    ensures moves { ready.new.moves ≡ ready.old.moves }
    ensures bound { bound_of tree.new ≡ bound_of tree.old }
    ensures written { OnOk result (IsRewrittenBy D.Disk disk.old disk.new map.now (nodes_of tree.new) (marks ready.new.spares.items) (bound_of tree.old)) }
    ensures places { (sectors : List ℕ) → HaveDirectories map.now (nodes_of tree.new) sectors → Leaves D.Disk disk.old disk.new (IsWritten map.now sectors) }
    ensures durable { OnOk result (IsFalse (D.pending disk.new)) }
    ensures goes { GoesOn D.Disk disk.old disk.new result }
{
    let _ = tree.bound();
    readdress_all(tree, &mut ready.spares, space, &ready.moves);
    move_nodes(tree, space, &ready.moves);
    write_directories(disk, map, tree, &ready.spares)?;
    write_map(disk, map)?;
    Ok(())
}

// All that is written.
fn write_compacted<D: Disk>(
    disk: &mut D,
    space: &Space,
    map: &mut OldMap,
    tree: &mut Tree,
    ready: &mut Ready,
) -> Result<(), DiskFault>
    requires attached { IsTrue (D.attached disk.old) }
    requires size { D.sector_size disk.old ≡ 256 * map.old.sector_units }
    requires on_disk { disc_sectors (Layout.Old map.old) ≤ D.sectors disk.old }
    requires two { 2 ≤ D.sectors disk.old }
    requires map { layout_of space.now ≡ Layout.Old map.old }
    requires ready { IsReadyToCompact (layout_of space.now) (nodes_of tree.old) (bound_of tree.old) ready.old }
    requires bodies { AreBodies map.old ready.old.moves.before.items }
    requires small { (n : ℕ) (node : Node) → get (nodes_of tree.old) n ≡ Some node → IsNotBig node.body }
    requires placed { (holes : OldMapContent) (now : List Owned) (nodes : Nodes) → KeepsBodies map.old holes ready.old.moves.before.items now → Squashed map.old holes ready.old.moves.before.items now
        → AreMoved (slide_by map.old holes ready.old.moves.before.items now) (nodes_of tree.old) nodes → AreDirectoriesPlaced holes nodes }
    ensures done { OnOk result (HasSlidInMemory map.old map.new ready.old.moves.before.items ready.new.moves (nodes_of tree.old) (nodes_of tree.new) (marks ready.new.spares.items)) }
    ensures bytes { OnOk result (HasSlidOnDisk D.Disk disk.old disk.new map.old map.new ready.new.moves (nodes_of tree.new) (marks ready.new.spares.items) (bound_of tree.old)) }
    ensures places { (sectors : List ℕ) → IsRoom map.old (nodes_of tree.old) ready.old.moves.before.items sectors → Leaves D.Disk disk.old disk.new (IsWritten map.old sectors) }
    ensures durable { OnOk result (IsFalse (D.pending disk.new)) }
    ensures goes { GoesOn D.Disk disk.old disk.new result }
{
    slide(disk, map, &mut ready.moves)?;
    rewrite(disk, space, map, tree, ready)?;
    Ok(())
}

// The laws of compaction, in one record.
fn move_laws()
    ensures { MoveLaws }
{
    fc_oldlaws::moves::sliding();
    fc_oldlaws::moves::ready();
    fc_oldlaws::moves::agreed();
    fc_oldlaws::moves::behind();
    fc_oldlaws::moves::directories();
    fc_oldlaws::moves::rewritten();
    fc_oldlaws::moves::taken_over();
}

// A copy of the volume's map.
fn map_of(places: &Places) -> OldMap
    requires old_map { IsOldLayout (layout_of places.now) }
    requires behind { (space : OldMapContent) → layout_of places.now ≡ Layout.Old space → LieBehind space }
    ensures { (space : OldMapContent) → layout_of places.now ≡ Layout.Old space → result ≡ space }
{
    match places.space() {
        Space::OldMapped(map) => copy_of(map),
        Space::NewMapped(_) => unreachable!(),
    }
}

// The volume has the new map, and the owners are as its nodes are now. It never runs out of memory.
fn take_over(volume: &mut Volume, map: OldMap)
    ensures { HasSquashed volume.old volume.new map }
{
    volume.holdings.places = Places::new(Space::OldMapped(map));
    volume.holdings.copies = Copies::Equal;
    remake_owners(
        &mut volume.holdings.owners,
        &volume.holdings.tree,
        volume.holdings.places.space(),
    );
}

/// Compacts a disc with an old map, of which nothing is pending: each object slides down into the hole before it, so that no
/// hole is directly followed by an object; then the directories in which an address changes are written, and then the map.
/// A crash in between may harm the disc. Whatever happens, nothing is written in lost space.
///
/// The only refusal is `ReadOnly`, exactly if the volume may not be changed. All memory is taken before the first write:
/// `NoMemory` leaves all as it was. `DiskFault` only if the disk's count of faults rose; the volume is unfit afterwards.
pub fn compact<D: Disk>(
    volume: &mut Volume,
    alloc: Global,
    disk: &mut D,
) -> Result<(), CommandError>
    requires attached { IsTrue (D.attached disk.old) }
    requires settled { IsFalse (D.pending disk.old) }
    requires fit { IsTrue volume.old.fit }
    requires stands { StandsFor D.Disk volume.old disk.old }
    requires old_map { IsOldLayout (parts_of volume.old).layout }
    ensures refused { (result ≡ Err (CommandError.Refused Refusal.ReadOnly)) ↔ (volume.old.read_only ≡ true) }
    ensures errors { IfErr result (λ error. (error ≡ CommandError.Refused Refusal.ReadOnly) ⊎ ((error ≡ CommandError.NoMemory) ⊎ (error ≡ CommandError.DiskFault))) }
    ensures compacted { OnOk result (HasCompacted D.Disk (parts_of volume.old) (parts_of volume.new) disk.old disk.new) }
    ensures places { CompactsOnlyRoom D.Disk (parts_of volume.old) disk.old disk.new }
    ensures keeps { KeepsVolume D.Disk disk.old disk.new volume.old volume.new result }
{
    move_laws();
    is_old_map(&volume.holdings.places);
    let _ = volume.holdings.tree.bound();
    if volume.read_only {
        return Err(CommandError::Refused(Refusal::ReadOnly));
    }
    let Ok(mut ready) = prepare(alloc, &volume.holdings.tree, volume.holdings.places.space()) else {
        return Err(CommandError::NoMemory);
    };
    let mut map = map_of(&volume.holdings.places);
    match write_compacted(
        disk,
        volume.holdings.places.space(),
        &mut map,
        &mut volume.holdings.tree,
        &mut ready,
    ) {
        Ok(()) => {
            take_over(volume, map);
            Ok(())
        }
        Err(DiskFault) => {
            volume.fit = false;
            Err(CommandError::DiskFault)
        }
    }
}
