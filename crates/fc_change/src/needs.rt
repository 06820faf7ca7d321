// What a job needs of the disc, by the nodes and the owners.
ghost use Rattle.std.specs.Prelude.{◌≡◌, ◌<◌, ◌==◌, length, IfErr, IfOk};
ghost use Rattle.fc_names.specs.declared.refusal.Refusal.{Refusal};
ghost use Rattle.fc_dirs.specs.declared.Entry.{Entry};
ghost use Rattle.fc_drafts.specs.Rewriting.{IsAt};
ghost use Rattle.fc_drafts.specs.declared.room.Room.TheVariants as rooms;
ghost use Rattle.fc_dirs.specs.Directory.{Directory, entries_of};
ghost use Rattle.fc_drafts.specs.Gains.{GetsName, GetsNameFor, HasRoom};
ghost use Rattle.fc_image.specs.effects.Short.{Gain};
ghost use Rattle.fc_placing.specs.Copying.{copied_among};
ghost use Rattle.fc_tree.specs.Nodes.{body_in, nodes_of};
ghost use Rattle.fc_change.specs.Held.{parts_of};
ghost use Rattle.fc_change.specs.Needs.{AreWants, CanWant, HasRoomFor, HasRoomInPlace, HasRoomOf, HasRoomToMove, IsGrowthOf, SaysEntry, bytes_wanted, copy_wanted, is_copied, len_at, named_dir, node_left, room_of, slack_wanted};

use crate::held::Held;
use crate::job::{Growth, Job, Wants};
use fc_alloc::Owners;
use fc_drafts::{Room, new_dir_size};
use fc_names::{Name, Refusal};
use fc_newmap::MAP_ID;
use fc_placing::has_other;
use fc_refusals::{Renaming, Slot, Target};
use fc_space::Space;
use fc_tree::{Body, Tree};

// ---- room in a directory

// The room of the directory of a body for a name more.
fn room_in(body: &Body, name: &Name) -> Room
    ensures { (content : Directory) (gain : Gain) → body.now ≡ body_in content → GetsName content name.now gain → HasRoom content gain result }
{
    match body {
        Body::Small(dir) => Room::in_small(dir),
        Body::Big(dir) => Room::in_big(dir, name),
        Body::File => Room::Fits,
    }
}

// The room of the directory of a node for a name more.
fn room_for(tree: &Tree, n: u64, name: &Name) -> Room
    ensures { HasRoomFor (nodes_of tree.now) n name.now result }
{
    match tree.node(n) {
        Some(node) => room_in(&node.body, name),
        None => Room::Fits,
    }
}

// The room of the directory of a body for a name in place of that of its entry of a number. A name that is spelled as before fits.
fn room_renamed_in(body: &Body, at: usize, name: &Name) -> Room
    requires { (content : Directory) → body.now ≡ body_in content → at < length (entries_of content) }
    ensures kept { (content : Directory) (was : Entry) → body.now ≡ body_in content → IsAt (entries_of content) at was → was.name ≡ name.now → result ≡ rooms.Fits }
    ensures respelled { (content : Directory) (was : Entry) (gain : Gain) → body.now ≡ body_in content → IsAt (entries_of content) at was → (was.name ≡ name.now → ⊥)
        → GetsNameFor content was.name name.now gain → HasRoom content gain result }
{
    match body {
        Body::Big(dir) => Room::in_big_renamed(dir, at, name),
        Body::Small(dir) => {
            // Contracts see by this that there are no more entries than places.
            let _ = dir.entries();
            Room::Fits
        }
        Body::File => Room::Fits,
    }
}

// The room of a target's directory for a name in place of the target's.
fn room_in_place(tree: &Tree, target: Target, name: &Name) -> Room
    requires { SaysEntry (nodes_of tree.now) target }
    ensures { HasRoomInPlace (nodes_of tree.now) target name.now result }
{
    match tree.node(target.holder) {
        Some(node) => room_renamed_in(&node.body, target.at, name),
        None => Room::Fits,
    }
}

// The room of the directory to which a renaming leads.
fn room_to_move(tree: &Tree, renaming: Renaming, name: &Name) -> Room
    requires { SaysEntry (nodes_of tree.now) renaming.target }
    ensures { HasRoomToMove (renaming.holder == renaming.target.holder) (nodes_of tree.now) renaming name.now result }
{
    if renaming.holder == renaming.target.holder {
        room_in_place(tree, renaming.target, name)
    } else {
        room_for(tree, renaming.holder, name)
    }
}

// The room of the directory that a job gives a name.
fn room_of_job(tree: &Tree, job: Job, name: &Name) -> Room
    requires { CanWant (nodes_of tree.now) job }
    ensures { HasRoomOf (nodes_of tree.now) job name.now result }
{
    match job {
        Job::File(Slot::New(dir), _) => room_for(tree, dir, name),
        Job::Directory(dir) => room_for(tree, dir, name),
        Job::Move(renaming) => room_to_move(tree, renaming, name),
        _ => Room::Fits,
    }
}

// The directory that a job gives a name; 0 if it gives none.
fn named_dir(job: Job) -> u64
    ensures { result ≡ named_dir job }
{
    match job {
        Job::File(Slot::New(dir), _) | Job::Directory(dir) => dir,
        Job::Move(renaming) => renaming.holder,
        _ => 0,
    }
}

// Whether the directory that a job gives a name has to grow.
fn growth_of(tree: &Tree, job: Job, name: &Name) -> Result<Option<Growth>, Refusal>
    requires { CanWant (nodes_of tree.now) job }
    ensures grown { IfOk result (λ grows. IsGrowthOf (named_dir job) grows × HasRoomOf (nodes_of tree.now) job name.now (room_of grows)) }
    ensures full { IfErr result (λ refusal. (refusal ≡ Refusal.DirFull) × HasRoomOf (nodes_of tree.now) job name.now rooms.Full) }
{
    match room_of_job(tree, job, name) {
        Room::Full => Err(Refusal::DirFull),
        Room::Fits => Ok(None),
        Room::Grows(len) => Ok(Some(Growth {
            node: named_dir(job),
            len,
        })),
    }
}

// ---- a new object

// Whether a node's object is copied if it goes to a directory of a new map: a file that leaves its directory and shares its identifier.
fn copied_among(owners: &Owners, node: u64, dir: u64) -> bool
    ensures { result ≡ copied_among owners.now node dir }
{
    match owners.of(node) {
        Some(own) => {
            own.file && own.dir != dir && (own.id == MAP_ID || has_other(owners, node, own.id))
        }
        None => false,
    }
}

// Whether a renaming puts a copy of the file into its new directory. No two objects of an old map have one identifier.
fn is_copied(held: &Held, renaming: Renaming) -> bool
    ensures { result ≡ is_copied (parts_of held.now) renaming }
{
    match held.places.space() {
        Space::NewMapped(_) => copied_among(held.owners, renaming.target.node, renaming.holder),
        Space::OldMapped(_) => false,
    }
}

// The bytes of the object of a node, as its entry says.
fn len_of(tree: &Tree, n: u64) -> u32
    ensures { result ≡ len_at (nodes_of tree.now) n }
{
    match tree.node(n) {
        Some(node) => node.entry.len,
        None => 0,
    }
}

// The bytes of a new object, or of a copy.
fn bytes_wanted(held: &Held, job: Job) -> u32
    ensures { result ≡ bytes_wanted (parts_of held.now) job }
{
    match job {
        Job::File(_, words) => words.len,
        Job::Directory(_) => new_dir_size(held.places.dir_form()),
        Job::Move(renaming) if is_copied(held, renaming) => {
            len_of(held.tree, renaming.target.node)
        }
        _ => 0,
    }
}

// The directory whose files may leave slack for them.
fn slack_wanted(job: Job) -> Option<u64>
    ensures { result ≡ slack_wanted job }
{
    match job {
        Job::File(Slot::New(dir), _) => Some(dir),
        Job::File(Slot::Over(target), _) => Some(target.holder),
        _ => None,
    }
}

// The file that is copied.
fn copy_wanted(held: &Held, job: Job) -> Option<u64>
    ensures { result ≡ copy_wanted (parts_of held.now) job }
{
    match job {
        Job::Move(renaming) if is_copied(held, renaming) => Some(renaming.target.node),
        _ => None,
    }
}

// The object that goes, or in whose place another comes.
fn node_left(job: Job) -> Option<u64>
    ensures { result ≡ node_left job }
{
    match job {
        Job::File(Slot::Over(target), _) | Job::Removal(target) => Some(target.node),
        _ => None,
    }
}

/// What a job needs of the disc. Its only refusal is `DirFull`: if the directory that gets a name has too many entries, or would have more
/// bytes than a directory can have.
pub fn wants(held: &Held, job: &Job, name: &Name) -> Result<Wants, Refusal>
    requires { CanWant (parts_of held.now).nodes job.now }
    ensures wants { IfOk result (AreWants (parts_of held.now) job.now name.now) }
    ensures full { IfErr result (λ refusal. (refusal ≡ Refusal.DirFull) × HasRoomOf (parts_of held.now).nodes job.now name.now rooms.Full) }
{
    let grows = growth_of(held.tree, *job, name)?;
    Ok(Wants {
        bytes: bytes_wanted(held, *job),
        shares: slack_wanted(*job),
        copied: copy_wanted(held, *job),
        goes: node_left(*job),
        grows,
    })
}
