// What each job's change says, drafted in memory.
ghost use Rattle.std.specs.Prelude.{◌≡◌, ◌∷◌, ◌++◌, [], ℕ, List, IfOk};
ghost use Rattle.fc_change.specs.Directories.{CanTellAround, IsGrownThere, Rewriting, TellAll, around, nodes_told, numbers};
ghost use Rattle.fc_change.specs.Drafts.{CanDraft, CanTellJob, IsChangeOf, IsPlaced, IsToldBy, address_in, grown_in};
ghost use Rattle.fc_change.specs.Held.{parts_of};

mod directory;
mod file;
mod removal;
mod renaming;
mod words;

use crate::around::tell_around;
use crate::change::{Change, Regrowth, Says, Turned};
use crate::held::Held;
use crate::job::Job;
use crate::lists::{append, push};
use crate::spaces::Spaces;
use directory::make;
use fc_device::NoMemory;
use fc_names::Name;
use fc_refusals::Slot;
use file::save_new;
use removal::remove;
use renaming::rename_object;
use std::alloc::Global;
use words::{mark, save_over, set};

/// What a job makes of its object and of the directories that it names: the one that has the entry afterwards, or loses an object that
/// goes; and last what is renamed, if it is a directory, and the directory that loses it.
#[derive(Drop)]
pub struct Told {
    pub first: Says,
    pub last: Vec<Says>,
    pub object: Turned,
}

// The address of a new object, if there is one.
fn address_in(spaces: &Spaces) -> Option<u32>
    ensures { result ≡ address_in spaces.now }
{
    match &spaces.object {
        Some(place) => Some(place.address),
        None => None,
    }
}

// The directory that grows, if one does.
fn grown_in(spaces: &Spaces) -> Option<Regrowth>
    ensures { result ≡ grown_in spaces.now }
{
    match &spaces.grown {
        Some(place) => Some(place.directory),
        None => None,
    }
}

// The directories that a job names, and its object. A new object of no bytes has address 0.
fn tell(
    alloc: Global,
    held: &Held,
    job: Job,
    name: &Name,
    address: Option<u32>,
    grown: Option<Regrowth>,
) -> Result<Told, NoMemory>
    requires can { CanTellJob (parts_of held.now) job name.now address grown }
    requires placed { IsPlaced job address }
    ensures { IfOk result (IsToldBy (parts_of held.now) job name.now address grown) }
{
    let at = address.unwrap_or(0);
    match job {
        Job::File(Slot::New(dir), words) => save_new(alloc, held, grown, dir, words, name, at),
        Job::File(Slot::Over(target), words) => save_over(alloc, held, grown, target, words, at),
        Job::Directory(dir) => make(alloc, held, grown, dir, name, at),
        Job::Removal(target) => remove(alloc, held, grown, target),
        Job::Move(renaming) => rename_object(alloc, held, grown, renaming, name, address),
        Job::Words(target, words) => set(alloc, held, grown, target, words),
        Job::Marks(target, attrs) => mark(alloc, held, grown, target, attrs),
    }
}

// All that is told, in the order in which it is written: those around a directory that grows come before the last ones.
fn gather(
    alloc: Global,
    held: &Held,
    grown: Option<Regrowth>,
    first: Says,
    last: Vec<Says>,
) -> Result<Vec<Says>, NoMemory>
    requires there { IsGrownThere (parts_of held.now).nodes grown }
    requires can { CanTellAround (parts_of held.now).nodes grown (first.node ∷ nodes_told last.items) }
    ensures { IfOk result (λ says. (firsts lasts : List (ℕ × Rewriting)) → TellAll grown (parts_of held.now).nodes firsts (first ∷ []) → TellAll grown (parts_of held.now).nodes lasts last.items
        → TellAll grown (parts_of held.now).nodes (firsts ++ (around grown (parts_of held.now).nodes (numbers (firsts ++ lasts)) ++ lasts)) says.items) }
{
    let first_node = first.node;
    let mut says = Vec::new(alloc);
    push(&mut says, first)?;
    tell_around(alloc, held.tree, grown, first_node, &last, &mut says)?;
    append(&mut says, last)?;
    Ok(says)
}

/// Drafts what a job's change says, in the space that is found for it. Only memory may lack; nothing that the volume has is touched.
pub fn draft(
    alloc: Global,
    held: &Held,
    job: Job,
    name: &Name,
    spaces: &Spaces,
) -> Result<Change, NoMemory>
    requires can { CanDraft (parts_of held.now) job name.now spaces.now }
    requires placed { IsPlaced job (address_in spaces.now) }
    ensures { IfOk result (IsChangeOf (parts_of held.now) job name.now spaces.now) }
{
    let grown = grown_in(spaces);
    let told = tell(alloc, held, job, name, address_in(spaces), grown)?;
    let Told {
        first,
        last,
        object,
    } = told;
    let says = gather(alloc, held, grown, first, last)?;
    Ok(Change {
        says,
        object,
        grown,
    })
}
