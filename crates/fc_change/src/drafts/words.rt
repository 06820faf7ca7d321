// `set`, `mark`, and a file in the place of another: another entry of the same name.
ghost use Rattle.std.specs.Prelude.{◌≡◌, IfOk, List, ℕ, Option, Some};
ghost use Rattle.fc_refusals.specs.declared.target.Slot.{Slot};
ghost use Rattle.fc_change.specs.Directories.{CanTell, Rewriting};
ghost use Rattle.fc_change.specs.declared.job.Job.{Job};
ghost use Rattle.fc_change.specs.Drafts.{CanTellJob, HasReworded, IsToldBy};
ghost use Rattle.fc_change.specs.Held.{parts_of};

use crate::change::{Regrowth, Turned};
use crate::directories::entry_of;
use crate::drafts::Told;
use crate::held::Held;
use crate::job::{FileWords, ObjectWords};
use crate::rewriting::replace;
use fc_device::NoMemory;
use fc_dirs::Entry;
use fc_drafts::{marked_entry, saved_entry, set_entry};
use fc_refusals::Target;
use std::alloc::Global;

// The directory of a target with another entry of the same name: there are two copies of it, one for the node.
fn reword(
    alloc: Global,
    held: &Held,
    grown: Option<Regrowth>,
    target: Target,
    entry: Entry,
    own: Entry,
) -> Result<Told, NoMemory>
    requires same { own ≡ entry }
    requires can { CanTell grown (parts_of held.now).nodes target.holder (Rewriting.Replaces target.at entry) }
    ensures { IfOk result (HasReworded (parts_of held.now).nodes grown target entry) }
{
    let first = replace(alloc, held.tree, grown, target.holder, target.at, entry)?;
    Ok(Told {
        first,
        last: Vec::new(alloc),
        object: Turned::Turns(target.node, target.holder, own),
    })
}

/// The directory of a target with other words and access bits in its entry.
pub fn set(
    alloc: Global,
    held: &Held,
    grown: Option<Regrowth>,
    target: Target,
    words: ObjectWords,
) -> Result<Told, NoMemory>
    requires { (name : List ℕ) × (address : Option ℕ) × CanTellJob (parts_of held.now) (Job.Words target words) name address grown }
    ensures { IfOk result (λ told. (name : List ℕ) (address : Option ℕ) → IsToldBy (parts_of held.now) (Job.Words target words) name address grown told) }
{
    fc_drafts::made_entries();
    let ObjectWords { load, exec, access } = words;
    let was = entry_of(held.tree, target);
    let entry = set_entry(was, load, exec, access)?;
    let own = set_entry(was, load, exec, access)?;
    reword(alloc, held, grown, target, entry, own)
}

/// The same with other attributes, but for bit 3.
pub fn mark(
    alloc: Global,
    held: &Held,
    grown: Option<Regrowth>,
    target: Target,
    attrs: u32,
) -> Result<Told, NoMemory>
    requires { (name : List ℕ) × (address : Option ℕ) × CanTellJob (parts_of held.now) (Job.Marks target attrs) name address grown }
    ensures { IfOk result (λ told. (name : List ℕ) (address : Option ℕ) → IsToldBy (parts_of held.now) (Job.Marks target attrs) name address grown told) }
{
    let was = entry_of(held.tree, target);
    let entry = marked_entry(was, attrs)?;
    let own = marked_entry(was, attrs)?;
    reword(alloc, held, grown, target, entry, own)
}

/// The same with the words, the length and the address of a file that takes the place of another.
pub fn save_over(
    alloc: Global,
    held: &Held,
    grown: Option<Regrowth>,
    target: Target,
    words: FileWords,
    address: u32,
) -> Result<Told, NoMemory>
    requires { (name : List ℕ) × CanTellJob (parts_of held.now) (Job.File (Slot.Over target) words) name (Some address) grown }
    ensures { IfOk result (λ told. (name : List ℕ) → IsToldBy (parts_of held.now) (Job.File (Slot.Over target) words) name (Some address) grown told) }
{
    let FileWords { load, exec, len } = words;
    let was = entry_of(held.tree, target);
    let entry = saved_entry(was, load, exec, len, address)?;
    let own = saved_entry(was, load, exec, len, address)?;
    reword(alloc, held, grown, target, entry, own)
}
