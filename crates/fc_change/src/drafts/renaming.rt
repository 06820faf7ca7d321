// `rename`: an object gets another name, or another directory, or both.
ghost use Rattle.std.specs.Prelude.{◌≡◌, [], ◌∷◌, ℕ, Contains, IfOk};
ghost use Rattle.std.specs.Option.{unwrap_or};
ghost use Rattle.fc_drafts.specs.Entries.{renamed_entry};
ghost use Rattle.fc_change.specs.declared.job.Job.{Job};
ghost use Rattle.fc_change.specs.Drafts.{CanTellJob, IsToldBy, told_first, told_last};
ghost use Rattle.fc_change.specs.Directories.{CanTell, Rewriting, TellAll};
ghost use Rattle.fc_change.specs.Held.{parts_of};

use crate::change::{Regrowth, Says, Turned};
use crate::directories::entry_of;
use crate::drafts::Told;
use crate::held::Held;
use crate::lists::push;
use crate::rewriting::{enter, leave, rename, turn};
use fc_device::NoMemory;
use fc_dirs::Entry;
use fc_drafts::renamed_entry;
use fc_names::Name;
use fc_refusals::Renaming;
use std::alloc::Global;

// The entry under a name, with another address if there is one.
fn entry_named(was: &Entry, name: &Name, address: Option<u32>) -> Result<Entry, NoMemory>
    ensures { IfOk result (λ e. e ≡ renamed_entry was.now name.now (unwrap_or address was.now.address)) }
{
    let own = name.clone()?;
    Ok(renamed_entry(was, own, address.unwrap_or(was.address)))
}

// The directory that has the entry afterwards.
fn tell_holder(
    alloc: Global,
    held: &Held,
    grown: Option<Regrowth>,
    renaming: Renaming,
    e: Entry,
) -> Result<Says, NoMemory>
    requires { (q : ℕ × Rewriting) → Contains (told_first (Job.Move renaming) e) q → CanTell grown (parts_of held.now).nodes q.0 q.1 }
    ensures { IfOk result (λ said. TellAll grown (parts_of held.now).nodes (told_first (Job.Move renaming) e) (said ∷ [])) }
{
    let Renaming { target, holder } = renaming;
    if holder == target.holder {
        rename(alloc, held.tree, grown, holder, target.at, e)
    } else {
        enter(alloc, held.tree, grown, holder, e)
    }
}

// The object itself, if it is a directory, and the directory that loses its entry.
fn tell_last(
    alloc: Global,
    held: &Held,
    grown: Option<Regrowth>,
    renaming: Renaming,
    name: &Name,
) -> Result<Vec<Says>, NoMemory>
    requires { (q : ℕ × Rewriting) → Contains (told_last (parts_of held.now).nodes (Job.Move renaming) name.now) q → CanTell grown (parts_of held.now).nodes q.0 q.1 }
    ensures { IfOk result (λ last. TellAll grown (parts_of held.now).nodes (told_last (parts_of held.now).nodes (Job.Move renaming) name.now) last.items) }
{
    let Renaming { target, holder } = renaming;
    let mut last = Vec::new(alloc);
    if held.tree.is_directory(target.node) {
        let own = turn(alloc, held.tree, grown, target.node, holder, name)?;
        push(&mut last, own)?;
    }
    if holder != target.holder {
        let source = leave(alloc, held.tree, grown, target.holder, target.at)?;
        push(&mut last, source)?;
    }
    Ok(last)
}

/// The directories of an object that gets another name or holder, and itself.
pub fn rename_object(
    alloc: Global,
    held: &Held,
    grown: Option<Regrowth>,
    renaming: Renaming,
    name: &Name,
    address: Option<u32>,
) -> Result<Told, NoMemory>
    requires { CanTellJob (parts_of held.now) (Job.Move renaming) name.now address grown }
    ensures { IfOk result (IsToldBy (parts_of held.now) (Job.Move renaming) name.now address grown) }
{
    let was = entry_of(held.tree, renaming.target);
    let entry = entry_named(was, name, address)?;
    let own = entry_named(was, name, address)?;
    let first = tell_holder(alloc, held, grown, renaming, entry)?;
    let last = tell_last(alloc, held, grown, renaming, name)?;
    Ok(Told {
        first,
        last,
        object: Turned::Turns(renaming.target.node, renaming.holder, own),
    })
}
