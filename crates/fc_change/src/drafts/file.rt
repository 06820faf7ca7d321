// `save` and `create`: a file comes.
ghost use Rattle.std.specs.Prelude.{◌≡◌, IfOk, Some};
ghost use Rattle.fc_drafts.specs.Entries.{file_entry};
ghost use Rattle.fc_refusals.specs.declared.target.Slot.{Slot};
ghost use Rattle.fc_change.specs.declared.job.Job.{Job};
ghost use Rattle.fc_change.specs.Drafts.{CanTellJob, IsToldBy};
ghost use Rattle.fc_change.specs.Held.{parts_of};

use crate::change::{Regrowth, Turned};
use crate::drafts::Told;
use crate::held::Held;
use crate::job::FileWords;
use crate::rewriting::enter;
use fc_device::NoMemory;
use fc_dirs::Entry;
use fc_drafts::file_entry;
use fc_names::Name;
use std::alloc::Global;

// The entry of a new file.
fn new_entry(name: &Name, words: FileWords, address: u32) -> Result<Entry, NoMemory>
    ensures { IfOk result (λ e. e ≡ file_entry name.now words.load words.exec words.len address) }
{
    let own = name.clone()?;
    let FileWords { load, exec, len } = words;
    Ok(file_entry(own, load, exec, len, address))
}

/// The directory of a node with the entry of a new file.
pub fn save_new(
    alloc: Global,
    held: &Held,
    grown: Option<Regrowth>,
    dir: u64,
    words: FileWords,
    name: &Name,
    address: u32,
) -> Result<Told, NoMemory>
    requires { CanTellJob (parts_of held.now) (Job.File (Slot.New dir) words) name.now (Some address) grown }
    ensures { IfOk result (IsToldBy (parts_of held.now) (Job.File (Slot.New dir) words) name.now (Some address) grown) }
{
    let entry = new_entry(name, words, address)?;
    let own = new_entry(name, words, address)?;
    let first = enter(alloc, held.tree, grown, dir, entry)?;
    Ok(Told {
        first,
        last: Vec::new(alloc),
        object: Turned::Comes(dir, own, None),
    })
}
