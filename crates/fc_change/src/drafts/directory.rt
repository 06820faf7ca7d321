// `cdir`: a directory comes.
ghost use Rattle.std.specs.Prelude.{◌≡◌, IfOk, Some};
ghost use Rattle.fc_drafts.specs.Entries.{directory_entry};
ghost use Rattle.fc_change.specs.declared.job.Job.{Job};
ghost use Rattle.fc_change.specs.Drafts.{CanTellJob, IsToldBy};
ghost use Rattle.fc_change.specs.Held.{parts_of};

use crate::change::{Regrowth, Turned};
use crate::directories::address_after;
use crate::drafts::Told;
use crate::held::Held;
use crate::rewriting::enter;
use fc_device::NoMemory;
use fc_dirs::Entry;
use fc_drafts::{Draft, directory_entry};
use fc_names::{Name, NameForm};
use std::alloc::Global;

// The entry of a new directory.
fn new_entry(form: NameForm, name: &Name, address: u32) -> Result<Entry, NoMemory>
    ensures { IfOk result (λ e. e ≡ directory_entry form name.now address) }
{
    let own = name.clone()?;
    Ok(directory_entry(form, own, address))
}

/// The directory of a node with the entry of a new directory, and that.
pub fn make(
    alloc: Global,
    held: &Held,
    grown: Option<Regrowth>,
    dir: u64,
    name: &Name,
    address: u32,
) -> Result<Told, NoMemory>
    requires { CanTellJob (parts_of held.now) (Job.Directory dir) name.now (Some address) grown }
    ensures { IfOk result (IsToldBy (parts_of held.now) (Job.Directory dir) name.now (Some address) grown) }
{
    let form = held.places.dir_form();
    let made = Draft::empty(alloc, form, address_after(held.tree, grown, dir), name)?;
    let entry = new_entry(form, name, address)?;
    let own = new_entry(form, name, address)?;
    let first = enter(alloc, held.tree, grown, dir, entry)?;
    Ok(Told {
        first,
        last: Vec::new(alloc),
        object: Turned::Comes(dir, own, Some(made)),
    })
}
