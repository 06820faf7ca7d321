// `delete`: an entry goes, and its object.
ghost use Rattle.std.specs.Prelude.{IfOk, List, ℕ, Option};
ghost use Rattle.fc_change.specs.declared.job.Job.{Job};
ghost use Rattle.fc_change.specs.Drafts.{CanTellJob, IsToldBy};
ghost use Rattle.fc_change.specs.Held.{parts_of};

use crate::change::{Regrowth, Turned};
use crate::drafts::Told;
use crate::held::Held;
use crate::rewriting::leave;
use fc_device::NoMemory;
use fc_refusals::Target;
use std::alloc::Global;

/// The directory of a target without its entry.
pub fn remove(
    alloc: Global,
    held: &Held,
    grown: Option<Regrowth>,
    target: Target,
) -> Result<Told, NoMemory>
    requires { (name : List ℕ) × (address : Option ℕ) × CanTellJob (parts_of held.now) (Job.Removal target) name address grown }
    ensures { IfOk result (λ told. (name : List ℕ) (address : Option ℕ) → IsToldBy (parts_of held.now) (Job.Removal target) name address grown told) }
{
    let first = leave(alloc, held.tree, grown, target.holder, target.at)?;
    Ok(Told {
        first,
        last: Vec::new(alloc),
        object: Turned::Goes(target.node),
    })
}
