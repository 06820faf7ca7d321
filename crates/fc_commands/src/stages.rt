// The stages of a job in memory: what it wants, where that lies, what the directories say, and the bytes.
ghost use Rattle.std.specs.Prelude.{IfErr, IfOk};
ghost use Rattle.fc_change.specs.Held.{parts_of};
ghost use Rattle.fc_commands.specs.Stages.{CanPrepareJob, IsPreparedFor, RefusesJob};

use fc_change::{Change, Held, Job, Ready, SpaceError, draft, place, prepare, wants};
use fc_holdings::CommandError;
use fc_names::Name;
use std::alloc::Global;

/// A job's change, and the same ready to be written.
#[derive(Drop)]
pub struct Prepared {
    pub change: Change,
    pub ready: Ready,
}

/// Makes a job's change ready, whole in memory; nothing that the volume has is touched. Refused as the job is: `DirFull`, or for want of
/// space.
pub fn prepare_job(
    alloc: Global,
    held: &Held,
    job: &Job,
    name: &Name,
) -> Result<Prepared, CommandError>
    requires { CanPrepareJob (parts_of held.now) job.now name.now }
    ensures ready { IfOk result (IsPreparedFor (parts_of held.now) job.now name.now) }
    ensures refused { IfErr result (RefusesJob (parts_of held.now) job.now name.now) }
{
    let wanted = wants(held, job, name)?;
    let spaces = match place(alloc, held, &wanted) {
        Ok(spaces) => spaces,
        Err(SpaceError::Refused(refusal)) => return Err(CommandError::Refused(refusal)),
        Err(SpaceError::NoMemory) => return Err(CommandError::NoMemory),
    };
    let change = draft(alloc, held, *job, name, &spaces)?;
    let ready = prepare(alloc, held, &change, spaces)?;
    Ok(Prepared { change, ready })
}
