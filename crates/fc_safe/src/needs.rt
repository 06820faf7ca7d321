// Space for needs: each by first fit, in the holes that those before it left.
ghost use Rattle.std.specs.Prelude.{◌≡◌, ◌<◌, ◌≤◌, ◌^◌, [], All, count_by, length, None, IfErr, IfOk};
ghost use Rattle.fc_image.specs.effects.Sharing.{new_ids};
ghost use Rattle.fc_plan.specs.Supply.{stock_of};
ghost use Rattle.fc_safe.specs.Answers.{AnswersSafe};
ghost use Rattle.fc_safe.specs.Needs.{AreMet, CanNeed, IsMet, IsUnmet, bits_of, full_for, is_new};

use crate::error::SafeError;
use crate::lists::push;
use fc_newmap::NewMap;
use fc_plan::{Plan, Supply};
use std::alloc::Global;

/// What is needed of space: so many bytes, as all the runs of this identifier, or of a new one.
#[derive(Clone, Copy)]
pub struct Need {
    pub id: Option<u32>,
    pub bytes: u64,
}

// Meets one need.
fn plan_need(alloc: Global, supply: &mut Supply, need: Need) -> Result<Plan, SafeError>
    requires need { CanNeed need }
    requires ids { need.id ≡ None → 0 < length supply.old.ids }
    ensures met { IfOk result (IsMet supply.old supply.new need) }
    ensures unmet { IfErr result (IsUnmet supply.old need) }
{
    let Some(id) = need.id else {
        return Ok(supply.plan_first(alloc, need.bytes)?);
    };
    let parts = supply.take_first(alloc, need.bytes)?;
    Ok(Plan { id, parts })
}

/// Plans space for needs, each by first fit in the holes that those before it left. A new identifier is the least that no run and no need
/// before has. `DiscFull` exactly if a need doesn't find enough; there are identifiers enough. The map stays as it is, and its holes are gone over once.
pub fn plan_needs(alloc: Global, map: &NewMap, needs: &[Need]) -> Result<Vec<Plan>, SafeError>
    requires needs { All CanNeed needs.now }
    requires ids { count_by is_new needs.now ≤ length (new_ids map.now) }
    ensures plans { IfOk result (λ plans. AreMet map.now needs.now plans.items) }
    ensures refused { AnswersSafe result (full_for map.now (bits_of map.now.geometry needs.now)) }
{
    let mut supply = Supply::new(alloc, map)?;
    let mut plans = Vec::new(alloc);
    for need in needs {
        let plan = match plan_need(alloc, &mut supply, *need) {
            Ok(plan) => plan,
            Err(error) => return Err(error),
        };
        push(&mut plans, plan)?;
    }
    Ok(plans)
}
