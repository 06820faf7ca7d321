// A directory that grows: whether it gets a new identifier, and where it then lies, in the new runs of its own or in those of that.
ghost use Rattle.std.specs.Prelude.{◌≡◌, ◌<◌, ◌^◌, Contains, IfOk, Some};
ghost use Rattle.fc_image.specs.Layout.{Layout, id_of};
ghost use Rattle.fc_plan.specs.declared.plan.Plan.{Plan};
ghost use Rattle.fc_space.specs.Space.{layout_of};
ghost use Rattle.fc_tree.specs.Counts.{address_in};
ghost use Rattle.fc_tree.specs.Nodes.{nodes_of};
ghost use Rattle.fc_change.specs.declared.job.Growth.{Growth};
ghost use Rattle.fc_change.specs.Held.{parts_of};
ghost use Rattle.fc_safe.specs.FirstNeeds.{moving_out};
ghost use Rattle.fc_safe.specs.FirstSpace.{IsGrownFirst, LiesInZones, address_then};
ghost use Rattle.fc_safe.specs.Grown.{HasGrownPlan, IsGrownPlan, IsPlacedIn};

use crate::extents::extents_at;
use fc_change::{GrownPlace, Growth, Held, Regrowth, is_alone, room_for};
use fc_device::NoMemory;
use fc_newmap::NewMap;
use fc_placing::directory_address;
use fc_plan::Plan;
use fc_space::low_start;
use fc_tree::Tree;
use std::alloc::Global;

// The address of the object of a node.
fn address_of(tree: &Tree, n: u64) -> u32
    ensures { result ≡ address_in (nodes_of tree.now) n }
{
    match tree.node(n) {
        Some(node) => node.entry.address,
        None => 0,
    }
}

/// The directory that grows, if it gets a new identifier: it has no room where it lies, and isn't alone in its own.
pub fn moving_out(
    alloc: Global,
    held: &Held,
    map: &NewMap,
    grows: Option<Growth>,
) -> Result<Option<Growth>, NoMemory>
    requires map { layout_of held.now.places.now ≡ Layout.New map.now }
    requires longer { (g : Growth) → grows ≡ Some g → 0 < g.len }
    ensures { IfOk result (λ out. out ≡ moving_out map.now (parts_of held.now) grows) }
{
    let Some(growth) = grows else {
        return Ok(None);
    };
    let Growth { node, len } = growth;
    let address = address_of(held.tree, node);
    if is_alone(held.owners, node, address) {
        return Ok(None);
    }
    match room_for(alloc, held.places, map, held.owners, node, address, len)? {
        Some(_) => Ok(None),
        None => Ok(Some(growth)),
    }
}

// ---- its place

// The plan of an identifier.
fn plan_of(plans: &[Plan], id: u32) -> &Plan
    requires { (plan : Plan) × Contains plans.now plan × (plan.id ≡ id) }
    ensures among { Contains plans.now result.now }
    ensures id { result.now.id ≡ id }
{
    plans.iter().find(|plan| plan.id == id).unwrap()
}

// The plan of a directory of this identifier, or of a new one if it moves out.
fn grown_plan(plans: &[Plan], out: Option<Growth>, id: u32) -> &Plan
    requires { HasGrownPlan out plans.now id }
    ensures among { Contains plans.now result.now }
    ensures plan { IsGrownPlan out plans.now id result.now }
{
    match out {
        Some(_) => &plans[plans.len() - 1],
        None => plan_of(plans, id),
    }
}

// The address of a directory then: another only with another identifier.
fn address_then(out: Option<Growth>, address: u32, plan: &Plan) -> u32
    requires { plan.now.id < 2 ^ 24 }
    ensures { result ≡ address_then out address plan.now }
{
    match out {
        Some(_) => directory_address(plan),
        None => address,
    }
}

// Where a directory of this address lies in its plan.
fn place_in(
    alloc: Global,
    map: &NewMap,
    growth: Growth,
    address: u32,
    plan: &Plan,
) -> Result<GrownPlace, NoMemory>
    requires { LiesInZones map.now plan.now }
    ensures { IfOk result (IsPlacedIn map.now growth address plan.now) }
{
    let Growth { node, len } = growth;
    let first = low_start(map, address % 256);
    let need = u64::from(len).div_ceil(u64::from(map.geometry().sector));
    let extents = extents_at(alloc, map, plan, first, need)?;
    Ok(GrownPlace {
        directory: Regrowth { node, address, len },
        extents,
        moves: true,
    })
}

/// Where the directory that grows is to lie, if one does. `out` is the same if it gets a new identifier.
pub fn place_grown(
    alloc: Global,
    held: &Held,
    map: &NewMap,
    grows: Option<Growth>,
    out: Option<Growth>,
    plans: &[Plan],
) -> Result<Option<GrownPlace>, NoMemory>
    requires out { out ≡ moving_out map.now (parts_of held.now) grows }
    requires plan { (g : Growth) → grows ≡ Some g → HasGrownPlan out plans.now (id_of (address_in (parts_of held.now).nodes g.node)) }
    requires each { (plan : Plan) → Contains plans.now plan → LiesInZones map.now plan × (plan.id < 2 ^ 24) }
    ensures { IfOk result (IsGrownFirst map.now (parts_of held.now) grows plans.now) }
{
    let Some(growth) = grows else {
        return Ok(None);
    };
    let address = address_of(held.tree, growth.node);
    let plan = grown_plan(plans, out, address / 256);
    let place = place_in(alloc, map, growth, address_then(out, address, plan), plan)?;
    Ok(Some(place))
}
