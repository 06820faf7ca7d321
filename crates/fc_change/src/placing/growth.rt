// The space of a directory that grows, and of an object beside it.
ghost use Rattle.std.specs.Prelude.{◌≡◌, ◌<◌, ◌^◌, false, All, IfOk, None, Some};
ghost use Rattle.fc_change.specs.declared.job.Growth.{Growth};
ghost use Rattle.fc_image.specs.Layout.{Layout};
ghost use Rattle.fc_image.specs.effects.Placed.{IsPlan};
ghost use Rattle.fc_image.specs.effects.Sharing.{units};
ghost use Rattle.fc_newmap.specs.Walk.{IsInZone};
ghost use Rattle.fc_objects.specs.Extents.{sectors_in};
ghost use Rattle.fc_plan.specs.Parts.{front_at, fronts};
ghost use Rattle.fc_plan.specs.Supply.{stock_of};
ghost use Rattle.fc_space.specs.Space.{layout_of};
ghost use Rattle.fc_change.specs.GrownSpace.{address_moved, place_of_plan};
ghost use Rattle.fc_change.specs.Held.{parts_of};
ghost use Rattle.fc_change.specs.Planning.{ArePlanned, HasBits, HasSpace, HasSpaceFor, HasSpaceIf, IsGrownTo, IsGrowthTaken, IsJudged, IsLonger, IsMovedTo, IsNewSpaceOf, IsObjectTaken, IsPlannedAfter, IsPlannedFrom, IsTakenFrom, alone_in, len_moved};
ghost use Rattle.fc_change.specs.Shortage.{AnswersSpace, short_of};

use crate::change::Regrowth;
use crate::directories::address_after;
use crate::held::Held;
use crate::job::Growth;
use crate::placing::room::{is_alone, room_for};
use crate::placing::shortage::bits_needed;
use crate::spaces::{GrownPlace, SpaceError};
use fc_device::{Extent, NoMemory};
use fc_names::Refusal;
use fc_newmap::NewMap;
use fc_placing::{directory_address, push_met};
use fc_plan::{Part, Plan, PlanError, Supply};
use std::alloc::Global;

// ---- the directory as it is

/// A directory that has to grow, as it is judged.
#[derive(Drop)]
pub enum Growing {
    /// None has to.
    Nothing,
    /// It has room where it lies: its place then.
    There(GrownPlace),
    /// It needs new space: what it grows to, its address, and whether it is alone in its identifier.
    Moves(Growth, u32, bool),
}

/// Whether a directory that has to grow has room where it lies.
pub fn judge(
    alloc: Global,
    held: &Held,
    map: &NewMap,
    grows: Option<Growth>,
) -> Result<Growing, NoMemory>
    requires map { layout_of held.now.places.now ≡ Layout.New map.now }
    requires longer { (g : Growth) → grows ≡ Some g → 0 < g.len }
    ensures { IfOk result (IsJudged map.now (parts_of held.now) grows) }
{
    let Some(growth) = grows else {
        return Ok(Growing::Nothing);
    };
    let Growth { node, len } = growth;
    let address = address_after(held.tree, None, node);
    match room_for(alloc, held.places, map, held.owners, node, address, len)? {
        Some(extents) => Ok(Growing::There(GrownPlace {
            directory: Regrowth { node, address, len },
            extents,
            moves: false,
        })),
        None => Ok(Growing::Moves(growth, address, is_alone(held.owners, node, address))),
    }
}

// The bytes for which it needs new space.
fn len_moved(growing: &Growing) -> u32
    ensures { result ≡ len_moved growing.now }
{
    match growing {
        Growing::Moves(growth, _, _) => growth.len,
        Growing::There(_) => 0,
        Growing::Nothing => 0,
    }
}

/// Whether it needs new space, and then keeps its identifier.
pub fn alone_in(growing: &Growing) -> bool
    ensures { result ≡ alone_in growing.now }
{
    match growing {
        Growing::Moves(_, _, alone) => *alone,
        Growing::There(_) => true,
        Growing::Nothing => true,
    }
}

// ---- plans

/// What is taken for an object, and for a directory that grows.
#[derive(Drop)]
pub struct Plans {
    pub object: Option<Plan>,
    pub dir: Option<Plan>,
}

// A plan of some bytes. There is enough for it, so that only memory may be short.
fn plan_bytes(alloc: Global, supply: &mut Supply, bytes: u32) -> Result<Plan, NoMemory>
    requires some { 0 < bytes }
    requires enough { HasSpace supply.old bytes }
    ensures { IfOk result (IsPlannedFrom supply.old supply.new bytes) }
{
    match supply.plan(alloc, u64::from(bytes)) {
        Ok(plan) => Ok(plan),
        Err(PlanError::NoMemory) => Err(NoMemory),
        Err(_) => unreachable!(),
    }
}

// Parts for some bytes. There is enough for them, too.
fn parts_for(alloc: Global, supply: &mut Supply, bytes: u32) -> Result<Vec<Part>, NoMemory>
    requires some { 0 < bytes }
    requires enough { HasBits supply.old bytes }
    ensures { IfOk result (λ parts. IsPlan supply.old.geometry supply.old.holes (units supply.old.geometry bytes) (fronts parts.items)) }
{
    match supply.take_parts(alloc, u64::from(bytes)) {
        Ok(parts) => Ok(parts),
        Err(PlanError::NoMemory) => Err(NoMemory),
        Err(_) => unreachable!(),
    }
}

// The space of an object of so many bytes, if it has some.
fn plan_object(alloc: Global, supply: &mut Supply, bytes: u32) -> Result<Option<Plan>, NoMemory>
    requires { 0 < bytes → HasSpace supply.old bytes }
    ensures { IfOk result (IsObjectTaken supply.old supply.new bytes) }
{
    if bytes == 0 {
        return Ok(None);
    }
    let plan = plan_bytes(alloc, supply, bytes)?;
    Ok(Some(plan))
}

// The new space of a directory at an address, of its own identifier if it is alone in it.
fn plan_moved(
    alloc: Global,
    supply: &mut Supply,
    alone: bool,
    address: u32,
    len: u32,
) -> Result<Plan, NoMemory>
    requires { HasSpaceFor supply.old alone len }
    ensures { IfOk result (IsTakenFrom supply.old alone address len) }
{
    if !alone {
        return plan_bytes(alloc, supply, len);
    }
    let parts = parts_for(alloc, supply, len)?;
    Ok(Plan {
        id: address / 256,
        parts,
    })
}

// The new space of a directory, if it needs some.
fn plan_directory(
    alloc: Global,
    supply: &mut Supply,
    growing: &Growing,
) -> Result<Option<Plan>, NoMemory>
    requires { HasSpaceIf supply.old growing.now }
    ensures { IfOk result (IsGrowthTaken supply.old growing.now) }
{
    match growing {
        Growing::Moves(growth, address, alone) => {
            let plan = plan_moved(alloc, supply, *alone, *address, growth.len)?;
            Ok(Some(plan))
        }
        Growing::There(_) => Ok(None),
        Growing::Nothing => Ok(None),
    }
}

// Plans the space of an object of so many bytes, and that of the directory from what the object's left. There is enough of it, so that
// only memory may be short.
fn plan_from(
    alloc: Global,
    map: &NewMap,
    supply: &mut Supply,
    bytes: u32,
    growing: &Growing,
) -> Result<Plans, NoMemory>
    requires all { supply.old ≡ stock_of map.now }
    requires longer { IsLonger growing.now }
    requires enough { short_of map.now bytes (alone_in growing.now) (len_moved growing.now) ≡ None }
    ensures { IfOk result (ArePlanned map.now bytes growing.now) }
{
    map.is_map();
    let object = plan_object(alloc, supply, bytes)?;
    let dir = plan_directory(alloc, supply, growing)?;
    Ok(Plans { object, dir })
}

/// Plans the space of an object of so many bytes, and that of the directory from what the object's left. Refused exactly as a command
/// is that needs both. The map's holes are gone over once, and not at all if neither needs any.
pub fn plan_both(
    alloc: Global,
    map: &NewMap,
    bytes: u32,
    growing: &Growing,
) -> Result<Plans, SpaceError>
    requires longer { IsLonger growing.now }
    ensures planned { IfOk result (ArePlanned map.now bytes growing.now) }
    ensures refused { AnswersSpace result (short_of map.now bytes (alone_in growing.now) (len_moved growing.now)) }
{
    if bytes == 0 && len_moved(growing) == 0 {
        return Ok(Plans {
            object: None,
            dir: None,
        });
    }
    let needed = bits_needed(map, bytes, alone_in(growing), len_moved(growing))?;
    let mut supply = Supply::new(alloc, map)?;
    if !supply.has_bits(needed) {
        return Err(SpaceError::Refused(Refusal::DiscFull));
    }
    let plans = plan_from(alloc, map, &mut supply, bytes, growing)?;
    Ok(plans)
}

// ---- where it lies

/// The sectors of so many bytes in new space, in their order, once the plan's parts are all the runs of its identifier.
pub fn extents_in(
    alloc: Global,
    map: &NewMap,
    plan: &Plan,
    bytes: u32,
) -> Result<Vec<Extent>, NoMemory>
    requires { All (λ part. IsInZone map.now.geometry (front_at part)) plan.now.parts.items }
    ensures { IfOk result (λ place. sectors_in place.items ≡ place_of_plan map.now.geometry plan.now bytes) }
{
    let g = map.geometry();
    let need = u64::from(bytes).div_ceil(u64::from(g.sector));
    let mut place = Vec::new(alloc);
    let left = push_met(&mut place, g, plan, true, need)?;
    push_met(&mut place, g, plan, false, left)?;
    Ok(place)
}

// The address of a directory with new space: another only with another identifier.
fn address_moved(alone: bool, address: u32, plan: &Plan) -> u32
    requires { alone ≡ false → plan.now.id < 2 ^ 24 }
    ensures { result ≡ address_moved alone address plan.now }
{
    if alone {
        address
    } else {
        directory_address(plan)
    }
}

// Where a directory is to lie in its new space.
fn place_moved(
    alloc: Global,
    map: &NewMap,
    growth: Growth,
    address: u32,
    alone: bool,
    plan: &Plan,
) -> Result<GrownPlace, NoMemory>
    requires { IsNewSpaceOf map.now growth address alone plan.now }
    ensures { IfOk result (IsMovedTo map.now growth address alone plan.now) }
{
    map.is_map();
    let Growth { node, len } = growth;
    let extents = extents_in(alloc, map, plan, len)?;
    let address = address_moved(alone, address, plan);
    Ok(GrownPlace {
        directory: Regrowth { node, address, len },
        extents,
        moves: true,
    })
}

/// Where the directory is to lie, if one grows.
pub fn place_grown(
    alloc: Global,
    map: &NewMap,
    growing: Growing,
    dir: &Option<Plan>,
) -> Result<Option<GrownPlace>, NoMemory>
    requires { IsPlannedAfter map.now growing dir.now }
    ensures { IfOk result (IsGrownTo map.now growing dir.now) }
{
    match growing {
        Growing::Nothing => Ok(None),
        Growing::There(place) => Ok(Some(place)),
        Growing::Moves(growth, address, alone) => {
            let Some(plan) = dir else {
                // It has one.
                unreachable!()
            };
            let place = place_moved(alloc, map, growth, address, alone, plan)?;
            Ok(Some(place))
        }
    }
}
