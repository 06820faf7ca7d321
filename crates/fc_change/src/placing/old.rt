// Places on old maps. A volume's map is never edited: a copy of it is.
ghost use Rattle.std.specs.Prelude.{◌≡◌, ◌<◌, ℕ, Some, None, Ok, Err, length, IfErr, IfOk, IsErr};
ghost use Rattle.fc_image.specs.Layout.{Layout};
ghost use Rattle.fc_image.specs.effects.Short.{old_need};
ghost use Rattle.fc_changes.specs.old.Owed.{holding};
ghost use Rattle.fc_laws.specs.old.agree.Spaces.{CanGive};
ghost use Rattle.fc_oldmap.specs.Holes.{after_take, hole_limit, take_answer};
ghost use Rattle.fc_oldmap.specs.OldMap.{OldMapContent};
ghost use Rattle.fc_space.specs.Space.{layout_of};
ghost use Rattle.fc_change.specs.Held.{parts_of};
ghost use Rattle.fc_change.specs.OldSpace.{CanFreeFrom, IsMapNow, IsSameDisc, LieBehind, map_after, map_given, space_at, units_given, units_of, with_space_of};
ghost use Rattle.fc_change.specs.Places.{ArePlacedOld, CanPlace, IsPlaceWithout, IsStepTo, IsTakenFor};
ghost use Rattle.fc_change.specs.Refused.{refused_take};
ghost use Rattle.fc_change.specs.Shortage.{AnswersSpace, short_old, short_take};

use crate::held::Held;
use crate::job::Wants;
use crate::owner::object_bytes;
use crate::pieces::place_at;
use crate::spaces::{Place, SpaceError, Spaces};
use fc_bytes::put_le24;
use fc_dirs::Entry;
use fc_names::Refusal;
use fc_oldmap::{MapFull, OldMap, TakeError};
use fc_space::Space;
use fc_writing::MapStep;
use std::alloc::Global;

/// A copy of a map, by its bytes. Takes no memory.
pub fn copy_of(map: &OldMap) -> OldMap
    requires { LieBehind map.now }
    ensures { result ≡ map.now }
{
    fc_oldmap::reads_back();
    let _ = map.holes();
    let mut bytes = [0u8; 512];
    put_le24(&mut bytes, 252, map.disc_units());
    map.write(&mut bytes);
    match OldMap::read(&bytes, map.sector_units()) {
        Ok(copy) => copy,
        Err(_) => unreachable!(),
    }
}

/// The units of whole sectors that so many bytes take.
pub fn units_for(map: &OldMap, bytes: u64) -> u64
    ensures { result ≡ old_need map.now bytes }
{
    let units = u64::from(map.sector_units());
    bytes.div_ceil(256 * units) * units
}

// A step to another map, if it is another.
fn step_to(map: Option<OldMap>) -> MapStep
    ensures { IsStepTo map result }
{
    match map {
        Some(now) => MapStep::Old(now),
        None => MapStep::Nothing,
    }
}

// ---- what goes back

// The map with the space of an entry's object given back, if it has any. `MapFull` if there would be too many holes.
fn map_without(map: &OldMap, space: &Space, e: &Entry) -> Result<Option<OldMap>, MapFull>
    requires behind { LieBehind map.now }
    requires disc { IsSameDisc (layout_of space.now) map.now }
    requires free { 0 < units_of map.now e.now → CanGive map.now map.now.holes (space_at map.now e.now) }
    ensures now { IfOk result (λ now. IsMapNow map.now (with_space_of e.now map.now) now) }
    ensures none { IfOk result (λ now. units_of map.now e.now ≡ 0 → now ≡ None) }
    ensures full { IsErr result → hole_limit < length (with_space_of e.now map.now).holes }
{
    let units = units_for(map, object_bytes(space, e));
    if units == 0 {
        return Ok(None);
    }
    let _ = map.holes();
    let mut now = copy_of(map);
    now.give(e.address, units as u32)?;
    let _ = now.holes();
    Ok(Some(now))
}

// The map, without the space that was taken if some was, with the space of the object of a node given back, if one goes. `MapFull` if
// there would be too many holes.
fn give_back(
    held: &Held,
    map: &OldMap,
    taken: &Option<OldMap>,
    goes: Option<u64>,
) -> Result<Option<OldMap>, MapFull>
    requires map { layout_of held.now.places.now ≡ Layout.Old map.now }
    requires taken { (now : OldMapContent) → taken.now ≡ Some now → LieBehind now × (now ≡ holding map.now now.holes) }
    requires behind { LieBehind map.now }
    requires free { (n : ℕ) → goes ≡ Some n → CanFreeFrom map.now (map_after map.now taken.now) (parts_of held.now).nodes n }
    ensures now { IfOk result (λ now. IsMapNow (map_after map.now taken.now) (map_given map.now (parts_of held.now).nodes goes (map_after map.now taken.now)) now) }
    ensures none { IfOk result (λ now. units_given map.now (parts_of held.now).nodes goes ≡ 0 → now ≡ None) }
    ensures full { IsErr result → hole_limit < length (map_given map.now (parts_of held.now).nodes goes (map_after map.now taken.now)).holes }
{
    let Some(n) = goes else {
        return Ok(None);
    };
    let node = held.tree.node(n).unwrap();
    match taken {
        Some(now) => map_without(now, held.places.space(), &node.entry),
        None => map_without(map, held.places.space(), &node.entry),
    }
}

// ---- what is taken

/// Where some bytes go, and the map without their space.
#[derive(Drop)]
pub struct Taken {
    pub place: Option<Place>,
    pub map: Option<OldMap>,
}

// Where one byte or more begin, and the map without their space.
fn take_from(map: &OldMap, bytes: u64) -> Result<(u32, OldMap), TakeError>
    requires { LieBehind map.now }
    ensures place { IfOk result (λ taken. take_answer (old_need map.now bytes) map.now.holes ≡ Ok taken.0) }
    ensures map { IfOk result (λ taken. taken.1 ≡ holding map.now (after_take (old_need map.now bytes) map.now.holes)) }
    ensures refused { IfErr result (λ error. take_answer (old_need map.now bytes) map.now.holes ≡ Err error) }
{
    let _ = map.holes();
    let Ok(units) = u32::try_from(units_for(map, bytes)) else {
        return Err(TakeError::DiscFull);
    };
    let mut now = copy_of(map);
    let start = now.take(units)?;
    Ok((start, now))
}

// What a command answers if no space is taken.
fn refusal_of(error: TakeError) -> Refusal
    ensures { result ≡ refused_take error }
{
    match error {
        TakeError::DiscFull => Refusal::DiscFull,
        TakeError::CompactionRequired => Refusal::CompactionRequired,
    }
}

// The place of a new object. A file without bytes has one, too, and takes nothing.
fn take_bytes(alloc: Global, held: &Held, map: &OldMap, wants: &Wants) -> Result<Taken, SpaceError>
    requires map { layout_of held.now.places.now ≡ Layout.Old map.now }
    requires behind { LieBehind map.now }
    ensures taken { IfOk result (IsTakenFor map.now wants.now) }
    ensures refused { AnswersSpace result (short_take map.now wants.now.bytes) }
{
    let _ = map.holes();
    if wants.bytes == 0 {
        return Ok(Taken {
            place: place_without(alloc, wants),
            map: None,
        });
    }
    fc_laws::old::agree::spaces();
    let bytes = u64::from(wants.bytes);
    let (address, now) = match take_from(map, bytes) {
        Ok(taken) => taken,
        Err(error) => return Err(SpaceError::Refused(refusal_of(error))),
    };
    let extents = place_at(alloc, held.places, address, bytes)?;
    Ok(Taken {
        place: Some(Place { address, extents }),
        map: Some(now),
    })
}

// The place of a file without bytes.
fn place_without(alloc: Global, wants: &Wants) -> Option<Place>
    ensures { IsPlaceWithout wants.now result }
{
    if wants.shares.is_none() {
        return None;
    }
    Some(Place {
        address: 0,
        extents: Vec::new(alloc),
    })
}

/// Finds the space that a job wants of an old map, and what goes back.
pub fn place_old(
    alloc: Global,
    held: &Held,
    map: &OldMap,
    wants: &Wants,
) -> Result<Spaces, SpaceError>
    requires map { layout_of held.now.places.now ≡ Layout.Old map.now }
    requires can { CanPlace (parts_of held.now) wants.now }
    ensures places { IfOk result (ArePlacedOld map.now (parts_of held.now) wants.now) }
    ensures refused { AnswersSpace result (short_old map.now (parts_of held.now) wants.now) }
{
    let _ = map.holes();
    let Taken { place, map: taken } = take_bytes(alloc, held, map, wants)?;
    let given = match give_back(held, map, &taken, wants.goes) {
        Ok(given) => given,
        Err(MapFull) => return Err(SpaceError::Refused(Refusal::MapFull)),
    };
    Ok(Spaces {
        object: place,
        copied: None,
        grown: None,
        take: step_to(taken),
        give: step_to(given),
    })
}
