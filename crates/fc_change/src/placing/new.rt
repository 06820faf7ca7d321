// Places on new maps.
ghost use Rattle.std.specs.Prelude.{◌≡◌, ◌<◌, ◌^◌, ℕ, None, Some, IfOk, if◌then◌else◌, is_some};
ghost use Rattle.std.specs.Option.{option_map};
ghost use Rattle.fc_image.specs.Layout.{Layout};
ghost use Rattle.fc_objects.specs.Extents.{sectors_in};
ghost use Rattle.fc_placing.specs.Places.{id_in, shared_id};
ghost use Rattle.fc_placing.specs.Slack.{place_in};
ghost use Rattle.fc_space.specs.Space.{layout_of};
ghost use Rattle.fc_change.specs.Held.{parts_of};
ghost use Rattle.fc_change.specs.Places.{ArePlaced, AreSectors, CanPlace, HasSectorsAt, IsCopiedFrom, IsPlaceFor, IsPlacingFor, address_for, extents_in, is_directory, placing_of, plan_in};
ghost use Rattle.fc_change.specs.Planning.{ArePlanned, IsJudged};
ghost use Rattle.fc_change.specs.Prepared.{HasPlace};
ghost use Rattle.fc_change.specs.Shortage.{AnswersSpace, bytes_left, short_new, slack_for};

use crate::held::Held;
use crate::job::Wants;
use crate::pieces::{place_at, place_of_node};
use crate::placing::growth::{Growing, Plans, alone_in, extents_in, judge, place_grown, plan_both};
use crate::placing::leavings::gone_at_last;
use crate::placing::steps::{give_step, root_of, take_step};
use crate::spaces::{Place, SpaceError, Spaces};
use fc_alloc::Owners;
use fc_device::{Extent, NoMemory};
use fc_newmap::NewMap;
use fc_placing::{Placing, Share, address_of, directory_address, slack};
use fc_plan::Plan;
use std::alloc::Global;

// ---- the object

/// The slack that a new object gets, if it may have any and there is some.
pub fn share_for(
    alloc: Global,
    map: &NewMap,
    owners: &Owners,
    wants: &Wants,
) -> Result<Option<Share>, NoMemory>
    ensures { IfOk result (λ share. option_map place_in share ≡ slack_for map.now owners.now wants.now) }
{
    let Some(dir) = wants.shares else {
        return Ok(None);
    };
    slack(alloc, map, owners, dir, u64::from(wants.bytes))
}

/// The bytes of the object that need new space: none in slack.
pub fn bytes_left(share: &Option<Share>, bytes: u32) -> u32
    ensures { result ≡ (if is_some share.now then 0 else bytes) }
{
    match share {
        Some(_) => 0,
        None => bytes,
    }
}

/// Where the object is to lie: in slack if there is some, else in new space; without bytes nowhere.
pub fn placing_of(share: Option<Share>, own: Option<Plan>) -> Placing
    ensures { result ≡ placing_of share own }
{
    match share {
        Some(share) => Placing::Shared(share),
        None => match own {
            Some(plan) => Placing::New(plan),
            None => Placing::Nowhere,
        },
    }
}

/// The address of an object that is placed so: a directory begins with its identifier.
pub fn address_for(map: &NewMap, wants: &Wants, placing: &Placing) -> u32
    requires few { wants.now.bytes < 2 ^ 32 }
    requires id { id_in placing.now < 2 ^ 24 }
    ensures { result ≡ address_for map.now wants.now placing.now }
{
    match placing {
        Placing::New(plan) if is_directory(wants) => directory_address(plan),
        _ => address_of(placing, map, u64::from(wants.bytes)),
    }
}

// Whether the object is a directory: it may share no slack, and is no copy.
fn is_directory(wants: &Wants) -> bool
    ensures { result ≡ is_directory wants.now }
{
    wants.shares.is_none() && wants.copied.is_none()
}

// The sectors of the object.
fn extents_for(
    alloc: Global,
    held: &Held,
    map: &NewMap,
    placing: &Placing,
    address: u32,
    bytes: u32,
) -> Result<Vec<Extent>, NoMemory>
    requires map { layout_of held.now.places.now ≡ Layout.New map.now }
    requires some { HasSectorsAt map.now placing.now address bytes }
    ensures { IfOk result (λ extents. AreSectors map.now bytes placing.now address (sectors_in extents.items)) }
{
    map.is_map();
    match placing {
        Placing::New(plan) => extents_in(alloc, map, plan, bytes),
        _ => place_at(alloc, held.places, address, u64::from(bytes)),
    }
}

/// The identifier of others that it shares.
pub fn shared_id(placing: &Placing) -> Option<u32>
    ensures { result ≡ shared_id placing.now }
{
    match placing {
        Placing::Shared(share) => Some(share.id),
        Placing::Nowhere => None,
        Placing::New(_) => None,
    }
}

// What is taken for it.
fn plan_in(placing: Placing) -> Option<Plan>
    ensures { result ≡ plan_in placing }
{
    match placing {
        Placing::New(plan) => Some(plan),
        Placing::Shared(_) => None,
        Placing::Nowhere => None,
    }
}

/// The object's place, if it has one: a file without bytes has one, too.
pub fn object_place(
    alloc: Global,
    held: &Held,
    map: &NewMap,
    wants: &Wants,
    placing: &Placing,
) -> Result<Option<Place>, NoMemory>
    requires map { layout_of held.now.places.now ≡ Layout.New map.now }
    requires few { wants.now.bytes < 2 ^ 32 }
    requires id { id_in placing.now < 2 ^ 24 }
    requires placing { IsPlacingFor map.now held.now.owners.now wants.now placing.now }
    ensures { IfOk result (IsPlaceFor map.now wants.now placing.now) }
{
    if wants.bytes == 0 && wants.shares.is_none() {
        return Ok(None);
    }
    let address = address_for(map, wants, placing);
    let extents = extents_for(alloc, held, map, placing, address, wants.bytes)?;
    Ok(Some(Place { address, extents }))
}

/// Where the file lies that is copied, if one is.
pub fn copied_from(
    alloc: Global,
    held: &Held,
    copied: Option<u64>,
) -> Result<Option<Vec<Extent>>, NoMemory>
    requires { (n : ℕ) → copied ≡ Some n → HasPlace (parts_of held.now) n }
    ensures { IfOk result (λ from. IsCopiedFrom (parts_of held.now).layout (parts_of held.now).nodes copied (extents_in from)) }
{
    let Some(n) = copied else {
        return Ok(None);
    };
    let extents = place_of_node(alloc, held, n)?;
    Ok(Some(extents))
}

// ---- all of it

// The space of an object in slack or with this plan, and of a directory that grows, and what goes back.
fn spaces_for(
    alloc: Global,
    held: &Held,
    map: &NewMap,
    wants: &Wants,
    share: Option<Share>,
    growing: Growing,
    plans: Plans,
) -> Result<Spaces, NoMemory>
    requires map { layout_of held.now.places.now ≡ Layout.New map.now }
    requires can { CanPlace (parts_of held.now) wants.now }
    requires judged { IsJudged map.now (parts_of held.now) wants.now.grows growing }
    requires shared { option_map place_in share ≡ slack_for map.now held.now.owners.now wants.now }
    requires planned { ArePlanned map.now (bytes_left map.now held.now.owners.now wants.now) growing plans }
    ensures { IfOk result (ArePlaced map.now (parts_of held.now) wants.now) }
{
    map.is_map();
    let Plans { object: own, dir } = plans;
    let alone = alone_in(&growing);
    let placing = placing_of(share, own);
    let object = object_place(alloc, held, map, wants, &placing)?;
    let copied = copied_from(alloc, held, wants.copied)?;
    let gone = gone_at_last(alloc, held.owners, wants, shared_id(&placing), &dir, alone)?;
    let grown = place_grown(alloc, map, growing, &dir)?;
    let take = take_step(alloc, map, plan_in(placing), dir, alone, root_of(&grown))?;
    let give = give_step(alloc, map, gone)?;
    Ok(Spaces {
        object,
        copied,
        grown,
        take,
        give,
    })
}

/// Finds the space that a job wants of a new map, and what goes back. The object's comes first: slack that other files of its directory
/// leave, else new space. A directory that has to grow does so where it lies, if it has room there, else in new space from what the
/// object's left. The map's holes are gone over once.
pub fn place_new(
    alloc: Global,
    held: &Held,
    map: &NewMap,
    wants: &Wants,
) -> Result<Spaces, SpaceError>
    requires map { layout_of held.now.places.now ≡ Layout.New map.now }
    requires can { CanPlace (parts_of held.now) wants.now }
    ensures places { IfOk result (ArePlaced map.now (parts_of held.now) wants.now) }
    ensures refused { AnswersSpace result (short_new map.now (parts_of held.now) wants.now) }
{
    let share = share_for(alloc, map, held.owners, wants)?;
    let growing = judge(alloc, held, map, wants.grows)?;
    let bytes = bytes_left(&share, wants.bytes);
    let plans = plan_both(alloc, map, bytes, &growing)?;
    Ok(spaces_for(alloc, held, map, wants, share, growing, plans)?)
}
