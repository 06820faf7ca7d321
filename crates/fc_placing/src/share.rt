// Which owners an identifier has, and what they leave free of it.

ghost use Rattle.std.specs.Prelude.{◌≡◌, ◌&&◌, ◌==◌, ◌<◌, ◌-◌, ◌^◌, IfOk, IsPermutation, count_by, filter, length, nat_eq};
ghost use Rattle.std.specs.List.{find, list_all};
ghost use Rattle.std.specs.List.Sorted.{IsNonDecreasingBy};
ghost use Rattle.std.specs.Option.{option_map};
ghost use Rattle.fc_image.specs.effects.Sharing.{slack_among};
ghost use Rattle.fc_record.specs.Record.{id_limit};
ghost use Rattle.fc_placing.specs.Slack.{has_id, has_shares, holdings, is_good, is_open, least_low, place_in, shares_from};
ghost use Rattle.fc_alloc.specs.Owners.{AreHeldBy, is_held};

use crate::lows::free_low;
use crate::room::has_room;
use fc_alloc::{Owner, Owners};
use fc_device::NoMemory;
use fc_newmap::{MAP_ID, NewMap, id_limit};
use std::alloc::Global;

/// A place in an identifier that others have: the identifier, and the low byte at which a file may begin.
#[derive(Clone, Copy, Debug, PartialEq, Eq)]
pub struct Share {
    pub id: u32,
    pub low: u8,
}

// Whether an owner may be shared with: a file of the directory, whose low byte can be counted on from.
fn is_open(o: &Owner, dir: u64) -> bool
    ensures { result ≡ is_open dir o.now }
{
    o.file && o.dir == dir && o.low >= 1
}

// The owners that a directory holds.
fn held_among(alloc: Global, owners: &[Owner], dir: u64) -> Result<Vec<Owner>, NoMemory>
    ensures { IfOk result (λ held. held.items ≡ filter (is_held dir) owners.now) }
{
    let all = owners.iter().copied();
    Ok(all.filter(|o| o.dir == dir).collect(alloc)?)
}

// The owners that a directory holds, in order, where that isn't kept.
fn sorted_owners(alloc: Global, owners: &Owners, dir: u64) -> Result<Vec<Owner>, NoMemory>
    ensures { IfOk result (λ held. AreHeldBy dir owners.now held.items) }
{
    let mut held = held_among(alloc, owners.list(), dir)?;
    held.sort_unstable_by_key(|o| (o.id, o.first));
    Ok(held)
}

// Whether all of these owners may be shared with.
fn are_open(group: &[Owner], dir: u64) -> bool
    ensures { result ≡ list_all (is_open dir) group.now }
{
    group.iter().all(|o| is_open(o, dir))
}

// Whether an identifier is one of those in which shares are, and has no owners but these, which may all be shared with.
fn may_share(map: &NewMap, owners: &Owners, dir: u64, group: &[Owner], id: u32) -> bool
    ensures { result ≡ (has_shares map.now id && ((length group.now == count_by (has_id id) owners.now) && list_all (is_open dir) group.now)) }
{
    MAP_ID < id
        && id < id_limit(map.geometry())
        && group.len() == owners.count(id)
        && are_open(group, dir)
}

// The least low byte of an identifier that is left free, if the identifier may be shared and has the sectors from there
// on. `group` are its owners that the directory holds.
fn least_low(
    map: &NewMap,
    owners: &Owners,
    dir: u64,
    group: &[Owner],
    id: u32,
    need: u64,
) -> Option<u8>
    requires some { 0 < need }
    requires few { need < 2 ^ 63 }
    requires found { 0 < length group.now }
    requires sorted { IsNonDecreasingBy (λ o. o.first) group.now }
    requires group { IsPermutation (filter (has_id id) (filter (is_held dir) owners.now)) group.now }
    ensures { result ≡ least_low map.now owners.now dir need id }
{
    if !may_share(map, owners, dir, group, id) {
        return None;
    }
    let low = free_low(map, group, need);
    if has_room(map, id, low, need) {
        Some(low as u8)
    } else {
        None
    }
}

// The first share of the identifiers of the owners that a directory holds.
fn first_share(map: &NewMap, owners: &Owners, dir: u64, held: &[Owner], need: u64) -> Option<Share>
    requires some { 0 < need }
    requires few { need < 2 ^ 63 }
    requires held { AreHeldBy dir owners.now held.now }
    ensures { option_map place_in result ≡ find (is_good map.now owners.now dir need) (shares_from 3 (id_limit map.now.geometry - 3)) }
{
    let mut rest = held;
    while let Some(first) = rest.first() {
        let id = first.id;
        let count = rest.partition_point(|o| o.id <= id);
        let (group, others) = rest.split_at(count);
        if let Some(low) = least_low(map, owners, dir, group, id, need) {
            return Some(Share { id, low });
        }
        rest = others;
    }
    None
}

/// The least identifier, and in it the least low byte, at which a file of so many bytes of a directory may be put beside
/// other files of that directory. Of the owners those of the directory's objects alone are gone over. The runs of an identifier are gone over only if it may be shared, has a low byte free, and the map has no tally of
/// it. `None` exactly if there is none such, and for no bytes.
pub fn slack(
    alloc: Global,
    map: &NewMap,
    owners: &Owners,
    dir: u64,
    bytes: u64,
) -> Result<Option<Share>, NoMemory>
    requires few { bytes < 2 ^ 63 }
    ensures { IfOk result (λ share. option_map place_in share ≡ slack_among nat_eq map.now (holdings map.now owners.now) dir bytes) }
{
    if bytes == 0 {
        return Ok(None);
    }
    let need = bytes.div_ceil(u64::from(map.geometry().sector));
    if let Some(held) = owners.held_in(dir) {
        return Ok(first_share(map, owners, dir, held, need));
    }
    let held = sorted_owners(alloc, owners, dir)?;
    Ok(first_share(map, owners, dir, &held, need))
}
