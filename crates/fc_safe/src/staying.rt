// What stays in its identifier, and how far an identifier reaches then.
ghost use Rattle.std.specs.Prelude.{◌≡◌, ◌<◌, ◌≤◌, ◌^◌, ◌++◌, ◌*◌, ℕ, count_by, map, filter, not, nat_lt, Contains, IfOk, OnOk, All, length, get_or};
ghost use Rattle.std.specs.List.{flat_map, list_any};
ghost use Rattle.std.specs.List.Sorted.{IsStrictlyIncreasing};
ghost use Rattle.fc_alloc.specs.Owners.{owns};
ghost use Rattle.fc_alloc.specs.declared.owner.Owner.{Owner};
ghost use Rattle.fc_newmap.specs.NewMap.{IsOfRecord};
ghost use Rattle.fc_plan.specs.Giving.{is_one_of};
ghost use Rattle.fc_safe.specs.Staying.{AreRaised, IsSized, end_then, holds_changed, is_carried, last_end, sectors_then, staying, staying_of};

use crate::lists::push;
use crate::sets::{has_node, id_set, place_of_id};
use fc_alloc::{Owner, Owners};
use fc_device::NoMemory;
use fc_record::Geometry;
use std::alloc::Global;

/// A directory that grows: its node, and the sectors that it then has.
#[derive(Clone, Copy)]
pub struct Longer {
    pub node: u64,
    pub sectors: u64,
}

/// What a command does to objects that are there: the nodes of the directories that are written anew, those of objects that leave their
/// identifiers, and a directory that grows.
#[derive(Drop)]
pub struct Moving {
    /// In their order, each once.
    pub changed: Vec<u64>,
    pub leaving: Vec<u64>,
    pub longer: Option<Longer>,
}

/// Whether a node's object leaves its identifier.
pub fn leaves(leaving: &[u64], n: u64) -> bool
    ensures { result ≡ is_one_of leaving.now n }
{
    leaving.iter().any(|k| *k == n)
}

// ---- the directories that are written anew

// Adds the owner of a node, if there is one and it stays in its identifier.
fn push_staying(found: &mut Vec<Owner>, own: Option<Owner>, leaving: &[u64]) -> Result<(), NoMemory>
    ensures { OnOk result (found.new.items ≡ found.old.items ++ staying leaving.now own) }
{
    let Some(own) = own else {
        return Ok(());
    };
    if leaves(leaving, own.node) {
        return Ok(());
    }
    push(found, own)
}

/// The owners of the directories that are written anew and stay in their identifiers.
pub fn staying_owners(
    alloc: Global,
    owners: &Owners,
    moving: &Moving,
) -> Result<Vec<Owner>, NoMemory>
    ensures { IfOk result (λ found. found.items ≡ flat_map (staying_of owners.now moving.now.leaving.items) moving.now.changed.items) }
{
    let mut found = Vec::new(alloc);
    for n in &moving.changed {
        push_staying(&mut found, owners.of(*n), &moving.leaving)?;
    }
    Ok(found)
}

// The identifiers of owners.
fn ids_of(alloc: Global, found: &[Owner]) -> Result<Vec<u32>, NoMemory>
    ensures { IfOk result (λ ids. ids.items ≡ map (λ (o : Owner). o.id) found.now) }
{
    let mut ids = Vec::new(alloc);
    for o in found {
        push(&mut ids, o.id)?;
    }
    Ok(ids)
}

/// The identifiers that hold a directory which is written anew and stays in them. `found` are these directories' owners.
pub fn moved_ids(
    alloc: Global,
    owners: &Owners,
    moving: &Moving,
    found: &[Owner],
) -> Result<Vec<u32>, NoMemory>
    requires { found.now ≡ flat_map (staying_of owners.now moving.now.leaving.items) moving.now.changed.items }
    ensures rising { IfOk result (λ ids. IsStrictlyIncreasing ids.items) }
    ensures same { IfOk result (λ ids. (id : ℕ) → is_one_of ids.items id ≡ holds_changed moving.now.changed.items moving.now.leaving.items owners.now id) }
{
    // Contracts see by this that no two owners are of one node.
    let _ = owners.list();
    let ids = ids_of(alloc, found)?;
    Ok(id_set(ids))
}

// ---- where identifiers end

// The sectors that an owner has then.
fn sectors_then(longer: Option<Longer>, o: &Owner) -> u64
    ensures { result ≡ sectors_then longer o.now }
{
    match longer {
        Some(l) if o.node == l.node => l.sectors,
        _ => o.sectors,
    }
}

// The bytes of its identifier up to its end.
fn end_then(g: &Geometry, longer: Option<Longer>, o: &Owner) -> u64
    requires record { IsOfRecord g.now }
    requires sized { IsSized longer o.now }
    ensures { result ≡ end_then g.now longer o.now }
{
    (o.first + sectors_then(longer, o)) * u64::from(g.sector)
}

// Moves the end of an owner's identifier on, if that is one of these, and the owner stays in it and ends later.
fn raise(g: &Geometry, ids: &[u32], moving: &Moving, o: &Owner, ends: &mut [u64])
    requires record { IsOfRecord g.now }
    requires sized { IsSized moving.now.longer o.now }
    requires rising { IsStrictlyIncreasing ids.now }
    requires as_many { length ends.old ≡ length ids.now }
    ensures as_many { length ends.new ≡ length ids.now }
    ensures each { AreRaised g.now moving.now ids.now o.now ends.old ends.new }
{
    if leaves(&moving.leaving, o.node) {
        return;
    }
    if let Some(place) = place_of_id(ids, o.id) {
        ends[place] = ends[place].max(end_then(g, moving.longer, o));
    }
}

// Where identifiers end by no owners.
fn no_ends(alloc: Global, ids: &[u32]) -> Result<Vec<u64>, NoMemory>
    ensures { IfOk result (λ ends. ends.items ≡ map (λ (id : ℕ). 0) ids.now) }
{
    let mut ends = Vec::new(alloc);
    for _ in ids {
        push(&mut ends, 0)?;
    }
    Ok(ends)
}

// Where identifiers end by these owners.
fn ends_among(
    alloc: Global,
    g: &Geometry,
    list: &[Owner],
    ids: &[u32],
    moving: &Moving,
) -> Result<Vec<u64>, NoMemory>
    requires record { IsOfRecord g.now }
    requires sized { (o : Owner) → Contains list.now o → IsSized moving.now.longer o }
    requires rising { IsStrictlyIncreasing ids.now }
    ensures { IfOk result (λ ends. ends.items ≡ map (last_end g.now moving.now.leaving.items moving.now.longer list.now) ids.now) }
{
    let mut ends = no_ends(alloc, ids)?;
    for o in list {
        raise(g, ids, moving, o, &mut ends);
    }
    Ok(ends)
}

// Whether one of some identifiers has more than one owner.
fn are_shared(owners: &Owners, ids: &[u32]) -> bool
    ensures { result ≡ list_any (λ (id : ℕ). nat_lt 1 (count_by (owns id) owners.now)) ids.now }
{
    ids.iter().any(|id| owners.count(*id) > 1)
}

/// Where the identifiers of `moved_ids` end then, in bytes: each at the end of its last owner that stays. The owners are gone over once, and only if one of
/// these identifiers has more than one.
pub fn moved_ends(
    alloc: Global,
    g: &Geometry,
    owners: &Owners,
    moving: &Moving,
    found: &[Owner],
    ids: &[u32],
) -> Result<Vec<u64>, NoMemory>
    requires record { IsOfRecord g.now }
    requires sized { (o : Owner) → Contains owners.now o → IsSized moving.now.longer o }
    requires found { found.now ≡ flat_map (staying_of owners.now moving.now.leaving.items) moving.now.changed.items }
    requires rising { IsStrictlyIncreasing ids.now }
    requires ids { (id : ℕ) → is_one_of ids.now id ≡ holds_changed moving.now.changed.items moving.now.leaving.items owners.now id }
    ensures { IfOk result (λ ends. ends.items ≡ map (last_end g.now moving.now.leaving.items moving.now.longer owners.now) ids.now) }
{
    // Contracts see by this that no two owners are of one node.
    let _ = owners.list();
    if are_shared(owners, ids) {
        ends_among(alloc, g, owners.list(), ids, moving)
    } else {
        ends_among(alloc, g, found, ids, moving)
    }
}
