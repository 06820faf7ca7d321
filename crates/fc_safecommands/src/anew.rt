// A change, made ready to be written into new runs of the identifiers that it touches.
ghost use Rattle.std.specs.Prelude.{◌≡◌, ◌++◌, Contains, IfOk, IsSome, OnOk, filter};
ghost use Rattle.std.specs.List.{find, list_all, list_any};
ghost use Rattle.fc_alloc.specs.Owners.{is_node};
ghost use Rattle.fc_image.specs.Layout.{Layout};
ghost use Rattle.fc_objects.specs.Extents.{sectors_in};
ghost use Rattle.fc_plan.specs.declared.plan.Plan.{Plan};
ghost use Rattle.fc_space.specs.Space.{layout_of};
ghost use Rattle.fc_change.specs.declared.change.Says.{Says};
ghost use Rattle.fc_change.specs.Held.{parts_of};
ghost use Rattle.fc_change.specs.Prepared.{HasPlace};
ghost use Rattle.fc_safe.specs.FirstSpace.{LiesInZones};
ghost use Rattle.fc_safecommands.specs.Anew.{AreEarly, AreTakenAlong, CanWriteAnew, IsEarlyPiece, IsPieceAnew, IsReadyAnew, IsTakenAlong, PiecesAnew, has_plan, is_leaving, is_said, is_said_alone, is_taken_along, laid_by, holds_node, plans_in};

use fc_alloc::Owner;
use fc_change::{
    Change, GrownPlace, Held, MapStep, Piece, Ready, Says, Spaces, Transfer, Wants, new_pieces,
    piece_of, place_of_node, source_of,
};
use fc_device::{Extent, NoMemory};
use fc_newmap::NewMap;
use fc_plan::Plan;
use fc_safe::{extents_at, push};
use std::alloc::Global;

// Where an owner is to lie, in the space that plans take for its identifier; nowhere if they take none.
fn place_by_plan(
    alloc: Global,
    map: &NewMap,
    plans: &[Plan],
    own: &Owner,
) -> Result<Vec<Extent>, NoMemory>
    requires { (p : Plan) → Contains plans.now p → LiesInZones map.now p }
    ensures { IfOk result (λ place. sectors_in place.items ≡ laid_by map.now plans.now own.now) }
{
    for plan in plans {
        if plan.id == own.id {
            return extents_at(alloc, map, plan, own.first, own.sectors);
        }
    }
    Ok(Vec::new(alloc))
}

// Whether plans take space for an identifier.
fn has_plan(plans: &[Plan], id: u32) -> bool
    ensures { result ≡ has_plan plans.now id }
{
    plans.iter().any(|plan| plan.id == id)
}

// ---- directories

// The bytes of a directory's draft, for its new sectors.
fn piece_anew(
    alloc: Global,
    held: &Held,
    map: &NewMap,
    plans: &[Plan],
    said: &Says,
) -> Result<Piece, NoMemory>
    requires zones { (p : Plan) → Contains plans.now p → LiesInZones map.now p }
    requires own { IsSome (find (is_node said.now.node) held.now.owners.now) }
    ensures { IfOk result (IsPieceAnew map.now (parts_of held.now) plans.now said.now) }
{
    let own = held.owners.of(said.node).unwrap();
    let place = place_by_plan(alloc, map, plans, &own)?;
    piece_of(alloc, &said.draft, place)
}

// Extents with memory of their own.
fn copy_of(alloc: Global, extents: &[Extent]) -> Result<Vec<Extent>, NoMemory>
    ensures { IfOk result (λ copy. copy.items ≡ extents.now) }
{
    let mut copy = Vec::new(alloc);
    copy.extend_from_slice(extents)?;
    Ok(copy)
}

// The bytes of a directory's draft, for all its sectors then.
fn early_piece(
    alloc: Global,
    held: &Held,
    map: &NewMap,
    plans: &[Plan],
    grown: &Option<GrownPlace>,
    said: &Says,
) -> Result<Piece, NoMemory>
    requires zones { (p : Plan) → Contains plans.now p → LiesInZones map.now p }
    requires own { IsSome (find (is_node said.now.node) held.now.owners.now) }
    ensures { IfOk result (IsEarlyPiece map.now (parts_of held.now) plans.now grown.now said.now) }
{
    let Some(g) = grown else {
        return piece_anew(alloc, held, map, plans, said);
    };
    if g.directory.node != said.node {
        return piece_anew(alloc, held, map, plans, said);
    }
    piece_of(alloc, &said.draft, copy_of(alloc, &g.extents)?)
}

// The same of each.
fn pieces_anew(
    alloc: Global,
    held: &Held,
    map: &NewMap,
    plans: &[Plan],
    grown: &Option<GrownPlace>,
    change: &Change,
) -> Result<Vec<Piece>, NoMemory>
    requires zones { (p : Plan) → Contains plans.now p → LiesInZones map.now p }
    requires can { CanWriteAnew (parts_of held.now) change.now }
    ensures { IfOk result (λ pieces. PiecesAnew map.now (parts_of held.now) plans.now grown.now change.now.says.items pieces.items) }
{
    let mut pieces = Vec::new(alloc);
    for said in &change.says {
        let piece = early_piece(alloc, held, map, plans, grown, said)?;
        push(&mut pieces, piece)?;
    }
    Ok(pieces)
}

// Puts pieces after the others, in their order.
fn append(pieces: &mut Vec<Piece>, more: Vec<Piece>) -> Result<(), NoMemory>
    ensures { OnOk result (pieces.new.items ≡ pieces.old.items ++ more.items) }
{
    for piece in more {
        push(pieces, piece)?;
    }
    Ok(())
}

// All pieces: those of the directories that say something, and that of a new one.
fn early_pieces(
    alloc: Global,
    held: &Held,
    map: &NewMap,
    change: &Change,
    spaces: &Spaces,
) -> Result<Vec<Piece>, NoMemory>
    requires zones { (p : Plan) → Contains (plans_in spaces.now.take) p → LiesInZones map.now p }
    requires can { CanWriteAnew (parts_of held.now) change.now }
    ensures { IfOk result (λ pieces. AreEarly map.now (parts_of held.now) change.now spaces.now pieces.items) }
{
    let plans = plans_in(&spaces.take);
    let mut pieces = pieces_anew(alloc, held, map, plans, &spaces.grown, change)?;
    let made = new_pieces(alloc, &change.object, &spaces.object)?;
    append(&mut pieces, made)?;
    Ok(pieces)
}

// ---- what is taken along

// Whether the directory of a node is told what it says.
fn is_said(says: &[Says], n: u64) -> bool
    ensures { result ≡ is_said says.now n }
{
    says.iter().any(|said| said.node == n)
}

// Whether the object of a node leaves its identifier: it goes, or it is copied elsewhere.
fn is_leaving(wants: &Wants, n: u64) -> bool
    ensures { result ≡ is_leaving wants.now n }
{
    wants.goes == Some(n) || wants.copied == Some(n)
}

// Whether an owner is taken along.
fn is_taken_along(plans: &[Plan], wants: &Wants, change: &Change, own: &Owner) -> bool
    ensures { result ≡ is_taken_along plans.now wants.now change.now own.now }
{
    has_plan(plans, own.id) && !is_said(&change.says, own.node) && !is_leaving(wants, own.node)
}

// Whether an identifier holds the object of a node.
fn holds_node(held: &Held, id: u32, n: u64) -> bool
    ensures { result ≡ holds_node held.now.owners.now id n }
{
    match held.owners.of(n) {
        Some(own) => own.id == id,
        None => false,
    }
}

// Whether an identifier holds a directory that is told what it says.
fn holds_said(held: &Held, says: &[Says], id: u32) -> bool
    ensures { result ≡ list_any (λ (s : Says). holds_node held.now.owners.now id s.node) says.now }
{
    says.iter().any(|said| holds_node(held, id, said.node))
}

// Whether an identifier has no owner, or one alone, a directory that is told what it says.
fn is_said_alone(held: &Held, says: &[Says], id: u32) -> bool
    ensures { result ≡ is_said_alone held.now.owners.now says.now id }
{
    if !held.owners.owned(id) {
        return true;
    }
    held.owners.count(id) == 1 && holds_said(held, says, id)
}

// Whether that holds of a plan's identifier.
fn is_plan_alone(held: &Held, change: &Change, plan: &Plan) -> bool
    ensures { result ≡ is_said_alone held.now.owners.now change.now.says.items plan.now.id }
{
    is_said_alone(held, &change.says, plan.id)
}

// Whether it holds of each plan's, so that nothing is taken along.
fn are_said_alone(held: &Held, plans: &[Plan], change: &Change) -> bool
    ensures { result ≡ list_all (λ (p : Plan). is_said_alone held.now.owners.now change.now.says.items p.id) plans.now }
{
    plans.iter().all(|plan| is_plan_alone(held, change, plan))
}

// An owner's sectors, for its new ones.
fn taken_along(
    alloc: Global,
    held: &Held,
    map: &NewMap,
    plans: &[Plan],
    own: &Owner,
) -> Result<Transfer, NoMemory>
    requires map { layout_of held.now.places.now ≡ Layout.New map.now }
    requires zones { (p : Plan) → Contains plans.now p → LiesInZones map.now p }
    requires placed { HasPlace (parts_of held.now) own.now.node }
    ensures { IfOk result (IsTakenAlong map.now (parts_of held.now) plans.now own.now) }
{
    let from = place_of_node(alloc, held, own.node)?;
    let to = place_by_plan(alloc, map, plans, own)?;
    Ok(Transfer { from, to })
}

// Those of all owners that are taken along. The owners are gone over only if an identifier has others than one that is told.
fn all_taken_along(
    alloc: Global,
    held: &Held,
    map: &NewMap,
    plans: &[Plan],
    wants: &Wants,
    change: &Change,
) -> Result<Vec<Transfer>, NoMemory>
    requires map { layout_of held.now.places.now ≡ Layout.New map.now }
    requires zones { (p : Plan) → Contains plans.now p → LiesInZones map.now p }
    requires can { CanWriteAnew (parts_of held.now) change.now }
    ensures { IfOk result (λ transfers. AreTakenAlong map.now (parts_of held.now) plans.now (filter (is_taken_along plans.now wants.now change.now) held.now.owners.now) transfers.items) }
{
    let mut transfers = Vec::new(alloc);
    if are_said_alone(held, plans, change) {
        return Ok(transfers);
    }
    for own in held.owners.list() {
        if is_taken_along(plans, wants, change, own) {
            let transfer = taken_along(alloc, held, map, plans, own)?;
            push(&mut transfers, transfer)?;
        }
    }
    Ok(transfers)
}

// ---- all of it

// The plans of a step.
fn plans_in(take: &MapStep) -> &[Plan]
    ensures { result.now ≡ plans_in take.now }
{
    match take {
        MapStep::New(step) => &step.plans,
        MapStep::Old(_) => &[],
        MapStep::Nothing => &[],
    }
}

/// Makes a change ready to be written: everything early, and one step of the map.
pub fn prepare_anew(
    alloc: Global,
    held: &Held,
    map: &NewMap,
    wants: &Wants,
    change: &Change,
    spaces: Spaces,
) -> Result<Ready, NoMemory>
    requires map { layout_of held.now.places.now ≡ Layout.New map.now }
    requires zones { (p : Plan) → Contains (plans_in spaces.take) p → LiesInZones map.now p }
    requires can { CanWriteAnew (parts_of held.now) change.now }
    ensures { IfOk result (IsReadyAnew map.now (parts_of held.now) wants.now change.now spaces) }
{
    let early = early_pieces(alloc, held, map, change, &spaces)?;
    let plans = plans_in(&spaces.take);
    let carried = all_taken_along(alloc, held, map, plans, wants, change)?;
    let Spaces {
        object,
        copied,
        take,
        ..
    } = spaces;
    Ok(Ready {
        source: source_of(&change.object, object, copied),
        carried,
        early,
        late: Vec::new(alloc),
        take,
        give: MapStep::Nothing,
    })
}
