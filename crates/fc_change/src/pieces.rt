// A change, made ready to be written: the bytes of what is drafted, and where they go.
ghost use Rattle.std.specs.Prelude.{◌≡◌, ◌∷◌, ◌++◌, [], ℕ, List, Some, Contains, IfOk, IsSome, OnOk};
ghost use Rattle.std.specs.FinMap.{get};
ghost use Rattle.fc_image.specs.Layout.{dir_form, sectors_at};
ghost use Rattle.fc_image.specs.Walk.{object_size};
ghost use Rattle.fc_objects.specs.Extents.{sectors_in};
ghost use Rattle.fc_space.specs.Space.{layout_of};
ghost use Rattle.fc_tree.specs.Nodes.{nodes_of};
ghost use Rattle.fc_tree.specs.declared.node.Node.{Node};
ghost use Rattle.fc_dirs.specs.declared.Entry.{Entry};
ghost use Rattle.fc_change.specs.declared.change.Says.{Says};
ghost use Rattle.fc_change.specs.declared.change.Turned.TheVariants as turns;
ghost use Rattle.fc_change.specs.Held.{parts_of};
ghost use Rattle.fc_change.specs.Places.{IsPlaceOf};
ghost use Rattle.fc_change.specs.Prepared.{ArePiecesOf, CanPrepare, HasMorePieces, HasPlace, IsDrafted, IsGrownPiece, IsLatePiece, IsNewPiece, IsPieceOf, IsReadyFor, IsSourceOf, is_moved};

use crate::change::{Change, Says, Turned};
use crate::directories::bytes_of;
use crate::held::Held;
use crate::lists::push;
use crate::owner::object_bytes;
use crate::spaces::{GrownPlace, Place, Spaces};
use fc_device::{Extent, NoMemory};
use fc_dirs::Entry;
use fc_drafts::Draft;
use fc_space::{PlaceError, Places};
use fc_writing::{Piece, Ready, Source, Transfer};
use std::alloc::Global;

/// The sectors where the object of an entry lies.
pub fn place_of(alloc: Global, places: &Places, e: &Entry) -> Result<Vec<Extent>, NoMemory>
    requires { IsSome (sectors_at (layout_of places.now) e.now.address (object_size (dir_form (layout_of places.now)) e.now)) }
    ensures { IfOk result (λ place. sectors_at (layout_of places.now) e.now.address (object_size (dir_form (layout_of places.now)) e.now) ≡ Some (sectors_in place.items)) }
{
    place_at(alloc, places, e.address, object_bytes(places.space(), e))
}

/// The sectors of so many bytes from an address, which are there.
pub fn place_at(
    alloc: Global,
    places: &Places,
    address: u32,
    bytes: u64,
) -> Result<Vec<Extent>, NoMemory>
    requires { IsSome (sectors_at (layout_of places.now) address bytes) }
    ensures { IfOk result (λ place. sectors_at (layout_of places.now) address bytes ≡ Some (sectors_in place.items)) }
{
    match places.place_of(alloc, address, bytes) {
        Ok(place) => Ok(place),
        Err(PlaceError::NoMemory) => Err(NoMemory),
        // It has a place.
        Err(PlaceError::Outside) => unreachable!(),
    }
}

/// The bytes of a draft, for some sectors.
pub fn piece_of(alloc: Global, draft: &Draft, place: Vec<Extent>) -> Result<Piece, NoMemory>
    ensures drafted { IfOk result (IsDrafted draft.now) }
    ensures place { IfOk result (λ piece. piece.place.items ≡ place.items) }
{
    let _ = draft.entries();
    let bytes = bytes_of(alloc, draft)?;
    Ok(Piece { place, bytes })
}

/// The sectors where the object of a node lies.
pub fn place_of_node(alloc: Global, held: &Held, n: u64) -> Result<Vec<Extent>, NoMemory>
    requires { HasPlace (parts_of held.now) n }
    ensures { IfOk result (λ place. IsPlaceOf (parts_of held.now).layout (parts_of held.now).nodes n place.items) }
{
    let node = held.tree.node(n).unwrap();
    place_of(alloc, held.places, &node.entry)
}

// What a directory says, for the sectors where it lies.
fn placed_piece(alloc: Global, held: &Held, said: &Says) -> Result<Piece, NoMemory>
    requires { HasPlace (parts_of held.now) said.now.node }
    ensures { IfOk result (IsPieceOf (parts_of held.now).layout (parts_of held.now).nodes said.now) }
{
    let node = held.tree.node(said.node).unwrap();
    let place = place_of(alloc, held.places, &node.entry)?;
    piece_of(alloc, &said.draft, place)
}

// What a directory says, for the sectors that it has once it is written over: more than before, if it grows there.
fn late_piece(
    alloc: Global,
    held: &Held,
    grown: &Option<GrownPlace>,
    said: &Says,
) -> Result<Piece, NoMemory>
    requires { HasPlace (parts_of held.now) said.now.node }
    ensures { IfOk result (IsLatePiece (parts_of held.now).layout (parts_of held.now).nodes grown.now said.now) }
{
    let Some(g) = grown else {
        return placed_piece(alloc, held, said);
    };
    if g.directory.node != said.node {
        return placed_piece(alloc, held, said);
    }
    piece_of(alloc, &said.draft, copy_of(alloc, &g.extents)?)
}

// Whether the directory of a node grows into new space.
fn is_moved(grown: &Option<GrownPlace>, n: u64) -> bool
    ensures { result ≡ is_moved grown.now n }
{
    match grown {
        Some(g) => g.moves && g.directory.node == n,
        None => false,
    }
}

// Adds the piece of a directory, unless that gets new space.
fn push_late(
    alloc: Global,
    held: &Held,
    grown: &Option<GrownPlace>,
    said: &Says,
    pieces: &mut Vec<Piece>,
) -> Result<(), NoMemory>
    requires { HasPlace (parts_of held.now) said.now.node }
    ensures { OnOk result (HasMorePieces (parts_of held.now) grown.now (said.now ∷ []) pieces.old.items pieces.new.items) }
{
    if is_moved(grown, said.node) {
        return Ok(());
    }
    let piece = late_piece(alloc, held, grown, said)?;
    push(pieces, piece)
}

// The pieces of the directories that are written over, in the order in which they are told.
fn late_pieces(
    alloc: Global,
    held: &Held,
    grown: &Option<GrownPlace>,
    says: &[Says],
) -> Result<Vec<Piece>, NoMemory>
    requires { (s : Says) → Contains says.now s → HasPlace (parts_of held.now) s.node }
    ensures { IfOk result (λ pieces. ArePiecesOf (parts_of held.now).layout (parts_of held.now).nodes grown.now says.now pieces.items) }
{
    let mut pieces = Vec::new(alloc);
    for said in says {
        push_late(alloc, held, grown, said, &mut pieces)?;
    }
    Ok(pieces)
}

/// A new directory, for the sectors where it is to lie. A file's bytes are given.
pub fn new_pieces(
    alloc: Global,
    object: &Turned,
    place: &Option<Place>,
) -> Result<Vec<Piece>, NoMemory>
    ensures { IfOk result (λ pieces. IsNewPiece object.now place.now pieces.items) }
{
    match object {
        Turned::Comes(_, _, draft) => made_pieces(alloc, draft, place),
        _ => Ok(Vec::new(alloc)),
    }
}

// What is drafted of a new directory, for the sectors where it is to lie.
fn made_pieces(
    alloc: Global,
    draft: &Option<Draft>,
    place: &Option<Place>,
) -> Result<Vec<Piece>, NoMemory>
    ensures { IfOk result (λ pieces. (dir : ℕ) (e : Entry) → IsNewPiece (turns.Comes dir e draft.now) place.now pieces.items) }
{
    let Some(draft) = draft else {
        return Ok(Vec::new(alloc));
    };
    let Some(place) = place else {
        return Ok(Vec::new(alloc));
    };
    let piece = piece_of(alloc, draft, copy_of(alloc, &place.extents)?)?;
    let mut pieces = Vec::new(alloc);
    push(&mut pieces, piece)?;
    Ok(pieces)
}

// Extents with memory of their own.
fn copy_of(alloc: Global, extents: &[Extent]) -> Result<Vec<Extent>, NoMemory>
    ensures { IfOk result (λ copy. copy.items ≡ extents.now) }
{
    let mut copy = Vec::new(alloc);
    copy.extend_from_slice(extents)?;
    Ok(copy)
}

// Adds the one that grows, for the sectors where it is to lie, if it gets new space.
fn add_grown(
    alloc: Global,
    says: &[Says],
    grown: &Option<GrownPlace>,
    pieces: &mut Vec<Piece>,
) -> Result<(), NoMemory>
    requires { (g : GrownPlace) → grown.now ≡ Some g → (said : Says) × Contains says.now said × (said.node ≡ g.directory.node) }
    ensures { OnOk result ((more : List Piece) × IsGrownPiece grown.now says.now more × (pieces.new.items ≡ pieces.old.items ++ more)) }
{
    let Some(g) = grown else {
        return Ok(());
    };
    if !g.moves {
        return Ok(());
    }
    let said = said_of(says, g.directory.node);
    let piece = piece_of(alloc, &said.draft, copy_of(alloc, &g.extents)?)?;
    push(pieces, piece)?;
    Ok(())
}

// What the directory of a node is told.
fn said_of(says: &[Says], n: u64) -> &Says
    requires { (said : Says) × Contains says.now said × (said.node ≡ n) }
    ensures told { Contains says.now result.now }
    ensures node { result.now.node ≡ n }
{
    says.iter().find(|said| said.node == n).unwrap()
}

/// What is written into the sectors of the object.
pub fn source_of(object: &Turned, place: Option<Place>, copied: Option<Vec<Extent>>) -> Source
    ensures { IsSourceOf object.now place copied result }
{
    let Some(place) = place else {
        return Source::Nothing;
    };
    match (object, copied) {
        (_, Some(from)) => Source::Sectors(Transfer {
            from,
            to: place.extents,
        }),
        (Turned::Comes(_, _, Some(_)), None) => Source::Nothing,
        (_, None) => Source::Bytes(place.extents),
    }
}

/// Makes a change ready to be written in its space: the bytes of each draft, and the sectors of its place. What is new comes early, and
/// so does a directory that grows into new space; the others are written over late, one that grows where it lies in its new length.
pub fn prepare(
    alloc: Global,
    held: &Held,
    change: &Change,
    spaces: Spaces,
) -> Result<Ready, NoMemory>
    requires { CanPrepare (parts_of held.now) change.now spaces }
    ensures { IfOk result (IsReadyFor (parts_of held.now) change.now spaces) }
{
    let late = late_pieces(alloc, held, &spaces.grown, &change.says)?;
    let mut early = new_pieces(alloc, &change.object, &spaces.object)?;
    add_grown(alloc, &change.says, &spaces.grown, &mut early)?;
    let Spaces {
        object,
        copied,
        take,
        give,
        ..
    } = spaces;
    Ok(Ready {
        source: source_of(&change.object, object, copied),
        carried: Vec::new(alloc),
        early,
        late,
        take,
        give,
    })
}
