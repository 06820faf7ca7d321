// The space that a change takes and gives back.
ghost use Rattle.std.specs.Prelude.{◌≡◌};
ghost use Rattle.fc_change.specs.declared.spaces.SpaceError.TheVariants as errors;

use crate::change::Regrowth;
use fc_device::{Extent, NoMemory};
use fc_names::Refusal;
use fc_writing::MapStep;

/// Where an object is to lie: its address, and its sectors.
#[derive(Drop)]
pub struct Place {
    pub address: u32,
    pub extents: Vec<Extent>,
}

/// Where a directory that grows is to lie: its address then, and its sectors.
#[derive(Drop)]
pub struct GrownPlace {
    pub directory: Regrowth,
    pub extents: Vec<Extent>,
    /// It gets new space. Else it grows where it lies: its address stays, and its sectors are those of its new length there.
    pub moves: bool,
}

/// The space of a change: where a new object is to lie, where the file lies of which it is a copy, where a directory that grows is
/// to lie, how the map changes before the object's entry is written, and how afterwards.
#[derive(Drop)]
pub struct Spaces {
    pub object: Option<Place>,
    pub copied: Option<Vec<Extent>>,
    pub grown: Option<GrownPlace>,
    pub take: MapStep,
    pub give: MapStep,
}

/// Why there is no space.
#[derive(Clone, Copy)]
pub enum SpaceError {
    Refused(Refusal),
    NoMemory,
}

impl From<NoMemory> for SpaceError {
    ghost from_gives = { λ _ answer. answer ≡ errors.NoMemory };

    fn from(_: NoMemory) -> Self
        ensures { result ≡ errors.NoMemory }
    {
        SpaceError::NoMemory
    }
}

impl From<Refusal> for SpaceError {
    ghost from_gives = { λ refusal answer. answer ≡ errors.Refused refusal };

    fn from(refusal: Refusal) -> Self
        ensures { result ≡ errors.Refused refusal }
    {
        SpaceError::Refused(refusal)
    }
}
