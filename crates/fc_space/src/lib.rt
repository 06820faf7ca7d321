//! Where the bytes at an address of a disc lie, by its map, an old one or a new one.
//!
//! Source: the RISC OS PRM, chapter FileCore: "Old maps" and "New maps"; docs/FORMAT.md.
#![tactic(auto)]

mod index;
mod indexed;
mod new;
mod old;
mod places;
mod space;

ghost use Rattle.std.specs.Prelude.{◌≡◌};
ghost use Rattle.fc_space.specs.declared.PlaceError.TheVariants as errors;

pub use index::is_met;
pub use new::{is_object_id, low_start, sector_of_id};
pub use places::Places;
pub use space::Space;
use std::alloc::AllocError;

/// Why the bytes at an address have no place.
#[derive(Clone, Copy, Debug, PartialEq, Eq)]
pub enum PlaceError {
    /// They pass the object's end or the disc's, or no object can have the address.
    Outside,
    NoMemory,
}

impl From<AllocError> for PlaceError {
    ghost from_gives = { λ _ e. e ≡ errors.NoMemory };

    fn from(_: AllocError) -> Self
        ensures { result ≡ errors.NoMemory }
    {
        PlaceError::NoMemory
    }
}
