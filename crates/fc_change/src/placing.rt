// Places for what a job wants.
ghost use Rattle.std.specs.Prelude.{IfOk};
ghost use Rattle.fc_change.specs.Held.{parts_of};
ghost use Rattle.fc_change.specs.Places.{ArePlacesFor, CanPlace};
ghost use Rattle.fc_change.specs.Shortage.{AnswersSpace, shortage};

mod growth;
mod leavings;
mod new;
mod old;
mod room;
mod shortage;
mod steps;

use crate::held::Held;
use crate::job::Wants;
use crate::spaces::{SpaceError, Spaces};
use fc_space::Space;
pub use growth::extents_in;
use new::place_new;
pub use new::{
    address_for, bytes_left, copied_from, object_place, placing_of, share_for, shared_id,
};
use old::place_old;
pub use old::{copy_of, units_for};
pub use room::{is_alone, room_for};
pub use shortage::has_ids;
use std::alloc::Global;
pub use steps::root_of;

/// Finds the space that a job wants, and what goes back. The map stays as it is. Refused exactly as the command is for want of space.
pub fn place(alloc: Global, held: &Held, wants: &Wants) -> Result<Spaces, SpaceError>
    requires { CanPlace (parts_of held.now) wants.now }
    ensures places { IfOk result (ArePlacesFor (parts_of held.now) wants.now) }
    ensures refused { AnswersSpace result (shortage (parts_of held.now) wants.now) }
{
    match held.places.space() {
        Space::NewMapped(map) => place_new(alloc, held, map, wants),
        Space::OldMapped(map) => place_old(alloc, held, map, wants),
    }
}
