//! Compaction of discs with an old map: each object slides down into the hole before it.
#![tactic(auto)]

ghost use Rattle.fc_squash.specs.Laws.{SettledLaw};

mod pulling;
mod sliding;
mod squashing;

pub use fc_image::effects::Owned;
pub use squashing::squash;

/// A law: `squash` leaves nothing to do.
pub fn settles()
    ensures { SettledLaw }
{}
