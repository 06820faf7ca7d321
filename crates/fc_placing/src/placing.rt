// Places for new objects.

ghost use Rattle.fc_placing.specs.Places.{PlaceLaw, SlackLaw};

use crate::Share;
use fc_plan::Plan;

/// Where a new file is to lie.
#[derive(Drop)]
pub enum Placing {
    /// It has no bytes.
    Nowhere,
    /// In an identifier that other files of its directory have.
    Shared(Share),
    /// In a new identifier, whose runs are the parts of a plan.
    New(Plan),
}

/// Which identifier a file may share is the same by the owners as by the objects.
pub fn slack_by_owners()
    ensures { SlackLaw }
{}

/// What places are good for.
pub fn places()
    ensures { PlaceLaw }
{}
