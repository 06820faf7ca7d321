//! From what the calls of a command leave on a disc to what the command promises: on new maps, if a big directory grows (`growth`), and on
//! old maps (`old`, in definitions and lemmas).
#![tactic(auto)]

pub mod growth;
mod space;

ghost use Rattle.fc_changes.specs.Rows.{OwedRows};
ghost use Rattle.fc_changes.specs.Laws.{CommittedLaw};

pub use space::steps;

/// What edits of a map and its commit leave is what a change of it owes.
pub fn committed()
    ensures { CommittedLaw }
{}

/// What changes owe, on a small map, worked out.
pub fn rows()
    ensures { OwedRows }
{}
