//! The model of a volume: a finite map from paths to nodes, and what each command does to it, or why it is refused.
//!
//! The first eleven refusals are judged over this map alone, whatever the layout of the disc.
#![tactic(auto)]

ghost use Rattle.fc_model.specs.Rows.{AnswerRows};

/// Refusals over a small tree, worked out.
pub fn rows()
    ensures { AnswerRows }
{}
