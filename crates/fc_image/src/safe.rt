//! What the safe mode does, in which each changing command is one gated commit: the space that it needs and takes by first
//! fit, its refusals, what stays, and giving lost space back.

ghost use Rattle.fc_image.specs.safe.Rows.{FitRows};

/// Taking by first fit, worked out.
pub fn rows()
    ensures { FitRows }
{}
