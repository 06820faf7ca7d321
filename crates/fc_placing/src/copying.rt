// Whether a rename copies a file.

ghost use Rattle.fc_placing.specs.Copying.{CopiesLaw};

/// What a rename wants of space.
pub fn copies()
    ensures { CopiesLaw }
{}
