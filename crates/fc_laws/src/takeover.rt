//! From what a command's calls leave on the image and of the nodes, to what a method of a volume promises of both.

ghost use Rattle.fc_laws.specs.takeover.Copied.{CopiedBytesLaw};
ghost use Rattle.fc_laws.specs.takeover.Places.{PlacesLaw};
ghost use Rattle.fc_laws.specs.takeover.Writes.{WrittenBytesLaw};

/// What is written is there, and stays if other sectors are written.
pub fn writes()
    ensures { WrittenBytesLaw }
{}

/// Which sectors a command may write.
pub fn places()
    ensures { PlacesLaw }
{}

/// What was copied sector by sector has the same bytes.
pub fn copied_bytes()
    ensures { CopiedBytesLaw }
{}
