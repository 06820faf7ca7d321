//! From what a command's calls leave on an image with an old map and of the nodes, to what a method of a volume promises of both.

ghost use Rattle.fc_laws.specs.old.takeover.Places.{PlacesLaw};
ghost use Rattle.fc_laws.specs.old.takeover.Writes.{WrittenBytesLaw};

/// What is written is there, and stays if other sectors are written.
pub fn writes()
    ensures { WrittenBytesLaw }
{}

/// Which sectors a command may write.
pub fn places()
    ensures { PlacesLaw }
{}
