//! What the safe mode rests on, for images with new maps: sectors in which nothing lies, and objects that keep their addresses while
//! the map gives them other sectors.
#![tactic(auto)]

ghost use Rattle.fc_safelaws.specs.Free.{FreeSpaceLaw};
ghost use Rattle.fc_safelaws.specs.Relaid.{RelaidLaw};

/// In which sectors nothing lies, and that what is written there changes nothing that the image says.
pub fn free_space()
    ensures { FreeSpaceLaw }
{}

/// Objects that keep their places inside their identifiers, whatever becomes of the runs.
pub fn relaid()
    ensures { RelaidLaw }
{}
