//! Laws of edits of a volume's objects, over any number of directories: what becomes of nodes and owners, that objects have their places on
//! new maps and old ones, and that the parts still agree.
#![tactic(auto)]

ghost use Rattle.fc_edits.specs.Addition.{AdditionLaw};
ghost use Rattle.fc_edits.specs.Copying.{CopyingLaw};
ghost use Rattle.fc_edits.specs.Deletion.{DeletionLaw};
ghost use Rattle.fc_edits.specs.Growing.{GrowingLaw};
ghost use Rattle.fc_edits.specs.GrownAddition.{GrownAdditionLaw};
ghost use Rattle.fc_edits.specs.GrownCopying.{GrownCopyingLaw};
ghost use Rattle.fc_edits.specs.GrownMoving.{GrownMovingLaw};
ghost use Rattle.fc_edits.specs.GrownPlaces.{GrownPlacesLaw};
ghost use Rattle.fc_edits.specs.Moving.{MovingLaw};
ghost use Rattle.fc_edits.specs.NewNodes.{AfterLaw};
ghost use Rattle.fc_edits.specs.NewPlaces.{NewPlacesLaw};
ghost use Rattle.fc_edits.specs.NodesEdit.{NodesLaw};
ghost use Rattle.fc_edits.specs.OldPlaces.{OldPlacesLaw};
ghost use Rattle.fc_edits.specs.PartsEdit.{AgreeLaw};
ghost use Rattle.fc_edits.specs.Rewording.{RewordingLaw};
ghost use Rattle.fc_edits.specs.Transfer.{RenameLaw};
ghost use Rattle.fc_edits.specs.Views.{ViewLaw};

/// Nodes and owners follow the listings after any edit.
pub fn nodes()
    ensures { NodesLaw }
{}

/// One function of an edit gives the nodes after it.
pub fn after()
    ensures { AfterLaw }
{}

/// After any edit the parts of a volume are those of each view that finds the listings after it, and on a new map they agree.
pub fn agree()
    ensures { AgreeLaw }
{}

/// Parts that agree agree by the listings of each view that has them.
pub fn views()
    ensures { ViewLaw }
{}

/// On a new map objects have their places after any list of plans, whatever identifiers go back.
pub fn new_places()
    ensures { NewPlacesLaw }
{}

/// On an old map objects have their places, whatever holes it gets.
pub fn old_places()
    ensures { OldPlacesLaw }
{}

/// `delete` is an edit, and has its places on new maps and old ones.
pub fn deletion()
    ensures { DeletionLaw }
{}

/// `save`, `create` and `cdir` are edits without growth, and have their places on new maps and old ones.
pub fn addition()
    ensures { AdditionLaw }
{}

/// `set` and `mark` are edits, on new maps and old ones.
pub fn rewording()
    ensures { RewordingLaw }
{}

/// `rename` is an edit if no file is copied, on new maps and old ones: an object moves with all that is below it.
pub fn moving()
    ensures { MovingLaw }
{}

/// So it is to another directory, and within one.
pub fn renaming()
    ensures { RenameLaw }
{}

/// `rename` that copies its file is an edit too, and has its place on new maps.
pub fn copying()
    ensures { CopyingLaw }
{}

/// A directory that grows is a part of any edit: the edit with growth is one.
pub fn growing()
    ensures { GrowingLaw }
{}

/// On a new map such an edit has its places, and the parts after it agree.
pub fn grown_places()
    ensures { GrownPlacesLaw }
{}

/// `save`, `create` and `cdir` in a directory that grows are such edits.
pub fn grown_addition()
    ensures { GrownAdditionLaw }
{}

/// So is `rename` into a directory that grows, if no file is copied.
pub fn grown_moving()
    ensures { GrownMovingLaw }
{}

/// So is `rename` that copies its file into a directory that grows.
pub fn grown_copying()
    ensures { GrownCopyingLaw }
{}
