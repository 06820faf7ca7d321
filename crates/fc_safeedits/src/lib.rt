//! Laws of edits of a volume's objects by which identifiers move, as in the safe mode: that they are edits, where objects lie
//! afterwards, and what a command has then done: where an object comes or goes, gets another name or directory, is copied,
//! and where a directory grows.
#![tactic(auto)]

ghost use Rattle.fc_safeedits.specs.Relocation.{RelocationLaw};
ghost use Rattle.fc_safeedits.specs.SafeAddition.{SafeAdditionLaw};
ghost use Rattle.fc_safeedits.specs.SafeCopying.{SafeCopyingLaw};
ghost use Rattle.fc_safeedits.specs.SafeDeletion.{SafeDeletionLaw};
ghost use Rattle.fc_safeedits.specs.SafeGrownAddition.{SafeGrownAdditionLaw};
ghost use Rattle.fc_safeedits.specs.SafeGrownCopying.{SafeGrownCopyingLaw};
ghost use Rattle.fc_safeedits.specs.SafeGrownMoving.{SafeGrownMovingLaw};
ghost use Rattle.fc_safeedits.specs.SafeImage.{SafeImageLaw};
ghost use Rattle.fc_safeedits.specs.SafeMoving.{SafeMovingLaw};
ghost use Rattle.fc_safeedits.specs.SafeOutcome.{SafeOutcomeLaw};
ghost use Rattle.fc_safeedits.specs.SafeParts.{SafePartsLaw};
ghost use Rattle.fc_safeedits.specs.SafePlaces.{SafePlacesLaw};
ghost use Rattle.fc_safeedits.specs.SafeRewording.{SafeRewordingLaw};
ghost use Rattle.fc_safeedits.specs.SafeSpace.{SafeSpaceLaw};
ghost use Rattle.fc_safeedits.specs.SafeWriting.{SafeWritingLaw};

/// An edit with identifiers that move is an edit.
pub fn relocation()
    ensures { RelocationLaw }
{}

/// It has its places on the new map.
pub fn safe_places()
    ensures { SafePlacesLaw }
{}

/// The parts of a volume agree after it.
pub fn safe_parts()
    ensures { SafePartsLaw }
{}

/// An image to which all is written opens by the new map, with the objects after the edit.
pub fn safe_images()
    ensures { SafeImageLaw }
{}

/// A command whose edit it is has done what it promises in the safe mode.
pub fn safe_outcomes()
    ensures { SafeOutcomeLaw }
{}

/// `delete` does what it promises in the safe mode.
pub fn safe_deletion()
    ensures { SafeDeletionLaw }
{}

/// `set` and `mark` do what they promise in the safe mode.
pub fn safe_rewording()
    ensures { SafeRewordingLaw }
{}

/// One step of a map gives identifiers other runs, and no old run stays.
pub fn safe_space()
    ensures { SafeSpaceLaw }
{}

/// What is to be written stands in the image once all of it is there.
pub fn safe_writing()
    ensures { SafeWritingLaw }
{}

/// `save`, `create` and `cdir` do what they promise in the safe mode, if no directory grows.
pub fn safe_addition()
    ensures { SafeAdditionLaw }
{}

/// `rename` does what it promises in the safe mode, if no file is copied and no directory grows.
pub fn safe_moving()
    ensures { SafeMovingLaw }
{}

/// `save`, `create` and `cdir` do what they promise in the safe mode, if a directory grows.
pub fn safe_growing()
    ensures { SafeGrownAdditionLaw }
{}

/// `rename` does what it promises in the safe mode, if no file is copied and a directory grows.
pub fn safe_growing_moves()
    ensures { SafeGrownMovingLaw }
{}

/// `rename` does what it promises in the safe mode, if its file is copied and no directory grows.
pub fn safe_copying()
    ensures { SafeCopyingLaw }
{}

/// `rename` does so, too, if the directory to which the copied file goes grows by it.
pub fn safe_growing_copies()
    ensures { SafeGrownCopyingLaw }
{}
