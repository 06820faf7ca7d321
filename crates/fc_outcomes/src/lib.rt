//! Laws from an edit of a volume's objects, and what was written for it, to what a command promises of the new image.
#![tactic(auto)]

ghost use Rattle.fc_outcomes.specs.Addition.{AdditionLaw};
ghost use Rattle.fc_outcomes.specs.Copying.{CopyingLaw};
ghost use Rattle.fc_outcomes.specs.Deletion.{DeletionLaw};
ghost use Rattle.fc_outcomes.specs.Done.{DoneLaw, KeptLaw};
ghost use Rattle.fc_outcomes.specs.GrownAddition.{GrownAdditionLaw};
ghost use Rattle.fc_outcomes.specs.GrownCopying.{GrownCopyingLaw};
ghost use Rattle.fc_outcomes.specs.GrownMoving.{GrownMovingLaw};
ghost use Rattle.fc_outcomes.specs.Moving.{MovingLaw};
ghost use Rattle.fc_outcomes.specs.NewImage.{NewImageLaw};
ghost use Rattle.fc_outcomes.specs.OldImage.{OldImageLaw};
ghost use Rattle.fc_outcomes.specs.Puts.{PutsLaw};
ghost use Rattle.fc_outcomes.specs.Rewording.{RewordingLaw};
ghost use Rattle.fc_outcomes.specs.Steady.{SteadyLaw};

use fc_oldmap::reads_back;

/// The new image opens, with the listings after the edit and the parts after it.
pub fn done()
    ensures { DoneLaw }
{}

/// What is written for an edit is nothing that stays.
pub fn kept()
    ensures { KeptLaw }
{}

/// What a writer leaves is what an edit needs.
pub fn puts()
    ensures { PutsLaw }
{}

/// Directories are as a command leaves them.
pub fn steady()
    ensures { SteadyLaw }
{}

/// A command whose edit it is has done what it promises, on an image with a new map.
pub fn new_image()
    ensures { NewImageLaw }
{}

/// So it has on one with an old map.
pub fn old_image()
    ensures { OldImageLaw }
{
    reads_back();
}

/// `delete` does what it promises, on new maps and old ones.
pub fn deletion()
    ensures { DeletionLaw }
{
    reads_back();
}

/// `save`, `create` and `cdir` do what they promise without growth, on new maps and old ones.
pub fn addition()
    ensures { AdditionLaw }
{
    reads_back();
}

/// `set` and `mark` do what they promise, on new maps and old ones.
pub fn rewording()
    ensures { RewordingLaw }
{
    reads_back();
}

/// `rename` does what it promises if no file is copied and no directory grows, on new maps and old ones.
pub fn moving()
    ensures { MovingLaw }
{
    reads_back();
}

/// `rename` that copies its file does what it promises if no directory grows, on new maps.
pub fn copying()
    ensures { CopyingLaw }
{}

/// `save`, `create` and `cdir` do what they promise in a directory that grows, the root too, on new maps.
pub fn grown_addition()
    ensures { GrownAdditionLaw }
{}

/// `rename` without a copy does what it promises in a directory that grows, on new maps, and may write where it writes at every exit.
pub fn grown_moving()
    ensures { GrownMovingLaw }
{}

/// So does `rename` with a copy.
pub fn grown_copying()
    ensures { GrownCopyingLaw }
{}
