// Space that goes back and space that is taken, each by one commit of the map.

ghost use Rattle.fc_changes.specs.Space.{StepsLaw};

/// Changes of space, one commit after another, are one change.
pub fn steps()
    ensures { StepsLaw }
{}
