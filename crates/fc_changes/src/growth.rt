// What a directory that grows leaves on a disc with a new map.
ghost use Rattle.fc_changes.specs.growth.Maps.{GrownMapsLaw};
ghost use Rattle.fc_changes.specs.growth.Rows.{GrownRows};

/// What taking space, a new root and a commit leave is what growth owes of the map.
pub fn grown_maps()
    ensures { GrownMapsLaw }
{}

/// What growth owes of a map, on a small one, worked out.
pub fn rows()
    ensures { GrownRows }
{}
