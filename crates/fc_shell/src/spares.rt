// What a command in progress spares of free space, and which map a crash or an I/O error in it leaves: from what its job leaves at any
// moment. A law, without code.
ghost use Rattle.fc_shell.specs.SparesLaw.{SparesLaw};

/// What a command in progress leaves of free space and of the map, it may leave.
pub fn spared()
    ensures { SparesLaw }
{}
