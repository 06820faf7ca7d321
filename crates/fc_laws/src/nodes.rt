//! What edits of a volume's objects make of its numbered nodes and of its owners.

ghost use Rattle.fc_laws.specs.nodes.Laws.{OwnerLaw};

/// An object of a directory is the owner that its numbers say.
pub fn owners()
    ensures { OwnerLaw }
{}
