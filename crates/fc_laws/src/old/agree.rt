//! That the parts of a volume with an old map in memory still agree with each other after an edit of its objects, whatever is known
//! of the image's bytes.

ghost use Rattle.fc_laws.specs.old.agree.Spaces.{SpaceLaw};

/// The space of objects: what may be given back, and what is taken.
pub fn spaces()
    ensures { SpaceLaw }
{}
