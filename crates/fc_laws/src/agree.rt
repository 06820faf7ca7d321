//! That the parts of a volume in memory still agree with each other after an edit of its objects, whatever is known of the
//! image's bytes.

ghost use Rattle.fc_laws.specs.agree.Copied.{CopiedLaw};
ghost use Rattle.fc_laws.specs.agree.Cuts.{CutLaw};
ghost use Rattle.fc_laws.specs.agree.Laws.{AgreedLaw};
ghost use Rattle.fc_laws.specs.agree.Sayable.{SayLaw};

/// Parts that agree: what is known of their listings.
pub fn agreed()
    ensures { AgreedLaw }
{}

/// Listings and objects, cut as edits ask for it.
pub fn cuts()
    ensures { CutLaw }
{}

/// Directories that objects can say.
pub fn sayable()
    ensures { SayLaw }
{}

/// After `rename` of a file that is copied the parts agree.
pub fn copied()
    ensures { CopiedLaw }
{}
