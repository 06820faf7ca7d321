//! Changes of which the new object's bytes, given in order, are on the disc before the rest is written. So no memory of their number is
//! needed, and the writer of changes stays as it is.
#![tactic(auto)]

ghost use Rattle.fc_given.specs.Law.{BeforehandLaw};

mod source;

pub use fc_import::ImportFault;
pub use source::{import_source, part_of};

/// A law: as long as the map doesn't have them, the new object's sectors may be written by themselves, and then the rest of the change
/// leaves what the whole of it leaves.
pub fn beforehand()
    ensures { BeforehandLaw }
{}
