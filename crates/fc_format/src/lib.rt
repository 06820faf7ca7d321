//! Fresh volumes: what one is, byte for byte, in each format, and how a disk is made one.
//!
//! Sizes, geometry and the places of map and root are those of the formats of the RISC OS PRM, chapter FileCore; the
//! values of other fields are of docs/FORMAT.md.
#![tactic(auto)]

mod parts;
mod passes;
mod roots;
mod volume;
mod zones;

ghost use Rattle.std.specs.Prelude.{◌≡◌};
ghost use Rattle.fc_format.specs.Fresh.{format_size};
ghost use Rattle.fc_format.specs.Opens.{FreshLaw};
ghost use Rattle.fc_format.specs.Rows.{FormatRows};

pub use volume::{FormatError, make};

/// The format of a fresh volume.
#[derive(Clone, Copy, Debug, PartialEq, Eq)]
pub enum Format {
    /// A disc of 800 KB with a new map of one zone.
    E,
    /// A disc of 1600 KB with a new map of four zones and a boot block.
    F,
    /// A disc of 800 KB with an old map.
    D,
    /// A disc of 640 KB with an old map and small directories of 1280 bytes.
    L,
    /// An E disc with big directories.
    EPlus,
    /// An F disc with big directories.
    FPlus,
}

impl Format {
    /// The bytes of its disc.
    pub fn size(&self) -> u64
        ensures { result ≡ format_size self.now }
    {
        match self {
            Format::E | Format::D | Format::EPlus => 819_200,
            Format::F | Format::FPlus => 1_638_400,
            Format::L => 655_360,
        }
    }
}

/// Maps, boot block and roots of fresh volumes, worked out.
pub fn rows()
    ensures { FormatRows }
{}

/// A law: a fresh volume is accepted, and its tree is the root alone.
pub fn opens()
    ensures { FreshLaw }
{
    fc_image::opens();
}
