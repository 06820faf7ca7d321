// How conversions end.
ghost use Rattle.std.specs.Prelude.{◌≡◌};
ghost use Rattle.fc_convert.specs.Ends.{status_of};

use fc_fit::What;
use fc_image::ImageFault;
use fc_names::{Path, Refusal};

/// How a conversion ends. The number is the exit status.
#[derive(Drop)]
pub enum ConvertEnd {
    /// 0: the target has the tree of the source.
    Done,
    /// 1: the object at this path doesn't fit the format.
    Unfit { path: Path, what: What },
    /// 2: the words aren't a format and two names.
    BadWords,
    /// 3: the source isn't accepted.
    BadImage(ImageFault),
    /// 4: a call of the source failed.
    FromFault,
    /// 5: a call of the target failed.
    ToFault,
    /// 6: a call of the output failed.
    OutFault,
    /// 7: no memory was found.
    NoMemory,
    /// 8: the target has no room for the object at this path.
    NoRoom { path: Path, refusal: Refusal },
    /// 9: the source isn't given.
    NoSource,
    /// 10: the target isn't given.
    NoTarget,
    /// 11: the target that was just made isn't accepted.
    BadTarget(ImageFault),
}

impl ConvertEnd {
    /// The exit status.
    pub fn status(&self) -> u8
        ensures { result ≡ status_of self.now }
    {
        match self {
            ConvertEnd::Done => 0,
            ConvertEnd::Unfit { .. } => 1,
            ConvertEnd::BadWords => 2,
            ConvertEnd::BadImage(_) => 3,
            ConvertEnd::FromFault => 4,
            ConvertEnd::ToFault => 5,
            ConvertEnd::OutFault => 6,
            ConvertEnd::NoMemory => 7,
            ConvertEnd::NoRoom { .. } => 8,
            ConvertEnd::NoSource => 9,
            ConvertEnd::NoTarget => 10,
            ConvertEnd::BadTarget(_) => 11,
        }
    }
}
