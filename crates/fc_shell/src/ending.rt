// How a run ends.
ghost use Rattle.std.specs.Prelude.{◌≡◌};
ghost use Rattle.fc_shell.specs.Ends.{status_of};

use fc_image::ImageFault;

/// How a run ends. The number is the exit status.
#[derive(Drop)]
pub enum End {
    /// 0: the script's end was reached, and no reply is an error line.
    Done,
    /// 1: the script's end was reached, and a reply is an error line.
    Refused,
    /// 2: the words aren't of the grammar.
    BadWords,
    /// 3: the image isn't accepted.
    BadImage(ImageFault),
    /// 4: a call of the disk failed.
    DiskFault,
    /// 5: a call of the script's source failed.
    ScriptFault,
    /// 6: a call of the output failed.
    OutFault,
    /// 7: no memory was found.
    NoMemory,
    /// 8: the script is longer than 16,777,216 bytes.
    ScriptTooLong,
    /// 10: the safe mode is asked for, and doesn't serve the volume.
    NotSafe,
    /// 11: a call of the host failed.
    HostFault,
    /// 12: the disk doesn't give the image.
    NoImage,
}

impl End {
    /// The exit status.
    pub fn status(&self) -> u8
        ensures { result ≡ status_of self.now }
    {
        match self {
            End::Done => 0,
            End::Refused => 1,
            End::BadWords => 2,
            End::BadImage(_) => 3,
            End::DiskFault => 4,
            End::ScriptFault => 5,
            End::OutFault => 6,
            End::NoMemory => 7,
            End::ScriptTooLong => 8,
            End::NotSafe => 10,
            End::HostFault => 11,
            End::NoImage => 12,
        }
    }
}
