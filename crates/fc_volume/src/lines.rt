// What calls of volumes answer.
ghost use Rattle.std.specs.Prelude.{◌≡◌};
ghost use Rattle.fc_volume.specs.declared.lines.MountError.TheVariants as mount_errors;
ghost use Rattle.fc_volume.specs.Mounting.{mount_error};

use fc_device::NoMemory;
use fc_image::ImageFault;
use fc_names::Name;
use fc_tree::TreeError;

/// Why a disk isn't mounted.
#[derive(Drop)]
pub enum MountError {
    /// The image isn't accepted: its first fault.
    Image(ImageFault),
    NoMemory,
    /// A call of the disk failed.
    DiskFault,
}

impl From<NoMemory> for MountError {
    ghost from_gives = { λ _ answer. answer ≡ mount_errors.NoMemory };

    fn from(_: NoMemory) -> Self
        ensures { result ≡ mount_errors.NoMemory }
    {
        MountError::NoMemory
    }
}

impl From<ImageFault> for MountError {
    ghost from_gives = { λ fault answer. answer ≡ mount_errors.Image fault };

    fn from(fault: ImageFault) -> Self
        ensures { result ≡ mount_errors.Image fault }
    {
        MountError::Image(fault)
    }
}

impl From<TreeError> for MountError {
    ghost from_gives = { λ error answer. answer ≡ mount_error error };

    fn from(error: TreeError) -> Self
        ensures { result ≡ mount_error error }
    {
        match error {
            TreeError::Image(fault) => MountError::Image(fault),
            TreeError::DiskFault => MountError::DiskFault,
            TreeError::NoMemory => MountError::NoMemory,
        }
    }
}

/// A file of a volume: its length in bytes, and its number in the volume's tree.
#[derive(Clone, Copy, Debug, PartialEq, Eq)]
pub struct FileRef {
    pub len: u64,
    pub node: u64,
}

/// A directory, or a file with its length in bytes.
#[derive(Clone, Copy, Debug, PartialEq, Eq)]
pub enum Listed {
    Dir,
    File(u64),
}

/// An entry as `cat` lists it: its name as it is spelled, its attributes, its load and exec words.
#[derive(Drop)]
pub struct Line {
    pub name: Name,
    pub attrs: u32,
    pub load: u32,
    pub exec: u32,
    pub listed: Listed,
}
