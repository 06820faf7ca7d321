// Nodes of trees.
ghost use Rattle.std.specs.Prelude.{◌≡◌};
ghost use Rattle.fc_tree.specs.declared.node.TreeError.TheVariants as errors;
ghost use Rattle.fc_tree.specs.Unread.{unread};

use crate::reading::ReadError;
use fc_bigdir::BigDir;
use fc_device::NoMemory;
use fc_dirs::Entry;
use fc_image::ImageFault;
use fc_smalldir::SmallDir;

/// What a directory says, or that the object is a file.
#[derive(Drop)]
pub enum Body {
    File,
    Small(SmallDir),
    Big(BigDir),
}

/// An object of a tree: the number of the node that holds it, its entry there, and what it says. The root holds itself,
/// and its entry is the one that it would have: the name `$`, its address and its size, attributes 8 and words 0.
#[derive(Drop)]
pub struct Node {
    pub holder: u64,
    pub entry: Entry,
    pub body: Body,
}

/// Where a path leads.
#[derive(Clone, Copy, Debug, PartialEq, Eq)]
pub enum Found {
    /// To the node of this number.
    Node(u64),
    /// The shortest prefix that is no directory isn't there.
    Absent,
    /// It is a file, and names follow.
    NotDirectory,
}

/// Why no tree is loaded.
#[derive(Drop)]
pub enum TreeError {
    /// A directory, or the place of an object, is wrong: the first fault in the order of the walk.
    Image(ImageFault),
    /// A read failed.
    DiskFault,
    NoMemory,
}

impl From<ReadError> for TreeError {
    ghost from_gives = { λ error answer. answer ≡ unread error };

    fn from(error: ReadError) -> Self
        ensures { result ≡ unread error }
    {
        match error {
            ReadError::DiskFault => TreeError::DiskFault,
            ReadError::NoMemory => TreeError::NoMemory,
        }
    }
}

impl From<NoMemory> for TreeError {
    ghost from_gives = { λ _ answer. answer ≡ errors.NoMemory };

    fn from(_: NoMemory) -> Self
        ensures { result ≡ errors.NoMemory }
    {
        TreeError::NoMemory
    }
}
