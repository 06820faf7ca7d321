// Commands, as lines give them.
ghost use Rattle.std.specs.Prelude.{◌≡◌};
ghost use Rattle.fc_script.specs.PathErrors.{of_path};
ghost use Rattle.fc_script.specs.declared.command.LineError.TheVariants as errors;

use fc_device::NoMemory;
use fc_names::{Path, PathError};
use std::marker::Model;

/// The bytes that a `save` gives to a file.
#[derive(Debug, Drop)]
pub struct Bytes {
    bytes: Vec<u8>,
}

impl Model for Bytes {
    ghost use Rattle.std.specs.Prelude.{List, ℕ};

    ghost Value = { List ℕ };

    ghost view = { λ b. b.bytes.items };
}

impl Bytes {
    // Takes bytes.
    pub(crate) fn new(bytes: Vec<u8>) -> Bytes
        ensures { result ≡ bytes.items }
    {
        Bytes { bytes }
    }

    /// The bytes.
    pub fn list(&self) -> &[u8]
        ensures { result.now ≡ self.now }
    {
        &self.bytes
    }
}

/// A command of a script. `load` and `exec` are the load and execution words of an object.
#[derive(Debug, Drop)]
pub enum Command {
    /// Lists the entries of a directory.
    Cat {
        path: Path,
    },
    /// Writes the bytes of a file to the reply.
    Load {
        path: Path,
    },
    /// Tells the SHA-256 of the bytes of a file.
    Digest {
        path: Path,
    },
    /// Makes a directory.
    Cdir {
        path: Path,
    },
    /// Deletes an object. A directory must be empty.
    Delete {
        path: Path,
    },
    /// Writes a file of these bytes.
    Save {
        path: Path,
        load: u32,
        exec: u32,
        bytes: Bytes,
    },
    /// Writes a file of `len` bytes 0.
    Create {
        path: Path,
        load: u32,
        exec: u32,
        len: u32,
    },
    /// Gives an object another path.
    Rename {
        from: Path,
        to: Path,
    },
    /// Gives an object these words and this access: bit 0 is reading by the owner, bit 1 writing, and bit 2 a lock.
    Set {
        path: Path,
        load: u32,
        exec: u32,
        access: u32,
    },
    /// Tells the free space.
    Free,
    /// Counts what the disc holds.
    Check,
    /// Joins the free space.
    Compact,
    /// Frees the space that no object owns.
    Reclaim,
}

/// Why a line gives no command.
#[derive(Clone, Copy, Debug, PartialEq, Eq)]
pub enum LineError {
    /// It isn't in the grammar of commands, apart from its paths.
    BadCommand,
    /// Only a path isn't in its grammar.
    BadName,
    /// No memory was found. The line is a command.
    NoMemory,
}

impl From<PathError> for LineError {
    ghost from_gives = { λ error e. e ≡ of_path error };

    fn from(error: PathError) -> Self
        ensures { result ≡ of_path error }
    {
        match error {
            PathError::BadName => LineError::BadName,
            PathError::NoMemory => LineError::NoMemory,
        }
    }
}

impl From<NoMemory> for LineError {
    ghost from_gives = { λ _ e. e ≡ errors.NoMemory };

    fn from(_: NoMemory) -> Self
        ensures { result ≡ errors.NoMemory }
    {
        LineError::NoMemory
    }
}
