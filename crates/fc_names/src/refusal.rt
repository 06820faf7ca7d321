// The refusals of commands.
ghost use Rattle.std.specs.Prelude.{◌≡◌};
ghost use Rattle.fc_names.specs.Refusals.{refusal_number, refusal_word};

/// Why a command is refused. If several reasons hold, the first in this order is answered; the last four come right
/// after `ReadOnly`.
#[derive(Clone, Copy, Debug, PartialEq, Eq)]
pub enum Refusal {
    /// The line is none of the commands.
    BadCommand,
    /// A path isn't in the grammar of paths, or a name that is to be written can't be.
    BadName,
    /// A path that must be there isn't.
    NotFound,
    /// A path leads through a file, or names a file where a directory is needed.
    NotDirectory,
    /// A path names a directory where a file is needed.
    IsDirectory,
    /// A path names an object where none may be.
    Exists,
    /// The root can't be deleted, renamed or changed.
    RootRefused,
    /// A directory can't be moved into itself.
    IntoItself,
    /// The object is locked.
    Locked,
    /// The directory that is to be deleted has entries.
    NotEmpty,
    /// The volume is mounted for reading only.
    ReadOnly,
    /// The directory has no place for another entry, or no room to grow.
    DirFull,
    /// The map has no identifier left for a new object.
    IdsFull,
    /// The free space is too small.
    DiscFull,
    /// The free space is large enough, but in pieces that are too small.
    CompactionRequired,
    /// The old map has no place for another hole.
    MapFull,
    /// The host has no file of that name.
    NoHostFile,
    /// The host's file is too long for an object.
    HostTooLong,
    /// The host has a file of that name already.
    HostExists,
    /// The volume has no new map.
    NotNewMap,
}

impl Refusal {
    /// The number that a reply gives it. 17 is that of the safe mode, and no `Refusal`.
    pub fn number(&self) -> u8
        ensures { result ≡ refusal_number self.now }
    {
        match self {
            Refusal::BadCommand => 1,
            Refusal::BadName => 2,
            Refusal::NotFound => 3,
            Refusal::NotDirectory => 4,
            Refusal::IsDirectory => 5,
            Refusal::Exists => 6,
            Refusal::RootRefused => 7,
            Refusal::IntoItself => 8,
            Refusal::Locked => 9,
            Refusal::NotEmpty => 10,
            Refusal::ReadOnly => 11,
            Refusal::DirFull => 12,
            Refusal::IdsFull => 13,
            Refusal::DiscFull => 14,
            Refusal::CompactionRequired => 15,
            Refusal::MapFull => 16,
            Refusal::NoHostFile => 18,
            Refusal::HostTooLong => 19,
            Refusal::HostExists => 20,
            Refusal::NotNewMap => 21,
        }
    }

    /// The word that a reply gives it, which is its name.
    pub fn word(&self) -> &str
        ensures { result.now ≡ refusal_word self.now }
    {
        match self {
            Refusal::BadCommand => "BadCommand",
            Refusal::BadName => "BadName",
            Refusal::NotFound => "NotFound",
            Refusal::NotDirectory => "NotDirectory",
            Refusal::IsDirectory => "IsDirectory",
            Refusal::Exists => "Exists",
            Refusal::RootRefused => "RootRefused",
            Refusal::IntoItself => "IntoItself",
            Refusal::Locked => "Locked",
            Refusal::NotEmpty => "NotEmpty",
            Refusal::ReadOnly => "ReadOnly",
            Refusal::DirFull => "DirFull",
            Refusal::IdsFull => "IdsFull",
            Refusal::DiscFull => "DiscFull",
            Refusal::CompactionRequired => "CompactionRequired",
            Refusal::MapFull => "MapFull",
            Refusal::NoHostFile => "NoHostFile",
            Refusal::HostTooLong => "HostTooLong",
            Refusal::HostExists => "HostExists",
            Refusal::NotNewMap => "NotNewMap",
        }
    }
}
