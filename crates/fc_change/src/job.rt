// Jobs of judged commands, and what they need of a disc.

use fc_refusals::{Renaming, Slot, Target};

/// What the entry of a file says beside its name and its address: the words load and exec, and its bytes.
#[derive(Clone, Copy)]
pub struct FileWords {
    pub load: u32,
    pub exec: u32,
    pub len: u32,
}

/// The words that an entry gets, and bits 0 to 2 of its attributes.
#[derive(Clone, Copy)]
pub struct ObjectWords {
    pub load: u32,
    pub exec: u32,
    pub access: u32,
}

/// What a command that nothing refuses is about. The judges of fc_refusals give the numbers of nodes in it. A new entry's name stands
/// beside it.
#[derive(Clone, Copy)]
pub enum Job {
    /// `save` and `create`: a file, new or in the place of another.
    File(Slot, FileWords),
    /// `cdir`: an empty directory, in the directory of this node.
    Directory(u64),
    /// `delete`: a file or an empty directory goes.
    Removal(Target),
    /// `rename`: another name, or another directory, or both.
    Move(Renaming),
    /// `set`: other words and access bits.
    Words(Target, ObjectWords),
    /// Conversion's `mark`: other attributes, but for bit 3.
    Marks(Target, u32),
}

/// A directory that has to grow: its node, and the bytes that it then has.
#[derive(Clone, Copy)]
pub struct Growth {
    pub node: u64,
    pub len: u32,
}

/// What a job needs of the disc.
#[derive(Clone, Copy)]
pub struct Wants {
    /// The bytes of a new object, or of a copy; 0 if there is none.
    pub bytes: u32,
    /// The node of the directory whose files may leave slack for them.
    pub shares: Option<u64>,
    /// The node of a file that is copied, since it shares its identifier and leaves its directory.
    pub copied: Option<u64>,
    /// The node of an object whose space goes back if no other object has its identifier.
    pub goes: Option<u64>,
    pub grows: Option<Growth>,
}
