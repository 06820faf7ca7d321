// Changes of volumes as values.

use fc_dirs::Entry;
use fc_drafts::Draft;

/// What the directory of a node says after a command.
#[derive(Drop)]
pub struct Says {
    pub node: u64,
    pub draft: Draft,
}

/// What becomes of the object that a command is about.
#[derive(Drop)]
pub enum Turned {
    /// It is new: the node of the directory that holds it, its entry, and what it says if it is a directory.
    Comes(u64, Entry, Option<Draft>),
    /// It stays: its node, the node of the directory that holds it then, and its entry then.
    Turns(u64, u64, Entry),
    /// It goes: its node.
    Goes(u64),
}

/// A directory that grows: its node, and the address and the bytes that it then has.
#[derive(Clone, Copy)]
pub struct Regrowth {
    pub node: u64,
    pub address: u32,
    pub len: u32,
}

/// What a command does to a volume's objects, whole in memory before anything is written: what each changed directory says, each once
/// and in the order in which they are written; the object; and a directory that grows.
#[derive(Drop)]
pub struct Change {
    pub says: Vec<Says>,
    pub object: Turned,
    pub grown: Option<Regrowth>,
}
