// What commands are about.

/// An object that a command names: the node of the directory that holds it, the place of its entry there, and its own
/// node.
#[derive(Clone, Copy, Debug, PartialEq, Eq)]
pub struct Target {
    pub holder: u64,
    pub at: usize,
    pub node: u64,
}

/// The place at which `save` and `create` put a file.
#[derive(Clone, Copy, Debug, PartialEq, Eq)]
pub enum Slot {
    /// A new entry of the directory of this node.
    New(u64),
    /// In the place of a file.
    Over(Target),
}

/// What `rename` does: which object gets another name, and the node of the directory that holds it then.
#[derive(Clone, Copy, Debug, PartialEq, Eq)]
pub struct Renaming {
    pub target: Target,
    pub holder: u64,
}
