// What a checker tells.

/// What a checker tells of a disc.
#[derive(Clone, Copy, Debug, PartialEq, Eq)]
pub struct Report {
    pub files: u64,
    /// The root counts.
    pub dirs: u64,
    /// Bytes that no object owns and that lie in no hole.
    pub lost: u64,
    /// The number of holes.
    pub holes: u64,
    /// The bytes of all holes.
    pub free: u64,
    /// Directories whose folded names don't rise.
    pub unsorted: u64,
    /// Directories whose parent field isn't their parent's address.
    pub parents: u64,
}
