// The owner of an identifier.

/// An object that lies in an identifier of the map, alone or with others of its directory.
#[derive(Clone, Copy, Debug, PartialEq, Eq)]
pub struct Owner {
    /// The identifier.
    pub id: u32,
    /// The number of the node of the directory that holds the object.
    pub dir: u64,
    /// The number of the object's own node.
    pub node: u64,
    /// Whether the object is a file. Else it is a directory.
    pub file: bool,
    /// The low byte of the object's address, which says where in the identifier it begins.
    pub low: u8,
    /// How many sectors into the identifier it begins.
    pub first: u64,
    /// How many sectors it takes.
    pub sectors: u64,
}
