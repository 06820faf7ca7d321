// A change, ready to be written.

use fc_device::Extent;
use fc_oldmap::OldMap;
use fc_plan::{Part, Plan};

/// Bytes, and the sectors that they are written to, one after another. What the bytes don't fill gets zeros.
#[derive(Drop)]
pub struct Piece {
    pub place: Vec<Extent>,
    pub bytes: Vec<u8>,
}

/// Sectors that are copied one for one into others.
#[derive(Drop)]
pub struct Transfer {
    pub from: Vec<Extent>,
    pub to: Vec<Extent>,
}

/// What is written into the sectors of the new object.
#[derive(Drop)]
pub enum Source {
    /// There is none.
    Nothing,
    /// The bytes that are given with the change, and zeros after them.
    Bytes(Vec<Extent>),
    /// Other sectors.
    Sectors(Transfer),
}

/// Where the root is to lie, by the record in zone 0: its address and its length in bytes.
#[derive(Clone, Copy, Debug, PartialEq, Eq)]
pub struct RootPlace {
    pub address: u32,
    pub len: u32,
}

/// Space that is taken from a new map and space that goes back, by one commit.
#[derive(Drop)]
pub struct SpaceStep {
    /// What is taken, one plan after another. No two are of one identifier.
    pub plans: Vec<Plan>,
    /// The identifiers whose runs go back.
    pub gone: Vec<u32>,
    /// Of the parts that are taken those whose identifier goes back: they stay. They rise over the disc.
    pub kept: Vec<Part>,
    /// Another root, if the root moves or grows.
    pub root: Option<RootPlace>,
    /// The zones that change, rising; zone 0 among them if there is another root.
    pub zones: Vec<u16>,
}

/// What becomes of the map in one step.
#[derive(Drop)]
pub enum MapStep {
    /// A new map's space.
    New(SpaceStep),
    /// The old map that is to be on the disc.
    Old(OldMap),
    /// It stays.
    Nothing,
}

/// A change, ready to be written; nothing of it takes memory any more. Each sector is written once, and nothing is copied
/// from a sector that is written.
#[derive(Drop)]
pub struct Ready {
    /// The new object.
    pub source: Source,
    /// What is copied.
    pub carried: Vec<Transfer>,
    /// What is written before the map's first step.
    pub early: Vec<Piece>,
    /// What is written after it, in this order.
    pub late: Vec<Piece>,
    /// The map's first step: all that is taken, and what goes back at once.
    pub take: MapStep,
    /// Its second step: what goes back in the end.
    pub give: MapStep,
}
