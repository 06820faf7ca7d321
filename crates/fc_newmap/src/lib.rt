//! What a new map is: its zones, the runs in them, the order of an identifier's runs, and the sectors of the disc that
//! runs stand for; and its two copies on the disc.
//!
//! Source: the RISC OS PRM, chapter FileCore, "New maps".
#![tactic(auto)]

mod copies;
mod extents;
mod map;
mod places;
mod runs;
mod shapes;
mod starts;
mod sums;
mod tally;
mod unused;
mod walk;

ghost use Rattle.fc_newmap.specs.Rows.{MapRows};
ghost use Rattle.fc_newmap.specs.RunsLaw.{GeometryLaw, IdsLaw, RunsLaw, ShapeLaw, ZoneSectorsLaw};

pub use copies::{
    CopyError, Which, commit, commit_wide, commit_zones, copies_fit, fetch, gate, mix, repair,
};
pub use extents::extent_of;
use fc_zone::ZoneFault;
pub use map::NewMap;
pub use runs::{MAP_ID, RunCursor, home_zone};
pub use sums::HoleSums;
pub use tally::id_limit;
pub use walk::Walk;

/// Why a copy of a map is not loaded.
#[derive(Clone, Copy, Debug, PartialEq, Eq)]
pub enum MapError {
    /// A zone has no runs: the first such zone, and the place of its fault.
    Zone(ZoneFault),
}

/// The map of a fresh E disc, worked out.
pub fn rows()
    ensures { MapRows }
{}

/// A sector of the disc lies in one run of a map.
pub fn apart()
    ensures { RunsLaw }
{}

/// In the geometry of a valid record zones follow each other, and runs are whole sectors.
pub fn valid_geometry()
    ensures { GeometryLaw }
{}

/// Each zone of a valid record's geometry has a shape that the calls of fc_zone take.
pub fn zone_shapes()
    ensures { ShapeLaw }
{}

/// An identifier has the runs that it had, if it has them in each zone.
pub fn ids()
    ensures { IdsLaw }
{}

/// If the runs of one zone change, an identifier's sectors change in one place.
pub fn one_zone()
    ensures { ZoneSectorsLaw }
{}
