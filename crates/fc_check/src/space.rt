// The space of a disc: its holes, and what is lost.

ghost use Rattle.std.specs.Prelude.{◌≡◌, ◌+◌, ◌-◌, ◌*◌, ◌/◌, ◌<◌, ◌^◌};
ghost use Rattle.fc_oldmap.specs.Holes.{hole_sum};
ghost use Rattle.fc_image.specs.Layout.{Layout};
ghost use Rattle.fc_image.specs.Report.{free_bytes, hole_count};
ghost use Rattle.fc_space.specs.Space.{layout_of};
ghost use Rattle.fc_check.specs.Space.{bytes_lost_to, is_lost_id, left_by, with_run};

use fc_alloc::{Owner, Owners};
use fc_newmap::{MAP_ID, NewMap, Walk};
use fc_oldmap::{Hole, OldMap};
use fc_space::Space;
use fc_zone::{Run, RunKind};

/// What the space of a disc comes to.
#[derive(Clone, Copy)]
pub struct SpaceCounts {
    /// The number of holes.
    pub holes: u64,
    /// The bytes of all holes.
    pub free: u64,
    /// The bytes that nothing owns and that lie in no hole.
    pub lost: u64,
}

/// What some runs of a new map come to.
#[derive(Clone, Copy)]
pub struct RunSums {
    /// How many of them are holes.
    pub holes: u64,
    /// The bits of the holes.
    pub free: u64,
    /// The bits of the runs that are lost.
    pub lost: u64,
}

// The identifier of the disc's defects.
const DEFECTS_ID: u32 = 1;

// Whether an identifier is lost.
fn is_lost(owners: &Owners, id: u32) -> bool
    ensures { result ≡ is_lost_id owners.now id }
{
    id != DEFECTS_ID && id != MAP_ID && !owners.owned(id)
}

// The sums with those of a run more.
fn with_run(sums: RunSums, run: Run, owners: &Owners) -> RunSums
    requires holes { sums.holes + 1 < 2 ^ 64 }
    requires free { sums.free + run.len < 2 ^ 64 }
    requires lost { sums.lost + run.len < 2 ^ 64 }
    ensures { result ≡ with_run owners.now sums run }
{
    let len = u64::from(run.len);
    match run.kind {
        RunKind::Hole => RunSums {
            holes: sums.holes + 1,
            free: sums.free + len,
            ..sums
        },
        RunKind::Id(id) if is_lost(owners, id) => RunSums {
            lost: sums.lost + len,
            ..sums
        },
        RunKind::Id(_) => sums,
    }
}

// The counts of a disc with a new map.
fn new_counts(map: &NewMap, owners: &Owners) -> SpaceCounts
    ensures holes { result.holes ≡ hole_count (Layout.New map.now) }
    ensures free { result.free ≡ free_bytes (Layout.New map.now) }
    ensures lost { result.lost ≡ bytes_lost_to (Layout.New map.now) owners.now }
{
    let g = map.geometry();
    let mut sums = RunSums {
        holes: 0,
        free: 0,
        lost: 0,
    };
    // All runs; a zone has at most 8192 bits, so the sums fit in bytes too.
    let mut walk = Walk::from_zone(map, 0, g.zones - 1);
    while let Some((_, run)) = walk.next(map) {
        sums = with_run(sums, run, owners);
    }
    SpaceCounts {
        holes: sums.holes,
        free: sums.free * g.bit_bytes,
        lost: sums.lost * g.bit_bytes,
    }
}

// How many sectors are left of some when those of the owners are taken away.
fn left_by(sectors: u64, owners: &[Owner]) -> u64
    ensures { result ≡ left_by sectors owners.now }
{
    owners
        .iter()
        .fold(sectors, |left, owner| left.saturating_sub(owner.sectors))
}

// The units of all holes.
fn free_units(holes: &[Hole]) -> u32
    requires { hole_sum holes.now < 2 ^ 32 }
    ensures { result ≡ hole_sum holes.now }
{
    holes.iter().map(|hole| hole.len).sum()
}

// The counts of a disc with an old map. Its map, holes and objects are apart, so what they leave is lost.
fn old_counts(map: &OldMap, owners: &[Owner]) -> SpaceCounts
    ensures holes { result.holes ≡ hole_count (Layout.Old map.now) }
    ensures free { result.free ≡ free_bytes (Layout.Old map.now) }
    ensures lost { result.lost ≡ bytes_lost_to (Layout.Old map.now) owners.now }
{
    let units = map.sector_units();
    let free = free_units(map.holes());
    // The map takes one sector of four units, or two of one.
    let map_sectors = if units == 4 { 1 } else { 2 };
    let unfree = (map.disc_units() / units)
        .saturating_sub(map_sectors)
        .saturating_sub(free / units);
    SpaceCounts {
        holes: map.holes().len() as u64,
        free: 256 * u64::from(free),
        lost: left_by(u64::from(unfree), owners) * u64::from(256 * units),
    }
}

/// The holes of a disc, and what is lost if these are all owners.
pub fn space_counts(space: &Space, owners: &Owners) -> SpaceCounts
    ensures holes { result.holes ≡ hole_count (layout_of space.now) }
    ensures free { result.free ≡ free_bytes (layout_of space.now) }
    ensures lost { result.lost ≡ bytes_lost_to (layout_of space.now) owners.now }
{
    match space {
        Space::OldMapped(map) => old_counts(map, owners.list()),
        Space::NewMapped(map) => new_counts(map, owners),
    }
}
