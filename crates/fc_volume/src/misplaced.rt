// Where the map and a boot block lie, and whether an object might come to take a sector of them.
ghost use Rattle.std.specs.Prelude.{◌≡◌, ◌<◌, ◌≤◌, ◌+◌, ◌^◌, ◌&&◌, ◌||◌, ℕ, Bool, List};
ghost use Rattle.fc_newmap.specs.Walk.{IsInZone};
ghost use Rattle.std.specs.Ordering.{nat_cmp};
ghost use Rattle.std.specs.FinMap.{FinMap};
ghost use Rattle.fc_objects.specs.Extents.{extent_sectors, sectors_in};
ghost use Rattle.fc_newmap.specs.Map.{all_runs};
ghost use Rattle.fc_image.specs.Layout.{Layout, map_place};
ghost use Rattle.fc_image.specs.Walk.{Object};
ghost use Rattle.fc_image.specs.Opening.{boot_place, misplaced_sector, reserved_in};
ghost use Rattle.fc_space.specs.Space.{layout_of};
ghost use Rattle.fc_tree.specs.declared.node.Node.{Node};
ghost use Rattle.fc_tree.specs.Loaded.{not_free};
ghost use Rattle.fc_tree.specs.Parts.{AreOwners};
ghost use Rattle.fc_volume.specs.Misplaced.{IsLeast, is_in_loose, is_in_some_loose, is_loose, lies_in};

use fc_alloc::Owners;
use fc_device::Extent;
use fc_newmap::{MAP_ID, NewMap, Walk, extent_of};
use fc_record::Kind;
use fc_space::Space;
use fc_zone::{Run, RunKind};

/// The byte at which a boot block begins.
const BOOT_BLOCK: u64 = 0xC00;

/// The bytes of a boot block.
const BOOT_BYTES: u64 = 512;

/// No sectors.
const NONE: Extent = Extent {
    first: 0,
    sectors: 0,
};

// The sectors of a boot block, if the kind has one.
fn boot_row(kind: &Kind, sector: u64) -> Extent
    requires { 256 ≤ sector }
    ensures sectors { extent_sectors result ≡ boot_place kind.now sector }
    ensures low { result.first + result.sectors < 2 ^ 32 }
{
    match kind {
        Kind::Boot(_) => Extent {
            first: BOOT_BLOCK / sector,
            sectors: BOOT_BYTES.div_ceil(sector),
        },
        Kind::OneZone(_) | Kind::DiscD | Kind::DiscL { .. } => NONE,
    }
}

/// The sectors that no object may take: those of the map, and those of a boot block.
pub fn reserved_rows(kind: &Kind, space: &Space) -> [Extent; 2]
    ensures reserved { not_free (layout_of space.now) (sectors_in result) ≡ reserved_in kind.now (layout_of space.now) }
{
    match space {
        Space::OldMapped(map) => {
            let sectors = if map.sector_units() == 4 { 1 } else { 2 };
            [Extent { first: 0, sectors }, NONE]
        }
        Space::NewMapped(map) => [
            map_row(map),
            boot_row(kind, u64::from(map.geometry().sector)),
        ],
    }
}

// The sectors of both copies of a map.
fn map_row(map: &NewMap) -> Extent
    ensures sectors { extent_sectors result ≡ map_place (Layout.New map.now) }
    ensures low { result.first + result.sectors < 2 ^ 63 }
{
    let g = map.geometry();
    Extent {
        first: g.map_sector,
        sectors: 2 * u64::from(g.zones),
    }
}

// The least sector that lies in both rows.
fn first_common(a: Extent, b: Extent) -> Option<u64>
    requires a { a.first + a.sectors < 2 ^ 64 }
    requires b { b.first + b.sectors < 2 ^ 64 }
    ensures { IsLeast (λ s. lies_in a s && lies_in b s) result }
{
    let first = a.first.max(b.first);
    let end = (a.first + a.sectors).min(b.first + b.sectors);
    if first < end { Some(first) } else { None }
}

// The lesser of two sectors that may be there.
fn lesser(a: Option<u64>, b: Option<u64>) -> Option<u64>
    ensures { (p q : ℕ → Bool) → IsLeast p a → IsLeast q b → IsLeast (λ s. p s || q s) result }
{
    match (a, b) {
        (Some(m), Some(n)) => Some(m.min(n)),
        (Some(m), None) => Some(m),
        (None, n) => n,
    }
}

// Whether a run is a hole, or one of an identifier that may move.
fn is_loose(owners: &Owners, kind: RunKind) -> bool
    ensures { result ≡ is_loose owners.now kind }
{
    match kind {
        RunKind::Hole => true,
        RunKind::Id(id) => owners.owned(id) && MAP_ID < id,
    }
}

// The least sector of two rows that lies in a run of a zone, if the run is a hole or of an identifier that may move.
fn least_in_run(
    map: &NewMap,
    owners: &Owners,
    rows: (Extent, Extent),
    z: u16,
    run: Run,
) -> Option<u64>
    requires run { IsInZone map.now.geometry (z, run) }
    requires first { rows.0.first + rows.0.sectors < 2 ^ 64 }
    requires second { rows.1.first + rows.1.sectors < 2 ^ 64 }
    ensures { IsLeast (λ s. is_in_loose owners.now map.now.geometry rows.0 rows.1 (z, run) s) result }
{
    if !is_loose(owners, run.kind) {
        return None;
    }
    let place = extent_of(map.geometry(), z, run);
    lesser(first_common(place, rows.0), first_common(place, rows.1))
}

// The least sector of a map or of a boot block that lies in a hole or in an identifier that may move, or that is of both.
fn least_misplaced(map: &NewMap, owners: &Owners, rows: (Extent, Extent)) -> Option<u64>
    requires first { rows.0.first + rows.0.sectors < 2 ^ 64 }
    requires second { rows.1.first + rows.1.sectors < 2 ^ 64 }
    ensures { IsLeast (λ s. (lies_in rows.0 s && lies_in rows.1 s) || is_in_some_loose owners.now map.now.geometry rows.0 rows.1 (all_runs map.now) s) result }
{
    let mut least = first_common(rows.0, rows.1);
    let mut walk = Walk::over_all(map);
    while let Some((z, run)) = walk.next(map) {
        least = lesser(least, least_in_run(map, owners, rows, z, run));
    }
    least
}

/// The least sector of the map or of a boot block that lies in a hole or in an identifier that may move, or that is of
/// both. The owners are those of the disc's objects. One walk over the runs finds it.
pub fn misplaced_sector(kind: &Kind, space: &Space, owners: &Owners) -> Option<u64>
    ensures { (nodes : FinMap nat_cmp Node) (objects : List Object) → AreOwners owners.now nodes (layout_of space.now) objects → result ≡ misplaced_sector kind.now (layout_of space.now) objects }
{
    match space {
        Space::OldMapped(_) => None,
        Space::NewMapped(map) => {
            let boot = boot_row(kind, u64::from(map.geometry().sector));
            least_misplaced(map, owners, (map_row(map), boot))
        }
    }
}
