// Rows of sectors that no hole may take.
ghost use Rattle.std.specs.Prelude.{◌≡◌, ◌<◌, ◌+◌, ◌^◌, not};
ghost use Rattle.fc_image.specs.Layout.{is_apart};
ghost use Rattle.fc_newmap.specs.Map.{map_sectors};
ghost use Rattle.fc_newmap.specs.NewMap.{IsOfRecord};
ghost use Rattle.fc_objects.specs.Extents.{extent_sectors};
ghost use Rattle.fc_reclaim.specs.Lost.{boot_row};

use fc_device::Extent;
use fc_record::Geometry;

/// The byte at which a boot block begins.
const BOOT_BLOCK: u64 = 0xC00;

/// The bytes of a boot block.
const BOOT_BYTES: u64 = 512;

/// No sectors.
const NONE: Extent = Extent {
    first: 0,
    sectors: 0,
};

// The sectors from &C00 to &DFF, if a boot block fits there.
pub fn boot_row(g: &Geometry, boot: bool) -> Extent
    requires { IsOfRecord g.now }
    ensures sectors { extent_sectors result ≡ boot_row boot g.now.sector }
    ensures low { result.first + result.sectors < 2 ^ 64 }
{
    if !boot {
        return NONE;
    }
    let sector = u64::from(g.sector);
    Extent {
        first: BOOT_BLOCK / sector,
        sectors: BOOT_BYTES.div_ceil(sector),
    }
}

// The sectors of both copies of a map.
pub fn map_row(g: &Geometry) -> Extent
    requires { IsOfRecord g.now }
    ensures sectors { extent_sectors result ≡ map_sectors g.now }
    ensures low { result.first + result.sectors < 2 ^ 64 }
{
    Extent {
        first: g.map_sector,
        sectors: 2 * u64::from(g.zones),
    }
}

// Whether two rows have a sector in common.
pub fn meet(a: Extent, b: Extent) -> bool
    requires a { a.first + a.sectors < 2 ^ 64 }
    requires b { b.first + b.sectors < 2 ^ 64 }
    ensures { result ≡ not (is_apart (extent_sectors a) (extent_sectors b)) }
{
    let first = a.first.max(b.first);
    let end = (a.first + a.sectors).min(b.first + b.sectors);
    first < end
}
