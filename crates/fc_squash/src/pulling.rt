// One object that slides into the hole before it.
ghost use Rattle.std.specs.Prelude.{◌≡◌, ◌≢◌, ◌<◌, ◌≤◌, ◌*◌, ◌/◌, ◌^◌, ◌∷◌, [], All, length, slice_get, Some, IsTrue, IfOk, IfSome, IfNone, OnErr};
ghost use Rattle.fc_oldmap.specs.Holes.{hole_end, hole_limit, AreApart, IsHole};
ghost use Rattle.fc_oldmap.specs.OldMap.{IsOldMap};
ghost use Rattle.fc_squash.specs.Places.{ChangesRoom, Leaves};
ghost use Rattle.fc_squash.specs.Sliding.{GoesOn, IsSlidBy};
ghost use Rattle.fc_squash.specs.Squashing.{place, IsPulled};

use crate::sliding::slide_down;
use fc_device::{Disk, DiskFault};
use fc_image::effects::Owned;
use fc_oldmap::{Hole, OldMap};

// The first hole that ends at a unit, and its index.
fn hole_before(holes: &[Hole], start: u32) -> Option<(u32, Hole)>
    requires few { length holes.now ≤ hole_limit }
    requires fits { All (λ h. hole_end h < 2 ^ 32) holes.now }
    ensures at { IfSome result (λ found. slice_get holes.now found.0 ≡ Some found.1) }
    ensures ends { IfSome result (λ found. hole_end found.1 ≡ start) }
    ensures none { IfNone result (All (λ h. hole_end h ≢ start) holes.now) }
{
    for (i, hole) in holes.iter().enumerate() {
        if hole.end() == start {
            return Some((i as u32, *hole));
        }
    }
    None
}

/// Slides an object into the hole that ends where it begins, if there is one, and answers where it begins then. The
/// hole moves up after it, and is joined with the next if the two then touch.
pub fn pull<D: Disk>(
    disk: &mut D,
    map: &mut OldMap,
    object: Owned,
    buffer: &mut [u8],
) -> Result<u32, DiskFault>
    requires attached { IsTrue (D.attached disk.old) }
    requires size { D.sector_size disk.old ≡ 256 * map.old.sector_units }
    requires on_disk { map.old.disc_units / map.old.sector_units ≤ D.sectors disk.old }
    requires whole { length buffer.old ≡ D.sector_size disk.old }
    requires place { IsHole map.old.disc_units map.old.sector_units 0 (place object) }
    requires apart { All (AreApart (place object)) map.old.holes }
    ensures pulled { IfOk result (λ start. IsPulled map.old.holes map.new.holes (place object) start) }
    ensures slid { IfOk result (λ start. IsSlidBy D.Disk disk.old disk.new (object.start / map.old.sector_units) (start / map.old.sector_units) (object.len / map.old.sector_units)) }
    ensures places { Leaves D.Disk disk.old disk.new (ChangesRoom map.old (object ∷ [])) }
    ensures disc { map.new.disc_units ≡ map.old.disc_units }
    ensures units { map.new.sector_units ≡ map.old.sector_units }
    ensures map { IsOldMap map.old }
    ensures err { OnErr result (map.new ≡ map.old) }
    ensures goes { GoesOn D.Disk disk.old disk.new result }
    ensures buffer { length buffer.new ≡ length buffer.old }
{
    let units = map.sector_units();
    let Some((index, hole)) = hole_before(map.holes(), object.start) else {
        return Ok(object.start);
    };
    slide_down(
        disk,
        u64::from(object.start / units),
        u64::from(hole.start / units),
        u64::from(object.len / units),
        buffer,
    )?;
    map.shift(index, object.len);
    Ok(hole.start)
}
