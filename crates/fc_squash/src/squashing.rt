// All objects, one after another.
ghost use Rattle.std.specs.Prelude.{◌≡◌, ◌<◌, ◌≤◌, ◌*◌, ◌/◌, length, IsTrue, OnOk};
ghost use Rattle.fc_device.specs.Calls.{FailsByFault, SameForm};
ghost use Rattle.fc_oldmap.specs.OldMap.{IsOldMap};
ghost use Rattle.fc_squash.specs.Sliding.{TellsAsBefore, TimeGoesOn};
ghost use Rattle.fc_image.specs.effects.Moves.{Squashed};
ghost use Rattle.fc_squash.specs.Places.{ChangesRoom, Leaves};
ghost use Rattle.fc_squash.specs.Squashing.{AreBodies, KeepsBodies, SquashedBy, with_start};

use crate::pulling::pull;
use fc_device::{Disk, DiskFault, MAX_SECTOR};
use fc_image::effects::Owned;
use fc_oldmap::OldMap;

/// The bytes of a unit.
const UNIT: usize = 256;

// Puts the new start of an object in the place of the old one.
fn set_start(owned: &mut [Owned], k: usize, start: u32)
    requires { k < length owned.old }
    ensures { owned.new ≡ with_start owned.old k start }
{
    owned[k].start = start;
}

// Joins the holes that touch, and slides each object into the hole before it. `buffer` has the bytes of a sector.
fn pull_all<D: Disk>(
    disk: &mut D,
    map: &mut OldMap,
    owned: &mut [Owned],
    buffer: &mut [u8],
) -> Result<(), DiskFault>
    requires attached { IsTrue (D.attached disk.old) }
    requires size { D.sector_size disk.old ≡ 256 * map.old.sector_units }
    requires on_disk { map.old.disc_units / map.old.sector_units ≤ D.sectors disk.old }
    requires whole { length buffer.old ≡ D.sector_size disk.old }
    requires map { IsOldMap map.old }
    requires bodies { AreBodies map.old owned.old }
    ensures bodies { KeepsBodies map.old map.new owned.old owned.new }
    ensures squashed { OnOk result (Squashed map.old map.new owned.old owned.new) }
    ensures bytes { OnOk result (SquashedBy D.Disk disk.old disk.new map.old owned.old owned.new) }
    ensures places { Leaves D.Disk disk.old disk.new (ChangesRoom map.old owned.old) }
    ensures form { SameForm D.Disk disk.old disk.new }
    ensures stops { TimeGoesOn D.Disk disk.old disk.new }
    ensures told { TellsAsBefore D.Disk disk.old disk.new }
    ensures cause { FailsByFault D.Disk disk.old disk.new result }
{
    map.tidy();
    for k in 0..owned.len() {
        let start = pull(disk, map, owned[k], buffer)?;
        set_start(owned, k, start);
    }
    Ok(())
}

/// Slides each object of a disc with an old map into the hole before it, in rising order, and gives the new starts. No
/// hole is then directly followed by an object or another hole. The objects are all but the root, rising by their
/// starts, each some whole sectors of the disc and apart from all others and all holes. Entries and parent fields that
/// name the old starts are the caller's to rewrite, and the map to write. It fails only if a call of the disk fails;
/// map and list then speak of the objects that slid before, and holes and objects that were to slide may have any bytes.
/// Takes no memory.
pub fn squash<D: Disk>(
    disk: &mut D,
    map: &mut OldMap,
    owned: &mut Vec<Owned>,
) -> Result<(), DiskFault>
    requires attached { IsTrue (D.attached disk.old) }
    requires size { D.sector_size disk.old ≡ 256 * map.old.sector_units }
    requires on_disk { map.old.disc_units / map.old.sector_units ≤ D.sectors disk.old }
    requires bodies { AreBodies map.old owned.old.items }
    ensures bodies { KeepsBodies map.old map.new owned.old.items owned.new.items }
    ensures squashed { OnOk result (Squashed map.old map.new owned.old.items owned.new.items) }
    ensures bytes { OnOk result (SquashedBy D.Disk disk.old disk.new map.old owned.old.items owned.new.items) }
    ensures places { Leaves D.Disk disk.old disk.new (ChangesRoom map.old owned.old.items) }
    ensures form { SameForm D.Disk disk.old disk.new }
    ensures stops { TimeGoesOn D.Disk disk.old disk.new }
    ensures told { TellsAsBefore D.Disk disk.old disk.new }
    ensures cause { FailsByFault D.Disk disk.old disk.new result }
{
    let mut room = [0; MAX_SECTOR];
    let size = UNIT * map.sector_units() as usize;
    pull_all(disk, map, owned, &mut room[..size])
}
