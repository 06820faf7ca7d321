// The copies of a new map, made equal.

ghost use Rattle.std.specs.Prelude.{◌≡◌, ◌≤◌, ◌+◌, ◌*◌, IsTrue, IsFalse, OnOk};
ghost use Rattle.std.specs.Option.{ForSome};
ghost use Rattle.fc_newmap.specs.Copies.{HoldsCopies};
ghost use Rattle.fc_device.specs.Calls.{FailsByFault, SameForm, StopsAndExitsLeave};
ghost use Rattle.fc_writing.specs.Copies.{HasCopies, KeepsMap};

use fc_device::{Disk, DiskFault};
use fc_newmap::{NewMap, Which, repair};

/// What is known of the two copies of a new map.
#[derive(Clone, Copy, Debug, PartialEq, Eq)]
pub enum Copies {
    /// They are equal. An old map, which has no copy, counts as this.
    Equal,
    /// This one counts; the other may differ from it.
    Chosen(Which),
}

/// Makes the copies of a map equal, if they may differ.
pub fn match_copies<D: Disk>(disk: &mut D, map: &NewMap, copies: Copies) -> Result<(), DiskFault>
    requires attached { IsTrue (D.attached disk.old) }
    requires settled { IsFalse (D.pending disk.old) }
    requires size { D.sector_size disk.old ≡ map.now.geometry.sector }
    requires on_disk { map.now.geometry.map_sector + 2 * map.now.geometry.zones ≤ D.sectors disk.old }
    requires known { ForSome (D.bytes disk.old) (HasCopies copies map.now) }
    ensures keeps { StopsAndExitsLeave D.Disk disk.old disk.new (λ was image. HasCopies copies map.now was → KeepsMap map.now was image) }
    ensures equal { OnOk result (ForSome (D.bytes disk.new) (HoldsCopies map.now.geometry map.now.zones)) }
    ensures durable { OnOk result (IsFalse (D.pending disk.new)) }
    ensures form { SameForm D.Disk disk.old disk.new }
    ensures cause { FailsByFault D.Disk disk.old disk.new result }
{
    match copies {
        Copies::Equal => Ok(()),
        Copies::Chosen(which) => repair(disk, map.geometry(), which),
    }
}
