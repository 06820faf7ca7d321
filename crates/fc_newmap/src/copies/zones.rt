// Changed zones of a map, written into both copies on the disk.

ghost use Rattle.std.specs.Prelude.{◌≡◌, ◌<◌, ◌≤◌, [], All, length, IsFalse, IsOk, OnOk};
ghost use Rattle.std.specs.List.Sorted.{IsStrictlyIncreasing};
ghost use Rattle.std.specs.Option.{ForSome};
ghost use Rattle.fc_device.specs.Calls.{FailsByFault, SameForm, StopsAndExitsLeave};
ghost use Rattle.fc_newmap.specs.Edits.{KeepsRuns};
ghost use Rattle.fc_newmap.specs.declared.copies.Which.TheVariants.{One};
ghost use Rattle.fc_newmap.specs.Committing.{CanWrite, KeepsContents, TakesCopies};
ghost use Rattle.fc_newmap.specs.Copies.{ChangesCopies, CommitEnds, CommitLeaves, copy_of};

use super::committing::{commit, commit_wide};
use crate::NewMap;
use arrayvec::ArrayVec;
use fc_device::{Disk, DiskFault};

// So many zones can be written so that a crash leaves the old map or the new one.
const GATED_ZONES: usize = 9;

// Zones as the list that `commit` takes.
fn few_zones(zones: &[u16]) -> ArrayVec<u16, 9>
    requires { length zones.now ≤ 9 }
    ensures { result.items ≡ zones.now }
{
    let mut few = ArrayVec::new();
    for z in zones {
        few.push(*z);
    }
    few
}

/// Writes changed zones of a map into both copies; for none nothing is written, and the answer is Ok. If they are at most
/// 9, a crash leaves the old map or the new one, whole; if they are more, nothing is promised of the two copies at a crash.
pub fn commit_zones<D: Disk>(
    disk: &mut D,
    map: &mut NewMap,
    changed: &Vec<u16>,
) -> Result<(), DiskFault>
    requires disk { TakesCopies D.Disk disk.old map.old.geometry }
    requires rising { IsStrictlyIncreasing changed.now.items }
    requires zones { All (λ z. z < map.old.geometry.zones) changed.now.items }
    requires ready { ForSome (D.bytes disk.old) (CanWrite map.old changed.now.items) }
    ensures runs { KeepsRuns map.old map.new }
    ensures contents { KeepsContents map.old map.new }
    ensures keeps { StopsAndExitsLeave D.Disk disk.old disk.new (ChangesCopies map.old.geometry) }
    ensures whole { length changed.now.items ≤ 9 → StopsAndExitsLeave D.Disk disk.old disk.new (λ start image.
        CommitLeaves map.old.geometry start (copy_of map.old.geometry One start) map.new.zones image) }
    ensures nothing { changed.now.items ≡ [] → IsOk result × (disk.new ≡ disk.old) }
    ensures ends { OnOk result (ForSome (D.bytes disk.old) (λ start. ForSome (D.bytes disk.new) (CommitEnds map.old.geometry start map.new.zones))) }
    ensures durable { OnOk result (IsFalse (D.pending disk.new)) }
    ensures form { SameForm D.Disk disk.old disk.new }
    ensures cause { FailsByFault D.Disk disk.old disk.new result }
{
    map.is_map();
    if changed.is_empty() {
        return Ok(());
    }
    if changed.len() > GATED_ZONES {
        return commit_wide(disk, map, changed);
    }
    let few = few_zones(changed);
    commit(disk, map, &few)
}
