// Steps of a new map: in memory, and by one commit in both copies on the disk.

ghost use Rattle.std.specs.Prelude.{◌≡◌, ◌≤◌, ◌+◌, ◌*◌, IsTrue, IsFalse, OnOk, IfSome};
ghost use Rattle.std.specs.List.{list_any};
ghost use Rattle.std.specs.Option.{ForSome};
ghost use Rattle.fc_newmap.specs.Copies.{ChangesCopies, HoldsCopies};
ghost use Rattle.fc_device.specs.Calls.{FailsByFault, SameForm, StopsAndExitsLeave};
ghost use Rattle.fc_newmap.specs.Edits.{AreEdits, KeepsRuns};
ghost use Rattle.fc_newmap.specs.Map.{hole_runs};
ghost use Rattle.fc_newmap.specs.NewMap.{IsNewMap};
ghost use Rattle.fc_plan.specs.Parts.{KeepsZones, fronts, has_part};
ghost use Rattle.fc_writing.specs.New.{InStep};
ghost use Rattle.fc_writing.specs.Steps.{AreTaken, CanEdit, CanRoot, CanStep, CanTakeAll, HasMoved, HasStepped, is_changed, rooted_map};

use crate::ready::{MapStep, RootPlace, SpaceStep};
use fc_device::{Disk, DiskFault};
use fc_newmap::{NewMap, commit_zones};
use fc_plan::{Plan, give_back, take};

// Gives the record of the disc another root, if there is one.
fn place_root(map: &mut NewMap, root: Option<RootPlace>)
    requires map { IsNewMap map.old }
    requires root { IfSome root (CanRoot map.old) }
    ensures map { map.new ≡ rooted_map root map.old }
    ensures runs { KeepsRuns map.old map.new }
{
    if let Some(place) = root {
        map.set_root(place.address, place.len);
    }
}

// Takes the parts of plans, one plan after another.
fn take_all(map: &mut NewMap, plans: &[Plan])
    requires map { IsNewMap map.old }
    requires plans { CanTakeAll map.old.geometry (hole_runs map.old) plans.now }
    ensures edits { AreEdits map.old map.new }
    ensures taken { AreTaken map.old plans.now map.new }
    ensures zones { KeepsZones (λ z. list_any (λ p. has_part (fronts p.parts.items) z) plans.now) map.old map.new }
{
    for plan in plans {
        take(map, &plan.parts, plan.id);
    }
}

// Takes what a step takes, and gives back what goes back, in the map in memory.
fn edit(map: &mut NewMap, step: &SpaceStep)
    requires map { IsNewMap map.old }
    requires can { CanEdit map.old step.now }
    ensures edits { AreEdits (rooted_map step.now.root map.old) map.new }
    ensures moved { HasMoved map.old map.new step.now.plans.items step.now.gone.items step.now.kept.items }
    ensures runs { KeepsRuns map.old (rooted_map step.now.root map.old) }
    ensures zones { KeepsZones (is_changed map.old step.now.plans.items step.now.gone.items) (rooted_map step.now.root map.old) map.new }
{
    place_root(map, step.root);
    take_all(map, &step.plans);
    give_back(map, &step.gone, &step.kept);
}

/// Makes a step of a map, in memory and by one commit in both its copies on the disk; if no zone changes nothing is written.
/// Whatever the answer, the map in memory is the one after the step. At every crash and at every exit no sector outside the two copies
/// has changed, and the copy that counts has the zones before the step or those after it, unless the commit has more than nine.
pub fn make_step<D: Disk>(disk: &mut D, map: &mut NewMap, step: &MapStep) -> Result<(), DiskFault>
    requires attached { IsTrue (D.attached disk.old) }
    requires settled { IsFalse (D.pending disk.old) }
    requires size { D.sector_size disk.old ≡ map.old.geometry.sector }
    requires on_disk { map.old.geometry.map_sector + 2 * map.old.geometry.zones ≤ D.sectors disk.old }
    requires can { CanStep map.old step.now }
    requires copies { ForSome (D.bytes disk.old) (HoldsCopies map.old.geometry map.old.zones) }
    ensures map { HasStepped map.old map.new step.now }
    ensures frame { StopsAndExitsLeave D.Disk disk.old disk.new (ChangesCopies map.old.geometry) }
    ensures counts { StopsAndExitsLeave D.Disk disk.old disk.new (λ was image. InStep map.old map.new step.now image) }
    ensures equal { OnOk result (ForSome (D.bytes disk.new) (HoldsCopies map.old.geometry map.new.zones)) }
    ensures durable { OnOk result (IsFalse (D.pending disk.new)) }
    ensures form { SameForm D.Disk disk.old disk.new }
    ensures cause { FailsByFault D.Disk disk.old disk.new result }
{
    map.is_map();
    match step {
        MapStep::Nothing => Ok(()),
        MapStep::New(space) => {
            edit(map, space);
            commit_zones(disk, map, &space.zones)
        }
        MapStep::Old(_) => unreachable!(),
    }
}
