// What holds of zones whatever is called.

ghost use Rattle.std.specs.Prelude.{◌≡◌, ◌<◌, ◌≤◌, ◌↔◌, ℕ, List, slice_index};
ghost use Rattle.fc_bytes.specs.Bits.{bits};
ghost use Rattle.fc_zone.specs.declared.Run.{Run};
ghost use Rattle.fc_zone.specs.declared.RunKind.{RunKind};
ghost use Rattle.fc_zone.specs.declared.ZoneShape.{ZoneShape};
ghost use Rattle.fc_zone.specs.Edits.{HasHoleAt, HasRunToSplit, IsWritten, KeepsLinks, Merges, Relabels, Splits, WritesLinks};
ghost use Rattle.fc_zone.specs.Laws.{IsAgain, LeavesRest};
ghost use Rattle.fc_zone.specs.Reading.{runs_of, zone_of};
ghost use Rattle.fc_zone.specs.Zone.{IsFault, IsShapeOf, IsZone, Zone};

/// The function that reads a zone, and what its bits spell and its chain names, say the same.
pub fn reading_agrees()
    ensures runs { (shape : ZoneShape) (sector : List ℕ) (runs : List Run) → IsShapeOf sector shape → (zone_of shape sector ≡ Ok runs) ↔ Zone shape sector runs }
    ensures fault { (shape : ZoneShape) (sector : List ℕ) (at : ℕ) → IsShapeOf sector shape → IsFault shape (bits sector) at → zone_of shape sector ≡ Err (record { zone = shape.zone; bit = at }) }
{}

/// A sector has one list of runs at most, the one that is read.
pub fn one_list_of_runs()
    ensures { (shape : ZoneShape) (sector : List ℕ) (runs : List Run) → Zone shape sector runs → runs_of shape sector ≡ runs }
{}

/// A list of runs whose links are written in full has one spelling.
pub fn one_spelling()
    ensures { (shape : ZoneShape) (s t : List ℕ) (runs : List Run) → Zone shape s runs → Zone shape t runs → IsWritten shape (bits s) runs → IsWritten shape (bits t) runs
        → (k : ℕ) → shape.first ≤ k → k < shape.end → slice_index (bits s) k ≡ slice_index (bits t) k }
{}

/// Edits keep links that were written in full so.
pub fn stays_written()
    ensures { (shape : ZoneShape) (old new : List ℕ) (before after : List Run) → KeepsLinks shape (bits old) (bits new) before after
        → IsWritten shape (bits old) before → IsWritten shape (bits new) after }
{}

/// What is left of the links after edits, one after another.
pub fn links_kept()
    ensures one { (shape : ZoneShape) (old new : List ℕ) (before after : List Run) → WritesLinks shape old new before after → KeepsLinks shape old new before after }
    ensures many { (shape : ZoneShape) (a b c : List ℕ) (before between after : List Run) → KeepsLinks shape a b before between → KeepsLinks shape b c between after → KeepsLinks shape a c before after }
{}

/// An edit has one result: the sector before it and the runs after it fix every bit.
pub fn one_result()
    ensures { (shape : ZoneShape) (s t u : List ℕ) → 32 ≤ shape.first → runs_of shape t ≡ runs_of shape u → IsZone shape t → IsZone shape u
        → LeavesRest shape s t → LeavesRest shape s u → bits t ≡ bits u }
{}

/// `split` and then `merge` give the runs back, and the very sector if its links were written in full.
pub fn split_then_merge()
    ensures { (shape : ZoneShape) (s t u : List ℕ) (start len : ℕ) → 32 ≤ shape.first → HasRunToSplit shape s start len
        → Splits shape s t start len → LeavesRest shape s t → Merges shape t u start → LeavesRest shape t u → IsAgain shape s u }
{}

/// `label` and then `release` give the runs back, and the very sector if its links were written in full.
pub fn label_then_release()
    ensures { (shape : ZoneShape) (s t u : List ℕ) (start id : ℕ) → 32 ≤ shape.first → HasHoleAt shape s start
        → Relabels shape s t start (RunKind.Id id) → LeavesRest shape s t → Relabels shape t u start RunKind.Hole → LeavesRest shape t u → IsAgain shape s u }
{}
