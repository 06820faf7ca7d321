// Identifiers that may have several runs, counted without memory: one pass over a map in place of one for each identifier.
ghost use Rattle.std.specs.Prelude.{◌≡◌, ◌<◌, ◌≤◌, ◌%◌, ◌++◌, ◌∷◌, [], false, true, get_or, length, List};
ghost use Rattle.fc_newmap.specs.Map.{ZoneRun};
ghost use Rattle.fc_compact.specs.Candidates.{AreSeen, SeesFew, places};

use fc_newmap::{NewMap, Walk};
use fc_zone::RunKind;

/// How many counts the table has. Identifiers whose remainders by it are equal share one.
pub const PLACES: usize = 32768;

// Counts a run, if it is one of an identifier and fewer than two are counted.
fn see(seen: &mut [u8], kind: RunKind)
    requires { length seen.old ≡ places }
    ensures size { length seen.new ≡ places }
    ensures seen { (runs : List ZoneRun) (p : ZoneRun) → p.1.kind ≡ kind → AreSeen seen.old runs → AreSeen seen.new (runs ++ p ∷ []) }
{
    let RunKind::Id(id) = kind else {
        return;
    };
    let at = id as usize % PLACES;
    if seen[at] < 2 {
        seen[at] += 1;
    }
}

// Counts the runs of all identifiers.
pub fn see_runs(map: &NewMap, seen: &mut [u8])
    requires { length seen.old ≡ places }
    ensures size { length seen.new ≡ places }
    ensures few { SeesFew seen.new map.now }
{
    seen.fill(0);
    let mut walk = Walk::over_all(map);
    while let Some((_, run)) = walk.next(map) {
        see(seen, run.kind);
    }
}

// Whether an identifier may have several runs, by these counts.
pub fn may_have_several(seen: &[u8], id: u32) -> bool
    requires { length seen.now ≡ places }
    ensures few { result ≡ false → get_or seen.now (id % places) 0 < 2 }
    ensures several { result ≡ true → 2 ≤ get_or seen.now (id % places) 0 }
{
    seen[id as usize % PLACES] >= 2
}
