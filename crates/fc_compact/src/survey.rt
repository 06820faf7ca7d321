// What is known of a map while its identifiers are joined, so that no identifier costs a pass over all runs.
ghost use Rattle.std.specs.Prelude.{◌≡◌, ◌<◌, ◌≤◌, Contains, length, take};
ghost use Rattle.fc_newmap.specs.Map.{Map};

use crate::candidates::Candidates;
use crate::counts::{PLACES, see_runs};
use crate::longest::{ZONES, longest_hole, measure, measure_all};
use fc_alloc::Owner;
use fc_newmap::NewMap;
use fc_zone::Run;

/// The counts of runs, the zones of some identifiers, and the longest holes.
#[derive(Drop)]
pub struct Survey {
    pub seen: [u8; 32768],
    pub candidates: Candidates,
    pub lens: [u16; 65536],
    pub best: Option<(u16, Run)>,
}

ghost use Rattle.fc_compact.specs.Candidates.{AreTakenIn, HasJoined, IsSurvey};

impl Survey {
    // Of a map, with no candidates.
    pub fn of(map: &NewMap) -> Self
        ensures { IsSurvey map.now result }
    {
        let mut seen = [0; PLACES];
        see_runs(map, &mut seen);
        let mut lens = [0; ZONES];
        measure_all(map, &mut lens);
        let best = longest_hole(map, &lens);
        Survey {
            seen,
            candidates: Candidates::new(),
            lens,
            best,
        }
    }

    // Takes in the identifiers of owners that may have several runs, in place of those that it had, until there is no room. Gives how
    // many owners were looked at.
    pub fn take_in(&mut self, map: &NewMap, list: &[Owner]) -> usize
        requires survey { IsSurvey map.now self.old }
        requires some { 0 < length list.now }
        ensures survey { IsSurvey map.now self.new }
        ensures some { 0 < result }
        ensures within { result ≤ length list.now }
        ensures taken { AreTakenIn self.new.seen self.new.candidates.ids.items (take result list.now) }
    {
        let count = self.candidates.take_in(list, &self.seen);
        self.candidates.find(map);
        count
    }

    // Follows a join of a candidate into a hole of this zone.
    pub fn follow(&mut self, map: &NewMap, id: u32, zone: u16)
        requires zone { zone < map.now.geometry.zones }
        requires there { Contains self.old.candidates.ids.items id }
        requires joined { (m : Map) × HasJoined m map.now self.old id zone }
        ensures survey { IsSurvey map.now self.new }
        ensures seen { self.new.seen ≡ self.old.seen }
        ensures ids { self.new.candidates.ids ≡ self.old.candidates.ids }
    {
        measure(map, &mut self.lens, self.candidates.zones_of(id));
        measure(map, &mut self.lens, &[zone]);
        self.candidates.set_zone(id, zone);
        self.best = longest_hole(map, &self.lens);
    }
}
