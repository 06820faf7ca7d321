// Where runs of a zone begin, found with no pass over the zone.

ghost use Rattle.std.specs.Prelude.{◌≡◌, ◌<◌, ◌++◌, ◌∷◌, List, IfSome};
ghost use Rattle.fc_zone.specs.declared.Run.{Run};
ghost use Rattle.fc_zone.specs.Edits.{HasRunAt};
ghost use Rattle.fc_zone.specs.Zone.{EndsInHole};
ghost use Rattle.fc_newmap.specs.Map.{runs_of, sector_of, shape};
ghost use Rattle.fc_newmap.specs.Tally.{IsFirstIn};

use crate::NewMap;
use crate::runs::{home_zone, zone_up};
use crate::shapes::shape_of;
use fc_zone::Run;

impl NewMap {
    /// The run right before the one that begins at a place of a zone, if it is a hole. Of the zone only the links of the
    /// holes before the place are read, and no run but this hole.
    pub fn hole_before(&self, z: u16, start: u32) -> Option<Run>
        requires zone { z < self.now.geometry.zones }
        requires run { HasRunAt (shape self.now.geometry z) (sector_of self.now z) start }
        ensures { (front rest : List Run) (run : Run) → runs_of self.now z ≡ front ++ run ∷ rest → run.start ≡ start → EndsInHole front result }
    {
        let shape = shape_of(self.geometry(), z);
        fc_zone::hole_before(self.bytes(z), &shape, start)
    }

    /// Where the first run of an identifier in a zone begins, by the map's tally. `None` says nothing: there is no tally, or
    /// it doesn't tell it of this zone. Costs no search.
    pub fn start_in(&self, id: u32, z: u16) -> Option<u32>
        requires { z < self.now.geometry.zones }
        ensures { IfSome result (IsFirstIn self.now id z) }
    {
        if let Some(start) = self.start_told(id, z) {
            return Some(start);
        }
        let g = self.geometry();
        let search = self.search(id);
        if search.start == 0 || zone_up(g, home_zone(g, id), search.ahead) != z {
            return None;
        }
        Some(search.start)
    }
}
