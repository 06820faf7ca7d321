// The identifiers that no run of a map has.

ghost use Rattle.std.specs.Prelude.{◌≡◌, ◌<◌, ◌∷◌, [], ◌+◌, IfSome, MatchOption};
ghost use Rattle.fc_record.specs.Record.{id_limit};
ghost use Rattle.fc_newmap.specs.Ids.{unused_from};
ghost use Rattle.fc_newmap.specs.Map.{is_used};

use crate::NewMap;
use crate::tally::id_limit;

impl NewMap {
    // Whether an identifier has a run.
    fn is_used(&self, id: u32) -> bool
        ensures { result ≡ is_used self.now id }
    {
        self.is_map();
        match self.bits_of(id) {
            Some(bits) => bits != 0,
            None => self.first_run(id).is_some(),
        }
    }

    /// The least identifier from one on that no run has, below `id_limit`. Costs no search if the map has a tally.
    pub fn next_unused(&self, from: u32) -> Option<u32>
        ensures least { MatchOption result (unused_from self.now from ≡ []) (λ id. unused_from self.now from ≡ id ∷ unused_from self.now (id + 1)) }
        ensures low { IfSome result (λ id. id < id_limit self.now.geometry) }
    {
        for id in from..id_limit(self.geometry()) {
            if !self.is_used(id) {
                return Some(id);
            }
        }
        None
    }
}
