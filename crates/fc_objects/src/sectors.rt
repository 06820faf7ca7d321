// The sectors of an object, one after another.
ghost use Rattle.std.specs.Prelude.{◌≡◌, ◌<◌, ◌≤◌, ◌+◌, ◌^◌, ◌++◌, [], All, IfSome, None};
ghost use Rattle.fc_objects.specs.Extents.{extent_sectors, sectors_in};
ghost use Rattle.fc_objects.specs.Ahead.{ahead};

use fc_device::Extent;

/// The sectors of an object that are ahead, in their order.
#[derive(Clone, Copy)]
pub struct Sectors<'a> {
    // What is left of the extent that was begun.
    row: Extent,
    // The extents after it.
    rest: &'a [Extent],
}

impl<'a> Sectors<'a> {
    /// All sectors of a place.
    pub fn of(place: &'a [Extent]) -> Sectors<'a>
        ensures { ahead result ≡ sectors_in place.now }
    {
        Sectors {
            row: Extent {
                first: 0,
                sectors: 0,
            },
            rest: place,
        }
    }

    /// The next sectors that lie in a row, `most` of them at most; None exactly if none are ahead. They are not ahead
    /// afterwards.
    pub fn next_row(&mut self, most: u64) -> Option<Extent>
        requires most { 0 < most }
        requires fit { All (λ n. n + 1 < 2 ^ 64) (ahead self.old) }
        ensures row { IfSome result (λ row. ahead self.old ≡ extent_sectors row ++ ahead self.new) }
        ensures some { IfSome result (λ row. 0 < row.sectors) }
        ensures most { IfSome result (λ row. row.sectors ≤ most) }
        ensures end { result ≡ None → ahead self.old ≡ [] }
    {
        while self.row.sectors == 0 {
            let Some((first, rest)) = self.rest.split_first() else {
                return None;
            };
            self.row = *first;
            self.rest = rest;
        }
        let first = self.row.first;
        let sectors = self.row.sectors.min(most);
        self.row = Extent {
            first: first + sectors,
            sectors: self.row.sectors - sectors,
        };
        Some(Extent { first, sectors })
    }
}
