// Maps in memory.
ghost use Rattle.fc_space.specs.Space.{layout_of};
ghost use Rattle.fc_commands.specs.Run.{IsMapIn};

use fc_space::{Places, Space};

/// A law: a map in memory is one.
pub fn is_map(places: &Places)
    ensures { IsMapIn (layout_of places.now) }
{
    match places.space() {
        Space::NewMapped(map) => map.is_map(),
        Space::OldMapped(map) => {
            let _ = map.holes();
        }
    }
}
