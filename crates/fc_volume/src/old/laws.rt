// A law of old maps in memory.
ghost use Rattle.std.specs.Prelude.{◌≡◌};
ghost use Rattle.fc_image.specs.Layout.{Layout};
ghost use Rattle.fc_oldmap.specs.OldMap.{OldMapContent, IsOldMap};
ghost use Rattle.fc_space.specs.Space.{layout_of};

use fc_space::{Places, Space};

/// A law: an old map in memory is one.
pub fn is_old_map(places: &Places)
    ensures { (space : OldMapContent) → layout_of places.now ≡ Layout.Old space → IsOldMap space }
{
    match places.space() {
        Space::NewMapped(_) => {}
        Space::OldMapped(map) => {
            let _ = map.holes();
        }
    }
}
