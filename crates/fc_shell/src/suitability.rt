// Which volumes the safe mode serves.
ghost use Rattle.std.specs.Prelude.{◌≡◌, true, false};
ghost use Rattle.fc_image.specs.Opening.{Opened};
ghost use Rattle.fc_image.specs.Sound.{AreSound};
ghost use Rattle.fc_tree.specs.Parts.{ArePartsOf};
ghost use Rattle.fc_volume.specs.Volume.{parts_of};
ghost use Rattle.fc_shell.specs.Modes.{SuitsMode, is_unsuited};

use fc_change::Held;
use fc_safecommands::suits;
use fc_volume::Volume;

/// Whether the safe mode is asked for and doesn't serve the volume.
pub fn is_unsuited(volume: &Volume, safe: bool) -> bool
    ensures suits { result ≡ false → SuitsMode safe volume.now }
    ensures asked { result ≡ true → safe ≡ true }
    ensures exactly { (v : Opened) → AreSound v.layout v.listings → ArePartsOf (parts_of volume.now) v → result ≡ is_unsuited safe v }
{
    if !safe {
        return false;
    }
    let held = Held {
        tree: &volume.holdings.tree,
        places: &volume.holdings.places,
        owners: &volume.holdings.owners,
    };
    !suits(&held)
}
