// The places of objects, each apart from those before it.
ghost use Rattle.std.specs.Prelude.{◌≡◌, ◌++◌, Err, List, ℕ, Ok, OnErr, OnOk};
ghost use Rattle.fc_image.specs.declared.ImageFault.TheVariants as faults;
ghost use Rattle.fc_image.specs.Layout.{dir_form, disc_sectors};
ghost use Rattle.fc_image.specs.Walk.{Object, object_of, object_size};
ghost use Rattle.fc_names.specs.Names.{Path};
ghost use Rattle.fc_dirs.specs.Directory.{directory_size};
ghost use Rattle.fc_space.specs.Space.{layout_of};
ghost use Rattle.fc_tree.specs.Taken.{AreTaken};
ghost use Rattle.fc_tree.specs.Unplaced.{unplaced};

use crate::taken::Taken;
use fc_dirs::Entry;
use fc_names::NameForm;
use fc_space::{PlaceError, Places};
use std::alloc::Global;

/// Why an object has no sectors of its own.
#[derive(Clone, Copy)]
pub enum ClaimError {
    /// Its address leads nowhere.
    Outside,
    /// One of its sectors is taken.
    Overlap,
    NoMemory,
}

impl From<PlaceError> for ClaimError {
    ghost from_gives = { λ error answer. answer ≡ unplaced error };

    fn from(error: PlaceError) -> Self
        ensures { result ≡ unplaced error }
    {
        match error {
            PlaceError::Outside => ClaimError::Outside,
            PlaceError::NoMemory => ClaimError::NoMemory,
        }
    }
}

/// The bytes of a directory whose entry gives this length.
pub fn directory_size(form: NameForm, len: u32) -> u32
    ensures { result ≡ directory_size form len }
{
    match form {
        NameForm::Seven => 1280,
        NameForm::Ten => 2048,
        NameForm::Long => len,
    }
}

/// The bytes of an object.
pub fn object_size(form: NameForm, entry: &Entry) -> u32
    ensures { result ≡ object_size form entry.now }
{
    if entry.is_directory() {
        directory_size(form, entry.len)
    } else {
        entry.len
    }
}

/// Takes the sectors of an object of this entry. If it has none, or not all are free, none is taken.
pub fn claim(
    alloc: Global,
    places: &Places,
    taken: &mut Taken,
    entry: &Entry,
) -> Result<(), ClaimError>
    requires disc { taken.old.sectors ≡ disc_sectors (layout_of places.now) }
    ensures sectors { taken.new.sectors ≡ taken.old.sectors }
    ensures ok { OnOk result ((path : Path) (before : List ℕ) → AreTaken taken.old before
        → (o : Object) × (object_of (layout_of places.now) before path entry.now ≡ Ok o) × AreTaken taken.new (o.sectors ++ before)) }
    ensures outside { result ≡ Err ClaimError.Outside → (path : Path) (before : List ℕ) → object_of (layout_of places.now) before path entry.now ≡ Err (faults.Place path) }
    ensures overlap { result ≡ Err ClaimError.Overlap → (path : Path) (before : List ℕ) → AreTaken taken.old before
        → object_of (layout_of places.now) before path entry.now ≡ Err (faults.Overlap path) }
    ensures err { OnErr result (taken.new ≡ taken.old) }
{
    let bytes = u64::from(object_size(places.dir_form(), entry));
    let place = places.place_of(alloc, entry.address, bytes)?;
    if !taken.are_free(&place) {
        return Err(ClaimError::Overlap);
    }
    taken.take(&place);
    Ok(())
}
