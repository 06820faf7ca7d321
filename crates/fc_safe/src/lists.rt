// Lists that grow.
ghost use Rattle.std.specs.Prelude.{◌≡◌, ◌++◌, ◌∷◌, [], OnOk};

use fc_device::NoMemory;

/// Puts an item after the others.
pub fn push<T: Drop>(list: &mut Vec<T>, item: T) -> Result<(), NoMemory>
    ensures { OnOk result (list.new.items ≡ list.old.items ++ item ∷ []) }
{
    match list.push(item) {
        Ok(()) => Ok(()),
        Err(_) => Err(NoMemory),
    }
}
