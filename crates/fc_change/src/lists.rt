// Lists that grow.
ghost use Rattle.std.specs.Prelude.{◌≡◌, ◌++◌, ◌∷◌, [], IfOk, OnOk};
ghost use Rattle.std.specs.Option.{option_to_list};

use fc_device::NoMemory;
use std::alloc::Global;

/// Puts an item after the others.
pub fn push<T: Drop>(list: &mut Vec<T>, item: T) -> Result<(), NoMemory>
    ensures { OnOk result (list.new.items ≡ list.old.items ++ item ∷ []) }
{
    match list.push(item) {
        Ok(()) => Ok(()),
        Err(_) => Err(NoMemory),
    }
}

/// Puts items after the others, in their order.
pub fn append<T: Drop>(list: &mut Vec<T>, items: Vec<T>) -> Result<(), NoMemory>
    ensures { OnOk result (list.new.items ≡ list.old.items ++ items.items) }
{
    for item in items {
        push(list, item)?;
    }
    Ok(())
}

/// An item, or none, as a list.
pub fn as_list<T: Drop>(alloc: Global, item: Option<T>) -> Result<Vec<T>, NoMemory>
    ensures { IfOk result (λ list. list.items ≡ option_to_list item) }
{
    let mut list = Vec::new(alloc);
    if let Some(item) = item {
        push(&mut list, item)?;
    }
    Ok(list)
}
