// The last names of paths.
ghost use Rattle.std.specs.Prelude.{◌≡◌, ◌<◌, length, IfOk};
ghost use Rattle.fc_model.specs.Tree.{last_name};

use fc_device::NoMemory;
use fc_names::{Name, Path};
use std::alloc::Global;

/// The last name of a path; `$` for the root's, which has none.
pub fn last_name(alloc: Global, path: &Path) -> Result<Name, NoMemory>
    ensures { IfOk result (λ name. 0 < length path.now → name ≡ last_name path.now) }
{
    let mut last: &[u8] = b"$";
    for name in path.names() {
        last = name;
    }
    Name::new(alloc, last)
}
