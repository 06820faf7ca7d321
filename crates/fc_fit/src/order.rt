// The order of paths.
ghost use Rattle.std.specs.Prelude.{◌≡◌};
ghost use Rattle.fc_names.specs.Names.{folded_path, key_cmp};

use fc_names::{Path, fold_cmp_bytes};
use std::cmp::Ordering;

/// The order of two paths, name by name, with `a` to `z` taken as `A` to `Z`: a directory comes before what it holds.
pub fn cmp_paths(a: &Path, b: &Path) -> Ordering
    ensures { result ≡ key_cmp (folded_path a.now) (folded_path b.now) }
{
    let mut names = a.names();
    let mut others = b.names();
    while let Some(name) = names.next() {
        let Some(other) = others.next() else {
            return Ordering::Greater;
        };
        let order = fold_cmp_bytes(name, other);
        if order != Ordering::Equal {
            return order;
        }
    }
    match others.next() {
        None => Ordering::Equal,
        Some(_) => Ordering::Less,
    }
}
