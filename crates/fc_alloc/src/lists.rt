//! Rows by the number of a directory, as the numbers of its nodes. A directory past the end has an empty row.
ghost use Rattle.std.specs.Prelude.{◌≡◌, ◌≢◌, ◌<◌, ◌++◌, ◌∷◌, [], ℕ, vec_len, IsOk, OnOk};
ghost use Rattle.fc_alloc.specs.Lists.{nodes_at, row_at};

use std::alloc::AllocError;

/// Puts a node after the others of a directory. There may be more lists even if there's no memory for the node.
pub fn put_last(lists: &mut Vec<Vec<u64>>, dir: u64, node: u64) -> Result<(), AllocError>
    ensures here { IsOk result → nodes_at lists.new.items dir ≡ nodes_at lists.old.items dir ++ node ∷ [] }
    ensures elsewhere { (d : ℕ) → d ≢ dir → nodes_at lists.new.items d ≡ nodes_at lists.old.items d }
{
    let dir = dir as usize;
    grow(lists, dir)?;
    lists[dir].push(node)?;
    Ok(())
}

/// Adds empty rows until a directory has one.
pub fn grow<T: Drop>(lists: &mut Vec<Vec<T>>, dir: usize) -> Result<(), AllocError>
    ensures same { (d : ℕ) → row_at lists.new.items d ≡ row_at lists.old.items d }
    ensures room { OnOk result (dir < vec_len lists.new) }
{
    let Some(len) = dir.checked_add(1) else {
        return Err(AllocError);
    };
    let alloc = *lists.allocator();
    let missing = len.saturating_sub(lists.len());
    lists.reserve(missing)?;
    for _i in 0..missing {
        lists.push(Vec::new(alloc))?;
    }
    Ok(())
}
