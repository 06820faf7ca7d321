// Entries that are put into big directories, and the looks for their names, which are the caller's.
ghost use Rattle.std.specs.Prelude.{◌≡◌, IfOk, IsFalse};
ghost use Rattle.fc_dirs.specs.Entries.{has_name};

use fc_bigdir::{BigDir, Entry};
use fc_names::{Name, fold_eq};
use std::alloc::{AllocError, Global};

// A directory, and an entry for it, of a name that none of its entries has.
#[derive(Drop)]
pub struct Visit {
    dir: BigDir,
    e: Entry,
    ghost absent: { IsFalse (has_name dir.entries e.name) },
    ghost last: { e.last ≡ 0 },
}

fn has_name(entries: &[Entry], name: &Name) -> bool
    ensures { result ≡ has_name entries.now name.now }
{
    entries.iter().any(|e| fold_eq(name, &e.name))
}

fn entry(name: &Name) -> Result<Entry, AllocError>
    ensures name { IfOk result (λ e. e.name ≡ name.now) }
    ensures last { IfOk result (λ e. e.last ≡ 0) }
{
    Ok(Entry {
        name: name.clone()?,
        load: 0,
        exec: 0,
        len: 0,
        address: 0,
        attrs: 3,
        last: 0,
    })
}

// The directories that don't have the name, each with an entry of it.
pub fn look(alloc: Global, dirs: Vec<BigDir>, name: Name) -> Result<Vec<Visit>, AllocError> {
    let mut visits = Vec::with_capacity(alloc, dirs.len())?;
    for dir in dirs {
        if !has_name(dir.entries(), &name) {
            visits.push(Visit {
                dir,
                e: entry(&name)?,
            })?;
        }
    }
    Ok(visits)
}

// Puts the entry into the directory, if there is memory.
fn enter(visit: Visit) -> Option<BigDir> {
    let mut dir = visit.dir;
    dir.insert(visit.e).is_ok().then_some(dir)
}

// Puts each entry into its directory. Those directories are answered for which there was memory.
pub fn enter_all(alloc: Global, visits: Vec<Visit>) -> Result<Vec<BigDir>, AllocError> {
    let mut dirs = Vec::with_capacity(alloc, visits.len())?;
    for visit in visits {
        if let Some(dir) = enter(visit) {
            dirs.push(dir)?;
        }
    }
    Ok(dirs)
}
