// Names that fold to one.
ghost use Rattle.std.specs.Prelude.{◌≡◌, ◌<◌, ◌^◌, All, length, map, min, if◌then◌else◌, IfOk};
ghost use Rattle.fc_dirs.specs.Entries.{first_twin};
ghost use Rattle.fc_names.specs.Names.{is_same_name};
ghost use Rattle.fc_bigdir.specs.Twins.{AreSorted, IsLettered, cmp_held, first_letters, numbered, shown};

use fc_dirs::Entry;
use fc_names::{Name, fold_cmp, fold_eq};
use std::alloc::{AllocError, Global};
use std::cmp::Ordering;

// The name of an entry and the number of the entry. The first letters settle most comparisons, with no look at the names
// themselves, which lie far apart.
#[derive(Clone, Copy)]
struct Numbered<'a> {
    letters: u64,
    name: &'a Name,
    at: u32,
}

// The first letters of a name as a number, in which names that are the same agree.
fn first_letters(name: &Name) -> u64
    ensures { result ≡ first_letters name.now }
{
    let bytes = name.bytes();
    let mut letters = 0;
    for c in &bytes[..bytes.len().min(12)] {
        letters = letters % (1 << 59) * 32 + u64::from(*c % 32);
    }
    letters
}

// The order of first letters, then of names by folding, and of those that are the same by their numbers.
fn cmp_held(a: &Numbered<'_>, b: &Numbered<'_>) -> Ordering
    ensures { result ≡ cmp_held a.now b.now }
{
    match a.letters.cmp(&b.letters) {
        Ordering::Equal => fold_cmp(a.name, b.name).then(a.at.cmp(&b.at)),
        order => order,
    }
}

// The names in stored order with their numbers.
fn numbered_names(alloc: Global, entries: &[Entry]) -> Result<Vec<Numbered<'_>>, AllocError>
    requires { length entries.now < 2 ^ 32 }
    ensures names { IfOk result (λ names. map shown names.items ≡ numbered entries.now (length entries.now)) }
    ensures letters { IfOk result (λ names. All IsLettered names.items) }
{
    let mut names = Vec::with_capacity(alloc, entries.len())?;
    for (i, e) in entries.iter().enumerate() {
        names.push(Numbered {
            letters: first_letters(&e.name),
            name: &e.name,
            at: i as u32,
        })?;
    }
    Ok(names)
}

// The names in order.
fn sorted_names(alloc: Global, entries: &[Entry]) -> Result<Vec<Numbered<'_>>, AllocError>
    requires { length entries.now < 2 ^ 32 }
    ensures { IfOk result (λ names. AreSorted entries.now names.items) }
{
    let mut names = numbered_names(alloc, entries)?;
    names.sort_unstable_by(|a, b| cmp_held(a, b));
    Ok(names)
}

// The lesser of a number and that of the second name, if the names are the same.
fn least_with(least: u32, a: &Numbered<'_>, b: &Numbered<'_>) -> u32
    requires first { IsLettered a.now }
    requires second { IsLettered b.now }
    ensures { result ≡ (if is_same_name a.now.name.now b.now.name.now then min least b.now.at else least) }
{
    if a.letters == b.letters && fold_eq(a.name, b.name) {
        least.min(b.at)
    } else {
        least
    }
}

// The least number of a name that is the same as the one before it in order. It has an earlier number.
fn least_twin(entries: &[Entry], names: &[Numbered<'_>]) -> Option<u32>
    requires few { length entries.now < 2 ^ 32 }
    requires sorted { AreSorted entries.now names.now }
    ensures { result ≡ first_twin entries.now }
{
    let none = entries.len() as u32;
    let mut least = none;
    for i in 1..names.len() {
        least = least_with(least, &names[i - 1], &names[i]);
    }
    (least < none).then_some(least)
}

// The number of the first entry whose name folds to that of an earlier one.
pub fn first_twin(alloc: Global, entries: &[Entry]) -> Result<Option<u32>, AllocError>
    requires { length entries.now < 2 ^ 32 }
    ensures { IfOk result (λ twin. twin ≡ first_twin entries.now) }
{
    let names = sorted_names(alloc, entries)?;
    Ok(least_twin(entries, &names))
}
