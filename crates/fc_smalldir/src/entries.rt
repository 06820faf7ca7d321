// Entries in a list.
ghost use Rattle.std.specs.Prelude.{◌≡◌, ◌<◌, ◌≤◌, ◌^◌, ◌+◌, ◌*◌, ◌++◌, length, take, IfOk, IfErr};
ghost use Rattle.std.specs.List.{AllByRecursion, flat_map};
ghost use Rattle.std.specs.Option.{option_map};
ghost use Rattle.fc_dirs.specs.declared.DirFault.TheVariants as faults;
ghost use Rattle.fc_dirs.specs.Entries.{first_twin, has_name};
ghost use Rattle.fc_dirs.specs.Small.{FitsSmall, first_nameless, small_entries, tail_of};
ghost use Rattle.fc_dirs.specs.Faults.{IsFaultOf};
ghost use Rattle.fc_smalldir.specs.Fields.{AreRead};
ghost use Rattle.fc_dirs.specs.SmallBytes.{entry_bytes};

use crate::DirError;
use crate::entry::{put_entry, read_entry};
use crate::head::{ENTRY, HEAD};
use fc_dirs::{DirFault, Entry, SmallForm};
use fc_names::{Name, fold_eq};
use std::alloc::Global;

// Whether an entry has a name that folds to this one.
pub fn has_name(entries: &[Entry], name: &Name) -> bool
    ensures { result ≡ has_name entries.now name.now }
{
    entries.iter().any(|e| fold_eq(name, &e.name))
}

// The number of the first entry whose name folds to that of an earlier one.
pub fn first_twin(entries: &[Entry]) -> Option<u32>
    requires { length entries.now < 2 ^ 32 }
    ensures { result ≡ first_twin entries.now }
{
    for i in 0..entries.len() {
        if has_name(&entries[..i], &entries[i].name) {
            return Some(i as u32);
        }
    }
    None
}

// The number of the entries that bytes say: the first whose first byte is 0 ends them.
#[tactic(auto, using(crate::proofs::HeadLemmas::places_within))]
pub fn count_entries(b: &[u8], form: SmallForm) -> usize
    requires { length b.now ≡ (tail_of form).size }
    ensures count { result ≡ length (small_entries form b.now) }
    ensures few { result ≤ (tail_of form).places }
{
    let places = form.places();
    for i in 0..places {
        if b[HEAD + ENTRY * i] == 0 {
            return i;
        }
    }
    places
}

// The entries that bytes say, of which the number is known, or the first that has no name.
#[tactic(auto, using(crate::proofs::HeadLemmas::places_within))]
pub fn read_entries(
    alloc: Global,
    b: &[u8],
    form: SmallForm,
    count: usize,
) -> Result<Vec<Entry>, DirError>
    requires size { length b.now ≡ (tail_of form).size }
    requires count { count ≡ length (small_entries form b.now) }
    requires few { count ≤ (tail_of form).places }
    ensures ok { IfOk result (λ entries. AreRead form b.now entries.items) }
    ensures err { IfErr result (IsFaultOf (option_map faults.BadEntry (first_nameless (small_entries form b.now)))) }
{
    let mut entries = Vec::with_capacity(alloc, count)?;
    for i in 0..count {
        let at = HEAD + ENTRY * i;
        match read_entry(alloc, &b[at..at + ENTRY], form)? {
            Some(e) => {
                if entries.push(e).is_err() {
                    return Err(DirError::NoMemory);
                }
            }
            None => return Err(DirFault::BadEntry { at: i as u32 }.into()),
        }
    }
    Ok(entries)
}

// Writes entries from byte `at` on, and answers the place after them.
pub fn put_entries(b: &mut [u8], at: usize, entries: &[Entry], form: SmallForm) -> usize
    requires fit { AllByRecursion (FitsSmall form) entries.now }
    requires within { at + 26 * length entries.now ≤ length b.old }
    ensures end { result ≡ at + 26 * length entries.now }
    ensures bytes { take result b.new ≡ take at b.old ++ flat_map (entry_bytes form) entries.now }
{
    let mut end = at;
    for e in entries {
        end = put_entry(b, end, e, form);
    }
    end
}
