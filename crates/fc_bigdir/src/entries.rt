// Entries and the places of their names.
ghost use Rattle.std.specs.Prelude.{◌≡◌, ◌+◌, ◌<◌, ◌≤◌, ◌^◌, ◌&&◌, None, length, map, nat_le, false, true, MatchOption, IfOk, IfErr, IfSome, IsTrue};
ghost use Rattle.std.specs.Int.{is_in_range};
ghost use Rattle.std.specs.List.{list_all, range_with_len};
ghost use Rattle.std.specs.Option.{option_map};
ghost use Rattle.fc_bytes.specs.Words.{bytes_at};
ghost use Rattle.fc_dirs.specs.declared.DirFault.TheVariants as faults;
ghost use Rattle.fc_dirs.specs.Big.{big_entries, big_entry, does_fit, entry_bytes, entry_count, first_bad_entry, heap_of, is_entry_right, name_place};
ghost use Rattle.fc_dirs.specs.Faults.{IsFaultOf};
ghost use Rattle.fc_bigdir.specs.Fields.{packed_size};

use crate::bytes::word_at;
use crate::frame::entries_start;
use crate::space::{ENTRY, name_space};
use fc_device::NoMemory;
use fc_dirs::{DirError, DirFault, Entry};
use fc_names::Name;
use std::alloc::Global;

// Whether all bytes of a name are from 32 on.
fn is_printed(name: &[u8]) -> bool
    ensures { result ≡ list_all (λ c. nat_le 32 c) name.now }
{
    name.iter().all(|c| *c >= 32)
}

// Whether a name of that length stands at byte `at` of the heap.
fn is_name_at(heap: &[u8], at: usize, len: usize) -> bool
    requires at { at < 2 ^ 32 }
    requires len { len < 2 ^ 32 }
    ensures { result ≡ (is_in_range 1 255 len && nat_le (at + len) (length heap.now) && list_all (λ c. nat_le 32 c) (bytes_at heap.now at len)) }
{
    (1..=255).contains(&len) && at + len <= heap.len() && is_printed(&heap[at..at + len])
}

// The entry that 28 bytes say, if its name is right.
fn read_entry(alloc: Global, heap: &[u8], b: &[u8]) -> Result<Option<Entry>, NoMemory>
    requires { length b.now ≡ 28 }
    ensures says { IfOk result (λ read. MatchOption read (is_entry_right heap.now b.now ≡ false) (λ e. e ≡ big_entry heap.now b.now)) }
    ensures right { IfOk result (λ read. IfSome read (λ _. is_entry_right heap.now b.now ≡ true)) }
{
    let len = word_at(b, 20) as usize;
    let at = word_at(b, 24) as usize;
    if !is_name_at(heap, at, len) {
        return Ok(None);
    }
    let name = Name::new(alloc, &heap[at..at + len])?;
    Ok(Some(Entry {
        name,
        load: word_at(b, 0),
        exec: word_at(b, 4),
        len: word_at(b, 8),
        address: word_at(b, 12),
        attrs: word_at(b, 16),
        last: 0,
    }))
}

// The entries that bytes say, with the size of a heap of exactly their names, or the first whose name is wrong.
pub fn read_entries(
    alloc: Global,
    b: &[u8],
    second_form: bool,
    heap: &[u8],
) -> Result<(Vec<Entry>, usize), DirError>
    requires size { 2048 ≤ length b.now }
    requires most { length b.now ≤ 4194304 }
    requires fits { IsTrue (does_fit second_form b.now) }
    requires heap { heap.now ≡ heap_of second_form b.now }
    ensures right { IfOk result (λ _. first_bad_entry second_form b.now ≡ None) }
    ensures ok { IfOk result (λ found. found.0.items ≡ big_entries second_form b.now) }
    ensures packed { IfOk result (λ found. found.1 ≡ packed_size found.0.items) }
    ensures err { IfErr result (IsFaultOf (option_map faults.BadEntry (first_bad_entry second_form b.now))) }
{
    let start = entries_start(b, second_form);
    let count = word_at(b, 16) as usize;
    let mut entries = Vec::with_capacity(alloc, count)?;
    let mut packed = 0;
    for i in 0..count {
        let at = start + ENTRY * i;
        match read_entry(alloc, heap, &b[at..at + ENTRY])? {
            Some(e) => {
                packed += name_space(&e.name);
                if entries.push(e).is_err() {
                    return Err(DirError::NoMemory);
                }
            }
            None => return Err(DirFault::BadEntry { at: i as u32 }.into()),
        }
    }
    Ok((entries, packed))
}

// Where the name of each entry begins in the heap.
pub fn read_places(alloc: Global, b: &[u8], second_form: bool) -> Result<Vec<u32>, DirError>
    requires size { 2048 ≤ length b.now }
    requires fits { IsTrue (does_fit second_form b.now) }
    ensures ok { IfOk result (λ places. places.items ≡ map (λ i. name_place (entry_bytes second_form b.now i)) (range_with_len 0 (entry_count b.now))) }
    ensures err { IfErr result (IsFaultOf None) }
{
    let start = entries_start(b, second_form);
    let count = word_at(b, 16) as usize;
    let mut places = Vec::with_capacity(alloc, count)?;
    for i in 0..count {
        if places.push(word_at(b, start + ENTRY * i + 24)).is_err() {
            return Err(DirError::NoMemory);
        }
    }
    Ok(places)
}
