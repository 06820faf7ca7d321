// Reading big directories.
ghost use Rattle.std.specs.Prelude.{◌≡◌, ◌<◌, ◌≤◌, ◌^◌, None, length, IfOk, IfErr, IsTrue, OnOk};
ghost use Rattle.std.specs.Option.{option_map};
ghost use Rattle.fc_bytes.specs.Words.{bytes_at};
ghost use Rattle.fc_dirs.specs.declared.DirFault.TheVariants as faults;
ghost use Rattle.fc_dirs.specs.Entries.{first_twin};
ghost use Rattle.fc_dirs.specs.Big.{IsBigDir, big_fault, does_fit, frame_fault, has_second_form, heap_of, name_len};
ghost use Rattle.fc_dirs.specs.Faults.{IsFaultOf};

use crate::BigDir;
use crate::bytes::word_at;
use crate::entries::{read_entries, read_places};
use crate::frame::{entries_start, read_frame};
use crate::space::{ENTRY, HEAD};
use crate::twins::first_twin;
use fc_bytes::array_at;
use fc_dirs::{DirError, DirFault, Entry};
use std::alloc::Global;

// The bytes of the name in the head.
fn head_name(b: &[u8], second_form: bool) -> &[u8]
    requires size { 2048 ≤ length b.now }
    requires fits { IsTrue (does_fit second_form b.now) }
    ensures { result.now ≡ bytes_at b.now 28 (name_len b.now) }
{
    &b[HEAD..HEAD + word_at(b, 8) as usize]
}

// The bytes of the heap.
fn heap_of(b: &[u8], second_form: bool) -> &[u8]
    requires size { 2048 ≤ length b.now }
    requires fits { IsTrue (does_fit second_form b.now) }
    ensures { result.now ≡ heap_of second_form b.now }
{
    let start = entries_start(b, second_form) + ENTRY * word_at(b, 16) as usize;
    &b[start..start + word_at(b, 20) as usize]
}

// Whether no name folds to an earlier one.
fn check_twins(alloc: Global, entries: &[Entry]) -> Result<(), DirError>
    requires { length entries.now < 2 ^ 32 }
    ensures ok { OnOk result (first_twin entries.now ≡ None) }
    ensures err { IfErr result (IsFaultOf (option_map faults.Twin (first_twin entries.now))) }
{
    match first_twin(alloc, entries)? {
        None => Ok(()),
        Some(at) => Err(DirFault::Twin { at }.into()),
    }
}

// The directory that bytes say which have no fault around the entries.
fn read_parts(alloc: Global, b: &[u8], second_form: bool) -> Result<BigDir, DirError>
    requires frame { frame_fault b.now ≡ None }
    requires form { second_form ≡ has_second_form b.now }
    requires fits { IsTrue (does_fit second_form b.now) }
    ensures ok { IfOk result (λ dir. IsBigDir b.now dir) }
    ensures err { IfErr result (IsFaultOf (big_fault b.now)) }
{
    let heap = heap_of(b, second_form);
    let (entries, packed) = read_entries(alloc, b, second_form, heap)?;
    check_twins(alloc, &entries)?;
    let places = read_places(alloc, b, second_form)?;
    let name = Vec::from_slice(alloc, head_name(b, second_form))?;
    let heap = Vec::from_slice(alloc, heap)?;
    Ok(BigDir {
        size: b.len() as u32,
        sequence: b[0],
        parent: word_at(b, 24),
        name,
        second_form,
        // Between the sequence and the check in the tail.
        reserved: array_at(b, b.len() - 3),
        heap,
        places,
        entries,
        packed,
    })
}

impl BigDir {
    /// The directory that bytes say. A fault is the first in the order of `DirFault`: all entries are tried for their
    /// names before any is compared with another.
    pub fn read(alloc: Global, b: &[u8]) -> Result<BigDir, DirError>
        ensures ok { IfOk result (λ dir. IsBigDir b.now dir) }
        ensures err { IfErr result (IsFaultOf (big_fault b.now)) }
    {
        read_parts(alloc, b, read_frame(b)?)
    }
}
