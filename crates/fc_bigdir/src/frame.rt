// What stands around the entries of a directory: where its parts stand, and their faults.
ghost use Rattle.std.specs.Prelude.{◌≡◌, ◌<◌, ◌≤◌, ◌^◌, None, Some, length, IfOk, IfErr, IsTrue};
ghost use Rattle.fc_dirs.specs.Big.{does_fit, entries_start, frame_fault, has_second_form, heap_end, is_check_right, is_magic_right, is_sequence_right, is_size_right};

use crate::bytes::word_at;
use crate::space::{ENTRY, HEAD, TAIL, head_space};
use fc_bytes::{big_dir_check, is_big_size};
use fc_dirs::DirFault;

// Whether the version bytes are 0 and both words stand.
fn is_magic_right(b: &[u8]) -> bool
    requires { 2048 ≤ length b.now }
    ensures { result ≡ is_magic_right b.now }
{
    let tail = b.len() - TAIL;
    &b[1..4] == [0, 0, 0].as_slice()
        && &b[4..8] == b"SBPr".as_slice()
        && &b[tail..tail + 4] == b"oven".as_slice()
}

// Whether head and tail have the same sequence byte.
fn is_sequence_right(b: &[u8]) -> bool
    requires { 2048 ≤ length b.now }
    ensures { result ≡ is_sequence_right b.now }
{
    b[0] == b[b.len() - 4]
}

// Where the entries begin.
pub fn entries_start(b: &[u8], second_form: bool) -> usize
    requires { 2048 ≤ length b.now }
    ensures start { result ≡ entries_start second_form b.now }
    ensures small { result < 2 ^ 33 }
{
    HEAD + head_space(second_form, word_at(b, 8) as usize)
}

// Where the heap ends.
fn heap_end(b: &[u8], second_form: bool) -> usize
    requires { 2048 ≤ length b.now }
    ensures end { result ≡ heap_end second_form b.now }
    ensures small { result < 2 ^ 38 }
{
    entries_start(b, second_form) + ENTRY * word_at(b, 16) as usize + word_at(b, 20) as usize
}

// Whether all parts stand before the tail.
fn does_fit(b: &[u8], second_form: bool) -> bool
    requires { 2048 ≤ length b.now }
    ensures { result ≡ does_fit second_form b.now }
{
    heap_end(b, second_form) + TAIL <= b.len()
}

// Whether the size in the head is right, the parts fit in one of the forms, and the heap is whole words.
fn is_size_right(b: &[u8]) -> bool
    requires { 2048 ≤ length b.now }
    ensures { result ≡ is_size_right b.now }
{
    word_at(b, 12) as usize == b.len()
        && (does_fit(b, false) || does_fit(b, true))
        && word_at(b, 20) % 4 == 0
}

// Whether the parts fit and the check is right.
pub fn is_check_right(b: &[u8], second_form: bool) -> bool
    requires { 2048 ≤ length b.now }
    ensures { result ≡ is_check_right second_form b.now }
{
    does_fit(b, second_form) && b[b.len() - 1] == big_dir_check(b, heap_end(b, second_form))
}

// Whether the head's name has the second form, or the first fault around the entries. The first form is tried first.
pub fn read_frame(b: &[u8]) -> Result<bool, DirFault>
    ensures right { IfOk result (λ _. frame_fault b.now ≡ None) }
    ensures form { IfOk result (λ second_form. second_form ≡ has_second_form b.now) }
    ensures fits { IfOk result (λ second_form. IsTrue (does_fit second_form b.now)) }
    ensures fault { IfErr result (λ fault. frame_fault b.now ≡ Some fault) }
{
    if !is_big_size(b.len()) {
        return Err(DirFault::Size);
    }
    if !is_magic_right(b) {
        return Err(DirFault::Magic);
    }
    if !is_sequence_right(b) {
        return Err(DirFault::Sequence);
    }
    if !is_size_right(b) {
        return Err(DirFault::Size);
    }
    if is_check_right(b, false) {
        return Ok(false);
    }
    if is_check_right(b, true) {
        return Ok(true);
    }
    Err(DirFault::Check)
}
