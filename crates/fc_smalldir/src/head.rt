// The head and the tail of a directory.
ghost use Rattle.std.specs.Prelude.{◌≡◌, ◌+◌, ◌*◌, ◌<◌, ◌≤◌, ◌^◌, ◌∷◌, ◌++◌, [], length, take};
ghost use Rattle.std.specs.Str.{bytes_eq};
ghost use Rattle.fc_bytes.specs.Words.{bytes_at};
ghost use Rattle.fc_dirs.specs.Small.{has_old_word, hugo_word, is_magic_right, is_sequence_right, is_small_check_right, small_dir, small_entries, tail_of};
ghost use Rattle.fc_smalldir.specs.Fields.{dir_of, first_len, last_len};
ghost use Rattle.fc_dirs.specs.SmallBytes.{check_of, first_field, last_field, magic_word, tail_bytes};

use fc_bytes::{array_at, le24, put, small_dir_check};
use fc_dirs::SmallForm;

// The bytes of the head.
pub const HEAD: usize = 5;

// The bytes of an entry.
pub const ENTRY: usize = 26;

// All that a directory holds but its entries. Of the reserved bytes those count that its form has.
#[derive(Clone, Copy)]
pub struct Head {
    pub form: SmallForm,
    pub is_hugo: bool,
    pub sequence: u8,
    pub parent: u32,
    pub name: [u8; 10],
    pub title: [u8; 19],
    pub reserved: [u8; 14],
}

// Whether a new directory has the word `Hugo`.
pub fn has_old_word(form: SmallForm) -> bool
    ensures { result ≡ has_old_word form }
{
    match form {
        SmallForm::Bytes2048 => false,
        SmallForm::Bytes1280 => true,
    }
}

// Whether the word in the head is `Hugo`.
fn is_hugo(b: &[u8]) -> bool
    requires { 5 ≤ length b.now }
    ensures { result ≡ bytes_eq (bytes_at b.now 1 4) hugo_word }
{
    &b[1..5] == b"Hugo".as_slice()
}

// Whether one of the two words stands in the head, and the same in the tail.
#[tactic(auto, using(crate::proofs::HeadLemmas::size_least))]
pub fn is_magic_right(b: &[u8], form: SmallForm) -> bool
    requires { length b.now ≡ (tail_of form).size }
    ensures { result ≡ is_magic_right form b.now }
{
    let word = &b[1..5];
    (word == b"Hugo".as_slice() || word == b"Nick".as_slice())
        && word == &b[b.len() - 5..b.len() - 1]
}

// Whether head and tail have the same sequence byte.
#[tactic(auto, using(crate::proofs::HeadLemmas::size_least))]
pub fn is_sequence_right(b: &[u8], form: SmallForm) -> bool
    requires { length b.now ≡ (tail_of form).size }
    ensures { result ≡ is_sequence_right form b.now }
{
    b[0] == b[b.len() - 6]
}

// Whether the check is right, if it is read. `count` is the number of the entries.
pub fn is_check_right(b: &[u8], form: SmallForm, count: usize) -> bool
    requires size { length b.now ≡ (tail_of form).size }
    requires count { count ≡ length (small_entries form b.now) }
    requires few { count ≤ (tail_of form).places }
    ensures { result ≡ is_small_check_right form b.now }
{
    match form {
        SmallForm::Bytes2048 => b[2047] == small_dir_check(b, HEAD + ENTRY * count),
        SmallForm::Bytes1280 => true,
    }
}

// The reserved bytes of a directory of 2048 bytes.
fn two_reserved(b: &[u8]) -> [u8; 14]
    requires { length b.now ≡ 2048 }
    ensures { take 2 result ≡ bytes_at b.now 2008 2 }
{
    let mut reserved = [0; 14];
    reserved[..2].copy_from_slice(&b[2008..2010]);
    reserved
}

// What bytes say beside the entries.
#[tactic(auto, using(crate::proofs::HeadLemmas::size_least))]
pub fn read_head(b: &[u8], form: SmallForm) -> Head
    requires { length b.now ≡ (tail_of form).size }
    ensures { dir_of result (small_entries form b.now) ≡ small_dir form b.now }
{
    match form {
        SmallForm::Bytes2048 => Head {
            form,
            is_hugo: is_hugo(b),
            sequence: b[0],
            parent: le24(b, 2010),
            name: array_at(b, 2032),
            title: array_at(b, 2013),
            reserved: two_reserved(b),
        },
        SmallForm::Bytes1280 => Head {
            form,
            is_hugo: is_hugo(b),
            sequence: b[0],
            parent: le24(b, 1238),
            name: array_at(b, 1228),
            title: array_at(b, 1241),
            reserved: array_at(b, 1260),
        },
    }
}

// The word in head and tail.
fn magic_word(is_hugo: bool) -> [u8; 4]
    ensures { result ≡ magic_word is_hugo }
{
    if is_hugo { *b"Hugo" } else { *b"Nick" }
}

// Writes the sequence byte and the word, and answers the place after them.
pub fn put_head(b: &mut [u8], at: usize, head: &Head) -> usize
    requires { at + 5 ≤ length b.old }
    ensures end { result ≡ at + 5 }
    ensures bytes { take result b.new ≡ take at b.old ++ head.now.sequence ∷ magic_word head.now.is_hugo }
{
    let at = put(b, at, &[head.sequence]);
    put(b, at, &magic_word(head.is_hugo))
}

// The first field of the tail.
fn first_field(head: &Head) -> &[u8]
    ensures same { result.now ≡ first_field head.now.form (dir_of head.now []) }
    ensures len { length result.now ≡ first_len head.now.form }
{
    match head.form {
        SmallForm::Bytes2048 => &head.reserved[..2],
        SmallForm::Bytes1280 => &head.name,
    }
}

// The last field of the tail.
fn last_field(head: &Head) -> &[u8]
    ensures same { result.now ≡ last_field head.now.form (dir_of head.now []) }
    ensures len { length result.now ≡ last_len head.now.form }
{
    match head.form {
        SmallForm::Bytes2048 => &head.name,
        SmallForm::Bytes1280 => &head.reserved,
    }
}

// Writes the tail up to the check, and answers the place of the check.
pub fn put_tail(b: &mut [u8], at: usize, head: &Head) -> usize
    requires within { at + first_len head.now.form + last_len head.now.form + 27 ≤ length b.old }
    requires parent { head.now.parent < 2 ^ 24 }
    ensures end { result ≡ at + first_len head.now.form + last_len head.now.form + 27 }
    ensures bytes { take result b.new ≡ take at b.old ++ tail_bytes (dir_of head.now []) }
{
    let at = put(b, at, first_field(head));
    let at = put(b, at, &head.parent.to_le_bytes()[..3]);
    let at = put(b, at, &head.title);
    let at = put(b, at, last_field(head));
    put_head(b, at, head)
}

// The check of a directory, which is 0 if none is read. `count` is the number of the entries.
pub fn check_of(b: &[u8], form: SmallForm, count: usize) -> u8
    requires size { length b.now ≡ (tail_of form).size }
    requires few { count ≤ (tail_of form).places }
    ensures { result ≡ check_of form b.now (5 + 26 * count) }
{
    match form {
        SmallForm::Bytes2048 => small_dir_check(b, HEAD + ENTRY * count),
        SmallForm::Bytes1280 => 0,
    }
}
