//! The checks of disc structures: boot blocks, zones, old maps and directories. Each is one byte.
//! The rules are those of the RISC OS PRM, chapter FileCore; if it leaves a choice, of
//! docs/FORMAT.md.

ghost use Rattle.std.specs.Prelude.{◌≡◌, ◌+◌, ◌*◌, ◌/◌, ◌%◌, ◌^◌, ◌<◌, ◌≤◌, length, drop};
ghost use Rattle.std.specs.List.{fold};
ghost use Rattle.fc_bytes.specs.Words.{words};
ghost use Rattle.fc_bytes.specs.Checks.{accumulate, big_dir_check, boot_check, byte_xor, carry_sum, cross_total, is_big_size, is_half_right, old_check, small_dir_check, zone_check};
ghost use Rattle.fc_bytes.specs.Rows.{CheckRows};
ghost use Rattle.fc_bytes.specs.Laws.{IgnoresOwnCheck};

use byteorder::{ByteOrder, LittleEndian};

// The exclusive or of a number's four bytes.
fn byte_xor(n: u32) -> u8
    ensures { result ≡ byte_xor n }
{
    let [a, b, c, d] = n.to_le_bytes();
    a ^ b ^ c ^ d
}

// The sum of bytes from the last to the first, where what passes a byte is carried into the next
// step. The last carry stays in it.
#[tactic(auto, unfolding(crate::specs::Checks::carry_sum))]
fn byte_sum(bytes: &[u8], start: u8) -> u32
    ensures { result ≡ carry_sum 256 start bytes.now }
{
    let mut sum = u32::from(start);
    let mut i = bytes.len();
    while i > 0 {
        i -= 1;
        sum = sum % 256 + sum / 256 + u32::from(bytes[i]);
    }
    sum
}

// The same sum by words, and from 0.
fn word_sum(bytes: &[u8]) -> u64
    requires { length bytes.now % 4 ≡ 0 }
    ensures sum { result ≡ carry_sum (2 ^ 32) 0 (words bytes.now) }
    ensures below { result < 2 ^ 33 }
{
    let mut sum = 0u64;
    let mut i = bytes.len();
    while i > 0 {
        i -= 4;
        let word = LittleEndian::read_u32(&bytes[i..]);
        sum = sum % (1 << 32) + sum / (1 << 32) + u64::from(word);
    }
    sum
}

/// The check of a boot block of 512 bytes, which is its last byte. It covers the bytes before.
pub fn boot_check(b: &[u8]) -> u8
    requires { length b.now ≡ 512 }
    ensures { result ≡ boot_check b.now }
{
    (byte_sum(&b[..511], 0) % 256) as u8
}

/// The check of a zone's sector, which is its byte 0 and is itself taken as 0. The sector is whole
/// words of four bytes.
pub fn zone_check(b: &[u8]) -> u8
    requires some { 0 < length b.now }
    requires whole { length b.now % 4 ≡ 0 }
    ensures { result ≡ zone_check b.now }
{
    let sum = word_sum(&b[4..]);
    let first = LittleEndian::read_u32(b) / 256 * 256;
    let sum = sum % (1 << 32) + sum / (1 << 32) + u64::from(first);
    byte_xor((sum % (1 << 32)) as u32)
}

/// The exclusive or of the CrossCheck bytes of a map: byte 3 of each of its sectors, of `sector`
/// bytes each.
pub fn cross_total(map: &[u8], sector: usize) -> u8
    requires { 4 ≤ sector }
    ensures { result ≡ cross_total map.now sector }
{
    let mut total = 0;
    for z in 0..map.len() / sector {
        total ^= map[z * sector + 3];
    }
    total
}

/// The check of half an old map of 256 bytes, which is its last byte. It covers the bytes before.
/// The sum starts at 255 when a map is written; one that starts at 0 is right too.
pub fn old_check(half: &[u8], start: u8) -> u8
    requires { length half.now ≡ 256 }
    ensures { result ≡ old_check half.now start }
{
    (byte_sum(&half[..255], start) % 256) as u8
}

/// Whether half an old map of 256 bytes has its check, from either start of the sum.
pub fn is_half_right(half: &[u8]) -> bool
    requires { length half.now ≡ 256 }
    ensures { result ≡ is_half_right half.now }
{
    half[255] == old_check(half, 255) || half[255] == old_check(half, 0)
}

// Takes one number into the sum of a directory's check.
fn accumulate(sum: u32, x: u32) -> u32
    ensures { result ≡ accumulate sum x }
{
    x ^ sum.rotate_right(13)
}

// Takes the four words of 16 bytes into the sum. Only its last step waits for the sum before, so that long rows take
// less than half the time.
fn accumulate_four(sum: u32, bytes: &[u8]) -> u32
    requires { 16 ≤ length bytes.now }
    ensures { fold accumulate result (words (drop 16 bytes.now)) ≡ fold accumulate sum (words bytes.now) }
{
    let a = LittleEndian::read_u32(bytes);
    let b = LittleEndian::read_u32(&bytes[4..]);
    let c = LittleEndian::read_u32(&bytes[8..]);
    let d = LittleEndian::read_u32(&bytes[12..]);
    // Each is turned once for every word after it.
    let words = d ^ c.rotate_right(13) ^ b.rotate_right(26) ^ a.rotate_right(39);
    words ^ sum.rotate_right(52)
}

// Takes words into the sum, four at a time; up to 15 bytes are left over.
fn accumulate_fours(sum: u32, bytes: &[u8]) -> u32
    ensures { fold accumulate result (words (drop (length bytes.now / 16 * 16) bytes.now)) ≡ fold accumulate sum (words bytes.now) }
{
    let mut sum = sum;
    for i in 0..bytes.len() / 16 {
        sum = accumulate_four(sum, &bytes[16 * i..]);
    }
    sum
}

// Takes words into the sum one after another; bytes left over after the last whole word are in none.
fn accumulate_each(sum: u32, bytes: &[u8]) -> u32
    ensures { result ≡ fold accumulate sum (words bytes.now) }
{
    let mut sum = sum;
    for i in 0..bytes.len() / 4 {
        sum = accumulate(sum, LittleEndian::read_u32(&bytes[4 * i..]));
    }
    sum
}

// Takes words into the sum; bytes left over after the last whole word are in none.
fn accumulate_words(sum: u32, bytes: &[u8]) -> u32
    ensures { result ≡ fold accumulate sum (words bytes.now) }
{
    let sum = accumulate_fours(sum, bytes);
    accumulate_each(sum, &bytes[bytes.len() / 16 * 16..])
}

// Takes bytes into the sum one after another.
fn accumulate_bytes(sum: u32, bytes: &[u8]) -> u32
    ensures { result ≡ fold accumulate sum bytes.now }
{
    let mut sum = sum;
    for byte in bytes {
        sum = accumulate(sum, u32::from(*byte));
    }
    sum
}

/// The check of a directory of 2048 bytes, which is its last byte. `end` is the place after the
/// last entry, 5 if there is none and at most 2007. The check covers the bytes before it, and the
/// tail's words from byte 2008 to byte 2043.
pub fn small_dir_check(b: &[u8], end: usize) -> u8
    requires size { length b.now ≡ 2048 }
    requires within { end ≤ 2048 }
    ensures { result ≡ small_dir_check b.now end }
{
    let sum = accumulate_words(0, &b[..end]);
    let sum = accumulate_bytes(sum, &b[end / 4 * 4..end]);
    byte_xor(accumulate_words(sum, &b[2008..2044]))
}

/// The check of a big directory, which is its last byte. `upto` is the number of bytes that head,
/// name, entries and heap take, whole words of four bytes. The check covers those, and the tail's
/// seven bytes before the check.
pub fn big_dir_check(b: &[u8], upto: usize) -> u8
    requires { upto + 8 ≤ length b.now }
    ensures { result ≡ big_dir_check b.now upto }
{
    let tail = &b[b.len() - 8..];
    let sum = accumulate_words(0, &b[..upto]);
    let sum = accumulate_words(sum, &tail[..4]);
    byte_xor(accumulate_bytes(sum, &tail[4..7]))
}

/// The most bytes of a big directory.
pub const BIG_LIMIT: usize = 4_194_304;

/// Whether a big directory may have that size: a multiple of 2048 from 2048 to 4,194,304 bytes.
pub fn is_big_size(size: usize) -> bool
    ensures { result ≡ is_big_size size }
{
    (2048..=BIG_LIMIT).contains(&size) && size % 2048 == 0
}

/// Checks of whole structures, worked out.
pub fn rows()
    ensures { CheckRows }
{}

/// A law: a zone's check doesn't read the byte in which it stands.
pub fn ignores_own_check()
    ensures { IgnoresOwnCheck }
{}
