// Entries in their 26 bytes.
ghost use Rattle.std.specs.Prelude.{◌≡◌, ◌+◌, ◌*◌, ◌/◌, ◌%◌, ◌^◌, ◌<◌, ◌≤◌, ◌++◌, length, take, map, MatchOption, IfOk, IfSome};
ghost use Rattle.std.specs.List.{AllByRecursion};
ghost use Rattle.fc_bytes.specs.Bits.{num};
ghost use Rattle.fc_dirs.specs.Small.{FitsSmall, name_in, small_entry};
ghost use Rattle.fc_smalldir.specs.Fields.{attrs_in, last_in, plain_field};
ghost use Rattle.fc_dirs.specs.SmallBytes.{entry_bytes, last_byte, name_bytes, with_tops};

use crate::bytes::padded;
use byteorder::{ByteOrder, LittleEndian};
use fc_bytes::{array_at, le24, put};
use fc_device::NoMemory;
use fc_dirs::{Entry, SmallForm};
use fc_names::Name;
use std::alloc::Global;

// The number of bytes before the first below 32.
fn name_len(field: &[u8]) -> usize
    ensures name { take result field.now ≡ name_in field.now }
    ensures within { result ≤ length field.now }
{
    field.iter().position(|c| *c < 32).unwrap_or(field.len())
}

// Ten bytes without their top bits.
fn without_tops(field: &[u8; 10]) -> [u8; 10]
    ensures { result ≡ map (λ c. c % 128) field.now }
{
    let mut plain = *field;
    for c in &mut plain {
        *c %= 128;
    }
    plain
}

// The top bits of ten bytes as a number, whose bit 0 is that of the first.
fn top_bits(field: &[u8; 10]) -> u32
    ensures { result ≡ num (map (λ c. c / 128) field.now) }
{
    let mut tops = 0;
    let mut i = 10;
    while i > 0 {
        i -= 1;
        tops = 2 * tops + u32::from(field[i] / 128);
    }
    tops
}

// The bits of a number as the top bits of bytes that have none.
fn with_tops(field: [u8; 10], attrs: u32) -> [u8; 10]
    requires { AllByRecursion (λ c. c < 128) field }
    ensures { result ≡ with_tops attrs field }
{
    let mut bytes = field;
    let mut tops = attrs;
    for c in &mut bytes {
        *c += 128 * (tops % 2) as u8;
        tops /= 2;
    }
    bytes
}

fn plain_field(field: [u8; 10], form: SmallForm) -> [u8; 10]
    ensures { result ≡ plain_field form field }
{
    match form {
        SmallForm::Bytes2048 => field,
        SmallForm::Bytes1280 => without_tops(&field),
    }
}

// The attributes of an entry of 26 bytes.
fn attrs_in(b: &[u8], form: SmallForm) -> u32
    requires { length b.now ≡ 26 }
    ensures { result ≡ attrs_in form b.now }
{
    match form {
        SmallForm::Bytes2048 => u32::from(b[25]),
        SmallForm::Bytes1280 => top_bits(&array_at(b, 0)),
    }
}

// The last byte of an entry, if it is no attribute.
fn last_in(b: &[u8], form: SmallForm) -> u8
    requires { length b.now ≡ 26 }
    ensures { result ≡ last_in form b.now }
{
    match form {
        SmallForm::Bytes2048 => 0,
        SmallForm::Bytes1280 => b[25],
    }
}

// The entry that 26 bytes say, if its name isn't empty.
pub fn read_entry(alloc: Global, b: &[u8], form: SmallForm) -> Result<Option<Entry>, NoMemory>
    requires { length b.now ≡ 26 }
    ensures says { IfOk result (λ read. MatchOption read (length (small_entry form b.now).name ≡ 0) (λ e. e ≡ small_entry form b.now)) }
    ensures fits { IfOk result (λ read. IfSome read (FitsSmall form)) }
{
    let field = plain_field(array_at(b, 0), form);
    let len = name_len(&field);
    if len == 0 {
        return Ok(None);
    }
    let name = Name::new(alloc, &field[..len])?;
    Ok(Some(Entry {
        name,
        load: LittleEndian::read_u32(&b[10..]),
        exec: LittleEndian::read_u32(&b[14..]),
        len: LittleEndian::read_u32(&b[18..]),
        address: le24(b, 22),
        attrs: attrs_in(b, form),
        last: last_in(b, form),
    }))
}

// The ten bytes of an entry's name.
fn name_bytes(e: &Entry, form: SmallForm) -> [u8; 10]
    requires { FitsSmall form e.now }
    ensures { result ≡ name_bytes form e.now }
{
    let field = padded(e.name.bytes());
    match form {
        SmallForm::Bytes2048 => field,
        SmallForm::Bytes1280 => with_tops(field, e.attrs),
    }
}

// The last byte of an entry.
fn last_byte(e: &Entry, form: SmallForm) -> u8
    requires { FitsSmall form e.now }
    ensures { result ≡ last_byte form e.now }
{
    match form {
        SmallForm::Bytes2048 => e.attrs as u8,
        SmallForm::Bytes1280 => e.last,
    }
}

// The words of an entry are numbers of 32 bits, as their places ask.
pub fn words_fit(e: &Entry)
    ensures load { e.now.load < 2 ^ 32 }
    ensures exec { e.now.exec < 2 ^ 32 }
    ensures len { e.now.len < 2 ^ 32 }
{
    let _load = e.load;
    let _exec = e.exec;
    let _len = e.len;
}

// Writes an entry from byte `at` on, and answers the place after it.
pub fn put_entry(b: &mut [u8], at: usize, e: &Entry, form: SmallForm) -> usize
    requires fits { FitsSmall form e.now }
    requires within { at + 26 ≤ length b.old }
    ensures end { result ≡ at + 26 }
    ensures bytes { take result b.new ≡ take at b.old ++ entry_bytes form e.now }
{
    let at = put(b, at, &name_bytes(e, form));
    let at = put(b, at, &e.load.to_le_bytes());
    let at = put(b, at, &e.exec.to_le_bytes());
    let at = put(b, at, &e.len.to_le_bytes());
    let at = put(b, at, &e.address.to_le_bytes()[..3]);
    put(b, at, &[last_byte(e, form)])
}
