// The spelling of names in paths and replies: a byte by itself if it is plain, and else by `%` and two
// hexadecimal digits.
ghost use Rattle.std.specs.Prelude.{◌≡◌, ◌≢◌, ◌↔◌, ◌+◌, ◌<◌, ◌≤◌, [], ◌∷◌, ◌++◌, length, take, Some, None, Err, IsSome, IfSome, IfNone, IfOk, IsOk, OnOk, OnErr, option_map, vec_len, vec_capacity};
ghost use Rattle.std.specs.Int.{IsInRange};
ghost use Rattle.hex.specs.Hex.{hex_digit_value};
ghost use Rattle.arrayvec.specs.ArrayVec.{array_vec_len};
ghost use Rattle.fc_names.specs.Paths.{byte_of, cons_some, name_of, spelled_byte, spelled_bytes, spelled_name, spelled_path};
ghost use Rattle.fc_names.specs.Names.{IsName};

use crate::name::{LONGEST, is_plain};
use crate::{Name, Path, PathError};
use arrayvec::ArrayVec;
use fc_device::NoMemory;
use std::alloc::Global;

// The most bytes of a spelled name.
const SPELLED: usize = 3 * LONGEST;

const DIGITS: &[u8; 16] = b"0123456789ABCDEF";

// Appends the byte as it is spelled.
fn push_spelled(text: &mut ArrayVec<u8, SPELLED>, c: u8)
    requires { array_vec_len text.old + 3 ≤ 765 }
    ensures items { text.new.items ≡ text.old.items ++ spelled_byte c }
    ensures count { array_vec_len text.new ≤ array_vec_len text.old + 3 }
{
    if is_plain(c) {
        text.push(c);
    } else {
        text.push(b'%');
        text.push(DIGITS[(c / 16) as usize]);
        text.push(DIGITS[(c % 16) as usize]);
    }
}

fn spelled(name: &[u8]) -> ArrayVec<u8, SPELLED>
    requires { length name.now ≤ 255 }
    ensures { result.items ≡ spelled_name name.now }
{
    let mut text = ArrayVec::new();
    for c in name {
        push_spelled(&mut text, *c);
    }
    text
}

/// Appends the spelled name. After `NoMemory` the vector is as before.
pub fn write_name(n: &Name, into: &mut Vec<u8>) -> Result<(), NoMemory>
    ensures ok { OnOk result (into.new.items ≡ into.old.items ++ spelled_name n.now) }
    ensures err { OnErr result (into.new.items ≡ into.old.items) }

    // It fails only if room was missing.
    ensures room { vec_len into.old + length (spelled_name n.now) ≤ vec_capacity into.old → IsOk result }
{
    let text = spelled(n.bytes());
    into.extend_from_slice(&text)?;
    Ok(())
}

// Appends a full stop and the spelled name.
fn push_part(into: &mut Vec<u8>, name: &[u8]) -> Result<(), NoMemory>
    requires { length name.now ≤ 255 }
    ensures ok { OnOk result (into.new.items ≡ into.old.items ++ 46 ∷ spelled_name name.now) }
    ensures kept { take (length into.old.items) into.new.items ≡ into.old.items }
{
    into.push(b'.').map_err(|_| NoMemory)?;
    into.extend_from_slice(&spelled(name))?;
    Ok(())
}

// Appends the spelled path, or a part of it.
fn push_path(into: &mut Vec<u8>, path: &Path) -> Result<(), NoMemory>
    ensures ok { OnOk result (into.new.items ≡ into.old.items ++ spelled_path path.now) }
    ensures kept { take (length into.old.items) into.new.items ≡ into.old.items }
{
    into.push(b'$').map_err(|_| NoMemory)?;
    for name in path.names() {
        push_part(into, name)?;
    }
    Ok(())
}

/// Appends the spelled path. After `NoMemory` the vector is as before.
pub fn write_path(path: &Path, into: &mut Vec<u8>) -> Result<(), NoMemory>
    ensures ok { OnOk result (into.new.items ≡ into.old.items ++ spelled_path path.now) }
    ensures err { OnErr result (into.new.items ≡ into.old.items) }
{
    let before = into.len();
    let done = push_path(into, path);
    if done.is_err() {
        into.truncate(before);
    }
    done
}

// The value of a hexadecimal digit of either case.
fn digit(c: u8) -> Option<u8>
    ensures { result ≡ hex_digit_value c }
{
    match c {
        b'A'..=b'F' => Some(c - b'A' + 10),
        b'a'..=b'f' => Some(c - b'a' + 10),
        b'0'..=b'9' => Some(c - b'0'),
        _ => None,
    }
}

// The byte from 32 on that two digits spell.
fn byte_of(high: u8, low: u8) -> Option<u8>
    ensures { result ≡ byte_of high low }
{
    let byte = 16 * digit(high)? + digit(low)?;
    if byte >= 32 { Some(byte) } else { None }
}

// The first byte that a text spells, and the text after it.
fn read_byte(text: &[u8]) -> Option<(u8, &[u8])>
    ensures read { IfSome result (λ r. spelled_bytes text.now ≡ cons_some (Some r.0) (spelled_bytes r.1.now)) }
    ensures printed { IfSome result (λ r. IsInRange 32 255 r.0) }
    ensures shorter { IfSome result (λ r. length r.1.now < length text.now) }
    ensures none { IfNone result (text.now ≢ [] → spelled_bytes text.now ≡ None) }
{
    match text {
        [b'%', high, low, after @ ..] => Some((byte_of(*high, *low)?, after)),
        [c, after @ ..] if is_plain(*c) => Some((*c, after)),
        _ => None,
    }
}

/// The bytes of the name that a text spells, by the rule of names in paths. `None` if it spells none.
pub fn spelled_bytes(text: &[u8]) -> Option<ArrayVec<u8, LONGEST>>
    ensures name { option_map (λ bytes. bytes.items) result ≡ name_of text.now }
    ensures is_name { IfSome result (λ bytes. IsName bytes.items) }
{
    let mut bytes: ArrayVec<u8, LONGEST> = ArrayVec::new();
    let mut rest = text;
    while !rest.is_empty() {
        let (c, after) = read_byte(rest)?;
        if bytes.is_full() {
            return None;
        }
        bytes.push(c);
        rest = after;
    }
    match bytes.len() {
        0 => None,
        _ => Some(bytes),
    }
}

/// The name that a text spells, by the rule of names in paths. Any other text is `BadName`, also if there is no
/// memory.
pub fn read_name(alloc: Global, text: &[u8]) -> Result<Name, PathError>
    ensures name { IfOk result (λ name. name_of text.now ≡ Some name) }
    ensures bad_name { (result ≡ Err PathError.BadName) ↔ (name_of text.now ≡ None) }
    ensures no_memory { result ≡ Err PathError.NoMemory → IsSome (name_of text.now) }
{
    let Some(bytes) = spelled_bytes(text) else {
        return Err(PathError::BadName);
    };
    Name::new(alloc, &bytes).map_err(|_| PathError::NoMemory)
}
