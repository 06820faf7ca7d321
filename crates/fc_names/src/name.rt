// Names of objects, and how they are compared.
ghost use Rattle.std.specs.Prelude.{◌≡◌, ◌<◌, ◌≤◌, length, IfOk};
ghost use Rattle.std.specs.List.{All};
ghost use Rattle.fc_names.specs.Names.{IsName, name_cmp, is_same_name, is_name_before, is_plain, is_writable, is_writable_byte, name_limit, upper};

use fc_device::NoMemory;
use std::alloc::{AllocError, Global};
use std::cmp::Ordering;
use std::fmt;
use std::marker::Model;

/// The most bytes of a name.
pub const LONGEST: usize = 255;

// The most bytes of a name that takes no memory.
const INLINE: usize = 30;

/// The name of an object: 1 to 255 bytes, each at least 32. At most 30 bytes stand in the value itself, and only a
/// longer name takes memory.
#[derive(Drop)]
pub struct Name {
    place: Place,
}

// Where the bytes of a name stand.
#[derive(Drop)]
enum Place {
    // The first `len` of these bytes.
    Inline { len: u8, bytes: [u8; INLINE] },
    Memory(Vec<u8>),
}

const _: () = prove!(size_of::<Name>() == 32);

impl Model for Name {
    ghost use Rattle.std.specs.Prelude.{List, ℕ};

    ghost Value = { List ℕ };

    ghost use Rattle.fc_names.specs.Places.{name_at, IsPlace};

    ghost view = { λ n. name_at n.place };

    ghost invariant = { λ n. IsPlace n.place };
}

impl Clone for Name {
    ghost is_clone = { λ name copy. copy ≡ name };

    fn clone(&self) -> Result<Name, AllocError> {
        Ok(Name {
            place: match &self.place {
                Place::Inline { len, bytes } => Place::Inline {
                    len: *len,
                    bytes: *bytes,
                },
                Place::Memory(bytes) => Place::Memory(bytes.clone()?),
            },
        })
    }
}

impl fmt::Debug for Name {
    fn fmt<W: fmt::Write>(&self, f: &mut fmt::Formatter<W>) -> fmt::Result {
        f.debug_struct("Name")
            .field("bytes", &self.bytes())
            .finish()
    }
}

impl PartialEq for Name {
    ghost use Rattle.std.specs.Str.{bytes_eq};
    ghost use Rattle.std.specs.Cmp.{partial_equiv_from_equiv};
    ghost use Rattle.std.specs.Cmp.Lexicographic.{nat_list_eq_equiv};

    ghost eq = { bytes_eq };

    ghost laws = { partial_equiv_from_equiv nat_list_eq_equiv };

    /// Whether the names have the same bytes, in the same case.
    fn eq(&self, other: &Self) -> bool {
        self.bytes() == other.bytes()
    }
}

impl Eq for Name {
    ghost use Rattle.std.specs.Cmp.Lexicographic.{nat_list_eq_equiv};

    ghost laws = { nat_list_eq_equiv };
}

/// Which names may be written, by the directories of a disc.
#[derive(Clone, Copy, Debug, PartialEq, Eq)]
pub enum NameForm {
    /// At most 10 bytes below 128, in directories of 1280 bytes.
    Seven,
    /// At most 10 bytes, in directories of 2048 bytes.
    Ten,
    /// At most 255 bytes, in big directories.
    Long,
}

impl Name {
    /// The name of these bytes.
    pub fn new(alloc: Global, b: &[u8]) -> Result<Name, NoMemory>
        requires some { 0 < length b.now }
        requires most { length b.now ≤ 255 }
        requires printed { All (λ c. 32 ≤ c) b.now }
        ensures { IfOk result (λ name. name ≡ b.now) }
    {
        if b.len() > INLINE {
            let bytes = Vec::from_slice(alloc, b)?;
            return Ok(Name {
                place: Place::Memory(bytes),
            });
        }
        let mut bytes = [0; INLINE];
        bytes[..b.len()].copy_from_slice(b);
        Ok(Name {
            place: Place::Inline {
                len: b.len() as u8,
                bytes,
            },
        })
    }

    /// The bytes of the name.
    pub fn bytes(&self) -> &[u8]
        ensures same { result.now ≡ self.now }
        ensures name { IsName self.now }
    {
        match &self.place {
            Place::Inline { len, bytes } => &bytes[..usize::from(*len)],
            Place::Memory(bytes) => bytes,
        }
    }
}

// `a` to `z` as `A` to `Z`.
fn upper(c: u8) -> u8
    ensures { result ≡ upper c }
{
    if c.is_ascii_lowercase() { c - 32 } else { c }
}

/// The order of two names, with `a` to `z` taken as `A` to `Z`.
pub fn fold_cmp(a: &Name, b: &Name) -> Ordering
    ensures { result ≡ name_cmp a.now b.now }
{
    fold_cmp_bytes(a.bytes(), b.bytes())
}

/// The order of the names of these bytes, with `a` to `z` taken as `A` to `Z`.
pub fn fold_cmp_bytes(a: &[u8], b: &[u8]) -> Ordering
    ensures { result ≡ name_cmp a.now b.now }
{
    for (x, y) in a.iter().zip(b) {
        let order = upper(*x).cmp(&upper(*y));
        if order != Ordering::Equal {
            return order;
        }
    }
    a.len().cmp(&b.len())
}

/// Whether two names are the same, with `a` to `z` taken as `A` to `Z`.
pub fn fold_eq(a: &Name, b: &Name) -> bool
    ensures { result ≡ is_same_name a.now b.now }
{
    a.bytes().eq_ignore_ascii_case(b.bytes())
}

/// Whether a name comes before another, with `a` to `z` taken as `A` to `Z`.
pub fn fold_less(a: &Name, b: &Name) -> bool
    ensures { result ≡ is_name_before a.now b.now }
{
    fold_cmp(a, b).is_lt()
}

// A byte that stands for itself in a path: printed, and none of `$ & % @ \ ^ : . # * " |`.
pub fn is_plain(c: u8) -> bool
    ensures { result ≡ is_plain c }
{
    c.is_ascii_graphic()
        && !matches!(
            c,
            b'$' | b'&' | b'%' | b'@' | b'\\' | b'^' | b':' | b'.' | b'#' | b'*' | b'"' | b'|'
        )
}

fn is_writable_byte(form: NameForm, c: u8) -> bool
    ensures { result ≡ is_writable_byte form c }
{
    is_plain(c) || (c >= 128 && form != NameForm::Seven)
}

// The most bytes of a name that is written.
fn name_limit(form: NameForm) -> usize
    ensures { result ≡ name_limit form }
{
    match form {
        NameForm::Seven | NameForm::Ten => 10,
        NameForm::Long => LONGEST,
    }
}

/// Whether the name of these bytes may be written in directories of this form; no bytes are no name. They must be 33 to
/// 126, or 128 to 255 if the form has them, without `$ & % @ \ ^ : . # * " |`. A name that is read may have other
/// bytes.
pub fn writable_bytes(name: &[u8], form: NameForm) -> bool
    ensures { result ≡ is_writable form name.now }
{
    if name.is_empty() {
        return false;
    }
    name.len() <= name_limit(form) && name.iter().all(|c| is_writable_byte(form, *c))
}

/// Whether a name may be written in directories of this form.
pub fn writable(n: &Name, form: NameForm) -> bool
    ensures { result ≡ is_writable form n.now }
{
    writable_bytes(n.bytes(), form)
}
