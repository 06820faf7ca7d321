// Paths from the root of a disc.
ghost use Rattle.std.specs.Prelude.{◌≡◌, ◌↔◌, ◌<◌, false, [], ◌∷◌, ◌++◌, length, None, Some, option_map, IsSome, IfSome, IfOk, OnOk, OnErr};
ghost use Rattle.std.specs.Iterator.{YieldsFirstRef, item_count};
ghost use Rattle.std.specs.List.{All, slice_split};
ghost use Rattle.fc_names.specs.Names.{IsName};
ghost use Rattle.fc_names.specs.Paths.{is_stop, parts_after, path_of};

use crate::Name;
use crate::spelling::spelled_bytes;
use fc_device::NoMemory;
use std::alloc::Global;
use std::marker::Model;

/// A path: the names from the root on. The root's path has none. It takes memory of the length of its names.
#[derive(Clone, Debug, Drop)]
pub struct Path {
    // The bytes of the names, each name with a byte 0 after it.
    bytes: Vec<u8>,
}

impl Model for Path {
    ghost use Rattle.std.specs.Prelude.{List, ℕ};

    ghost Value = { List (List ℕ) };

    ghost use Rattle.fc_names.specs.Packed.{IsPacked, names_in};

    ghost view = { λ p. names_in p.bytes.items };

    ghost invariant = { λ p. IsPacked p.bytes.items };
}

/// The names of a path that are left, from the root on.
#[derive(Drop)]
pub struct Names<'a> {
    bytes: &'a [u8],
}

impl<'a> Model for Names<'a> {
    ghost use Rattle.std.specs.Prelude.{List, ℕ};

    ghost Value = { List (List ℕ) };

    ghost use Rattle.fc_names.specs.Packed.{IsPacked, names_in};

    ghost view = { λ n. names_in n.bytes.now };

    ghost invariant = { λ n. IsPacked n.bytes.now };
}

impl<'a> Iterator for Names<'a> {
    type Item = &'a [u8];

    ghost next_gives = { YieldsFirstRef (λ names. names) };

    ghost remaining = { item_count (λ names. names) };

    fn next(&mut self) -> Option<&'a [u8]> {
        let bytes = self.bytes;
        let end = bytes.iter().position(|c| *c == 0)?;
        self.bytes = &bytes[end + 1..];
        Some(&bytes[..end])
    }
}

// Appends a name and a byte 0.
fn push_packed(bytes: &mut Vec<u8>, name: &[u8]) -> Result<(), NoMemory>
    ensures ok { OnOk result (bytes.new.items ≡ bytes.old.items ++ (name.now ++ 0 ∷ [])) }
    ensures err { OnErr result (bytes.new.items ≡ bytes.old.items) }
{
    bytes.reserve(name.len() + 1)?;
    let done = bytes.extend_from_slice(name).is_ok();
    prove!(done);
    let done = bytes.push(0).is_ok();
    prove!(done);
    Ok(())
}

impl Path {
    /// The path of the root, which takes no memory until a name is pushed.
    pub fn root(alloc: Global) -> Path
        ensures { result ≡ [] }
    {
        Path {
            bytes: Vec::new(alloc),
        }
    }

    /// The names, that of the object itself last.
    pub fn names(&self) -> Names<'_>
        ensures same { result ≡ self.now }
        ensures names { All IsName self.now }
    {
        Names { bytes: &self.bytes }
    }

    /// Appends a name. After `NoMemory` the path is as before.
    pub fn push(&mut self, n: &Name) -> Result<(), NoMemory>
        ensures ok { OnOk result (self.new ≡ self.old ++ n.now ∷ []) }
        ensures err { OnErr result (self.new ≡ self.old) }
    {
        self.push_bytes(n.bytes())
    }

    /// Appends the name of these bytes. After `NoMemory` the path is as before.
    pub fn push_bytes(&mut self, name: &[u8]) -> Result<(), NoMemory>
        requires { IsName name.now }
        ensures ok { OnOk result (self.new ≡ self.old ++ name.now ∷ []) }
        ensures err { OnErr result (self.new ≡ self.old) }
    {
        push_packed(&mut self.bytes, name)
    }
}

/// Why a text gives no path, or no name.
#[derive(Clone, Copy, Debug, PartialEq, Eq)]
pub enum PathError {
    /// It isn't in the grammar of paths.
    BadName,
    /// No memory was found.
    NoMemory,
}

// What stands before the first full stop of a text, and what after it, if there is one.
fn cut(text: &[u8]) -> (&[u8], Option<&[u8]>)
    ensures parts { slice_split is_stop text.now ≡ result.0.now ∷ parts_after (option_map (λ after. after.now) result.1) }
    ensures shorter { IfSome result.1 (λ after. length after.now < length text.now) }
{
    match text.iter().position(|c| *c == b'.') {
        Some(at) => (&text[..at], Some(&text[at + 1..])),
        None => (text, None),
    }
}

// Appends a name, unless there was no memory before. Answers whether there is none now.
fn push_unless(full: bool, path: &mut Path, name: &[u8]) -> bool
    requires { IsName name.now }
    ensures { result ≡ false → (full ≡ false) × (path.new ≡ path.old ++ name.now ∷ []) }
{
    full || path.push_bytes(name).is_err()
}

/// Reads a path: `$`, followed by any number of times `.` and a name of 1 to 255 spelled bytes. A byte from 33 to 126
/// outside `$ & % @ \ ^ : . # * " |` is spelled by itself or by `%` and two hexadecimal digits of either case, and
/// every other byte from 32 on by these digits. Any other text is `BadName`, also if there is no memory.
pub fn read_path(alloc: Global, text: &[u8]) -> Result<Path, PathError>
    ensures path { IfOk result (λ path. path_of text.now ≡ Some path) }
    ensures bad_name { (result ≡ Err PathError.BadName) ↔ (path_of text.now ≡ None) }
    ensures no_memory { result ≡ Err PathError.NoMemory → IsSome (path_of text.now) }
{
    let (first, mut rest) = cut(text);
    if first != b"$".as_slice() {
        return Err(PathError::BadName);
    }
    let mut path = Path::root(alloc);
    let mut full = false;
    while let Some(names) = rest {
        let (part, after) = cut(names);
        let Some(name) = spelled_bytes(part) else {
            return Err(PathError::BadName);
        };
        full = push_unless(full, &mut path, &name);
        rest = after;
    }
    if full {
        Err(PathError::NoMemory)
    } else {
        Ok(path)
    }
}
