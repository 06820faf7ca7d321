// What the parts of a directory take.
ghost use Rattle.std.specs.Prelude.{◌≡◌, ◌<◌, ◌≤◌, ◌^◌};
ghost use Rattle.fc_names.specs.Names.{IsName};
ghost use Rattle.fc_dirs.specs.Big.{bytes_for, head_space, name_space, size_for};

use fc_names::Name;

// The bytes of the head before its name.
pub const HEAD: usize = 28;

// The bytes of an entry.
pub const ENTRY: usize = 28;

// The bytes of the tail.
pub const TAIL: usize = 8;

// The space of a head's name of that length.
pub fn head_space(second_form: bool, len: usize) -> usize
    requires { len < 2 ^ 32 }
    ensures { result ≡ head_space second_form len }
{
    if second_form {
        len.next_multiple_of(4)
    } else {
        (len + 4) / 4 * 4
    }
}

// The space of a name in the heap.
pub fn name_space(name: &Name) -> usize
    ensures space { result ≡ name_space name.now }
    ensures small { result ≤ 256 }
    ensures name { IsName name.now }
{
    (name.bytes().len() + 4) / 4 * 4
}

// The bytes that head, name, entries, heap and tail take, if the head's name and the heap have these spaces.
pub fn bytes_for(head_name: usize, entries: usize, heap: usize) -> usize
    requires head_name { head_name < 2 ^ 32 }
    requires entries { entries < 2 ^ 32 }
    requires heap { heap < 2 ^ 32 }
    ensures bytes { result ≡ bytes_for head_name entries heap }
    ensures small { result < 2 ^ 38 }
{
    HEAD + head_name + ENTRY * entries + heap + TAIL
}

/// The least size of a big directory that holds a head's name in so many bytes, so many entries, and a heap of so many
/// bytes. It may be more than any directory has.
pub fn size_for(head_name: usize, entries: usize, heap: usize) -> u64
    requires head_name { head_name < 2 ^ 32 }
    requires entries { entries < 2 ^ 32 }
    requires heap { heap < 2 ^ 32 }
    ensures { result ≡ size_for head_name entries heap }
{
    bytes_for(head_name, entries, heap).next_multiple_of(2048) as u64
}
