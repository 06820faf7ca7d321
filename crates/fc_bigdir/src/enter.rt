// Entries put into a list, with their names in a heap.
ghost use Rattle.std.specs.Prelude.{◌≡◌, ◌+◌, ◌*◌, ◌<◌, ◌≤◌, ◌^◌, ◌++◌, true, false, length, insert, vec_len, IfOk, MatchOption, OnErr, OnOk};
ghost use Rattle.std.specs.Bool.{OnFalse, OnTrue};
ghost use Rattle.std.specs.Vec.{vec_capacity};
ghost use Rattle.fc_dirs.specs.Entries.{entry_place, padded_name, with_entry};
ghost use Rattle.fc_dirs.specs.Big.{name_space, packed_heap, packed_places, size_limit};
ghost use Rattle.fc_bigdir.specs.Entered.{AreSmall, IsRoomFor, entered_heap, entered_places, needed_for};

use crate::needed::Parts;
use crate::put::put_name;
use crate::space::{bytes_for, name_space};
use fc_bytes::BIG_LIMIT;
use fc_dirs::{Entry, place_of};
use fc_names::Name;
use std::alloc::{AllocError, Global};

// How a directory takes a new name: its size, and whether the present heap takes the name besides. Else the heap is made
// anew, of `tight` bytes.
#[derive(Clone, Copy)]
pub struct Room {
    pub size: u32,
    pub is_loose: bool,
    pub tight: usize,
}

// The room in a directory of this size that gets these parts.
pub fn room_for(size: u32, parts: Parts) -> Option<Room>
    requires { AreSmall parts }
    ensures { MatchOption result (size_limit < needed_for parts.head parts.entries parts.loose parts.tight) (IsRoomFor size parts.head parts.entries parts.loose parts.tight) }
{
    let needed = parts.needed();
    if needed > BIG_LIMIT as u64 {
        return None;
    }
    let size = size.max(needed as u32);
    Some(Room {
        size,
        is_loose: bytes_for(parts.head, parts.entries, parts.loose) <= size as usize,
        tight: parts.tight,
    })
}

// Puts a name after a heap.
fn push_name(heap: &mut Vec<u8>, name: &Name) -> Result<(), AllocError>
    ensures ok { OnOk result (heap.new.items ≡ heap.old.items ++ padded_name (name_space name.now) name.now) }
    ensures err { OnErr result (heap.new.items ≡ heap.old.items) }
{
    let mut field = [0; 256];
    let end = put_name(&mut field, 0, name.bytes(), name_space(name));
    heap.extend_from_slice(&field[..end])
}

// Puts the names of entries after a heap.
fn push_names(heap: &mut Vec<u8>, entries: &[Entry]) -> Result<(), AllocError>
    ensures { OnOk result (heap.new.items ≡ heap.old.items ++ packed_heap entries.now) }
{
    for e in entries {
        push_name(heap, &e.name)?;
    }
    Ok(())
}

// The heap of exactly the names of entries, with another name between them.
fn packed_heap(
    alloc: Global,
    before: &[Entry],
    name: &Name,
    behind: &[Entry],
    size: usize,
) -> Result<Vec<u8>, AllocError>
    ensures { IfOk result (λ heap. heap.items ≡ packed_heap before.now ++ padded_name (name_space name.now) name.now ++ packed_heap behind.now) }
{
    let mut heap = Vec::with_capacity(alloc, size)?;
    push_names(&mut heap, before)?;
    push_name(&mut heap, name)?;
    push_names(&mut heap, behind)?;
    Ok(heap)
}

// Puts an entry in its place, for which there is room: it becomes that number. Its name begins at byte `at` of the heap.
pub fn place_entry(
    places: &mut Vec<u32>,
    entries: &mut Vec<Entry>,
    number: usize,
    at: u32,
    e: Entry,
)
    requires number { number ≡ entry_place e.name entries.old.items }
    requires within { number ≤ length entries.old.items }
    requires many { vec_len places.old ≡ vec_len entries.old }
    requires places { vec_len places.old < vec_capacity places.old }
    requires entries { vec_len entries.old < vec_capacity entries.old }
    ensures entries { entries.new.items ≡ with_entry e entries.old.items }
    ensures places { places.new.items ≡ insert places.old.items (entry_place e.name entries.old.items) at }
{
    let done = places.insert(number, at).is_ok();
    prove!(done);
    let done = entries.insert(number, e).is_ok();
    prove!(done);
}

// Sets where the names of entries begin in a heap of exactly these.
fn number_places(places: &mut [u32], entries: &[Entry])
    requires many { length places.old ≡ length entries.now }
    requires few { length entries.now < 2 ^ 24 }
    ensures { places.new ≡ packed_places 0 entries.now }
{
    let mut at = 0;
    for i in 0..entries.len() {
        places[i] = at;
        at += name_space(&entries[i].name) as u32;
    }
}

// Puts an entry in its place, and its name after the heap. If there is no memory nothing changes.
fn enter_loose(
    heap: &mut Vec<u8>,
    places: &mut Vec<u32>,
    entries: &mut Vec<Entry>,
    e: Entry,
) -> bool
    requires heap { length heap.old.items < 2 ^ 32 }
    requires many { vec_len places.old ≡ vec_len entries.old }
    requires places { vec_len places.old < vec_capacity places.old }
    requires entries { vec_len entries.old < vec_capacity entries.old }
    ensures entries { OnTrue result (entries.new.items ≡ with_entry e entries.old.items) }
    ensures heap { OnTrue result (heap.new.items ≡ entered_heap true heap.old.items e entries.old.items) }
    ensures places { OnTrue result (places.new.items ≡ entered_places true heap.old.items places.old.items e entries.old.items) }
    ensures same_heap { OnFalse result (heap.new.items ≡ heap.old.items) }
    ensures same_places { OnFalse result (places.new ≡ places.old) }
    ensures same_entries { OnFalse result (entries.new ≡ entries.old) }
{
    let at = heap.len() as u32;
    if push_name(heap, &e.name).is_err() {
        return false;
    }
    let number = place_of(entries, &e.name);
    place_entry(places, entries, number, at, e);
    true
}

// Puts an entry in its place, and makes the heap anew. If there is no memory nothing changes.
fn enter_tight(
    heap: &mut Vec<u8>,
    places: &mut Vec<u32>,
    entries: &mut Vec<Entry>,
    e: Entry,
    tight: usize,
) -> bool
    requires few { length entries.old.items + 1 < 2 ^ 24 }
    requires many { vec_len places.old ≡ vec_len entries.old }
    requires places { vec_len places.old < vec_capacity places.old }
    requires entries { vec_len entries.old < vec_capacity entries.old }
    ensures entries { OnTrue result (entries.new.items ≡ with_entry e entries.old.items) }
    ensures heap { OnTrue result (heap.new.items ≡ entered_heap false heap.old.items e entries.old.items) }
    ensures places { OnTrue result (places.new.items ≡ entered_places false heap.old.items places.old.items e entries.old.items) }
    ensures same_heap { OnFalse result (heap.new.items ≡ heap.old.items) }
    ensures same_places { OnFalse result (places.new ≡ places.old) }
    ensures same_entries { OnFalse result (entries.new ≡ entries.old) }
{
    let alloc = *heap.allocator();
    let number = place_of(entries, &e.name);
    let Ok(anew) = packed_heap(
        alloc,
        &entries[..number],
        &e.name,
        &entries[number..],
        tight,
    ) else {
        return false;
    };
    place_entry(places, entries, number, 0, e);
    number_places(places, entries);
    *heap = anew;
    true
}

// Puts an entry in its place, and its name after the heap, or makes the heap anew. If there is no memory nothing
// changes.
pub fn enter(
    heap: &mut Vec<u8>,
    places: &mut Vec<u32>,
    entries: &mut Vec<Entry>,
    e: Entry,
    room: Room,
) -> bool
    requires heap { length heap.old.items < 2 ^ 32 }
    requires few { length entries.old.items + 1 < 2 ^ 24 }
    requires many { vec_len places.old ≡ vec_len entries.old }
    requires places { vec_len places.old < vec_capacity places.old }
    requires entries { vec_len entries.old < vec_capacity entries.old }
    ensures entries { OnTrue result (entries.new.items ≡ with_entry e entries.old.items) }
    ensures heap { OnTrue result (heap.new.items ≡ entered_heap room.is_loose heap.old.items e entries.old.items) }
    ensures places { OnTrue result (places.new.items ≡ entered_places room.is_loose heap.old.items places.old.items e entries.old.items) }
    ensures same_heap { OnFalse result (heap.new.items ≡ heap.old.items) }
    ensures same_places { OnFalse result (places.new ≡ places.old) }
    ensures same_entries { OnFalse result (entries.new ≡ entries.old) }
{
    if room.is_loose {
        enter_loose(heap, places, entries, e)
    } else {
        enter_tight(heap, places, entries, e, room.tight)
    }
}
