// Bytes written into a row of bytes, part after part.
ghost use Rattle.std.specs.Prelude.{◌≡◌, ◌+◌, ◌*◌, ◌≤◌, ◌++◌, length, take};
ghost use Rattle.std.specs.List.{AllByRecursion};
ghost use Rattle.byteorder.specs.Endian.{little_bytes};
ghost use Rattle.fc_dirs.specs.Entries.{padded_name};
ghost use Rattle.fc_bigdir.specs.Laws.{AreBytes, HasWords};
ghost use Rattle.fc_dirs.specs.BigBytes.{entries_bytes, entry_bytes};

use fc_bytes::{put, put_zeros};
use fc_dirs::Entry;

// Writes a number in four bytes.
pub fn put_word(b: &mut [u8], at: usize, word: u32) -> usize
    requires { at + 4 ≤ length b.old }
    ensures end { result ≡ at + 4 }
    ensures bytes { take result b.new ≡ take at b.old ++ little_bytes 4 word }
{
    put(b, at, &word.to_le_bytes())
}

// Writes a name into a space: 13 follows it, and then bytes 0, as far as there is room.
pub fn put_name(b: &mut [u8], at: usize, name: &[u8], space: usize) -> usize
    requires room { length name.now ≤ space }
    requires within { at + space ≤ length b.old }
    ensures end { result ≡ at + space }
    ensures bytes { take result b.new ≡ take at b.old ++ padded_name space name.now }
    ensures of_bytes { AreBytes name.now }
{
    let behind = put(b, at, name);
    let end = at + space;
    put_zeros(b, behind, end);
    if behind < end {
        b[behind] = 13;
    }
    end
}

// Writes an entry whose name begins at a place in the heap.
fn put_entry(b: &mut [u8], at: usize, place: u32, e: &Entry) -> usize
    requires { at + 28 ≤ length b.old }
    ensures end { result ≡ at + 28 }
    ensures bytes { take result b.new ≡ take at b.old ++ entry_bytes place e.now }
    ensures words { HasWords e.now }
{
    let at = put_word(b, at, e.load);
    let at = put_word(b, at, e.exec);
    let at = put_word(b, at, e.len);
    let at = put_word(b, at, e.address);
    let at = put_word(b, at, e.attrs);
    let at = put_word(b, at, e.name.bytes().len() as u32);
    put_word(b, at, place)
}

// Writes entries, each with the place of its name.
pub fn put_entries(b: &mut [u8], at: usize, places: &[u32], entries: &[Entry]) -> usize
    requires places { length places.now ≡ length entries.now }
    requires within { at + 28 * length entries.now ≤ length b.old }
    ensures end { result ≡ at + 28 * length entries.now }
    ensures bytes { take result b.new ≡ take at b.old ++ entries_bytes places.now entries.now }
    ensures words { AllByRecursion HasWords entries.now }
{
    let mut end = at;
    for i in 0..entries.len() {
        end = put_entry(b, end, places[i], &entries[i]);
    }
    end
}
