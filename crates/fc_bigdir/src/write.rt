// Writing big directories.
ghost use Rattle.std.specs.Prelude.{◌≡◌, ◌+◌, ◌≤◌, ◌++◌, length, take};
ghost use Rattle.fc_dirs.specs.Big.{head_space_of};
ghost use Rattle.fc_bigdir.specs.Laws.{AreBytes, HasWidths};
ghost use Rattle.fc_dirs.specs.BigBytes.{IsWrittenBig, big_bytes, checked_bytes, free_bytes, head_bytes, laid, parts_end, tail_bytes};

use crate::BigDir;
use crate::frame::is_check_right;
use crate::put::{put_entries, put_name, put_word};
use crate::space::TAIL;
use fc_bytes::{big_dir_check, put, put_zeros};

impl BigDir {
    // Writes the head with its name, and answers the place after it.
    fn put_head(&self, b: &mut [u8]) -> usize
        requires { length b.old ≡ self.now.size }
        ensures end { result ≡ 28 + head_space_of self.now }
        ensures bytes { take result b.new ≡ head_bytes self.now }
        ensures of_bytes { AreBytes self.now.name }
    {
        let at = put(b, 0, &[self.sequence, 0, 0, 0]);
        let at = put(b, at, b"SBPr");
        let at = put_word(b, at, self.name.len() as u32);
        let at = put_word(b, at, self.size);
        let at = put_word(b, at, self.entries.len() as u32);
        let at = put_word(b, at, self.heap.len() as u32);
        let at = put_word(b, at, self.parent);
        put_name(b, at, &self.name, self.head_space())
    }

    // Writes the tail up to the check, and answers the place of the check.
    fn put_tail(&self, b: &mut [u8], at: usize) -> usize
        requires { at + 8 ≤ length b.old }
        ensures end { result ≡ at + 7 }
        ensures bytes { take result b.new ≡ take at b.old ++ tail_bytes self.now }
        ensures of_bytes { AreBytes self.now.reserved }
    {
        let at = put(b, at, b"oven");
        let at = put(b, at, &[self.sequence]);
        put(b, at, &self.reserved)
    }

    // Writes all bytes, with a check of 0, and answers where the heap ends.
    fn put_unchecked(&self, b: &mut [u8]) -> usize
        requires { length b.old ≡ self.now.size }
        ensures end { result ≡ parts_end self.now }
        ensures within { result + 8 ≤ length b.old }
        ensures bytes { b.new ≡ laid self.now (free_bytes self.now) 0 }
        ensures widths { HasWidths self.now }
    {
        let at = self.put_head(b);
        let at = put_entries(b, at, &self.places, &self.entries);
        let end = put(b, at, &self.heap);
        let tail = b.len() - TAIL;
        put_zeros(b, end, tail);
        let last = self.put_tail(b, tail);
        put(b, last, &[0]);
        end
    }

    // Writes all bytes with their check, and answers where the heap ends.
    fn put_checked(&self, b: &mut [u8]) -> usize
        requires { length b.old ≡ self.now.size }
        ensures end { result ≡ parts_end self.now }
        ensures within { result + 8 ≤ length b.old }
        ensures bytes { b.new ≡ checked_bytes self.now }
        ensures widths { HasWidths self.now }
    {
        let end = self.put_unchecked(b);
        let last = b.len() - 1;
        b[last] = big_dir_check(b, end);
        end
    }

    /// Fills the buffer, which is as long as the directory, with its bytes. What is free between the heap and the tail is
    /// 0, but for a word that keeps a head's name of the second form from being read in the first.
    pub fn write(&self, b: &mut [u8])
        requires { length b.old ≡ self.now.size }
        ensures bytes { b.new ≡ big_bytes self.now }
        ensures written { IsWrittenBig b.new self.now }
    {
        let end = self.put_checked(b);
        // The check of the first form takes the word after the heap, too.
        if self.second_form && is_check_right(b, false) {
            b[end] = 1;
        }
    }
}
