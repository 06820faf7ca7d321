// Which sectors of a disc are taken.
ghost use Rattle.std.specs.Prelude.{◌≡◌, ◌<◌, ◌≤◌, ◌↔◌, ◌+◌, ◌-◌, ◌^◌, ◌%◌, ◌||◌, ◌==◌, false, true, [], ◌++◌, List, ℕ, IfOk, get_or, length};
ghost use Rattle.std.specs.List.{range_with_len};
ghost use Rattle.fc_image.specs.Layout.{is_among};
ghost use Rattle.fc_objects.specs.Extents.{extent_sectors, sectors_in};
ghost use Rattle.fc_tree.specs.Taken.{AreTaken, has_mark, is_free};

use fc_device::{Extent, NoMemory};
use std::alloc::Global;
use std::marker::Model;

/// A mark for each sector of a disc that is taken.
#[derive(Drop)]
pub struct Taken {
    // A bit for each sector, from the lowest of the first word on.
    words: Vec<u64>,
    sectors: u64,
}

impl Model for Taken {
    ghost use Rattle.std.specs.Prelude.{◌≤◌, ◌*◌, length};
    ghost use Rattle.fc_tree.specs.Taken.{Marks};

    ghost Value = { Marks };

    ghost view = { λ t. record { words = t.words.items; sectors = t.sectors } };

    ghost invariant = { λ t. t.sectors ≤ 64 * length t.words.items };
}

// Whether a word of marks begins at a sector, and the sectors before `end` fill it.
fn fills_word(sector: u64, end: u64) -> bool
    requires { sector < end }
    ensures { result ≡ true → (sector % 64 ≡ 0) × (sector + 64 ≤ end) }
{
    sector.is_multiple_of(64) && end - sector >= 64
}

// Sets the words from one place to another.
fn set_words(words: &mut Vec<u64>, from: usize, to: usize)
    requires order { from ≤ to }
    requires within { to ≤ length words.old.items }
    ensures inside { (k : ℕ) → from ≤ k → k < to → get_or words.new.items k 0 ≡ 2 ^ 64 - 1 }
    ensures before { (k : ℕ) → k < from → get_or words.new.items k 0 ≡ get_or words.old.items k 0 }
    ensures behind { (k : ℕ) → to ≤ k → get_or words.new.items k 0 ≡ get_or words.old.items k 0 }
    ensures len { length words.new.items ≡ length words.old.items }
{
    words[from..to].fill(u64::MAX);
}

// The first word from one place to another that isn't 0, or the place after them.
fn first_set(words: &[u64], from: usize, to: usize) -> usize
    requires order { from ≤ to }
    requires within { to ≤ length words.now }
    ensures from { from ≤ result }
    ensures to { result ≤ to }
    ensures zeros { (k : ℕ) → from ≤ k → k < result → get_or words.now k 0 ≡ 0 }
{
    for place in from..to {
        if words[place] != 0 {
            return place;
        }
    }
    to
}

impl Taken {
    /// No sector of a disc of so many is taken.
    pub fn new(alloc: Global, sectors: u64) -> Result<Taken, NoMemory>
        ensures sectors { IfOk result (λ taken. taken.sectors ≡ sectors) }
        ensures none { IfOk result (λ taken. AreTaken taken []) }
    {
        let words = vec![in alloc; 0; sectors.div_ceil(64) as usize]?;
        Ok(Taken { words, sectors })
    }

    fn has(&self, sector: u64) -> bool
        ensures { result ≡ has_mark self.now sector }
    {
        sector < self.sectors && self.words[(sector / 64) as usize] >> (sector % 64) & 1 == 1
    }

    fn mark(&mut self, sector: u64)
        requires { sector < self.old.sectors }
        ensures sectors { self.new.sectors ≡ self.old.sectors }
        ensures marks { (s : ℕ) → has_mark self.new s ≡ ((s == sector) || has_mark self.old s) }
    {
        self.words[(sector / 64) as usize] |= 1 << (sector % 64);
    }

    // Takes the sectors of the whole words from a sector to `end`, and answers the sector after them.
    fn mark_words(&mut self, sector: u64, end: u64) -> u64
        requires first { sector % 64 ≡ 0 }
        requires some { sector + 64 ≤ end }
        requires on_disc { end ≤ self.old.sectors }
        ensures from { sector < result }
        ensures end { result ≤ end }
        ensures sectors { self.new.sectors ≡ self.old.sectors }
        ensures marks { (s : ℕ) → has_mark self.new s ≡ (is_among (range_with_len sector (result - sector)) s || has_mark self.old s) }
    {
        set_words(&mut self.words, (sector / 64) as usize, (end / 64) as usize);
        end - end % 64
    }

    // The sectors of the disc after the last of an extent's, if those are on the disc.
    fn end_of(&self, extent: &Extent) -> u64
        ensures disc { result ≤ self.now.sectors }
        ensures last { (s : ℕ) → s < self.now.sectors → extent.now.first ≤ s → (s < result ↔ s < extent.now.first + extent.now.sectors) }
    {
        extent
            .first
            .saturating_add(extent.sectors)
            .min(self.sectors)
    }

    // The first of the whole words from a sector to `end` that has a mark, or the sector after them.
    fn free_words(&self, sector: u64, end: u64) -> u64
        requires first { sector % 64 ≡ 0 }
        requires some { sector + 64 ≤ end }
        requires on_disc { end ≤ self.now.sectors }
        ensures from { sector ≤ result }
        ensures end { result ≤ end }
        ensures free { (s : ℕ) → sector ≤ s → s < result → has_mark self.now s ≡ false }
    {
        let word = first_set(&self.words, (sector / 64) as usize, (end / 64) as usize);
        64 * word as u64
    }

    // Up to which sector, of those before `end`, none from `sector` on is seen to be taken by one look: whole words of
    // them, one of them, or none.
    fn free_to(&self, sector: u64, end: u64) -> u64
        requires on_disc { end ≤ self.now.sectors }
        requires some { sector < end }
        ensures from { sector ≤ result }
        ensures end { result ≤ end }
        ensures free { (s : ℕ) → sector ≤ s → s < result → has_mark self.now s ≡ false }
        ensures taken { result ≡ sector → has_mark self.now sector ≡ true }
    {
        if fills_word(sector, end) {
            let free = self.free_words(sector, end);
            if free > sector {
                return free;
            }
        }
        if self.has(sector) { sector } else { sector + 1 }
    }

    // Takes the whole words of sectors that those from `sector` to `end` fill, or else one sector. Answers the sector after
    // them.
    fn mark_to(&mut self, sector: u64, end: u64) -> u64
        requires on_disc { end ≤ self.old.sectors }
        requires some { sector < end }
        ensures from { sector < result }
        ensures end { result ≤ end }
        ensures sectors { self.new.sectors ≡ self.old.sectors }
        ensures marks { (s : ℕ) → has_mark self.new s ≡ (is_among (range_with_len sector (result - sector)) s || has_mark self.old s) }
    {
        if fills_word(sector, end) {
            self.mark_words(sector, end)
        } else {
            self.mark(sector);
            sector + 1
        }
    }

    // Whether none of an extent's sectors is taken.
    fn is_free(&self, extent: &Extent) -> bool
        ensures { result ≡ is_free self.now (extent_sectors extent.now) }
    {
        let end = self.end_of(extent);
        let mut sector = extent.first;
        while sector < end {
            let next = self.free_to(sector, end);
            if next == sector {
                return false;
            }
            sector = next;
        }
        true
    }

    /// Whether none of these sectors is taken. One past the disc's end never is.
    pub fn are_free(&self, place: &[Extent]) -> bool
        ensures { result ≡ is_free self.now (sectors_in place.now) }
    {
        for extent in place {
            if !self.is_free(extent) {
                return false;
            }
        }
        true
    }

    /// Takes an extent's sectors, as far as they are on the disc.
    pub fn take_extent(&mut self, extent: &Extent)
        ensures sectors { self.new.sectors ≡ self.old.sectors }
        ensures taken { (taken : List ℕ) → AreTaken self.old taken → AreTaken self.new (extent_sectors extent.now ++ taken) }
    {
        let end = self.end_of(extent);
        let mut sector = extent.first;
        while sector < end {
            sector = self.mark_to(sector, end);
        }
    }

    /// Takes sectors, as far as they are on the disc.
    pub fn take(&mut self, place: &[Extent])
        ensures sectors { self.new.sectors ≡ self.old.sectors }
        ensures taken { (taken : List ℕ) → AreTaken self.old taken → AreTaken self.new (sectors_in place.now ++ taken) }
    {
        for extent in place {
            self.take_extent(extent);
        }
    }
}
