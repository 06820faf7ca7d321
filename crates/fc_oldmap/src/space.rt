// A map in memory, and the calls that take space and give it back.

ghost use Rattle.std.specs.Prelude.{◌≡◌, ◌+◌, ◌%◌, ◌<◌, ◌≤◌, ◌↔◌, ◌⊎◌, length, slice_get, All, OnOk, OnErr, IsErr};
ghost use Rattle.std.specs.Option.{ForSome};
ghost use Rattle.fc_oldmap.specs.Holes.{AreApart, after_give, after_take, hole, hole_end, hole_limit, shifted, take_answer, tidied};

use crate::holes::{Holes, give_to, shift_at, shortage, take_from, tidy_all};
use crate::read::{is_free_end, read_holes};
use crate::write::write_map;
use crate::{Hole, MapFull, OldMapFault, TakeError};
use fc_bytes::{is_half_right, le24};
use std::marker::Model;

/// The free space of a disc with an old map: at most 82 holes, rising and without units in common.
/// Contracts see its holes, the disc's units and the units of a sector. Units have 256 bytes.
#[derive(Drop)]
pub struct OldMap {
    holes: Holes,
    disc_units: u32,
    sector_units: u32,
}

impl Model for OldMap {
    ghost use Rattle.fc_oldmap.specs.OldMap.{OldMapContent, IsOldMap};

    ghost Value = { OldMapContent };

    ghost view = { λ m. record { holes = m.holes.items; disc_units = m.disc_units; sector_units = m.sector_units } };

    ghost invariant = { λ m. IsOldMap (record { holes = m.holes.items; disc_units = m.disc_units; sector_units = m.sector_units }) };
}

impl OldMap {
    ghost use Rattle.fc_oldmap.specs.OldMap.{IsOldMap, old_map, with_holes};

    /// Reads a map of 512 bytes, of a disc whose sectors have 1 or 4 units. `Check` if the check of
    /// a half is wrong for both starts; `Bad` if the checks are right, with the index of the first
    /// hole that is empty, begins before the end of the one before or of the map, ends after the disc
    /// or is no whole sectors, or with a third of FreeEnd if that is no multiple of 3 up to 246.
    pub fn read(b: &[u8], sector_units: u32) -> Result<OldMap, OldMapFault>
        requires size { length b.now ≡ 512 }
        requires units { (sector_units ≡ 1) ⊎ (sector_units ≡ 4) }
        ensures { result ≡ old_map b.now sector_units }
    {
        if !is_half_right(&b[..256]) {
            return Err(OldMapFault::Check { half: 0 });
        }
        if !is_half_right(&b[256..512]) {
            return Err(OldMapFault::Check { half: 1 });
        }
        let free_end = b[510];
        if !is_free_end(free_end) {
            return Err(OldMapFault::Bad {
                index: u32::from(free_end / 3),
            });
        }
        let disc_units = le24(b, 252);
        match read_holes(b, usize::from(free_end / 3), disc_units, sector_units) {
            Ok(holes) => Ok(OldMap {
                holes,
                disc_units,
                sector_units,
            }),
            Err(index) => Err(OldMapFault::Bad { index }),
        }
    }

    /// Writes the map over 512 bytes: the holes, FreeEnd and both checks, and no other byte.
    pub fn write(&self, b: &mut [u8])
        requires { length b.old ≡ 512 }
        ensures { b.new ≡ with_holes b.old self.now.holes }
    {
        write_map(b, &self.holes);
    }

    /// The holes, rising.
    pub fn holes(&self) -> &[Hole]
        ensures holes { result.now ≡ self.now.holes }
        ensures map { IsOldMap self.now }
    {
        &self.holes
    }

    /// The units of the disc.
    pub fn disc_units(&self) -> u32
        ensures { result ≡ self.now.disc_units }
    {
        self.disc_units
    }

    /// The units of a sector: 1 or 4.
    pub fn sector_units(&self) -> u32
        ensures value { result ≡ self.now.sector_units }
        ensures units { (result ≡ 1) ⊎ (result ≡ 4) }
        ensures map { IsOldMap self.now }
    {
        self.sector_units
    }

    /// Moves the hole of an index `n` units up, a multiple of a sector's, and joins it with the next
    /// hole if the two then touch.
    pub fn shift(&mut self, index: u32, n: u32)
        requires there { index < length self.old.holes }
        requires whole { n % self.old.sector_units ≡ 0 }
        requires disc { ForSome (slice_get self.old.holes index) (λ h. hole_end h + n ≤ self.old.disc_units) }
        requires next { ForSome (slice_get self.old.holes index) (λ h. ForSome (slice_get self.old.holes (index + 1)) (λ g. hole_end h + n ≤ g.start)) }
        ensures holes { self.new ≡ record self.old { holes = shifted index n self.old.holes } }
        ensures map { IsOldMap self.new }
    {
        shift_at(&mut self.holes, index as usize, n);
    }

    /// Joins every two holes that touch.
    pub fn tidy(&mut self)
        ensures holes { self.new ≡ record self.old { holes = tidied self.old.holes } }
        ensures map { IsOldMap self.new }
    {
        tidy_all(&mut self.holes);
    }

    /// Takes the front `n` units, a multiple of a sector's, of the first hole that is long enough, and
    /// answers where they begin. `DiscFull` if the sum of holes is less than `n`, and
    /// `CompactionRequired` if the sum suffices and no hole does; the map is then unchanged.
    pub fn take(&mut self, n: u32) -> Result<u32, TakeError>
        requires { n % self.old.sector_units ≡ 0 }
        ensures answer { result ≡ take_answer n self.old.holes }
        ensures holes { self.new ≡ record self.old { holes = after_take n self.old.holes } }
        ensures map { IsOldMap self.new }
    {
        match take_from(&mut self.holes, n) {
            Some(start) => Ok(start),
            None => Err(shortage(&self.holes, n)),
        }
    }

    /// Adds the space of `n` units from `start` on, and joins it with the hole that ends at its start
    /// and the hole that starts at its end. The space is whole sectors of the disc, and no unit of it
    /// lies in a hole. `MapFull` if 83 holes would stand; the map is then unchanged.
    pub fn give(&mut self, start: u32, n: u32) -> Result<(), MapFull>
        requires positive { 0 < n }
        requires inside { start + n ≤ self.old.disc_units }
        requires begins { start % self.old.sector_units ≡ 0 }
        requires ends { (start + n) % self.old.sector_units ≡ 0 }
        requires apart { All (AreApart (hole start n)) self.old.holes }
        ensures full { IsErr result ↔ (hole_limit < length (after_give (hole start n) self.old.holes)) }
        ensures ok { OnOk result (self.new ≡ record self.old { holes = after_give (hole start n) self.old.holes }) }
        ensures err { OnErr result (self.new ≡ self.old) }
        ensures map { IsOldMap self.new }
    {
        give_to(&mut self.holes, Hole { start, len: n })
    }
}
