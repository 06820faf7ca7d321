// The bytes of a map's holes.

ghost use Rattle.std.specs.Prelude.{◌≡◌, ◌^◌, ◌<◌, ◌≤◌, ◌++◌, length, map, drop, replicate, All};
ghost use Rattle.fc_oldmap.specs.Holes.{hole_end};
ghost use Rattle.fc_oldmap.specs.OldMap.{checked_half, triples, with_holes};

use crate::Hole;
use crate::holes::PLACES;
use fc_bytes::{old_check, put_le24};

// Clears the places of 82 numbers in half a map of 256 bytes.
fn clear(half: &mut [u8])
    requires { length half.old ≡ 256 }
    ensures { half.new ≡ replicate 246 0 ++ drop 246 half.old }
{
    half[..PLACES].fill(0);
}

// Fills the places of starts and of lengths in the two halves of a map; those of no hole are 0.
fn write_holes(starts: &mut [u8], lengths: &mut [u8], holes: &[Hole])
    requires starts { length starts.old ≡ 256 }
    requires lengths { length lengths.old ≡ 256 }
    requires few { length holes.now ≤ 82 }
    requires fits { All (λ h. hole_end h < 2 ^ 24) holes.now }
    ensures starts { starts.new ≡ triples (map (λ h. h.start) holes.now) ++ drop 246 starts.old }
    ensures lengths { lengths.new ≡ triples (map (λ h. h.len) holes.now) ++ drop 246 lengths.old }
{
    clear(starts);
    clear(lengths);
    for (i, hole) in holes.iter().enumerate() {
        put_le24(starts, 3 * i, hole.start);
        put_le24(lengths, 3 * i, hole.len);
    }
}

/// Writes the check of half an old map of 256 bytes, and no other byte.
pub fn seal_half(half: &mut [u8])
    requires { length half.old ≡ 256 }
    ensures { half.new ≡ checked_half half.old }
{
    half[255] = old_check(half, 255);
}

/// Writes the holes of a map over 512 bytes, FreeEnd and both checks, and no other byte.
pub fn write_map(b: &mut [u8], holes: &[Hole])
    requires size { length b.old ≡ 512 }
    requires few { length holes.now ≤ 82 }
    requires fits { All (λ h. hole_end h < 2 ^ 24) holes.now }
    ensures { b.new ≡ with_holes b.old holes.now }
{
    let (first, second) = b.split_at_mut(256);
    write_holes(first, second, holes);
    second[254] = (3 * holes.len()) as u8;
    seal_half(first);
    seal_half(second);
}
