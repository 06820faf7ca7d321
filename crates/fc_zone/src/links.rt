// The links between holes: FreeLink names the first, and each hole's field the next. A holder of a link is a hole, by
// its place, or FreeLink (`None`).

ghost use Rattle.std.specs.Prelude.{◌≡◌, ◌+◌, ◌*◌, ◌^◌, ◌<◌, ◌≤◌, ◌++◌, ◌∷◌, List, length, slice_index, IfSome, MatchOption};
ghost use Rattle.fc_bytes.specs.Bits.{bits, SameOutside};
ghost use Rattle.fc_zone.specs.declared.Run.{Run};
ghost use Rattle.fc_zone.specs.Zone.{IsShapeOf, IsZone, Zone, field_at, first_hole, hole_from, holder_after, link_end, link_place, link_target, link_to, next_hole};

use crate::ZoneShape;
use fc_bytes::{get_bits, put_bits};

// FreeLink's first bit, the place that its distances are counted from, and its top bit, set when written.
const FREE_LINK: u32 = 8;

const FREE_LINK_TOP: u32 = 0x8000;

// The place that a link held at `at` names, if it is not 0.
pub fn link_target(at: u32, link: u32) -> Option<u32>
    requires { at + link < 2 ^ 32 }
    ensures { result ≡ link_target at link }
{
    if link == 0 { None } else { Some(at + link) }
}

// The first place that the chain names.
pub fn first_hole(b: &[u8]) -> Option<u32>
    requires { 3 ≤ length b.now }
    ensures { result ≡ first_hole (bits b.now) }
{
    link_target(FREE_LINK, get_bits(b, FREE_LINK, 15))
}

// The place that the hole at `at` names.
pub fn next_hole(b: &[u8], shape: &ZoneShape, at: u32) -> Option<u32>
    requires field { shape.now.idlen ≤ 19 }
    requires within { at + shape.now.idlen ≤ 8 * length b.now }
    requires short { length b.now ≤ 1024 }
    ensures { result ≡ next_hole shape.now (bits b.now) at }
{
    link_target(at, get_bits(b, at, u32::from(shape.idlen)) % 0x8000)
}

// The place that a holder of a link names.
pub fn hole_from(b: &[u8], shape: &ZoneShape, holder: Option<u32>) -> Option<u32>
    requires shape { IsShapeOf b.now shape.now }
    requires within { IfSome holder (λ hole. hole + shape.now.idlen ≤ 8 * length b.now) }
    ensures { result ≡ hole_from shape.now (bits b.now) holder }
{
    match holder {
        None => first_hole(b),
        Some(hole) => next_hole(b, shape, hole),
    }
}

// The last hole before `at`, which is the start of a run: it holds the link to what comes then.
pub fn holder_before(b: &[u8], shape: &ZoneShape, at: u32) -> Option<u32>
    requires shape { IsShapeOf b.now shape.now }
    requires zone { IsZone shape.now b.now }
    requires from_first { shape.now.first ≤ at }
    ensures holder { (front rest : List Run) (run : Run) → Zone shape.now b.now (front ++ run ∷ rest) → run.start ≡ at → result ≡ holder_after front }
    ensures within { IfSome result (λ hole. (shape.now.first ≤ hole) × (hole + shape.now.idlen ≤ shape.now.end)) }
    ensures before { link_place result < at }
{
    let mut holder = None;
    let mut next = first_hole(b);
    while let Some(hole) = next {
        if hole >= at {
            break;
        }
        holder = Some(hole);
        next = next_hole(b, shape, hole);
    }
    holder
}

// The link that names a place, or none.
fn link_to(from: u32, place: Option<u32>) -> u32
    requires { IfSome place (λ place. from ≤ place) }
    ensures { result ≡ link_to from place }
{
    match place {
        None => 0,
        Some(place) => place - from,
    }
}

// Makes a holder name a place further on, or none. A link is written in full: FreeLink with its top bit, and a hole's
// link as its whole field.
pub fn set_link(b: &mut [u8], shape: &ZoneShape, holder: Option<u32>, next: Option<u32>)
    requires shape { IsShapeOf b.old shape.now }
    requires hole { IfSome holder (λ hole. (shape.now.first ≤ hole) × (hole + shape.now.idlen ≤ shape.now.end)) }
    requires onward { IfSome next (λ place. (link_place holder < place) × (place ≤ shape.now.end)) }
    ensures names { hole_from shape.now (bits b.new) holder ≡ next }
    ensures same { SameOutside (bits b.old) (bits b.new) (link_place holder) (link_end shape.now holder) }
    ensures written { MatchOption holder (slice_index (bits b.new) 23 ≡ 1) (λ hole. field_at shape.now (bits b.new) hole < 2 ^ 15) }
{
    match holder {
        None => put_bits(b, FREE_LINK, 16, FREE_LINK_TOP + link_to(FREE_LINK, next)),
        Some(hole) => put_bits(b, hole, u32::from(shape.idlen), link_to(hole, next)),
    }
}
