// Edits of a zone in its sector. Each changes the list of runs as it says and leaves every other run.

ghost use Rattle.std.specs.Prelude.{◌≡◌, ◌+◌, ◌-◌, ◌*◌, ◌^◌, ◌<◌, ◌≤◌, ◌⊎◌, ◌++◌, ◌∷◌, [], List, length, slice_range};
ghost use Rattle.fc_bytes.specs.Bits.{AreZero, SameOutside, bits, num};
ghost use Rattle.fc_zone.specs.declared.Run.{Run};
ghost use Rattle.fc_zone.specs.declared.ZoneShape.{ZoneShape};
ghost use Rattle.fc_zone.specs.Edits.{CanBeBlank, HasHoleAt, HasRunAt, HasRunToSplit, HasRunsToMerge, IsWritten, KeepsBytes, KeepsOutside, Merges, Relabels, Splits, WritesLinks, sealed, whole_hole};
ghost use Rattle.fc_zone.specs.Reading.{runs_of};
ghost use Rattle.fc_zone.specs.Zone.{IsRun, IsShapeOf, Zone};

use crate::links::{holder_before, hole_from, next_hole, set_link};
use crate::reading::{end_of, kind_at};
use crate::{RunKind, ZoneShape};
use fc_bytes::{are_bytes, get_bits, put_bits, zone_check};

/// Turns the hole that begins at `start` into a run of an identifier.
///
/// As with the edits below, the sector is one that `check_zone` passes. The links that an edit changes it writes in
/// full (FreeLink with its top bit, and a hole's link as its whole field), and every other link keeps all its bits.
/// Every bit outside FreeLink and the zone's bits stays, ZoneCheck too, which `seal` writes.
pub fn label(b: &mut [u8], shape: &ZoneShape, start: u32, id: u32)
    requires shape { IsShapeOf b.old shape.now }
    requires hole { HasHoleAt shape.now b.old start }
    requires some_id { 0 < id }
    requires id_fits { id < 2 ^ shape.now.idlen }
    ensures runs { Relabels shape.now b.old b.new start (RunKind.Id id) }
    ensures links { WritesLinks shape.now (bits b.old) (bits b.new) (runs_of shape.now b.old) (runs_of shape.now b.new) }
    ensures outside { KeepsOutside shape.now b.old b.new }
    ensures bytes { KeepsBytes shape.now b.old b.new }
{
    are_bytes(b);
    let holder = holder_before(b, shape, start);
    let next = next_hole(b, shape, start);
    set_link(b, shape, holder, next);
    put_bits(b, start, u32::from(shape.idlen), id);
}

/// Turns the run that begins at `start` into a hole, and joins it with none.
pub fn release(b: &mut [u8], shape: &ZoneShape, start: u32)
    requires shape { IsShapeOf b.old shape.now }
    requires run { HasRunAt shape.now b.old start }
    ensures runs { Relabels shape.now b.old b.new start RunKind.Hole }
    ensures links { WritesLinks shape.now (bits b.old) (bits b.new) (runs_of shape.now b.old) (runs_of shape.now b.new) }
    ensures outside { KeepsOutside shape.now b.old b.new }
    ensures bytes { KeepsBytes shape.now b.old b.new }
{
    are_bytes(b);
    let holder = holder_before(b, shape, start);
    let next = hole_from(b, shape, holder);
    if next == Some(start) {
        return;
    }
    set_link(b, shape, Some(start), next);
    set_link(b, shape, holder, Some(start));
}

/// Cuts the run that begins at `start` into two of its kind, the first of `len` bits. Both parts have at least `min`
/// bits and are multiples of `q`.
pub fn split(b: &mut [u8], shape: &ZoneShape, start: u32, len: u32)
    requires shape { IsShapeOf b.old shape.now }
    requires run { HasRunToSplit shape.now b.old start len }
    ensures runs { Splits shape.now b.old b.new start len }
    ensures links { WritesLinks shape.now (bits b.old) (bits b.new) (runs_of shape.now b.old) (runs_of shape.now b.new) }
    ensures outside { KeepsOutside shape.now b.old b.new }
    ensures bytes { KeepsBytes shape.now b.old b.new }
{
    are_bytes(b);
    let middle = start + len;
    let kind = kind_at(b, shape, start);
    put_bits(b, middle - 1, 1, 1);
    match kind {
        RunKind::Hole => {
            let next = next_hole(b, shape, start);
            set_link(b, shape, Some(middle), next);
            set_link(b, shape, Some(start), Some(middle));
        }
        RunKind::Id(id) => put_bits(b, middle, u32::from(shape.idlen), id),
    }
}

// The kind of the run that begins at `start` and of the next, from `middle` on, which is of its kind. Two runs of an identifier have
// the same field, so two whose fields differ are holes: the chain of holes is mostly not followed.
fn kind_of_pair(b: &[u8], shape: &ZoneShape, start: u32, middle: u32) -> RunKind
    requires shape { IsShapeOf b.now shape.now }
    requires runs { HasRunsToMerge shape.now b.now start }
    requires middle { IsRun shape.now (bits b.now) start middle }
    ensures { (front rest : List Run) (run : Run) → Zone shape.now b.now (front ++ run ∷ rest) → run.start ≡ start → result ≡ run.kind }
{
    let field = u32::from(shape.idlen);
    if get_bits(b, start, field) != get_bits(b, middle, field) {
        return RunKind::Hole;
    }
    kind_at(b, shape, start)
}

/// Joins the run that begins at `start` with the next, which is of its kind: both are holes, or of one identifier.
pub fn merge(b: &mut [u8], shape: &ZoneShape, start: u32)
    requires shape { IsShapeOf b.old shape.now }
    requires runs { HasRunsToMerge shape.now b.old start }
    ensures runs { Merges shape.now b.old b.new start }
    ensures links { WritesLinks shape.now (bits b.old) (bits b.new) (runs_of shape.now b.old) (runs_of shape.now b.new) }
    ensures outside { KeepsOutside shape.now b.old b.new }
    ensures bytes { KeepsBytes shape.now b.old b.new }
{
    are_bytes(b);
    let middle = end_of(b, shape, start);
    if let RunKind::Hole = kind_of_pair(b, shape, start, middle) {
        let next = next_hole(b, shape, middle);
        set_link(b, shape, Some(start), next);
    }
    // The first run's last bit, and the field after it.
    put_bits(b, middle - 1, u32::from(shape.idlen) + 1, 0);
}

// Clears the bits from `from` up to `end`.
fn clear(b: &mut [u8], from: u32, end: u32)
    requires order { from ≤ end }
    requires within { end ≤ 8 * length b.old }
    ensures zeros { AreZero (bits b.new) from end }
    ensures same { SameOutside (bits b.old) (bits b.new) from end }
{
    let mut at = from;
    while at < end {
        let count = (end - at).min(24);
        put_bits(b, at, count, 0);
        at += count;
    }
}

/// Makes all the zone's bits one hole, whatever the sector held before. The sector has 256, 512 or 1024 bytes; the
/// shape's bits lie in it, from bit 32 on at the earliest, are more than a field, and begin and end on a sector of the
/// disc. FreeLink names the hole, with its top bit set; no other bit changes.
pub fn blank(b: &mut [u8], shape: &ZoneShape)
    requires { CanBeBlank b.old shape.now }
    ensures zone { Zone shape.now b.new (whole_hole shape.now ∷ []) }
    ensures written { IsWritten shape.now (bits b.new) (whole_hole shape.now ∷ []) }
    ensures zeros { AreZero (bits b.new) shape.now.first (shape.now.end - 1) }
    ensures free_link { num (slice_range (bits b.new) 8 24) ≡ 0x8000 + (shape.now.first - 8) }
    ensures outside { KeepsOutside shape.now b.old b.new }
{
    let last = shape.end - 1;
    clear(b, shape.first, last);
    put_bits(b, last, 1, 1);
    put_bits(b, 8, 16, 0x8000 + (shape.first - 8));
}

/// Writes the right ZoneCheck into byte 0, and changes no other byte. The sector has 256, 512 or 1024 bytes.
pub fn seal(b: &mut [u8])
    requires { (length b.old ≡ 256) ⊎ ((length b.old ≡ 512) ⊎ (length b.old ≡ 1024)) }
    ensures sector { b.new ≡ sealed b.old }
    ensures zone { (shape : ZoneShape) (runs : List Run) → 8 ≤ shape.first → Zone shape b.old runs → Zone shape b.new runs }
{
    b[0] = zone_check(b);
}
