// Reading a disc record, and the conditions that a valid one meets.
ghost use Rattle.std.specs.Prelude.{◌≡◌, ◌≤◌, ◌<◌, length, Some, None, IfOk, IfErr};
ghost use Rattle.fc_record.specs.Record.{record_of, geometry, is_sector_right, is_idlen_right, is_bit_right, are_zones_right, is_spare_right, is_size_right, is_root_right, is_root_size_right, record_fault, IsRecord};

use crate::measures::{measured, zone_start};
use crate::{DiscRecord, Geometry, RecordFault};
use byteorder::{ByteOrder, LittleEndian};
use fc_bytes::is_big_size;

/// The most bytes of a disc.
const LONGEST_DISC: u64 = 1 << 40;

/// The fields of a record in its 60 bytes, which need not make a valid one.
pub fn parse_record(b: &[u8]) -> DiscRecord
    requires { length b.now ≡ 60 }
    ensures { result ≡ record_of b.now }
{
    let mut raw = [0u8; 60];
    raw.copy_from_slice(b);
    DiscRecord {
        log2_sector: b[0],
        idlen: b[4],
        log2_bit: b[5],
        zones: u16::from(b[9]) + 256 * u16::from(b[42]),
        spare: LittleEndian::read_u16(&b[10..]),
        root: LittleEndian::read_u32(&b[12..]),
        size: disc_size(b),
        log2_share: b[40] % 16,
        version: LittleEndian::read_u32(&b[44..]),
        root_size: LittleEndian::read_u32(&b[48..]),
        raw,
    }
}

// The disc's bytes, whose two words stand apart.
fn disc_size(b: &[u8]) -> u64
    requires { length b.now ≡ 60 }
    ensures { result ≡ (record_of b.now).size }
{
    let low = u64::from(LittleEndian::read_u32(&b[16..]));
    let high = u64::from(LittleEndian::read_u32(&b[36..]));
    low + (high << 32)
}

fn is_sector_right(r: &DiscRecord) -> bool
    ensures { result ≡ is_sector_right r.now }
{
    r.log2_sector >= 8 && r.log2_sector <= 10
}

fn is_idlen_right(r: &DiscRecord) -> bool
    requires { r.now.log2_sector ≤ 10 }
    ensures { result ≡ is_idlen_right r.now }
{
    let most = if r.version == 0 { 15 } else { 19 };
    r.idlen >= r.log2_sector + 3 && r.idlen <= most
}

fn is_bit_right(r: &DiscRecord) -> bool
    ensures { result ≡ is_bit_right r.now }
{
    r.log2_bit >= 5 && r.log2_bit <= 20
}

fn are_zones_right(r: &DiscRecord) -> bool
    ensures { result ≡ are_zones_right r.now }
{
    r.zones >= 1
}

fn is_spare_right(r: &DiscRecord, g: &Geometry) -> bool
    requires { g.now ≡ geometry r.now }
    ensures { result ≡ is_spare_right r.now }
{
    r.spare >= 32 && g.zone_size >= 480 && g.zone_size - 480 >= g.min
}

fn is_size_right(r: &DiscRecord, g: &Geometry) -> bool
    requires of { g.now ≡ geometry r.now }
    requires sector { r.now.log2_sector ≤ 10 }
    requires bit { r.now.log2_bit ≤ 20 }
    requires zones { 1 ≤ r.now.zones }
    ensures { result ≡ is_size_right r.now }
{
    let zones = u64::from(r.zones);
    let sector = u64::from(g.sector);
    r.size > 0
        && r.size % sector == 0
        && r.size <= LONGEST_DISC
        && zone_start(g.zone_size, r.zones - 1) < g.disc_bits
        && g.disc_bits <= (zones * u64::from(g.zone_size)).saturating_sub(480)
        && (g.map_sector + 2 * zones) * sector <= r.size
}

/// Whether the root's indirect address is one that a valid record may have: its identifier is at least 2, and it is
/// below 2^24 if the format version is 0.
pub fn is_root_right(r: &DiscRecord) -> bool
    ensures { result ≡ is_root_right r.now }
{
    r.root / 256 >= 2 && (r.version > 0 || r.root < 1 << 24)
}

/// Whether the root's size is one that a valid record may have: if the format version isn't 0, one of a big directory.
pub fn is_root_size_right(r: &DiscRecord) -> bool
    ensures { result ≡ is_root_size_right r.now }
{
    r.version == 0 || is_big_size(r.root_size as usize)
}

// The first condition that a record fails.
fn first_fault(r: &DiscRecord) -> Option<RecordFault>
    requires { r.now.log2_share < 16 }
    ensures { result ≡ record_fault r.now }
{
    if !is_sector_right(r) {
        return fault(0, u64::from(r.log2_sector));
    }
    if !is_idlen_right(r) {
        return fault(4, u64::from(r.idlen));
    }
    if !is_bit_right(r) {
        return fault(5, u64::from(r.log2_bit));
    }
    if !are_zones_right(r) {
        return fault(9, u64::from(r.zones));
    }
    let g = measured(r);
    if !is_spare_right(r, &g) {
        return fault(10, u64::from(r.spare));
    }
    if !is_size_right(r, &g) {
        return fault(16, r.size);
    }
    if !is_root_right(r) {
        return fault(12, u64::from(r.root));
    }
    if !is_root_size_right(r) {
        return fault(48, u64::from(r.root_size));
    }
    None
}

fn fault(field: u8, value: u64) -> Option<RecordFault>
    ensures { result ≡ Some (record { field = field; value = value }) }
{
    Some(RecordFault { field, value })
}

/// Reads the 60 bytes of a disc record, which may stand in a boot block or in zone 0 of a map. If it isn't valid
/// (docs/FORMAT.md, "Valid records"), the answer is the first condition that fails, by the offset and the value of
/// its field.
pub fn read_record(b: &[u8]) -> Result<DiscRecord, RecordFault>
    requires { length b.now ≡ 60 }
    ensures read { IfOk result (λ r. r ≡ record_of b.now) }
    ensures valid { IfOk result IsRecord }
    ensures fault { IfErr result (λ f. record_fault (record_of b.now) ≡ Some f) }
{
    let record = parse_record(b);
    match first_fault(&record) {
        None => Ok(record),
        Some(fault) => Err(fault),
    }
}
