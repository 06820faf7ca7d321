// Disc records, maps and boot blocks of fresh volumes.
ghost use Rattle.std.specs.Prelude.{slice_set, ◌≡◌, ◌≤◌, ◌<◌, ◌^◌};
ghost use Rattle.fc_bytes.specs.Bits.{overwritten};
ghost use Rattle.fc_format.specs.Zones.{IsRecordOfF};
ghost use Rattle.fc_format.specs.Fresh.{boot_block, e_map, e_plus_map, e_record, f_plus_zone2, f_record, f_zone0, f_zone1, f_zone2, f_zone3, old_map_with, plus_record, zeros};

use crate::zones::lay_out;
use fc_bytes::{boot_check, put, put_le24};
use fc_oldmap::seal_half;
use fc_zone::{ZoneShape, seal};

/// A disc record.
pub type Record = [u8; 60];

/// A zone's sector.
pub type Zone = [u8; 1024];

// The zone of an E disc: a bit stands for 128 bytes.
const ONE_ZONE: ZoneShape = ZoneShape {
    zone: 0,
    first: 512,
    end: 6912,
    base: 0,
    idlen: 15,
    q: 8,
    min: 16,
};

// The zones of an F disc: a bit stands for 64 bytes.
const ZONE_0: ZoneShape = ZoneShape {
    zone: 0,
    first: 512,
    end: 6624,
    base: 0,
    idlen: 15,
    q: 16,
    min: 16,
};

const ZONE_1: ZoneShape = ZoneShape {
    zone: 1,
    first: 32,
    end: 6624,
    base: 6112,
    idlen: 15,
    q: 16,
    min: 16,
};

const ZONE_2: ZoneShape = ZoneShape {
    zone: 2,
    first: 32,
    end: 6624,
    base: 12704,
    idlen: 15,
    q: 16,
    min: 16,
};

const ZONE_3: ZoneShape = ZoneShape {
    zone: 3,
    first: 32,
    end: 6336,
    base: 19296,
    idlen: 15,
    q: 16,
    min: 16,
};

// The record of an E disc.
fn e_record() -> Record
    ensures { result ≡ e_record }
{
    let mut bytes = [0; 60];
    let filled = b"\x0A\x05\x02\x02\x0F\x07\x01\0\0\x01\x20\x05\x03\x02\0\0\0\x80\x0C";
    bytes[..filled.len()].copy_from_slice(filled);
    bytes
}

/// The record of an F disc.
pub fn f_record() -> Record
    ensures { result ≡ f_record }
{
    let mut bytes = [0; 60];
    let filled = b"\x0A\x0A\x02\x04\x0F\x06\x01\0\0\x04\x40\x06\x09\x02\0\0\0\0\x19";
    bytes[..filled.len()].copy_from_slice(filled);
    bytes
}

/// The record with big directories: format version 1, and the root at &301, of 2048 bytes.
pub fn with_big_root(of: &Record) -> Record
    ensures { result ≡ plus_record of.now }
{
    let mut bytes = *of;
    bytes[12] = 0x01;
    bytes[13] = 0x03;
    bytes[44] = 1;
    bytes[49] = 8;
    bytes
}

// Zone 0 with a record and CrossCheck, before its runs are laid out.
fn with_record(of: &Record) -> Zone
    ensures { result ≡ slice_set (overwritten (zeros 1024) 4 of.now) 3 255 }
{
    let mut zone = [0; 1024];
    put(&mut zone, 4, of);
    zone[3] = 255;
    zone
}

/// The map of an E disc: identifier 2 with 32 bits, and one hole.
pub fn e_map() -> Zone
    ensures { result ≡ e_map }
{
    let mut zone = with_record(&e_record());
    lay_out(&mut zone, &ONE_ZONE, &[(32, 2)]);
    seal(&mut zone);
    zone
}

/// The map of an E+ disc: identifiers 2 and 3 with 16 bits each, and one hole.
pub fn e_plus_map() -> Zone
    ensures { result ≡ e_plus_map }
{
    let mut zone = with_record(&with_big_root(&e_record()));
    lay_out(&mut zone, &ONE_ZONE, &[(16, 2), (16, 3)]);
    seal(&mut zone);
    zone
}

/// Zone 0 of an F disc with this record: identifier 2 with 64 bits, and one hole.
pub fn f_zone0(of: &Record) -> Zone
    requires { IsRecordOfF of.now }
    ensures { result ≡ f_zone0 of.now }
{
    let mut zone = with_record(of);
    lay_out(&mut zone, &ZONE_0, &[(64, 2)]);
    seal(&mut zone);
    zone
}

/// Zone 1 of an F disc: one hole.
pub fn f_zone1() -> Zone
    ensures { result ≡ f_zone1 }
{
    let mut zone = [0; 1024];
    lay_out(&mut zone, &ZONE_1, &[]);
    seal(&mut zone);
    zone
}

/// Zone 2 of an F disc: identifier 2 with 160 bits, and one hole.
pub fn f_zone2() -> Zone
    ensures { result ≡ f_zone2 }
{
    let mut zone = [0; 1024];
    lay_out(&mut zone, &ZONE_2, &[(160, 2)]);
    seal(&mut zone);
    zone
}

/// Zone 2 of an F+ disc: identifier 2 with 128 bits, identifier 3 with 32 bits, and one hole.
pub fn f_plus_zone2() -> Zone
    ensures { result ≡ f_plus_zone2 }
{
    let mut zone = [0; 1024];
    lay_out(&mut zone, &ZONE_2, &[(128, 2), (32, 3)]);
    seal(&mut zone);
    zone
}

/// Zone 3 of an F disc: one hole up to the disc's end.
pub fn f_zone3() -> Zone
    ensures { result ≡ f_zone3 }
{
    let mut zone = [0; 1024];
    lay_out(&mut zone, &ZONE_3, &[]);
    seal(&mut zone);
    zone
}

/// The boot block with this record.
pub fn boot_block(of: &Record) -> [u8; 512]
    ensures { result ≡ boot_block of.now }
{
    let mut block = [0; 512];
    put(&mut block, 448, of);
    block[511] = boot_check(&block);
    block
}

/// An old map of a disc of so many units, with one hole from this unit to the disc's end.
pub fn old_map(units: u32, first: u32) -> [u8; 512]
    requires order { first ≤ units }
    requires fits { units < 2 ^ 24 }
    ensures { result ≡ old_map_with units first }
{
    let mut map = [0; 512];
    put_le24(&mut map, 0, first);
    put_le24(&mut map, 252, units);
    put_le24(&mut map, 256, units - first);
    map[510] = 3;
    seal_half(&mut map[..256]);
    seal_half(&mut map[256..]);
    map
}
