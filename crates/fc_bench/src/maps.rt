// A map of 4,000 zones walked, and 50,000 objects found on it: an object of 190 bits in each run, and a hole in each zone.
ghost use Rattle.std.specs.Prelude.{◌≡◌, ◌≤◌, length};

use crate::timing::print_rate;
use fc_bytes::put_bits;
use fc_newmap::NewMap;
use fc_record::measures::geometry;
use fc_record::read_record;
use fc_space::Space;
use std::alloc::Global;
use std::io::{self, ErrorKind, Print};
use std::rt::Clock;
use std::time::Instant;

/// The zones of the map.
pub const ZONES: u16 = 4000;

/// The bytes of a sector.
pub const SECTOR: usize = 1024;

// The bits of an identifier, and the identifiers whose runs are looked for in one zone first.
const ID_BITS: u32 = 19;

const IDS_PER_ZONE: u32 = 408;

const RUN_BITS: u32 = 190;

const RUNS: u32 = 40;

// The zones whose first identifiers have so few bits.
const FULL_ZONES: u16 = 1285;

const OBJECTS: u32 = 50_000;

// The record of a disc of 33,422,868,480 bytes, in sectors and map bits of 1024 bytes, with big directories.
fn record() -> [u8; 60] {
    let mut raw = [0; 60];
    raw[..20].copy_from_slice(b"\x0a\0\0\0\x13\x0a\0\0\0\xa0\x20\0\0\x03\0\0\0\x80\x28\xc8");
    raw[36..50].copy_from_slice(b"\x07\0\0\0\0\0\x0f\0\x01\0\0\0\0\x08");
    raw
}

/// Writes a run's field and its last bit.
pub fn put_run(sector: &mut [u8], start: u32, len: u32, field: u32)
    requires size { length sector.old ≡ 1024 }
    requires start { start ≤ 8192 }
    requires len { len ≤ 8192 }
    ensures { length sector.new ≡ 1024 }
{
    if len > ID_BITS && start + len <= 8192 && field < 1 << ID_BITS {
        put_bits(sector, start, ID_BITS, field);
        put_bits(sector, start + len - 1, 1, 1);
    }
}

// Fills a zone with runs of identifiers that are looked for in it first, as far as there are such, and one hole.
fn put_zone(sector: &mut [u8], z: u16)
    requires size { length sector.old ≡ 1024 }
    ensures { length sector.new ≡ 1024 }
{
    let first = if z == 0 { 512 } else { 32 };
    let runs = if z < FULL_ZONES { RUNS } else { 0 };
    for i in 0..runs {
        let id = u32::from(z) * IDS_PER_ZONE + 3 + i;
        put_run(sector, first + RUN_BITS * i, RUN_BITS, id);
    }
    let hole = first + RUN_BITS * runs;
    put_run(sector, hole, 8192 - hole, 0);
    put_bits(sector, 8, 15, hole - 8);
    put_bits(sector, 23, 1, 1);
}

/// The data isn't what it should be.
pub fn invalid() -> io::Error {
    io::Error::from(ErrorKind::InvalidData)
}

// The map, loaded.
fn made(alloc: Global) -> io::Result<NewMap> {
    let mut zones = vec![in alloc; 0u8; SECTOR * usize::from(ZONES)]?;
    for z in 0..ZONES {
        let at = SECTOR * usize::from(z);
        put_zone(&mut zones[at..at + SECTOR], z);
    }
    loaded(zones)
}

/// The map of these zones, which get the disc record.
pub fn loaded(zones: Vec<u8>) -> io::Result<NewMap>
    requires { length zones.items ≡ 4096000 }
{
    let mut zones = zones;
    let raw = record();
    zones[4..64].copy_from_slice(&raw);
    let Ok(r) = read_record(&raw) else {
        return Err(invalid());
    };
    let g = geometry(&r);
    if g.zones != ZONES || g.sector != 1024 {
        return Err(invalid());
    }
    match NewMap::load(zones, g) {
        Ok(map) => Ok(map),
        Err(_) => Err(invalid()),
    }
}

// The indirect disc address of an object of a number.
fn address(n: u32) -> u32
    requires { n ≤ 50000 }
{
    256 * (n / RUNS * IDS_PER_ZONE + 3 + n % RUNS)
}

// How many objects have a place.
fn count_found(alloc: Global, space: &Space) -> u64 {
    let mut found = 0u64;
    for n in 0..OBJECTS {
        if space
            .place_of(alloc, address(n), 1024 * u64::from(RUN_BITS))
            .is_ok()
        {
            found = found.saturating_add(1);
        }
    }
    found
}

pub fn run<R: Print + Clock>(rt: &R, alloc: Global) -> io::Result<()> {
    let start = Instant::now(rt)?;
    let map = made(alloc)?;
    print_rate(
        rt,
        "zones made and loaded",
        u64::from(ZONES),
        "zones",
        start,
    )?;
    let start = Instant::now(rt)?;
    let free = map.free_bits();
    print_rate(rt, "zones walked", u64::from(ZONES), "zones", start)?;
    println!(rt; "free map bits: {free}")?;
    let space = Space::NewMapped(map);
    let start = Instant::now(rt)?;
    let found = count_found(alloc, &space);
    print_rate(rt, "objects found", found, "objects", start)
}
