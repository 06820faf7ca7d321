// Plans on a disc of 4,000 zones, whose free space lies in few holes or in many.
ghost use Rattle.std.specs.Prelude.{◌≡◌, ◌≤◌, length};

use crate::maps::{SECTOR, ZONES, invalid, loaded, put_run};
use crate::timing::print_rate;
use fc_bytes::put_bits;
use fc_newmap::NewMap;
use fc_plan::Supply;
use std::alloc::Global;
use std::io::{self, Print};
use std::rt::Clock;
use std::time::Instant;

// The numbers of holes.
const HOLES: [u32; 2] = [5_000, 50_000];

// The zones that have holes: all but zone 0.
const WITH_HOLES: u32 = 3999;

// The bits of the run before each hole, and of the least hole; others have up to 200 more.
const RUN_BITS: u32 = 300;

const HOLE_BITS: u32 = 100;

// The identifier of all runs.
const FILLER: u32 = 3;

// Half the bits of the holes: their lengths are 199 bits on the average, and a bit is 1,024 bytes.
const BYTES_A_HOLE: u64 = 1024 * 199 / 2;

// The bits of a zone's i-th hole.
fn hole_bits(z: u32, i: u32) -> u32
    requires zone { z ≤ 4000 }
    requires hole { i ≤ 50000 }
    ensures { result ≤ 299 }
{
    HOLE_BITS + (z * 7 + i * 37) % 199
}

// Fills a zone with runs and so many holes, each after a run. What is left is a run too.
fn put_zone(sector: &mut [u8], z: u32, holes: u32)
    requires size { length sector.old ≡ 1024 }
    requires zone { z ≤ 4000 }
    requires holes { holes ≤ 50000 }
    ensures { length sector.new ≡ 1024 }
{
    let mut at = if z == 0 { 512 } else { 32 };
    // Where the link stands that names the next hole, and the bit from which it counts.
    let mut link = 8;
    for i in 0..holes {
        let len = hole_bits(z, i);
        let hole = at + RUN_BITS;
        if hole + len > 8000 {
            break;
        }
        put_run(sector, at, RUN_BITS, FILLER);
        put_run(sector, hole, len, 0);
        put_bits(sector, link, 15, hole - link);
        link = hole;
        at = hole + len;
    }
    put_run(sector, at, 8192 - at, FILLER);
    put_bits(sector, 23, 1, 1);
}

// How many of so many holes lie in the first zones.
fn holes_before(zones: u32, holes: u32) -> u32
    requires zones { zones ≤ 4000 }
    requires holes { holes ≤ 50000 }
{
    zones * holes / WITH_HOLES
}

// The map with so many holes.
fn made(alloc: Global, holes: u32) -> io::Result<NewMap>
    requires { holes ≤ 50000 }
{
    let mut zones = vec![in alloc; 0u8; SECTOR * usize::from(ZONES)]?;
    for z in 0..u32::from(ZONES) {
        let before = if z == 0 {
            0
        } else {
            holes_before(z - 1, holes)
        };
        let count = holes_before(z, holes).saturating_sub(before).min(50);
        let at = SECTOR * z as usize;
        put_zone(&mut zones[at..at + SECTOR], z, count);
    }
    loaded(zones)
}

// How many parts an object has that takes half the bits of so many holes.
fn count_parts(alloc: Global, map: &NewMap, holes: u32) -> io::Result<u64>
    requires { holes ≤ 50000 }
{
    let Ok(mut supply) = Supply::new(alloc, map) else {
        return Err(invalid());
    };
    match supply.plan(alloc, BYTES_A_HOLE * u64::from(holes.max(1))) {
        Ok(plan) => Ok(plan.parts.len() as u64),
        Err(_) => Err(invalid()),
    }
}

// Prints what a plan costs among so many holes.
fn plan_among<R: Print + Clock>(rt: &R, alloc: Global, holes: u32) -> io::Result<()>
    requires { holes ≤ 50000 }
{
    let map = made(alloc, holes)?;
    println!(rt; "holes: {holes}")?;
    let start = Instant::now(rt)?;
    let parts = count_parts(alloc, &map, holes)?;
    print_rate(rt, "parts planned", parts, "parts", start)
}

pub fn run<R: Print + Clock>(rt: &R, alloc: Global) -> io::Result<()> {
    plan_among(rt, alloc, HOLES[0])?;
    plan_among(rt, alloc, HOLES[1])
}
