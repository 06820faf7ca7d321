// Bytes a second of each check of a disc structure.
use crate::timing::print_rate;
use fc_bytes::{big_dir_check, boot_check, cross_total, old_check, small_dir_check, zone_check};
use std::alloc::Global;
use std::io;
use std::io::Print;
use std::rt::Clock;
use std::time::Instant;

// The bytes that a pass goes over, and the number of passes: 64 MiB in all.
const BYTES: usize = 1 << 20;

const PASSES: u8 = 64;

fn boot_blocks(bytes: &[u8]) -> u8 {
    let mut all = 0;
    for i in 0..bytes.len() / 512 {
        all ^= boot_check(&bytes[512 * i..512 * i + 512]);
    }
    all
}

fn zones(bytes: &[u8]) -> u8 {
    let mut all = 0;
    for i in 0..bytes.len() / 1024 {
        all ^= zone_check(&bytes[1024 * i..1024 * i + 1024]);
    }
    all
}

fn halves(bytes: &[u8]) -> u8 {
    let mut all = 0;
    for i in 0..bytes.len() / 256 {
        all ^= old_check(&bytes[256 * i..256 * i + 256], 255);
    }
    all
}

fn small_directories(bytes: &[u8]) -> u8 {
    let mut all = 0;
    for i in 0..bytes.len() / 2048 {
        all ^= small_dir_check(&bytes[2048 * i..2048 * i + 2048], 2007);
    }
    all
}

fn big_directory(bytes: &[u8]) -> u8 {
    if bytes.len() < 8 {
        return 0;
    }
    big_dir_check(bytes, bytes.len() - 8)
}

// Runs a check over the buffer again and again. A byte changes before each pass, so that none can be
// left out.
fn time<R: Print + Clock, F: Fn(&[u8]) -> u8>(
    rt: &R,
    what: &str,
    buffer: &mut [u8],
    pass: F,
) -> io::Result<()>
    requires { F.IsAlwaysCallable pass }
{
    let start = Instant::now(rt)?;
    let mut all = 0;
    for i in 0..PASSES {
        if let Some(byte) = buffer.first_mut() {
            *byte = i;
        }
        all ^= pass(buffer);
    }
    print_rate(rt, what, BYTES as u64 * u64::from(PASSES), "bytes", start)?;
    println!(rt; "({all})")
}

pub fn run<R: Print + Clock>(rt: &R, alloc: Global) -> io::Result<()> {
    let mut buffer = vec![in alloc; 0xa5u8; BYTES]?;
    time(rt, "boot checks", &mut buffer, boot_blocks)?;
    time(rt, "zone checks", &mut buffer, zones)?;
    time(
        rt,
        "cross totals",
        &mut buffer,
        |map| cross_total(map, 1024),
    )?;
    time(rt, "old checks", &mut buffer, halves)?;
    time(
        rt,
        "checks of small directories",
        &mut buffer,
        small_directories,
    )?;
    time(rt, "checks of big directories", &mut buffer, big_directory)
}
