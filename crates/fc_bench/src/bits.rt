// Fields of bits read one after another, and 1 bits looked for.
use crate::timing::print_rate;
use fc_bytes::{get_bits, next_one};
use std::alloc::Global;
use std::io;
use std::io::Print;
use std::rt::Clock;
use std::time::Instant;

const BYTES: usize = 1024;

const FIELDS: u32 = 546;

const PASSES: u32 = 20_000;

pub fn run<R: Print + Clock>(rt: &R, _alloc: Global) -> io::Result<()> {
    let mut sector = [0u8; BYTES];
    let start = Instant::now(rt)?;
    let mut all = 0;
    for pass in 0..PASSES {
        sector[0] = (pass % 256) as u8;
        for field in 0..FIELDS {
            all ^= get_bits(&sector, 15 * field, 15);
        }
    }
    print_rate(
        rt,
        "fields of 15 bits read",
        u64::from(PASSES) * u64::from(FIELDS),
        "fields",
        start,
    )?;

    let start = Instant::now(rt)?;
    for pass in 0..PASSES {
        sector[0] = (pass % 256) as u8;
        all ^= next_one(&sector, 8, 8192).unwrap_or(0);
    }
    print_rate(
        rt,
        "zeros searched",
        u64::from(PASSES) * 1024,
        "bytes",
        start,
    )?;
    println!(rt; "({all})")
}
