// Directories of 2048 bytes, with each place taken, read and written.
use crate::timing::print_rate;
use fc_bytes::small_dir_check;
use fc_smalldir::{SmallDir, SmallForm};
use std::alloc::Global;
use std::io;
use std::io::Print;
use std::rt::Clock;
use std::time::Instant;

const PASSES: u32 = 20_000;

// A directory of files A0, A1, .. up to H6, in stored order.
fn full() -> [u8; 2048] {
    let mut bytes = [0; 2048];
    bytes[1..5].copy_from_slice(b"Nick");
    bytes[2043..2047].copy_from_slice(b"Nick");
    for i in 0..77 {
        let at = 5 + 26 * i;
        bytes[at] = b'A' + (i / 10) as u8;
        bytes[at + 1] = b'0' + (i % 10) as u8;
        bytes[at + 2] = 13;
    }
    bytes[2047] = small_dir_check(&bytes, 2007);
    bytes
}

// Reads the directory and writes it to its place again.
fn is_rewritten(alloc: Global, bytes: &mut [u8; 2048]) -> bool {
    match SmallDir::read(alloc, bytes, SmallForm::Bytes2048) {
        Ok(mut dir) => {
            dir.touch();
            dir.write(bytes);
            true
        }
        Err(_) => false,
    }
}

pub fn run<R: Print + Clock>(rt: &R, alloc: Global) -> io::Result<()> {
    let mut bytes = full();
    let start = Instant::now(rt)?;
    let mut done = 0u32;
    for _ in 0..PASSES {
        if is_rewritten(alloc, &mut bytes) {
            done = done.saturating_add(1);
        }
    }
    print_rate(
        rt,
        "directories read and written",
        u64::from(done),
        "directories",
        start,
    )
}
