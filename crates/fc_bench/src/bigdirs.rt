// Big directories of four sizes that are read, put into and written, as many of a size as have `ENTRIES` entries together.
//
// All directories of a size stand in memory at once, which is more than caches hold, and each step goes over all of them
// before the next begins: one name is put into all before another, too. So each call finds its directory as cold as any
// other, and a small one isn't at an advantage. The look for a name before it is put in is the caller's: it goes over all
// directories in a step of its own, and is in no time but its own. The name for which the lists have to grow, which
// happens once in as many names as they hold, is a step of its own, too: whether the allocator then moves what they hold
// depends on the size. All sizes do the same work, so that their times are compared as they stand. Rounds go over all
// sizes, and the least time of each is printed, since other work slows some of them down.
use crate::timing::{micros_since, rate};
use crate::visits::{enter_all, look};
use fc_bigdir::BigDir;
use fc_bytes::big_dir_check;
use fc_names::{Name, read_name};
use std::alloc::Global;
use std::io;
use std::io::Print;
use std::rt::Clock;
use std::time::Instant;

const ENTRIES: u32 = 500_000;

// The names for which the lists of a directory have room as it is read.
const NAMES: u32 = 16;

const ROUNDS: u32 = 5;

// The sizes, and the time of each in hundredths of that of the first, if time grows as n log n.
const SIZES: [(u16, u64); 4] = [(5_000, 100), (10_000, 108), (20_000, 116), (50_000, 127)];

// What the numbers of names are multiplied by: they rise, or they stand in no order.
const RISING: u32 = 1;

const SCATTERED: u32 = 2_654_435_761;

// The time of each step in microseconds.
#[derive(Clone, Copy)]
struct Times {
    read: u64,
    looked: u64,
    put: u64,
    grown: u64,
    written: u64,
}

const LONGEST: Times = Times {
    read: u64::MAX,
    looked: u64::MAX,
    put: u64::MAX,
    grown: u64::MAX,
    written: u64::MAX,
};

impl Times {
    // The lesser time of each step.
    fn least(self, other: Times) -> Times {
        Times {
            read: self.read.min(other.read),
            looked: self.looked.min(other.looked),
            put: self.put.min(other.put),
            grown: self.grown.min(other.grown),
            written: self.written.min(other.written),
        }
    }
}

// Puts bytes in their place, if it is there.
fn put(b: &mut [u8], at: usize, new: &[u8]) {
    if at <= b.len() && new.len() <= b.len() - at {
        b[at..at + new.len()].copy_from_slice(new);
    }
}

// Seven letters for the lowest 28 bits of a number, the highest first.
fn letters(number: u32) -> [u8; 7] {
    let mut left = number;
    let mut name = [b'A'; 7];
    for place in name.iter_mut().rev() {
        *place = b'A' + (left % 16) as u8;
        left /= 16;
    }
    name
}

// The bytes of a directory of so many entries, and of 2048 bytes or more that are free.
fn directory(alloc: Global, entries: u16, order: u32) -> io::Result<Vec<u8>> {
    let count = usize::from(entries);
    let heap = 32 + 28 * count;
    let end = heap + 8 * count;
    let size = (end + 8).next_multiple_of(2048) + 2048;
    let mut b = vec![in alloc; 0u8; size]?;
    put(&mut b, 4, b"SBPr\x01");
    put(&mut b, 12, &(size as u32).to_le_bytes());
    put(&mut b, 16, &(count as u32).to_le_bytes());
    put(&mut b, 20, &(8 * count as u32).to_le_bytes());
    put(&mut b, 28, b"$\x0d");
    for i in 0..count {
        put(&mut b, 32 + 28 * i + 20, &[7]);
        put(&mut b, 32 + 28 * i + 24, &(8 * i as u32).to_le_bytes());
        put(
            &mut b,
            heap + 8 * i,
            &letters((i as u32).wrapping_mul(order)),
        );
    }
    put(&mut b, size - 8, b"oven");
    if end + 8 <= b.len() {
        let check = big_dir_check(&b, end);
        put(&mut b, size - 1, &[check]);
    }
    Ok(b)
}

// A name that no directory here has, after those of lesser numbers: the letters of the number, and one more.
fn new_name(alloc: Global, number: u32) -> Option<Name> {
    let mut name = [b'Z'; 8];
    put(&mut name, 0, &letters(number));
    read_name(alloc, &name).ok()
}

// Reads so many directories of the same bytes.
fn read_all(alloc: Global, bytes: &[u8], count: u32) -> io::Result<Vec<BigDir>> {
    let mut dirs = Vec::new(alloc);
    for _ in 0..count {
        if let Ok(dir) = BigDir::read(alloc, bytes) {
            dirs.push(dir)?;
        }
    }
    Ok(dirs)
}

// Writes each directory, and says how many.
fn write_all(dirs: &[BigDir], buffer: &mut [u8]) -> u64 {
    let mut written = 0u64;
    for dir in dirs {
        if buffer.len() == dir.size() {
            dir.write(buffer);
            written = written.saturating_add(1);
        }
    }
    written
}

// Puts a name into each directory. The time of the looks for it is added to `looked`, and that of the calls to `put`.
fn put_name<R: Clock>(
    rt: &R,
    alloc: Global,
    dirs: Vec<BigDir>,
    number: u32,
    looked: &mut u64,
    put: &mut u64,
) -> io::Result<Vec<BigDir>> {
    let Some(name) = new_name(alloc, number) else {
        return Ok(dirs);
    };
    let start = Instant::now(rt)?;
    let visits = look(alloc, dirs, name)?;
    *looked = looked.saturating_add(micros_since(rt, start)?);
    let start = Instant::now(rt)?;
    let dirs = enter_all(alloc, visits)?;
    *put = put.saturating_add(micros_since(rt, start)?);
    Ok(dirs)
}

// Puts names into each directory, one into all before the next. In the order of names they are `apart` from one another.
fn put_names<R: Clock>(
    rt: &R,
    alloc: Global,
    dirs: Vec<BigDir>,
    apart: u32,
    times: &mut Times,
) -> io::Result<Vec<BigDir>> {
    let mut dirs = dirs;
    let mut looked = 0;
    let mut put = 0;
    for i in 0..NAMES {
        dirs = put_name(
            rt,
            alloc,
            dirs,
            i.wrapping_mul(apart),
            &mut looked,
            &mut put,
        )?;
    }
    let mut grown = 0;
    let last = NAMES.wrapping_mul(apart);
    let dirs = put_name(rt, alloc, dirs, last, &mut looked, &mut grown)?;
    times.looked = looked;
    times.put = put;
    times.grown = grown;
    Ok(dirs)
}

// Reads, puts into and writes directories that have `ENTRIES` entries together.
fn time<R: Clock>(rt: &R, alloc: Global, entries: u16, order: u32) -> io::Result<Times> {
    let bytes = directory(alloc, entries, order)?;
    let count = ENTRIES.checked_div(u32::from(entries)).unwrap_or(0);
    let start = Instant::now(rt)?;
    let dirs = read_all(alloc, &bytes, count)?;
    let mut times = Times {
        read: micros_since(rt, start)?,
        looked: 0,
        put: 0,
        grown: 0,
        written: 0,
    };
    let apart = (u32::from(entries) / NAMES).wrapping_mul(order);
    let dirs = put_names(rt, alloc, dirs, apart, &mut times)?;
    let mut buffer = vec![in alloc; 0u8; bytes.len()]?;
    let start = Instant::now(rt)?;
    let written = write_all(&dirs, &mut buffer);
    times.written = micros_since(rt, start)?;
    if written < u64::from(count) {
        return Err(io::ErrorKind::OutOfMemory.into());
    }
    Ok(times)
}

// Times each size once, and keeps the lesser times.
fn time_sizes<R: Clock>(
    rt: &R,
    alloc: Global,
    order: u32,
    least: &mut [Times; 4],
) -> io::Result<()> {
    for (least, (entries, _)) in least.iter_mut().zip(&SIZES) {
        *least = least.least(time(rt, alloc, *entries, order)?);
    }
    Ok(())
}

// Prints the time of a step, and what it is of that of the first size.
fn print_step<R: Print>(rt: &R, what: &str, entries: u32, now: u64, first: u64) -> io::Result<()> {
    let rate = rate(u64::from(entries), now);
    let growth = now.saturating_mul(100).checked_div(first).unwrap_or(0);
    println!(rt; "  {what}: {entries} entries in {now} us, {rate} entries/s, {growth} %")
}

// Prints the times of all sizes.
fn print_times<R: Print>(rt: &R, times: &[Times; 4]) -> io::Result<()> {
    let first = times[0];
    let put = ENTRIES.saturating_mul(NAMES);
    let looked = put.saturating_add(ENTRIES);
    for (now, (entries, most)) in times.iter().zip(&SIZES) {
        println!(rt; "directories of {entries} entries: n log n is {most} % of the first")?;
        print_step(rt, "read", ENTRIES, now.read, first.read)?;
        print_step(rt, "looked through", looked, now.looked, first.looked)?;
        print_step(rt, "put into", put, now.put, first.put)?;
        print_step(rt, "put into and grown", ENTRIES, now.grown, first.grown)?;
        print_step(rt, "written", ENTRIES, now.written, first.written)?;
    }
    Ok(())
}

// Times and prints all sizes, where the names stand in that order.
fn run_in<R: Print + Clock>(rt: &R, alloc: Global, order: u32) -> io::Result<()> {
    let mut least = [LONGEST; 4];
    for _ in 0..ROUNDS {
        time_sizes(rt, alloc, order, &mut least)?;
    }
    print_times(rt, &least)
}

pub fn run<R: Print + Clock>(rt: &R, alloc: Global) -> io::Result<()> {
    println!(rt; "names that rise:")?;
    run_in(rt, alloc, RISING)?;
    println!(rt; "names in no order:")?;
    run_in(rt, alloc, SCATTERED)
}
