// The rate that follows from the time that a piece of work took.
use std::io;
use std::io::Print;
use std::rt::Clock;
use std::time::Instant;

/// The microseconds since `start`, and at least one.
pub fn micros_since<R: Clock>(rt: &R, start: Instant) -> io::Result<u64> {
    Ok(
        u64::try_from(start.elapsed(rt)?.as_micros())
            .unwrap_or(u64::MAX)
            .max(1),
    )
}

/// How many units of work are done in a second, if so many were done in so many microseconds.
pub fn rate(units: u64, micros: u64) -> u64 {
    units
        .saturating_mul(1_000_000)
        .checked_div(micros)
        .unwrap_or(0)
}

/// Prints how many units of work were done in the time since `start`, and how many that is a second.
pub fn print_rate<R: Print + Clock>(
    rt: &R,
    what: &str,
    units: u64,
    unit: &str,
    start: Instant,
) -> io::Result<()> {
    let micros = micros_since(rt, start)?;
    let rate = rate(units, micros);
    println!(rt; "{what}: {units} {unit} in {micros} us, {rate} {unit}/s")
}
