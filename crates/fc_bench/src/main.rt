//! Rates of the layers over generated data, printed for a person: `make bench`. The gate proves that
//! this is safe and ends, and that without words it prints the benches' names.
#![tactic(auto)]

mod bigdirs;
mod bits;
mod checks;
mod dirs;
mod maps;
mod owners;
mod plans;
mod record;
mod timing;
mod visits;
mod zones;

use std::env;

fn main(rt: HostRuntime) -> std::io::Result<()> {
    let alloc = rt.alloc();
    let words: Vec<String> = env::args(&rt)?.skip(1).collect(alloc)?;
    if words.is_empty() {
        println!(rt; "benches: bigdirs bits checks dirs maps owners plans record zones")?;
    }
    for word in &words {
        match word.as_str() {
            "bigdirs" => bigdirs::run(&rt, alloc)?,
            "bits" => bits::run(&rt, alloc)?,
            "checks" => checks::run(&rt, alloc)?,
            "dirs" => dirs::run(&rt, alloc)?,
            "maps" => maps::run(&rt, alloc)?,
            "owners" => owners::run(&rt, alloc)?,
            "plans" => plans::run(&rt, alloc)?,
            "record" => record::run(&rt, alloc)?,
            "zones" => zones::run(&rt, alloc)?,
            _ => println!(rt; "no such bench: {word}")?,
        }
    }
    Ok(())
}
