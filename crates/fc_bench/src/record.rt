// Images whose kind is found, the kind that is tried last.
use crate::timing::print_rate;
use fc_device::{Disk, NoMemory, PlainDisk};
use fc_record::Front;
use fc_record::kinds::kind;
use std::alloc::Global;
use std::io::{self, ErrorKind, Print};
use std::rt::Clock;
use std::time::Instant;

// A disc of 2560 units with an old map, which has no holes.
const BYTES: usize = 655_360;

const PASSES: u32 = 20_000;

fn disc(alloc: Global) -> io::Result<PlainDisk> {
    let mut image = vec![in alloc; 0u8; BYTES]?;
    image[253] = 0x0a;
    image[255] = 0x0a;
    let name = String::from_str(alloc, "disc")?;
    match PlainDisk::new(name, image, 0) {
        Ok(disk) => Ok(disk),
        Err(NoMemory) => Err(io::Error::from(ErrorKind::OutOfMemory)),
    }
}

fn is_found(disk: &mut PlainDisk) -> bool {
    match disk.attach("disc", None) {
        Ok(true) => kind(disk, &mut Front::new()).is_ok(),
        _ => false,
    }
}

pub fn run<R: Print + Clock>(rt: &R, alloc: Global) -> io::Result<()> {
    let mut disk = disc(alloc)?;
    let start = Instant::now(rt)?;
    let mut found = 0u32;
    for _ in 0..PASSES {
        if is_found(&mut disk) {
            found = found.saturating_add(1);
        }
    }
    print_rate(rt, "kinds found", u64::from(found), "images", start)
}
