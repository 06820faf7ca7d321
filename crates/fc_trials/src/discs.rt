// The discs of trials.
use crate::images::{
    DIRECTORY_AND_FILE, FEW_IDENTIFIERS, Part, ROOT_IN_MAP, RUNS, Runs, TWO_DIRECTORIES, WIDE_RUNS,
    put, put_at, put_runs,
};
use crate::lines::parts_of;
use crate::runs::{by_run, copied, disk_of};
use fc_device::PlainDisk;
use std::alloc::Global;
use std::test::Fail;

// A disc: a fresh one of a format, or, if that is empty, one by hand, whose parts and runs have the first copy of its map, of so many
// bytes, and not the second, which follows it.
#[derive(Clone, Copy)]
pub struct Disc {
    pub name: &'static str,
    format: &'static str,
    length: usize,
    parts: &'static [Part],
    runs: &'static [Runs],
    map: usize,
    copy: usize,
    // A byte that is changed after the steps.
    spoilt: Option<usize>,
}

// An E+ of 96 KB.
const SMALL: Disc = Disc {
    name: "",
    format: "",
    length: 98_304,
    parts: &[],
    runs: &[],
    map: 0,
    copy: 1024,
    spoilt: None,
};

// ---- fresh ones

// With room for the longest
const FRESH: Disc = Disc {
    length: 1_638_400,
    ..SMALL
};

pub const D: Disc = Disc {
    name: "D",
    format: "D",
    ..FRESH
};

pub const L: Disc = Disc {
    name: "L",
    format: "L",
    ..FRESH
};

pub const E: Disc = Disc {
    name: "E",
    format: "E",
    ..FRESH
};

pub const F: Disc = Disc {
    name: "F",
    format: "F",
    ..FRESH
};

pub const E_PLUS: Disc = Disc {
    name: "E+",
    format: "E+",
    ..FRESH
};

pub const F_PLUS: Disc = Disc {
    name: "F+",
    format: "F+",
    ..FRESH
};

// One copy of the map isn't sound: the first or the second, in their first zone or in their second.
pub const SPOILT: &[Disc] = &[
    Disc {
        name: "a first copy",
        spoilt: Some(0),
        ..E
    },
    Disc {
        name: "a second copy",
        spoilt: Some(1024),
        ..E
    },
    Disc {
        name: "a first copy of four zones",
        spoilt: Some(814_080),
        ..F_PLUS
    },
    Disc {
        name: "a second copy of four zones",
        spoilt: Some(818_176),
        ..F_PLUS
    },
];

// ---- by hand

pub const WIDE: Disc = Disc {
    name: "runs of 8 KB",
    length: 278_528,
    parts: WIDE_RUNS,
    map: 16_384,
    copy: 2048,
    ..SMALL
};

pub const IN_MAP: Disc = Disc {
    name: "the root in the map's identifier",
    parts: ROOT_IN_MAP,
    ..SMALL
};

pub const WITH_FILE: Disc = Disc {
    name: "a directory and a file in one identifier",
    parts: DIRECTORY_AND_FILE,
    ..SMALL
};

pub const WITH_DIRECTORY: Disc = Disc {
    name: "two directories in one identifier",
    parts: TWO_DIRECTORIES,
    ..SMALL
};

pub const TWO_IDENTIFIERS: Disc = Disc {
    name: "two identifiers left",
    length: 1_210_368,
    parts: FEW_IDENTIFIERS,
    runs: RUNS,
    map: 565_248,
    copy: 4864,
    ..SMALL
};

// ---- steps

// What is done to a disc before a trial.
#[derive(Clone, Copy)]
pub enum Step {
    // The lines of a script.
    Lines(&'static str),
    // So many files of so many bytes come into a directory: `N00`, `N01` and so on.
    Files(&'static str, u32, u32),
    // So many files of 0 bytes with names of 247 bytes come into the root.
    LongNames(u32),
    // Every second one of so many goes.
    Thinned(&'static str, u32),
    // A file takes all space that is left.
    Rest(&'static str),
}

// The file that takes all space that is left on a disk.
fn rest_of(alloc: Global, disk: &mut PlainDisk, path: &str) -> Result<String, Fail> {
    let free = by_run(alloc, &["disc"], disk, "free")?;
    let bytes = free.split(' ').nth(1).unwrap_or("?");
    Ok(format!(in alloc; "create {path} 00000000 00000000 {bytes}")?)
}

// The script of a step.
fn script_of(alloc: Global, disk: &mut PlainDisk, step: &Step) -> Result<String, Fail> {
    let mut script = String::new(alloc);
    match step {
        Step::Lines(text) => {
            for line in parts_of(alloc, text)? {
                script.push_str(&format!(in alloc; "{line}\n")?)?;
            }
        }
        Step::Files(directory, count, length) => {
            for i in 0..*count {
                script.push_str(&format!(in alloc;
                    "create {directory}.N{i:02} FFFFFD00 00000000 {length}\n"
                )?)?;
            }
        }
        Step::LongNames(count) => {
            for i in 0..*count {
                script.push_str(&format!(in alloc; "create $.N{i:0246} 00000000 00000000 0\n")?)?;
            }
        }
        Step::Thinned(directory, count) => {
            for i in (0..*count).filter(|i| *i % 2 == 0) {
                script.push_str(&format!(in alloc; "delete {directory}.N{i:02}\n")?)?;
            }
        }
        Step::Rest(path) => script.push_str(&rest_of(alloc, disk, path)?)?,
    }
    Ok(script)
}

// ---- discs

// The image of a disc by hand.
fn by_hand(alloc: Global, disc: &Disc) -> Result<Vec<u8>, Fail> {
    let mut image = vec![in alloc; 0; disc.length]?;
    put(&mut image, disc.parts);
    for runs in disc.runs {
        put_runs(&mut image, runs);
    }
    let mut copy = Vec::new(alloc);
    for byte in image.iter().skip(disc.map).take(disc.copy) {
        copy.push(*byte)?;
    }
    put_at(&mut image, disc.map.saturating_add(disc.copy), &copy);
    Ok(image)
}

// A disc before any step.
fn disc_of(alloc: Global, disc: &Disc) -> Result<PlainDisk, Fail> {
    if disc.format.is_empty() {
        return disk_of(alloc, &by_hand(alloc, disc)?, 0);
    }
    let mut disk = disk_of(alloc, b"", disc.length)?;
    let _ = by_run(alloc, &["--new", disc.format, "disc"], &mut disk, "")?;
    Ok(disk)
}

// A disk of the same bytes, but for one.
fn with_other_byte(alloc: Global, disk: &PlainDisk, at: usize) -> Result<PlainDisk, Fail> {
    let mut image = copied(alloc, disk.bytes())?;
    if let Some(byte) = image.get_mut(at) {
        *byte ^= 1;
    }
    disk_of(alloc, &image, 0)
}

// A disc after some steps, which are all done.
pub fn disc_after(alloc: Global, disc: &Disc, steps: &[Step]) -> Result<PlainDisk, Fail> {
    let mut disk = disc_of(alloc, disc)?;
    for step in steps {
        let script = script_of(alloc, &mut disk, step)?;
        let said = by_run(alloc, &["disc"], &mut disk, &script)?;
        if said.lines().any(|line| line != "ok") {
            return Err("a step isn't done".into());
        }
    }
    match disc.spoilt {
        Some(at) => with_other_byte(alloc, &disk, at),
        None => Ok(disk),
    }
}
