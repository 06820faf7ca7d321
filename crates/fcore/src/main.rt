//! `fcore IMAGE < script`: runs a script over an image of an Acorn FileCore disc, and writes the replies. `get` makes files in the
//! current folder, and `put` reads them.
#![tactic(auto)]

use fc_cache::CachedDisk;
use fc_files::{FileDisk, FileHost, StdSink, StdSource};
use fc_shell::{End, image_of, program, words_of};
use std::alloc::Global;
use std::fs::{self, File};
use std::io::ErrorKind;
use std::os::fd::AsFd;
use std::process::ExitCode;
use std::{env, io};

// The arguments, of which the first is the program's name.
fn arguments(rt: &HostRuntime, alloc: Global) -> io::Result<Vec<String>> {
    Ok(env::args(rt)?.collect(alloc)?)
}

// How a run ends whose arguments weren't read: one that isn't text names no image.
fn end_without_arguments(error: &io::Error) -> End {
    match error.kind() {
        ErrorKind::OutOfMemory => End::NoMemory,
        _ => End::BadWords,
    }
}

// Whether a stream's descriptor is open: one that is closed has no duplicate.
fn is_open(stream: &impl AsFd) -> bool {
    stream.as_fd().try_clone_to_owned().is_ok()
}

// Takes the descriptor of a stream that is closed, the lowest one that is free: else a file that is opened later would have it,
// and replies would be written into it. A folder has it, which can be opened even if there is no /dev, and of which each read and
// each write fails: so an absent script isn't taken for an empty one, and no reply gets lost unseen.
fn hold(rt: &HostRuntime, stream: &impl AsFd) -> io::Result<Option<File>> {
    if is_open(stream) {
        return Ok(None);
    }
    let held = match fs::open(rt, "/") {
        Ok(folder) => folder,
        Err(_) => fs::open(rt, ".")?,
    };
    Ok(Some(held))
}

// Those of the three streams' descriptors that are closed, from the lowest one on.
fn hold_streams(rt: &HostRuntime) -> io::Result<[Option<File>; 3]> {
    let input = hold(rt, &rt.stdin())?;
    let output = hold(rt, &rt.stdout())?;
    let errors = hold(rt, &rt.stderr())?;
    Ok([input, output, errors])
}

fn main(rt: HostRuntime) -> ExitCode {
    let alloc = rt.alloc();
    let Ok(_held) = hold_streams(&rt) else {
        return ExitCode::from(End::DiskFault.status());
    };
    let words = match arguments(&rt, alloc) {
        Ok(args) => words_of(args),
        Err(error) => return ExitCode::from(end_without_arguments(&error).status()),
    };
    let Ok(files) = rt.clone() else {
        return ExitCode::from(End::NoMemory.status());
    };
    let Ok(folder) = rt.clone() else {
        return ExitCode::from(End::NoMemory.status());
    };
    let image = image_of(alloc, &words);
    let mut disk = CachedDisk::new(alloc, FileDisk::new(files));
    let mut script = StdSource::new(rt.reader());
    let mut out = StdSink::new(io::writer(&rt));
    let mut host = FileHost::new(folder, image.as_str());
    ExitCode::from(program(alloc, &words, &mut disk, &mut script, &mut out, &mut host))
}
