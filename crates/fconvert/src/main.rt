//! `fconvert FORMAT FROM TO`: makes a fresh disc of a format with the tree of another disc, and writes one line.
#![tactic(auto)]

use fc_cache::CachedDisk;
use fc_convert::{ConvertEnd, convert};
use fc_files::{FileDisk, StdSink};
use fc_program::words_of;
use std::alloc::Global;
use std::fs::{self, File};
use std::io::ErrorKind;
use std::os::fd::AsFd;
use std::process::ExitCode;
use std::{env, io};

// The arguments, of which the first is the program's name.
fn arguments(rt: &HostRuntime, alloc: Global) -> io::Result<Vec<String>> {
    Ok(env::args(rt)?.collect(alloc)?)
}

// How a conversion ends whose arguments weren't read: one that isn't text names no image.
fn end_without_arguments(error: &io::Error) -> ConvertEnd {
    match error.kind() {
        ErrorKind::OutOfMemory => ConvertEnd::NoMemory,
        _ => ConvertEnd::BadWords,
    }
}

// Whether a stream's descriptor is open: one that is closed has no duplicate.
fn is_open(stream: &impl AsFd) -> bool {
    stream.as_fd().try_clone_to_owned().is_ok()
}

// Takes the descriptor of a stream that is closed, the lowest one that is free: else a file that is opened later would have it,
// and the line would be written into it. A folder has it, which can be opened even if there is no /dev, and of which each write
// fails: so no line gets lost unseen.
fn hold(rt: &HostRuntime, stream: &impl AsFd) -> io::Result<Option<File>> {
    if is_open(stream) {
        return Ok(None);
    }
    let held = match fs::open(rt, "/") {
        Ok(folder) => folder,
        Err(_) => fs::open(rt, ".")?,
    };
    Ok(Some(held))
}

// Those of the three streams' descriptors that are closed, from the lowest one on.
fn hold_streams(rt: &HostRuntime) -> io::Result<[Option<File>; 3]> {
    let input = hold(rt, &rt.stdin())?;
    let output = hold(rt, &rt.stdout())?;
    let errors = hold(rt, &rt.stderr())?;
    Ok([input, output, errors])
}

fn main(rt: HostRuntime) -> ExitCode {
    let alloc = rt.alloc();
    let Ok(_held) = hold_streams(&rt) else {
        return ExitCode::from(ConvertEnd::OutFault.status());
    };
    let words = match arguments(&rt, alloc) {
        Ok(args) => words_of(args),
        Err(error) => return ExitCode::from(end_without_arguments(&error).status()),
    };
    let Ok(source_files) = rt.clone() else {
        return ExitCode::from(ConvertEnd::NoMemory.status());
    };
    let Ok(target_files) = rt.clone() else {
        return ExitCode::from(ConvertEnd::NoMemory.status());
    };
    let mut from = CachedDisk::new(alloc, FileDisk::new(source_files));
    let mut to = CachedDisk::new(alloc, FileDisk::new(target_files));
    let mut out = StdSink::new(io::writer(&rt));
    let end = convert(alloc, &words, &mut from, &mut to, &mut out);
    ExitCode::from(end.status())
}
