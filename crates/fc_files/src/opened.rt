// The one file of a disk, and the calls of the system on it. Nothing is claimed of what they give.
//
// std calls again after an interruption in opening, reading, writing, setting a length and syncing. The others do so here.
ghost use Rattle.std.specs.Prelude.{◌≡◌, Ok, None, IfErr, IfOk, IfSome, IsErr, OnErr, OnOk};
ghost use Rattle.std.specs.Option.{ForSome, option_map};
ghost use Rattle.fc_files.specs.Named.{IsNamed};

use arrayvec::ArrayString;
use std::fs::{self, Metadata, OpenFile, OpenOptions};
use std::io::{self, ErrorKind};
use std::os::unix::fs::{FileExt, MetadataExt};
use std::path::Path;
use std::rt::Files;

// A path has fewer bytes than this: the system refuses others.
pub const PATH_LIMIT: usize = 4096;

// Calls again after an interruption.
pub fn uninterrupted<T, F: Fn() -> io::Result<T>>(call: F) -> io::Result<T>
    requires { F.IsAlwaysCallable call }
{
    for _ in 0..u64::MAX {
        match call() {
            Err(error) if error.kind() == ErrorKind::Interrupted => {}
            answer => return answer,
        }
    }
    Err(io::Error::from(ErrorKind::TimedOut))
}

// Whether the name isn't given: no file of that name is there, or one is where it is to be made.
fn is_not_given(kind: ErrorKind, make: bool) -> bool {
    match kind {
        ErrorKind::AlreadyExists => make,
        ErrorKind::NotFound | ErrorKind::NotADirectory | ErrorKind::InvalidFilename => !make,
        _ => false,
    }
}

// None if the name isn't given.
fn if_given(found: io::Result<u64>, make: bool) -> io::Result<Option<u64>>
    ensures length { IfOk result (λ given. IfSome given (λ length. found ≡ Ok length)) }
    ensures not_given { IfOk result (λ given. given ≡ None → IsErr found) }
    ensures failed { IsErr result → IsErr found }
{
    match found {
        Ok(length) => Ok(Some(length)),
        Err(error) if is_not_given(error.kind(), make) => Ok(None),
        Err(error) => Err(error),
    }
}

// Whether both are of the same file, while it is held open.
pub fn is_same(one: &Metadata, other: &Metadata) -> bool {
    one.dev() == other.dev() && one.ino() == other.ino()
}

pub fn open_to_read<R: Files>(rt: &R, name: &str) -> io::Result<R::File> {
    let mut how = OpenOptions::new();
    how.read(true);
    how.open(rt, name)
}

fn open_to_write<R: Files>(rt: &R, name: &str, make: bool) -> io::Result<R::File> {
    let mut how = OpenOptions::new();
    how.read(true);
    how.write(true);
    how.create_new(make);
    how.open(rt, name)
}

// Puts the entry of a file that was made on the disk. A folder that may not be read can't be opened for it, and some file
// systems sync no folder: there the file stays, and only its name isn't sure to outlast a failing machine.
fn sync_folder<R: Files>(rt: &R, name: &str) -> io::Result<()> {
    let folder = match Path::new(name).parent() {
        Some(parent) if !parent.as_str().is_empty() => parent.as_str(),
        _ => ".",
    };
    let synced = match open_to_read(rt, folder) {
        Ok(opened) => opened.sync_all(),
        Err(error) => Err(error),
    };
    match synced {
        Err(error) if is_folder_without_sync(error.kind()) => Ok(()),
        answer => answer,
    }
}

fn is_folder_without_sync(kind: ErrorKind) -> bool {
    match kind {
        ErrorKind::PermissionDenied | ErrorKind::InvalidInput | ErrorKind::Unsupported => true,
        _ => false,
    }
}

// A file that is open.
#[derive(Drop)]
struct Opened<F: Drop> {
    file: F,
    name: ArrayString<PATH_LIMIT>,
    length: u64,
    // Whether the file was opened for writing too.
    writable: bool,
    // Whether this run made the file, and no sync has succeeded since.
    unfinished: bool,
    // Whether a sync has failed: what was written may be lost, and the next sync would not tell.
    lost: bool,
}

// Takes a file away that this run made and didn't finish. If its name leads to another by now, that one stays.
fn take_away<R: Files>(rt: &R, opened: &Opened<R::File>) {
    if !opened.unfinished {
        return;
    }
    let name = opened.name.as_str();
    let Ok(named) = uninterrupted(|| fs::symlink_metadata(rt, name)) else {
        return;
    };
    let Ok(own) = uninterrupted(|| opened.file.metadata()) else {
        return;
    };
    if is_same(&named, &own) {
        let _ = uninterrupted(|| fs::remove_file(rt, name));
    }
}

// Opens a file that is there, for reading alone. None is opened, and so there is nothing to read, if neither a file nor
// a folder has the name: a pipe would wait for its other end, and a device may act on it.
fn open_given<R: Files>(rt: &R, name: &str) -> io::Result<Option<Opened<R::File>>>
    ensures { IfOk result (λ found. IfSome found (λ o. o.name.bytes ≡ name.now)) }
{
    let kept = kept_name(name)?;
    let found = uninterrupted(|| fs::metadata(rt, name))?;
    if !found.is_file() && !found.is_dir() {
        return Ok(None);
    }
    let file = open_to_read(rt, name)?;
    let own = uninterrupted(|| file.metadata())?;
    if !own.is_file() {
        return Err(io::Error::from(ErrorKind::IsADirectory));
    }
    Ok(Some(Opened {
        file,
        name: kept,
        length: own.len(),
        writable: false,
        unfinished: false,
        lost: false,
    }))
}

fn kept_name(name: &str) -> io::Result<ArrayString<PATH_LIMIT>>
    ensures { IfOk result (λ kept. kept.bytes ≡ name.now) }
{
    match ArrayString::from(name) {
        Ok(kept) => Ok(kept),
        Err(_) => Err(io::Error::from(ErrorKind::InvalidFilename)),
    }
}

// Makes a file of so many bytes 0.
fn make<R: Files>(rt: &R, name: &str, length: u64) -> io::Result<Opened<R::File>>
    ensures { IfOk result (λ made. made.name.bytes ≡ name.now) }
{
    let kept = kept_name(name)?;
    let file = open_to_write(rt, name, true)?;
    let made = Opened {
        file,
        name: kept,
        length,
        writable: true,
        unfinished: true,
        lost: false,
    };
    match made.file.set_len(length) {
        Ok(()) => Ok(made),
        Err(error) => {
            take_away(rt, &made);
            Err(error)
        }
    }
}

// The same file, opened for writing too.
fn opened_to_write<R: Files>(rt: &R, opened: &Opened<R::File>) -> io::Result<R::File> {
    let file = open_to_write(rt, opened.name.as_str(), false)?;
    let now = uninterrupted(|| file.metadata())?;
    let own = uninterrupted(|| opened.file.metadata())?;
    if is_same(&now, &own) && now.len() == opened.length {
        Ok(file)
    } else {
        Err(io::Error::other("the name leads to another file"))
    }
}

// Puts what was written to a file on the disk, and its name if it was made. After a sync that failed, each later one fails.
fn sync_opened<R: Files>(rt: &R, opened: &mut Opened<R::File>) -> io::Result<()>
    ensures { opened.new.name ≡ opened.old.name }
{
    if opened.lost {
        return Err(io::Error::other("an earlier sync failed"));
    }
    opened.lost = true;
    opened.file.sync_all()?;
    if opened.unfinished {
        sync_folder(rt, opened.name.as_str())?;
    }
    opened.unfinished = false;
    opened.lost = false;
    Ok(())
}

// The file of a disk, if one is open.
pub struct Edge<R: Files + Drop>
where
    R::File: FileExt,
{
    rt: R,
    opened: Option<Opened<R::File>>,
}

impl<R: Files + Drop> Drop for Edge<R>
where
    R::File: FileExt,
{
    fn drop(self) {
        let Edge { rt, opened } = self;
        if let Some(last) = &opened {
            take_away(&rt, last);
        }
    }
}

impl<R: Files + Drop> Edge<R>
where
    R::File: FileExt,
{
    pub fn new(rt: R) -> Edge<R>
        ensures { option_map (λ o. o.name.bytes) result.opened ≡ None }
    {
        Edge { rt, opened: None }
    }

    // The length of the image that was opened or made, and None if the name isn't given.
    pub fn open(&mut self, name: &str, blank: Option<u64>) -> io::Result<Option<u64>>
        ensures length { IfOk result (λ given. IfSome given (λ length. ForSome blank (λ n. length ≡ n))) }
        ensures name { IfOk result (λ given. IfSome given (λ length. IsNamed (option_map (λ o. o.name.bytes) self.new.opened) name.now)) }
        ensures none { IfOk result (λ given. given ≡ None → option_map (λ o. o.name.bytes) self.new.opened ≡ option_map (λ o. o.name.bytes) self.old.opened) }
        ensures failed { IfErr result (λ error. option_map (λ o. o.name.bytes) self.new.opened ≡ option_map (λ o. o.name.bytes) self.old.opened) }
    {
        match blank {
            None => if_given(self.open_given(name), false),
            Some(n) => if_given(self.make(name, n), true),
        }
    }

    fn open_given(&mut self, name: &str) -> io::Result<u64>
        ensures name { OnOk result (IsNamed (option_map (λ o. o.name.bytes) self.new.opened) name.now) }
        ensures failed { OnErr result (self.new ≡ self.old) }
    {
        let opened = open_given(&self.rt, name)?;
        let length = opened.as_ref().map_or(0, |file| file.length);
        self.go_over_to(opened);
        Ok(length)
    }

    fn make(&mut self, name: &str, length: u64) -> io::Result<u64>
        ensures length { IfOk result (λ made. made ≡ length) }
        ensures name { OnOk result (IsNamed (option_map (λ o. o.name.bytes) self.new.opened) name.now) }
        ensures failed { OnErr result (self.new ≡ self.old) }
    {
        let made = make(&self.rt, name, length)?;
        self.go_over_to(Some(made));
        Ok(length)
    }

    fn go_over_to(&mut self, opened: Option<Opened<R::File>>)
        ensures { self.new.opened ≡ opened }
    {
        if let Some(last) = &self.opened {
            take_away(&self.rt, last);
        }
        self.opened = opened;
    }

    pub fn read(&self, at: u64, into: &mut [u8]) -> io::Result<()> {
        match &self.opened {
            None => Err(io::Error::from(ErrorKind::NotFound)),
            Some(opened) => opened.file.read_exact_at(into, at),
        }
    }

    // The first write opens the file for writing.
    pub fn write(&mut self, at: u64, from: &[u8]) -> io::Result<()>
        ensures { option_map (λ o. o.name.bytes) self.new.opened ≡ option_map (λ o. o.name.bytes) self.old.opened }
    {
        let Some(opened) = &mut self.opened else {
            return Err(io::Error::from(ErrorKind::NotFound));
        };
        if !opened.writable {
            opened.file = opened_to_write(&self.rt, opened)?;
            opened.writable = true;
        }
        opened.file.write_all_at(from, at)
    }

    // Puts what was written on the disk, and a name that was made. After a sync that failed, each later one fails.
    pub fn sync(&mut self) -> io::Result<()>
        ensures { option_map (λ o. o.name.bytes) self.new.opened ≡ option_map (λ o. o.name.bytes) self.old.opened }
    {
        match &mut self.opened {
            None => Ok(()),
            Some(opened) => sync_opened(&self.rt, opened),
        }
    }
}
