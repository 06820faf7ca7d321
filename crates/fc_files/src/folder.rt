// The files of the current folder by their names, and the calls of the system on them. Nothing is claimed of what they give.
ghost use Rattle.std.specs.Prelude.{◌<◌, ◌≤◌, length, IfOk};

use crate::opened::{PATH_LIMIT, is_same, open_to_read, uninterrupted};
use arrayvec::ArrayString;
use fc_host::LONGEST;
use std::fs::{self, Metadata, OpenFile, OpenOptions};
use std::io::{self, ErrorKind, Write};
use std::os::unix::fs::FileExt;
use std::rt::Files;
use std::str;

// A file that is open.
#[derive(Drop)]
struct Named<F: Drop> {
    file: F,
    name: ArrayString<LONGEST>,
    // The bytes that it had when it was opened.
    length: u64,
}

fn kept_name(name: &str) -> io::Result<ArrayString<LONGEST>> {
    match ArrayString::from(name) {
        Ok(kept) => Ok(kept),
        Err(_) => Err(io::Error::from(ErrorKind::InvalidFilename)),
    }
}

// The name as text. One with a slash would lead out of the folder.
fn text_of(name: &[u8]) -> io::Result<&str> {
    match str::from_utf8(name) {
        Ok(text) if !name.contains(&b'/') => Ok(text),
        _ => Err(io::Error::from(ErrorKind::InvalidFilename)),
    }
}

fn is_of<F: Drop>(named: &Named<F>, name: &[u8]) -> bool {
    named.name.as_str().as_bytes() == name
}

fn another_file() -> io::Error {
    io::Error::other("the name leads to another file")
}

// Makes an empty file to which bytes are added, if nothing has the name.
fn open_new<R: Files>(rt: &R, name: &str) -> io::Result<R::File> {
    let mut how = OpenOptions::new();
    how.append(true);
    how.create_new(true);
    how.open(rt, name)
}

// What has the name, and None if nothing has it. It fails if that is no plain file or is the image: a pipe would wait for its
// other end, a device may act on it, and the image would be read while it is written.
fn plain_file<R: Files>(rt: &R, name: &str, image: &str) -> io::Result<Option<Metadata>> {
    let found = match uninterrupted(|| fs::metadata(rt, name)) {
        Err(error) if error.kind() == ErrorKind::NotFound => return Ok(None),
        answer => answer?,
    };
    if !found.is_file() {
        return Err(io::Error::from(ErrorKind::InvalidInput));
    }
    match uninterrupted(|| fs::metadata(rt, image)) {
        Ok(own) if is_same(&found, &own) => Err(io::Error::from(ErrorKind::InvalidInput)),
        _ => Ok(Some(found)),
    }
}

// Opens what has the name, and None if nothing has it.
fn open_given<R: Files>(rt: &R, name: &str, image: &str) -> io::Result<Option<Named<R::File>>> {
    let kept = kept_name(name)?;
    let Some(found) = plain_file(rt, name, image)? else {
        return Ok(None);
    };
    let file = open_to_read(rt, name)?;
    let own = uninterrupted(|| file.metadata())?;
    if !is_same(&found, &own) {
        return Err(another_file());
    }
    Ok(Some(Named {
        file,
        name: kept,
        length: own.len(),
    }))
}

// A file of the current folder that is read, and the one that was made last.
#[derive(Drop)]
pub struct Folder<R: Files + Drop>
where
    R::File: FileExt,
{
    rt: R,
    image: ArrayString<PATH_LIMIT>,
    given: Option<Named<R::File>>,
    made: Option<Named<R::File>>,
}

impl<R: Files + Drop> Folder<R>
where
    R::File: FileExt,
{
    // Nothing is open yet. A name of the image that no file can have leads to none.
    pub fn new(rt: R, image: &str) -> Folder<R> {
        let image = match ArrayString::from(image) {
            Ok(kept) => kept,
            Err(_) => ArrayString::new(),
        };
        Folder {
            rt,
            image,
            given: None,
            made: None,
        }
    }

    // The length of a file, which is opened, and None if nothing has the name.
    pub fn size(&mut self, name: &[u8]) -> io::Result<Option<u64>> {
        self.given = open_given(&self.rt, text_of(name)?, self.image.as_str())?;
        Ok(self.given.as_ref().map(|given| given.length))
    }

    // Reads from a byte of a file on, not past its length when it was opened. If it has become shorter by now it fails.
    pub fn take(&mut self, name: &[u8], at: u64, into: &mut [u8]) -> io::Result<usize>
        requires room { 0 < length into.old }
        ensures { IfOk result (λ count. (0 < count) × (count ≤ length into.new)) }
    {
        let is_open = self.given.as_ref().is_some_and(|given| is_of(given, name));
        if !is_open {
            self.size(name)?;
        }
        let Some(given) = &self.given else {
            return Err(io::Error::from(ErrorKind::NotFound));
        };
        if at >= given.length {
            return Err(io::Error::from(ErrorKind::UnexpectedEof));
        }
        let count = (given.length - at).min(into.len() as u64) as usize;
        given.file.read_exact_at(&mut into[..count], at)?;
        Ok(count)
    }

    // Makes an empty file, and answers whether it did: not if a plain file has the name.
    pub fn make(&mut self, name: &[u8]) -> io::Result<bool> {
        let name = text_of(name)?;
        let kept = kept_name(name)?;
        let file = match open_new(&self.rt, name) {
            Ok(file) => file,
            Err(error) if error.kind() == ErrorKind::AlreadyExists => {
                let there = plain_file(&self.rt, name, self.image.as_str())?;
                return if there.is_some() {
                    Ok(false)
                } else {
                    Err(error)
                };
            }
            Err(error) => return Err(error),
        };
        self.made = Some(Named {
            file,
            name: kept,
            length: 0,
        });
        Ok(true)
    }

    // Adds bytes to the end of the file that was made last.
    pub fn append(&mut self, name: &[u8], from: &[u8]) -> io::Result<()> {
        match &mut self.made {
            Some(made) if is_of(made, name) => made.file.write_all(from),
            _ => Err(io::Error::from(ErrorKind::NotFound)),
        }
    }

    // Removes the file that was made last. If its name leads to another by now, that one stays.
    pub fn remove(&mut self, name: &[u8]) -> io::Result<()> {
        let Some(made) = &self.made else {
            return Err(io::Error::from(ErrorKind::NotFound));
        };
        if !is_of(made, name) {
            return Err(io::Error::from(ErrorKind::NotFound));
        }
        let own_name = made.name.as_str();
        let named = uninterrupted(|| fs::symlink_metadata(&self.rt, own_name))?;
        let own = uninterrupted(|| made.file.metadata())?;
        if !is_same(&named, &own) {
            return Err(another_file());
        }
        uninterrupted(|| fs::remove_file(&self.rt, own_name))?;
        self.made = None;
        Ok(())
    }
}
