// Lines of trials, and the commands that they spell.
ghost use Rattle.std.specs.Prelude.{IfOk, OnOk};
ghost use Rattle.fc_holdings.specs.Answers.{UnlessFault};
ghost use Rattle.fc_trials.specs.Ready.{IsReady};

use fc_commands::{
    CommandError, Holdings, can_mark, cdir, create, delete, mark, rename, save, set,
};
use fc_device::Disk;
use fc_names::{Path, read_path};
use fc_script::{Command, read_line};
use fc_volume::{FileWords, ObjectWords, Volume};
use std::alloc::Global;
use std::test::Fail;

// The parts of a text, each in a line of its own or behind `;`.
pub fn parts_of(alloc: Global, text: &'static str) -> Result<Vec<&'static str>, Fail> {
    let mut parts = Vec::new(alloc);
    for row in text.lines() {
        for part in row.split(';') {
            let part = part.trim();
            if !part.is_empty() {
                parts.push(part)?;
            }
        }
    }
    Ok(parts)
}

// A command, and the word of its reply: `ok`, or that of the refusal.
#[derive(Clone, Copy)]
pub struct Line {
    pub command: &'static str,
    pub reply: &'static str,
}

// The lines of a text. A refusal stands behind `=>`.
pub fn lines_of(alloc: Global, text: &'static str) -> Result<Vec<Line>, Fail> {
    let mut lines = Vec::new(alloc);
    for part in parts_of(alloc, text)? {
        let (command, reply) = part.split_once(" => ").unwrap_or((part, "ok"));
        lines.push(Line { command, reply })?;
    }
    Ok(lines)
}

// ---- `mark`, which is no line of a script

pub fn is_mark(line: &Line) -> bool {
    line.command.starts_with("mark ")
}

// The path and the attributes that `mark` gives.
fn marking(alloc: Global, command: &str) -> Option<(Path, u32)> {
    let (path, attrs) = command.strip_prefix("mark ")?.split_once(' ')?;
    let path = read_path(alloc, path.as_bytes()).ok()?;
    let attrs = u32::from_str_radix(attrs, 16).ok()?;
    Some((path, attrs))
}

// Gives an object other attributes, if the disc can hold them.
fn mark_object<D: Disk>(
    alloc: Global,
    disk: &mut D,
    holdings: &mut Holdings,
    read_only: bool,
    path: &Path,
    attrs: u32,
) -> Result<(), CommandError>
    requires { IsReady D.Disk holdings.old disk.old }
    ensures { UnlessFault result (IsReady D.Disk holdings.new disk.new) }
{
    if !can_mark(&holdings.places, attrs) {
        return Err(CommandError::NoMemory);
    }
    mark(alloc, disk, holdings, read_only, path, attrs)
}

// ---- the lines of a script

// Saves a file of these bytes and words.
fn save_bytes<D: Disk>(
    alloc: Global,
    disk: &mut D,
    holdings: &mut Holdings,
    read_only: bool,
    path: &Path,
    words: (u32, u32),
    bytes: &[u8],
) -> Result<(), CommandError>
    requires { IsReady D.Disk holdings.old disk.old }
    ensures { UnlessFault result (IsReady D.Disk holdings.new disk.new) }
{
    let Ok(len) = u32::try_from(bytes.len()) else {
        return Err(CommandError::NoMemory);
    };
    let (load, exec) = words;
    let words = FileWords { load, exec, len };
    save(alloc, disk, holdings, read_only, path, words, bytes)
}

// Does a command that makes a file.
fn put<D: Disk>(
    alloc: Global,
    disk: &mut D,
    holdings: &mut Holdings,
    read_only: bool,
    command: &Command,
) -> Result<(), CommandError>
    requires { IsReady D.Disk holdings.old disk.old }
    ensures { UnlessFault result (IsReady D.Disk holdings.new disk.new) }
{
    match command {
        Command::Save {
            path,
            load,
            exec,
            bytes,
        } => {
            let (words, bytes) = ((*load, *exec), bytes.list());
            save_bytes(alloc, disk, holdings, read_only, path, words, bytes)
        }
        Command::Create {
            path,
            load,
            exec,
            len,
        } => {
            let words = FileWords {
                load: *load,
                exec: *exec,
                len: *len,
            };
            create(alloc, disk, holdings, read_only, path, words)
        }
        _ => Err(CommandError::NoMemory),
    }
}

// Does a command.
fn change<D: Disk>(
    alloc: Global,
    disk: &mut D,
    holdings: &mut Holdings,
    read_only: bool,
    command: &Command,
) -> Result<(), CommandError>
    requires { IsReady D.Disk holdings.old disk.old }
    ensures { UnlessFault result (IsReady D.Disk holdings.new disk.new) }
{
    match command {
        Command::Cdir { path } => cdir(alloc, disk, holdings, read_only, path),
        Command::Delete { path } => delete(alloc, disk, holdings, read_only, path),
        Command::Rename { from, to } => rename(alloc, disk, holdings, read_only, from, to),
        Command::Set {
            path,
            load,
            exec,
            access,
        } => {
            let words = ObjectWords {
                load: *load,
                exec: *exec,
                access: *access % 8,
            };
            set(alloc, disk, holdings, read_only, path, words)
        }
        _ => put(alloc, disk, holdings, read_only, command),
    }
}

// ---- a line

// Does what a line says. A line that says nothing of the kind counts as if memory were short.
fn do_line<D: Disk>(
    alloc: Global,
    disk: &mut D,
    holdings: &mut Holdings,
    read_only: bool,
    line: &Line,
) -> Result<(), CommandError>
    requires { IsReady D.Disk holdings.old disk.old }
    ensures { UnlessFault result (IsReady D.Disk holdings.new disk.new) }
{
    if let Some((path, attrs)) = marking(alloc, line.command) {
        return mark_object(alloc, disk, holdings, read_only, &path, attrs);
    }
    match read_line(alloc, line.command.as_bytes()) {
        Ok(command) => change(alloc, disk, holdings, read_only, &command),
        Err(_) => Err(CommandError::NoMemory),
    }
}

// The word of what a line answers over holdings.
pub fn answer<D: Disk>(
    alloc: Global,
    disk: &mut D,
    holdings: &mut Holdings,
    read_only: bool,
    line: &Line,
) -> Result<String, Fail>
    requires { IsReady D.Disk holdings.old disk.old }
    ensures { OnOk result (IsReady D.Disk holdings.new disk.new) }
{
    match do_line(alloc, disk, holdings, read_only, line) {
        Ok(()) => Ok(String::from_str(alloc, "ok")?),
        Err(CommandError::Refused(refusal)) => Ok(String::from_str(alloc, refusal.word())?),
        Err(CommandError::NoMemory) => Err("memory, or no command".into()),
        Err(CommandError::DiskFault) => Err("a fault".into()),
    }
}

// What a volume on a disk named `disc` holds.
pub fn mounted<D: Disk>(alloc: Global, disk: &mut D, read_only: bool) -> Result<Holdings, Fail>
    ensures { IfOk result (λ holdings. IsReady D.Disk holdings disk.new) }
{
    if !disk.attach("disc", None)? {
        return Err("attached".into());
    }
    match Volume::mount(alloc, disk, read_only) {
        Ok(volume) => Ok(volume.holdings),
        Err(_) => Err("mounted".into()),
    }
}
