// What lies on a disc, as the program tells it.
use crate::runs::by_run;
use fc_device::PlainDisk;
use std::alloc::Global;
use std::test::Fail;

// More directories than there are on any disc here.
const MANY: usize = 100;

// What a script of commands that read is told.
fn told(alloc: Global, disk: &mut PlainDisk, script: &str) -> Result<String, Fail> {
    by_run(alloc, &["--read-only", "disc"], disk, script)
}

// Files of more bytes aren't read.
const LONG: u32 = 50_000;

// The bytes of a file, as the words of its entry tell; none of a directory.
fn length_in(words: &str) -> u32 {
    words
        .rsplit(' ')
        .next()
        .and_then(|word| word.parse().ok())
        .unwrap_or(0)
}

fn is_read(words: &str) -> bool {
    matches!(length_in(words), 1..=LONG)
}

// The lines that load the files of a directory, as its entries tell.
fn loads_of(alloc: Global, directory: &str, entries: &str) -> Result<String, Fail> {
    let mut script = String::new(alloc);
    for entry in entries.lines() {
        if let Some((name, words)) = entry.split_once(' ') {
            if is_read(words) {
                script.push_str(&format!(in alloc; "load {directory}.{name}\n")?)?;
            }
        }
    }
    Ok(script)
}

// The bytes of a file, of which there are few, or all are 0.
fn shown(digits: &str) -> &str {
    if digits.len() > 16 && digits.bytes().all(|digit| digit == b'0') {
        "zeros"
    } else {
        digits
    }
}

// Adds the objects of a directory, and those of them that are directories.
fn list(
    alloc: Global,
    disk: &mut PlainDisk,
    directory: &str,
    directories: &mut Vec<String>,
    objects: &mut Vec<String>,
) -> Result<(), Fail> {
    let entries = told(alloc, disk, &format!(in alloc; "cat {directory}")?)?;
    let loaded = told(alloc, disk, &loads_of(alloc, directory, &entries)?)?;
    let mut contents = loaded.lines().filter(|line| *line != "ok");
    for entry in entries.lines() {
        if let Some((name, words)) = entry.split_once(' ') {
            let path = format!(in alloc; "{directory}.{name}")?;
            if is_read(words) {
                let bytes = shown(contents.next().unwrap_or("?"));
                objects.push(format!(in alloc; "{path} {words} {bytes}")?)?;
            } else {
                objects.push(format!(in alloc; "{path} {words}")?)?;
            }
            if words.ends_with(" dir") {
                directories.push(path)?;
            }
        }
    }
    Ok(())
}

// Each object on a disk in a line of its own: its path, attributes and words, and a file's length and bytes.
pub fn objects_on(alloc: Global, disk: &mut PlainDisk) -> Result<Vec<String>, Fail> {
    let mut directories = Vec::new(alloc);
    directories.push(String::from_str(alloc, "$")?)?;
    let mut objects = Vec::new(alloc);
    for i in 0..MANY {
        let Some(directory) = directories.get(i) else {
            return Ok(objects);
        };
        let directory = directory.clone()?;
        list(alloc, disk, &directory, &mut directories, &mut objects)?;
    }
    Err("too many directories".into())
}

// Adds the lines that others don't have, behind a sign.
fn push_others(
    sign: &str,
    lines: &[String],
    others: &[String],
    text: &mut String,
) -> Result<(), Fail> {
    for line in lines {
        if !others.contains(line) {
            text.push_str(sign)?;
            text.push_str(line)?;
            text.push_str("\n")?;
        }
    }
    Ok(())
}

// The objects that went, behind `-`, and those that came, behind `+`.
pub fn differences(alloc: Global, before: &[String], after: &[String]) -> Result<String, Fail> {
    let mut text = String::new(alloc);
    push_others("- ", before, after, &mut text)?;
    push_others("+ ", after, before, &mut text)?;
    Ok(text)
}
