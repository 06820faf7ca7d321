// The line of an image that isn't accepted.
ghost use Rattle.std.specs.Prelude.{◌≡◌, ◌++◌, ◌∷◌, [], IfOk, OnOk};
ghost use Rattle.std.specs.Fmt.{decimal};
ghost use Rattle.fc_names.specs.Paths.{spelled_path};
ghost use Rattle.fc_runs.specs.Replies.{bad_image_line, dir_fault_words, fault_words};
ghost use Rattle.fc_program.specs.Lines.{spaced};

use fc_device::NoMemory;
use fc_dirs::DirFault;
use fc_image::ImageFault;
use fc_names::{Path, write_path};
use itoa::Buffer;
use std::alloc::Global;

/// Appends a space and a word.
pub fn push_word(line: &mut Vec<u8>, word: &[u8]) -> Result<(), NoMemory>
    ensures { OnOk result (line.new.items ≡ line.old.items ++ spaced (word.now ∷ [])) }
{
    line.extend_from_slice(b" ")?;
    line.extend_from_slice(word)?;
    Ok(())
}

/// Appends a space and a number.
pub fn push_number(line: &mut Vec<u8>, number: u64) -> Result<(), NoMemory>
    ensures { OnOk result (line.new.items ≡ line.old.items ++ spaced (decimal number ∷ [])) }
{
    push_word(line, Buffer::new().format(number).as_bytes())
}

/// Appends a space and a path.
pub fn push_path(line: &mut Vec<u8>, path: &Path) -> Result<(), NoMemory>
    ensures { OnOk result (line.new.items ≡ line.old.items ++ spaced (spelled_path path.now ∷ [])) }
{
    line.extend_from_slice(b" ")?;
    write_path(path, line)
}

// Appends the words of what is wrong with a directory.
fn push_dir_fault(line: &mut Vec<u8>, fault: DirFault) -> Result<(), NoMemory>
    ensures { OnOk result (line.new.items ≡ line.old.items ++ spaced (dir_fault_words fault)) }
{
    match fault {
        DirFault::Magic => push_word(line, b"Magic"),
        DirFault::Sequence => push_word(line, b"Sequence"),
        DirFault::Size => push_word(line, b"Size"),
        DirFault::Check => push_word(line, b"Check"),
        DirFault::BadEntry { at } => {
            push_word(line, b"BadEntry")?;
            push_number(line, u64::from(at))
        }
        DirFault::Twin { at } => {
            push_word(line, b"Twin")?;
            push_number(line, u64::from(at))
        }
    }
}

// Appends a word and two numbers.
fn push_pair(line: &mut Vec<u8>, word: &[u8], one: u64, two: u64) -> Result<(), NoMemory>
    ensures { OnOk result (line.new.items ≡ line.old.items ++ spaced (word.now ∷ decimal one ∷ decimal two ∷ [])) }
{
    push_word(line, word)?;
    push_number(line, one)?;
    push_number(line, two)
}

/// Appends a word and a number.
pub fn push_count(line: &mut Vec<u8>, word: &[u8], number: u64) -> Result<(), NoMemory>
    ensures { OnOk result (line.new.items ≡ line.old.items ++ spaced (word.now ∷ decimal number ∷ [])) }
{
    push_word(line, word)?;
    push_number(line, number)
}

// Appends a word and a path.
fn push_place(line: &mut Vec<u8>, word: &[u8], path: &Path) -> Result<(), NoMemory>
    ensures { OnOk result (line.new.items ≡ line.old.items ++ spaced (word.now ∷ spelled_path path.now ∷ [])) }
{
    push_word(line, word)?;
    push_path(line, path)
}

// Appends the words of a fault.
fn push_fault(line: &mut Vec<u8>, fault: &ImageFault) -> Result<(), NoMemory>
    ensures { OnOk result (line.new.items ≡ line.old.items ++ spaced (fault_words fault.now)) }
{
    match fault {
        ImageFault::NoKind => push_word(line, b"NoKind"),
        ImageFault::Short { need, have } => push_pair(line, b"Short", *need, *have),
        ImageFault::Copies { c1, c2 } => push_pair(line, b"Copies", u64::from(*c1), u64::from(*c2)),
        ImageFault::Differs { offset } => push_count(line, b"Differs", u64::from(*offset)),
        ImageFault::Bad { offset } => push_count(line, b"Bad", u64::from(*offset)),
        ImageFault::Zone { zone, bit } => push_pair(
            line,
            b"Zone",
            u64::from(*zone),
            u64::from(*bit),
        ),
        ImageFault::Hole { index } => push_count(line, b"Hole", u64::from(*index)),
        ImageFault::Directory { path, fault } => {
            push_place(line, b"Directory", path)?;
            push_dir_fault(line, *fault)
        }
        ImageFault::Place { path } => push_place(line, b"Place", path),
        ImageFault::Overlap { path } => push_place(line, b"Overlap", path),
        ImageFault::MapPlace { sector } => push_count(line, b"MapPlace", *sector),
    }
}

/// The line of an image that isn't accepted.
pub fn bad_image_line(alloc: Global, fault: &ImageFault) -> Result<Vec<u8>, NoMemory>
    ensures { IfOk result (λ line. line.items ≡ bad_image_line fault.now) }
{
    let mut line = Vec::new(alloc);
    line.extend_from_slice(b"bad-image")?;
    push_fault(&mut line, fault)?;
    line.extend_from_slice(b"\n")?;
    Ok(line)
}
