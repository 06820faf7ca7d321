// The line of a conversion.
ghost use Rattle.std.specs.Prelude.{◌≡◌, IfOk};
ghost use Rattle.fc_convert.specs.Convert.{counts_line, no_room_line, unfit_line, what_word};
ghost use Rattle.fc_convert.specs.Ends.{end_line};

use crate::ConvertEnd;
use fc_device::NoMemory;
use fc_fit::{Counts, What};
use fc_names::{Path, Refusal};
use fc_program::{bad_image_line, push_count, push_number, push_path, push_word};
use std::alloc::Global;

/// The line of a conversion that is done.
pub fn converted_line(alloc: Global, counts: Counts) -> Result<Vec<u8>, NoMemory>
    ensures { IfOk result (λ line. line.items ≡ counts_line counts.files counts.dirs) }
{
    let mut line = Vec::new(alloc);
    line.extend_from_slice(b"converted")?;
    push_count(&mut line, b"files", counts.files)?;
    push_count(&mut line, b"dirs", counts.dirs)?;
    line.extend_from_slice(b"\n")?;
    Ok(line)
}

// What doesn't fit, as a word.
fn what_word(what: What) -> &'static [u8]
    ensures { result.now ≡ what_word what }
{
    match what {
        What::Name => b"Name",
        What::Attributes => b"Attributes",
        What::Entries => b"Entries",
    }
}

// The line of a tree that doesn't fit.
fn unfit_line(alloc: Global, path: &Path, what: What) -> Result<Vec<u8>, NoMemory>
    ensures { IfOk result (λ line. line.items ≡ unfit_line (path.now, what)) }
{
    let mut line = Vec::new(alloc);
    line.extend_from_slice(b"unfit")?;
    push_word(&mut line, what_word(what))?;
    push_path(&mut line, path)?;
    line.extend_from_slice(b"\n")?;
    Ok(line)
}

// The line of an object without room.
fn no_room_line(alloc: Global, path: &Path, refusal: Refusal) -> Result<Vec<u8>, NoMemory>
    ensures { IfOk result (λ line. line.items ≡ no_room_line path.now refusal) }
{
    let mut line = Vec::new(alloc);
    line.extend_from_slice(b"no-room")?;
    push_number(&mut line, u64::from(refusal.number()))?;
    push_word(&mut line, refusal.word().as_bytes())?;
    push_path(&mut line, path)?;
    line.extend_from_slice(b"\n")?;
    Ok(line)
}

/// The line of a conversion that isn't done; nothing of most ends.
pub fn end_line(alloc: Global, end: &ConvertEnd) -> Result<Vec<u8>, NoMemory>
    ensures { IfOk result (λ line. line.items ≡ end_line end.now) }
{
    match end {
        ConvertEnd::Unfit { path, what } => unfit_line(alloc, path, *what),
        ConvertEnd::NoRoom { path, refusal } => no_room_line(alloc, path, *refusal),
        ConvertEnd::BadImage(fault) | ConvertEnd::BadTarget(fault) => bad_image_line(alloc, fault),
        _ => Ok(Vec::new(alloc)),
    }
}
