// The lines of a demo.
ghost use Rattle.std.specs.Prelude.{◌≡◌, ◌<◌, ◌+◌, ◌%◌, ◌++◌, ◌^◌, IfOk, OnOk, codes};
ghost use Rattle.std.specs.List.{flat_map, range_with_len};
ghost use Rattle.std.specs.Fmt.{decimal};
ghost use Rattle.fc_runs.specs.Demo.{compact_line, demo_command, demo_lines, dir_path, file_path, saved_bytes, saved_word, with_newline};
ghost use Rattle.fc_demo.specs.Drawing.{IsDrawn};

use crate::draws::{draw, next_seed};
use crate::words::{append, push_dir, push_file, push_number, push_saved};
use fc_device::NoMemory;

// Appends the line that makes a directory.
fn push_directory(into: &mut Vec<u8>, d: u32) -> Result<(), NoMemory>
    ensures { OnOk result (into.new.items ≡ into.old.items ++ with_newline (codes "cdir " ++ dir_path d)) }
{
    append(into, b"cdir ")?;
    push_dir(into, d)?;
    append(into, b"\n")
}

/// Appends the lines that make the directories.
pub fn push_directories(into: &mut Vec<u8>) -> Result<(), NoMemory>
    ensures { OnOk result (into.new.items ≡ into.old.items ++ flat_map (λ d. with_newline (codes "cdir " ++ dir_path d)) (range_with_len 0 8)) }
{
    for d in 0..8 {
        push_directory(into, d)?;
    }
    Ok(())
}

// Appends a command that saves a file.
fn push_save(into: &mut Vec<u8>, i: u32, d: u32, f: u32, count: usize) -> Result<(), NoMemory>
    requires line { i < 2 ^ 31 }
    requires few { count < 64 }
    ensures { OnOk result (into.new.items ≡ into.old.items ++ codes "save " ++ file_path d f ++ codes " fffff000 00000000 " ++ saved_word (saved_bytes i count)) }
{
    append(into, b"save ")?;
    push_file(into, d, f)?;
    append(into, b" fffff000 00000000 ")?;
    push_saved(into, i, count)
}

// Appends a command that makes a file of zeros.
fn push_create(into: &mut Vec<u8>, d: u32, f: u32, len: u32) -> Result<(), NoMemory>
    ensures { OnOk result (into.new.items ≡ into.old.items ++ codes "create " ++ file_path d f ++ codes " 00000000 00000000 " ++ decimal len) }
{
    append(into, b"create ")?;
    push_file(into, d, f)?;
    append(into, b" 00000000 00000000 ")?;
    push_number(into, len)
}

// Appends a command that takes a file to the next directory.
fn push_rename(into: &mut Vec<u8>, d: u32, f: u32) -> Result<(), NoMemory>
    requires { d < 8 }
    ensures { OnOk result (into.new.items ≡ into.old.items ++ codes "rename " ++ file_path d f ++ codes " " ++ file_path ((d + 1) % 8) f) }
{
    append(into, b"rename ")?;
    push_file(into, d, f)?;
    append(into, b" ")?;
    push_file(into, (d + 1) % 8, f)
}

// Appends a command of a word and a file.
fn push_word_and_file(into: &mut Vec<u8>, word: &[u8], d: u32, f: u32) -> Result<(), NoMemory>
    ensures { OnOk result (into.new.items ≡ into.old.items ++ word.now ++ file_path d f) }
{
    append(into, word)?;
    push_file(into, d, f)
}

// Appends a command that lists a directory.
fn push_cat(into: &mut Vec<u8>, d: u32) -> Result<(), NoMemory>
    ensures { OnOk result (into.new.items ≡ into.old.items ++ codes "cat " ++ dir_path d) }
{
    append(into, b"cat ")?;
    push_dir(into, d)
}

// Appends the command of line `i` by its three draws.
fn push_command(into: &mut Vec<u8>, i: u32, a: u32, b: u32, c: u32) -> Result<(), NoMemory>
    requires { i < 2 ^ 31 }
    ensures { OnOk result (into.new.items ≡ into.old.items ++ demo_command i a b c) }
{
    let d = a % 8;
    let f = b % 16;
    let m = c / 8;
    match c % 8 {
        0..=2 => push_save(into, i, d, f, (m % 64) as usize),
        3 => push_create(into, d, f, m % 4096),
        4 => push_word_and_file(into, b"delete ", d, f),
        5 => push_rename(into, d, f),
        6 => push_word_and_file(into, b"load ", d, f),
        _ => push_cat(into, d),
    }
}

// Appends a line that compacts, after each 64th line.
fn push_compact(into: &mut Vec<u8>, i: u32) -> Result<(), NoMemory>
    ensures { OnOk result (into.new.items ≡ into.old.items ++ compact_line i) }
{
    if i % 64 == 63 {
        return append(into, b"compact\n");
    }
    Ok(())
}

// Appends line `i`, drawn after a state of the generator, and what follows it. Answers the generator's state then.
fn push_draw(into: &mut Vec<u8>, i: u32, x: u32) -> Result<u32, NoMemory>
    requires { i < 2 ^ 31 }
    ensures { IfOk result (λ next. IsDrawn i x into.old.items into.new.items next) }
{
    let a = next_seed(x);
    let b = next_seed(a);
    let c = next_seed(b);
    push_command(into, i, draw(a), draw(b), draw(c))?;
    append(into, b"\n")?;
    push_compact(into, i)?;
    Ok(c)
}

/// Appends as many lines as the number says, drawn from the number.
pub fn push_draws(n: u32, into: &mut Vec<u8>) -> Result<(), NoMemory>
    requires { n < 2 ^ 31 }
    ensures { OnOk result (into.new.items ≡ into.old.items ++ demo_lines n 0 n) }
{
    let mut x = n;
    for i in 0..n {
        x = push_draw(into, i, x)?;
    }
    Ok(())
}
