// The lines of replies.
ghost use Rattle.std.specs.Prelude.{◌≡◌, ◌∷◌, ◌++◌, map, OnErr, OnOk};
ghost use Rattle.fc_script.specs.Texts.{check_line, entry_line, error_line, free_line, hex_word, length_word, line_of};
ghost use Rattle.fc_script.specs.Written.{Extends, spaced, word_text};

use fc_device::NoMemory;
use fc_names::{Name, write_name};
use itoa::Buffer;

// A word of a line: a text, a name as it is spelled, a decimal number, or a number as eight hexadecimal digits.
#[derive(Clone, Copy)]
enum Word<'a> {
    Text(&'a str),
    Name(&'a Name),
    Number(u64),
    Hex(u32),
}

// Eight lower-case digits.
fn hex_digits(n: u32) -> [u8; 8]
    ensures { result ≡ hex_word n }
{
    let mut digits = [0; 8];
    let _ = hex::encode_to_slice(n.to_be_bytes(), &mut digits);
    digits
}

fn append(into: &mut Vec<u8>, bytes: &[u8]) -> Result<(), NoMemory>
    ensures ok { OnOk result (into.new.items ≡ into.old.items ++ bytes.now) }
    ensures err { OnErr result (into.new.items ≡ into.old.items) }
{
    into.extend_from_slice(bytes)?;
    Ok(())
}

fn push_word(word: &Word, into: &mut Vec<u8>) -> Result<(), NoMemory>
    ensures ok { OnOk result (into.new.items ≡ into.old.items ++ word_text word.now) }
    ensures err { OnErr result (into.new.items ≡ into.old.items) }
{
    match word {
        Word::Text(text) => append(into, text.as_bytes()),
        Word::Name(name) => write_name(name, into),
        Word::Number(n) => append(into, Buffer::new().format(*n).as_bytes()),
        Word::Hex(n) => append(into, &hex_digits(*n)),
    }
}

// Appends a space and a word.
fn push_spaced(word: &Word, into: &mut Vec<u8>) -> Result<(), NoMemory>
    ensures ok { OnOk result (into.new.items ≡ into.old.items ++ 32 ∷ word_text word.now) }
    ensures extends { Extends into.old.items into.new.items }
{
    append(into, b" ")?;
    push_word(word, into)
}

fn push_all_spaced(words: &[Word], into: &mut Vec<u8>) -> Result<(), NoMemory>
    ensures ok { OnOk result (into.new.items ≡ into.old.items ++ spaced words.now) }
    ensures extends { Extends into.old.items into.new.items }
{
    for word in words {
        push_spaced(word, into)?;
    }
    Ok(())
}

// Appends words with one space between them, and the line's end.
fn push_words(first: &Word, rest: &[Word], into: &mut Vec<u8>) -> Result<(), NoMemory>
    ensures ok { OnOk result (into.new.items ≡ into.old.items ++ line_of (word_text first.now ∷ map word_text rest.now)) }
    ensures extends { Extends into.old.items into.new.items }
{
    push_word(first, into)?;
    push_all_spaced(rest, into)?;
    append(into, b"\n")
}

// Appends a line of words. After `NoMemory` the vector is as before.
fn push_line(first: &Word, rest: &[Word], into: &mut Vec<u8>) -> Result<(), NoMemory>
    ensures ok { OnOk result (into.new.items ≡ into.old.items ++ line_of (word_text first.now ∷ map word_text rest.now)) }
    ensures err { OnErr result (into.new.items ≡ into.old.items) }
{
    let start = into.len();
    let result = push_words(first, rest, into);
    if result.is_err() {
        into.truncate(start);
    }
    result
}

/// Appends the line of a refusal. After `NoMemory` the vector is as before.
pub fn error_text(number: u8, word: &str, into: &mut Vec<u8>) -> Result<(), NoMemory>
    ensures ok { OnOk result (into.new.items ≡ into.old.items ++ error_line number word.now) }
    ensures err { OnErr result (into.new.items ≡ into.old.items) }
{
    push_line(
        &Word::Text("error"),
        &[Word::Number(u64::from(number)), Word::Text(word)],
        into,
    )
}

// The last word of an entry's line.
fn length_word<'a>(len: Option<u64>) -> Word<'a>
    ensures { word_text result ≡ length_word len }
{
    match len {
        Some(len) => Word::Number(len),
        None => Word::Text("dir"),
    }
}

/// Appends the line of an entry: its name as it is spelled, its attributes, load and execution word of eight hexadecimal
/// digits each, and its length in bytes, or `dir` if it has none. After `NoMemory` the vector is as before.
pub fn entry_text(
    name: &Name,
    attrs: u32,
    load: u32,
    exec: u32,
    len: Option<u64>,
    into: &mut Vec<u8>,
) -> Result<(), NoMemory>
    ensures ok { OnOk result (into.new.items ≡ into.old.items ++ entry_line name.now attrs load exec len) }
    ensures err { OnErr result (into.new.items ≡ into.old.items) }
{
    let len = length_word(len);
    push_line(
        &Word::Name(name),
        &[Word::Hex(attrs), Word::Hex(load), Word::Hex(exec), len],
        into,
    )
}

/// Appends the line of `free`: all free bytes, and those of the largest hole. After `NoMemory` the vector is as before.
pub fn free_text(total: u64, largest: u64, into: &mut Vec<u8>) -> Result<(), NoMemory>
    ensures ok { OnOk result (into.new.items ≡ into.old.items ++ free_line total largest) }
    ensures err { OnErr result (into.new.items ≡ into.old.items) }
{
    push_line(
        &Word::Text("free"),
        &[Word::Number(total), Word::Number(largest)],
        into,
    )
}

/// Appends the line of `check`: the counts of files, of directories, of lost bytes, of holes, of free bytes, of
/// directories that are not sorted, and of wrong parents. After `NoMemory` the vector is as before.
pub fn check_text(counts: &[u64; 7], into: &mut Vec<u8>) -> Result<(), NoMemory>
    ensures ok { OnOk result (into.new.items ≡ into.old.items ++ check_line counts.now) }
    ensures err { OnErr result (into.new.items ≡ into.old.items) }
{
    let [files, dirs, lost, holes, free, unsorted, parents] = *counts;
    push_line(
        &Word::Text("files"),
        &[
            Word::Number(files),
            Word::Text("dirs"),
            Word::Number(dirs),
            Word::Text("lost"),
            Word::Number(lost),
            Word::Text("holes"),
            Word::Number(holes),
            Word::Text("free"),
            Word::Number(free),
            Word::Text("unsorted"),
            Word::Number(unsorted),
            Word::Text("parents"),
            Word::Number(parents),
        ],
        into,
    )
}
