//! Whether words are a request, found out without memory.

ghost use Rattle.std.specs.Prelude.{◌≡◌, ◌<◌, ℕ, [], ◌∷◌, List, MatchOption, None, Some, is_ok, is_some, length, map, option_and_then, option_map, true};
ghost use Rattle.std.specs.String.{string_bytes};
ghost use Rattle.fc_words.specs.CommandLine.{Settings, dashed_word, option_named, complete, option_alone, option_with, request_from, request_of, word_of};
ghost use Rattle.fc_words.specs.Judging.{Holds, put, kind_of, none_given, rest_after, slot, word_in};

use crate::{WordsError, optional_format, optional_number, read_image};

/// What a word can give.
#[derive(Clone, Copy)]
pub enum Name {
    New,
    ReadOnly,
    Demo,
    Safe,
    Image,
}

/// What a word is, before a word `--`.
#[derive(Clone, Copy)]
pub enum Word<'a> {
    EndsOptions,
    Gives(Name),
    Awaits(Name),
    Sets(Name, &'a str),
    Plain,
    Refused,
}

/// What the next word may be.
#[derive(Clone, Copy)]
pub enum Next {
    Any,
    ValueOf(Name),
    /// After a word `--`.
    Image,
}

/// What the words so far gave, each name at most once.
#[derive(Clone, Copy)]
pub struct Given<'a> {
    pub new: Option<&'a str>,
    pub read_only: Option<&'a str>,
    pub demo: Option<&'a str>,
    pub safe: Option<&'a str>,
    pub image: Option<&'a str>,
    pub next: Next,
}

fn option_named(name: &str) -> Option<Name>
    ensures { option_map kind_of result ≡ option_named name.now }
{
    match name {
        "new" => Some(Name::New),
        "read-only" => Some(Name::ReadOnly),
        "demo" => Some(Name::Demo),
        "safe" => Some(Name::Safe),
        _ => None,
    }
}

// An option that stands alone.
fn option_alone<'a>(name: Name) -> Word<'a>
    ensures { word_in result ≡ option_alone (Some (kind_of name)) }
{
    match name {
        Name::New => Word::Awaits(Name::New),
        Name::Demo => Word::Awaits(Name::Demo),
        Name::ReadOnly => Word::Gives(Name::ReadOnly),
        Name::Safe => Word::Gives(Name::Safe),
        Name::Image => Word::Gives(Name::Image),
    }
}

// An option with a value after `=`.
fn option_with(name: Name, value: &str) -> Word<'_>
    ensures { word_in result ≡ option_with (Some (kind_of name)) value.now }
{
    match name {
        Name::New => Word::Sets(Name::New, value),
        Name::Demo => Word::Sets(Name::Demo, value),
        Name::ReadOnly | Name::Safe | Name::Image => Word::Refused,
    }
}

// A word that begins with `--`, by the bytes that follow.
fn dashed_word(text: &str) -> Word<'_>
    requires { 0 < length text.now }
    ensures { word_in result ≡ dashed_word text.now }
{
    match text.split_once('=') {
        Some((name, value)) => match option_named(name) {
            Some(name) => option_with(name, value),
            None => Word::Refused,
        },
        None => match option_named(text) {
            Some(name) => option_alone(name),
            None => Word::Refused,
        },
    }
}

fn word_of(text: &str) -> Word<'_>
    ensures { word_in result ≡ word_of text.now }
{
    let Some(after) = text.strip_prefix('-') else {
        return Word::Plain;
    };
    if after.is_empty() {
        return Word::Plain;
    }
    let Some(option) = after.strip_prefix('-') else {
        return Word::Refused;
    };
    if option.is_empty() {
        Word::EndsOptions
    } else {
        dashed_word(option)
    }
}

impl<'a> Given<'a> {
    // Nothing, before the first word.
    fn none() -> Given<'a>
        ensures { result ≡ none_given }
    {
        Given {
            new: None,
            read_only: None,
            demo: None,
            safe: None,
            image: None,
            next: Next::Any,
        }
    }

    // With one more, unless that name was given before.
    fn with(self, name: Name, value: &'a str) -> Option<Given<'a>>
        ensures { MatchOption result (is_some (slot name self.entry) ≡ true) (λ given. (slot name self.entry ≡ None) × (given ≡ put name value.entry self.entry)) }
    {
        match name {
            Name::New if self.new.is_none() => Some(Given {
                new: Some(value),
                ..self
            }),
            Name::ReadOnly if self.read_only.is_none() => Some(Given {
                read_only: Some(value),
                ..self
            }),
            Name::Demo if self.demo.is_none() => Some(Given {
                demo: Some(value),
                ..self
            }),
            Name::Safe if self.safe.is_none() => Some(Given {
                safe: Some(value),
                ..self
            }),
            Name::Image if self.image.is_none() => Some(Given {
                image: Some(value),
                ..self
            }),
            _ => None,
        }
    }

    // After one more word, or `None` if no words that follow make it a request.
    fn after(self, text: &'a str) -> Option<Given<'a>>
        ensures { (s : Settings) → Holds self.entry s → MatchOption result
            ((ws : List (List ℕ)) → rest_after self.entry.next (text.entry.now ∷ ws) s ≡ None)
            (λ given. (t : Settings) × Holds given t × ((ws : List (List ℕ)) → rest_after self.entry.next (text.entry.now ∷ ws) s ≡ rest_after given.next ws t)) }
    {
        let given = Given {
            next: Next::Any,
            ..self
        };
        match self.next {
            Next::Image => self.with(Name::Image, text),
            Next::ValueOf(name) => match word_of(text) {
                Word::Plain => given.with(name, text),
                _ => None,
            },
            Next::Any => match word_of(text) {
                Word::EndsOptions => Some(Given {
                    next: Next::Image,
                    ..self
                }),
                Word::Gives(name) => given.with(name, "true"),
                Word::Awaits(name) => Some(Given {
                    next: Next::ValueOf(name),
                    ..self
                }),
                Word::Sets(name, value) => given.with(name, value),
                Word::Plain => given.with(Name::Image, text),
                Word::Refused => None,
            },
        }
    }

    // Whether each value is one that its name takes.
    fn fits(self) -> Result<(), WordsError>
        ensures { (s : Settings) → Holds self.entry s → is_ok result ≡ is_some (option_and_then request_from (complete s)) }
    {
        optional_format(self.new)?;
        optional_number(self.demo)?;
        read_image(self.image)?;
        Ok(())
    }

    // Whether it is a request if no more words follow.
    fn is_request(self) -> bool
        ensures { (s : Settings) → Holds self.entry s → result ≡ is_some (option_and_then request_from (rest_after self.entry.next [] s)) }
    {
        let fits = self.fits().is_ok();
        match self.next {
            Next::ValueOf(_) => false,
            Next::Any => fits,
            Next::Image => fits,
        }
    }
}

// Whether what was given is a request with these words. Each word that is taken gives a name that wasn't given, awaits its
// value, or ends the options: so few calls are open at once.
fn make_request<'a>(words: &'a [String], given: Given<'a>) -> bool
    ensures { (s : Settings) → Holds given.entry s → result ≡ is_some (option_and_then request_from (rest_after given.entry.next (map string_bytes words.entry.now) s)) }
{
    match words.split_first() {
        None => given.is_request(),
        Some((word, rest)) => match given.after(word) {
            None => false,
            Some(given) => make_request(rest, given),
        },
    }
}

/// Whether the words are a request, found out without memory.
pub fn are_request(words: &Vec<String>) -> bool
    ensures { result ≡ is_some (request_of (map string_bytes words.now.items)) }
{
    make_request(words.as_slice(), Given::none())
}
