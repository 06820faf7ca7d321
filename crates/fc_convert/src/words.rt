// The words of a conversion.
ghost use Rattle.std.specs.Prelude.{◌≡◌, map, option_map, string_bytes};
ghost use Rattle.fc_format.specs.Fresh.{format_of};
ghost use Rattle.fc_convert.specs.Convert.{convert_words};
ghost use Rattle.fc_convert.specs.Words.{words_in};

use fc_format::Format;

/// What the words say: the target's format, and the names of source and target.
#[derive(Clone, Copy)]
pub struct Asked<'a> {
    pub format: Format,
    pub from: &'a str,
    pub to: &'a str,
}

// The format that a word names.
fn format_of(word: &str) -> Option<Format>
    ensures { result ≡ format_of word.now }
{
    match word {
        "E" => Some(Format::E),
        "F" => Some(Format::F),
        "D" => Some(Format::D),
        "L" => Some(Format::L),
        "E+" => Some(Format::EPlus),
        "F+" => Some(Format::FPlus),
        _ => None,
    }
}

/// Reads the words: a format and two names that aren't empty.
pub fn read_words(words: &Vec<String>) -> Option<Asked<'_>>
    ensures { option_map words_in result ≡ convert_words (map string_bytes words.now.items) }
{
    let [format, from, to] = words.as_slice() else {
        return None;
    };
    if from.is_empty() || to.is_empty() {
        return None;
    }
    Some(Asked {
        format: format_of(format.as_str())?,
        from: from.as_str(),
        to: to.as_str(),
    })
}
