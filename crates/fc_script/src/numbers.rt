// The words of a line that say numbers.
ghost use Rattle.std.specs.Prelude.{◌≡◌, ◌≤◌};
ghost use Rattle.std.specs.List.{list_all};
ghost use Rattle.std.specs.Str.Parse.{IsNumeral};
ghost use Rattle.hex.specs.Hex.{is_hex_digit};
ghost use Rattle.fc_script.specs.Lines.{access_of, is_decimal, is_digit, length_of, word_of};
ghost use Rattle.fc_script.specs.Words.{number_of};

const HEX: u32 = 16;

const DECIMAL: u32 = 10;

fn is_hex_digit(c: u8) -> bool
    ensures { result ≡ is_hex_digit c }
{
    c.is_ascii_hexdigit()
}

/// Whether a text has only hexadecimal digits, of either case.
pub fn are_hex_digits(text: &str) -> bool
    ensures { result ≡ list_all is_hex_digit text.now }
{
    text.bytes().all(|c| is_hex_digit(c))
}

fn are_digits(text: &str) -> bool
    ensures { result ≡ list_all is_digit text.now }
{
    text.bytes().all(|c| c.is_ascii_digit())
}

// The number that digits of a base say, if it fits.
fn read_number(digits: &str, base: u32) -> Option<u32>
    requires low { 2 ≤ base }
    requires high { base ≤ 36 }
    requires digits { IsNumeral base digits.now }
    ensures { result ≡ number_of base digits.now }
{
    u32::from_str_radix(digits, base).ok()
}

/// The number of eight hexadecimal digits, of either case.
pub fn read_word(text: &str) -> Option<u32>
    ensures { result ≡ word_of text.now }
{
    if text.len() == 8 && are_hex_digits(text) {
        read_number(text, HEX)
    } else {
        None
    }
}

// Whether a text is decimal, without leading zeros.
fn is_decimal(text: &str) -> bool
    ensures { result ≡ is_decimal text.now }
{
    !text.is_empty() && are_digits(text) && (text.len() == 1 || text.as_bytes()[0] != b'0')
}

/// A decimal number below 2^32, without leading zeros.
pub fn read_length(text: &str) -> Option<u32>
    ensures { result ≡ length_of text.now }
{
    if is_decimal(text) {
        read_number(text, DECIMAL)
    } else {
        None
    }
}

/// The access bits that a word says: `-`, or letters of `R`, `W` and `L` in this order, for bits 0, 1 and 2.
pub fn read_access(text: &str) -> Option<u32>
    ensures { result ≡ access_of text.now }
{
    match text {
        "-" => Some(0),
        "R" => Some(1),
        "W" => Some(2),
        "RW" => Some(3),
        "L" => Some(4),
        "RL" => Some(5),
        "WL" => Some(6),
        "RWL" => Some(7),
        _ => None,
    }
}
