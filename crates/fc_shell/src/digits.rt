// Bytes as hexadecimal digits.
ghost use Rattle.std.specs.Prelude.{◌≡◌, ◌<◌, ◌*◌, length, slice_index};
ghost use Rattle.hex.specs.Hex.{encode_lower, lower_digits};

// The digit of a value.
fn digit(value: u8) -> u8
    requires { value < 16 }
    ensures { result ≡ slice_index lower_digits value }
{
    let letter = if value < 10 { 0 } else { b'a' - b'9' - 1 };
    b'0' + value + letter
}

/// Fills a text with the digits of bytes, two for each. Arithmetic in place of a table lets the compiler do many at once.
pub fn put_digits(bytes: &[u8], text: &mut [u8])
    requires { length text.old ≡ 2 * length bytes.now }
    ensures { text.new ≡ encode_lower bytes.now }
{
    for i in 0..bytes.len() {
        text[2 * i] = digit(bytes[i] / 16);
        text[2 * i + 1] = digit(bytes[i] % 16);
    }
}
