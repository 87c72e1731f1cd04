// Octets as words: two hexadecimal digits each.
ghost use Rattle.std.specs.Prelude.{◌≡◌};
ghost use Rattle.console.specs.Text.{half_of, hex_value, octet_of};

// The value of a hexadecimal digit, in upper or lower case.
fn value(digit: u8) -> Option<u8>
    ensures { result ≡ hex_value digit }
{
    char::from(digit).to_digit(16).map(|value| value as u8)
}

// The octet that a word of two hexadecimal digits stands for.
pub fn octet(word: &str) -> Option<u8>
    ensures { result ≡ octet_of word.now }
{
    match word.as_bytes() {
        [high, low] => Some(value(*high)? * 16 + value(*low)?),
        _ => None,
    }
}

// The half that a character of a text of digits stands for. Halves above 9 are handed over too, for the register to refuse.
pub fn half(character: u8) -> Option<u8>
    ensures { result ≡ half_of character }
{
    value(character).filter(|_| !character.is_ascii_lowercase())
}
