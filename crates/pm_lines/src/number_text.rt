//! Numbers in a text.
ghost use Rattle.std.specs.Prelude.{◌≡◌, ◌+◌, ◌<◌, ◌++◌, ◌∷◌, [], true, OnOk, decimal, string_bytes};
ghost use Rattle.std.specs.Fmt.{digit_glyph, signed_decimal};
ghost use Rattle.pm_lines.specs.Numbers.{hex_byte, hex_number, hex_word};

use std::alloc::AllocError;

// The digits of hexadecimal numbers, in order, of which the first ten are those of decimal ones.
const DIGITS: &str = "0123456789ABCDEF";

// The two digits of each byte, in order.
const PAIRS: &str = "\
    000102030405060708090A0B0C0D0E0F101112131415161718191A1B1C1D1E1F\
    202122232425262728292A2B2C2D2E2F303132333435363738393A3B3C3D3E3F\
    404142434445464748494A4B4C4D4E4F505152535455565758595A5B5C5D5E5F\
    606162636465666768696A6B6C6D6E6F707172737475767778797A7B7C7D7E7F\
    808182838485868788898A8B8C8D8E8F909192939495969798999A9B9C9D9E9F\
    A0A1A2A3A4A5A6A7A8A9AAABACADAEAFB0B1B2B3B4B5B6B7B8B9BABBBCBDBEBF\
    C0C1C2C3C4C5C6C7C8C9CACBCCCDCECFD0D1D2D3D4D5D6D7D8D9DADBDCDDDEDF\
    E0E1E2E3E4E5E6E7E8E9EAEBECEDEEEFF0F1F2F3F4F5F6F7F8F9FAFBFCFDFEFF";

/// Appends a number in decimal. Takes memory as the text grows.
#[tactic(auto, using(crate::specs::Lemmas::Joins::digit_joins))]
pub fn push_decimal(text: &mut String, number: u64) -> Result<(), AllocError>
    ensures { OnOk result (string_bytes text.new ≡ string_bytes text.old ++ decimal number) }
{
    if number < 10 {
        return text.push_str(digit_text(number as u8));
    }
    let mut digits = itoa::Buffer::new();
    text.push_str(digits.format(number))
}

/// Appends a number in decimal, with `-` before it if it is negative. Takes memory as the text grows.
pub fn push_signed(text: &mut String, number: i128) -> Result<(), AllocError>
    ensures { OnOk result (string_bytes text.new ≡ string_bytes text.old ++ signed_decimal number) }
{
    let mut digits = itoa::Buffer::new();
    text.push_str(digits.format(number))
}

/// Appends a byte in hexadecimal, as two digits in upper case. Takes memory as the text
/// grows.
pub fn push_hex(text: &mut String, byte: u8) -> Result<(), AllocError>
    ensures { OnOk result (string_bytes text.new ≡ string_bytes text.old ++ hex_byte byte) }
{
    text.push_str(pair_text(byte))
}

/// Appends a word in hexadecimal, as four digits in upper case. Takes memory as the text
/// grows.
#[tactic(auto, using(crate::specs::Lemmas::Joins::joins), unfolding(crate::specs::Numbers::hex_word))]
pub fn push_hex_word(text: &mut String, word: u16) -> Result<(), AllocError>
    ensures { OnOk result (string_bytes text.new ≡ string_bytes text.old ++ hex_word word) }
{
    push_hex(text, (word / 256) as u8)?;
    push_hex(text, (word % 256) as u8)
}

/// Appends a number in hexadecimal; `bytes` is the number, low byte first. Takes memory as the text
/// grows.
#[tactic(auto, using(crate::specs::Lemmas::Joins::joins))]
pub fn push_hex_number(text: &mut String, bytes: &[u8]) -> Result<(), AllocError>
    ensures { OnOk result (string_bytes text.new ≡ string_bytes text.old ++ hex_number bytes.now) }
{
    match bytes {
        [] => Ok(()),
        [low, high] => {
            push_hex(text, *high)?;
            push_hex(text, *low)
        }
        [low, higher @ ..] => {
            push_hex_number(text, higher)?;
            push_hex(text, *low)
        }
    }
}

/// A byte as two hexadecimal digits in upper case.
#[tactic(auto, unfolding(crate::specs::Numbers::hex_byte))]
pub fn hex_digits(byte: u8) -> [u8; 2]
    ensures { result ≡ hex_byte byte }
{
    [hex_glyph(byte / 16), hex_glyph(byte % 16)]
}

// The digit of a value, as a text.
fn digit_text(value: u8) -> &'static str
    requires { value < 16 }
    ensures { result.now ≡ digit_glyph true value ∷ [] }
{
    let at = usize::from(value);
    &DIGITS[at..at + 1]
}

// The two digits of a byte, as a text.
fn pair_text(byte: u8) -> &'static str
    ensures { result.now ≡ hex_byte byte }
{
    let at = 2 * usize::from(byte);
    &PAIRS[at..at + 2]
}

// The byte of a value's digit.
fn hex_glyph(value: u8) -> u8
    requires { value < 16 }
    ensures { result ≡ digit_glyph true value }
{
    DIGITS.as_bytes()[usize::from(value)]
}
