//! Numbers as texts write them. `std` reads a leading `+`, which is a fault here.
ghost use Rattle.std.specs.Prelude.{◌≡◌, ◌≢◌, IfSome, IfNone, slice_index};
ghost use Rattle.pm_lines.specs.Digits.{decimal_of, hex_of, natural_of, signed_of, small_of};

use crate::hex_digit::pair_of;

/// The decimal number of a text, if it is 0 to 255 and has no sign.
pub fn read_u8(text: &[u8]) -> Option<u8>
    ensures { result ≡ small_of text.now }
{
    // most numbers are one digit
    if let [digit @ b'0'..=b'9'] = text {
        return Some(*digit - b'0');
    }
    plain_text(text)?.parse().ok()
}

/// The decimal number of a text, if it is an `i8`.
pub fn read_i8(text: &[u8]) -> Option<i8>
    ensures { result ≡ signed_of 8 text.now }
{
    plain_text(text)?.parse().ok()
}

/// The decimal number of a text, if it is an `i16`.
pub fn read_i16(text: &[u8]) -> Option<i16>
    ensures { result ≡ signed_of 16 text.now }
{
    plain_text(text)?.parse().ok()
}

/// The decimal number of a text, if it is an `i64`.
pub fn read_i64(text: &[u8]) -> Option<i64>
    ensures { result ≡ signed_of 64 text.now }
{
    plain_text(text)?.parse().ok()
}

/// The byte that two hexadecimal digits write, in either case.
pub fn read_byte(text: &[u8]) -> Option<u8>
    ensures { result ≡ hex_of 2 text.now }
{
    match text {
        [high, low] => pair_of(*high, *low),
        _ => None,
    }
}

/// The word that four hexadecimal digits write, in either case.
pub fn read_word(text: &[u8]) -> Option<u16>
    ensures { result ≡ hex_of 4 text.now }
{
    match text {
        [first, second, third, fourth] => {
            let high = pair_of(*first, *second)?;
            let low = pair_of(*third, *fourth)?;
            Some(u16::from(high) * 256 + u16::from(low))
        }
        _ => None,
    }
}

// The bytes as a text. `None` if they begin with `+` or are no text; they write no number then.
fn plain_text(bytes: &[u8]) -> Option<&str>
    ensures text { IfSome result (λ text. text.now ≡ bytes.now) }
    ensures plain { IfSome result (λ text. slice_index text.now 0 ≢ 43) }
    ensures decimal { IfNone result (decimal_of bytes.now ≡ None) }
    ensures natural { IfNone result (natural_of 10 bytes.now ≡ None) }
{
    if bytes.starts_with(b"+") {
        return None;
    }
    str::from_utf8(bytes).ok()
}
