//! Hexadecimal digits, in either case, and the pairs that write a byte.
ghost use Rattle.std.specs.Prelude.{◌≡◌, ◌≤◌, ◌<◌, ◌∷◌, true, length, nat_lt, unwrap_or, if◌then◌else◌, IfSome, Some, None};
ghost use Rattle.hex.specs.Hex.{hex_digit_value, is_hex_digit};
ghost use Rattle.pm_lines.specs.Pairs.{byte_of as spec_byte_of, digit_value, pair_of as spec_pair_of, paired_bytes, behind_pairs};

// The value of each byte that is a digit, and 256 of each other one.
#[rattlefmt::skip]
const DIGIT_VALUES: [u16; 256] = [
    0x100, 0x100, 0x100, 0x100, 0x100, 0x100, 0x100, 0x100, 0x100, 0x100, 0x100, 0x100, 0x100, 0x100, 0x100, 0x100,
    0x100, 0x100, 0x100, 0x100, 0x100, 0x100, 0x100, 0x100, 0x100, 0x100, 0x100, 0x100, 0x100, 0x100, 0x100, 0x100,
    0x100, 0x100, 0x100, 0x100, 0x100, 0x100, 0x100, 0x100, 0x100, 0x100, 0x100, 0x100, 0x100, 0x100, 0x100, 0x100,
        0,     1,     2,     3,     4,     5,     6,     7,     8,     9, 0x100, 0x100, 0x100, 0x100, 0x100, 0x100,
    0x100,    10,    11,    12,    13,    14,    15, 0x100, 0x100, 0x100, 0x100, 0x100, 0x100, 0x100, 0x100, 0x100,
    0x100, 0x100, 0x100, 0x100, 0x100, 0x100, 0x100, 0x100, 0x100, 0x100, 0x100, 0x100, 0x100, 0x100, 0x100, 0x100,
    0x100,    10,    11,    12,    13,    14,    15, 0x100, 0x100, 0x100, 0x100, 0x100, 0x100, 0x100, 0x100, 0x100,
    0x100, 0x100, 0x100, 0x100, 0x100, 0x100, 0x100, 0x100, 0x100, 0x100, 0x100, 0x100, 0x100, 0x100, 0x100, 0x100,
    0x100, 0x100, 0x100, 0x100, 0x100, 0x100, 0x100, 0x100, 0x100, 0x100, 0x100, 0x100, 0x100, 0x100, 0x100, 0x100,
    0x100, 0x100, 0x100, 0x100, 0x100, 0x100, 0x100, 0x100, 0x100, 0x100, 0x100, 0x100, 0x100, 0x100, 0x100, 0x100,
    0x100, 0x100, 0x100, 0x100, 0x100, 0x100, 0x100, 0x100, 0x100, 0x100, 0x100, 0x100, 0x100, 0x100, 0x100, 0x100,
    0x100, 0x100, 0x100, 0x100, 0x100, 0x100, 0x100, 0x100, 0x100, 0x100, 0x100, 0x100, 0x100, 0x100, 0x100, 0x100,
    0x100, 0x100, 0x100, 0x100, 0x100, 0x100, 0x100, 0x100, 0x100, 0x100, 0x100, 0x100, 0x100, 0x100, 0x100, 0x100,
    0x100, 0x100, 0x100, 0x100, 0x100, 0x100, 0x100, 0x100, 0x100, 0x100, 0x100, 0x100, 0x100, 0x100, 0x100, 0x100,
    0x100, 0x100, 0x100, 0x100, 0x100, 0x100, 0x100, 0x100, 0x100, 0x100, 0x100, 0x100, 0x100, 0x100, 0x100, 0x100,
    0x100, 0x100, 0x100, 0x100, 0x100, 0x100, 0x100, 0x100, 0x100, 0x100, 0x100, 0x100, 0x100, 0x100, 0x100, 0x100,
];

/// The byte that two digits write, if both are digits.
pub fn pair_of(high: u8, low: u8) -> Option<u8>
    ensures { result ≡ spec_pair_of high low }
{
    let pair = pair_value(high, low);
    if pair < 256 { Some(pair as u8) } else { None }
}

// The byte that two digits write, and 256 or more if one of them is no digit.
#[tactic(auto, using(crate::proofs::ReadDigits::pair_value_is))]
fn pair_value(high: u8, low: u8) -> u16
    ensures { spec_pair_of high low ≡ (if nat_lt result 256 then Some result else None) }
{
    value_or_none(high) * 16 + value_or_none(low)
}

/// The byte of the two digits that stand first, and what follows the space after them; only if these stand
/// first. A caller reads on digit by digit after None: that costs time and no more, and the clauses leave
/// open when it comes.
pub fn spaced_pair(digits: &[u8]) -> Option<(u8, &[u8])>
    ensures byte { IfSome result (λ pair. paired_bytes digits.now ≡ pair.0 ∷ paired_bytes pair.1.now) }
    ensures rest { IfSome result (λ pair. behind_pairs digits.now ≡ behind_pairs pair.1.now) }
    ensures fewer { IfSome result (λ pair. length pair.1.now < length digits.now) }
{
    match digits {
        [high, low, b' ', more @ ..] => Some((pair_of(*high, *low)?, more)),
        _ => None,
    }
}

/// The bytes of the four pairs of digits that stand first, with a space between each, and what follows them;
/// only if four such pairs stand first. The clauses leave open when None comes, as those of `spaced_pair` do.
pub fn four_pairs(digits: &[u8]) -> Option<(u8, u8, u8, u8, &[u8])>
    ensures bytes { IfSome result (λ four. paired_bytes digits.now
        ≡ four.0 ∷ four.1 ∷ four.2 ∷ four.3 ∷ paired_bytes four.4.now) }
    ensures rest { IfSome result (λ four. behind_pairs digits.now ≡ behind_pairs four.4.now) }
    ensures fewer { IfSome result (λ four. length four.4.now < length digits.now) }
{
    match digits {
        [a, b, b' ', c, d, b' ', e, f, b' ', g, h, more @ ..] => {
            let first = pair_value(*a, *b);
            let second = pair_value(*c, *d);
            let third = pair_value(*e, *f);
            let fourth = pair_value(*g, *h);
            if !are_bytes(first, second, third, fourth) {
                return None;
            }
            Some((first as u8, second as u8, third as u8, fourth as u8, more))
        }
        _ => None,
    }
}

// Whether each of four numbers is a byte.
#[tactic(auto, using(crate::proofs::ReadDigits::four_bytes))]
fn are_bytes(first: u16, second: u16, third: u16, fourth: u16) -> bool
    ensures { result ≡ true → (first < 256) × (second < 256) × (third < 256) × (fourth < 256) }
{
    first | second | third | fourth < 256
}

/// Whether the byte is a digit.
pub fn is_digit(byte: u8) -> bool
    ensures { result ≡ is_hex_digit byte }
{
    value_or_none(byte) < 16
}

/// The byte that two digits write; a byte that is no digit counts as 0.
pub fn byte_of(high: u8, low: u8) -> u8
    ensures { result ≡ spec_byte_of high low }
{
    value(high) * 16 + value(low)
}

// The value of a digit, and 0 for another byte.
fn value(byte: u8) -> u8
    ensures value { result ≡ digit_value byte }
    ensures small { result ≤ 15 }
{
    let value = value_or_none(byte);
    if value < 16 { value as u8 } else { 0 }
}

// The value of a digit, and 256 for another byte.
fn value_or_none(byte: u8) -> u16
    ensures value { result ≡ unwrap_or (hex_digit_value byte) 256 }
    ensures few { result ≤ 256 }
{
    DIGIT_VALUES[usize::from(byte)]
}
