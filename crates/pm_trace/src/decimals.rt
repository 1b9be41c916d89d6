//! Numbers in whole millionths.
ghost use Rattle.std.specs.Prelude.{◌≡◌, ◌++◌, ◌*◌, ◌/◌, ◌%◌, ◌^◌, ◌<◌, ◌≤ℤ◌, ◌<ℤ◌, pos, neg_ℤ, unsigned_abs, OnOk, string_bytes};
ghost use Rattle.pm_trace.specs.ValueText.{millionths_text, minus as minus_text, digits_after_point, point_text, size_text};
ghost use Rattle.pm_trace.specs.Values.{millionths as spec_millionths};

use pm_lines::push_decimal;
use pm_num::Frac;
use std::alloc::AllocError;

/// Appends a fraction to a text as a decimal number, rounded down to a millionth and without zeros at its end, as
/// `3.300048`.
#[tactic(auto, using(pm_lines::specs::Lemmas::Joins::joins))]
pub fn push_millionths(text: &mut String, ratio: Frac) -> Result<(), AllocError>
    ensures { OnOk result (string_bytes text.new ≡ string_bytes text.old ++ millionths_text (spec_millionths ratio)) }
{
    push_decimal_number(text, millionths(ratio))
}

// Appends millionths as a decimal number.
#[tactic(auto, using(crate::proofs::ValueLemmas::negative_text, crate::proofs::ValueLemmas::positive_text))]
fn push_decimal_number(text: &mut String, size: i128) -> Result<(), AllocError>
    requires least { neg_ℤ (pos (2 ^ 55 * 1000000)) ≤ℤ size }
    requires most { size ≤ℤ pos (2 ^ 55 * 1000000) }
    ensures { OnOk result (string_bytes text.new ≡ string_bytes text.old ++ millionths_text size) }
{
    if size < 0 {
        push_negative(text, size)
    } else {
        push_size(text, size)
    }
}

// Appends millionths below 0, with their sign.
#[tactic(auto, using(pm_lines::specs::Lemmas::Joins::joins))]
fn push_negative(text: &mut String, size: i128) -> Result<(), AllocError>
    requires least { neg_ℤ (pos (2 ^ 55 * 1000000)) ≤ℤ size }
    requires below { size <ℤ pos 0 }
    ensures { OnOk result (string_bytes text.new
        ≡ string_bytes text.old ++ (minus_text ++ size_text (unsigned_abs (neg_ℤ size)))) }
{
    let (whole, part) = negative_parts(size);
    text.push_str(minus())?;
    push_decimal(text, whole)?;
    push_point(text, part)
}

// The whole part of so many millionths below 0, without the sign, and what is left.
fn negative_parts(size: i128) -> (u64, u64)
    requires least { neg_ℤ (pos (2 ^ 55 * 1000000)) ≤ℤ size }
    requires below { size <ℤ pos 0 }
    ensures whole { result.0 ≡ unsigned_abs (neg_ℤ size) / 1000000 }
    ensures part { result.1 ≡ unsigned_abs (neg_ℤ size) % 1000000 }
{
    let opposite = -size;
    ((opposite / 1_000_000) as u64, (opposite % 1_000_000) as u64)
}

// The sign of a number below 0.
#[tactic(auto, unfolding(crate::specs::ValueText::minus))]
fn minus() -> &'static str
    ensures { result.now ≡ minus_text }
{
    "-"
}

// Appends millionths without a sign.
#[tactic(auto, using(pm_lines::specs::Lemmas::Joins::joins))]
fn push_size(text: &mut String, size: i128) -> Result<(), AllocError>
    requires above { pos 0 ≤ℤ size }
    requires below { size ≤ℤ pos (2 ^ 55 * 1000000) }
    ensures { OnOk result (string_bytes text.new ≡ string_bytes text.old ++ size_text (unsigned_abs size)) }
{
    let (whole, part) = parts_of(size);
    push_decimal(text, whole)?;
    push_point(text, part)
}

// The whole part of so many millionths, and what is left.
fn parts_of(size: i128) -> (u64, u64)
    requires above { pos 0 ≤ℤ size }
    requires below { size ≤ℤ pos (2 ^ 55 * 1000000) }
    ensures whole { result.0 ≡ unsigned_abs size / 1000000 }
    ensures part { result.1 ≡ unsigned_abs size % 1000000 }
{
    ((size / 1_000_000) as u64, (size % 1_000_000) as u64)
}

// The point and the digits after it, if there are any.
#[tactic(auto, using(pm_lines::specs::Lemmas::Joins::joins))]
fn push_point(text: &mut String, part: u64) -> Result<(), AllocError>
    requires { part < 1000000 }
    ensures { OnOk result (string_bytes text.new ≡ string_bytes text.old ++ point_text part) }
{
    if part == 0 {
        return Ok(());
    }
    text.push_str(".")?;
    push_places(text, 6, part)
}

// The digits after the point, at most this many.
#[tactic(auto, using(pm_lines::specs::Lemmas::Joins::joins))]
fn push_places(text: &mut String, most: u32, part: u64) -> Result<(), AllocError>
    requires { part < 1000000 }
    ensures { OnOk result (string_bytes text.new ≡ string_bytes text.old ++ digits_after_point most part) }
{
    if most == 0 || part == 0 {
        return Ok(());
    }
    push_decimal(text, part * 10 / 1_000_000)?;
    push_places(text, most - 1, part * 10 % 1_000_000)
}

/// The whole millionths of a fraction, rounded down.
pub fn millionths(ratio: Frac) -> i128
    ensures value { result ≡ spec_millionths ratio }
    ensures least { neg_ℤ (pos (2 ^ 55 * 1000000)) ≤ℤ result }
    ensures most { result ≤ℤ pos (2 ^ 55 * 1000000) }
{
    (ratio.num() * 1_000_000).div_euclid(ratio.den())
}
