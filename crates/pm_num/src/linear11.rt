//! LINEAR11.

ghost use Rattle.std.specs.Prelude.{◌≡◌, ℕ, ◌*◌, ◌^◌, ◌<◌, ◌≤◌, pos, neg_ℤ, ◌-ℤ◌, ◌*ℤ◌, ◌<ℤ◌, ◌≤ℤ◌, unsigned_abs};
ghost use Rattle.pm_num.specs.Ratio.{IsBetween};
ghost use Rattle.pm_num.specs.Value.{upper, exponent, mantissa, linear11_value, linear11_least, linear11_greatest};
ghost use Rattle.pm_num.specs.Nearest.{linear11_rank};
ghost use Rattle.pm_num.specs.Formats.{IsExponent};
ghost use Rattle.pm_num.specs.Steps.{IsFloor, IsCeiling, IsRounded, IsSpelling, IsFar, IsLarge, IsPreferred, IsPlaceFor};
ghost use Rattle.pm_num.specs.Lemmas.OneWord.{one_from_nearest};
ghost use Rattle.pm_num.specs.Lemmas.Unsigned.{lower-positive};
ghost use Rattle.pm_num.specs.Lemmas.Spelling.{linear11-within, linear11-one_word};
ghost use Rattle.std.proofs.Common.{refl, lit<};

use crate::bounds::BoundFormat;
use crate::fault::NumFault;
use crate::format::{capped, in_range, raised};
use crate::frac::Frac;
use crate::num_format::NumFormat;
use crate::power::{lower_of_two, power_of_two, upper_of_two};
use crate::whole::{ceiling, floor, product, rounded, short_product};

/// LINEAR11 of PMBus 1.3 Part II: a word stands for `Y * 2^N`, with the exponent `N` in bits 15:11
/// and the mantissa `Y` in bits 10:0, both in two's complement.
#[derive(Clone, Copy, Debug, PartialEq, Eq, Hash)]
pub struct Linear11;

// The word of the least value, -1024 * 2^15.
const LEAST: u16 = 0x7C00;

// The word of the greatest value, 1023 * 2^15.
const GREATEST: u16 = 0x7BFF;

// The place of the exponent 0. A place is an exponent counted from the least, -16.
const UNIT_PLACE: u32 = 16;

// The number `mantissa * 2^(place - 16)`.
#[derive(Clone, Copy)]
struct Spelling {
    mantissa: i128,
    place: u32,
}

impl NumFormat for Linear11 {
    ghost value = { λ _. linear11_value };

    ghost rank = { λ _. linear11_rank };

    ghost lowest = { λ _. linear11_value linear11_least };

    ghost highest = { λ _. linear11_value linear11_greatest };

    ghost has_den = { λ f w h. lower-positive (exponent w) };

    ghost within = { λ f w h. linear11-within w h };

    ghost least_met = { λ f. (linear11_least, lit< tt, refl) };

    ghost greatest_met = { λ f. (linear11_greatest, lit< tt, refl) };

    ghost one = { λ f x u w h k.
        one_from_nearest linear11_value linear11_rank linear11-one_word x u w h k };

    fn least(&self) -> Frac {
        self.value_of(LEAST)
    }

    fn greatest(&self) -> Frac {
        self.value_of(GREATEST)
    }

    fn value_of(&self, word: u16) -> Frac {
        Frac::of(numerator(word), lower_of_two(exponent_of(word)))
    }

    fn nearest(&self, x: Frac) -> Result<u16, NumFault> {
        in_range(&x, &self.least(), &self.greatest())?;
        let place = place_for(&x);
        let mantissa = mantissa_at(&x, place);
        Ok(word_of(preferred(settled(mantissa, place))))
    }
}

impl BoundFormat for Linear11 {
    fn round_down(&self, x: Frac) -> Result<u16, NumFault> {
        let x = capped(x, &self.least(), &self.greatest())?;
        let place = place_for(&x);
        let mantissa = mantissa_below(&x, place);
        Ok(word_of(preferred(settled(mantissa, place))))
    }

    fn round_up(&self, x: Frac) -> Result<u16, NumFault> {
        let x = raised(x, &self.least(), &self.greatest())?;
        let place = place_for(&x);
        let mantissa = mantissa_above(&x, place);
        Ok(word_of(preferred(settled(mantissa, place))))
    }
}

// Bits 15:11 in two's complement.
fn exponent_of(word: u16) -> i8
    ensures value { result ≡ exponent word }
    ensures range { IsExponent result }
{
    let field = (word >> 11) as i8;
    if field < 16 { field } else { field - 32 }
}

// Bits 10:0 in two's complement.
fn mantissa_of(word: u16) -> i16
    ensures value { result ≡ mantissa word }
    ensures above { neg_ℤ (pos 1024) ≤ℤ result }
    ensures below { result ≤ℤ pos 1023 }
{
    let field = (word % 2048) as i16;
    if field < 1024 { field } else { field - 2048 }
}

// The numerator of the value of `word`.
fn numerator(word: u16) -> i64
    ensures value { result ≡ mantissa word *ℤ pos (upper 2 (exponent word)) }
    ensures small { unsigned_abs result ≤ 2 ^ 55 }
{
    short_product(
        i64::from(mantissa_of(word)),
        upper_of_two(exponent_of(word)),
    )
}

// The least place at which mantissas of at most 1024 in size reach `x`.
fn place_for(x: &Frac) -> u32
    requires { IsBetween (linear11_value linear11_least) (linear11_value linear11_greatest) x.now }
    ensures { IsPlaceFor x.now result }
{
    least_place(x.num().unsigned_abs() << 16, x.den().unsigned_abs() << 10)
}

// The least `place` with `size` at most `unit * 2^place`.
fn least_place(size: u128, unit: u128) -> u32
    requires reachable { size ≤ unit * 2 ^ 31 }
    requires unit_small { unit ≤ 2 ^ 65 }
    ensures bounded { result ≤ 31 }
    ensures reached { size ≤ unit * 2 ^ result }
    ensures least { (j : ℕ) → j < result → unit * 2 ^ j < size }
{
    let mut place = 0;
    let mut limit = unit;
    while limit < size {
        limit *= 2;
        place += 1;
    }
    place
}

// `x` times 2^16, which is a numerator over `place_unit`.
fn scaled_number(x: &Frac) -> i128
    ensures value { result ≡ x.now.num *ℤ pos (2 ^ 16) }
    ensures small { unsigned_abs result < 2 ^ 120 }
{
    product(x.short_num(), 1 << UNIT_PLACE)
}

// The unit of `place`, times the denominator of `x`.
fn place_unit(x: &Frac, place: u32) -> i128
    requires { place ≤ 31 }
    ensures value { result ≡ pos (x.now.den * 2 ^ place) }
    ensures positive { pos 0 <ℤ result }
    ensures small { unsigned_abs result < 2 ^ 120 }
{
    product(x.short_den(), power_of_two(place))
}

// The mantissa, at `place`, of the multiple of that place's unit that is nearest to `x`.
fn mantissa_at(x: &Frac, place: u32) -> i128
    requires { place ≤ 31 }
    ensures { IsRounded (x.now.num *ℤ pos (2 ^ 16)) (pos (x.now.den * 2 ^ place)) result }
{
    rounded(scaled_number(x), place_unit(x, place))
}

// The mantissa, at `place`, of the greatest multiple of that place's unit that is not above `x`.
fn mantissa_below(x: &Frac, place: u32) -> i128
    requires { place ≤ 31 }
    ensures { IsFloor (x.now.num *ℤ pos (2 ^ 16)) (pos (x.now.den * 2 ^ place)) result }
{
    floor(scaled_number(x), place_unit(x, place))
}

// The mantissa, at `place`, of the least multiple of that place's unit that is not below `x`.
fn mantissa_above(x: &Frac, place: u32) -> i128
    requires { place ≤ 31 }
    ensures { IsCeiling (x.now.num *ℤ pos (2 ^ 16)) (pos (x.now.den * 2 ^ place)) result }
{
    ceiling(scaled_number(x), place_unit(x, place))
}

// A spelling of `mantissa * 2^(place - 16)` that a word has; above place 16 the one of the lowest
// place.
fn settled(mantissa: i128, place: u32) -> Spelling
    requires above { neg_ℤ (pos 1024) ≤ℤ mantissa }
    requires below { mantissa ≤ℤ pos 1024 }
    requires bounded { place ≤ 31 }
    requires room { mantissa ≡ pos 1024 → place < 31 }
    requires far { 16 < place → IsFar mantissa }
    ensures same { result.mantissa *ℤ pos (2 ^ result.place) ≡ mantissa *ℤ pos (2 ^ place) }
    ensures spelling { IsSpelling result.mantissa result.place }
    ensures large { 16 < result.place → IsLarge result.mantissa }
{
    if mantissa == 1024 {
        Spelling {
            mantissa: 512,
            place: place + 1,
        }
    } else if mantissa == -512 && UNIT_PLACE < place {
        Spelling {
            mantissa: -1024,
            place: place - 1,
        }
    } else {
        Spelling { mantissa, place }
    }
}

// The spelling of the same number whose place is nearest to that of exponent 0.
fn preferred(s: Spelling) -> Spelling
    requires spelling { IsSpelling s.mantissa s.place }
    requires large { 16 < s.place → IsLarge s.mantissa }
    ensures same { result.mantissa *ℤ pos (2 ^ result.place) ≡ s.mantissa *ℤ pos (2 ^ s.place) }
    ensures spelling { IsSpelling result.mantissa result.place }
    ensures preferred { IsPreferred result.mantissa result.place }
{
    let mut mantissa = s.mantissa;
    let mut place = s.place;
    while place < UNIT_PLACE && mantissa % 2 == 0 {
        mantissa /= 2;
        place += 1;
    }
    Spelling { mantissa, place }
}

// The word with this mantissa and the exponent of this place.
fn word_of(s: Spelling) -> u16
    requires { IsSpelling s.mantissa s.place }
    ensures mantissa { mantissa result ≡ s.mantissa }
    ensures exponent { exponent result ≡ pos s.place -ℤ pos 16 }
{
    let high = (s.place + UNIT_PLACE) % 32;
    let low = if s.mantissa < 0 {
        s.mantissa + 2048
    } else {
        s.mantissa
    };
    high as u16 * 2048 + low as u16
}
