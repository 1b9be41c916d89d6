//! DIRECT.

ghost use Rattle.std.specs.Prelude.{◌≡◌, ◌≢◌, ◌*◌, ◌^◌, ◌≤◌, ◌↔◌, ◌≤ℤ◌, ◌*ℤ◌, ◌-ℤ◌, pos, neg_ℤ, unsigned_abs, IsOk, IfOk, Err};
ghost use Rattle.pm_num.specs.Value.{upper, lower, signed, sign, direct_value, direct_least, direct_greatest};
ghost use Rattle.pm_num.specs.Nearest.{one_rank};
ghost use Rattle.pm_num.specs.Ratio.{is_above};
ghost use Rattle.pm_num.specs.Steps.{direct_spacing};
ghost use Rattle.pm_num.specs.Formats.{IsDecimal};
ghost use Rattle.pm_num.specs.declared.fault.NumFault.TheVariants.{ZeroSlope, ExponentRange};
ghost use Rattle.pm_num.specs.Lemmas.OneWord.{one_from_nearest};
ghost use Rattle.pm_num.specs.Lemmas.Slope.{direct-has_den, direct-within, direct-one_word, direct-least_met, direct-greatest_met};

use crate::bounds::BoundFormat;
use crate::fault::NumFault;
use crate::format::{capped, in_range, raised};
use crate::frac::Frac;
use crate::grid::Grid;
use crate::num_format::NumFormat;
use crate::power::{lower_of_ten, upper_of_ten};
use crate::whole::short_product;

// The word of the least number in two's complement.
const SMALLEST: u16 = 0x8000;

// The word of the greatest number in two's complement.
const LARGEST: u16 = 0x7FFF;

/// DIRECT of PMBus 1.3 Part II: a word `Y`, in two's complement, stands for `(Y * 10^-R - b) / m`. The
/// coefficients `m`, `b` and `R` come from COEFFICIENTS.
///
/// `m` is not 0 and `R` is from -12 to 12, which is this project's own choice.
#[derive(Clone, Copy, Debug, PartialEq, Eq, Hash)]
pub struct Direct {
    /// The slope.
    m: i16,
    /// The offset.
    b: i16,
    /// The decimal exponent.
    r: i8,
    ghost slope: { m ≢ pos 0 },
    ghost decimal: { IsDecimal r },
}

impl Direct {
    ghost use Rattle.pm_num.specs.Parameters.{HasCoefficients};

    /// The format with coefficients `m`, `b` and `r`. N1 [`NumFault::ZeroSlope`] exactly if `m` is 0;
    /// otherwise N2 [`NumFault::ExponentRange`] exactly if `r` is not from -12 to 12.
    pub fn new(m: i16, b: i16, r: i8) -> Result<Direct, NumFault>
        ensures zero_slope { (result ≡ Err ZeroSlope) ↔ (m ≡ pos 0) }
        ensures accepted { IsOk result ↔ ((m ≢ pos 0) × IsDecimal r) }
        ensures exponent_range { (result ≡ Err ExponentRange) ↔ ((m ≢ pos 0) × ¬ IsDecimal r) }
        ensures coefficients { IfOk result (λ f. HasCoefficients f m b r) }
    {
        if m == 0 {
            return Err(NumFault::ZeroSlope);
        }
        if r < -12 || 12 < r {
            return Err(NumFault::ExponentRange);
        }
        Ok(Direct { m, b, r })
    }

    /// Whether the value of `word` is greater than that of `other`: in two's complement the greater word has the greater
    /// value, or with a slope below 0 the lesser one.
    pub fn is_above(&self, word: u16, other: u16) -> bool
        ensures { result ≡ is_above (direct_value self.now.m self.now.b self.now.r word)
            (direct_value self.now.m self.now.b self.now.r other) }
    {
        let (y, z) = (word.cast_signed(), other.cast_signed());
        if self.m < 0 { y < z } else { z < y }
    }

    // `z` times the sign of the slope.
    fn times_sign(&self, z: i64) -> i64
        requires { unsigned_abs z ≤ 2 ^ 56 }
        ensures value { result ≡ sign self.now.m *ℤ z }
        ensures size { unsigned_abs result ≡ unsigned_abs z }
    {
        if self.m < 0 { -z } else { z }
    }

    // The word as a number, times the denominator of `10^R`.
    fn scaled(&self, word: u16) -> i64
        ensures value { result ≡ signed 16 word *ℤ pos (lower 10 self.now.r) }
        ensures size { unsigned_abs result ≤ 2 ^ 15 * lower 10 self.now.r }
    {
        short_product(i64::from(word.cast_signed()), lower_of_ten(self.r))
    }

    // The offset `b`, times the numerator of `10^R`.
    fn offset(&self) -> i64
        ensures value { result ≡ self.now.b *ℤ pos (upper 10 self.now.r) }
        ensures size { unsigned_abs result ≤ 2 ^ 15 * upper 10 self.now.r }
        ensures small { unsigned_abs result ≤ 2 ^ 55 }
    {
        short_product(i64::from(self.b), upper_of_ten(self.r))
    }

    // The numerator of the value of `word`, but for the sign of the slope.
    fn difference(&self, word: u16) -> i64
        ensures value { let y = signed 16 word *ℤ pos (lower 10 self.now.r) in
            result ≡ y -ℤ self.now.b *ℤ pos (upper 10 self.now.r) }
        ensures small { unsigned_abs result ≤ 2 ^ 55 }
    {
        self.scaled(word) - self.offset()
    }

    // The denominator of every value.
    fn den(&self) -> i64
        ensures value { result ≡ pos (unsigned_abs self.now.m * upper 10 self.now.r) }
        ensures positive { pos 1 ≤ℤ result }
        ensures small { result ≤ℤ pos (2 ^ 55) }
    {
        short_product(i64::from(self.m.unsigned_abs()), upper_of_ten(self.r))
    }

    // The values of all words, evenly spaced; a value's place grows with it.
    fn grid(&self) -> Grid
        ensures { result ≡ direct_spacing self.now.m self.now.b self.now.r }
    {
        Grid::new(
            self.den(),
            lower_of_ten(self.r),
            self.times_sign(self.offset()),
        )
    }
}

// The word that is `y` in two's complement.
fn word_of(y: i64) -> u16
    requires above { neg_ℤ (pos 32768) ≤ℤ y }
    requires below { y ≤ℤ pos 32767 }
    ensures { signed 16 result ≡ y }
{
    (y as i16).cast_unsigned()
}

impl NumFormat for Direct {
    ghost value = { λ f w. direct_value f.m f.b f.r w };

    ghost rank = { λ _. one_rank };

    ghost lowest = { λ f. direct_value f.m f.b f.r (direct_least f.m) };

    ghost highest = { λ f. direct_value f.m f.b f.r (direct_greatest f.m) };

    ghost has_den = { λ f w h. direct-has_den f.m f.b f.r w f.slope };

    ghost within = { λ f w h. direct-within f.m f.b f.r w h };

    ghost least_met = { λ f. direct-least_met f.m f.b f.r };

    ghost greatest_met = { λ f. direct-greatest_met f.m f.b f.r };

    ghost one = { λ f x u w h k.
        one_from_nearest (direct_value f.m f.b f.r) one_rank
        (direct-one_word f.m f.b f.r f.slope) x u w h k };

    fn least(&self) -> Frac {
        self.value_of(if self.m < 0 { LARGEST } else { SMALLEST })
    }

    fn greatest(&self) -> Frac {
        self.value_of(if self.m < 0 { SMALLEST } else { LARGEST })
    }

    fn value_of(&self, word: u16) -> Frac {
        Frac::of(self.times_sign(self.difference(word)), self.den())
    }

    fn nearest(&self, x: Frac) -> Result<u16, NumFault> {
        in_range(&x, &self.least(), &self.greatest())?;
        Ok(word_of(self.times_sign(self.grid().nearest(&x) as i64)))
    }
}

impl BoundFormat for Direct {
    fn round_down(&self, x: Frac) -> Result<u16, NumFault> {
        let x = capped(x, &self.least(), &self.greatest())?;
        Ok(word_of(self.times_sign(self.grid().floor(&x) as i64)))
    }

    fn round_up(&self, x: Frac) -> Result<u16, NumFault> {
        let x = raised(x, &self.least(), &self.greatest())?;
        Ok(word_of(self.times_sign(self.grid().ceiling(&x) as i64)))
    }
}
