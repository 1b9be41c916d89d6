//! ULINEAR16.

ghost use Rattle.std.specs.Prelude.{◌≡◌, ◌^◌, ◌≤◌, ◌↔◌, pos, ◌*ℤ◌, unsigned_abs, IsSome, IfSome};
ghost use Rattle.pm_num.specs.Value.{upper, lower, ulinear16_value};
ghost use Rattle.pm_num.specs.Nearest.{one_rank};
ghost use Rattle.pm_num.specs.Ratio.{is_above};
ghost use Rattle.pm_num.specs.Formats.{IsExponent};
ghost use Rattle.pm_num.specs.Lemmas.OneWord.{one_from_nearest};
ghost use Rattle.pm_num.specs.Lemmas.Unsigned.{lower-positive, ulinear16-within, ulinear16-one_word};
ghost use Rattle.std.proofs.Common.{refl, lit<};

use crate::bounds::BoundFormat;
use crate::fault::NumFault;
use crate::format::{capped, in_range, raised};
use crate::frac::Frac;
use crate::grid::Grid;
use crate::num_format::NumFormat;
use crate::power::{lower_of_two, upper_of_two};
use crate::whole::short_product;

/// ULINEAR16 of PMBus 1.3 Part II: a word `V`, unsigned, stands for `V * 2^N`. The exponent `N` comes from
/// VOUT_MODE.
#[derive(Clone, Copy, Debug, PartialEq, Eq, Hash)]
pub struct Ulinear16 {
    /// The exponent.
    n: i8,
    ghost in_range: { IsExponent n },
}

impl Ulinear16 {
    ghost use Rattle.pm_num.specs.Parameters.{HasExponent};

    /// The format with exponent `n`; None exactly if `n` is not from -16 to 15.
    pub fn new(n: i8) -> Option<Ulinear16>
        ensures range { IsSome result ↔ IsExponent n }
        ensures exponent { IfSome result (λ f. HasExponent f n) }
    {
        if (-16..=15).contains(&n) {
            Some(Ulinear16 { n })
        } else {
            None
        }
    }

    /// Whether the value of `word` is greater than that of `other`: the greater word has the greater
    /// value.
    pub fn is_above(&self, word: u16, other: u16) -> bool
        ensures { result ≡ is_above (ulinear16_value self.now.n word) (ulinear16_value self.now.n other) }
    {
        word > other
    }

    // The numerator of the value of `word`.
    fn numerator(&self, word: u16) -> i64
        ensures value { result ≡ pos word *ℤ pos (upper 2 self.now.n) }
        ensures small { unsigned_abs result ≤ 2 ^ 55 }
    {
        short_product(i64::from(word), upper_of_two(self.n))
    }

    // The values of all words, evenly spaced.
    fn grid(&self) -> Grid
        ensures { result
            ≡ record { den = lower 2 self.now.n; step = upper 2 self.now.n; offset = pos 0 } }
    {
        Grid::new(lower_of_two(self.n), upper_of_two(self.n), 0)
    }
}

impl NumFormat for Ulinear16 {
    ghost value = { λ f w. ulinear16_value f.n w };

    ghost rank = { λ _. one_rank };

    ghost lowest = { λ f. ulinear16_value f.n 0 };

    ghost highest = { λ f. ulinear16_value f.n 65535 };

    ghost has_den = { λ f w h. lower-positive f.n };

    ghost within = { λ f w h. ulinear16-within f.n w h };

    ghost least_met = { λ f. (0, lit< tt, refl) };

    ghost greatest_met = { λ f. (65535, lit< tt, refl) };

    ghost one = { λ f x u w h k.
        one_from_nearest (ulinear16_value f.n) one_rank (ulinear16-one_word f.n) x u w h k };

    fn least(&self) -> Frac {
        self.value_of(0)
    }

    fn greatest(&self) -> Frac {
        self.value_of(u16::MAX)
    }

    fn value_of(&self, word: u16) -> Frac {
        Frac::of(self.numerator(word), lower_of_two(self.n))
    }

    fn nearest(&self, x: Frac) -> Result<u16, NumFault> {
        in_range(&x, &self.least(), &self.greatest())?;
        Ok(self.grid().nearest(&x) as u16)
    }
}

impl BoundFormat for Ulinear16 {
    fn round_down(&self, x: Frac) -> Result<u16, NumFault> {
        let x = capped(x, &self.least(), &self.greatest())?;
        Ok(self.grid().floor(&x) as u16)
    }

    fn round_up(&self, x: Frac) -> Result<u16, NumFault> {
        let x = raised(x, &self.least(), &self.greatest())?;
        Ok(self.grid().ceiling(&x) as u16)
    }
}
