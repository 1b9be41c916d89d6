//! Any of the three formats.

ghost use Rattle.std.specs.Prelude.{◌≡◌};
ghost use Rattle.pm_num.specs.AnyFormat.{any_value};
ghost use Rattle.pm_num.specs.Ratio.{is_above};

use crate::bounds::BoundFormat;
use crate::direct::Direct;
use crate::fault::NumFault;
use crate::frac::Frac;
use crate::linear11::Linear11;
use crate::num_format::NumFormat;
use crate::ulinear16::Ulinear16;
use std::cmp::Ordering;

/// One of the three numeric formats, chosen at run time.
#[derive(Clone, Copy, Debug, PartialEq, Eq, Hash)]
pub enum AnyFormat {
    /// LINEAR11, whose exponent stands in the word.
    Linear11,
    /// ULINEAR16 with its exponent.
    Ulinear16(Ulinear16),
    /// DIRECT with its coefficients.
    Direct(Direct),
}

impl AnyFormat {
    /// Whether the value of `word` is greater than that of `other`.
    pub fn is_above(&self, word: u16, other: u16) -> bool
        ensures { result ≡ is_above (any_value self.now word) (any_value self.now other) }
    {
        match self {
            AnyFormat::Linear11 => {
                self.value_of(word).cmp_value(&self.value_of(other)) == Ordering::Greater
            }
            AnyFormat::Ulinear16(format) => format.is_above(word, other),
            AnyFormat::Direct(format) => format.is_above(word, other),
        }
    }
}

impl NumFormat for AnyFormat {
    ghost use Rattle.pm_num.specs.AnyFormat.{any_value, any_rank, any_lowest, any_highest};
    ghost use Rattle.pm_num.specs.Lemmas.OneWord.{one_from_nearest};
    ghost use Rattle.pm_num.specs.Lemmas.Any.{any-has_den, any-within, any-least_met, any-greatest_met, any-one_word};

    ghost value = { any_value };

    ghost rank = { any_rank };

    ghost lowest = { any_lowest };

    ghost highest = { any_highest };

    ghost has_den = { any-has_den };

    ghost within = { any-within };

    ghost least_met = { any-least_met };

    ghost greatest_met = { any-greatest_met };

    ghost one = { λ f x u w h k.
        one_from_nearest (any_value f) (any_rank f) (any-one_word f) x u w h k };

    fn least(&self) -> Frac {
        match self {
            AnyFormat::Linear11 => Linear11.least(),
            AnyFormat::Ulinear16(format) => format.least(),
            AnyFormat::Direct(format) => format.least(),
        }
    }

    fn greatest(&self) -> Frac {
        match self {
            AnyFormat::Linear11 => Linear11.greatest(),
            AnyFormat::Ulinear16(format) => format.greatest(),
            AnyFormat::Direct(format) => format.greatest(),
        }
    }

    fn value_of(&self, word: u16) -> Frac {
        match self {
            AnyFormat::Linear11 => Linear11.value_of(word),
            AnyFormat::Ulinear16(format) => format.value_of(word),
            AnyFormat::Direct(format) => format.value_of(word),
        }
    }

    fn nearest(&self, x: Frac) -> Result<u16, NumFault> {
        match self {
            AnyFormat::Linear11 => Linear11.nearest(x),
            AnyFormat::Ulinear16(format) => format.nearest(x),
            AnyFormat::Direct(format) => format.nearest(x),
        }
    }
}

impl BoundFormat for AnyFormat {
    fn round_down(&self, x: Frac) -> Result<u16, NumFault> {
        match self {
            AnyFormat::Linear11 => Linear11.round_down(x),
            AnyFormat::Ulinear16(format) => format.round_down(x),
            AnyFormat::Direct(format) => format.round_down(x),
        }
    }

    fn round_up(&self, x: Frac) -> Result<u16, NumFault> {
        match self {
            AnyFormat::Linear11 => Linear11.round_up(x),
            AnyFormat::Ulinear16(format) => format.round_up(x),
            AnyFormat::Direct(format) => format.round_up(x),
        }
    }
}
