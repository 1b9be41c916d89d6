//! A format of an output's voltages.

ghost use Rattle.std.specs.Prelude.{◌≡◌};
ghost use Rattle.pm_num.specs.AnyFormat.{any_of, voltage_value};
ghost use Rattle.pm_num.specs.Ratio.{is_above};

use crate::any_format::AnyFormat;
use crate::bounds::BoundFormat;
use crate::direct::Direct;
use crate::fault::NumFault;
use crate::frac::Frac;
use crate::num_format::NumFormat;
use crate::ulinear16::Ulinear16;

/// One of the two formats that an output's voltages may have. It is no [`AnyFormat`], so that a program that sets voltages
/// holds no code of LINEAR11.
#[derive(Clone, Copy, Debug, PartialEq, Eq, Hash)]
pub enum VoltageFormat {
    /// ULINEAR16 with its exponent.
    Ulinear16(Ulinear16),
    /// DIRECT with its coefficients.
    Direct(Direct),
}

impl VoltageFormat {
    /// This format as one of all three.
    pub fn any(self) -> AnyFormat
        ensures { result ≡ any_of self }
    {
        match self {
            VoltageFormat::Ulinear16(format) => AnyFormat::Ulinear16(format),
            VoltageFormat::Direct(format) => AnyFormat::Direct(format),
        }
    }

    /// Whether the value of `word` is greater than that of `other`.
    // It isn't inlined: judging an output asks it many times.
    #[inline(never)]
    pub fn is_above(&self, word: u16, other: u16) -> bool
        ensures { result ≡ is_above (voltage_value self.now word) (voltage_value self.now other) }
    {
        match self {
            VoltageFormat::Ulinear16(format) => format.is_above(word, other),
            VoltageFormat::Direct(format) => format.is_above(word, other),
        }
    }
}

impl NumFormat for VoltageFormat {
    ghost use Rattle.pm_num.specs.AnyFormat.{any_of, any_value, any_rank, any_lowest, any_highest};
    ghost use Rattle.pm_num.specs.Lemmas.OneWord.{one_from_nearest};
    ghost use Rattle.pm_num.specs.Lemmas.Any.{any-has_den, any-within, any-least_met, any-greatest_met, any-one_word};

    ghost value = { λ f. any_value (any_of f) };

    ghost rank = { λ f. any_rank (any_of f) };

    ghost lowest = { λ f. any_lowest (any_of f) };

    ghost highest = { λ f. any_highest (any_of f) };

    ghost has_den = { λ f. any-has_den (any_of f) };

    ghost within = { λ f. any-within (any_of f) };

    ghost least_met = { λ f. any-least_met (any_of f) };

    ghost greatest_met = { λ f. any-greatest_met (any_of f) };

    ghost one = { λ f x u w h k.
        one_from_nearest (any_value (any_of f)) (any_rank (any_of f)) (any-one_word (any_of f)) x u w h k };

    fn least(&self) -> Frac {
        match self {
            VoltageFormat::Ulinear16(format) => format.least(),
            VoltageFormat::Direct(format) => format.least(),
        }
    }

    fn greatest(&self) -> Frac {
        match self {
            VoltageFormat::Ulinear16(format) => format.greatest(),
            VoltageFormat::Direct(format) => format.greatest(),
        }
    }

    #[inline(never)]
    fn value_of(&self, word: u16) -> Frac {
        match self {
            VoltageFormat::Ulinear16(format) => format.value_of(word),
            VoltageFormat::Direct(format) => format.value_of(word),
        }
    }

    fn nearest(&self, x: Frac) -> Result<u16, NumFault> {
        match self {
            VoltageFormat::Ulinear16(format) => format.nearest(x),
            VoltageFormat::Direct(format) => format.nearest(x),
        }
    }
}

impl BoundFormat for VoltageFormat {
    fn round_down(&self, x: Frac) -> Result<u16, NumFault> {
        match self {
            VoltageFormat::Ulinear16(format) => format.round_down(x),
            VoltageFormat::Direct(format) => format.round_down(x),
        }
    }

    fn round_up(&self, x: Frac) -> Result<u16, NumFault> {
        match self {
            VoltageFormat::Ulinear16(format) => format.round_up(x),
            VoltageFormat::Direct(format) => format.round_up(x),
        }
    }
}
