//! What is wanted of each register: nothing, a word or a voltage.

ghost use Rattle.std.specs.Prelude.{◌≡◌};
ghost use Rattle.pm_course.specs.Wishes.{has_voltage, stays_wished, voltage_in, voltages_in, word_in_wish, words_in};

use crate::voltages::Voltages;
use pm_rail::Wanted;

/// What is wanted of a register.
#[derive(Clone, Copy, Debug, PartialEq, Eq)]
pub enum Wish {
    /// It stays as it is.
    Stay,
    /// This word.
    Word(u16),
    /// A voltage of this many microvolts. VOUT_COMMAND and a margin get the nearest word, VOUT_MAX that of the greatest value
    /// that isn't above it, and VOUT_MIN that of the least value that isn't below it.
    Microvolts(i64),
}

/// What is wanted of an output's registers.
#[derive(Clone, Copy, Debug, PartialEq, Eq)]
pub struct Wishes {
    /// VOUT_COMMAND.
    pub command: Wish,
    /// VOUT_MAX.
    pub max: Wish,
    /// VOUT_MARGIN_HIGH.
    pub margin_high: Wish,
    /// VOUT_MARGIN_LOW.
    pub margin_low: Wish,
    /// VOUT_MIN.
    pub min: Wish,
}

impl Wish {
    // The word that is wanted as such.
    fn word(self) -> Option<u16>
        ensures { result ≡ word_in_wish self }
    {
        match self {
            Wish::Word(word) => Some(word),
            _ => None,
        }
    }

    // Whether a voltage is wanted.
    fn is_voltage(self) -> bool
        ensures { result ≡ has_voltage self }
    {
        matches!(self, Wish::Microvolts(_))
    }

    // The voltage that is wanted, otherwise 0.
    fn voltage(self) -> i64
        ensures { result ≡ voltage_in self }
    {
        match self {
            Wish::Microvolts(microvolts) => microvolts,
            _ => 0,
        }
    }
}

impl Wishes {
    /// Each register stays as it is.
    pub fn nothing() -> Wishes
        ensures { result ≡ stays_wished }
    {
        Wishes {
            command: Wish::Stay,
            max: Wish::Stay,
            margin_high: Wish::Stay,
            margin_low: Wish::Stay,
            min: Wish::Stay,
        }
    }

    // The words that are wanted as such.
    pub(crate) fn words(&self) -> Wanted
        ensures { result ≡ words_in self.now }
    {
        Wanted {
            command: self.command.word(),
            max: self.max.word(),
            margin_high: self.margin_high.word(),
            margin_low: self.margin_low.word(),
            min: self.min.word(),
        }
    }

    // The voltages that are wanted.
    pub(crate) fn voltages(&self) -> Voltages
        ensures { result ≡ voltages_in self.now }
    {
        Voltages {
            command: self.command.voltage(),
            max: self.max.voltage(),
            margin_high: self.margin_high.voltage(),
            margin_low: self.margin_low.voltage(),
            min: self.min.voltage(),
            has_command: self.command.is_voltage(),
            has_max: self.max.is_voltage(),
            has_margin_high: self.margin_high.is_voltage(),
            has_margin_low: self.margin_low.is_voltage(),
            has_min: self.min.is_voltage(),
        }
    }
}
