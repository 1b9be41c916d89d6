//! The words that are wanted of an output's voltages.

ghost use Rattle.std.specs.Prelude.{◌≡◌};

use pm_table::Reg;

/// The words that are wanted of an output's voltages; `None` if a register is to stay as it is.
#[derive(Clone, Copy, Debug, PartialEq, Eq)]
pub struct Wanted {
    /// VOUT_COMMAND.
    pub command: Option<u16>,
    /// VOUT_MAX.
    pub max: Option<u16>,
    /// VOUT_MARGIN_HIGH.
    pub margin_high: Option<u16>,
    /// VOUT_MARGIN_LOW.
    pub margin_low: Option<u16>,
    /// VOUT_MIN.
    pub min: Option<u16>,
}

impl Wanted {
    ghost use Rattle.pm_rail.specs.Registers.{nothing as nothing_wanted, wants_of, wanted_with_word};

    /// No word: each register is to stay as it is.
    pub fn nothing() -> Wanted
        ensures { result ≡ nothing_wanted }
    {
        Wanted {
            command: None,
            max: None,
            margin_high: None,
            margin_low: None,
            min: None,
        }
    }

    /// The wanted words with this one for a register; none is wanted of OPERATION, which stays as it is.
    pub fn with(self, register: Reg, word: u16) -> Wanted
        ensures { result ≡ wanted_with_word self register word }
    {
        let mut more = self;
        match register {
            Reg::Operation => {}
            Reg::VoutCommand => more.command = Some(word),
            Reg::VoutMax => more.max = Some(word),
            Reg::MarginHigh => more.margin_high = Some(word),
            Reg::MarginLow => more.margin_low = Some(word),
            Reg::VoutMin => more.min = Some(word),
        }
        more
    }

    /// The word that is wanted of a register; none of OPERATION.
    pub fn word(&self, register: Reg) -> Option<u16>
        ensures { result ≡ wants_of self.now register }
    {
        match register {
            Reg::Operation => None,
            Reg::VoutCommand => self.command,
            Reg::VoutMax => self.max,
            Reg::MarginHigh => self.margin_high,
            Reg::MarginLow => self.margin_low,
            Reg::VoutMin => self.min,
        }
    }
}
