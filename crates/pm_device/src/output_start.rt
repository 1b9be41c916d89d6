//! What an output's settings are as the converter starts.

ghost use Rattle.std.specs.Prelude.{◌≡◌};

use pm_table::{Cell, Reg};

/// What a converter's settings are as it starts, for one output. A word is in the output's own
/// format, which VOUT_MODE gives.
#[derive(Clone, Copy, Debug, PartialEq, Eq)]
pub struct OutputStart {
    /// VOUT_MODE, which is fixed for the converter's life.
    pub mode: u8,
    /// OPERATION, one byte.
    pub operation: u16,
    /// VOUT_COMMAND.
    pub command: u16,
    /// VOUT_MAX.
    pub max: u16,
    /// VOUT_MARGIN_HIGH.
    pub high: u16,
    /// VOUT_MARGIN_LOW.
    pub low: u16,
    /// VOUT_MIN.
    pub min: u16,
}

impl OutputStart {
    ghost use Rattle.std.specs.Prelude.{slice_index};
    ghost use Rattle.pm_table.specs.Cell.{register_number};
    ghost use Rattle.pm_device.specs.Start.{register_start, start_with_words, start_row};

    /// What stands in a configuration for an output that isn't there.
    pub const NONE: OutputStart = OutputStart {
        mode: 0,
        operation: 0,
        command: 0,
        max: 0,
        high: 0,
        low: 0,
        min: 0,
    };

    /// The start with this VOUT_MODE byte and the words of the registers, in the order of `Reg`.
    pub fn of(mode: u8, words: [u16; Reg::COUNT]) -> OutputStart
        ensures { result ≡ start_with_words mode (λ register. slice_index words (register_number register)) }
    {
        let [operation, command, max, high, low, min] = words;
        OutputStart {
            mode,
            operation,
            command,
            max,
            high,
            low,
            min,
        }
    }

    /// The start word of a register.
    pub fn word(&self, register: Reg) -> u16
        ensures { result ≡ register_start register self.now }
    {
        match register {
            Reg::Operation => self.operation,
            Reg::VoutCommand => self.command,
            Reg::VoutMax => self.max,
            Reg::MarginHigh => self.high,
            Reg::MarginLow => self.low,
            Reg::VoutMin => self.min,
        }
    }

    /// The start words of the registers, in the order of `Reg`.
    pub(crate) fn words(&self) -> [u16; Reg::COUNT]
        ensures { result ≡ start_row self.now }
    {
        std::array::from_fn(|place| self.word(Reg::ALL[place]))
    }
}
