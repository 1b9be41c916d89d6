//! The registers of an output.

ghost use Rattle.std.specs.Prelude.{◌≡◌, ◌<◌};
ghost use Rattle.pm_table.specs.declared.cell.Cell.{Cell};

use crate::commands::Code;

/// A register of one output that holds a word.
#[derive(Clone, Copy, Debug, PartialEq, Eq, PartialOrd, Ord, Hash)]
pub enum Reg {
    /// OPERATION: on, off and margins. One byte.
    Operation,
    /// VOUT_COMMAND: the voltage that is asked for. A word in the output's format, as those
    /// below.
    VoutCommand,
    /// VOUT_MAX: the greatest voltage that may be commanded.
    VoutMax,
    /// VOUT_MARGIN_HIGH: the voltage while OPERATION asks for margin high.
    MarginHigh,
    /// VOUT_MARGIN_LOW: the voltage while OPERATION asks for margin low.
    MarginLow,
    /// VOUT_MIN: the least voltage that may be commanded, unless VOUT_MAX is below it.
    VoutMin,
}

impl Reg {
    ghost use Rattle.pm_table.specs.Cell.{is_voltage, register_code, register_count, register_number, register_of};

    /// How many registers an output has.
    pub const COUNT: usize = Reg::ALL.len();

    /// The registers of an output, in their order.
    pub const ALL: [Reg; 6] = [
        Reg::Operation,
        Reg::VoutCommand,
        Reg::VoutMax,
        Reg::MarginHigh,
        Reg::MarginLow,
        Reg::VoutMin,
    ];

    /// The command code that reads and writes the register.
    pub fn code(self) -> Code
        ensures { result.0 ≡ register_code self }
    {
        match self {
            Reg::Operation => Code::OPERATION,
            Reg::VoutCommand => Code::VOUT_COMMAND,
            Reg::VoutMax => Code::VOUT_MAX,
            Reg::MarginHigh => Code::VOUT_MARGIN_HIGH,
            Reg::MarginLow => Code::VOUT_MARGIN_LOW,
            Reg::VoutMin => Code::VOUT_MIN,
        }
    }

    /// Whether it holds a voltage, a word of two bytes; OPERATION, which is a byte, doesn't.
    pub fn is_voltage(self) -> bool
        ensures { result ≡ is_voltage self }
    {
        !matches!(self, Reg::Operation)
    }

    // The register that the code reads and writes.
    pub(crate) fn with_code(code: Code) -> Option<Reg>
        ensures { result ≡ register_of code.0 }
    {
        Reg::ALL
            .iter()
            .copied()
            .find(|register| register.code() == code)
    }

    /// The register's place among the registers of its output, from 0.
    pub fn number(self) -> usize
        ensures number { result ≡ register_number self }
        ensures below { result < register_count }
    {
        self as usize
    }
}
