//! The words of an output's registers.

ghost use Rattle.std.specs.Prelude.{◌≡◌};

use pm_table::Reg;

/// The words of an output's registers.
#[derive(Clone, Copy, Debug, PartialEq, Eq)]
pub struct Registers {
    /// OPERATION.
    pub operation: u16,
    /// VOUT_COMMAND.
    pub command: u16,
    /// VOUT_MAX.
    pub max: u16,
    /// VOUT_MARGIN_HIGH.
    pub margin_high: u16,
    /// VOUT_MARGIN_LOW.
    pub margin_low: u16,
    /// VOUT_MIN.
    pub min: u16,
}

impl Registers {
    ghost use Rattle.pm_rail.specs.Registers.{held_by};

    // The word of OPERATION, and 0 for each voltage.
    pub(crate) fn of_operation(operation: u16) -> Registers
        ensures { result.operation ≡ operation }
    {
        Registers {
            operation,
            command: 0,
            max: 0,
            margin_high: 0,
            margin_low: 0,
            min: 0,
        }
    }

    /// The word of a register.
    pub fn word(&self, register: Reg) -> u16
        ensures { result ≡ held_by self.now register }
    {
        match register {
            Reg::Operation => self.operation,
            Reg::VoutCommand => self.command,
            Reg::VoutMax => self.max,
            Reg::MarginHigh => self.margin_high,
            Reg::MarginLow => self.margin_low,
            Reg::VoutMin => self.min,
        }
    }
}
