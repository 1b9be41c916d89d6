//! What a byte of OPERATION asks of an output.

ghost use Rattle.std.specs.Prelude.{◌≡◌};

use crate::reg::Reg;

/// What a byte of OPERATION asks of an output (PMBus 1.3 Part II): off, on, or on with a margin.
#[derive(Clone, Copy, Debug, PartialEq, Eq)]
pub enum Operation {
    /// Off, at once or as the output's own delays say.
    Off,
    /// On, at VOUT_COMMAND.
    On,
    /// On, at VOUT_MARGIN_LOW.
    MarginLow,
    /// On, at VOUT_MARGIN_HIGH.
    MarginHigh,
}

impl Operation {
    ghost use Rattle.pm_table.specs.Operation.{has_on, is_on, operation_of, register_for, selected_register};

    /// What the byte asks for: off (00h to 7Fh), on (80h to 8Fh), or on with margin low (94h to 9Bh) or
    /// high (A4h to ABh). `None` for every other word; that none of them is taken, as B0h, is this
    /// project's own choice.
    pub fn read(byte: u16) -> Option<Operation>
        ensures { result ≡ operation_of byte }
    {
        match byte {
            0x00..=0x7F => Some(Operation::Off),
            0x80..=0x8F => Some(Operation::On),
            0x94..=0x9B => Some(Operation::MarginLow),
            0xA4..=0xAB => Some(Operation::MarginHigh),
            _ => None,
        }
    }

    /// Whether the output is on.
    pub fn is_on(self) -> bool
        ensures { result ≡ is_on self }
    {
        !matches!(self, Operation::Off)
    }

    /// The register that has the voltage which is asked for, VOUT_COMMAND while the output is off.
    pub fn register(self) -> Reg
        ensures { result ≡ register_for self }
    {
        match self {
            Operation::Off | Operation::On => Reg::VoutCommand,
            Operation::MarginLow => Reg::MarginLow,
            Operation::MarginHigh => Reg::MarginHigh,
        }
    }

    /// Whether a byte has the output on; one that is no byte of OPERATION doesn't.
    pub fn has_on(byte: u16) -> bool
        ensures { result ≡ has_on byte }
    {
        match Operation::read(byte) {
            Some(operation) => operation.is_on(),
            None => false,
        }
    }

    /// The register that a byte selects; VOUT_COMMAND by one that is no byte of OPERATION.
    pub fn selected_register(byte: u16) -> Reg
        ensures { result ≡ selected_register byte }
    {
        match Operation::read(byte) {
            Some(operation) => operation.register(),
            None => Reg::VoutCommand,
        }
    }
}
