//! What a payload means.

use crate::status::Status;
use pm_num::Frac;
use pm_table::VoutMode;

/// The unit of a number.
#[derive(Clone, Copy, Debug, PartialEq, Eq)]
pub enum Unit {
    /// Volts.
    Volt,
    /// Amperes.
    Ampere,
    /// Degrees Celsius.
    Celsius,
}

/// What the payload of a code means.
#[derive(Clone, Copy, Debug)]
pub enum Value {
    /// A voltage, a current or a temperature, as the word's format has it.
    Measured(Frac, Unit),
    /// A byte of OPERATION, below C0h.
    Operates(u8),
    /// A byte of WRITE_PROTECT: 00h, 20h, 40h or 80h.
    Protects(u8),
    /// A byte of VOUT_MODE.
    Scales(VoutMode),
    /// A byte of VOUT_MODE of ULINEAR16 with this exponent whose margins and limits are parts of VOUT_COMMAND.
    Relative(i8),
    /// A byte of VOUT_MODE of VID.
    Vid,
    /// A byte of VOUT_MODE of IEEE half precision.
    Half,
    /// The bits of a status.
    Flags(Status, u16),
    /// A byte of CAPABILITY.
    Capable(u8),
    /// A byte of ON_OFF_CONFIG.
    Controls(u8),
    /// A byte of PMBUS_REVISION, whose two digits are below 4.
    Revises(u8),
}
