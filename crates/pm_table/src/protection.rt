//! Which writes WRITE_PROTECT lets through.

ghost use Rattle.std.specs.Prelude.{◌≡◌};
ghost use Rattle.pm_table.specs.Protection.{is_allowed as spec_is_allowed};

use crate::commands::Code;

/// Up to which value of WRITE_PROTECT a host may write a code (PMBus 1.3 Part II, WRITE_PROTECT): the
/// column of the command table that says which writes go through.
#[derive(Clone, Copy, Debug, PartialEq, Eq)]
pub enum Protection {
    /// The code isn't written at any value.
    NotWritten,
    /// Written only at 00h.
    At00,
    /// Written at 00h and 20h.
    At20,
    /// Written at 00h, 20h and 40h.
    At40,
    /// Written at 00h, 20h, 40h and 80h.
    At80,
    /// Written whatever WRITE_PROTECT holds.
    Always,
}

impl Protection {
    ghost use Rattle.pm_table.specs.Commands.{is_ever_written};
    ghost use Rattle.pm_table.specs.Protection.{lets_write};

    /// Whether the converter takes a write of the code at all.
    pub fn is_ever_written(self) -> bool
        ensures { result ≡ is_ever_written self }
    {
        !matches!(self, Protection::NotWritten)
    }

    /// Whether a host may write the code while WRITE_PROTECT has this value.
    pub fn lets_write(self, protect: u16) -> bool
        ensures { result ≡ lets_write self protect }
    {
        match self {
            Protection::NotWritten => false,
            Protection::At00 => protect == 0x00,
            Protection::At20 => matches!(protect, 0x00 | 0x20),
            Protection::At40 => matches!(protect, 0x00 | 0x20 | 0x40),
            Protection::At80 => matches!(protect, 0x00 | 0x20 | 0x40 | 0x80),
            Protection::Always => true,
        }
    }
}

/// Whether a host may write this code while WRITE_PROTECT has this value, as the code's row of the command
/// table says. The code of a PAGE_PLUS_WRITE is the carried one (PMBus 1.3 Part II, WRITE_PROTECT).
pub fn is_allowed(protect: u16, code: Code) -> bool
    ensures { result ≡ spec_is_allowed protect code.0 }
{
    match code.attributes() {
        Some(attributes) => attributes.protection.lets_write(protect),
        None => false,
    }
}
