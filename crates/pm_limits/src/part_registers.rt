//! Which registers of an output a part has.

ghost use Rattle.std.specs.Prelude.{◌≡◌};
ghost use Rattle.pm_num.specs.AnyFormat.{voltage_shape};
ghost use Rattle.pm_limits.specs.Part.{all_registers, has_register, missing_word};

use crate::ends::{Side, format_end};
use pm_num::VoltageFormat;
use pm_table::Reg;

/// Which registers of an output a part has, beside OPERATION and VOUT_COMMAND, which are always there. The data sheet
/// says it: a part that has PAGE_PLUS and no VOUT_MIN is common.
#[derive(Clone, Copy, Debug, PartialEq, Eq)]
pub struct PartRegisters {
    /// VOUT_MAX. It stands at the greatest value of the output's format if it is missing.
    pub vout_max: bool,
    /// VOUT_MARGIN_HIGH. The output isn't turned on with margin high if it is missing.
    pub vout_margin_high: bool,
    /// VOUT_MARGIN_LOW. The output isn't turned on with margin low if it is missing.
    pub vout_margin_low: bool,
    /// VOUT_MIN. It stands at the least value of the output's format if it is missing.
    pub vout_min: bool,
}

impl PartRegisters {
    /// Every register.
    pub fn all() -> PartRegisters
        ensures { result ≡ all_registers }
    {
        PartRegisters {
            vout_max: true,
            vout_margin_high: true,
            vout_margin_low: true,
            vout_min: true,
        }
    }

    /// Whether the part has this register.
    #[inline(always)]
    pub fn has(self, register: Reg) -> bool
        ensures { result ≡ has_register self register }
    {
        match register {
            Reg::Operation | Reg::VoutCommand => true,
            Reg::VoutMax => self.vout_max,
            Reg::MarginHigh => self.vout_margin_high,
            Reg::MarginLow => self.vout_margin_low,
            Reg::VoutMin => self.vout_min,
        }
    }

    /// The word at which a missing VOUT_MAX or VOUT_MIN stands in this format, so that it cuts nothing; `None` of every
    /// other register.
    pub fn missing_word(self, format: &VoltageFormat, register: Reg) -> Option<u16>
        ensures { result ≡ missing_word self (voltage_shape format.now) register }
    {
        match register {
            Reg::VoutMax if !self.vout_max => Some(format_end(Side::Highest, format)),
            Reg::VoutMin if !self.vout_min => Some(format_end(Side::Lowest, format)),
            _ => None,
        }
    }
}
