//! The voltages that are wanted of the registers of an output.

ghost use Rattle.std.specs.Prelude.{◌≡◌};
ghost use Rattle.pm_course.specs.Wishes.{no_voltages, voltage_of, with_voltage};

use pm_table::Reg;

/// The voltages that are wanted of an output's registers, in microvolts.
#[derive(Clone, Copy, Debug, PartialEq, Eq)]
pub struct Voltages {
    /// The voltage of VOUT_COMMAND, if one is wanted.
    pub command: i64,
    /// That of VOUT_MAX.
    pub max: i64,
    /// That of VOUT_MARGIN_HIGH.
    pub margin_high: i64,
    /// That of VOUT_MARGIN_LOW.
    pub margin_low: i64,
    /// That of VOUT_MIN.
    pub min: i64,
    /// Whether a voltage is wanted of VOUT_COMMAND.
    pub has_command: bool,
    /// Whether one is wanted of VOUT_MAX.
    pub has_max: bool,
    /// Whether one is wanted of VOUT_MARGIN_HIGH.
    pub has_margin_high: bool,
    /// Whether one is wanted of VOUT_MARGIN_LOW.
    pub has_margin_low: bool,
    /// Whether one is wanted of VOUT_MIN.
    pub has_min: bool,
}

impl Voltages {
    /// None is wanted.
    pub fn nothing() -> Voltages
        ensures { result ≡ no_voltages }
    {
        Voltages {
            command: 0,
            max: 0,
            margin_high: 0,
            margin_low: 0,
            min: 0,
            has_command: false,
            has_max: false,
            has_margin_high: false,
            has_margin_low: false,
            has_min: false,
        }
    }

    /// The voltage that is wanted of a register; none of OPERATION.
    pub fn of(&self, register: Reg) -> Option<i64>
        ensures { result ≡ voltage_of self.now register }
    {
        match register {
            Reg::VoutCommand if self.has_command => Some(self.command),
            Reg::VoutMax if self.has_max => Some(self.max),
            Reg::MarginHigh if self.has_margin_high => Some(self.margin_high),
            Reg::MarginLow if self.has_margin_low => Some(self.margin_low),
            Reg::VoutMin if self.has_min => Some(self.min),
            _ => None,
        }
    }

    /// The voltages with this one for a register; none is wanted of OPERATION.
    pub fn with(self, register: Reg, microvolts: i64) -> Voltages
        ensures { result ≡ with_voltage self register microvolts }
    {
        let mut more = self;
        match register {
            Reg::Operation => {}
            Reg::VoutCommand => {
                more.command = microvolts;
                more.has_command = true;
            }
            Reg::VoutMax => {
                more.max = microvolts;
                more.has_max = true;
            }
            Reg::MarginHigh => {
                more.margin_high = microvolts;
                more.has_margin_high = true;
            }
            Reg::MarginLow => {
                more.margin_low = microvolts;
                more.has_margin_low = true;
            }
            Reg::VoutMin => {
                more.min = microvolts;
                more.has_min = true;
            }
        }
        more
    }
}
