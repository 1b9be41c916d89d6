//! V1 to V5: why no converter is made from a configuration.

ghost use Rattle.std.specs.Prelude.{◌≡◌, ◌≢◌};
ghost use Rattle.pm_device.specs.Start.{outputs};

use pm_num::NumFault;
use pm_table::{Cell, TableFault};
use std::fmt;
use thiserror::Error;

/// Why no converter is made from a configuration: the first that applies, in the order of these.
#[derive(Clone, Copy, Debug, PartialEq, Eq, Error)]
#[error("{words}", words = self.words())]
pub enum ConfigFault {
    /// V1: the count of outputs isn't 1 to 8.
    OutputCount,
    /// V2: the cell doesn't accept its start word.
    #[error("{words}{place} {name}", words = self.words(), place = Place(self.output()), name = .0.name())]
    BadStart(Cell),
    /// V3: the address isn't 08h to 77h.
    Address,
    /// V4: the output has a VOUT_MODE outside this project's profile.
    #[error("{words} {0} {1}", words = self.words())]
    BadMode(u8, TableFault),
    /// V5: an output is DIRECT, and the coefficients are no format.
    #[error("{words} {0}", words = self.words())]
    BadCoefficients(NumFault),
}

impl ConfigFault {
    ghost use Rattle.std.specs.Option.{option_map};
    ghost use Rattle.pm_device.specs.FaultWords.{config_fault_number, config_fault_words, config_fault_output, config_fault_detail};

    /// The letter and the name of the fault, as programs print them: `V2 BadStart`. Its output and its detail
    /// follow them, if it has them.
    pub fn words(self) -> &'static str
        ensures { result.now ≡ config_fault_words self }
    {
        match self {
            ConfigFault::OutputCount => "V1 OutputCount",
            ConfigFault::BadStart(_) => "V2 BadStart",
            ConfigFault::Address => "V3 Address",
            ConfigFault::BadMode(..) => "V4 BadMode",
            ConfigFault::BadCoefficients(_) => "V5 BadCoefficients",
        }
    }

    /// The number of the fault as `pmpart.h` has it, 51h to 55h. No other fault has it.
    pub fn number(self) -> u8
        ensures number { result ≡ config_fault_number self }
        ensures some { result ≢ 0 }
    {
        match self {
            ConfigFault::OutputCount => 0x51,
            ConfigFault::BadStart(_) => 0x52,
            ConfigFault::Address => 0x53,
            ConfigFault::BadMode(..) => 0x54,
            ConfigFault::BadCoefficients(_) => 0x55,
        }
    }

    /// The output of V4, and of V2 if the cell is an output's.
    pub fn output(self) -> Option<u8>
        ensures { result ≡ config_fault_output self }
    {
        match self {
            ConfigFault::BadStart(Cell::Out(output, _)) | ConfigFault::BadMode(output, _) => {
                Some(output)
            }
            _ => None,
        }
    }

    /// What else the fault names: V2 the cell's code, as `OPERATION`, V4 and V5 why the format is
    /// none, as `C1 VidMode` and `N1 ZeroSlope`.
    pub fn detail(self) -> Option<&'static str>
        ensures { option_map (λ text. text.now) result ≡ config_fault_detail self }
    {
        match self {
            ConfigFault::BadStart(cell) => Some(cell.name()),
            ConfigFault::BadMode(_, fault) => Some(fault.words()),
            ConfigFault::BadCoefficients(fault) => Some(fault.words()),
            ConfigFault::OutputCount | ConfigFault::Address => None,
        }
    }
}

// An output as it follows the words of a fault, if the fault has one.
#[derive(Clone, Copy)]
struct Place(Option<u8>);

impl fmt::Display for Place {
    fn fmt<W: fmt::Write>(&self, f: &mut fmt::Formatter<W>) -> fmt::Result {
        match self.0 {
            Some(output) => write!(f, " {output}"),
            None => Ok(()),
        }
    }
}
