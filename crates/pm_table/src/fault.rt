//! C1 to C4: why a byte of VOUT_MODE isn't one of this project's profile.

ghost use Rattle.std.specs.Prelude.{◌≡◌};

use thiserror::Error;

/// Why a VOUT_MODE byte isn't one of this project's profile. The first that applies, in the order
/// C3, C1, C2, C4.
#[derive(Clone, Copy, Debug, PartialEq, Eq, Error)]
#[error("{words}", words = self.words())]
pub enum TableFault {
    /// C1: bits 6:5 are 01, the VID format.
    VidMode,
    /// C2: bits 6:5 are 11, the IEEE half precision format.
    HalfMode,
    /// C3: bit 7 is 1, a relative mode.
    RelativeMode,
    /// C4: bits 6:5 are 10, the DIRECT format, and bits 4:0 aren't 0.
    BadParameter,
}

impl TableFault {
    ghost use Rattle.pm_table.specs.FaultWords.{table_fault_words};

    /// The letter and the name of the fault, as programs print them: `C1 VidMode`.
    pub fn words(self) -> &'static str
        ensures { result.now ≡ table_fault_words self }
    {
        match self {
            TableFault::VidMode => "C1 VidMode",
            TableFault::HalfMode => "C2 HalfMode",
            TableFault::RelativeMode => "C3 RelativeMode",
            TableFault::BadParameter => "C4 BadParameter",
        }
    }
}
