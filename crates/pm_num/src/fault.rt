//! The refusals of this crate.

ghost use Rattle.std.specs.Prelude.{◌≡◌, ◌≢◌};

use thiserror::Error;

/// Why a format or a number is refused. The faults N1 to N5 are this project's own.
#[derive(Clone, Copy, Debug, PartialEq, Eq, Error)]
#[error("{words}", words = self.words())]
pub enum NumFault {
    /// N1: the slope m of a DIRECT format is 0.
    ZeroSlope,
    /// N2: the exponent R of a DIRECT format is outside -12 to 12.
    ExponentRange,
    /// N3: the number lies strictly below the format's least value.
    BelowLeast,
    /// N4: the number lies strictly above the format's greatest value.
    AboveGreatest,
    /// N5: the number of millionths is beyond 10^15 in size.
    TooLarge,
}

impl NumFault {
    ghost use Rattle.pm_num.specs.FaultWords.{num_fault_number, num_fault_words};

    /// The letter and the name of the fault, as programs print them: `N1 ZeroSlope`.
    pub fn words(self) -> &'static str
        ensures { result.now ≡ num_fault_words self }
    {
        match self {
            NumFault::ZeroSlope => "N1 ZeroSlope",
            NumFault::ExponentRange => "N2 ExponentRange",
            NumFault::BelowLeast => "N3 BelowLeast",
            NumFault::AboveGreatest => "N4 AboveGreatest",
            NumFault::TooLarge => "N5 TooLarge",
        }
    }

    /// The number of the fault as `pmhost.h` has it, 11h to 15h. No other fault has it.
    pub fn number(self) -> u8
        ensures number { result ≡ num_fault_number self }
        ensures some { result ≢ 0 }
    {
        match self {
            NumFault::ZeroSlope => 0x11,
            NumFault::ExponentRange => 0x12,
            NumFault::BelowLeast => 0x13,
            NumFault::AboveGreatest => 0x14,
            NumFault::TooLarge => 0x15,
        }
    }
}
