//! L1 to L8: why a guard refuses a call.

ghost use Rattle.std.specs.Prelude.{◌≡◌, ◌≢◌};

use pm_host::HostFault;
use thiserror::Error;

/// Why a guard refuses a call. A refused call changes nothing.
#[derive(Clone, Copy, Debug, PartialEq, Eq, Error)]
#[error("{words}", words = self.words())]
pub enum LimitFault {
    /// L1: the least voltage of limits is above the most.
    LimitsInverted,
    /// L2: the output has limits, and the format of its voltages wasn't learned since the host started: of an order of
    /// a voltage, and of one of OPERATION that leaves the output on.
    FormatUnknown,
    /// L3: the word's value lies below the output's limits.
    BelowLimit,
    /// L4: the word's value lies above the output's limits.
    AboveLimit,
    /// L5: the byte of OPERATION leaves the output on, and what it would command isn't known to lie within
    /// its limits.
    NotKnownWithin,
    /// L6: the new limits let through what the old ones don't.
    LimitsWidened,
    /// L7: the part doesn't have the register, or the margin that the byte of OPERATION selects.
    MissingRegister,
    /// L8: no limits are known of the output: of an order of a voltage, and of one of OPERATION that leaves the output on.
    /// Give it limits, or say that it has none.
    NoLimits,
    /// H1 to H7 or N3 to N5: the host's own refusal, or N5 if a limit is beyond 10^15.
    Host(HostFault),
}

impl LimitFault {
    ghost use Rattle.pm_limits.specs.FaultWords.{limit_fault_number, limit_fault_words};

    /// The letter and the name of the fault, as programs print them: `L3 BelowLimit`. A refusal of the host
    /// is shown as that: `H6 TooUncertain`.
    pub fn words(self) -> &'static str
        ensures { result.now ≡ limit_fault_words self }
    {
        match self {
            LimitFault::LimitsInverted => "L1 LimitsInverted",
            LimitFault::FormatUnknown => "L2 FormatUnknown",
            LimitFault::BelowLimit => "L3 BelowLimit",
            LimitFault::AboveLimit => "L4 AboveLimit",
            LimitFault::NotKnownWithin => "L5 NotKnownWithin",
            LimitFault::LimitsWidened => "L6 LimitsWidened",
            LimitFault::MissingRegister => "L7 MissingRegister",
            LimitFault::NoLimits => "L8 NoLimits",
            LimitFault::Host(fault) => fault.words(),
        }
    }

    /// The number of the fault as `pmhost.h` has it, 21h to 28h; a refusal of the host has its own.
    pub fn number(self) -> u8
        ensures number { result ≡ limit_fault_number self }
        ensures some { result ≢ 0 }
    {
        match self {
            LimitFault::LimitsInverted => 0x21,
            LimitFault::FormatUnknown => 0x22,
            LimitFault::BelowLimit => 0x23,
            LimitFault::AboveLimit => 0x24,
            LimitFault::NotKnownWithin => 0x25,
            LimitFault::LimitsWidened => 0x26,
            LimitFault::MissingRegister => 0x27,
            LimitFault::NoLimits => 0x28,
            LimitFault::Host(fault) => fault.number(),
        }
    }
}
