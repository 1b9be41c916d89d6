//! P8: why nothing is ordered though a course would.

ghost use Rattle.std.specs.Prelude.{◌≡◌};

use crate::question::Question;
use thiserror::Error;

/// Why nothing is ordered though a course would.
#[derive(Clone, Copy, Debug, PartialEq, Eq, Error)]
#[error("{words}", words = self.words())]
pub enum DeliveryFault {
    /// P8: the word that the output is to command is at or beyond this fault limit, which holds this word.
    BeyondFaultLimit(Question, u16),
}

impl DeliveryFault {
    ghost use Rattle.pm_delivery.specs.FaultWords.{delivery_fault_number, delivery_fault_words};

    /// The letter and the name of the fault, as programs print them: `P8 BeyondFaultLimit`.
    pub fn words(self) -> &'static str
        ensures { result.now ≡ delivery_fault_words self }
    {
        match self {
            DeliveryFault::BeyondFaultLimit(..) => "P8 BeyondFaultLimit",
        }
    }

    /// The number of the fault as `pmhost.h` has it, 68h.
    pub fn number(self) -> u8
        ensures { result ≡ delivery_fault_number self }
    {
        match self {
            DeliveryFault::BeyondFaultLimit(..) => 0x68,
        }
    }
}
