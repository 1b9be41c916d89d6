//! Why a held word isn't taken in the place of a wanted one.

ghost use Rattle.std.specs.Prelude.{◌≡◌};

use thiserror::Error;

/// Why a word that a part holds isn't taken in the place of the wanted one, beside the refusals of plans.
#[derive(Clone, Copy, Debug, PartialEq, Eq, Error)]
#[error("{words}", words = self.words())]
pub enum AcceptFault {
    /// P9: nothing is wanted, the held word's value isn't near enough, or no whole microvolts mean the word.
    NotNear,
}

impl AcceptFault {
    ghost use Rattle.pm_course.specs.AcceptFault.{accept_fault_number, accept_fault_words};

    /// The letter and the name of the fault, as programs print them: `P9 NotNear`.
    pub fn words(self) -> &'static str
        ensures { result.now ≡ accept_fault_words self }
    {
        match self {
            AcceptFault::NotNear => "P9 NotNear",
        }
    }

    /// The number of the fault as `pmhost.h` has it, 69h.
    pub fn number(self) -> u8
        ensures { result ≡ accept_fault_number self }
    {
        match self {
            AcceptFault::NotNear => 0x69,
        }
    }
}
