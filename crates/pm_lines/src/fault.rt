//! X1 to X7: why a text is refused, or was not read or written.

ghost use Rattle.std.specs.Prelude.{◌≡◌};
ghost use Rattle.pm_lines.specs.declared.fault.TextFault.TheVariants.{Memory, Setup};

use pm_setup::SetupFault;
use std::alloc::{AllocError, AllocFailed};
use thiserror::Error;

/// Why a text is refused, or was not read or written. Lines are numbered from 1. The faults and
/// their letters are this project's own choice.
#[derive(Clone, Copy, Debug, PartialEq, Eq, Error)]
#[error("{words}", words = self.words())]
pub enum TextFault {
    /// X1: this line isn't one that the text may have here, or is missing.
    #[error("{words} line {0}", words = self.words())]
    Syntax(u64),
    /// X2: this line should be hexadecimal and isn't.
    #[error("{words} line {0}", words = self.words())]
    BadHex(u64),
    /// X3: the text has more than 1,048,576 bytes.
    TooLong,
    /// X4: the reader failed.
    Read,
    /// X5: the writer failed, or took none of the bytes that it was offered.
    Write,
    /// X6: memory was refused.
    Memory,
    /// X7: no world is made of what the text asks for.
    #[error("{words} {0}", words = self.words())]
    Setup(SetupFault),
}

impl TextFault {
    ghost use Rattle.pm_lines.specs.Faults.{fault_words, fault_line, fault_setup};

    /// The words of X6, for a caller who has no fault at hand: `X6 Memory`.
    pub fn want_of_memory() -> &'static str
        ensures { result.now ≡ fault_words Memory }
    {
        "X6 Memory"
    }

    /// The letters and the name of the fault, as a program prints them: `X1 Syntax`, `X3 TooLong`. The line
    /// follows them, if the fault has one, or why no world is made.
    pub fn words(&self) -> &'static str
        ensures { result.now ≡ fault_words self.now }
    {
        match self {
            TextFault::Syntax(_) => "X1 Syntax",
            TextFault::BadHex(_) => "X2 BadHex",
            TextFault::TooLong => "X3 TooLong",
            TextFault::Read => "X4 Read",
            TextFault::Write => "X5 Write",
            TextFault::Memory => TextFault::want_of_memory(),
            TextFault::Setup(_) => "X7 Setup",
        }
    }

    /// The line of the fault, for X1 and X2. The others have none.
    pub fn line(&self) -> Option<u64>
        ensures { result ≡ fault_line self.now }
    {
        match self {
            TextFault::Syntax(line) | TextFault::BadHex(line) => Some(*line),
            _ => None,
        }
    }

    /// Why no world is made, for X7. The others have no such reason.
    pub fn setup(&self) -> Option<SetupFault>
        ensures { result ≡ fault_setup self.now }
    {
        match self {
            TextFault::Setup(fault) => Some(*fault),
            _ => None,
        }
    }
}

impl From<AllocError> for TextFault {
    ghost from_gives = { λ _ fault. fault ≡ Memory };

    fn from(_error: AllocError) -> TextFault {
        TextFault::Memory
    }
}

impl<T: Drop> From<AllocFailed<T>> for TextFault {
    ghost from_gives = { λ _ fault. fault ≡ Memory };

    fn from(failed: AllocFailed<T>) -> TextFault {
        AllocError::from(failed).into()
    }
}

impl From<SetupFault> for TextFault {
    ghost from_gives = { λ setup fault. fault ≡ Setup setup };

    fn from(fault: SetupFault) -> TextFault {
        TextFault::Setup(fault)
    }
}
