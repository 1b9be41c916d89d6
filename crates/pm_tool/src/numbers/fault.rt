//! The refusals of `number`.
ghost use Rattle.std.specs.Prelude.{◌≡◌};
ghost use Rattle.pm_tool.specs.NumberFaults.{refusal_status, number_refusal_words};
ghost use Rattle.pm_lines.specs.declared.fault.TextFault.TheVariants.{Memory};
ghost use Rattle.pm_tool.specs.declared.numbers.fault.NumberFault.TheVariants as refusals;

use pm_num::NumFault;
use pm_text::TextFault;
use std::alloc::AllocError;
use thiserror::Error;

/// Why no line was printed for a word of a number format. The first four are faults of the command
/// line. All of this is this project's own choice.
#[derive(Clone, Copy, Debug, PartialEq, Eq, Error)]
#[error("{words}", words = self.words())]
pub enum NumberFault {
    /// Neither a word nor a number of millionths was given, or both.
    OneOf,
    /// The text of the format is none, or is absent.
    Format,
    /// The text of the word isn't four hexadecimal digits.
    Word,
    /// The text of the millionths isn't a decimal number of 64 bits in two's complement.
    Micro,
    /// N1 to N5: the format can't be, or has no word for the value.
    Num(NumFault),
    /// X5 or X6: the line wasn't written whole, or memory was refused.
    Text(TextFault),
}

impl NumberFault {
    /// What is said of the refusal on standard error: `bad word`, `N4 AboveGreatest`, `X5 Write`.
    pub fn words(&self) -> &'static str
        ensures { result.now ≡ number_refusal_words self.now }
    {
        match self {
            NumberFault::OneOf => "give one of --word and --micro",
            NumberFault::Format => "bad format",
            NumberFault::Word => "bad word",
            NumberFault::Micro => "bad micro",
            NumberFault::Num(fault) => fault.words(),
            NumberFault::Text(fault) => fault.words(),
        }
    }

    /// The status with which the program ends: 2 for a fault of the command line, 1 otherwise.
    pub fn status(&self) -> u8
        ensures { result ≡ refusal_status self.now }
    {
        match self {
            NumberFault::OneOf | NumberFault::Format | NumberFault::Word | NumberFault::Micro => 2,
            NumberFault::Num(_) | NumberFault::Text(_) => 1,
        }
    }
}

impl From<NumFault> for NumberFault {
    ghost from_gives = { λ fault refusal. refusal ≡ refusals.Num fault };

    fn from(fault: NumFault) -> NumberFault {
        NumberFault::Num(fault)
    }
}

impl From<TextFault> for NumberFault {
    ghost from_gives = { λ fault refusal. refusal ≡ refusals.Text fault };

    fn from(fault: TextFault) -> NumberFault {
        NumberFault::Text(fault)
    }
}

impl From<AllocError> for NumberFault {
    ghost from_gives = { λ _ refusal. refusal ≡ refusals.Text Memory };

    fn from(error: AllocError) -> NumberFault {
        NumberFault::Text(error.into())
    }
}
