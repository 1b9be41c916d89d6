//! Why a line of a scenario can't be read.

use pm_lines::TextFault;

/// Why a line of a scenario can't be read.
#[derive(Clone, Copy, Debug, PartialEq, Eq)]
pub enum ScenarioFault {
    /// X1: a word of this line isn't what stands at its place, or a word or the line is missing, or
    /// one is too many.
    Syntax(u64),
    /// X2: a word of this line should be hexadecimal of a stated length and isn't.
    BadHex(u64),
}

impl From<ScenarioFault> for TextFault {
    ghost use Rattle.std.specs.Prelude.{◌≡◌};
    ghost use Rattle.pm_text.specs.ScenarioText.{text_fault};

    ghost from_gives = { λ line text. text ≡ text_fault line };

    fn from(fault: ScenarioFault) -> TextFault {
        match fault {
            ScenarioFault::Syntax(line) => TextFault::Syntax(line),
            ScenarioFault::BadHex(line) => TextFault::BadHex(line),
        }
    }
}
