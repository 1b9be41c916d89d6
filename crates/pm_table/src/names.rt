//! Codes, registers and cells as people write them: by the names that the standard prints.

ghost use Rattle.std.specs.Prelude.{◌≡◌, Some, codes};
ghost use Rattle.std.specs.Result.{result_ok};
ghost use Rattle.pm_table.specs.Names.{cell_text, code_named, code_text, register_named, register_text};

use crate::cell::Cell;
use crate::commands::Code;
use crate::reg::Reg;
use std::error::Error;
use std::fmt;
use std::str::FromStr;

/// A text that is the name of no code of the command table, or of no register if a register was sought.
#[derive(Clone, Copy, Debug, PartialEq, Eq)]
pub struct UnknownName;

impl fmt::Display for UnknownName {
    ghost output = { λ _. Some (codes "no such name in the command table") };

    fn fmt<W: fmt::Write>(&self, f: &mut fmt::Formatter<W>) -> fmt::Result {
        f.write_str("no such name in the command table")
    }
}

impl Error for UnknownName {}

/// The name, as `VOUT_COMMAND`; of a code that isn't in the command table its number, as `96h`.
impl fmt::Display for Code {
    ghost output = { λ code. Some (code_text code.0) };

    #[tactic(auto, using(std::proofs::lemmas::Fmt::hex_byte))]
    fn fmt<W: fmt::Write>(&self, f: &mut fmt::Formatter<W>) -> fmt::Result {
        if self.is_known() {
            return f.write_str(self.name());
        }
        let number = self.0;
        write!(f, "{number:02X}h")
    }
}

/// The code of a name, as `VOUT_COMMAND`.
impl FromStr for Code {
    type Err = UnknownName;

    ghost from_str_gives = { λ text r. result_ok r ≡ code_named text };

    fn from_str(name: &str) -> Result<Code, UnknownName> {
        match code_named(name) {
            Some(code) => Ok(code),
            None => Err(UnknownName),
        }
    }
}

// The code of the command table that has this name.
#[tactic(auto, unfolding(crate::specs::Names::code_named))]
fn code_named(name: &str) -> Option<Code>
    ensures { result ≡ code_named name.now }
{
    Code::ALL.iter().copied().find(|code| name == code.name())
}

/// The name of its code, as `VOUT_COMMAND`.
impl fmt::Display for Reg {
    ghost output = { λ register. Some (register_text register) };

    fn fmt<W: fmt::Write>(&self, f: &mut fmt::Formatter<W>) -> fmt::Result {
        f.write_str(self.code().name())
    }
}

/// The register of a name, as `VOUT_COMMAND`.
impl FromStr for Reg {
    type Err = UnknownName;

    ghost from_str_gives = { λ text r. result_ok r ≡ register_named text };

    fn from_str(name: &str) -> Result<Reg, UnknownName> {
        match register_named(name) {
            Some(register) => Ok(register),
            None => Err(UnknownName),
        }
    }
}

/// The number of its output and the name of its register, as `0 VOUT_COMMAND`; `- WRITE_PROTECT`
/// for the device's own.
impl fmt::Display for Cell {
    ghost output = { λ cell. Some (cell_text cell) };

    #[tactic(auto, unfolding(crate::specs::Commands::line_of))]
    fn fmt<W: fmt::Write>(&self, f: &mut fmt::Formatter<W>) -> fmt::Result {
        match self {
            Cell::Out(output, register) => {
                let name = register.code().name();
                write!(f, "{output} {name}")
            }
            Cell::Protect => f.write_str("- WRITE_PROTECT"),
        }
    }
}

// The register that has this name.
#[tactic(auto, unfolding(crate::specs::Names::register_named))]
fn register_named(name: &str) -> Option<Reg>
    ensures { result ≡ register_named name.now }
{
    Reg::ALL
        .iter()
        .copied()
        .find(|register| name == register.code().name())
}
