//! What a converter is made from.

ghost use Rattle.std.specs.Prelude.{◌≡◌, ◌≤◌};
ghost use Rattle.pm_device.specs.Start.{has_direct, outputs};
ghost use Rattle.pm_device.specs.Verdict.{answers_coefficients, has_coefficients};

use crate::output_start::OutputStart;
pub(crate) use faults::config_fault;
use pm_table::{Code, Coefficients, VoutMode, cell_of};

mod faults;

/// What a converter is made from.
#[derive(Clone, Copy, Debug, PartialEq, Eq)]
pub struct Config {
    /// The seven-bit address, 08h to 77h.
    pub addr: u8,
    /// How many outputs there are, 1 to 8.
    pub count: u8,
    /// The outputs' start values; those from `count` on mean nothing.
    pub starts: [OutputStart; 8],
    /// The start value of WRITE_PROTECT, one byte.
    pub protect: u16,
    /// The coefficients of every output with VOUT_MODE 40h, the same in both directions.
    pub coefficients: Coefficients,
}

impl Config {
    /// The starts of the outputs that there are.
    pub(crate) fn outputs(&self) -> &[OutputStart]
        requires { self.now.count ≤ 8 }
        ensures { result.now ≡ outputs self.now }
    {
        &self.starts[..usize::from(self.count)]
    }

    /// Whether some output is DIRECT.
    pub(crate) fn has_direct(&self) -> bool
        requires { self.now.count ≤ 8 }
        ensures { result ≡ has_direct self.now }
    {
        self.outputs().iter().any(|start| matches!(
            VoutMode::read(start.mode),
            Ok(VoutMode::Direct)
        ))
    }

    /// Whether COEFFICIENTS is answered for a code and a side: the code is that of a voltage, the
    /// side 00h or 01h, and some output is DIRECT.
    pub(crate) fn answers_coefficients(&self, code: Code, side: u8) -> bool
        requires { self.now.count ≤ 8 }
        ensures { result ≡ answers_coefficients self.now code.0 side }
    {
        has_coefficients(code) && side <= 1 && self.has_direct()
    }
}

// Whether the coefficients are for the code: for READ_VOUT and the code of each voltage that is set.
fn has_coefficients(code: Code) -> bool
    ensures { result ≡ has_coefficients code.0 }
{
    match cell_of(code, 0) {
        Some(cell) => cell.is_voltage(),
        None => code == Code::READ_VOUT,
    }
}
