//! The cells: registers of outputs, and WRITE_PROTECT.

ghost use Rattle.std.specs.Prelude.{◌≡◌, ◌<◌, ◌≤◌, ◌↔◌, IsTrue, Some, None, IfSome};
ghost use Rattle.pm_table.specs.declared.cell.Cell.{Cell};
ghost use Rattle.pm_table.specs.Cell.{cell_at};

use crate::commands::Code;
use crate::operation::Operation;
use crate::reg::Reg;

/// A setting of the converter that holds a word: a register of an output, or WRITE_PROTECT, which
/// is the device's.
#[derive(Clone, Copy, Debug, PartialEq, Eq, PartialOrd, Ord, Hash)]
pub enum Cell {
    /// A register of the output with this number, from 0.
    Out(u8, Reg),
    /// WRITE_PROTECT. One byte.
    Protect,
}

impl Cell {
    ghost use Rattle.pm_table.specs.Cell.{cell_accepts, cell_bytes, cell_code, cell_in, cell_name, is_cell, is_voltage_cell, output_of, place_of, places, IsCell};

    /// How many cells a device with eight outputs has.
    pub const PLACES: usize = 8 * Reg::COUNT + 1;

    /// The command code that reads and writes the cell. `cell_of` leads back from it and the cell's
    /// output.
    pub fn code(&self) -> Code
        ensures code { result.0 ≡ cell_code self.now }
        ensures back { cell_at result.0 (output_of self.now) ≡ Some self.now }
    {
        match self {
            Cell::Out(_, register) => register.code(),
            Cell::Protect => Code::WRITE_PROTECT,
        }
    }

    /// The name of that code as the standard prints it, as `VOUT_COMMAND`.
    pub fn name(&self) -> &'static str
        ensures { result.now ≡ cell_name self.now }
    {
        self.code().name()
    }

    /// Whether a device with this many outputs has the cell; WRITE_PROTECT each device has.
    pub fn is_there(&self, outputs: u8) -> bool
        ensures test { result ≡ is_cell outputs self.now }
        ensures there { IsTrue result ↔ IsCell outputs self.now }
    {
        match self {
            Cell::Out(output, _) => *output < outputs,
            Cell::Protect => true,
        }
    }

    /// Whether the cell is a voltage, in its output's format.
    pub fn is_voltage(&self) -> bool
        ensures { result ≡ is_voltage_cell self.now }
    {
        match self {
            Cell::Out(_, register) => register.is_voltage(),
            Cell::Protect => false,
        }
    }

    /// How many bytes its word has on the wire: 2 for a voltage, 1 for OPERATION and WRITE_PROTECT.
    pub fn bytes(&self) -> usize
        ensures { result ≡ cell_bytes self.now }
    {
        if self.is_voltage() { 2 } else { 1 }
    }

    /// Whether the cell may hold the word. A voltage may be any word. OPERATION is a byte that
    /// [`Operation::read`] reads. WRITE_PROTECT is 00h, 20h, 40h or 80h.
    pub fn accepts(&self, word: u16) -> bool
        ensures { result ≡ cell_accepts self.now word }
    {
        match self {
            Cell::Out(_, Reg::Operation) => Operation::read(word).is_some(),
            Cell::Out(_, _) => true,
            Cell::Protect => matches!(word, 0x00 | 0x20 | 0x40 | 0x80),
        }
    }

    /// The place of the cell among those of eight outputs, for a list with something for each: output
    /// by output, each with its registers in their order, and WRITE_PROTECT last. Its output is below
    /// 8.
    pub fn place(&self) -> usize
        requires { IsCell 8 self.now }
        ensures place { result ≡ place_of self.now }
        ensures within { result < places }
    {
        match self {
            Cell::Out(output, register) => usize::from(*output) * Reg::COUNT + register.number(),
            Cell::Protect => Cell::PLACES - 1,
        }
    }

    /// The cell that has this place; `None` from `PLACES` on. It leads back from `place`.
    pub fn at_place(place: usize) -> Option<Cell>
        ensures within { place < places → result ≡ Some (cell_in place) }
        ensures past { places ≤ place → result ≡ None }
        ensures there { IfSome result (λ cell. IsCell 8 cell) }
    {
        if place >= Cell::PLACES {
            return None;
        }
        if place == Cell::PLACES - 1 {
            return Some(Cell::Protect);
        }
        let output = (place / Reg::COUNT) as u8;
        Some(Cell::Out(output, Reg::ALL[place % Reg::COUNT]))
    }
}

/// The cell that a command code reads and writes: OPERATION and the codes of the voltages mean a
/// register of that output, 10h means WRITE_PROTECT whatever the output. `None` for every other
/// code.
pub fn cell_of(code: Code, output: u8) -> Option<Cell>
    ensures { result ≡ cell_at code.0 output }
{
    if code == Code::WRITE_PROTECT {
        return Some(Cell::Protect);
    }
    match Reg::with_code(code) {
        Some(register) => Some(Cell::Out(output, register)),
        None => None,
    }
}
