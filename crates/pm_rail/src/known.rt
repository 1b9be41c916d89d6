//! The words that a host knows cells to hold.

ghost use Rattle.std.specs.Prelude.{◌≡◌, ◌<◌, None};
ghost use Rattle.pm_table.specs.Cell.{IsCell, cell_accepts};
ghost use Rattle.pm_host.specs.Image.{held};
ghost use Rattle.pm_num.specs.AnyFormat.{voltage_shape};
ghost use Rattle.pm_rail.specs.Known.{cells_of, known_at as spec_known_at, known_of as spec_known_of, known_or as spec_known_or, known_word};
ghost use Rattle.pm_table.specs.Rules.{rule};
ghost use Rattle.pm_host.specs.Summary.{possible_at};
ghost use Rattle.pm_rail.specs.Registers.{held_by};

use crate::registers::Registers;
use pm_host::State;
use pm_limits::PartRegisters;
use pm_num::VoltageFormat;
use pm_table::{Cell, Reg};

/// The form of an output: which registers its part has, and the format of its voltages.
#[derive(Clone, Copy)]
pub(crate) struct OutputForm {
    /// Which registers the part has.
    pub registers: PartRegisters,
    /// The format of the output's voltages.
    pub format: VoltageFormat,
}

/// The word that a cell is known to hold: the only one that it may hold, if it is one that the cell takes.
pub(crate) fn known_at(host: &State, form: &OutputForm, cell: Cell) -> Option<u16>
    requires { IsCell 8 cell }
    ensures { result ≡ spec_known_at (cells_of form.now.registers (voltage_shape form.now.format) (held None host.now)) cell }
{
    match cell {
        Cell::Out(_, register) if form.registers.has(register) => known_in(host, cell),
        Cell::Out(_, register) => match form.registers.missing_word(&form.format, register) {
            Some(word) => accepted(cell, word),
            None => known_in(host, cell),
        },
        Cell::Protect => known_in(host, cell),
    }
}

// The only word that a cell may hold by what the host knows; `None` unless the cell takes it.
fn known_in(host: &State, cell: Cell) -> Option<u16>
    requires { IsCell 8 cell }
    ensures { result ≡ known_word cell (possible_at (held None host.now) cell) }
{
    match host.known.possible(cell).listed() {
        Some([word]) => accepted(cell, *word),
        _ => None,
    }
}

// The word, if the cell takes it.
fn accepted(cell: Cell, word: u16) -> Option<u16>
    ensures { result ≡ rule (cell_accepts cell word) word }
{
    if cell.accepts(word) { Some(word) } else { None }
}

/// The word of a cell, or 0 if it isn't known.
pub(crate) fn known_or(host: &State, form: &OutputForm, cell: Cell) -> u16
    requires { IsCell 8 cell }
    ensures { result ≡ spec_known_or (cells_of form.now.registers (voltage_shape form.now.format) (held None host.now)) cell }
{
    match known_at(host, form, cell) {
        Some(word) => word,
        None => 0,
    }
}

/// The words that an output's registers are known to hold; 0 for those that aren't known.
pub(crate) fn known_of(host: &State, form: &OutputForm, output: u8) -> Registers
    requires { output < 8 }
    ensures { held_by result ≡ spec_known_of (cells_of form.now.registers (voltage_shape form.now.format) (held None host.now)) output }
{
    Registers {
        operation: known_or(host, form, Cell::Out(output, Reg::Operation)),
        command: known_or(host, form, Cell::Out(output, Reg::VoutCommand)),
        max: known_or(host, form, Cell::Out(output, Reg::VoutMax)),
        margin_high: known_or(host, form, Cell::Out(output, Reg::MarginHigh)),
        margin_low: known_or(host, form, Cell::Out(output, Reg::MarginLow)),
        min: known_or(host, form, Cell::Out(output, Reg::VoutMin)),
    }
}
