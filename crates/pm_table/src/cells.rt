//! The cells of a device, one after another.

ghost use Rattle.std.specs.Prelude.{◌≡◌};
ghost use Rattle.std.specs.Iterator.{YieldsFirst, item_count};
ghost use Rattle.pm_table.specs.Cell.{cells_from, device_cells};

use crate::cell::Cell;
use crate::reg::Reg;

/// The cells of a device, as [`Cell::all`] gives them.
#[derive(Clone, Copy, Debug, PartialEq, Eq)]
pub struct Cells {
    outputs: u8,
    next: usize,
}

impl Cell {
    /// The cells of a device with this many outputs: output by output, each with its registers in
    /// their order, and WRITE_PROTECT last.
    pub fn all(outputs: u8) -> Cells
        ensures { cells_from result.outputs result.next ≡ device_cells outputs }
    {
        Cells { outputs, next: 0 }
    }
}

impl Iterator for Cells {
    type Item = Cell;

    ghost next_gives = { YieldsFirst (λ it. cells_from it.outputs it.next) };

    ghost remaining = { item_count (λ it. cells_from it.outputs it.next) };

    fn next(&mut self) -> Option<Cell> {
        let registers = usize::from(self.outputs) * Reg::COUNT;
        let number = self.next;
        if registers < number {
            return None;
        }
        self.next = number + 1;
        if number == registers {
            return Some(Cell::Protect);
        }
        let output = (number / Reg::COUNT) as u8;
        Some(Cell::Out(output, Reg::ALL[number % Reg::COUNT]))
    }
}
