//! What a host knows of every cell, in one answer.

ghost use Rattle.std.specs.Prelude.{◌≡◌, ◌<◌, ◌≤◌, drop, None};
ghost use Rattle.pm_table.specs.Cell.{nth_cell, IsCell};
ghost use Rattle.pm_host.specs.Image.{held};
ghost use Rattle.pm_memory.specs.Known.{cell_count, AreKnown, IsKnown};

use crate::known::{counted, flagged};
use pm_host::{StandingImage, State, WordsImage};
use pm_table::{Cell, Reg};

/// What is known of one cell, which its output and its command code name.
#[repr(C)]
#[derive(Clone, Copy)]
pub struct KnownCell {
    /// The command code.
    pub code: u8,
    /// The output; 0 of WRITE_PROTECT.
    pub output: u8,
    /// What is known of its word.
    pub standing: StandingImage,
    /// The words that it may hold.
    pub words: WordsImage,
}

/// What is known of each cell of a device.
#[repr(C)]
#[derive(Clone, Copy)]
pub struct KnownCells {
    /// How many cells there are.
    pub count: u16,
    /// The cells, output by output, each with its registers in their order, and WRITE_PROTECT last; after them what
    /// stood there before.
    pub cells: [KnownCell; Cell::PLACES],
}

/// Says what is known of each cell of the device, and how many there are.
pub fn fill(state: &State, cells: &mut [KnownCell; Cell::PLACES]) -> u16
    requires { state.now.outputs ≤ 8 }
    ensures count { result ≡ cell_count state.now.outputs }
    ensures cells { AreKnown (held None state.now) result cells.new }
    ensures rest { drop result cells.new ≡ drop result cells.old }
{
    let count = usize::from(state.outputs) * Reg::COUNT + 1;
    for number in 0..count {
        cells[number] = of_cell(state, cell_of_number(state.outputs, number));
    }
    count as u16
}

// The cell of this number on a device with this many outputs.
fn cell_of_number(outputs: u8, number: usize) -> Cell
    requires few { outputs ≤ 8 }
    requires there { number < cell_count outputs }
    ensures cell { result ≡ nth_cell outputs number }
    ensures there { IsCell 8 result }
{
    if number == usize::from(outputs) * Reg::COUNT {
        return Cell::Protect;
    }
    Cell::Out((number / Reg::COUNT) as u8, Reg::ALL[number % Reg::COUNT])
}

// What is known of a cell.
fn of_cell(state: &State, cell: Cell) -> KnownCell
    requires { IsCell 8 cell }
    ensures { IsKnown (held None state.now) cell result }
{
    KnownCell {
        code: cell.code().0,
        output: match cell {
            Cell::Out(output, _) => output,
            Cell::Protect => 0,
        },
        standing: flagged(state.known.standing(cell)),
        words: counted(state.known.possible(cell)),
    }
}
