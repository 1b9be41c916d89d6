//! Cells: the words that each takes, their codes, and their places.

use crate::checks::agrees;
use pm_table::{Cell, Code, Reg, cell_of};

// The bytes of OPERATION that have a meaning: the bits that are fixed, and their values.
#[rattlefmt::skip]
static OPERATIONS: [(u16, u16); 7] = [
    (0b1100_0000, 0b0000_0000), (0b1100_0000, 0b0100_0000), (0b1111_0000, 0b1000_0000),
    (0b1111_1100, 0b1001_0100), (0b1111_1100, 0b1001_1000), (0b1111_1100, 0b1010_0100),
    (0b1111_1100, 0b1010_1000),
];

#[rattlefmt::skip]
static REGISTERS: [(u8, Reg); 6] = [
    (0x01, Reg::Operation), (0x21, Reg::VoutCommand), (0x24, Reg::VoutMax), (0x25, Reg::MarginHigh),
    (0x26, Reg::MarginLow), (0x2B, Reg::VoutMin),
];

// Whether a cell takes this word.
fn takes(cell: Cell, word: u16) -> bool {
    cell.accepts(word)
}

static ABOVE_A_BYTE: [u16; 8] = [
    0x0200, 0x0280, 0x1000, 0x4000, 0x8000, 0x8080, 0xFF80, 0xFFFF,
];

// Cells, and whether they take a word above a byte.
static TAKERS: [(Cell, bool); 7] = [
    (Cell::Out(0, Reg::Operation), false),
    (Cell::Protect, false),
    (Cell::Out(0, Reg::VoutCommand), true),
    (Cell::Out(0, Reg::VoutMax), true),
    (Cell::Out(0, Reg::MarginHigh), true),
    (Cell::Out(0, Reg::MarginLow), true),
    (Cell::Out(0, Reg::VoutMin), true),
];

static VOLTAGES: [Cell; 5] = [
    Cell::Out(0, Reg::VoutCommand),
    Cell::Out(1, Reg::VoutMax),
    Cell::Out(7, Reg::MarginHigh),
    Cell::Out(255, Reg::MarginLow),
    Cell::Out(2, Reg::VoutMin),
];

#[test]
fn each_cell_takes_its_words(rt: HostRuntime) {
    // OPERATION takes the bytes that have a meaning.
    let cell = Cell::Out(1, Reg::Operation);
    for word in 0..=0x1FF {
        let means = |row: &(u16, u16)| word & row.0 == row.1;
        let wanted = word <= 0xFF && OPERATIONS.iter().any(means);
        agrees(&rt, usize::from(word), &takes(cell, word), &wanted);
    }
    // WRITE_PROTECT takes four bytes.
    for word in 0..=0x1FF {
        let wanted = [0x00, 0x20, 0x40, 0x80].contains(&word);
        agrees(&rt, usize::from(word), &takes(Cell::Protect, word), &wanted);
    }
    // Only a voltage takes a word above a byte.
    for word in &ABOVE_A_BYTE {
        for (row, (cell, wanted)) in TAKERS.iter().enumerate() {
            agrees(&rt, row, &takes(*cell, *word), wanted);
        }
    }
    // A voltage takes every word of a byte.
    for word in 0..=0x1FF {
        for cell in &VOLTAGES {
            agrees(&rt, usize::from(word), &takes(*cell, word), &true);
        }
    }
}

// The cell of a code and an output, as the table has it.
fn row_of(code: u8, output: u8) -> Option<Cell> {
    if code == 0x10 {
        return Some(Cell::Protect);
    }
    let register = REGISTERS.iter().find(|row| row.0 == code).map(|row| row.1);
    register.map(|register| Cell::Out(output, register))
}

// The cell of a code and an output.
fn cell_at(code: u8, output: u8) -> Option<Cell> {
    cell_of(Code(code), output)
}

// The number of a cell's code.
fn code_of(cell: Cell) -> u8 {
    cell.code().0
}

#[test]
fn seven_codes_mean_a_cell_and_no_other_does(rt: HostRuntime) {
    for code in 0..=u8::MAX {
        agrees(&rt, usize::from(code), &cell_at(code, 0), &row_of(code, 0));
        let last = row_of(code, 255);
        agrees(&rt, usize::from(code), &cell_at(code, 255), &last);
    }
    // The code of a cell is the one that leads to it.
    agrees(&rt, 0, &code_of(Cell::Protect), &0x10);
    for (row, (code, register)) in REGISTERS.iter().enumerate() {
        agrees(&rt, row, &code_of(Cell::Out(0, *register)), code);
        agrees(&rt, row, &code_of(Cell::Out(255, *register)), code);
    }
}

// A cell of each kind of place: the first, the last of an output, the first of the next, the
// last of the last output, and the device's own.
#[rattlefmt::skip]
static PLACED: [(usize, Option<Cell>); 8] = [
    (0, Some(Cell::Out(0, Reg::Operation))), (5, Some(Cell::Out(0, Reg::VoutMin))),
    (6, Some(Cell::Out(1, Reg::Operation))), (22, Some(Cell::Out(3, Reg::MarginLow))),
    (47, Some(Cell::Out(7, Reg::VoutMin))), (48, Some(Cell::Protect)), (49, None),
    (usize::MAX, None),
];

// The place of the cell that has this place.
fn place_again(place: usize) -> Option<usize> {
    match Cell::at_place(place) {
        Some(cell) => Some(cell.place()),
        None => None,
    }
}

#[test]
fn places_lead_to_their_cells_and_back(rt: HostRuntime) {
    for (place, wanted) in &PLACED {
        agrees(&rt, *place, &Cell::at_place(*place), wanted);
    }
    for place in 0..Cell::PLACES {
        agrees(&rt, place, &place_again(place), &Some(place));
    }
}
