//! The settings as a map, and what they command.

ghost use Rattle.std.specs.Prelude.{◌≡◌, ◌<◌};

use crate::checks::{equal, is_true};
use pm_core_tests::START;
use pm_model::{Formats, Plain};
use pm_num::{AnyFormat, Direct, NumFormat, Ulinear16};
use pm_table::{Cell, Reg};
use std::process::Abort;
use std::test::Fail;

// A cell of two outputs, its start word and another one.
const WORDS: [(Cell, u16, u16); 7] = [
    (Cell::Out(0, Reg::Operation), 0x80, 0x40),
    (Cell::Out(0, Reg::VoutCommand), 0x1000, 0xFFFF),
    (Cell::Out(1, Reg::VoutMax), 0x4000, 0x0000),
    (Cell::Out(1, Reg::MarginHigh), 0x1100, 0x1234),
    (Cell::Out(0, Reg::MarginLow), 0x0F00, 0x4321),
    (Cell::Out(1, Reg::VoutMin), 0x0000, 0x5555),
    (Cell::Protect, 0x00, 0x80),
];

// The words at the start, and with another one of a cell.
fn base() -> Plain {
    Plain::new(2, [START; 8], 0x00)
}

fn with(rt: &impl Abort, cell: Cell, word: u16) -> Plain {
    let base = base();
    is_true(rt, base.has(cell) && cell.accepts(word), &1);
    base.with(cell, word)
}

fn has_word(rt: &impl Abort, plain: &Plain, cell: Cell, word: u16) {
    is_true(rt, plain.has(cell), &1);
    equal(rt, &plain.get(cell), &word, &cell);
}

// A cell is set to a word, and each other has its start word.
fn is_set_alone(rt: &impl Abort, cell: Cell, word: u16) {
    let changed = with(rt, cell, word);
    for &(other, start, _) in &WORDS {
        has_word(
            rt,
            &changed,
            other,
            if other == cell { word } else { start },
        );
    }
}

#[test]
fn each_cell_is_read_back_and_no_other_changes(rt: HostRuntime) {
    is_true(&rt, !base().has(Cell::Out(2, Reg::Operation)), &1);
    for &(cell, before, after) in &WORDS {
        has_word(&rt, &base(), cell, before);
        is_set_alone(&rt, cell, after);
    }
}

// What OPERATION, VOUT_COMMAND, VOUT_MAX, both margins and VOUT_MIN of output 1 make it command.
fn commands(format: AnyFormat, words: [u16; 6]) -> (i128, i128, bool) {
    let mut rows = [START; 8];
    rows[1] = words;
    let [operation, ..] = words;
    if !Cell::Out(1, Reg::Operation).accepts(operation) {
        return (0, 0, false);
    }
    let plain = Plain::new(2, rows, 0x00);
    let formats = Formats {
        count: 2,
        each: [format; 8],
    };
    let value = plain.commanded(&formats, 1);
    (value.num(), value.den(), plain.is_cut(&formats, 1))
}

// The words of an output, in that order, with the value that it commands and whether that is cut: in
// ULINEAR16 with N = -12, and in DIRECT with a greater word as a lower voltage.
#[rattlefmt::skip]
static LINEAR: [([u16; 6], (i128, i128, bool)); 17] = [
    ([0x80, 0x34CD, 0x4000, 0x1100, 0x0F00, 0x0000], (13517, 4096, false)),
    ([0x80, 0x4000, 0x4000, 0x1100, 0x0F00, 0x0000], (16384, 4096, false)),
    ([0x80, 0x4001, 0x4000, 0x1100, 0x0F00, 0x0000], (16384, 4096, true)),
    ([0xA8, 0x1000, 0x4000, 0x1100, 0x0F00, 0x0000], (4352, 4096, false)),
    ([0xA4, 0x1000, 0x1000, 0x1100, 0x0F00, 0x0000], (4096, 4096, true)),
    ([0x94, 0x5000, 0x4000, 0x1100, 0x0F00, 0x0000], (3840, 4096, false)),
    ([0x9B, 0x5000, 0x4000, 0x1100, 0x0F00, 0x0000], (3840, 4096, false)),
    ([0x00, 0x1000, 0x4000, 0x1100, 0x0F00, 0x0000], (4096, 4096, false)),
    ([0x28, 0x1000, 0x4000, 0x1100, 0x0F00, 0x0000], (4096, 4096, false)),
    ([0x68, 0x1000, 0x4000, 0x1100, 0x0F00, 0x0000], (4096, 4096, false)),
    ([0x80, 0x1000, 0x4000, 0x1100, 0x0F00, 0x2000], (8192, 4096, true)),
    ([0x80, 0x1000, 0x4000, 0x1100, 0x0F00, 0x1000], (4096, 4096, false)),
    ([0x80, 0x1000, 0x4000, 0x1100, 0x0F00, 0x5000], (16384, 4096, true)),
    ([0x80, 0x6000, 0x4000, 0x1100, 0x0F00, 0x5000], (16384, 4096, true)),
    ([0x80, 0x4800, 0x4000, 0x1100, 0x0F00, 0x5000], (16384, 4096, true)),
    ([0x80, 0x1000, 0x4000, 0x1100, 0x0F00, 0x4000], (16384, 4096, true)),
    ([0x94, 0x1000, 0x4000, 0x1100, 0x0F00, 0x0F01], (3841, 4096, true)),
];

#[rattlefmt::skip]
static FALLING: [([u16; 6], (i128, i128, bool)); 6] = [
    ([0x80, 0x03E8, 0x0BB8, 0x0000, 0x0000, 0x7FFF], (2000, 1000, true)),
    ([0x80, 0x0BB8, 0x03E8, 0x0000, 0x0000, 0x7FFF], (2000, 1000, false)),
    ([0x80, 0xFFFF, 0x0000, 0x0000, 0x0000, 0x7FFF], (5000, 1000, true)),
    ([0x80, 0x0BB8, 0x03E8, 0x0000, 0x0000, 0x07D0], (3000, 1000, true)),
    ([0x80, 0x07D0, 0x03E8, 0x0000, 0x0000, 0x0BB8], (3000, 1000, false)),
    ([0x80, 0x0BB8, 0x07D0, 0x0000, 0x0000, 0x03E8], (3000, 1000, true)),
];

fn does_command(rt: &impl Abort, format: AnyFormat, words: [u16; 6], wanted: (i128, i128, bool)) {
    equal(rt, &commands(format, words), &wanted, &words);
}

#[test]
fn the_selected_value_is_cut_to_those_of_vout_min_and_vout_max(
    rt: HostRuntime,
) -> Result<(), Fail> {
    let Some(linear) = Ulinear16::new(-12) else {
        unreachable!()
    };
    let linear = AnyFormat::Ulinear16(linear);
    let falling = AnyFormat::Direct(Direct::new(-1, 5, 3)?);
    for (words, wanted) in &LINEAR {
        does_command(&rt, linear, *words, *wanted);
    }
    for (words, wanted) in &FALLING {
        does_command(&rt, falling, *words, *wanted);
    }
    Ok(())
}

// An order of 3.3 V to an output whose VOUT_MAX is 2 V: what it commands, and whether that is cut.
fn limited() -> Option<(i128, i128, bool)> {
    // OPERATION, VOUT_COMMAND, VOUT_MAX, both margins and VOUT_MIN, in ULINEAR16 with N = -12
    let start = [0x80, 0x1000, 0x2000, 0x1100, 0x0F00, 0x0000];
    let mut plain = Plain::new(1, [start; 8], 0x00);
    plain.put(Cell::Out(0, Reg::VoutCommand), 0x34CD);
    let formats = Formats {
        count: 1,
        each: [AnyFormat::Ulinear16(Ulinear16::new(-12)?); 8],
    };
    let volts = plain.commanded(&formats, 0);
    Some((volts.num(), volts.den(), plain.is_cut(&formats, 0))) // 8192 / 4096 V, true
}

// The example of the root of `pm_model`.
#[test]
fn the_example_of_the_root_runs(rt: HostRuntime) {
    equal(&rt, &limited(), &Some((8192, 4096, true)), &1);
}
