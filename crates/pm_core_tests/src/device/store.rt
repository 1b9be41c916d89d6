//! The user store: what STORE_USER_ALL and RESTORE_USER_ALL do, plain and carried, and what a restart loads.

use super::{hears_row, hears_rows, status, with_protect};
use crate::checks::{equal, is_true};
use crate::device_frames::{base, frame, hear, page_of, restart, status_cml, stored, word};
use crate::fixtures::{CELLS, FIRST, SECOND};
use pm_device::{Converter, DeviceFault, Ending, Heard};
use pm_frame::FrameFault;
use pm_table::Cell;
use std::process::Abort;
use std::test::Fail;

const K4: Option<DeviceFault> = Some(DeviceFault::BadPage);

const K5: Option<DeviceFault> = Some(DeviceFault::Protected);

const K7: Option<DeviceFault> = Some(DeviceFault::ReadOnly);

const F3: Option<DeviceFault> = Some(DeviceFault::Frame(FrameFault::Long(3)));

const F4: Option<DeviceFault> = Some(DeviceFault::Frame(FrameFault::WrongCount(2)));

// A frame and its refusal, and then VOUT_COMMAND of both outputs, their words in the store, and
// WRITE_PROTECT.
type Row = (&'static str, Option<DeviceFault>, [u16; 2], [u16; 2], u16);

const START: [u16; 2] = [0x1000, 0x1000];

const ONE: [u16; 2] = [0x34CD, 0x1000];

const BOTH: [u16; 2] = [0x34CD, 0x2000];

#[rattlefmt::skip]
static ROWS: [Row; 33] = [
    ("B0 16 2D", None, START, START, 0x00),
    ("B0 05 04 00 21 CD 34 5A", None, ONE, START, 0x00),
    // What names no output, has a byte too many, or is asked for as a read, is refused.
    ("B0 05 02 02 15 18", K4, ONE, START, 0x00), ("B0 05 02 02 16 11", K4, ONE, START, 0x00),
    ("B0 05 02 FF 16 EC", K4, ONE, START, 0x00), ("B0 15 00 FC", F3, ONE, START, 0x00),
    ("B0 05 03 00 15 00 88", F4, ONE, START, 0x00), ("B0 15 /", K7, ONE, START, 0x00),
    ("B0 06 02 00 16 /", K7, ONE, START, 0x00),
    // WRITE_PROTECT blocks both, but for 00h, whether they are carried or not.
    ("B0 10 20 5D", None, ONE, START, 0x20), ("B0 15 24", K5, ONE, START, 0x20),
    ("B0 16 2D", K5, ONE, START, 0x20), ("B0 05 02 01 15 27", K5, ONE, START, 0x20),
    ("B0 05 02 02 15 18", K4, ONE, START, 0x20), ("B0 10 40 7A", None, ONE, START, 0x40),
    ("B0 15 24", K5, ONE, START, 0x40), ("B0 16 2D", K5, ONE, START, 0x40),
    ("B0 10 80 34", None, ONE, START, 0x80), ("B0 15 24", K5, ONE, START, 0x80),
    ("B0 05 02 00 16 3B", K5, ONE, START, 0x80), ("B0 10 00 BD", None, ONE, START, 0x00),
    // On whichever page, both outputs are stored; a store heard twice is one.
    ("B0 05 02 01 15 27", None, ONE, ONE, 0x00), ("B0 05 02 01 15 27", None, ONE, ONE, 0x00),
    ("B0 05 04 01 21 00 20 24", None, BOTH, ONE, 0x00),
    ("B0 15 24", None, BOTH, BOTH, 0x00),
    ("B0 05 04 00 21 00 10 A2", None, [0x1000, 0x2000], BOTH, 0x00),
    ("B0 05 02 01 16 2E", None, BOTH, BOTH, 0x00),
    ("B0 05 04 00 21 00 10 A2", None, [0x1000, 0x2000], BOTH, 0x00),
    // PAGE is left as it is.
    ("B0 00 01 ED", None, [0x1000, 0x2000], BOTH, 0x00),
    ("B0 16 2D", None, BOTH, BOTH, 0x00), ("B0 00 / B1 01 C5", None, BOTH, BOTH, 0x00),
    // Before the restart that follows, which gives WRITE_PROTECT its start value.
    ("B0 15 24", None, BOTH, BOTH, 0x00), ("B0 10 20 5D", None, BOTH, BOTH, 0x20),
];

fn holds(rt: &impl Abort, converter: &Converter, row: &Row) {
    let (bytes, _, words, kept, protect) = row;
    let now = [word(converter, FIRST), word(converter, SECOND)];
    equal(rt, &now, words, &bytes);
    let store = [stored(converter, FIRST), stored(converter, SECOND)];
    equal(rt, &store, kept, &bytes);
    equal(rt, &word(converter, Cell::Protect), protect, &bytes);
}

#[test]
fn the_outputs_settings_are_stored_and_come_back(rt: HostRuntime) -> Result<(), Fail> {
    let mut converter = base()?;
    for row in &ROWS {
        hears_row(&rt, &mut converter, row.0, row.1);
        holds(&rt, &converter, row);
    }
    restart(&mut converter);
    let row = ("a restart", None, BOTH, BOTH, 0x00);
    holds(&rt, &converter, &row);
    equal(&rt, &page_of(&converter), &0, &1);
    Ok(())
}

// At a converter that starts with WRITE_PROTECT 20h: neither a restore nor a store reaches it.
static PROTECTION: [(&str, u16); 5] = [
    ("B0 10 00 BD", 0x00),
    ("B0 16 2D", 0x00),
    ("B0 15 24", 0x00),
    ("B0 16 2D", 0x00),
    ("B0 10 40 7A", 0x40),
];

#[test]
fn write_protect_is_not_stored(rt: HostRuntime) -> Result<(), Fail> {
    let mut converter = with_protect(0x20)?;
    for &(row, wanted) in &PROTECTION {
        hears_rows(&rt, &mut converter, &[row]);
        equal(&rt, &word(&converter, Cell::Protect), &wanted, &row);
    }
    restart(&mut converter);
    equal(&rt, &word(&converter, Cell::Protect), &0x20, &"restart");
    Ok(())
}

// Each cell of both outputs gets another word; the store brings each back.
#[rattlefmt::skip]
static OTHERS: [&str; 12] = [
    "B0 05 03 00 01 40 4C", "B0 05 04 00 21 11 11 E7", "B0 05 04 00 24 44 44 C6",
    "B0 05 04 00 25 77 07 A5", "B0 05 04 00 26 AA 0A 68", "B0 05 04 00 2B DD 0A 30",
    "B0 05 03 01 01 94 05", "B0 05 04 01 21 22 22 AE", "B0 05 04 01 24 55 55 E5",
    "B0 05 04 01 25 88 08 49", "B0 05 04 01 26 BB 0B 3B", "B0 05 04 01 2B EE 0B E7",
];

fn is_stored(rt: &impl Abort, converter: &Converter, cell: Cell) {
    if let Cell::Out(_, _) = cell {
        equal(rt, &stored(converter, cell), &word(converter, cell), &cell);
    }
}

fn has(rt: &impl Abort, converter: &Converter, other: &Converter, cell: Cell) {
    equal(rt, &word(converter, cell), &word(other, cell), &cell);
}

#[test]
fn each_cell_is_stored(rt: HostRuntime) -> Result<(), Fail> {
    let (mut converter, mut other, started) = (base()?, base()?, base()?);
    hears_rows(&rt, &mut other, &OTHERS);
    hears_rows(&rt, &mut converter, &OTHERS);
    hears_rows(&rt, &mut converter, &["B0 16 2D"]);
    for &cell in &CELLS {
        has(&rt, &converter, &started, cell);
    }
    hears_rows(&rt, &mut converter, &OTHERS);
    hears_rows(&rt, &mut converter, &["B0 15 24"]);
    for &cell in &CELLS {
        is_stored(&rt, &converter, cell);
    }
    restart(&mut converter);
    for &cell in &CELLS {
        has(&rt, &converter, &other, cell);
    }
    Ok(())
}

// A restore latches what is outside its limits then, of whichever output, and clears nothing.
#[test]
fn a_restore_latches_and_clears_nothing(rt: HostRuntime) -> Result<(), Fail> {
    let mut converter = base()?;
    let above = "B0 05 04 01 21 00 50 73";
    let below = "B0 05 04 01 21 00 10 B4";
    hears_rows(&rt, &mut converter, &[above, "B0 15 24", below]);
    hears_rows(&rt, &mut converter, &["B0 05 02 01 03 45"]);
    equal(&rt, &status(&rt, &converter, 1), &(0x0000, 0x00), &1);
    hears_row(
        &rt,
        &mut converter,
        "B0 99 00 B6",
        Some(DeviceFault::UnsupportedCode),
    );
    hears_rows(&rt, &mut converter, &["B0 16 2D"]);
    equal(&rt, &status(&rt, &converter, 1), &(0x8003, 0x08), &2);
    equal(&rt, &status(&rt, &converter, 0), &(0x0002, 0x00), &3);
    hears_rows(&rt, &mut converter, &[below, "B0 15 24", "B0 16 2D"]);
    equal(&rt, &status(&rt, &converter, 1), &(0x8003, 0x08), &4);
    equal(&rt, &status_cml(&converter), &0x80, &5);
    Ok(())
}

// A store and a restore that are cut change nothing.
#[test]
fn a_cut_store_is_no_store(rt: HostRuntime) -> Result<(), Fail> {
    let mut converter = base()?;
    hears_rows(&rt, &mut converter, &["B0 05 04 00 21 CD 34 5A"]);
    for cut in ["B0 15", "B0 16", "B0 05 02 00 15", "B0 05 02 00 16"] {
        let bytes = frame(&rt, cut);
        let heard = hear(&mut converter, bytes.as_slice(), Ending::Stop);
        is_true(
            &rt,
            matches!(heard, Heard::Refused(DeviceFault::Frame(_))),
            &cut,
        );
        equal(&rt, &word(&converter, FIRST), &0x34CD, &cut);
        equal(&rt, &stored(&converter, FIRST), &0x1000, &cut);
    }
    Ok(())
}
