//! What each code writes, over the bus.

use super::hears_rows;
use crate::checks::equal;
use crate::device_frames::{base, page_of, restart, word};
use crate::fixtures::CELLS;
use pm_device::Converter;
use pm_table::Cell;
use std::process::Abort;
use std::test::Fail;

// Carried writes of both outputs, then a plain one while PAGE is 1; each register is read back.
#[rattlefmt::skip]
static WRITES: [&str; 52] = [
    "B0 00 01 ED", "B0 00 / B1 01 C5", "B0 05 03 00 01 A8 DA", "B0 05 03 01 01 94 05",
    "B0 06 02 00 01 / B1 01 A8 AB", "B0 06 02 01 01 / B1 01 94 7D", "B0 01 40 38",
    "B0 06 02 00 01 / B1 01 A8 AB", "B0 06 02 01 01 / B1 01 40 5F", "B0 01 / B1 40 6E",
    "B0 05 04 00 21 11 11 E7", "B0 05 04 01 21 22 22 AE", "B0 06 02 00 21 / B1 02 11 11 04",
    "B0 06 02 01 21 / B1 02 22 22 72", "B0 21 33 03 7F", "B0 06 02 00 21 / B1 02 11 11 04",
    "B0 06 02 01 21 / B1 02 33 03 D7", "B0 21 / B1 33 03 57", "B0 05 04 00 24 44 44 C6",
    "B0 05 04 01 24 55 55 E5", "B0 06 02 00 24 / B1 02 44 44 08", "B0 06 02 01 24 / B1 02 55 55 14",
    "B0 24 66 66 CE", "B0 06 02 00 24 / B1 02 44 44 08", "B0 06 02 01 24 / B1 02 66 66 4B",
    "B0 24 / B1 66 66 68", "B0 05 04 00 25 77 07 A5", "B0 05 04 01 25 88 08 49",
    "B0 06 02 00 25 / B1 02 77 07 62", "B0 06 02 01 25 / B1 02 88 08 B1", "B0 25 99 09 78",
    "B0 06 02 00 25 / B1 02 77 07 62", "B0 06 02 01 25 / B1 02 99 09 F4", "B0 25 / B1 99 09 A3",
    "B0 05 04 00 26 AA 0A 68", "B0 05 04 01 26 BB 0B 3B", "B0 06 02 00 26 / B1 02 AA 0A B4",
    "B0 06 02 01 26 / B1 02 BB 0B D8", "B0 26 CC 0C 93", "B0 06 02 00 26 / B1 02 AA 0A B4",
    "B0 06 02 01 26 / B1 02 CC 0C 04", "B0 26 / B1 CC 0C CF", "B0 05 04 00 2B DD 0A 30",
    "B0 05 04 01 2B EE 0B E7", "B0 06 02 00 2B / B1 02 DD 0A 89", "B0 06 02 01 2B / B1 02 EE 0B 61",
    "B0 2B FF 0C C4", "B0 06 02 00 2B / B1 02 DD 0A 89", "B0 06 02 01 2B / B1 02 FF 0C 36",
    "B0 2B / B1 FF 0C F7", "B0 05 03 01 10 20 42", "B0 10 / B1 20 80",
];

// Whether a cell has its start word is as wanted.
fn has_its_start(
    rt: &impl Abort,
    converter: &Converter,
    started: &Converter,
    cell: Cell,
    wanted: bool,
) {
    let same = word(converter, cell) == word(started, cell);
    equal(rt, &same, &wanted, &cell);
}

// Then every register of both outputs has another word, and PAGE is 1; a restart gives each its start
// word again.
#[test]
fn each_write_reaches_its_own_register(rt: HostRuntime) -> Result<(), Fail> {
    let started = base()?;
    let mut converter = base()?;
    hears_rows(&rt, &mut converter, &WRITES);
    for &cell in &CELLS {
        has_its_start(&rt, &converter, &started, cell, false);
    }
    restart(&mut converter);
    for &cell in &CELLS {
        has_its_start(&rt, &converter, &started, cell, true);
    }
    equal(&rt, &page_of(&converter), &0, &1);
    Ok(())
}
