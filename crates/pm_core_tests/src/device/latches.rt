//! What a write that is taken leaves: the readings, and the status bits that it doesn't clear.

use super::{hears_row, hears_rows};
use crate::checks::is_true;
use crate::device_frames::{base, set_reading};
use pm_device::DeviceFault;
use std::process::Abort;
use std::test::Fail;

// A code that isn't in the command table, which sets bit 7 of STATUS_CML.
const UNKNOWN: &str = "B0 99 00 B6";

// VOUT_COMMAND of output 0 above VOUT_MAX, which latches bit 3 of STATUS_VOUT, and below it again.
const UP: &str = "B0 05 04 00 21 00 50 65";

const DOWN: &str = "B0 05 04 00 21 00 10 A2";

// Output 0 is switched off, and on.
const OFF: &str = "B0 05 03 00 01 40 4C";

const ON: &str = "B0 05 03 00 01 80 02";

// Frames to a converter of its own, of which only UNKNOWN is refused, and last what is read then.
static ROWS: [&[&str]; 17] = [
    // RESTORE_USER_ALL, STORE_USER_ALL, CLEAR_FAULTS and OPERATION leave the readings.
    &["B0 16 2D", "B0 06 02 01 8C / B1 02 34 12 CC"],
    &["B0 15 24", "B0 06 02 01 8C / B1 02 34 12 CC"],
    &["B0 03 46", "B0 8D / B1 78 56 20"],
    &["B0 05 03 01 01 40 27", "B0 06 02 01 8B / B1 02 4D 3C 30"],
    // CLEAR_FAULTS of any output clears STATUS_CML: carried, and by PAGE.
    &[UNKNOWN, "B0 05 02 01 03 45", "B0 7E / B1 00 89"],
    &["B0 00 01 ED", UNKNOWN, "B0 03 46", "B0 7E / B1 00 89"],
    // A write of STATUS_VOUT leaves STATUS_CML, and the other way round.
    &[UNKNOWN, "B0 05 03 00 7A 08 86", "B0 7E / B1 80 00"],
    &[UP, DOWN, "B0 7E FF 6D", "B0 7A / B1 08 1A"],
    // WRITE_PROTECT, and OPERATION off and on, leave both.
    &[UP, DOWN, "B0 10 20 5D", "B0 7A / B1 08 1A"],
    &[UP, DOWN, OFF, ON, "B0 7A / B1 08 1A"],
    &[UNKNOWN, OFF, ON, "B0 7E / B1 80 00"],
    &[UNKNOWN, "B0 10 20 5D", "B0 7E / B1 80 00"],
    // Limits and margins leave STATUS_CML.
    &[UNKNOWN, "B0 05 04 00 2B 00 10 25", "B0 7E / B1 80 00"],
    &[UNKNOWN, "B0 05 04 00 24 00 08 2A", "B0 7E / B1 80 00"],
    &[UNKNOWN, "B0 05 04 00 25 00 50 CE", "B0 7E / B1 80 00"],
    &[UNKNOWN, "B0 05 04 00 26 00 50 73", "B0 7E / B1 80 00"],
    // A store and a restore leave STATUS_VOUT.
    &[UP, DOWN, "B0 15 24", "B0 16 2D", "B0 7A / B1 08 1A"],
];

// A converter of its own, with three readings that aren't 0, hears a row.
fn leaves(rt: &impl Abort, row: &[&str]) -> Result<(), Fail> {
    let mut converter = base()?;
    for (output, code, word) in [(1, 0x8C, 0x1234), (0, 0x8D, 0x5678), (1, 0x8B, 0x3C4D)] {
        is_true(rt, set_reading(&mut converter, output, code, word), &code);
    }
    for &frame in row {
        if frame == UNKNOWN {
            let fault = Some(DeviceFault::UnsupportedCode);
            hears_row(rt, &mut converter, frame, fault);
        } else {
            hears_rows(rt, &mut converter, &[frame]);
        }
    }
    Ok(())
}

#[test]
fn a_write_leaves_what_it_does_not_clear(rt: HostRuntime) -> Result<(), Fail> {
    for row in &ROWS {
        leaves(&rt, row)?;
    }
    Ok(())
}
