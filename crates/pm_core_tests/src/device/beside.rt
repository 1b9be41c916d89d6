//! What is heard beside writes: requests, whatever their bytes, and frames for other devices. Neither changes a setting,
//! the store or PAGE; a request latches a bit of STATUS_CML at most.

use super::{Wanted, hears, hears_rows, status};
use crate::checks::equal;
use crate::device_frames::{base, frame, hear, page_of, status_cml, stored, word};
use crate::fixtures::{CELLS, FIRST};
use pm_device::{Converter, DeviceFault, Ending};
use pm_frame::FrameFault;
use std::process::Abort;
use std::test::Fail;

// A word of its own, in the store too, then another one, and PAGE 1.
static SETTINGS: [&str; 4] = [
    "B0 05 04 00 21 CD 34 5A",
    "B0 15 24",
    "B0 05 04 01 21 34 12 17",
    "B0 00 01 ED",
];

// Requests that are refused, in which whole writes stand too: a code that isn't in the table, as in a block read of MFR_ID,
// CLEAR_FAULTS, STORE_USER_ALL and RESTORE_USER_ALL, writes of VOUT_COMMAND and PAGE, a page that isn't there and a side
// that isn't there; each with STATUS_CML as it is then.
#[rattlefmt::skip]
static REQUESTS: [(&str, DeviceFault, u8); 8] = [
    ("B0 21 CD 34 38", DeviceFault::Frame(FrameFault::Long(2)), 0x02),
    ("B0 00 00 EA", DeviceFault::Frame(FrameFault::Long(2)), 0x02),
    ("B0 30 02 21 02", DeviceFault::UnsupportedData, 0x42),
    ("B0 99", DeviceFault::UnsupportedCode, 0xC2),
    ("B0 03 46", DeviceFault::ReadOnly, 0xC2),
    ("B0 15 24", DeviceFault::ReadOnly, 0xC2),
    ("B0 16 2D", DeviceFault::ReadOnly, 0xC2),
    ("B0 06 02 07 21", DeviceFault::BadPage, 0xC2),
];

// Frames for other devices, which are whole writes to 59h, 57h and 2Ch, a read's answer and a read of this device's own
// address, and no bytes.
#[rattlefmt::skip]
static OTHERS: [&str; 6] = [
    "B2 05 04 00 21 CD 34 5A", "AE 15 24", "58 00 00 EA", "B3 02 34 12 CC", "B1 21 CD 34 38", "",
];

// The converter has the words of another one, in the store too, and PAGE 1.
fn is_as(rt: &impl Abort, converter: &Converter, other: &Converter, row: &str) {
    for &cell in &CELLS {
        equal(rt, &word(converter, cell), &word(other, cell), &(cell, row));
        let kept = stored(other, cell);
        equal(rt, &stored(converter, cell), &kept, &(cell, row));
    }
    equal(rt, &page_of(converter), &1, &row);
    for output in [0, 1] {
        let (_, vout) = status(rt, converter, output);
        equal(rt, &vout, &0x00, &row);
    }
}

#[test]
fn a_request_latches_a_bit_at_most(rt: HostRuntime) -> Result<(), Fail> {
    let mut converter = base()?;
    let mut alone = base()?;
    hears_rows(&rt, &mut converter, &SETTINGS);
    hears_rows(&rt, &mut alone, &SETTINGS);
    for (row, fault, cml) in &REQUESTS {
        let bytes = frame(&rt, row);
        let wanted = Wanted::Refused(*fault);
        hears(
            &rt,
            &mut converter,
            bytes.as_slice(),
            Ending::Restart,
            wanted,
        );
        equal(&rt, &status_cml(&converter), cml, row);
        is_as(&rt, &converter, &alone, row);
    }
    // A read that is answered clears none of them.
    hears_rows(&rt, &mut converter, &["B0 06 02 00 21 / B1 02 CD 34 B9"]);
    equal(&rt, &status_cml(&converter), &0xC2, &"answered");
    equal(&rt, &word(&converter, FIRST), &0x34CD, &"answered");
    Ok(())
}

#[test]
fn a_frame_for_another_device_changes_nothing(rt: HostRuntime) -> Result<(), Fail> {
    let mut converter = base()?;
    let mut alone = base()?;
    hears_rows(&rt, &mut converter, &SETTINGS);
    hears_rows(&rt, &mut alone, &SETTINGS);
    hear(&mut converter, &[0xB0, 0x99], Ending::Restart);
    for row in &OTHERS {
        let bytes = frame(&rt, row);
        for ending in [Ending::Stop, Ending::Restart] {
            hears(
                &rt,
                &mut converter,
                bytes.as_slice(),
                ending,
                Wanted::Silent,
            );
            equal(&rt, &status_cml(&converter), &0x80, row);
            is_as(&rt, &converter, &alone, row);
        }
    }
    Ok(())
}
