//! What is refused, for what, and which of two refusals comes first.

use super::{Wanted, hears, hears_row, status, with_protect};
use crate::checks::equal;
use crate::device_frames::{base, frame, made, page_of, status_cml, word};
use crate::fixtures::{BASE, CELLS, OUTPUT};
use pm_device::DeviceFault::{
    BadPage as K4, Frame as K1, Nested as K6, Protected as K5, ReadOnly as K7,
    UnsupportedCode as K2, UnsupportedData as K3,
};
use pm_device::{Config, ConfigFault, Converter, DeviceFault, Ending, OutputStart};
use pm_frame::FrameFault::{Long, Short, WrongCount, WrongPec};
use std::process::Abort;
use std::test::Fail;

// Each refusal of a converter of its own that starts with this WRITE_PROTECT, and what STATUS_CML then is.
type Refusal = (u16, &'static str, DeviceFault, u8);

#[rattlefmt::skip]
static REFUSALS: [Refusal; 46] = [
    (0x00, "B0", K1(Short(1)), 0x02), (0x00, "B0 06 02 00 /", K1(Short(4)), 0x02),
    (0x00, "B0 21 CD 34 38 00", K1(Long(5)), 0x02), (0x00, "B0 20 00 /", K1(Long(2)), 0x02),
    (0x00, "B0 05 01 00 4D", K1(WrongCount(2)), 0x02),
    (0x00, "B0 05 03 00 21 CD 48", K1(WrongCount(2)), 0x02),
    (0x00, "B0 06 01 00 21 /", K1(WrongCount(2)), 0x02),
    (0x00, "B0 30 03 21 00 /", K1(WrongCount(2)), 0x02),
    (0x00, "B0 05 04 01 21 CD 34 5A", K1(WrongPec(7)), 0x20),
    (0x00, "B0 10 40 00", K1(WrongPec(3)), 0x20), (0x00, "B0 99 /", K2, 0x80),
    (0x00, "B0 06 02 00 99 /", K2, 0x80), (0x00, "B0 99 00 B6", K2, 0x80),
    (0x00, "B0 05 03 00 99 00 C2", K2, 0x80), (0x00, "B0 03 /", K7, 0x80),
    (0x00, "B0 05 /", K7, 0x80), (0x00, "B0 06 02 00 03 /", K7, 0x80),
    (0x00, "B0 19 00 00", K7, 0x80), (0x00, "B0 06 00 94", K7, 0x80),
    (0x00, "B0 05 03 00 78 00 94", K7, 0x80), (0x00, "B0 05 04 00 21 CD 34 5A /", K7, 0x80),
    (0x00, "B0 05 03 00 00 01 99", K6, 0x80), (0x00, "B0 05 03 00 05 01 D8", K6, 0x80),
    (0x00, "B0 05 03 00 06 01 E7", K6, 0x80), (0x00, "B0 05 03 00 30 01 60", K6, 0x80),
    (0x00, "B0 06 02 00 00 /", K6, 0x80), (0x00, "B0 06 02 00 05 /", K6, 0x80),
    (0x00, "B0 06 02 00 06 /", K6, 0x80), (0x00, "B0 06 02 00 30 /", K6, 0x80),
    (0x00, "B0 05 03 00 01 B0 92", K3, 0x40), (0x00, "B0 01 B0 E6", K3, 0x40),
    (0x00, "B0 10 60 9A", K3, 0x40), (0x00, "B0 05 03 01 10 01 A5", K3, 0x40),
    (0x00, "B0 30 02 21 00 /", K3, 0x40), (0x00, "B0 05 04 02 21 00 10 8E", K4, 0x40),
    (0x00, "B0 05 04 FF 21 00 10 73", K4, 0x40), (0x00, "B0 00 02 E4", K4, 0x40),
    (0x00, "B0 00 FF 19", K4, 0x40), (0x00, "B0 05 03 02 7E 80 B5", K4, 0x40),
    (0x00, "B0 05 03 02 10 80 96", K4, 0x40), (0x00, "B0 05 02 02 03 7A", K4, 0x40),
    (0x00, "B0 06 02 02 21 /", K4, 0x40), (0x00, "B0 06 02 02 19 /", K4, 0x40),
    (0x00, "B0 06 02 FF 88 /", K4, 0x40), (0x80, "B0 21 CD 34 38", K5, 0x80),
    (0x40, "B0 05 04 00 21 CD 34 5A", K5, 0x80),
];

// Bytes that can be refused for more than one thing, in the same form.
#[rattlefmt::skip]
static PAIRS: [Refusal; 31] = [
    (0x80, "B0 00 02 E4", K4, 0x40), (0x80, "B0 05 04 02 21 00 10 8E", K4, 0x40),
    (0x80, "B0 05 03 02 7A 08 50", K4, 0x40), (0x80, "B0 05 02 02 03 7A", K4, 0x40),
    (0x00, "B0 05 03 02 01 B0 44", K4, 0x40), (0x80, "B0 05 03 02 01 B0 44", K4, 0x40),
    (0x80, "B0 05 03 02 10 60 38", K4, 0x40), (0x80, "B0 05 03 00 01 B0 92", K5, 0x80),
    (0x80, "B0 01 B0 E6", K5, 0x80), (0x80, "B0 10 60 9A", K3, 0x40),
    (0x80, "B0 05 03 02 99 00 14", K2, 0x80), (0x80, "B0 05 03 02 00 02 46", K6, 0x80),
    (0x80, "B0 05 03 02 19 00 A2", K7, 0x80), (0x80, "B0 06 02 02 99 /", K2, 0x80),
    (0x80, "B0 06 02 02 00 /", K6, 0x80), (0x80, "B0 06 02 02 03 /", K7, 0x80),
    (0x80, "B0 06 02 02 21 /", K4, 0x40),
    (0x80, "B0 05 04 02 21 00", K1(Short(6)), 0x02),
    (0x80, "B0 05 04 02 21 00 10 8E 00", K1(Long(8)), 0x02),
    (0x80, "B0 05 03 02 21 00 F3", K1(WrongCount(2)), 0x02),
    (0x80, "B0 05 04 02 21 00 10 00", K1(WrongPec(7)), 0x20),
    (0x80, "B0 05 03 02 99 00 00", K1(WrongPec(6)), 0x20),
    (0x80, "B0 06 02 02 /", K1(Short(4)), 0x02),
    (0x80, "B0 06 02 02 21 00 /", K1(Long(5)), 0x02),
    (0x80, "B0 06 01 02 21 /", K1(WrongCount(2)), 0x02),
    (0x00, "B0 30 02 01 /", K1(Short(4)), 0x02),
    (0x00, "B0 30 02 01 02 00 /", K1(Long(5)), 0x02),
    (0x80, "B0 01 B0 00", K1(WrongPec(3)), 0x20), (0x80, "B0 05 02 02 15 18", K4, 0x40),
    (0x80, "B0 05 02 02 16 11", K4, 0x40), (0x80, "B0 05 03 02 7E 80 B5", K4, 0x40),
];

// A refusal sets its one bit, which every output's STATUS_WORD shows, and leaves every word.
fn is_refused(
    rt: &impl Abort,
    protect: u16,
    row: &str,
    fault: DeviceFault,
    cml: u8,
) -> Result<(), ConfigFault> {
    let started = with_protect(protect)?;
    let mut converter = with_protect(protect)?;
    hears_row(rt, &mut converter, row, Some(fault));
    equal(rt, &status_cml(&converter), &cml, &row);
    equal(rt, &page_of(&converter), &0, &row);
    for output in [0, 1] {
        equal(rt, &status(rt, &converter, output), &(0x0002, 0x00), &row);
    }
    for &cell in &CELLS {
        let wanted = word(&started, cell);
        equal(rt, &word(&converter, cell), &wanted, &(cell, row));
    }
    Ok(())
}

#[test]
fn each_refusal_sets_its_own_bit_and_changes_no_word(rt: HostRuntime) -> Result<(), Fail> {
    for (protect, row, fault, cml) in &REFUSALS {
        is_refused(&rt, *protect, row, *fault, *cml)?;
    }
    for (protect, row, fault, cml) in &PAIRS {
        is_refused(&rt, *protect, row, *fault, *cml)?;
    }
    Ok(())
}

// Nothing is answered and nothing is latched.
fn is_not_heard(rt: &impl Abort, converter: &mut Converter, text: &str, ending: Ending) {
    let bytes = frame(rt, text);
    hears(rt, converter, bytes.as_slice(), ending, Wanted::Silent);
    equal(rt, &status_cml(converter), &0x00, &text);
}

// Frames to another device, and no bytes.
#[rattlefmt::skip]
static NOT_HEARD: [(&str, Ending); 7] = [
    ("", Ending::Stop), ("", Ending::Restart), ("B1 21 CD 34 00", Ending::Stop),
    ("B2 05 04 00 21 CD 34 5A", Ending::Stop), ("58 05 04 00 21 CD 34 5A", Ending::Stop),
    ("B2 20", Ending::Restart), ("B1 20", Ending::Restart),
];

#[test]
fn what_is_for_another_device_is_not_heard(rt: HostRuntime) -> Result<(), Fail> {
    let mut converter = base()?;
    for &(text, ending) in &NOT_HEARD {
        is_not_heard(&rt, &mut converter, text, ending);
    }
    Ok(())
}

// A converter with so many outputs, of which the third is DIRECT.
fn with_third(count: u8) -> Result<Converter, ConfigFault> {
    let direct = with! { OutputStart, OUTPUT; mode: 0x40 };
    let mut starts = [OUTPUT; 8];
    starts[2] = direct;
    made(with! { Config, BASE; count, starts })
}

// A side that isn't there, and codes that have no coefficients.
#[rattlefmt::skip]
static NO_COEFFICIENTS: [&str; 8] = [
    "B0 30 02 21 02 /", "B0 30 02 21 FF /", "B0 30 02 01 00 /", "B0 30 02 20 00 /",
    "B0 30 02 22 00 /", "B0 30 02 8C 01 /", "B0 30 02 88 01 /", "B0 30 02 30 00 /",
];

// A COEFFICIENTS request is refused for its code, for its side, and if no output that exists is DIRECT.
#[test]
fn coefficients_are_refused_for_code_side_and_mode(rt: HostRuntime) -> Result<(), Fail> {
    let mut without = with_third(2)?;
    hears_row(&rt, &mut without, "B0 30 02 21 00 /", Some(K3));
    hears_row(&rt, &mut without, "B0 30 02 8B 01 /", Some(K3));
    let mut with = with_third(3)?;
    for &row in &NO_COEFFICIENTS {
        hears_row(&rt, &mut with, row, Some(K3));
    }
    Ok(())
}

// Each write at each value of WRITE_PROTECT: 80h, 40h, 20h and 00h, whether it is taken.
static PROTECTION: [(&str, [bool; 4]); 25] = [
    ("B0 00 01 ED", [false, true, true, true]),
    ("B0 01 40 38", [false, true, true, true]),
    ("B0 05 03 01 01 40 27", [false, true, true, true]),
    ("B0 03 46", [true, true, true, true]),
    ("B0 05 02 01 03 45", [true, true, true, true]),
    ("B0 10 00 BD", [true, true, true, true]),
    ("B0 05 03 01 10 00 A2", [true, true, true, true]),
    ("B0 21 34 12 63", [false, false, true, true]),
    ("B0 05 04 01 21 34 12 17", [false, false, true, true]),
    ("B0 24 34 12 A3", [false, false, false, true]),
    ("B0 05 04 01 24 34 12 D7", [false, false, false, true]),
    ("B0 25 34 12 C8", [false, false, false, true]),
    ("B0 05 04 01 25 34 12 BC", [false, false, false, true]),
    ("B0 26 34 12 75", [false, false, false, true]),
    ("B0 05 04 01 26 34 12 01", [false, false, false, true]),
    ("B0 2B 34 12 E4", [false, false, false, true]),
    ("B0 05 04 01 2B 34 12 90", [false, false, false, true]),
    ("B0 7A 08 F2", [false, false, false, true]),
    ("B0 05 03 01 7A 08 ED", [false, false, false, true]),
    ("B0 7E 80 17", [false, false, false, true]),
    ("B0 05 03 01 7E 80 08", [false, false, false, true]),
    ("B0 15 24", [false, false, false, true]),
    ("B0 05 02 01 15 27", [false, false, false, true]),
    ("B0 16 2D", [false, false, false, true]),
    ("B0 05 02 01 16 2E", [false, false, false, true]),
];

fn is_allowed(rt: &impl Abort, protect: u16, row: &str, is_taken: bool) -> Result<(), ConfigFault> {
    let mut converter = with_protect(protect)?;
    let fault = if is_taken { None } else { Some(K5) };
    hears_row(rt, &mut converter, row, fault);
    Ok(())
}

#[test]
fn write_protect_lets_through_what_its_value_allows(rt: HostRuntime) -> Result<(), Fail> {
    for &(row, allowed) in &PROTECTION {
        let [first, second, third, last] = allowed;
        is_allowed(&rt, 0x80, row, first)?;
        is_allowed(&rt, 0x40, row, second)?;
        is_allowed(&rt, 0x20, row, third)?;
        is_allowed(&rt, 0x00, row, last)?;
    }
    Ok(())
}
