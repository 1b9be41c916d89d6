//! Latched status, bit by bit, and the bits by name.

use super::{hears_row, hears_rows, status};
use crate::checks::equal;
use crate::device_frames::{base, restart, status_cml};
use bitflags::Flags;
use pm_device::{Converter, DeviceFault, StatusByte, StatusCml, StatusVout, StatusWord};
use pm_frame::FrameFault;
use std::process::Abort;
use std::test::Fail;

const WRONG_PEC: DeviceFault = DeviceFault::Frame(FrameFault::WrongPec(7));

// What latches each bit of STATUS_CML that can be.
static LATCHES: [(u8, &str, DeviceFault); 4] = [
    (0x80, "B0 03 /", DeviceFault::ReadOnly),
    (0x40, "B0 00 02 E4", DeviceFault::BadPage),
    (0x20, "B0 05 04 01 21 CD 34 5A", WRONG_PEC),
    (0x02, "B0", DeviceFault::Frame(FrameFault::Short(1))),
];

// A byte with one bit, with none and with all, written to STATUS_CML plainly and carried.
static CML_WRITES: [(u8, [&str; 2]); 10] = [
    (0x80, ["B0 7E 80 17", "B0 05 03 01 7E 80 08"]),
    (0x40, ["B0 7E 40 59", "B0 05 03 01 7E 40 46"]),
    (0x20, ["B0 7E 20 7E", "B0 05 03 01 7E 20 61"]),
    (0x10, ["B0 7E 10 EE", "B0 05 03 01 7E 10 F1"]),
    (0x08, ["B0 7E 08 A6", "B0 05 03 01 7E 08 B9"]),
    (0x04, ["B0 7E 04 82", "B0 05 03 01 7E 04 9D"]),
    (0x02, ["B0 7E 02 90", "B0 05 03 01 7E 02 8F"]),
    (0x01, ["B0 7E 01 99", "B0 05 03 01 7E 01 86"]),
    (0x00, ["B0 7E 00 9E", "B0 05 03 01 7E 00 81"]),
    (0xFF, ["B0 7E FF 6D", "B0 05 03 01 7E FF 72"]),
];

// A bit that is the only one latched goes with a byte that is written if that has the bit, and with no other.
fn goes_with(
    rt: &impl Abort,
    latch: (u8, &str, DeviceFault),
    byte: u8,
    write: &str,
) -> Result<(), Fail> {
    let (bit, row, fault) = latch;
    let mut converter = base()?;
    hears_row(rt, &mut converter, row, Some(fault));
    hears_rows(rt, &mut converter, &[write]);
    let left = bit & !byte;
    equal(rt, &status_cml(&converter), &left, &(bit, byte));
    Ok(())
}

// A converter in which all four are latched.
fn latched(rt: &impl Abort) -> Result<Converter, Fail> {
    let mut all = base()?;
    for &(_, row, fault) in &LATCHES {
        hears_row(rt, &mut all, row, Some(fault));
    }
    equal(rt, &status_cml(&all), &0xE2, &1);
    Ok(all)
}

// Each bit latched by itself, and all four, against a byte: what is written as 1 goes, and nothing else.
fn clears(rt: &impl Abort, byte: u8, write: &str) -> Result<(), Fail> {
    for &latch in &LATCHES {
        goes_with(rt, latch, byte, write)?;
    }
    let mut all = latched(rt)?;
    hears_rows(rt, &mut all, &[write]);
    equal(rt, &status_cml(&all), &(0xE2 & !byte), &byte);
    Ok(())
}

#[test]
fn a_bit_of_status_cml_goes_with_its_own(rt: HostRuntime) -> Result<(), Fail> {
    for &(byte, [plain, carried]) in &CML_WRITES {
        clears(&rt, byte, plain)?;
        clears(&rt, byte, carried)?;
    }
    Ok(())
}

// VOUT_COMMAND of both outputs was above VOUT_MAX.
static WERE_ABOVE: [&str; 4] = [
    "B0 05 04 00 21 00 50 65",
    "B0 05 04 00 21 00 10 A2",
    "B0 05 04 01 21 00 50 73",
    "B0 05 04 01 21 00 10 B4",
];

const WARNED: (u16, u8) = (0x8001, 0x08);

const CLEAN: (u16, u8) = (0x0000, 0x00);

// A byte written to STATUS_VOUT of output 0, plainly and carried, and whether its warning goes.
#[rattlefmt::skip]
static VOUT_WRITES: [(&str, &str, bool); 11] = [
    ("B0 7A 80 43", "B0 05 03 00 7A 80 37", false), ("B0 7A 40 0D", "B0 05 03 00 7A 40 79", false),
    ("B0 7A 20 2A", "B0 05 03 00 7A 20 5E", false), ("B0 7A 10 BA", "B0 05 03 00 7A 10 CE", false),
    ("B0 7A 08 F2", "B0 05 03 00 7A 08 86", true), ("B0 7A 04 D6", "B0 05 03 00 7A 04 A2", false),
    ("B0 7A 02 C4", "B0 05 03 00 7A 02 B0", false), ("B0 7A 01 CD", "B0 05 03 00 7A 01 B9", false),
    ("B0 7A 00 CA", "B0 05 03 00 7A 00 BE", false), ("B0 7A FF 39", "B0 05 03 00 7A FF 4D", true),
    ("B0 7A F7 01", "B0 05 03 00 7A F7 75", false),
];

// What both outputs show after rows, in a converter of its own in which both are warned.
fn shown(rt: &impl Abort, rows: &[&str]) -> Result<[(u16, u8); 2], Fail> {
    let mut converter = base()?;
    hears_rows(rt, &mut converter, &WERE_ABOVE);
    hears_rows(rt, &mut converter, rows);
    Ok([status(rt, &converter, 0), status(rt, &converter, 1)])
}

#[test]
fn bit_3_written_clears_the_warning_of_one_output(rt: HostRuntime) -> Result<(), Fail> {
    for &(plain, carried, goes) in &VOUT_WRITES {
        let first = if goes { CLEAN } else { WARNED };
        for row in [plain, carried] {
            equal(&rt, &shown(&rt, &[row])?, &[first, WARNED], &row);
        }
    }
    // While PAGE is 1, a plain write of bit 3, a plain CLEAR_FAULTS, and one that is carried.
    let page_1 = "B0 00 01 ED";
    compare! { &rt;
        1, shown(&rt, &[page_1, "B0 7A 08 F2"])? => [WARNED, CLEAN];
        2, shown(&rt, &[page_1, "B0 03 46"])? => [WARNED, CLEAN];
        3, shown(&rt, &[page_1, "B0 05 02 00 03 50"])? => [CLEAN, WARNED];
    }
    Ok(())
}

// Writes of output 0 after which it is within its limits again, and whether it was outside them: by
// VOUT_MAX, by VOUT_MIN, by OPERATION, by a margin that is selected, and not by one that isn't.
#[rattlefmt::skip]
static WARNINGS: [(&[&str], bool); 7] = [
    (&["B0 05 04 00 2B 00 20 B5", "B0 05 04 00 2B 00 00 55"], true),
    (&["B0 05 04 00 24 00 08 2A", "B0 05 04 00 24 00 40 D5"], true),
    (&["B0 05 04 00 25 00 50 CE", "B0 05 03 00 01 A8 DA", "B0 05 03 00 01 80 02"], true),
    (&["B0 05 03 00 01 A8 DA", "B0 05 04 00 25 00 50 CE", "B0 05 04 00 25 00 11 0E"], true),
    (&["B0 05 03 00 01 94 6E", "B0 05 04 00 26 00 50 73", "B0 05 04 00 26 00 0F E9"], true),
    (&["B0 05 04 00 25 00 50 CE", "B0 05 04 00 25 00 11 0E"], false),
    (&["B0 05 04 00 26 00 50 73", "B0 05 04 00 26 00 0F E9"], false),
];

// The first output warns after these rows, or doesn't, until it is cleared; the second never does.
fn warns_after(rt: &impl Abort, rows: &[&str], warns: bool) -> Result<(), Fail> {
    let mut converter = base()?;
    hears_rows(rt, &mut converter, rows);
    let first = if warns { WARNED } else { CLEAN };
    equal(rt, &status(rt, &converter, 0), &first, &rows);
    equal(rt, &status(rt, &converter, 1), &CLEAN, &rows);
    hears_rows(rt, &mut converter, &["B0 05 02 00 03 50"]);
    equal(rt, &status(rt, &converter, 0), &CLEAN, &rows);
    Ok(())
}

#[test]
fn what_was_outside_its_limits_warns_until_it_is_cleared(rt: HostRuntime) -> Result<(), Fail> {
    for &(rows, warns) in &WARNINGS {
        warns_after(&rt, rows, warns)?;
    }
    Ok(())
}

// CLEAR_FAULTS, plain or carried, clears STATUS_CML too, a restart all that is latched. A cause that
// holds still shows.
fn leaves_what_holds(rt: &impl Abort, clear: &str) -> Result<(), Fail> {
    let mut converter = latched(rt)?;
    hears_rows(rt, &mut converter, &WERE_ABOVE);
    equal(rt, &status(rt, &converter, 0), &(0x8003, 0x08), &1);
    hears_rows(rt, &mut converter, &[clear]);
    equal(rt, &status_cml(&converter), &0x00, &2);
    let after = [status(rt, &converter, 0), status(rt, &converter, 1)];
    equal(rt, &after, &[CLEAN, WARNED], &3);
    hears_row(rt, &mut converter, "B0 03 /", Some(DeviceFault::ReadOnly));
    restart(&mut converter);
    equal(rt, &status_cml(&converter), &0x00, &4);
    equal(rt, &status(rt, &converter, 1), &CLEAN, &5);
    let holds = ["B0 05 04 00 21 00 50 65", clear, "B0 7A 08 F2"];
    hears_rows(rt, &mut converter, &holds);
    equal(rt, &status(rt, &converter, 0), &WARNED, &6);
    Ok(())
}

#[test]
fn clears_and_restarts_leave_what_holds(rt: HostRuntime) -> Result<(), Fail> {
    leaves_what_holds(&rt, "B0 03 46")?;
    leaves_what_holds(&rt, "B0 05 02 00 03 50")
}

// The names that are exported, by the standard's numbers.
#[rattlefmt::skip]
static BYTE_BITS: [(StatusByte, u8); 8] = [
    (StatusByte::BUSY, 0x80), (StatusByte::OFF, 0x40), (StatusByte::VOUT_OV_FAULT, 0x20),
    (StatusByte::IOUT_OC_FAULT, 0x10), (StatusByte::VIN_UV_FAULT, 0x08),
    (StatusByte::TEMPERATURE, 0x04), (StatusByte::CML, 0x02), (StatusByte::NONE_OF_THE_ABOVE, 0x01),
];

#[rattlefmt::skip]
static VOUT_BITS: [(StatusVout, u8); 8] = [
    (StatusVout::OV_FAULT, 0x80), (StatusVout::OV_WARNING, 0x40), (StatusVout::UV_WARNING, 0x20),
    (StatusVout::UV_FAULT, 0x10), (StatusVout::MAX_WARNING, 0x08),
    (StatusVout::TON_MAX_FAULT, 0x04), (StatusVout::TOFF_MAX_WARNING, 0x02),
    (StatusVout::TRACKING_ERROR, 0x01),
];

#[rattlefmt::skip]
static CML_BITS: [(StatusCml, u8); 7] = [
    (StatusCml::COMMAND, 0x80), (StatusCml::DATA, 0x40), (StatusCml::PEC, 0x20),
    (StatusCml::MEMORY, 0x10), (StatusCml::PROCESSOR, 0x08), (StatusCml::OTHER_COMMUNICATION, 0x02),
    (StatusCml::OTHER, 0x01),
];

#[rattlefmt::skip]
static WORD_BITS: [(StatusWord, u16); 16] = [
    (StatusWord::VOUT, 0x8000), (StatusWord::IOUT_POUT, 0x4000), (StatusWord::INPUT, 0x2000),
    (StatusWord::MFR_SPECIFIC, 0x1000), (StatusWord::POWER_NOT_GOOD, 0x0800),
    (StatusWord::FANS, 0x0400), (StatusWord::OTHER, 0x0200), (StatusWord::UNKNOWN, 0x0100),
    (StatusWord::BUSY, 0x0080), (StatusWord::OFF, 0x0040), (StatusWord::VOUT_OV_FAULT, 0x0020),
    (StatusWord::IOUT_OC_FAULT, 0x0010), (StatusWord::VIN_UV_FAULT, 0x0008),
    (StatusWord::TEMPERATURE, 0x0004), (StatusWord::CML, 0x0002),
    (StatusWord::NONE_OF_THE_ABOVE, 0x0001),
];

#[test]
fn the_bits_have_the_numbers_of_the_standard(rt: HostRuntime) {
    for (bit, number) in &BYTE_BITS {
        equal(&rt, &bit.bits(), number, &1);
    }
    for (bit, number) in &VOUT_BITS {
        equal(&rt, &bit.bits(), number, &2);
    }
    for (bit, number) in &CML_BITS {
        equal(&rt, &bit.bits(), number, &3);
    }
    for (bit, number) in &WORD_BITS {
        equal(&rt, &bit.bits(), number, &4);
    }
}
