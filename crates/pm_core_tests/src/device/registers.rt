//! What each code reads as, over the bus.

use super::{commanded, hears_row, hears_rows};
use crate::checks::{equal, is_true};
use crate::device_frames::{base, made, restart, set_reading};
use crate::fixtures::{BASE, OUTPUT};
use pm_device::{Config, ConfigFault, Converter, DeviceFault, OutputStart};
use pm_frame::FrameFault;
use pm_table::Coefficients;
use std::process::Abort;
use std::test::Fail;

// Two outputs of which every register has another word: the first at a margin above its VOUT_MAX, the
// second off, and DIRECT.
const MARGIN: OutputStart = OutputStart {
    mode: 0x14,
    operation: 0xA8,
    command: 0x1234,
    max: 0x2345,
    high: 0x3456,
    low: 0x4567,
    min: 0x0101,
};

const DIRECT: OutputStart = OutputStart {
    mode: 0x40,
    operation: 0x40,
    command: 0x5678,
    max: 0x6789,
    high: 0x789A,
    low: 0x09AB,
    min: 0x8000,
};

const TOLD_APART: Config = Config {
    addr: 0x58,
    count: 2,
    starts: [
        MARGIN, DIRECT, OUTPUT, OUTPUT, OUTPUT, OUTPUT, OUTPUT, OUTPUT,
    ],
    protect: 0x20,
    coefficients: Coefficients {
        m: 0x0201,
        b: 0x0403,
        r: 5,
    },
};

// The readings: READ_VIN and READ_TEMPERATURE_1 of the device, READ_VOUT and READ_IOUT of both outputs.
#[rattlefmt::skip]
static READINGS: [(u8, u8, u16); 6] = [
    (0, 0x88, 0x1A2B), (0, 0x8B, 0x2B3C), (1, 0x8B, 0x3C4D), (0, 0x8C, 0x4D5E), (1, 0x8C, 0x5E6F),
    (0, 0x8D, 0x6F71),
];

// Each code that is read and carried, of both outputs.
#[rattlefmt::skip]
static CARRIED: [&str; 36] = [
    "B0 06 02 00 01 / B1 01 A8 AB", "B0 06 02 01 01 / B1 01 40 5F", "B0 06 02 00 10 / B1 01 20 6B",
    "B0 06 02 01 10 / B1 01 20 09", "B0 06 02 00 19 / B1 01 80 A4", "B0 06 02 01 19 / B1 01 80 C6",
    "B0 06 02 00 20 / B1 01 14 4E", "B0 06 02 01 20 / B1 01 40 87",
    "B0 06 02 00 21 / B1 02 34 12 E2", "B0 06 02 01 21 / B1 02 78 56 B7",
    "B0 06 02 00 24 / B1 02 45 23 2F", "B0 06 02 01 24 / B1 02 89 67 CC",
    "B0 06 02 00 25 / B1 02 56 34 40", "B0 06 02 01 25 / B1 02 9A 78 9B",
    "B0 06 02 00 26 / B1 02 67 45 5A", "B0 06 02 01 26 / B1 02 AB 09 81",
    "B0 06 02 00 2B / B1 02 01 01 FE", "B0 06 02 01 2B / B1 02 00 80 4C",
    "B0 06 02 00 78 / B1 01 03 67", "B0 06 02 01 78 / B1 01 42 C5",
    "B0 06 02 00 79 / B1 02 03 80 64", "B0 06 02 01 79 / B1 02 42 08 B2",
    "B0 06 02 00 7A / B1 01 08 7A", "B0 06 02 01 7A / B1 01 00 20", "B0 06 02 00 7E / B1 01 A0 73",
    "B0 06 02 01 7E / B1 01 A0 11", "B0 06 02 00 88 / B1 02 2B 1A C6",
    "B0 06 02 01 88 / B1 02 2B 1A EF", "B0 06 02 00 8B / B1 02 3C 2B CB",
    "B0 06 02 01 8B / B1 02 4D 3C 30", "B0 06 02 00 8C / B1 02 5E 4D 08",
    "B0 06 02 01 8C / B1 02 6F 5E B4", "B0 06 02 00 8D / B1 02 71 6F E9",
    "B0 06 02 01 8D / B1 02 71 6F C0", "B0 06 02 00 98 / B1 01 33 93",
    "B0 06 02 01 98 / B1 01 33 F1",
];

// Each code by itself, while PAGE is 0 and while it is 1.
#[rattlefmt::skip]
static PLAIN_0: [&str; 19] = [
    "B0 00 / B1 00 C2", "B0 01 / B1 A8 F8", "B0 10 / B1 20 80", "B0 19 / B1 80 D3",
    "B0 20 / B1 14 ED", "B0 21 / B1 34 12 4B", "B0 24 / B1 45 23 25", "B0 25 / B1 56 34 3E",
    "B0 26 / B1 67 45 B8", "B0 2B / B1 01 01 16", "B0 78 / B1 03 FD", "B0 79 / B1 03 80 62",
    "B0 7A / B1 08 1A", "B0 7E / B1 A0 E0", "B0 88 / B1 2B 1A BE", "B0 8B / B1 3C 2B 2F",
    "B0 8C / B1 5E 4D A7", "B0 8D / B1 71 6F 32", "B0 98 / B1 33 A3",
];

#[rattlefmt::skip]
static PLAIN_1: [&str; 19] = [
    "B0 00 / B1 01 C5", "B0 01 / B1 40 6E", "B0 10 / B1 20 80", "B0 19 / B1 80 D3",
    "B0 20 / B1 40 46", "B0 21 / B1 78 56 37", "B0 24 / B1 89 67 EF", "B0 25 / B1 9A 78 CC",
    "B0 26 / B1 AB 09 4A", "B0 2B / B1 00 80 8D", "B0 78 / B1 42 3D", "B0 79 / B1 42 08 9D",
    "B0 7A / B1 00 22", "B0 7E / B1 A0 E0", "B0 88 / B1 2B 1A BE", "B0 8B / B1 4D 3C FD",
    "B0 8C / B1 6F 5E 32", "B0 8D / B1 71 6F 32", "B0 98 / B1 33 A3",
];

// The coefficients of each code of a voltage, for both sides.
#[rattlefmt::skip]
static COEFFICIENTS: [&str; 12] = [
    "B0 30 02 21 00 / B1 05 01 02 03 04 05 BC", "B0 30 02 21 01 / B1 05 01 02 03 04 05 AF",
    "B0 30 02 24 00 / B1 05 01 02 03 04 05 26", "B0 30 02 24 01 / B1 05 01 02 03 04 05 35",
    "B0 30 02 25 00 / B1 05 01 02 03 04 05 5F", "B0 30 02 25 01 / B1 05 01 02 03 04 05 4C",
    "B0 30 02 26 00 / B1 05 01 02 03 04 05 D4", "B0 30 02 26 01 / B1 05 01 02 03 04 05 C7",
    "B0 30 02 2B 00 / B1 05 01 02 03 04 05 8F", "B0 30 02 2B 01 / B1 05 01 02 03 04 05 9C",
    "B0 30 02 8B 00 / B1 05 01 02 03 04 05 B6", "B0 30 02 8B 01 / B1 05 01 02 03 04 05 A5",
];

// Sets readings, each of an output and a code.
fn reads(rt: &impl Abort, converter: &mut Converter, readings: &[(u8, u8, u16)]) {
    for (output, code, word) in readings {
        let is_set = set_reading(converter, *output, *code, *word);
        is_true(rt, is_set, &code);
    }
}

fn at_start() -> Result<Converter, ConfigFault> {
    made(TOLD_APART)
}

// A converter with each reading set, which refused an unknown code and a wrong PEC.
fn told_apart(rt: &impl Abort) -> Result<Converter, ConfigFault> {
    let mut converter = at_start()?;
    reads(rt, &mut converter, &READINGS);
    let wrong_pec = DeviceFault::Frame(FrameFault::WrongPec(3));
    hears_row(
        rt,
        &mut converter,
        "B0 99 /",
        Some(DeviceFault::UnsupportedCode),
    );
    hears_row(rt, &mut converter, "B0 10 40 00", Some(wrong_pec));
    Ok(converter)
}

#[test]
fn each_code_reads_its_own_register(rt: HostRuntime) -> Result<(), Fail> {
    let mut converter = told_apart(&rt)?;
    hears_rows(&rt, &mut converter, &CARRIED);
    hears_rows(&rt, &mut converter, &PLAIN_0);
    hears_rows(&rt, &mut converter, &["B0 00 01 ED"]);
    hears_rows(&rt, &mut converter, &PLAIN_1);
    hears_rows(&rt, &mut converter, &COEFFICIENTS);
    Ok(())
}

// VOUT_COMMAND and the status are as at the start after a restart, and each reading is what it was.
#[test]
fn readings_are_kept_by_a_restart(rt: HostRuntime) -> Result<(), Fail> {
    let mut converter = told_apart(&rt)?;
    hears_rows(&rt, &mut converter, &["B0 21 CD 34 38", "B0 00 01 ED"]);
    restart(&mut converter);
    #[rattlefmt::skip]
    let kept = [
        "B0 00 / B1 00 C2", "B0 21 / B1 34 12 4B", "B0 7E / B1 00 89", "B0 7A / B1 08 1A",
        "B0 88 / B1 2B 1A BE", "B0 8D / B1 71 6F 32", "B0 06 02 00 8B / B1 02 3C 2B CB",
        "B0 06 02 01 8B / B1 02 4D 3C 30", "B0 06 02 00 8C / B1 02 5E 4D 08",
        "B0 06 02 01 8C / B1 02 6F 5E B4",
    ];
    hears_rows(&rt, &mut converter, &kept);
    Ok(())
}

// Writes of VOUT_MIN over the base configuration, each by itself: what output 0 commands then in 2^-12 volts,
// and its STATUS_VOUT and STATUS_WORD.
#[rattlefmt::skip]
static LIMITS: [(&str, i128, &str, &str); 3] = [
    ("B0 05 04 00 2B 00 20 B5", 8192, "B0 7A / B1 08 1A", "B0 79 / B1 01 80 48"),
    ("B0 05 04 00 2B 00 50 E2", 16384, "B0 7A / B1 08 1A", "B0 79 / B1 01 80 48"),
    ("B0 05 04 00 2B 00 10 25", 4096, "B0 7A / B1 00 22", "B0 79 / B1 00 00 D4"),
];

fn is_limited(
    rt: &impl Abort,
    write: &str,
    wanted: i128,
    vout: &str,
    word: &str,
) -> Result<(), ConfigFault> {
    let mut converter = base()?;
    hears_rows(rt, &mut converter, &[write, vout, word]);
    equal(rt, &commanded(&converter, 0), &(wanted, 4096), &write);
    Ok(())
}

#[test]
fn an_output_commands_no_less_than_its_vout_min(rt: HostRuntime) -> Result<(), Fail> {
    for &(write, wanted, vout, word) in &LIMITS {
        is_limited(&rt, write, wanted, vout, word)?;
    }
    Ok(())
}

// STATUS of an output whose VOUT_COMMAND is above its VOUT_MAX; then the coefficients of an output in
// millivolts; then readings.
#[rattlefmt::skip]
static ABOVE: [&str; 6] = [
    "B0 05 04 00 21 00 50 65", "B0 06 02 00 78 / B1 01 01 69", "B0 06 02 00 79 / B1 02 01 80 4E",
    "B0 06 02 00 7A / B1 01 08 7A", "B0 79 / B1 01 80 48", "B0 7A / B1 08 1A",
];

#[rattlefmt::skip]
static MILLIVOLTS: [&str; 12] = [
    "B0 30 02 21 00 / B1 05 01 00 00 00 03 6B", "B0 30 02 21 01 / B1 05 01 00 00 00 03 78",
    "B0 30 02 24 00 / B1 05 01 00 00 00 03 F1", "B0 30 02 24 01 / B1 05 01 00 00 00 03 E2",
    "B0 30 02 25 00 / B1 05 01 00 00 00 03 88", "B0 30 02 25 01 / B1 05 01 00 00 00 03 9B",
    "B0 30 02 26 00 / B1 05 01 00 00 00 03 03", "B0 30 02 26 01 / B1 05 01 00 00 00 03 10",
    "B0 30 02 2B 00 / B1 05 01 00 00 00 03 58", "B0 30 02 2B 01 / B1 05 01 00 00 00 03 4B",
    "B0 30 02 8B 00 / B1 05 01 00 00 00 03 61", "B0 30 02 8B 01 / B1 05 01 00 00 00 03 72",
];

// Before any reading was set.
#[rattlefmt::skip]
static UNMEASURED: [&str; 6] = [
    "B0 88 / B1 00 00 C1", "B0 8B / B1 00 00 FB", "B0 8C / B1 00 00 99", "B0 8D / B1 00 00 8F",
    "B0 06 02 01 8B / B1 02 00 00 36", "B0 06 02 01 8C / B1 02 00 00 1F",
];

static MEASURED: [&str; 4] = [
    "B0 88 / B1 34 12 12",
    "B0 8D / B1 78 56 20",
    "B0 06 02 01 8C / B1 02 34 12 CC",
    "B0 06 02 01 8D / B1 02 78 56 D2",
];

// A converter of one output, which is DIRECT, in millivolts.
fn in_millivolts() -> Result<Converter, ConfigFault> {
    let start = with! { OutputStart, OUTPUT; mode: 0x40 };
    made(with! { Config, BASE;
        count: 1, starts: [start; 8], coefficients: Coefficients { m: 1, b: 0, r: 3 } })
}

#[test]
fn outputs_above_vout_max_and_in_millivolts_read_so(rt: HostRuntime) -> Result<(), Fail> {
    let mut above = base()?;
    hears_rows(&rt, &mut above, &ABOVE);
    let mut direct = in_millivolts()?;
    hears_rows(&rt, &mut direct, &MILLIVOLTS);
    Ok(())
}

#[test]
fn readings_are_zero_until_they_are_set(rt: HostRuntime) -> Result<(), Fail> {
    let mut measured = base()?;
    hears_rows(&rt, &mut measured, &UNMEASURED);
    let readings = [(0, 0x88, 0x1234), (0, 0x8D, 0x5678), (1, 0x8C, 0x1234)];
    reads(&rt, &mut measured, &readings);
    hears_rows(&rt, &mut measured, &MEASURED);
    restart(&mut measured);
    hears_rows(&rt, &mut measured, &MEASURED);
    Ok(())
}
