//! Each of eight outputs by itself, and the readings that each has.

use super::{hears_rows, with_count};
use crate::checks::is_true;
use crate::device_frames::set_reading;
use pm_device::Converter;
use std::process::Abort;
use std::test::Fail;

// Eight outputs: VOUT_COMMAND of each is written and read, READ_VOUT and READ_IOUT of each are read.
// Then PAGE names the last one.
#[rattlefmt::skip]
static EIGHT: [&str; 36] = [
    "B0 05 04 00 21 10 20 65", "B0 05 04 01 21 11 20 66", "B0 05 04 02 21 12 20 63",
    "B0 05 04 03 21 13 20 60", "B0 05 04 04 21 14 20 69", "B0 05 04 05 21 15 20 6A",
    "B0 05 04 06 21 16 20 6F", "B0 05 04 07 21 17 20 6C", "B0 06 02 00 21 / B1 02 10 20 86",
    "B0 06 02 01 21 / B1 02 11 20 BA", "B0 06 02 02 21 / B1 02 12 20 FE",
    "B0 06 02 03 21 / B1 02 13 20 C2", "B0 06 02 04 21 / B1 02 14 20 76",
    "B0 06 02 05 21 / B1 02 15 20 4A", "B0 06 02 06 21 / B1 02 16 20 0E",
    "B0 06 02 07 21 / B1 02 17 20 32", "B0 06 02 00 8B / B1 02 00 30 8F",
    "B0 06 02 01 8B / B1 02 01 30 B3", "B0 06 02 02 8B / B1 02 02 30 F7",
    "B0 06 02 03 8B / B1 02 03 30 CB", "B0 06 02 04 8B / B1 02 04 30 7F",
    "B0 06 02 05 8B / B1 02 05 30 43", "B0 06 02 06 8B / B1 02 06 30 07",
    "B0 06 02 07 8B / B1 02 07 30 3B", "B0 06 02 00 8C / B1 02 00 40 F1",
    "B0 06 02 01 8C / B1 02 01 40 CD", "B0 06 02 02 8C / B1 02 02 40 89",
    "B0 06 02 03 8C / B1 02 03 40 B5", "B0 06 02 04 8C / B1 02 04 40 01",
    "B0 06 02 05 8C / B1 02 05 40 3D", "B0 06 02 06 8C / B1 02 06 40 79",
    "B0 06 02 07 8C / B1 02 07 40 45", "B0 00 07 FF", "B0 21 FF 0F 4A",
    "B0 06 02 07 21 / B1 02 FF 0F 14", "B0 06 02 06 21 / B1 02 16 20 0E",
];

#[test]
fn each_of_eight_outputs_has_registers_of_its_own(rt: HostRuntime) -> Result<(), Fail> {
    let mut converter = with_count(8)?;
    for output in 0..8u8 {
        for (code, first) in [(0x8B, 0x3000u16), (0x8C, 0x4000)] {
            let reading = first + u16::from(output);
            is_true(&rt, set_reading(&mut converter, output, code, reading), &1);
        }
    }
    hears_rows(&rt, &mut converter, &EIGHT);
    Ok(())
}

// A reading of this output is set of each code of the first list, and of none of the second.
fn takes_readings(
    rt: &impl Abort,
    converter: &mut Converter,
    output: u8,
    set: &[u8],
    not_set: &[u8],
) {
    for code in set {
        let is_set = set_reading(converter, output, *code, 0x1234);
        is_true(rt, is_set, &(output, code));
    }
    for code in not_set {
        let is_set = set_reading(converter, output, *code, 0x1234);
        is_true(rt, !is_set, &(output, code));
    }
}

// A reading of the device is set whatever output is named, one of an output if that is there.
#[test]
fn a_reading_is_of_an_output_that_is_there_or_of_the_device(rt: HostRuntime) -> Result<(), Fail> {
    for count in 1..=8 {
        let mut converter = with_count(count)?;
        takes_readings(&rt, &mut converter, count, &[0x88], &[0x8B, 0x8C]);
        takes_readings(&rt, &mut converter, 255, &[0x8D], &[0x8B, 0x8C]);
        takes_readings(&rt, &mut converter, count - 1, &[0x8B, 0x8C], &[]);
        takes_readings(&rt, &mut converter, 0, &[], &[0x21, 0x7A, 0x8E]);
    }
    Ok(())
}
