//! Voltages rounded down and up to words, at rows written by hand.

use super::{slope, unsigned};
use crate::checks::agrees;
use pm_num::{AnyFormat, BoundFormat, Linear11, NumFault, at_least, at_most};
use std::process::Abort;

// Microvolts, the word rounded down and the word rounded up, or the refusal of each.
type Row = (i64, Result<u16, NumFault>, Result<u16, NumFault>);

const BELOW: Result<u16, NumFault> = Err(NumFault::BelowLeast);

const ABOVE: Result<u16, NumFault> = Err(NumFault::AboveGreatest);

const FAR: Result<u16, NumFault> = Err(NumFault::TooLarge);

// 2^-12 V a word: 3.3 V lies between 13516 and 13517 words, the greatest at 15.999755859375 V.
#[rattlefmt::skip]
static UNSIGNED: [Row; 12] = [
    (3_300_000, Ok(0x34CC), Ok(0x34CD)), (3_000_000, Ok(0x3000), Ok(0x3000)),
    (0, Ok(0x0000), Ok(0x0000)), (1, Ok(0x0000), Ok(0x0001)), (-1, BELOW, Ok(0x0000)),
    (15_999_755, Ok(0xFFFE), Ok(0xFFFF)), (15_999_756, Ok(0xFFFF), ABOVE),
    (16_000_000, Ok(0xFFFF), ABOVE), (1_000_000_000_000_000, Ok(0xFFFF), ABOVE),
    (-1_000_000_000_000_000, BELOW, Ok(0x0000)), (1_000_000_000_000_001, FAR, FAR),
    (-1_000_000_000_000_001, FAR, FAR),
];

// A word a millivolt, from -32.768 to 32.767 V.
#[rattlefmt::skip]
static RISING: [Row; 9] = [
    (3_300_400, Ok(0x0CE4), Ok(0x0CE5)), (3_300_000, Ok(0x0CE4), Ok(0x0CE4)),
    (-1_500, Ok(0xFFFE), Ok(0xFFFF)), (-2_000, Ok(0xFFFE), Ok(0xFFFE)),
    (32_767_000, Ok(0x7FFF), Ok(0x7FFF)), (32_767_001, Ok(0x7FFF), ABOVE),
    (-32_768_000, Ok(0x8000), Ok(0x8000)), (-32_768_001, BELOW, Ok(0x8000)),
    (1_000_000_000_000_001, FAR, FAR),
];

// 5 V less a millivolt a word, from -27.767 to 37.768 V: the greater word is the lower value.
#[rattlefmt::skip]
static FALLING: [Row; 9] = [
    (4_000_500, Ok(0x03E8), Ok(0x03E7)), (4_000_000, Ok(0x03E8), Ok(0x03E8)),
    (5_000_001, Ok(0x0000), Ok(0xFFFF)), (37_767_999, Ok(0x8001), Ok(0x8000)),
    (37_768_000, Ok(0x8000), Ok(0x8000)), (37_768_001, Ok(0x8000), ABOVE),
    (-27_767_000, Ok(0x7FFF), Ok(0x7FFF)), (-27_767_001, BELOW, Ok(0x7FFF)),
    (-1_000_000_000_000_001, FAR, FAR),
];

// 3.3 V lies between 211 * 2^-6 and 845 * 2^-8. 1023.5 lies between 1023 and 512 * 2, and -1024.5 between -513 * 2 and
// -1024. One microvolt lies below the least step, 2^-16.
#[rattlefmt::skip]
static LINEAR11: [Row; 14] = [
    (0, Ok(0x0000), Ok(0x0000)), (12_000_000, Ok(0x000C), Ok(0x000C)),
    (3_300_000, Ok(0xD0D3), Ok(0xC34D)), (-3_300_000, Ok(0xC4B3), Ok(0xD72D)),
    (1, Ok(0x0000), Ok(0x8001)), (-1, Ok(0x87FF), Ok(0x0000)),
    (1_023_500_000, Ok(0x03FF), Ok(0x0A00)), (1_024_000_000, Ok(0x0A00), Ok(0x0A00)),
    (-1_024_500_000, Ok(0x0DFF), Ok(0x0400)), (33_521_663_999_999, Ok(0x7BFE), Ok(0x7BFF)),
    (33_521_664_000_001, Ok(0x7BFF), ABOVE), (-33_554_432_000_000, Ok(0x7C00), Ok(0x7C00)),
    (-33_554_432_000_001, BELOW, Ok(0x7C00)), (1_000_000_000_000_001, FAR, FAR),
];

// The format rounds the voltage of each row so.
fn rounds<F: BoundFormat>(rt: &impl Abort, format: &F, rows: &[Row]) {
    for (row, (microvolts, down, up)) in rows.iter().enumerate() {
        agrees(rt, row, &at_most(format, *microvolts), down);
        agrees(rt, row, &at_least(format, *microvolts), up);
    }
}

#[test]
fn voltages_are_rounded_down_and_up(rt: HostRuntime) {
    rounds(&rt, &unsigned(&rt, -12), &UNSIGNED);
    rounds(&rt, &slope(&rt, 1, 0, 3), &RISING);
    rounds(&rt, &slope(&rt, -1, 5, 3), &FALLING);
    rounds(&rt, &Linear11, &LINEAR11);
    // A format of run time rounds as its own.
    rounds(&rt, &AnyFormat::Ulinear16(unsigned(&rt, -12)), &UNSIGNED);
    rounds(&rt, &AnyFormat::Direct(slope(&rt, 1, 0, 3)), &RISING);
    rounds(&rt, &AnyFormat::Direct(slope(&rt, -1, 5, 3)), &FALLING);
    rounds(&rt, &AnyFormat::Linear11, &LINEAR11);
}
