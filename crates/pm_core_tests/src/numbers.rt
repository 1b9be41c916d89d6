//! The formats of numbers at known words and numbers.

mod bounds;
mod search;

use crate::checks::agrees;
use pm_num::{AnyFormat, Direct, Frac, Linear11, NumFault, NumFormat, Ulinear16, canonical, micro};
use std::cmp::Ordering;
use std::process::Abort;

// Millionths that are within bounds.
fn volts(rt: &impl Abort, millionths: i64) -> Frac {
    micro(millionths).expect(rt, "micro")
}

/// The fraction of these two numbers.
pub(crate) fn frac(rt: &impl Abort, num: i128, den: i128) -> Frac {
    Frac::new(num, den).expect(rt, "fraction in bounds")
}

/// ULINEAR16 with this exponent.
pub(crate) fn unsigned(rt: &impl Abort, n: i8) -> Ulinear16 {
    Ulinear16::new(n).expect(rt, "exponent")
}

/// DIRECT with these coefficients.
pub(crate) fn slope(rt: &impl Abort, m: i16, b: i16, r: i8) -> Direct {
    Direct::new(m, b, r).expect(rt, "coefficients")
}

/// The word for a number, or its refusal.
pub(crate) fn encoded<F: NumFormat>(format: &F, x: Frac) -> Result<u16, NumFault> {
    format.nearest(x)
}

// The numerator and the denominator of a word's value.
fn parts<F: NumFormat>(format: &F, word: u16) -> (i128, i128) {
    let value = format.value_of(word);
    (value.num(), value.den())
}

#[rattlefmt::skip]
static LINEAR11_WORDS: [(u16, (i128, i128)); 7] = [
    (0xD300, (768, 64)), (0x07D8, (-40, 1)), (0x87FF, (-1, 65536)), (0x7BFF, (33_521_664, 1)),
    (0x7C00, (-33_554_432, 1)), (0x0BFF, (2046, 1)), (0x0C00, (-2048, 1)),
];

static ULINEAR16_WORDS: [(i8, u16, (i128, i128)); 2] = [
    (-12, 0x34CD, (13517, 4096)),
    (3, 0x0005, (40, 1)),
];

static DIRECT_WORDS: [((i16, i16, i8), u16, (i128, i128)); 4] = [
    ((1, 0, 3), 0x0CE4, (3300, 1000)),
    ((-1, 5, -1), 0x0003, (-25, 1)),
    ((-1, 5, 3), 0x03E8, (4000, 1000)),
    ((-1, 5, 3), 0x0BB8, (2000, 1000)),
];

#[test]
fn words_stand_for_the_defined_pairs(rt: HostRuntime) {
    for (row, (word, want)) in LINEAR11_WORDS.iter().enumerate() {
        agrees(&rt, row, &parts(&Linear11, *word), want);
    }
    for (row, (n, word, want)) in ULINEAR16_WORDS.iter().enumerate() {
        agrees(&rt, row, &parts(&unsigned(&rt, *n), *word), want);
    }
    for (row, ((m, b, r), word, want)) in DIRECT_WORDS.iter().enumerate() {
        agrees(&rt, row, &parts(&slope(&rt, *m, *b, *r), *word), want);
    }
}

#[rattlefmt::skip]
static LINEAR11_NUMBERS: [(i64, Result<u16, NumFault>); 9] = [
    (0, Ok(0x0000)), (12_000_000, Ok(0x000C)), (1_024_000_000, Ok(0x0A00)),
    (2_047_000_000, Ok(0x0BFF)), (-2_047_000_000, Ok(0x0C00)), (33_521_664_000_000, Ok(0x7BFF)),
    (33_521_664_000_001, Err(NumFault::AboveGreatest)),
    (-33_554_432_000_000, Ok(0x7C00)),
    (-33_554_432_000_001, Err(NumFault::BelowLeast)),
];

static ULINEAR16_NUMBERS: [(i8, i64, Result<u16, NumFault>); 3] = [
    (-12, 3_300_000, Ok(0x34CD)),
    (-12, -1, Err(NumFault::BelowLeast)),
    (-12, 16_000_000, Err(NumFault::AboveGreatest)),
];

// The second is a tie. Then the ends of a rising slope, from -32.768 to 32.767, and of a falling one, from
// -27.767 to 37.768.
static DIRECT_NUMBERS: [((i16, i16, i8), i64, Result<u16, NumFault>); 10] = [
    ((1, 0, 3), 3_300_000, Ok(0x0CE4)),
    ((-1, 5, 3), 4_000_500, Ok(0x03E8)),
    ((1, 0, 3), 32_767_000, Ok(0x7FFF)),
    ((1, 0, 3), 32_767_001, Err(NumFault::AboveGreatest)),
    ((1, 0, 3), -32_768_000, Ok(0x8000)),
    ((1, 0, 3), -32_768_001, Err(NumFault::BelowLeast)),
    ((-1, 5, 3), 37_768_000, Ok(0x8000)),
    ((-1, 5, 3), 37_768_001, Err(NumFault::AboveGreatest)),
    ((-1, 5, 3), -27_767_000, Ok(0x7FFF)),
    ((-1, 5, 3), -27_767_001, Err(NumFault::BelowLeast)),
];

#[test]
fn known_numbers_are_encoded(rt: HostRuntime) {
    for (row, (millionths, want)) in LINEAR11_NUMBERS.iter().enumerate() {
        agrees(&rt, row, &encoded(&Linear11, volts(&rt, *millionths)), want);
    }
    for (row, (n, millionths, want)) in ULINEAR16_NUMBERS.iter().enumerate() {
        let found = encoded(&unsigned(&rt, *n), volts(&rt, *millionths));
        agrees(&rt, row, &found, want);
    }
    let tie = encoded(&unsigned(&rt, -10), frac(&rt, 1, 2048));
    agrees(&rt, 3, &tie, &Ok(0x0000));
    for (row, ((m, b, r), millionths, want)) in DIRECT_NUMBERS.iter().enumerate() {
        let found = encoded(&slope(&rt, *m, *b, *r), volts(&rt, *millionths));
        agrees(&rt, row, &found, want);
    }
    let falling = slope(&rt, -1, 5, 3);
    agrees(&rt, 10, &encoded(&falling, falling.least()), &Ok(0x7FFF));
    agrees(&rt, 11, &encoded(&falling, falling.greatest()), &Ok(0x8000));
}

static EXPONENTS: [(i8, bool); 4] = [(-17, false), (-16, true), (15, true), (16, false)];

static SLOPES: [(i16, i8, Option<NumFault>); 6] = [
    (0, 0, Some(NumFault::ZeroSlope)),
    (0, 13, Some(NumFault::ZeroSlope)),
    (1, 13, Some(NumFault::ExponentRange)),
    (1, -13, Some(NumFault::ExponentRange)),
    (1, 12, None),
    (-1, -12, None),
];

static MILLIONTHS: [(i64, Option<NumFault>); 4] = [
    (1_000_000_000_000_000, None),
    (1_000_000_000_000_001, Some(NumFault::TooLarge)),
    (-1_000_000_000_000_000, None),
    (-1_000_000_000_000_001, Some(NumFault::TooLarge)),
];

// 2^55, and one more.
const MOST: i128 = 0x80_0000_0000_0000;

const BEYOND: i128 = 0x80_0000_0000_0001;

#[rattlefmt::skip]
static PAIRS: [(i128, i128, bool); 7] = [
    (0, 0, false), (0, 1, true), (MOST, MOST, true), (-MOST, MOST, true), (BEYOND, 1, false),
    (-BEYOND, 1, false), (0, BEYOND, false),
];

// Whether this is an exponent of ULINEAR16.
fn is_exponent(n: i8) -> bool {
    Ulinear16::new(n).is_some()
}

// The fault of DIRECT with the offset 5.
fn slope_fault(m: i16, r: i8) -> Option<NumFault> {
    Direct::new(m, 5, r).err()
}

// The fault of so many millionths.
fn micro_fault(millionths: i64) -> Option<NumFault> {
    micro(millionths).err()
}

// Whether the two numbers make a fraction.
fn is_fraction(num: i128, den: i128) -> bool {
    Frac::new(num, den).is_some()
}

#[test]
fn what_is_out_of_bounds_is_refused(rt: HostRuntime) {
    for (row, (n, made)) in EXPONENTS.iter().enumerate() {
        agrees(&rt, row, &is_exponent(*n), made);
    }
    for (row, (m, r, want)) in SLOPES.iter().enumerate() {
        agrees(&rt, row, &slope_fault(*m, *r), want);
    }
    for (row, (millionths, want)) in MILLIONTHS.iter().enumerate() {
        agrees(&rt, row, &micro_fault(*millionths), want);
    }
    for (row, (num, den, made)) in PAIRS.iter().enumerate() {
        agrees(&rt, row, &is_fraction(*num, *den), made);
    }
}

// Fractions, and whether they are a half.
static HALVES: [(i128, i128, bool); 2] = [(3, 6, true), (3, 5, false)];

// Fractions, and how a half compares with them.
static ORDERS: [(i128, i128, Ordering); 3] = [
    (3, 5, Ordering::Less),
    (3, 6, Ordering::Equal),
    (-1, 2, Ordering::Greater),
];

static FLOORS: [(i128, i128, i128); 3] = [
    (-1, 65536, -16),
    (13517, 4096, 3_300_048),
    (-2, 1, -2_000_000),
];

// Whether the two fractions are one value.
fn is_same(x: &Frac, y: &Frac) -> bool {
    x.same_value(y)
}

// The order of two fractions.
fn order_of(x: &Frac, y: &Frac) -> Ordering {
    x.cmp_value(y)
}

// The whole millionths of a fraction.
fn floor_of(x: &Frac) -> i128 {
    x.floor_micro()
}

#[test]
fn fractions_compare_by_value(rt: HostRuntime) {
    let half = frac(&rt, 1, 2);
    for (row, (num, den, want)) in HALVES.iter().enumerate() {
        agrees(&rt, row, &is_same(&half, &frac(&rt, *num, *den)), want);
    }
    for (row, (num, den, want)) in ORDERS.iter().enumerate() {
        agrees(&rt, row, &order_of(&half, &frac(&rt, *num, *den)), want);
    }
    for (row, (num, den, want)) in FLOORS.iter().enumerate() {
        agrees(&rt, row, &floor_of(&frac(&rt, *num, *den)), want);
    }
}

// Two words each, and whether the first has the greater value.
static WHOLE: [(u16, u16, bool); 3] = [
    (0x8000, 0x7FFF, true),
    (0x7FFF, 0x8000, false),
    (0x1234, 0x1234, false),
];

static FALLING: [(u16, u16, bool); 2] = [(0x03E8, 0x07D0, true), (0x07D0, 0x03E8, false)];

static RISING: [(u16, u16, bool); 2] = [(0x8000, 0x7FFF, false), (0x7FFF, 0x8000, true)];

static LINEAR11: [(u16, u16, bool); 3] = [
    (0x0801, 0x0001, true),
    (0x0801, 0x0002, false),
    (0x07FF, 0x0000, false),
];

// Whether the first word's value is the greater.
fn is_above(format: &AnyFormat, word: u16, other: u16) -> bool {
    format.is_above(word, other)
}

// A format compares the words of each row so.
fn compares(rt: &impl Abort, format: &AnyFormat, rows: &[(u16, u16, bool)]) {
    for (row, (word, other, above)) in rows.iter().enumerate() {
        agrees(rt, row, &is_above(format, *word, *other), above);
    }
}

#[test]
fn words_compare_by_value(rt: HostRuntime) {
    compares(&rt, &AnyFormat::Ulinear16(unsigned(&rt, 0)), &WHOLE);
    compares(&rt, &AnyFormat::Direct(slope(&rt, -1, 5, 3)), &FALLING);
    compares(&rt, &AnyFormat::Direct(slope(&rt, 1, 0, 0)), &RISING);
    compares(&rt, &AnyFormat::Linear11, &LINEAR11);
}

// A word is sent as this one.
fn sends<F: NumFormat>(rt: &impl Abort, row: usize, format: &F, word: u16, wanted: u16) {
    agrees(rt, row, &canonical(format, word), &wanted);
}

#[test]
fn a_value_is_sent_in_the_preferred_spelling(rt: HostRuntime) {
    sends(&rt, 0, &Linear11, 0xD300, 0x000C);
    sends(&rt, 1, &Linear11, 0x8000, 0x0000);
    sends(&rt, 2, &unsigned(&rt, -12), 0x34CD, 0x34CD);
    sends(&rt, 3, &slope(&rt, -1, 5, 3), 0x8000, 0x8000);
    sends(&rt, 4, &AnyFormat::Linear11, 0xD300, 0x000C);
    let unsigned = AnyFormat::Ulinear16(unsigned(&rt, 3));
    sends(&rt, 5, &unsigned, 0xFFFF, 0xFFFF);
    let slope = AnyFormat::Direct(slope(&rt, 7, 1, 2));
    sends(&rt, 6, &slope, 0x1234, 0x1234);
}

// The example of the root of `pm_num`, word for word.
fn nearest(microvolts: i64) -> Result<(u16, i128), NumFault> {
    let coefficients = Direct::new(1, 0, 3)?; // a word for each millivolt
    let volts = micro(microvolts)?; // N5 beyond 10^15
    let word = coefficients.nearest(volts)?; // N3 below the least value, N4 above the greatest
    Ok((word, coefficients.value_of(word).floor_micro()))
}

#[test]
fn the_example_of_the_root_runs(rt: HostRuntime) {
    assert_eq!(rt; nearest(3_300_400), Ok((3300, 3_300_000)));
    assert_eq!(rt; nearest(32_768_000), Err(NumFault::AboveGreatest));
}
