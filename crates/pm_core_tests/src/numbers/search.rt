//! The formats against a search of all words.

use super::{encoded, frac, slope, unsigned};
use crate::checks::agrees;
use pm_num::{Linear11, NumFormat};
use std::process::Abort;

// A format as a slow program reads it: each value is a whole number over one denominator.
#[derive(Clone, Copy)]
enum Plain {
    /// Over 2^16.
    Linear11,
    /// `(word * scale + offset) / den`, the word in two's complement if `signed` is true.
    Line {
        signed: bool,
        scale: i32,
        offset: i32,
        den: i32,
    },
}

// A word as the search looks at it.
#[derive(Clone, Copy)]
struct Candidate {
    word: u16,
    num: i64,
    exponent: u32,
    distance: u128,
}

impl Plain {
    fn den(&self) -> i32 {
        match *self {
            Plain::Linear11 => 65536,
            Plain::Line { den, .. } => den,
        }
    }

    // The word's value, and its exponent counted from -16.
    fn value(&self, word: u16) -> (i64, u32) {
        match *self {
            Plain::Linear11 => {
                let place = u32::from((word >> 11) + 16) % 32;
                let mantissa = i64::from((word << 5).cast_signed() >> 5);
                (mantissa << place, place)
            }
            Plain::Line {
                signed,
                scale,
                offset,
                ..
            } => {
                let number = if signed {
                    i64::from(word.cast_signed())
                } else {
                    i64::from(word)
                };
                (
                    (number * i64::from(scale)).wrapping_add(i64::from(offset)),
                    0,
                )
            }
        }
    }

    // How far the word's value is from `x`, by cross products.
    fn candidate(&self, word: u16, x: (i32, i32)) -> Candidate {
        let (num, exponent) = self.value(word);
        let mine = i128::from(num) * i128::from(x.1);
        let other = i128::from(x.0) * i128::from(self.den());
        Candidate {
            word,
            num,
            exponent,
            distance: mine.abs_diff(other),
        }
    }
}

impl Candidate {
    // Whether this one is nearer, or as near and lower, or the same value with an exponent nearer
    // to 0, of two such the negative one.
    fn is_better(&self, best: &Candidate) -> bool {
        let (size, other) = (self.exponent.abs_diff(16), best.exponent.abs_diff(16));
        if self.distance != best.distance {
            self.distance < best.distance
        } else if self.num != best.num {
            self.num < best.num
        } else {
            size < other || size == other && self.exponent < best.exponent
        }
    }
}

// The word for `x`, found by a look at every word.
fn search(plain: Plain, x: (i32, i32)) -> u16 {
    let mut best = plain.candidate(0, x);
    for index in 1..65536u32 {
        let candidate = plain.candidate(index as u16, x);
        if candidate.is_better(&best) {
            best = candidate;
        }
    }
    best.word
}

// The word for a number over a denominator is the one that the search finds.
fn agree_at<F: NumFormat>(rt: &impl Abort, format: &F, plain: Plain, row: usize, x: (i32, i32)) {
    let found = encoded(format, frac(rt, i128::from(x.0), i128::from(x.1)));
    agrees(rt, row, &found, &Ok(search(plain, x)));
}

fn agree<F: NumFormat>(rt: &impl Abort, format: &F, plain: Plain, numbers: &[(i32, i32)]) {
    for (row, x) in numbers.iter().enumerate() {
        agree_at(rt, format, plain, row, *x);
    }
}

// The words for 8 scattered numbers, `(k - center) / den` with k below 2^20, are those that the search finds.
fn agree_on_scattered<F: NumFormat>(
    rt: &impl Abort,
    format: &F,
    plain: Plain,
    center: i32,
    den: i32,
) {
    let mut state = 1u64;
    for row in 0..8 {
        state = state
            .wrapping_mul(6_364_136_223_846_793_005)
            .wrapping_add(1_442_695_040_888_963_407);
        let num = ((state >> 44) as i32).wrapping_sub(center);
        agree_at(rt, format, plain, row, (num, den));
    }
}

#[rattlefmt::skip]
static LINEAR11_TIES: [(i32, i32); 12] = [
    (1, 131_072), (-1, 131_072), (3, 131_072), (-3, 131_072), (2047, 1), (-2047, 1), (1025, 1),
    (-1025, 1), (2047, 2), (-2049, 2), (2049, 2), (-2051, 2),
];

#[rattlefmt::skip]
static LINEAR11_ENDS: [(i32, i32); 12] = [
    (0, 7), (33_521_664, 1), (33_521_663, 1), (-33_554_432, 1), (-33_554_431, 1), (-33_538_048, 1),
    (33_505_280, 1), (16_777_216, 1), (-16_777_216, 1), (-16_777_217, 1), (1, 65_536),
    (1, 1_000_000),
];

#[test]
fn linear11_agrees_with_a_search(rt: HostRuntime) {
    agree(&rt, &Linear11, Plain::Linear11, &LINEAR11_TIES);
    agree(&rt, &Linear11, Plain::Linear11, &LINEAR11_ENDS);
    for den in [1, 3, 1000, 65_536] {
        agree_on_scattered(&rt, &Linear11, Plain::Linear11, 524_288, den);
    }
}

static FINE: Plain = Plain::Line {
    signed: false,
    scale: 1,
    offset: 0,
    den: 4096,
};

#[rattlefmt::skip]
static FINE_NUMBERS: [(i32, i32); 8] = [
    (0, 1), (1, 8192), (3, 8192), (26_989, 8192), (131_069, 8192), (65_535, 4096), (33, 10),
    (1, 1_000_000),
];

static COARSE: Plain = Plain::Line {
    signed: false,
    scale: 8,
    offset: 0,
    den: 1,
};

#[rattlefmt::skip]
static COARSE_NUMBERS: [(i32, i32); 6] = [
    (4, 1), (12, 1), (5, 1), (524_276, 1), (524_280, 1), (31, 8),
];

#[test]
fn ulinear16_agrees_with_a_search(rt: HostRuntime) {
    agree(&rt, &unsigned(&rt, -12), FINE, &FINE_NUMBERS);
    agree_on_scattered(&rt, &unsigned(&rt, -12), FINE, 0, 131_072);
    agree(&rt, &unsigned(&rt, 3), COARSE, &COARSE_NUMBERS);
    agree_on_scattered(&rt, &unsigned(&rt, 3), COARSE, 0, 3);
}

static FALLING: Plain = Plain::Line {
    signed: true,
    scale: -1,
    offset: 5000,
    den: 1000,
};

#[rattlefmt::skip]
static FALLING_NUMBERS: [(i32, i32); 8] = [
    (8001, 2000), (-1, 2000), (1, 2000), (-27_767, 1000), (37_768, 1000), (75_535, 2000), (4, 1),
    (0, 1),
];

static STEEP: Plain = Plain::Line {
    signed: true,
    scale: 100,
    offset: 3,
    den: 7,
};

#[rattlefmt::skip]
static STEEP_NUMBERS: [(i32, i32); 7] = [
    (53, 7), (153, 7), (-47, 7), (3_276_703, 7), (-3_276_797, 7), (3_276_653, 7), (0, 1),
];

#[test]
fn direct_agrees_with_a_search(rt: HostRuntime) {
    agree(&rt, &slope(&rt, -1, 5, 3), FALLING, &FALLING_NUMBERS);
    agree_on_scattered(&rt, &slope(&rt, -1, 5, 3), FALLING, 524_288, 32_768);
    agree(&rt, &slope(&rt, 7, -3, -2), STEEP, &STEEP_NUMBERS);
    agree_on_scattered(&rt, &slope(&rt, 7, -3, -2), STEEP, 524_288, 3);
}
