//! The five bytes of COEFFICIENTS, both ways.

use crate::checks::agrees;
use pm_table::Coefficients;

static ROWS: [([u8; 5], (i16, i16, i8)); 5] = [
    ([0x01, 0x00, 0x00, 0x00, 0x03], (1, 0, 3)),
    ([0xFF, 0xFF, 0x05, 0x00, 0x03], (-1, 5, 3)),
    ([0x00, 0x80, 0xFF, 0x7F, 0x80], (-32768, 32767, -128)),
    ([0xFF, 0x7F, 0x00, 0x80, 0x7F], (32767, -32768, 127)),
    ([0x34, 0x12, 0xCC, 0xED, 0xF4], (0x1234, -0x1234, -12)),
];

// The numbers that five bytes stand for.
fn read(bytes: [u8; 5]) -> (i16, i16, i8) {
    let read = Coefficients::read(bytes);
    (read.m, read.b, read.r)
}

// The five bytes of three numbers.
fn bytes_of(m: i16, b: i16, r: i8) -> [u8; 5] {
    Coefficients { m, b, r }.bytes()
}

#[test]
fn the_five_bytes_are_the_three_numbers_both_ways(rt: HostRuntime) {
    for (row, (bytes, numbers)) in ROWS.iter().enumerate() {
        agrees(&rt, row, &read(*bytes), numbers);
        agrees(&rt, row, &bytes_of(numbers.0, numbers.1, numbers.2), bytes);
    }
}
