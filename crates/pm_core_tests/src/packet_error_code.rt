//! The packet error code: known values, and the code bit by bit.

use crate::checks::agrees;
use crate::framing::slow_pec;
use pm_frame::{pec, pec_after};

// The PEC of a message.
fn found(message: &[u8]) -> u8 {
    pec(message)
}

// The PEC carried on over a further part.
fn found_after(before: u8, part: &[u8]) -> u8 {
    pec_after(before, part)
}

static MESSAGES: [(&[u8], u8); 4] = [
    (b"123456789", 0xF4),
    (&[0xB0, 0x05, 0x04, 0x00, 0x21, 0xCD, 0x34], 0x5A),
    (&[0xB0, 0x10, 0x80], 0x34),
    (&[], 0x00),
];

#[rattlefmt::skip]
static BITS: [(u8, u8); 8] = [
    (0x01, 0x07), (0x02, 0x0E), (0x04, 0x1C), (0x08, 0x38), (0x10, 0x70), (0x20, 0xE0),
    (0x40, 0xC7), (0x80, 0x89),
];

// The bytes 0, 7, 14 and so on, in each length up to 80.
#[test]
fn pec_by_the_table_is_pec_bit_by_bit(rt: HostRuntime) {
    let mut bytes = [0u8; 80];
    for (place, byte) in bytes.iter_mut().enumerate() {
        *byte = (place % 256) as u8;
        *byte = byte.wrapping_mul(7);
    }
    for length in 0..=bytes.len() {
        let message = &bytes[..length];
        agrees(&rt, length, &found(message), &slow_pec(0, message));
        let wanted = slow_pec(0x5A, message);
        agrees(&rt, length, &found_after(0x5A, message), &wanted);
    }
}

#[test]
fn pec_of_known_messages(rt: HostRuntime) {
    for (row, (message, code)) in MESSAGES.iter().enumerate() {
        agrees(&rt, row, &found(message), code);
    }
    // Each single bit has its PEC.
    for (row, (byte, code)) in BITS.iter().enumerate() {
        agrees(&rt, row, &found(&[*byte]), code);
    }
    // The first and the last bit of sixteen bytes are 127 apart, and change the code alike.
    let mut bytes = [0u8; 16];
    agrees(&rt, 0, &found(&bytes), &0x00);
    bytes[0] = 0x80;
    bytes[15] = 0x01;
    agrees(&rt, 1, &found(&bytes), &0x00);
    // The PEC carries on over the parts of a message.
    let front = found(&[0xB0, 0x05, 0x04]);
    let whole = found_after(front, &[0x00, 0x21, 0xCD, 0x34]);
    agrees(&rt, 0, &whole, &0x5A);
}
