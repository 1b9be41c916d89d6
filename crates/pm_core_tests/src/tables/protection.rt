//! The codes that each value of WRITE_PROTECT allows.

use crate::checks::agrees;
use pm_table::{Code, is_allowed};
use std::process::Abort;

// The codes that each value allows beside CLEAR_FAULTS.
#[rattlefmt::skip]
static PROTECTED: [(u16, &[u8]); 5] = [
    (0x80, &[0x10]), (0x40, &[0x10, 0x01, 0x00]),
    (0x20, &[0x10, 0x01, 0x00, 0x21]),
    (0x00, &[0x00, 0x01, 0x05, 0x10, 0x15, 0x16, 0x21, 0x24, 0x25, 0x26, 0x2B, 0x7A, 0x7E]),
    (0x60, &[]),
];

static ABOVE_A_BYTE: [u16; 6] = [0x0100, 0x0120, 0x0140, 0x0180, 0x8000, 0xFFFF];

// Whether this value allows this code.
fn allows(protect: u16, code: u8) -> bool {
    is_allowed(protect, Code(code))
}

// A value allows CLEAR_FAULTS and these codes, and no other; a row is a code here.
fn allows_only(rt: &impl Abort, protect: u16, allowed: &[u8]) {
    for code in 0..=u8::MAX {
        let wanted = code == 0x03 || allowed.contains(&code);
        agrees(rt, usize::from(code), &allows(protect, code), &wanted);
    }
}

#[test]
fn each_value_allows_its_codes_and_no_other(rt: HostRuntime) {
    for (protect, allowed) in &PROTECTED {
        allows_only(&rt, *protect, allowed);
    }
    // A word above a byte allows only CLEAR_FAULTS.
    for protect in &ABOVE_A_BYTE {
        allows_only(&rt, *protect, &[]);
    }
}
