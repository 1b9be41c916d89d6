//! The table of commands, row by row.

use crate::checks::agrees;
use pm_table::{Code, Info, known};

// The table as the standard's codes and this project's directions give it: code, name, bytes,
// paged, read, written.
#[rattlefmt::skip]
static TABLE: [(u8, &str, u8, bool, bool, bool); 25] = [
    (0x00, "PAGE", 1, false, true, true), (0x01, "OPERATION", 1, true, true, true),
    (0x03, "CLEAR_FAULTS", 0, true, false, true),
    (0x05, "PAGE_PLUS_WRITE", 0, false, false, true),
    (0x06, "PAGE_PLUS_READ", 0, false, true, false),
    (0x10, "WRITE_PROTECT", 1, false, true, true),
    (0x15, "STORE_USER_ALL", 0, false, false, true),
    (0x16, "RESTORE_USER_ALL", 0, false, false, true),
    (0x19, "CAPABILITY", 1, false, true, false), (0x20, "VOUT_MODE", 1, true, true, false),
    (0x21, "VOUT_COMMAND", 2, true, true, true), (0x24, "VOUT_MAX", 2, true, true, true),
    (0x25, "VOUT_MARGIN_HIGH", 2, true, true, true),
    (0x26, "VOUT_MARGIN_LOW", 2, true, true, true), (0x2B, "VOUT_MIN", 2, true, true, true),
    (0x30, "COEFFICIENTS", 0, false, true, false), (0x78, "STATUS_BYTE", 1, true, true, false),
    (0x79, "STATUS_WORD", 2, true, true, false), (0x7A, "STATUS_VOUT", 1, true, true, true),
    (0x7E, "STATUS_CML", 1, false, true, true), (0x88, "READ_VIN", 2, false, true, false),
    (0x8B, "READ_VOUT", 2, true, true, false), (0x8C, "READ_IOUT", 2, true, true, false),
    (0x8D, "READ_TEMPERATURE_1", 2, false, true, false),
    (0x98, "PMBUS_REVISION", 1, false, true, false),
];

// The line of the table with this code.
fn line_of(code: u8) -> Option<Info> {
    let row = TABLE.iter().find(|row| row.0 == code);
    row.map(|&(_, name, length, paged, reads, writes)| Info {
        name,
        length,
        paged,
        reads,
        writes,
    })
}

// What is known of this code.
fn known_of(code: u8) -> Option<Info> {
    known(Code(code))
}

#[test]
fn every_code_has_its_line_and_no_other_code_has_one(rt: HostRuntime) {
    for code in 0..=u8::MAX {
        agrees(&rt, usize::from(code), &known_of(code), &line_of(code));
    }
}
