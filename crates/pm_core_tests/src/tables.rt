//! The tables: commands row by row, cells, modes, protection, addresses and names.

mod cells;
mod coefficients;
mod commands;
mod formats;
mod names;
mod protection;
mod vout_modes;

use crate::checks::agrees;
use pm_table::{Code, VoutMode, address_ok};

// The addresses 0000xxx and 1111xxx are reserved, and an address has seven bits.
#[test]
fn an_address_has_seven_bits_and_no_reserved_upper_four(rt: HostRuntime) {
    for addr in 0..=u8::MAX {
        let wanted = addr >> 7 == 0 && addr >> 3 != 0b0000 && addr >> 3 != 0b1111;
        agrees(&rt, usize::from(addr), &address_ok(addr), &wanted);
    }
}

// The example of the root of `pm_table`, word for word.
fn told(name: &str, mode: u8) -> Option<(Code, usize, VoutMode)> {
    let code: Code = name.parse().ok()?; // VOUT_COMMAND is 21h
    let mode = VoutMode::read(mode).ok()?; // 14h is ULINEAR16 with the exponent -12
    Some((code, code.payload_length(), mode)) // a word of two bytes
}

#[test]
fn the_example_of_the_root_runs(rt: HostRuntime) {
    let wanted = (Code::VOUT_COMMAND, 2, VoutMode::Linear(-12));
    assert_eq!(rt; told("VOUT_COMMAND", 0x14), Some(wanted));
    assert_eq!(rt; told("VOUT_COMMAND", 0x20), None);
}
