//! All 256 bytes of OPERATION.

use super::{Wanted, commanded, hears, with_operation};
use crate::checks::{equal, is_true};
use crate::device_frames::{base, word};
use pm_device::{ConfigFault, Converter, DeviceFault, Ending};
use pm_frame::pec;
use pm_table::{Cell, Reg};
use std::process::Abort;
use std::test::Fail;

// The bytes that have a meaning, from the first to the last: whether the output is on, and the
// numerator of what it commands over 4096.
#[rattlefmt::skip]
static MEANINGS: [(u8, u8, bool, i128); 7] = [
    (0x00, 0x3F, false, 0x1000), (0x40, 0x7F, false, 0x1000), (0x80, 0x8F, true, 0x1000),
    (0x94, 0x97, true, 0x0F00), (0x98, 0x9B, true, 0x0F00), (0xA4, 0xA7, true, 0x1100),
    (0xA8, 0xAB, true, 0x1100),
];

fn meaning(byte: u8) -> Option<(bool, i128)> {
    for &(first, last, on, volts) in &MEANINGS {
        if first <= byte && byte <= last {
            return Some((on, volts));
        }
    }
    None
}

// Whether output 1 is there and on.
fn is_on(converter: &Converter) -> bool {
    converter.count() > 1 && converter.is_on(1)
}

// What output 1 does with this byte as OPERATION.
fn does(rt: &impl Abort, converter: &Converter, byte: u8, on: bool, volts: i128) {
    let held = word(converter, Cell::Out(1, Reg::Operation));
    equal(rt, &held, &u16::from(byte), &1);
    equal(rt, &is_on(converter), &on, &byte);
    equal(rt, &commanded(converter, 1), &(volts, 4096), &byte);
}

// A byte as the start word of output 1, and written to it.
fn means(rt: &impl Abort, byte: u8) -> Result<(), ConfigFault> {
    let started = with_operation(u16::from(byte));
    let mut converter = base()?;
    let packet = [0xB0, 0x05, 0x03, 0x01, 0x01, byte];
    let whole = [0xB0, 0x05, 0x03, 0x01, 0x01, byte, pec(&packet)];
    match (meaning(byte), started) {
        (Some((on, volts)), Ok(started)) => {
            does(rt, &started, byte, on, volts);
            hears(rt, &mut converter, &whole, Ending::Stop, Wanted::Taken);
            does(rt, &converter, byte, on, volts);
        }
        (None, Err(fault)) => {
            compare! { rt, 1; fault => ConfigFault::BadStart(Cell::Out(1, Reg::Operation)) }
            let refused = Wanted::Refused(DeviceFault::UnsupportedData);
            hears(rt, &mut converter, &whole, Ending::Stop, refused);
            does(rt, &converter, 0x80, true, 0x1000);
        }
        _ => is_true(rt, false, &byte),
    }
    Ok(())
}

#[test]
fn each_byte_of_operation_has_its_meaning_or_none(rt: HostRuntime) -> Result<(), Fail> {
    for byte in 0..=255 {
        means(&rt, byte)?;
    }
    Ok(())
}
