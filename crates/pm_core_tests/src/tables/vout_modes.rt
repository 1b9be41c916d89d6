//! The byte of VOUT_MODE, read bit by bit.

use crate::checks::agrees;
use pm_table::{TableFault, VoutMode};

// The mode of a byte by single bits, one fault after another in their order.
fn slow_mode(byte: u8) -> Result<VoutMode, TableFault> {
    if byte & 0b1000_0000 != 0 {
        return Err(TableFault::RelativeMode);
    }
    if byte & 0b0110_0000 == 0b0010_0000 {
        return Err(TableFault::VidMode);
    }
    if byte & 0b0110_0000 == 0b0110_0000 {
        return Err(TableFault::HalfMode);
    }
    if byte & 0b0110_0000 == 0b0100_0000 {
        if byte & 0b0001_1111 != 0 {
            return Err(TableFault::BadParameter);
        }
        return Ok(VoutMode::Direct);
    }
    let size = (byte & 0b0000_1111) as i8;
    let sign = if byte & 0b0001_0000 != 0 { -16 } else { 0 };
    Ok(VoutMode::Linear(sign + size))
}

// What a byte reads as.
fn read(byte: u8) -> Result<VoutMode, TableFault> {
    VoutMode::read(byte)
}

#[rattlefmt::skip]
static ENDS: [(u8, Result<VoutMode, TableFault>); 17] = [
    (0x00, Ok(VoutMode::Linear(0))), (0x0F, Ok(VoutMode::Linear(15))),
    (0x10, Ok(VoutMode::Linear(-16))), (0x14, Ok(VoutMode::Linear(-12))),
    (0x1F, Ok(VoutMode::Linear(-1))), (0x20, Err(TableFault::VidMode)),
    (0x3F, Err(TableFault::VidMode)), (0x40, Ok(VoutMode::Direct)),
    (0x41, Err(TableFault::BadParameter)), (0x5F, Err(TableFault::BadParameter)),
    (0x60, Err(TableFault::HalfMode)), (0x7F, Err(TableFault::HalfMode)),
    (0x80, Err(TableFault::RelativeMode)), (0xA0, Err(TableFault::RelativeMode)),
    (0xC0, Err(TableFault::RelativeMode)), (0xE0, Err(TableFault::RelativeMode)),
    (0xFF, Err(TableFault::RelativeMode)),
];

#[test]
fn every_byte_reads_as_its_bits_say(rt: HostRuntime) {
    for byte in 0..=u8::MAX {
        agrees(&rt, usize::from(byte), &read(byte), &slow_mode(byte));
    }
    // The ends of each range read as the standard says.
    for (row, (byte, wanted)) in ENDS.iter().enumerate() {
        agrees(&rt, row, &read(*byte), wanted);
    }
}
