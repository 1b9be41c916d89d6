//! Which messages fit the layout of their code.

use crate::checks::agrees;
use pm_frame::Message::{
    PagePlusRead, PagePlusWrite, ReadCoefficients, ReadCommand, SendByte, WriteByte, WriteWord,
};
use pm_frame::Payload::{Byte, Empty, Word};
use pm_frame::{Message, fits};

// The layouts by nothing but their codes: these fit, whatever byte, word, page and side they have.
#[rattlefmt::skip]
static FITTING: [Message; 27] = [
    SendByte { code: 0x03 }, SendByte { code: 0x15 }, SendByte { code: 0x16 },
    WriteByte { code: 0x00, byte: 0xFF }, WriteByte { code: 0x01, byte: 0xB0 },
    WriteByte { code: 0x10, byte: 0x80 }, WriteByte { code: 0x7A, byte: 0x08 },
    WriteByte { code: 0x7E, byte: 0x40 }, WriteWord { code: 0x21, word: 0x34CD },
    WriteWord { code: 0x26, word: 0xFFFF },
    PagePlusWrite { page: 0, code: 0x03, payload: Empty },
    PagePlusWrite { page: 0, code: 0x15, payload: Empty },
    PagePlusWrite { page: 0, code: 0x16, payload: Empty },
    PagePlusWrite { page: 0, code: 0x01, payload: Byte(0) },
    PagePlusWrite { page: 0, code: 0x10, payload: Byte(0) },
    PagePlusWrite { page: 0, code: 0x24, payload: Word(0) },
    PagePlusWrite { page: 0, code: 0x25, payload: Word(0) },
    ReadCommand { code: 0x00 }, ReadCommand { code: 0x19 }, ReadCommand { code: 0x21 },
    ReadCommand { code: 0x7E }, ReadCommand { code: 0x98 }, PagePlusRead { page: 7, code: 0x01 },
    PagePlusRead { page: 255, code: 0x20 }, PagePlusRead { page: 0, code: 0x8D },
    ReadCoefficients { code: 0x21, side: 0 }, ReadCoefficients { code: 0x99, side: 255 },
];

// Whether a message's code fits its layout.
fn is_fitting(message: &Message) -> bool {
    fits(message)
}

#[rattlefmt::skip]
static UNFITTING: [Message; 35] = [
    // messages of another length than their code has
    SendByte { code: 0x10 }, WriteByte { code: 0x03, byte: 0 }, WriteByte { code: 0x21, byte: 0 },
    WriteWord { code: 0x10, word: 0 },
    PagePlusWrite { page: 0, code: 0x03, payload: Byte(0) },
    PagePlusWrite { page: 0, code: 0x10, payload: Empty },
    PagePlusWrite { page: 0, code: 0x10, payload: Word(0) },
    PagePlusWrite { page: 0, code: 0x21, payload: Byte(0) },
    PagePlusWrite { page: 0, code: 0x21, payload: Empty },
    // only read
    SendByte { code: 0x06 }, SendByte { code: 0x30 }, WriteByte { code: 0x20, byte: 0 },
    WriteByte { code: 0x78, byte: 0 }, WriteByte { code: 0x98, byte: 0 },
    WriteWord { code: 0x79, word: 0 }, WriteWord { code: 0x8B, word: 0 },
    PagePlusWrite { page: 0, code: 0x78, payload: Byte(0) },
    PagePlusWrite { page: 0, code: 0x8B, payload: Word(0) },
    // only written
    ReadCommand { code: 0x03 }, ReadCommand { code: 0x05 }, PagePlusRead { page: 0, code: 0x03 },
    // read and written in packets of their own
    SendByte { code: 0x05 }, ReadCommand { code: 0x06 }, ReadCommand { code: 0x30 },
    // not carried
    PagePlusWrite { page: 0, code: 0x00, payload: Byte(0) },
    PagePlusWrite { page: 0, code: 0x05, payload: Empty },
    PagePlusRead { page: 0, code: 0x00 }, PagePlusRead { page: 0, code: 0x06 },
    PagePlusRead { page: 0, code: 0x30 },
    // not in the table
    SendByte { code: 0x99 }, WriteByte { code: 0x02, byte: 0 }, WriteWord { code: 0x2A, word: 0 },
    PagePlusWrite { page: 0, code: 0x11, payload: Empty },
    ReadCommand { code: 0xFF }, PagePlusRead { page: 0, code: 0x99 },
];

#[test]
fn a_code_fits_the_layout_of_its_direction_and_length_and_no_other(rt: HostRuntime) {
    for (row, message) in FITTING.iter().enumerate() {
        agrees(&rt, row, &is_fitting(message), &true);
    }
    for (row, message) in UNFITTING.iter().enumerate() {
        agrees(&rt, row, &is_fitting(message), &false);
    }
}
