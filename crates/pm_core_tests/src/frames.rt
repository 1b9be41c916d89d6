//! Frames to the addresses 08h, 58h and 77h, the ends of the range among them.

use pm_frame::Message;
use pm_frame::Message::{
    PagePlusRead, PagePlusWrite, ReadCoefficients, ReadCommand, SendByte, WriteByte, WriteWord,
};
use pm_frame::Payload::{Byte, Empty, Word};

/// A packet that writes.
pub(crate) struct WriteRow {
    /// The device's address.
    pub(crate) addr: u8,
    /// Its meaning.
    pub(crate) message: Message,
    /// All its bytes.
    pub(crate) bytes: &'static [u8],
    /// What a view shows as its page.
    pub(crate) page: Option<u8>,
    /// What a view shows as its code.
    pub(crate) code: u8,
    /// What a view shows as its payload.
    pub(crate) payload: &'static [u8],
}

/// A packet that reads.
pub(crate) struct ReadRow {
    /// The device's address.
    pub(crate) addr: u8,
    /// Its meaning.
    pub(crate) message: Message,
    /// The bytes before the repeated start.
    pub(crate) request: &'static [u8],
    /// What a view shows as its page.
    pub(crate) page: Option<u8>,
    /// What a view shows as its code.
    pub(crate) code: u8,
    /// What a view shows as its payload.
    pub(crate) payload: &'static [u8],
    /// The payload of an answer to it.
    pub(crate) answered: &'static [u8],
    /// All bytes of that answer.
    pub(crate) answer: &'static [u8],
}

/// Packets that write.
#[rattlefmt::skip]
pub(crate) static WRITES: [WriteRow; 19] = [
    WriteRow { addr: 0x58, message: SendByte { code: 0x03 }, bytes: &[0xB0, 0x03, 0x46], page: None,
        code: 0x03, payload: &[] },
    WriteRow { addr: 0x58, message: WriteByte { code: 0x10, byte: 0x80 },
        bytes: &[0xB0, 0x10, 0x80, 0x34], page: None, code: 0x10, payload: &[0x80] },
    WriteRow { addr: 0x58, message: WriteByte { code: 0x10, byte: 0x20 },
        bytes: &[0xB0, 0x10, 0x20, 0x5D], page: None, code: 0x10, payload: &[0x20] },
    WriteRow { addr: 0x58, message: WriteByte { code: 0x10, byte: 0x40 },
        bytes: &[0xB0, 0x10, 0x40, 0x7A], page: None, code: 0x10, payload: &[0x40] },
    WriteRow { addr: 0x58, message: WriteByte { code: 0x00, byte: 0x01 },
        bytes: &[0xB0, 0x00, 0x01, 0xED], page: None, code: 0x00, payload: &[0x01] },
    WriteRow { addr: 0x58, message: WriteByte { code: 0x7E, byte: 0x40 },
        bytes: &[0xB0, 0x7E, 0x40, 0x59], page: None, code: 0x7E, payload: &[0x40] },
    WriteRow { addr: 0x58, message: WriteWord { code: 0x21, word: 0x34CD },
        bytes: &[0xB0, 0x21, 0xCD, 0x34, 0x38], page: None, code: 0x21, payload: &[0xCD, 0x34] },
    WriteRow { addr: 0x58, message: PagePlusWrite { page: 0, code: 0x21, payload: Word(0x34CD) },
        bytes: &[0xB0, 0x05, 0x04, 0x00, 0x21, 0xCD, 0x34, 0x5A], page: Some(0), code: 0x21,
        payload: &[0xCD, 0x34] },
    // The next two rows share their PEC with the write above: 01h and 07h changed in page and code, or in the
    // word's bytes.
    WriteRow { addr: 0x58, message: PagePlusWrite { page: 1, code: 0x26, payload: Word(0x34CD) },
        bytes: &[0xB0, 0x05, 0x04, 0x01, 0x26, 0xCD, 0x34, 0x5A], page: Some(1), code: 0x26,
        payload: &[0xCD, 0x34] },
    WriteRow { addr: 0x58, message: PagePlusWrite { page: 0, code: 0x21, payload: Word(0x33CC) },
        bytes: &[0xB0, 0x05, 0x04, 0x00, 0x21, 0xCC, 0x33, 0x5A], page: Some(0), code: 0x21,
        payload: &[0xCC, 0x33] },
    WriteRow { addr: 0x58, message: PagePlusWrite { page: 1, code: 0x21, payload: Word(0x34CD) },
        bytes: &[0xB0, 0x05, 0x04, 0x01, 0x21, 0xCD, 0x34, 0x4C], page: Some(1), code: 0x21,
        payload: &[0xCD, 0x34] },
    WriteRow { addr: 0x58, message: PagePlusWrite { page: 0, code: 0x24, payload: Word(0x5000) },
        bytes: &[0xB0, 0x05, 0x04, 0x00, 0x24, 0x00, 0x50, 0xA5], page: Some(0), code: 0x24,
        payload: &[0x00, 0x50] },
    WriteRow { addr: 0x58, message: PagePlusWrite { page: 1, code: 0x01, payload: Byte(0xA8) },
        bytes: &[0xB0, 0x05, 0x03, 0x01, 0x01, 0xA8, 0xB1], page: Some(1), code: 0x01,
        payload: &[0xA8] },
    WriteRow { addr: 0x58, message: PagePlusWrite { page: 0, code: 0x7A, payload: Byte(0x08) },
        bytes: &[0xB0, 0x05, 0x03, 0x00, 0x7A, 0x08, 0x86], page: Some(0), code: 0x7A,
        payload: &[0x08] },
    WriteRow { addr: 0x58, message: PagePlusWrite { page: 0, code: 0x03, payload: Empty },
        bytes: &[0xB0, 0x05, 0x02, 0x00, 0x03, 0x50], page: Some(0), code: 0x03, payload: &[] },
    WriteRow { addr: 0x08, message: SendByte { code: 0x03 }, bytes: &[0x10, 0x03, 0x5E], page: None,
        code: 0x03, payload: &[] },
    WriteRow { addr: 0x08, message: PagePlusWrite { page: 255, code: 0x21, payload: Word(0x34CD) },
        bytes: &[0x10, 0x05, 0x04, 0xFF, 0x21, 0xCD, 0x34, 0xA0], page: Some(255), code: 0x21,
        payload: &[0xCD, 0x34] },
    WriteRow { addr: 0x77, message: WriteWord { code: 0x26, word: 0x8001 },
        bytes: &[0xEE, 0x26, 0x01, 0x80, 0x02], page: None, code: 0x26, payload: &[0x01, 0x80] },
    WriteRow { addr: 0x77, message: PagePlusWrite { page: 7, code: 0x01, payload: Byte(0x80) },
        bytes: &[0xEE, 0x05, 0x03, 0x07, 0x01, 0x80, 0x45], page: Some(7), code: 0x01,
        payload: &[0x80] },
];

/// Packets that read.
#[rattlefmt::skip]
pub(crate) static READS: [ReadRow; 11] = [
    ReadRow { addr: 0x58, message: ReadCommand { code: 0x20 }, request: &[0xB0, 0x20],
        page: None, code: 0x20, payload: &[], answered: &[0x14], answer: &[0xB1, 0x14, 0xED] },
    ReadRow { addr: 0x58, message: ReadCommand { code: 0x7E }, request: &[0xB0, 0x7E],
        page: None, code: 0x7E, payload: &[], answered: &[0x80], answer: &[0xB1, 0x80, 0x00] },
    ReadRow { addr: 0x58, message: ReadCommand { code: 0x21 }, request: &[0xB0, 0x21],
        page: None, code: 0x21, payload: &[], answered: &[0xCD, 0x34],
        answer: &[0xB1, 0xCD, 0x34, 0x10] },
    ReadRow { addr: 0x58, message: PagePlusRead { page: 0, code: 0x21 },
        request: &[0xB0, 0x06, 0x02, 0x00, 0x21], page: Some(0), code: 0x21, payload: &[],
        answered: &[0xCD, 0x34], answer: &[0xB1, 0x02, 0xCD, 0x34, 0xB9] },
    ReadRow { addr: 0x58, message: PagePlusRead { page: 0, code: 0x20 },
        request: &[0xB0, 0x06, 0x02, 0x00, 0x20], page: Some(0), code: 0x20, payload: &[],
        answered: &[0x14], answer: &[0xB1, 0x01, 0x14, 0x4E] },
    ReadRow { addr: 0x58, message: ReadCoefficients { code: 0x21, side: 0x00 },
        request: &[0xB0, 0x30, 0x02, 0x21, 0x00], page: None, code: 0x30, payload: &[0x21, 0x00],
        answered: &[0x01, 0x00, 0x00, 0x00, 0x03],
        answer: &[0xB1, 0x05, 0x01, 0x00, 0x00, 0x00, 0x03, 0x6B] },
    ReadRow { addr: 0x08, message: ReadCommand { code: 0x19 }, request: &[0x10, 0x19],
        page: None, code: 0x19, payload: &[], answered: &[0x80], answer: &[0x11, 0x80, 0x34] },
    ReadRow { addr: 0x08, message: PagePlusRead { page: 255, code: 0x79 },
        request: &[0x10, 0x06, 0x02, 0xFF, 0x79], page: Some(255), code: 0x79, payload: &[],
        answered: &[0x01, 0x80], answer: &[0x11, 0x02, 0x01, 0x80, 0x27] },
    ReadRow { addr: 0x77, message: ReadCommand { code: 0x00 }, request: &[0xEE, 0x00],
        page: None, code: 0x00, payload: &[], answered: &[0x01], answer: &[0xEF, 0x01, 0x27] },
    ReadRow { addr: 0x77, message: PagePlusRead { page: 7, code: 0x8B },
        request: &[0xEE, 0x06, 0x02, 0x07, 0x8B], page: Some(7), code: 0x8B, payload: &[],
        answered: &[0xFF, 0x0F], answer: &[0xEF, 0x02, 0xFF, 0x0F, 0x4D] },
    ReadRow { addr: 0x77, message: ReadCoefficients { code: 0x99, side: 0x01 },
        request: &[0xEE, 0x30, 0x02, 0x99, 0x01], page: None, code: 0x30, payload: &[0x99, 0x01],
        answered: &[0xFF, 0xFF, 0x05, 0x00, 0x03],
        answer: &[0xEF, 0x05, 0xFF, 0xFF, 0x05, 0x00, 0x03, 0x3E] },
];
