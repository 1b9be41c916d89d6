//! Reads that are no message: blocks and plain reads of any code, with real frames and each fault, written by hand, and an
//! answer that comes late.

ghost use Rattle.std.specs.Prelude.{◌≡◌, ◌≤◌, true, IfSome};
ghost use Rattle.pm_frame.specs.Layout.{is_carried};
ghost use Rattle.pm_table.specs.Address.{IsAddress};

use crate::checks::agrees;
use crate::framing::answer_fault;
use pm_frame::FrameFault::{Long, NotOurs, Short, WrongCount, WrongPec};
use pm_frame::{
    FrameFault, MOST_READ, Message, code_request, fits, is_carried, paged_request, read_block,
    read_paged, read_plain,
};
use pm_table::address_ok;

// The bytes 00h to 1Fh, which are as many as a block has at most.
#[rattlefmt::skip]
static MOST: [u8; 32] = [
    0x00, 0x01, 0x02, 0x03, 0x04, 0x05, 0x06, 0x07, 0x08, 0x09, 0x0A, 0x0B, 0x0C, 0x0D, 0x0E, 0x0F,
    0x10, 0x11, 0x12, 0x13, 0x14, 0x15, 0x16, 0x17, 0x18, 0x19, 0x1A, 0x1B, 0x1C, 0x1D, 0x1E, 0x1F,
];

// They, as a block of 9Eh.
#[rattlefmt::skip]
static MOST_BLOCK: [u8; 35] = [
    0xB1, 0x20,
    0x00, 0x01, 0x02, 0x03, 0x04, 0x05, 0x06, 0x07, 0x08, 0x09, 0x0A, 0x0B, 0x0C, 0x0D, 0x0E, 0x0F,
    0x10, 0x11, 0x12, 0x13, 0x14, 0x15, 0x16, 0x17, 0x18, 0x19, 0x1A, 0x1B, 0x1C, 0x1D, 0x1E, 0x1F,
    0x94,
];

// They, as a plain answer of D0h.
#[rattlefmt::skip]
static MOST_PLAIN: [u8; 34] = [
    0xB1,
    0x00, 0x01, 0x02, 0x03, 0x04, 0x05, 0x06, 0x07, 0x08, 0x09, 0x0A, 0x0B, 0x0C, 0x0D, 0x0E, 0x0F,
    0x10, 0x11, 0x12, 0x13, 0x14, 0x15, 0x16, 0x17, 0x18, 0x19, 0x1A, 0x1B, 0x1C, 0x1D, 0x1E, 0x1F,
    0x39,
];

// One byte more, with its PEC.
#[rattlefmt::skip]
static TOO_MANY: [u8; 36] = [
    0xB1, 0x21,
    0x00, 0x01, 0x02, 0x03, 0x04, 0x05, 0x06, 0x07, 0x08, 0x09, 0x0A, 0x0B, 0x0C, 0x0D, 0x0E, 0x0F,
    0x10, 0x11, 0x12, 0x13, 0x14, 0x15, 0x16, 0x17, 0x18, 0x19, 0x1A, 0x1B, 0x1C, 0x1D, 0x1E, 0x1F,
    0x20, 0x51,
];

type Payload = Result<&'static [u8], FrameFault>;

// The code, what came back from 58h, and the payload or the first fault. MFR_ID (99h) is `LTC`.
#[rattlefmt::skip]
static BLOCKS: [(u8, &[u8], Payload); 19] = [
    (0x99, &[0xB1, 0x03, 0x4C, 0x54, 0x43, 0x9F], Ok(b"LTC")),
    (0x9A, &[0xB1, 0x00, 0xEC], Ok(&[])), (0x99, &[], Err(NotOurs)),
    (0x99, &[0xB0, 0x03, 0x4C, 0x54, 0x43, 0x9F], Err(NotOurs)),
    (0x99, &[0x9F, 0x03, 0x4C, 0x54, 0x43, 0x9F], Err(NotOurs)),
    (0x99, &[0xB1], Err(Short(1))), (0x9A, &[0xB1, 0x00], Err(Short(2))),
    (0x99, &[0xB1, 0x03, 0x4C, 0x54, 0x43], Err(Short(5))),
    (0x99, &[0xB1, 0x04, 0x4C, 0x54, 0x43, 0x9F], Err(Short(6))),
    (0x99, &[0xB1, 0x03, 0x4C, 0x54, 0x43, 0x9F, 0x00], Err(Long(6))),
    (0x99, &[0xB1, 0x02, 0x4C, 0x54, 0x43, 0x9F], Err(Long(5))),
    (0x9E, &[0xB1, 0x21], Err(WrongCount(1))),
    (0x99, &[0xB1, 0xFF, 0xFF, 0xFF, 0xFF, 0xFF], Err(WrongCount(1))),
    // another PEC, that of nothing but the answer, that from the code on, that of another code's, and changed bytes
    (0x99, &[0xB1, 0x03, 0x4C, 0x54, 0x43, 0x9E], Err(WrongPec(5))),
    (0x99, &[0xB1, 0x03, 0x4C, 0x54, 0x43, 0x73], Err(WrongPec(5))),
    (0x99, &[0xB1, 0x03, 0x4C, 0x54, 0x43, 0x67], Err(WrongPec(5))),
    (0x9A, &[0xB1, 0x03, 0x4C, 0x54, 0x43, 0x9F], Err(WrongPec(5))),
    (0x99, &[0xB1, 0x03, 0x4C, 0x54, 0x42, 0x9F], Err(WrongPec(5))),
    (0x9A, &[0xB1, 0x00, 0x00], Err(WrongPec(2))),
];

// The code, how many bytes were asked for, what came back from 58h, and the payload or the first fault. STATUS_WORD (79h)
// is 0040h, CAPABILITY (19h) is B0h.
#[rattlefmt::skip]
static PLAIN: [(u8, usize, &[u8], Payload); 14] = [
    (0x79, 2, &[0xB1, 0x40, 0x00, 0x8F], Ok(&[0x40, 0x00])),
    (0x19, 1, &[0xB1, 0xB0, 0x43], Ok(&[0xB0])),
    (0x79, 2, &[], Err(NotOurs)),
    (0x79, 2, &[0xB0, 0x40, 0x00, 0x8F], Err(NotOurs)),
    (0x79, 2, &[0xB1], Err(Short(1))),
    (0x79, 2, &[0xB1, 0x40, 0x00], Err(Short(3))),
    (0x79, 3, &[0xB1, 0x40, 0x00, 0x8F], Err(Short(4))),
    (0x79, 2, &[0xB1, 0x40, 0x00, 0x8F, 0x00], Err(Long(4))),
    (0x79, 1, &[0xB1, 0x40, 0x00, 0x8F], Err(Long(3))),
    (0x79, 2, &[0xB1, 0x40, 0x00, 0x8E], Err(WrongPec(3))),
    (0x79, 2, &[0xB1, 0x40, 0x00, 0xDA], Err(WrongPec(3))),
    (0x78, 2, &[0xB1, 0x40, 0x00, 0x8F], Err(WrongPec(3))),
    (0x79, 2, &[0xB1, 0xFF, 0xFF, 0xFF], Err(WrongPec(3))),
    (0x79, 2, &[0xB1, 0x00, 0x00, 0x00], Err(WrongPec(3))),
];

// What came back for a block read of this code of this device.
fn block(addr: u8, code: u8, got: &'static [u8]) -> Payload
    requires { IsAddress addr }
{
    read_block(addr, code, got)
}

// What came back for a plain read of so many bytes.
fn plain(addr: u8, code: u8, size: usize, got: &'static [u8]) -> Payload
    requires address { IsAddress addr }
    requires most { size ≤ 32 }
{
    read_plain(addr, code, size, got)
}

#[test]
fn a_block_is_read_or_has_its_first_fault(rt: HostRuntime) {
    assert!(rt; address_ok(0x58));
    for (row, (code, got, wanted)) in BLOCKS.iter().enumerate() {
        agrees(&rt, row, &block(0x58, *code, got), wanted);
    }
    agrees(&rt, 19, &block(0x58, 0x9E, &MOST_BLOCK), &Ok(&MOST));
    let found = block(0x58, 0x9E, &TOO_MANY);
    agrees(&rt, 20, &found, &Err(WrongCount(1)));
}

#[test]
fn a_plain_read_is_read_or_has_its_first_fault(rt: HostRuntime) {
    assert!(rt; address_ok(0x58));
    assert!(rt; address_ok(0x4F));
    for (row, (code, size, got, wanted)) in PLAIN.iter().enumerate() {
        let size = *size;
        assert!(rt; size <= MOST_READ);
        agrees(&rt, row, &plain(0x58, *code, size, got), wanted);
    }
    compare! { &rt;
        14, plain(0x58, 0xD0, 32, &MOST_PLAIN) => Ok(&MOST);
        // READ_VOUT of 4Fh
        15, plain(0x4F, 0x8B, 2, &[0x9F, 0xCD, 0x34, 0x2A]) => Ok(&[0xCD, 0x34]);
        16, code_request(0x58, 0x99) => [0xB0, 0x99];
        17, code_request(0x4F, 0x8B) => [0x9E, 0x8B];
    }
}

// The page, the code, the size that was asked for, what came back from 58h, and the payload or the first fault. VOUT_OV_FAULT_LIMIT
// (40h) of output 0 is 3.8 V, STATUS_VOUT (7Ah) of output 1 has VOUT_UV_FAULT, MFR_ID (99h) is `LTC`.
#[rattlefmt::skip]
static PAGED: [(u8, u8, Option<usize>, &[u8], Payload); 18] = [
    (0, 0x40, Some(2), &[0xB1, 0x02, 0xCD, 0x3C, 0x4F], Ok(&[0xCD, 0x3C])),
    (1, 0x7A, Some(1), &[0xB1, 0x01, 0x10, 0x50], Ok(&[0x10])),
    (0, 0x99, None, &[0xB1, 0x03, 0x4C, 0x54, 0x43, 0x6D], Ok(b"LTC")),
    (0, 0x99, None, &[0xB1, 0x00, 0x03], Ok(&[])),
    (0, 0x40, Some(2), &[], Err(NotOurs)),
    (0, 0x40, Some(2), &[0xB0, 0x02, 0xCD, 0x3C, 0x4F], Err(NotOurs)),
    (0, 0x40, Some(2), &[0xB1], Err(Short(1))),
    (0, 0x40, Some(2), &[0xB1, 0x02], Err(Short(2))),
    (0, 0x40, Some(2), &[0xB1, 0x02, 0xCD, 0x3C], Err(Short(4))),
    (0, 0x40, Some(2), &[0xB1, 0x02, 0xCD, 0x3C, 0x4F, 0x00], Err(Long(5))),
    (0, 0x40, Some(1), &[0xB1, 0x02, 0xCD, 0x3C, 0x4F], Err(WrongCount(1))),
    (0, 0x40, Some(3), &[0xB1, 0x02, 0xCD, 0x3C, 0x4F], Err(WrongCount(1))),
    (0, 0x99, None, &[0xB1, 0x21], Err(WrongCount(1))),
    (0, 0x40, Some(2), &[0xB1, 0xFF, 0xFF, 0xFF, 0xFF], Err(WrongCount(1))),
    (1, 0x40, Some(2), &[0xB1, 0x02, 0xCD, 0x3C, 0x4F], Err(WrongPec(4))),
    (0, 0x44, Some(2), &[0xB1, 0x02, 0xCD, 0x3C, 0x4F], Err(WrongPec(4))),
    (0, 0x40, Some(2), &[0xB1, 0x02, 0xCD, 0x3D, 0x4F], Err(WrongPec(4))),
    (0, 0x40, Some(2), &[0xB1, 0x02, 0xCD, 0x3C, 0xE8], Err(WrongPec(4))),
];

// The payload or the first fault of a read by PAGE_PLUS.
fn paged<'a>(page: u8, code: u8, size: Option<usize>, got: &'a [u8]) -> Result<&'a [u8], FrameFault>
    requires carried { is_carried code ≡ true }
    requires most { IfSome size (λ n. n ≤ 32) }
{
    read_paged(0x58, page, code, size, got)
}

#[test]
fn a_read_by_page_plus_is_read_or_has_its_first_fault(rt: HostRuntime) {
    for (row, (page, code, size, got, wanted)) in PAGED.iter().enumerate() {
        assert!(rt; is_carried(*code));
        let size = *size;
        if let Some(n) = size {
            assert!(rt; n <= MOST_READ);
        }
        agrees(&rt, row, &paged(*page, *code, size, got), wanted);
    }
    compare! { &rt, 18; paged_request(0x58, 1, 0x40) => [0xB0, 0x06, 0x02, 0x01, 0x40] }
}

// The codes that PAGE_PLUS doesn't carry (PMBus 1.3 Part II): PAGE, PAGE_PLUS_WRITE, PAGE_PLUS_READ; and COEFFICIENTS, by this
// project's own choice. Beside them codes that it carries.
#[rattlefmt::skip]
static CARRIED: [(u8, bool); 10] = [
    (0x00, false), (0x05, false), (0x06, false), (0x30, false), (0x01, true), (0x04, true),
    (0x07, true), (0x40, true), (0x79, true), (0xFF, true),
];

#[test]
fn page_plus_carries_all_codes_but_four(rt: HostRuntime) {
    for (row, (code, wanted)) in CARRIED.iter().enumerate() {
        agrees(&rt, row, &is_carried(*code), wanted);
    }
}

// The read of VOUT_COMMAND of output 0, that of VOUT_MARGIN_LOW of output 1, which shares its PEC, and that of
// VOUT_MARGIN_HIGH of output 0, which doesn't; and the fault of one answer to the first.
#[rattlefmt::skip]
static LATE: [(Message, Option<FrameFault>); 3] = [
    (Message::PagePlusRead { page: 0, code: 0x21 }, None),
    (Message::PagePlusRead { page: 1, code: 0x26 }, None),
    (Message::PagePlusRead { page: 0, code: 0x25 }, Some(WrongPec(4))),
];

#[test]
fn a_late_answer_passes_where_two_requests_share_their_code(rt: HostRuntime) {
    assert!(rt; address_ok(0x58));
    for (row, (request, wanted)) in LATE.iter().enumerate() {
        assert!(rt; request.is_read() && fits(request));
        let found = answer_fault(0x58, request, &[0xB1, 0x02, 0xCD, 0x34, 0xB9]);
        agrees(&rt, row, &found, wanted);
    }
}
