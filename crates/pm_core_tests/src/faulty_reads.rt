//! What is wrong with a request or an answer: each row has the bytes after the address byte and the first
//! fault of them. A row has both faults if two can stand in the same bytes. Each row is tried at the
//! addresses 08h, 58h and 77h, and with another first byte, which is then the first fault.

ghost use Rattle.std.specs.Prelude.{◌≡◌, true};
ghost use Rattle.pm_table.specs.Address.{IsAddress};
ghost use Rattle.pm_frame.specs.Layout.{fits_layout, is_read_message};

use crate::framing::Ends::{Bare, OtherPec, Pec};
use crate::framing::{ADDRESSES, Ends, answer_fault, fails, framed, request_fault, sent, slow_pec};
use pm_frame::FrameFault::{
    Long, Nested, NotOurs, Short, UnknownCode, WrongCount, WrongDirection, WrongPec,
};
use pm_frame::{FrameFault, Message, fits};
use pm_table::address_ok;
use std::alloc::{AllocError, Global};
use std::process::Abort;

#[rattlefmt::skip]
static FAULTY_REQUESTS: [(&[u8], FrameFault); 32] = [
    (&[], Short(1)),
    // PAGE_PLUS_READ and COEFFICIENTS: the length, the count, the code
    (&[0x06], Short(2)), (&[0x30], Short(2)), (&[0x06, 0x02, 0x00], Short(4)),
    (&[0x30, 0x02, 0x21], Short(4)), (&[0x06, 0x03, 0x00], Short(4)),
    (&[0x06, 0x02, 0x00, 0x21, 0x00], Long(5)), (&[0x30, 0x02, 0x21, 0x00, 0x00], Long(5)),
    (&[0x06, 0x03, 0x00, 0x21, 0x00], Long(5)), (&[0x30, 0x01, 0x21, 0x00, 0x00], Long(5)),
    (&[0x06, 0x02, 0x00, 0x06, 0x00], Long(5)), (&[0x06, 0x02, 0x00, 0x99, 0x00], Long(5)),
    (&[0x06, 0x02, 0x00, 0x03, 0x00], Long(5)), (&[0x06, 0x03, 0x00, 0x21], WrongCount(2)),
    (&[0x30, 0x01, 0x21, 0x00], WrongCount(2)), (&[0x06, 0x03, 0x00, 0x06], WrongCount(2)),
    (&[0x06, 0x01, 0x00, 0x99], WrongCount(2)), (&[0x06, 0x03, 0x00, 0x03], WrongCount(2)),
    (&[0x06, 0x02, 0x00, 0x00], Nested(4)), (&[0x06, 0x02, 0x00, 0x05], Nested(4)),
    (&[0x06, 0x02, 0x00, 0x06], Nested(4)), (&[0x06, 0x02, 0x00, 0x30], Nested(4)),
    (&[0x06, 0x02, 0x00, 0x99], UnknownCode(4)), (&[0x06, 0x02, 0x00, 0x03], WrongDirection(4)),
    // every other code: the code before the length
    (&[0x99], UnknownCode(1)), (&[0x99, 0x00], UnknownCode(1)), (&[0x03], WrongDirection(1)),
    (&[0x03, 0x46], WrongDirection(1)),
    (&[0x05, 0x04, 0x00, 0x21, 0xCD, 0x34, 0x5A], WrongDirection(1)),
    (&[0x21, 0x00], Long(2)), (&[0x20, 0x14, 0x28], Long(2)), (&[0x10, 0x80, 0x34], Long(2)),
];

// The fault of a request whose first byte is this one.
fn request_from(rt: &impl Abort, addr: u8, first: u8, bytes: &[u8]) -> Option<FrameFault>
    requires { IsAddress addr }
{
    let frame = framed(rt, 0, first, bytes, Bare);
    request_fault(addr, frame.as_slice())
}

// A row at an address, with its first byte and with another one.
fn request_fails(rt: &impl Abort, addr: u8, row: usize, bytes: &[u8], fault: FrameFault)
    requires { IsAddress addr }
{
    let ours = addr * 2;
    fails(rt, row, request_from(rt, addr, ours, bytes), fault);
    fails(rt, row, request_from(rt, addr, ours + 1, bytes), NotOurs);
    fails(rt, row, request_from(rt, addr, addr ^ 1, bytes), NotOurs);
}

// Each row at an address, and no byte.
fn requests_fail(rt: &impl Abort, addr: u8) {
    assert!(rt; address_ok(addr));
    for (row, (bytes, fault)) in FAULTY_REQUESTS.iter().enumerate() {
        request_fails(rt, addr, row, bytes, *fault);
    }
    fails(rt, FAULTY_REQUESTS.len(), request_fault(addr, &[]), NotOurs);
}

#[test]
fn a_faulty_request_has_its_first_fault(rt: HostRuntime) {
    for addr in &ADDRESSES {
        requests_fail(&rt, *addr);
    }
}

const PAGE_PLUS: Message = Message::PagePlusRead {
    page: 0,
    code: 0x21,
};

const PLAIN: Message = Message::ReadCommand { code: 0x20 };

const SLOPES: Message = Message::ReadCoefficients {
    code: 0x21,
    side: 0,
};

// A request, what came back after its first byte, what ends that, and the fault.
type Answer = (Message, &'static [u8], Ends, FrameFault);

#[rattlefmt::skip]
static FAULTY_ANSWERS: [Answer; 19] = [
    // a request with a count: the length, the count, the PEC
    (PAGE_PLUS, &[], Bare, Short(1)), (PAGE_PLUS, &[0x02, 0xCD], Bare, Short(3)),
    (PAGE_PLUS, &[0x02, 0xCD], Pec, Short(4)), (PAGE_PLUS, &[0x03, 0xCD], Pec, Short(4)),
    (PAGE_PLUS, &[0x02, 0xCD, 0x34, 0x00], Pec, Long(5)),
    (PAGE_PLUS, &[0x02, 0xCD, 0x34, 0x00], OtherPec, Long(5)),
    (PAGE_PLUS, &[0x03, 0xCD, 0x34, 0x00], Pec, Long(5)),
    (PAGE_PLUS, &[0x03, 0xCD, 0x34], Pec, WrongCount(1)),
    (PAGE_PLUS, &[0x01, 0xCD, 0x34], OtherPec, WrongCount(1)),
    (PAGE_PLUS, &[0x02, 0xCD, 0x34], OtherPec, WrongPec(4)),
    (SLOPES, &[0x05, 0x01, 0x00, 0x00, 0x00, 0x03], Bare, Short(7)),
    (SLOPES, &[0x05, 0x01, 0x00, 0x00, 0x00, 0x03, 0x00], Pec, Long(8)),
    (SLOPES, &[0x04, 0x01, 0x00, 0x00, 0x00, 0x03], Pec, WrongCount(1)),
    (SLOPES, &[0x05, 0x01, 0x00, 0x00, 0x00, 0x03], OtherPec, WrongPec(7)),
    // a plain request: the length, the PEC
    (PLAIN, &[], Bare, Short(1)), (PLAIN, &[0x14], Bare, Short(2)),
    (PLAIN, &[0x14, 0xED], Pec, Long(3)), (PLAIN, &[0x14, 0xED], OtherPec, Long(3)),
    (PLAIN, &[0x14], OtherPec, WrongPec(2)),
];

// The fault of an answer whose first byte is this one.
fn answer_from(
    rt: &impl Abort,
    addr: u8,
    first: u8,
    request: &Message,
    bytes: &[u8],
    ends: Ends,
) -> Option<FrameFault>
    requires address { IsAddress addr }
    requires read { is_read_message request.now ≡ true }
    requires fits { fits_layout request.now ≡ true }
{
    let before = slow_pec(0, sent(addr, request).as_slice());
    let frame = framed(rt, before, first, bytes, ends);
    answer_fault(addr, request, frame.as_slice())
}

// A row at an address, with this first byte.
fn answer_fails(
    rt: &impl Abort,
    addr: u8,
    first: u8,
    row: usize,
    faulty: &Answer,
    wanted: FrameFault,
)
    requires { IsAddress addr }
{
    let (request, bytes, ends, _) = faulty;
    assert!(rt; request.is_read() && fits(request));
    fails(
        rt,
        row,
        answer_from(rt, addr, first, request, bytes, *ends),
        wanted,
    );
}

// Each row at an address, with its first byte and with another one, and no byte.
fn answers_fail(rt: &impl Abort, addr: u8) {
    assert!(rt; address_ok(addr));
    let ours = addr * 2 + 1;
    for (row, faulty) in FAULTY_ANSWERS.iter().enumerate() {
        answer_fails(rt, addr, ours, row, faulty, faulty.3);
        answer_fails(rt, addr, ours - 1, row, faulty, NotOurs);
        answer_fails(rt, addr, addr ^ 1, row, faulty, NotOurs);
    }
    assert!(rt; PLAIN.is_read() && fits(&PLAIN));
    fails(
        rt,
        FAULTY_ANSWERS.len(),
        answer_fault(addr, &PLAIN, &[]),
        NotOurs,
    );
}

#[test]
fn a_faulty_answer_has_its_first_fault(rt: HostRuntime) {
    for addr in &ADDRESSES {
        answers_fail(&rt, *addr);
    }
}

// The PEC over nothing but the answer's own bytes, and over the request for another page.
static OTHER_PECS: [&[u8]; 2] = [
    &[0xB1, 0x02, 0xCD, 0x34, 0xD0],
    &[0xB1, 0x02, 0xCD, 0x34, 0x90],
];

#[test]
fn the_pec_of_an_answer_covers_the_request(rt: HostRuntime) {
    assert!(rt; PAGE_PLUS.is_read() && fits(&PAGE_PLUS));
    for (row, answer) in OTHER_PECS.iter().enumerate() {
        let found = answer_fault(0x58, &PAGE_PLUS, answer);
        fails(&rt, row, found, WrongPec(4));
    }
}

fn a_million_of(byte: u8, alloc: Global) -> Result<Vec<u8>, AllocError> {
    vec![in alloc; byte; 1_000_000]
}

static MILLIONS: [(Message, FrameFault); 2] = [(PAGE_PLUS, Long(5)), (PLAIN, Long(3))];

#[test]
fn a_million_bytes_are_no_answer(rt: HostRuntime) -> Result<(), AllocError> {
    let bytes = a_million_of(0xB1, rt.alloc())?;
    for (row, (request, fault)) in MILLIONS.iter().enumerate() {
        assert!(rt; request.is_read() && fits(request));
        fails(&rt, row, answer_fault(0x58, request, &bytes), *fault);
    }
    Ok(())
}
