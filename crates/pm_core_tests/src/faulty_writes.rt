//! What is wrong with a write: each row has the bytes after the address byte and the first fault of them. A
//! row has both faults if two can stand in the same bytes. Each row is tried at the addresses 08h, 58h and
//! 77h, and with another first byte, which is then the first fault.

ghost use Rattle.pm_table.specs.Address.{IsAddress};

use crate::checks::agrees;
use crate::framing::Ends::{Bare, OtherPec, Pec};
use crate::framing::{ADDRESSES, Ends, fails, framed, request_fault, write_fault};
use pm_frame::FrameFault;
use pm_frame::FrameFault::{
    Long, Nested, NotOurs, Short, UnknownCode, WrongCount, WrongDirection, WrongPec,
};
use pm_table::address_ok;
use std::alloc::{AllocError, Global};
use std::process::Abort;

#[rattlefmt::skip]
static FAULTY_WRITES: [(&[u8], Ends, FrameFault); 64] = [
    // lengths of a plain code that is written
    (&[], Bare, Short(1)), (&[0x03], Bare, Short(2)), (&[0x21, 0xCD, 0x34], Bare, Short(4)),
    (&[0x21, 0xCD], Pec, Short(4)), (&[0x10], Pec, Short(3)), (&[0x03, 0x46], Pec, Long(3)),
    (&[0x15], Bare, Short(2)), (&[0x16, 0x46], Pec, Long(3)), (&[0x10, 0x80, 0x34], Pec, Long(4)),
    (&[0x21, 0xCD, 0x34, 0x00], Pec, Long(5)), (&[0x21, 0xCD, 0x34, 0x00], OtherPec, Long(5)),
    // the length of PAGE_PLUS_WRITE before its count, its PEC and its code
    (&[0x05], Bare, Short(2)), (&[0x05, 0x02], Bare, Short(3)),
    (&[0x05, 0x04, 0x00, 0x21, 0xCD, 0x34], Bare, Short(7)),
    (&[0x05, 0x04, 0x00, 0x21, 0xCD], Pec, Short(7)),
    (&[0x05, 0x03, 0x00, 0x21], Bare, Short(5)), (&[0x05, 0x01, 0x00], Bare, Short(4)),
    (&[0x05, 0x02, 0x00, 0x06], Bare, Short(5)), (&[0x05, 0x02, 0x00, 0x99], Bare, Short(5)),
    (&[0x05, 0x02, 0x00, 0x78], Bare, Short(5)),
    (&[0x05, 0x04, 0x00, 0x21, 0xCD, 0x34, 0x00], Pec, Long(8)),
    (&[0x05, 0x03, 0x00, 0x21, 0xCD, 0x34], Pec, Long(7)),
    (&[0x05, 0x00, 0x00, 0x00], Pec, Long(4)),
    (&[0x05, 0x02, 0x00, 0x06, 0x00], Pec, Long(6)),
    (&[0x05, 0x02, 0x00, 0x99, 0x00], Pec, Long(6)),
    (&[0x05, 0x02, 0x00, 0x78, 0x00], Pec, Long(6)),
    // its count before its PEC
    (&[0x05, 0x03, 0x00, 0x21, 0xCD], Pec, WrongCount(2)),
    (&[0x05, 0x03, 0x00, 0x21, 0xCD], OtherPec, WrongCount(2)),
    (&[0x05, 0x05, 0x00, 0x21, 0xCD, 0x34, 0x00], Pec, WrongCount(2)),
    (&[0x05, 0x03, 0x00, 0x03, 0x00], Pec, WrongCount(2)),
    (&[0x05, 0x01, 0x00], Pec, WrongCount(2)), (&[0x05, 0x01, 0x00], OtherPec, WrongCount(2)),
    (&[0x05, 0x00], Pec, WrongCount(2)),
    // any other code before the PEC
    (&[0x06], Bare, Short(2)), (&[0x20], Bare, Short(2)), (&[0x99], Bare, Short(2)),
    // the PEC before the code
    (&[0x03], OtherPec, WrongPec(2)), (&[0x10, 0x80], OtherPec, WrongPec(3)),
    (&[0x05, 0x04, 0x00, 0x21, 0xCD, 0x34], OtherPec, WrongPec(7)),
    (&[0x78], OtherPec, WrongPec(2)), (&[0x99], OtherPec, WrongPec(2)),
    (&[0x05, 0x02, 0x00, 0x06], OtherPec, WrongPec(5)),
    (&[0x05, 0x02, 0x00, 0x99], OtherPec, WrongPec(5)),
    (&[0x05, 0x02, 0x00, 0x78], OtherPec, WrongPec(5)),
    // the code of a plain packet
    (&[0x78], Pec, WrongDirection(1)), (&[0x06], Pec, WrongDirection(1)),
    (&[0x30], Pec, WrongDirection(1)), (&[0x20, 0x14], Pec, WrongDirection(1)),
    (&[0x79, 0x08], Pec, WrongDirection(1)), (&[0x99], Pec, UnknownCode(1)),
    (&[0x11], Pec, UnknownCode(1)), (&[0x17], Pec, UnknownCode(1)),
    (&[0x99, 0x00, 0x00], Pec, UnknownCode(1)),
    // the carried code, whatever the count, if it is not carried, known or written
    (&[0x05, 0x02, 0x00, 0x78], Pec, WrongDirection(4)),
    (&[0x05, 0x03, 0x00, 0x20, 0x14], Pec, WrongDirection(4)),
    (&[0x05, 0x04, 0x00, 0x20, 0x14, 0x00], Pec, WrongDirection(4)),
    (&[0x05, 0x02, 0x00, 0x99], Pec, UnknownCode(4)),
    (&[0x05, 0x04, 0x00, 0x99, 0x00, 0x00], Pec, UnknownCode(4)),
    (&[0x05, 0x02, 0x00, 0x06], Pec, Nested(4)), (&[0x05, 0x02, 0x00, 0x05], Pec, Nested(4)),
    (&[0x05, 0x03, 0x00, 0x05, 0x00], Pec, Nested(4)),
    (&[0x05, 0x02, 0x00, 0x30], Pec, Nested(4)),
    (&[0x05, 0x03, 0x00, 0x00, 0x01], Pec, Nested(4)),
    (&[0x05, 0x02, 0x00, 0x00], Pec, Nested(4)),
];

// The fault of a write whose first byte is this one.
fn write_from(rt: &impl Abort, addr: u8, first: u8, bytes: &[u8], ends: Ends) -> Option<FrameFault>
    requires { IsAddress addr }
{
    let frame = framed(rt, 0, first, bytes, ends);
    write_fault(addr, frame.as_slice())
}

// A row at an address, with its first byte and with another one.
fn write_fails(rt: &impl Abort, addr: u8, row: usize, bytes: &[u8], ends: Ends, fault: FrameFault)
    requires { IsAddress addr }
{
    let ours = addr * 2;
    fails(rt, row, write_from(rt, addr, ours, bytes, ends), fault);
    fails(
        rt,
        row,
        write_from(rt, addr, ours + 1, bytes, ends),
        NotOurs,
    );
    fails(
        rt,
        row,
        write_from(rt, addr, addr ^ 1, bytes, ends),
        NotOurs,
    );
}

// Each row at an address, and no byte.
fn writes_fail(rt: &impl Abort, addr: u8) {
    assert!(rt; address_ok(addr));
    for (row, (bytes, ends, fault)) in FAULTY_WRITES.iter().enumerate() {
        write_fails(rt, addr, row, bytes, *ends, *fault);
    }
    fails(rt, FAULTY_WRITES.len(), write_fault(addr, &[]), NotOurs);
}

#[test]
fn a_faulty_write_has_its_first_fault(rt: HostRuntime) {
    for addr in &ADDRESSES {
        writes_fail(&rt, *addr);
    }
}

// A count below 2 leaves no room for a code, so the PEC, which is right, stands at its place. It is
// a code that isn't carried, one that isn't written and one that isn't in the table.
static COUNTS_BEFORE_CODES: [&[u8]; 3] = [
    &[0xB0, 0x05, 0x01, 0x74, 0x06],
    &[0xB0, 0x05, 0x01, 0x66, 0x78],
    &[0xB0, 0x05, 0x01, 0x9F, 0x99],
];

#[test]
fn a_count_below_two_comes_before_the_code_at_its_place(rt: HostRuntime) {
    for (row, bytes) in COUNTS_BEFORE_CODES.iter().enumerate() {
        let found = write_fault(0x58, bytes);
        fails(&rt, row, found, WrongCount(2));
    }
}

// The bytes of `front`, and after them so many of one value.
fn lengthened(alloc: Global, front: &[u8], byte: u8, count: usize) -> Result<Vec<u8>, AllocError> {
    let mut bytes = front.to_vec(alloc)?;
    let rest = vec![in alloc; byte; count]?;
    bytes.extend_from_slice(&rest)?;
    Ok(bytes)
}

// The zeros after the first five bytes, and the fault.
static LENGTHS: [(usize, FrameFault); 3] = [
    (253, Short(258)),
    (254, WrongCount(2)),
    (255, Long(259)),
];

#[test]
fn the_length_of_a_frame_is_that_of_its_count_up_to_255(rt: HostRuntime) -> Result<(), AllocError> {
    for (row, (zeros, fault)) in LENGTHS.iter().enumerate() {
        let bytes = lengthened(rt.alloc(), &[0xB0, 0x05, 0xFF, 0x00, 0x21], 0, *zeros)?;
        agrees(&rt, row, &bytes.len(), &(*zeros).saturating_add(5));
        fails(&rt, row, write_fault(0x58, &bytes), *fault);
    }
    Ok(())
}

// The first two bytes, and the faults as a write and as a request.
#[rattlefmt::skip]
static MILLIONS: [(&[u8], FrameFault, FrameFault); 5] = [
    (&[0x05, 0x05], NotOurs, NotOurs),
    (&[0xB0, 0x05], Long(9), WrongDirection(1)),
    (&[0xB0, 0x21], Long(5), Long(2)),
    (&[0xB0, 0x06], WrongPec(999_999), Long(5)),
    (&[0xB0, 0x99], WrongPec(999_999), UnknownCode(1)),
];

#[test]
fn a_million_bytes_are_read(rt: HostRuntime) -> Result<(), AllocError> {
    for (row, (front, in_write, in_request)) in MILLIONS.iter().enumerate() {
        let bytes = lengthened(rt.alloc(), front, 0x05, 999_998)?;
        fails(&rt, row, write_fault(0x58, &bytes), *in_write);
        fails(&rt, row, request_fault(0x58, &bytes), *in_request);
    }
    Ok(())
}
