//! Frames that are made from their bytes after the address byte, with a PEC found bit by bit.

ghost use Rattle.std.specs.Prelude.{◌≡◌, true};
ghost use Rattle.pm_table.specs.Address.{IsAddress};
ghost use Rattle.pm_frame.specs.Layout.{fits_layout, is_read_message};

use crate::checks::agrees;
use pm_frame::{Frame, FrameFault, Message, read_answer, read_request, read_write, write_part};
use std::process::Abort;

/// The addresses that rows are tried at, the ends of the range among them.
pub(crate) static ADDRESSES: [u8; 3] = [0x08, 0x58, 0x77];

/// What stands after the bytes of a row.
#[derive(Clone, Copy)]
pub(crate) enum Ends {
    /// Nothing.
    Bare,
    /// Their PEC.
    Pec,
    /// Their PEC with its last bit changed.
    OtherPec,
}

/// The frame of this first byte and these further ones, after a message with this PEC.
pub(crate) fn framed(rt: &impl Abort, before: u8, first: u8, bytes: &[u8], ends: Ends) -> Frame {
    let mut frame = Frame::new();
    assert!(rt; frame.try_push(first).is_ok());
    for byte in bytes {
        assert!(rt; frame.try_push(*byte).is_ok());
    }
    let code = slow_pec(before, frame.as_slice());
    match ends {
        Ends::Bare => {}
        Ends::Pec => assert!(rt; frame.try_push(code).is_ok()),
        Ends::OtherPec => assert!(rt; frame.try_push(code ^ 1).is_ok()),
    }
    frame
}

/// The PEC bit by bit, carried on from that of what came before.
pub(crate) fn slow_pec(before: u8, bytes: &[u8]) -> u8 {
    let mut register = before;
    for byte in bytes {
        register ^= *byte;
        for _ in 0..8 {
            let up = register << 1;
            register = if register < 0x80 { up } else { up ^ 0x07 };
        }
    }
    register
}

/// Fails if the fault of a row isn't the one that is wanted.
pub(crate) fn fails(rt: &impl Abort, row: usize, found: Option<FrameFault>, wanted: FrameFault) {
    agrees(rt, row, &found, &Some(wanted));
}

// Calls without the long contracts of what they call: the rows need nothing of these, and no proof carries
// them through its loops.

/// The fault of a write.
pub(crate) fn write_fault(addr: u8, bytes: &[u8]) -> Option<FrameFault>
    requires { IsAddress addr }
{
    read_write(addr, bytes).err()
}

/// The fault of a request.
pub(crate) fn request_fault(addr: u8, bytes: &[u8]) -> Option<FrameFault>
    requires { IsAddress addr }
{
    read_request(addr, bytes).err()
}

/// The fault of an answer.
pub(crate) fn answer_fault(addr: u8, request: &Message, bytes: &[u8]) -> Option<FrameFault>
    requires address { IsAddress addr }
    requires read { is_read_message request.now ≡ true }
    requires fits { fits_layout request.now ≡ true }
{
    read_answer(addr, request, bytes).err()
}

/// What is put on the wire.
pub(crate) fn sent(addr: u8, message: &Message) -> Frame
    requires address { IsAddress addr }
    requires fits { fits_layout message.now ≡ true }
{
    write_part(addr, message)
}
