//! A read of any command code and any number of bytes, which is no [`Message`](crate::Message): the code needn't stand in
//! the command table.

ghost use Rattle.std.specs.Prelude.{◌≡◌, ◌≤◌, ◌+◌, List, ℕ, length, IfOk, OnOk, IsOkAnd};
ghost use Rattle.std.specs.Result.{result_err};
ghost use Rattle.pm_table.specs.Address.{IsAddress};
ghost use Rattle.pm_frame.specs.PlainRead.{code_request as spec_code_request, most_read, IsPlainAnswer, plain_payload, plain_read_fault};

use crate::fault::FrameFault;
use crate::packet_error_code::pec;
use crate::rules;
use crate::sent::{read_address, write_address};

/// The most bytes of payload that a block read and a plain read take.
pub const MOST_READ: usize = 32;

/// What the host sends before the repeated start to read this code of the device of this address, by a plain read or by a
/// block read. The code may be any byte.
pub fn code_request(addr: u8, code: u8) -> [u8; 2]
    requires { IsAddress addr }
    ensures { result ≡ spec_code_request addr code }
{
    [write_address(addr), code]
}

/// Reads what came back after the repeated start of [`code_request`] for `size` bytes of payload, at most [`MOST_READ`].
/// `Ok` is the payload. Takes exactly this layout, for bytes of any number; `Err` is the first fault:
///
/// 1. F1: no byte, or the first one isn't the address with the read bit.
/// 2. F2, F3: fewer or more bytes than the address, the payload and the PEC are.
/// 3. F5: the last byte isn't the PEC of the request's bytes followed by the bytes before it.
///
/// STATUS_WORD (79h) of the device at 58h, read as two bytes:
///
/// | sent | came |
/// |---|---|
/// | B0 79 | B1 40 00 8F |
pub fn read_plain<'a>(
    addr: u8,
    code: u8,
    size: usize,
    got: &'a [u8],
) -> Result<&'a [u8], FrameFault>
    requires address { IsAddress addr }
    requires most { size ≤ most_read }
    ensures payload { IfOk result (λ payload. IsPlainAnswer addr code size payload.now got.entry.now) }
    ensures places { IfOk result (λ payload. payload.now ≡ plain_payload got.entry.now) }
    ensures fault { result_err result ≡ plain_read_fault addr code size got.entry.now }
    ensures accepts { (payload : List ℕ) → IsPlainAnswer addr code size payload got.entry.now →
        IsOkAnd result (λ found. found.now ≡ payload) }
{
    plain_checked(addr, code, size, got)?;
    Ok(&got[1..got.len() - 1])
}

// The faults of the answer to a plain read, in their order.
#[tactic(auto, unfolding(crate::specs::PlainRead::plain_read_fault))]
fn plain_checked(addr: u8, code: u8, size: usize, got: &[u8]) -> Result<(), FrameFault>
    requires address { IsAddress addr }
    requires most { size ≤ most_read }
    ensures fault { result_err result ≡ plain_read_fault addr code size got.now }
    ensures whole { OnOk result (length got.now ≡ size + 2) }
{
    rules::address(read_address(addr), got)?;
    rules::length(size + 2, got)?;
    rules::error_code(pec(&code_request(addr, code)), got)
}
