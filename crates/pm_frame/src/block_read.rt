//! The SMBus block read of a command code, which is no [`Message`](crate::Message): the code needn't stand in the command
//! table.

ghost use Rattle.std.specs.Prelude.{◌≡◌, ◌≤◌, List, ℕ, length, IfOk, OnOk, IsOkAnd};
ghost use Rattle.std.specs.Result.{result_err};
ghost use Rattle.pm_table.specs.Address.{IsAddress};
ghost use Rattle.pm_frame.specs.BlockRead.{IsBlockAnswer, block_payload, block_fault};

use crate::fault::FrameFault;
use crate::packet_error_code::pec;
use crate::places::ANSWER_COUNT;
use crate::plain_read::{MOST_READ, code_request};
use crate::rules;
use crate::sent::read_address;

/// Reads what came back after the repeated start of [`code_request`], for a block read: the address, a count from 0 to
/// [`MOST_READ`], so many bytes, and the PEC, so count + 3 bytes. `Ok` is the payload. Takes exactly this layout, for
/// bytes of any number; `Err` is the first fault:
///
/// 1. F1: no byte, or the first one isn't the address with the read bit. F2: no count.
/// 2. F4: the count is above [`MOST_READ`], however many bytes follow.
/// 3. F2, F3: fewer or more bytes than the count says.
/// 4. F5: the last byte isn't the PEC of the request's bytes followed by the bytes before it.
///
/// MFR_ID (99h) of the device at 58h, which is `LTC`:
///
/// | sent | came |
/// |---|---|
/// | B0 99 | B1 03 4C 54 43 9F |
pub fn read_block<'a>(addr: u8, code: u8, got: &'a [u8]) -> Result<&'a [u8], FrameFault>
    requires { IsAddress addr }
    ensures payload { IfOk result (λ payload. IsBlockAnswer addr code payload.now got.entry.now) }
    ensures places { IfOk result (λ payload. payload.now ≡ block_payload got.entry.now) }
    ensures fault { result_err result ≡ block_fault addr code got.entry.now }
    ensures accepts { (payload : List ℕ) → IsBlockAnswer addr code payload got.entry.now →
        IsOkAnd result (λ found. found.now ≡ payload) }
{
    block_checked(addr, code, got)?;
    Ok(&got[2..got.len() - 1])
}

// The faults of the answer to a block read, in their order.
#[tactic(auto, unfolding(crate::specs::BlockRead::block_fault))]
fn block_checked(addr: u8, code: u8, got: &[u8]) -> Result<(), FrameFault>
    requires { IsAddress addr }
    ensures fault { result_err result ≡ block_fault addr code got.now }
    ensures three { OnOk result (3 ≤ length got.now) }
{
    rules::opening(read_address(addr), got)?;
    let count = usize::from(got[ANSWER_COUNT]);
    if count > MOST_READ {
        return Err(FrameFault::WrongCount(ANSWER_COUNT));
    }
    rules::length(count + 3, got)?;
    rules::error_code(pec(&code_request(addr, code)), got)
}
