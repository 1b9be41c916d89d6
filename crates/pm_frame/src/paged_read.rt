//! A read by PAGE_PLUS of any command code that it carries: a byte, a word, or a block of up to 32 bytes. It is no
//! [`Message`](crate::Message): the code needn't stand in the command table.

ghost use Rattle.std.specs.Prelude.{◌≡◌, ◌≤◌, List, ℕ, length, true, IfOk, IfSome, OnOk, IsOkAnd};
ghost use Rattle.std.specs.Result.{result_err};
ghost use Rattle.pm_table.specs.Address.{IsAddress};
ghost use Rattle.pm_frame.specs.BlockRead.{block_payload};
ghost use Rattle.pm_frame.specs.Layout.{is_carried};
ghost use Rattle.pm_frame.specs.PagedRead.{is_other_count, paged_fault, paged_request as spec_paged_request, IsPagedAnswer};
ghost use Rattle.pm_frame.specs.PlainRead.{most_read};

use crate::fault::FrameFault;
use crate::packet_error_code::pec;
use crate::places::ANSWER_COUNT;
use crate::plain_read::MOST_READ;
use crate::rules;
use crate::sent::{read_address, write_address};
use pm_table::Code;

/// Whether PAGE_PLUS carries the code: each but PAGE, PAGE_PLUS_WRITE, PAGE_PLUS_READ and COEFFICIENTS.
pub fn is_carried(code: u8) -> bool
    ensures { result ≡ is_carried code }
{
    !matches!(
        Code(code),
        Code::PAGE | Code::PAGE_PLUS_WRITE | Code::PAGE_PLUS_READ | Code::COEFFICIENTS
    )
}

/// What the host sends before the repeated start to read this code of an output of the device of this address. PAGE_PLUS has to
/// carry the code: [`is_carried`] asks.
pub fn paged_request(addr: u8, page: u8, code: u8) -> [u8; 5]
    requires address { IsAddress addr }
    requires carried { is_carried code ≡ true }
    ensures { result ≡ spec_paged_request addr page code }
{
    [write_address(addr), Code::PAGE_PLUS_READ.0, 2, page, code]
}

/// Reads what came back after the repeated start of [`paged_request`]: the address, a count from 0 to [`MOST_READ`], so many
/// bytes, and the PEC, so count + 3 bytes. The `size` of a byte is 1, that of a word 2; `None` takes a block of any count. `Ok`
/// is the payload. Takes exactly this layout, for bytes of any number; `Err` is the first fault:
///
/// 1. F1: no byte, or the first one isn't the address with the read bit. F2: no count.
/// 2. F4: the count is above [`MOST_READ`], or isn't the `size`, however many bytes follow.
/// 3. F2, F3: fewer or more bytes than the count says.
/// 4. F5: the last byte isn't the PEC of the request's bytes followed by the bytes before it.
///
/// VOUT_OV_FAULT_LIMIT (40h) of output 0 of the device at 58h, which is 3.8 V in ULINEAR16 with the exponent -12:
///
/// | sent | came |
/// |---|---|
/// | B0 06 02 00 40 | B1 02 CD 3C 4F |
pub fn read_paged<'a>(
    addr: u8,
    page: u8,
    code: u8,
    size: Option<usize>,
    got: &'a [u8],
) -> Result<&'a [u8], FrameFault>
    requires address { IsAddress addr }
    requires carried { is_carried code ≡ true }
    requires most { IfSome size (λ n. n ≤ most_read) }
    ensures payload { IfOk result (λ payload. IsPagedAnswer addr page code size payload.now got.entry.now) }
    ensures places { IfOk result (λ payload. payload.now ≡ block_payload got.entry.now) }
    ensures fault { result_err result ≡ paged_fault addr page code size got.entry.now }
    ensures accepts { (payload : List ℕ) → IsPagedAnswer addr page code size payload got.entry.now →
        IsOkAnd result (λ found. found.now ≡ payload) }
{
    paged_checked(addr, page, code, size, got)?;
    Ok(&got[2..got.len() - 1])
}

// The faults of the answer to a paged read, in their order.
#[tactic(auto, unfolding(crate::specs::PagedRead::paged_fault))]
fn paged_checked(
    addr: u8,
    page: u8,
    code: u8,
    size: Option<usize>,
    got: &[u8],
) -> Result<(), FrameFault>
    requires address { IsAddress addr }
    requires carried { is_carried code ≡ true }
    ensures fault { result_err result ≡ paged_fault addr page code size got.now }
    ensures three { OnOk result (3 ≤ length got.now) }
{
    rules::opening(read_address(addr), got)?;
    let count = usize::from(got[ANSWER_COUNT]);
    if is_other_count(size, count) {
        return Err(FrameFault::WrongCount(ANSWER_COUNT));
    }
    rules::length(count + 3, got)?;
    rules::error_code(pec(&paged_request(addr, page, code)), got)
}

// Whether a count isn't the one that was asked for, or is above the most.
fn is_other_count(size: Option<usize>, count: usize) -> bool
    ensures { result ≡ is_other_count size count }
{
    match size {
        Some(size) => count != size || MOST_READ < count,
        None => MOST_READ < count,
    }
}
