//! The rules of a packet's bytes, one after another as the faults are ordered. Each one refuses with
//! its fault and nothing else.
ghost use Rattle.pm_table.specs.Codes as command;
ghost use Rattle.pm_frame.specs.Fault as fault;
ghost use Rattle.std.specs.Prelude.{◌≡◌, ◌≢◌, ◌≤◌, ◌++◌, ℕ, List, length, slice_index, OnOk, IfOk};
ghost use Rattle.std.specs.Result.{result_err};
ghost use Rattle.pm_frame.specs.Pec.{pec_of};

use crate::fault::FrameFault;
use crate::packet_error_code::pec_after;
use crate::places::{CARRIED, CODE, COUNT};
use crate::row::Row;
use pm_table::Code;

/// Which way a packet goes, as its code sees it.
#[derive(Clone, Copy)]
pub(crate) enum Direction {
    /// The host writes.
    Write,
    /// The host reads.
    Read,
}

/// F1: the first byte is the one that is wanted.
#[tactic(auto, unfolding(crate::specs::Fault::address_fault))]
pub(crate) fn address(wanted: u8, bytes: &[u8]) -> Result<(), FrameFault>
    ensures fault { result_err result ≡ fault.address_fault wanted bytes.now }
    ensures one { OnOk result (1 ≤ length bytes.now) }
{
    if bytes.first() != Some(&wanted) {
        return Err(FrameFault::NotOurs);
    }
    Ok(())
}

/// F1 and F2: the first byte is the one that is wanted, and a second follows, which is the answer.
#[tactic(auto, unfolding(crate::specs::Fault::opening_fault))]
pub(crate) fn opening(wanted: u8, bytes: &[u8]) -> Result<Code, FrameFault>
    ensures fault { result_err result ≡ fault.opening_fault wanted bytes.now }
    ensures code { IfOk result (λ code. code.0 ≡ slice_index bytes.now 1) }
    ensures two { OnOk result (2 ≤ length bytes.now) }
{
    address(wanted, bytes)?;
    if bytes.len() == 1 {
        return Err(FrameFault::Short(1));
    }
    Ok(Code(bytes[CODE]))
}

/// F2 and F3: there are this many bytes.
#[tactic(auto, unfolding(crate::specs::Fault::length_fault))]
pub(crate) fn length(wanted: usize, bytes: &[u8]) -> Result<(), FrameFault>
    ensures fault { result_err result ≡ fault.length_fault wanted bytes.now }
    ensures whole { OnOk result (length bytes.now ≡ wanted) }
{
    if bytes.len() < wanted {
        return Err(FrameFault::Short(bytes.len()));
    }
    if bytes.len() > wanted {
        return Err(FrameFault::Long(wanted));
    }
    Ok(())
}

/// F2 and F3 of a plain write: it has more than two bytes, and as many as its code asks for if that code is
/// written.
#[tactic(auto, unfolding(crate::specs::Fault::size_fault))]
pub(crate) fn plain_size(row: Row, bytes: &[u8]) -> Result<(), FrameFault>
    requires code { row.code.0 ≡ slice_index bytes.now 1 }
    requires plain { row.code.0 ≢ command.page_plus_write }
    requires two { 2 ≤ length bytes.now }
    ensures fault { result_err result ≡ fault.size_fault bytes.now }
    ensures three { OnOk result (3 ≤ length bytes.now) }
{
    if row.is_plain_write() {
        return length(row.payload_length() + 3, bytes);
    }
    if bytes.len() == 2 {
        return Err(FrameFault::Short(2));
    }
    Ok(())
}

/// F2, F3 and F4 of a PAGE_PLUS_WRITE: it has as many bytes as its count says, and the count is at least 2
/// and, if the carried code is written, the one that this code asks for. The answer is the row of that code.
#[tactic(auto, unfolding(crate::specs::Fault::size_fault, crate::specs::Fault::carried_count_fault))]
pub(crate) fn carried_size(bytes: &[u8]) -> Result<Row, FrameFault>
    requires code { slice_index bytes.now 1 ≡ command.page_plus_write }
    requires two { 2 ≤ length bytes.now }
    ensures fault { result_err result ≡ fault.size_fault bytes.now }
    ensures carried { IfOk result (λ row. row.code.0 ≡ slice_index bytes.now 4) }
    ensures six { OnOk result (6 ≤ length bytes.now) }
{
    if bytes.len() == 2 {
        return Err(FrameFault::Short(2));
    }
    let count = usize::from(bytes[COUNT]);
    length(count + 4, bytes)?;
    if count < 2 {
        return Err(FrameFault::WrongCount(COUNT));
    }
    let row = Row::of(Code(bytes[CARRIED]));
    let is_asked = count == row.payload_length() + 2;
    if row.is_carried() && row.goes(Direction::Write) && !is_asked {
        return Err(FrameFault::WrongCount(COUNT));
    }
    Ok(row)
}

/// F5: the last byte is the PEC of the bytes before it, carried on from the PEC of what came before
/// them.
#[tactic(auto, unfolding(crate::specs::Fault::pec_fault))]
pub(crate) fn error_code(so_far: u8, bytes: &[u8]) -> Result<(), FrameFault>
    requires { 1 ≤ length bytes.now }
    ensures { (before : List ℕ) → so_far ≡ pec_of before →
        result_err result ≡ fault.pec_fault before bytes.now }
{
    let last = bytes.len() - 1;
    if bytes[last] != pec_after(so_far, &bytes[..last]) {
        return Err(FrameFault::WrongPec(last));
    }
    Ok(())
}

/// F8, F6 and F7: PAGE_PLUS carries the code, it stands in the table, and it goes this way.
#[tactic(auto, unfolding(crate::specs::Fault::carried_fault))]
pub(crate) fn carried_code(row: Row, direction: Direction) -> Result<(), FrameFault>
    ensures { result_err result ≡ fault.carried_fault direction row.code.0 }
{
    if !row.is_carried() {
        return Err(FrameFault::Nested(CARRIED));
    }
    if !row.is_known() {
        return Err(FrameFault::UnknownCode(CARRIED));
    }
    if !row.goes(direction) {
        return Err(FrameFault::WrongDirection(CARRIED));
    }
    Ok(())
}

/// F6 and F7: a plain packet's code stands in the table, and goes this way.
#[tactic(auto, unfolding(crate::specs::Fault::plain_fault))]
pub(crate) fn plain_code(row: Row, direction: Direction) -> Result<(), FrameFault>
    ensures { result_err result ≡ fault.plain_fault direction row.code.0 }
{
    if !row.is_known() {
        return Err(FrameFault::UnknownCode(CODE));
    }
    if !row.goes(direction) {
        return Err(FrameFault::WrongDirection(CODE));
    }
    Ok(())
}
