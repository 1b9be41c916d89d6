//! What was received, as a packet or its first fault.

ghost use Rattle.std.specs.Prelude.{◌≡◌, List, ℕ, true, length, slice_index, IfOk, OnOk, IsOkAnd};
ghost use Rattle.std.specs.Result.{result_err};
ghost use Rattle.pm_table.specs.Address.{IsAddress};
ghost use Rattle.pm_frame.specs.declared.message.Message.{Message};
ghost use Rattle.pm_frame.specs.Layout.{IsWrite, IsRequest, IsAnswer, fits_layout, is_read_message};
ghost use Rattle.pm_frame.specs.View.{message_in, answer_payload};
ghost use Rattle.pm_frame.specs.Fault.{write_fault, request_fault, block_request_fault, answer_fault, whole_answer};

use crate::fault::FrameFault;
use crate::frame_view::FrameView;
use crate::message::Message;
use crate::packet_error_code::pec;
use crate::places::{ANSWER_COUNT, CARRIED, COUNT};
use crate::row::Row;
use crate::rules;
use crate::rules::Direction;
use crate::sent::{read_address, sent, write_address};
use pm_table::{Code, payloads_are_short};

/// Reads bytes that a stop ended as a packet that writes to the device of this address. Takes
/// exactly the layouts of writes, for bytes of any number; `Err` is the first fault:
///
/// 1. F1: no byte, or the first one isn't the address with the write bit. F2: no other byte.
/// 2. F2, F3: fewer or more bytes than a plain code that is written asks for, or than the count of
///    PAGE_PLUS_WRITE says. F4: a count below 2, or another one than its carried code, written and
///    carried, asks for. F2 for two bytes.
/// 3. F5: the last byte isn't the PEC of those before it.
/// 4. F8: a carried code that PAGE_PLUS doesn't carry. F6: a code that isn't in the table. F7: one
///    that isn't written.
pub fn read_write(addr: u8, bytes: &[u8]) -> Result<FrameView<'_>, FrameFault>
    requires { IsAddress addr }
    ensures message { IfOk result (λ message. IsWrite addr message bytes.now) }
    ensures places { IfOk result (λ message. message ≡ message_in bytes.now) }
    ensures fault { result_err result ≡ write_fault addr bytes.now }
    ensures accepts { (message : Message) → IsWrite addr message bytes.now →
        IsOkAnd result (λ found. found ≡ message) }
{
    payloads_are_short();
    written(addr, bytes)?;
    Ok(FrameView::new(bytes))
}

// The faults of a write, in their order.
#[tactic(auto, unfolding(crate::specs::Fault::write_fault))]
fn written(addr: u8, bytes: &[u8]) -> Result<(), FrameFault>
    requires { IsAddress addr }
    ensures { result_err result ≡ write_fault addr bytes.now }
{
    let code = rules::opening(write_address(addr), bytes)?;
    if code == Code::PAGE_PLUS_WRITE {
        let carried = rules::carried_size(bytes)?;
        rules::error_code(pec(&[]), bytes)?;
        return rules::carried_code(carried, Direction::Write);
    }
    let row = Row::of(code);
    rules::plain_size(row, bytes)?;
    rules::error_code(pec(&[]), bytes)?;
    rules::plain_code(row, Direction::Write)
}

/// Reads bytes that a repeated start ended as the request of a packet that reads from the device of
/// this address. Takes exactly the layouts of requests, for bytes of any number; `Err` is the first
/// fault:
///
/// 1. F1: no byte, or the first one isn't the address with the write bit. F2: no other byte.
/// 2. PAGE_PLUS_READ and COEFFICIENTS: F2 or F3 unless there are five bytes, F4 if the count isn't 2.
///    A carried code: F8 if PAGE_PLUS doesn't carry it, F6 if it isn't in the table, F7 if it isn't
///    read.
/// 3. Every other code: F6 if it isn't in the table, F7 if it isn't read, F3 if a byte follows it.
pub fn read_request(addr: u8, bytes: &[u8]) -> Result<FrameView<'_>, FrameFault>
    requires { IsAddress addr }
    ensures message { IfOk result (λ message. IsRequest addr message bytes.now) }
    ensures places { IfOk result (λ message. message ≡ message_in bytes.now) }
    ensures fault { result_err result ≡ request_fault addr bytes.now }
    ensures accepts { (message : Message) → IsRequest addr message bytes.now →
        IsOkAnd result (λ found. found ≡ message) }
{
    requested(addr, bytes)?;
    Ok(FrameView::new(bytes))
}

// The faults of a request, in their order.
#[tactic(auto, unfolding(crate::specs::Fault::request_fault))]
fn requested(addr: u8, bytes: &[u8]) -> Result<(), FrameFault>
    requires { IsAddress addr }
    ensures { result_err result ≡ request_fault addr bytes.now }
{
    let code = rules::opening(write_address(addr), bytes)?;
    if matches!(code, Code::PAGE_PLUS_READ | Code::COEFFICIENTS) {
        return block_requested(code, bytes);
    }
    rules::plain_code(Row::of(code), Direction::Read)?;
    if bytes.len() > 2 {
        return Err(FrameFault::Long(2));
    }
    Ok(())
}

// The faults of a request that has a count, in their order.
#[tactic(auto, unfolding(crate::specs::Fault::block_request_fault))]
fn block_requested(code: Code, bytes: &[u8]) -> Result<(), FrameFault>
    requires { code.0 ≡ slice_index bytes.now 1 }
    ensures { result_err result ≡ block_request_fault bytes.now }
{
    rules::length(5, bytes)?;
    if bytes[COUNT] != 2 {
        return Err(FrameFault::WrongCount(COUNT));
    }
    if code == Code::PAGE_PLUS_READ {
        let carried = Row::of(Code(bytes[CARRIED]));
        rules::carried_code(carried, Direction::Read)?;
    }
    Ok(())
}

/// Reads what came back after the repeated start of this request, which the host itself sent to
/// this address: the answer's PEC covers that request's bytes too. `Ok` is the payload. Takes
/// exactly the layout of an answer to this request, for bytes of any number; `Err` is the first
/// fault:
///
/// 1. F1: no byte, or the first one isn't the address with the read bit.
/// 2. F2, F3: fewer or more bytes than a whole answer has. F4: a count that isn't the payload's
///    length.
/// 3. F5: the last byte isn't the PEC of the request's bytes followed by the bytes before it.
pub fn read_answer<'a>(addr: u8, request: &Message, got: &'a [u8]) -> Result<&'a [u8], FrameFault>
    requires address { IsAddress addr }
    requires read { is_read_message request.now ≡ true }
    requires fits { fits_layout request.now ≡ true }
    ensures payload { IfOk result (λ payload. IsAnswer addr request.now payload.now got.entry.now) }
    ensures places { IfOk result (λ payload. payload.now ≡ answer_payload request.now got.entry.now) }
    ensures fault { result_err result ≡ answer_fault addr request.now got.entry.now }
    ensures accepts { (payload : List ℕ) → IsAnswer addr request.now payload got.entry.now →
        IsOkAnd result (λ found. found.now ≡ payload) }
{
    answer_checked(addr, request, got)?;
    Ok(&got[request.payload_place()..got.len() - 1])
}

// The faults of an answer, in their order.
#[tactic(auto, unfolding(crate::specs::Fault::answer_fault))]
fn answer_checked(addr: u8, request: &Message, got: &[u8]) -> Result<(), FrameFault>
    requires address { IsAddress addr }
    requires read { is_read_message request.now ≡ true }
    requires fits { fits_layout request.now ≡ true }
    ensures fault { result_err result ≡ answer_fault addr request.now got.now }
    ensures whole { OnOk result (length got.now ≡ whole_answer request.now) }
{
    rules::address(read_address(addr), got)?;
    let payload = request.answer_length();
    if request.has_count() {
        rules::length(payload + 3, got)?;
        if usize::from(got[ANSWER_COUNT]) != payload {
            return Err(FrameFault::WrongCount(ANSWER_COUNT));
        }
    } else {
        rules::length(payload + 2, got)?;
    }
    rules::error_code(pec(sent(addr, request).as_slice()), got)
}
