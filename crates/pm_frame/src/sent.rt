//! The bytes that go out for a message: what the host sends, and what the device answers.

ghost use Rattle.std.specs.Prelude.{◌≡◌, ◌≤◌, ◌+◌, ◌∷◌, length, true, false};
ghost use Rattle.arrayvec.specs.ArrayVec.{array_vec_len};
ghost use Rattle.pm_table.specs.Address.{IsAddress};
ghost use Rattle.pm_table.specs.Codes as command;
ghost use Rattle.pm_frame.specs.Layout.{IsWrite, IsRequest, IsAnswer, fits_layout, is_read_message, answer_length, write_address as spec_write_address, read_address as spec_read_address};
ghost use Rattle.pm_frame.specs.Layout.{sent as sent_bytes, answered as answered_bytes, payload_bytes};

use crate::Frame;
use crate::message::{Message, Payload};
use crate::packet_error_code::{pec, pec_after};
use pm_table::{Code, payloads_are_short};

/// What the host puts on the wire for the message to the device of this address: a whole packet,
/// PEC included, for a write; the request before the repeated start for a read. At most 8 bytes.
pub fn write_part(addr: u8, m: &Message) -> Frame
    requires address { IsAddress addr }
    requires fits { fits_layout m.now ≡ true }
    ensures write { is_read_message m.now ≡ false → IsWrite addr m.now result.items }
    ensures request { is_read_message m.now ≡ true → IsRequest addr m.now result.items }
{
    let mut frame = sent(addr, m);
    if !m.is_read() {
        let code = pec(frame.as_slice());
        frame.push(code);
    }
    frame
}

/// What the device of this address answers to a read, after the repeated start, with this payload:
/// the PEC, which is the last byte, covers the request too. The payload is as long as the request's
/// code asks, 5 bytes for COEFFICIENTS.
pub fn answer(addr: u8, request: &Message, payload: &[u8]) -> Frame
    requires address { IsAddress addr }
    requires read { is_read_message request.now ≡ true }
    requires fits { fits_layout request.now ≡ true }
    requires counted { length payload.now ≡ answer_length request.now }
    ensures { IsAnswer addr request.now payload.now result.items }
{
    payloads_are_short();
    let mut frame = answered(addr, request, payload);
    let code = pec_after(pec(sent(addr, request).as_slice()), frame.as_slice());
    frame.push(code);
    frame
}

/// The bytes of a message before its PEC, or before its repeated start.
pub(crate) fn sent(addr: u8, m: &Message) -> Frame
    requires { IsAddress addr }
    ensures bytes { result.items ≡ sent_bytes addr m.now }
    ensures room { array_vec_len result ≤ 7 }
{
    let first = write_address(addr);
    match *m {
        Message::SendByte { code } | Message::ReadCommand { code } => frame_of(&[first, code]),
        Message::WriteByte { code, byte } => frame_of(&[first, code, byte]),
        Message::WriteWord { code, word } => {
            let [low, high] = word.to_le_bytes();
            frame_of(&[first, code, low, high])
        }
        Message::PagePlusWrite {
            page,
            code,
            payload,
        } => page_plus_write(first, page, code, payload),
        Message::PagePlusRead { page, code } => {
            frame_of(&[first, Code::PAGE_PLUS_READ.0, 2, page, code])
        }
        Message::ReadCoefficients { code, side } => {
            frame_of(&[first, Code::COEFFICIENTS.0, 2, code, side])
        }
    }
}

// The bytes of PAGE_PLUS_WRITE before its PEC.
fn page_plus_write(first: u8, page: u8, code: u8, payload: Payload) -> Frame
    ensures bytes { let carried = payload_bytes payload in
        result.items ≡ first ∷ command.page_plus_write ∷ (2 + length carried) ∷ page ∷ code ∷ carried }
    ensures room { array_vec_len result ≤ 7 }
{
    match payload {
        Payload::Empty => frame_of(&[first, Code::PAGE_PLUS_WRITE.0, 2, page, code]),
        Payload::Byte(byte) => frame_of(&[first, Code::PAGE_PLUS_WRITE.0, 3, page, code, byte]),
        Payload::Word(word) => {
            let [low, high] = word.to_le_bytes();
            frame_of(&[first, Code::PAGE_PLUS_WRITE.0, 4, page, code, low, high])
        }
    }
}

// The bytes of an answer before its PEC.
fn answered(addr: u8, request: &Message, payload: &[u8]) -> Frame
    requires address { IsAddress addr }
    requires short { length payload.now ≤ 5 }
    ensures bytes { result.items ≡ answered_bytes addr request.now payload.now }
    ensures room { array_vec_len result ≤ 7 }
{
    let mut frame = frame_of(&[read_address(addr)]);
    if request.has_count() {
        frame.push(payload.len() as u8);
    }
    frame.try_extend_from_slice(payload).unwrap();
    frame
}

/// The first byte of a packet in which the host writes to this address.
pub(crate) fn write_address(addr: u8) -> u8
    requires { IsAddress addr }
    ensures { result ≡ spec_write_address addr }
{
    addr * 2
}

/// The first byte after the repeated start, with which the host reads from this address.
pub(crate) fn read_address(addr: u8) -> u8
    requires { IsAddress addr }
    ensures { result ≡ spec_read_address addr }
{
    write_address(addr) + 1
}

// A frame of these bytes.
fn frame_of(bytes: &[u8]) -> Frame
    requires { length bytes.now ≤ 16 }
    ensures bytes { result.items ≡ bytes.now }
    ensures len { array_vec_len result ≡ length bytes.now }
{
    let mut frame = Frame::new();
    frame.try_extend_from_slice(bytes).unwrap();
    frame
}
