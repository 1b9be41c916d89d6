//! The line of a usual packet, if no option changes what is shown.
ghost use Rattle.std.specs.Prelude.{◌≡◌, ◌≢◌, ◌<◌, ◌++◌, ◌∷◌, [], codes, length, option_map, take, IfSome, OnOk, true, false, Some, None};
ghost use Rattle.pm_frame.specs.Layout.{payload_bytes};
ghost use Rattle.pm_lines.specs.Numbers.{hex_byte};
ghost use Rattle.pm_table.specs.Codes as command;
ghost use Rattle.pm_table.specs.Commands.{name_of};
ghost use Rattle.pm_trace.specs.Trace.{Accepted, parts_judged};
ghost use Rattle.pm_trace.specs.TraceText.{page_text};
ghost use Rattle.pm_decode.specs.UsualLines.{IsUsual, carried_text, usual_text};

use crate::usual_packet::{carried_read, carried_write};
use itoa::Buffer;
use pm_frame::{FrameView, Payload};
use pm_lines::hex_digits;
use pm_table::Code;
use pm_trace::{Shown, packet_shown};
use std::alloc::AllocError;

/// A good packet that carries at most two bytes and teaches nothing.
#[derive(Clone, Copy, Debug)]
pub(crate) struct Usual {
    pub(crate) addr: u8,
    pub(crate) page: Option<u8>,
    pub(crate) code: u8,
    pub(crate) payload: Payload,
    // The payload was answered, and not written.
    pub(crate) is_read: bool,
}

/// A packet as a usual one. The clauses leave open when None comes, and the caller shows such a packet as any other: this is
/// only the quicker way.
pub(crate) fn usual_of(write: &[u8], read: Option<&[u8]>) -> Option<Usual>
    ensures { IfSome result (λ usual. IsUsual usual (parts_judged write.now (option_map (λ bytes. bytes.now) read.entry))) }
{
    match (write, read) {
        ([_, code, 4, ..], None) if *code == Code::PAGE_PLUS_WRITE.0 => carried_write(write),
        ([_, code, 2, ..], Some(read)) if *code == Code::PAGE_PLUS_READ.0 => {
            carried_read(write, read)
        }
        _ => shown_usual(write, read),
    }
}

// A packet of any code as a usual one.
#[inline(never)]
fn shown_usual(write: &[u8], read: Option<&[u8]>) -> Option<Usual>
    ensures { IfSome result (λ usual. IsUsual usual (parts_judged write.now (option_map (λ bytes. bytes.now) read.entry))) }
{
    match packet_shown(write, read) {
        Shown::Accepted { addr, view, answer } => match answer {
            Some(answer) => usual_answer(addr, &view, answer),
            None => usual_write(addr, &view),
        },
        _ => None,
    }
}

// A good read as a usual packet.
fn usual_answer(addr: u8, view: &FrameView<'_>, answer: &[u8]) -> Option<Usual>
    ensures { IfSome result (λ usual. IsUsual usual (Accepted addr view.now (Some answer.now))) }
{
    let code = view.code();
    if is_lesson(code) {
        return None;
    }
    Some(Usual {
        addr,
        page: view.page(),
        code,
        payload: payload_of(answer)?,
        is_read: true,
    })
}

// A good write as a usual packet.
fn usual_write(addr: u8, view: &FrameView<'_>) -> Option<Usual>
    ensures { IfSome result (λ usual. IsUsual usual (Accepted addr view.now None)) }
{
    let code = view.code();
    if is_lesson(code) {
        return None;
    }
    Some(Usual {
        addr,
        page: view.page(),
        code,
        payload: payload_of(view.payload())?,
        is_read: false,
    })
}

// Whether answers of a code teach something: a format, or coefficients.
fn is_lesson(code: u8) -> bool
    ensures mode { result ≡ false → code ≢ command.vout_mode }
    ensures coefficients { result ≡ false → code ≢ command.coefficients }
{
    Code(code) == Code::VOUT_MODE || Code(code) == Code::COEFFICIENTS
}

// At most two bytes as a payload.
fn payload_of(bytes: &[u8]) -> Option<Payload>
    ensures { IfSome result (λ payload. payload_bytes payload ≡ bytes.now) }
{
    match bytes {
        [] => Some(Payload::Empty),
        [byte] => Some(Payload::Byte(*byte)),
        [low, high] => Some(Payload::Word(u16::from_le_bytes([*low, *high]))),
        _ => None,
    }
}

/// Appends the line of a usual packet to a text, with its number's digits and a line feed. If memory is refused, the
/// text begins with what it was.
#[tactic(auto, using(pm_lines::specs::Lemmas::Joins::joins, crate::proofs::Shown::fronts))]
pub(crate) fn push_usual(text: &mut Vec<u8>, digits: &[u8], usual: &Usual) -> Result<(), AllocError>
    ensures text { OnOk result (text.new.items ≡ text.old.items ++ (digits.now ++ (codes " " ++ (usual_text usual.now ++ codes "\n")))) }
    ensures front { take (length text.old.items) text.new.items ≡ text.old.items }
{
    text.extend_from_slice(digits)?;
    push_place(text, usual.addr, usual.page)?;
    text.extend_from_slice(Code(usual.code).name().as_bytes())?;
    if usual.is_read {
        push_read(text, usual.payload)
    } else {
        push_written(text, usual.payload)
    }
}

// A space, the address, a space, and the page, if the packet names one.
#[tactic(auto, using(pm_lines::specs::Lemmas::Joins::digit_joins, crate::proofs::Shown::fronts), unfolding(pm_lines::specs::Numbers::hex_byte))]
fn push_place(text: &mut Vec<u8>, addr: u8, page: Option<u8>) -> Result<(), AllocError>
    ensures text { OnOk result (text.new.items ≡ text.old.items ++ (codes " " ++ (hex_byte addr ++ (codes " " ++ page_text page)))) }
    ensures front { take (length text.old.items) text.new.items ≡ text.old.items }
{
    let [high, low] = hex_digits(addr);
    match page {
        None => text.extend_from_slice(&[b' ', high, low, b' ']),
        Some(page) if page < 10 => text.extend_from_slice(&[
            b' ',
            high,
            low,
            b' ',
            b'p',
            b'a',
            b'g',
            b'e',
            b' ',
            b'0' + page,
            b' ',
        ]),
        Some(page) => {
            let mut digits = Buffer::new();
            text.extend_from_slice(&[b' ', high, low, b' ', b'p', b'a', b'g', b'e', b' '])?;
            text.extend_from_slice(digits.format(page).as_bytes())?;
            text.extend_from_slice(b" ")
        }
    }
}

// What was answered, and a line feed.
#[tactic(auto, using(pm_lines::specs::Lemmas::Joins::joins, crate::proofs::Shown::fronts), unfolding(pm_lines::specs::Numbers::hex_byte))]
fn push_read(text: &mut Vec<u8>, payload: Payload) -> Result<(), AllocError>
    ensures text { OnOk result (text.new.items ≡ text.old.items ++ (carried_text true (payload_bytes payload) ++ codes "\n")) }
    ensures front { take (length text.old.items) text.new.items ≡ text.old.items }
{
    match payload {
        Payload::Empty => text.extend_from_slice(b" read \n"),
        Payload::Byte(byte) => {
            let [a, b] = hex_digits(byte);
            text.extend_from_slice(&[b' ', b'r', b'e', b'a', b'd', b' ', a, b, b'\n'])
        }
        Payload::Word(word) => {
            let [a, b] = hex_digits((word / 256) as u8);
            let [c, d] = hex_digits((word % 256) as u8);
            text.extend_from_slice(&[b' ', b'r', b'e', b'a', b'd', b' ', a, b, c, d, b'\n'])
        }
    }
}

// What was written, and a line feed.
#[tactic(auto, using(pm_lines::specs::Lemmas::Joins::joins, crate::proofs::Shown::fronts), unfolding(pm_lines::specs::Numbers::hex_byte))]
fn push_written(text: &mut Vec<u8>, payload: Payload) -> Result<(), AllocError>
    ensures text { OnOk result (text.new.items ≡ text.old.items ++ (carried_text false (payload_bytes payload) ++ codes "\n")) }
    ensures front { take (length text.old.items) text.new.items ≡ text.old.items }
{
    match payload {
        Payload::Empty => text.extend_from_slice(b" send\n"),
        Payload::Byte(byte) => {
            let [a, b] = hex_digits(byte);
            text.extend_from_slice(&[b' ', b'w', b'r', b'i', b't', b'e', b' ', a, b, b'\n'])
        }
        Payload::Word(word) => {
            let [a, b] = hex_digits((word / 256) as u8);
            let [c, d] = hex_digits((word % 256) as u8);
            text.extend_from_slice(&[b' ', b'w', b'r', b'i', b't', b'e', b' ', a, b, c, d, b'\n'])
        }
    }
}
