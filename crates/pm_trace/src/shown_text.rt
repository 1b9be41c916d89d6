//! The text of a line that is shown.
ghost use Rattle.std.specs.Prelude.{◌≡◌, ◌++◌, [], ℕ, List, Option, None, IfSome, OnOk, string_bytes, option_map, unwrap_or, decimal, codes};
ghost use Rattle.std.specs.Fmt.{signed_decimal};
ghost use Rattle.pm_frame.specs.declared.message.Message.{Message};
ghost use Rattle.pm_lines.specs.Numbers.{hex_number};
ghost use Rattle.pm_frame.specs.FaultWords.{frame_fault_text, place_text};
ghost use Rattle.pm_trace.specs.ShownLines.{judged_in};
ghost use Rattle.pm_trace.specs.TraceText.{told_text, judged_text, address_text, message_text};
ghost use Rattle.pm_trace.specs.TraceText.{plain_text, page_text, payload_text, written_text, asked_text, numbers_text};
ghost use Rattle.pm_table.specs.Coefficients.{coefficients_of};

use crate::shown::Shown;
use pm_frame::{FrameFault, FrameView, Message};
use pm_lines::{TextFault, push_decimal, push_hex, push_hex_number, push_signed};
use pm_table::{Code, Coefficients};
use std::alloc::AllocError;

/// Appends the text of a line to a text, with the line's number and without a line feed.
#[tactic(auto, using(pm_lines::specs::Lemmas::Joins::joins), unfolding(crate::specs::TraceText::told_text))]
pub(crate) fn push_line(text: &mut String, number: u64, shown: &Shown<'_>) -> Result<(), AllocError>
    ensures { OnOk result (string_bytes text.new
        ≡ string_bytes text.old ++ told_text (number, judged_in shown.now)) }
{
    push_decimal(text, number)?;
    text.push_str(" ")?;
    push_shown(text, number, shown)
}

/// Appends what the line of this number says to a text.
#[tactic(auto, using(pm_lines::specs::Lemmas::Joins::joins))]
pub fn push_shown(text: &mut String, number: u64, shown: &Shown<'_>) -> Result<(), AllocError>
    ensures { OnOk result (string_bytes text.new
        ≡ string_bytes text.old ++ judged_text number (judged_in shown.now)) }
{
    match shown {
        Shown::Accepted { addr, view, answer } => {
            push_hex(text, *addr)?;
            push_packet(text, view, *answer)
        }
        Shown::Faulty { addr, read, fault } => {
            push_address(text, *addr)?;
            text.push_str(if *read { " read " } else { " write " })?;
            push_fault(text, *fault)
        }
        Shown::BadSyntax => text.push_str(TextFault::Syntax(number).words()),
        Shown::BadHex => text.push_str(TextFault::BadHex(number).words()),
    }
}

// The address of a packet with a fault.
fn push_address(text: &mut String, addr: Option<u8>) -> Result<(), AllocError>
    ensures { OnOk result (string_bytes text.new ≡ string_bytes text.old ++ address_text addr) }
{
    match addr {
        None => text.push_str("--"),
        Some(addr) => push_hex(text, addr),
    }
}

// The letter and the name of a packet's fault, and its place.
#[tactic(auto, using(pm_lines::specs::Lemmas::Joins::joins))]
fn push_fault(text: &mut String, fault: FrameFault) -> Result<(), AllocError>
    ensures { OnOk result (string_bytes text.new ≡ string_bytes text.old ++ frame_fault_text fault) }
{
    text.push_str(fault.words())?;
    push_place(text, fault.place())
}

// The place of a fault, if it has one.
#[tactic(auto, using(pm_lines::specs::Lemmas::Joins::joins))]
fn push_place(text: &mut String, place: Option<usize>) -> Result<(), AllocError>
    ensures { OnOk result (string_bytes text.new ≡ string_bytes text.old ++ place_text place) }
{
    let Some(place) = place else {
        return Ok(());
    };
    text.push_str(" ")?;
    push_decimal(text, place as u64)
}

/// Appends a space, and what a packet says that was accepted, to a text.
#[tactic(auto, using(pm_lines::specs::Lemmas::Joins::joins), unfolding(crate::specs::TraceText::plain_text))]
pub fn push_packet(
    text: &mut String,
    view: &FrameView<'_>,
    answer: Option<&[u8]>,
) -> Result<(), AllocError>
    ensures { OnOk result (string_bytes text.new ≡ string_bytes text.old
        ++ (codes " " ++ message_text view.now (option_map (λ bytes. bytes.now) answer.entry))) }
{
    match coefficients_asked(view) {
        Some((code, side)) => push_coefficients(text, code, side, answered(answer)),
        None => push_plain(text, view, answer),
    }
}

// The code and the side that coefficients are asked of, if they are.
#[tactic(auto, using(crate::proofs::ValueLemmas::other_code))]
fn coefficients_asked(view: &FrameView<'_>) -> Option<(u8, u8)>
    ensures some { IfSome result (λ asked. view.now ≡ Message.ReadCoefficients asked.0 asked.1) }
    ensures none { result ≡ None → (answer : Option (List ℕ)) → message_text view.now answer ≡ plain_text view.now answer }
{
    if Code(view.code()) != Code::COEFFICIENTS {
        return None;
    }
    match view.message() {
        Message::ReadCoefficients { code, side } => Some((code, side)),
        _ => None,
    }
}

// A space, the page that a packet names, its code's name, and what it carries.
#[tactic(auto, using(pm_lines::specs::Lemmas::Joins::joins), unfolding(crate::specs::TraceText::plain_text))]
fn push_plain(
    text: &mut String,
    view: &FrameView<'_>,
    answer: Option<&[u8]>,
) -> Result<(), AllocError>
    ensures { OnOk result (string_bytes text.new ≡ string_bytes text.old
        ++ (codes " " ++ plain_text view.now (option_map (λ bytes. bytes.now) answer.entry))) }
{
    push_page(text, view.page())?;
    text.push_str(Code(view.code()).name())?;
    match answer {
        Some(answer) => {
            text.push_str(" read ")?;
            push_payload(text, answer)
        }
        None => push_written(text, view.payload()),
    }
}

// A space, and the page if one is named: one that a converter may have is put as one text.
#[tactic(auto, using(pm_lines::specs::Lemmas::Joins::digit_joins))]
fn push_page(text: &mut String, page: Option<u8>) -> Result<(), AllocError>
    ensures { OnOk result (string_bytes text.new
        ≡ string_bytes text.old ++ (codes " " ++ page_text page)) }
{
    match page {
        None => text.push_str(" "),
        Some(0) => text.push_str(" page 0 "),
        Some(1) => text.push_str(" page 1 "),
        Some(2) => text.push_str(" page 2 "),
        Some(3) => text.push_str(" page 3 "),
        Some(4) => text.push_str(" page 4 "),
        Some(5) => text.push_str(" page 5 "),
        Some(6) => text.push_str(" page 6 "),
        Some(7) => text.push_str(" page 7 "),
        Some(page) => {
            text.push_str(" page ")?;
            push_decimal(text, u64::from(page))?;
            text.push_str(" ")
        }
    }
}

// What a write carries.
#[tactic(auto, using(pm_lines::specs::Lemmas::Joins::joins))]
fn push_written(text: &mut String, payload: &[u8]) -> Result<(), AllocError>
    ensures { OnOk result (string_bytes text.new
        ≡ string_bytes text.old ++ written_text payload.now) }
{
    if payload.is_empty() {
        return text.push_str(" send");
    }
    text.push_str(" write ")?;
    push_payload(text, payload)
}

// A payload as a number.
#[tactic(auto, using(pm_lines::specs::Lemmas::Joins::joins))]
fn push_payload(text: &mut String, bytes: &[u8]) -> Result<(), AllocError>
    ensures { OnOk result (string_bytes text.new ≡ string_bytes text.old ++ hex_number bytes.now) }
{
    match bytes {
        [low, high] => {
            push_hex(text, *high)?;
            push_hex(text, *low)
        }
        _ => push_hex_number(text, bytes),
    }
}

/// The bytes of an answer, none if there is no answer.
pub fn answered<'a>(answer: Option<&'a [u8]>) -> &'a [u8]
    ensures { result.now ≡ unwrap_or (option_map (λ bytes. bytes.now) answer.entry) [] }
{
    match answer {
        Some(answer) => answer,
        None => &[],
    }
}

// A space, what coefficients were asked of, and the coefficients that were answered.
#[tactic(auto, using(pm_lines::specs::Lemmas::Joins::joins))]
fn push_coefficients(text: &mut String, code: u8, side: u8, answer: &[u8]) -> Result<(), AllocError>
    ensures { OnOk result (string_bytes text.new ≡ string_bytes text.old
        ++ (codes " " ++ (asked_text code side ++ numbers_text (coefficients_of answer.now)))) }
{
    push_asked(text, code, side)?;
    push_numbers(text, coefficients_in(answer))?;
    Ok(())
}

// A space, and the code and the side that coefficients were asked of.
#[tactic(auto, using(pm_lines::specs::Lemmas::Joins::joins), unfolding(crate::specs::TraceText::asked_text))]
fn push_asked(text: &mut String, code: u8, side: u8) -> Result<(), AllocError>
    ensures { OnOk result (string_bytes text.new
        ≡ string_bytes text.old ++ (codes " " ++ asked_text code side)) }
{
    text.push_str(" COEFFICIENTS of ")?;
    push_hex(text, code)?;
    text.push_str(" side ")?;
    push_decimal(text, u64::from(side))?;
    Ok(())
}

// The three numbers of an answer.
#[tactic(auto, using(pm_lines::specs::Lemmas::Joins::signed_joins), unfolding(crate::specs::TraceText::numbers_text))]
fn push_numbers(text: &mut String, coefficients: Coefficients) -> Result<(), AllocError>
    ensures { OnOk result (string_bytes text.new
        ≡ string_bytes text.old ++ numbers_text coefficients) }
{
    push_named(text, " read m ", i128::from(coefficients.m))?;
    push_named(text, " b ", i128::from(coefficients.b))?;
    push_named(text, " r ", i128::from(coefficients.r))
}

// A name, and a number after it.
#[tactic(auto, using(pm_lines::specs::Lemmas::Joins::joins))]
fn push_named(text: &mut String, name: &str, number: i128) -> Result<(), AllocError>
    ensures { OnOk result (string_bytes text.new
        ≡ string_bytes text.old ++ (name.now ++ signed_decimal number)) }
{
    text.push_str(name)?;
    push_signed(text, number)
}

/// The coefficients of an answer; a byte that isn't there counts as 0.
pub fn coefficients_in(answer: &[u8]) -> Coefficients
    ensures { result ≡ coefficients_of answer.now }
{
    let byte = |place: usize| answer.get(place).copied().unwrap_or(0);
    Coefficients::read([byte(0), byte(1), byte(2), byte(3), byte(4)])
}
