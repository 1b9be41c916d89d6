//! The fields of a packet as the command table has it.
ghost use Rattle.std.specs.Prelude.{◌≡◌, ◌++◌, option_map, if◌then◌else◌, OnOk, string_bytes};
ghost use Rattle.pm_trace.specs.Otherwise.{is_heeded};
ghost use Rattle.pm_table.specs.Coefficients.{coefficients_of};
ghost use Rattle.pm_trace.specs.ShownLines.{judged_in};
ghost use Rattle.pm_decode.specs.JsonText.{assumed_field, code_fields, coefficients_fields, judged_fields, message_fields, numbers_fields, page_fields, payload_fields, plain_fields, told_fields, sent_direction as spec_sent_direction, sent_fields};

use crate::json::fault::push_fault_fields;
use crate::json::fields::{
    push_address_field, push_bytes_field, push_fault_code, push_hex_field, push_number_field,
    push_number_field_if, push_signed_field, push_text_field,
};
use crate::json::value::push_value_fields;
use crate::{Marks, PacketLine, TellOptions};
use pm_frame::Message;
use pm_table::{Code, Coefficients};
use pm_trace::{GivenFormats, GoodPacket, Lessons, Shown, answered, coefficients_in, packet_value};
use std::alloc::AllocError;

/// Appends the fields of a packet as the command table has it.
#[tactic(auto, using(pm_lines::specs::Lemmas::Joins::joins))]
pub fn push_judged_fields(
    text: &mut String,
    options: &TellOptions,
    lessons: &Lessons,
    marks: &Marks,
    line: &PacketLine<'_>,
) -> Result<(), AllocError>
    ensures { OnOk result (string_bytes text.new ≡ string_bytes text.old
        ++ judged_fields options.now.formats options.now.values (is_heeded marks.now.ones) lessons.now marks.now.reached line.now.packet.write.now
        (option_map (λ bytes. bytes.now) line.now.packet.read) (judged_in line.now.shown.now)) }
{
    match line.shown {
        Shown::Accepted { addr, view, answer } => {
            let packet = GoodPacket {
                addr: *addr,
                reached: marks.reached,
                view,
                answer: *answer,
            };
            let values = options.values && marks.ones.is_heeded();
            push_address_field(text, Some(*addr))?;
            push_message_fields(text, &options.formats, values, lessons, &packet)
        }
        Shown::Faulty { addr, read, fault } => {
            push_address_field(text, *addr)?;
            push_fault_code(text, *addr, line.packet.write)?;
            push_fault_fields(text, options.values, &line.packet, *read, *fault)
        }
        Shown::BadSyntax | Shown::BadHex => Ok(()),
    }
}

// What a packet says that was accepted.
#[tactic(auto, using(pm_lines::specs::Lemmas::Joins::joins))]
fn push_message_fields(
    text: &mut String,
    given: &GivenFormats,
    values: bool,
    lessons: &Lessons,
    packet: &GoodPacket<'_>,
) -> Result<(), AllocError>
    ensures { OnOk result (string_bytes text.new ≡ string_bytes text.old
        ++ message_fields given.now values lessons.now packet.now.reached packet.now.addr packet.now.view.now
        (option_map (λ bytes. bytes.now) packet.now.answer)) }
{
    match packet.view.message() {
        Message::ReadCoefficients { code, side } => {
            push_coefficients_fields(text, code, side, answered(packet.answer))
        }
        _ => push_plain_fields(text, given, values, lessons, packet),
    }
}

// The page that a packet names or reaches, its code, its payload and its value.
#[tactic(auto, using(pm_lines::specs::Lemmas::Joins::joins))]
fn push_plain_fields(
    text: &mut String,
    given: &GivenFormats,
    values: bool,
    lessons: &Lessons,
    packet: &GoodPacket<'_>,
) -> Result<(), AllocError>
    ensures { OnOk result (string_bytes text.new ≡ string_bytes text.old
        ++ plain_fields given.now values lessons.now packet.now.reached packet.now.addr packet.now.view.now
        (option_map (λ bytes. bytes.now) packet.now.answer)) }
{
    push_page_fields(text, packet.reached, packet.view.page())?;
    push_code_fields(text, packet.view.code())?;
    push_payload_fields(text, packet.view.payload(), packet.answer)?;
    if values {
        push_told_fields(text, given, lessons, packet)?;
    }
    Ok(())
}

// The value of a packet, and that its format is only assumed.
#[tactic(auto, using(pm_lines::specs::Lemmas::Joins::joins))]
fn push_told_fields(
    text: &mut String,
    given: &GivenFormats,
    lessons: &Lessons,
    packet: &GoodPacket<'_>,
) -> Result<(), AllocError>
    ensures { OnOk result (string_bytes text.new ≡ string_bytes text.old
        ++ told_fields given.now lessons.now packet.now.reached packet.now.addr packet.now.view.now
        (option_map (λ bytes. bytes.now) packet.now.answer)) }
{
    push_value_fields(text, packet_value(given, lessons, packet))?;
    push_assumed_field(
        text,
        lessons.is_assumed(given, packet.addr, packet.view.code()),
    )
}

// That a format is only assumed.
fn push_assumed_field(text: &mut String, is_assumed: bool) -> Result<(), AllocError>
    ensures { OnOk result (string_bytes text.new ≡ string_bytes text.old ++ assumed_field is_assumed) }
{
    if is_assumed {
        text.push_str(",\"assumed\":true")
    } else {
        Ok(())
    }
}

/// The output that a packet reaches if PAGE is followed, or the one that it names.
#[tactic(auto, using(pm_lines::specs::Lemmas::Joins::joins))]
pub(crate) fn push_page_fields(
    text: &mut String,
    reached: Option<u8>,
    named: Option<u8>,
) -> Result<(), AllocError>
    ensures { OnOk result (string_bytes text.new ≡ string_bytes text.old ++ page_fields reached named) }
{
    let Some(page) = reached else {
        return push_number_field_if(text, "page", named.map(u64::from));
    };
    push_number_field(text, "page", u64::from(page))?;
    text.push_str(",\"followed\":true")
}

// A code, and its name.
#[tactic(auto, using(pm_lines::specs::Lemmas::Joins::joins))]
fn push_code_fields(text: &mut String, code: u8) -> Result<(), AllocError>
    ensures { OnOk result (string_bytes text.new ≡ string_bytes text.old ++ code_fields code) }
{
    push_hex_field(text, "code", code)?;
    push_text_field(text, "name", Code(code).name())
}

// A payload's place, and the payload.
#[tactic(auto, using(pm_lines::specs::Lemmas::Joins::joins))]
fn push_payload_fields(
    text: &mut String,
    payload: &[u8],
    answer: Option<&[u8]>,
) -> Result<(), AllocError>
    ensures { OnOk result (string_bytes text.new ≡ string_bytes text.old
        ++ payload_fields payload.now (option_map (λ bytes. bytes.now) answer.entry)) }
{
    match answer {
        None => push_sent_fields(text, payload),
        Some(answer) => {
            push_text_field(text, "direction", "read")?;
            push_bytes_field(text, "payload", answer)
        }
    }
}

/// What was written, or that nothing was.
#[tactic(auto, using(pm_lines::specs::Lemmas::Joins::joins))]
pub(crate) fn push_sent_fields(text: &mut String, payload: &[u8]) -> Result<(), AllocError>
    ensures { OnOk result (string_bytes text.new ≡ string_bytes text.old ++ sent_fields payload.now) }
{
    push_text_field(text, "direction", sent_direction(payload))?;
    push_bytes_field(text, "payload", payload)
}

// Whether something was written, or only sent.
fn sent_direction(payload: &[u8]) -> &'static str
    ensures { result.now ≡ spec_sent_direction payload.now }
{
    if payload.is_empty() { "send" } else { "write" }
}

// What coefficients were asked of, and the coefficients.
#[tactic(auto, using(pm_lines::specs::Lemmas::Joins::joins))]
fn push_coefficients_fields(
    text: &mut String,
    code: u8,
    side: u8,
    answer: &[u8],
) -> Result<(), AllocError>
    ensures { OnOk result (string_bytes text.new ≡ string_bytes text.old ++ coefficients_fields code side answer.now) }
{
    push_code_fields(text, 0x30)?;
    push_hex_field(text, "of", code)?;
    push_number_field(text, "side", u64::from(side))?;
    push_payload_fields(text, &[], Some(answer))?;
    push_numbers(text, coefficients_in(answer))
}

// The three numbers of an answer.
#[tactic(auto, using(pm_lines::specs::Lemmas::Joins::signed_joins))]
fn push_numbers(text: &mut String, coefficients: Coefficients) -> Result<(), AllocError>
    ensures { OnOk result (string_bytes text.new ≡ string_bytes text.old ++ numbers_fields coefficients) }
{
    push_signed_field(text, "m", i128::from(coefficients.m))?;
    push_signed_field(text, "b", i128::from(coefficients.b))?;
    push_signed_field(text, "r", i128::from(coefficients.r))
}
