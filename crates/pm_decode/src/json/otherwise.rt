//! The fields of a packet that is shown by its code and bytes.
ghost use Rattle.std.specs.Prelude.{◌≡◌, ◌++◌, option_map, OnOk, string_bytes};
ghost use Rattle.pm_trace.specs.Contents.{content_in};
ghost use Rattle.pm_decode.specs.JsonText.{content_fields, meaning_fields, name_field, other_fields, other_payload_by};

use crate::json::fields::{push_address_field, push_bytes_field, push_hex_field, push_text_field};
use crate::json::judged::{push_page_fields, push_sent_fields};
use crate::json::marks::pec_fields;
use crate::json::value::push_value_fields;
use pm_trace::{Content, Otherwise, Packet, other_value, standard_name};
use std::alloc::AllocError;

/// Appends the fields of a packet that is shown by its code and bytes.
#[tactic(auto, using(pm_lines::specs::Lemmas::Joins::joins), unfolding(crate::specs::JsonText::other_fields))]
pub fn push_other_fields(
    text: &mut String,
    otherwise: &Otherwise,
    packet: &Packet<'_>,
) -> Result<(), AllocError>
    ensures { OnOk result (string_bytes text.new ≡ string_bytes text.old
        ++ other_fields otherwise.now packet.now.write.now (option_map (λ bytes. bytes.now) packet.now.read)) }
{
    let has_pec = packet.has_pec();
    push_address_field(text, Some(otherwise.addr))?;
    push_content_fields(
        text,
        otherwise.values,
        otherwise.reached,
        &packet.content(has_pec),
    )?;
    text.push_str(pec_fields(has_pec, otherwise.ones))
}

// The page, the code and the bytes of a packet, and what they say.
#[tactic(auto, using(pm_lines::specs::Lemmas::Joins::joins), unfolding(crate::specs::JsonText::content_fields))]
fn push_content_fields(
    text: &mut String,
    values: bool,
    reached: Option<u8>,
    content: &Content<'_>,
) -> Result<(), AllocError>
    ensures { OnOk result (string_bytes text.new ≡ string_bytes text.old ++ content_fields values reached (content_in content.now)) }
{
    push_page_fields(text, reached, content.page)?;
    push_hex_field(text, "code", content.code)?;
    push_name_field(text, standard_name(content.code))?;
    push_other_payload(text, content.written, content.answer)?;
    push_meaning_fields(text, values, content)
}

// The name of a code, if it has one.
fn push_name_field(text: &mut String, name: &str) -> Result<(), AllocError>
    ensures { OnOk result (string_bytes text.new ≡ string_bytes text.old ++ name_field name.now) }
{
    if name.is_empty() {
        return Ok(());
    }
    push_text_field(text, "name", name)
}

/// Appends the fields of what was written and read.
#[tactic(auto, using(pm_lines::specs::Lemmas::Joins::joins))]
pub fn push_other_payload(
    text: &mut String,
    written: &[u8],
    answer: Option<&[u8]>,
) -> Result<(), AllocError>
    ensures { OnOk result (string_bytes text.new ≡ string_bytes text.old
        ++ other_payload_by written.now (option_map (λ bytes. bytes.now) answer.entry)) }
{
    match answer {
        None => push_sent_fields(text, written),
        Some(answer) => {
            push_text_field(text, "direction", "read")?;
            push_bytes_field(text, "written", written)?;
            push_bytes_field(text, "payload", answer)
        }
    }
}

// What the bytes say, if that is asked for.
fn push_meaning_fields(
    text: &mut String,
    values: bool,
    content: &Content<'_>,
) -> Result<(), AllocError>
    ensures { OnOk result (string_bytes text.new ≡ string_bytes text.old ++ meaning_fields values (content_in content.now)) }
{
    if !values {
        return Ok(());
    }
    match content.letters() {
        Some(letters) => push_text_field(text, "text", letters),
        None => push_value_fields(text, other_value(content.code, content.said())),
    }
}
