//! The fields of a packet with a fault.
ghost use Rattle.std.specs.Prelude.{◌≡◌, ◌++◌, option_map, if◌then◌else◌, codes, OnOk, string_bytes};
ghost use Rattle.pm_frame.specs.FaultWords.{frame_fault_place};
ghost use Rattle.pm_decode.specs.JsonText.{fault_fields, kind_fields, whole_field, whole_words};

use crate::json::fields::{push_number_field_if, push_text_field, push_text_key};
use pm_frame::FrameFault;
use pm_lines::push_hex;
use pm_trace::{Packet, push_spaced};
use std::alloc::AllocError;

/// Appends the fields of a packet with a fault, but for its address.
#[tactic(auto, using(pm_lines::specs::Lemmas::Joins::joins))]
pub(crate) fn push_fault_fields(
    text: &mut String,
    values: bool,
    packet: &Packet<'_>,
    is_read: bool,
    fault: FrameFault,
) -> Result<(), AllocError>
    ensures { OnOk result (string_bytes text.new ≡ string_bytes text.old
        ++ fault_fields values packet.now.write.now (option_map (λ bytes. bytes.now) packet.now.read) is_read fault) }
{
    push_text_field(text, "direction", direction(is_read))?;
    push_whole_field(text, values, packet)?;
    push_kind_fields(text, fault)
}

// A fault, and its place.
#[tactic(auto, using(pm_lines::specs::Lemmas::Joins::joins))]
fn push_kind_fields(text: &mut String, fault: FrameFault) -> Result<(), AllocError>
    ensures { OnOk result (string_bytes text.new ≡ string_bytes text.old ++ kind_fields fault) }
{
    push_text_field(text, "fault", fault.words())?;
    push_number_field_if(text, "place", place_of(fault))
}

// The place of a fault, if it has one.
fn place_of(fault: FrameFault) -> Option<u64>
    ensures { result ≡ frame_fault_place fault }
{
    match fault.place() {
        Some(place) => Some(place as u64),
        None => None,
    }
}

// The part that has the fault.
fn direction(is_read: bool) -> &'static str
    ensures { result.now ≡ (if is_read then codes "read" else codes "write") }
{
    if is_read { "read" } else { "write" }
}

// All bytes of a packet, if they are asked for.
#[tactic(auto, using(pm_lines::specs::Lemmas::Joins::joins), unfolding(crate::specs::JsonText::text_field))]
fn push_whole_field(text: &mut String, values: bool, packet: &Packet<'_>) -> Result<(), AllocError>
    ensures { OnOk result (string_bytes text.new ≡ string_bytes text.old
        ++ whole_field values packet.now.write.now (option_map (λ bytes. bytes.now) packet.now.read)) }
{
    if !values || packet.write.is_empty() && packet.read.is_none() {
        return Ok(());
    }
    push_text_key(text, "packet")?;
    push_whole_words(text, packet)?;
    text.push_str("\"")
}

// All bytes of a packet, with a slash before those that were read.
#[tactic(auto, using(pm_lines::specs::Lemmas::Joins::joins), unfolding(crate::specs::JsonText::whole_words))]
fn push_whole_words(text: &mut String, packet: &Packet<'_>) -> Result<(), AllocError>
    ensures { OnOk result (string_bytes text.new ≡ string_bytes text.old
        ++ whole_words packet.now.write.now (option_map (λ bytes. bytes.now) packet.now.read)) }
{
    match (packet.write, packet.read) {
        ([], None) => Ok(()),
        ([], Some(read)) => {
            text.push_str("/")?;
            push_spaced(text, read)
        }
        ([byte, rest @ ..], None) => {
            push_hex(text, *byte)?;
            push_spaced(text, rest)
        }
        ([byte, rest @ ..], Some(read)) => {
            push_hex(text, *byte)?;
            push_spaced(text, rest)?;
            text.push_str(" /")?;
            push_spaced(text, read)
        }
    }
}
