//! The line of a packet whose address is no part's.
ghost use Rattle.std.specs.Prelude.{◌≡◌, ◌++◌, ◌/◌, Ok, OnOk, codes, drop, option_map, slice_index, string_bytes};
ghost use Rattle.pm_decode.specs.ShownReadings.{packet_in};
ghost use Rattle.pm_decode.specs.JsonText.{other_payload_by};
ghost use Rattle.pm_trace.specs.Otherwise.{carried_by};
ghost use Rattle.pm_decode.specs.CaptureText.{aside_fields, aside_json, aside_line, aside_plain, aside_words, behind_first as spec_behind_first};

use crate::line_text::{push_received, push_time};
use crate::{
    PacketLine, Special, push_address_field, push_other_payload, push_received_field,
    push_signed_field_if, push_text_field,
};
use pm_lines::{push_decimal, push_hex};
use pm_trace::{Packet, push_carried};
use std::alloc::AllocError;

/// Appends the line of a packet to a special address, without a line feed.
pub(crate) fn push_aside(
    text: &mut String,
    json: bool,
    special: Special,
    since: Option<i128>,
    line: &PacketLine<'_>,
) -> Result<(), AllocError>
    ensures { OnOk result (string_bytes text.new ++ codes "\n" ≡ string_bytes text.old
        ++ aside_line json special line.now.ones line.now.number since (Ok (packet_in line.now.packet))) }
{
    if json {
        push_object(text, special, since, line)
    } else {
        push_words(text, special, since, line)
    }
}

// As it is shown to a person.
#[tactic(auto, using(pm_lines::specs::Lemmas::Joins::joins), unfolding(crate::specs::CaptureText::aside_plain))]
fn push_words(
    text: &mut String,
    special: Special,
    since: Option<i128>,
    line: &PacketLine<'_>,
) -> Result<(), AllocError>
    ensures { OnOk result (string_bytes text.new ++ codes "\n" ≡ string_bytes text.old
        ++ aside_plain special line.now.ones line.now.number since (packet_in line.now.packet)) }
{
    push_decimal(text, line.number)?;
    push_time(text, since)?;
    text.push_str(" ")?;
    push_said(text, special, line)
}

// The address, what it is, and what was written and read.
#[tactic(auto, using(pm_lines::specs::Lemmas::Joins::joins), unfolding(crate::specs::CaptureText::aside_words))]
fn push_said(text: &mut String, special: Special, line: &PacketLine<'_>) -> Result<(), AllocError>
    ensures { OnOk result (string_bytes text.new ≡ string_bytes text.old
        ++ aside_words special line.now.ones (slice_index line.now.packet.write.now 0 / 2) (packet_in line.now.packet)) }
{
    push_hex(text, address_of(line))?;
    text.push_str(" ")?;
    text.push_str(special.words())?;
    push_bytes(text, &line.packet)?;
    push_received(text, line.ones)
}

// What was written and read behind the address.
fn push_bytes(text: &mut String, packet: &Packet<'_>) -> Result<(), AllocError>
    ensures { OnOk result (string_bytes text.new ≡ string_bytes text.old
        ++ carried_by (spec_behind_first (packet_in packet.now).write) (option_map spec_behind_first (packet_in packet.now).read)) }
{
    push_carried(text, behind_first(packet.write), read_behind(packet))
}

// As an object of JSON.
#[tactic(auto, using(pm_lines::specs::Lemmas::Joins::joins), unfolding(crate::specs::CaptureText::aside_json))]
fn push_object(
    text: &mut String,
    special: Special,
    since: Option<i128>,
    line: &PacketLine<'_>,
) -> Result<(), AllocError>
    ensures { OnOk result (string_bytes text.new ++ codes "\n" ≡ string_bytes text.old
        ++ aside_json special line.now.ones line.now.number since (packet_in line.now.packet)) }
{
    text.push_str("{\"line\":")?;
    push_decimal(text, line.number)?;
    push_signed_field_if(text, "time", since)?;
    push_said_fields(text, special, line)?;
    text.push_str("}")
}

// The fields of the address, of what it is, and of what was written and read.
#[tactic(auto, using(pm_lines::specs::Lemmas::Joins::joins), unfolding(crate::specs::CaptureText::aside_fields))]
fn push_said_fields(
    text: &mut String,
    special: Special,
    line: &PacketLine<'_>,
) -> Result<(), AllocError>
    ensures { OnOk result (string_bytes text.new ≡ string_bytes text.old
        ++ aside_fields special line.now.ones (slice_index line.now.packet.write.now 0 / 2) (packet_in line.now.packet)) }
{
    push_address_field(text, Some(address_of(line)))?;
    push_text_field(text, "special", special.words())?;
    push_bytes_fields(text, &line.packet)?;
    push_received_field(text, line.packet.write, line.ones)
}

// The fields of what was written and read behind the address.
fn push_bytes_fields(text: &mut String, packet: &Packet<'_>) -> Result<(), AllocError>
    ensures { OnOk result (string_bytes text.new ≡ string_bytes text.old
        ++ other_payload_by (spec_behind_first (packet_in packet.now).write) (option_map spec_behind_first (packet_in packet.now).read)) }
{
    push_other_payload(text, behind_first(packet.write), read_behind(packet))
}

// The address of a packet, by its first byte.
fn address_of(line: &PacketLine<'_>) -> u8
    ensures { result ≡ slice_index line.now.packet.write.now 0 / 2 }
{
    line.packet.write.first().copied().unwrap_or(0) / 2
}

// What follows the first byte.
fn behind_first(bytes: &[u8]) -> &[u8]
    ensures { result.now ≡ drop 1 bytes.now }
{
    match bytes {
        [_, rest @ ..] => rest,
        [] => bytes,
    }
}

// What was read behind the address, if anything was.
fn read_behind<'a>(packet: &Packet<'a>) -> Option<&'a [u8]>
    ensures { option_map (λ bytes. bytes.now) result ≡ option_map spec_behind_first (packet_in packet.now).read }
{
    match packet.read {
        Some(read) => Some(behind_first(read)),
        None => None,
    }
}
