//! The fields of what a packet is marked with.
ghost use Rattle.std.specs.Prelude.{◌≡◌, ◌++◌, OnOk, length, string_bytes};
ghost use Rattle.pm_decode.specs.JsonText.{forbidden_field, lack_field, lines_field, lines_field_if, marks_fields, ones_fields as spec_ones_fields, pec_fields as spec_pec_fields, received_field};

use crate::Marks;
use crate::json::fields::{push_key, push_number_field, push_number_field_if};
use pm_lines::push_decimal;
use pm_trace::Ones;
use std::alloc::AllocError;

/// Appends the fields of a packet's phase, of how it was received, and of what it contradicts, in the line of this number; `write` is its write
/// part.
#[tactic(auto, using(pm_lines::specs::Lemmas::Joins::joins))]
pub fn push_marks_fields(
    text: &mut String,
    number: u64,
    write: &[u8],
    marks: &Marks,
) -> Result<(), AllocError>
    ensures { OnOk result (string_bytes text.new ≡ string_bytes text.old ++ marks_fields number (length write.now) marks.now) }
{
    push_number_field_if(text, "phase", marks.phase.map(u64::from))?;
    push_received_field(text, write, marks.ones)?;
    push_forbidden_field(text, marks.is_forbidden)?;
    push_lines_field_if(text, "wrong", number, marks.wrong)?;
    push_lines_field_if(text, "changed", number, marks.changed)
}

/// Appends the field of a packet of which a byte wasn't acknowledged: the byte's place in the packet.
pub fn push_received_field(text: &mut String, write: &[u8], ones: Ones) -> Result<(), AllocError>
    ensures { OnOk result (string_bytes text.new ≡ string_bytes text.old ++ received_field (length write.now) ones) }
{
    let Ones::Refused(refusal) = ones else {
        return Ok(());
    };
    let place = u64::from(refusal.place);
    let written = write.len() as u64;
    push_number_field(
        text,
        "refused_at",
        if refusal.of_answer {
            written + place
        } else {
            place
        },
    )
}

// Appends the field of a write of PAGE that WRITE_PROTECT forbids.
fn push_forbidden_field(text: &mut String, is_forbidden: bool) -> Result<(), AllocError>
    ensures { OnOk result (string_bytes text.new ≡ string_bytes text.old ++ forbidden_field is_forbidden) }
{
    if is_forbidden {
        text.push_str(",\"forbidden\":true")
    } else {
        Ok(())
    }
}

// Appends the field of this name of the two lines of which one contradicts the other, if there are two.
fn push_lines_field_if(
    text: &mut String,
    name: &str,
    number: u64,
    line: Option<u64>,
) -> Result<(), AllocError>
    ensures { OnOk result (string_bytes text.new ≡ string_bytes text.old ++ lines_field_if name.now number line) }
{
    match line {
        Some(line) => push_lines_field(text, name, line, number),
        None => Ok(()),
    }
}

// Appends the field of two lines.
#[tactic(auto, using(pm_lines::specs::Lemmas::Joins::joins), unfolding(crate::specs::JsonText::lines_field))]
fn push_lines_field(text: &mut String, name: &str, line: u64, number: u64) -> Result<(), AllocError>
    ensures { OnOk result (string_bytes text.new ≡ string_bytes text.old ++ lines_field name.now line number) }
{
    push_key(text, name)?;
    text.push_str("[")?;
    push_decimal(text, line)?;
    text.push_str(",")?;
    push_decimal(text, number)?;
    text.push_str("]")
}

/// Appends that a packet lacks its PEC, if it does.
pub fn push_lack_field(text: &mut String, marks: &Marks) -> Result<(), AllocError>
    ensures { OnOk result (string_bytes text.new ≡ string_bytes text.old ++ lack_field marks.now.ones marks.now.lacks) }
{
    if marks.lacks {
        text.push_str(ones_fields(marks.ones))
    } else {
        Ok(())
    }
}

/// Whether a packet has its PEC, by its answer of ones.
pub(crate) fn pec_fields(is_right: bool, ones: Ones) -> &'static str
    ensures { result.now ≡ spec_pec_fields is_right ones }
{
    if is_right {
        ",\"pec\":true"
    } else {
        ones_fields(ones)
    }
}

// The fields of a packet that has no right PEC, whose answer of ones is taken so.
fn ones_fields(ones: Ones) -> &'static str
    ensures { result.now ≡ spec_ones_fields ones }
{
    match ones {
        Ones::Answer | Ones::Refused(_) => ",\"pec\":false",
        Ones::Doubtful => ",\"pec\":false,\"answered\":null",
        Ones::Nobody => ",\"pec\":false,\"answered\":false",
    }
}
