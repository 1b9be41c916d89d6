//! Values as fields of objects of JSON.
ghost use Rattle.std.specs.Prelude.{◌≡◌, ◌++◌, codes, OnOk, string_bytes};
ghost use Rattle.pm_trace.specs.ValueText.{capability_text, mode_text, on_off_text, relative_text, revision_text};
ghost use Rattle.pm_decode.specs.JsonText.{fraction_by, rounded_field, text_field, unit_key as spec_unit_key, value_fields, value_fields_if};

use crate::json::fields::{push_key, push_signed_field, push_text_field, push_text_key};
use pm_num::Frac;
use pm_table::VoutMode;
use pm_trace::{
    NameMarks, Status, Unit, Value, operation_words, protection_words, push_capability,
    push_millionths, push_mode, push_names, push_on_off, push_relative, push_revision,
};
use std::alloc::AllocError;

/// Appends the fields of a value to a text, if there is one.
pub(crate) fn push_value_fields(text: &mut String, value: Option<Value>) -> Result<(), AllocError>
    ensures { OnOk result (string_bytes text.new ≡ string_bytes text.old ++ value_fields_if value) }
{
    match value {
        Some(value) => push_fields_of(text, value),
        None => Ok(()),
    }
}

// The fields of a value.
#[tactic(auto, using(pm_lines::specs::Lemmas::Joins::joins))]
fn push_fields_of(text: &mut String, value: Value) -> Result<(), AllocError>
    ensures { OnOk result (string_bytes text.new ≡ string_bytes text.old ++ value_fields value) }
{
    match value {
        Value::Measured(ratio, unit) => push_measured_fields(text, ratio, unit),
        Value::Operates(byte) => push_text_field(text, "value", operation_words(byte)),
        Value::Protects(byte) => push_text_field(text, "value", protection_words(byte)),
        Value::Scales(mode) => push_mode_field(text, mode),
        Value::Relative(exponent) => push_relative_field(text, exponent),
        Value::Vid => push_text_field(text, "value", "VID"),
        Value::Half => push_text_field(text, "value", "half"),
        Value::Flags(status, bits) => push_flags_field(text, status, bits),
        Value::Capable(byte) => push_capability_field(text, byte),
        Value::Controls(byte) => push_on_off_field(text, byte),
        Value::Revises(byte) => push_revision_field(text, byte),
    }
}

// A number: its fraction as the word has it, and what it is rounded down to a millionth.
#[tactic(auto, using(pm_lines::specs::Lemmas::Joins::joins))]
fn push_measured_fields(text: &mut String, ratio: Frac, unit: Unit) -> Result<(), AllocError>
    ensures { OnOk result (string_bytes text.new ≡ string_bytes text.old ++ value_fields (Value.Measured ratio unit)) }
{
    push_fraction_by(text, ratio.num(), ratio.den())?;
    push_rounded_field(text, ratio, unit)
}

// A fraction by its two numbers.
#[tactic(auto, using(pm_lines::specs::Lemmas::Joins::signed_joins), unfolding(crate::specs::JsonText::fraction_by))]
fn push_fraction_by(text: &mut String, num: i128, den: i128) -> Result<(), AllocError>
    ensures { OnOk result (string_bytes text.new ≡ string_bytes text.old ++ fraction_by num den) }
{
    push_signed_field(text, "numerator", num)?;
    push_signed_field(text, "denominator", den)
}

// A fraction rounded down to a millionth.
#[tactic(auto, using(pm_lines::specs::Lemmas::Joins::joins), unfolding(crate::specs::JsonText::rounded_field))]
fn push_rounded_field(text: &mut String, ratio: Frac, unit: Unit) -> Result<(), AllocError>
    ensures { OnOk result (string_bytes text.new ≡ string_bytes text.old ++ rounded_field ratio unit) }
{
    push_key(text, unit_key(unit))?;
    push_millionths(text, ratio)
}

// The key of a number with this unit.
fn unit_key(unit: Unit) -> &'static str
    ensures { result.now ≡ spec_unit_key unit }
{
    match unit {
        Unit::Volt => "volts",
        Unit::Ampere => "amperes",
        Unit::Celsius => "celsius",
    }
}

// The mode of an output.
#[tactic(auto, using(pm_lines::specs::Lemmas::Joins::joins), unfolding(crate::specs::JsonText::text_field))]
fn push_mode_field(text: &mut String, mode: VoutMode) -> Result<(), AllocError>
    ensures { OnOk result (string_bytes text.new
        ≡ string_bytes text.old ++ text_field (codes "value") (mode_text mode)) }
{
    push_text_key(text, "value")?;
    push_mode(text, mode)?;
    text.push_str("\"")
}

// The relative mode of an output.
#[tactic(auto, using(pm_lines::specs::Lemmas::Joins::joins), unfolding(crate::specs::JsonText::text_field))]
fn push_relative_field(text: &mut String, exponent: i8) -> Result<(), AllocError>
    ensures { OnOk result (string_bytes text.new
        ≡ string_bytes text.old ++ text_field (codes "value") (relative_text exponent)) }
{
    push_text_key(text, "value")?;
    push_relative(text, exponent)?;
    text.push_str("\"")
}

// A byte of CAPABILITY.
#[tactic(auto, using(pm_lines::specs::Lemmas::Joins::joins), unfolding(crate::specs::JsonText::text_field))]
fn push_capability_field(text: &mut String, byte: u8) -> Result<(), AllocError>
    ensures { OnOk result (string_bytes text.new
        ≡ string_bytes text.old ++ text_field (codes "value") (capability_text byte)) }
{
    push_text_key(text, "value")?;
    push_capability(text, byte)?;
    text.push_str("\"")
}

// A byte of ON_OFF_CONFIG.
#[tactic(auto, using(pm_lines::specs::Lemmas::Joins::joins), unfolding(crate::specs::JsonText::text_field))]
fn push_on_off_field(text: &mut String, byte: u8) -> Result<(), AllocError>
    ensures { OnOk result (string_bytes text.new
        ≡ string_bytes text.old ++ text_field (codes "value") (on_off_text byte)) }
{
    push_text_key(text, "value")?;
    push_on_off(text, byte)?;
    text.push_str("\"")
}

// A byte of PMBUS_REVISION.
#[tactic(auto, using(pm_lines::specs::Lemmas::Joins::joins), unfolding(crate::specs::JsonText::text_field))]
fn push_revision_field(text: &mut String, byte: u8) -> Result<(), AllocError>
    ensures { OnOk result (string_bytes text.new
        ≡ string_bytes text.old ++ text_field (codes "value") (revision_text byte)) }
{
    push_text_key(text, "value")?;
    push_revision(text, byte)?;
    text.push_str("\"")
}

/// As names stand in a list of JSON.
const QUOTED: NameMarks<'static> = NameMarks {
    around: "\"",
    between: ",",
};

// The names of the bits that are set.
#[tactic(auto, using(pm_lines::specs::Lemmas::Joins::joins))]
fn push_flags_field(text: &mut String, status: Status, bits: u16) -> Result<(), AllocError>
    ensures { OnOk result (string_bytes text.new ≡ string_bytes text.old ++ value_fields (Value.Flags status bits)) }
{
    push_key(text, "flags")?;
    text.push_str("[")?;
    push_names(text, &QUOTED, status.rows(), bits, true)?;
    text.push_str("]")
}
