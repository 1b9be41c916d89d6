//! The texts of values.
ghost use Rattle.std.specs.Prelude.{◌≡◌, ◌++◌, ◌*◌, ◌/◌, ◌%◌, ◌^◌, ◌<◌, ◌≤ℤ◌, ◌<ℤ◌, pos, neg_ℤ, unsigned_abs, OnOk, map, string_bytes};
ghost use Rattle.pm_trace.specs.Statuses.{names_from};
ghost use Rattle.pm_trace.specs.ValueText.{capability_text, control_text, millionths_text, delay_text, flags_text, known_text, minus as minus_text, mode_text, on_off_text, operation_text, part_text, pec_text, digits_after_point, point_text, polarity_text, protection_text, relative_text, revision_text, size_text, speed_text, switch_text, unit_text, value_text};
ghost use Rattle.pm_trace.specs.Values.{millionths as spec_millionths};

use crate::decimals::push_millionths;
use crate::names::{NameMarks, push_names};
use crate::status::{Status, capability_rows, on_off_rows};
use crate::value::{Unit, Value};
use pm_lines::{push_decimal, push_signed};
use pm_num::Frac;
use pm_table::VoutMode;
use std::alloc::AllocError;

/// Appends a space and a value to a text, if there is a value, as ` 3.300048 V`.
#[tactic(auto, using(pm_lines::specs::Lemmas::Joins::joins))]
pub fn push_known(text: &mut String, value: Option<Value>) -> Result<(), AllocError>
    ensures { OnOk result (string_bytes text.new ≡ string_bytes text.old ++ known_text value) }
{
    let Some(value) = value else {
        return Ok(());
    };
    text.push_str(" ")?;
    push_value(text, value)
}

// Appends a value to a text.
#[tactic(auto, using(pm_lines::specs::Lemmas::Joins::joins), unfolding(crate::specs::ValueText::value_text))]
fn push_value(text: &mut String, value: Value) -> Result<(), AllocError>
    ensures { OnOk result (string_bytes text.new ≡ string_bytes text.old ++ value_text value) }
{
    match value {
        Value::Measured(ratio, unit) => push_measured(text, ratio, unit),
        Value::Operates(byte) => text.push_str(operation_words(byte)),
        Value::Protects(byte) => text.push_str(protection_words(byte)),
        Value::Scales(mode) => push_mode(text, mode),
        Value::Relative(exponent) => push_relative(text, exponent),
        Value::Vid => text.push_str("VID"),
        Value::Half => text.push_str("half"),
        Value::Flags(status, bits) => push_flags(text, status, bits),
        Value::Capable(byte) => push_capability(text, byte),
        Value::Controls(byte) => push_on_off(text, byte),
        Value::Revises(byte) => push_revision(text, byte),
    }
}

impl Unit {
    /// The unit as it is shown: `V`, `A` or `C`.
    pub fn text(self) -> &'static str
        ensures { result.now ≡ unit_text self }
    {
        match self {
            Unit::Volt => "V",
            Unit::Ampere => "A",
            Unit::Celsius => "C",
        }
    }
}

/// What a byte of OPERATION asks for, which is below C0h.
pub fn operation_words(byte: u8) -> &'static str
    ensures { result.now ≡ operation_text byte }
{
    match byte {
        0x00..=0x3F => "off",
        0x40..=0x7F => "soft off",
        0x80..=0x8F => "on",
        0x94..=0x9B => "on, margin low",
        0x90..=0x9F => "on, margin low, reserved fault bits",
        0xA4..=0xAB => "on, margin high",
        0xA0..=0xAF => "on, margin high, reserved fault bits",
        _ => "on, AVSBus",
    }
}

/// Which writes a byte of WRITE_PROTECT lets through: 00h, 20h or 40h, and for any other byte as 80h.
pub fn protection_words(byte: u8) -> &'static str
    ensures { result.now ≡ protection_text byte }
{
    match byte {
        0x00 => "all writes",
        0x20 => "writes of WRITE_PROTECT, OPERATION, PAGE, ON_OFF_CONFIG and VOUT_COMMAND",
        0x40 => "writes of WRITE_PROTECT, OPERATION and PAGE",
        _ => "writes of WRITE_PROTECT",
    }
}

/// Appends the mode of an output to a text, as `ULINEAR16 -12` or `DIRECT`.
#[tactic(auto, using(pm_lines::specs::Lemmas::Joins::signed_joins))]
pub fn push_mode(text: &mut String, mode: VoutMode) -> Result<(), AllocError>
    ensures { OnOk result (string_bytes text.new ≡ string_bytes text.old ++ mode_text mode) }
{
    match mode {
        VoutMode::Linear(n) => {
            text.push_str("ULINEAR16 ")?;
            push_signed(text, i128::from(n))
        }
        VoutMode::Direct => text.push_str("DIRECT"),
    }
}

/// Appends a relative mode of an output to a text, as `ULINEAR16 -9 relative`.
#[tactic(auto, using(pm_lines::specs::Lemmas::Joins::signed_joins), unfolding(crate::specs::ValueText::relative_text))]
pub fn push_relative(text: &mut String, exponent: i8) -> Result<(), AllocError>
    ensures { OnOk result (string_bytes text.new ≡ string_bytes text.old ++ relative_text exponent) }
{
    text.push_str("ULINEAR16 ")?;
    push_signed(text, i128::from(exponent))?;
    text.push_str(" relative")
}

// A number with its unit.
#[tactic(auto, using(pm_lines::specs::Lemmas::Joins::joins), unfolding(crate::specs::ValueText::value_text))]
fn push_measured(text: &mut String, ratio: Frac, unit: Unit) -> Result<(), AllocError>
    ensures { OnOk result (string_bytes text.new ≡ string_bytes text.old ++ value_text (Value.Measured ratio unit)) }
{
    push_millionths(text, ratio)?;
    text.push_str(" ")?;
    text.push_str(unit.text())
}

/// As names are shown to a person.
const PLAIN: NameMarks<'static> = NameMarks {
    around: "",
    between: ", ",
};

// The names of the bits that are set.
fn push_flags(text: &mut String, status: Status, bits: u16) -> Result<(), AllocError>
    ensures { OnOk result (string_bytes text.new ≡ string_bytes text.old ++ flags_text status bits) }
{
    if bits == 0 {
        return text.push_str("none");
    }
    push_names(text, &PLAIN, status.rows(), bits, true)
}

/// Appends a byte of CAPABILITY to a text, as `PEC, 400 kHz, SMBALERT#`.
#[tactic(auto, using(pm_lines::specs::Lemmas::Joins::joins), unfolding(crate::specs::ValueText::capability_text))]
pub fn push_capability(text: &mut String, byte: u8) -> Result<(), AllocError>
    ensures { OnOk result (string_bytes text.new ≡ string_bytes text.old ++ capability_text byte) }
{
    text.push_str(pec_words(byte))?;
    text.push_str(speed_words(byte))?;
    push_names(text, &PLAIN, capability_rows(), u16::from(byte), false)
}

// Whether CAPABILITY has PEC.
fn pec_words(byte: u8) -> &'static str
    ensures { result.now ≡ pec_text byte }
{
    if byte & 0x80 == 0 { "" } else { "PEC, " }
}

// The fastest bus of CAPABILITY.
fn speed_words(byte: u8) -> &'static str
    ensures { result.now ≡ speed_text byte }
{
    let speed = byte & 0x60;
    if speed == 0x00 {
        "100 kHz"
    } else if speed == 0x20 {
        "400 kHz"
    } else if speed == 0x40 {
        "1 MHz"
    } else {
        "reserved speed"
    }
}

/// Appends a byte of ON_OFF_CONFIG to a text, as `by OPERATION`.
#[tactic(auto, using(pm_lines::specs::Lemmas::Joins::joins), unfolding(crate::specs::ValueText::on_off_text))]
pub fn push_on_off(text: &mut String, byte: u8) -> Result<(), AllocError>
    ensures { OnOk result (string_bytes text.new ≡ string_bytes text.old ++ on_off_text byte) }
{
    text.push_str(switch_words(byte))?;
    push_control(text, byte)?;
    push_names(text, &PLAIN, on_off_rows(), u16::from(byte), false)
}

/// Appends a byte of PMBUS_REVISION to a text, as `Part I 1.3, Part II 1.3`.
#[tactic(auto, using(pm_lines::specs::Lemmas::Joins::joins), unfolding(crate::specs::ValueText::revision_text))]
pub fn push_revision(text: &mut String, byte: u8) -> Result<(), AllocError>
    ensures { OnOk result (string_bytes text.new ≡ string_bytes text.old ++ revision_text byte) }
{
    text.push_str("Part I ")?;
    text.push_str(part_words(byte / 16))?;
    text.push_str(", Part II ")?;
    text.push_str(part_words(byte % 16))
}

// The version of a part of the standard by its digit, which is below 4.
fn part_words(digit: u8) -> &'static str
    ensures { result.now ≡ part_text digit }
{
    match digit {
        0 => "1.0",
        1 => "1.1",
        2 => "1.2",
        _ => "1.3",
    }
}

// What turns an output on and off.
fn switch_words(byte: u8) -> &'static str
    ensures { result.now ≡ switch_text byte }
{
    if byte & 0x10 == 0 {
        return "always on";
    }
    let both = byte & 0x0C;
    if both == 0x0C {
        "by OPERATION and CONTROL"
    } else if both == 0x08 {
        "by OPERATION"
    } else if both == 0x04 {
        "by CONTROL"
    } else {
        "by neither"
    }
}

// How CONTROL turns the output on, if it does.
#[tactic(auto, using(pm_lines::specs::Lemmas::Joins::joins))]
fn push_control(text: &mut String, byte: u8) -> Result<(), AllocError>
    ensures { OnOk result (string_bytes text.new ≡ string_bytes text.old ++ control_text byte) }
{
    if byte & 0x14 != 0x14 {
        return Ok(());
    }
    text.push_str(polarity_words(byte))?;
    text.push_str(delay_words(byte))
}

// Which level of CONTROL is active.
fn polarity_words(byte: u8) -> &'static str
    ensures { result.now ≡ polarity_text byte }
{
    if byte & 0x02 == 0 {
        ", CONTROL active low"
    } else {
        ", CONTROL active high"
    }
}

// How CONTROL turns off.
fn delay_words(byte: u8) -> &'static str
    ensures { result.now ≡ delay_text byte }
{
    if byte & 0x01 == 0 {
        ", off with delay"
    } else {
        ", off at once"
    }
}
