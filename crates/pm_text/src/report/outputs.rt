//! The lines of outputs: what each commands, its settings, and its status.
ghost use Rattle.std.specs.Prelude.{◌≡◌, ◌<◌, ◌++◌, ℤ, ◌≤ℤ◌, OnOk, string_bytes};
ghost use Rattle.pm_num.specs.Ratio.{AtMost, micros};
ghost use Rattle.pm_text.specs.Report.{all_outputs, commanded_line, floor_micros, on_text, output_head, output_lines, register_lines, status_line, voltage_text};

use crate::form::Form;
use crate::report::settings::push_register;
use pm_lines::{push_decimal, push_hex, push_hex_word, push_signed};
use pm_num::Frac;
use pm_world::World;
use std::alloc::AllocError;

/// Appends the lines of all outputs.
pub(crate) fn push_outputs(text: &mut String, form: Form, world: &World) -> Result<(), AllocError>
    ensures { OnOk result (string_bytes text.new
        ≡ string_bytes text.old ++ all_outputs form world.now) }
{
    for output in 0..world.device().count() {
        push_output(text, form, world, output)?;
    }
    Ok(())
}

// The lines of an output.
#[tactic(auto, using(pm_lines::specs::Lemmas::Joins::joins), unfolding(crate::specs::Report::output_lines))]
fn push_output(text: &mut String, form: Form, world: &World, output: u8) -> Result<(), AllocError>
    requires { output < world.now.device.config.count }
    ensures { OnOk result (string_bytes text.new
        ≡ string_bytes text.old ++ output_lines form world.now output) }
{
    let device = world.device();
    push_commanded(text, output, device.is_on(output), device.commanded(output))?;
    push_registers(text, form, world, output)?;
    push_status(text, world, output)
}

// What an output commands.
#[tactic(auto, using(pm_lines::specs::Lemmas::Joins::joins), unfolding(crate::specs::Report::commanded_line))]
fn push_commanded(
    text: &mut String,
    output: u8,
    is_on: bool,
    voltage: Frac,
) -> Result<(), AllocError>
    ensures { OnOk result (string_bytes text.new
        ≡ string_bytes text.old ++ commanded_line output is_on voltage) }
{
    push_head(text, output, is_on)?;
    text.push_str(" commanded ")?;
    push_voltage(text, voltage)?;
    text.push_str("\n")
}

// The number of an output, and whether it is on.
#[tactic(auto, using(pm_lines::specs::Lemmas::Joins::joins), unfolding(crate::specs::Report::output_head, crate::specs::Report::on_text))]
fn push_head(text: &mut String, output: u8, is_on: bool) -> Result<(), AllocError>
    ensures { OnOk result (string_bytes text.new
        ≡ string_bytes text.old ++ output_head output is_on) }
{
    text.push_str("output ")?;
    push_decimal(text, u64::from(output))?;
    text.push_str(if is_on { " on" } else { " off" })
}

// The settings of an output.
fn push_registers(
    text: &mut String,
    form: Form,
    world: &World,
    output: u8,
) -> Result<(), AllocError>
    requires { output < world.now.device.config.count }
    ensures { OnOk result (string_bytes text.new
        ≡ string_bytes text.old ++ register_lines form world.now output) }
{
    for register in form.registers() {
        push_register(text, form, world, output, *register)?;
    }
    Ok(())
}

// A voltage: the fraction as it stands, and the whole microvolts.
#[tactic(auto, using(pm_lines::specs::Lemmas::Joins::signed_joins), unfolding(crate::specs::Report::voltage_text))]
fn push_voltage(text: &mut String, value: Frac) -> Result<(), AllocError>
    ensures { OnOk result (string_bytes text.new
        ≡ string_bytes text.old ++ voltage_text value) }
{
    push_signed(text, value.num())?;
    text.push_str("/")?;
    push_decimal(text, value.den() as u64)?;
    text.push_str(" ")?;
    push_signed(text, microvolts(value))?;
    text.push_str(" uV")
}

/// The whole microvolts of a voltage: the most of which it has no fewer.
pub fn microvolts(value: Frac) -> i128
    ensures value { result ≡ floor_micros value }
    ensures greatest { (k : ℤ) → AtMost (micros k) value → k ≤ℤ result }
{
    value.floor_micro()
}

// The status registers of an output.
#[tactic(auto, using(pm_lines::specs::Lemmas::Joins::joins), unfolding(crate::specs::Report::status_line))]
fn push_status(text: &mut String, world: &World, output: u8) -> Result<(), AllocError>
    requires { output < world.now.device.config.count }
    ensures { OnOk result (string_bytes text.new
        ≡ string_bytes text.old ++ status_line world.now output) }
{
    let device = world.device();
    text.push_str("status ")?;
    push_hex(text, device.status_byte(output))?;
    text.push_str(" ")?;
    push_hex_word(text, device.status_word(output))?;
    text.push_str(" ")?;
    push_hex(text, device.status_vout(output))?;
    text.push_str("\n")
}
