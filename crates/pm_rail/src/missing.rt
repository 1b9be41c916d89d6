//! Which needed registers a survey may still read, and which the part doesn't have.

ghost use Rattle.std.specs.Prelude.{◌≡◌, ◌<◌, None, find};
ghost use Rattle.pm_num.specs.AnyFormat.{voltage_shape};
ghost use Rattle.pm_table.specs.Cell.{registers};
ghost use Rattle.pm_host.specs.Image.{held as state_held};
ghost use Rattle.pm_rail.specs.Known.{cells_of};
ghost use Rattle.pm_rail.specs.Registers.{held_by, wants_of};
ghost use Rattle.pm_rail.specs.Survey.{is_lacking as spec_is_lacking, is_stuck_in as spec_is_stuck_in, is_unsure as spec_is_unsure};

use crate::known::OutputForm;
use crate::refusals::{Settings, is_unknown};
use pm_host::State;
use pm_table::Reg;

/// The first register that the part has, that is needed and that isn't known.
pub(crate) fn first_unsure(host: &State, form: &OutputForm, settings: &Settings) -> Option<Reg>
    requires { settings.now.output < 8 }
    ensures { let cells = cells_of form.now.registers (voltage_shape form.now.format) (state_held None host.now) in
        result ≡ find (spec_is_unsure form.now.registers cells settings.now.output (held_by settings.now.held) (wants_of settings.now.wanted)) registers }
{
    if is_unsure(host, form, settings, Reg::Operation) {
        Some(Reg::Operation)
    } else if is_unsure(host, form, settings, Reg::VoutCommand) {
        Some(Reg::VoutCommand)
    } else if is_unsure(host, form, settings, Reg::VoutMax) {
        Some(Reg::VoutMax)
    } else if is_unsure(host, form, settings, Reg::MarginHigh) {
        Some(Reg::MarginHigh)
    } else if is_unsure(host, form, settings, Reg::MarginLow) {
        Some(Reg::MarginLow)
    } else if is_unsure(host, form, settings, Reg::VoutMin) {
        Some(Reg::VoutMin)
    } else {
        None
    }
}

// Whether the part has a register, and it is needed and isn't known.
fn is_unsure(host: &State, form: &OutputForm, settings: &Settings, register: Reg) -> bool
    requires { settings.now.output < 8 }
    ensures { let cells = cells_of form.now.registers (voltage_shape form.now.format) (state_held None host.now) in
        result ≡ spec_is_unsure form.now.registers cells settings.now.output (held_by settings.now.held) (wants_of settings.now.wanted) register }
{
    form.registers.has(register) && is_unknown(host, form, settings, register)
}

/// Whether a register is needed that isn't known and that the part doesn't have.
pub(crate) fn is_stuck_in(host: &State, form: &OutputForm, settings: &Settings) -> bool
    requires { settings.now.output < 8 }
    ensures { let cells = cells_of form.now.registers (voltage_shape form.now.format) (state_held None host.now) in
        result ≡ spec_is_stuck_in form.now.registers settings.now.output cells (held_by settings.now.held) (wants_of settings.now.wanted) }
{
    is_lacking(host, form, settings, Reg::VoutMax)
        || is_lacking(host, form, settings, Reg::MarginHigh)
        || is_lacking(host, form, settings, Reg::MarginLow)
        || is_lacking(host, form, settings, Reg::VoutMin)
}

// Whether a register is needed that isn't known and that the part doesn't have.
fn is_lacking(host: &State, form: &OutputForm, settings: &Settings, register: Reg) -> bool
    requires { settings.now.output < 8 }
    ensures { let cells = cells_of form.now.registers (voltage_shape form.now.format) (state_held None host.now) in
        result ≡ spec_is_lacking form.now.registers cells settings.now.output (held_by settings.now.held) (wants_of settings.now.wanted) register }
{
    !form.registers.has(register) && is_unknown(host, form, settings, register)
}
