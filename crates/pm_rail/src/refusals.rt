//! Why no order of a plan is given.

ghost use Rattle.std.specs.Prelude.{◌≡◌, ◌<◌, ◌≤◌, ◌^◌, None, find, unsigned_abs};
ghost use Rattle.pm_num.specs.AnyFormat.{voltage_value, voltage_shape};
ghost use Rattle.pm_num.specs.Ratio.{is_above as spec_is_above, micros};
ghost use Rattle.pm_table.specs.Cell.{registers};
ghost use Rattle.pm_host.specs.Image.{held as state_held};
ghost use Rattle.pm_rail.specs.Known.{cells_of};
ghost use Rattle.pm_rail.specs.Orders.{above_limit_fault, below_limit_fault, is_above_max as spec_is_above_max, is_below_min as spec_is_below_min, is_meant as spec_is_meant, is_unknown as spec_is_unknown, is_wanted_missing as spec_is_wanted_missing, missing_fault, is_needed as spec_is_needed, is_protected as spec_is_protected, first_of, is_wanted as spec_is_wanted, is_wanted_above as spec_is_wanted_above, is_wanted_below as spec_is_wanted_below, limits_fault, voltages, planned_fault, protection_fault, unknown_fault, words_fault};
ghost use Rattle.pm_rail.specs.Plan.{next_register};
ghost use Rattle.pm_rail.specs.Registers.{held_by, wants_of};

use crate::fault::PlanFault;
use crate::known::{OutputForm, known_at, known_or};
use crate::plan::goal;
use crate::registers::Registers;
use crate::wanted::Wanted;
use pm_host::State;
use pm_limits::{Limits, OutputLimits, PartRegisters};
use pm_num::{Frac, NumFormat, VoltageFormat, micro};
use pm_table::{Cell, Operation, Reg, is_allowed};
use std::cmp::Ordering;

/// The settings of an output: the words that its registers are known to hold, and those that are wanted.
#[derive(Clone, Copy)]
pub(crate) struct Settings {
    /// The output's number.
    pub output: u8,
    /// The words that its registers hold; 0 if that isn't known.
    pub held: Registers,
    /// The words that are wanted.
    pub wanted: Wanted,
}

/// L8, L3, L4 and P4 to P7, by the words that are known to be held and the register that is next.
pub(crate) fn refuse(
    host: &State,
    form: &OutputForm,
    limits: &OutputLimits,
    settings: &Settings,
    next: Option<Reg>,
) -> Option<PlanFault>
    requires output { settings.now.output < 8 }
    requires next { next ≡ next_register (voltage_value form.now.format) (held_by settings.now.held) (wants_of settings.now.wanted) }
    ensures { let cells = cells_of form.now.registers (voltage_shape form.now.format) (state_held None host.now) in
        result ≡ planned_fault cells limits.now settings.now.output (held_by settings.now.held) (wants_of settings.now.wanted)
        (voltage_value form.now.format) }
{
    let (held, wanted) = (&settings.held, &settings.wanted);
    if let Some(fault) = refuse_limits(limits, &form.format, wanted) {
        return Some(fault);
    }
    if let Some(fault) = refuse_unknown(host, form, settings) {
        return Some(fault);
    }
    if next.is_some() && known_at(host, form, Cell::Protect).is_none() {
        return Some(PlanFault::NotKnown(Cell::Protect));
    }
    if let Some(fault) = refuse_words(&form.format, held, wanted) {
        return Some(fault);
    }
    refuse_protected(known_or(host, form, Cell::Protect), held, wanted)
}

// L8, L3 and L4.
fn refuse_limits(
    limits: &OutputLimits,
    format: &VoltageFormat,
    wanted: &Wanted,
) -> Option<PlanFault>
    ensures { result ≡ limits_fault limits.now (voltage_value format.now) (wants_of wanted.now) }
{
    match limits {
        OutputLimits::Between(limits) => {
            let ends = ends_of(limits);
            refuse_below(&ends.least, format, wanted).or(refuse_above(&ends.most, format, wanted))
        }
        OutputLimits::Unknown => refuse_wanted(wanted),
        OutputLimits::Unlimited => None,
    }
}

// L8: the first register of which a word is wanted.
fn refuse_wanted(wanted: &Wanted) -> Option<PlanFault>
    ensures { result ≡ first_of voltages (λ register. PlanFault.NoLimits register) (spec_is_wanted (wants_of wanted.now)) }
{
    if is_wanted(wanted, Reg::VoutCommand) {
        Some(PlanFault::NoLimits(Reg::VoutCommand))
    } else if is_wanted(wanted, Reg::VoutMax) {
        Some(PlanFault::NoLimits(Reg::VoutMax))
    } else if is_wanted(wanted, Reg::MarginHigh) {
        Some(PlanFault::NoLimits(Reg::MarginHigh))
    } else if is_wanted(wanted, Reg::MarginLow) {
        Some(PlanFault::NoLimits(Reg::MarginLow))
    } else if is_wanted(wanted, Reg::VoutMin) {
        Some(PlanFault::NoLimits(Reg::VoutMin))
    } else {
        None
    }
}

// Whether a word is wanted of the register.
fn is_wanted(wanted: &Wanted, register: Reg) -> bool
    ensures { result ≡ spec_is_wanted (wants_of wanted.now) register }
{
    wanted.word(register).is_some()
}

// L3: the first register of which a lower word is wanted.
fn refuse_below(least: &Frac, format: &VoltageFormat, wanted: &Wanted) -> Option<PlanFault>
    ensures { result ≡ below_limit_fault least.now (voltage_value format.now) (wants_of wanted.now) }
{
    if is_wanted_below(least, format, wanted, Reg::VoutCommand) {
        Some(PlanFault::BelowLimit(Reg::VoutCommand))
    } else if is_wanted_below(least, format, wanted, Reg::VoutMax) {
        Some(PlanFault::BelowLimit(Reg::VoutMax))
    } else if is_wanted_below(least, format, wanted, Reg::MarginHigh) {
        Some(PlanFault::BelowLimit(Reg::MarginHigh))
    } else if is_wanted_below(least, format, wanted, Reg::MarginLow) {
        Some(PlanFault::BelowLimit(Reg::MarginLow))
    } else if is_wanted_below(least, format, wanted, Reg::VoutMin) {
        Some(PlanFault::BelowLimit(Reg::VoutMin))
    } else {
        None
    }
}

// L4: the first register of which a higher word is wanted.
fn refuse_above(most: &Frac, format: &VoltageFormat, wanted: &Wanted) -> Option<PlanFault>
    ensures { result ≡ above_limit_fault most.now (voltage_value format.now) (wants_of wanted.now) }
{
    if is_wanted_above(most, format, wanted, Reg::VoutCommand) {
        Some(PlanFault::AboveLimit(Reg::VoutCommand))
    } else if is_wanted_above(most, format, wanted, Reg::VoutMax) {
        Some(PlanFault::AboveLimit(Reg::VoutMax))
    } else if is_wanted_above(most, format, wanted, Reg::MarginHigh) {
        Some(PlanFault::AboveLimit(Reg::MarginHigh))
    } else if is_wanted_above(most, format, wanted, Reg::MarginLow) {
        Some(PlanFault::AboveLimit(Reg::MarginLow))
    } else if is_wanted_above(most, format, wanted, Reg::VoutMin) {
        Some(PlanFault::AboveLimit(Reg::VoutMin))
    } else {
        None
    }
}

// The least and the most of limits as fractions.
#[derive(Clone, Copy)]
struct Ends {
    least: Frac,
    most: Frac,
}

fn ends_of(limits: &Limits) -> Ends
    ensures least { result.least ≡ micros limits.now.least }
    ensures most { result.most ≡ micros limits.now.most }
{
    Ends {
        least: volts(limits.least()),
        most: volts(limits.most()),
    }
}

// This many microvolts as a fraction.
fn volts(x: i64) -> Frac
    requires { unsigned_abs x ≤ 10 ^ 15 }
    ensures { result ≡ micros x }
{
    match micro(x) {
        Ok(value) => value,
        Err(_) => unreachable!(),
    }
}

// Whether the first value is the greater one.
fn is_above(p: &Frac, q: &Frac) -> bool
    ensures { result ≡ spec_is_above p.now q.now }
{
    p.cmp_value(q) == Ordering::Greater
}

// Whether a word is wanted of the register and lies below.
fn is_wanted_below(least: &Frac, format: &VoltageFormat, wanted: &Wanted, register: Reg) -> bool
    ensures { result ≡ spec_is_wanted_below least.now (voltage_value format.now) (wants_of wanted.now) register }
{
    match wanted.word(register) {
        Some(word) => is_above(least, &format.value_of(word)),
        None => false,
    }
}

// Whether a word is wanted of the register and lies above.
fn is_wanted_above(most: &Frac, format: &VoltageFormat, wanted: &Wanted, register: Reg) -> bool
    ensures { result ≡ spec_is_wanted_above most.now (voltage_value format.now) (wants_of wanted.now) register }
{
    match wanted.word(register) {
        Some(word) => is_above(&format.value_of(word), most),
        None => false,
    }
}

// P4 for a register.
fn refuse_unknown(host: &State, form: &OutputForm, settings: &Settings) -> Option<PlanFault>
    requires { settings.now.output < 8 }
    ensures { let cells = cells_of form.now.registers (voltage_shape form.now.format) (state_held None host.now) in
        result ≡ unknown_fault cells settings.now.output (held_by settings.now.held) (wants_of settings.now.wanted) }
{
    match first_unknown(host, form, settings) {
        Some(register) => Some(PlanFault::NotKnown(Cell::Out(settings.output, register))),
        None => None,
    }
}

// The first register that is needed and isn't known.
fn first_unknown(host: &State, form: &OutputForm, settings: &Settings) -> Option<Reg>
    requires { settings.now.output < 8 }
    ensures { let cells = cells_of form.now.registers (voltage_shape form.now.format) (state_held None host.now) in
        result ≡ find (spec_is_unknown cells settings.now.output (held_by settings.now.held) (wants_of settings.now.wanted)) registers }
{
    if is_unknown(host, form, settings, Reg::Operation) {
        Some(Reg::Operation)
    } else if is_unknown(host, form, settings, Reg::VoutCommand) {
        Some(Reg::VoutCommand)
    } else if is_unknown(host, form, settings, Reg::VoutMax) {
        Some(Reg::VoutMax)
    } else if is_unknown(host, form, settings, Reg::MarginHigh) {
        Some(Reg::MarginHigh)
    } else if is_unknown(host, form, settings, Reg::MarginLow) {
        Some(Reg::MarginLow)
    } else if is_unknown(host, form, settings, Reg::VoutMin) {
        Some(Reg::VoutMin)
    } else {
        None
    }
}

/// Whether a register is needed and isn't known.
pub(crate) fn is_unknown(
    host: &State,
    form: &OutputForm,
    settings: &Settings,
    register: Reg,
) -> bool
    requires { settings.now.output < 8 }
    ensures { let cells = cells_of form.now.registers (voltage_shape form.now.format) (state_held None host.now) in
        result ≡ spec_is_unknown cells settings.now.output (held_by settings.now.held) (wants_of settings.now.wanted) register }
{
    is_needed(&settings.held, &settings.wanted, register)
        && known_at(host, form, Cell::Out(settings.output, register)).is_none()
}

/// L7: the first register of which a word is wanted and that the part doesn't have.
pub(crate) fn refuse_missing(part: PartRegisters, wanted: &Wanted) -> Option<PlanFault>
    ensures { result ≡ missing_fault part (wants_of wanted.now) }
{
    if is_wanted_missing(part, wanted, Reg::VoutCommand) {
        Some(PlanFault::MissingRegister(Reg::VoutCommand))
    } else if is_wanted_missing(part, wanted, Reg::VoutMax) {
        Some(PlanFault::MissingRegister(Reg::VoutMax))
    } else if is_wanted_missing(part, wanted, Reg::MarginHigh) {
        Some(PlanFault::MissingRegister(Reg::MarginHigh))
    } else if is_wanted_missing(part, wanted, Reg::MarginLow) {
        Some(PlanFault::MissingRegister(Reg::MarginLow))
    } else if is_wanted_missing(part, wanted, Reg::VoutMin) {
        Some(PlanFault::MissingRegister(Reg::VoutMin))
    } else {
        None
    }
}

// Whether a word is wanted of a register that the part doesn't have.
fn is_wanted_missing(part: PartRegisters, wanted: &Wanted, register: Reg) -> bool
    ensures { result ≡ spec_is_wanted_missing part (wants_of wanted.now) register }
{
    wanted.word(register).is_some() && !part.has(register)
}

/// Whether what a register holds is to be known.
pub(crate) fn is_needed(held: &Registers, wanted: &Wanted, register: Reg) -> bool
    ensures { result ≡ spec_is_needed (held_by held.now) (wants_of wanted.now) register }
{
    match register {
        Reg::Operation | Reg::VoutMax | Reg::VoutMin => true,
        _ => is_meant(held, wanted, register),
    }
}

// Whether a register is selected, or a word is wanted of it.
fn is_meant(held: &Registers, wanted: &Wanted, register: Reg) -> bool
    ensures { result ≡ spec_is_meant (held_by held.now) (wants_of wanted.now) register }
{
    register.code() == Operation::selected_register(held.operation).code()
        || wanted.word(register).is_some()
}

// P5 and P6.
fn refuse_words(format: &VoltageFormat, held: &Registers, wanted: &Wanted) -> Option<PlanFault>
    ensures { result ≡ words_fault (voltage_value format.now) (held_by held.now) (wants_of wanted.now) }
{
    if is_below_min(format, held, wanted, Reg::VoutCommand) {
        Some(PlanFault::BelowMin(Reg::VoutCommand))
    } else if is_below_min(format, held, wanted, Reg::MarginHigh) {
        Some(PlanFault::BelowMin(Reg::MarginHigh))
    } else if is_below_min(format, held, wanted, Reg::MarginLow) {
        Some(PlanFault::BelowMin(Reg::MarginLow))
    } else if is_above_max(format, held, wanted, Reg::VoutCommand) {
        Some(PlanFault::AboveMax(Reg::VoutCommand))
    } else if is_above_max(format, held, wanted, Reg::MarginHigh) {
        Some(PlanFault::AboveMax(Reg::MarginHigh))
    } else if is_above_max(format, held, wanted, Reg::MarginLow) {
        Some(PlanFault::AboveMax(Reg::MarginLow))
    } else {
        None
    }
}

// Whether a register is meant and is to be below VOUT_MIN.
fn is_below_min(format: &VoltageFormat, held: &Registers, wanted: &Wanted, register: Reg) -> bool
    ensures { result ≡ spec_is_below_min (voltage_value format.now) (held_by held.now) (wants_of wanted.now) register }
{
    let word = goal(held, wanted, register);
    is_meant(held, wanted, register) && format.is_above(goal(held, wanted, Reg::VoutMin), word)
}

// Whether a register is meant and is to be above VOUT_MAX.
fn is_above_max(format: &VoltageFormat, held: &Registers, wanted: &Wanted, register: Reg) -> bool
    ensures { result ≡ spec_is_above_max (voltage_value format.now) (held_by held.now) (wants_of wanted.now) register }
{
    let word = goal(held, wanted, register);
    is_meant(held, wanted, register) && format.is_above(word, goal(held, wanted, Reg::VoutMax))
}

// P7.
fn refuse_protected(protect: u16, held: &Registers, wanted: &Wanted) -> Option<PlanFault>
    ensures { result ≡ protection_fault protect (held_by held.now) (wants_of wanted.now) }
{
    if is_protected(protect, held, wanted, Reg::VoutCommand) {
        Some(PlanFault::Protected(Reg::VoutCommand))
    } else if is_protected(protect, held, wanted, Reg::VoutMax) {
        Some(PlanFault::Protected(Reg::VoutMax))
    } else if is_protected(protect, held, wanted, Reg::MarginHigh) {
        Some(PlanFault::Protected(Reg::MarginHigh))
    } else if is_protected(protect, held, wanted, Reg::MarginLow) {
        Some(PlanFault::Protected(Reg::MarginLow))
    } else if is_protected(protect, held, wanted, Reg::VoutMin) {
        Some(PlanFault::Protected(Reg::VoutMin))
    } else {
        None
    }
}

// Whether a register is still to get its word, and WRITE_PROTECT doesn't allow it.
fn is_protected(protect: u16, held: &Registers, wanted: &Wanted, register: Reg) -> bool
    ensures { result ≡ spec_is_protected protect (held_by held.now) (wants_of wanted.now) register }
{
    goal(held, wanted, register) != held.word(register) && !is_allowed(protect, register.code())
}
