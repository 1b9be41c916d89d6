//! Which register of a plan is ordered next.

ghost use Rattle.std.specs.Prelude.{◌≡◌};
ghost use Rattle.pm_num.specs.AnyFormat.{voltage_value};
ghost use Rattle.pm_rail.specs.Plan.{goal_of, next_register as spec_next_register};
ghost use Rattle.pm_rail.specs.Registers.{held_by, wants_of};

use crate::registers::Registers;
use crate::wanted::Wanted;
use pm_num::VoltageFormat;
use pm_table::{Operation, Reg};

/// The register that is ordered next; `None` if each has its wanted word.
pub fn next_register(format: &VoltageFormat, held: &Registers, wanted: &Wanted) -> Option<Reg>
    ensures { result ≡ spec_next_register (voltage_value format.now) (held_by held.now) (wants_of wanted.now) }
{
    let selected = held.word(Operation::selected_register(held.operation));
    let max = goal(held, wanted, Reg::VoutMax);
    let min = goal(held, wanted, Reg::VoutMin);
    let max_rises = format.is_above(max, held.max);
    let min_falls = format.is_above(held.min, min);
    if max_rises && !format.is_above(selected, held.max) && !format.is_above(held.min, held.max) {
        Some(Reg::VoutMax)
    } else if min_falls && !format.is_above(held.min, selected) {
        Some(Reg::VoutMin)
    } else if goal(held, wanted, Reg::VoutCommand) != held.command {
        Some(Reg::VoutCommand)
    } else if goal(held, wanted, Reg::MarginHigh) != held.margin_high {
        Some(Reg::MarginHigh)
    } else if goal(held, wanted, Reg::MarginLow) != held.margin_low {
        Some(Reg::MarginLow)
    } else if min_falls {
        Some(Reg::VoutMin)
    } else if max != held.max {
        Some(Reg::VoutMax)
    } else if min != held.min {
        Some(Reg::VoutMin)
    } else {
        None
    }
}

// The word that a register is to have.
pub(crate) fn goal(held: &Registers, wanted: &Wanted, register: Reg) -> u16
    ensures { result ≡ goal_of (held_by held.now) (wants_of wanted.now) register }
{
    match wanted.word(register) {
        Some(word) => word,
        None => held.word(register),
    }
}
