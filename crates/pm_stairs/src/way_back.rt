//! Whether the step that undoes another would be refused.

ghost use Rattle.std.specs.Prelude.{◌≡◌, ◌<◌};
ghost use Rattle.std.specs.Prelude.{None};
ghost use Rattle.pm_host.specs.Image.{held};
ghost use Rattle.pm_table.specs.Operation.{selected_register};
ghost use Rattle.pm_stairs.specs.WayBack.{goal_of_step, lasting as spec_lasting, one_word as spec_one_word, plan_fault as spec_plan_fault, selected_at, way_back_fault as spec_way_back_fault};

use crate::sight::Sight;
use crate::step::{WordAct, WordStep, known_in};
use pm_host::State;
use pm_rail::{Plan, PlanFault, Wanted, next_order_in};
use pm_table::{Cell, Operation, Reg};

/// Why the plan of a way back would be refused, by the words that are known as the step begins which it undoes: they are those that it
/// leads to. What isn't known is no reason, since the way back reads it.
#[tactic(auto, unfolding(crate::specs::WayBack::way_back_fault))]
pub fn way_back_fault<S: Sight>(guard: &S, back: &WordStep) -> Option<PlanFault>
    ensures { result ≡ spec_way_back_fault (S.guarded guard.now) back.now }
{
    if 8 <= back.output {
        return None;
    }
    match goal(guard.state(), back) {
        Some(wanted) => match plan_fault(guard, back.output, &wanted) {
            Some(fault) => lasting(fault),
            None => None,
        },
        None => None,
    }
}

// Why the plan to these words would be refused.
fn plan_fault<S: Sight>(guard: &S, output: u8, wanted: &Wanted) -> Option<PlanFault>
    requires { output < 8 }
    ensures { result ≡ spec_plan_fault (S.guarded guard.now) output wanted.now }
{
    let limits = guard.limits(output);
    let plan = Plan {
        output,
        wanted: *wanted,
    };
    match next_order_in(
        guard.state(),
        guard.stage(),
        guard.registers(),
        &limits,
        &plan,
    ) {
        Ok(_) => None,
        Err(fault) => Some(fault),
    }
}

// A fault that more reading doesn't lift.
fn lasting(fault: PlanFault) -> Option<PlanFault>
    ensures { result ≡ spec_lasting fault }
{
    match fault {
        PlanFault::Busy | PlanFault::FormatUnknown | PlanFault::NotKnown(_) => None,
        PlanFault::MissingRegister(_)
        | PlanFault::NoLimits(_)
        | PlanFault::BelowLimit(_)
        | PlanFault::AboveLimit(_)
        | PlanFault::BelowMin(_)
        | PlanFault::AboveMax(_)
        | PlanFault::Protected(_) => Some(fault),
    }
}

/// The words that a step leads to: of a byte that leaves the output on the word of the register that it selects, if that is known.
pub fn goal(host: &State, back: &WordStep) -> Option<Wanted>
    requires { back.now.output < 8 }
    ensures { result ≡ goal_of_step (held None host.now) back.now.output back.now.act }
{
    match back.act {
        WordAct::Sets(wanted) => Some(wanted),
        WordAct::Turns(byte) if Operation::has_on(byte) => selected(host, back.output, byte),
        WordAct::Turns(_) | WordAct::Nothing => None,
    }
}

// The word of the register that a byte selects.
fn selected(host: &State, output: u8, byte: u16) -> Option<Wanted>
    requires { output < 8 }
    ensures { result ≡ selected_at (held None host.now) output (selected_register byte) }
{
    let register = Operation::selected_register(byte);
    match known_in(host, Cell::Out(output, register)) {
        Some(word) => Some(one_word(register, word)),
        None => None,
    }
}

// One word is wanted.
fn one_word(register: Reg, word: u16) -> Wanted
    ensures { result ≡ spec_one_word register word }
{
    let mut wanted = Wanted::nothing();
    match register {
        Reg::VoutCommand => wanted.command = Some(word),
        Reg::MarginHigh => wanted.margin_high = Some(word),
        Reg::MarginLow => wanted.margin_low = Some(word),
        _ => {}
    }
    wanted
}
