//! The orders of a plan, one after another.

ghost use Rattle.std.specs.Prelude.{◌≡◌, ◌<◌, Some, None, IfOk, OnErr};
ghost use Rattle.pm_num.specs.AnyFormat.{voltage_value, voltage_shape};
ghost use Rattle.pm_host.specs.Image.{held as state_held};
ghost use Rattle.pm_host.specs.Summary.{format_at};
ghost use Rattle.pm_limits.specs.Guard.{limits_at};
ghost use Rattle.pm_rail.specs.Known.{cells_of};
ghost use Rattle.pm_rail.specs.Orders.{Begun, plan_of, planned as spec_planned, planned_in as spec_planned_in};
ghost use Rattle.pm_rail.specs.Registers.{held_by, wants_of};

use crate::fault::PlanFault;
use crate::known::{OutputForm, known_of};
use crate::laws::plans_are_accepted;
use crate::plan::{goal, next_register};
use crate::refusals::{Settings, refuse, refuse_missing};
use crate::wanted::Wanted;
use pm_host::{Stage, State};
use pm_limits::{Guard, OutputLimits, PartRegisters};
use pm_table::{Cell, Reg};

/// An order of a plan: a register, and its wanted word.
#[derive(Clone, Copy, Debug, PartialEq, Eq)]
pub struct PlanOrder {
    /// The register, never OPERATION.
    pub register: Reg,
    /// The wanted word.
    pub word: u16,
}

/// The next order of an output's plan, by what the guard's host knows and within the output's limits; `None` if each
/// register has its wanted word. The output is there.
///
/// It is refused with the first of these that applies:
///
/// - H3: a job is open.
/// - L7: a word is wanted of a register that the part doesn't have.
/// - P1: the output's format isn't learned.
/// - L8: a word is wanted and no limits of the output are known.
/// - L3, L4: a wanted word lies below or above the output's limits.
/// - P4: a register isn't known, which is OPERATION, the one that it selects, VOUT_MAX, VOUT_MIN or one of which a word is
///   wanted; or WRITE_PROTECT isn't, if an order is due.
/// - P5, P6: a wanted word or the selected one will be below VOUT_MIN or above VOUT_MAX.
/// - P7: WRITE_PROTECT doesn't allow each order that is still to come.
pub fn next_order(
    guard: &Guard,
    output: u8,
    wanted: &Wanted,
) -> Result<Option<PlanOrder>, PlanFault>
    requires { output < guard.now.host.setup.outputs }
    ensures { result ≡ plan_of guard.now.registers guard.now.host (limits_at guard.now output) output (wants_of wanted.now) }
{
    let host = guard.host();
    let limits = guard.limits(output);
    let plan = Plan {
        output,
        wanted: *wanted,
    };
    next_order_in(
        host.state(),
        host.stage(),
        guard.registers(),
        &limits,
        &plan,
    )
}

/// A plan: an output, and the words that are wanted of its registers.
#[derive(Clone, Copy, Debug, PartialEq, Eq)]
pub struct Plan {
    /// The output's number.
    pub output: u8,
    /// The words that are wanted.
    pub wanted: Wanted,
}

/// The next order, by what is held beside the open job, of a part with these registers and by these limits. The
/// output's number is below 8.
pub fn next_order_in(
    host: &State,
    stage: Option<Stage>,
    part: PartRegisters,
    limits: &OutputLimits,
    plan: &Plan,
) -> Result<Option<PlanOrder>, PlanFault>
    requires { plan.now.output < 8 }
    ensures { result ≡ plan_of part (state_held stage host.now) limits.now plan.now.output (wants_of plan.now.wanted) }
{
    if stage.is_some() {
        return Err(PlanFault::Busy);
    }
    if let Some(fault) = refuse_missing(part, &plan.wanted) {
        return Err(fault);
    }
    planned_in(host, part, limits, plan)
}

// The next order in the output's format.
fn planned_in(
    host: &State,
    part: PartRegisters,
    limits: &OutputLimits,
    plan: &Plan,
) -> Result<Option<PlanOrder>, PlanFault>
    requires { plan.now.output < 8 }
    ensures { let s = state_held None host.now in
        result ≡ spec_planned_in part s limits.now plan.now.output (wants_of plan.now.wanted) (format_at s plan.now.output) }
{
    match host.format(plan.output).voltage_format() {
        Some(format) => {
            let form = OutputForm {
                registers: part,
                format,
            };
            planned_by(host, &form, limits, plan)
        }
        None => Err(PlanFault::FormatUnknown),
    }
}

// The next order in this format.
fn planned_by(
    host: &State,
    form: &OutputForm,
    limits: &OutputLimits,
    plan: &Plan,
) -> Result<Option<PlanOrder>, PlanFault>
    requires { plan.now.output < 8 }
    ensures { let s = state_held None host.now in
        result ≡ spec_planned_in form.now.registers s limits.now plan.now.output (wants_of plan.now.wanted)
        (Some (voltage_shape form.now.format)) }
{
    let held = known_of(host, form, plan.output);
    let settings = Settings {
        output: plan.output,
        held,
        wanted: plan.wanted,
    };
    planned(host, form, limits, &settings)
}

// The next order by the words that are known to be held.
fn planned(
    host: &State,
    form: &OutputForm,
    limits: &OutputLimits,
    settings: &Settings,
) -> Result<Option<PlanOrder>, PlanFault>
    requires { settings.now.output < 8 }
    ensures { let cells = cells_of form.now.registers (voltage_shape form.now.format) (state_held None host.now) in
        result ≡ spec_planned cells limits.now settings.now.output (held_by settings.now.held) (wants_of settings.now.wanted)
        (voltage_value form.now.format) }
{
    let next = next_register(&form.format, &settings.held, &settings.wanted);
    if let Some(fault) = refuse(host, form, limits, settings, next) {
        return Err(fault);
    }
    match next {
        Some(register) => {
            let word = goal(&settings.held, &settings.wanted, register);
            Ok(Some(PlanOrder { register, word }))
        }
        None => Ok(None),
    }
}

/// Begins the next order of an output's plan, as [`next_order`] gives it, and says which. Nothing changes if there
/// is none, or it is refused. The output is there.
pub fn begin_next(
    guard: &mut Guard,
    output: u8,
    wanted: &Wanted,
) -> Result<Option<PlanOrder>, PlanFault>
    requires { output < guard.old.host.setup.outputs }
    ensures plan { result ≡ plan_of guard.old.registers guard.old.host (limits_at guard.old output) output (wants_of wanted.now) }
    ensures begun { IfOk result (λ next. Begun guard.old output next guard.new) }
    ensures err { OnErr result (guard.new ≡ guard.old) }
    ensures limits { guard.new.limits ≡ guard.old.limits }
    ensures registers { guard.new.registers ≡ guard.old.registers }
    ensures kept { guard.new.host.setup ≡ guard.old.host.setup }
{
    // law: a guard lets through what a plan orders, and its host accepts it
    plans_are_accepted();
    match next_order(guard, output, wanted) {
        Err(fault) => Err(fault),
        Ok(None) => Ok(None),
        Ok(Some(order)) => match guard.order(Cell::Out(output, order.register), order.word) {
            Ok(()) => Ok(Some(order)),
            Err(_) => unreachable!(),
        },
    }
}
