//! What limits refuse beside a host, by what is held beside its open job.

ghost use Rattle.std.specs.Prelude.{◌≡◌, ◌<◌, None, Some, IfErr, IfOk, OnOk, [], ◌∷◌};
ghost use Rattle.std.specs.Result.{result_err};
ghost use Rattle.pm_table.specs.Cell.{IsCell, output_of as spec_output_of};
ghost use Rattle.pm_table.specs.Rules.{first, rule};
ghost use Rattle.pm_host.specs.Image.{held};
ghost use Rattle.pm_host.specs.Jobs.{HasNearestWord, begin_fault};
ghost use Rattle.pm_host.specs.Refusals.{cell_fault, micro_word as spec_micro_word};
ghost use Rattle.pm_host.specs.Sound.{IsSound};
ghost use Rattle.pm_host.specs.Summary.{format_at};
ghost use Rattle.pm_host.specs.Transcript as accepted;
ghost use Rattle.pm_limits.specs.Band.{lets_on as spec_lets_on, within_of};
ghost use Rattle.pm_limits.specs.declared.fault.LimitFault.TheVariants.{Host};
ghost use Rattle.pm_limits.specs.declared.output_limits.OutputLimits.TheVariants.{Between};
ghost use Rattle.pm_host.specs.declared.fault.HostFault.TheVariants.{Busy};
ghost use Rattle.pm_limits.specs.Bounds.{place_fault};
ghost use Rattle.pm_limits.specs.Guard.{IsJudged, is_beyond as spec_is_beyond, judged, limited_fault, missing_cell, missing_ordered, narrower_fault, of_host, open_fault, operation_limit, ordered_output as spec_ordered_output, unsure_fault, voltage_limit, word_fault};

use crate::band::{Band, band_on};
use crate::ends::format_in;
use crate::fault::LimitFault;
use crate::guard::Within;
use crate::limits::Limits;
use crate::output_limits::OutputLimits;
use crate::part_registers::PartRegisters;
use pm_host::{HostFault, Job, Stage, State, nearest_word};
use pm_num::NumFormat;
use pm_table::{Cell, Operation, Reg};
use std::cmp::Ordering;

/// A word for a cell.
#[derive(Clone, Copy)]
struct CellWord {
    cell: Cell,
    word: u16,
}

/// A number of microvolts for a cell.
#[derive(Clone, Copy)]
struct CellVoltage {
    cell: Cell,
    x: i64,
}

/// Limits that an output is to get, in microvolts.
#[derive(Clone, Copy, Debug, PartialEq, Eq)]
pub struct NewLimits {
    /// The output's number.
    pub output: u8,
    /// The least voltage.
    pub least: i64,
    /// The most.
    pub most: i64,
}

/// What a host is to be asked for in place of this job, by the limits of its output and the registers of its part. It is
/// the job itself, or the order of the nearest word for an order in microvolts. A refusal says why the host isn't asked
/// at all, as [`crate::Guard::begin`] does. A guard calls this; a caller who keeps limits otherwise calls it as well,
/// and then begins what it answers.
// An order of a word for an output without limits is judged only by whether the register is there: the host refuses it for all else
// that a guard does.
#[inline(always)]
#[tactic(auto, using(crate::proofs::Unlimited::unlimited))]
pub fn judge(
    state: &State,
    stage: Option<Stage>,
    registers: PartRegisters,
    limits: &OutputLimits,
    job: Job,
) -> Result<Job, LimitFault>
    requires { IsSound (held stage state.now) }
    ensures { IsJudged registers limits.now (held stage state.now) job result }
{
    match job {
        Job::Order(cell, word) => {
            refuse_ordered(state, stage, registers, cell, word)?;
            if !matches!(limits, OutputLimits::Unlimited) {
                judge_order(state, stage, registers, limits, CellWord { cell, word })?;
            }
            Ok(job)
        }
        Job::OrderMicro(cell, x) => {
            judge_micro(state, stage, registers, limits, CellVoltage { cell, x })
        }
        Job::Check(cell) => {
            refuse_missing(state, stage, registers, cell)?;
            Ok(job)
        }
        _ => Ok(job),
    }
}

// Refuses an order of a register that the part doesn't have, or of OPERATION whose byte selects one.
#[inline(always)]
pub(crate) fn refuse_ordered(
    state: &State,
    stage: Option<Stage>,
    registers: PartRegisters,
    cell: Cell,
    word: u16,
) -> Result<(), LimitFault>
    requires { IsSound (held stage state.now) }
    ensures refused { IfErr result
        (λ fault. first (of_host (cell_fault (held stage state.now) cell) ∷ missing_ordered registers cell word ∷ []) ≡ Some fault) }
    ensures passed { OnOk result (missing_ordered registers cell word ≡ None) }
{
    match cell {
        Cell::Out(output, Reg::Operation) => {
            let selected = Operation::selected_register(word);
            refuse_missing(state, stage, registers, Cell::Out(output, selected))
        }
        _ => refuse_missing(state, stage, registers, cell),
    }
}

// Refuses a job on a register that the part doesn't have.
#[inline(always)]
fn refuse_missing(
    state: &State,
    stage: Option<Stage>,
    registers: PartRegisters,
    cell: Cell,
) -> Result<(), LimitFault>
    requires { IsSound (held stage state.now) }
    ensures refused { IfErr result
        (λ fault. first (of_host (cell_fault (held stage state.now) cell) ∷ missing_cell registers cell ∷ []) ≡ Some fault) }
    ensures passed { OnOk result (missing_cell registers cell ≡ None) }
{
    match cell {
        Cell::Out(_, register) if !registers.has(register) => {
            refuse_cell(state, stage, cell)?;
            Err(LimitFault::MissingRegister)
        }
        _ => Ok(()),
    }
}

// Refuses an order of a word for what comes before the host's own refusals. It isn't inlined: it would weigh on each
// order without limits.
#[inline(never)]
fn judge_order(
    state: &State,
    stage: Option<Stage>,
    registers: PartRegisters,
    limits: &OutputLimits,
    order: CellWord,
) -> Result<(), LimitFault>
    requires sound { IsSound (held stage state.now) }
    requires there { missing_ordered registers order.cell order.word ≡ None }
    ensures refused { let s = held stage state.now in let job = Job.Order order.cell order.word in
        IfErr result (λ fault. limited_fault registers limits.now s job ≡ Some fault) }
    ensures passed { let s = held stage state.now in let job = Job.Order order.cell order.word in
        OnOk result (limited_fault registers limits.now s job ≡ of_host (begin_fault s job)) }
{
    refuse_cell(state, stage, order.cell)?;
    judge_word(state, registers, limits, order.cell, order.word)?;
    Ok(())
}

// An order in microvolts, judged by the nearest word.
#[inline(never)]
fn judge_micro(
    state: &State,
    stage: Option<Stage>,
    registers: PartRegisters,
    limits: &OutputLimits,
    order: CellVoltage,
) -> Result<Job, LimitFault>
    requires { IsSound (held stage state.now) }
    ensures { IsJudged registers limits.now (held stage state.now) (Job.OrderMicro order.cell order.x) result }
{
    let CellVoltage { cell, x } = order;
    refuse_missing(state, stage, registers, cell)?;
    refuse_cell(state, stage, cell)?;
    let word = micro_word(state, stage, cell, x)?;
    refuse_ordered(state, stage, registers, cell, word)?;
    judge_word(state, registers, limits, cell, word)?;
    Ok(Job::Order(cell, word))
}

/// The output whose cell a job orders: its limits are those by which the job is judged.
pub fn ordered_output(job: Job) -> Option<u8>
    ensures { result ≡ spec_ordered_output job }
{
    match job {
        Job::Order(cell, _) | Job::OrderMicro(cell, _) => Some(output_of(cell)),
        _ => None,
    }
}

/// The output by whose limits an order of this cell is judged.
#[inline(always)]
pub(crate) fn output_of(cell: Cell) -> u8
    ensures { result ≡ spec_output_of cell }
{
    match cell {
        Cell::Out(output, _) => output,
        Cell::Protect => 0,
    }
}

/// Whether a band lies within limits, if there are any.
pub fn within_limits(limits: &OutputLimits, band: Option<Band>) -> Within
    ensures { result ≡ within_of limits.now band }
{
    match (limits, band) {
        (OutputLimits::Between(limits), Some(band)) => limits.within(&band),
        (OutputLimits::Between(_), None) => Within::NotKnown,
        (OutputLimits::Unknown | OutputLimits::Unlimited, _) => Within::NoLimits,
    }
}

// Whether limits let an output be on with this band: it lies within them, or the output is said to have none.
fn lets_on(limits: &OutputLimits, band: Option<Band>) -> bool
    ensures { result ≡ spec_lets_on limits.now band }
{
    match limits {
        OutputLimits::Unknown => false,
        OutputLimits::Unlimited => true,
        OutputLimits::Between(_) => within_limits(limits, band) == Within::Yes,
    }
}

/// Refuses if a job is open, or the cell isn't there.
pub(crate) fn refuse_cell(state: &State, stage: Option<Stage>, cell: Cell) -> Result<(), LimitFault>
    requires { IsSound (held stage state.now) }
    ensures fault { result_err result ≡ of_host (cell_fault (held stage state.now) cell) }
    ensures there { OnOk result (IsCell state.now.outputs cell) }
    ensures near { OnOk result (IsCell 8 cell) }
{
    if stage.is_some() {
        return Err(LimitFault::Host(HostFault::Busy));
    }
    if !cell.is_there(state.outputs) {
        return Err(LimitFault::Host(HostFault::UnknownOutput));
    }
    Ok(())
}

// The word for a number of microvolts, in the format of a cell's output. It isn't inlined: it would weigh on each order
// of a word.
#[inline(never)]
fn micro_word(state: &State, stage: Option<Stage>, cell: Cell, x: i64) -> Result<u16, LimitFault>
    requires { IsCell 8 cell }
    ensures fault { result_err result ≡ word_fault (held stage state.now) cell x }
    ensures word { IfOk result (λ word. spec_micro_word (held stage state.now) cell x ≡ Some word) }
    ensures nearest { OnOk result (HasNearestWord (held stage state.now) (Job.OrderMicro cell x)) }
{
    let output = match cell {
        Cell::Out(output, register) if register.is_voltage() => output,
        _ => return Err(LimitFault::Host(HostFault::BadWord)),
    };
    let format = match state.format(output).voltage_format() {
        Some(format) => format,
        None => return Err(LimitFault::Host(HostFault::FormatUnknown)),
    };
    match nearest_word(&format, x) {
        Ok(word) => Ok(word),
        Err(fault) => Err(LimitFault::Host(fault)),
    }
}

/// Refuses what the limits of the cell's output don't let through.
// This function and the next are inlined: an answer that goes through memory would weigh on each order.
#[inline(always)]
pub(crate) fn judge_word(
    state: &State,
    registers: PartRegisters,
    limits: &OutputLimits,
    cell: Cell,
    word: u16,
) -> Result<(), LimitFault>
    requires { IsCell 8 cell }
    ensures { result_err result ≡ judged registers limits.now (held None state.now) cell word }
{
    match cell {
        Cell::Out(output, Reg::Operation) => {
            judge_operation(state, registers, limits, output, word)
        }
        Cell::Out(output, _) => judge_voltage(state, limits, output, word),
        Cell::Protect => Ok(()),
    }
}

// Refuses a voltage beyond limits.
#[inline(always)]
fn judge_voltage(
    state: &State,
    limits: &OutputLimits,
    output: u8,
    word: u16,
) -> Result<(), LimitFault>
    requires { output < 8 }
    ensures { result_err result ≡ voltage_limit limits.now (format_at (held None state.now) output) word }
{
    let limits = match limits {
        OutputLimits::Unknown => return Err(LimitFault::NoLimits),
        OutputLimits::Unlimited => return Ok(()),
        OutputLimits::Between(limits) => limits,
    };
    match place_of(state, limits, output, word) {
        Some(Ordering::Less) => Err(LimitFault::BelowLimit),
        Some(Ordering::Equal) => Ok(()),
        Some(Ordering::Greater) => Err(LimitFault::AboveLimit),
        None => Err(LimitFault::FormatUnknown),
    }
}

// The place of the value of an output's word beside limits; `None` if the format isn't known. It isn't
// inlined: it would weigh on each order without limits.
#[inline(never)]
fn place_of(state: &State, limits: &Limits, output: u8, word: u16) -> Option<Ordering>
    requires { output < 8 }
    ensures { place_fault result ≡ voltage_limit (Between limits.now) (format_at (held None state.now) output) word }
{
    match format_in(state, output) {
        Some(format) => Some(limits.place(&format.value_of(word))),
        None => None,
    }
}

// Refuses a byte that leaves the output on, unless that is known to be within its limits.
#[inline(always)]
fn judge_operation(
    state: &State,
    registers: PartRegisters,
    limits: &OutputLimits,
    output: u8,
    byte: u16,
) -> Result<(), LimitFault>
    requires { output < 8 }
    ensures { result_err result ≡ operation_limit registers limits.now (held None state.now) output byte }
{
    if may_command_beyond(state, registers, limits, output, byte) {
        return Err(unsure(state, limits, output));
    }
    Ok(())
}

// Why a band isn't known to lie within limits.
#[inline(never)]
fn unsure(state: &State, limits: &OutputLimits, output: u8) -> LimitFault
    requires { output < 8 }
    ensures { result ≡ unsure_fault limits.now (format_at (held None state.now) output) }
{
    match format_in(state, output) {
        _ if !limits.are_known() => LimitFault::NoLimits,
        Some(_) => LimitFault::NotKnownWithin,
        None => LimitFault::FormatUnknown,
    }
}

// Whether a byte leaves the output on and isn't known to keep it within its limits. It isn't inlined: it would weigh
// on each order of a voltage.
#[inline(never)]
fn may_command_beyond(
    state: &State,
    registers: PartRegisters,
    limits: &OutputLimits,
    output: u8,
    byte: u16,
) -> bool
    requires { output < 8 }
    ensures { let s = held None state.now in
        rule result (unsure_fault limits.now (format_at s output)) ≡ operation_limit registers limits.now s output byte }
{
    Operation::has_on(byte) && !lets_on(limits, band_on(state, registers, output, byte))
}

/// Limits of these microvolts in the place of those that an output has, or of none, as [`crate::Guard::narrow`] says: N5,
/// L1, L6, then H3 if an order of the output is open that these refuse, since its frame may be sent again.
pub fn narrower_limits(
    state: &State,
    stage: Option<Stage>,
    registers: PartRegisters,
    old: &OutputLimits,
    new: NewLimits,
) -> Result<Limits, LimitFault>
    requires { IsSound (held stage state.now) }
    ensures made { IfOk result (λ limits. limits ≡ record { least = new.least; most = new.most }) }
    ensures fault { result_err result ≡ first (narrower_fault old.now new.least new.most
        ∷ open_fault registers (record { least = new.least; most = new.most }) (held stage state.now) new.output ∷ []) }
{
    let limits = Limits::narrower(old, new.least, new.most)?;
    refuse_open(state, stage, registers, &limits, new.output)?;
    Ok(limits)
}

// Refuses limits that an open order of the output doesn't keep.
fn refuse_open(
    state: &State,
    stage: Option<Stage>,
    registers: PartRegisters,
    limits: &Limits,
    output: u8,
) -> Result<(), LimitFault>
    requires { IsSound (held stage state.now) }
    ensures { result_err result ≡ open_fault registers limits.now (held stage state.now) output }
{
    match stage {
        Some(Stage::Writes { cell, word, .. }) => {
            refuse_beyond(state, registers, limits, output, CellWord { cell, word })
        }
        Some(Stage::Reads { cell, word, .. }) => {
            refuse_beyond(state, registers, limits, output, CellWord { cell, word })
        }
        _ => Ok(()),
    }
}

// Refuses limits that refuse this open order.
fn refuse_beyond(
    state: &State,
    registers: PartRegisters,
    limits: &Limits,
    output: u8,
    order: CellWord,
) -> Result<(), LimitFault>
    requires { IsCell 8 order.cell }
    ensures { let s = held None state.now in
        result_err result ≡ rule (spec_is_beyond registers limits.now s output (accepted.Order order.cell order.word)) (Host Busy) }
{
    if is_beyond(state, registers, limits, output, order) {
        return Err(LimitFault::Host(HostFault::Busy));
    }
    Ok(())
}

// Whether an order is one for this output that limits refuse.
fn is_beyond(
    state: &State,
    registers: PartRegisters,
    limits: &Limits,
    output: u8,
    order: CellWord,
) -> bool
    requires { IsCell 8 order.cell }
    ensures { result ≡ spec_is_beyond registers limits.now (held None state.now) output (accepted.Order order.cell order.word) }
{
    let limits = OutputLimits::Between(*limits);
    output_of(order.cell) == output
        && judge_word(state, registers, &limits, order.cell, order.word).is_err()
}
