//! The lines that ask the host for a job.
ghost use Rattle.std.specs.Prelude.{◌≡◌, Ok, Err, option_map};
ghost use Rattle.pm_text.specs.EventLines as spec;
ghost use Rattle.pm_text.specs.Readers.{Reads, gives, named};

use crate::form::Form;
use crate::scenario::cells::{cell, cell_word, register};
use crate::scenario::fault::ScenarioFault;
use crate::scenario::fields::Fields;
use pm_host::{Command, Job};
use pm_table::Cell;

/// The words of a line that asks for a job, of which the first decides.
/// X1 if the first word names no job that texts of this form may ask for. It isn't inlined: it would weigh on
/// each line of a scenario, of which most ask for no job.
#[tactic(auto, unfolding(crate::specs::EventLines::job_line))]
#[inline(never)]
pub fn job_line(form: Form, fields: &mut Fields<'_>) -> Result<Job, ScenarioFault>
    ensures { Reads result fields.new (spec.job_line form fields.old) }
{
    if fields.takes("order") {
        order(form, fields)
    } else if fields.takes("volts") {
        volts(form, fields)
    } else if fields.takes("check") {
        check(form, fields)
    } else if fields.takes("learn") {
        learn(fields)
    } else if fields.takes("clear") {
        clear(fields)
    } else {
        let name = fields.word()?;
        match store_job(form, name) {
            Some(job) => Ok(job),
            None => Err(fields.syntax()),
        }
    }
}

// What the one word of `store` or `restore` says, which texts of the first form don't have.
fn store_job(form: Form, name: &[u8]) -> Option<Job>
    ensures { option_map gives result ≡ named (spec.store_lines form) name.now }
{
    match form {
        Form::First => None,
        _ if name == b"store".as_slice() => Some(Job::Send(Command::StoreUserAll)),
        _ if name == b"restore".as_slice() => Some(Job::Send(Command::RestoreUserAll)),
        _ => None,
    }
}

/// What follows the first word of `order O NAME HEX`, or of `order - WRITE_PROTECT HH`.
#[tactic(auto, unfolding(crate::specs::EventLines::order_rest))]
pub(crate) fn order(form: Form, fields: &mut Fields<'_>) -> Result<Job, ScenarioFault>
    ensures { Reads result fields.new (spec.order_rest form fields.old) }
{
    let cell = cell(form, fields)?;
    let word = cell_word(fields, cell)?;
    Ok(Job::Order(cell, word))
}

// `volts O NAME K`, K in microvolts.
#[tactic(auto, unfolding(crate::specs::EventLines::volts_rest))]
fn volts(form: Form, fields: &mut Fields<'_>) -> Result<Job, ScenarioFault>
    ensures { Reads result fields.new (spec.volts_rest form fields.old) }
{
    let output = fields.small_number()?;
    let register = register(form, fields)?;
    let microvolts = fields.signed_64()?;
    Ok(Job::OrderMicro(Cell::Out(output, register), microvolts))
}

// `check O NAME`, or `check - WRITE_PROTECT`.
#[tactic(auto, unfolding(crate::specs::EventLines::check_rest))]
fn check(form: Form, fields: &mut Fields<'_>) -> Result<Job, ScenarioFault>
    ensures { Reads result fields.new (spec.check_rest form fields.old) }
{
    let cell = cell(form, fields)?;
    Ok(Job::Check(cell))
}

// `learn O`.
#[tactic(auto, unfolding(crate::specs::EventLines::learn_rest))]
fn learn(fields: &mut Fields<'_>) -> Result<Job, ScenarioFault>
    ensures { Reads result fields.new (spec.learn_rest fields.old) }
{
    let output = fields.small_number()?;
    Ok(Job::Learn(output))
}

// `clear O`.
#[tactic(auto, unfolding(crate::specs::EventLines::clear_rest))]
fn clear(fields: &mut Fields<'_>) -> Result<Job, ScenarioFault>
    ensures { Reads result fields.new (spec.clear_rest fields.old) }
{
    let output = fields.small_number()?;
    Ok(Job::Send(Command::ClearFaults { output }))
}
