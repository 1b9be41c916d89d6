//! The event lines of a scenario. Each reader makes the event in its final place: handed up as a result
//! through the readers, an event would be copied at each of them.
ghost use Rattle.std.specs.Prelude.{◌≡◌, Ok, Err};
ghost use Rattle.pm_world.specs.Job.{event_of};
ghost use Rattle.pm_text.specs.EventLines as spec;
ghost use Rattle.pm_text.specs.EventLines.{job_lines};
ghost use Rattle.pm_text.specs.Readers.{Reads, ReadsTo, IsRead, line_as, lines_into, made_into, one_of};

use crate::form::Form;
use crate::scenario::fault::ScenarioFault;
use crate::scenario::fields::Fields;
use crate::scenario::frames::{arrival, back};
use crate::scenario::job_line::{job_line, order};
use crate::scenario::reading::reading;
use pm_lines::Line;
use pm_world::Event;

/// What a line says that happens.
pub(crate) fn event_line(form: Form, line: Line<'_>, event: &mut Event) -> Result<(), ScenarioFault>
    ensures { IsRead result event.new
        (line_as (spec.event_line form) (line.entry.number, line.entry.text.now)) }
{
    let mut fields = Fields::new(line);
    read_event(form, &mut fields, event)?;
    fields.end()
}

// The words of an event line, of which the first decides.
#[tactic(auto, unfolding(crate::specs::EventLines::event_line))]
fn read_event(form: Form, fields: &mut Fields<'_>, event: &mut Event) -> Result<(), ScenarioFault>
    ensures { ReadsTo result event.new fields.new (spec.event_line form fields.old) }
{
    if fields.takes("order") {
        ordered(form, fields, event)
    } else if fields.takes("deliver") {
        deliver(fields, event)
    } else if fields.takes("finish") {
        let acked = finish(fields)?;
        *event = Event::Finish(acked);
        Ok(())
    } else if fields.takes("exchange") {
        exchange(fields, event)
    } else if fields.takes("restart") {
        restart(fields, event)
    } else if fields.takes("reading") {
        let measured = reading(fields)?;
        *event = Event::Reading(measured.output, measured.code, measured.word);
        Ok(())
    } else {
        asked(form, fields, event)
    }
}

// What follows the first word of a line that asks for an order: of the lines that are read here most do.
#[tactic(auto, using(crate::proofs::Scenarios::made_of_one))]
fn ordered(form: Form, fields: &mut Fields<'_>, event: &mut Event) -> Result<(), ScenarioFault>
    ensures { ReadsTo result event.new fields.new (made_into event_of (spec.order_rest form) fields.old) }
{
    let job = order(form, fields)?;
    *event = Event::of(job);
    Ok(())
}

// A line that asks the host for a job.
#[tactic(auto, unfolding(crate::specs::EventLines::job_line), using(crate::proofs::Scenarios::made_of_one))]
fn asked(form: Form, fields: &mut Fields<'_>, event: &mut Event) -> Result<(), ScenarioFault>
    ensures { ReadsTo result event.new fields.new
        (one_of (lines_into event_of (job_lines form)) fields.old) }
{
    let job = job_line(form, fields)?;
    *event = Event::of(job);
    Ok(())
}

// `deliver A`, A an arrival.
#[tactic(auto, unfolding(crate::specs::EventLines::deliver_rest))]
fn deliver(fields: &mut Fields<'_>, event: &mut Event) -> Result<(), ScenarioFault>
    ensures { ReadsTo result event.new fields.new (spec.deliver_rest fields.old) }
{
    let arrival = arrival(fields)?;
    *event = Event::Deliver(arrival);
    Ok(())
}

/// What follows the first word of `finish ack` or `finish nack`: whether the write was acknowledged.
#[tactic(auto, unfolding(crate::specs::EventLines::finish_rest))]
pub fn finish(fields: &mut Fields<'_>) -> Result<bool, ScenarioFault>
    ensures { Reads result fields.new (spec.finish_rest fields.old) }
{
    if fields.takes("ack") {
        Ok(true)
    } else if fields.takes("nack") {
        Ok(false)
    } else {
        fields.word()?;
        Err(fields.syntax())
    }
}

// `exchange A B`, A an arrival and B what comes back.
#[tactic(auto, unfolding(crate::specs::EventLines::exchange_rest))]
fn exchange(fields: &mut Fields<'_>, event: &mut Event) -> Result<(), ScenarioFault>
    ensures { ReadsTo result event.new fields.new (spec.exchange_rest fields.old) }
{
    let arrival = arrival(fields)?;
    let back = back(fields)?;
    *event = Event::Exchange(arrival, back);
    Ok(())
}

// `restart device` or `restart host`.
#[tactic(auto, unfolding(crate::specs::EventLines::restart_rest))]
fn restart(fields: &mut Fields<'_>, event: &mut Event) -> Result<(), ScenarioFault>
    ensures { ReadsTo result event.new fields.new (spec.restart_rest fields.old) }
{
    if fields.takes("device") {
        *event = Event::RestartDevice;
        Ok(())
    } else if fields.takes("host") {
        *event = Event::RestartHost;
        Ok(())
    } else {
        fields.word()?;
        Err(fields.syntax())
    }
}
