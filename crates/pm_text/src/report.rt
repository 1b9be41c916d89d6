//! The report of a run: what the converter holds, commands and shows, and what the host knows.
ghost use Rattle.std.specs.Prelude.{◌≡◌, ◌++◌, IfOk, IfErr, OnOk, codes, is_some, string_bytes};
ghost use Rattle.pm_world.specs.FaultWords.{cause_text};
ghost use Rattle.pm_text.specs.Kinds.{form_of};
ghost use Rattle.pm_text.specs.Report.{cml_line, ran_line, job_report_line, job_text, report_text, seen_line, world_lines};

pub(crate) mod outputs;
mod settings;

use crate::form::Form;
use crate::runs::Ran;
use outputs::push_outputs;
use pm_host::JobEnd;
use pm_lines::{TextFault, push_decimal, push_hex, push_hex_word};
use pm_table::Cell;
use pm_world::{Cause, Stop, World};
use settings::push_setting;
use std::alloc::{AllocError, Global};

/// The bytes that are reserved for a report: one of eight outputs, each of whose cells may hold sixteen
/// words, has some 7000.
const ROOM: usize = 8192;

/// The report of a run. Its first line is `ran N`, or `stopped N` and the cause, if an event wasn't
/// taken. Then comes, of the state after the taken events: WRITE_PROTECT; for each output the voltage
/// that it commands, its settings, each with what the host says of it, and STATUS_BYTE,
/// STATUS_WORD and STATUS_VOUT; STATUS_CML; whether the host saw a restart; and its job. Version 1 says
/// nothing of VOUT_MIN, and nothing of the words that a cell may hold.
///
/// Takes memory once, 8192 bytes, which every report fits.
///
/// # Errors
///
/// Only X6.
pub fn render_report(alloc: Global, run: &Ran) -> Result<String, TextFault>
    ensures text { IfOk result (λ text. string_bytes text
        ≡ report_text (form_of run.now.version) run.now.world run.now.taken run.now.stop) }
    ensures fault { IfErr result (λ fault. fault ≡ TextFault.Memory) }
{
    let mut text = String::with_capacity(alloc, ROOM)?;
    push_report(&mut text, Form::of_version(run.version), run)?;
    Ok(text)
}

#[tactic(auto, using(pm_lines::specs::Lemmas::Joins::joins), unfolding(crate::specs::Report::report_text))]
fn push_report(text: &mut String, form: Form, run: &Ran) -> Result<(), AllocError>
    ensures { OnOk result (string_bytes text.new ≡ string_bytes text.old
        ++ report_text form run.now.world run.now.taken run.now.stop) }
{
    push_first_line(text, run.taken, &run.stop)?;
    push_world(text, form, &run.world)
}

// How many events were taken, and why the next one wasn't.
#[tactic(auto, using(pm_lines::specs::Lemmas::Joins::joins))]
fn push_first_line(text: &mut String, taken: u64, stop: &Option<Stop>) -> Result<(), AllocError>
    ensures { OnOk result (string_bytes text.new
        ≡ string_bytes text.old ++ ran_line taken stop.now) }
{
    match stop {
        None => {
            text.push_str("ran ")?;
            push_decimal(text, taken)?;
        }
        Some(stop) => {
            text.push_str("stopped ")?;
            push_decimal(text, stop.at as u64)?;
            text.push_str(" ")?;
            push_cause(text, stop.cause)?;
        }
    }
    text.push_str("\n")
}

// The letters and the name of a cause, and the host's refusal after S4.
#[tactic(auto, using(pm_lines::specs::Lemmas::Joins::joins))]
fn push_cause(text: &mut String, cause: Cause) -> Result<(), AllocError>
    ensures { OnOk result (string_bytes text.new ≡ string_bytes text.old ++ cause_text cause) }
{
    text.push_str(cause.words())?;
    if let Cause::Host(fault) = cause {
        text.push_str(" ")?;
        text.push_str(fault.words())?;
    }
    Ok(())
}

// The lines that follow the first one.
#[tactic(auto, using(pm_lines::specs::Lemmas::Joins::joins), unfolding(crate::specs::Report::world_lines))]
fn push_world(text: &mut String, form: Form, world: &World) -> Result<(), AllocError>
    ensures { OnOk result (string_bytes text.new
        ≡ string_bytes text.old ++ world_lines form world.now) }
{
    push_setting(text, form, world, "protect", Cell::Protect)?;
    push_outputs(text, form, world)?;
    push_cml(text, world)?;
    text.push_str(seen_words(world.host().restart_seen()))?;
    push_job(text, world)
}

// The line that says whether the host saw a restart.
#[tactic(auto, unfolding(crate::specs::Report::seen_line))]
fn seen_words(seen: bool) -> &'static str
    ensures { result.now ≡ seen_line seen }
{
    if seen {
        "restart seen yes\n"
    } else {
        "restart seen no\n"
    }
}

// STATUS_CML.
#[tactic(auto, using(pm_lines::specs::Lemmas::Joins::joins), unfolding(crate::specs::Report::cml_line))]
fn push_cml(text: &mut String, world: &World) -> Result<(), AllocError>
    ensures { OnOk result (string_bytes text.new ≡ string_bytes text.old ++ cml_line world.now) }
{
    text.push_str("cml ")?;
    push_hex(text, world.device().status_cml())?;
    text.push_str("\n")
}

// The open job, or how the last one ended.
#[tactic(auto, using(pm_lines::specs::Lemmas::Joins::joins), unfolding(crate::specs::Report::job_report_line))]
fn push_job(text: &mut String, world: &World) -> Result<(), AllocError>
    ensures { OnOk result (string_bytes text.new ≡ string_bytes text.old ++ job_report_line world.now) }
{
    text.push_str("job ")?;
    push_job_words(text, world.host().sending().is_some(), world.last_end())?;
    text.push_str("\n")
}

// `pending` if a job is open, and how the last one ended otherwise.
#[tactic(auto, using(pm_lines::specs::Lemmas::Joins::joins))]
fn push_job_words(text: &mut String, is_open: bool, end: Option<JobEnd>) -> Result<(), AllocError>
    ensures { OnOk result (string_bytes text.new
        ≡ string_bytes text.old ++ job_text is_open end) }
{
    if is_open {
        return text.push_str("pending");
    }
    match end {
        None => text.push_str("none"),
        Some(JobEnd::Done) => text.push_str("done"),
        Some(JobEnd::Differs(word)) => {
            text.push_str("differs ")?;
            push_hex_word(text, word)
        }
        Some(JobEnd::Unknown) => text.push_str("unknown"),
        Some(JobEnd::Learned) => text.push_str("learned"),
    }
}
