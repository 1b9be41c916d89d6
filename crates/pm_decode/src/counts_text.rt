//! The text of the counts.
ghost use Rattle.std.specs.Prelude.{◌≡◌, ◌+◌, ◌<◌, ◌++◌, ◌^◌, OnOk, string_bytes};
ghost use Rattle.pm_trace.specs.Counts.{total_of};
ghost use Rattle.pm_decode.specs.CaptureText.{counts_text, faults_text, json_counts, other_line, other_lines, others_total, plain_counts, refused_total, special_total, totals_line};
ghost use Rattle.pm_decode.specs.Hearing.{heard_lines};

use crate::TellOptions;
use crate::heard_lines::HeardLines;
use crate::json_counts::push_json_counts;
use pm_lines::{push_decimal, push_hex};
use pm_trace::{Others, push_count};
use std::alloc::AllocError;

/// Appends a line for each code that was carried, and the line of the counts, to a text.
pub(crate) fn push_counts(
    text: &mut String,
    options: &TellOptions,
    heard: &HeardLines,
) -> Result<(), AllocError>
    requires { heard_lines heard.now < 2 ^ 64 }
    ensures { OnOk result (string_bytes text.new ≡ string_bytes text.old ++ counts_text options.now heard.now) }
{
    if options.json {
        push_json_counts(text, options.all, heard)
    } else {
        push_plain_counts(text, options.all, heard)
    }
}

// The counts as they are shown to a person.
#[tactic(auto, using(pm_lines::specs::Lemmas::Joins::joins), unfolding(crate::specs::CaptureText::plain_counts))]
fn push_plain_counts(text: &mut String, all: bool, heard: &HeardLines) -> Result<(), AllocError>
    requires { heard_lines heard.now < 2 ^ 64 }
    ensures { OnOk result (string_bytes text.new ≡ string_bytes text.old ++ plain_counts all heard.now) }
{
    for (code, count) in heard.tally().codes().iter() {
        push_count(text, *code, *count)?;
    }
    if all {
        push_others(text, heard.others())?;
    }
    push_totals(text, all, heard)
}

// A line for each other code, in ascending order.
#[tactic(auto, using(crate::proofs::Shown::count_steps))]
fn push_others(text: &mut String, others: &Others) -> Result<(), AllocError>
    ensures { OnOk result (string_bytes text.new ≡ string_bytes text.old ++ other_lines others.now 256) }
{
    for code in 0..256u16 {
        push_other(text, others, code as u8)?;
    }
    Ok(())
}

// The line of another code, if it was carried.
#[tactic(auto, using(pm_lines::specs::Lemmas::Joins::joins))]
fn push_other(text: &mut String, others: &Others, code: u8) -> Result<(), AllocError>
    ensures { OnOk result (string_bytes text.new ≡ string_bytes text.old ++ other_line others.now code) }
{
    let Some(count) = others.of(code) else {
        return Ok(());
    };
    text.push_str("count code ")?;
    push_hex(text, code)?;
    text.push_str(" ")?;
    push_decimal(text, count)?;
    text.push_str("\n")
}

// The line of the counts.
#[tactic(auto, using(pm_lines::specs::Lemmas::Joins::joins), unfolding(crate::specs::CaptureText::totals_line))]
fn push_totals(text: &mut String, all: bool, heard: &HeardLines) -> Result<(), AllocError>
    requires { heard_lines heard.now < 2 ^ 64 }
    ensures { OnOk result (string_bytes text.new ≡ string_bytes text.old ++ totals_line all heard.now) }
{
    let (_, accepted, faults, bad) = heard.tally().lines();
    text.push_str("lines ")?;
    push_decimal(text, heard.lines())?;
    text.push_str(" accepted ")?;
    push_decimal(text, accepted)?;
    push_others_total(text, all, heard.others())?;
    push_faults(text, faults, heard, bad)
}

// The end of that line: how many lines had a fault, were refused, went to no part and were bad.
#[tactic(auto, using(pm_lines::specs::Lemmas::Joins::joins))]
fn push_faults(
    text: &mut String,
    faults: u64,
    heard: &HeardLines,
    bad: u64,
) -> Result<(), AllocError>
    ensures { OnOk result (string_bytes text.new ≡ string_bytes text.old ++ faults_text faults heard.now.refused heard.now.special bad) }
{
    text.push_str(" faults ")?;
    push_decimal(text, faults)?;
    push_refused(text, heard.refused())?;
    push_special(text, heard.special())?;
    text.push_str(" bad ")?;
    push_decimal(text, bad)?;
    text.push_str("\n")
}

// How often other codes were carried.
#[tactic(auto, using(pm_lines::specs::Lemmas::Joins::joins))]
fn push_others_total(text: &mut String, all: bool, others: &Others) -> Result<(), AllocError>
    ensures { OnOk result (string_bytes text.new ≡ string_bytes text.old ++ others_total all others.now) }
{
    if !all {
        return Ok(());
    }
    text.push_str(" other ")?;
    push_decimal(text, others.total())
}

// How many packets were refused, if one was.
#[tactic(auto, using(pm_lines::specs::Lemmas::Joins::joins))]
fn push_refused(text: &mut String, refused: u64) -> Result<(), AllocError>
    ensures { OnOk result (string_bytes text.new ≡ string_bytes text.old ++ refused_total refused) }
{
    if refused == 0 {
        return Ok(());
    }
    text.push_str(" refused ")?;
    push_decimal(text, refused)
}

// How many packets went to an address that is no part's, if one did.
#[tactic(auto, using(pm_lines::specs::Lemmas::Joins::joins))]
fn push_special(text: &mut String, special: u64) -> Result<(), AllocError>
    ensures { OnOk result (string_bytes text.new ≡ string_bytes text.old ++ special_total special) }
{
    if special == 0 {
        return Ok(());
    }
    text.push_str(" special ")?;
    push_decimal(text, special)
}
