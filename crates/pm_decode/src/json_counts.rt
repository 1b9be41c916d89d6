//! The counts as objects of JSON.
ghost use Rattle.std.specs.Prelude.{◌≡◌, ◌<◌, ◌++◌, ◌^◌, OnOk, string_bytes};
ghost use Rattle.std.specs.Map.{lookup};
ghost use Rattle.pm_decode.specs.CaptureText.{json_counts};
ghost use Rattle.pm_decode.specs.Hearing.{heard_lines};
ghost use Rattle.pm_decode.specs.JsonCounts.{count_json, faults_json, other_json, other_jsons, others_json, refused_json, special_json, totals_json};

use crate::heard_lines::HeardLines;
use crate::push_number_field;
use pm_lines::{push_decimal, push_hex};
use pm_table::Code;
use pm_trace::Others;
use std::alloc::AllocError;

/// Appends an object for each code that was carried, and the one of the counts, to a text.
#[tactic(auto, using(pm_lines::specs::Lemmas::Joins::joins), unfolding(crate::specs::CaptureText::json_counts))]
pub(crate) fn push_json_counts(
    text: &mut String,
    all: bool,
    heard: &HeardLines,
) -> Result<(), AllocError>
    requires { heard_lines heard.now < 2 ^ 64 }
    ensures { OnOk result (string_bytes text.new ≡ string_bytes text.old ++ json_counts all heard.now) }
{
    for (code, count) in heard.tally().codes().iter() {
        push_count(text, *code, *count)?;
    }
    if all {
        push_others(text, heard.others())?;
    }
    push_totals(text, all, heard)
}

// The object of a code.
#[tactic(auto, using(pm_lines::specs::Lemmas::Joins::joins), unfolding(crate::specs::JsonCounts::count_json))]
fn push_count(text: &mut String, code: u8, count: u64) -> Result<(), AllocError>
    ensures { OnOk result (string_bytes text.new ≡ string_bytes text.old ++ count_json (code, count)) }
{
    text.push_str("{\"count\":\"")?;
    text.push_str(Code(code).name())?;
    text.push_str("\",\"lines\":")?;
    push_decimal(text, count)?;
    text.push_str("}\n")
}

// An object for each other code, in ascending order.
#[tactic(auto, using(crate::proofs::Shown::json_steps))]
fn push_others(text: &mut String, others: &Others) -> Result<(), AllocError>
    ensures { OnOk result (string_bytes text.new ≡ string_bytes text.old ++ other_jsons others.now 256) }
{
    for code in 0..256u16 {
        push_other(text, others, code as u8)?;
    }
    Ok(())
}

// The object of another code, if it was carried.
#[tactic(auto, using(pm_lines::specs::Lemmas::Joins::joins))]
fn push_other(text: &mut String, others: &Others, code: u8) -> Result<(), AllocError>
    ensures { OnOk result (string_bytes text.new ≡ string_bytes text.old ++ other_json others.now code) }
{
    let Some(count) = others.of(code) else {
        return Ok(());
    };
    text.push_str("{\"code\":\"")?;
    push_hex(text, code)?;
    text.push_str("\",\"lines\":")?;
    push_decimal(text, count)?;
    text.push_str("}\n")
}

// The object of the counts.
#[tactic(auto, using(pm_lines::specs::Lemmas::Joins::joins), unfolding(crate::specs::JsonCounts::totals_json))]
fn push_totals(text: &mut String, all: bool, heard: &HeardLines) -> Result<(), AllocError>
    requires { heard_lines heard.now < 2 ^ 64 }
    ensures { OnOk result (string_bytes text.new ≡ string_bytes text.old ++ totals_json all heard.now) }
{
    let (_, accepted, faults, bad) = heard.tally().lines();
    text.push_str("{\"lines\":")?;
    push_decimal(text, heard.lines())?;
    push_number_field(text, "accepted", accepted)?;
    push_others_total(text, all, heard.others())?;
    push_faults(text, faults, heard, bad)
}

// How often other codes were carried.
#[tactic(auto, using(pm_lines::specs::Lemmas::Joins::joins))]
fn push_others_total(text: &mut String, all: bool, others: &Others) -> Result<(), AllocError>
    ensures { OnOk result (string_bytes text.new ≡ string_bytes text.old ++ others_json all others.now) }
{
    if !all {
        return Ok(());
    }
    push_number_field(text, "other", others.total())
}

// The end of that object: how many lines had a fault, were refused, went to no part and were bad.
#[tactic(auto, using(pm_lines::specs::Lemmas::Joins::joins))]
fn push_faults(
    text: &mut String,
    faults: u64,
    heard: &HeardLines,
    bad: u64,
) -> Result<(), AllocError>
    ensures { OnOk result (string_bytes text.new ≡ string_bytes text.old ++ faults_json faults heard.now.refused heard.now.special bad) }
{
    push_number_field(text, "faults", faults)?;
    push_refused(text, heard.refused())?;
    push_special(text, heard.special())?;
    push_number_field(text, "bad", bad)?;
    text.push_str("}\n")
}

// How many packets were refused, if one was.
fn push_refused(text: &mut String, refused: u64) -> Result<(), AllocError>
    ensures { OnOk result (string_bytes text.new ≡ string_bytes text.old ++ refused_json refused) }
{
    if refused == 0 {
        return Ok(());
    }
    push_number_field(text, "refused", refused)
}

// How many packets went to an address that is no part's, if one did.
fn push_special(text: &mut String, special: u64) -> Result<(), AllocError>
    ensures { OnOk result (string_bytes text.new ≡ string_bytes text.old ++ special_json special) }
{
    if special == 0 {
        return Ok(());
    }
    push_number_field(text, "special", special)
}
