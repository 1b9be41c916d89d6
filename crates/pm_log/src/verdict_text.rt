//! The line that says what a log comes to.
ghost use Rattle.std.specs.Prelude.{◌≡◌, ◌++◌, IfOk, OnOk, codes, string_bytes};
ghost use Rattle.pm_log.specs.Verdicts as spec;

use crate::checked::{Checked, Refusal};
use crate::fault::LogFault;
use crate::lacks::{Lacks, has_all};
use crate::open_log::OpenLog;
use pm_host::Possible;
use pm_limits::PartRegisters;
use pm_lines::{TextFault, push_decimal, push_hex, push_hex_word, push_signed};
use pm_table::{Cell, Reg};
use std::alloc::AllocError;

/// Appends `accepted: 3 claims, 41 transfers`, or which line isn't accepted, and why; with its line feed.
#[tactic(auto, using(pm_lines::specs::Lemmas::Joins::joins))]
pub(crate) fn push_verdict(text: &mut String, checked: &Checked) -> Result<(), AllocError>
    ensures { OnOk result (string_bytes text.new ≡ string_bytes text.old ++ spec.verdict_text checked.now.log) }
{
    push_words(text, checked)?;
    text.push_str("\n")
}

// Appends the words of that line, and no line feed.
#[tactic(auto, using(pm_lines::specs::Lemmas::Joins::joins))]
fn push_words(text: &mut String, checked: &Checked) -> Result<(), AllocError>
    ensures { OnOk result (string_bytes text.new ≡ string_bytes text.old ++ spec.verdict_words checked.now.log) }
{
    match checked.log() {
        Ok(known) => push_accepted(text, known),
        Err(refusal) => push_refusal(text, refusal),
    }
}

#[tactic(auto, using(pm_lines::specs::Lemmas::Joins::joins), unfolding(crate::specs::Verdicts::accepted_text))]
fn push_accepted(text: &mut String, known: &OpenLog) -> Result<(), AllocError>
    ensures { OnOk result (string_bytes text.new ≡ string_bytes text.old ++ spec.accepted_text known.now) }
{
    push_counts(text, known)?;
    push_trusted(text, known.without())
}

// `accepted: 3 claims, 41 transfers`
#[tactic(auto, using(pm_lines::specs::Lemmas::Joins::joins), unfolding(crate::specs::Verdicts::counted_text))]
fn push_counts(text: &mut String, known: &OpenLog) -> Result<(), AllocError>
    ensures { OnOk result (string_bytes text.new ≡ string_bytes text.old ++ spec.counted_text known.now) }
{
    text.push_str("accepted: ")?;
    push_counted(text, known.claims(), "claim")?;
    text.push_str(", ")?;
    push_counted(text, known.transfers(), "transfer")
}

// Which registers parts lack by the claims that were accepted, address by address.
fn push_trusted(text: &mut String, without: &Lacks) -> Result<(), AllocError>
    ensures { OnOk result (string_bytes text.new ≡ string_bytes text.old ++ spec.trusted_below without.now.parts 128) }
{
    for addr in 0..128u8 {
        push_trusted_at(text, addr, without.part(addr))?;
    }
    Ok(())
}

// `; without VOUT_MAX VOUT_MIN of 58 by --lacks`, if the part lacks any.
#[tactic(auto, using(pm_lines::specs::Lemmas::Joins::joins))]
fn push_trusted_at(text: &mut String, addr: u8, part: PartRegisters) -> Result<(), AllocError>
    ensures { OnOk result (string_bytes text.new ≡ string_bytes text.old ++ spec.trusted_at addr part) }
{
    if has_all(part) {
        return Ok(());
    }
    push_taken(text, addr, part)
}

#[tactic(auto, using(pm_lines::specs::Lemmas::Joins::joins), unfolding(crate::specs::Verdicts::taken_text))]
fn push_taken(text: &mut String, addr: u8, part: PartRegisters) -> Result<(), AllocError>
    ensures { OnOk result (string_bytes text.new ≡ string_bytes text.old ++ spec.taken_text addr part) }
{
    text.push_str("; without")?;
    push_missing(text, part, " ", " ")?;
    push_taken_of(text, addr)
}

// ` of 58 by --lacks`
#[tactic(auto, using(pm_lines::specs::Lemmas::Joins::joins), unfolding(crate::specs::Verdicts::lacks_source_text))]
fn push_taken_of(text: &mut String, addr: u8) -> Result<(), AllocError>
    ensures { OnOk result (string_bytes text.new ≡ string_bytes text.old ++ spec.lacks_source_text addr) }
{
    text.push_str(" of ")?;
    push_hex(text, addr)?;
    text.push_str(" by --lacks")
}

// The names of the registers that a part lacks, each after a mark: the first after one of its own.
#[tactic(auto, using(pm_lines::specs::Lemmas::Joins::joins), unfolding(crate::specs::Verdicts::missing_names))]
fn push_missing(
    text: &mut String,
    part: PartRegisters,
    first: &str,
    next: &str,
) -> Result<(), AllocError>
    ensures { OnOk result (string_bytes text.new ≡ string_bytes text.old ++ spec.missing_names part first.now next.now) }
{
    let mark = push_missing_name(text, part, Reg::VoutMax, first, next)?;
    let mark = push_missing_name(text, part, Reg::MarginHigh, mark, next)?;
    let mark = push_missing_name(text, part, Reg::MarginLow, mark, next)?;
    push_missing_name(text, part, Reg::VoutMin, mark, next)?;
    Ok(())
}

// The name of a register after a mark, if the part lacks it; and the mark of the next one.
#[tactic(auto, using(pm_lines::specs::Lemmas::Joins::joins))]
fn push_missing_name<'a>(
    text: &mut String,
    part: PartRegisters,
    register: Reg,
    mark: &'a str,
    next: &'a str,
) -> Result<&'a str, AllocError>
    ensures named { OnOk result (string_bytes text.new ≡ string_bytes text.old ++ spec.missing_name part register mark.entry.now) }
    ensures mark { IfOk result (λ found. found.now ≡ spec.mark_after part register mark.entry.now next.entry.now) }
{
    if part.has(register) {
        return Ok(mark);
    }
    text.push_str(mark)?;
    text.push_str(Cell::Out(0, register).name())?;
    Ok(next)
}

// `1 claim`, `3 claims`
#[tactic(auto, using(pm_lines::specs::Lemmas::Joins::joins), unfolding(crate::specs::Verdicts::counted_noun))]
fn push_counted(text: &mut String, count: u64, what: &str) -> Result<(), AllocError>
    ensures { OnOk result (string_bytes text.new ≡ string_bytes text.old ++ spec.counted_noun count what.now) }
{
    push_decimal(text, count)?;
    text.push_str(" ")?;
    text.push_str(what)?;
    if count != 1 {
        text.push_str("s")?;
    }
    Ok(())
}

#[tactic(auto, using(pm_lines::specs::Lemmas::Joins::joins), unfolding(crate::specs::Verdicts::refusal_text))]
fn push_refusal(text: &mut String, refusal: &Refusal) -> Result<(), AllocError>
    ensures { OnOk result (string_bytes text.new ≡ string_bytes text.old ++ spec.refusal_text refusal.now) }
{
    text.push_str("line ")?;
    push_decimal(text, refusal.line)?;
    text.push_str(": ")?;
    push_fault(text, &refusal.fault)
}

#[tactic(auto, using(pm_lines::specs::Lemmas::Joins::joins))]
fn push_fault(text: &mut String, fault: &LogFault) -> Result<(), AllocError>
    ensures { OnOk result (string_bytes text.new ≡ string_bytes text.old ++ spec.fault_text fault.now) }
{
    match fault {
        LogFault::Line(fault) => text.push_str(TextFault::from(*fault).words()),
        LogFault::NoHead => text.push_str("no #log line stands before it"),
        LogFault::Address => push_host(text, "no part has this address"),
        LogFault::Setup(fault) => push_host(text, fault.words()),
        LogFault::Frame(fault) => push_frame(text, fault.words()),
        LogFault::NoJob => text.push_str("no job of a host sends this packet"),
        LogFault::Refused(fault) => push_job(text, fault.words()),
        LogFault::Answered { addr, cell, line } => push_belied(text, *addr, *cell, *line),
        LogFault::Lacks { addr, part } => push_lacks(text, *addr, *part),
        LogFault::Word {
            cell,
            word,
            possible,
        } => push_word(text, *cell, *word, possible),
        LogFault::Voltage {
            output,
            least,
            most,
        } => push_voltage(text, *output, *least, *most),
    }
}

#[tactic(auto, using(pm_lines::specs::Lemmas::Joins::joins), unfolding(crate::specs::Verdicts::no_host_text))]
fn push_host(text: &mut String, words: &str) -> Result<(), AllocError>
    ensures { OnOk result (string_bytes text.new ≡ string_bytes text.old ++ spec.no_host_text words.now) }
{
    text.push_str("there is no such host: ")?;
    text.push_str(words)
}

#[tactic(auto, using(pm_lines::specs::Lemmas::Joins::joins), unfolding(crate::specs::Verdicts::no_packet_text))]
fn push_frame(text: &mut String, words: &str) -> Result<(), AllocError>
    ensures { OnOk result (string_bytes text.new ≡ string_bytes text.old ++ spec.no_packet_text words.now) }
{
    text.push_str("no host sends this packet: ")?;
    text.push_str(words)
}

#[tactic(auto, using(pm_lines::specs::Lemmas::Joins::joins), unfolding(crate::specs::Verdicts::no_job))]
fn push_job(text: &mut String, words: &str) -> Result<(), AllocError>
    ensures { OnOk result (string_bytes text.new ≡ string_bytes text.old ++ spec.no_job words.now) }
{
    text.push_str("no host begins this job: ")?;
    text.push_str(words)
}

// `the writer says that 58 lacks`
#[tactic(auto, using(pm_lines::specs::Lemmas::Joins::joins), unfolding(crate::specs::Verdicts::says_lacks))]
fn push_says(text: &mut String, addr: u8) -> Result<(), AllocError>
    ensures { OnOk result (string_bytes text.new ≡ string_bytes text.old ++ spec.says_lacks addr) }
{
    text.push_str("the writer says that ")?;
    push_hex(text, addr)?;
    text.push_str(" lacks")
}

// `the writer says that 58 lacks VOUT_MAX: 0 VOUT_MAX answered on line 5`
#[tactic(auto, using(pm_lines::specs::Lemmas::Joins::joins), unfolding(crate::specs::Verdicts::belied_text))]
fn push_belied(text: &mut String, addr: u8, cell: Cell, line: u64) -> Result<(), AllocError>
    ensures { OnOk result (string_bytes text.new ≡ string_bytes text.old ++ spec.belied_text addr cell line) }
{
    push_says(text, addr)?;
    text.push_str(" ")?;
    text.push_str(cell.name())?;
    text.push_str(": ")?;
    push_answered(text, cell, line)
}

// `0 VOUT_MAX answered on line 5`
#[tactic(auto, using(pm_lines::specs::Lemmas::Joins::joins), unfolding(crate::specs::Verdicts::answered_on))]
fn push_answered(text: &mut String, cell: Cell, line: u64) -> Result<(), AllocError>
    ensures { OnOk result (string_bytes text.new ≡ string_bytes text.old ++ spec.answered_on cell line) }
{
    push_place(text, cell)?;
    text.push_str(cell.name())?;
    push_on_line(text, line)
}

// ` answered on line 5`
#[tactic(auto, using(pm_lines::specs::Lemmas::Joins::joins), unfolding(crate::specs::Verdicts::on_line))]
fn push_on_line(text: &mut String, line: u64) -> Result<(), AllocError>
    ensures { OnOk result (string_bytes text.new ≡ string_bytes text.old ++ spec.on_line line) }
{
    text.push_str(" answered on line ")?;
    push_decimal(text, line)
}

// `the writer says that 58 lacks VOUT_MAX VOUT_MIN: --lacks=58:VOUT_MAX,VOUT_MIN if its data sheet says so`
#[tactic(auto, using(pm_lines::specs::Lemmas::Joins::joins), unfolding(crate::specs::Verdicts::lacks_text))]
fn push_lacks(text: &mut String, addr: u8, part: PartRegisters) -> Result<(), AllocError>
    ensures { OnOk result (string_bytes text.new ≡ string_bytes text.old ++ spec.lacks_text addr part) }
{
    push_says(text, addr)?;
    push_missing(text, part, " ", " ")?;
    push_option(text, addr, part)
}

// `: --lacks=58:VOUT_MAX,VOUT_MIN if its data sheet says so`
#[tactic(auto, using(pm_lines::specs::Lemmas::Joins::joins), unfolding(crate::specs::Verdicts::lacks_option))]
fn push_option(text: &mut String, addr: u8, part: PartRegisters) -> Result<(), AllocError>
    ensures { OnOk result (string_bytes text.new ≡ string_bytes text.old ++ spec.lacks_option addr part) }
{
    text.push_str(": --lacks=")?;
    push_hex(text, addr)?;
    push_missing(text, part, ":", ",")?;
    text.push_str(" if its data sheet says so")
}

// `0 VOUT_COMMAND isn't known to hold 34CD: possible 1000 34CD`
#[tactic(auto, using(pm_lines::specs::Lemmas::Joins::joins), unfolding(crate::specs::Verdicts::unknown_word))]
fn push_word(
    text: &mut String,
    cell: Cell,
    word: u16,
    possible: &Possible,
) -> Result<(), AllocError>
    ensures { OnOk result (string_bytes text.new ≡ string_bytes text.old ++ spec.unknown_word cell word possible.now) }
{
    push_place(text, cell)?;
    text.push_str(cell.name())?;
    push_held(text, cell, word)?;
    push_left(text, cell, possible)
}

// ` isn't known to hold 34CD`
#[tactic(auto, using(pm_lines::specs::Lemmas::Joins::joins), unfolding(crate::specs::Verdicts::unknown_held))]
fn push_held(text: &mut String, cell: Cell, word: u16) -> Result<(), AllocError>
    ensures { OnOk result (string_bytes text.new ≡ string_bytes text.old ++ spec.unknown_held cell word) }
{
    text.push_str(" isn't known to hold ")?;
    push_cell_word(text, cell, word)
}

// `: possible 1000 34CD`
#[tactic(auto, using(pm_lines::specs::Lemmas::Joins::joins), unfolding(crate::specs::Verdicts::possible_left))]
fn push_left(text: &mut String, cell: Cell, possible: &Possible) -> Result<(), AllocError>
    ensures { OnOk result (string_bytes text.new ≡ string_bytes text.old ++ spec.possible_left cell possible.now) }
{
    text.push_str(": possible")?;
    push_possible(text, cell, possible)
}

// The words that a cell may hold, each after a space.
#[tactic(auto, using(pm_lines::specs::Lemmas::Joins::joins))]
fn push_possible(text: &mut String, cell: Cell, possible: &Possible) -> Result<(), AllocError>
    ensures { OnOk result (string_bytes text.new ≡ string_bytes text.old ++ spec.possible_words_text cell possible.now) }
{
    match possible {
        Possible::Any => text.push_str(" any"),
        Possible::Words(words) => push_cell_words(text, cell, words.as_slice()),
    }
}

// The output and a space, or `- ` for the device.
#[tactic(auto, using(pm_lines::specs::Lemmas::Joins::joins))]
fn push_place(text: &mut String, cell: Cell) -> Result<(), AllocError>
    ensures { OnOk result (string_bytes text.new ≡ string_bytes text.old ++ spec.cell_place_text cell) }
{
    match cell {
        Cell::Out(output, _) => {
            push_decimal(text, u64::from(output))?;
            text.push_str(" ")
        }
        Cell::Protect => text.push_str("- "),
    }
}

// Words, each after a space.
#[tactic(auto, using(pm_lines::specs::Lemmas::Joins::joins))]
fn push_cell_words(text: &mut String, cell: Cell, words: &[u16]) -> Result<(), AllocError>
    ensures { OnOk result (string_bytes text.new ≡ string_bytes text.old ++ spec.words_text cell words.now) }
{
    for word in words {
        push_spaced(text, cell, *word)?;
    }
    Ok(())
}

// A word, after a space.
#[tactic(auto, using(pm_lines::specs::Lemmas::Joins::joins))]
fn push_spaced(text: &mut String, cell: Cell, word: u16) -> Result<(), AllocError>
    ensures { OnOk result (string_bytes text.new ≡ string_bytes text.old ++ (codes " " ++ spec.word_text cell word)) }
{
    text.push_str(" ")?;
    push_cell_word(text, cell, word)
}

// A cell's word with its digits.
#[tactic(auto, using(pm_lines::specs::Lemmas::Joins::joins))]
fn push_cell_word(text: &mut String, cell: Cell, word: u16) -> Result<(), AllocError>
    ensures { OnOk result (string_bytes text.new ≡ string_bytes text.old ++ spec.word_text cell word) }
{
    if cell.is_voltage() {
        push_hex_word(text, word)
    } else {
        push_hex(text, (word % 256) as u8)
    }
}

// `output 0 isn't known to command 3300000 to 3301000 uV`
#[tactic(auto, using(pm_lines::specs::Lemmas::Joins::joins), unfolding(crate::specs::Verdicts::unknown_voltage))]
fn push_voltage(text: &mut String, output: u8, least: i64, most: i64) -> Result<(), AllocError>
    ensures { OnOk result (string_bytes text.new ≡ string_bytes text.old ++ spec.unknown_voltage output least most) }
{
    push_output(text, output)?;
    push_range(text, least, most)
}

// `3300000 to 3301000 uV`
#[tactic(auto, using(pm_lines::specs::Lemmas::Joins::joins), unfolding(crate::specs::Verdicts::range_text))]
fn push_range(text: &mut String, least: i64, most: i64) -> Result<(), AllocError>
    ensures { OnOk result (string_bytes text.new ≡ string_bytes text.old ++ spec.range_text least most) }
{
    push_signed(text, i128::from(least))?;
    text.push_str(" to ")?;
    push_signed(text, i128::from(most))?;
    text.push_str(" uV")
}

// `output 0 isn't known to command `
#[tactic(auto, using(pm_lines::specs::Lemmas::Joins::joins), unfolding(crate::specs::Verdicts::output_text))]
fn push_output(text: &mut String, output: u8) -> Result<(), AllocError>
    ensures { OnOk result (string_bytes text.new ≡ string_bytes text.old ++ spec.output_text output) }
{
    text.push_str("output ")?;
    push_decimal(text, u64::from(output))?;
    text.push_str(" isn't known to command ")
}
