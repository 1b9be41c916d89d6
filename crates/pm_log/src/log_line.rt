//! A line of a log by itself.
ghost use Rattle.std.specs.Prelude.{◌≡◌, IfErr, IfOk, Ok, nat_eq, codes, drop, true};
ghost use Rattle.std.specs.List.{starts_with};
ghost use Rattle.pm_lines.specs.Lines.{is_one_word};
ghost use Rattle.pm_log.specs.Lines as spec;
ghost use Rattle.pm_text.specs.Kinds as kinds;
ghost use Rattle.pm_text.specs.Readers.{Reads, field, line_as};
ghost use Rattle.pm_text.specs.declared.scenario.fault.ScenarioFault.TheVariants.{BadHex};

use crate::Claim;
use pm_limits::PartRegisters;
use pm_lines::{Line, TextFault, is_blank};
use pm_table::Cell;
use pm_text::{ByteList, Fields, Form, ScenarioFault, TraceLine, read_cell, read_trace_line};
use std::alloc::Global;

/// What a line of a log says.
#[derive(Debug, Drop)]
pub enum LogLine {
    /// Nothing: the line is blank, or begins with `##`.
    Note,
    /// `#log 58 2 2`: a log begins here, of a host for the part at this address, with this many outputs and passes.
    Head { addr: u8, outputs: u8, passes: u8 },
    /// `#holds 0 VOUT_COMMAND 34CD`, or `#commands 0 3300000 to 3301000 uV`: what is known by the lines before.
    Claimed(Claim),
    /// `B0 05 04 00 21 CD 34 5A` or `B0 06 02 00 21 / B1 02 CD 34 B9`: a line of a trace. A read part of no bytes is a read
    /// that failed.
    Sent(TraceLine),
    /// `#failed B0 05 04 00 21 CD 34 5A`: a write that wasn't acknowledged.
    Failed(ByteList),
}

/// What the line of a log with this number says, or that it is none: X1 and X2. What ended the line is no part of it. Takes
/// memory for the bytes of a packet.
///
/// # Errors
///
/// Only X6.
pub fn read_log_line(
    alloc: Global,
    line: Line<'_>,
) -> Result<Result<LogLine, ScenarioFault>, TextFault>
    ensures said { IfOk result (λ found. found ≡ spec.said_by_line (line.entry.number, line.entry.text.now)) }
    ensures memory { IfErr result (λ fault. fault ≡ TextFault.Memory) }
{
    if is_note(line.text) {
        return Ok(Ok(LogLine::Note));
    }
    if line.text.starts_with(b"#failed ") {
        return failed_line(alloc, line.number, behind_mark(line.text));
    }
    if line.text.starts_with(b"#") {
        return Ok(marked_line(line));
    }
    sent_line(alloc, line)
}

// A line that says nothing.
fn is_note(text: &[u8]) -> bool
    ensures { result ≡ spec.is_note text.now }
{
    is_blank(text) || text.starts_with(b"##")
}

// What follows `#failed `.
fn behind_mark(text: &[u8]) -> &[u8]
    requires { starts_with nat_eq text.now (codes "#failed ") ≡ true }
    ensures { result.now ≡ drop 8 text.now }
{
    &text[8..]
}

// The bytes of a packet, with the number of its line in a fault.
fn packet(alloc: Global, line: Line<'_>) -> Result<Result<TraceLine, ScenarioFault>, TextFault>
    ensures said { IfOk result (λ found. found ≡ spec.packet (line.entry.number, line.entry.text.now)) }
    ensures memory { IfErr result (λ fault. fault ≡ TextFault.Memory) }
{
    match read_trace_line(alloc, line.text) {
        Ok(parts) => Ok(Ok(parts)),
        Err(TextFault::Syntax(_)) => Ok(Err(ScenarioFault::Syntax(line.number))),
        Err(TextFault::BadHex(_)) => Ok(Err(ScenarioFault::BadHex(line.number))),
        Err(fault) => Err(fault),
    }
}

// A packet that was sent.
fn sent_line(alloc: Global, line: Line<'_>) -> Result<Result<LogLine, ScenarioFault>, TextFault>
    ensures said { IfOk result (λ found. found ≡ spec.sent_in (spec.packet (line.entry.number, line.entry.text.now))) }
    ensures memory { IfErr result (λ fault. fault ≡ TextFault.Memory) }
{
    match packet(alloc, line)? {
        Ok(parts) => Ok(Ok(LogLine::Sent(parts))),
        Err(fault) => Ok(Err(fault)),
    }
}

// A write that failed.
fn failed_line(
    alloc: Global,
    number: u64,
    text: &[u8],
) -> Result<Result<LogLine, ScenarioFault>, TextFault>
    ensures said { IfOk result (λ found. found ≡ spec.failed_in number (spec.packet (number, text.now))) }
    ensures memory { IfErr result (λ fault. fault ≡ TextFault.Memory) }
{
    match packet(alloc, Line { number, text })? {
        Ok(TraceLine { write, read: None }) => Ok(Ok(LogLine::Failed(write))),
        Ok(
            TraceLine {
                write: _,
                read: Some(_),
            },
        ) => Ok(Err(ScenarioFault::Syntax(number))),
        Err(fault) => Ok(Err(fault)),
    }
}

// A head or a claim, whose every word is judged.
fn marked_line(line: Line<'_>) -> Result<LogLine, ScenarioFault>
    ensures { result ≡ line_as spec.line_by_mark (line.entry.number, line.entry.text.now) }
{
    let mut fields = Fields::new(line);
    match marked(&mut fields) {
        Ok(said) => match fields.end() {
            Ok(()) => Ok(said),
            Err(fault) => Err(fault),
        },
        Err(fault) => Err(fault),
    }
}

// A head or a claim, by its first word.
#[tactic(auto, unfolding(crate::specs::Lines::line_by_mark))]
fn marked(fields: &mut Fields<'_>) -> Result<LogLine, ScenarioFault>
    ensures { Reads result fields.new (spec.line_by_mark fields.old) }
{
    if fields.takes("#log") {
        head(fields)
    } else if fields.takes("#holds") {
        holds(fields)
    } else if fields.takes("#commands") {
        commands(fields)
    } else {
        let _name = fields.word()?;
        Err(fields.syntax())
    }
}

// `58 2 2`
#[tactic(auto, unfolding(crate::specs::Lines::head_rest))]
fn head(fields: &mut Fields<'_>) -> Result<LogLine, ScenarioFault>
    ensures { Reads result fields.new (spec.head_rest fields.old) }
{
    let addr = fields.hex_byte()?;
    let outputs = fields.small_number()?;
    let passes = fields.small_number()?;
    Ok(LogLine::Head {
        addr,
        outputs,
        passes,
    })
}

// `0 VOUT_COMMAND 34CD`, or `- WRITE_PROTECT 00`
#[tactic(auto, unfolding(crate::specs::Lines::holds_rest))]
fn holds(fields: &mut Fields<'_>) -> Result<LogLine, ScenarioFault>
    ensures { Reads result fields.new (spec.holds_rest fields.old) }
{
    let cell = read_cell(Form::NEWEST, fields)?;
    let word = cell_word(fields, cell)?;
    Ok(LogLine::Claimed(Claim::Holds { cell, word }))
}

// A word of the cell; X2 for any other text.
fn cell_word(fields: &mut Fields<'_>, cell: Cell) -> Result<u16, ScenarioFault>
    ensures { Reads result fields.new (field BadHex (kinds.cell_word cell) fields.old) }
{
    if cell.is_voltage() {
        fields.hex_word()
    } else {
        let byte = fields.hex_byte()?;
        Ok(u16::from(byte))
    }
}

// `0 3300000 to 3301000 uV`, and the registers that the part lacks
#[tactic(auto, unfolding(crate::specs::Lines::commands_rest))]
fn commands(fields: &mut Fields<'_>) -> Result<LogLine, ScenarioFault>
    ensures { Reads result fields.new (spec.commands_rest fields.old) }
{
    let output = fields.small_number()?;
    let least = fields.signed_64()?;
    fields.keyword("to")?;
    let most = fields.signed_64()?;
    fields.keyword("uV")?;
    let part = lacking(fields);
    Ok(LogLine::Claimed(Claim::Commands {
        output,
        part,
        least,
        most,
    }))
}

// `without VOUT_MAX VOUT_MARGIN_HIGH VOUT_MARGIN_LOW VOUT_MIN`, of which some are left out, or nothing
#[tactic(auto, unfolding(crate::specs::Lines::lacking))]
fn lacking(fields: &mut Fields<'_>) -> PartRegisters
    ensures { spec.lacking fields.old ≡ Ok (result, fields.new) }
{
    if !optional(fields, "without") {
        return PartRegisters::all();
    }
    let vout_max = !optional(fields, "VOUT_MAX");
    let vout_margin_high = !optional(fields, "VOUT_MARGIN_HIGH");
    let vout_margin_low = !optional(fields, "VOUT_MARGIN_LOW");
    let vout_min = !optional(fields, "VOUT_MIN");
    PartRegisters {
        vout_max,
        vout_margin_high,
        vout_margin_low,
        vout_min,
    }
}

// Whether the next word is this one, which is taken then.
fn optional(fields: &mut Fields<'_>, name: &str) -> bool
    requires { is_one_word name.now ≡ true }
    ensures { spec.optional name.now fields.old ≡ Ok (result, fields.new) }
{
    fields.takes(name)
}
