//! The lines before the events: what both ends of the bus are made from.
ghost use Rattle.std.specs.Prelude.{◌≡◌, Ok, Err, List, MatchResult};
ghost use Rattle.pm_device.specs.declared.output_start.OutputStart.{OutputStart as Start};
ghost use Rattle.pm_text.specs.Readers.{Reads, ReadsTo, line_as};
ghost use Rattle.pm_text.specs.ScenarioText as spec;

use crate::form::Form;
use crate::scenario::cells::cell_word;
use crate::scenario::fault::ScenarioFault;
use crate::scenario::fields::Fields;
use crate::scenario::rows::Rows;
use crate::scenario::starts::Starts;
use pm_device::{Config, OutputStart};
use pm_lines::Line;
use pm_table::{Cell, Coefficients, Reg, VoutMode};

/// What stands before a scenario's events.
#[derive(Clone, Copy, Debug)]
pub(crate) struct Header {
    /// The form of the text.
    pub(crate) form: Form,
    /// What the converter is made from. It has as many outputs as there are lines `output`, and room
    /// for eight of them.
    pub(crate) config: Config,
    /// The passes of a job.
    pub(crate) passes: u8,
}

/// The lines up to the line `begin`.
#[tactic(auto, unfolding(crate::specs::ScenarioText::config_of))]
pub(crate) fn read_header(rows: &mut Rows<'_>) -> Result<Header, ScenarioFault>
    ensures { Reads result rows.new (spec.header rows.old) }
{
    let form = form_line(rows.row()?)?;
    let addr = address_line(rows.row()?)?;
    let passes = passes_line(rows.row()?)?;
    let protect = protect_line(rows.row()?)?;
    let coefficients = coefficients_line(rows.row()?)?;
    let Starts { count, starts } = outputs(form, coefficients, rows)?;
    let config = Config {
        addr,
        count,
        starts,
        protect: u16::from(protect),
        coefficients,
    };
    Ok(Header {
        form,
        config,
        passes,
    })
}

// `scenario 1` or `scenario 2`.
fn form_line(line: Line<'_>) -> Result<Form, ScenarioFault>
    ensures { result ≡ line_as spec.form_line (line.entry.number, line.entry.text.now) }
{
    let mut fields = Fields::new(line);
    let form = form(&mut fields)?;
    fields.end()?;
    Ok(form)
}

#[tactic(auto, unfolding(crate::specs::ScenarioText::form_line))]
fn form(fields: &mut Fields<'_>) -> Result<Form, ScenarioFault>
    ensures { Reads result fields.new (spec.form_line fields.old) }
{
    fields.keyword("scenario")?;
    let name = fields.word()?;
    match Form::named(name) {
        Some(form) => Ok(form),
        None => Err(fields.syntax()),
    }
}

// `address HH`.
#[tactic(auto, unfolding(crate::specs::ScenarioText::address_line))]
fn address_line(line: Line<'_>) -> Result<u8, ScenarioFault>
    ensures { result ≡ line_as spec.address_line (line.entry.number, line.entry.text.now) }
{
    let mut fields = Fields::new(line);
    fields.keyword("address")?;
    let address = fields.hex_byte()?;
    fields.end()?;
    Ok(address)
}

// `passes N`, N from 0 to 255.
#[tactic(auto, unfolding(crate::specs::ScenarioText::passes_line))]
fn passes_line(line: Line<'_>) -> Result<u8, ScenarioFault>
    ensures { result ≡ line_as spec.passes_line (line.entry.number, line.entry.text.now) }
{
    let mut fields = Fields::new(line);
    fields.keyword("passes")?;
    let passes = fields.small_number()?;
    fields.end()?;
    Ok(passes)
}

// `protect HH`.
#[tactic(auto, unfolding(crate::specs::ScenarioText::protect_line))]
fn protect_line(line: Line<'_>) -> Result<u8, ScenarioFault>
    ensures { result ≡ line_as spec.protect_line (line.entry.number, line.entry.text.now) }
{
    let mut fields = Fields::new(line);
    fields.keyword("protect")?;
    let protect = fields.hex_byte()?;
    fields.end()?;
    Ok(protect)
}

fn coefficients_line(line: Line<'_>) -> Result<Coefficients, ScenarioFault>
    ensures { result ≡ line_as spec.coefficients_line (line.entry.number, line.entry.text.now) }
{
    let mut fields = Fields::new(line);
    let coefficients = coefficients(&mut fields)?;
    fields.end()?;
    Ok(coefficients)
}

// `coefficients M B R`, decimal.
#[tactic(auto, unfolding(crate::specs::ScenarioText::coefficients_line))]
fn coefficients(fields: &mut Fields<'_>) -> Result<Coefficients, ScenarioFault>
    ensures { Reads result fields.new (spec.coefficients_line fields.old) }
{
    fields.keyword("coefficients")?;
    let m = fields.signed_16()?;
    let b = fields.signed_16()?;
    let r = fields.signed_8()?;
    Ok(Coefficients { m, b, r })
}

// The outputs, each a line, up to the line `begin`.
#[tactic(auto, unfolding(crate::specs::ScenarioText::output_starts))]
fn outputs(form: Form, c: Coefficients, rows: &mut Rows<'_>) -> Result<Starts, ScenarioFault>
    ensures { MatchResult result
        (λ starts. (given : List Start) × (starts ≡ spec.starts_of given)
        × (spec.output_starts form c rows.old ≡ Ok (given, rows.new)))
        (λ fault. spec.output_starts form c rows.old ≡ Err fault) }
{
    let mut starts = Starts::new();
    'outputs: while let Some(start) = output_line(form, c, rows.row()?)? {
        starts.push(start);
    }
    Ok(starts)
}

// A line that is an output, or `begin`: None.
fn output_line(
    form: Form,
    c: Coefficients,
    line: Line<'_>,
) -> Result<Option<OutputStart>, ScenarioFault>
    ensures { result
        ≡ line_as (spec.output_start_line form c) (line.entry.number, line.entry.text.now) }
{
    let mut fields = Fields::new(line);
    let start = output_or_begin(form, c, &mut fields)?;
    fields.end()?;
    Ok(start)
}

// `output ..`, or `begin`.
#[tactic(auto, unfolding(crate::specs::ScenarioText::output_start_line))]
fn output_or_begin(
    form: Form,
    c: Coefficients,
    fields: &mut Fields<'_>,
) -> Result<Option<OutputStart>, ScenarioFault>
    ensures { Reads result fields.new (spec.output_start_line form c fields.old) }
{
    let name = fields.word()?;
    if name == b"output".as_slice() {
        let start = output_start(form, c, fields)?;
        Ok(Some(start))
    } else if name == b"begin".as_slice() {
        Ok(None)
    } else {
        Err(fields.syntax())
    }
}

// MODE, a byte, and a word for each register that the form names. If it doesn't name VOUT_MIN, that
// is a word of the least value that the output's voltages have.
#[tactic(auto, unfolding(crate::specs::ScenarioText::output_rest))]
fn output_start(
    form: Form,
    c: Coefficients,
    fields: &mut Fields<'_>,
) -> Result<OutputStart, ScenarioFault>
    ensures { Reads result fields.new (spec.output_rest form c fields.old) }
{
    let mode = fields.hex_byte()?;
    let mut words = [lowest_word(mode, c); Reg::COUNT];
    start_words(form.registers(), fields, &mut words)?;
    Ok(OutputStart::of(mode, words))
}

// The words of these registers, each at its number.
fn start_words(
    registers: &[Reg],
    fields: &mut Fields<'_>,
    words: &mut [u16; Reg::COUNT],
) -> Result<(), ScenarioFault>
    ensures { ReadsTo result words.new fields.new
        (spec.start_words_field registers.now words.old fields.old) }
{
    for register in registers {
        words[register.number()] = cell_word(fields, Cell::Out(0, *register))?;
    }
    Ok(())
}

// A word of the least value that the voltages have of an output with this VOUT_MODE.
fn lowest_word(mode: u8, c: Coefficients) -> u16
    ensures { result ≡ spec.lowest_word mode c }
{
    match VoutMode::read(mode) {
        Ok(VoutMode::Direct) if c.m < 0 => 0x7FFF,
        Ok(VoutMode::Direct) => 0x8000,
        _ => 0x0000,
    }
}
