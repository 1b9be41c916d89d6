//! The cells that lines name, and their words.
ghost use Rattle.std.specs.Prelude.{◌≡◌, bytes_eq, find};
ghost use Rattle.pm_table.specs.Cell.{register_code};
ghost use Rattle.pm_table.specs.Commands.{name_of};
ghost use Rattle.pm_text.specs.EventLines.{cell as cell_field};
ghost use Rattle.pm_text.specs.Kinds as kinds;
ghost use Rattle.pm_text.specs.Readers.{Reads, field};
ghost use Rattle.pm_text.specs.declared.scenario.fault.ScenarioFault.TheVariants.{Syntax, BadHex};

use crate::form::Form;
use crate::scenario::fault::ScenarioFault;
use crate::scenario::fields::Fields;
use pm_table::{Cell, Reg};

/// `O NAME`, or `- WRITE_PROTECT`.
#[tactic(auto, unfolding(crate::specs::EventLines::cell))]
pub fn cell(form: Form, fields: &mut Fields<'_>) -> Result<Cell, ScenarioFault>
    ensures { Reads result fields.new (cell_field form fields.old) }
{
    let Some(output) = fields.output_or_device()? else {
        fields.keyword(Cell::Protect.name())?;
        return Ok(Cell::Protect);
    };
    let register = register(form, fields)?;
    Ok(Cell::Out(output, register))
}

/// The name of an output's register: otherwise X1.
pub(crate) fn register(form: Form, fields: &mut Fields<'_>) -> Result<Reg, ScenarioFault>
    ensures { Reads result fields.new (field Syntax (kinds.register_named_in_form form) fields.old) }
{
    let name = fields.word()?;
    match named_among(form.registers(), name) {
        Some(register) => Ok(register),
        None => Err(fields.syntax()),
    }
}

/// A word of the cell, with two digits if it is a byte and four otherwise; X2 for any other text.
pub(crate) fn cell_word(fields: &mut Fields<'_>, cell: Cell) -> Result<u16, ScenarioFault>
    ensures { Reads result fields.new (field BadHex (kinds.cell_word cell) fields.old) }
{
    if cell.is_voltage() {
        fields.hex_word()
    } else {
        let byte = fields.hex_byte()?;
        Ok(u16::from(byte))
    }
}

// The first of the registers that has this name.
fn named_among(registers: &[Reg], name: &[u8]) -> Option<Reg>
    ensures { result ≡ find (λ register. bytes_eq name.now (name_of (register_code register)))
        registers.now }
{
    registers
        .iter()
        .copied()
        .find(|register| name == register.code().name().as_bytes())
}
