//! What a reading of the converter answers from now on.
ghost use Rattle.std.specs.Prelude.{◌≡◌, Ok, Err, MatchResult, bytes_eq, find};
ghost use Rattle.pm_table.specs.Commands.{name_of};
ghost use Rattle.pm_text.specs.EventLines.{reading_rest};
ghost use Rattle.pm_text.specs.Kinds.{device_reading_named, output_reading_named};
ghost use Rattle.pm_text.specs.Readers.{Reads, field};
ghost use Rattle.pm_text.specs.declared.scenario.fault.ScenarioFault.TheVariants.{Syntax};

use crate::scenario::fault::ScenarioFault;
use crate::scenario::fields::Fields;
use pm_device::{DEVICE_READINGS, OUTPUT_READINGS};
use pm_table::Code;

/// What was measured: the word that a READ code answers from now on.
#[derive(Clone, Copy, Debug, PartialEq, Eq)]
pub struct Measured {
    /// The output; 0 for a reading of the device, for which it isn't looked at.
    pub output: u8,
    /// One of `OUTPUT_READINGS` for an output, one of `DEVICE_READINGS` for the device.
    pub code: Code,
    /// The word, in the code's own format.
    pub word: u16,
}

/// What follows the first word of `reading O NAME HHHH` and of `reading - NAME HHHH`: X1 for a name that is no
/// reading of an output, or none of the device.
#[tactic(auto, unfolding(crate::specs::EventLines::reading_rest))]
pub fn reading(fields: &mut Fields<'_>) -> Result<Measured, ScenarioFault>
    ensures { Reads result fields.new (reading_rest fields.old) }
{
    let Some(output) = fields.output_or_device()? else {
        let code = device_reading(fields)?;
        let word = fields.hex_word()?;
        return Ok(Measured {
            output: 0,
            code,
            word,
        });
    };
    let code = output_reading(fields)?;
    let word = fields.hex_word()?;
    Ok(Measured { output, code, word })
}

// The reading of an output that a name has: otherwise X1.
fn output_reading(fields: &mut Fields<'_>) -> Result<Code, ScenarioFault>
    ensures { MatchResult result
        (λ code. field Syntax output_reading_named fields.old ≡ Ok (code.0, fields.new))
        (λ fault. field Syntax output_reading_named fields.old ≡ Err fault) }
{
    let name = fields.word()?;
    match named_among(&OUTPUT_READINGS, name) {
        Some(code) => Ok(code),
        None => Err(fields.syntax()),
    }
}

// The reading of the device that a name has: otherwise X1.
fn device_reading(fields: &mut Fields<'_>) -> Result<Code, ScenarioFault>
    ensures { MatchResult result
        (λ code. field Syntax device_reading_named fields.old ≡ Ok (code.0, fields.new))
        (λ fault. field Syntax device_reading_named fields.old ≡ Err fault) }
{
    let name = fields.word()?;
    match named_among(&DEVICE_READINGS, name) {
        Some(code) => Ok(code),
        None => Err(fields.syntax()),
    }
}

// The first of the codes that has this name.
fn named_among(codes: &[Code], name: &[u8]) -> Option<Code>
    ensures { result ≡ find (λ code. bytes_eq name.now (name_of code.0)) codes.now }
{
    codes
        .iter()
        .copied()
        .find(|code| name == code.name().as_bytes())
}
