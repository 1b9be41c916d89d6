//! What a converter is made from, by the lines before a scenario's events.
ghost use Rattle.std.specs.Prelude.{Ok, Err, IfErr, MatchResult, ◌≡◌};
ghost use Rattle.pm_text.specs.ScenarioText.{IsOfScenario, config_of_text};

use crate::scenario::header::read_header;
use crate::scenario::rows::Rows;
use pm_device::Config;
use pm_lines::{MAX_TEXT, TextFault};

/// Reads what a converter is made from: the lines of a scenario of either version, up to `begin`. What follows
/// them isn't read. Whether a converter can be made of it isn't judged here. Takes no memory.
///
/// # Errors
///
/// X3 if the text has more than 1,048,576 bytes; otherwise the fault of the first faulty line: X2 for a
/// word that should be hexadecimal of a stated length, X1 for every other, also for a line that is missing,
/// which has the number after the last.
#[tactic(auto, unfolding(crate::specs::ScenarioText::config_of_text))]
pub fn read_setup(text: &[u8]) -> Result<Config, TextFault>
    ensures setup { MatchResult result (λ config. config_of_text text.now ≡ Ok config)
        (λ fault. config_of_text text.now ≡ Err fault) }
    ensures faults { IfErr result IsOfScenario }
{
    if text.len() > MAX_TEXT {
        return Err(TextFault::TooLong);
    }
    let mut rows = Rows::new(text);
    match read_header(&mut rows) {
        Ok(header) => Ok(header.config),
        Err(fault) => Err(TextFault::from(fault)),
    }
}
