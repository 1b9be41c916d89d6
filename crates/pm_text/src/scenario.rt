//! A scenario, as its text says it.

ghost use Rattle.std.specs.Prelude.{◌≡◌, ◌⊎◌, ◌<◌, length, Ok, Err, IfOk, IfErr, IsErrOf};
ghost use Rattle.pm_lines.specs.Faults.{IsOfText};
ghost use Rattle.pm_lines.specs.Streams.{max_text};
ghost use Rattle.pm_lines.specs.declared.fault.TextFault.TheVariants.{Memory};
ghost use Rattle.pm_text.specs.ScenarioText.{HasEvent, HasFirst, IsOfScenario, as_text_fault, events_in, scenario_of};

pub(crate) mod cells;
pub(crate) mod event_line;
pub(crate) mod events;
pub(crate) mod fault;
pub(crate) mod fields;
pub(crate) mod frames;
pub(crate) mod header;
pub(crate) mod job_line;
pub(crate) mod reading;
pub(crate) mod rows;
pub(crate) mod setup;
mod starts;
pub(crate) mod usual_line;

use crate::form::Form;
use event_line::event_line;
use events::Events;
use header::{Header, read_header};
use pm_device::Config;
use pm_lines::{MAX_TEXT, TextFault};
use pm_world::Event;
use rows::Rows;
use std::alloc::{AllocError, Global};

/// The bytes of the shortest event line: `store` and a line feed.
const SHORTEST: usize = 6;

/// What a scenario says.
#[derive(Debug, Drop)]
pub struct Scenario {
    /// The version of its text, 1 or 2, in which its report is written.
    pub version: u8,
    /// What the converter is made from. The host has its address and its outputs.
    pub config: Config,
    /// How many passes a job of the host has.
    pub passes: u8,
    /// What happens, in order.
    pub events: Events,
}

/// Reads a scenario: `scenario 2`, `address HH`, `passes N`, `protect HH`, `coefficients M B R`, a
/// line `output MODE OPERATION COMMAND MAX HIGH LOW MIN` for each output, `begin`, and the event lines.
/// Hexadecimal is read in either case. Lines that are empty, blank or comments are skipped and
/// numbered.
///
/// After `scenario 1` an output has no MIN, and no event names VOUT_MIN: it is then a word of the least
/// value that the output's voltages have, 0000h for ULINEAR16, and for DIRECT 7FFFh if m is negative
/// and 8000h otherwise.
///
/// Whether a world can be made of the scenario isn't judged here: more than eight outputs are
/// counted, up to 255, and the starts of the first eight are kept.
///
/// Takes memory once, as the first event was read: for as many as there are lines left, and no more than
/// have room in the text.
///
/// # Errors
///
/// X3 if the text has more than 1,048,576 bytes; otherwise the fault of the first faulty line: X2
/// for a word that should be hexadecimal of a stated length, X1 for every other, also for a line that
/// is missing, which has the number after the last; X6 if memory for the events was refused.
#[tactic(auto, unfolding(crate::specs::ScenarioText::scenario_of))]
pub fn read_scenario(alloc: Global, text: &[u8]) -> Result<Scenario, TextFault>
    ensures scenario { IfOk result (λ scenario. scenario_of text.now ≡ Ok scenario) }
    ensures fault { IfErr result (λ fault. (fault ≡ Memory) ⊎ (scenario_of text.now ≡ Err fault)) }
    ensures faults { IfErr result IsOfScenario }

    // X3 comes only for more bytes than a text may have, and memory is asked for only for an event.
    ensures too_long { IsErrOf result TextFault.TooLong → max_text < length text.now }
    ensures memory { IsErrOf result Memory → HasEvent text.now }
{
    if text.len() > MAX_TEXT {
        return Err(TextFault::TooLong);
    }
    let mut rows = Rows::new(text);
    let Header {
        form,
        config,
        passes,
    } = read_header(&mut rows)?;
    let events = events_left(alloc, form, &mut rows, text.len() / SHORTEST + 1)?;
    Ok(Scenario {
        version: form.version(),
        config,
        passes,
        events: Events::new(events),
    })
}

// The events of the lines that are left, with room for so many at most.
fn events_left(
    alloc: Global,
    form: Form,
    rows: &mut Rows<'_>,
    most: usize,
) -> Result<Vec<Event>, TextFault>
    ensures events { IfOk result (λ events. events_in form rows.old.lines ≡ Ok events.items) }
    ensures fault { IfErr result (λ fault. (fault ≡ Memory)
        ⊎ (as_text_fault (events_in form rows.old.lines) ≡ Err fault)) }
    ensures faults { IfErr result IsOfText }
    ensures memory { IsErrOf result Memory → HasFirst form rows.old.lines }
{
    let room = rows.most_left().min(most);
    let mut events = Vec::new(alloc);
    'lines: while let Some(line) = rows.next() {
        let mut event = Event::RestartHost;
        event_line(form, line, &mut event)?;
        if events.is_empty() {
            make_room(&mut events, room)?;
        }
        events.push(event)?;
    }
    Ok(events)
}

// Takes memory for so many events. It stands apart since it's called once, and what it does would weigh on
// each line if it stood there.
#[cold]
fn make_room(events: &mut Vec<Event>, room: usize) -> Result<(), AllocError>
    ensures { events.new.items ≡ events.old.items }
{
    events.reserve_exact(room)
}
