//! The run of a scenario's text: each event happens as its line is read, and none is kept.
ghost use Rattle.pm_text.specs.EventLines as spec;
ghost use Rattle.std.specs.Prelude.{◌≡◌, ◌≤◌, length, Err, IfOk, IfErr};
ghost use Rattle.pm_lines.specs.Streams.{max_text};
ghost use Rattle.pm_text.specs.Readers.{IsRead, line_as};
ghost use Rattle.pm_text.specs.Replay.{IsOfRun, IsScenarioRun, Lives, replay_of};
ghost use Rattle.pm_text.specs.ScenarioText.{Judges};

use crate::form::Form;
use crate::scenario::event_line::event_line;
use crate::scenario::fault::ScenarioFault;
use crate::scenario::header::read_header;
use crate::scenario::rows::Rows;
use crate::scenario::usual_line::usual_event;
use pm_lines::{Line, TextFault};
use pm_world::{Event, Stop, World, lives_are_followed};

/// What a run of events came to.
#[derive(Drop)]
pub struct Ran {
    /// The version of the scenario, in which the report is written: 1, and every other number is 2.
    pub version: u8,
    /// The world after the events that were taken.
    pub world: World,
    /// How many events were taken.
    pub taken: u64,
    /// The place at which the run stopped, and why; `None` if all events were taken.
    pub stop: Option<Stop>,
}

/// What the events of a text's scenario come to, or the text's first fault, or why no world is made.
pub(crate) fn run_text(text: &[u8]) -> Result<Ran, TextFault>
    requires { length text.now ≤ max_text }
    ensures ran { IfOk result (λ ran. IsScenarioRun text.now ran) }
    ensures fault { IfErr result (λ fault. replay_of text.now ≡ Err fault) }
    ensures faults { IfErr result IsOfRun }
{
    lives_are_followed();
    let mut rows = Rows::new(text);
    let head = read_header(&mut rows)?;
    let mut world = match World::new(head.config, head.passes) {
        Ok(world) => world,
        Err(fault) => {
            judge_lines(head.form, &mut rows)?;
            return Err(TextFault::Setup(fault));
        }
    };
    let (taken, stop) = run_lines(head.form, &mut rows, &mut world)?;
    Ok(Ran {
        version: head.form.version(),
        world,
        taken,
        stop,
    })
}

// Lets the events of the lines that are left happen, up to the first that isn't taken, and says how many
// were taken and where they stopped. The lines after a stop are judged all the same.
fn run_lines(
    form: Form,
    rows: &mut Rows<'_>,
    world: &mut World,
) -> Result<(u64, Option<Stop>), ScenarioFault>
    ensures { Lives form rows.old.lines world.old result world.new }
{
    let mut taken = 0;
    let mut event = Event::RestartHost;
    'lines: while let Some(line) = rows.next() {
        read_line(form, line, &mut event)?;
        if let Err(cause) = world.step(&event) {
            judge_lines(form, rows)?;
            let stop = Stop {
                at: taken as usize,
                cause,
            };
            return Ok((taken, Some(stop)));
        }
        taken += 1;
    }
    Ok((taken, None))
}

// Judges the lines that are left, of which no event happens. It stands apart since few texts come here.
#[cold]
fn judge_lines(form: Form, rows: &mut Rows<'_>) -> Result<(), ScenarioFault>
    ensures { Judges form rows.old.lines result }
{
    'lines: while let Some(line) = rows.next() {
        let mut event = Event::RestartHost;
        event_line(form, line, &mut event)?;
    }
    Ok(())
}

// What a line says that happens: the usual lines go the short way.
fn read_line(form: Form, line: Line<'_>, event: &mut Event) -> Result<(), ScenarioFault>
    ensures { IsRead result event.new
        (line_as (spec.event_line form) (line.entry.number, line.entry.text.now)) }
{
    if usual_event(line.text, event) {
        Ok(())
    } else {
        event_line(form, line, event)
    }
}
