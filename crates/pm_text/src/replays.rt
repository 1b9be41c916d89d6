//! Scenarios from a reader, and the report of what they come to, to a writer.
ghost use Rattle.std.specs.Prelude.{◌≡◌, ◌⊎◌, ◌<◌, ◌≤◌, length, Err, IfOk, IfErr, IsErrOf, IsFalse, string_bytes};
ghost use Rattle.std.specs.Result.{result_err};
ghost use Rattle.pm_world.specs.Setup.{world_fault};
ghost use Rattle.pm_lines.specs.Engine.{EngineEnds, over};
ghost use Rattle.pm_lines.specs.Faults.{IsOfInput};
ghost use Rattle.pm_lines.specs.Streams.{max_text};
ghost use Rattle.pm_text.specs.Replay.{IsReplay, replay_end_by, replay_of, replaying, run_of as run_spec, taken_by};

use crate::report::render_report;
use crate::runs::run_text;
use pm_lines::{Sink, Source, TextFault, read_text};
use pm_world::Stop;
use std::alloc::Global;
use std::io::{Read, Write};

/// How a replay ended that was reported.
#[derive(Clone, Copy, Debug, PartialEq, Eq)]
pub enum ReplayEnd {
    /// All events were taken.
    Ran,
    /// An event wasn't taken, which the report's first line says.
    Stopped,
}

/// Reads a scenario, lets its events happen between a host and a converter, up to the first that isn't
/// taken, and writes the report. Neither stream may have failed before.
///
/// Takes memory for the text as it is read, and once for the report: each event happens as its line is read.
///
/// # Errors
///
/// X3 if the text has more than 1,048,576 bytes; X4 if the reader failed; X1 or X2 for the
/// text's first faulty line; X7 if no world is made of what the scenario asks for; X6 if memory
/// was refused; X5 if the writer failed, and then only a prefix of the report is written. On any
/// other refusal nothing was written. X3 and X4 come before X1 and X2, and these before X7.
pub fn replay<R: Read, W: Write>(
    alloc: Global,
    reader: &mut Source<R>,
    writer: &mut Sink<W>,
) -> Result<ReplayEnd, TextFault>
    requires reader { IsFalse reader.old.failed }
    requires writer { IsFalse writer.old.failed }
    // The report is that of the life in the reader's text; X1 and X2 are the text's first faulty line, and
    // X7 says why no world is made.
    ensures { EngineEnds replaying
        (over R.remaining reader.old reader.new W.contents writer.old writer.new) result }
{
    let input = read_text(alloc, reader)?;
    let (text, end) = report_on(alloc, &input)?;
    writer.put(text.as_str().as_bytes())?;
    Ok(end)
}

// The report on what a text's scenario results in, and how that ended.
fn report_on(alloc: Global, input: &[u8]) -> Result<(String, ReplayEnd), TextFault>
    requires { length input.now ≤ max_text }
    ensures replayed { IfOk result (λ told. IsReplay input.now (string_bytes told.0) told.1) }
    ensures refused { IfErr result (λ fault. (fault ≡ TextFault.Memory)
        ⊎ (replay_of input.now ≡ Err fault)) }
    ensures memory { IsErrOf result TextFault.Memory → 0 < length input.now }
    ensures faults { IfErr result IsOfInput }
{
    let run = run_text(input)?;
    let text = render_report(alloc, &run)?;
    Ok((text, end_of(&run.stop)))
}

// How a replay ends that stops so.
fn end_of(stop: &Option<Stop>) -> ReplayEnd
    ensures { result ≡ replay_end_by stop.now }
{
    match stop {
        Some(_) => ReplayEnd::Stopped,
        None => ReplayEnd::Ran,
    }
}
