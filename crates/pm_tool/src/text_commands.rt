//! The commands that read one text and write another.
ghost use Rattle.std.specs.Prelude.{◌≡◌, IsFalse};
ghost use Rattle.pm_text.specs.Replay.{replaying};
ghost use Rattle.pm_trace.specs.Outcome.{decoding};
ghost use Rattle.pm_tool.specs.Execution.{CheckRuns, CommandRuns, EngineRuns, Runs, TellRuns, decode_status, log_status, replay_status, untold as spec_untold};
ghost use Rattle.pm_tool.specs.Outcome.{hear_engine};

use crate::script::hear;
use pm_decode::{Hint, TellOptions, decode, tell};
use pm_log::{Lacks, LogEnd, check_log};
use pm_text::{DecodeEnd, ReplayEnd, Sink, Source, TextFault, replay};
use std::alloc::Global;
use std::io::{Read, Write};

/// A command that reads one text and writes another.
#[derive(Clone, Copy, Debug)]
pub(crate) enum TextCommand {
    /// `pmb hear`: status 0.
    Hear,
    /// `pmb replay`: status 1 if it stopped.
    Replay,
    /// `pmb decode` without options: status 1 if a line is bad.
    Decode,
    /// `pmb decode` with these options: the same status, and what may be wrong.
    Tell(TellOptions),
    /// `pmb check` for a receiver who lets parts lack these registers: status 1 if a line of the log isn't accepted.
    Check(Lacks),
}

/// How a command ended that wrote its text whole.
#[derive(Clone, Copy, Debug)]
pub(crate) struct Written {
    /// The exit status.
    pub(crate) status: u8,
    /// What may be wrong.
    pub(crate) hint: Option<Hint>,
}

/// Why a command didn't write its text whole.
#[derive(Debug, Drop)]
pub(crate) enum Unwritten {
    /// The text was refused, or a stream failed.
    Refused(TextFault),
    /// A trace is too long for `decode` without `--long`.
    TooLong,
}

impl TextCommand {
    /// Runs the command. Neither stream may have failed before.
    pub(crate) fn run<R: Read, W: Write>(
        &self,
        alloc: Global,
        reader: &mut Source<R>,
        writer: &mut Sink<W>,
    ) -> Result<Written, Unwritten>
        requires reader { IsFalse reader.old.failed }
        requires writer { IsFalse writer.old.failed }
        ensures { Runs (CommandRuns self.now R.remaining reader.old reader.new) W.contents writer.old writer.new result }
    {
        match self {
            TextCommand::Hear => run_hear(alloc, reader, writer),
            TextCommand::Replay => run_replay(alloc, reader, writer),
            TextCommand::Decode => run_decode(alloc, reader, writer),
            TextCommand::Tell(options) => run_tell(alloc, reader, writer, options),
            TextCommand::Check(lacks) => run_check(alloc, reader, writer, lacks),
        }
    }
}

// The frames of the reader are heard.
fn run_hear<R: Read, W: Write>(
    alloc: Global,
    reader: &mut Source<R>,
    writer: &mut Sink<W>,
) -> Result<Written, Unwritten>
    requires reader { IsFalse reader.old.failed }
    requires writer { IsFalse writer.old.failed }
    ensures { Runs (EngineRuns hear_engine (λ _. 0) R.remaining reader.old reader.new) W.contents writer.old writer.new result }
{
    match hear(alloc, reader, writer) {
        Ok(()) => Ok(Written {
            status: 0,
            hint: None,
        }),
        Err(fault) => Err(Unwritten::Refused(fault)),
    }
}

// The scenario of the reader is replayed.
fn run_replay<R: Read, W: Write>(
    alloc: Global,
    reader: &mut Source<R>,
    writer: &mut Sink<W>,
) -> Result<Written, Unwritten>
    requires reader { IsFalse reader.old.failed }
    requires writer { IsFalse writer.old.failed }
    ensures { Runs (EngineRuns replaying replay_status R.remaining reader.old reader.new)
        W.contents writer.old writer.new result }
{
    match replay(alloc, reader, writer) {
        Ok(end) => Ok(Written {
            status: status_of_replay(end),
            hint: None,
        }),
        Err(fault) => Err(Unwritten::Refused(fault)),
    }
}

// The trace of the reader is decoded without options.
fn run_decode<R: Read, W: Write>(
    alloc: Global,
    reader: &mut Source<R>,
    writer: &mut Sink<W>,
) -> Result<Written, Unwritten>
    requires reader { IsFalse reader.old.failed }
    requires writer { IsFalse writer.old.failed }
    ensures { Runs (EngineRuns decoding decode_status R.remaining reader.old reader.new)
        W.contents writer.old writer.new result }
{
    match decode(alloc, reader, writer) {
        Ok(end) => Ok(Written {
            status: status_of_trace(end),
            hint: None,
        }),
        Err(fault) => Err(Unwritten::Refused(fault)),
    }
}

// The trace of the reader is shown as the options have it.
fn run_tell<R: Read, W: Write>(
    alloc: Global,
    reader: &mut Source<R>,
    writer: &mut Sink<W>,
    options: &TellOptions,
) -> Result<Written, Unwritten>
    requires reader { IsFalse reader.old.failed }
    requires writer { IsFalse writer.old.failed }
    ensures { Runs (TellRuns options.now R.remaining reader.old reader.new) W.contents writer.old writer.new result }
{
    match tell(alloc, reader, writer, options) {
        Ok(told) => Ok(Written {
            status: status_of_trace(told.end),
            hint: told.hint,
        }),
        Err(fault) => Err(untold(options.long, fault)),
    }
}

// The log of the reader is checked.
fn run_check<R: Read, W: Write>(
    alloc: Global,
    reader: &mut Source<R>,
    writer: &mut Sink<W>,
    lacks: &Lacks,
) -> Result<Written, Unwritten>
    requires reader { IsFalse reader.old.failed }
    requires writer { IsFalse writer.old.failed }
    ensures { Runs (CheckRuns lacks.now.parts R.remaining reader.old reader.new) W.contents writer.old writer.new result }
{
    match check_log(alloc, reader, writer, lacks) {
        Ok(end) => Ok(Written {
            status: status_of_log(end),
            hint: None,
        }),
        Err(fault) => Err(Unwritten::Refused(fault)),
    }
}

// Why a trace wasn't shown.
fn untold(long: bool, fault: TextFault) -> Unwritten
    ensures { result ≡ spec_untold long fault }
{
    match fault {
        TextFault::TooLong if !long => Unwritten::TooLong,
        fault => Unwritten::Refused(fault),
    }
}

// The status of a replay that ended.
fn status_of_replay(end: ReplayEnd) -> u8
    ensures { result ≡ replay_status end }
{
    match end {
        ReplayEnd::Ran => 0,
        ReplayEnd::Stopped => 1,
    }
}

// The status of a trace that was shown.
fn status_of_trace(end: DecodeEnd) -> u8
    ensures { result ≡ decode_status end }
{
    match end {
        DecodeEnd::Clean => 0,
        DecodeEnd::BadLines => 1,
    }
}

// The status of a log whose verdict was printed.
fn status_of_log(end: LogEnd) -> u8
    ensures { result ≡ log_status end }
{
    match end {
        LogEnd::Accepted => 0,
        LogEnd::Refused => 1,
    }
}
