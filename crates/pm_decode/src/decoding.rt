//! A trace from a reader, and what it says, to a writer.
ghost use Rattle.std.specs.Prelude.{IfErr, IsFalse};
ghost use Rattle.pm_lines.specs.Engine.{EngineEnds, over};
ghost use Rattle.pm_trace.specs.Outcome.{decoding};
ghost use Rattle.pm_trace.specs.TraceText.{IsOfDecode};

use crate::TellOptions;
use crate::telling::tell;
use pm_lines::{Sink, Source, TextFault};
use pm_trace::DecodeEnd;
use std::alloc::Global;
use std::io::{Read, Write};

/// Reads a trace and writes what it says, as [`tell`] does with [`TellOptions::none`]: a line for each of its lines that isn't
/// skipped; at the end `count NAME k` for each code that accepted lines carry, in the order of first appearance, and
/// `lines L accepted A faults F bad B`. Neither stream may have failed before.
///
/// At most 512 bytes are read at a time. What the lines say is written as soon as a read brings fewer, or 16 KiB of
/// it are there. A bad line is written by its letters, and ends nothing: `BadLines` says that there is one. It takes
/// memory as `tell` does.
///
/// # Errors
///
/// X3 if the trace has more than 1,048,576 bytes, and X4 if the reader failed: the lines that ended before were
/// written, and no counts. X6 if memory was refused, which is asked for only after a byte was read: the first lines were
/// written. X5 if the writer failed, also as it was to get what was gathered before one of these: a prefix of the text was
/// written.
pub fn decode<R: Read, W: Write>(
    alloc: Global,
    reader: &mut Source<R>,
    writer: &mut Sink<W>,
) -> Result<DecodeEnd, TextFault>
    requires reader { IsFalse reader.old.failed }
    requires writer { IsFalse writer.old.failed }
    // What is written is the trace's text. X1, X2 and X7 never come.
    ensures ends { EngineEnds decoding
        (over R.remaining reader.old reader.new W.contents writer.old writer.new) result }
    ensures faults { IfErr result IsOfDecode }
{
    match tell(alloc, reader, writer, &TellOptions::none()) {
        Ok(told) => Ok(told.end),
        Err(fault) => Err(fault),
    }
}
