//! The engine: a log from a reader, and its verdict to a writer.
ghost use Rattle.std.specs.Prelude.{◌≡◌, ◌+◌, ◌≤◌, ◌↔◌, List, [], ℕ, IsFalse, IsTrue, IfErr, IfOk, MatchResult, OnOk, length, string_bytes};
ghost use Rattle.std.specs.List.{fold};
ghost use Rattle.std.specs.Io.KnownBytes.{IsAtEnd};
ghost use Rattle.pm_limits.specs.declared.part_registers.PartRegisters.{PartRegisters};
ghost use Rattle.pm_lines.specs.Engine.{over};
ghost use Rattle.pm_log.specs.Texts.{Breaks, LogEnds, ended_text, last_line_ended, log_text, most_log_bytes, no_byte, with_byte};
ghost use Rattle.pm_log.specs.TakenLogs.{Taken, TakesPiece, StopsLogBytes, StopsPiece};
ghost use Rattle.pm_log.specs.Verdicts.{log_end_of as spec_end_of, verdict_text};

use crate::lacks::Lacks;
use crate::log_text::LogText;
use crate::verdict_text::push_verdict;
use pm_lines::{Sink, Source, TextFault};
use std::alloc::Global;
use std::io::{Read, Write};

/// The most bytes that a log may have.
const MOST_BYTES: u64 = 1 << 63;

/// How many bytes are asked for at a time.
const PIECE: usize = 4096;

/// What a log came to whose verdict was written.
#[derive(Clone, Copy, Debug, PartialEq, Eq)]
pub enum LogEnd {
    /// Each line is accepted.
    Accepted,
    /// A line isn't.
    Refused,
}

/// Reads a log to its end, and writes one line: `accepted: 3 claims, 41 transfers`, or `line 17: ` and why that line isn't
/// accepted. It takes no more memory for a longer log.
///
/// A claim that says that the part lacks registers is accepted only if the receiver allows each of them, and the part answered for none
/// of them. The line then ends in `; without VOUT_MIN of 58 by --lacks`.
///
/// # Errors
///
/// X3 after 2^63 bytes, X4 if the reader failed, X5 if the writer did, and X6. Then nothing was written, but for
/// X5 a beginning of that line.
pub fn check_log<R: Read, W: Write>(
    alloc: Global,
    reader: &mut Source<R>,
    writer: &mut Sink<W>,
    allowed: &Lacks,
) -> Result<LogEnd, TextFault>
    requires reader { IsFalse reader.old.failed }
    requires writer { IsFalse writer.old.failed }
    ensures { LogEnds allowed.now.parts (over R.remaining reader.old reader.new W.contents writer.old writer.new) result }
{
    let mut log = LogText::new(alloc, allowed);
    check_all(alloc, reader, writer, allowed, &mut log)
}

// The body of `check_log`; what it keeps is borrowed so that it is dropped on every path.
fn check_all<R: Read, W: Write>(
    alloc: Global,
    reader: &mut Source<R>,
    writer: &mut Sink<W>,
    allowed: &Lacks,
    log: &mut LogText,
) -> Result<LogEnd, TextFault>
    requires reader { IsFalse reader.old.failed }
    requires writer { IsFalse writer.old.failed }
    requires fresh { log.old ≡ no_byte allowed.now.parts }
    ensures { LogEnds allowed.now.parts (over R.remaining reader.old reader.new W.contents writer.old writer.new) result }
{
    take_all(alloc, reader, allowed, log)?;
    if log.taken() == 0 {
        // the text of a verdict takes memory, which is asked for only if a byte was read
        writer.put(empty_verdict().as_bytes())?;
        return Ok(LogEnd::Refused);
    }
    let text = verdict(alloc, log)?;
    writer.put(text.as_bytes())?;
    Ok(end_of(log))
}

// Reads to the end.
fn take_all<R: Read>(
    alloc: Global,
    reader: &mut Source<R>,
    allowed: &Lacks,
    log: &mut LogText,
) -> Result<(), TextFault>
    requires reader { IsFalse reader.old.failed }
    requires fresh { log.old ≡ no_byte allowed.now.parts }
    ensures all { OnOk result (IsFalse reader.new.failed × (input : List ℕ)
        × Taken allowed.now.parts (R.remaining reader.old.inner) (R.remaining reader.new.inner) input log.new
        × IsAtEnd (R.remaining reader.new.inner)) }
    ensures breaks { IfErr result (λ fault. (IsTrue reader.new.failed ↔ (fault ≡ TextFault.Read))
        × Breaks (R.remaining reader.old.inner) (R.remaining reader.new.inner) fault) }
{
    let mut piece = [0u8; PIECE];
    'reads: loop {
        if take_piece(alloc, reader, log, &mut piece)? == 0 {
            return Ok(());
        }
    }
}

// Reads a piece, and takes it: how many bytes were read.
fn take_piece<R: Read>(
    alloc: Global,
    reader: &mut Source<R>,
    log: &mut LogText,
    piece: &mut [u8; PIECE],
) -> Result<usize, TextFault>
    requires reader { IsFalse reader.old.failed }
    requires room { log.old.taken ≤ most_log_bytes }
    ensures taken { IfOk result (λ count. TakesPiece (R.remaining reader.old.inner) (R.remaining reader.new.inner)
        log.old log.new count) }
    ensures stops { IfErr result (λ fault. StopsPiece (R.remaining reader.old.inner) (R.remaining reader.new.inner)
        log.old fault) }
    ensures failed { MatchResult result (λ _. IsFalse reader.new.failed)
        (λ fault. IsTrue reader.new.failed ↔ (fault ≡ TextFault.Read)) }
{
    let count = reader.read(piece)?;
    take_bytes(alloc, log, &piece[..count])?;
    Ok(count)
}

// Takes further bytes, if a log may have as many.
fn take_bytes(alloc: Global, log: &mut LogText, bytes: &[u8]) -> Result<(), TextFault>
    requires room { log.old.taken ≤ most_log_bytes }
    ensures taken { OnOk result (log.new ≡ fold with_byte log.old bytes.now) }
    ensures room { OnOk result (log.old.taken + length bytes.now ≤ most_log_bytes) }
    ensures stops { IfErr result (StopsLogBytes log.old bytes.now) }
{
    if bytes.len() as u64 > MOST_BYTES - log.taken() {
        return Err(TextFault::TooLong);
    }
    log.take(alloc, bytes)
}

// The verdict of no byte.
#[tactic(auto, using(crate::proofs::Texts::empty_text))]
fn empty_verdict() -> &'static str
    ensures { (allowed : List PartRegisters) → result.now ≡ log_text allowed [] }
{
    "line 1: no #log line stands before it\n"
}

// Ends the log: its verdict.
fn verdict(alloc: Global, log: &mut LogText) -> Result<String, TextFault>
    requires { log.old.taken ≤ most_log_bytes }
    ensures text { IfOk result (λ text. string_bytes text ≡ verdict_text (ended_text (last_line_ended log.old))) }
    ensures memory { IfErr result (λ fault. fault ≡ TextFault.Memory) }
    ensures end { OnOk result (log.new.checked.log ≡ ended_text (last_line_ended log.old)) }
{
    log.finish(alloc)?;
    let mut text = String::new(alloc);
    push_verdict(&mut text, log.checked())?;
    Ok(text)
}

// How a log ends.
fn end_of(log: &LogText) -> LogEnd
    ensures { result ≡ spec_end_of log.now.checked.log }
{
    match log.checked().log() {
        Ok(_) => LogEnd::Accepted,
        Err(_) => LogEnd::Refused,
    }
}
