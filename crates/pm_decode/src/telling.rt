//! Captures from a reader, and what they say, to a writer.
ghost use Rattle.std.specs.Prelude.{◌≡◌, ◌+◌, ◌≤◌, ◌↔◌, ℕ, List, [], ◌++◌, length, take, true, false, is_err};
ghost use Rattle.std.specs.Prelude.{Ok, Err, IfOk, IfErr, OnOk, OnErr, MatchResult, IsTrue, IsFalse};
ghost use Rattle.std.specs.Io.KnownBytes.{IsAtEnd};
ghost use Rattle.pm_lines.specs.Engine.{EngineEnds, over};
ghost use Rattle.pm_lines.specs.Streams.{AppendsFront};
ghost use Rattle.pm_trace.specs.TraceText.{IsOfDecode};
ghost use Rattle.pm_trace.specs.Written.{Puts};
ghost use Rattle.pm_decode.specs.CaptureText.{capture_end, capture_text, counts_text, empty_by as spec_empty_by};
ghost use Rattle.pm_decode.specs.Capturing.{capture_at_end, kept_of, most_bytes, capture_with_bytes, said_text, told_of_capture as told_of, told_at_capture_end};
ghost use Rattle.pm_decode.specs.LongEngine.{LongEnds};
ghost use Rattle.pm_decode.specs.Outcome.{telling_engine};
ghost use Rattle.pm_decode.specs.WrittenCaptures.{Hears, StopsBytes, StopsHearing, WrittenCapture};

use crate::TellOptions;
use crate::capture::Capture;
use crate::hints::Hint;
use crate::told_text::ToldText;
use pm_lines::{Sink, Source, TextFault};
use pm_trace::DecodeEnd;
use std::alloc::{AllocError, Global};
use std::io::{Read, Write};

/// The most bytes that are read at a time.
const PIECE: usize = 512;

/// The bytes of lines that are written at once, while the reader brings as many as it is asked for.
const GATHERED: usize = 16_384;

/// How a telling ends that wrote all of its text.
#[derive(Clone, Copy, Debug, PartialEq, Eq)]
pub struct TellEnd {
    /// Whether a line was bad.
    pub end: DecodeEnd,
    /// What may be wrong.
    pub hint: Option<Hint>,
}

/// Reads a capture and writes what it says, as the options have it: a line for each of its lines that isn't skipped,
/// at the end `count NAME k` for each code that accepted lines carry, in the order of first appearance, then with
/// `all` `count code HH k` for each other code, in ascending order, and `lines L accepted A faults F bad B`. Neither
/// stream may have failed before.
///
/// At most 512 bytes are read at a time. What the lines say is written as soon as a read brings fewer, or 16 KiB of
/// it are there.
///
/// A bad line is written by its letters, and ends nothing: `BadLines` says that there is one. What may be wrong stands in the
/// end, and isn't written.
///
/// Takes memory for what is gathered, which is less than 16 KiB and what the lines of one piece of 512 bytes say; for the
/// text of one line and of the counts, and the digits of a line's number; for the counts of codes, and for the format of each
/// output and address that the capture teaches. None of it grows with the capture, but by a code, an output or an address
/// that is new.
///
/// # Errors
///
/// X3 if the capture has more than 1,048,576 bytes, or with `long` more than 2^64 - 1, and X4 if the reader failed:
/// the lines that ended before were written, and no counts. X6 if memory was refused, which is asked for only after a
/// byte was read: the first lines were written. X5 if the writer failed, also as it was to get what was gathered
/// before one of these: a prefix of the text was written.
pub fn tell<R: Read, W: Write>(
    alloc: Global,
    reader: &mut Source<R>,
    writer: &mut Sink<W>,
    options: &TellOptions,
) -> Result<TellEnd, TextFault>
    requires reader { IsFalse reader.old.failed }
    requires writer { IsFalse writer.old.failed }
    // What is written is the capture's text. X1, X2 and X7 never come.
    ensures ends { LongEnds (most_bytes options.now.long) (capture_text options.now) (said_text options.now)
        (capture_end options.now) (over R.remaining reader.old reader.new W.contents writer.old writer.new) result }
    // An input of at most 1 MiB ends as every engine does
    ensures short { options.now.long ≡ false → EngineEnds (telling_engine options.now)
        (over R.remaining reader.old reader.new W.contents writer.old writer.new) result }
    ensures faults { IfErr result IsOfDecode }
{
    let mut capture = Capture::new(alloc, options);
    let mut told = ToldText::new(alloc);
    tell_all(reader, writer, options, &mut capture, &mut told)
}

// The body of `tell`. Nothing is kept or gathered yet; both are borrowed so that `tell` drops them on every path.
fn tell_all<R: Read, W: Write>(
    reader: &mut Source<R>,
    writer: &mut Sink<W>,
    options: &TellOptions,
    capture: &mut Capture,
    told: &mut ToldText,
) -> Result<TellEnd, TextFault>
    requires reader { IsFalse reader.old.failed }
    requires writer { IsFalse writer.old.failed }
    requires fresh { capture.old ≡ kept_of options.now [] }
    requires empty { told.old ≡ [] }
    ensures ends { LongEnds (most_bytes options.now.long) (capture_text options.now) (said_text options.now)
        (capture_end options.now) (over R.remaining reader.old reader.new W.contents writer.old writer.new) result }
    ensures faults { IfErr result IsOfDecode }
{
    hear_pieces(reader, writer, options, capture, told)?;
    if capture.taken() == 0 {
        // the text of the counts takes memory, which is asked for only if a byte was read
        writer.put(empty_text(options).as_bytes())?;
        return Ok(TellEnd {
            end: DecodeEnd::Clean,
            hint: None,
        });
    }
    tell_end(capture, told)?;
    writer.put(told.bytes())?;
    Ok(capture.end())
}

// Reads all pieces, and writes what the lines say that a line feed ended.
fn hear_pieces<R: Read, W: Write>(
    reader: &mut Source<R>,
    writer: &mut Sink<W>,
    options: &TellOptions,
    capture: &mut Capture,
    told: &mut ToldText,
) -> Result<(), TextFault>
    requires reader { IsFalse reader.old.failed }
    requires writer { IsFalse writer.old.failed }
    requires fresh { capture.old ≡ kept_of options.now [] }
    requires empty { told.old ≡ [] }
    ensures ok { OnOk result (IsFalse reader.new.failed × IsFalse writer.new.failed × (told.new ≡ [])
        × (input : List ℕ)
        × WrittenCapture options.now (R.remaining reader.old.inner) (R.remaining reader.new.inner)
        (W.contents writer.old.inner) (W.contents writer.new.inner) input capture.new
        × IsAtEnd (R.remaining reader.new.inner)) }
    ensures broken { IfErr result (λ fault. IsOfDecode fault × LongEnds (most_bytes options.now.long)
        (capture_text options.now) (said_text options.now) (capture_end options.now)
        (over R.remaining reader.old reader.new W.contents writer.old writer.new) (Err fault)) }
{
    let mut piece = [0u8; PIECE];
    'reads: loop {
        let count = hear_piece(reader, capture, told, &mut piece);
        put_due(writer, told, !is_full(&count))?;
        if count? == 0 {
            return Ok(());
        }
    }
}

// Reads a piece, and gathers what the lines say that a line feed ends in it: how many bytes were read.
fn hear_piece<R: Read>(
    reader: &mut Source<R>,
    capture: &mut Capture,
    told: &mut ToldText,
    piece: &mut [u8; PIECE],
) -> Result<usize, TextFault>
    requires reader { IsFalse reader.old.failed }
    ensures told { IfOk result (λ count. Hears (R.remaining reader.old.inner) (R.remaining reader.new.inner)
        told.old told.new capture.old capture.new count) }
    ensures stops { IfErr result (λ fault. StopsHearing (R.remaining reader.old.inner) (R.remaining reader.new.inner)
        told.old told.new capture.old fault) }
    ensures failed { MatchResult result (λ _. IsFalse reader.new.failed)
        (λ fault. IsTrue reader.new.failed ↔ (fault ≡ TextFault.Read)) }
{
    let count = reader.read(piece)?;
    hear_bytes(capture, told, &piece[..count])?;
    Ok(count)
}

// Gathers what the lines say that end in these bytes.
fn hear_bytes(capture: &mut Capture, gathered: &mut ToldText, bytes: &[u8]) -> Result<(), TextFault>
    ensures kept { OnOk result (capture.new ≡ capture_with_bytes capture.old bytes.now) }
    ensures told { OnOk result (gathered.new ≡ gathered.old ++ told_of capture.old bytes.now) }
    ensures room { OnOk result (capture.old.taken + length bytes.now ≤ most_bytes capture.old.options.long) }
    ensures stops { IfErr result (StopsBytes gathered.old gathered.new capture.old bytes.now) }
{
    let room = capture.room(bytes.len());
    capture.take(front(bytes, room), gathered)?;
    if room < bytes.len() {
        return Err(TextFault::TooLong);
    }
    Ok(())
}

// The first bytes.
fn front(bytes: &[u8], count: usize) -> &[u8]
    requires { count ≤ length bytes.now }
    ensures { result.now ≡ take count bytes.now }
{
    &bytes[..count]
}

// Whether a read brought as many bytes as were asked for, so that more may wait.
fn is_full(count: &Result<usize, TextFault>) -> bool
    ensures { result ≡ true → count.now ≡ Ok PIECE }
{
    matches!(count, Ok(PIECE))
}

// Writes what was gathered, if it is due or is much.
fn put_due<W: Write>(
    writer: &mut Sink<W>,
    told: &mut ToldText,
    is_due: bool,
) -> Result<(), TextFault>
    requires { IsFalse writer.old.failed }
    ensures puts { OnOk result
        (Puts (W.contents writer.old.inner) (W.contents writer.new.inner) told.old told.new) }
    ensures due { OnOk result (is_due ≡ true → told.new ≡ []) }
    ensures front { OnErr result
        (AppendsFront (W.contents writer.old.inner) (W.contents writer.new.inner) told.old) }
    ensures failed { writer.new.failed ≡ is_err result }
    ensures fault { IfErr result (λ fault. fault ≡ TextFault.Write) }
{
    if is_due || told.len() >= GATHERED {
        writer.put(told.bytes())?;
        told.clear();
    }
    Ok(())
}

// Ends the capture, and gathers the rest of the output: an unfinished last line, and the counts.
fn tell_end(capture: &mut Capture, gathered: &mut ToldText) -> Result<(), AllocError>
    ensures told { OnOk result (gathered.new ≡ gathered.old
        ++ (told_at_capture_end capture.old ++ counts_text capture.old.options (capture_at_end capture.old).heard)) }
    ensures kept { OnOk result (capture.new ≡ capture_at_end capture.old) }
{
    capture.finish(gathered)?;
    gathered.gather_counts(capture)
}

// What is written of a capture of no bytes.
#[tactic(auto, using(crate::proofs::Captures::empty_all))]
fn empty_text(options: &TellOptions) -> &'static str
    ensures { result.now ≡ capture_text options.now [] }
{
    empty_by(options.json, options.all)
}

// The counts by whether they are an object of JSON, and whether other codes are counted.
fn empty_by(json: bool, all: bool) -> &'static str
    ensures { result.now ≡ spec_empty_by json all }
{
    match (json, all) {
        (false, false) => "lines 0 accepted 0 faults 0 bad 0\n",
        (false, true) => "lines 0 accepted 0 other 0 faults 0 bad 0\n",
        (true, false) => "{\"lines\":0,\"accepted\":0,\"faults\":0,\"bad\":0}\n",
        (true, true) => "{\"lines\":0,\"accepted\":0,\"other\":0,\"faults\":0,\"bad\":0}\n",
    }
}
