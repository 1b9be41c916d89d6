//! A run of the program, from its command line to its status.

ghost use Rattle.std.specs.Prelude.{◌≡◌, ◌⊎◌, ◌≤◌, ◌++◌, IsFalse, MatchResult, Err, Ok, codes, decimal, flat_map, map, string_bytes};
ghost use Rattle.std.specs.Io.KnownBytes.{Keeps};
ghost use Rattle.std.specs.IoError.{error_kind};
ghost use Rattle.std.specs.Process.{exit_status};
ghost use Rattle.std.specs.Vec.Iter.{into_iter_items};
ghost use Rattle.clap.specs.Words.{kind_of};
ghost use Rattle.pm_tool.specs.Arguments.{arguments_of};
ghost use Rattle.pm_tool.specs.Refusals.{Says};
ghost use Rattle.pm_tool.specs.Execution.{CheckEnds, CommandRuns, End, IsDone, IsEnd, NumberEnds, RunEnds, UsageEnds};
ghost use Rattle.pm_tool.specs.Execution.{TellEnds};
ghost use Rattle.pm_tool.specs.Execution.{CutShort, IsToldDone, Printed, hint_words, refusal_line, unwritten_words, wants_memory};
ghost use Rattle.pm_tool.specs.Question.{question_of_options};

use crate::arguments::{texts_of, words_of};
use crate::commandline::{Chosen, TellTexts, chosen};
use crate::numbers::number;
use crate::refusals::{misuse, refuse_arguments, refuse_memory, say};
use crate::text_commands::{TextCommand, Unwritten};
use crate::text_faults::say_fault;
use crate::usage::{Usage, usage_of};
use pm_decode::Hint;
use pm_log::Lacks;
use pm_text::{Sink, Source, TextFault};
use std::alloc::Global;
use std::env::Args;
use std::io::{self, Read, Write};
use std::process::ExitCode;

/// The program's name, as it begins each line on standard error.
const NAME: &str = "pmb";

/// What is said of a text of `--lacks` that can't be read.
const BAD_LACKS: &str =
    "bad lacks: give an address and VOUT_MAX, VOUT_MARGIN_HIGH, VOUT_MARGIN_LOW or VOUT_MIN, as 58:VOUT_MAX,VOUT_MIN";

/// Runs the program over what `env::args` gave, and over standard input, output and error, as `run` does. `main`
/// hands on what its runtime has: no clause can say what a terminal, a pipe or a file gives or takes. None of the
/// streams may have failed before. The status is at most 2. Takes memory for the arguments, and then as `run`.
pub fn program<R: Read, W: Write, E: Write>(
    alloc: Global,
    arguments: io::Result<Args>,
    input: &mut Source<R>,
    output: &mut Sink<W>,
    errors: &mut Sink<E>,
) -> ExitCode
    requires input { IsFalse input.old.failed }
    requires output { IsFalse output.old.failed }
    requires errors { IsFalse errors.old.failed }
    ensures ends { MatchResult arguments
        (λ given. (end : End) × RunEnds R.remaining input.old input.new (Ok (map string_bytes (into_iter_items given))) end
        × IsEnd W.contents E.contents output.old output.new errors.old errors.new (exit_status result) end)
        (λ error. (end : End) × RunEnds R.remaining input.old input.new (Err (error_kind error)) end
        × IsEnd W.contents E.contents output.old output.new errors.old errors.new (exit_status result) end) }
    ensures status { exit_status result ≤ 2 }
{
    let given = match arguments {
        Ok(given) => given,
        Err(error) => return ExitCode::from(run(alloc, Err(error.kind()), input, output, errors)),
    };
    let Ok(given) = texts_of(alloc, given) else {
        return ExitCode::from(refuse_memory(errors, NAME));
    };
    let Ok(words) = words_of(alloc, &given) else {
        return ExitCode::from(refuse_memory(errors, NAME));
    };
    ExitCode::from(run(alloc, Ok(words.as_slice()), input, output, errors))
}

/// Runs the program: does what the words of the command line ask, over any reader and any two
/// writers, and answers the exit status. The words are those of the arguments, the program's name
/// first, or the error's kind if they couldn't be had as texts. None of the streams may have
/// failed before.
///
/// Status 0: the text was written to the output, or help or the version that was asked for. Status 1:
/// a stopped replay or a trace with a bad line. In both cases the third stream gets nothing but what may be
/// wrong with a trace that was shown with options, in one line. Status 1 too: a refused input, a
/// failed stream or want of memory, and 2: a faulty command line; each of these with one line on the
/// third stream, if that can be written, but for the parser's own texts. X3 of `decode` with options
/// has a second line, unless `--long` is given.
///
/// Takes memory for what the parser makes of the words, and then as the command that they name.
pub fn run<R: Read, W: Write, E: Write>(
    alloc: Global,
    words: Result<&[&str], io::ErrorKind>,
    input: &mut Source<R>,
    output: &mut Sink<W>,
    errors: &mut Sink<E>,
) -> u8
    requires input { IsFalse input.old.failed }
    requires output { IsFalse output.old.failed }
    requires errors { IsFalse errors.old.failed }
    ensures { (end : End) × RunEnds R.remaining input.old input.new (arguments_of words.entry) end
        × IsEnd W.contents E.contents output.old output.new errors.old errors.new result end }
{
    let words = match words {
        Ok(words) => words,
        Err(kind) => return refuse_arguments(errors, NAME, kind),
    };
    match chosen(alloc, words) {
        Ok(Chosen::Hear) => run_engine(TextCommand::Hear, alloc, input, output, errors),
        Ok(Chosen::Replay) => run_engine(TextCommand::Replay, alloc, input, output, errors),
        Ok(Chosen::Decode) => run_engine(TextCommand::Decode, alloc, input, output, errors),
        Ok(Chosen::Tell(given)) => tell_given(alloc, &given, input, output, errors),
        Ok(Chosen::Check { lacks }) => run_check(alloc, lacks, input, output, errors),
        Ok(
            Chosen::Number {
                format,
                word,
                micro,
            },
        ) => run_number(alloc, output, errors, format, word, micro),
        Err(error) => show_usage(alloc, &error, output, errors),
    }
}

// A command that reads one text and writes another.
fn run_engine<R: Read, W: Write, E: Write>(
    command: TextCommand,
    alloc: Global,
    input: &mut Source<R>,
    output: &mut Sink<W>,
    errors: &mut Sink<E>,
) -> u8
    requires input { IsFalse input.old.failed }
    requires output { IsFalse output.old.failed }
    requires errors { IsFalse errors.old.failed }
    ensures { (end : End) × CommandRuns command R.remaining input.old input.new end
        × IsEnd W.contents E.contents output.old output.new errors.old errors.new result end }
{
    match command.run(alloc, input, output) {
        Ok(written) => done_with(output, errors, written.status, written.hint),
        Err(refusal) => refuse_text(errors, &refusal),
    }
}

// `pmb check` for a receiver who lets parts lack these registers, if the texts of `--lacks` could be read.
fn run_check<R: Read, W: Write, E: Write>(
    alloc: Global,
    lacks: Option<Lacks>,
    input: &mut Source<R>,
    output: &mut Sink<W>,
    errors: &mut Sink<E>,
) -> u8
    requires input { IsFalse input.old.failed }
    requires output { IsFalse output.old.failed }
    requires errors { IsFalse errors.old.failed }
    ensures { (end : End) × CheckEnds R.remaining input.old input.new lacks end
        × IsEnd W.contents E.contents output.old output.new errors.old errors.new result end }
{
    match lacks {
        Some(lacks) => run_engine(TextCommand::Check(lacks), alloc, input, output, errors),
        None => {
            say(errors, NAME, BAD_LACKS);
            2
        }
    }
}

// The telling that options ask for.
fn tell_given<R: Read, W: Write, E: Write>(
    alloc: Global,
    given: &TellTexts<'_>,
    input: &mut Source<R>,
    output: &mut Sink<W>,
    errors: &mut Sink<E>,
) -> u8
    requires input { IsFalse input.old.failed }
    requires output { IsFalse output.old.failed }
    requires errors { IsFalse errors.old.failed }
    ensures { (end : End) × TellEnds R.remaining input.old input.new given.now end
        × IsEnd W.contents E.contents output.old output.new errors.old errors.new result end }
{
    match given.options() {
        Ok(options) => run_engine(TextCommand::Tell(options), alloc, input, output, errors),
        Err(fault) => {
            say(errors, NAME, fault.words());
            fault.status()
        }
    }
}

// Says why a text wasn't written whole.
fn refuse_text<E: Write>(errors: &mut Sink<E>, refusal: &Unwritten) -> u8
    requires { IsFalse errors.old.failed }
    ensures status { result ≡ 1 }
    ensures said { Says E.contents errors.old errors.new (refusal_line (unwritten_words refusal.now)) }
{
    match refusal {
        Unwritten::Refused(fault) => say_fault(errors, NAME, fault),
        Unwritten::TooLong => say_too_long(errors),
    }
    1
}

// Says that a trace is too long, and what reads it.
fn say_too_long<E: Write>(errors: &mut Sink<E>)
    requires { IsFalse errors.old.failed }
    ensures { Says E.contents errors.old errors.new (refusal_line (unwritten_words Unwritten.TooLong)) }
{
    say_pieces(
        errors,
        &[
            NAME.as_bytes(),
            b": ",
            TextFault::TooLong.words().as_bytes(),
            b"\n",
            NAME.as_bytes(),
            b": ",
            b"--long reads on",
            b"\n",
        ],
    );
}

// The status of a run whose text was written whole: as wanted, once the writer handed the text on.
fn done<W: Write, E: Write>(output: &mut Sink<W>, errors: &mut Sink<E>, status: u8) -> u8
    requires output { IsFalse output.old.failed }
    requires errors { IsFalse errors.old.failed }
    ensures kept { Keeps (W.contents output.old.inner) (W.contents output.new.inner) }
    ensures done { IsDone E.contents output.new errors.old errors.new status result }
{
    done_with(output, errors, status, None)
}

// The status of a telling whose text was written whole, as `done` has it; standard error says what may be
// wrong.
fn done_with<W: Write, E: Write>(
    output: &mut Sink<W>,
    errors: &mut Sink<E>,
    status: u8,
    hint: Option<Hint>,
) -> u8
    requires output { IsFalse output.old.failed }
    requires errors { IsFalse errors.old.failed }
    ensures kept { Keeps (W.contents output.old.inner) (W.contents output.new.inner) }
    ensures done { IsToldDone E.contents output.new errors.old errors.new status hint result }
{
    match output.flush() {
        Ok(()) => {
            if let Some(hint) = hint {
                say_hint(errors, hint);
            }
            status
        }
        Err(_) => {
            say(errors, NAME, TextFault::Write.words());
            1
        }
    }
}

// Says what may be wrong.
fn say_hint<E: Write>(errors: &mut Sink<E>, hint: Hint)
    requires { IsFalse errors.old.failed }
    ensures { Says E.contents errors.old errors.new (refusal_line (hint_words hint)) }
{
    match hint {
        Hint::Beyond(line) => say_line(
            errors,
            line,
            b" orders a voltage beyond 1000 V by --vout: a minus may be missing",
        ),
        Hint::Timed(line) => say_line(errors, line, b" begins with its time: give --times"),
        Hint::NoTimes => say(
            errors,
            NAME,
            "no line is a time and a packet: give --times to both ends, or to none",
        ),
        Hint::NoGoodPacket => say(
            errors,
            NAME,
            "no line is a good packet: where lines begin with times, give --times",
        ),
        Hint::NoPec => say(
            errors,
            NAME,
            "no line is a good packet: where packets have no PEC, give --all",
        ),
        Hint::Paging(line) => say_line(
            errors,
            line,
            b" writes PAGE: --pages shows which output each packet reaches",
        ),
    }
}

// Says something of a line.
fn say_line<E: Write>(errors: &mut Sink<E>, line: u64, words: &[u8])
    requires { IsFalse errors.old.failed }
    ensures { Says E.contents errors.old errors.new (refusal_line (codes "line " ++ (decimal line ++ words.now))) }
{
    let mut digits = itoa::Buffer::new();
    say_pieces(
        errors,
        &[
            NAME.as_bytes(),
            b": ",
            b"line ",
            digits.format(line).as_bytes(),
            words,
            b"\n",
        ],
    );
}

// Says the line that these pieces make.
fn say_pieces<E: Write>(errors: &mut Sink<E>, pieces: &[&[u8]])
    requires { IsFalse errors.old.failed }
    ensures { Says E.contents errors.old errors.new (flat_map (λ piece. piece.now) pieces.now) }
{
    let _ = errors.put_all(pieces);
}

// `pmb number`, with the texts of its three options.
fn run_number<W: Write, E: Write>(
    alloc: Global,
    output: &mut Sink<W>,
    errors: &mut Sink<E>,
    format: &str,
    word: Option<&str>,
    micro: Option<&str>,
) -> u8
    requires output { IsFalse output.old.failed }
    requires errors { IsFalse errors.old.failed }
    ensures { (end : End)
        × NumberEnds (question_of_options format.entry word.entry micro.entry) end
        × IsEnd W.contents E.contents output.old output.new errors.old errors.new result end }
{
    match number(alloc, output, format, word, micro) {
        Ok(()) => done(output, errors, 0),
        Err(fault) => {
            say(errors, NAME, fault.words());
            fault.status()
        }
    }
}

// What the parser says in place of a choice: help and the version on the output, a fault on the third
// stream.
fn show_usage<W: Write, E: Write>(
    alloc: Global,
    error: &clap::Error,
    output: &mut Sink<W>,
    errors: &mut Sink<E>,
) -> u8
    requires output { IsFalse output.old.failed }
    requires errors { IsFalse errors.old.failed }
    ensures { (end : End) × (UsageEnds (kind_of error.now) end ⊎ (end ≡ wants_memory))
        × IsEnd W.contents E.contents output.old output.new errors.old errors.new result end }
{
    match usage_of(alloc, error) {
        Usage::Shown(text) => print_whole(text.as_str().as_bytes(), output, errors),
        Usage::Misused(text) => misuse(errors, text.as_str()),
        Usage::NoMemory => refuse_memory(errors, NAME),
    }
}

// Prints a whole text.
fn print_whole<W: Write, E: Write>(text: &[u8], output: &mut Sink<W>, errors: &mut Sink<E>) -> u8
    requires output { IsFalse output.old.failed }
    requires errors { IsFalse errors.old.failed }
    ensures { (end : End) × ((end ≡ Printed 0 text.now) ⊎ (end ≡ CutShort text.now))
        × IsEnd W.contents E.contents output.old output.new errors.old errors.new result end }
{
    match output.put(text) {
        Ok(()) => done(output, errors, 0),
        Err(_) => {
            say(errors, NAME, TextFault::Write.words());
            1
        }
    }
}
