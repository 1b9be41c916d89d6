//! A run of the program over memory.

ghost use Rattle.std.specs.Prelude.{IsFalse};

use crate::checks::{equal, is_true, words_of};
use crate::{
    FRAME, Failure, KINDS, LINES, Paper, Pieces, REPORT, SCENARIO, TAKEN, TRACE, blank_paper,
    in_pieces,
};
use pm_tool::{Sink, Source, run};
use std::alloc::Global;
use std::io::{ErrorKind, Read};
use std::process::Abort;
use std::test::Fail;

/// What a run over memory results in: the status, and what was written on both streams.
#[derive(Drop)]
pub(super) struct Ran {
    pub(super) status: u8,
    pub(super) output: Paper,
    pub(super) errors: Paper,
}

impl Ran {
    /// Whether the run ended so.
    pub(super) fn is(&self, status: u8, output: &str, errors: &str) -> bool {
        self.status == status
            && self.output.taken.as_slice() == output.as_bytes()
            && self.errors.taken.as_slice() == errors.as_bytes()
    }
}

/// Runs the program with its output and its errors going to such writers.
pub(super) fn run_with<R: Read>(
    alloc: Global,
    words: Result<&[&str], ErrorKind>,
    input: &mut Source<R>,
    output: Paper,
    errors: Paper,
) -> Ran
    requires { IsFalse input.old.failed }
{
    let mut output = Sink::new(output);
    let mut errors = Sink::new(errors);
    let status = run(alloc, words, input, &mut output, &mut errors);
    Ran {
        status,
        output: output.into_inner(),
        errors: errors.into_inner(),
    }
}

/// Runs the program on a text.
pub(super) fn run_on(alloc: Global, words: &[&str], text: &str) -> Ran {
    let mut input = Source::new(in_pieces(text.as_bytes(), 7));
    run_with(
        alloc,
        Ok(words),
        &mut input,
        blank_paper(alloc, 4096),
        blank_paper(alloc, 4096),
    )
}

// A run on a text ends so.
fn ends(
    rt: &(impl Abort + AllocGlobal),
    words: &[&str],
    text: &str,
    status: u8,
    said: (&str, &str),
) {
    let (output, errors) = said;
    let found = run_on(rt.alloc(), words, text);
    is_true(rt, found.is(status, output, errors), &(words, text));
}

// Words that aren't there are refused so, and nothing is read.
fn ends_unread(rt: &(impl Abort + AllocGlobal), kind: ErrorKind, status: u8, errors: &str) {
    let mut input = Source::new(in_pieces(FRAME.as_bytes(), 7));
    let found = run_with(
        rt.alloc(),
        Err(kind),
        &mut input,
        blank_paper(rt.alloc(), 1),
        blank_paper(rt.alloc(), 1),
    );
    is_true(rt, found.is(status, "", errors), &errors);
    equal(rt, &input.into_inner().calls, &0, &1);
}

/// A log of a part's own answers. Its VOUT_MAX holds it at 1 V, and the claim says that it has none.
const WITHOUT: &str =
    "#log 58 2 2\nB0 06 02 00 20 / B1 01 14 4E\nB0 06 02 00 01 / B1 01 80 73\nB0 06 02 00 21 / B1 02 CD 34 B9\n#commands 0 3300048 to 3300049 uV without VOUT_MAX VOUT_MIN\n";

/// The same log in which VOUT_MAX was read.
const BELIED: &str =
    "#log 58 2 2\nB0 06 02 00 20 / B1 01 14 4E\nB0 06 02 00 01 / B1 01 80 73\nB0 06 02 00 21 / B1 02 CD 34 B9\nB0 06 02 00 24 / B1 02 00 10 AC\n#commands 0 3300048 to 3300049 uV without VOUT_MAX VOUT_MIN\n";

const BAD_LACKS: &str =
    "pmb: bad lacks: give an address and VOUT_MAX, VOUT_MARGIN_HIGH, VOUT_MARGIN_LOW or VOUT_MIN, as 58:VOUT_MAX,VOUT_MIN\n";

/// The words after `pmb`, the log, the status, and what is written on standard output.
#[rattlefmt::skip]
static CHECKS: [(&str, &str, u8, &str); 10] = [
    ("check", WITHOUT, 1,
        "line 5: the writer says that 58 lacks VOUT_MAX VOUT_MIN: --lacks=58:VOUT_MAX,VOUT_MIN if its data sheet says so\n"),
    ("check --lacks=58:VOUT_MAX,VOUT_MIN", WITHOUT, 0,
        "accepted: 1 claim, 3 transfers; without VOUT_MAX VOUT_MIN of 58 by --lacks\n"),
    // In any order, twice, in several options, with an address in either case and a slash for the colon.
    ("check --lacks 58/VOUT_MIN,VOUT_MAX,VOUT_MIN", WITHOUT, 0,
        "accepted: 1 claim, 3 transfers; without VOUT_MAX VOUT_MIN of 58 by --lacks\n"),
    ("check --lacks=58:VOUT_MIN --lacks=6a:VOUT_MIN --lacks=58:VOUT_MAX", WITHOUT, 0,
        "accepted: 1 claim, 3 transfers; without VOUT_MAX VOUT_MIN of 58 by --lacks\n"),
    ("check --lacks=58:VOUT_MIN", WITHOUT, 1,
        "line 5: the writer says that 58 lacks VOUT_MAX: --lacks=58:VOUT_MAX if its data sheet says so\n"),
    ("check --lacks=59:VOUT_MAX,VOUT_MIN", WITHOUT, 1,
        "line 5: the writer says that 58 lacks VOUT_MAX VOUT_MIN: --lacks=58:VOUT_MAX,VOUT_MIN if its data sheet says so\n"),
    ("check --lacks=58:VOUT_MAX,VOUT_MARGIN_HIGH,VOUT_MARGIN_LOW,VOUT_MIN", WITHOUT, 0,
        "accepted: 1 claim, 3 transfers; without VOUT_MAX VOUT_MIN of 58 by --lacks\n"),
    ("check --lacks=58:VOUT_MARGIN_HIGH,VOUT_MARGIN_LOW", WITHOUT, 1,
        "line 5: the writer says that 58 lacks VOUT_MAX VOUT_MIN: --lacks=58:VOUT_MAX,VOUT_MIN if its data sheet says so\n"),
    ("check", BELIED, 1,
        "line 6: the writer says that 58 lacks VOUT_MAX: 0 VOUT_MAX answered on line 5\n"),
    ("check --lacks=58:VOUT_MAX,VOUT_MIN", BELIED, 1,
        "line 6: the writer says that 58 lacks VOUT_MAX: 0 VOUT_MAX answered on line 5\n"),
];

/// A text of `--lacks` that can't be read.
#[rattlefmt::skip]
static NO_LACKS: [&str; 16] = [
    "--lacks=", "--lacks=58", "--lacks=58:", "--lacks=:VOUT_MAX", "--lacks=VOUT_MAX",
    "--lacks=58:VOUT_MAX,", "--lacks=58:,VOUT_MAX", "--lacks=58:VOUT_MAX VOUT_MIN",
    "--lacks=58:vout_max", "--lacks=58:VOUT_COMMAND", "--lacks=58:OPERATION",
    "--lacks=58:VOUT_MAX:VOUT_MIN", "--lacks=07:VOUT_MAX", "--lacks=78:VOUT_MAX",
    "--lacks=0x58:VOUT_MAX", "--lacks=58:VOUT_MAX,59:VOUT_MAX",
];

#[test]
fn every_status_of_check_has_its_texts(rt: HostRuntime) -> Result<(), Fail> {
    for &(words, log, status, output) in &CHECKS {
        let words = words_of(rt.alloc(), words)?;
        ends(&rt, words.as_slice(), log, status, (output, ""));
    }
    for &option in &NO_LACKS {
        ends(&rt, &["pmb", "check", option], WITHOUT, 2, ("", BAD_LACKS));
    }
    // A faulty text counts wherever it stands.
    let words = ["pmb", "check", "--lacks=58:VOUT_MAX", "--lacks=58"];
    ends(&rt, &words, WITHOUT, 2, ("", BAD_LACKS));
    Ok(())
}

/// An option of `number`, the status, and what is written on both streams.
static NUMBERS: [(&str, u8, &str, &str); 6] = [
    ("--word=87FF", 0, "word 87FF value -1/65536 micro -16\n", ""),
    ("--word=1", 2, "", "pmb: bad word\n"),
    ("--micro=1e3", 2, "", "pmb: bad micro\n"),
    ("--micro=33521664000001", 1, "", "pmb: N4 AboveGreatest\n"),
    ("--micro=-33554432000001", 1, "", "pmb: N3 BelowLeast\n"),
    ("--micro=1000000000000001", 1, "", "pmb: N5 TooLarge\n"),
];

/// A format that is refused, with its status and its words.
static NO_NUMBERS: [(&str, u8, &str); 3] = [
    ("--format=direct:0:5:3", 1, "pmb: N1 ZeroSlope\n"),
    ("--format=direct:1:5:13", 1, "pmb: N2 ExponentRange\n"),
    ("--format=float", 2, "pmb: bad format\n"),
];

#[test]
fn every_status_has_its_texts(rt: HostRuntime) {
    let hear = ["pmb", "hear"];
    ends(&rt, &hear, FRAME, 0, (TAKEN, ""));
    ends(&rt, &hear, "/ /", 1, ("", "pmb: X1 Syntax line 1\n"));
    ends(&rt, &hear, "\n\nB0 0", 1, ("", "pmb: X2 BadHex line 3\n"));
    ends_unread(&rt, ErrorKind::OutOfMemory, 1, "pmb: X6 Memory\n");
    ends_unread(&rt, ErrorKind::InvalidData, 2, "pmb: bad arguments\n");
    // Every status of `number` has its texts.
    for &(option, status, output, errors) in &NUMBERS {
        let words = ["pmb", "number", "--format=linear11", option];
        ends(&rt, &words, FRAME, status, (output, errors));
    }
    let words = ["pmb", "number", "--format=linear11"];
    let errors = "pmb: give one of --word and --micro\n";
    ends(&rt, &words, FRAME, 2, ("", errors));
    for &(format, status, errors) in &NO_NUMBERS {
        let words = ["pmb", "number", format, "--word=0001"];
        ends(&rt, &words, "", status, ("", errors));
    }
}

// A run over such a reader ends with these words on standard error, after so many calls.
fn ends_reading(
    rt: &(impl Abort + AllocGlobal),
    words: &[&str],
    reader: Pieces<'_>,
    errors: &str,
) -> usize {
    let mut input = Source::new(reader);
    let found = run_with(
        rt.alloc(),
        Ok(words),
        &mut input,
        blank_paper(rt.alloc(), 1),
        blank_paper(rt.alloc(), 1),
    );
    is_true(rt, found.is(1, "", errors), &words);
    input.into_inner().calls
}

fn ends_at_read(rt: &(impl Abort + AllocGlobal), command: &str, fails_at: usize) {
    let reader = with! { Pieces, in_pieces(FRAME.as_bytes(), 7); fails_at };
    let calls = ends_reading(rt, &["pmb", command], reader, "pmb: X4 Read\n");
    equal(rt, &calls, &fails_at, &command);
}

#[test]
fn a_failed_reader_and_a_long_text_are_told(rt: HostRuntime) -> Result<(), Fail> {
    let long = vec![in rt.alloc(); b'#'; 1_048_577]?;
    for command in ["hear", "replay", "decode"] {
        for fails_at in 1..=5 {
            ends_at_read(&rt, command, fails_at);
        }
        let words = ["pmb", command];
        ends_reading(&rt, &words, in_pieces(&long, 4096), "pmb: X3 TooLong\n");
    }
    let words = ["pmb", "decode", "--values"];
    let errors = "pmb: X3 TooLong\npmb: --long reads on\n";
    ends_reading(&rt, &words, in_pieces(&long, 4096), errors);
    for fails_at in 1..=5 {
        ends_at_read(&rt, "check", fails_at);
    }
    Ok(())
}

// What comes of a run on the worked frame over such an output.
fn run_into(alloc: Global, words: &[&str], output: Paper) -> Ran {
    let mut input = Source::new(in_pieces(FRAME.as_bytes(), 7));
    run_with(
        alloc,
        Ok(words),
        &mut input,
        output,
        blank_paper(alloc, 4096),
    )
}

// An output that fails at this call has a front of the text, and the failure is said.
fn ends_at_write(
    rt: &(impl Abort + AllocGlobal),
    words: &[&str],
    text: &str,
    fails_at: usize,
    failure: Failure,
) {
    let output = with! { Paper, blank_paper(rt.alloc(), 1); fails_at, failure };
    let found = run_into(rt.alloc(), words, output);
    equal(rt, &found.output.calls, &fails_at, &words);
    equal(rt, &found.output.flushes, &0, &fails_at);
    let front = &text.as_bytes()[..fails_at.saturating_sub(1).min(text.len())];
    equal(rt, &found.output.taken.as_slice(), &front, &fails_at);
    has_ended(rt, &found, 1, "pmb: X5 Write\n");
}

fn has_ended(rt: &impl Abort, found: &Ran, status: u8, errors: &str) {
    equal(rt, &found.status, &status, &errors);
    let written = found.errors.taken.as_slice();
    equal(rt, &written, &errors.as_bytes(), &errors);
}

// Each call of an output fails in each way, and its flush.
fn holds_a_front(rt: &(impl Abort + AllocGlobal), words: &[&str], text: &str) {
    for fails_at in 1..=text.len() {
        ends_at_write(rt, words, text, fails_at, Failure::Nothing);
        for &kind in &KINDS {
            ends_at_write(rt, words, text, fails_at, Failure::Error(kind));
        }
    }
    let output = with! { Paper, blank_paper(rt.alloc(), 1); flush_fails: true };
    let found = run_into(rt.alloc(), words, output);
    is_true(rt, found.is(1, text, "pmb: X5 Write\n"), &1);
}

#[test]
fn a_failed_output_is_told_and_holds_a_front(rt: HostRuntime) {
    holds_a_front(&rt, &["pmb", "hear"], TAKEN);
    let refused = "line 1: no #log line stands before it\n";
    holds_a_front(&rt, &["pmb", "check"], refused);
    let number = ["pmb", "number", "--format=linear11", "--word=87FF"];
    holds_a_front(&rt, &number, "word 87FF value -1/65536 micro -16\n");
}

/// A replay that stops, and its report.
const STOPPED: &str =
    "scenario 1\naddress 58\npasses 2\nprotect 00\ncoefficients 1 0 0\noutput 14 80 1000 4000 1100 0F00\nbegin\nfinish ack\n";

const STOPPED_REPORT: &str =
    "stopped 0 S2 NothingSent\nprotect 00 host unknown\noutput 0 on commanded 4096/4096 1000000 uV\nOPERATION 80 host unknown\nVOUT_COMMAND 1000 host unknown\nVOUT_MAX 4000 host unknown\nVOUT_MARGIN_HIGH 1100 host unknown\nVOUT_MARGIN_LOW 0F00 host unknown\nstatus 00 0000 00\ncml 00\nrestart seen no\njob none\n";

// A run over an output whose flush fails, or not.
fn flushed(alloc: Global, words: &[&str], text: &str, flush_fails: bool) -> Ran {
    let mut input = Source::new(in_pieces(text.as_bytes(), 4096));
    let output = with! { Paper, blank_paper(alloc, 4096); flush_fails };
    run_with(
        alloc,
        Ok(words),
        &mut input,
        output,
        blank_paper(alloc, 4096),
    )
}

/// The option or the command, what is read, the status, what is printed and what is said.
#[rattlefmt::skip]
static HANDED_ON: [(&str, &str, u8, &str, &str); 13] = [
    ("hear", FRAME, 0, TAKEN, ""), ("replay", SCENARIO, 0, REPORT, ""),
    ("replay", STOPPED, 1, STOPPED_REPORT, ""), ("decode", TRACE, 1, LINES, ""),
    ("decode", "B0", 0, "1 58 write F2 Short 1\nlines 1 accepted 0 faults 1 bad 0\n", ""),
    ("decode", "", 0, "lines 0 accepted 0 faults 0 bad 0\n", ""),
    ("--version", "", 0, "pmb 0.1.0\n", ""),
    ("hear", "/ /", 1, "", "pmb: X1 Syntax line 1\n"),
    ("replay", "", 1, "", "pmb: X1 Syntax line 1\n"),
    ("replay", "scenario 1\naddress 5\n", 1, "", "pmb: X2 BadHex line 2\n"),
    ("number", "", 2, "", "pmb: give one of --word and --micro\n"),
    ("check", "#log 58 2 2\nB0 06 02 00 21 / B1 02 CD 34 B9\n#holds 0 VOUT_COMMAND 34CD\n", 0,
        "accepted: 1 claim, 1 transfer\n", ""),
    ("check", "#log 58 2 2\nB0 06 02 00 21 / B1 02 CD 34 B8\n#holds 0 VOUT_COMMAND 34CD\n", 1,
        "line 3: 0 VOUT_COMMAND isn't known to hold 34CD: possible any\n", ""),
];

#[test]
fn what_is_printed_is_handed_on_once_whatever_the_status(rt: HostRuntime) {
    for &(command, text, status, output, errors) in &HANDED_ON {
        is_handed_on(&rt, command, text, status, (output, errors));
    }
}

// What is printed is flushed once, and a flush that fails is said.
fn is_handed_on(
    rt: &(impl Abort + AllocGlobal),
    command: &str,
    text: &str,
    status: u8,
    said: (&str, &str),
) {
    let (output, errors) = said;
    let words = ["pmb", command];
    let found = flushed(rt.alloc(), &words, text, false);
    is_true(rt, found.is(status, output, errors), &(command, text));
    let printed = usize::from(!output.is_empty());
    compare! { rt, (command, text);
        found.output.flushes => printed;
        (found.output.calls > 0) => (printed > 0);
        found.errors.flushes => 0;
    }
    if printed > 0 {
        let failed = flushed(rt.alloc(), &words, text, true);
        is_true(
            rt,
            failed.is(1, output, "pmb: X5 Write\n"),
            &(command, text),
        );
    }
}

// A run on no frame, over a standard error that fails at this call, has this status all the same.
fn keeps_status(
    rt: &(impl Abort + AllocGlobal),
    command: &str,
    status: u8,
    text: &str,
    fails_at: usize,
) {
    let mut input = Source::new(in_pieces(b"ZZ", 7));
    let errors = with! { Paper, blank_paper(rt.alloc(), 1); fails_at };
    let output = blank_paper(rt.alloc(), 1);
    let words = ["pmb", command];
    let found = run_with(rt.alloc(), Ok(&words), &mut input, output, errors);
    is_true(
        rt,
        found.status == status && found.output.taken.is_empty(),
        &fails_at,
    );
    equal(rt, &found.errors.calls, &fails_at, &1);
    let front = &text.as_bytes()[..fails_at.saturating_sub(1).min(text.len())];
    equal(rt, &found.errors.taken.as_slice(), &front, &fails_at);
}

#[test]
fn a_failed_standard_error_leaves_the_status(rt: HostRuntime) {
    let hear = "pmb: X2 BadHex line 1\n";
    for fails_at in 1..=hear.len() {
        keeps_status(&rt, "hear", 1, hear, fails_at);
    }
    let number = "pmb: give one of --word and --micro\n";
    for fails_at in 1..=number.len() {
        keeps_status(&rt, "number", 2, number, fails_at);
    }
}
