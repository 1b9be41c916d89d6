//! Traces: lines that are skipped, counts, a decoder in pieces, and the most bytes of a part and of a text.

mod bad_lines;
mod packets;

use crate::checks::{equal, is_true, joined};
use crate::{Engine, Engines, TRACE, in_pieces};
use pm_text::{Decoder, Shown, TextFault, read_trace_line, render_line};
use std::alloc::{AllocError, Global};
use std::process::Abort;
use std::test::Fail;

// Whether a trace has no bad line, and what `decode` writes of it.
fn decoded(alloc: Global, trace: &str) -> (Result<bool, TextFault>, Vec<u8>) {
    Engine::Decode.text_of(alloc, in_pieces(trace.as_bytes(), 4096))
}

// What `decode` writes of a trace, and whether it has no bad line.
fn is_decoded(rt: &(impl Abort + AllocGlobal), trace: &str, text: &str, is_clean: bool) {
    let (end, written) = decoded(rt.alloc(), trace);
    equal(rt, &end, &Ok(is_clean), &trace);
    equal(rt, &written.as_slice(), &text.as_bytes(), &trace);
}

#[rattlefmt::skip]
static SAID: [(&str, &str, bool); 5] = [
    ("", "lines 0 accepted 0 faults 0 bad 0\n", true),
    ("\n\r\n  \n# x\r\n", "lines 0 accepted 0 faults 0 bad 0\n", true),
    ("b010 80 34\r",
        "1 58 WRITE_PROTECT write 80\ncount WRITE_PROTECT 1\nlines 1 accepted 1 faults 0 bad 0\n",
        true),
    ("B0 7E / B1 80 00\nB0 20/B1 14 ED\n\nB0 03 47\nB0 20 / B1 14 ED\n",
        "1 58 STATUS_CML read 80\n2 58 VOUT_MODE read 14\n4 58 write F5 WrongPec 2\n5 58 VOUT_MODE read 14\ncount STATUS_CML 1\ncount VOUT_MODE 2\nlines 4 accepted 3 faults 1 bad 0\n",
        true),
    ("  b010 8034  \nB0 1\r0 80 34\nb0\t10 80 34\nB 010 80 34\n#b0 10 80 34\nB0108034\n",
        "1 58 WRITE_PROTECT write 80\n2 X2 BadHex\n3 X2 BadHex\n4 X2 BadHex\n6 58 WRITE_PROTECT write 80\ncount WRITE_PROTECT 2\nlines 5 accepted 2 faults 0 bad 3\n",
        false),
];

#[test]
fn a_trace_is_written_line_by_line(rt: HostRuntime) {
    for &(trace, text, is_clean) in &SAID {
        is_decoded(&rt, trace, text, is_clean);
    }
}

// What a line says by itself, with this number: the example of the root of `pm_trace`, word for word.
fn rendered(alloc: Global, line: &str, number: u64) -> Result<String, TextFault> {
    let parts = read_trace_line(alloc, line.as_bytes())?;
    render_line(alloc, number, &parts)
}

#[test]
fn a_line_by_itself_is_never_skipped(rt: HostRuntime) -> Result<(), Fail> {
    for line in ["", "  "] {
        let text = rendered(rt.alloc(), line, 300)?;
        equal(&rt, &text.as_str(), &"300 -- write F1 NotOurs", &1);
    }
    let comment = rendered(rt.alloc(), "# x", 300).err();
    equal(&rt, &comment, &Some(TextFault::BadHex(1)), &2);
    Ok(())
}

/// What a decoder shows of the worked trace: the number of a line, and the message and the payload of the
/// answer, or the address, whether the fault is in the read part, and the fault.
static SHOWN: &str =
    "1 58 PagePlusWrite { page: 0, code: 33, payload: Word(13517) } None\n2 58 PagePlusRead { page: 0, code: 33 } Some([205, 52])\n3 Some(88) false WrongPec(7)\n4 58 WriteByte { code: 16, byte: 128 } None\n5 BadHex\n";

// Feeds a piece on until it is taken, and notes what is shown of each line.
fn feed_whole(
    alloc: Global,
    decoder: &mut Decoder,
    piece: &[u8],
    text: &mut String,
) -> Result<(), Fail> {
    let mut rest = piece;
    for _ in 0..piece.len() {
        let taken = decoder.feed(rest)?.taken;
        if let Some((number, shown)) = decoder.line() {
            text.push_str(line_shown(alloc, number, shown)?.as_str())?;
        }
        rest = &rest[taken..];
    }
    Ok(())
}

// What a decoder shows of a line, in a line.
fn line_shown(alloc: Global, number: u64, shown: Shown<'_>) -> Result<String, Fail> {
    Ok(match shown {
        Shown::Accepted { addr, view, answer } => {
            format!(in alloc; "{number} {addr:02X} {:?} {answer:?}\n", view.message())?
        }
        Shown::Faulty { addr, read, fault } => {
            format!(in alloc; "{number} {addr:?} {read} {fault:?}\n")?
        }
        Shown::BadSyntax => format!(in alloc; "{number} BadSyntax\n")?,
        Shown::BadHex => format!(in alloc; "{number} BadHex\n")?,
    })
}

// A decoder's calls, of whose contracts the tests need nothing.
fn fed(decoder: &mut Decoder, bytes: &[u8]) -> Result<(usize, bool), TextFault> {
    let fed = decoder.feed(bytes)?;
    Ok((fed.taken, fed.ended))
}

fn finished(decoder: &mut Decoder) -> Result<bool, TextFault> {
    decoder.finish()
}

// The bytes that it takes of these, and whether a line ends there.
fn is_fed(
    rt: &impl Abort,
    decoder: &mut Decoder,
    bytes: &[u8],
    wanted: Result<(usize, bool), TextFault>,
) {
    equal(rt, &fed(decoder, bytes), &wanted, &bytes.len());
}

fn is_finished(rt: &impl Abort, decoder: &mut Decoder, wanted: Result<bool, TextFault>) {
    equal(rt, &finished(decoder), &wanted, &wanted);
}

// The decoder's counts, and whether it shows a line.
fn stands_at(rt: &impl Abort, decoder: &Decoder, counts: (u64, u64, u64, u64), has_line: bool) {
    equal(rt, &decoder.counts(), &counts, &has_line);
    equal(rt, &decoder.line().is_some(), &has_line, &counts);
}

// The worked trace in these two pieces.
fn is_shown(rt: &(impl Abort + AllocGlobal), first: &[u8], second: &[u8]) -> Result<(), Fail> {
    let mut decoder = Decoder::new(rt.alloc());
    let mut text = String::new(rt.alloc());
    feed_whole(rt.alloc(), &mut decoder, first, &mut text)?;
    feed_whole(rt.alloc(), &mut decoder, second, &mut text)?;
    is_finished(rt, &mut decoder, Ok(false));
    equal(rt, &text.as_str(), &SHOWN, &first.len());
    stands_at(rt, &decoder, (5, 3, 1, 1), false);
    Ok(())
}

#[test]
fn a_cut_shows_the_same_lines_wherever_it_is(rt: HostRuntime) -> Result<(), Fail> {
    let trace = TRACE.as_bytes();
    for cut in 0..=trace.len() {
        is_shown(&rt, &trace[..cut], &trace[cut..])?;
    }
    Ok(())
}

// A part of this many bytes.
fn part(alloc: Global, first: &str, bytes: usize) -> Result<String, AllocError> {
    let mut part = String::from_str(alloc, first)?;
    for _ in 1..bytes {
        part.push_str(" 05")?;
    }
    Ok(part)
}

// A line of parts of so many bytes.
fn line_of(
    alloc: Global,
    writes: usize,
    middle: &str,
    reads: usize,
    end: &str,
) -> Result<String, Fail> {
    let write = part(alloc, "B0", writes)?;
    let read = if reads == 0 {
        String::new(alloc)
    } else {
        part(alloc, "B1", reads)?
    };
    Ok(joined(alloc, &[write.as_str(), middle, read.as_str(), end])?)
}

fn begins_with(rt: &(impl Abort + AllocGlobal), line: &str, wanted: &str) {
    let (_, written) = decoded(rt.alloc(), line);
    is_true(rt, written.starts_with(wanted.as_bytes()), &wanted);
}

// How many bytes the write part has and what follows it, the read part's bytes and what follows, and
// how the lines begin.
static LONG_LINES: [(usize, &str, usize, &str, &str); 9] = [
    (300, "", 0, "", "1 58 write F3 Long 9\n"),
    (301, "", 0, "", "1 X1 Syntax\n"),
    (301, "Z", 0, "", "1 X2 BadHex\n"),
    (300, "/", 300, "", "1 58 write F7 WrongDirection 1\n"),
    (301, "/", 0, "", "1 X1 Syntax\n"),
    (301, "/ /", 0, "", "1 X1 Syntax\n"),
    (1, "20 /", 300, "", "1 58 read F3 Long 3\n"),
    (1, "20 /", 301, "", "1 X1 Syntax\n"),
    (1, "20 /", 301, "Z", "1 X2 BadHex\n"),
];

#[test]
fn a_part_has_at_most_300_bytes(rt: HostRuntime) -> Result<(), Fail> {
    for &(writes, middle, reads, end, wanted) in &LONG_LINES {
        let line = line_of(rt.alloc(), writes, middle, reads, end)?;
        begins_with(&rt, &line, wanted);
    }
    Ok(())
}

#[test]
fn a_decoder_that_failed_refuses_from_then_on(rt: HostRuntime) -> Result<(), Fail> {
    let mut decoder = Decoder::new(rt.alloc());
    let spaces = vec![in rt.alloc(); b' '; 1_048_576]?;
    is_fed(&rt, &mut decoder, b"b0 10 80 34\n", Ok((12, true)));
    is_fed(&rt, &mut decoder, &spaces, Ok((1_048_564, false)));
    is_fed(&rt, &mut decoder, b"", Ok((0, false)));
    is_fed(&rt, &mut decoder, b"\n", Err(TextFault::TooLong));
    is_fed(&rt, &mut decoder, b"", Err(TextFault::TooLong));
    is_finished(&rt, &mut decoder, Err(TextFault::TooLong));
    stands_at(&rt, &decoder, (1, 1, 0, 0), false);
    Ok(())
}

#[test]
fn a_finished_decoder_takes_nothing(rt: HostRuntime) {
    let mut decoder = Decoder::new(rt.alloc());
    is_fed(&rt, &mut decoder, b"b0 10 80 34\r", Ok((12, false)));
    is_finished(&rt, &mut decoder, Ok(true));
    stands_at(&rt, &decoder, (1, 1, 0, 0), true);
    is_fed(&rt, &mut decoder, b"b0 10 80 34\n", Ok((0, false)));
    is_finished(&rt, &mut decoder, Ok(false));
    stands_at(&rt, &decoder, (1, 1, 0, 0), false);
}
