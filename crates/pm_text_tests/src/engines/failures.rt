//! The engines over readers and writers that fail, take nothing, or never end: the fault, the calls that
//! were made, and what was written until then.

use crate::checks::{equal, is_true, printed};
use crate::engines::worked::worked;
use crate::{
    Engine, Engines, FRAME, Failure, Halves, KINDS, Paper, Pieces, SCENARIO, TRACE, blank_paper,
    in_pieces,
};
use pm_text::TextFault;
use std::alloc::Global;
use std::io::ErrorKind;
use std::process::Abort;
use std::test::Fail;

/// How many bytes are read or written at a time.
static PIECES: [usize; 4] = [1, 7, 512, 4096];

// How many of these bytes are line feeds.
fn feeds_in(bytes: &[u8]) -> usize {
    bytes.iter().filter(|byte| **byte == b'\n').count()
}

// Whether these are this many whole lines, which a text begins with.
fn are_first_lines(written: &[u8], text: &str, count: usize) -> bool {
    let is_whole = match written.last() {
        Some(last) => *last == b'\n',
        None => true,
    };
    is_whole && feeds_in(written) == count && text.as_bytes().starts_with(written)
}

// How many calls an engine makes of its reader and of its writer, with such pieces.
fn calls_made(alloc: Global, engine: Engine, input: &str, piece: usize) -> (usize, usize) {
    let read = in_pieces(input.as_bytes(), piece);
    let ended = engine.over(alloc, read, blank_paper(alloc, piece));
    (ended.read.calls, ended.written.calls)
}

// How many lines a trace has in the bytes that so many calls read; 0 for another engine's text.
fn lines_read(engine: Engine, input: &str, piece: usize, calls: usize) -> usize {
    let read = calls.saturating_mul(piece).min(input.len());
    match engine {
        Engine::Decode => feeds_in(&input.as_bytes()[..read]),
        _ => 0,
    }
}

// A read that fails at this call is the last one. A trace's lines are written as they end, and nothing else
// is.
fn ends_at_read(
    rt: &(impl Abort + AllocGlobal),
    worked: (Engine, &str, &str),
    piece: usize,
    fails_at: usize,
    kind: ErrorKind,
) {
    let (engine, input, text) = worked;
    let read = with! { Pieces, in_pieces(input.as_bytes(), piece); fails_at, kind };
    let ended = engine.over(rt.alloc(), read, blank_paper(rt.alloc(), piece));
    compare! { rt, (engine, fails_at, piece); ended.end => Err(TextFault::Read) }
    is_true(rt, ended.read_failed && !ended.write_failed, &1);
    equal(rt, &ended.read.calls, &fails_at, &(engine, piece));
    let lines = lines_read(engine, input, piece, fails_at.saturating_sub(1));
    is_true(
        rt,
        are_first_lines(ended.written.taken.as_slice(), text, lines),
        &(engine, fails_at, piece),
    );
    is_true(
        rt,
        lines > 0 || ended.written.calls == 0,
        &(engine, fails_at),
    );
    equal(rt, &ended.written.flushes, &0, &2);
}

#[test]
fn a_failed_read_ends_an_engine_at_once(rt: HostRuntime) {
    for (engine, input, text, _) in worked() {
        for &piece in &PIECES {
            let (calls, _) = calls_made(rt.alloc(), engine, input, piece);
            for fails_at in 1..=calls {
                for &kind in &KINDS {
                    ends_at_read(&rt, (engine, input, text), piece, fails_at, kind);
                }
            }
        }
    }
}

// A write that fails at this call is the last one, and a front of the text was written.
fn ends_at_write(
    rt: &(impl Abort + AllocGlobal),
    worked: (Engine, &str, &str),
    piece: usize,
    fails_at: usize,
    failure: Failure,
) {
    let (engine, input, text) = worked;
    let written = with! { Paper, blank_paper(rt.alloc(), piece); fails_at, failure };
    let ended = engine.over(rt.alloc(), in_pieces(input.as_bytes(), piece), written);
    compare! { rt, (engine, fails_at, piece); ended.end => Err(TextFault::Write) }
    is_true(rt, ended.write_failed && !ended.read_failed, &1);
    let written = ended.written;
    equal(rt, &written.calls, &fails_at, &(engine, piece, failure));
    equal(rt, &written.flushes, &0, &2);
    let taken = written.taken.as_slice();
    is_true(
        rt,
        text.as_bytes().starts_with(taken) && taken.len() < text.len(),
        &(engine, fails_at, piece),
    );
    is_true(
        rt,
        piece > 1 || taken.len() == fails_at.saturating_sub(1),
        &engine,
    );
}

// Each way in which a write fails at this call; if each byte is written by itself, one kind of error at each place.
fn ends_at_each_write(
    rt: &(impl Abort + AllocGlobal),
    worked: (Engine, &str, &str),
    piece: usize,
    fails_at: usize,
) {
    ends_at_write(rt, worked, piece, fails_at, Failure::Nothing);
    for (at, &kind) in KINDS.iter().enumerate() {
        if piece > 1 || at == fails_at % KINDS.len() {
            ends_at_write(rt, worked, piece, fails_at, Failure::Error(kind));
        }
    }
}

#[test]
fn a_failed_write_ends_an_engine_at_once(rt: HostRuntime) {
    for (engine, input, text, _) in worked() {
        for &piece in &PIECES {
            let (_, calls) = calls_made(rt.alloc(), engine, input, piece);
            for fails_at in 1..=calls {
                ends_at_each_write(&rt, (engine, input, text), piece, fails_at);
            }
        }
    }
}

// An engine ends so, and has written this text.
fn is_written(
    rt: &impl Abort,
    engine: Engine,
    found: (Result<bool, TextFault>, Vec<u8>),
    wanted: (bool, &str),
) {
    let (is_well, text) = wanted;
    let (end, written) = found;
    equal(rt, &end, &Ok(is_well), &engine);
    equal(rt, &written.as_slice(), &text.as_bytes(), &engine);
}

// Whether it is read by so many bytes at a time, or in two halves that part at this place.
fn is_whole_by(
    rt: &(impl Abort + AllocGlobal),
    engine: Engine,
    input: &str,
    wanted: (bool, &str),
    piece: usize,
) {
    let found = engine.text_of(rt.alloc(), in_pieces(input.as_bytes(), piece));
    is_written(rt, engine, found, wanted);
}

fn is_whole_cut(
    rt: &(impl Abort + AllocGlobal),
    engine: Engine,
    halves: Halves<'_>,
    wanted: (bool, &str),
) {
    let found = engine.text_of(rt.alloc(), halves);
    is_written(rt, engine, found, wanted);
}

#[test]
fn a_text_may_be_cut_anywhere(rt: HostRuntime) {
    for (engine, input, text, is_well) in worked() {
        for &piece in &PIECES {
            is_whole_by(&rt, engine, input, (is_well, text), piece);
        }
        for cut in 0..=input.len() {
            let halves = Halves {
                first: &input.as_bytes()[..cut],
                second: &input.as_bytes()[cut..],
            };
            is_whole_cut(&rt, engine, halves, (is_well, text));
        }
    }
}

// As many lines of a CLEAR_FAULTS, numbered from 1.
fn are_clears(rt: &(impl Abort + AllocGlobal), written: &[u8], count: usize) -> Result<(), Fail> {
    equal(rt, &feeds_in(written), &count, &1);
    let lines = written.split(|byte| *byte == b'\n').take(count);
    for (at, line) in lines.enumerate() {
        let wanted = printed(rt.alloc(), &at.saturating_add(1), " 58 CLEAR_FAULTS send")?;
        equal(rt, &line, &wanted.as_bytes(), &2);
    }
    Ok(())
}

// An engine refuses what is given over and over, when it has written so many lines.
fn is_endless(
    rt: &(impl Abort + AllocGlobal),
    engine: Engine,
    bytes: &[u8],
    lines: usize,
) -> Result<(), Fail> {
    let (end, calls, written) = engine.over_endless(rt.alloc(), bytes);
    equal(rt, &end, &Err(TextFault::TooLong), &engine);
    equal(rt, &calls, &1_048_577, &engine);
    is_true(rt, lines > 0 || written.calls == 0, &engine);
    are_clears(rt, written.taken.as_slice(), lines)
}

// `decode` writes this by so many calls, of what stands before 600 spaces.
fn is_decoded_by(
    rt: &(impl Abort + AllocGlobal),
    head: &[u8],
    wanted: &str,
    writes: usize,
) -> Result<(), Fail> {
    let mut text = Vec::from_slice(rt.alloc(), head)?;
    text.resize(600, b' ')?;
    let read = in_pieces(&text, 4096);
    let ended = Engine::Decode.over(rt.alloc(), read, blank_paper(rt.alloc(), 4096));
    equal(rt, &ended.end, &Ok(true), &1);
    let read = ended.read;
    equal(rt, &(read.most_asked, read.calls), &(512, 3), &wanted);
    let written = ended.written;
    equal(rt, &(written.calls, written.flushes), &(writes, 0), &wanted);
    equal(rt, &written.taken.as_slice(), &wanted.as_bytes(), &2);
    Ok(())
}

#[test]
fn a_text_without_an_end_is_refused_and_a_trace_is_read_by_512_bytes(
    rt: HostRuntime,
) -> Result<(), Fail> {
    for engine in [Engine::Replay, Engine::Decode, Engine::Hear] {
        is_endless(&rt, engine, b"#", 0)?;
    }
    is_endless(&rt, Engine::Replay, b"B0 03 46\n", 0)?;
    is_endless(&rt, Engine::Decode, b"B0 03 46\n", 116_508)?;
    is_endless(&rt, Engine::Hear, b"B0 03 46\n", 0)?;
    // A trace is read by 512 bytes and written where a line ends.
    let none = "lines 0 accepted 0 faults 0 bad 0\n";
    let one = "1 58 CLEAR_FAULTS send\ncount CLEAR_FAULTS 1\nlines 1 accepted 1 faults 0 bad 0\n";
    is_decoded_by(&rt, b"# none\n", none, 1)?;
    is_decoded_by(&rt, b"B0 03 46", one, 1)?;
    is_decoded_by(&rt, b"B0 03 46\n", one, 2)?;
    Ok(())
}
