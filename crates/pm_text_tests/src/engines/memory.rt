//! The calls that take memory, which is refused: want of memory or the right answer, and nothing else.
//! Each test holds with ample memory too, and whichever allocation is refused: `rt try --test --fail-alloc N`.

use crate::checks::{equal, is_true};
use crate::engines::reports::REPORTS;
use crate::engines::worked::worked;
use crate::{CODES, CODES_SAID, Engine, Engines, in_pieces};
use pm_text::{
    Decoder, Ran, TextFault, read_scenario, read_trace_line, render_line, render_report,
};
use pm_world::World;
use std::alloc::Global;
use std::process::Abort;

// An engine writes this text, or lacks memory: then nothing of it, or by `decode` a prefix.
fn expect_text(rt: &(impl Abort + AllocGlobal), engine: Engine, input: &str, text: &str) {
    let (end, sheet) = engine.sheet_of(rt.alloc(), in_pieces(input.as_bytes(), 512));
    let written = sheet.text();
    match end {
        Ok(_) => is_true(rt, written == text.as_bytes(), &input),
        Err(fault) => {
            equal(rt, &fault, &TextFault::Memory, &input);
            is_true(rt, text.as_bytes().starts_with(written), &input);
            is_true(rt, written.is_empty() || engine == Engine::Decode, &input);
        }
    }
}

#[test]
fn an_engine_without_memory_writes_nothing_else(rt: HostRuntime) {
    for (engine, input, text, _) in worked() {
        expect_text(&rt, engine, input, text);
    }
    for &(scenario, report) in &REPORTS {
        expect_text(&rt, Engine::Replay, scenario, report);
    }
    expect_text(&rt, Engine::Decode, CODES, CODES_SAID);
    expect_text(
        &rt,
        Engine::Hear,
        "B0 00 01 ED\nB0 20 /\nrestart\nB0 05\nB0 10 20 5D\nB0 05 04 01 21 CD 34 4C\n/\n",
        "taken\nanswer B1 14 ED\nrestarted\nrefused K1 Frame F2 Short 2\ntaken\ntaken\nsilent\noutput 0 VOUT_COMMAND 1000\noutput 1 VOUT_COMMAND 34CD\n",
    );
}

// A decoder is fed the first lines of a trace, this many, each with another code. The last one has no line feed, and
// ends at the end. Once memory was refused it refuses from then on.
fn is_counted(rt: &(impl Abort + AllocGlobal), lines: usize) {
    let mut decoder = Decoder::new(rt.alloc());
    let mut rest = first_lines(CODES.as_bytes(), lines);
    let mut accepted = 0u64;
    let mut is_refused = false;
    for _ in 0..lines {
        match decoder.feed(rest) {
            Ok(fed) => {
                rest = &rest[fed.taken..];
                is_true(rt, decoder.line().is_some() == fed.ended, &1);
                accepted = accepted.saturating_add(u64::from(fed.ended));
            }
            Err(fault) => {
                equal(rt, &fault, &TextFault::Memory, &2);
                is_refused = true;
                break;
            }
        }
    }
    let end = if is_refused {
        Ok(true)
    } else {
        decoder.finish()
    };
    match end {
        Ok(true) if !is_refused => equal(
            rt,
            &decoder.counts(),
            &(lines as u64, lines as u64, 0, 0),
            &3,
        ),
        _ => is_failed(rt, &mut decoder, accepted),
    }
}

// A decoder that lacked memory shows no line, counts nothing more and refuses all.
fn is_failed(rt: &impl Abort, decoder: &mut Decoder, accepted: u64) {
    is_true(rt, decoder.line().is_none(), &4);
    equal(rt, &decoder.feed(b"x").err(), &Some(TextFault::Memory), &5);
    equal(rt, &decoder.feed(b"").err(), &Some(TextFault::Memory), &6);
    equal(rt, &decoder.finish(), &Err(TextFault::Memory), &7);
    equal(rt, &decoder.counts(), &(accepted, accepted, 0, 0), &8);
}

// This many lines, without the last one's line feed.
fn first_lines(text: &[u8], lines: usize) -> &[u8] {
    let mut left = lines;
    for (at, byte) in text.iter().enumerate() {
        if *byte == b'\n' {
            left = left.saturating_sub(1);
            if left == 0 {
                return &text[..at];
            }
        }
    }
    text
}

// The counts grow at the first code, at the tenth and at the nineteenth: each of these as the trace ends too.
#[test]
fn a_decoder_without_memory_refuses_from_then_on(rt: HostRuntime) {
    for lines in [1, 10, 19, 23] {
        is_counted(&rt, lines);
    }
}

// A line of a trace as text, with the greatest number.
fn line_said(alloc: Global, line: &str) -> Result<String, TextFault> {
    let parts = read_trace_line(alloc, line.as_bytes())?;
    render_line(alloc, u64::MAX, &parts)
}

// The report of a scenario, by the parts of a replay.
fn report_of(alloc: Global, text: &str) -> Result<String, TextFault> {
    let scenario = read_scenario(alloc, text.as_bytes())?;
    let events = scenario.events.as_slice();
    let (world, stop) = World::run(scenario.config, scenario.passes, events)?;
    let taken = events.len() as u64;
    render_report(
        alloc,
        &Ran {
            version: scenario.version,
            world,
            taken,
            stop,
        },
    )
}

// A text is this one, or memory was lacking.
fn expect(rt: &impl Abort, found: Result<String, TextFault>, wanted: &str) {
    match found {
        Ok(text) => is_true(rt, text.as_str() == wanted, &wanted),
        Err(fault) => equal(rt, &fault, &TextFault::Memory, &wanted),
    }
}

#[rattlefmt::skip]
static LINES: [(&str, &str); 3] = [
    ("B0 06 02 00 21 / B1 02 CD 34 B9", "18446744073709551615 58 page 0 VOUT_COMMAND read 34CD"),
    ("B0 05 04 01 21 CD 34 5A", "18446744073709551615 58 write F5 WrongPec 7"),
    ("B0 30 02 21 00 / B1 05 01 00 00 00 03 6B",
        "18446744073709551615 58 COEFFICIENTS of 21 side 0 read m 1 b 0 r 3"),
];

#[test]
fn lines_and_reports_are_whole_or_want_memory(rt: HostRuntime) {
    for &(line, wanted) in &LINES {
        expect(&rt, line_said(rt.alloc(), line), wanted);
    }
    for &(scenario, report) in &REPORTS {
        expect(&rt, report_of(rt.alloc(), scenario), report);
    }
}
