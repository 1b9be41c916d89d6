//! Each call that can answer want of memory, with ample memory at the far end of each of its dimensions:
//! the codes that are counted, lines, events, outputs, the bytes of a line or of a part, digits, words.

use crate::checks::equal;
use crate::engines::long_text::{Written, expect_lines, is_written};
use crate::{
    CODES, CODES_SAID, Engine, Engines, FRAME, Long, REPORT, SCENARIO, TAKEN, in_pieces, text_of,
};
use pm_text::{TextFault, TraceLine, read_scenario, read_trace_line, render_line};
use std::alloc::Global;
use std::process::Abort;
use std::test::Fail;

/// A scenario's lines up to the events, with one output and with eight.
const ONE: &str =
    "scenario 1\naddress 58\npasses 2\nprotect 00\ncoefficients 1 0 0\noutput 14 80 1000 4000 1100 0F00\nbegin\n";

/// A scenario of that size with an event.
const ONE_EVENT: &str =
    "scenario 1\naddress 58\npasses 2\nprotect 00\ncoefficients 1 0 0\noutput 14 80 1000 4000 1100 0F00\nbegin\nclear 0\n";

const EIGHT: &str =
    "scenario 1\naddress 58\npasses 2\nprotect 00\ncoefficients 1 0 0\noutput 14 80 1000 4000 1100 0F00\noutput 14 80 1000 4000 1100 0F00\noutput 14 80 1000 4000 1100 0F00\noutput 14 80 1000 4000 1100 0F00\noutput 14 80 1000 4000 1100 0F00\noutput 14 80 1000 4000 1100 0F00\noutput 14 80 1000 4000 1100 0F00\noutput 14 80 1000 4000 1100 0F00\nbegin\n";

/// The end of a report of eight outputs.
const OUTPUT_7: &str =
    "output 7 on commanded 4096/4096 1000000 uV\nOPERATION 80 host unknown\nVOUT_COMMAND 1000 host unknown\nVOUT_MAX 4000 host unknown\nVOUT_MARGIN_HIGH 1100 host unknown\nVOUT_MARGIN_LOW 0F00 host unknown\nstatus 00 0000 00\ncml 00\nrestart seen no\njob done\n";

/// Long traces, and their lines.
#[rattlefmt::skip]
static LONG_TRACES: [(Long, Written); 4] = [
    ((["", ""], "/\n", 524_288, ""), (524_289, "1 -- write F1 NotOurs\n",
            "\n524288 -- write F1 NotOurs\nlines 524288 accepted 0 faults 524288 bad 0\n")),
    ((["", ""], "B0 03 46\n", 40_000, ""), (40_002,
            "1 58 CLEAR_FAULTS send\n2 58 CLEAR_FAULTS send\n",
            "\n40000 58 CLEAR_FAULTS send\ncount CLEAR_FAULTS 40000\nlines 40000 accepted 40000 faults 0 bad 0\n")),
    ((["", ""], "B0\n", 349_525, "/"), (349_527, "1 58 write F2 Short 1\n",
            "\n349526 -- write F1 NotOurs\nlines 349526 accepted 0 faults 349526 bad 0\n")),
    ((["", ""], "\n", 1_048_575, "0"),
        (2, "1048576 X2 BadHex\n", "lines 1 accepted 0 faults 0 bad 1\n")),
];

#[test]
fn long_traces_are_decoded(rt: HostRuntime) -> Result<(), Fail> {
    let said = (47, CODES_SAID, CODES_SAID);
    is_written(&rt, Engine::Decode, CODES.as_bytes(), said);
    Ok(expect_lines(&rt, Engine::Decode, &LONG_TRACES)?)
}

// How many events a scenario has, and why a text is none.
fn count_events(alloc: Global, text: &[u8]) -> Result<usize, TextFault> {
    Ok(read_scenario(alloc, text)?.events.as_slice().len())
}

fn fault_of(alloc: Global, text: &[u8]) -> Option<TextFault> {
    read_scenario(alloc, text).err()
}

/// Long scenarios, and their reports.
#[rattlefmt::skip]
static LONG_SCENARIOS: [(Long, Written); 5] = [
    ((["", ""], "\n", 900_000, ONE_EVENT), (12, "ran 1\n", "\njob pending\n")),
    (([EIGHT, ""], "clear 0\nfinish ack\n", 50_000, ""),
        (61, "ran 100000\nprotect 00 host unknown\noutput 0 on", OUTPUT_7)),
    (([ONE, "order 0 VOUT_COMMAND"], " ", 1_000_000, "34CD"), (12, "ran 1\n", "\njob pending\n")),
    (([ONE, "volts 0 VOUT_COMMAND -"], "0", 1_000_000, "5"),
        (12, "stopped 0 S4 Host H7 FormatUnknown\n", "\njob none\n")),
    (([ONE, "clear 0\ndeliver cut "], "0", 1_000_000, "255"), (12, "ran 2\n", "\njob pending\n")),
];

#[test]
fn long_scenarios_are_replayed(rt: HostRuntime) -> Result<(), Fail> {
    expect_lines(&rt, Engine::Replay, &LONG_SCENARIOS)?;
    let commented = text_of(rt.alloc(), ([SCENARIO, "#"], " ", 1_000_000, ""))?;
    is_written(&rt, Engine::Replay, &commented, (19, REPORT, REPORT));
    let text = text_of(rt.alloc(), ([ONE, ""], "learn 0\n", 100_000, ""))?;
    equal(&rt, &count_events(rt.alloc(), &text)?, &100_000, &1);
    // Memory was taken once: there is room for one event for each line feed, and one.
    let events = read_scenario(rt.alloc(), &text)?.events.into_vec();
    equal(&rt, &events.capacity(), &100_001, &2);
    Ok(())
}

// An engine ends like this and writes this; as a scenario the text is too long if it is for the engine.
fn is_taken(
    rt: &(impl Abort + AllocGlobal),
    engine: Engine,
    input: &[u8],
    wanted: Result<bool, TextFault>,
    text: &str,
) {
    let (end, written) = engine.text_of(rt.alloc(), in_pieces(input, 4096));
    equal(rt, &end, &wanted, &engine);
    equal(rt, &written.as_slice(), &text.as_bytes(), &engine);
    let is_too_long = fault_of(rt.alloc(), input) == Some(TextFault::TooLong);
    equal(rt, &is_too_long, &wanted.is_err(), &engine);
}

// What stands before spaces, what is written of it, and of that if there is a byte too many.
fn is_taken_to_the_end(
    rt: &(impl Abort + AllocGlobal),
    engine: Engine,
    head: &str,
    text: &str,
    front: &str,
) -> Result<(), Fail> {
    let mut input = Vec::from_slice(rt.alloc(), head.as_bytes())?;
    input.resize(1_048_576, b' ')?;
    is_taken(rt, engine, &input, Ok(true), text);
    input.push(b' ')?;
    is_taken(rt, engine, &input, Err(TextFault::TooLong), front);
    input.truncate(1_048_576);
    input.push(b'\n')?;
    is_taken(rt, engine, &input, Err(TextFault::TooLong), front);
    Ok(())
}

#[test]
fn a_text_has_at_most_1048576_bytes(rt: HostRuntime) -> Result<(), Fail> {
    is_taken_to_the_end(&rt, Engine::Replay, SCENARIO, REPORT, "")?;
    is_taken_to_the_end(
        &rt,
        Engine::Decode,
        "B0 03 46\nB0 03 46",
        "1 58 CLEAR_FAULTS send\n2 58 CLEAR_FAULTS send\ncount CLEAR_FAULTS 2\nlines 2 accepted 2 faults 0 bad 0\n",
        "1 58 CLEAR_FAULTS send\n",
    )?;
    is_taken_to_the_end(&rt, Engine::Hear, FRAME, TAKEN, "")
}

// How many bytes the parts of a line have.
fn sizes_of(parts: &TraceLine) -> (usize, Option<usize>) {
    let read = match &parts.read {
        Some(read) => Some(read.as_slice().len()),
        None => None,
    };
    (parts.write.as_slice().len(), read)
}

// Texts, and what the line says with this number.
fn rendered(
    alloc: Global,
    line: &[u8],
    number: u64,
) -> Result<((usize, Option<usize>), String), TextFault> {
    let parts = read_trace_line(alloc, line)?;
    let text = render_line(alloc, number, &parts)?;
    Ok((sizes_of(&parts), text))
}

// A line has parts of this many bytes, and says this with that number.
fn is_rendered(
    rt: &(impl Abort + AllocGlobal),
    line: &[u8],
    sizes: (usize, Option<usize>),
    number: u64,
    wanted: &str,
) -> Result<(), Fail> {
    let (found, text) = rendered(rt.alloc(), line, number)?;
    equal(rt, &found, &sizes, &wanted);
    equal(rt, &text.as_str(), &wanted, &1);
    Ok(())
}

// The line, how many bytes its parts have, its number, and what it says.
#[rattlefmt::skip]
static LONG_PARTS: [(Long, (usize, Option<usize>), u64, &str); 6] = [
    ((["B0 03", ""], " ", 1_000_000, "46"), (3, None), u64::MAX,
        "18446744073709551615 58 CLEAR_FAULTS send"),
    ((["B0 30 02 FF FF / B1 05", ""], " 00 80", 2, " 80 AE"), (5, Some(8)), u64::MAX,
        "18446744073709551615 58 COEFFICIENTS of FF side 255 read m -32768 b -32768 r -128"),
    ((["B0", ""], " 05", 299, ""), (300, None), u64::MAX,
        "18446744073709551615 58 write F3 Long 9"),
    ((["B0 20 /", ""], " B1", 300, ""), (2, Some(300)), 4_294_967_296,
        "4294967296 58 read F3 Long 3"),
    ((["B0", "0"], "0", 597, "/"), (300, Some(0)), 256, "256 58 write F3 Long 2"),
    ((["B0 30 02 FF FF / B1 05", ""], " FF", 5, " 47"), (5, Some(8)), 1_000_000_000_000,
        "1000000000000 58 COEFFICIENTS of FF side 255 read m -1 b -1 r -1"),
];

#[test]
fn long_parts_are_rendered_with_great_numbers(rt: HostRuntime) -> Result<(), Fail> {
    let alloc = rt.alloc();
    for &(long, parts, number, wanted) in &LONG_PARTS {
        is_rendered(&rt, &text_of(alloc, long)?, parts, number, wanted)?;
    }
    // Both parts are as long as they may be.
    let mut line = text_of(alloc, (["B0 20", ""], " 05", 298, " /"))?;
    line.extend_from_slice(&text_of(alloc, (["", ""], " B1", 300, ""))?)?;
    let wanted = "18446744073709551615 58 write F3 Long 2";
    is_rendered(&rt, &line, (300, Some(300)), u64::MAX, wanted)?;
    Ok(())
}
