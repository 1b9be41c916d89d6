//! Scenarios of both versions: VOUT_MIN stands in the second one, and the first is read and reported as it was.

use crate::checks::{equal, is_true, joined, shown};
use crate::scenarios::{is_refused, scenario_of};
use crate::{Engine, Engines, REPORT, SCENARIO, in_pieces};
use pm_text::TextFault;
use pm_text::TextFault::{BadHex, Syntax};
use std::alloc::Global;
use std::process::Abort;
use std::test::Fail;

// The lines before the events, of version 2.
#[rattlefmt::skip]
static HEAD: [&str; 8] = [
    "scenario 2", "address 58", "passes 2", "protect 00", "coefficients -1 5 3",
    "output 14 80 1000 4000 1100 0F00 0800", "output 40 80 0BB8 03E8 0BB8 0BB8 07D0", "begin",
];

// A text with another line at a place, counted from 0, and with these events.
fn text_with(alloc: Global, place: usize, line: &str, events: &str) -> Result<String, Fail> {
    let mut text = String::new(alloc);
    for (i, usual) in HEAD.iter().enumerate() {
        text.push_str(if i == place { line } else { *usual })?;
        text.push('\n')?;
    }
    text.push_str(events)?;
    Ok(text)
}

// What a replay of a text writes, and whether it ran to its end.
fn replayed(alloc: Global, text: &str) -> (Result<bool, TextFault>, Vec<u8>) {
    Engine::Replay.text_of(alloc, in_pieces(text.as_bytes(), 4096))
}

// The report of the second version, with a line for VOUT_MIN. Output 0 is cut to its floor of 0.5 V. Output
// 1 is DIRECT, its words fall as volts rise: it asks for 2 V, and is cut to its floor of 3 V.
static SECOND: &str = "ran 4\nprotect 00 host unknown possible any\n\
    output 0 on commanded 2048/4096 500000 uV\nOPERATION 80 host unknown possible any\n\
    VOUT_COMMAND 0400 host confirmed 0400\nVOUT_MAX 4000 host unknown possible any\n\
    VOUT_MARGIN_HIGH 1100 host unknown possible any\n\
    VOUT_MARGIN_LOW 0F00 host unknown possible any\nVOUT_MIN 0800 host unknown possible any\n\
    status 01 8001 08\noutput 1 on commanded 3000/1000 3000000 uV\n\
    OPERATION 80 host unknown possible any\nVOUT_COMMAND 0BB8 host unknown possible any\n\
    VOUT_MAX 03E8 host unknown possible any\nVOUT_MARGIN_HIGH 0BB8 host unknown possible any\n\
    VOUT_MARGIN_LOW 0BB8 host unknown possible any\nVOUT_MIN 07D0 host unknown possible any\n\
    status 01 8001 08\ncml 00\nrestart seen no\njob done\n";

// Both answers of an order are lost; then a report of version 2 shows the two words that the cell may have.
static LOST: &str = "check 0 VOUT_COMMAND\nexchange whole whole\norder 0 VOUT_COMMAND 34CD\n\
    deliver whole\nfinish nack\nexchange whole cut 0\ndeliver cut 0\nfinish nack\n\
    exchange whole cut 0\n";

static LOST_TOLD: [&str; 4] = [
    "ran 9\nprotect 00 host unknown possible any\n",
    "VOUT_COMMAND 34CD host unknown possible 1000 34CD\n",
    "VOUT_COMMAND 1000 host unknown possible any\n",
    "job unknown\n",
];

// A text is replayed to its end, and its report has each of these pieces.
fn is_replayed_with(
    rt: &(impl Abort + AllocGlobal),
    text: &str,
    pieces: &[&str],
) -> Result<(), Fail> {
    let (end, written) = replayed(rt.alloc(), text);
    equal(rt, &end, &Ok(true), &text);
    let told = std::str::from_utf8(&written)?;
    for piece in pieces {
        is_true(rt, told.contains(*piece), piece);
    }
    Ok(())
}

#[test]
fn a_report_of_version_2_tells_vout_min_and_the_possible_words(
    rt: HostRuntime,
) -> Result<(), Fail> {
    let events = "order 0 VOUT_COMMAND 0400\ndeliver whole\nfinish ack\nexchange whole whole\n";
    let text = text_with(rt.alloc(), 8, "", events)?;
    let (end, written) = replayed(rt.alloc(), &text);
    equal(&rt, &end, &Ok(true), &1);
    equal(&rt, &written.as_slice(), &SECOND.as_bytes(), &2);
    // A report of version 2 tells the possible words.
    let second = "output 14 80 1000 4000 1100 0F00 0000";
    let text = text_with(rt.alloc(), 6, second, LOST)?;
    is_replayed_with(&rt, &text, &LOST_TOLD)?;
    // A byte that OPERATION and WRITE_PROTECT may have is shown with its two digits.
    let events = "check - WRITE_PROTECT\nexchange whole whole\norder - WRITE_PROTECT 40\n";
    let text = text_with(rt.alloc(), 8, "", events)?;
    let (_, written) = replayed(rt.alloc(), &text);
    let line = "protect 00 host unknown possible 00 40\n";
    is_true(&rt, std::str::from_utf8(&written)?.contains(line), &1);
    // A report of version 1 tells no possible words.
    let text = joined(rt.alloc(), &[SCENARIO, LOST])?;
    let (end, written) = replayed(rt.alloc(), &text);
    equal(&rt, &end, &Ok(true), &1);
    let told = std::str::from_utf8(&written)?;
    is_true(&rt, !told.contains("possible"), &2);
    Ok(())
}

// An event of VOUT_MIN in version 2, and lines of the report.
#[rattlefmt::skip]
static ORDERED: [(&str, &str, &str, &str); 4] = [
    ("order 0 VOUT_MIN 2000", "output 0 on commanded 8192/4096 2000000 uV\n",
        "VOUT_MIN 2000 host confirmed 2000\nstatus 01 8001 08\noutput 1", "job done\n"),
    ("order 0 VOUT_MIN 5000", "output 0 on commanded 16384/4096 4000000 uV\n",
        "VOUT_MIN 5000 host confirmed 5000\nstatus 01 8001 08\noutput 1", "job done\n"),
    ("order 0 VOUT_MIN 1000", "output 0 on commanded 4096/4096 1000000 uV\n",
        "VOUT_MIN 1000 host confirmed 1000\nstatus 00 0000 00\noutput 1", "job done\n"),
    // 2 V is the word 0BB8.
    ("learn 1\nexchange whole whole\nexchange whole whole\nvolts 1 VOUT_MIN 2000000",
        "output 1 on commanded 2000/1000 2000000 uV\n",
        "VOUT_MIN 0BB8 host confirmed 0BB8\nstatus 01 8001 08\ncml", "job done\n"),
];

// The report after an event of version 2, which is carried out.
fn report_after(rt: &(impl Abort + AllocGlobal), event: &str) -> Result<Vec<u8>, Fail> {
    let events = joined(
        rt.alloc(),
        &[event, "\ndeliver whole\nfinish ack\nexchange whole whole\n"],
    )?;
    let text = text_with(rt.alloc(), 8, "", &events)?;
    let (end, written) = replayed(rt.alloc(), &text);
    equal(rt, &end, &Ok(true), &event);
    Ok(written)
}

// A text has each of these lines.
fn tells(rt: &impl Abort, written: &[u8], lines: &[&str]) -> Result<(), Fail> {
    let told = std::str::from_utf8(written)?;
    for line in lines {
        is_true(rt, told.contains(*line), &line);
    }
    Ok(())
}

#[test]
fn version_2_orders_vout_min(rt: HostRuntime) -> Result<(), Fail> {
    for &(event, first, second, third) in &ORDERED {
        tells(&rt, &report_after(&rt, event)?, &[first, second, third])?;
    }
    Ok(())
}

// Frames that the converter hears from its base configuration, whose VOUT_MIN is 0000h, and the lines before
// the outputs'.
#[rattlefmt::skip]
static HEARD: [(&str, &str); 3] = [
    ("B0 05 04 00 2B 00 20 B5\nB0 7A /\nB0 79 /\nB0 2B /\n",
        "taken\nanswer B1 08 1A\nanswer B1 01 80 48\nanswer B1 00 20 E4\n"),
    ("B0 05 04 00 2B 00 50 E2\nB0 7A /\nB0 79 /\nB0 2B /\n",
        "taken\nanswer B1 08 1A\nanswer B1 01 80 48\nanswer B1 00 50 B3\n"),
    ("B0 05 04 00 2B 00 10 25\nB0 7A /\nB0 79 /\nB0 2B /\n",
        "taken\nanswer B1 00 22\nanswer B1 00 00 D4\nanswer B1 00 10 74\n"),
];

fn is_heard(rt: &(impl Abort + AllocGlobal), text: &str, wanted: &str) {
    let (end, written) = Engine::Hear.text_of(rt.alloc(), in_pieces(text.as_bytes(), 4096));
    equal(rt, &end, &Ok(true), &text);
    equal(rt, &written.as_slice(), &wanted.as_bytes(), &text);
}

#[test]
fn hear_takes_vout_min_and_shows_what_it_cuts(rt: HostRuntime) -> Result<(), Fail> {
    let outputs = "output 0 VOUT_COMMAND 1000\noutput 1 VOUT_COMMAND 1000\n";
    for &(text, answers) in &HEARD {
        let wanted = joined(rt.alloc(), &[answers, outputs])?;
        is_heard(&rt, text, &wanted);
    }
    Ok(())
}

// The place of a line, counted from 0, a line that is faulty there, and the fault.
#[rattlefmt::skip]
static FAULTY: [(usize, &str, TextFault); 10] = [
    (0, "scenario 3", Syntax(1)), (0, "scenario 02", Syntax(1)), (0, "scenario 2 2", Syntax(1)),
    (5, "output 14 80 1000 4000 1100 0F00", Syntax(6)),
    (6, "output 14 80 1000 4000 1100 0F00 0000 0000", Syntax(7)),
    (6, "output 14 80 1000 4000 1100 0F00 00G0", BadHex(7)),
    (6, "output 14 80 1000 4000 1100 0F00 00", BadHex(7)),
    (6, "output 14 80 1000 4000 1100 0F00 begin", BadHex(7)),
    // A line `output` of version 2 is faulty in version 1.
    (0, "scenario 1", Syntax(6)), (0, "scenario", Syntax(1)),
];

/// Events that version 1 doesn't know.
static UNKNOWN_TO_VERSION_1: [&str; 4] = [
    "order 0 VOUT_MIN 0800",
    "order 0 VOUT_MIN ZZ",
    "volts 0 VOUT_MIN 5",
    "check 0 VOUT_MIN",
];

#[test]
fn lines_of_version_2_are_faulty_in_it_or_in_version_1(rt: HostRuntime) -> Result<(), Fail> {
    for &(place, line, fault) in &FAULTY {
        let text = text_with(rt.alloc(), place, line, "")?;
        is_refused(&rt, &text, fault);
    }
    // No event of version 1 names VOUT_MIN.
    for &event in &UNKNOWN_TO_VERSION_1 {
        let text = joined(rt.alloc(), &[SCENARIO, event, "\n"])?;
        is_refused(&rt, &text, Syntax(13));
    }
    Ok(())
}

// VOUT_MODE and m of a text of version 1, and VOUT_MIN then.
#[rattlefmt::skip]
static LEAST: [(&str, &str, u16); 8] = [
    ("14", "1", 0x0000), ("14", "-1", 0x0000), ("00", "-1", 0x0000), ("40", "1", 0x8000),
    ("40", "0", 0x8000), ("40", "-1", 0x7FFF), ("41", "-1", 0x0000), ("80", "-1", 0x0000),
];

// The version of a scenario, and VOUT_MIN of its first and its second output.
fn least(alloc: Global, text: &str) -> Result<(u8, u16, u16), TextFault> {
    let scenario = scenario_of(alloc, text)?;
    let [first, second, ..] = scenario.config.starts;
    Ok((scenario.version, first.min, second.min))
}

fn has_least(
    rt: &(impl Abort + AllocGlobal),
    mode: &str,
    m: &str,
    wanted: u16,
) -> Result<(), Fail> {
    let head = "scenario 1\naddress 58\npasses 2\nprotect 00\ncoefficients ";
    let text = joined(
        rt.alloc(),
        &[
            head,
            m,
            " 5 3\noutput ",
            mode,
            " 80 1000 4000 1100 0F00\nbegin\n",
        ],
    )?;
    let (version, found, _) = least(rt.alloc(), &text)?;
    equal(rt, &(version, found), &(1, wanted), &(mode, m));
    Ok(())
}

#[test]
fn each_version_has_its_vout_min(rt: HostRuntime) -> Result<(), Fail> {
    // Version 1 has the least VOUT_MIN.
    for &(mode, m, wanted) in &LEAST {
        has_least(&rt, mode, m, wanted)?;
    }
    // Version 2 has VOUT_MIN of each output.
    let alloc = rt.alloc();
    let text = text_with(alloc, 8, "", "check 1 VOUT_MIN\n")?;
    equal(&rt, &least(alloc, &text)?, &(2, 0x0800, 0x07D0), &1);
    let scenario = scenario_of(alloc, &text)?;
    let events = shown(alloc, &scenario.events.as_slice())?;
    equal(&rt, &events.as_str(), &"[Check(Out(1, VoutMin))]", &2);
    Ok(())
}

#[test]
fn bytes_of_vout_min_are_judged_by_the_table_in_version_1(rt: HostRuntime) -> Result<(), Fail> {
    // The count says that one byte follows the code, and VOUT_MIN has two: a faulty frame of a known code.
    let text = joined(
        rt.alloc(),
        &[
            SCENARIO,
            "order 0 VOUT_COMMAND 34CD\ndeliver bytes B00503002BCD00 stop\n",
        ],
    )?;
    let (end, written) = replayed(rt.alloc(), &text);
    equal(&rt, &end, &Ok(true), &1);
    let told = std::str::from_utf8(&written)?;
    is_true(&rt, told.contains("cml 02\n"), &2);
    is_true(&rt, !told.contains("VOUT_MIN"), &3);
    let (_, written) = replayed(rt.alloc(), SCENARIO);
    equal(&rt, &written.as_slice(), &REPORT.as_bytes(), &4);
    Ok(())
}
