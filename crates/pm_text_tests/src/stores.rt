//! The user store in texts: what is stored comes back by a restart and by a restore, only in version 2.

use crate::checks::{equal, is_true, joined, shown};
use crate::scenarios::{is_refused, scenario_of};
use crate::{Engine, Engines, SCENARIO, in_pieces};
use pm_text::TextFault;
use pm_text::TextFault::Syntax;
use std::alloc::Global;
use std::process::Abort;
use std::test::Fail;

// A scenario of version 2 that starts with such a WRITE_PROTECT, orders a word of output 0, and goes on so.
fn text_with(alloc: Global, protect: &str, events: &str) -> Result<String, Fail> {
    let output = "output 14 80 1000 4000 1100 0F00 0000";
    let ordered =
        "\nbegin\norder 0 VOUT_COMMAND 34CD\ndeliver whole\nfinish ack\nexchange whole whole\n";
    let head = "scenario 2\naddress 58\npasses 2\nprotect ";
    Ok(joined(
        alloc,
        &[
            head,
            protect,
            "\ncoefficients 1 0 0\n",
            output,
            "\n",
            output,
            ordered,
            events,
        ],
    )?)
}

// The lines of output 0 that tell what it commands, and VOUT_COMMAND: 3.3 V, and 1 V.
const STORED: &str =
    "output 0 on commanded 13517/4096 3300048 uV\nOPERATION 80 host unknown possible any\nVOUT_COMMAND 34CD host ";

const START: &str =
    "output 0 on commanded 4096/4096 1000000 uV\nOPERATION 80 host unknown possible any\nVOUT_COMMAND 1000 host ";

// Events after the order; the beginning of the report, what VOUT_COMMAND is and what the host says of it, and the
// last lines.
type Row = (&'static str, &'static str, [&'static str; 2], &'static str);

#[rattlefmt::skip]
static ROWS: [Row; 9] = [
    ("store\ndeliver whole\nfinish ack\nrestart device\n", "ran 8\n", [STORED, "confirmed 34CD\n"],
        "cml 00\nrestart seen no\njob done\n"),
    ("store\nfinish ack\nrestart device\n", "ran 7\n", [START, "confirmed 34CD\n"],
        "cml 00\nrestart seen no\njob done\n"),
    ("restore\ndeliver whole\nfinish ack\n", "ran 7\n", [START, "unknown possible any\n"],
        "cml 00\nrestart seen no\njob done\n"),
    // Heard twice, with a restart between.
    ("store\ndeliver whole\nfinish nack\nrestart device\ndeliver whole\nfinish ack\nrestart device\n",
        "ran 11\n", [STORED, "confirmed 34CD\n"], "cml 00\nrestart seen no\njob done\n"),
    // Cut short at each place.
    ("store\ndeliver cut 0\ndeliver cut 1\ndeliver cut 2\nfinish nack\nrestart device\n",
        "ran 10\n", [START, "confirmed 34CD\n"], "cml 00\nrestart seen no\njob pending\n"),
    // Stored, changed and restored: the host doesn't know, until it reads the cell.
    ("store\ndeliver whole\nfinish ack\norder 0 VOUT_COMMAND 1000\ndeliver whole\nfinish ack\nexchange whole whole\nrestore\ndeliver whole\nfinish ack\n",
        "ran 14\n", [STORED, "unknown possible any\n"], "cml 00\nrestart seen no\njob done\n"),
    ("store\ndeliver whole\nfinish ack\nrestore\ndeliver whole\nfinish ack\ncheck 0 VOUT_COMMAND\nexchange whole whole\n",
        "ran 12\n", [STORED, "confirmed 34CD\n"], "cml 00\nrestart seen no\njob done\n"),
    // A restore that never arrives: the host can't know.
    ("restore\nfinish nack\nfinish nack\n", "ran 7\n", [STORED, "unknown possible any\n"],
        "cml 00\nrestart seen no\njob unknown\n"),
    // A job is open.
    ("store\nrestore\n", "stopped 5 S4 Host H3 Busy\n", [STORED, "confirmed 34CD\n"],
        "cml 00\nrestart seen no\njob pending\n"),
];

// Whether a report begins and ends so, with these lines of output 0 in it.
fn is_told(told: &str, first: &str, [held, said]: [&str; 2], last: &str) -> bool {
    let Some((front, rest)) = told.split_once(held) else {
        return false;
    };
    front.starts_with(first) && rest.starts_with(said) && rest.ends_with(last)
}

// WRITE_PROTECT at the start, events after the order, what WRITE_PROTECT then is and what the host says of it.
#[rattlefmt::skip]
static PROTECTED: [(&str, &str, &str); 4] = [
    // WRITE_PROTECT isn't stored: a restore leaves it, and a restart gives its start word.
    ("20",
        "order - WRITE_PROTECT 00\ndeliver whole\nfinish ack\nexchange whole whole\nrestore\ndeliver whole\nfinish ack\n",
        "ran 11\nprotect 00 host confirmed 00\n"),
    ("20",
        "order - WRITE_PROTECT 00\ndeliver whole\nfinish ack\nexchange whole whole\nstore\ndeliver whole\nfinish ack\nrestart device\n",
        "ran 12\nprotect 20 host confirmed 00\n"),
    // A store and a restore are allowed only at 00h.
    ("20", "store\ndeliver whole\nfinish ack\nrestart device\n",
        "ran 8\nprotect 20 host unknown possible any\noutput 0 on commanded 4096/4096 1000000 uV\n"),
    ("20", "restore\ndeliver whole\nfinish ack\n",
        "ran 7\nprotect 20 host unknown possible any\noutput 0 on commanded 13517/4096 3300048 uV\n"),
];

#[test]
fn stored_words_come_back_but_for_write_protect(rt: HostRuntime) -> Result<(), Fail> {
    for &(events, first, output, last) in &ROWS {
        let text = text_with(rt.alloc(), "00", events)?;
        let (end, written) = Engine::Replay.text_of(rt.alloc(), in_pieces(text.as_bytes(), 4096));
        equal(&rt, &end, &Ok(!first.starts_with("stopped")), &events);
        let told = std::str::from_utf8(&written)?;
        is_true(&rt, is_told(told, first, output, last), &events);
    }
    // WRITE_PROTECT isn't stored.
    for &(protect, events, first) in &PROTECTED {
        let text = text_with(rt.alloc(), protect, events)?;
        let (end, written) = Engine::Replay.text_of(rt.alloc(), in_pieces(text.as_bytes(), 4096));
        equal(&rt, &end, &Ok(true), &events);
        is_true(&rt, written.starts_with(first.as_bytes()), &events);
    }
    Ok(())
}

// Texts of `hear` and of `decode`, and what is written.
#[rattlefmt::skip]
static HEARD: [(&str, &str, &str); 6] = [
    ("B0 10 20 5D\nB0 16 2D\n", "taken\nrefused K5 Protected\n", "1000"),
    ("B0 05 04 00 21 CD 34 5A\nB0 15 24\nrestart\n", "taken\ntaken\nrestarted\n", "34CD"),
    // RESTORE_USER_ALL by a page that is there, and by one that isn't.
    ("B0 05 04 00 21 CD 34 5A\nB0 05 02 01 16 2E\n", "taken\ntaken\n", "1000"),
    ("B0 05 04 00 21 CD 34 5A\nB0 05 02 02 16 11\n", "taken\nrefused K4 BadPage\n", "34CD"),
    // PAGE stays.
    ("B0 00 01 ED\nB0 15 24\nB0 16 2D\nB0 00 /\n", "taken\ntaken\ntaken\nanswer B1 01 C5\n",
        "1000"),
    ("B0 15 /\nB0 15 24 00\nB0 05 03 00 15 00 32\n",
        "refused K7 ReadOnly\nrefused K1 Frame F3 Long 3\nrefused K1 Frame F4 WrongCount 2\n",
        "1000"),
];

#[test]
fn hear_stores_and_restores(rt: HostRuntime) -> Result<(), Fail> {
    for &(text, answers, word) in &HEARD {
        let (end, written) = Engine::Hear.text_of(rt.alloc(), in_pieces(text.as_bytes(), 4096));
        equal(&rt, &end, &Ok(true), &text);
        let wanted = joined(
            rt.alloc(),
            &[
                answers,
                "output 0 VOUT_COMMAND ",
                word,
                "\noutput 1 VOUT_COMMAND 1000\n",
            ],
        )?;
        equal(&rt, &written.as_slice(), &wanted.as_bytes(), &text);
    }
    Ok(())
}

#[test]
fn a_trace_tells_both_codes(rt: HostRuntime) {
    let text = "B0 15 24\nB0 05 02 01 16 2E\nB0 05 02 01 15 27\nB0 16 /\n";
    let (end, written) = Engine::Decode.text_of(rt.alloc(), in_pieces(text.as_bytes(), 4096));
    equal(&rt, &end, &Ok(true), &1);
    let wanted =
        "1 58 STORE_USER_ALL send\n2 58 page 1 RESTORE_USER_ALL send\n3 58 page 1 STORE_USER_ALL send\n4 58 write F7 WrongDirection 1\ncount STORE_USER_ALL 2\ncount RESTORE_USER_ALL 1\nlines 4 accepted 3 faults 1 bad 0\n";
    equal(&rt, &written.as_slice(), &wanted.as_bytes(), &2);
}

// The events that a text of version 2 ends with, or the fault of its thirteenth line.
fn expect_event(
    rt: &(impl Abort + AllocGlobal),
    line: &str,
    wanted: Result<&str, TextFault>,
) -> Result<(), Fail> {
    let text = text_with(rt.alloc(), "00", line)?;
    match (scenario_of(rt.alloc(), &text), wanted) {
        (Ok(scenario), Ok(wanted)) => {
            let events = shown(rt.alloc(), &scenario.events.as_slice())?;
            is_true(rt, events.as_str().ends_with(wanted), &line);
        }
        (found, wanted) => equal(rt, &found.err(), &wanted.err(), &line),
    }
    Ok(())
}

/// Lines, and the events that they are, or why not.
static LINES_OF_ONE_WORD: [(&str, Result<&str, TextFault>); 7] = [
    ("store", Ok(", Store]")),
    ("  restore  ", Ok(", Restore]")),
    ("restore\r\nstore", Ok(", Restore, Store]")),
    ("store 0", Err(Syntax(13))),
    ("restore device", Err(Syntax(13))),
    ("Store", Err(Syntax(13))),
    ("store\nstores", Err(Syntax(14))),
];

#[test]
fn store_and_restore_are_lines_of_one_word(rt: HostRuntime) -> Result<(), Fail> {
    for &(line, wanted) in &LINES_OF_ONE_WORD {
        expect_event(&rt, line, wanted)?;
    }
    // Version 1 knows no store.
    for event in ["store", "restore", "store 0", "restore ZZ"] {
        let text = joined(rt.alloc(), &[SCENARIO, event, "\n"])?;
        is_refused(&rt, &text, Syntax(13));
    }
    // What is heard is judged by the table all the same: a byte too many of a known code, and no wrong PEC.
    let text = joined(
        rt.alloc(),
        &[
            SCENARIO,
            "order 0 VOUT_COMMAND 34CD\ndeliver bytes B0150000 stop\n",
        ],
    )?;
    let (end, written) = Engine::Replay.text_of(rt.alloc(), in_pieces(text.as_bytes(), 4096));
    equal(&rt, &end, &Ok(true), &1);
    is_true(&rt, std::str::from_utf8(&written)?.contains("cml 02\n"), &2);
    Ok(())
}
