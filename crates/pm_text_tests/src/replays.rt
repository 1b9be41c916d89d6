//! Replays over the base configuration: the events at which they stop, a restart at each place, what a hand-made run is
//! reported as, and what is no scenario.

use crate::checks::{equal, is_true, joined};
use crate::{Engine, Engines, REPORT, SCENARIO, in_pieces};
use pm_text::{Ran, TextFault, read_scenario, render_report};
use pm_world::{Cause, Stop, World};
use std::alloc::Global;
use std::process::Abort;
use std::test::Fail;

static HEAD: &str =
    "scenario 1\naddress 58\npasses 2\nprotect 00\ncoefficients 1 0 0\noutput 14 80 1000 4000 1100 0F00\noutput 14 80 1000 4000 1100 0F00\nbegin\n";

const REST_OF_0: &str =
    "VOUT_MAX 4000 host unknown\nVOUT_MARGIN_HIGH 1100 host unknown\nVOUT_MARGIN_LOW 0F00 host unknown\nstatus 00 0000 00\n";

const OUTPUT_1: &str =
    "output 1 on commanded 4096/4096 1000000 uV\nOPERATION 80 host unknown\nVOUT_COMMAND 1000 host unknown\nVOUT_MAX 4000 host unknown\nVOUT_MARGIN_HIGH 1100 host unknown\nVOUT_MARGIN_LOW 0F00 host unknown\nstatus 00 0000 00\ncml 00\nrestart seen no\n";

/// Output 0's voltage after an order of 34CD was taken, and at the start.
const HELD: &str = "13517/4096 3300048";

const START: &str = "4096/4096 1000000";

const CONFIRMED: &str = "34CD host confirmed 34CD";

const UNKNOWN: &str = "1000 host unknown";

/// What a report over the base configuration says: its first line, output 0's voltage and VOUT_COMMAND, the
/// job.
type Said = (&'static str, &'static str, &'static str, &'static str);

// A whole report.
fn report(alloc: Global, said: Said) -> Result<String, Fail> {
    let (first, voltage, command, job) = said;
    let mut text = String::new(alloc);
    for part in [
        first,
        "\nprotect 00 host unknown\noutput 0 on commanded ",
        voltage,
        " uV\nOPERATION 80 host unknown\nVOUT_COMMAND ",
        command,
        "\n",
        REST_OF_0,
        OUTPUT_1,
        "job ",
        job,
        "\n",
    ] {
        text.push_str(part)?;
    }
    Ok(text)
}

// What a replay of a scenario with these events results in.
fn replayed(alloc: Global, events: &str) -> Result<(Result<bool, TextFault>, Vec<u8>), Fail> {
    let text = joined(alloc, &[HEAD, events])?;
    Ok(Engine::Replay.text_of(alloc, in_pieces(text.as_bytes(), 4096)))
}

// A scenario with these events runs to its end, or doesn't, and is reported so.
fn is_reported(rt: &(impl Abort + AllocGlobal), events: &str, said: Said) -> Result<(), Fail> {
    let (end, written) = replayed(rt.alloc(), events)?;
    equal(rt, &end, &Ok(said.0.starts_with("ran")), &events);
    let wanted = report(rt.alloc(), said)?;
    equal(rt, &written.as_slice(), &wanted.as_bytes(), &events);
    Ok(())
}

#[rattlefmt::skip]
static STOPS: [(&str, Said); 19] = [
    ("", ("ran 0", START, UNKNOWN, "none")),
    ("order 0 VOUT_COMMAND 34CD\nfinish ack\nexchange whole whole\nfinish ack\nexchange whole whole\n",
        ("ran 5", START, "1000 host confirmed 1000", "differs 1000")),
    ("learn 0\nexchange whole whole\nvolts 0 VOUT_COMMAND 3300000\ndeliver whole\nfinish ack\nexchange whole whole\n",
        ("ran 6", HELD, CONFIRMED, "done")),
    ("order 0 VOUT_COMMAND 34CD\ndeliver bytes B005040121CD344C stop\n",
        ("stopped 1 S1 NotBetrayed", START, UNKNOWN, "pending")),
    ("check 0 VOUT_COMMAND\nexchange whole bytes B102CD34B9\n",
        ("stopped 1 S1 NotBetrayed", START, UNKNOWN, "pending")),
    // The answer of output 0 to a check of output 1, which its PEC betrays.
    ("check 1 VOUT_COMMAND\nexchange whole bytes B102CD34B9\n",
        ("ran 2", START, UNKNOWN, "pending")),
    ("finish ack\n", ("stopped 0 S2 NothingSent", START, UNKNOWN, "none")),
    ("deliver whole\n", ("stopped 0 S2 NothingSent", START, UNKNOWN, "none")),
    ("check 0 VOUT_COMMAND\nfinish ack\n", ("stopped 1 S3 WrongKind", START, UNKNOWN, "pending")),
    ("order 0 VOUT_COMMAND 34CD\nexchange whole whole\n",
        ("stopped 1 S3 WrongKind", START, UNKNOWN, "pending")),
    ("check 1 VOUT_MAX\nlearn 0\n", ("stopped 1 S4 Host H3 Busy", START, UNKNOWN, "pending")),
    ("learn 2\n", ("stopped 0 S4 Host H4 UnknownOutput", START, UNKNOWN, "none")),
    ("order 0 OPERATION B0\n", ("stopped 0 S4 Host H5 BadWord", START, UNKNOWN, "none")),
    ("order 0 VOUT_COMMAND 34CD\ndeliver whole\nfinish ack\nexchange whole whole\nvolts 0 OPERATION 5\n",
        ("stopped 4 S4 Host H5 BadWord", HELD, CONFIRMED, "done")),
    ("volts 0 VOUT_COMMAND 3300000\n",
        ("stopped 0 S4 Host H7 FormatUnknown", START, UNKNOWN, "none")),
    ("learn 0\nexchange whole whole\nvolts 1 VOUT_COMMAND 3300000\n",
        ("stopped 2 S4 Host H7 FormatUnknown", START, UNKNOWN, "learned")),
    ("learn 0\nexchange whole whole\nvolts 0 VOUT_COMMAND -1\n",
        ("stopped 2 S4 Host N3 BelowLeast", START, UNKNOWN, "learned")),
    ("learn 0\nexchange whole whole\nvolts 0 VOUT_COMMAND 16000000\n",
        ("stopped 2 S4 Host N4 AboveGreatest", START, UNKNOWN, "learned")),
    ("learn 0\nexchange whole whole\nvolts 0 VOUT_COMMAND 1000000000000001\n",
        ("stopped 2 S4 Host N5 TooLarge", START, UNKNOWN, "learned")),
];

/// The events of an order, and the end of the text.
#[rattlefmt::skip]
static ORDER: [&str; 5] = [
    "order 0 VOUT_COMMAND 34CD\n", "deliver whole\n", "finish ack\n", "exchange whole whole\n", "",
];

// An order with a restart of an end before the event at this place.
fn with_restart(alloc: Global, end: &str, place: usize) -> Result<String, Fail> {
    let mut events = String::new(alloc);
    for (at, event) in ORDER.iter().enumerate() {
        if at == place {
            events.push_str("restart ")?;
            events.push_str(end)?;
            events.push_str("\n")?;
        }
        events.push_str(event)?;
    }
    Ok(events)
}

// What starts again, and before which event of the order; 4 is after the last.
#[rattlefmt::skip]
static RESTARTS: [(&str, usize, Said); 10] = [
    ("device", 0, ("ran 5", HELD, CONFIRMED, "done")),
    ("device", 1, ("ran 5", HELD, CONFIRMED, "done")),
    ("device", 2, ("ran 5", START, UNKNOWN, "pending")),
    ("device", 3, ("ran 5", START, UNKNOWN, "pending")),
    ("device", 4, ("ran 5", START, "1000 host confirmed 34CD", "done")),
    ("host", 0, ("ran 5", HELD, CONFIRMED, "done")),
    ("host", 1, ("stopped 2 S2 NothingSent", START, UNKNOWN, "none")),
    ("host", 2, ("stopped 3 S2 NothingSent", HELD, "34CD host unknown", "none")),
    ("host", 3, ("stopped 4 S2 NothingSent", HELD, "34CD host unknown", "none")),
    ("host", 4, ("ran 5", HELD, "34CD host unknown", "none")),
];

// A check, and then sixteen orders that nothing answers.
fn sixteen_orders(alloc: Global) -> Result<String, Fail> {
    let mut events = String::new(alloc);
    events.push_str("check 0 VOUT_COMMAND\nexchange whole whole\n")?;
    for word in 0x2000..0x2010 {
        let order = format!(in alloc; "order 0 VOUT_COMMAND {word:04X}\n")?;
        events.push_str(order.as_str())?;
        for _ in 0..2 {
            events.push_str("finish nack\nexchange whole cut 0\n")?;
        }
    }
    Ok(events)
}

#[test]
fn a_replay_goes_on_to_the_first_event_that_is_not_taken(rt: HostRuntime) -> Result<(), Fail> {
    for &(events, said) in &STOPS {
        is_reported(&rt, events, said)?;
    }
    // Either end restarts at each place of an order.
    for &(end, place, said) in &RESTARTS {
        is_reported(&rt, &with_restart(rt.alloc(), end, place)?, said)?;
    }
    // A seventeenth possible word is refused.
    let first = "stopped 77 S4 Host H6 TooUncertain";
    let events = sixteen_orders(rt.alloc())?;
    is_reported(&rt, &events, (first, START, UNKNOWN, "unknown"))?;
    Ok(())
}

// The report of a run without events that is said to have taken so many, and to have stopped so.
fn told(alloc: Global, taken: u64, stop: Option<Stop>) -> Result<String, Fail> {
    let scenario = read_scenario(alloc, HEAD.as_bytes())?;
    let (world, _) = World::run(scenario.config, scenario.passes, &[])?;
    let run = Ran {
        version: 1,
        world,
        taken,
        stop,
    };
    Ok(render_report(alloc, &run)?)
}

fn is_told(
    rt: &(impl Abort + AllocGlobal),
    taken: u64,
    stop: Option<Stop>,
    first: &'static str,
) -> Result<(), Fail> {
    let text = told(rt.alloc(), taken, stop)?;
    let wanted = report(rt.alloc(), (first, START, UNKNOWN, "none"))?;
    is_true(rt, text.as_str() == wanted.as_str(), &first);
    Ok(())
}

// The count of a run that stopped isn't shown, only the event at which it stopped.
#[test]
fn a_run_made_by_hand_is_reported(rt: HostRuntime) -> Result<(), Fail> {
    let full = Stop {
        at: 281_474_976_710_656,
        cause: Cause::Full,
    };
    let nothing = Stop {
        at: 7,
        cause: Cause::NothingSent,
    };
    is_told(&rt, u64::MAX, None, "ran 18446744073709551615")?;
    is_told(&rt, 3, Some(full), "stopped 281474976710656 S5 Full")?;
    is_told(&rt, 3, Some(nothing), "stopped 7 S2 NothingSent")
}

// The report of a scenario of four events, by the parts of a replay: the example of the root of `pm_text`,
// word for word.
fn report_by_parts(alloc: Global, text: &str) -> Result<String, TextFault> {
    let scenario = read_scenario(alloc, text.as_bytes())?; // X1, X2: its first faulty line
    let events = scenario.events.as_slice();
    let (world, stop) = World::run(scenario.config, scenario.passes, events)?; // X7: no world is made
    let run = Ran {
        version: scenario.version,
        world,
        taken: 4, // if none stopped it
        stop,
    };
    render_report(alloc, &run)
}

#[test]
fn the_parts_of_a_replay_give_its_report(rt: HostRuntime) -> Result<(), Fail> {
    let text = report_by_parts(rt.alloc(), SCENARIO)?;
    equal(&rt, &text.as_str(), &REPORT, &1);
    Ok(())
}

// A scenario with these events is refused, and nothing is written.
fn is_faulty(rt: &(impl Abort + AllocGlobal), events: &str, fault: TextFault) -> Result<(), Fail> {
    let (found, written) = replayed(rt.alloc(), events)?;
    equal(rt, &found, &Err(fault), &events);
    is_true(rt, written.is_empty(), &events);
    Ok(())
}

#[test]
fn a_faulty_scenario_writes_nothing(rt: HostRuntime) -> Result<(), Fail> {
    is_faulty(&rt, "order 0 VOUT_COMMAND 34C\n", TextFault::BadHex(9))?;
    is_faulty(&rt, "finish ack\n\nfinish maybe\n", TextFault::Syntax(11))
}
