//! Scenarios: the worked one, each kind of line, and outputs past the eighth.

mod faults;

use crate::SCENARIO;
use crate::checks::{equal, joined, shown};
use pm_device::{Config, OutputStart};
use pm_table::Coefficients;
use pm_text::{Scenario, TextFault, read_scenario};
use std::alloc::{AllocError, Global};
use std::process::Abort;
use std::test::Fail;

/// The lines before the events.
#[rattlefmt::skip]
static HEAD: [&str; 7] = [
    "scenario 1", "address 58", "passes 2", "protect 00", "coefficients 1 0 0",
    "output 14 80 1000 4000 1100 0F00", "begin",
];

const START: OutputStart = OutputStart {
    mode: 0x14,
    operation: 0x80,
    command: 0x1000,
    max: 0x4000,
    high: 0x1100,
    low: 0x0F00,
    min: 0x0000,
};

const NO_START: OutputStart = OutputStart {
    mode: 0,
    operation: 0,
    command: 0,
    max: 0,
    high: 0,
    low: 0,
    min: 0,
};

// The lines before the events, with another one at this place, counted from 0.
fn head_with(alloc: Global, place: usize, line: &str) -> Result<String, AllocError> {
    let mut text = String::new(alloc);
    for (i, usual) in HEAD.iter().enumerate() {
        text.push_str(if i == place { line } else { *usual })?;
        text.push('\n')?;
    }
    Ok(text)
}

// The scenario of an event line, which is line 8.
fn with_event(alloc: Global, line: &str) -> Result<String, AllocError> {
    let mut text = head_with(alloc, 7, "")?;
    text.push_str(line)?;
    Ok(text)
}

/// A scenario, or why it is none: a function of its own, so that no test's proof carries what the call promises.
pub(crate) fn scenario_of(alloc: Global, text: &str) -> Result<Scenario, TextFault> {
    read_scenario(alloc, text.as_bytes())
}

/// A text is refused for this.
pub(crate) fn is_refused(rt: &(impl Abort + AllocGlobal), text: &str, fault: TextFault) {
    let found = scenario_of(rt.alloc(), text).err();
    equal(rt, &found, &Some(fault), &text);
}

// What stands in the only event of a scenario, as it is printed to debug.
fn event_of(alloc: Global, text: &str) -> Result<String, Fail> {
    let scenario = scenario_of(alloc, text)?;
    Ok(shown(alloc, &scenario.events.as_slice())?)
}

// The configuration of the worked scenario.
fn worked() -> Config {
    let mut starts = [NO_START; 8];
    starts[0] = START;
    starts[1] = START;
    Config {
        addr: 0x58,
        count: 2,
        starts,
        protect: 0x00,
        coefficients: Coefficients { m: 1, b: 0, r: 0 },
    }
}

#[test]
fn the_worked_scenario_is_read(rt: HostRuntime) -> Result<(), Fail> {
    let scenario = scenario_of(rt.alloc(), SCENARIO)?;
    equal(&rt, &scenario.config, &worked(), &1);
    equal(&rt, &(scenario.version, scenario.passes), &(1, 2), &2);
    equal(&rt, &scenario.events.as_slice().len(), &4, &3);
    let text = shown(rt.alloc(), &scenario.events.into_vec())?;
    equal(
        &rt,
        &text.as_str(),
        &"[Order(Out(0, VoutCommand), 13517), Deliver(Whole), Finish(true), Exchange(Whole, Whole)]",
        &4,
    );
    Ok(())
}

// The event of a line is printed so.
fn is_read(rt: &(impl Abort + AllocGlobal), line: &str, wanted: &str) -> Result<(), Fail> {
    let text = with_event(rt.alloc(), line)?;
    let event = event_of(rt.alloc(), &text)?;
    equal(rt, &event.as_str(), &wanted, &line);
    Ok(())
}

#[rattlefmt::skip]
static EVENT_LINES: [(&str, &str); 29] = [
    ("order 0 VOUT_COMMAND 34CD", "[Order(Out(0, VoutCommand), 13517)]"),
    ("order 255 OPERATION 80", "[Order(Out(255, Operation), 128)]"),
    ("  order   -  WRITE_PROTECT 4f  ", "[Order(Protect, 79)]"),
    ("order 01 VOUT_MAX abCD", "[Order(Out(1, VoutMax), 43981)]"),
    ("volts 0 OPERATION 5", "[OrderMicro(Out(0, Operation), 5)]"),
    ("volts 1 VOUT_MARGIN_LOW -0", "[OrderMicro(Out(1, MarginLow), 0)]"),
    ("volts 0 VOUT_MARGIN_HIGH -009223372036854775808",
        "[OrderMicro(Out(0, MarginHigh), -9223372036854775808)]"),
    ("volts 0 VOUT_COMMAND 9223372036854775807",
        "[OrderMicro(Out(0, VoutCommand), 9223372036854775807)]"),
    ("check 7 VOUT_MARGIN_HIGH", "[Check(Out(7, MarginHigh))]"),
    ("check - WRITE_PROTECT", "[Check(Protect)]"), ("learn 1", "[Learn(1)]"),
    ("clear 0", "[Clear(0)]"), ("deliver whole", "[Deliver(Whole)]"),
    ("deliver cut 000000000000000000000255", "[Deliver(Cut(255))]"),
    ("deliver bytes b0 stop", "[Deliver(Bytes([176], Stop))]"),
    ("deliver bytes 000102030405060708090A0B0C0D0E0F restart",
        "[Deliver(Bytes([0, 1, 2, 3, 4, 5, 6, 7, 8, 9, 10, 11, 12, 13, 14, 15], Restart))]"),
    ("finish ack", "[Finish(true)]"), ("finish nack", "[Finish(false)]"),
    ("exchange whole whole", "[Exchange(Whole, Whole)]"),
    ("exchange cut 1 cut 0", "[Exchange(Cut(1), Cut(0))]"),
    ("exchange bytes B020 restart bytes B114ED",
        "[Exchange(Bytes([176, 32], Restart), Bytes([177, 20, 237]))]"),
    ("restart device", "[RestartDevice]"), ("restart host", "[RestartHost]"),
    ("reading 1 READ_VOUT 3000", "[Reading(1, Code(139), 12288)]"),
    ("reading 0 READ_IOUT FFFF", "[Reading(0, Code(140), 65535)]"),
    ("reading - READ_VIN 0c00", "[Reading(0, Code(136), 3072)]"),
    ("reading - READ_TEMPERATURE_1 0000", "[Reading(0, Code(141), 0)]"),
    ("", "[]"), ("# learn", "[]"),
];

#[test]
fn each_event_line_is_read(rt: HostRuntime) -> Result<(), Fail> {
    for &(line, wanted) in &EVENT_LINES {
        is_read(&rt, line, wanted)?;
    }
    Ok(())
}

// The scenario whose line at this place is this one.
fn with_line(alloc: Global, place: usize, line: &str) -> Result<Scenario, Fail> {
    let text = head_with(alloc, place, line)?;
    Ok(scenario_of(alloc, &text)?)
}

fn has_coefficients(
    rt: &(impl Abort + AllocGlobal),
    line: &str,
    m: i16,
    b: i16,
    r: i8,
) -> Result<(), Fail> {
    let scenario = with_line(rt.alloc(), 4, line)?;
    compare! { rt, line; scenario.config.coefficients => Coefficients { m, b, r } }
    Ok(())
}

#[test]
fn numbers_before_the_events_are_read_by_their_value(rt: HostRuntime) -> Result<(), Fail> {
    has_coefficients(&rt, "coefficients 1 0 0", 1, 0, 0)?;
    has_coefficients(&rt, "coefficients -0 00 -000128", 0, 0, -128)?;
    has_coefficients(&rt, "coefficients -32768 32767 127", -32768, 32767, 127)?;
    has_coefficients(&rt, " coefficients  10  -5  -2 ", 10, -5, -2)?;
    let address = with_line(rt.alloc(), 1, "address 5b")?;
    equal(&rt, &address.config.addr, &0x5B, &1);
    let passes = with_line(rt.alloc(), 2, "passes 0000255")?;
    equal(&rt, &passes.passes, &255, &2);
    let protect = with_line(rt.alloc(), 3, "protect 8f")?;
    equal(&rt, &protect.config.protect, &0x8F, &3);
    Ok(())
}

// A scenario up to its lines `output`, of which there are so many.
fn with_outputs(alloc: Global, lines: usize) -> Result<String, AllocError> {
    let mut text = String::from_str(
        alloc,
        "scenario 1\naddress 58\npasses 2\nprotect 00\ncoefficients 1 0 0\n",
    )?;
    for _ in 0..lines {
        text.push_str("output 14 80 1000 4000 1100 0F00\n")?;
    }
    Ok(text)
}

// A text with so many lines `output` has so many outputs, the first eight of them with what they start
// with, and a faulty line after them is named by its number.
fn are_counted(rt: &(impl Abort + AllocGlobal), lines: usize, count: u8) -> Result<(), Fail> {
    let mut text = with_outputs(rt.alloc(), lines)?;
    let faulty = joined(
        rt.alloc(),
        &[text.as_str(), "output 14 80 1000 4000 1100 0F0\nbegin"],
    )?;
    text.push_str("begin")?;
    let config = scenario_of(rt.alloc(), &text)?.config;
    equal(rt, &config.count, &count, &lines);
    for (place, start) in config.starts.iter().enumerate() {
        let wanted = if place < lines { START } else { NO_START };
        equal(rt, start, &wanted, &(lines, place));
    }
    is_refused(
        rt,
        &faulty,
        TextFault::BadHex((lines as u64).saturating_add(6)),
    );
    Ok(())
}

#[test]
fn outputs_past_the_eighth_are_counted(rt: HostRuntime) -> Result<(), Fail> {
    for count in [0, 1, 8, 9, 255] {
        are_counted(&rt, usize::from(count), count)?;
    }
    are_counted(&rt, 256, 255)?;
    are_counted(&rt, 264, 255)
}
