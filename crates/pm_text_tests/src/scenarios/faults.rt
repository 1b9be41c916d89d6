//! The faults of scenarios, and the numbers of their lines.

use super::{head_with, is_refused, with_event};
use crate::SCENARIO;
use pm_text::TextFault;
use pm_text::TextFault::{BadHex, Syntax};
use std::alloc::{AllocError, Global};
use std::process::Abort;
use std::test::Fail;

// The worked scenario with another line of this number.
fn worked_with(alloc: Global, number: usize, line: &str) -> Result<String, AllocError> {
    let mut text = String::new(alloc);
    for (at, usual) in SCENARIO.split('\n').enumerate() {
        text.push_str(if at.saturating_add(1) == number {
            line
        } else {
            usual
        })?;
        text.push('\n')?;
    }
    Ok(text)
}

// An event line is refused for this.
fn is_refused_event(
    rt: &(impl Abort + AllocGlobal),
    line: &str,
    fault: TextFault,
) -> Result<(), AllocError> {
    let text = with_event(rt.alloc(), line)?;
    is_refused(rt, &text, fault);
    Ok(())
}

// The number of the line, and what stands there instead.
#[rattlefmt::skip]
static FAULTY_LINES: [(usize, &str, TextFault); 12] = [
    (1, "scenario 3", Syntax(1)), (3, "passes 256", Syntax(3)), (4, "protect 0", BadHex(4)),
    (6, "output 14 8Z 1000", BadHex(6)), (7, "output 14 80 1000 4000 1100", Syntax(7)),
    (9, "order 0 OPERATION 34CD", BadHex(9)), (9, "order 0 WRITE_PROTECT 40", Syntax(9)),
    (9, "order - VOUT_COMMAND 34CD", Syntax(9)),
    (9, "volts 0 VOUT_COMMAND 9223372036854775808", Syntax(9)),
    (10, "deliver bytes B0050 stop", BadHex(10)),
    (10, "deliver bytes 000102030405060708090A0B0C0D0E0F10 stop", BadHex(10)),
    (11, "finish", Syntax(11)),
];

// Events with a word that isn't what stands at its place.
#[rattlefmt::skip]
static FAULTY_WORDS: [&str; 68] = [
    " # x", "; learn 1", "// learn 1", "learn\t1", "Learn 1", "begin", "wait", "order",
    "order 0 34CD", "order 0 FOO ZZ", "order 0 VOUT_COMMAND", "order 0 VOUT_COMMAND 34CD 34CD",
    "order 256 OPERATION 80", "order -0 OPERATION 80", "order +0 OPERATION 80",
    "order - OPERATION 80", "order 0 WRITE_PROTECT 80", "order 0 READ_VOUT 80",
    "volts - WRITE_PROTECT 5", "volts 0 WRITE_PROTECT 5", "volts 0 VOUT_COMMAND",
    "volts 0 VOUT_COMMAND +1", "volts 0 VOUT_COMMAND -", "volts 0 VOUT_COMMAND 0x5",
    "volts 0 VOUT_COMMAND -9223372036854775809", "check", "check -", "check - VOUT_MAX",
    "check - WRITE-PROTECT", "check 0", "check 0 VOUT_MAX 0", "learn", "learn -", "learn 256",
    "learn 1 1", "clear", "clear -1", "clear 0 0", "store", "restore", "deliver", "deliver cut",
    "deliver cut 256", "deliver cut -0", "deliver cut +1", "deliver cut FF", "deliver part",
    "deliver whole stop", "deliver bytes", "deliver bytes B0", "deliver bytes B0 begin",
    "deliver bytes B0 stop stop", "finish Ack", "finish ack ack", "exchange whole",
    "exchange whole part", "exchange whole cut 256", "exchange whole bytes",
    "exchange whole bytes B1 stop", "exchange whole whole whole", "restart", "restart world",
    "restart host host", "reading 0 READ_VIN 0000", "reading - READ_VOUT 0000",
    "reading 0 VOUT_MODE 0000", "reading - READ_VIN", "reading - READ_VIN 0000 0",
];

// Events with a word that should be hexadecimal and isn't.
#[rattlefmt::skip]
static BAD_HEXADECIMAL: [&str; 16] = [
    "deliver bytes stop", "deliver bytes B stop", "deliver bytes B0B stop", "deliver bytes ZZ x",
    "deliver bytes +0 stop", "exchange whole bytes B", "exchange bytes - whole",
    "order 0 VOUT_COMMAND ZZZZ x", "order 0 VOUT_COMMAND 80", "order 0 VOUT_COMMAND 034CD",
    "order 0 VOUT_COMMAND +4CD", "order 0 OPERATION 0080", "order - WRITE_PROTECT 0080",
    "order - WRITE_PROTECT 8", "reading 0 READ_VOUT 00", "reading - READ_VIN 0x00 0",
];

// The place of the line, counted from 0, and the line.
#[rattlefmt::skip]
static FAULTY_HEADS: [(usize, &str, TextFault); 28] = [
    (0, "scenario 01", Syntax(1)), (0, "scenario 1 1", Syntax(1)), (0, "scenario", Syntax(1)),
    (0, " # x", Syntax(1)), (0, "address 58", Syntax(1)), (1, "address", Syntax(2)),
    (1, "address 58 58", Syntax(2)), (1, "address 058", BadHex(2)), (1, "address +8", BadHex(2)),
    (1, "address 5G 58", BadHex(2)), (2, "passes -0", Syntax(3)), (2, "passes +1", Syntax(3)),
    (2, "passes 1 1", Syntax(3)), (3, "protect 0000", BadHex(4)), (3, "protect", Syntax(4)),
    (4, "coefficients 1 0", Syntax(5)), (4, "coefficients 1 0 0 0", Syntax(5)),
    (4, "coefficients 32768 0 0", Syntax(5)), (4, "coefficients 1 -32769 0", Syntax(5)),
    (4, "coefficients 1 0 128", Syntax(5)), (4, "coefficients +1 0 0", Syntax(5)),
    (5, "output 14 80 begin", BadHex(6)),
    (5, "output 14 80 1000 4000 1100 0F00 0", Syntax(6)),
    (5, "output 14 0080 1000 4000 1100 0F00", BadHex(6)),
    (5, "output 14 80 10 4000 1100 0F00", BadHex(6)),
    (5, "learn 1", Syntax(6)), (6, "begin 1", Syntax(7)), (6, "learn 1", Syntax(7)),
];

// Texts, and their first faulty line.
#[rattlefmt::skip]
static FIRST_FAULTS: [(&str, TextFault); 9] = [
    ("", Syntax(1)), ("\n\n# x", Syntax(4)),
    ("scenario 1", Syntax(2)), ("scenario 1\n", Syntax(2)),
    ("scenario 1\r", Syntax(2)), ("scenario 1\n\r", Syntax(3)),
    ("scenario 1\r\r\n", Syntax(1)),
    ("scenario 1\r\n\r\n#\r\n  \r\naddress ZZ\r\npasses x", BadHex(5)),
    ("scenario 1\naddress 58\npasses x\nprotect ZZ", Syntax(3)),
];

// Events of which one or more are faulty, and the first fault.
static FIRST_FAULTY_EVENTS: [(&str, TextFault); 3] = [
    ("learn x\norder 0 OPERATION Z", Syntax(8)),
    ("order 0 OPERATION Z\nlearn x", BadHex(8)),
    ("learn 1\r\n\n# x\nlearn x\nlearn y", Syntax(11)),
];

#[test]
fn a_faulty_line_is_told(rt: HostRuntime) -> Result<(), Fail> {
    for &(number, line, fault) in &FAULTY_LINES {
        is_refused(&rt, &worked_with(rt.alloc(), number, line)?, fault);
    }
    for &(place, line, fault) in &FAULTY_HEADS {
        is_refused(&rt, &head_with(rt.alloc(), place, line)?, fault);
    }
    for &(text, fault) in &FIRST_FAULTS {
        is_refused(&rt, text, fault);
    }
    Ok(())
}

#[test]
fn a_faulty_event_is_told(rt: HostRuntime) -> Result<(), Fail> {
    for &line in &FAULTY_WORDS {
        is_refused_event(&rt, line, Syntax(8))?;
    }
    for &line in &BAD_HEXADECIMAL {
        is_refused_event(&rt, line, BadHex(8))?;
    }
    for &(lines, fault) in &FIRST_FAULTY_EVENTS {
        is_refused_event(&rt, lines, fault)?;
    }
    Ok(())
}
