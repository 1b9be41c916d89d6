//! Lines and refusals of `number`, over a writer with little room.
use crate::Sheet;
use crate::checks::{equal, is_true, printed};
use pm_num::NumFault;
use pm_tool::{NumberFault, Sink, TextFault, number};
use std::alloc::Global;
use std::process::Abort;
use std::test::Fail;

fn asked(
    alloc: Global,
    format: &str,
    word: Option<&str>,
    micro: Option<&str>,
) -> (Result<(), NumberFault>, Sheet) {
    let mut sink = Sink::new(Sheet::new(100));
    let result = number(alloc, &mut sink, format, word, micro);
    (result, sink.into_inner())
}

fn expect_line(
    rt: &(impl Abort + AllocGlobal),
    format: &str,
    asked_for: (Option<&str>, Option<&str>),
    line: &str,
) {
    let (result, sheet) = asked(rt.alloc(), format, asked_for.0, asked_for.1);
    equal(rt, &result, &Ok(()), &(format, line));
    is_true(rt, sheet.text() == line.as_bytes(), &(format, line));
}

/// A format, a word, and its line.
#[rattlefmt::skip]
static WORDS_SHOWN: [(&str, &str, &str); 13] = [
    ("linear11", "87FF", "word 87FF value -1/65536 micro -16\n"),
    ("linear11", "87ff", "word 87FF value -1/65536 micro -16\n"),
    ("linear11", "D300", "word D300 value 768/64 micro 12000000\n"),
    ("linear11", "07D8", "word 07D8 value -40/1 micro -40000000\n"),
    ("linear11", "7BFF", "word 7BFF value 33521664/1 micro 33521664000000\n"),
    ("linear11", "7C00", "word 7C00 value -33554432/1 micro -33554432000000\n"),
    ("ulinear16:-16", "0001", "word 0001 value 1/65536 micro 15\n"),
    ("ulinear16:15", "FFFF", "word FFFF value 2147450880/1 micro 2147450880000000\n"),
    ("direct:-1:5:-1", "0003", "word 0003 value -25/1 micro -25000000\n"),
    ("direct:-32768:32767:12", "8000",
        "word 8000 value 32767000000032768/32768000000000000 micro 999969\n"),
    ("direct:1:-32768:-12", "7FFF",
        "word 7FFF value 32767000000032768/1 micro 32767000000032768000000\n"),
    ("direct:1:-32768:-12", "8000",
        "word 8000 value -32767999999967232/1 micro -32767999999967232000000\n"),
    ("direct:01:-0:003", "0CE4", "word 0CE4 value 3300/1000 micro 3300000\n"),
];

/// A format, a value in millionths, and the line of its nearest word.
#[rattlefmt::skip]
static VALUES_SHOWN: [(&str, &str, &str); 10] = [
    ("ulinear16:-12", "3300000", "word 34CD value 13517/4096 micro 3300048\n"),
    ("linear11", "12000000", "word 000C value 12/1 micro 12000000\n"),
    ("linear11", "1024000000", "word 0A00 value 1024/1 micro 1024000000\n"),
    ("linear11", "2047000000", "word 0BFF value 2046/1 micro 2046000000\n"),
    ("linear11", "-2047000000", "word 0C00 value -2048/1 micro -2048000000\n"),
    ("linear11", "33521664000000", "word 7BFF value 33521664/1 micro 33521664000000\n"),
    ("linear11", "-0", "word 0000 value 0/1 micro 0\n"),
    ("linear11", "-000000000000000000000000000001000000", "word 07FF value -1/1 micro -1000000\n"),
    ("direct:1:0:3", "3300000", "word 0CE4 value 3300/1000 micro 3300000\n"),
    ("ulinear16:15", "1000000000000000", "word 7736 value 1000013824/1 micro 1000013824000000\n"),
];

#[test]
fn lines_are_shown(rt: HostRuntime) {
    // Words are shown with their values.
    for &(format, word, line) in &WORDS_SHOWN {
        expect_line(&rt, format, (Some(word), None), line);
    }
    // Values are shown with their nearest words.
    for &(format, micro, line) in &VALUES_SHOWN {
        expect_line(&rt, format, (None, Some(micro)), line);
    }
}

fn expect_fault(
    rt: &(impl Abort + AllocGlobal),
    format: &str,
    asked_for: (Option<&str>, Option<&str>),
    fault: NumberFault,
) {
    let (result, sheet) = asked(rt.alloc(), format, asked_for.0, asked_for.1);
    equal(rt, &result, &Err(fault), &format);
    is_true(rt, sheet.text().is_empty(), &format);
}

/// A format, a word and a value, and the first of their faults.
static FAULTY: [(&str, Option<&str>, Option<&str>, NumberFault); 7] = [
    ("linear11", Some("0001"), Some("1"), NumberFault::OneOf),
    ("linear11", None, None, NumberFault::OneOf),
    ("", Some("0001"), Some("1"), NumberFault::OneOf),
    ("", Some("0001"), None, NumberFault::Format),
    ("nonsense", Some("xyz"), None, NumberFault::Format),
    ("direct:0:5:3", Some("xyz"), None, NumberFault::Word),
    ("direct:0:5:3", None, Some("1.5"), NumberFault::Micro),
];

#[rattlefmt::skip]
static NO_FORMATS: [&str; 27] = [
    "LINEAR11", "linear11:", "linear11 ", "ulinear16", "ulinear16:", "ulinear16:-17",
    "ulinear16:16", "ulinear16:+1", "ulinear16:-", "ulinear16:0:0",
    "ulinear16:99999999999999999999", "direct", "direct:1:0", "direct:1:0:0:0", "direct:+1:0:0",
    "direct:32768:0:0", "direct:-32769:0:0", "direct:1:32768:0", "direct:1:0:128", "direct:1: 0:0",
    "half", "/", "linear11/", "ulinear16//1", "ulinear16/16", "ulinear16/-12", "direct:1/0:3",
];

#[rattlefmt::skip]
static NO_MICROS: [&str; 8] = [
    "", "-", "+1", "--1", "1 ", "1e6", "9223372036854775808", "-9223372036854775809",
];

static NO_WORDS: [&str; 9] = [
    "", "1", "001", "00001", "+001", "-001", "00G0", "0x01", " 001",
];

/// A format, a value, and why it has no word.
#[rattlefmt::skip]
static NO_NEAREST: [(&str, &str, NumFault); 11] = [
    ("direct:0:5:13", "0", NumFault::ZeroSlope),
    ("direct:0:5:3", "1000000000000001", NumFault::ZeroSlope),
    ("direct:1:0:13", "0", NumFault::ExponentRange),
    ("direct:1:0:-13", "1000000000000001", NumFault::ExponentRange),
    ("linear11", "1000000000000001", NumFault::TooLarge),
    ("linear11", "9223372036854775807", NumFault::TooLarge),
    ("linear11", "-9223372036854775808", NumFault::TooLarge),
    ("linear11", "33521664000001", NumFault::AboveGreatest),
    ("linear11", "-33554432000001", NumFault::BelowLeast),
    ("ulinear16:-12", "-1", NumFault::BelowLeast),
    ("ulinear16:-12", "16000000", NumFault::AboveGreatest),
];

#[test]
fn what_has_no_line_is_refused(rt: HostRuntime) {
    // Faulty command lines are refused in order.
    for &(format, word, micro, fault) in &FAULTY {
        expect_fault(&rt, format, (word, micro), fault);
    }
    // Texts that are no format are refused.
    for &format in &NO_FORMATS {
        expect_fault(&rt, format, (Some("0001"), None), NumberFault::Format);
    }
    // Texts that are no word or number are refused.
    for &word in &NO_WORDS {
        expect_fault(&rt, "linear11", (Some(word), None), NumberFault::Word);
    }
    for &micro in &NO_MICROS {
        expect_fault(&rt, "linear11", (None, Some(micro)), NumberFault::Micro);
    }
    // Numbers without a word are refused.
    for &(format, micro, fault) in &NO_NEAREST {
        expect_fault(&rt, format, (None, Some(micro)), NumberFault::Num(fault));
    }
    expect_fault(
        &rt,
        "direct:0:5:3",
        (Some("0001"), None),
        NumberFault::Num(NumFault::ZeroSlope),
    );
}

// What a writer with such room has of the line of 87FF, and whether it failed.
fn written(alloc: Global, room: u8) -> (Result<(), NumberFault>, bool, Sheet) {
    let mut sink = Sink::new(Sheet::new(usize::from(room)));
    let result = number(alloc, &mut sink, "linear11", Some("87FF"), None);
    let failed = sink.failed();
    (result, failed, sink.into_inner())
}

#[test]
fn a_full_writer_has_a_front_of_the_line(rt: HostRuntime) {
    let line = "word 87FF value -1/65536 micro -16\n".as_bytes();
    for room in 0..50 {
        let (result, failed, sheet) = written(rt.alloc(), room);
        let room = usize::from(room);
        let fits = line.len() <= room;
        equal(&rt, &failed, &!fits, &room);
        let wanted = if fits {
            Ok(())
        } else {
            Err(NumberFault::Text(TextFault::Write))
        };
        equal(&rt, &result, &wanted, &room);
        is_true(&rt, sheet.text() == &line[..room.min(line.len())], &room);
    }
}

// A refusal's words, which it shows, and its status.
fn is_refused(
    rt: &(impl Abort + AllocGlobal),
    fault: NumberFault,
    words: &str,
    status: u8,
) -> Result<(), Fail> {
    equal(rt, &fault.words(), &words, &1);
    equal(rt, &fault.status(), &status, &words);
    let shown = printed(rt.alloc(), &fault, "")?;
    equal(rt, &shown.as_str(), &words, &2);
    Ok(())
}

/// A refusal, its words and its status.
#[rattlefmt::skip]
static NUMBER_FAULTS: [(NumberFault, &str, u8); 11] = [
    (NumberFault::OneOf, "give one of --word and --micro", 2),
    (NumberFault::Format, "bad format", 2),
    (NumberFault::Word, "bad word", 2),
    (NumberFault::Micro, "bad micro", 2),
    (NumberFault::Num(NumFault::ZeroSlope), "N1 ZeroSlope", 1),
    (NumberFault::Num(NumFault::ExponentRange), "N2 ExponentRange", 1),
    (NumberFault::Num(NumFault::BelowLeast), "N3 BelowLeast", 1),
    (NumberFault::Num(NumFault::AboveGreatest), "N4 AboveGreatest", 1),
    (NumberFault::Num(NumFault::TooLarge), "N5 TooLarge", 1),
    (NumberFault::Text(TextFault::Write), "X5 Write", 1),
    (NumberFault::Text(TextFault::Memory), "X6 Memory", 1),
];

#[test]
fn each_refusal_of_a_number_has_its_words_and_status(rt: HostRuntime) -> Result<(), Fail> {
    for &(fault, words, status) in &NUMBER_FAULTS {
        is_refused(&rt, fault, words, status)?;
    }
    Ok(())
}
