//! The calls of a command that take memory, which is refused: want of memory or the right answer, and nothing else.
//! Each test holds with ample memory too, and whichever allocation is refused: `rt try --test --fail-alloc N`.

use crate::Sheet;
use crate::checks::{equal, is_true};
use clap::error::ErrorKind;
use pm_tool::{Chosen, NumberFault, Sink, TextFault, chosen, number};
use std::process::Abort;

// A number's line is written whole, or memory was lacking.
fn expect_number(
    rt: &(impl Abort + AllocGlobal),
    format: &str,
    asked: (Option<&str>, Option<&str>),
    line: &str,
) {
    let mut sink = Sink::new(Sheet::new(4096));
    let result = number(rt.alloc(), &mut sink, format, asked.0, asked.1);
    let sheet = sink.into_inner();
    match result {
        Ok(()) => is_true(rt, sheet.text() == line.as_bytes(), &line),
        Err(fault) => {
            equal(rt, &fault, &NumberFault::Text(TextFault::Memory), &line);
            is_true(rt, sheet.text().is_empty(), &line);
        }
    }
}

#[test]
fn a_number_is_written_whole_or_wants_memory(rt: HostRuntime) {
    expect_number(
        &rt,
        "direct:1:-32768:-12",
        (Some("7FFF"), None),
        "word 7FFF value 32767000000032768/1 micro 32767000000032768000000\n",
    );
    expect_number(
        &rt,
        "ulinear16:-12",
        (None, Some("3300000")),
        "word 34CD value 13517/4096 micro 3300048\n",
    );
}

// The words choose this, or are refused like this, or memory was lacking.
fn expect_chosen<'a>(
    rt: &(impl Abort + AllocGlobal),
    words: &'a [&'a str],
    wanted: Result<Chosen<'a>, ErrorKind>,
) {
    let is_right = match chosen(rt.alloc(), words) {
        Ok(found) => match wanted {
            Ok(wanted) => found == wanted,
            Err(_) => false,
        },
        Err(error) => {
            let kind = error.kind();
            kind == ErrorKind::OutOfMemory || wanted.err() == Some(kind)
        }
    };
    is_true(rt, is_right, &words);
}

#[test]
fn a_command_is_chosen_or_wants_memory(rt: HostRuntime) {
    let number = Chosen::Number {
        format: "linear11",
        word: Some("0001"),
        micro: Some("-1"),
    };
    #[rattlefmt::skip]
    let words = ["pmb", "number", "--format=linear11", "--word", "0001", "--micro=-1"];
    expect_chosen(&rt, &words, Ok(number));
    expect_chosen(&rt, &["pmb", "hear"], Ok(Chosen::Hear));
    expect_chosen(&rt, &["pmb"], Err(ErrorKind::MissingSubcommand));
    expect_chosen(&rt, &["pmb", "listen"], Err(ErrorKind::InvalidSubcommand));
    expect_chosen(&rt, &["pmb", "--help"], Err(ErrorKind::DisplayHelp));
    expect_chosen(
        &rt,
        &["pmb", "number", "--bits=1"],
        Err(ErrorKind::UnknownArgument),
    );
}
