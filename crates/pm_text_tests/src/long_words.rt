//! `hear` and the command line with ample memory at the far end of each of their dimensions: lines, the bytes of a line,
//! the digits of a word, and words.

use crate::checks::{equal, is_true};
use crate::{Engine, Engines, Long, in_pieces, text_of};
use clap::error::ErrorKind;
use pm_tool::{Chosen, TextFault, chosen};
use std::process::Abort;
use std::test::Fail;

const OUTPUTS: &str = "output 0 VOUT_COMMAND 1000\noutput 1 VOUT_COMMAND 1000\n";

// `hear` takes a long text and writes so many lines, which begin and end so.
fn is_heard(rt: &(impl Abort + AllocGlobal), text: &[u8], written: (usize, &str, &str)) {
    let (lines, first, last) = written;
    let (end, written) = Engine::Hear.text_of(rt.alloc(), in_pieces(text, 4096));
    is_true(rt, end.is_ok(), &last);
    let feeds = written.iter().filter(|byte| **byte == b'\n').count();
    equal(rt, &feeds, &lines, &last);
    is_true(rt, written.starts_with(first.as_bytes()), &first);
    is_true(rt, written.ends_with(last.as_bytes()), &last);
}

/// Long texts of frames, and what is printed of them.
#[rattlefmt::skip]
static LONG_FRAMES: [(Long, (usize, &str, &str)); 8] = [
    ((["", ""], "11", 524_288, ""), (3, "silent\noutput 0", OUTPUTS)),
    ((["", ""], "11 ", 349_525, ""), (3, "silent\noutput 0", OUTPUTS)),
    ((["", ""], "\n", 1_048_575, "/"), (3, "silent\noutput 0", OUTPUTS)),
    ((["B099", ""], "00", 300_000, ""), (3, "refused K1 Frame F5 WrongPec 300001\n", OUTPUTS)),
    ((["", ""], "/\n", 524_288, ""), (524_290, "silent\nsilent\n", OUTPUTS)),
    ((["", ""], "B0\n", 349_525, ""),
        (349_527, "refused K1 Frame F2 Short 1\nrefused K1 Frame F2 Short 1\n", OUTPUTS)),
    ((["", ""], "B0 20 /\n", 131_072, ""),
        (131_074, "answer B1 14 ED\nanswer B1 14 ED\n", OUTPUTS)),
    ((["", ""], "restart\n", 131_072, ""), (131_074, "restarted\nrestarted\n", OUTPUTS)),
];

// `hear` refuses a text for this, and writes nothing.
fn is_not_heard(rt: &(impl Abort + AllocGlobal), text: &[u8], fault: TextFault) {
    let (end, written) = Engine::Hear.text_of(rt.alloc(), in_pieces(text, 4096));
    equal(rt, &end, &Err(fault), &1);
    is_true(rt, written.is_empty(), &2);
}

/// Long texts whose last line is faulty.
#[rattlefmt::skip]
static FAULTY_AT_THE_END: [(Long, TextFault); 3] = [
    ((["", ""], "\n", 1_048_575, "Z"), TextFault::BadHex(1_048_576)),
    ((["", ""], "#\n", 300_000, "/ /"), TextFault::Syntax(300_001)),
    ((["", ""], " \n", 300_000, "restart /"), TextFault::Syntax(300_001)),
];

#[test]
fn long_texts_are_heard(rt: HostRuntime) -> Result<(), Fail> {
    for &(long, written) in &LONG_FRAMES {
        is_heard(&rt, &text_of(rt.alloc(), long)?, written);
    }
    Ok(())
}

#[test]
fn a_faulty_line_at_the_end_of_a_long_text_is_told(rt: HostRuntime) -> Result<(), Fail> {
    for &(long, fault) in &FAULTY_AT_THE_END {
        is_not_heard(&rt, &text_of(rt.alloc(), long)?, fault);
    }
    Ok(())
}

// The words choose a `number` of this format and this word, with a micro of so many bytes.
fn is_number(
    rt: &(impl Abort + AllocGlobal),
    words: &[&str],
    wanted: (&str, &str, usize),
) -> Result<(), Fail> {
    let (wanted_format, wanted_word, bytes) = wanted;
    match chosen(rt.alloc(), words)? {
        Chosen::Number {
            format,
            word,
            micro,
        } => {
            equal(rt, &format, &wanted_format, &1);
            equal(rt, &word, &Some(wanted_word), &2);
            equal(rt, &micro.map(|text| text.len()), &Some(bytes), &3);
        }
        _ => panic!(rt; "not number"),
    }
    Ok(())
}

#[test]
fn a_long_word_is_chosen(rt: HostRuntime) -> Result<(), Fail> {
    let alloc = rt.alloc();
    let digits = text_of(alloc, (["--micro=", ""], "0", 1_000_000, "1"))?;
    let micro = String::from_utf8(digits)?;
    #[rattlefmt::skip]
    let words = [
        "pmb", "number", "--format", "direct:-32768:-32768:-12", "--word", "7FFF", micro.as_str(),
    ];
    is_number(&rt, &words, ("direct:-32768:-32768:-12", "7FFF", 1_000_001))
}

// A command and ten thousand words more are refused so.
fn is_no_command(
    rt: &(impl Abort + AllocGlobal),
    command: &str,
    kind: ErrorKind,
) -> Result<(), Fail> {
    let mut words = vec![in rt.alloc(); "more"; 10_000]?;
    words.insert(0, command)?;
    words.insert(0, "pmb")?;
    let found = chosen(rt.alloc(), words.as_slice())
        .err()
        .map(|error| error.kind());
    equal(rt, &found, &Some(kind), &command);
    Ok(())
}

#[test]
fn many_words_are_no_command(rt: HostRuntime) -> Result<(), Fail> {
    is_no_command(&rt, "hear", ErrorKind::UnknownArgument)?;
    is_no_command(&rt, "number", ErrorKind::UnknownArgument)?;
    is_no_command(&rt, "listen", ErrorKind::InvalidSubcommand)?;
    is_no_command(&rt, "--help", ErrorKind::DisplayHelp)
}
