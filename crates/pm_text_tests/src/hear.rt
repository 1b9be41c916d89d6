//! Texts of `hear`, with what is written of each.

use crate::checks::{equal, is_true};
use crate::{TAKEN, blank_paper, in_pieces};
use pm_tool::TextFault::{BadHex, Syntax};
use pm_tool::{Sink, Source, TextFault, hear};
use std::alloc::Global;
use std::process::Abort;

static PIECES: [usize; 4] = [1, 2, 7, 4096];

/// What `hear` answers and writes of a text that comes in such pieces.
fn heard(alloc: Global, text: &[u8], piece: usize) -> (Result<(), TextFault>, Vec<u8>) {
    let mut reader = Source::new(in_pieces(text, piece));
    let mut writer = Sink::new(blank_paper(alloc, piece));
    let result = hear(alloc, &mut reader, &mut writer);
    (result, writer.into_inner().taken)
}

// A text that comes in such pieces has these answers, and these lines of the outputs.
fn is_heard(rt: &(impl Abort + AllocGlobal), text: &str, piece: usize, answers: &str, words: &str) {
    let (result, written) = heard(rt.alloc(), text.as_bytes(), piece);
    equal(rt, &result, &Ok(()), &(text, piece));
    let cut = answers.len().min(written.len());
    equal(rt, &&written[..cut], &answers.as_bytes(), &(text, piece));
    equal(rt, &&written[cut..], &words.as_bytes(), &(text, piece));
}

// VOUT_COMMAND of both outputs at the start, and after an order of 34CDh for one of them.
const NONE: &str = "output 0 VOUT_COMMAND 1000\noutput 1 VOUT_COMMAND 1000\n";

const FIRST: &str = "output 0 VOUT_COMMAND 34CD\noutput 1 VOUT_COMMAND 1000\n";

const SECOND: &str = "output 0 VOUT_COMMAND 1000\noutput 1 VOUT_COMMAND 34CD\n";

// The text, the lines of its answers, and those of the outputs.
#[rattlefmt::skip]
static ANSWERS: [(&str, &str, &str); 31] = [
    ("", "", NONE), ("# B0\n\n  \n\r\n", "", NONE), ("B0 05 04 00 21 CD 34 5A", "taken\n", FIRST),
    ("B0 05 04 01 21 CD 34 4C", "taken\n", SECOND),
    ("B0 05 04 01 21 CD 34 5A", "refused K1 Frame F5 WrongPec 7\n", NONE),
    ("B0", "refused K1 Frame F2 Short 1\n", NONE),
    ("B0 05 04 00 21 CD 34", "refused K1 Frame F2 Short 7\n", NONE),
    ("B0 21 CD 34 38 00", "refused K1 Frame F3 Long 5\n", NONE),
    ("B0 05 01 00 21", "refused K1 Frame F4 WrongCount 2\n", NONE),
    ("B0 05 04 02 21 00 10 8E", "refused K4 BadPage\n", NONE),
    ("B0 05 03 00 00 01 99", "refused K6 Nested\n", NONE),
    ("B0 05 03 00 01 B0 92", "refused K3 UnsupportedData\n", NONE),
    ("B0 99 89", "refused K2 UnsupportedCode\n", NONE),
    ("B0 78 20", "refused K7 ReadOnly\n", NONE), ("B0 00 02 E4", "refused K4 BadPage\n", NONE),
    ("B2 05 04 00 21 CD 34 5A", "silent\n", NONE), ("/", "silent\n", NONE),
    ("B0 20 /", "answer B1 14 ED\n", NONE), ("B0 20/", "answer B1 14 ED\n", NONE),
    ("B0 19 /  ", "answer B1 80 D3\n", NONE), ("B0 98 /", "answer B1 33 A3\n", NONE),
    ("B0 30 02 21 00 /", "refused K3 UnsupportedData\n", NONE),
    // What both outputs and the device start with.
    ("B0 01 /\nB0 24 /\nB0 25 /\nB0 26 /\nB0 2B /\nB0 10 /",
        "answer B1 80 20\nanswer B1 00 40 11\nanswer B1 00 11 B7\nanswer B1 00 0F D7\nanswer B1 00 00 04\nanswer B1 00 60\n",
        NONE),
    ("B0 06 02 01 01 /\nB0 06 02 01 20 /\nB0 06 02 01 24 /\nB0 06 02 01 25 /\nB0 06 02 01 26 /\nB0 06 02 01 2B /",
        "answer B1 01 80 11\nanswer B1 01 14 2C\nanswer B1 02 00 40 32\nanswer B1 02 00 11 E0\nanswer B1 02 00 0F 1C\nanswer B1 02 00 00 C5\n",
        NONE),
    // A plain write goes to the output that PAGE names.
    ("B0 00 01 ED\nB0 00 /", "taken\nanswer B1 01 C5\n", NONE),
    ("B0 00 01 ED\nB0 21 CD 34 38", "taken\ntaken\n", SECOND),
    ("B0 00 01 ED\nrestart\nB0 00 /", "taken\nrestarted\nanswer B1 00 C2\n", NONE),
    ("B0 00 01 ED\nrestart\nB0 21 CD 34 38", "taken\nrestarted\ntaken\n", FIRST),
    ("B0 05 04 00 21 CD 34 5A\n  restart  ", "taken\nrestarted\n", NONE),
    ("B0 05 04 00 21 CD 34 5A\nB0 06 02 00 21 /", "taken\nanswer B1 02 CD 34 B9\n", FIRST),
    ("B0 10 80 34\nB0 05 04 00 21 CD 34 5A\nB0 7E /",
        "taken\nrefused K5 Protected\nanswer B1 80 00\n", NONE),
];

#[rattlefmt::skip]
static SPELLINGS: [&str; 9] = [
    "B0 05 04 00 21 CD 34 5A\n", "B0 05 04 00 21 CD 34 5A\r\n", "B0 05 04 00 21 CD 34 5A\r",
    "B0 05 04 00 21 CD 34 5A\n\r",
    "\n# the frame\n   \n\r\n#\nB0 05 04 00 21 CD 34 5A\n\n# B0 /\n  ",
    "b0 05 04 00 21 cD 34 5a\n", "  B0   05 04 00  21 CD 34 5A   \n", "B0050400 21CD345A",
    "B005040021CD345A",
];

#[test]
fn each_line_is_answered_and_the_outputs_follow(rt: HostRuntime) {
    for &(text, answers, words) in &ANSWERS {
        for &piece in &PIECES {
            is_heard(&rt, text, piece, answers, words);
        }
    }
    // A frame line is heard however it is written.
    for &text in &SPELLINGS {
        for &piece in &PIECES {
            is_heard(&rt, text, piece, "", TAKEN);
        }
    }
}

// A text is refused for this fault, and nothing is written.
fn is_refused(rt: &(impl Abort + AllocGlobal), text: &str, piece: usize, fault: TextFault) {
    let (result, written) = heard(rt.alloc(), text.as_bytes(), piece);
    equal(rt, &result, &Err(fault), &(text, piece));
    is_true(rt, written.is_empty(), &(text, piece));
}

#[rattlefmt::skip]
static FAULTY_TEXTS: [(&str, TextFault); 27] = [
    // Not hexadecimal.
    ("a comment\n\r", BadHex(1)), (" # x", BadHex(1)), ("\t", BadHex(1)), ("B0\t05", BadHex(1)),
    ("B0 0", BadHex(1)), ("B00 5", BadHex(1)), ("B0\r05", BadHex(1)), ("B0 05\r\r\n", BadHex(1)),
    ("\n#\nZZ", BadHex(3)), ("B0 restart", BadHex(1)), ("restarts", BadHex(1)),
    ("RESTART", BadHex(1)), ("restart/", BadHex(1)),
    // A frame that isn't hexadecimal comes before what stands after its `/`.
    ("B0 2 /", BadHex(1)), ("B0 2 / ZZ", BadHex(1)), ("B0 2/", BadHex(1)), ("\nZZ /", BadHex(2)),
    // More than a line may have.
    ("B0 20 / ZZ", Syntax(1)), ("B0 05 / B1", Syntax(1)), ("B0 / /", Syntax(1)), ("//", Syntax(1)),
    ("/\t", Syntax(1)), ("restart x", Syntax(1)), ("  restart restart", Syntax(1)),
    ("restart /", Syntax(1)),
    // The first of several, whatever was heard before it.
    ("B0 05\n\nZZ\n/ /\n", BadHex(3)), ("B0 05\nrestart\n/ /\nZZ\n", Syntax(3)),
];

#[test]
fn the_first_faulty_line_is_named(rt: HostRuntime) {
    for &(text, fault) in &FAULTY_TEXTS {
        for &piece in &PIECES {
            is_refused(&rt, text, piece, fault);
        }
    }
}
