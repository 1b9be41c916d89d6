//! The whole program as `main` calls it, over arguments and streams of a test's own.

use crate::checks::is_true;
use crate::{FRAME, Paper, blank_paper, in_pieces};
use pm_tool::{Sink, Source, program};
use std::alloc::{Alloc, Global};
use std::env::{self, Env, FillError};
use std::process::ExitCode;

// Arguments in memory, which need not be text.
#[derive(Drop)]
struct Arguments<'a> {
    words: &'a [&'a [u8]],
    alloc: Global,
}

impl Alloc for Arguments<'_> {
    type A = Global;

    fn alloc(&self) -> Global {
        self.alloc
    }
}

impl Env for Arguments<'_> {
    fn arg(&self, i: usize, buf: &mut [u8]) -> Result<usize, FillError> {
        let Some(word) = self.words.get(i) else {
            return Err(FillError::NotPresent);
        };
        if word.len() > buf.len() {
            return Err(FillError::TooLong);
        }
        buf[..word.len()].copy_from_slice(word);
        Ok(word.len())
    }

    fn var(&self, _name: &str, _buf: &mut [u8]) -> Result<usize, FillError> {
        Err(FillError::NotPresent)
    }

    fn var_at(&self, _i: usize, _buf: &mut [u8]) -> Result<usize, FillError> {
        Err(FillError::NotPresent)
    }
}

// What the program ends with on these arguments and a frame, and what it writes on both streams.
fn run_program(alloc: Global, words: &[&[u8]], output: &mut Paper, errors: &mut Paper) -> ExitCode {
    let arguments = Arguments { words, alloc };
    let mut input = Source::new(in_pieces(FRAME.as_bytes(), 7));
    let mut output = Sink::new(output);
    let mut errors = Sink::new(errors);
    program(
        alloc,
        env::args(&arguments),
        &mut input,
        &mut output,
        &mut errors,
    )
}

// Whether it ends so.
fn ends(alloc: Global, words: &[&[u8]], status: u8, said: &str, refused: &str) -> bool {
    let mut output = blank_paper(alloc, 4096);
    let mut errors = blank_paper(alloc, 4096);
    let code = run_program(alloc, words, &mut output, &mut errors);
    code == ExitCode::from(status) && is_text(&output, said) && is_text(&errors, refused)
}

// Whether this text was written.
fn is_text(paper: &Paper, text: &str) -> bool {
    paper.taken.as_slice() == text.as_bytes()
}

// The arguments, the status, and what is written on standard output and on standard error.
#[rattlefmt::skip]
static ENDS: [(&[&[u8]], u8, &str, &str); 7] = [
    (&[b"pmb", b"hear"], 0, "taken\noutput 0 VOUT_COMMAND 34CD\noutput 1 VOUT_COMMAND 1000\n", ""),
    (&[b"pmb", b"decode"], 0,
        "1 58 page 0 VOUT_COMMAND write 34CD\ncount VOUT_COMMAND 1\nlines 1 accepted 1 faults 0 bad 0\n",
        ""),
    (&[b"pmb", b"replay"], 1, "", "pmb: X1 Syntax line 1\n"),
    (&[b"pmb", b"number", b"--format=linear11", b"--word=87FF"], 0,
        "word 87FF value -1/65536 micro -16\n", ""),
    (&[b"pmb", b"number", b"--format=linear11"], 2, "", "pmb: give one of --word and --micro\n"),
    // Arguments that are no text aren't taken for want of memory, which has status 1.
    (&[b"pmb", b"h\xFFar"], 2, "", "pmb: bad arguments\n"),
    (&[b"\x80", b"hear"], 2, "", "pmb: bad arguments\n"),
];

#[test]
fn the_words_the_streams_and_the_status_are_handed_on(rt: HostRuntime) {
    for &(words, status, said, refused) in &ENDS {
        is_true(
            &rt,
            ends(rt.alloc(), words, status, said, refused),
            &(status, refused),
        );
    }
}
