//! Tests of `pm_lines`: its readers and writers, whole texts, lines, words and bytes.
use crate::checks::{equal, is_true};
use crate::{Failure, KINDS, Paper, Pieces, blank_paper, in_pieces};
use pm_lines::{
    Line, Lines, Sink, Source, TextFault, Words, cut_at, push_bytes, read_text, read_word,
};
use std::alloc::Global;
use std::io::{self, ErrorKind, Write};
use std::process::Abort;
use std::test::Fail;

// A source over a reader that fails at this call, which is called once.
fn is_called_once(
    rt: &impl Abort,
    fails_at: usize,
    kind: ErrorKind,
    wanted: Result<usize, TextFault>,
) {
    let mut source = Source::new(with! { Pieces, in_pieces(b"abcdef", 3); fails_at, kind });
    let result = source.read(&mut [0; 4]);
    equal(rt, &result, &wanted, &fails_at);
    equal(rt, &source.failed(), &wanted.is_err(), &fails_at);
    let calls = source.into_inner().calls;
    equal(rt, &calls, &1, &fails_at);
}

#[test]
fn a_source_calls_its_reader_once_and_tells_its_failure(rt: HostRuntime) {
    for &kind in &KINDS {
        is_called_once(&rt, 1, kind, Err(TextFault::Read));
    }
    for kind in [ErrorKind::Other, ErrorKind::Interrupted] {
        is_called_once(&rt, 2, kind, Ok(3));
        is_called_once(&rt, 0, kind, Ok(3));
    }
}

const TEXT: &[u8] = b"a text of some bytes";

// What is read of a text, by how many calls, and whether the source failed.
fn read(alloc: Global, reader: Pieces<'_>) -> (Result<Vec<u8>, TextFault>, usize, bool) {
    let mut source = Source::new(reader);
    let result = read_text(alloc, &mut source);
    let failed = source.failed();
    (result, source.into_inner().calls, failed)
}

// A whole text is read by so many calls.
fn is_read(rt: &(impl Abort + AllocGlobal), piece: usize) -> usize {
    let (whole, made, _) = read(rt.alloc(), in_pieces(TEXT, piece));
    is_true(rt, whole.is_ok_and(|found| found.as_slice() == TEXT), &1);
    made
}

fn is_read_to(rt: &(impl Abort + AllocGlobal), piece: usize, fails_at: usize) {
    let reader = with! { Pieces, in_pieces(TEXT, piece); fails_at };
    let (result, calls, failed) = read(rt.alloc(), reader);
    is_true(rt, matches!(result, Err(TextFault::Read)) && failed, &1);
    equal(rt, &calls, &fails_at, &piece);
}

#[test]
fn a_whole_text_is_read_to_the_first_failure(rt: HostRuntime) {
    for piece in [1, 7, 4096] {
        for fails_at in 1..=is_read(&rt, piece) {
            is_read_to(&rt, piece, fails_at);
        }
    }
}

// What a sink answers to the text, whether it failed, and what was written.
fn put(writer: Paper) -> (Result<(), TextFault>, bool, Paper) {
    let mut sink = Sink::new(writer);
    let result = sink.put(TEXT);
    let failed = sink.failed();
    (result, failed, sink.into_inner())
}

fn is_put(rt: &(impl Abort + AllocGlobal), piece: usize, calls: usize) {
    let (result, failed, written) = put(blank_paper(rt.alloc(), piece));
    is_true(rt, result.is_ok() && !failed, &1);
    equal(rt, &(written.calls, written.flushes), &(calls, 0), &piece);
    equal(rt, &written.taken.as_slice(), &TEXT, &piece);
}

fn is_put_to(rt: &(impl Abort + AllocGlobal), piece: usize, fails_at: usize, failure: Failure) {
    let (result, failed, written) = put(with! { Paper, blank_paper(rt.alloc(), piece);
        fails_at, failure });
    is_true(rt, result == Err(TextFault::Write) && failed, &1);
    compare! { rt, piece; (written.calls, written.flushes) => (fails_at, 0) }
    let front = fails_at
        .saturating_sub(1)
        .saturating_mul(piece)
        .min(TEXT.len());
    equal(rt, &written.taken.as_slice(), &&TEXT[..front], &piece);
}

#[test]
fn a_sink_writes_to_the_first_failure(rt: HostRuntime) {
    for (piece, calls) in [(1, 20), (7, 3), (20, 1), (4096, 1)] {
        is_put(&rt, piece, calls);
        for fails_at in 1..=calls {
            is_put_to(&rt, piece, fails_at, Failure::Nothing);
            for &kind in &KINDS {
                is_put_to(&rt, piece, fails_at, Failure::Error(kind));
            }
        }
    }
}

/// A writer whose calls all fail, with an error of this kind.
#[derive(Drop)]
struct Broken {
    kind: ErrorKind,
    calls: usize,
}

impl Write for Broken {
    fn write(&mut self, _buf: &[u8]) -> io::Result<usize> {
        self.calls = self.calls.saturating_add(1);
        Err(self.kind.into())
    }

    fn flush(&mut self) -> io::Result<()> {
        Err(self.kind.into())
    }
}

// A sink over such a writer, which is called once.
fn is_written_once(rt: &impl Abort, kind: ErrorKind) {
    let mut sink = Sink::new(Broken { kind, calls: 0 });
    equal(rt, &sink.put(TEXT), &Err(TextFault::Write), &kind);
    is_true(rt, sink.failed(), &kind);
    equal(rt, &sink.into_inner().calls, &1, &kind);
}

fn is_flushed(rt: &(impl Abort + AllocGlobal), flush_fails: bool) {
    let mut sink = Sink::new(with! { Paper, blank_paper(rt.alloc(), 1); flush_fails });
    equal(rt, &sink.flush().is_err(), &flush_fails, &1);
    equal(rt, &sink.failed(), &flush_fails, &2);
    let written = sink.into_inner();
    equal(rt, &(written.calls, written.flushes), &(0, 1), &3);
}

#[test]
fn a_sink_calls_its_writer_once_and_is_flushed_when_it_is_asked(rt: HostRuntime) {
    for &kind in &KINDS {
        is_written_once(&rt, kind);
    }
    is_flushed(&rt, false);
    is_flushed(&rt, true);
}

// The number of each line that isn't skipped, its text, and its words.
static NUMBERED: [(u64, &[u8], &[&[u8]]); 5] = [
    (4, b" a  b", &[b"a", b"b"]),
    (5, b"\t", &[b"\t"]),
    (6, b"\r", &[b"\r"]),
    (7, b" # x", &[b"#", b"x"]),
    (8, b"last", &[b"last"]),
];

// A line has this number, this text and these words, and no further one.
fn is_line(rt: &impl Abort, line: Line<'_>, number: u64, text: &[u8], words: &[&[u8]]) {
    equal(rt, &line.number, &number, &text);
    equal(rt, &line.text, &text, &number);
    let mut found = Words::new(line);
    equal(rt, &found.line(), &number, &text);
    for word in words {
        equal(rt, &found.next_word(), &Some(*word), &number);
    }
    equal(rt, &found.next_word(), &None, &number);
}

// The word of four digits that a text begins with: the example of the root of `pm_lines`, word for word.
fn first_word(text: &[u8; 20]) -> Option<u16> {
    let line = Lines::new(text).next_line()?; // the first that isn't skipped
    read_word(Words::new(line).next_word()?)
}

#[test]
fn the_example_of_the_root_runs(rt: HostRuntime) {
    compare! { &rt;
        1, first_word(b"# skipped\n 34cd end\n") => Some(0x34CD);
        2, first_word(b"34CDE is not a word.") => None;
    }
}

#[test]
fn lines_are_numbered_and_words_are_parted_by_spaces(rt: HostRuntime) {
    let mut lines = Lines::new(b"\n# c\r\n  \n a  b\r\n\t\n\r\r\n # x\nlast\r");
    for &(number, text, words) in &NUMBERED {
        let Some(line) = lines.next_line() else {
            panic!(rt; "no line {number}");
        };
        is_line(&rt, line, number, text, words);
    }
    is_true(
        &rt,
        lines.next_line().is_none() && lines.next_line().is_none(),
        &3,
    );
    compare! { &rt;
        4, lines.next_number() => 9;
        5, Lines::new(b"").next_number() => 1;
        6, cut_at(b"a/b/c", b'/') => (b"a".as_slice(), b"b/c".as_slice());
        7, cut_at(b"abc", b'/') => (b"abc".as_slice(), b"".as_slice());
    }
}

#[rattlefmt::skip]
static BYTES: [(&[u8], Option<&[u8]>); 8] = [
    (b"", Some(b"")), (b" 0a  FF ", Some(b"\x0A\xFF")), (b"0aFf00", Some(b"\x0A\xFF\x00")),
    (b"0", None), (b"0a f", None), (b"0a 0g", None), (b"0a\t", None), (b"0a 0A 0x", None),
];

// The bytes of a line follow what was there, or nothing is added.
fn are_pushed(
    rt: &(impl Abort + AllocGlobal),
    text: &[u8],
    wanted: Option<&[u8]>,
) -> Result<(), Fail> {
    let mut bytes = b"\x55".to_vec(rt.alloc())?;
    let result = push_bytes(Line { number: 300, text }, &mut bytes);
    match wanted {
        Some(wanted) => {
            equal(rt, &result, &Ok(()), &text);
            is_true(rt, bytes.as_slice().starts_with(b"\x55"), &text);
            equal(rt, &&bytes.as_slice()[1.min(bytes.len())..], &wanted, &text);
        }
        None => {
            equal(rt, &result, &Err(TextFault::BadHex(300)), &text);
            equal(rt, &bytes.as_slice(), &b"\x55".as_slice(), &text);
        }
    }
    Ok(())
}

// Half a million bytes A5h, each written so.
fn are_many(rt: &(impl Abort + AllocGlobal), word: &str) -> Result<(), Fail> {
    let mut text = Vec::new(rt.alloc());
    for _ in 0..500_000 {
        text.extend_from_slice(word.as_bytes())?;
    }
    let mut bytes = Vec::new(rt.alloc());
    let line = Line {
        number: 1,
        text: &text,
    };
    equal(rt, &push_bytes(line, &mut bytes), &Ok(()), &word);
    equal(rt, &bytes.len(), &500_000, &word);
    is_true(rt, bytes.iter().all(|byte| *byte == 0xA5), &word);
    Ok(())
}

// One word of half a million bytes, and as many words of one byte, among them.
#[test]
fn bytes_are_read_in_words_of_any_length(rt: HostRuntime) -> Result<(), Fail> {
    for &(text, wanted) in &BYTES {
        are_pushed(&rt, text, wanted)?;
    }
    are_many(&rt, "a5")?;
    are_many(&rt, "a5 ")
}
