//! What `decode` gathers before it writes, if a read brings as many bytes as it asks for.
use crate::checks::{equal, printed};
use crate::{Engine, Engines, blank_paper, in_pieces};
use std::alloc::Global;
use std::process::Abort;
use std::test::Fail;

// As many lines of a CLEAR_FAULTS, each of nine bytes.
fn clears(alloc: Global, lines: usize) -> Result<Vec<u8>, Fail> {
    let mut text = Vec::new(alloc);
    for _ in 0..lines {
        text.extend_from_slice(b"B0 03 46\n")?;
    }
    Ok(text)
}

// What is shown of them.
fn told(alloc: Global, lines: usize) -> Result<String, Fail> {
    let mut text = String::new(alloc);
    for number in 1..lines.saturating_add(1) {
        text.push_str(&printed(alloc, &number, " 58 CLEAR_FAULTS send\n")?)?;
    }
    Ok(text)
}

// All of it.
fn told_whole(alloc: Global, lines: usize) -> Result<String, Fail> {
    let mut text = told(alloc, lines)?;
    text.push_str("count CLEAR_FAULTS ")?;
    text.push_str(&printed(alloc, &lines, "\nlines ")?)?;
    text.push_str(&printed(alloc, &lines, " accepted ")?)?;
    text.push_str(&printed(alloc, &lines, " faults 0 bad 0\n")?)?;
    Ok(text)
}

// A trace of so many lines is written by so many calls.
fn is_written_by(rt: &(impl Abort + AllocGlobal), lines: usize, writes: usize) -> Result<(), Fail> {
    let text = clears(rt.alloc(), lines)?;
    let read = in_pieces(&text, 4096);
    let ended = Engine::Decode.over(rt.alloc(), read, blank_paper(rt.alloc(), 1_048_576));
    equal(rt, &ended.end, &Ok(true), &lines);
    equal(rt, &ended.written.calls, &writes, &lines);
    let wanted = told_whole(rt.alloc(), lines)?;
    let written = ended.written.taken;
    equal(rt, &written.as_slice(), &wanted.as_bytes(), &lines);
    Ok(())
}

// 64 lines are a whole piece and more: they are written with its rest, and then the counts. Of 2,000 lines 16 KiB and
// what a piece says are written at a time.
#[test]
fn lines_are_gathered_while_whole_pieces_come(rt: HostRuntime) -> Result<(), Fail> {
    is_written_by(&rt, 56, 2)?;
    is_written_by(&rt, 64, 2)?;
    is_written_by(&rt, 2000, 4)
}
