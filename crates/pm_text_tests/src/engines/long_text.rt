//! How many lines an engine writes for a long text.

use crate::checks::{equal, is_true};
use crate::{Engine, Engines, Long, in_pieces, text_of};
use std::alloc::AllocError;
use std::process::Abort;

/// How many lines are written, and how they begin and end.
pub(crate) type Written = (usize, &'static str, &'static str);

/// An engine takes a text, and writes these lines.
pub(crate) fn is_written(
    rt: &(impl Abort + AllocGlobal),
    engine: Engine,
    text: &[u8],
    written: Written,
) {
    let (lines, first, last) = written;
    let (end, written) = engine.text_of(rt.alloc(), in_pieces(text, 4096));
    is_true(rt, end.is_ok(), &last);
    let feeds = written.iter().filter(|byte| **byte == b'\n').count();
    equal(rt, &feeds, &lines, &last);
    is_true(rt, written.starts_with(first.as_bytes()), &first);
    is_true(rt, written.ends_with(last.as_bytes()), &last);
}

/// The engine takes each text, and writes its lines.
pub(crate) fn expect_lines(
    rt: &(impl Abort + AllocGlobal),
    engine: Engine,
    rows: &[(Long, Written)],
) -> Result<(), AllocError> {
    for (long, written) in rows {
        is_written(rt, engine, &text_of(rt.alloc(), *long)?, *written);
    }
    Ok(())
}
