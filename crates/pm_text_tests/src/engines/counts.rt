//! What a decoder that is fed counts of the longest traces, and of one with every code.

use crate::checks::equal;
use crate::{CODES, Long, text_of};
use pm_text::{Decoder, TextFault};
use std::alloc::{AllocError, Global};
use std::process::Abort;
use std::test::Fail;

// What a decoder counts of a whole text, which it gets up to a line's end at a time.
fn counts_of(alloc: Global, text: &[u8]) -> Result<(u64, u64, u64, u64), TextFault> {
    let mut decoder = Decoder::new(alloc);
    let mut rest = text;
    for _ in 0..text.len() {
        if rest.is_empty() {
            break;
        }
        let taken = decoder.feed(rest)?.taken;
        rest = &rest[taken..];
    }
    decoder.finish()?;
    Ok(decoder.counts())
}

// The lines that count, and the accepted, faulty and bad ones among them.
static COUNTED: [(Long, (u64, u64, u64, u64)); 2] = [
    ((["", ""], "B0 03 46\n", 40_000, ""), (40_000, 40_000, 0, 0)),
    ((["", ""], "\n", 1_048_575, "0"), (1, 0, 0, 1)),
];

fn is_counted(
    rt: &(impl Abort + AllocGlobal),
    long: Long,
    counts: (u64, u64, u64, u64),
) -> Result<(), AllocError> {
    let text = text_of(rt.alloc(), long)?;
    equal(rt, &counts_of(rt.alloc(), &text), &Ok(counts), &text.len());
    Ok(())
}

#[test]
fn long_traces_are_counted(rt: HostRuntime) -> Result<(), Fail> {
    is_counted(&rt, (["", ""], "", 0, CODES), (23, 23, 0, 0))?;
    for &(long, counts) in &COUNTED {
        is_counted(&rt, long, counts)?;
    }
    Ok(())
}
