//! Lines that are no packet, and what they say.

use super::packets::is_written;
use super::rendered;
use crate::checks::{equal, joined};
use pm_text::TextFault;
use std::process::Abort;
use std::test::Fail;

// A line, what is said of it, and its fault.
static BAD: [(&str, &str, TextFault); 12] = [
    ("B0 // B1", "X1 Syntax", TextFault::Syntax(1)),
    ("B0 / B1 / B2", "X1 Syntax", TextFault::Syntax(1)),
    ("B0 / B1 / B", "X2 BadHex", TextFault::BadHex(1)),
    ("B0 / / Z", "X2 BadHex", TextFault::BadHex(1)),
    ("B/0", "X2 BadHex", TextFault::BadHex(1)),
    ("B0 9", "X2 BadHex", TextFault::BadHex(1)),
    (" # x", "X2 BadHex", TextFault::BadHex(1)),
    ("; B0", "X2 BadHex", TextFault::BadHex(1)),
    ("b010 80 34\r\r", "X2 BadHex", TextFault::BadHex(1)),
    ("B0 1\r0 80 34", "X2 BadHex", TextFault::BadHex(1)),
    ("b0\t10 80 34", "X2 BadHex", TextFault::BadHex(1)),
    ("B0108034 Z", "X2 BadHex", TextFault::BadHex(1)),
];

// A line that is no packet says this, and by itself it is refused so.
fn is_bad(
    rt: &(impl Abort + AllocGlobal),
    line: &str,
    said: &str,
    fault: TextFault,
) -> Result<(), Fail> {
    let text = joined(
        rt.alloc(),
        &["1 ", said, "\nlines 1 accepted 0 faults 0 bad 1\n"],
    )?;
    is_written(rt, line, &text);
    let alone = rendered(rt.alloc(), line, 1).err();
    equal(rt, &alone, &Some(fault), &line);
    Ok(())
}

#[test]
fn each_bad_line_says_why(rt: HostRuntime) -> Result<(), Fail> {
    for &(line, said, fault) in &BAD {
        is_bad(&rt, line, said, fault)?;
    }
    Ok(())
}
