//! A report of as many possible words as there can be: 16 of each register of eight outputs.

use crate::Engine;
use crate::engines::long_text::is_written;
use std::alloc::{AllocError, Global};
use std::test::Fail;

/// The setup of a report of version 2, with eight outputs.
static EIGHT_TOLD: &str =
    "scenario 2\naddress 58\npasses 1\nprotect 00\ncoefficients 1 0 0\noutput 14 80 1000 4000 1100 0F00 0000\noutput 14 80 1000 4000 1100 0F00 0000\noutput 14 80 1000 4000 1100 0F00 0000\noutput 14 80 1000 4000 1100 0F00 0000\noutput 14 80 1000 4000 1100 0F00 0000\noutput 14 80 1000 4000 1100 0F00 0000\noutput 14 80 1000 4000 1100 0F00 0000\noutput 14 80 1000 4000 1100 0F00 0000\nbegin\n";

/// The outputs.
static NUMBERS: [&str; 8] = ["0", "1", "2", "3", "4", "5", "6", "7"];

/// The registers, and the front and the last digits of the words that each is ordered to hold.
static REGISTERS: [(&str, &str, &[u8]); 6] = [
    ("OPERATION", "4", b"0123456789ABCDE"),
    ("VOUT_COMMAND", "200", b"123456789ABCDEF"),
    ("VOUT_MAX", "200", b"123456789ABCDEF"),
    ("VOUT_MARGIN_HIGH", "200", b"123456789ABCDEF"),
    ("VOUT_MARGIN_LOW", "200", b"123456789ABCDEF"),
    ("VOUT_MIN", "200", b"123456789ABCDEF"),
];

/// The end of the report.
const VOUT_MIN_7: &str =
    "\nVOUT_MIN 0000 host unknown possible 0000 2001 2002 2003 2004 2005 2006 2007 2008 2009 200A 200B 200C 200D 200E 200F\nstatus 00 0000 00\ncml 00\nrestart seen no\njob unknown\n";

// Adds the texts one after another.
fn push_all(text: &mut Vec<u8>, parts: &[&str]) -> Result<(), AllocError> {
    for part in parts {
        text.extend_from_slice(part.as_bytes())?;
    }
    Ok(())
}

// Adds events after which a register may hold what it held, or any of the words.
fn push_doubts(
    text: &mut Vec<u8>,
    output: &str,
    name: &str,
    front: &str,
    digits: &[u8],
) -> Result<(), AllocError> {
    push_all(
        text,
        &["check ", output, " ", name, "\nexchange whole whole\n"],
    )?;
    for digit in digits {
        push_all(text, &["order ", output, " ", name, " ", front])?;
        text.push(*digit)?;
        push_all(text, &["\nfinish nack\nexchange whole cut 0\n"])?;
    }
    Ok(())
}

// A scenario after which each register of eight outputs may hold any of 16 words.
fn doubts(alloc: Global) -> Result<Vec<u8>, AllocError> {
    let mut text = Vec::from_slice(alloc, EIGHT_TOLD.as_bytes())?;
    for output in &NUMBERS {
        for &(name, front, digits) in &REGISTERS {
            push_doubts(&mut text, output, name, front, digits)?;
        }
    }
    Ok(text)
}

#[test]
fn many_possible_words_are_reported(rt: HostRuntime) -> Result<(), Fail> {
    let text = doubts(rt.alloc())?;
    is_written(&rt, Engine::Replay, &text, (69, "ran 2256\n", VOUT_MIN_7));
    Ok(())
}
