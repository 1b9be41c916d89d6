//! The examples of the root of `pm_log`, word for word.

use crate::checks::equal;
use pm_host::{Job, Told};
use pm_lines::{Sink, Source, TextFault};
use pm_log::{Act, CheckFault, Claim, Lacks, check, check_log};
use pm_table::{Cell, Reg};
use std::alloc::Global;
use std::io::{Read, Write};

fn checked(answer: &[u8]) -> Result<(), CheckFault> {
    let cell = Cell::Out(0, Reg::VoutCommand);
    let request = [0xB0, 0x06, 0x02, 0x00, 0x21];
    let acts = [
        Act::Begun(Job::Check(cell)),
        Act::Sent(&request, Told::Got(answer)),
    ];
    check(0x58, 2, 2, &acts, &[Claim::Holds { cell, word: 0x34CD }]) // B1 02 CD 34 B9 proves it
}

fn text_checked<R: Read + Drop, W: Write + Drop>(
    alloc: Global,
    log: R,
    paper: W,
) -> Result<W, TextFault> {
    let mut sink = Sink::new(paper);
    check_log(alloc, &mut Source::new(log), &mut sink, &Lacks::nothing())?;
    Ok(sink.into_inner()) // accepted: 1 claim, 1 transfer
}

#[test]
fn the_example_of_a_check_runs(rt: HostRuntime) {
    equal(&rt, &checked(&[0xB1, 0x02, 0xCD, 0x34, 0xB9]), &Ok(()), &1);
}

#[test]
fn the_example_of_a_text_runs(rt: HostRuntime) {
    let log = b"#log 58 2 2\nB0 06 02 00 21 / B1 02 CD 34 B9\n#holds 0 VOUT_COMMAND 34CD\n";
    let alloc = rt.alloc();
    let text = match text_checked(alloc, log.as_slice(), Vec::new(alloc)) {
        Ok(text) => text,
        Err(_) => Vec::new(alloc),
    };
    compare! { &rt, 1; text.as_slice() => b"accepted: 1 claim, 1 transfer\n".as_slice() }
}
