//! The examples of the roots of `pm_trace`, `pm_decode` and `pm_tool`, word for word.

use crate::checks::equal;
use crate::{blank_paper, in_pieces};
use pm_decode::{TellOptions, TimedLine, push_number_field, tell};
use pm_tool::{Sink, Source, TextFault, run};
use pm_trace::{Ones, Otherwise, Packet, other_value, push_known, push_otherwise};
use std::alloc::{AllocError, Global};
use std::io::{Read, Write};
use std::test::Fail;

fn input_faults(alloc: Global, byte: u8) -> Result<String, AllocError> {
    let mut text = String::new(alloc);
    push_known(&mut text, other_value(0x7C, &[byte]))?;
    Ok(text)
}

fn time_of(line: &[u8]) -> Option<u64> {
    let mut open = TimedLine::new(true);
    open.take_line(line);
    open.reading().time
}

fn bad_lines(alloc: Global, count: u64) -> Result<String, AllocError> {
    let mut text = String::new(alloc);
    push_number_field(&mut text, "bad", count)?;
    Ok(text)
}

fn told_by_bytes(alloc: Global, write: &[u8]) -> Result<String, AllocError> {
    let mut text = String::new(alloc);
    let otherwise = Otherwise {
        values: false,
        addr: 0x58,
        reached: None,
        ones: Ones::Answer,
    };
    push_otherwise(&mut text, &otherwise, &Packet { write, read: None })?;
    Ok(text)
}

fn told<R: Read + Drop, W: Write + Drop>(
    alloc: Global,
    trace: R,
    paper: W,
) -> Result<W, TextFault> {
    let options = TellOptions {
        values: true, // a voltage in volts, a status register bit by bit
        ..TellOptions::none()
    };
    let mut sink = Sink::new(paper);
    tell(alloc, &mut Source::new(trace), &mut sink, &options)?;
    Ok(sink.into_inner())
}

fn number<W: Write + Drop, E: Write + Drop>(alloc: Global, output: W, errors: E) -> (u8, W) {
    let words = ["pmb", "number", "--format=linear11", "--word=87FF"];
    let mut input = Source::new(b"".as_slice());
    let mut output = Sink::new(output);
    let mut errors = Sink::new(errors);
    let status = run(alloc, Ok(&words), &mut input, &mut output, &mut errors);
    (status, output.into_inner()) // word 87FF value -1/65536 micro -16
}

#[test]
fn the_examples_of_the_roots_run(rt: HostRuntime) -> Result<(), Fail> {
    let packet = told_by_bytes(rt.alloc(), &[0xB0, 0xFD, 0x01, 0x02])?;
    equal(&rt, &packet.as_str(), &"58 code FD write 01 02, no PEC", &1);
    let faults = input_faults(rt.alloc(), 0x10)?;
    equal(&rt, &faults.as_str(), &" VIN_UV_FAULT", &5);
    equal(&rt, &time_of(b"1250 B0 03 46"), &Some(1250), &6);
    let field = bad_lines(rt.alloc(), 0)?;
    equal(&rt, &field.as_str(), &",\"bad\":0", &7);

    let trace = b"B0 06 02 00 20 / B1 01 14 4E\nB0 05 04 00 21 CD 34 5A\n";
    let said =
        "1 58 page 0 VOUT_MODE read 14 ULINEAR16 -12\n2 58 page 0 VOUT_COMMAND write 34CD 3.300048 V\ncount VOUT_MODE 1\ncount VOUT_COMMAND 1\nlines 2 accepted 2 faults 0 bad 0\n";
    let paper = told(
        rt.alloc(),
        in_pieces(trace, 7),
        blank_paper(rt.alloc(), 4096),
    )?;
    equal(&rt, &paper.taken.as_slice(), &said.as_bytes(), &2);

    let (output, errors) = (blank_paper(rt.alloc(), 64), blank_paper(rt.alloc(), 64));
    let (status, paper) = number(rt.alloc(), output, errors);
    compare! { &rt;
        3, status => 0;
        4, paper.taken.as_slice() => b"word 87FF value -1/65536 micro -16\n".as_slice();
    }
    Ok(())
}
