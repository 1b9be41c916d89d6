//! The converter by itself: what it answers to frames, and what it holds then.

ghost use Rattle.std.specs.Prelude.{◌≡◌, ◌<◌};

mod beside;
mod configurations;
mod example;
mod latches;
mod operation;
mod outputs;
mod refusals;
mod registers;
mod status_bits;
mod store;
mod writes;

use crate::checks::{equal, is_true};
use crate::device_frames::{base, frame, hear, made, page_of, reply, restart, status_cml, word};
use crate::fixtures::{BASE, CELLS, FIRST, OUTPUT, SECOND};
use pm_device::{Config, ConfigFault, Converter, DeviceFault, Ending, Heard, OutputStart};
use pm_frame::{Frame, FrameFault};
use pm_table::Coefficients;
use std::process::Abort;
use std::test::Fail;

// What is answered.
#[derive(Clone, Copy, Debug)]
enum Wanted<'a> {
    Silent,
    Taken,
    Refused(DeviceFault),
    Answer(&'a [u8]),
}

fn is_wanted(heard: &Heard, wanted: Wanted<'_>) -> bool {
    match (heard, wanted) {
        (Heard::Silent, Wanted::Silent) => true,
        (Heard::Taken, Wanted::Taken) => true,
        (Heard::Refused(fault), Wanted::Refused(other)) => *fault == other,
        (Heard::Answer(frame), Wanted::Answer(bytes)) => frame.as_slice() == bytes,
        _ => false,
    }
}

// A converter of the base configuration with this WRITE_PROTECT, with this many outputs, and one whose second
// output starts with this OPERATION.
fn with_protect(protect: u16) -> Result<Converter, ConfigFault> {
    made(Config { protect, ..BASE })
}

fn with_count(count: u8) -> Result<Converter, ConfigFault> {
    made(Config { count, ..BASE })
}

fn with_operation(operation: u16) -> Result<Converter, ConfigFault> {
    let mut starts = [OUTPUT; 8];
    starts[1] = with! { OutputStart, OUTPUT; operation };
    made(Config { starts, ..BASE })
}

// Hears bytes, which are answered as wanted, and beforehand by `reply` too.
fn hears(
    rt: &impl Abort,
    converter: &mut Converter,
    bytes: &[u8],
    ending: Ending,
    wanted: Wanted<'_>,
) {
    let told = reply(converter, bytes, ending);
    is_true(rt, is_wanted(&told, wanted), &(told, bytes));
    let heard = hear(converter, bytes, ending);
    is_true(rt, is_wanted(&heard, wanted), &(heard, bytes));
}

// Hears a row: a write, "B0 21 CD 34 38", a request with its answer, "B0 79 / B1 01 80 48", or either
// that is refused, a request then as "B0 03 /".
fn hears_row(rt: &impl Abort, converter: &mut Converter, row: &str, fault: Option<DeviceFault>) {
    let (bytes, ending, answer) = match row.split_once('/') {
        Some((request, answer)) => (frame(rt, request), Ending::Restart, frame(rt, answer)),
        None => (frame(rt, row), Ending::Stop, Frame::new()),
    };
    let wanted = match fault {
        Some(fault) => Wanted::Refused(fault),
        None if ending == Ending::Stop => Wanted::Taken,
        None => Wanted::Answer(answer.as_slice()),
    };
    hears(rt, converter, bytes.as_slice(), ending, wanted);
}

// Hears rows of which none is refused.
fn hears_rows(rt: &impl Abort, converter: &mut Converter, rows: &[&str]) {
    for row in rows {
        hears_row(rt, converter, row, None);
    }
}

// STATUS_WORD and STATUS_VOUT of an output; STATUS_BYTE is the low byte of the first.
fn status(rt: &impl Abort, converter: &Converter, output: u8) -> (u16, u8) {
    if output >= converter.count() {
        return (0, 0);
    }
    let whole = converter.status_word(output);
    compare! { rt, 1; u16::from(converter.status_byte(output)) => (whole % 256) }
    (whole, converter.status_vout(output))
}

// The numerator and the denominator of what an output commands; zeros if there is no such output.
fn commanded(converter: &Converter, output: u8) -> (i128, i128) {
    if output >= converter.count() {
        return (0, 0);
    }
    let volts = converter.commanded(output);
    (volts.num(), volts.den())
}

// Writes that a converter of its own takes, then VOUT_COMMAND of both outputs and PAGE.
#[rattlefmt::skip]
static WRITES: [(&[&str], [u16; 2], u8); 5] = [
    (&["B0 05 04 00 21 CD 34 5A"], [0x34CD, 0x1000], 0),
    (&["B0 05 04 01 21 CD 34 4C"], [0x1000, 0x34CD], 0),
    (&["B0 21 CD 34 38"], [0x34CD, 0x1000], 0),
    (&["B0 00 01 ED", "B0 21 CD 34 38"], [0x1000, 0x34CD], 1),
    (&["B0 00 01 ED", "B0 05 04 00 21 CD 34 5A"], [0x34CD, 0x1000], 1),
];

// Each cell has its start word, and VOUT_COMMAND of both outputs these.
fn holds(rt: &impl Abort, converter: &Converter, words: [u16; 2]) -> Result<(), ConfigFault> {
    let started = base()?;
    let [first, second] = words;
    for &cell in &CELLS {
        let wanted = match cell {
            FIRST => first,
            SECOND => second,
            _ => word(&started, cell),
        };
        equal(rt, &word(converter, cell), &wanted, &cell);
    }
    Ok(())
}

// Writes leave every other cell; after a restart a plain write acts on output 0 again.
fn act(rt: &impl Abort, rows: &[&str], words: [u16; 2], page: u8) -> Result<(), ConfigFault> {
    let mut converter = base()?;
    hears_rows(rt, &mut converter, rows);
    holds(rt, &converter, words)?;
    equal(rt, &page_of(&converter), &page, &rows);
    restart(&mut converter);
    hears_rows(rt, &mut converter, &["B0 21 CD 34 38"]);
    holds(rt, &converter, [0x34CD, 0x1000])
}

#[test]
fn writes_act_on_the_output_that_they_name(rt: HostRuntime) -> Result<(), Fail> {
    for &(rows, words, page) in &WRITES {
        act(&rt, rows, words, page)?;
    }
    Ok(())
}

// A cut write is refused at the place at which it ends; no bytes at all aren't heard.
fn is_short(rt: &impl Abort, cut: &[u8]) -> Result<(), ConfigFault> {
    let mut converter = base()?;
    let short = DeviceFault::Frame(FrameFault::Short(cut.len()));
    let (wanted, cml) = match cut.len() {
        0 => (Wanted::Silent, 0x00),
        _ => (Wanted::Refused(short), 0x02),
    };
    hears(rt, &mut converter, cut, Ending::Stop, wanted);
    equal(rt, &word(&converter, FIRST), &0x1000, &1);
    equal(rt, &status_cml(&converter), &cml, &cut);
    Ok(())
}

#[test]
fn a_cut_frame_is_refused_where_it_ends(rt: HostRuntime) -> Result<(), Fail> {
    let whole = frame(&rt, "B0 05 04 00 21 CD 34 5A");
    for end in 0..whole.as_slice().len() {
        is_short(&rt, &whole.as_slice()[..end])?;
    }
    Ok(())
}

// WRITE_PROTECT is raised and lowered; what was blocked before goes through, and margins are selected.
#[test]
fn write_protect_is_always_written(rt: HostRuntime) -> Result<(), Fail> {
    let mut converter = base()?;
    let order = "B0 05 04 00 21 CD 34 5A";
    let protected = Some(DeviceFault::Protected);
    hears_rows(&rt, &mut converter, &["B0 10 80 34"]);
    hears_row(&rt, &mut converter, order, protected);
    hears_rows(
        &rt,
        &mut converter,
        &["B0 7E / B1 80 00", "B0 10 20 5D", order],
    );
    hears_row(&rt, &mut converter, "B0 05 04 00 24 00 50 A5", protected);
    hears_rows(
        &rt,
        &mut converter,
        &["B0 10 40 7A", "B0 05 03 01 01 A8 B1"],
    );
    equal(&rt, &commanded(&converter, 0), &(13517, 4096), &1);
    equal(&rt, &commanded(&converter, 1), &(4352, 4096), &2);
    Ok(())
}

// What both outputs show if the second starts with this OPERATION.
fn shows(rt: &impl Abort, operation: u16) -> Result<[(u16, u8); 2], ConfigFault> {
    let converter = with_operation(operation)?;
    Ok([status(rt, &converter, 0), status(rt, &converter, 1)])
}

// An output that is off isn't power good, and only its OPERATION decides that.
#[test]
fn an_output_that_is_off_shows_it(rt: HostRuntime) -> Result<(), Fail> {
    for operation in [0x80, 0xA8, 0x94] {
        compare! { &rt, 1; shows(&rt, operation)? => [(0x0000, 0x00), (0x0000, 0x00)] }
    }
    for operation in [0x00, 0x28, 0x40] {
        compare! { &rt, 2; shows(&rt, operation)? => [(0x0000, 0x00), (0x0840, 0x00)] }
    }
    Ok(())
}

// DIRECT with a slope of -1: the greater word is the lower value.
fn falling() -> Result<Converter, ConfigFault> {
    let start = with! { OutputStart, OUTPUT; mode: 0x40, command: 0x03E8, max: 0x0BB8 };
    made(with! { Config, BASE;
        count: 1, starts: [start; 8], coefficients: Coefficients { m: -1, b: 5, r: 3 } })
}

#[test]
fn the_voltage_is_cut_by_value(rt: HostRuntime) -> Result<(), Fail> {
    let mut converter = falling()?;
    equal(&rt, &commanded(&converter, 0), &(2000, 1000), &1);
    equal(&rt, &status(&rt, &converter, 0), &(0x8001, 0x08), &2);
    // m is FFFFh, b 0005h, and R 03h.
    let coefficients = "B0 30 02 21 00 / B1 05 FF FF 05 00 03 21";
    hears_rows(&rt, &mut converter, &[coefficients]);
    Ok(())
}
