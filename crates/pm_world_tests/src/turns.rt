//! The frame that the host sends at each turn of each job, and how each job ends.

mod eight;
mod whole;

use crate::checks::{equal, is_true};
use crate::fixtures::{after, sends, takes};
use crate::look::Look;
use crate::{ACKED, CHECK, LOST, NOT_ACKED, ORDER, READ, READ_LOST, WHOLE};
use pm_core_tests::{FIRST, OUTPUT, SECOND};
use pm_device::{Config, OutputStart};
use pm_host::{JobEnd, Standing, Turn};
use pm_table::{Cell, Coefficients, Reg};
use pm_world::{Event, SetupFault, World};
use std::process::Abort;

const DIRECT: OutputStart = with! { OutputStart, OUTPUT; mode: 0x40 };

// The first output is ULINEAR16 with N = -12, the second DIRECT, in millivolts.
const MIXED: Config = Config {
    addr: 0x58,
    count: 2,
    starts: [
        OUTPUT, DIRECT, OUTPUT, OUTPUT, OUTPUT, OUTPUT, OUTPUT, OUTPUT,
    ],
    protect: 0x00,
    coefficients: Coefficients { m: 1, b: 0, r: 3 },
};

fn mixed() -> Config {
    MIXED
}

const PASSES: u8 = 3;

// The word of each cell that is ordered, the write and the request.
#[rattlefmt::skip]
static ORDERS: [(Cell, u16, &str, &str); 13] = [
    (Cell::Out(0, Reg::Operation), 0x94, "B0 05 03 00 01 94 6E", "B0 06 02 00 01"),
    (Cell::Out(0, Reg::VoutCommand), 0x34CD, "B0 05 04 00 21 CD 34 5A", "B0 06 02 00 21"),
    (Cell::Out(0, Reg::VoutMax), 0x5678, "B0 05 04 00 24 78 56 BD", "B0 06 02 00 24"),
    (Cell::Out(0, Reg::MarginHigh), 0x1234, "B0 05 04 00 25 34 12 AA", "B0 06 02 00 25"),
    (Cell::Out(0, Reg::MarginLow), 0x0ABC, "B0 05 04 00 26 BC 0A 41", "B0 06 02 00 26"),
    (Cell::Out(0, Reg::VoutMin), 0x0123, "B0 05 04 00 2B 23 01 C3", "B0 06 02 00 2B"),
    (Cell::Out(1, Reg::Operation), 0x94, "B0 05 03 01 01 94 05", "B0 06 02 01 01"),
    (Cell::Out(1, Reg::VoutCommand), 0x34CD, "B0 05 04 01 21 CD 34 4C", "B0 06 02 01 21"),
    (Cell::Out(1, Reg::VoutMax), 0x5678, "B0 05 04 01 24 78 56 AB", "B0 06 02 01 24"),
    (Cell::Out(1, Reg::MarginHigh), 0x1234, "B0 05 04 01 25 34 12 BC", "B0 06 02 01 25"),
    (Cell::Out(1, Reg::MarginLow), 0x0ABC, "B0 05 04 01 26 BC 0A 57", "B0 06 02 01 26"),
    (Cell::Out(1, Reg::VoutMin), 0x0123, "B0 05 04 01 2B 23 01 D5", "B0 06 02 01 2B"),
    (Cell::Protect, 0x40, "B0 10 40 7A", "B0 10"),
];

// An event is taken, and what the host sends then.
fn goes(rt: &impl Abort, world: &mut World, event: &Event, text: &str) {
    equal(rt, &world.meets(event), &Ok(()), &event);
    is_true(rt, sends(rt, world, text), &(event, text));
}

fn is_ordered_in_vain(
    rt: &impl Abort,
    world: &mut World,
    order: &Event,
    write: &str,
    request: &str,
) {
    goes(rt, world, order, write);
    for next in [write, write, ""] {
        goes(rt, world, &NOT_ACKED, request);
        goes(rt, world, &READ_LOST, next);
    }
    equal(rt, &world.ended(), &Some(JobEnd::Unknown), &1);
}

fn is_checked_in_vain(rt: &impl Abort, world: &mut World, check: &Event, request: &str) {
    goes(rt, world, check, request);
    equal(rt, &world.ended(), &None, &1);
    for next in [request, request, ""] {
        goes(rt, world, &READ_LOST, next);
    }
    equal(rt, &world.ended(), &Some(JobEnd::Unknown), &2);
}

// Each pass of an order writes once and reads once, each try of a check reads once, all in vain; the host
// has started again before.
#[test]
fn orders_and_checks_send_the_same_frames_in_each_pass(rt: HostRuntime) -> Result<(), SetupFault> {
    let mut world = World::begin(mixed(), PASSES)?;
    goes(&rt, &mut world, &Event::RestartHost, "");
    for (cell, word, write, request) in &ORDERS {
        is_ordered_in_vain(&rt, &mut world, &Event::Order(*cell, *word), write, request);
        is_checked_in_vain(&rt, &mut world, &Event::Check(*cell), request);
    }
    Ok(())
}

// Delivered and read back, what was ordered is confirmed.
fn is_confirmed(
    rt: &impl Abort,
    cell: Cell,
    word: u16,
    write: &str,
    request: &str,
) -> Result<(), SetupFault> {
    let mut world = World::begin(mixed(), PASSES)?;
    goes(rt, &mut world, &Event::Order(cell, word), write);
    goes(rt, &mut world, &WHOLE, write);
    goes(rt, &mut world, &ACKED, request);
    goes(rt, &mut world, &READ, "");
    equal(rt, &world.ended(), &Some(JobEnd::Done), &1);
    equal(rt, &world.says(cell), &Some(Standing::Confirmed(word)), &2);
    Ok(())
}

// A clear in vain, and one whose second frame is acknowledged.
fn is_cleared(rt: &impl Abort, world: &mut World, clear: &Event, frame: &str) {
    goes(rt, world, clear, frame);
    for next in [frame, frame, ""] {
        goes(rt, world, &NOT_ACKED, next);
    }
    equal(rt, &world.ended(), &Some(JobEnd::Unknown), &1);
    goes(rt, world, clear, frame);
    goes(rt, world, &NOT_ACKED, frame);
    goes(rt, world, &ACKED, "");
    equal(rt, &world.ended(), &Some(JobEnd::Done), &2);
}

#[test]
fn each_cell_is_ordered_and_confirmed_and_each_output_is_cleared(
    rt: HostRuntime,
) -> Result<(), SetupFault> {
    // Each cell is ordered and confirmed.
    for (cell, word, write, request) in &ORDERS {
        is_confirmed(&rt, *cell, *word, write, request)?;
    }
    // A clear sends CLEAR_FAULTS until it is acknowledged.
    let mut world = World::begin(mixed(), PASSES)?;
    is_cleared(&rt, &mut world, &Event::Clear(0), "B0 05 02 00 03 50");
    is_cleared(&rt, &mut world, &Event::Clear(1), "B0 05 02 01 03 45");
    Ok(())
}

// VOUT_MODE of both outputs, and the coefficients of VOUT_COMMAND.
const MODE_0: &str = "B0 06 02 00 20";

const MODE_1: &str = "B0 06 02 01 20";

const COEFFICIENTS: &str = "B0 30 02 21 00";

// Each of a learn's two reads has tries of its own; a learn that fails leaves the format from before.
#[test]
fn a_learn_reads_the_mode_and_then_the_coefficients(rt: HostRuntime) -> Result<(), SetupFault> {
    let mut world = World::begin(mixed(), PASSES)?;
    let learn = Event::Learn(1);
    goes(&rt, &mut world, &learn, MODE_1);
    for next in [MODE_1, MODE_1] {
        goes(&rt, &mut world, &READ_LOST, next);
    }
    goes(&rt, &mut world, &READ, COEFFICIENTS);
    for next in [COEFFICIENTS, COEFFICIENTS] {
        goes(&rt, &mut world, &READ_LOST, next);
    }
    goes(&rt, &mut world, &READ, "");
    equal(&rt, &world.ended(), &Some(JobEnd::Learned), &1);
    goes(&rt, &mut world, &learn, MODE_1);
    for next in [MODE_1, MODE_1, ""] {
        goes(&rt, &mut world, &READ_LOST, next);
    }
    equal(&rt, &world.ended(), &Some(JobEnd::Unknown), &2);
    goes(&rt, &mut world, &learn, MODE_1);
    goes(&rt, &mut world, &READ, COEFFICIENTS);
    for next in [COEFFICIENTS, COEFFICIENTS, ""] {
        goes(&rt, &mut world, &READ_LOST, next);
    }
    equal(&rt, &world.ended(), &Some(JobEnd::Unknown), &3);
    // 3.3 V, as 3300 millivolts.
    let micro = Event::OrderMicro(SECOND, 3_300_000);
    goes(&rt, &mut world, &micro, "B0 05 04 01 21 E4 0C F7");
    Ok(())
}

// A format is that of the output that was learned: 3.3 V as 3300 millivolts or as 13517/4096.
#[test]
fn each_output_is_learned_by_itself(rt: HostRuntime) -> Result<(), SetupFault> {
    let mut world = World::begin(mixed(), PASSES)?;
    goes(&rt, &mut world, &Event::Learn(0), MODE_0);
    goes(&rt, &mut world, &READ, "");
    equal(&rt, &world.ended(), &Some(JobEnd::Learned), &1);
    let second = Event::OrderMicro(SECOND, 3_300_000);
    is_true(&rt, world.meets(&second).is_err(), &2);
    goes(&rt, &mut world, &Event::Learn(1), MODE_1);
    goes(&rt, &mut world, &READ, COEFFICIENTS);
    goes(&rt, &mut world, &READ, "");
    let first = Event::OrderMicro(FIRST, 3_300_000);
    goes(&rt, &mut world, &first, "B0 05 04 00 21 CD 34 5A");
    takes(&rt, &mut world, &[WHOLE, ACKED, READ]);
    goes(&rt, &mut world, &second, "B0 05 04 01 21 E4 0C F7");
    Ok(())
}

// After these events this request is sent, whose answer has so many bytes.
fn is_asked(
    rt: &impl Abort,
    events: &[Event],
    request: &str,
    wanted: usize,
) -> Result<(), SetupFault> {
    let world = after(rt, mixed(), PASSES, events)?;
    is_true(rt, sends(rt, &world, request), &request);
    let turn = world.host().turn();
    let is_so = matches!(turn, Turn::Request { bytes, .. } if bytes == wanted);
    is_true(rt, is_so, &request);
    Ok(())
}

#[test]
fn a_request_says_how_many_bytes_its_answer_has(rt: HostRuntime) -> Result<(), SetupFault> {
    let operation = Event::Check(Cell::Out(0, Reg::Operation));
    is_asked(&rt, &[Event::Check(Cell::Protect)], "B0 10", 3)?;
    is_asked(&rt, &[operation], "B0 06 02 00 01", 4)?;
    is_asked(&rt, &[CHECK], "B0 06 02 00 21", 5)?;
    is_asked(&rt, &[Event::Learn(1)], MODE_1, 4)?;
    is_asked(&rt, &[Event::Learn(1), READ], COEFFICIENTS, 8)
}

fn has_end(
    rt: &impl Abort,
    events: &[Event],
    end: Option<JobEnd>,
    stands: Standing,
) -> Result<(), SetupFault> {
    let world = after(rt, World::base(), 1, events)?;
    equal(rt, &world.ended(), &end, &events);
    equal(rt, &world.says(FIRST), &Some(stands), &events);
    Ok(())
}

const UNKNOWN: Standing = Standing::Unknown;

const START: Standing = Standing::Confirmed(0x1000);

const DIFFERS: Option<JobEnd> = Some(JobEnd::Differs(0x1000));

// What ends a job: the end that a run shows, and how the cell stands then.
#[test]
fn each_job_has_its_ends(rt: HostRuntime) -> Result<(), SetupFault> {
    has_end(&rt, &[], None, UNKNOWN)?;
    has_end(&rt, &[CHECK], None, UNKNOWN)?;
    has_end(&rt, &[CHECK, READ], Some(JobEnd::Done), START)?;
    has_end(&rt, &[CHECK, READ_LOST], Some(JobEnd::Unknown), UNKNOWN)?;
    has_end(&rt, &[CHECK, READ, Event::RestartHost], None, UNKNOWN)?;
    has_end(&rt, &[ORDER, LOST, ACKED, READ], DIFFERS, START)?;
    let lost = [ORDER, LOST, ACKED, READ_LOST];
    has_end(&rt, &lost, Some(JobEnd::Unknown), UNKNOWN)?;
    let learn = [Event::Learn(0), READ];
    has_end(&rt, &learn, Some(JobEnd::Learned), UNKNOWN)?;
    let clear = [Event::Clear(0), ACKED];
    has_end(&rt, &clear, Some(JobEnd::Done), UNKNOWN)
}
