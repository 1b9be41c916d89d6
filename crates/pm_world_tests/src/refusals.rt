//! Which of the host's refusals comes first, if a call can have two.

use crate::checks::equal;
use crate::fixtures::{after, takes};
use crate::look::Look;
use crate::{ACKED, CHECK, NOT_ACKED, READ, READ_LOST};
use pm_core_tests::{FIRST, SECOND};
use pm_host::HostFault;
use pm_host::HostFault::{
    BadWord as H5, Busy as H3, FormatUnknown as H7, TooUncertain as H6, UnknownOutput as H4,
};
use pm_num::NumFault;
use pm_table::{Cell, Reg};
use pm_world::Event::{Check, Clear, Learn, Order, OrderMicro};
use pm_world::{Cause, Event, SetupFault, World};
use std::process::Abort;

const N3: HostFault = HostFault::Num(NumFault::BelowLeast);

const N4: HostFault = HostFault::Num(NumFault::AboveGreatest);

const N5: HostFault = HostFault::Num(NumFault::TooLarge);

const OPERATION: Cell = Cell::Out(0, Reg::Operation);

// Cells of an output that isn't there.
const NO_OPERATION: Cell = Cell::Out(2, Reg::Operation);

const NO_COMMAND: Cell = Cell::Out(2, Reg::VoutCommand);

// One microvolt more than 10^15 in size.
const FAR: i64 = 1_000_000_000_000_001;

type Row = (Event, HostFault);

// While no job is open and no format was learned.
#[rattlefmt::skip]
const IDLE: [Row; 22] = [
    (Order(NO_COMMAND, 0x1000), H4), (Order(NO_OPERATION, 0xB0), H4),
    (Order(Cell::Out(255, Reg::MarginLow), 0), H4),
    (Order(OPERATION, 0xB0), H5), (Order(OPERATION, 0x180), H5),
    (Order(Cell::Out(1, Reg::Operation), 0xFF), H5),
    (Order(Cell::Protect, 0x60), H5), (Order(Cell::Protect, 0x140), H5),
    (OrderMicro(NO_COMMAND, 0), H4), (OrderMicro(NO_COMMAND, FAR), H4),
    (OrderMicro(NO_OPERATION, 0), H4), (OrderMicro(OPERATION, 0), H5),
    (OrderMicro(OPERATION, FAR), H5), (OrderMicro(Cell::Protect, 0), H5),
    (OrderMicro(FIRST, 3_300_000), H7), (OrderMicro(FIRST, -1), H7),
    (OrderMicro(FIRST, FAR), H7), (Check(NO_COMMAND), H4), (Learn(2), H4),
    (Learn(255), H4), (Clear(2), H4), (Clear(255), H4),
];

// While no job is open and the format of output 0 is known, ULINEAR16 with N = -12.
#[rattlefmt::skip]
const LEARNED: [Row; 14] = [
    (OrderMicro(FIRST, -1), N3),
    (OrderMicro(FIRST, -1_000_000_000_000_000), N3),
    (OrderMicro(FIRST, -FAR), N5), (OrderMicro(FIRST, i64::MIN), N5),
    (OrderMicro(FIRST, 16_000_000), N4),
    (OrderMicro(FIRST, 1_000_000_000_000_000), N4),
    (OrderMicro(FIRST, FAR), N5), (OrderMicro(FIRST, i64::MAX), N5),
    (OrderMicro(SECOND, 3_300_000), H7), (OrderMicro(NO_COMMAND, 3_300_000), H4),
    (OrderMicro(OPERATION, FAR), H5), (OrderMicro(OPERATION, -1), H5),
    (OrderMicro(OPERATION, 16_000_000), H5), (OrderMicro(Cell::Protect, 0), H5),
];

// While a check is open, and nothing is known.
#[rattlefmt::skip]
const BUSY: [Row; 16] = [
    (Order(SECOND, 0x1000), H3), (Order(NO_COMMAND, 0x1000), H3),
    (Order(OPERATION, 0xB0), H3), (Order(Cell::Protect, 0x60), H3),
    (OrderMicro(FIRST, 3_300_000), H3), (OrderMicro(NO_COMMAND, 0), H3),
    (OrderMicro(OPERATION, 0), H3), (OrderMicro(Cell::Protect, 0), H3),
    (Check(FIRST), H3), (Check(Cell::Protect), H3), (Check(NO_COMMAND), H3),
    (Learn(0), H3), (Learn(2), H3), (Clear(0), H3), (Clear(2), H3),
    (Clear(255), H3),
];

// While output 0's VOUT_COMMAND may hold 16 words, and its format is known; then in a check too, and
// while the format isn't known.
const FULL: [Row; 5] = [
    (Order(FIRST, 0x2010), H6),
    (OrderMicro(FIRST, 3_300_000), H6),
    (OrderMicro(FIRST, -1), N3),
    (OrderMicro(FIRST, 16_000_000), N4),
    (OrderMicro(FIRST, FAR), N5),
];

const FULL_AND_BUSY: [Row; 5] = [
    (Order(FIRST, 0x2010), H3),
    (OrderMicro(FIRST, 3_300_000), H3),
    (OrderMicro(FIRST, -1), H3),
    (OrderMicro(FIRST, 16_000_000), H3),
    (OrderMicro(FIRST, FAR), H3),
];

const FULL_UNLEARNED: [Row; 2] = [
    (Order(FIRST, 0x2010), H6),
    (OrderMicro(FIRST, 3_300_000), H7),
];

// While output 0's OPERATION may hold 16 words.
const FULL_OPERATION: [Row; 4] = [
    (Order(OPERATION, 0x4F), H6),
    (Order(OPERATION, 0xB0), H5),
    (OrderMicro(OPERATION, 0), H5),
    (OrderMicro(OPERATION, FAR), H5),
];

fn refuses(rt: &impl Abort, world: &mut World, rows: &[Row]) {
    for (event, fault) in rows {
        let refused = Err(Cause::Host(*fault));
        equal(rt, &world.meets(event), &refused, &event);
    }
}

// Reads a cell, then orders these words of it one after another, each without an answer, in a world
// of one pass.
fn fill(rt: &impl Abort, world: &mut World, cell: Cell, words: [u16; 15]) {
    takes(rt, world, &[Check(cell), READ]);
    for word in words {
        let order = Order(cell, word);
        takes(rt, world, &[order, NOT_ACKED, READ_LOST]);
    }
}

const WORDS: [u16; 15] = [
    0x2001, 0x2002, 0x2003, 0x2004, 0x2005, 0x2006, 0x2007, 0x2008, 0x2009, 0x200A, 0x200B, 0x200C,
    0x200D, 0x200E, 0x200F,
];

const SOFT_OFF: [u16; 15] = [
    0x40, 0x41, 0x42, 0x43, 0x44, 0x45, 0x46, 0x47, 0x48, 0x49, 0x4A, 0x4B, 0x4C, 0x4D, 0x4E,
];

#[test]
fn each_refusal_comes_before_those_after_it(rt: HostRuntime) -> Result<(), SetupFault> {
    let mut idle = World::begin(World::base(), 2)?;
    refuses(&rt, &mut idle, &IDLE);
    takes(&rt, &mut idle, &[CHECK]);
    refuses(&rt, &mut idle, &BUSY);
    let mut learned = after(&rt, World::base(), 2, &[Learn(0), READ])?;
    refuses(&rt, &mut learned, &LEARNED);
    Ok(())
}

#[test]
fn a_full_list_is_refused_before_what_comes_after_it(rt: HostRuntime) -> Result<(), SetupFault> {
    let mut full = after(&rt, World::base(), 1, &[Learn(0), READ])?;
    fill(&rt, &mut full, FIRST, WORDS);
    refuses(&rt, &mut full, &FULL);
    takes(&rt, &mut full, &[CHECK]);
    refuses(&rt, &mut full, &FULL_AND_BUSY);
    let mut unlearned = World::begin(World::base(), 1)?;
    fill(&rt, &mut unlearned, FIRST, WORDS);
    refuses(&rt, &mut unlearned, &FULL_UNLEARNED);
    let mut operation = World::begin(World::base(), 1)?;
    fill(&rt, &mut operation, OPERATION, SOFT_OFF);
    refuses(&rt, &mut operation, &FULL_OPERATION);
    Ok(())
}

// Any of the 16 words is accepted again, also in microvolts, and any word of another cell.
#[test]
fn a_word_that_is_possible_is_accepted(rt: HostRuntime) -> Result<(), SetupFault> {
    let mut world = after(&rt, World::base(), 1, &[Learn(0), READ])?;
    fill(&rt, &mut world, FIRST, WORDS);
    for word in [0x1000].into_iter().chain(WORDS) {
        let order = Order(FIRST, word);
        takes(&rt, &mut world, &[order, NOT_ACKED, READ_LOST]);
    }
    let micro = OrderMicro(FIRST, 1_000_000);
    takes(&rt, &mut world, &[micro, NOT_ACKED, READ_LOST]);
    takes(&rt, &mut world, &[Order(SECOND, 0x2010), ACKED, READ_LOST]);
    refuses(&rt, &mut world, &FULL);
    Ok(())
}
