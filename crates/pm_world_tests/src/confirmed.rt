//! What the host says of a cell after each event, and the word that the converter holds.

use crate::checks::{equal, is_true};
use crate::watch::takes;
use crate::{ACKED, CHECK, LOST, Look, NOT_ACKED, ORDER, READ, READ_LOST, WHOLE};
use pm_core_tests::{CELLS, FIRST, SECOND};
use pm_host::{JobEnd, Standing};
use pm_table::Cell;
use pm_world::{Event, SetupFault, World};
use std::process::Abort;

const UNKNOWN: Standing = Standing::Unknown;

const START: Standing = Standing::Confirmed(0x1000);

const ORDERED: Standing = Standing::Confirmed(0x34CD);

// An event; then how VOUT_COMMAND of the first output stands, the words that it may hold, any if none is
// given, the word that it holds, and whether the host saw a restart.
type Row = (Event, Standing, &'static [u16], u16, bool);

fn follow_one(rt: &impl Abort, world: &mut World, at: usize, row: &Row) {
    let (event, stands, words, held, seen) = row;
    equal(rt, &world.meets(event), &Ok(()), &at);
    equal(rt, &world.says(FIRST), &Some(*stands), &at);
    is_true(rt, world.may_hold(FIRST, words), &at);
    equal(rt, &world.word(FIRST), held, &at);
    equal(rt, &world.sees_restart(), seen, &at);
}

fn follow(rt: &impl Abort, world: &mut World, rows: &[Row]) {
    for (at, row) in rows.iter().enumerate() {
        follow_one(rt, world, at, row);
    }
}

// Both answers of an order are lost, and its second write.
fn answers_lost() -> [Row; 9] {
    [
        (CHECK, UNKNOWN, &[], 0x1000, false),
        (READ, START, &[0x1000], 0x1000, false),
        (ORDER, UNKNOWN, &[0x1000, 0x34CD], 0x1000, false),
        (WHOLE, UNKNOWN, &[0x1000, 0x34CD], 0x34CD, false),
        (NOT_ACKED, UNKNOWN, &[0x1000, 0x34CD], 0x34CD, false),
        (READ_LOST, UNKNOWN, &[0x1000, 0x34CD], 0x34CD, false),
        (LOST, UNKNOWN, &[0x1000, 0x34CD], 0x34CD, false),
        (NOT_ACKED, UNKNOWN, &[0x1000, 0x34CD], 0x34CD, false),
        (READ_LOST, UNKNOWN, &[0x1000, 0x34CD], 0x34CD, false),
    ]
}

// A lost write is acknowledged; its answer has the old word, and a second pass goes through. Then the
// converter restarts, which the next good answer shows.
fn falsely_acked() -> [Row; 12] {
    [
        (CHECK, UNKNOWN, &[], 0x1000, false),
        (READ, START, &[0x1000], 0x1000, false),
        (ORDER, UNKNOWN, &[0x1000, 0x34CD], 0x1000, false),
        (LOST, UNKNOWN, &[0x1000, 0x34CD], 0x1000, false),
        (ACKED, UNKNOWN, &[0x1000, 0x34CD], 0x1000, false),
        (READ, UNKNOWN, &[0x1000, 0x34CD], 0x1000, false),
        (WHOLE, UNKNOWN, &[0x1000, 0x34CD], 0x34CD, false),
        (ACKED, UNKNOWN, &[0x1000, 0x34CD], 0x34CD, false),
        (READ, ORDERED, &[0x34CD], 0x34CD, false),
        (Event::RestartDevice, ORDERED, &[0x34CD], 0x1000, false),
        (CHECK, ORDERED, &[0x34CD], 0x1000, false),
        (READ, START, &[0x1000], 0x1000, true),
    ]
}

// An order of another cell, and a check that nothing answers, change nothing; a host's restart drops
// all.
fn afterwards() -> [Row; 8] {
    [
        (Event::Order(SECOND, 0x2000), START, &[0x1000], 0x1000, true),
        (WHOLE, START, &[0x1000], 0x1000, true),
        (ACKED, START, &[0x1000], 0x1000, true),
        (READ, START, &[0x1000], 0x1000, true),
        (CHECK, START, &[0x1000], 0x1000, true),
        (READ_LOST, START, &[0x1000], 0x1000, true),
        (READ, START, &[0x1000], 0x1000, true),
        (Event::RestartHost, UNKNOWN, &[], 0x1000, false),
    ]
}

fn is_told(rt: &impl Abort, world: &World, cell: Cell, words: &[u16]) {
    is_true(rt, world.may_hold(cell, words), &cell);
}

#[test]
fn the_host_says_what_it_can_know(rt: HostRuntime) -> Result<(), SetupFault> {
    let mut lost = World::begin(World::base(), 2)?;
    follow(&rt, &mut lost, &answers_lost());
    let mut world = World::begin(World::base(), 2)?;
    follow(&rt, &mut world, &falsely_acked());
    for &cell in &CELLS {
        is_told(
            &rt,
            &world,
            cell,
            if cell == FIRST { &[0x1000] } else { &[] },
        );
    }
    follow(&rt, &mut world, &afterwards());
    Ok(())
}

// The first pass reads the old word, and nothing answers the second: the order's end is unknown.
const LAST_ANSWER_LOST: [Row; 7] = [
    (ORDER, UNKNOWN, &[], 0x1000, false),
    (LOST, UNKNOWN, &[], 0x1000, false),
    (ACKED, UNKNOWN, &[], 0x1000, false),
    (READ, UNKNOWN, &[0x1000, 0x34CD], 0x1000, false),
    (WHOLE, UNKNOWN, &[0x1000, 0x34CD], 0x34CD, false),
    (ACKED, UNKNOWN, &[0x1000, 0x34CD], 0x34CD, false),
    (READ_LOST, UNKNOWN, &[0x1000, 0x34CD], 0x34CD, false),
];

#[test]
fn an_order_differs_by_its_last_answer_alone(rt: HostRuntime) -> Result<(), SetupFault> {
    let mut world = World::begin(World::base(), 2)?;
    follow(&rt, &mut world, &LAST_ANSWER_LOST);
    equal(&rt, &world.ended(), &Some(JobEnd::Unknown), &1);
    Ok(())
}

// A word of each cell that isn't its start word.
const OTHERS: [u16; 13] = [
    0x40, 0x34CD, 0x5678, 0x1234, 0x0ABC, 0x0100, 0x94, 0x0FFF, 0x5679, 0x1235, 0x0ABD, 0x0101,
    0x20,
];

// Every cell has the word that it has now as a confirmed one, and the cell by which a restart was seen may
// hold only that word, each other any.
fn are_confirmed(rt: &impl Abort, world: &World, seen_by: Cell) {
    for &cell in &CELLS {
        let start = world.word(cell);
        let confirmed = Some(Standing::Confirmed(start));
        equal(rt, &world.says(cell), &confirmed, &(cell, seen_by));
        let words = [start];
        is_told(rt, world, cell, if cell == seen_by { &words } else { &[] });
    }
}

// Nothing is said of any cell.
fn are_unknown(rt: &impl Abort, world: &World) {
    for &cell in &CELLS {
        equal(rt, &world.says(cell), &Some(UNKNOWN), &cell);
        is_told(rt, world, cell, &[]);
    }
}

// A world in which each cell was confirmed, and then another word of one of them was.
fn confirmed(rt: &impl Abort, cell: Cell, other: u16) -> Result<World, SetupFault> {
    let mut world = World::begin(World::base(), 2)?;
    for &checked in &CELLS {
        takes(rt, &mut world, &[Event::Check(checked), READ]);
    }
    let order = Event::Order(cell, other);
    takes(rt, &mut world, &[order, WHOLE, ACKED, READ]);
    is_true(rt, !world.sees_restart(), &cell);
    Ok(world)
}

// A restart is still seen after a job.
fn is_seen_after(rt: &impl Abort, world: &mut World, events: &[Event]) {
    takes(rt, world, events);
    is_true(rt, world.sees_restart(), &events);
}

// A cell shows that the converter restarted.
fn shows(rt: &impl Abort, cell: Cell, other: u16) -> Result<(), SetupFault> {
    let mut world = confirmed(rt, cell, other)?;
    let check = Event::Check(cell);
    takes(rt, &mut world, &[Event::RestartDevice, check, READ]);
    are_confirmed(rt, &world, cell);
    is_seen_after(rt, &mut world, &[Event::Clear(0), ACKED]);
    is_seen_after(rt, &mut world, &[Event::Learn(1), READ]);
    is_seen_after(rt, &mut world, &[CHECK, READ]);
    takes(rt, &mut world, &[Event::RestartHost]);
    is_true(rt, !world.sees_restart(), &cell);
    are_unknown(rt, &world);
    Ok(())
}

// Each cell was confirmed; then one of them, whichever it is, shows that the converter restarted. The
// others stay confirmed, but may hold any word. No job but the host's own restart forgets what was seen.
#[test]
fn a_restart_that_is_seen_leaves_what_was_confirmed(rt: HostRuntime) -> Result<(), SetupFault> {
    equal(&rt, &CELLS.len(), &OTHERS.len(), &1);
    for (cell, other) in CELLS.into_iter().zip(OTHERS) {
        shows(&rt, cell, other)?;
    }
    Ok(())
}
