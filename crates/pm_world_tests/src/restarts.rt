//! Lists of events with a restart of either end at each place: what the world holds and says, beside a
//! plain program that looks on.

ghost use Rattle.std.specs.Prelude.{◌≡◌, ◌<◌};

use crate::checks::{equal, is_true};
use crate::watch::{Watch, are_ordered, happens, may_be};
use crate::{ACKED, CHECK, LOST, Look, NOT_ACKED, ORDER, READ, READ_LOST, WHOLE};
use pm_core_tests::{CELLS, FIRST, SECOND, START};
use pm_device::Ending;
use pm_frame::Frame;
use pm_host::Standing;
use pm_model::{OrderMachine, Plain};
use pm_table::Cell;
use pm_world::{Arrival, Event, SetupFault, World};
use std::process::Abort;

// The settings are those of the machine. A confirmed word is held, and the word that is held is possible, if
// the converter didn't restart since the last good answer. A restart is seen only if the converter restarted
// since the host's start. A word that wasn't possible is answered only if it did since a good answer for that
// cell. Of cells that were never read nothing is said.
fn agrees(rt: &impl Abort, world: &World, watch: &Watch, at: usize) {
    are_ordered(rt, world, &watch.machine, at);
    let [first, second] = watch.since_answer;
    for &cell in &CELLS {
        match cell {
            FIRST => is_known(rt, world, cell, first, at),
            SECOND => is_known(rt, world, cell, second, at),
            _ => is_unknown(rt, world, cell, at),
        }
    }
    let seen = world.sees_restart();
    is_true(rt, watch.since_start || !seen, &at);
    is_true(rt, watch.is_explained, &at);
}

// What is said of a cell is true if the converter didn't restart since the last good answer.
fn is_known(rt: &impl Abort, world: &World, cell: Cell, restarted: bool, at: usize) {
    let held = world.word(cell);
    let is_held = match world.says(cell) {
        Some(Standing::Confirmed(told)) => told == held,
        _ => true,
    };
    is_true(rt, restarted || is_held, &(cell, at));
    is_true(rt, restarted || may_be(world, cell, held), &(cell, at));
}

fn is_unknown(rt: &impl Abort, world: &World, cell: Cell, at: usize) {
    is_true(rt, world.may_hold(cell, &[]), &(cell, at));
    equal(rt, &world.says(cell), &Some(Standing::Unknown), &1);
}

// The events with one more before the one at this place, or after the last.
fn follow(rt: &impl Abort, events: &[Event], more: &Event, place: usize) -> Result<(), SetupFault> {
    let mut world = World::begin(World::base(), 2)?;
    let mut watch = Watch::new(open());
    for (at, event) in events.iter().enumerate() {
        if at == place {
            happens(&mut world, &mut watch, more);
            agrees(rt, &world, &watch, at);
        }
        happens(&mut world, &mut watch, event);
        agrees(rt, &world, &watch, at);
    }
    if place == events.len() {
        happens(&mut world, &mut watch, more);
        agrees(rt, &world, &watch, place);
    }
    Ok(())
}

fn follow_restarts(rt: &impl Abort, events: &[Event]) -> Result<(), SetupFault> {
    for place in 0..=events.len() {
        follow(rt, events, &Event::RestartDevice, place)?;
        follow(rt, events, &Event::RestartHost, place)?;
    }
    Ok(())
}

// Both answers of an order are lost; a lost write is acknowledged; and a restart is seen after that.
// The second cell was read before.
#[test]
fn a_restart_at_any_place_leaves_true_what_the_host_says(
    rt: HostRuntime,
) -> Result<(), SetupFault> {
    let second = Event::Check(SECOND);
    let answers_lost = [
        second, READ, CHECK, READ, ORDER, WHOLE, NOT_ACKED, READ_LOST, LOST, NOT_ACKED, READ_LOST,
    ];
    follow_restarts(&rt, &answers_lost)?;
    let second = Event::Check(SECOND);
    let falsely_acked = [
        second, READ, CHECK, READ, ORDER, LOST, ACKED, READ, WHOLE, ACKED, READ,
    ];
    follow_restarts(&rt, &falsely_acked)?;
    let second = Event::Check(SECOND);
    let again = Event::RestartDevice;
    let restart_seen = [
        second, READ, CHECK, READ, ORDER, LOST, ACKED, READ, WHOLE, ACKED, READ, again, CHECK, READ,
    ];
    follow_restarts(&rt, &restart_seen)
}

// After each number of events a run with this WRITE_PROTECT holds what the order machine does.
fn runs(
    rt: &impl Abort,
    protect: u16,
    machine: OrderMachine,
    events: &[Event],
) -> Result<(), SetupFault> {
    let mut world = World::begin(World::with_protect(protect), 2)?;
    let mut watch = Watch::new(machine);
    for (at, event) in events.iter().enumerate() {
        let (ran, _) = World::live(World::with_protect(protect), 2, &events[..at])?;
        are_ordered(rt, &ran, &watch.machine, at);
        happens(&mut world, &mut watch, event);
    }
    Ok(())
}

// The order machine of two outputs, while no write is blocked, and while those of a voltage are.
fn open() -> OrderMachine {
    OrderMachine::new(Plain::new(2, [START; 8], 0x00))
}

fn blocked() -> OrderMachine {
    OrderMachine::new(Plain::new(2, [START; 8], 0x40))
}

#[test]
fn a_run_holds_what_orders_alone_make(rt: HostRuntime) -> Result<(), SetupFault> {
    let answers_lost = [
        CHECK, READ, ORDER, WHOLE, NOT_ACKED, READ_LOST, LOST, NOT_ACKED, READ_LOST, CHECK,
    ];
    runs(&rt, 0x00, open(), &answers_lost)?;
    let restarted = Event::RestartDevice;
    let falsely_acked = [
        CHECK, READ, ORDER, LOST, ACKED, READ, WHOLE, ACKED, READ, restarted, CHECK, READ, CHECK,
    ];
    runs(&rt, 0x00, open(), &falsely_acked)?;
    let mut bytes = Frame::new();
    let row = [0xB0, 0x05, 0x04, 0x01, 0x21, 0xCD, 0x34, 0x4C];
    is_true(&rt, bytes.try_extend_from_slice(&row).is_ok(), &row);
    let other = Event::Deliver(Arrival::Bytes(bytes, Ending::Stop));
    runs(&rt, 0x00, open(), &[ORDER, other, ACKED, READ])?;
    // A run of a blocked order holds what orders make, too.
    let events = [ORDER, WHOLE, ACKED, READ, WHOLE, ACKED, READ, CHECK];
    runs(&rt, 0x40, blocked(), &events)?;
    Ok(())
}
