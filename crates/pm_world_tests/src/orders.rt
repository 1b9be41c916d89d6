//! The world beside the order machine, which hears what each event is to it.

ghost use Rattle.std.specs.Prelude.{◌≡◌};

use crate::checks::{equal, is_true};
use crate::watch::ordered;
use crate::{ACKED, Look, NOT_ACKED, ORDER, READ, WHOLE};
use pm_core_tests::{CELLS, FIRST, SECOND, START};
use pm_model::{OrderMachine, PendingJob, Plain};
use pm_table::Cell;
use pm_world::{Arrival, Back, Event, SetupFault, World};
use std::process::Abort;

const CUT: Event = Event::Deliver(Arrival::Cut(5));

const CUT_READ: Event = Event::Exchange(Arrival::Cut(3), Back::Whole);

// What the order machine hears with an event.
#[derive(Clone, Copy)]
enum Told {
    Nothing,
    Accept(Cell, u16),
    Take,
    End,
    Back,
}

// The machine hears this; whether it could.
fn tell(machine: &mut OrderMachine, told: Told) -> bool {
    match told {
        Told::Nothing => true,
        Told::Take => {
            machine.take();
            machine.pending().is_some()
        }
        Told::End => {
            machine.end();
            true
        }
        Told::Back => {
            machine.back();
            true
        }
        Told::Accept(cell, word) => match machine.pending() {
            None if machine.has(cell) && cell.accepts(word) => {
                machine.accept(PendingJob::Order { cell, word });
                true
            }
            _ => false,
        },
    }
}

// The order machine at its start.
fn plain() -> OrderMachine {
    OrderMachine::new(Plain::new(2, [START; 8], 0x00))
}

fn agrees(rt: &impl Abort, world: &World, machine: &OrderMachine, at: usize) {
    for &cell in &CELLS {
        let held = world.word(cell);
        equal(rt, &held, &ordered(machine, cell), &(cell, at));
    }
}

// A world and the order machine, one event after another: each cell has the same word in both.
fn follow(rt: &impl Abort, rows: &[(Event, Told)]) -> Result<(), SetupFault> {
    let mut world = World::begin(World::base(), 2)?;
    let mut machine = plain();
    for (at, (event, told)) in rows.iter().enumerate() {
        is_true(rt, world.meets(event).is_ok(), &at);
        is_true(rt, tell(&mut machine, *told), &at);
        agrees(rt, &world, &machine, at);
    }
    Ok(())
}

const TAKEN: (Event, Told) = (ORDER, Told::Accept(FIRST, 0x34CD));

const RESTARTED: (Event, Told) = (Event::RestartDevice, Told::Back);

#[test]
fn an_order_takes_at_each_whole_delivery(rt: HostRuntime) -> Result<(), SetupFault> {
    let nothing = Told::Nothing;
    let second = (Event::Order(SECOND, 0x2000), Told::Accept(SECOND, 0x2000));
    let blocked = (Event::Order(SECOND, 0x34CD), Told::Accept(SECOND, 0x34CD));
    let micro = (
        Event::OrderMicro(FIRST, 2_000_000),
        Told::Accept(FIRST, 0x2000),
    );
    let protect = (
        Event::Order(Cell::Protect, 0x40),
        Told::Accept(Cell::Protect, 0x40),
    );
    #[rattlefmt::skip]
    let rows: [&[(Event, Told)]; 3] = [
        &[TAKEN, (WHOLE, Told::Take), (ACKED, nothing), (READ, Told::End), second, (CUT, nothing),
            (ACKED, nothing), (READ, nothing), (WHOLE, Told::Take), (WHOLE, Told::Take),
            (NOT_ACKED, nothing), (CUT_READ, Told::End)],
        // Start words come back, and the order goes on.
        &[TAKEN, (WHOLE, Told::Take), RESTARTED, (WHOLE, Told::Take),
            (Event::RestartHost, Told::End), (Event::Clear(1), nothing), (WHOLE, nothing),
            (ACKED, nothing), (Event::Learn(0), nothing), (READ, nothing), micro,
            (WHOLE, Told::Take), (ACKED, nothing), RESTARTED, (READ, nothing)],
        // A blocked order takes after a restart.
        &[protect, (WHOLE, Told::Take), (ACKED, nothing), (READ, Told::End), blocked,
            (WHOLE, nothing), (ACKED, nothing), (READ, nothing), RESTARTED, (WHOLE, Told::Take),
            (ACKED, nothing), (READ, Told::End)],
    ];
    for events in rows {
        follow(&rt, events)?;
    }
    Ok(())
}
