//! A plain program that looks on while a world's events happen: the order machine, and when the converter
//! restarted.

ghost use Rattle.std.specs.Prelude.{◌≡◌, ◌<◌};

use crate::Look;
use crate::checks::equal;
use pm_core_tests::{CELLS, FIRST, SECOND};
use pm_device::{Ending, Heard};
use pm_model::{OrderMachine, PendingJob};
use pm_table::Cell;
use pm_world::{Arrival, Back, Event, World};
use std::process::Abort;

/// What is seen from outside: the settings and the store under nothing but jobs, whether the converter restarted
/// since the last good answer for VOUT_COMMAND of either output, and whether it did since the host's start; which
/// of the two had a good answer since then; and whether each good answer with a word that wasn't possible came
/// after another one and a restart since that one.
#[derive(Drop)]
pub(crate) struct Watch {
    pub(crate) machine: OrderMachine,
    pub(crate) since_answer: [bool; 2],
    pub(crate) since_start: bool,
    was_read: [bool; 2],
    pub(crate) is_explained: bool,
}

impl Watch {
    /// At the start.
    pub(crate) fn new(machine: OrderMachine) -> Watch {
        Watch {
            machine,
            since_answer: [true; 2],
            since_start: false,
            was_read: [false; 2],
            is_explained: true,
        }
    }

    // A job was accepted.
    fn accepts(&mut self, job: PendingJob) {
        match (self.machine.pending(), job) {
            (None, PendingJob::Order { cell, word })
                if self.machine.has(cell) && cell.accepts(word) => { self.machine.accept(job) }
            (None, PendingJob::Store | PendingJob::Restore) => self.machine.accept(job),
            _ => {}
        }
    }

    // The converter took a write, a read was answered, either end restarted, or a job ended.
    fn sees(&mut self, event: &Event, is_taken: bool, read: Option<bool>, has_ended: bool) {
        if is_taken {
            self.machine.take();
        }
        match read {
            Some(true) => {
                self.since_answer[1] = false;
                self.was_read[1] = true;
            }
            Some(false) => {
                self.since_answer[0] = false;
                self.was_read[0] = true;
            }
            None => {}
        }
        match event {
            Event::Order(cell, word) => self.accepts(PendingJob::Order {
                cell: *cell,
                word: *word,
            }),
            Event::Store => self.accepts(PendingJob::Store),
            Event::Restore => self.accepts(PendingJob::Restore),
            Event::RestartDevice => {
                self.machine.back();
                self.since_answer = [true; 2];
                self.since_start = true;
            }
            Event::RestartHost => {
                self.machine.end();
                self.since_start = false;
                self.was_read = [false; 2];
            }
            _ => {}
        }
        if has_ended {
            self.machine.end();
        }
    }
}

// Whether the write that is sent would be taken, heard whole.
fn would_take(world: &World) -> bool {
    match world.host().sending() {
        Some(sent) => matches!(world.replies(sent.as_slice(), Ending::Stop), Heard::Taken),
        None => false,
    }
}

// Which VOUT_COMMAND is read by the request that is sent: whether the second one.
fn reads(world: &World) -> Option<bool> {
    if world.is_sending(&[0xB0, 0x06, 0x02, 0x00, 0x21]) {
        Some(false)
    } else if world.is_sending(&[0xB0, 0x06, 0x02, 0x01, 0x21]) {
        Some(true)
    } else {
        None
    }
}

/// Whether the host says that the cell may hold the word.
pub(crate) fn may_be(world: &World, cell: Cell, word: u16) -> bool {
    match cell {
        Cell::Out(output, _) if output >= world.device().count() => false,
        _ => world.host().possible(cell).allows(word),
    }
}

// Whether the host says that the cell may hold the word that it holds.
fn is_possible(world: &World, cell: Cell) -> bool {
    may_be(world, cell, world.word(cell))
}

/// Lets events happen that are all taken.
pub(crate) fn takes(rt: &impl Abort, world: &mut World, events: &[Event]) {
    for event in events {
        equal(rt, &world.meets(event), &Ok(()), &event);
    }
}

/// An event that happens to the world, if it is taken, and before the watch.
pub(crate) fn happens(world: &mut World, watch: &mut Watch, event: &Event) {
    let delivered = matches!(event, Event::Deliver(Arrival::Whole)) && would_take(world);
    let answered = match event {
        Event::Exchange(Arrival::Whole, Back::Whole) => reads(world),
        _ => None,
    };
    let is_explained = match answered {
        Some(true) => is_possible(world, SECOND) || watch.was_read[1] && watch.since_answer[1],
        Some(false) => is_possible(world, FIRST) || watch.was_read[0] && watch.since_answer[0],
        None => true,
    };
    if world.meets(event).is_ok() {
        watch.is_explained = watch.is_explained && is_explained;
        watch.sees(event, delivered, answered, world.ended().is_some());
    }
}

/// The word of a cell in the machine; 0 if there is no such cell.
pub(crate) fn ordered(machine: &OrderMachine, cell: Cell) -> u16 {
    if machine.has(cell) {
        machine.word(cell)
    } else {
        0
    }
}

// The word of an output's cell in the store of the machine; 0 if there is no such cell.
fn in_store(machine: &OrderMachine, cell: Cell) -> u16 {
    match cell {
        Cell::Out(_, _) if machine.has(cell) => machine.stored(cell),
        _ => 0,
    }
}

/// The settings and the store of a world are those of the machine.
pub(crate) fn are_ordered(rt: &impl Abort, world: &World, machine: &OrderMachine, at: usize) {
    for &cell in &CELLS {
        is_ordered(rt, world, machine, cell, at);
    }
}

fn is_ordered(rt: &impl Abort, world: &World, machine: &OrderMachine, cell: Cell, at: usize) {
    let held = world.word(cell);
    equal(rt, &held, &ordered(machine, cell), &(cell, at));
    let kept = world.stored(cell);
    equal(rt, &kept, &in_store(machine, cell), &(cell, at));
}
