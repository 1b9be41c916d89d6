//! Stores and restores in a world: what the host says after each event, what the converter holds and has in
//! its store, and both beside the order machine.

ghost use Rattle.std.specs.Prelude.{◌≡◌, ◌<◌};

use crate::checks::{equal, is_true};
use crate::watch::{Watch, are_ordered, happens, takes};
use crate::{ACKED, CHECK, LOST, Look, NOT_ACKED, ORDER, READ, READ_LOST, WHOLE};
use pm_core_tests::{CELLS, FIRST, SECOND, START};
use pm_device::Config;
use pm_host::{JobEnd, Standing};
use pm_model::{OrderMachine, Plain};
use pm_table::{Cell, Reg};
use pm_world::Event::{RestartDevice as RESTARTED, Restore as RESTORE, Store as STORE};
use pm_world::{Arrival, Event, SetupFault, World};
use std::process::Abort;

const CUT: Event = Event::Deliver(Arrival::Cut(2));

// The order machine of two outputs, with this WRITE_PROTECT.
fn machine(protect: u16) -> OrderMachine {
    match protect {
        0x20 => OrderMachine::new(Plain::new(2, [START; 8], 0x20)),
        0x40 => OrderMachine::new(Plain::new(2, [START; 8], 0x40)),
        0x80 => OrderMachine::new(Plain::new(2, [START; 8], 0x80)),
        _ => OrderMachine::new(Plain::new(2, [START; 8], 0x00)),
    }
}

// After each event the settings and the store are those of the machine. The world at the end.
fn followed(rt: &impl Abort, protect: u16, events: &[Event]) -> Result<World, SetupFault> {
    let mut world = World::begin(World::with_protect(protect), 2)?;
    let mut watch = Watch::new(machine(protect));
    for (at, event) in events.iter().enumerate() {
        happens(&mut world, &mut watch, event);
        are_ordered(rt, &world, &watch.machine, at);
    }
    Ok(world)
}

// VOUT_COMMAND of the first output, how it stands, and how the last job ended.
type End = (u16, Standing, Option<JobEnd>);

fn ends(rt: &impl Abort, protect: u16, events: &[Event], end: End) -> Result<(), SetupFault> {
    let world = followed(rt, protect, events)?;
    let (held, stands, job) = end;
    equal(rt, &world.word(FIRST), &held, &events);
    equal(rt, &world.says(FIRST), &Some(stands), &events);
    equal(rt, &world.ended(), &job, &events);
    Ok(())
}

const CONFIRMED: Standing = Standing::Confirmed(0x34CD);

const DONE: Option<JobEnd> = Some(JobEnd::Done);

const UNKNOWN: Option<JobEnd> = Some(JobEnd::Unknown);

#[test]
fn a_stored_setting_outlives_a_restart(rt: HostRuntime) -> Result<(), SetupFault> {
    let stored = [ORDER, WHOLE, ACKED, READ, STORE, WHOLE, ACKED, RESTARTED];
    ends(&rt, 0x00, &stored, (0x34CD, CONFIRMED, DONE))?;
    // It is heard twice, and its acknowledgement is lost.
    let again = [
        ORDER, WHOLE, ACKED, READ, STORE, WHOLE, WHOLE, NOT_ACKED, LOST, NOT_ACKED, RESTARTED,
    ];
    ends(&rt, 0x00, &again, (0x34CD, CONFIRMED, UNKNOWN))?;
    // It is acknowledged and never heard, and it is cut.
    let unheard = [ORDER, WHOLE, ACKED, READ, STORE, ACKED, RESTARTED];
    ends(&rt, 0x00, &unheard, (0x1000, CONFIRMED, DONE))?;
    let cut = [ORDER, WHOLE, ACKED, READ, STORE, CUT, ACKED, RESTARTED];
    ends(&rt, 0x00, &cut, (0x1000, CONFIRMED, DONE))
}

#[test]
fn a_restore_leaves_nothing_believed(rt: HostRuntime) -> Result<(), SetupFault> {
    let unknown = Standing::Unknown;
    let restored = [ORDER, WHOLE, ACKED, READ, RESTORE, WHOLE, ACKED];
    ends(&rt, 0x00, &restored, (0x1000, unknown, DONE))?;
    let never = [ORDER, WHOLE, ACKED, READ, RESTORE, ACKED];
    ends(&rt, 0x00, &never, (0x34CD, unknown, DONE))?;
    let read = [RESTORE, WHOLE, ACKED, CHECK, READ];
    let start = Standing::Confirmed(0x1000);
    ends(&rt, 0x00, &read, (0x1000, start, DONE))?;
    // After an order that didn't end well, a restart between a store and a restore, and another order.
    #[rattlefmt::skip]
    let unfinished = [
        ORDER, WHOLE, NOT_ACKED, READ_LOST, LOST, NOT_ACKED, READ_LOST, STORE, WHOLE, NOT_ACKED,
        LOST, NOT_ACKED, RESTARTED, Event::Order(SECOND, 0x2000), WHOLE, ACKED, READ, RESTORE, LOST,
        NOT_ACKED, WHOLE, ACKED,
    ];
    ends(&rt, 0x00, &unfinished, (0x34CD, unknown, DONE))
}

#[test]
fn a_restore_is_blocked_by_write_protect(rt: HostRuntime) -> Result<(), SetupFault> {
    let known = [CHECK, READ, RESTORE, WHOLE, NOT_ACKED, WHOLE, NOT_ACKED];
    for protect in [0x00, 0x20, 0x40, 0x80] {
        ends(&rt, protect, &known, (0x1000, Standing::Unknown, UNKNOWN))?;
    }
    // An order that WRITE_PROTECT allows at 20h stays over a restore that it blocks. WRITE_PROTECT stays over
    // a restore that it doesn't block.
    let blocked = [ORDER, WHOLE, ACKED, READ, RESTORE, WHOLE, ACKED];
    ends(&rt, 0x20, &blocked, (0x34CD, Standing::Unknown, DONE))
}

// What the host says of the first cell and of WRITE_PROTECT after each event: how it stands, and the words
// that it may hold, any if none is given.
type Said = (Event, Standing, &'static [u16], Standing, &'static [u16]);

const ANY: Standing = Standing::Unknown;

const OPEN: Standing = Standing::Confirmed(0x00);

// A restore that is sent twice, and read between its job and the next one.
#[rattlefmt::skip]
const RESTORED: [Said; 11] = [
    (CHECK, ANY, &[], ANY, &[]),
    (READ, Standing::Confirmed(0x1000), &[0x1000], ANY, &[]),
    (Event::Check(Cell::Protect), Standing::Confirmed(0x1000), &[0x1000], ANY, &[]),
    (READ, Standing::Confirmed(0x1000), &[0x1000], OPEN, &[0x00]),
    (STORE, Standing::Confirmed(0x1000), &[0x1000], OPEN, &[0x00]),
    (ACKED, Standing::Confirmed(0x1000), &[0x1000], OPEN, &[0x00]),
    (RESTORE, ANY, &[], OPEN, &[0x00]),
    (NOT_ACKED, ANY, &[], OPEN, &[0x00]),
    (ACKED, ANY, &[], OPEN, &[0x00]),
    (CHECK, ANY, &[], OPEN, &[0x00]),
    (READ, Standing::Confirmed(0x1000), &[0x1000], OPEN, &[0x00]),
];

fn says(rt: &impl Abort, world: &mut World, at: usize, row: &Said) {
    let (event, stands, words, protect, protects) = row;
    equal(rt, &world.meets(event), &Ok(()), &at);
    equal(rt, &world.says(FIRST), &Some(*stands), &at);
    is_true(rt, world.may_hold(FIRST, words), &at);
    equal(rt, &world.says(Cell::Protect), &Some(*protect), &at);
    is_true(rt, world.may_hold(Cell::Protect, protects), &at);
}

#[test]
fn a_restore_leaves_write_protect_as_it_is_known(rt: HostRuntime) -> Result<(), SetupFault> {
    let mut world = World::begin(World::base(), 2)?;
    for (at, row) in RESTORED.iter().enumerate() {
        says(&rt, &mut world, at, row);
    }
    Ok(())
}

// A restart that was seen stays seen over a restore.
#[test]
fn a_restart_stays_seen_over_a_restore(rt: HostRuntime) -> Result<(), SetupFault> {
    let mut world = World::begin(World::base(), 2)?;
    takes(&rt, &mut world, &[ORDER, WHOLE, ACKED, READ]);
    takes(&rt, &mut world, &[RESTARTED, CHECK, READ]);
    is_true(&rt, world.sees_restart(), &1);
    takes(&rt, &mut world, &[RESTORE, WHOLE, ACKED, CHECK, READ]);
    is_true(&rt, world.sees_restart(), &2);
    Ok(())
}

// What is sent, and that a job is refused while another is open.
#[test]
fn a_store_and_a_restore_are_plain_send_bytes(rt: HostRuntime) -> Result<(), SetupFault> {
    let mut world = World::begin(World::base(), 2)?;
    takes(&rt, &mut world, &[STORE]);
    is_true(&rt, world.is_sending(&[0xB0, 0x15, 0x24]), &1);
    is_true(&rt, world.meets(&RESTORE).is_err(), &2);
    takes(&rt, &mut world, &[NOT_ACKED]);
    is_true(&rt, world.is_sending(&[0xB0, 0x15, 0x24]), &3);
    takes(&rt, &mut world, &[NOT_ACKED]);
    is_true(&rt, world.is_sending(&[]), &4);
    takes(&rt, &mut world, &[RESTORE]);
    is_true(&rt, world.is_sending(&[0xB0, 0x16, 0x2D]), &5);
    is_true(&rt, world.meets(&STORE).is_err(), &6);
    takes(&rt, &mut world, &[ACKED]);
    is_true(&rt, world.is_sending(&[]), &7);
    Ok(())
}

// Eight outputs, and VOUT_COMMAND of one of them.
fn eight() -> Config {
    with! { Config, World::base(); count: 8 }
}

fn voltage(output: u8) -> Cell {
    Cell::Out(output, Reg::VoutCommand)
}

fn ordered(rt: &impl Abort, world: &mut World, first: u16) {
    for output in 0..8 {
        let order = Event::Order(voltage(output), first.saturating_add(u16::from(output)));
        takes(rt, world, &[order, WHOLE, ACKED, READ]);
    }
}

fn has(rt: &impl Abort, world: &World, first: u16) {
    for output in 0..8 {
        let held = world.word(voltage(output));
        equal(rt, &held, &first.saturating_add(u16::from(output)), &1);
    }
}

#[test]
fn eight_outputs_are_stored(rt: HostRuntime) -> Result<(), SetupFault> {
    let mut world = World::begin(eight(), 1)?;
    ordered(&rt, &mut world, 0x2000);
    takes(&rt, &mut world, &[STORE, WHOLE, ACKED]);
    ordered(&rt, &mut world, 0x3000);
    takes(&rt, &mut world, &[RESTORE, WHOLE, ACKED]);
    has(&rt, &world, 0x2000);
    ordered(&rt, &mut world, 0x3100);
    takes(&rt, &mut world, &[RESTARTED]);
    has(&rt, &world, 0x2000);
    for &cell in &CELLS {
        is_true(&rt, world.says(cell).is_some(), &cell);
    }
    let (ran, stop) = World::live(eight(), 1, &[STORE, WHOLE, ACKED, RESTORE, WHOLE, ACKED])?;
    equal(&rt, &stop, &None, &1);
    equal(&rt, &ran.last_end(), &DONE, &2);
    Ok(())
}
