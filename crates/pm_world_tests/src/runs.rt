//! Whole runs of events: lost answers, a false acknowledgement, a restart, a write that is blocked, and
//! damage that the PEC doesn't betray.

use crate::checks::{equal, is_true};
use crate::fixtures::{after, arrival, frame, takes};
use crate::look::Look;
use crate::{ACKED, CHECK, LOST, NOT_ACKED, ORDER, READ, READ_LOST, WHOLE};
use pm_core_tests::{FIRST, SECOND};
use pm_device::{Config, Ending, Heard};
use pm_host::{JobEnd, Standing};
use pm_table::Code;
use pm_world::{Arrival, Cause, Event, SetupFault, Stop, World};
use std::process::Abort;

// A run that takes all of its events ends so: the job's end, what the host says of the cell and what
// the converter holds, and whether the host saw a restart.
fn ends(
    rt: &impl Abort,
    config: Config,
    events: &[Event],
    end: JobEnd,
    told: (Standing, u16),
    seen: bool,
) -> Result<World, SetupFault> {
    let world = after(rt, config, 2, events)?;
    equal(rt, &world.ended(), &Some(end), &1);
    let (stands, held) = told;
    equal(rt, &world.says(FIRST), &Some(stands), &2);
    equal(rt, &world.word(FIRST), &held, &3);
    equal(rt, &world.sees_restart(), &seen, &4);
    Ok(world)
}

const DONE: (Standing, u16) = (Standing::Confirmed(0x34CD), 0x34CD);

const START: (Standing, u16) = (Standing::Confirmed(0x1000), 0x1000);

#[test]
fn runs_end_as_their_events_say(rt: HostRuntime) -> Result<(), SetupFault> {
    let restarted = Event::RestartDevice;
    let unknown = (Standing::Unknown, 0x34CD);
    #[rattlefmt::skip]
    let rows: [(u16, &[Event], JobEnd, (Standing, u16), bool, u8); 4] = [
        // Both answers of an order are lost.
        (0x00, &[CHECK, READ, ORDER, WHOLE, NOT_ACKED, READ_LOST, LOST, NOT_ACKED, READ_LOST],
            JobEnd::Unknown, unknown, false, 0x00),
        // A lost write is acknowledged.
        (0x00, &[CHECK, READ, ORDER, LOST, ACKED, READ, WHOLE, ACKED, READ], JobEnd::Done, DONE,
            false, 0x00),
        // The converter restarts after an order.
        (0x00, &[CHECK, READ, ORDER, WHOLE, ACKED, READ, restarted, CHECK, READ], JobEnd::Done,
            START, true, 0x00),
        // An order is blocked by WRITE_PROTECT.
        (0x40, &[ORDER, WHOLE, ACKED, READ, WHOLE, ACKED, READ], JobEnd::Differs(0x1000), START,
            false, 0x80),
    ];
    for (protect, events, end, told, seen, cml) in rows {
        let world = ends(&rt, World::with_protect(protect), events, end, told, seen)?;
        equal(&rt, &world.status_cml(), &cml, &events);
    }
    Ok(())
}

fn is_heard_whole(rt: &impl Abort, heard: &str) -> Result<(), SetupFault> {
    let delivered = Event::Deliver(arrival(rt, heard));
    let honest = [ORDER, delivered, ACKED, READ];
    ends(rt, World::base(), &honest, JobEnd::Done, DONE, false)?;
    Ok(())
}

#[test]
fn an_order_goes_through_by_its_bytes(rt: HostRuntime) -> Result<(), SetupFault> {
    // The frame itself in its place, and a cut past its end, are heard whole.
    is_heard_whole(&rt, "stop: B0 05 04 00 21 CD 34 5A")?;
    is_heard_whole(&rt, "cut 8")?;
    is_heard_whole(&rt, "cut 200")?;
    // Damage that the PEC doesn't betray stops a run.
    let other = Arrival::Bytes(frame(&rt, "B0 05 04 01 21 CD 34 4C"), Ending::Stop);
    let events = [ORDER, Event::Deliver(other), ACKED];
    let (world, stop) = World::live(World::base(), 2, &events)?;
    let cause = Cause::NotBetrayed;
    equal(&rt, &stop, &Some(Stop { at: 1, cause }), &1);
    equal(&rt, &world.says(FIRST), &Some(Standing::Unknown), &2);
    equal(&rt, &world.word(FIRST), &0x1000, &3);
    equal(&rt, &world.word(SECOND), &0x1000, &4);
    equal(&rt, &world.ended(), &None, &5);
    Ok(())
}

// The converter answers a request so.
fn is_answered(rt: &impl Abort, world: &World, request: &str, answer: &str) {
    let reply = world.replies(frame(rt, request).as_slice(), Ending::Restart);
    let wanted = frame(rt, answer);
    let same = matches!(&reply, Heard::Answer(got) if got.as_slice() == wanted.as_slice());
    is_true(rt, same, &(reply, request));
}

// An output, the code of a reading, and its word.
#[rattlefmt::skip]
static READINGS: [(u8, u8, u16); 7] = [
    (0, 0x88, 0x1A2B), (0, 0x8B, 0x2B3C), (1, 0x8B, 0x3C4D), (1, 0x8C, 0x5E6F), (255, 0x8D, 0x6F71),
    (2, 0x8B, 0x7777), (0, 0x21, 0x7777),
];

// A request, and its answer.
static ANSWERED: [(&str, &str); 6] = [
    ("B0 06 02 00 88", "B1 02 2B 1A C6"),
    ("B0 06 02 00 8B", "B1 02 3C 2B CB"),
    ("B0 06 02 01 8B", "B1 02 4D 3C 30"),
    ("B0 06 02 01 8C", "B1 02 6F 5E B4"),
    ("B0 06 02 00 8D", "B1 02 71 6F E9"),
    ("B0 06 02 00 21", "B1 02 00 10 41"),
];

// Readings of the device and of each output are answered from then on; one of no output, and one of a
// code that is no reading, are taken too, and change nothing.
#[test]
fn a_reading_is_answered_by_the_converter(rt: HostRuntime) -> Result<(), SetupFault> {
    let mut world = World::begin(World::base(), 2)?;
    for &(output, code, reading) in &READINGS {
        let event = Event::Reading(output, Code(code), reading);
        takes(&rt, &mut world, &[event]);
    }
    for &(request, answer) in &ANSWERED {
        is_answered(&rt, &world, request, answer);
    }
    Ok(())
}
