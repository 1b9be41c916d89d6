//! Why an event isn't taken, and which bytes are a legal hearing or a legal return.

use crate::checks::{equal, is_true};
use crate::fixtures::{after, arrival, back, sends};
use crate::look::Look;
use crate::{CHECK, ORDER};
use pm_core_tests::{CELLS, FIRST, OUTPUT};
use pm_device::{Config, ConfigFault, OutputStart};
use pm_host::{HostFault, JobEnd, Standing};
use pm_num::NumFault;
use pm_table::{Cell, Coefficients, Reg, TableFault};
use pm_world::Cause::{NotBetrayed as S1, NothingSent as S2, WrongKind as S3};
use pm_world::{Cause, Event, SetupFault, World};
use std::process::Abort;

const S4_BUSY: Cause = Cause::Host(HostFault::Busy);

// An event of the bus: a delivery as it arrives, an exchange as it arrives and comes back, the end of
// a write.
#[derive(Clone, Copy, Debug)]
enum Bus {
    Deliver(&'static str),
    Exchange(&'static str, &'static str),
    Finish(bool),
}

fn event(rt: &impl Abort, bus: Bus) -> Event {
    match bus {
        Bus::Deliver(heard) => Event::Deliver(arrival(rt, heard)),
        Bus::Exchange(heard, came) => Event::Exchange(arrival(rt, heard), back(rt, came)),
        Bus::Finish(acked) => Event::Finish(acked),
    }
}

// A good packet that is no frame of the host's, and an answer with another word than is held.
const OTHER: &str = "stop: B0 21 CD 34 38";

const OTHER_ANSWER: &str = "B1 02 CD 34 B9";

// While nothing is sent, while a write is, and while a read is.
static IDLE: [(Bus, Cause); 6] = [
    (Bus::Deliver("whole"), S2),
    (Bus::Deliver(OTHER), S2),
    (Bus::Finish(true), S2),
    (Bus::Finish(false), S2),
    (Bus::Exchange("whole", "whole"), S2),
    (Bus::Exchange(OTHER, OTHER_ANSWER), S2),
];

static WRITING: [(Bus, Cause); 5] = [
    (Bus::Exchange("whole", "whole"), S3),
    (Bus::Exchange("cut 3", "cut 0"), S3),
    (Bus::Exchange(OTHER, "whole"), S3),
    (Bus::Exchange("whole", OTHER_ANSWER), S3),
    (Bus::Deliver(OTHER), S1),
];

#[rattlefmt::skip]
static READING: [(Bus, Cause); 7] = [
    (Bus::Deliver("whole"), S3), (Bus::Deliver("cut 0"), S3), (Bus::Deliver(OTHER), S3),
    (Bus::Finish(true), S3), (Bus::Finish(false), S3), (Bus::Exchange(OTHER, "whole"), S1),
    (Bus::Exchange("whole", OTHER_ANSWER), S1),
];

fn is_not_taken(rt: &impl Abort, world: &mut World, event: &Event, cause: Cause) {
    equal(rt, &world.meets(event), &Err(cause), &event);
}

// No event of the bus is taken, nor a further job if one is open; nothing changes.
fn stops(
    rt: &impl Abort,
    job: &[Event],
    sent: &str,
    rows: &[(Bus, Cause)],
) -> Result<(), SetupFault> {
    let mut world = after(rt, World::base(), 2, job)?;
    for (bus, cause) in rows {
        is_not_taken(rt, &mut world, &event(rt, *bus), *cause);
    }
    if !job.is_empty() {
        is_not_taken(rt, &mut world, &CHECK, S4_BUSY);
    }
    is_true(rt, sends(rt, &world, sent), &1);
    equal(rt, &world.ended(), &None, &2);
    equal(rt, &world.status_cml(), &0x00, &3);
    Ok(())
}

#[test]
fn an_event_that_is_not_taken_has_its_first_cause(rt: HostRuntime) -> Result<(), SetupFault> {
    stops(&rt, &[], "", &IDLE)?;
    stops(&rt, &[ORDER], "B0 05 04 00 21 CD 34 5A", &WRITING)?;
    stops(&rt, &[CHECK], "B0 06 02 00 21", &READING)
}

// What arrives of the order of 34CDh: the cause against it, or the word and STATUS_CML afterwards.
#[rattlefmt::skip]
static HEARINGS: [(&str, Result<(u16, u8), Cause>); 20] = [
    ("whole", Ok((0x34CD, 0x00))), ("cut 8", Ok((0x34CD, 0x00))), ("cut 255", Ok((0x34CD, 0x00))),
    ("cut 7", Ok((0x1000, 0x02))), ("cut 0", Ok((0x1000, 0x00))),
    ("stop: B0 05 04 00 21 CD 34 5A", Ok((0x34CD, 0x00))),
    ("stop: B0 05 04 00 21 CD 34", Ok((0x1000, 0x02))),
    ("stop: B0 05 04 00 21 CD 34 5B", Ok((0x1000, 0x20))),
    ("stop: B0 05 04 00 21 CD 34 5A FF", Ok((0x1000, 0x02))),
    ("stop: B0 21 CD 34 FF", Ok((0x1000, 0x20))), ("stop: ", Ok((0x1000, 0x00))),
    ("stop: 01", Ok((0x1000, 0x00))), ("stop: 00", Err(S1)),
    ("stop: B0 05 04 01 21 CD 34 4C", Err(S1)), ("stop: B0 21 CD 34 38", Err(S1)),
    ("stop: B0 03 46", Err(S1)), ("stop: B0 05 04 00 21 CD 34 5A 00", Err(S1)),
    ("restart: B0 05 04 00 21 CD 34 5A", Ok((0x1000, 0x80))),
    ("restart: B0 05 04 01 21 CD 34 4C", Ok((0x1000, 0x80))),
    ("restart: B0 06 02 00 21", Ok((0x1000, 0x00))),
];

// VOUT_COMMAND of the first output is this word, and each other cell has its start word.
fn holds(rt: &impl Abort, world: &World, held: u16) -> Result<(), SetupFault> {
    let started = World::begin(World::base(), 2)?;
    for &cell in &CELLS {
        let start = started.word(cell);
        let wanted = if cell == FIRST { held } else { start };
        equal(rt, &world.word(cell), &wanted, &cell);
    }
    Ok(())
}

// The order arrives so, whoever else's frame it is: no other cell changes, and the host knows nothing.
fn arrives(
    rt: &impl Abort,
    heard: &str,
    wanted: Result<(u16, u8), Cause>,
) -> Result<(), SetupFault> {
    let mut world = after(rt, World::base(), 2, &[ORDER])?;
    let taken = world.meets(&Event::Deliver(arrival(rt, heard)));
    let (cause, held, cml) = match wanted {
        Ok((held, cml)) => (None, held, cml),
        Err(cause) => (Some(cause), 0x1000, 0x00),
    };
    equal(rt, &taken.err(), &cause, &heard);
    equal(rt, &world.status_cml(), &cml, &heard);
    equal(rt, &world.says(FIRST), &Some(Standing::Unknown), &1);
    holds(rt, &world, held)
}

type Outcome = Result<(Option<JobEnd>, u8), Cause>;

// A good answer.
const DONE: Outcome = Ok((Some(JobEnd::Done), 0x00));

// No good answer: what the converter heard was no fault, a wrong PEC, a cut frame, or a bad page.
const NONE: Outcome = Ok((None, 0x00));

const NO_PEC: Outcome = Ok((None, 0x20));

const SHORT: Outcome = Ok((None, 0x02));

const BAD_PAGE: Outcome = Ok((None, 0x40));

type Return = (&'static str, &'static str, Outcome);

// What arrives of a check's request, and what comes back: the cause against it, or the job's end, if
// it has one, and STATUS_CML afterwards.
#[rattlefmt::skip]
static RETURNS: [Return; 28] = [
    ("whole", "whole", DONE), ("whole", "cut 5", DONE), ("whole", "cut 255", DONE),
    ("whole", "B1 02 00 10 41", DONE), ("restart: B0 06 02 00 21", "whole", DONE),
    ("restart: B0 06 02 00 21", "B1 02 00 10 41", DONE),
    ("whole", "cut 4", NONE), ("whole", "cut 0", NONE), ("whole", "B1 02 00 0B", NONE),
    ("whole", "B1 02 00 10 40", NONE), ("whole", "B1 02 00 10 68", NONE),
    ("whole", "B1 02 00 10 28", NONE), ("whole", "B1 02 00 10 41 FF", NONE),
    ("cut 5", "whole", NO_PEC), ("cut 255", "whole", NO_PEC), ("cut 3", "whole", NO_PEC),
    ("cut 2", "whole", SHORT), ("cut 0", "whole", NONE), ("stop: B0 06 02 00 21", "whole", NO_PEC),
    ("restart: B0 06 02 01 21", "whole", NONE), ("restart: B0 06 02 02 21", "whole", BAD_PAGE),
    ("stop: B0 21 CD 34 38", "whole", Err(S1)), ("cut 5", "B1 02 00 10 41", Err(S1)),
    ("restart: B0 06 02 01 21", "B1 02 00 10 41", Err(S1)),
    ("whole", "B1 02 CD 34 B9", Err(S1)), ("whole", "B1 02 00 10 00 C0", Err(S1)),
    ("whole", "B1 01 00 10 FC", Err(S1)), ("whole", "B0 02 00 10 57", Err(S1)),
];

fn comes_back(rt: &impl Abort, heard: &str, came: &str, wanted: Outcome) -> Result<(), SetupFault> {
    let mut world = after(rt, World::base(), 2, &[CHECK])?;
    let exchange = Event::Exchange(arrival(rt, heard), back(rt, came));
    let taken = world.meets(&exchange);
    let (cause, end, cml) = match wanted {
        Ok((end, cml)) => (None, end, cml),
        Err(cause) => (Some(cause), None, 0x00),
    };
    equal(rt, &taken.err(), &cause, &(heard, came));
    equal(rt, &world.ended(), &end, &(heard, came));
    equal(rt, &world.status_cml(), &cml, &(heard, came));
    let stands = match end {
        Some(_) => Standing::Confirmed(0x1000),
        None => Standing::Unknown,
    };
    equal(rt, &world.says(FIRST), &Some(stands), &(heard, came));
    Ok(())
}

#[test]
fn writes_requests_and_answers_are_heard_as_they_arrive(rt: HostRuntime) -> Result<(), SetupFault> {
    for (heard, wanted) in &HEARINGS {
        arrives(&rt, heard, *wanted)?;
    }
    for (heard, came, wanted) in &RETURNS {
        comes_back(&rt, heard, came, *wanted)?;
    }
    Ok(())
}

// A count, OPERATION, WRITE_PROTECT, the address, VOUT_MODE and m, and the fault of the converter.
type Setup = (u8, u16, u16, u8, u8, i16, Option<ConfigFault>);

static SETUPS: [Setup; 7] = [
    (0, 0xB0, 0x01, 0x00, 0x20, 0, Some(ConfigFault::OutputCount)),
    (9, 0xB0, 0x01, 0x00, 0x20, 0, Some(ConfigFault::OutputCount)),
    (2, 0xB0, 0x01, 0x00, 0x20, 0, V2),
    (2, 0x80, 0x00, 0x00, 0x20, 0, Some(ConfigFault::Address)),
    (2, 0x80, 0x00, 0x58, 0x20, 0, V4),
    (2, 0x80, 0x00, 0x58, 0x40, 0, V5),
    (2, 0x80, 0x00, 0x58, 0x14, 0, None),
];

const V2: Option<ConfigFault> = Some(ConfigFault::BadStart(Cell::Out(0, Reg::Operation)));

const V4: Option<ConfigFault> = Some(ConfigFault::BadMode(0, TableFault::VidMode));

const V5: Option<ConfigFault> = Some(ConfigFault::BadCoefficients(NumFault::ZeroSlope));

// The configuration of a row.
fn configured(row: Setup) -> Config {
    let (count, operation, protect, addr, mode, m, _) = row;
    let start = with! { OutputStart, OUTPUT; mode, operation };
    Config {
        addr,
        count,
        starts: [start; 8],
        protect,
        coefficients: Coefficients { m, b: 0, r: 0 },
    }
}

// The fault of a world, and that of a run, which looks at no event.
fn fault_of_world(config: Config, passes: u8) -> Option<SetupFault> {
    World::begin(config, passes).err()
}

fn fault_of_run(config: Config, passes: u8) -> Option<SetupFault> {
    World::live(config, passes, &[CHECK, CHECK]).err()
}

fn has_fault(rt: &impl Abort, row: Setup, passes: u8, wanted: Option<SetupFault>) {
    let config = configured(row);
    equal(rt, &fault_of_world(config, passes), &wanted, &(passes, row));
    equal(rt, &fault_of_run(config, passes), &wanted, &(passes, row));
}

// The converter's fault comes before that of the passes.
#[test]
fn a_world_has_the_converters_fault_before_the_hosts(rt: HostRuntime) {
    for row in &SETUPS {
        let (_, _, _, _, _, _, fault) = *row;
        let fault = fault.map(SetupFault::Device);
        let passes = Some(SetupFault::Host(HostFault::Passes));
        for good in [1, 15] {
            has_fault(&rt, *row, good, fault);
        }
        for bad in [0, 16, 255] {
            has_fault(&rt, *row, bad, fault.or(passes));
        }
    }
}
