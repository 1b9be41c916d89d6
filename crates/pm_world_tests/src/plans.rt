//! Plans in random lives, of two outputs at once: frames are lost, cut, repeated and falsely acknowledged, orders end in
//! any way, and the host restarts. After each event each output commands its old voltage or the wanted one.

use crate::checks::{equal, is_true};
use crate::look::Look;
use pm_device::{Config, OutputStart};
use pm_host::Job;
use pm_limits::{OutputLimits, PartRegisters};
use pm_num::Frac;
use pm_rail::{Plan, PlanFault, PlanOrder, Survey, Wanted, next_order_in};
use pm_table::{Cell, Coefficients, Reg};
use pm_world::{Arrival, Back, Event, SetupFault, World};
use std::process::Abort;

// Words of which none is far from two others, and those at both ends of signed ones.
static WORDS: [u16; 6] = [0x0000, 0x0010, 0x0100, 0x7000, 0x8000, 0xFFF0];

// Off, on, and on at either margin.
static BYTES: [u16; 4] = [0x00, 0x80, 0xA8, 0x94];

#[rattlefmt::skip]
static REGISTERS: [Reg; 6] = [
    Reg::Operation, Reg::VoutCommand, Reg::VoutMax, Reg::MarginHigh, Reg::MarginLow, Reg::VoutMin,
];

// How a plan ends.
#[derive(Clone, Copy, Debug, PartialEq, Eq)]
enum End {
    // It goes on.
    Going,
    // Each wanted word is held, as the plan says.
    Done,
    // The words don't fit together, or are protected.
    Refused,
}

// One rail: what is wanted of it, what it is to command and commanded last, how often that changed, and how the plan stands.
#[derive(Clone, Copy, Debug)]
struct Course {
    wanted: Wanted,
    new: Option<Frac>,
    last: Option<Frac>,
    changes: u16,
    end: End,
}

// A world with a plan for each of its two outputs, and a source of chance.
#[derive(Drop)]
struct Walk {
    world: World,
    courses: [Course; 2],
    is_watched: bool,
    orders: u16,
    state: u64,
}

// What came of all walks.
#[derive(Clone, Copy, Debug)]
struct Tally {
    done: u32,
    refused: u32,
    going: u32,
    changes: u32,
    orders: u32,
    surveyed: u32,
    lost: u32,
}

// A number below another one, which isn't 0.
fn roll(state: &mut u64, sides: u64) -> u64 {
    *state = state
        .wrapping_mul(6_364_136_223_846_793_005)
        .wrapping_add(1_442_695_040_888_963_407);
    if sides == 0 {
        0
    } else {
        (*state >> 33) % sides
    }
}

fn any_word(state: &mut u64) -> u16 {
    WORDS[(roll(state, 6) % 6) as usize]
}

fn maybe_word(state: &mut u64) -> Option<u16> {
    if roll(state, 3) == 0 {
        None
    } else {
        Some(any_word(state))
    }
}

fn any_wanted(state: &mut u64) -> Wanted {
    Wanted {
        command: maybe_word(state),
        max: maybe_word(state),
        margin_high: maybe_word(state),
        margin_low: maybe_word(state),
        min: maybe_word(state),
    }
}

fn any_start(state: &mut u64, mode: u8) -> OutputStart {
    OutputStart {
        mode,
        operation: BYTES[(roll(state, 4) % 4) as usize],
        command: any_word(state),
        max: any_word(state),
        high: any_word(state),
        low: any_word(state),
        min: any_word(state),
    }
}

// Both formats, and slopes of either sign; WRITE_PROTECT is 00h mostly.
fn any_config(state: &mut u64) -> Config {
    let mode = if roll(state, 2) == 0 { 0x18 } else { 0x40 };
    let m = if roll(state, 2) == 0 { 3 } else { -3 };
    let first = any_start(state, mode);
    let second = any_start(state, mode);
    let mut starts = [first; 8];
    starts[1] = second;
    Config {
        addr: 0x58,
        count: 2,
        starts,
        protect: if roll(state, 8) == 0 { 0x40 } else { 0x00 },
        coefficients: Coefficients { m, b: 5, r: 1 },
    }
}

// The voltage that an output commands; nothing if it isn't there.
fn commands(world: &World, output: u8) -> Option<Frac> {
    let device = world.device();
    if output < device.count() {
        Some(device.commanded(output))
    } else {
        None
    }
}

// Two voltages are one.
fn is_one(one: Option<Frac>, other: Option<Frac>) -> bool {
    match (one, other) {
        (Some(one), Some(other)) => one.same_value(&other),
        _ => false,
    }
}

// What an output commands by the words that it holds, with the wanted ones in their places: by a converter that starts
// with these.
fn goal(
    config: &Config,
    world: &World,
    output: u8,
    wanted: &Wanted,
) -> Result<Option<Frac>, SetupFault> {
    let word = |register| match wanted.word(register) {
        Some(word) => word,
        None => world.word(Cell::Out(output, register)),
    };
    let start = OutputStart {
        mode: config.starts[0].mode,
        operation: word(Reg::Operation),
        command: word(Reg::VoutCommand),
        max: word(Reg::VoutMax),
        high: word(Reg::MarginHigh),
        low: word(Reg::MarginLow),
        min: word(Reg::VoutMin),
    };
    let config = with! { Config, *config; starts: [start; 8] };
    let other = World::begin(config, 2)?;
    Ok(commands(&other, 0))
}

impl Walk {
    // An event that is taken; each output commands what it did at first or what is wanted.
    fn happens(&mut self, rt: &impl Abort, event: &Event) {
        equal(rt, &self.world.meets(event), &Ok(()), event);
        if self.is_watched {
            self.watch(rt, 0);
            self.watch(rt, 1);
        }
    }

    fn watch(&mut self, rt: &impl Abort, output: u8) {
        let now = commands(&self.world, output);
        let course = &mut self.courses[usize::from(output % 2)];
        let moved = !is_one(now, course.last);
        is_true(
            rt,
            !moved || is_one(now, course.new),
            &(output, now, *course),
        );
        course.last = now;
        if moved {
            course.changes = course.changes.wrapping_add(1);
        }
        is_true(rt, course.changes <= 1, &(output, *course));
    }

    // How a frame of a write or of a request arrives, by luck: one in four is cut.
    fn arrival(&mut self) -> Arrival {
        if roll(&mut self.state, 4) == 0 {
            Arrival::Cut((roll(&mut self.state, 9) % 9) as u8)
        } else {
            Arrival::Whole
        }
    }

    // The frames of the open job, until it has ended.
    fn carry(&mut self, rt: &impl Abort) {
        for _ in 0..64 {
            if self.world.host().sending().is_none() {
                return;
            }
            if self.world.host().sending_reads() {
                let arrival = self.arrival();
                let back = if roll(&mut self.state, 6) == 0 {
                    Back::Cut(1)
                } else {
                    Back::Whole
                };
                self.happens(rt, &Event::Exchange(arrival, back));
            } else {
                for _ in 0..roll(&mut self.state, 3) {
                    let arrival = self.arrival();
                    self.happens(rt, &Event::Deliver(arrival));
                }
                let acked = roll(&mut self.state, 2) == 0;
                self.happens(rt, &Event::Finish(acked));
            }
        }
        is_true(rt, false, &"a job without an end");
    }

    fn asks(&mut self, rt: &impl Abort, event: &Event) {
        self.happens(rt, event);
        self.carry(rt);
    }

    // What an engineer may have done before: reads, an order, and a restart of the converter that nobody saw.
    fn begins(&mut self, rt: &impl Abort) {
        for output in 0..2 {
            self.asks(rt, &Event::Learn(output));
            for &register in &REGISTERS {
                self.asks(rt, &Event::Check(Cell::Out(output, register)));
            }
            let word = any_word(&mut self.state);
            self.asks(rt, &Event::Order(Cell::Out(output, Reg::VoutCommand), word));
        }
        if roll(&mut self.state, 2) == 0 {
            self.happens(rt, &Event::RestartDevice);
        }
    }

    // A survey of what the plan needs; whether it ended by its own rule.
    fn surveys(&mut self, rt: &impl Abort, output: u8) -> bool {
        let wanted = self.courses[usize::from(output % 2)].wanted;
        let mut survey = Survey::new(output, Some(wanted), 60);
        for _ in 0..61 {
            match asks_next(&mut survey, &self.world) {
                Some(job) => {
                    self.asks(rt, &Event::of(job));
                    if let Some(end) = self.world.ended() {
                        survey.told(end);
                    }
                }
                None => return is_done(&survey, &self.world),
            }
        }
        false
    }

    // The plans begin: from here on each output is watched.
    fn sets_out(&mut self, config: &Config) -> Result<(), SetupFault> {
        for output in 0..2u8 {
            let now = commands(&self.world, output);
            let wanted = self.courses[usize::from(output % 2)].wanted;
            let new = goal(config, &self.world, output, &wanted)?;
            let course = &mut self.courses[usize::from(output % 2)];
            course.last = now;
            course.new = new;
        }
        self.is_watched = true;
        Ok(())
    }

    // One order of an output's plan, or what it waits for.
    fn steps(&mut self, rt: &impl Abort, output: u8) {
        let wanted = self.courses[usize::from(output % 2)].wanted;
        match plans(&self.world, output, &wanted) {
            Ok(None) => self.ends(output, End::Done),
            Ok(Some(order)) => {
                self.orders = self.orders.wrapping_add(1);
                let event = Event::Order(Cell::Out(output, order.register), order.word);
                self.asks(rt, &event);
                if roll(&mut self.state, 3) == 0 {
                    self.asks(rt, &event);
                }
            }
            Err(PlanFault::FormatUnknown) => self.asks(rt, &Event::Learn(output)),
            Err(PlanFault::NotKnown(cell)) => self.asks(rt, &Event::Check(cell)),
            Err(_) => self.ends(output, End::Refused),
        }
    }

    fn ends(&mut self, output: u8, end: End) {
        self.courses[usize::from(output % 2)].end = end;
    }

    // Both plans, an order of either at a time, while the host restarts now and then.
    fn goes(&mut self, rt: &impl Abort) {
        for _ in 0..600 {
            if roll(&mut self.state, 40) == 0 {
                self.happens(rt, &Event::RestartHost);
            }
            let output = (roll(&mut self.state, 2) % 2) as u8;
            if self.courses[usize::from(output)].end == End::Going {
                self.steps(rt, output);
            }
        }
    }

    // Each wanted word is held once a plan is done, and the output commands what is wanted.
    fn is_as_wanted(&self, rt: &impl Abort, output: u8) {
        let course = &self.courses[usize::from(output % 2)];
        if course.end != End::Done {
            return;
        }
        for &register in &REGISTERS {
            if let Some(word) = course.wanted.word(register) {
                let held = self.world.word(Cell::Out(output, register));
                equal(rt, &held, &word, &(output, register));
            }
        }
        let now = commands(&self.world, output);
        is_true(rt, is_one(now, course.new), &(output, *course));
    }
}

// What a survey asks for next.
fn asks_next(survey: &mut Survey, world: &World) -> Option<Job> {
    if survey.output < 8 {
        survey.next_in(world.host().state(), PartRegisters::all())
    } else {
        None
    }
}

fn is_done(survey: &Survey, world: &World) -> bool {
    survey.output < 8 && survey.is_done_in(world.host().state(), PartRegisters::all())
}

// The next order of an output's plan, without limits.
fn plans(world: &World, output: u8, wanted: &Wanted) -> Result<Option<PlanOrder>, PlanFault> {
    let host = world.host();
    let plan = Plan {
        output: output % 2,
        wanted: *wanted,
    };
    let part = PartRegisters::all();
    next_order_in(
        host.state(),
        host.stage(),
        part,
        &OutputLimits::Unlimited,
        &plan,
    )
}

// One life.
fn lives(rt: &impl Abort, seed: u64, tally: &mut Tally) -> Result<(), SetupFault> {
    let mut state = seed;
    let config = any_config(&mut state);
    let mut course = Course {
        wanted: any_wanted(&mut state),
        new: None,
        last: None,
        changes: 0,
        end: End::Going,
    };
    let first = course;
    course.wanted = any_wanted(&mut state);
    let mut walk = Walk {
        world: World::begin(config, 2)?,
        courses: [first, course],
        is_watched: false,
        orders: 0,
        state,
    };
    walk.begins(rt);
    let first = walk.surveys(rt, 0);
    let second = walk.surveys(rt, 1);
    if !first || !second {
        tally.lost = tally.lost.wrapping_add(1);
        return Ok(());
    }
    tally.surveyed = tally.surveyed.wrapping_add(1);
    walk.sets_out(&config)?;
    walk.goes(rt);
    walk.is_as_wanted(rt, 0);
    walk.is_as_wanted(rt, 1);
    for course in &walk.courses {
        count(tally, course);
    }
    tally.orders = tally.orders.wrapping_add(u32::from(walk.orders));
    Ok(())
}

fn count(tally: &mut Tally, course: &Course) {
    match course.end {
        End::Done => tally.done = tally.done.wrapping_add(1),
        End::Refused => tally.refused = tally.refused.wrapping_add(1),
        End::Going => tally.going = tally.going.wrapping_add(1),
    }
    tally.changes = tally.changes.wrapping_add(u32::from(course.changes));
}

#[test]
fn rails_command_their_old_or_their_new_voltage(rt: HostRuntime) -> Result<(), SetupFault> {
    let mut tally = Tally {
        done: 0,
        refused: 0,
        going: 0,
        changes: 0,
        orders: 0,
        surveyed: 0,
        lost: 0,
    };
    for seed in 0..200 {
        lives(&rt, seed, &mut tally)?;
    }
    is_true(&rt, tally.done >= 40, &tally);
    is_true(&rt, tally.refused >= 40, &tally);
    is_true(&rt, tally.changes >= 20, &tally);
    is_true(&rt, tally.going.wrapping_add(tally.lost) <= 3, &tally);
    Ok(())
}
