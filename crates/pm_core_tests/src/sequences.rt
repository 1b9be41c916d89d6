//! Sequences, frame after frame, over parts that are written by hand: how each ends, and what was sent.

mod fresh;
mod part;
mod reserved;
mod rules;

use self::part::{Part, Run, carried};
use pm_course::{Wish, Wishes};
use pm_delivery::{DeliveryFault, Heard, Question, Verdict};
use pm_host::Host;
use pm_limits::Guard;
use pm_sequence::{End, Looks, Rules, Sequence, Step};
use pm_stairs::{Act as Does, Placed, Step as Output};
use std::process::Abort;

// A part whose outputs are on at 1 V.
pub(crate) const PART: Part = Part {
    words: [
        [0x80, 0x1000, 0x4000, 0x1100, 0x0F00, 0x0000],
        [0x80, 0x1000, 0x4000, 0x1100, 0x0F00, 0x0000],
    ],
    status: Some(0x0000),
    has_vout: true,
    limit: Some(0x2000),
    gone_after: 100000,
    is_deaf: false,
    is_dead: false,
    frames: 0,
    writes: 0,
    restarts: None,
    anew: [0; 6],
    silent: 0,
    loses: 0,
    mutes: 0,
    mute: 0,
    ramps: 0,
    reserved: 0,
    codes: [0; 96],
};

pub(crate) const LOOKS: Looks = Looks {
    is_wanted: true,
    must_deliver: false,
    tells_power_good: false,
    lacks_status_word: false,
    lacks_read_vout: false,
    fault_limits: 0,
    within: 50,
    rounds: 4,
};

// Of a rail that isn't looked at.
pub(crate) const NOT: Looks = with! { Looks, LOOKS; is_wanted: false };

pub(crate) const MUST: Looks = Looks {
    is_wanted: true,
    must_deliver: true,
    tells_power_good: false,
    lacks_status_word: false,
    lacks_read_vout: false,
    fault_limits: 0,
    within: 50,
    rounds: 4,
};

// A guard of a part with two outputs, of two passes.
pub(crate) fn guard(rt: &impl Abort) -> Guard {
    match Host::new(0x58, 2, 2) {
        Ok(host) => {
            let mut guard = Guard::over(host);
            let _ = guard.no_limits(0);
            let _ = guard.no_limits(1);
            guard
        }
        Err(fault) => panic!(rt; "{fault}"),
    }
}

// A step that gives VOUT_COMMAND a voltage.
pub(crate) fn sets(host: u8, output: u8, microvolts: i64, looks: Looks) -> Step {
    let mut wishes = Wishes::nothing();
    wishes.command = Wish::Microvolts(microvolts);
    step_of(host, output, Does::Sets(wishes), looks)
}

// A step that turns an output off.
pub(crate) fn off(host: u8, output: u8, looks: Looks) -> Step {
    step_of(host, output, Does::Turns(0x00), looks)
}

// A step that turns an output on.
pub(crate) fn on(host: u8, output: u8, looks: Looks) -> Step {
    step_of(host, output, Does::Turns(0x80), looks)
}

fn step_of(host: u8, output: u8, act: Does, looks: Looks) -> Step {
    Step {
        placed: Placed {
            host,
            step: Output { output, act },
        },
        wait: 0,
        looks,
        before: Heard::NOTHING,
    }
}

// The same, once so many milliseconds have passed.
pub(crate) fn after(wait: u32, step: Step) -> Step {
    Step { wait, ..step }
}

// A way up that ends at a step that stops, and a way down that leaves it. Neither asks before orders.
pub(crate) const UP: Rules = Rules {
    keeps_back: true,
    ends_at_restart: true,
    leaves: false,
    asks: false,
};

pub(crate) const DOWN: Rules = Rules {
    keeps_back: false,
    ends_at_restart: false,
    leaves: true,
    asks: false,
};

// What a list comes to over two parts, and these then.
pub(crate) fn over(
    rt: &impl Abort,
    rules: Rules,
    parts: [Part; 2],
    steps: &[Step],
) -> (Run, [Part; 2]) {
    let mut parts = parts;
    let run = carried(
        Sequence::new(60, rules),
        &mut [guard(rt), guard(rt)],
        &mut parts,
        steps,
    );
    (run, parts)
}

// STATUS_WORD gave no answer in the last round.
const SILENT: Verdict = Verdict::NotKnown(Question::StatusWord, 1);

// It wasn't asked there.
const UNASKED: Verdict = Verdict::NotKnown(Question::StatusWord, 0);

// What one set of output 0 comes to: how it ends, what was found last, the frames and the writes.
#[rattlefmt::skip]
type SetRow = (&'static str, Part, Looks, i64, End, Option<Verdict>, usize, usize);

#[test]
fn a_set_ends_by_what_its_rail_does(rt: HostRuntime) {
    let found = Some(Verdict::Delivers);
    let blind = with! { Part, PART; status: None, has_vout: false };
    #[rattlefmt::skip]
    let rows: [SetRow; 13] = [
        ("a good set", PART, MUST, 1_200_000, End::Reached, found, 24, 1),
        ("a word that is held", PART, LOOKS, 1_000_000, End::Reached, found, 8, 0),
        ("a part without STATUS_WORD", Part { status: None, ..PART }, MUST, 1_200_000, End::Reached,
            Some(Verdict::DeliversByVoltage), 28, 1),
        ("a part without READ_VOUT", Part { has_vout: false, ..PART }, MUST, 1_200_000,
            End::Reached, found, 30, 1),
        ("a part without both", blind, LOOKS, 1_200_000, End::Does(UNASKED), None, 35, 1),
        ("a part without both, as the caller says", blind,
            Looks { lacks_status_word: true, lacks_read_vout: true, ..LOOKS }, 1_200_000,
            End::Reached, Some(UNASKED), 21, 1),
        ("the same, and it has to deliver", blind,
            Looks { lacks_status_word: true, lacks_read_vout: true, ..MUST }, 1_200_000,
            End::Does(UNASKED), None, 21, 1),
        ("a fault limit below the voltage", Part { limit: Some(0x1200), ..PART }, LOOKS, 1_200_000,
            End::Beyond(DeliveryFault::BeyondFaultLimit(Question::OvFaultLimit, 0x1200)), None, 14,
            0),
        ("the same, which is told alone", Part { limit: Some(0x1200), ..PART },
            Looks { fault_limits: 1, ..LOOKS }, 1_200_000, End::Reached, found, 24, 1),
        ("a rail that is off", Part { is_dead: true, ..PART }, LOOKS, 1_200_000,
            End::Does(Verdict::IsOff), None, 30, 1),
        ("the bus is gone once the word is confirmed", Part { gone_after: 22, ..PART }, LOOKS,
            1_200_000, End::Does(SILENT), None, 30, 1),
        ("the bus is gone though nothing is ordered", Part { gone_after: 6, ..PART }, LOOKS,
            1_000_000, End::Does(SILENT), None, 22, 0),
        ("nothing is looked at", PART, Looks { is_wanted: false, ..LOOKS }, 1_200_000, End::Reached,
            None, 14, 1),
    ];
    for (name, part, looks, microvolts, end, found, frames, writes) in &rows {
        let steps = [sets(0, 0, *microvolts, *looks)];
        let (run, parts) = over(&rt, UP, [*part, PART], &steps);
        compare! { &rt, name;
            (run.end, run.found, parts[0].frames, parts[0].writes) =>
                (Some(*end), *found, *frames, *writes);
        }
    }
}

// A list over two parts, each of two outputs: how it ends, how often was looked at a rail that does what it is to, the waits, and OPERATION and
// VOUT_COMMAND of each output then.
#[rattlefmt::skip]
pub(crate) type ListRow = (&'static str, Rules, [Part; 2], [Step; 3], End, usize, u32,
    [(u16, u16); 4]);

pub(crate) fn check_lists(rt: &impl Abort, rows: &[ListRow]) {
    for (name, rules, parts, steps, end, found, waits, words) in rows {
        let (run, parts) = over(rt, *rules, *parts, steps);
        let [near, far] = parts;
        let held = [
            (near.words[0][0], near.words[0][1]),
            (near.words[1][0], near.words[1][1]),
            (far.words[0][0], far.words[0][1]),
            (far.words[1][0], far.words[1][1]),
        ];
        compare! { rt, name;
            (run.end, run.founds, run.waits, held) => (Some(*end), *found, *waits, *words) }
    }
}

#[test]
fn a_list_goes_on_as_its_rails_deliver(rt: HostRuntime) {
    let up = [
        sets(0, 0, 1_200_000, MUST),
        after(15, sets(1, 0, 1_100_000, MUST)),
        after(5, sets(0, 1, 1_050_000, MUST)),
    ];
    let down = [off(0, 0, MUST), after(10, off(1, 0, MUST)), off(0, 1, MUST)];
    let dead = with! { Part, PART; is_dead: true };
    let deaf = with! { Part, PART; is_deaf: true };
    let gone = with! { Part, PART; gone_after: 0 };
    let on = (0x80, 0x1000);
    let is_off = (0x00, 0x1000);
    let goals = [(0x80, 0x1333), (0x80, 0x10CD), (0x80, 0x119A), on];
    #[rattlefmt::skip]
    let rows: [ListRow; 7] = [
        ("up", UP, [PART, PART], up, End::Reached, 3, 20, goals),
        ("up, and the second rail stays off", UP, [PART, dead], up, End::Does(Verdict::IsOff), 1,
            15, [(0x80, 0x1333), on, (0x80, 0x119A), on]),
        ("up, and the first rail stays off", UP, [dead, PART], up, End::Does(Verdict::IsOff), 0, 0,
            [(0x80, 0x1333), on, on, on]),
        ("down", DOWN, [PART, PART], down, End::Reached, 3, 10, [is_off, is_off, is_off, on]),
        ("down, and the first output stays on", DOWN, [deaf, PART], down, End::Left(1), 2, 10,
            [on, is_off, is_off, on]),
        ("down, and the second part is gone", DOWN, [PART, gone], down, End::Left(1), 2, 10,
            [is_off, is_off, on, on]),
        ("down, and the first part is gone", DOWN, [gone, PART], down, End::Left(2), 1, 10,
            [on, on, is_off, on]),
    ];
    check_lists(&rt, &rows);
}

#[test]
fn a_step_off_is_no_success_by_silence(rt: HostRuntime) {
    #[rattlefmt::skip]
    let rows = [
        ("off", LOOKS, 100000, End::Reached, None, 3),
        ("the bus is gone after the order", LOOKS, 2, End::Left(1), Some(End::Does(SILENT)), 18),
        ("the caller says that the part has no STATUS_WORD",
            Looks { lacks_status_word: true, ..LOOKS }, 100000, End::Reached, None, 2),
        ("the same, and it has to be known off", Looks { lacks_status_word: true, ..MUST }, 100000,
            End::Left(1), Some(End::Does(UNASKED)), 2),
    ];
    for (name, looks, gone_after, end, left, frames) in &rows {
        let part = with! { Part, PART; gone_after: *gone_after };
        let (run, parts) = over(&rt, DOWN, [part, PART], &[off(0, 0, *looks)]);
        compare! { &rt, name; (run.end, run.left, parts[0].frames) => (Some(*end), *left, *frames) }
    }
}

#[test]
fn a_step_that_orders_nothing_surveys_or_rests(rt: HostRuntime) {
    let blind = with! { Looks, LOOKS; is_wanted: false };
    let gone = with! { Part, PART; gone_after: 0 };
    #[rattlefmt::skip]
    let rows = [
        ("a survey", PART, Does::Surveys, blind, End::Reached, 0, 5),
        ("a rest", PART, Does::Rests, blind, End::Reached, 0, 0),
        ("a survey that is looked at", PART, Does::Surveys, MUST, End::Reached, 1, 7),
        ("a rest of a part that is gone", gone, Does::Rests, blind, End::Reached, 0, 0),
    ];
    for (name, part, act, looks, end, found, frames) in &rows {
        let steps = [step_of(0, 1, *act, *looks)];
        let (run, parts) = over(&rt, UP, [*part, PART], &steps);
        compare! { &rt, name;
            (run.end, run.founds, parts[0].frames, parts[0].writes) =>
                (Some(*end), *found, *frames, 0);
        }
    }
}

#[test]
fn steps_that_order_nothing_stand_between_others(rt: HostRuntime) {
    let steps = [
        step_of(0, 1, Does::Surveys, MUST),
        sets(0, 0, 1_200_000, MUST),
        step_of(0, 1, Does::Rests, MUST),
        step_of(0, 0, Does::Surveys, MUST),
    ];
    let (run, parts) = over(&rt, UP, [PART, PART], &steps);
    let [part, _] = parts;
    compare! { &rt, "over two outputs";
        (run.end, run.founds, part.writes, part.words[0][1], part.words[1][1]) =>
            (Some(End::Reached), 4, 1, 0x1333, 0x1000);
    }
}

#[test]
fn a_goal_beyond_a_limit_leaves_its_own_step(rt: HostRuntime) {
    let part = with! { Part, PART; limit: Some(0x1200) };
    let rules = Rules { leaves: true, ..UP };
    for host in 0..2_u8 {
        let steps = [
            sets(0, 0, 1_100_000, LOOKS),
            sets(host, 1 - host, 1_200_000, LOOKS),
        ];
        let (run, parts) = over(&rt, rules, [part, part], &steps);
        compare! { &rt, host;
            (run.end, parts[0].writes, parts[1].writes) => (Some(End::Left(1)), 1, 0) }
    }
}

#[test]
fn each_step_is_judged_by_what_it_asks_for(rt: HostRuntime) {
    let part = with! { Part, PART; limit: Some(0x1200) };
    let skips = with! { Looks, LOOKS; fault_limits: 2 };
    let steps = [sets(0, 0, 1_100_000, skips), sets(0, 0, 1_200_000, LOOKS)];
    let (run, parts) = over(&rt, UP, [part, PART], &steps);
    let refused = DeliveryFault::BeyondFaultLimit(Question::OvFaultLimit, 0x1200);
    compare! { &rt, "fault limits that an earlier step skipped";
        (run.end, parts[0].writes) => (Some(End::Beyond(refused)), 1) }
}
