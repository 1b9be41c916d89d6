//! Orders that turn an output on: what is read directly before them, and that none goes into a part that came up anew.

use crate::checks::equal;
use crate::sequences::part::{Part, Run, carried};
use crate::sequences::{DOWN, LOOKS, NOT, PART, UP, guard, on, sets};
use pm_course::{CourseEnd, Refusal};
use pm_delivery::Verdict;
use pm_limits::Guard;
use pm_sequence::{End, Looks, Rules, Sequence, Step};
use pm_stairs::StepEnd;
use pm_table::Code;
use std::process::Abort;

// VOUT_MODE, OPERATION, VOUT_COMMAND, VOUT_MAX, VOUT_MIN and WRITE_PROTECT, twice, with the look before the first order between, whose limits
// that the part lacks are asked twice; the order, and its read; the survey after it, and the look.
static LOOKED: [u8; 29] = [
    0x20, 0x01, 0x21, 0x24, 0x2B, 0x10, 0x79, 0x40, 0x42, 0x42, 0x43, 0x43, 0x44, 0x44, 0x20, 0x01,
    0x21, 0x24, 0x2B, 0x10, 0x01, 0x01, 0x20, 0x01, 0x21, 0x24, 0x2B, 0x79, 0x8B,
];

// The same of a rail that isn't looked at.
static UNLOOKED: [u8; 19] = [
    0x20, 0x01, 0x21, 0x24, 0x2B, 0x10, 0x20, 0x01, 0x21, 0x24, 0x2B, 0x10, 0x01, 0x01, 0x20, 0x01,
    0x21, 0x24, 0x2B,
];

// A list whose steps all turn on output 0 of one part, at first off, and what it comes to.
fn turned_on(rt: &impl Abort, rules: Rules, looks: Looks, guard: Guard, part: Part) -> (Run, Part) {
    let mut parts = [part];
    parts[0].words[0][0] = 0x00;
    let steps: [Step; 1] = [on(0, 0, looks)];
    let run = carried(Sequence::new(60, rules), &mut [guard], &mut parts, &steps);
    let [part] = parts;
    (run, part)
}

#[test]
fn all_that_decides_is_read_directly_before_the_order(rt: HostRuntime) {
    let rows: [(&'static str, Looks, &'static [u8]); 2] = [
        ("looked at", LOOKS, &LOOKED),
        ("not looked at", NOT, &UNLOOKED),
    ];
    for (name, looks, codes) in &rows {
        let (run, part) = turned_on(&rt, UP, *looks, guard(&rt), PART);
        compare! { &rt, name;
            (run.end, part.writes, part.words[0][0]) => (Some(End::Reached), 1, 0x80);
            part.frames => codes.len();
        }
        for (code, wanted) in part.codes.iter().zip(codes.iter()) {
            equal(&rt, code, wanted, name);
        }
    }
}

// The words with which output 0 comes up anew: off, at 1.5 V.
const ANEW: [u16; 6] = [0x00, 0x1800, 0x4000, 0x1100, 0x0F00, 0x0000];

// A guard that lets output 0 have 0.8 to 1.1 V.
fn narrowed(rt: &impl Abort) -> Guard {
    let mut guard = guard(rt);
    let _ = guard.narrow(0, 800_000, 1_100_000);
    guard
}

#[test]
fn no_order_goes_into_a_part_that_came_up_anew(rt: HostRuntime) {
    let restarted = End::Stopped(StepEnd::Restarted);
    let above = End::Stopped(StepEnd::Course(CourseEnd::Refused(Refusal {
        number: 0x25,
        register: Some(Code::OPERATION),
    })));
    let going = with! { Rules, DOWN; leaves: false };
    // The rules, after how many frames it restarts, how many it doesn't answer then, and how the list ends.
    #[rattlefmt::skip]
    let rows: [(&'static str, Rules, usize, usize, End); 5] = [
        ("in the look before the order", UP, 10, 0, restarted),
        ("after the look", UP, 14, 0, restarted),
        ("after VOUT_COMMAND was read", UP, 17, 1, restarted),
        ("after the look, and the list goes on", going, 14, 0, above),
        ("after VOUT_COMMAND was read, and the list goes on", going, 17, 1, above),
    ];
    for (name, rules, frames, silent, end) in &rows {
        let part = with! { Part, PART; restarts: Some(*frames), anew: ANEW, silent: *silent };
        let (run, part) = turned_on(&rt, *rules, LOOKS, narrowed(&rt), part);
        compare! { &rt, name; (run.end, part.writes, part.words[0]) => (Some(*end), 0, ANEW) }
    }
}

#[test]
fn a_look_that_finds_a_part_anew_ends_at_once(rt: HostRuntime) {
    let restarted = End::Stopped(StepEnd::Restarted);
    let off = End::Does(Verdict::IsOff);
    let going = with! { Rules, DOWN; leaves: false };
    // The rules, how the list ends, and how many frames are sent: STATUS_WORD and OPERATION, or these in each of four rounds.
    let rows: [(&'static str, Rules, End, usize); 2] = [
        ("a list that a restart ends", UP, restarted, 29),
        ("a list that goes on", going, off, 35),
    ];
    for (name, rules, end, frames) in &rows {
        let part = with! { Part, PART; restarts: Some(27), anew: ANEW };
        let (run, part) = turned_on(&rt, *rules, LOOKS, guard(&rt), part);
        equal(&rt, &(run.end, part.frames), &(Some(*end), *frames), name);
    }
}

#[test]
fn a_voltage_above_its_limit_ends_at_once_unless_it_was_lowered(rt: HostRuntime) {
    let outside = End::Does(Verdict::OutsideLimits);
    // OPERATION before, the voltage that it has then, the step, for how many reads READ_VOUT is above the limit, and how the list ends.
    #[rattlefmt::skip]
    let rows: [(&'static str, u16, u16, Step, usize, End); 6] = [
        ("raised", 0x80, 0x0E00, sets(0, 0, 1_000_000, LOOKS), 2, outside),
        ("lowered", 0x80, 0x1180, sets(0, 0, 1_000_000, LOOKS), 2, End::Reached),
        ("lowered, and not in time", 0x80, 0x1180, sets(0, 0, 1_000_000, LOOKS), 9, outside),
        ("turned on", 0x00, 0x1000, on(0, 0, LOOKS), 2, outside),
        ("from margin high", 0xA8, 0x1000, on(0, 0, LOOKS), 2, End::Reached),
        ("from margin low", 0x98, 0x1000, on(0, 0, LOOKS), 2, outside),
    ];
    for (name, operation, command, step, ramps, end) in &rows {
        let mut parts = [with! { Part, PART; ramps: *ramps }];
        parts[0].words[0][0] = *operation;
        parts[0].words[0][1] = *command;
        let run = carried(
            Sequence::new(60, UP),
            &mut [narrowed(&rt)],
            &mut parts,
            &[*step],
        );
        equal(&rt, &run.end, &Some(*end), name);
    }
}

// An order that is lost once is read back in each pass, and written in none but the first. All is read again before the next one.
static LOST: [u8; 37] = [
    0x20, 0x01, 0x21, 0x24, 0x2B, 0x10, 0x79, 0x40, 0x42, 0x42, 0x43, 0x43, 0x44, 0x44, 0x20, 0x01,
    0x21, 0x24, 0x2B, 0x10, 0x01, 0x01, 0x01, 0x20, 0x01, 0x21, 0x24, 0x2B, 0x10, 0x01, 0x01, 0x20,
    0x01, 0x21, 0x24, 0x2B, 0x79,
];

#[test]
fn an_order_is_written_once_a_job(rt: HostRuntime) {
    let lost = Part { loses: 1, ..PART };
    let (run, part) = turned_on(&rt, UP, LOOKS, guard(&rt), lost);
    compare! { &rt, "lost once";
        (run.end, part.writes, part.words[0][0]) => (Some(End::Reached), 2, 0x80) }
    for (code, wanted) in part.codes.iter().zip(LOST.iter()) {
        equal(&rt, code, wanted, &"lost once");
    }
    // The part hears the order, and comes up anew before it is read back, or once it was in the first pass.
    for frames in [21usize, 22] {
        let anew = with! { Part, PART; restarts: Some(frames), anew: ANEW };
        let (run, part) = turned_on(&rt, UP, LOOKS, narrowed(&rt), anew);
        compare! { &rt, frames;
            (run.end, part.writes, part.words[0]) =>
                (Some(End::Stopped(StepEnd::Restarted)), 1, ANEW);
        }
    }
}

#[test]
fn a_step_has_two_orders_at_most_that_turn_on(rt: HostRuntime) {
    let spent = End::Stopped(StepEnd::Course(CourseEnd::Spent {
        code: Code::OPERATION,
        fault: None,
    }));
    // How many writes are lost, how many frames after each aren't answered, how the list ends, and how many were written.
    let rows: [(usize, usize, End, usize); 3] = [
        (1, 2, End::Reached, 2),
        (2, 2, spent, 2),
        (100, 2, spent, 2),
    ];
    for (loses, mutes, end, writes) in &rows {
        let part = with! { Part, PART; loses: *loses, mutes: *mutes };
        let (run, part) = turned_on(&rt, UP, LOOKS, guard(&rt), part);
        compare! { &rt, (*loses, *mutes); (run.end, part.writes) => (Some(*end), *writes) }
    }
}
