//! Parts whose OPERATION reads a reserved bit as 1: which steps to a byte are over, what was sent, and which part still counts as restarted.

use crate::checks::equal;
use crate::sequences::part::{Part, carried};
use crate::sequences::{DOWN, LOOKS, NOT, PART, UP, guard};
use pm_course::CourseEnd;
use pm_delivery::Heard;
use pm_limits::Guard;
use pm_sequence::{End, Looks, Rules, Sequence, Step};
use pm_stairs::{Act, Placed, Step as Output, StepEnd, same_command};
use pm_table::{Cell, Reg};

// What was wanted, what is held, and whether that is its command: a bit at a time, and each that doesn't count.
#[rattlefmt::skip]
static BYTES: [(u16, u16, bool); 26] = [
    (0x80, 0x80, true), (0x80, 0x81, true), (0x80, 0x82, true), (0x80, 0x83, true),
    (0x80, 0x84, false), (0x80, 0x88, false), (0x80, 0x90, false), (0x80, 0xA0, false),
    (0x80, 0xC0, false), (0x80, 0x00, false), (0x00, 0x01, true), (0x00, 0x02, true),
    (0x00, 0x04, false), (0x00, 0x40, false), (0x00, 0x80, false), (0x40, 0x43, true),
    (0x40, 0x00, false), (0x94, 0x95, true), (0x94, 0x96, true), (0x94, 0x98, false),
    (0x94, 0xA4, false), (0xA8, 0xAB, true), (0xB0, 0xB1, true), (0xB0, 0xB2, false),
    (0xB2, 0xB0, false), (0xB2, 0xB3, true),
];

#[test]
fn bits_that_do_not_count_are_two(rt: HostRuntime) {
    for (wanted, held, same) in &BYTES {
        compare! { &rt, "same_command";
            (*wanted, *held, same_command(*wanted, *held)) => (*wanted, *held, *same) }
    }
}

// A step to a byte: its rules, whether its rail is looked at, the byte; what OPERATION holds before and the bits that it reads as 1; how it ends, what
// it holds then, what the host knows of it, and the writes.
#[rattlefmt::skip]
type ByteRow = (&'static str, Rules, Looks, (u16, u16, u16), End, u16, u16, usize);

const RESTARTED: End = End::Stopped(StepEnd::Restarted);

const HOLDS_84: End = End::Stopped(StepEnd::Course(CourseEnd::Differs(Reg::Operation, 0x84)));

const HOLDS_80: End = End::Stopped(StepEnd::Course(CourseEnd::Differs(Reg::Operation, 0x80)));

#[rattlefmt::skip]
static BYTE_ROWS: [ByteRow; 14] = [
    ("on", UP, LOOKS, (0x80, 0x00, 1), End::Reached, 0x80, 0x81, 1),
    ("on, unlooked at", UP, NOT, (0x80, 0x00, 1), End::Reached, 0x80, 0x81, 1),
    ("on, held already", UP, LOOKS, (0x80, 0x80, 1), End::Reached, 0x80, 0x81, 0),
    ("on, bit 1", UP, LOOKS, (0x80, 0x00, 2), End::Reached, 0x80, 0x82, 1),
    ("on, both bits", DOWN, LOOKS, (0x80, 0x00, 3), End::Reached, 0x80, 0x83, 1),
    ("margin low", UP, NOT, (0x94, 0x80, 3), End::Reached, 0x94, 0x97, 1),
    ("off", DOWN, LOOKS, (0x00, 0x80, 1), End::Reached, 0x00, 0x01, 2),
    ("off, with a way back", UP, LOOKS, (0x00, 0x80, 1), End::Reached, 0x00, 0x01, 2),
    ("off, bit 1", DOWN, LOOKS, (0x00, 0x80, 2), End::Reached, 0x00, 0x02, 2),
    ("off, held already", DOWN, LOOKS, (0x00, 0x00, 1), End::Reached, 0x00, 0x01, 2),
    ("soft off", DOWN, LOOKS, (0x40, 0x80, 3), End::Reached, 0x40, 0x43, 2),
    ("on, bit 2", UP, LOOKS, (0x80, 0x00, 4), RESTARTED, 0x80, 0x84, 1),
    ("on, bit 2, on the way down", DOWN, LOOKS, (0x80, 0x00, 4), HOLDS_84, 0x80, 0x84, 2),
    ("off, bit 7", DOWN, LOOKS, (0x00, 0x80, 0x80), HOLDS_80, 0x00, 0x80, 4),
];

#[test]
fn a_step_to_a_byte_is_over_but_for_reserved_bits(rt: HostRuntime) {
    for (name, rules, looks, (byte, before, reserved), end, held, known, writes) in &BYTE_ROWS {
        let rules = with! { Rules, *rules; leaves: false };
        let mut parts = [PART];
        parts[0].words[0][0] = *before;
        parts[0].reserved = *reserved;
        let mut guards = [guard(&rt)];
        let run = carried(
            Sequence::new(60, rules),
            &mut guards,
            &mut parts,
            &[turns(*byte, *looks)],
        );
        compare! { &rt, name;
            (run.end, parts[0].words[0][0], operation_of(&guards[0]), parts[0].writes) =>
                (Some(*end), *held, Some(*known), *writes);
        }
    }
}

// The byte that a host knows OPERATION of output 0 to hold.
fn operation_of(guard: &Guard) -> Option<u16> {
    let cell = Cell::Out(0, Reg::Operation);
    match guard.host().state().known.possible(cell).listed() {
        Some([word]) => Some(*word),
        _ => None,
    }
}

fn turns(byte: u16, looks: Looks) -> Step {
    Step {
        placed: Placed {
            host: 0,
            step: Output {
                output: 0,
                act: Act::Turns(byte),
            },
        },
        wait: 0,
        looks,
        before: Heard::NOTHING,
    }
}

// The words with which output 0 comes up anew: on, at 1.5 V.
const ANEW: [u16; 6] = [0x80, 0x1800, 0x4000, 0x1100, 0x0F00, 0x0000];

#[test]
fn a_part_that_comes_up_anew_has_restarted(rt: HostRuntime) {
    for frames in 1..19usize {
        #[rattlefmt::skip]
        let mut parts = [Part { reserved: 1, restarts: Some(frames), anew: ANEW, ..PART }];
        parts[0].words[0][0] = 0x00;
        let steps = [turns(0x80, NOT)];
        let run = carried(Sequence::new(60, UP), &mut [guard(&rt)], &mut parts, &steps);
        let wanted = if frames < 2 { End::Reached } else { RESTARTED };
        equal(&rt, &(frames, run.end), &(frames, Some(wanted)), &"on");
    }
}
