//! Courses that a driver carries out over a bus with faults: how they end, how many frames they sent, and what the converter
//! holds.

use super::{begun, whole};
use crate::checks::{equal, is_true};
use crate::{BASE, OUTPUT};
use pm_course::{AnswerFault, CourseEnd, FrameCourse, Refusal, Wish, Wishes};
use pm_device::{Config, Converter, OutputStart};
use pm_driver::{Bus, Driver, Fault};
use pm_table::{Cell, Code, Coefficients, Reg};
use pm_world::Back;
use std::array;
use std::process::Abort;

// What goes wrong with a frame: a write is lost, and falsely acknowledged; an answer is cut; the converter restarts
// before it.
#[derive(Clone, Copy, Debug)]
enum Wrong {
    Lost,
    Cut,
    Restarted,
}

use Wrong::{Cut, Lost, Restarted};

fn fault(wrong: Wrong) -> Fault {
    match wrong {
        Lost => Fault {
            heard: None,
            ..whole()
        },
        Cut => Fault {
            back: Back::Cut(2),
            ..whole()
        },
        Restarted => Fault {
            restarts: true,
            ..whole()
        },
    }
}

// The plan of 24 faults in which these go wrong, each at its place.
fn plan(wrong: &[(usize, Wrong)]) -> [Fault; 24] {
    array::from_fn(|number| {
        match wrong.iter().find(|(place, _)| *place == number) {
            Some((_, wrong)) => fault(*wrong),
            None => whole(),
        }
    })
}

// A word that is wanted, or none.
fn wish(word: Option<u16>) -> Wish {
    match word {
        Some(word) => Wish::Word(word),
        None => Wish::Stay,
    }
}

// The words that are wanted: VOUT_COMMAND and VOUT_MAX.
fn wanted(command: Option<u16>, max: Option<u16>) -> Wishes {
    with! { Wishes, Wishes::nothing(); command: wish(command), max: wish(max) }
}

// The word of a register of the first output that the converter holds.
fn held(device: &Converter, register: Reg) -> u16 {
    if device.count() == 0 {
        return 0;
    }
    device.word(Cell::Out(0, register))
}

// Carries a course out.
fn completed<B: Bus>(
    rt: &impl Abort,
    driver: &mut Driver<B>,
    mut course: FrameCourse,
) -> CourseEnd {
    let output = course.course.survey.output;
    is_true(rt, output < driver.host().outputs(), &output);
    driver.run_course(&mut course)
}

// Carries a course of the first output to words out.
fn applied<B: Bus>(
    rt: &impl Abort,
    driver: &mut Driver<B>,
    wanted: &Wishes,
    tries: u16,
) -> CourseEnd {
    completed(rt, driver, FrameCourse::new(0, wanted, tries))
}

// What a register of the first output is known to hold.
fn known<B: Bus>(rt: &impl Abort, driver: &Driver<B>, register: Reg) -> Option<u16> {
    is_true(rt, 0 < driver.host().outputs(), &register);
    match driver.host().listed(Cell::Out(0, register)) {
        Some([word]) => Some(*word),
        _ => None,
    }
}

// What goes wrong, with orders of one pass, and the tries; how it ends that VOUT_COMMAND is to be 3.3 V and VOUT_MAX
// 3.465 V, from 1 V and 4 V, after how many frames, and the words that are held then.
#[rattlefmt::skip]
static ENDS: [(&[(usize, Wrong)], u16, CourseEnd, usize, [u16; 2]); 12] = [
    // A learn and five checks, two orders, and all of these once more.
    (&[], 60, CourseEnd::Reached, 16, [0x34CD, 0x3770]),
    // The tries are just enough, or one fewer; or enough for one order.
    (&[], 14, CourseEnd::Reached, 16, [0x34CD, 0x3770]),
    (&[], 13, CourseEnd::Spent { code: Code(0x10), fault: None }, 15, [0x34CD, 0x3770]),
    (&[], 7, CourseEnd::Spent { code: Code(0x24), fault: None }, 8, [0x34CD, 0x4000]),
    (&[], 6, CourseEnd::Spent { code: Code(0x21), fault: None }, 6, [0x1000, 0x4000]),
    (&[], 0, CourseEnd::Spent { code: Code(0x20), fault: None }, 0, [0x1000, 0x4000]),
    // An order that differs is given once more.
    (&[(6, Lost)], 60, CourseEnd::Reached, 18, [0x34CD, 0x3770]),
    // An order that differs again is the end.
    (&[(6, Lost), (8, Lost)], 60, CourseEnd::Differs(Reg::VoutCommand, 0x1000), 10,
        [0x1000, 0x4000]),
    // Each of two registers may differ once.
    (&[(6, Lost), (10, Lost)], 60, CourseEnd::Reached, 20, [0x34CD, 0x3770]),
    // An order that ended unknown is checked before the next, even if it never took.
    (&[(7, Cut)], 60, CourseEnd::Reached, 17, [0x34CD, 0x3770]),
    (&[(6, Lost), (7, Cut)], 60, CourseEnd::Reached, 19, [0x34CD, 0x3770]),
    // An answer that doesn't come is asked for again.
    (&[(0, Cut), (3, Cut)], 60, CourseEnd::Reached, 18, [0x34CD, 0x3770]),
];

#[test]
fn a_plan_is_carried_out(rt: HostRuntime) {
    let wanted = wanted(Some(0x34CD), Some(0x3770));
    for (wrong, tries, end, frames, words) in &ENDS {
        let plan = plan(wrong);
        let mut driver = begun(&rt, BASE, 1, &plan);
        let at = (*wrong, *tries);
        equal(&rt, &applied(&rt, &mut driver, &wanted, *tries), end, &at);
        equal(&rt, &driver.bus().next, frames, &at);
        let device = &driver.bus().device;
        let found = [held(device, Reg::VoutCommand), held(device, Reg::VoutMax)];
        equal(&rt, &found, words, &at);
    }
}

// The converter restarts before any one of the frames: all is brought about again, unless what is read after the
// restart is what was held before it too, VOUT_MIN and WRITE_PROTECT.
#[test]
fn a_restart_is_made_good(rt: HostRuntime) {
    let wanted = wanted(Some(0x34CD), Some(0x3770));
    for place in 0..16 {
        let plan = plan(&[(place, Restarted)]);
        let mut driver = begun(&rt, BASE, 1, &plan);
        let end = applied(&rt, &mut driver, &wanted, 60);
        equal(&rt, &end, &CourseEnd::Reached, &place);
        let device = &driver.bus().device;
        let is_seen = place < 14;
        let command = if is_seen { 0x34CD } else { 0x1000 };
        let max = if is_seen { 0x3770 } else { 0x4000 };
        equal(&rt, &held(device, Reg::VoutCommand), &command, &place);
        equal(&rt, &held(device, Reg::VoutMax), &max, &place);
    }
}

// What is wanted, what WRITE_PROTECT holds, and by which number and of which code the course is refused, after its six reads and before
// it writes.
static REFUSED: [(Option<u16>, Option<u16>, u16, u8, u8); 5] = [
    (Some(0x5000), None, 0x00, 0x66, 0x21),
    (None, Some(0x0800), 0x00, 0x66, 0x21),
    (Some(0x34CD), Some(0x3770), 0x20, 0x67, 0x24),
    (Some(0x7000), Some(0x7000), 0x00, 0x24, 0x21),
    (None, Some(0x0100), 0x00, 0x23, 0x24),
];

#[test]
fn a_plan_is_refused_before_it_writes(rt: HostRuntime) {
    for (command, max, protect, number, code) in &REFUSED {
        let plan = plan(&[]);
        let config = with! { Config, BASE; protect: *protect };
        let mut driver = begun(&rt, config, 2, &plan);
        let at = (*command, *max);
        equal(&rt, &driver.narrow(0, 100_000, 6_000_000).err(), &None, &at);
        let end = applied(&rt, &mut driver, &wanted(*command, *max), 60);
        let refusal = Refusal {
            number: *number,
            register: Some(Code(*code)),
        };
        equal(&rt, &end, &CourseEnd::Refused(refusal), &at);
        equal(&rt, &driver.bus().next, &6, &at);
    }
}

#[test]
fn a_rail_as_it_is_wanted_is_only_read(rt: HostRuntime) {
    let plan = plan(&[]);
    let mut driver = begun(&rt, BASE, 2, &plan);
    let wanted = wanted(Some(0x1000), None);
    for frames in [6, 12] {
        let end = applied(&rt, &mut driver, &wanted, 60);
        compare! { &rt, frames; (end, driver.bus().next) => (CourseEnd::Reached, frames) }
    }
}

// A survey sends one frame more than registers that it reads, two if the format is DIRECT.
#[test]
fn a_survey_sends_a_frame_for_each_register(rt: HostRuntime) {
    for (mode, more) in &[(0x14, 1), (0x40, 2)] {
        let config = Config {
            starts: [with! { OutputStart, OUTPUT; mode: *mode }; 8],
            coefficients: Coefficients { m: 1, b: 0, r: 3 },
            ..BASE
        };
        for (course, registers) in &[
            (FrameCourse::survey(0, 40), 4),
            (FrameCourse::new(0, &wanted(None, None), 40), 5),
            (FrameCourse::new(0, &wanted(Some(0x1000), None), 40), 5),
        ] {
            let plan = plan(&[]);
            let mut driver = begun(&rt, config, 2, &plan);
            let end = completed(&rt, &mut driver, *course);
            compare! { &rt, (mode, registers);
                end => CourseEnd::Reached;
                driver.bus().next => usize::wrapping_add(*registers, *more);
            }
        }
    }
}

// A survey without enough tries knows what it read, and a further one reads all; an end says what isn't known.
#[test]
fn what_is_not_known_is_told(rt: HostRuntime) {
    let plan = plan(&[]);
    let mut driver = begun(&rt, BASE, 1, &plan);
    #[rattlefmt::skip]
    let rows = [
        (3, CourseEnd::Spent { code: Code(0x24), fault: None }, 3, None),
        (5, CourseEnd::Reached, 8, Some(0x4000)),
    ];
    for (tries, wanted, frames, max) in &rows {
        let end = completed(&rt, &mut driver, FrameCourse::survey(0, *tries));
        compare! { &rt, tries;
            (end, driver.bus().next) => (*wanted, *frames);
            known(&rt, &driver, Reg::Operation) => Some(0x80);
            known(&rt, &driver, Reg::VoutMax) => *max;
            known(&rt, &driver, Reg::MarginLow) => None;
        }
    }
    // The order of VOUT_COMMAND ends unknown, and no try is left to check it.
    let plan = self::plan(&[(7, Cut)]);
    let mut driver = begun(&rt, BASE, 1, &plan);
    let end = applied(&rt, &mut driver, &wanted(Some(0x34CD), None), 7);
    let spent = CourseEnd::Spent {
        code: Code(0x21),
        fault: Some(AnswerFault::Short),
    };
    compare! { &rt, 3;
        end => spent;
        known(&rt, &driver, Reg::VoutCommand) => None;
        known(&rt, &driver, Reg::VoutMax) => Some(0x4000);
        held(&driver.bus().device, Reg::VoutCommand) => 0x34CD;
    }
}

// What goes wrong with a course that turns the first output off, and its tries; how it ends, after how many frames, and the
// byte of OPERATION that is held then.
#[rattlefmt::skip]
static OFFS: [(&[(usize, Wrong)], u16, CourseEnd, usize, u16); 6] = [
    // The order is the first frame, and its read-back the second: nothing else is read.
    (&[], 1, CourseEnd::Reached, 2, 0x00),
    (&[], 0, CourseEnd::Spent { code: Code(0x01), fault: None }, 0, 0x80),
    // An order whose read-back doesn't come, or differs, is given once more.
    (&[(1, Cut)], 4, CourseEnd::Reached, 4, 0x00),
    (&[(0, Lost)], 4, CourseEnd::Reached, 4, 0x00),
    // A second difference is the end.
    (&[(0, Lost), (2, Lost)], 4, CourseEnd::Differs(Reg::Operation, 0x80), 4, 0x80),
    // No try is left for the second order.
    (&[(0, Lost)], 1, CourseEnd::Spent { code: Code(0x01), fault: None }, 2, 0x80),
];

#[test]
fn an_output_is_turned_off_before_anything_is_read(rt: HostRuntime) {
    for (wrong, tries, end, frames, byte) in &OFFS {
        let plan = plan(wrong);
        let mut driver = begun(&rt, BASE, 1, &plan);
        let ended = completed(&rt, &mut driver, FrameCourse::power(0, 0x00, *tries));
        compare! { &rt, frames;
            ended => *end;
            driver.bus().next => *frames;
            held(&driver.bus().device, Reg::Operation) => *byte;
        }
    }
}

// Courses one after the other over a driver, and how many frames were sent once each had reached its end.
#[test]
fn courses_to_a_byte_and_to_nothing_are_carried_out(rt: HostRuntime) {
    let off = FrameCourse::power(0, 0x00, 4);
    let on = FrameCourse::power(0, 0x80, 60);
    #[rattlefmt::skip]
    let rows = [
        // Off is ordered once more if the byte is known. To nothing: a learn and four checks, and no order.
        ([(off, 2), (off, 4), (FrameCourse::survey(0, 5), 9)], 0x00),
        // On, if the output is on: as many, and no order. On, after it was turned off: as many, WRITE_PROTECT, the order, and
        // as many once more.
        ([(on, 5), (off, 7), (on, 20)], 0x80),
    ];
    for (courses, byte) in &rows {
        let plan = plan(&[]);
        let mut driver = begun(&rt, BASE, 1, &plan);
        for (course, frames) in courses {
            let end = completed(&rt, &mut driver, *course);
            compare! { &rt, frames; (end, driver.bus().next) => (CourseEnd::Reached, *frames) }
        }
        equal(&rt, &held(&driver.bus().device, Reg::Operation), byte, byte);
    }
}
