//! Courses, frame after frame, over a part that is written by hand: what is sent, and how each course ends.

mod part;

use self::part::{Exchange, Part, Run, carried};
use crate::checks::equal;
use pm_course::{AnswerFault, CourseEnd, FrameCourse, Refusal, Wish, Wishes};
use pm_host::Host;
use pm_limits::{Guard, OutputLimits, PartRegisters};
use pm_table::{Code, Reg};
use std::process::Abort;

// A part that is on at 1 V and takes what is written, in ULINEAR16 with the exponent -12.
const PART: Part = Part {
    mode: Some(0x14),
    coefficients: [0, 0, 0, 0, 0],
    words: [0x80, 0x1000, 0x4000, 0x1100, 0x0F00, 0x0000],
    protect: 0x00,
    takes: true,
    wrong_pec: false,
    silent: false,
    next_mode: None,
    exchange: None,
};

// That part.
fn whole() -> Part {
    PART
}

// A guard of a part with every register and one output, of two passes.
fn guard(rt: &impl Abort) -> Guard {
    match Host::new(0x58, 1, 2) {
        Ok(host) => Guard::over(host),
        Err(fault) => panic!(rt; "{fault}"),
    }
}

// A guard whose output has these limits.
fn limited(rt: &impl Abort, least: i64, most: i64) -> Guard {
    let mut guard = guard(rt);
    equal(rt, &guard.narrow(0, least, most).is_ok(), &true, &least);
    guard
}

// The wish of one voltage.
fn volts(register: Reg, microvolts: i64) -> FrameCourse {
    let mut course = FrameCourse::new(0, &Wishes::nothing(), 60);
    course.want(register, microvolts);
    course
}

fn refused(number: u8, register: Option<u8>) -> CourseEnd {
    CourseEnd::Refused(Refusal {
        number,
        register: register.map(|code| Code(code)),
    })
}

const REACHED: Option<CourseEnd> = Some(CourseEnd::Reached);

// What a course over a part comes to.
fn over(rt: &impl Abort, course: FrameCourse, part: &mut Part) -> Run {
    carried(course, &mut guard(rt), part)
}

#[test]
fn off_is_the_first_frame_of_any_part(rt: HostRuntime) {
    let modes = [None, Some(0x20), Some(0x14)];
    for (number, mode) in modes.iter().enumerate() {
        let mut part = with! { Part, PART; mode: *mode };
        let run = over(&rt, FrameCourse::power(0, 0x00, 4), &mut part);
        compare! { &rt, number;
            run.end => REACHED;
            (run.first, run.writes, run.frames) => (0x01, 1, 2);
            part.words[0] => 0x00;
        }
    }
}

#[test]
fn a_mode_of_no_format_ends_at_once(rt: HostRuntime) {
    let courses = [
        volts(Reg::VoutCommand, 1_200_000),
        FrameCourse::survey(0, 60),
        FrameCourse::power(0, 0x80, 60),
    ];
    for (number, course) in courses.iter().enumerate() {
        // The second is DIRECT, with coefficients that make no format: m is 0.
        for (mode, frames) in [(0x20, 1), (0x40, 2)] {
            let run = over(&rt, *course, &mut with! { Part, PART; mode: Some(mode) });
            compare! { &rt, number;
                (run.end, run.frames, run.writes) => (Some(CourseEnd::NoFormat(mode)), frames, 0) }
        }
    }
}

#[test]
fn another_source_ends_a_course_to_a_voltage(rt: HostRuntime) {
    let bytes = [0xFF, 0xB0, 0xB3];
    for byte in &bytes {
        let words = [*byte, 0x1000, 0x4000, 0x1100, 0x0F00, 0x0000];
        let mut part = Part { words, ..PART };
        let run = over(&rt, volts(Reg::VoutCommand, 1_200_000), &mut part);
        equal(&rt, &run.end, &Some(CourseEnd::OtherSource(*byte)), byte);
        equal(&rt, &(run.frames, run.writes), &(2, 0), byte);
        // A course to a byte takes the output back.
        let run = over(&rt, FrameCourse::power(0, 0x80, 60), &mut part);
        compare! { &rt, byte;
            run.end => REACHED;
            (run.code, run.word, run.writes) => (0x01, 0x80, 1);
            run.asked_protect => true;
        }
    }
}

// A register, microvolts, the mode and the coefficients, and the word that is ordered.
#[rattlefmt::skip]
static WORDS: [(Reg, i64, u8, [u8; 5], u16); 7] = [
    (Reg::VoutCommand, 1_200_000, 0x14, [0; 5], 0x1333),
    (Reg::MarginHigh, 1_200_150, 0x14, [0; 5], 0x1334),
    (Reg::VoutMax, 1_200_000, 0x14, [0; 5], 0x1333),
    (Reg::VoutMax, 1_199_950, 0x14, [0; 5], 0x1332),
    (Reg::VoutMin, 500_001, 0x14, [0; 5], 0x0801),
    // DIRECT with m = -1000, b = 5000, R = 0: a word Y is (Y - 5000) / -1000 volts, so 4000 is 1 V.
    (Reg::VoutCommand, 1_200_400, 0x40, [0x18, 0xFC, 0x88, 0x13, 0x00], 3800),
    // VOUT_MAX gets the highest value that isn't above the wish, and the word that isn't below is another.
    (Reg::VoutMax, 3_000_400, 0x40, [0x18, 0xFC, 0x88, 0x13, 0x00], 2000),
];

#[test]
fn the_word_of_a_voltage_is_formed_by_the_format(rt: HostRuntime) {
    for (number, row) in WORDS.iter().enumerate() {
        let (register, microvolts, mode, coefficients, word) = *row;
        let words = if mode == 0x14 {
            PART.words
        } else {
            // 1 V, 4 V, 1.1 V, 0.9 V and 0 V.
            [0x80, 4000, 1000, 3900, 4100, 5000]
        };
        let mut part = with! { Part, PART; mode: Some(mode), coefficients, words };
        let run = over(&rt, volts(register, microvolts), &mut part);
        equal(&rt, &run.end, &REACHED, &number);
        let ordered = (register.code().0, word, 1);
        equal(&rt, &(run.code, run.word, run.writes), &ordered, &number);
    }
}

#[test]
fn a_voltage_without_a_word_is_refused(rt: HostRuntime) {
    let rows = [
        (Reg::VoutCommand, -1, 0x13),
        (Reg::VoutCommand, 17_000_000, 0x14),
        (Reg::VoutMax, -1, 0x13),
        (Reg::VoutMin, 17_000_000, 0x14),
        (Reg::MarginLow, 1_000_000_000_000_001, 0x15),
    ];
    for row in &rows {
        let (register, microvolts, number) = *row;
        let run = over(&rt, volts(register, microvolts), &mut whole());
        let end = refused(number, Some(register.code().0));
        equal(&rt, &(run.end, run.writes), &(Some(end), 0), &microvolts);
    }
}

#[test]
fn a_format_that_changes_forms_the_word_anew(rt: HostRuntime) {
    // The part is exchanged after the first write: its exponent is -13, and its registers hold the same volts.
    let mut part = with! { Part, PART;
        next_mode: Some(0x13), words: [0x80, 0x1000, 0x7FFF, 0x1100, 0x0F00, 0x0000] };
    let run = over(&rt, volts(Reg::VoutCommand, 1_200_000), &mut part);
    compare! { &rt;
        1, run.end => REACHED;
        2, (run.code, run.word, run.writes) => (0x21, 0x2666, 2);
    }
}

// After so many frames of the course the part is exchanged for one with the exponent -11, whose VOUT_COMMAND, VOUT_MAX or both show
// that. The only word that is ordered is 1.2 V in that format; that of the format before would be 1333h, 2.4 V. Limits judge a
// word by the format that is learned again: 1333h is 1.2 V before the exchange, and 2.4 V after it.
#[test]
fn a_read_that_surprises_has_the_format_learned_again(rt: HostRuntime) {
    let word = with! { Wishes, Wishes::nothing(); command: Wish::Word(0x1333) };
    let wish = volts(Reg::VoutCommand, 1_200_000);
    let ordered = (REACHED, 0x21, 0x099A, 1);
    let above = (Some(refused(0x24, Some(0x21))), 0x00, 0x0000, 0);
    #[rattlefmt::skip]
    let rows = [
        (1, wish, ordered), (2, wish, ordered), (3, wish, ordered),
        (1, FrameCourse::new(0, &word, 60), above),
    ];
    for (frames, course, wanted) in &rows {
        let mut guard = limited(&rt, 900_000, 1_300_000);
        let mut part = PART;
        let known = carried(FrameCourse::survey(0, 60), &mut guard, &mut part);
        equal(&rt, &known.end, &REACHED, frames);
        part.exchange = Some(Exchange {
            frames: *frames,
            mode: 0x15,
            words: [0x80, 0x0800, 0x2000, 0x0880, 0x0780, 0x0000],
        });
        let run = carried(*course, &mut guard, &mut part);
        compare! { &rt, frames; (run.end, run.code, run.word, run.writes) => *wanted }
    }
}

#[test]
fn limits_and_protection_refuse_before_a_write(rt: HostRuntime) {
    let rows = [
        (1_150_000, 1_300_000, 1_100_000, 0x00, 0x23),
        (900_000, 1_100_000, 1_200_000, 0x00, 0x24),
        (900_000, 1_300_000, 1_200_000, 0x80, 0x67),
    ];
    for (number, row) in rows.iter().enumerate() {
        let (least, most, microvolts, protect, fault) = *row;
        let mut guard = limited(&rt, least, most);
        let mut part = Part { protect, ..PART };
        let run = carried(volts(Reg::VoutCommand, microvolts), &mut guard, &mut part);
        let end = Some(refused(fault, Some(0x21)));
        equal(&rt, &(run.end, run.writes), &(end, 0), &number);
    }
}

#[test]
fn protection_of_operation_is_looked_at_once(rt: HostRuntime) {
    let off = [0x00, 0x1000, 0x4000, 0x1100, 0x0F00, 0x0000];
    let mut part = with! { Part, PART; words: off, protect: 0x80 };
    let turned = over(&rt, FrameCourse::power(0, 0x80, 60), &mut part);
    let end = Some(refused(0x67, Some(0x01)));
    equal(&rt, &(turned.end, turned.writes), &(end, 0), &1);
    let mut part = Part { words: off, ..PART };
    let turned = over(&rt, FrameCourse::power(0, 0x94, 60), &mut part);
    compare! { &rt;
        2, turned.end => REACHED;
        3, (turned.word, turned.writes, turned.asked_protect) => (0x94, 1, true);
    }
    // Turning off asks for none.
    let mut part = with! { Part, PART; protect: 0x80, takes: false };
    let turned = over(&rt, FrameCourse::power(0, 0x00, 60), &mut part);
    compare! { &rt;
        4, turned.end => Some(CourseEnd::Differs(Reg::Operation, 0x80));
        5, turned.asked_protect => false;
    }
    // A margin is read before it is selected, so that limits can judge it: 0.9375 V and 1.0625 V.
    let rows = [(0x94, REACHED), (0xA4, Some(refused(0x25, Some(0x01))))];
    for row in &rows {
        let mut guard = limited(&rt, 900_000, 1_050_000);
        let turned = carried(FrameCourse::power(0, row.0, 60), &mut guard, &mut whole());
        equal(&rt, &turned.end, &row.1, &row.0);
    }
    // Limits that the voltage isn't known to be within: L5, of OPERATION.
    let mut guard = limited(&rt, 1_150_000, 1_300_000);
    let mut part = Part { words: off, ..PART };
    let turned = carried(FrameCourse::power(0, 0x80, 60), &mut guard, &mut part);
    let end = Some(refused(0x25, Some(0x01)));
    equal(&rt, &(turned.end, turned.writes), &(end, 0), &7);
}

#[test]
fn no_try_is_left_or_an_order_differs_twice(rt: HostRuntime) {
    let wish = volts(Reg::VoutCommand, 1_200_000);
    let spent = |code, fault| Some(CourseEnd::Spent {
        code: Code(code),
        fault,
    });
    let mut few = FrameCourse::new(0, &Wishes::nothing(), 2);
    few.want(Reg::VoutCommand, 1_200_000);
    let silent = with! { Part, PART; silent: true };
    let no_answer = Some(AnswerFault::NoAnswer);
    #[rattlefmt::skip]
    let rows = [
        (wish, silent, spent(0x20, no_answer), None),
        (wish, with! { Part, PART; wrong_pec: true }, spent(0x20, Some(AnswerFault::WrongPec)),
            None),
        (few, PART, spent(0x21, None), None),
        // An off that nothing hears.
        (FrameCourse::power(0, 0x00, 3), silent, spent(0x01, no_answer), None),
        // An order that differs twice.
        (wish, with! { Part, PART; takes: false },
            Some(CourseEnd::Differs(Reg::VoutCommand, 0x1000)), Some(4)),
    ];
    for (number, (course, part, end, writes)) in rows.iter().enumerate() {
        let mut part = *part;
        let run = over(&rt, *course, &mut part);
        compare! { &rt, number; (run.end, run.writes) => (*end, writes.unwrap_or(run.writes)) }
    }
}

// What is wanted of an output that holds 1000h, 1 V, and how near is near enough; 0 if the held word is taken, otherwise why it
// isn't.
#[rattlefmt::skip]
static HELD: [(i64, u32, u8); 6] = [
    (1_003_000, 3000, 0), (1_003_000, 2999, 0x69), (997_000, 3000, 0), (997_000, 2999, 0x69),
    (1_000_000, 0, 0), (2_000_000_000_000_000, 4_294_967_295, 0x69),
];

// The number of why a held word isn't taken, 0 if it is; FFh if the guard's host doesn't have the output.
fn taken(course: &mut FrameCourse, guard: &Guard, tolerance: u32) -> u8 {
    if guard.host().outputs() <= course.course.survey.output {
        return 0xFF;
    }
    match course.accept(guard, tolerance) {
        Ok(()) => 0,
        Err(refusal) => refusal.number,
    }
}

#[test]
fn a_held_word_is_taken_by_its_value(rt: HostRuntime) {
    let mut guard = guard(&rt);
    let mut part = whole();
    let mut course = volts(Reg::VoutCommand, 1_003_000);
    equal(&rt, &taken(&mut course, &guard, 3000), &0x61, &1);
    let _ = carried(FrameCourse::survey(0, 20), &mut guard, &mut part);
    for (microvolts, tolerance, number) in &HELD {
        let mut course = volts(Reg::VoutCommand, *microvolts);
        compare! { &rt, (microvolts, tolerance); taken(&mut course, &guard, *tolerance) => *number }
    }
    let mut margin = volts(Reg::MarginHigh, 1_062_500);
    equal(&rt, &taken(&mut margin, &guard, 3000), &0x64, &2);
    let mut survey = FrameCourse::survey(0, 20);
    equal(&rt, &taken(&mut survey, &guard, 3000), &0x69, &3);
    equal(&rt, &taken(&mut course, &guard, 3000), &0, &4);
    let run = carried(course, &mut guard, &mut part);
    compare! { &rt, 5; (run.end, run.writes) => (REACHED, 0) }
    let _ = guard.narrow(0, 1_000_001, 2_000_000);
    let mut course = volts(Reg::VoutCommand, 1_003_000);
    equal(&rt, &taken(&mut course, &guard, 3000), &0x23, &6);
}

#[test]
fn a_missing_register_is_refused_at_once(rt: HostRuntime) {
    let lacks = with! { PartRegisters, PartRegisters::all(); vout_min: false };
    let Ok(mut guard) = Guard::of_part(0x58, 1, 2, [OutputLimits::Unlimited; 8], lacks) else {
        panic!(rt; "refused");
    };
    let run = carried(volts(Reg::VoutMin, 500_000), &mut guard, &mut whole());
    let end = Some(refused(0x27, Some(0x2B)));
    equal(&rt, &(run.end, run.frames), &(end, 0), &1);
}

#[test]
fn nothing_but_off_is_ordered_where_no_limits_are_known(rt: HostRuntime) {
    // A course, how it ends, and its writes.
    #[rattlefmt::skip]
    let rows = [
        (volts(Reg::VoutCommand, 1_200_000), Some(refused(0x28, Some(0x21))), 0),
        (volts(Reg::VoutMin, 500_000), Some(refused(0x28, Some(0x2B))), 0),
        (FrameCourse::power(0, 0x94, 60), Some(refused(0x28, Some(0x01))), 0),
        (FrameCourse::power(0, 0x00, 60), REACHED, 1),
    ];
    for (number, (course, end, writes)) in rows.iter().enumerate() {
        let Ok(mut guard) = Guard::new(0x58, 1, 2, [OutputLimits::Unknown; 8]) else {
            panic!(rt; "refused");
        };
        let run = carried(*course, &mut guard, &mut whole());
        equal(&rt, &(run.end, run.writes), &(*end, *writes), &number);
        // Once it is said that there are none, each is carried out.
        equal(&rt, &guard.no_limits(0).is_ok(), &true, &number);
        let run = carried(*course, &mut guard, &mut whole());
        equal(&rt, &run.end, &REACHED, &number);
    }
}

#[test]
fn words_are_wanted_beside_voltages(rt: HostRuntime) {
    let wishes = with! { Wishes, Wishes::nothing();
        command: Wish::Word(0x1234), max: Wish::Microvolts(2_000_000) };
    let mut part = PART;
    let run = over(&rt, FrameCourse::new(0, &wishes, 60), &mut part);
    equal(&rt, &run.end, &REACHED, &1);
    equal(&rt, &(part.words[1], part.words[2]), &(0x1234, 0x2000), &2);
    equal(&rt, &run.writes, &2, &3);
}
