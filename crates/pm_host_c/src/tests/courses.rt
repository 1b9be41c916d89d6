//! Courses: what they begin, and how they end.

use super::calls::{NOTHING, host, new, no_host, no_limits};
use super::checks::equal;
use crate::course::{
    pm_course_accept, pm_course_after_read, pm_course_after_write, pm_course_ended,
    pm_course_frame, pm_course_job_now, pm_course_microvolts, pm_course_next, pm_course_power,
    pm_course_read_ended, pm_course_size, pm_course_survey, pm_course_version, pm_course_want,
    pm_course_words, pm_course_write_ended,
};
use pm_course::FrameCourse;
use pm_memory::course::CourseJobImage;
use pm_memory::{CourseEndImage, CourseImage, GuardImage, SendingImage};

// A course of no meaning.
fn blank() -> CourseImage {
    let mut image = CourseImage::of(&FrameCourse::survey(0, 0));
    image.mark = 0;
    image
}

// The frame's kind, its first bytes' code, and the number that the call answers.
fn frame(course: &mut CourseImage, host: &mut GuardImage) -> (u8, u8, u8) {
    let mut sending = NOTHING;
    let number = pm_course_frame(course, host, &mut sending);
    (number, sending.kind, code_of(&sending))
}

// The command code of a frame, 0 of none.
fn code_of(sending: &SendingImage) -> u8 {
    if sending.kind == 0 {
        0
    } else if sending.length < 5 {
        sending.bytes[1]
    } else {
        sending.bytes[4]
    }
}

fn end(course: &CourseImage) -> (u8, u8, u8, u16, u16) {
    let mut end = CourseEndImage {
        kind: 9,
        number: 9,
        code: 9,
        unused: 9,
        word: 9,
        fault: 9,
    };
    let _ = pm_course_ended(course, &mut end);
    (end.kind, end.number, end.code, end.word, end.fault)
}

#[test]
fn a_course_has_its_size(rt: HostRuntime) {
    equal(&rt, &pm_course_size(), &104, &1);
    equal(&rt, &pm_course_version(), &1, &2);
    equal(&rt, &std::mem::size_of::<FrameCourse>(), &144, &3);
}

#[test]
fn off_is_the_first_frame(rt: HostRuntime) {
    let mut image = host(1);
    let mut course = blank();
    equal(&rt, &pm_course_power(&mut course, 0, 0x00, 3), &0, &1);
    equal(&rt, &frame(&mut course, &mut image), &(0, 1, 0x01), &2);
    equal(&rt, &frame(&mut course, &mut image), &(0, 1, 0x01), &3);
    let step = pm_course_write_ended(&mut course, &mut image, 1);
    equal(&rt, &(step.kind, step.word), &(0, 0), &4);
    equal(&rt, &frame(&mut course, &mut image), &(0, 2, 0x01), &5);
    let step = pm_course_read_ended(&mut course, &mut image, &[]);
    equal(&rt, &(step.kind, step.word), &(3, 0), &6);
    equal(&rt, &end(&course), &(0, 0, 0, 0, 0), &7);
    equal(&rt, &frame(&mut course, &mut image), &(0, 1, 0x01), &8);
}

// The job that a call puts, and the number that it answers.
fn next(course: &CourseImage, host: &GuardImage) -> (u8, u8, u8, u16) {
    let mut job = NO_JOB;
    let number = pm_course_next(course, host, &mut job);
    (number, job.kind, job.code, job.word)
}

fn job_now(course: &CourseImage) -> (u8, u8, u8, u16) {
    let mut job = NO_JOB;
    let number = pm_course_job_now(course, &mut job);
    (number, job.kind, job.code, job.word)
}

const NO_JOB: CourseJobImage = CourseJobImage {
    kind: 9,
    code: 9,
    word: 9,
};

const ANSWERS_MODE: [u8; 4] = [0xB1, 0x01, 0x14, 0x4E];

#[test]
fn a_course_is_made_or_refused(rt: HostRuntime) {
    let mut course = blank();
    equal(&rt, &pm_course_survey(&mut course, 8, 3), &0x04, &1);
    equal(&rt, &pm_course_power(&mut course, 8, 0x80, 3), &0x04, &2);
    equal(
        &rt,
        &pm_course_microvolts(&mut course, 8, 0x21, 1, 3),
        &0x04,
        &3,
    );
    equal(
        &rt,
        &pm_course_microvolts(&mut course, 0, 0x01, 1, 3),
        &0x05,
        &4,
    );
    equal(
        &rt,
        &pm_course_microvolts(&mut course, 0, 0x10, 1, 3),
        &0x05,
        &5,
    );
    equal(&rt, &pm_course_want(&mut course, 0x21, 1), &0xE9, &6);
    equal(&rt, &end(&course), &(9, 9, 9, 9, 9), &7);
    equal(&rt, &pm_course_survey(&mut course, 0, 3), &0, &8);
    equal(&rt, &pm_course_want(&mut course, 0x21, 1), &0xE9, &9);
    equal(
        &rt,
        &pm_course_microvolts(&mut course, 0, 0x21, 1_000_000, 3),
        &0,
        &10,
    );
    equal(&rt, &pm_course_want(&mut course, 0x01, 1), &0x05, &11);
    equal(&rt, &pm_course_want(&mut course, 0x24, 2_000_000), &0, &12);
}

#[test]
fn a_held_word_is_taken_or_refused(rt: HostRuntime) {
    let mut image = host(1);
    let mut course = blank();
    equal(&rt, &pm_course_accept(&mut course, &image, 3000), &0xE9, &1);
    let _ = pm_course_microvolts(&mut course, 5, 0x21, 1_003_000, 9);
    equal(&rt, &pm_course_accept(&mut course, &image, 3000), &0x04, &2);
    let _ = pm_course_microvolts(&mut course, 0, 0x21, 1_003_000, 9);
    equal(
        &rt,
        &pm_course_accept(&mut course, &no_host(), 3000),
        &0xE0,
        &3,
    );
    equal(&rt, &pm_course_accept(&mut course, &image, 3000), &0x61, &4);
    let _ = crate::host::pm_host_learn(&mut image, 0);
    equal(&rt, &pm_course_accept(&mut course, &image, 3000), &0x03, &5);
    let _ = crate::told::pm_host_read_ended(&mut image, &ANSWERS_MODE);
    equal(&rt, &pm_course_accept(&mut course, &image, 3000), &0x64, &6);
    let _ = crate::host::pm_host_check(&mut image, 0, 0x21);
    let _ = crate::told::pm_host_read_ended(&mut image, &[0xB1, 0x02, 0x00, 0x10, 0x41]);
    equal(&rt, &pm_course_accept(&mut course, &image, 2999), &0x69, &7);
    equal(&rt, &next(&course, &image), &(0, 1, 0x20, 0), &8);
    equal(&rt, &pm_course_accept(&mut course, &image, 3000), &0, &9);
    equal(&rt, &pm_course_accept(&mut course, &image, 0), &0, &10);
    let _ = crate::limits::pm_host_set_limits(&mut image, 0, 1_000_001, 2_000_000);
    equal(&rt, &pm_course_accept(&mut course, &image, 0), &0x23, &11);
}

#[test]
fn a_course_needs_its_memory_and_a_host(rt: HostRuntime) {
    let mut image = host(1);
    let mut course = blank();
    equal(&rt, &frame(&mut course, &mut image), &(0xE9, 0, 0), &1);
    equal(&rt, &next(&course, &image), &(0xE9, 9, 9, 9), &2);
    equal(&rt, &job_now(&course), &(0xE9, 9, 9, 9), &3);
    let step = pm_course_write_ended(&mut course, &mut image, 1);
    equal(&rt, &(step.kind, step.word), &(0xE9, 0), &4);
    equal(&rt, &pm_course_survey(&mut course, 0, 9), &0, &5);
    let mut none = no_host();
    equal(&rt, &frame(&mut course, &mut none), &(0xE0, 0, 0), &6);
    equal(&rt, &next(&course, &none), &(0xE0, 9, 9, 9), &7);
    let step = pm_course_read_ended(&mut course, &mut none, &[]);
    equal(&rt, &(step.kind, step.word), &(0xE0, 0), &8);
    let step = pm_course_write_ended(&mut course, &mut image, 1);
    equal(&rt, &(step.kind, step.word), &(0xE2, 0), &9);
}

#[test]
fn a_course_tells_its_job_and_its_end(rt: HostRuntime) {
    let mut image = host(1);
    let mut course = blank();
    equal(
        &rt,
        &pm_course_microvolts(&mut course, 0, 0x21, 1_200_000, 2),
        &0,
        &1,
    );
    equal(&rt, &job_now(&course), &(0, 0, 0, 0), &2);
    equal(&rt, &next(&course, &image), &(0, 1, 0x20, 0), &3);
    equal(&rt, &frame(&mut course, &mut image), &(0, 2, 0x20), &4);
    equal(&rt, &job_now(&course), &(0, 1, 0x20, 0), &5);
    // While its job is open it would begin none.
    equal(&rt, &next(&course, &image), &(0x95, 0, 0, 0), &6);
    let step = pm_course_read_ended(&mut course, &mut image, &ANSWERS_MODE);
    equal(&rt, &(step.kind, step.word), &(4, 0), &7);
    equal(&rt, &job_now(&course), &(0, 0, 0, 0), &8);
    equal(&rt, &next(&course, &image), &(0, 2, 0x01, 0), &9);
    equal(&rt, &frame(&mut course, &mut image), &(0, 2, 0x01), &10);
    let step = pm_course_read_ended(&mut course, &mut image, &[0xB1, 0x01, 0x80, 0x00]);
    equal(&rt, &(step.kind, step.word), &(3, 0x35), &11);
    equal(&rt, &next(&course, &image), &(0x95, 0, 0, 0), &12);
    equal(&rt, &end(&course), &(0, 0, 0, 0, 0), &13);
    equal(&rt, &frame(&mut course, &mut image), &(0x95, 0, 0), &14);
    equal(&rt, &end(&course), &(4, 0, 0x01, 0, 0x35), &15);
    equal(&rt, &frame(&mut course, &mut image), &(0x95, 0, 0), &16);
}

#[test]
fn a_job_of_another_is_no_last_end(rt: HostRuntime) {
    let mut image = host(1);
    let mut course = blank();
    equal(&rt, &pm_course_survey(&mut course, 0, 9), &0, &1);
    equal(
        &rt,
        &crate::host::pm_host_check(&mut image, 0, 0x21),
        &0,
        &2,
    );
    equal(&rt, &frame(&mut course, &mut image), &(0x95, 0, 0), &3);
    equal(&rt, &end(&course), &(2, 3, 0, 0, 0), &4);
    let step = pm_course_read_ended(&mut course, &mut image, &[]);
    equal(&rt, &(step.kind, step.word), &(3, 0), &5);
    equal(&rt, &frame(&mut course, &mut image), &(0, 2, 0x20), &6);
    equal(&rt, &end(&course), &(0, 0, 0, 0, 0), &7);
}

#[test]
fn a_course_of_an_output_that_the_host_lacks_is_refused_and_goes_on(rt: HostRuntime) {
    let mut image = host(2);
    let mut small = no_host();
    let _ = new(&mut small, 0x58, 1, 2);
    let _ = no_limits(&mut small, 0);
    let mut course = blank();
    equal(&rt, &pm_course_survey(&mut course, 1, 9), &0, &1);
    equal(&rt, &next(&course, &small), &(4, 9, 9, 9), &2);
    equal(&rt, &frame(&mut course, &mut small), &(4, 0, 0), &3);
    equal(&rt, &end(&course), &(0, 0, 0, 0, 0), &4);
    // Another job of that host is sending: it hears nothing through the course.
    equal(
        &rt,
        &crate::host::pm_host_check(&mut small, 0, 0x21),
        &0,
        &5,
    );
    let step = pm_course_read_ended(&mut course, &mut small, &[]);
    equal(&rt, &(step.kind, step.word), &(4, 0), &6);
    equal(
        &rt,
        &after_read(&mut course, &mut small, &[]),
        &(4, 0, 0, 0),
        &7,
    );
    let step = pm_course_write_ended(&mut course, &mut small, 1);
    equal(&rt, &(step.kind, step.word), &(4, 0), &8);
    equal(
        &rt,
        &after_write(&mut course, &mut small, 1),
        &(4, 0, 0, 0),
        &9,
    );
    equal(&rt, &end(&course), &(0, 0, 0, 0, 0), &10);
    // A host that has the output takes it on.
    equal(&rt, &frame(&mut course, &mut image), &(0, 2, 0x20), &11);
}

// What a call that hears and hands out answers: the step, and the frame's kind and code.
fn after_write(course: &mut CourseImage, host: &mut GuardImage, acked: u8) -> (u16, u16, u8, u8) {
    let mut sending = NOTHING;
    let step = pm_course_after_write(course, host, acked, 0, &mut sending);
    (step.kind, step.word, sending.kind, code_of(&sending))
}

fn after_read(course: &mut CourseImage, host: &mut GuardImage, bytes: &[u8]) -> (u16, u16, u8, u8) {
    let mut sending = NOTHING;
    let step = pm_course_after_read(course, host, bytes, 0, &mut sending);
    (step.kind, step.word, sending.kind, code_of(&sending))
}

#[test]
fn a_course_is_told_and_hands_out_what_is_next(rt: HostRuntime) {
    let mut image = host(1);
    let mut course = blank();
    equal(
        &rt,
        &after_write(&mut course, &mut image, 1),
        &(0xE9, 0, 0, 0),
        &1,
    );
    equal(&rt, &pm_course_power(&mut course, 0, 0x00, 3), &0, &2);
    let mut none = no_host();
    equal(
        &rt,
        &after_read(&mut course, &mut none, &[]),
        &(0xE0, 0, 0, 0),
        &3,
    );
    equal(
        &rt,
        &after_read(&mut course, &mut image, &[]),
        &(0xE2, 0, 0, 0),
        &4,
    );
    equal(&rt, &frame(&mut course, &mut image), &(0, 1, 0x01), &5);
    equal(
        &rt,
        &after_read(&mut course, &mut image, &[]),
        &(0xE2, 0, 0, 0),
        &6,
    );
    equal(
        &rt,
        &after_write(&mut course, &mut image, 1),
        &(0, 0, 2, 0x01),
        &7,
    );
    equal(
        &rt,
        &after_read(&mut course, &mut image, &[]),
        &(3, 0, 1, 0x01),
        &8,
    );
    equal(
        &rt,
        &after_write(&mut course, &mut image, 0),
        &(0, 0, 2, 0x01),
        &9,
    );
    let read = [0xB1, 0x01, 0x00, 0x00];
    equal(
        &rt,
        &after_read(&mut course, &mut image, &read),
        &(3, 0x35, 1, 0x01),
        &10,
    );
}

#[test]
fn a_course_that_stops_waits_before_an_order(rt: HostRuntime) {
    let mut image = host(1);
    let mut course = blank();
    let mut sending = NOTHING;
    equal(&rt, &pm_course_power(&mut course, 0, 0x00, 3), &0, &1);
    equal(&rt, &frame(&mut course, &mut image), &(0, 1, 0x01), &2);
    let step = pm_course_after_write(&mut course, &mut image, 1, 1, &mut sending);
    equal(
        &rt,
        &(step.kind, sending.kind, code_of(&sending)),
        &(0, 2, 0x01),
        &3,
    );
    let step = pm_course_after_read(&mut course, &mut image, &[], 1, &mut sending);
    equal(&rt, &(step.kind, sending.kind), &(3, 0), &4);
    equal(&rt, &job_now(&course), &(0, 0, 0, 0), &5);
    equal(&rt, &next(&course, &image), &(0, 3, 0x01, 0), &6);
    equal(&rt, &frame(&mut course, &mut image), &(0, 1, 0x01), &7);
    let _ = pm_course_after_write(&mut course, &mut image, 1, 1, &mut sending);
    let read = [0xB1, 0x01, 0x00, 0xFA];
    let step = pm_course_after_read(&mut course, &mut image, &read, 1, &mut sending);
    equal(&rt, &(step.kind, step.word, sending.kind), &(1, 0, 0), &8);
    equal(&rt, &end(&course), &(1, 0, 0, 0, 0), &9);
}
