//! How many tries a course takes at most over a bus that disturbs nothing: with one less they are spent. Before each the
//! converter restarts, which the host doesn't see, and has one word by which the last answer of the first reading surprises.

use super::whole;
use crate::BASE;
use crate::checks::equal;
use pm_course::{CourseEnd, FrameCourse, Wish, Wishes};
use pm_driver::{Fault, driver_over};
use pm_table::{Cell, Reg};

// How a course ended.
#[derive(Clone, Copy, Debug, PartialEq)]
enum End {
    // With all reached.
    Reached,
    // Refused by P6, for a word above VOUT_MAX.
    Refused,
    // No try was left.
    Spent,
    // In another way.
    Other,
}

// The converter restarts before the frame.
fn restarted() -> Fault {
    with! { Fault, whole(); restarts: true }
}

fn end_of(end: CourseEnd) -> End {
    match end {
        CourseEnd::Reached => End::Reached,
        CourseEnd::Spent { .. } => End::Spent,
        CourseEnd::Refused(refusal) if refusal.number == 0x66 => End::Refused,
        _ => End::Other,
    }
}

// Five words of the first output, of which these are VOUT_COMMAND and the others those of the start, or all differ.
fn wanted(command: u16, others: bool) -> Wishes {
    Wishes {
        command: Wish::Word(command),
        max: Wish::Word(if others { 0x3770 } else { 0x4000 }),
        margin_high: Wish::Word(if others { 0x3600 } else { 0x1100 }),
        margin_low: Wish::Word(if others { 0x3300 } else { 0x0F00 }),
        min: Wish::Word(if others { 0x0800 } else { 0x0000 }),
    }
}

// A course to five words, with so many tries, after a restart by which only WRITE_PROTECT has another word than the host knows.
fn words(wanted: Wishes, tries: u16) -> Option<End> {
    let plan = [whole(), whole(), restarted()];
    let mut driver = driver_over(BASE, 2, &plan)?;
    driver.order(Cell::Protect, 0x20).ok()?;
    if driver.host().outputs() == 0 {
        return None;
    }
    let mut course = FrameCourse::new(0, &wanted, tries);
    Some(end_of(driver.run_course(&mut course)))
}

// A course to a byte of OPERATION, with so many tries, after a restart by which only VOUT_MIN has another word than the
// host knows. OPERATION selects VOUT_MARGIN_HIGH, which is stored.
fn power(byte: u16, tries: u16) -> Option<End> {
    let plan = [whole(), whole(), whole(), whole(), whole(), restarted()];
    let mut driver = driver_over(BASE, 2, &plan)?;
    driver.order(Cell::Out(0, Reg::Operation), 0xA8).ok()?;
    driver.store().ok()?;
    driver.order(Cell::Out(0, Reg::VoutMin), 0x0800).ok()?;
    if driver.host().outputs() == 0 {
        return None;
    }
    let mut course = FrameCourse::power(0, byte, tries);
    Some(end_of(driver.run_course(&mut course)))
}

#[test]
fn words_take_so_many_tries(rt: HostRuntime) {
    for (command, others, most, less, end) in [
        (0x34CD, true, 28, 27, End::Reached),
        (0x1000, false, 15, 14, End::Reached),
        (0x4001, false, 15, 14, End::Refused),
    ] {
        let to = wanted(command, others);
        equal(&rt, &words(to, most), &Some(end), &command);
        equal(&rt, &words(to, less), &Some(End::Spent), &command);
    }
}

#[test]
fn power_takes_so_many_tries(rt: HostRuntime) {
    for (byte, most, less) in [
        (0x98, 18, 17),
        (0x80, 17, 16),
        (0xA8, 10, 9),
        (0x00, 1, 0),
        (0x40, 1, 0),
    ] {
        equal(&rt, &power(byte, most), &Some(End::Reached), &byte);
        equal(&rt, &power(byte, less), &Some(End::Spent), &byte);
    }
}
