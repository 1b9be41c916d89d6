//! Orders: which are refused, and for what first.

use super::guards::{DIRECT, FALLING, LINEAR, first, guard, learn, read, refusal};
use crate::checks::equal;
use pm_host::{HostFault, Job};
use pm_limits::{Guard, LimitFault};
use pm_num::NumFault;
use pm_table::{Cell, Reg};
use std::process::Abort;

const BELOW: Option<LimitFault> = Some(LimitFault::BelowLimit);

const ABOVE: Option<LimitFault> = Some(LimitFault::AboveLimit);

const NOT_KNOWN: Option<LimitFault> = Some(LimitFault::NotKnownWithin);

const ABSENT: Option<LimitFault> = Some(LimitFault::Host(HostFault::UnknownOutput));

const BAD_WORD: Option<LimitFault> = Some(LimitFault::Host(HostFault::BadWord));

const FULL: Option<LimitFault> = Some(LimitFault::Host(HostFault::TooUncertain));

const NO_FORMAT: Option<LimitFault> = Some(LimitFault::Host(HostFault::FormatUnknown));

const TOO_LARGE: Option<LimitFault> = Some(LimitFault::Host(HostFault::Num(NumFault::TooLarge)));

const LEAST: Option<LimitFault> = Some(LimitFault::Host(HostFault::Num(NumFault::BelowLeast)));

const GREATEST: Option<LimitFault> = Some(LimitFault::Host(HostFault::Num(
    NumFault::AboveGreatest,
)));

const LIMITED: Option<LimitFault> = Some(LimitFault::FormatUnknown);

// An order for a register of the first output, as a word or in microvolts, or for another cell.
#[derive(Clone, Copy, Debug)]
enum Call {
    Word(Reg, u16),
    Micro(Reg, i64),
    WordAt(Cell, u16),
    MicroAt(Cell, i64),
}

use Call::{Micro, MicroAt, Word, WordAt};

fn job(call: Call) -> Job {
    match call {
        Word(register, word) => Job::Order(first(register), word),
        Micro(register, x) => Job::OrderMicro(first(register), x),
        WordAt(cell, word) => Job::Order(cell, word),
        MicroAt(cell, x) => Job::OrderMicro(cell, x),
    }
}

// Jobs, each with what it is refused for.
fn goes(rt: &impl Abort, guard: &mut Guard, rows: &[(Call, Option<LimitFault>)]) {
    for (at, (call, wanted)) in rows.iter().enumerate() {
        equal(rt, &refusal(guard, job(*call)), wanted, &(at, call));
    }
}

// 3.2 V lies between the words 13107 and 13108, 3.465 V between 14192 and 14193.
#[rattlefmt::skip]
static WITHIN: [(Call, Option<LimitFault>); 21] = [
    (Word(Reg::VoutCommand, 13107), BELOW), (Word(Reg::VoutCommand, 13108), None),
    (Word(Reg::VoutCommand, 14192), None), (Word(Reg::VoutCommand, 14193), ABOVE),
    (Word(Reg::VoutCommand, 0), BELOW), (Word(Reg::VoutCommand, 0xFFFF), ABOVE),
    (Word(Reg::VoutMax, 14192), None), (Word(Reg::VoutMax, 14193), ABOVE),
    (Word(Reg::VoutMin, 13107), BELOW), (Word(Reg::VoutMin, 13108), None),
    (Word(Reg::MarginHigh, 14192), None), (Word(Reg::MarginHigh, 14193), ABOVE),
    (Word(Reg::MarginLow, 13107), BELOW), (Word(Reg::MarginLow, 13108), None),
    // The nearest word counts, and not what was asked: 3.2 V is ordered as 3.19995 V, 3.20012 V as 3.2002 V.
    (Micro(Reg::VoutCommand, 3_200_000), BELOW), (Micro(Reg::VoutCommand, 3_200_120), None),
    (Micro(Reg::VoutCommand, 3_465_000), ABOVE), (Micro(Reg::VoutCommand, 3_464_900), None),
    (Micro(Reg::MarginHigh, 3_500_000), ABOVE),
    (WordAt(Cell::Out(1, Reg::VoutCommand), 0xFFFF), None),
    (WordAt(Cell::Protect, 0x00), None),
];

// A word below what was asked lies above the limit, though what was asked doesn't.
static ASKED_BELOW: [(Call, Option<LimitFault>); 2] = [
    (Micro(Reg::VoutCommand, 3_199_900), None),
    (Micro(Reg::VoutCommand, 3_199_800), BELOW),
];

// 3 V is the word 12288.
static MET: [(Call, Option<LimitFault>); 3] = [
    (Word(Reg::VoutCommand, 12288), None),
    (Word(Reg::VoutCommand, 12287), BELOW),
    (Word(Reg::VoutCommand, 12289), ABOVE),
];

static JUST_BELOW: [(Call, Option<LimitFault>); 1] = [(Word(Reg::VoutCommand, 12288), BELOW)];

static JUST_ABOVE: [(Call, Option<LimitFault>); 1] = [(Word(Reg::VoutCommand, 12288), ABOVE)];

#[test]
fn a_limit_that_is_met_is_within(rt: HostRuntime) {
    for (least, most, rows) in [
        (3_199_950, 3_465_000, &ASKED_BELOW[..]),
        (3_000_000, 3_000_000, &MET[..]),
        (3_000_001, 4_000_000, &JUST_BELOW[..]),
        (2_000_000, 2_999_999, &JUST_ABOVE[..]),
    ] {
        let mut guard = guard(least, most);
        learn(&mut guard, 0, LINEAR, &[]);
        goes(&rt, &mut guard, rows);
    }
}

// With a slope below 0 the greater word is the lower voltage: E700h is 3.2 V, E4EEh is 3.465 V.
#[rattlefmt::skip]
static FALLING_WITHIN: [(Call, Option<LimitFault>); 8] = [
    (Word(Reg::VoutCommand, 0xE700), None), (Word(Reg::VoutCommand, 0xE701), BELOW),
    (Word(Reg::VoutCommand, 0xE4EE), None), (Word(Reg::VoutCommand, 0xE4ED), ABOVE),
    (Word(Reg::VoutMax, 0x8000), ABOVE), (Word(Reg::VoutMin, 0x7FFF), BELOW),
    (Micro(Reg::MarginLow, 3_200_000), None), (Micro(Reg::MarginLow, 3_199_500), BELOW),
];

#[test]
fn voltages_are_judged_by_words_that_are_sent(rt: HostRuntime) {
    // A slope below zero turns words and not volts.
    for (mode, coefficients, rows) in [
        (LINEAR, &[][..], &WITHIN[..]),
        (DIRECT, FALLING, &FALLING_WITHIN[..]),
    ] {
        let mut guard = guard(3_200_000, 3_465_000);
        learn(&mut guard, 0, mode, coefficients);
        goes(&rt, &mut guard, rows);
    }
}

// Before the format is known. An output is turned off all the same.
#[rattlefmt::skip]
static UNLEARNED: [(Call, Option<LimitFault>); 12] = [
    (WordAt(Cell::Out(2, Reg::VoutCommand), 0), ABSENT),
    (MicroAt(Cell::Out(2, Reg::Operation), 0), ABSENT),
    (Word(Reg::VoutCommand, 13108), LIMITED), (Word(Reg::VoutMax, 0xFFFF), LIMITED),
    (Micro(Reg::VoutCommand, i64::MAX), NO_FORMAT), (Micro(Reg::Operation, 0), BAD_WORD),
    (MicroAt(Cell::Protect, 0), BAD_WORD), (Word(Reg::Operation, 0x80), LIMITED),
    (Word(Reg::Operation, 0xB0), BAD_WORD), (Word(Reg::Operation, 0x180), BAD_WORD),
    (Word(Reg::Operation, 0x00), None), (Word(Reg::Operation, 0x40), None),
];

// Orders in microvolts after the format is known: the refusals of a number come before those of the limits.
static NUMBERS: [(Call, Option<LimitFault>); 6] = [
    (Micro(Reg::VoutCommand, 1_000_000_000_000_001), TOO_LARGE),
    (Micro(Reg::VoutCommand, 1_000_000_000_000_000), GREATEST),
    (Micro(Reg::VoutCommand, 16_000_000), GREATEST),
    (Micro(Reg::VoutCommand, -1), LEAST),
    (Micro(Reg::VoutCommand, 0), BELOW),
    (Micro(Reg::VoutCommand, 15_990_000), ABOVE),
];

#[test]
fn the_first_that_applies_refuses(rt: HostRuntime) {
    let mut guard = guard(3_200_000, 3_465_000);
    goes(&rt, &mut guard, &UNLEARNED);
    learn(&mut guard, 0, LINEAR, &[]);
    goes(&rt, &mut guard, &NUMBERS);
    let _ = guard.order(first(Reg::VoutCommand), 13200);
    let busy = Some(LimitFault::Host(HostFault::Busy));
    compare! { &rt;
        1, guard.order(first(Reg::VoutCommand), 0).err() => busy;
        2, guard.order_micro(first(Reg::VoutCommand), i64::MAX).err() => busy;
        3, guard.order(Cell::Out(7, Reg::Operation), 0x80).err() => busy;
    }
}

#[test]
fn the_limits_come_before_room(rt: HostRuntime) {
    let mut guard = guard(3_200_000, 3_465_000);
    learn(&mut guard, 0, LINEAR, &[]);
    read(&mut guard, Reg::VoutCommand, 13200);
    for word in 13201..13216 {
        compare! { &rt, word; refusal(&mut guard, job(Word(Reg::VoutCommand, word))) => None }
    }
    compare! { &rt;
        1, refusal(&mut guard, job(Word(Reg::VoutCommand, 13216))) => FULL;
        2, refusal(&mut guard, job(Word(Reg::VoutCommand, 13107))) => BELOW;
        3, refusal(&mut guard, job(Micro(Reg::VoutCommand, 3_400_000))) => FULL;
    }
}

// Nothing was read but the format; then VOUT_COMMAND, and limits that lie farther out than the guard's.
static UNREAD: [(Call, Option<LimitFault>); 4] = [
    (Word(Reg::Operation, 0x80), NOT_KNOWN),
    (Word(Reg::Operation, 0xA8), NOT_KNOWN),
    (Word(Reg::Operation, 0x98), NOT_KNOWN),
    (Word(Reg::Operation, 0x7F), None),
];

static COMMAND_READ: [(Call, Option<LimitFault>); 4] = [
    (Word(Reg::Operation, 0x80), None),
    (Word(Reg::Operation, 0xA8), NOT_KNOWN),
    (Word(Reg::Operation, 0x98), NOT_KNOWN),
    (Word(Reg::Operation, 0x00), None),
];

// The high margin is within, the low one below.
static MARGINS_READ: [(Call, Option<LimitFault>); 5] = [
    (Word(Reg::Operation, 0xA8), None),
    (Word(Reg::Operation, 0xA4), None),
    (Word(Reg::Operation, 0x98), NOT_KNOWN),
    (Word(Reg::Operation, 0x8F), None),
    (Word(Reg::Operation, 0x40), None),
];

#[test]
fn an_output_is_turned_on_where_that_is_known_to_be_within(rt: HostRuntime) {
    let mut guard = guard(3_200_000, 3_465_000);
    learn(&mut guard, 0, LINEAR, &[]);
    goes(&rt, &mut guard, &UNREAD);
    read(&mut guard, Reg::VoutCommand, 0x34CD);
    goes(&rt, &mut guard, &UNREAD);
    read(&mut guard, Reg::VoutMax, 0x4000);
    read(&mut guard, Reg::VoutMin, 0x0000);
    goes(&rt, &mut guard, &COMMAND_READ);
    read(&mut guard, Reg::MarginHigh, 0x3600);
    read(&mut guard, Reg::MarginLow, 0x3000);
    goes(&rt, &mut guard, &MARGINS_READ);
}
