//! Outputs of which no limits are known: what is refused, and until when.

use super::bands::within;
use super::guards::{LINEAR, first, learn, read, refusal};
use crate::checks::equal;
use pm_host::{HostFault, Job};
use pm_limits::{Guard, LimitFault, OutputLimits, PartRegisters, Within};
use pm_num::NumFault;
use pm_rail::{PlanFault, Wanted, next_order};
use pm_table::{Cell, Reg};

const NO_LIMITS: Option<LimitFault> = Some(LimitFault::NoLimits);

const ABSENT: Option<LimitFault> = Some(LimitFault::Host(HostFault::UnknownOutput));

// A guard of two outputs, of which no limits are known, and a part without margins.
fn guard() -> Guard {
    let part = with! { PartRegisters, PartRegisters::all();
        vout_margin_high: false, vout_margin_low: false };
    match Guard::of_part(0x58, 2, 1, [OutputLimits::Unknown; 8], part) {
        Ok(guard) => guard,
        Err(_) => unreachable!(),
    }
}

// A word for a register of the first output.
fn word(register: Reg, word: u16) -> Job {
    Job::Order(first(register), word)
}

// Microvolts for one.
fn micro(register: Reg, x: i64) -> Job {
    Job::OrderMicro(first(register), x)
}

#[test]
fn what_would_command_a_voltage_is_refused(rt: HostRuntime) {
    let mut guard = guard();
    let missing = Some(LimitFault::MissingRegister);
    let bad = Some(LimitFault::Host(HostFault::BadWord));
    let unlearned = Some(LimitFault::Host(HostFault::FormatUnknown));
    let least = Some(LimitFault::Host(HostFault::Num(NumFault::BelowLeast)));
    #[rattlefmt::skip]
    let rows = [
        // Before a format is learned: of a word no format is asked for.
        (word(Reg::VoutCommand, 0x34CD), NO_LIMITS), (word(Reg::VoutMax, 0x34CD), NO_LIMITS),
        (word(Reg::VoutMin, 0x34CD), NO_LIMITS), (word(Reg::MarginHigh, 0x34CD), missing),
        (micro(Reg::VoutCommand, 3_300_000), unlearned),
        (micro(Reg::MarginLow, 3_300_000), missing),
        // A byte that leaves the output on, by whatever it selects.
        (word(Reg::Operation, 0x80), NO_LIMITS), (word(Reg::Operation, 0x94), missing),
        // One that turns it off, and one that isn't taken.
        (word(Reg::Operation, 0x00), None), (word(Reg::Operation, 0x40), None),
        (word(Reg::Operation, 0xB0), bad),
        // Other registers and jobs aren't concerned.
        (Job::Order(Cell::Protect, 0x00), None), (Job::Check(first(Reg::VoutCommand)), None),
        (Job::Order(Cell::Out(1, Reg::VoutCommand), 0x34CD), NO_LIMITS),
        (Job::Order(Cell::Out(2, Reg::VoutCommand), 0x34CD), ABSENT),
    ];
    for (at, (job, wanted)) in rows.iter().enumerate() {
        equal(&rt, &refusal(&mut guard, *job), wanted, &at);
    }
    learn(&mut guard, 0, LINEAR, &[]);
    let learned = [
        (micro(Reg::VoutCommand, 3_300_000), NO_LIMITS),
        (micro(Reg::VoutCommand, -1_000_000), least),
        (word(Reg::VoutCommand, 0x34CD), NO_LIMITS),
    ];
    for (at, (job, wanted)) in learned.iter().enumerate() {
        equal(&rt, &refusal(&mut guard, *job), wanted, &(1, at));
    }
    // An open job comes first.
    equal(&rt, &guard.begin(Job::Learn(1)), &Ok(()), &2);
    let busy = Err(LimitFault::Host(HostFault::Busy));
    equal(&rt, &guard.begin(word(Reg::VoutCommand, 0x34CD)), &busy, &3);
}

#[test]
fn limits_or_the_word_that_there_are_none_end_it(rt: HostRuntime) {
    let mut guard = guard();
    learn(&mut guard, 0, LINEAR, &[]);
    learn(&mut guard, 1, LINEAR, &[]);
    compare! { &rt;
        1, guard.no_limits(2).err() => ABSENT;
        2, guard.no_limits(0) => Ok(());
        3, refusal(&mut guard, word(Reg::VoutCommand, 0xFFFF)) => None;
        4, refusal(&mut guard, word(Reg::Operation, 0x80)) => None;
    }
    // The other output isn't concerned.
    let other = Job::Order(Cell::Out(1, Reg::VoutCommand), 0x34CD);
    equal(&rt, &refusal(&mut guard, other), &NO_LIMITS, &5);
    equal(&rt, &guard.narrow(1, 3_000_000, 3_600_000), &Ok(()), &6);
    equal(&rt, &refusal(&mut guard, other), &None, &7);
    // Limits that are given later end it, and stay.
    equal(&rt, &guard.narrow(0, 3_200_000, 3_465_000), &Ok(()), &8);
    let below = Some(LimitFault::BelowLimit);
    compare! { &rt, 9; refusal(&mut guard, word(Reg::VoutCommand, 13107)) => below }
    let widened = Some(LimitFault::LimitsWidened);
    compare! { &rt;
        10, guard.no_limits(0).err() => widened;
        11, refusal(&mut guard, word(Reg::VoutCommand, 13107)) => below;
    }
    // It may be said while an order is open.
    let mut open = guard_of_none();
    compare! { &rt;
        12, open.begin(word(Reg::VoutCommand, 0x34CD)) => Ok(());
        13, open.no_limits(0) => Ok(());
    }
}

// A guard of one output that is said to have no limits.
fn guard_of_none() -> Guard {
    match Guard::new(0x58, 1, 1, [OutputLimits::Unlimited; 8]) {
        Ok(guard) => guard,
        Err(_) => unreachable!(),
    }
}

#[test]
fn a_voltage_without_limits_lies_within_none(rt: HostRuntime) {
    let mut guard = guard();
    learn(&mut guard, 0, LINEAR, &[]);
    read(&mut guard, Reg::Operation, 0x80);
    read(&mut guard, Reg::VoutCommand, 0x34CD);
    equal(&rt, &within(&guard), &Some(Within::NoLimits), &1);
    equal(&rt, &guard.no_limits(0), &Ok(()), &2);
    equal(&rt, &within(&guard), &Some(Within::NoLimits), &3);
    equal(&rt, &guard.limits(0).are_known(), &true, &4);
    equal(&rt, &guard.limits(1).are_known(), &false, &5);
}

// Why a plan for the first output gives no order; none if the output isn't there.
fn refused(guard: &Guard, wanted: &Wanted) -> Option<PlanFault> {
    if guard.host().outputs() == 0 {
        return None;
    }
    next_order(guard, 0, wanted).err()
}

#[test]
fn a_plan_is_refused_by_its_first_register(rt: HostRuntime) {
    let mut guard = guard();
    let mut wanted = Wanted {
        command: None,
        max: Some(0x3770),
        margin_high: None,
        margin_low: None,
        min: Some(0x2000),
    };
    let unlearned = Some(PlanFault::FormatUnknown);
    equal(&rt, &refused(&guard, &wanted), &unlearned, &1);
    learn(&mut guard, 0, LINEAR, &[]);
    let fault = Some(PlanFault::NoLimits(Reg::VoutMax));
    equal(&rt, &refused(&guard, &wanted), &fault, &2);
    // To nothing it isn't.
    wanted.max = None;
    wanted.min = None;
    let unknown = Some(PlanFault::NotKnown(first(Reg::Operation)));
    equal(&rt, &refused(&guard, &wanted), &unknown, &3);
}
