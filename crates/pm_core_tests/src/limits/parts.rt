//! Parts that lack registers: what a guard, a plan and a survey make of them, by rows written by hand; a byte that
//! OPERATION doesn't take, and limits that are narrowed while an order is open.

use super::guards::{LINEAR, first, give_up, guard, learn, read, refusal, tell};
use super::rails::{asks, next_of};
use crate::checks::{equal, is_true};
use pm_frame::Message;
use pm_host::{HostFault, Job, JobEnd, Told};
use pm_limits::{Guard, LimitFault, Limits, OutputLimits, PartRegisters, Within};
use pm_num::Frac;
use pm_rail::{PlanFault, PlanOrder, Power, Survey, Wanted, next_order, rail_of};
use pm_table::{Cell, Reg};
use std::process::Abort;

const MISSING: Option<LimitFault> = Some(LimitFault::MissingRegister);

const BUSY: Option<LimitFault> = Some(LimitFault::Host(HostFault::Busy));

const NOTHING: Wanted = Wanted {
    command: None,
    max: None,
    margin_high: None,
    margin_low: None,
    min: None,
};

// A guard of a part with these registers, whose first output has limits of 0.9 V to 1.1 V; the second is said to have none.
fn guard_of(part: PartRegisters) -> Guard {
    let mut limits = [OutputLimits::Unlimited; 8];
    if let Ok(first) = Limits::new(900_000, 1_100_000) {
        limits[0] = OutputLimits::Between(first);
    }
    match Guard::of_part(0x58, 2, 1, limits, part) {
        Ok(guard) => guard,
        Err(_) => unreachable!(),
    }
}

// Every register but VOUT_MIN.
fn without_min() -> PartRegisters {
    let mut part = PartRegisters::all();
    part.vout_min = false;
    part
}

// Every register but VOUT_MAX.
fn without_max() -> PartRegisters {
    let mut part = PartRegisters::all();
    part.vout_max = false;
    part
}

// Every register but the margins.
fn without_margins() -> PartRegisters {
    let mut part = PartRegisters::all();
    part.vout_margin_high = false;
    part.vout_margin_low = false;
    part
}

// The ends of the first output's band, as numerators over 4096.
fn is_band(rt: &impl Abort, guard: &Guard, least: i128, greatest: i128) {
    is_true(rt, guard.host().outputs() > 0, &0);
    let same = match (
        guard.band(0),
        Frac::new(least, 4096),
        Frac::new(greatest, 4096),
    ) {
        (Some(band), Some(low), Some(high)) => {
            band.least.same_value(&low) && band.greatest.same_value(&high)
        }
        _ => false,
    };
    is_true(rt, same, &(least, greatest));
}

// Whether the first output lies within its limits, and whether it has a band.
fn is_within(rt: &impl Abort, guard: &Guard) -> (Within, bool) {
    is_true(rt, guard.host().outputs() > 0, &0);
    (guard.within(0), guard.band(0).is_some())
}

// 1 V, 1.05 V and 0.95 V, and VOUT_MAX at 1.3 V.
fn read_settings(guard: &mut Guard) {
    learn(guard, 0, LINEAR, &[]);
    read(guard, Reg::Operation, 0x00);
    read(guard, Reg::VoutCommand, 4096);
    read(guard, Reg::MarginHigh, 4300);
    read(guard, Reg::MarginLow, 3892);
}

// The bytes that turn an output on, at VOUT_COMMAND and at both margins.
static ON: [u16; 3] = [0x80, 0xA8, 0x94];

#[test]
fn an_output_is_turned_on_by_the_registers_that_its_part_has(rt: HostRuntime) {
    // The part's registers, the bound that is read, and its word; the band then; why each byte is refused; and the band at last.
    #[rattlefmt::skip]
    let rows = [
        // A part without VOUT_MIN is turned on and put on both margins.
        (without_min(), Reg::VoutMax, 5325, (4096, 4096), None, (3892, 4300)),
        // A part without VOUT_MAX is cut by VOUT_MIN alone.
        (without_max(), Reg::VoutMin, 4000, (4096, 4096), None, (4000, 4300)),
        // Nothing is known to lie within the limits if the part has the register and it wasn't read.
        (PartRegisters::all(), Reg::VoutMax, 5325, (4096, 5325), Some(LimitFault::NotKnownWithin),
            (4096, 5325)),
    ];
    for (part, register, word, before, fault, at_last) in &rows {
        let mut guard = guard_of(*part);
        equal(&rt, &guard.registers(), part, &0);
        read_settings(&mut guard);
        read(&mut guard, *register, *word);
        is_band(&rt, &guard, before.0, before.1);
        for byte in ON {
            let job = Job::Order(first(Reg::Operation), byte);
            equal(&rt, &refusal(&mut guard, job), fault, &byte);
            if fault.is_none() {
                equal(&rt, &is_within(&rt, &guard), &(Within::Yes, true), &byte);
            }
        }
        is_band(&rt, &guard, at_last.0, at_last.1);
    }
}

const ABSENT: Option<LimitFault> = Some(LimitFault::Host(HostFault::UnknownOutput));

// At a part without VOUT_MIN and without margins, before the format is known.
#[rattlefmt::skip]
static JOBS: [(Job, Option<LimitFault>); 15] = [
    (Job::Order(Cell::Out(0, Reg::VoutMin), 0), MISSING),
    (Job::OrderMicro(Cell::Out(0, Reg::VoutMin), 0), MISSING),
    (Job::OrderMicro(Cell::Out(0, Reg::VoutMin), i64::MAX), MISSING),
    (Job::Check(Cell::Out(0, Reg::VoutMin)), MISSING),
    (Job::Check(Cell::Out(0, Reg::MarginHigh)), MISSING),
    (Job::Check(Cell::Out(0, Reg::MarginLow)), MISSING),
    (Job::Order(Cell::Out(0, Reg::Operation), 0xA8), MISSING),
    (Job::Order(Cell::Out(0, Reg::Operation), 0x94), MISSING),
    (Job::Order(Cell::Out(1, Reg::VoutMin), 0), MISSING),
    (Job::Order(Cell::Out(1, Reg::Operation), 0xA4), MISSING),
    (Job::Order(Cell::Out(2, Reg::VoutMin), 0), ABSENT),
    (Job::Check(Cell::Out(2, Reg::VoutMin)), ABSENT),
    (Job::Order(Cell::Out(0, Reg::Operation), 0x80), Some(LimitFault::FormatUnknown)),
    (Job::Order(Cell::Out(0, Reg::Operation), 0x00), None),
    (Job::Check(Cell::Out(0, Reg::VoutMax)), None),
];

#[test]
fn a_job_on_a_missing_register_is_refused(rt: HostRuntime) {
    let mut part = without_margins();
    part.vout_min = false;
    let mut guard = guard_of(part);
    let rows = JOBS;
    for (at, (job, wanted)) in rows.iter().enumerate() {
        equal(&rt, &refusal(&mut guard, *job), wanted, &(at, job));
    }
    let _ = guard.check(first(Reg::VoutMax));
    compare! { &rt;
        "a job is open", guard.check(first(Reg::VoutMin)).err() => BUSY;
        1, LimitFault::MissingRegister.words() => "L7 MissingRegister";
        2, LimitFault::MissingRegister.number() => 0x27;
        3, LimitFault::FormatUnknown.number() => 0x22;
    }
}

// The byte that is read of OPERATION, and the least and the greatest over 4096 that the output may command then, if it
// has a band: VOUT_COMMAND is 1 V, VOUT_MARGIN_HIGH 3 V, VOUT_MARGIN_LOW 0.5 V.
#[rattlefmt::skip]
static BYTES: [(u16, Option<(i128, i128)>); 8] = [
    (0x80, Some((4096, 4096))), (0xA8, Some((12288, 12288))), (0x30, Some((4096, 4096))),
    (0xA0, Some((2048, 12288))), (0xC0, Some((2048, 12288))), (0xB0, None), (0xBF, None),
    (0xF0, None),
];

#[test]
fn a_byte_that_operation_does_not_take_selects_any_register(rt: HostRuntime) {
    for (byte, ends) in &BYTES {
        let mut guard = guard(0, 4_000_000);
        learn(&mut guard, 0, LINEAR, &[]);
        read(&mut guard, Reg::VoutCommand, 4096);
        read(&mut guard, Reg::VoutMax, 16384);
        read(&mut guard, Reg::MarginHigh, 12288);
        read(&mut guard, Reg::MarginLow, 2048);
        read(&mut guard, Reg::VoutMin, 0);
        read(&mut guard, Reg::Operation, *byte);
        match ends {
            Some((least, greatest)) => is_band(&rt, &guard, *least, *greatest),
            None => equal(
                &rt,
                &is_within(&rt, &guard),
                &(Within::NotKnown, false),
                byte,
            ),
        }
        let taken = *byte == 0x80 || *byte == 0xA8 || *byte == 0x30;
        is_true(&rt, guard.host().outputs() > 0, byte);
        let known = rail_of(&guard, 0).power != Power::NotKnown;
        equal(&rt, &known, &taken, byte);
        read_protect(&mut guard);
        let fault = next_of(&rt, &guard, 0, &NOTHING).err();
        let unknown = Some(PlanFault::NotKnown(first(Reg::Operation)));
        equal(&rt, &fault, if taken { &None } else { &unknown }, byte);
    }
}

// Reads WRITE_PROTECT as 00h.
fn read_protect(guard: &mut Guard) {
    let _ = guard.check(Cell::Protect);
    tell(guard, &Message::ReadCommand { code: 0x10 }, &[0x00]);
}

// Limits of the first output while VOUT_COMMAND is ordered as 3.4648 V under 3.2 V to 3.465 V.
static NARROWED: [(i64, i64, Option<LimitFault>); 4] = [
    (3_200_000, 3_400_000, BUSY),
    (3_100_000, 3_400_000, Some(LimitFault::LimitsWidened)),
    (3_400_000, 3_300_000, Some(LimitFault::LimitsInverted)),
    (3_300_000, 3_465_000, None),
];

#[test]
fn limits_that_refuse_an_open_order_are_refused(rt: HostRuntime) {
    for told in [false, true] {
        let mut guard = guard(3_200_000, 3_465_000);
        learn(&mut guard, 0, LINEAR, &[]);
        compare! { &rt, told; guard.order(first(Reg::VoutCommand), 14192).err() => None }
        if told {
            let _ = guard.turn();
            tell_finished(&rt, &mut guard);
        }
        for (least, most, wanted) in &NARROWED {
            let fault = guard.narrow(0, *least, *most).err();
            equal(&rt, &fault, wanted, &(least, most));
        }
        equal(&rt, &guard.narrow(1, 0, 1).err(), &None, &told);
        give_up(&mut guard);
        compare! { &rt, told; guard.narrow(0, 3_300_000, 3_400_000).err() => None }
    }
}

// The frame of a write was sent.
fn tell_finished(rt: &impl Abort, guard: &mut Guard) {
    match guard.turn() {
        pm_host::Turn::Write(_) => {
            guard.told(Told::Finished { acked: true });
        }
        _ => is_true(rt, false, &"a write is sent"),
    }
}

// Turning on is refused by limits below, turning off by none; a check stops no narrowing.
#[test]
fn an_open_order_of_operation_stops_what_refuses_it(rt: HostRuntime) {
    let mut guard = guard_of(without_min());
    read_settings(&mut guard);
    read(&mut guard, Reg::VoutMax, 5325);
    let _ = guard.order(first(Reg::Operation), 0x80);
    equal(&rt, &guard.narrow(0, 900_000, 950_000).err(), &BUSY, &1);
    equal(&rt, &guard.narrow(0, 950_000, 1_050_000).err(), &None, &2);
    give_up(&mut guard);
    let _ = guard.order(first(Reg::Operation), 0x00);
    equal(&rt, &guard.narrow(0, 950_000, 960_000).err(), &None, &3);
    give_up(&mut guard);
    let _ = guard.check(first(Reg::VoutCommand));
    equal(&rt, &guard.narrow(0, 955_000, 960_000).err(), &None, &4);
}

// A wish of each register.
fn wish(register: Reg) -> Wanted {
    let mut wanted = NOTHING;
    match register {
        Reg::VoutCommand => wanted.command = Some(4096),
        Reg::VoutMax => wanted.max = Some(4096),
        Reg::MarginHigh => wanted.margin_high = Some(4096),
        Reg::MarginLow => wanted.margin_low = Some(4096),
        Reg::VoutMin => wanted.min = Some(4096),
        Reg::Operation => {}
    }
    wanted
}

#[test]
fn a_wish_for_a_missing_register_is_refused(rt: HostRuntime) {
    let part = PartRegisters {
        vout_max: false,
        vout_margin_high: false,
        vout_margin_low: false,
        vout_min: false,
    };
    let mut guard = guard_of(part);
    for register in Reg::ALL {
        let fault = match register {
            Reg::Operation | Reg::VoutCommand => PlanFault::FormatUnknown,
            _ => PlanFault::MissingRegister(register),
        };
        is_true(&rt, guard.host().outputs() > 0, &register);
        let found = next_order(&guard, 0, &wish(register));
        equal(&rt, &found, &Err(fault), &register);
    }
    let _ = guard.learn(0);
    is_true(&rt, guard.host().outputs() > 0, &1);
    let found = next_order(&guard, 0, &wish(Reg::VoutMin));
    equal(&rt, &found, &Err(PlanFault::Busy), &1);
    let fault = PlanFault::MissingRegister(Reg::VoutMin);
    equal(&rt, &fault.words(), &"L7 MissingRegister", &2);
    equal(&rt, &fault.number(), &0x27, &3);
    equal(&rt, &fault.code().map(|code| code.0), &Some(0x2B), &4);
}

// A plan of a part without VOUT_MIN and VOUT_MAX needs neither, and P5 and P6 never come of them.
#[test]
fn a_plan_needs_no_missing_register(rt: HostRuntime) {
    let mut part = without_min();
    part.vout_max = false;
    let mut guard = guard_of(part);
    learn(&mut guard, 0, LINEAR, &[]);
    read(&mut guard, Reg::Operation, 0x80);
    read(&mut guard, Reg::VoutCommand, 4000);
    read_protect(&mut guard);
    is_true(&rt, guard.host().outputs() > 0, &1);
    let order = PlanOrder {
        register: Reg::VoutCommand,
        word: 4096,
    };
    let found = next_order(&guard, 0, &wish(Reg::VoutCommand));
    equal(&rt, &found, &Ok(Some(order)), &2);
}

// Whether a part has VOUT_MAX, the margins, high first, and VOUT_MIN; the word of each of its registers; whether a survey ends by its own rule, and after how many jobs.
#[rattlefmt::skip]
static SURVEYS: [([bool; 4], [u16; 6], (bool, u16)); 5] = [
    ([true, true, true, true], [0x80, 4096, 5325, 0, 0, 0], (true, 5)),
    ([true, true, true, false], [0x80, 4096, 5325, 0, 0, 0], (true, 4)),
    ([false, true, true, true], [0x80, 4096, 5325, 0, 0, 0], (true, 4)),
    ([true, false, false, true], [0x80, 4096, 5325, 0, 0, 0], (true, 5)),
    ([true, false, false, true], [0xA8, 4096, 5325, 0, 0, 0], (false, 4)),
];

#[test]
fn a_survey_reads_no_missing_register(rt: HostRuntime) {
    for (at, (part, words, end)) in SURVEYS.iter().enumerate() {
        let mut guard = guard_of(PartRegisters {
            vout_max: part[0],
            vout_margin_high: part[1],
            vout_margin_low: part[2],
            vout_min: part[3],
        });
        let mut survey = Survey::new(0, None, 20);
        for _ in 0..20 {
            match asks(&rt, &mut survey, &guard) {
                Some(Job::Learn(_)) => {
                    learn(&mut guard, 0, LINEAR, &[]);
                    survey.told(JobEnd::Learned);
                }
                Some(Job::Check(Cell::Out(_, register))) => {
                    equal(&rt, &guard.registers().has(register), &true, &register);
                    read(&mut guard, register, words[register.number()]);
                    survey.told(JobEnd::Done);
                }
                _ => {}
            }
        }
        is_true(&rt, survey.output < guard.host().outputs(), &at);
        let done = survey.is_done(&guard);
        equal(&rt, &(done, 20 - survey.left.min(20)), end, &at);
    }
}
