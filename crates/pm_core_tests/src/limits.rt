//! Limits by themselves, and how they are narrowed; a guard, its band and its rails below.

mod bands;
mod guards;
mod orders;
mod parts;
mod plans;
mod rails;
mod surveys;
mod unknown;

use self::guards::{LINEAR, first, guard, learn, refusal};
use crate::checks::equal;
use pm_host::{HostFault, Job};
use pm_limits::{Guard, LimitFault, Limits, OutputLimits};
use pm_num::NumFault;
use pm_table::Reg;
use std::alloc::AllocError;

const TOO_LARGE: Option<LimitFault> = Some(LimitFault::Host(HostFault::Num(NumFault::TooLarge)));

const INVERTED: Option<LimitFault> = Some(LimitFault::LimitsInverted);

const WIDENED: Option<LimitFault> = Some(LimitFault::LimitsWidened);

#[rattlefmt::skip]
static NEW: [(i64, i64, Option<LimitFault>); 9] = [
    (0, 0, None),
    (-1_000_000_000_000_000, 1_000_000_000_000_000, None),
    (-1_000_000_000_000_001, 0, TOO_LARGE), (0, 1_000_000_000_000_001, TOO_LARGE),
    (1_000_000_000_000_001, 0, TOO_LARGE), (i64::MIN, i64::MAX, TOO_LARGE), (1, 0, INVERTED),
    (-1, 0, None), (0, -1, INVERTED),
];

#[test]
fn limits_are_in_order_and_in_range(rt: HostRuntime) {
    for (least, most, wanted) in &NEW {
        compare! { &rt, (least, most); Limits::new(*least, *most).err() => *wanted }
    }
}

// The limits of an output, in microvolts.
fn limits_of(guard: &Guard, output: u8) -> Option<(i64, i64)> {
    match guard.limits(output) {
        OutputLimits::Between(limits) => Some((limits.least(), limits.most())),
        _ => None,
    }
}

// Each narrowing of the first output's limits, and what is left of them.
static NARROWED: [(i64, i64, Option<LimitFault>, (i64, i64)); 7] = [
    (3_199_999, 3_465_000, WIDENED, (3_200_000, 3_465_000)),
    (3_200_000, 3_465_001, WIDENED, (3_200_000, 3_465_000)),
    (3_200_000, 3_465_000, None, (3_200_000, 3_465_000)),
    (3_300_000, 3_250_000, INVERTED, (3_200_000, 3_465_000)),
    (3_250_000, 3_400_000, None, (3_250_000, 3_400_000)),
    (3_200_000, 3_400_000, WIDENED, (3_250_000, 3_400_000)),
    (i64::MIN, 0, TOO_LARGE, (3_250_000, 3_400_000)),
];

#[test]
fn limits_are_narrowed_and_never_widened(rt: HostRuntime) {
    let mut guard = guard(3_200_000, 3_465_000);
    for (least, most, wanted, left) in &NARROWED {
        compare! { &rt, (least, most);
            guard.narrow(0, *least, *most).err() => *wanted;
            limits_of(&guard, 0) => Some(*left);
            limits_of(&guard, 1) => None;
        }
    }
    let absent = Some(LimitFault::Host(HostFault::UnknownOutput));
    compare! { &rt;
        1, guard.narrow(2, i64::MAX, 0).err() => absent;
        2, guard.narrow(1, -5, 5).err() => None;
        3, limits_of(&guard, 1) => Some((-5, 5));
        4, limits_of(&guard, 0) => Some((3_250_000, 3_400_000));
        5, limits_of(&guard, 255) => None;
    }
}

#[test]
fn a_narrowing_holds_from_then_on(rt: HostRuntime) {
    let mut guard = guard(3_200_000, 3_465_000);
    learn(&mut guard, 0, LINEAR, &[]);
    let job = Job::Order(first(Reg::VoutCommand), 14192);
    compare! { &rt;
        1, refusal(&mut guard, job) => None;
        2, guard.narrow(0, 3_200_000, 3_400_000).err() => None;
        3, refusal(&mut guard, job) => Some(LimitFault::AboveLimit);
    }
}

// The example of the root, word for word.
fn guarded() -> Result<Guard, LimitFault> {
    let limits = [OutputLimits::Unknown; 8];
    let mut guard = Guard::new(0x58, 1, 2, limits).map_err(LimitFault::Host)?;
    guard.narrow(0, 3_200_000, 3_465_000)?;
    Ok(guard)
}

#[test]
fn the_example_of_the_root_runs(rt: HostRuntime) {
    let limits = match guarded() {
        Ok(guard) => limits_of(&guard, 0),
        Err(_) => None,
    };
    equal(&rt, &limits, &Some((3_200_000, 3_465_000)), &1);
}

static LIMITS: [(LimitFault, &str); 9] = [
    (LimitFault::LimitsInverted, "L1 LimitsInverted"),
    (LimitFault::FormatUnknown, "L2 FormatUnknown"),
    (LimitFault::BelowLimit, "L3 BelowLimit"),
    (LimitFault::AboveLimit, "L4 AboveLimit"),
    (LimitFault::NotKnownWithin, "L5 NotKnownWithin"),
    (LimitFault::LimitsWidened, "L6 LimitsWidened"),
    (LimitFault::MissingRegister, "L7 MissingRegister"),
    (LimitFault::NoLimits, "L8 NoLimits"),
    (LimitFault::Host(HostFault::Busy), "H3 Busy"),
];

#[test]
fn each_refusal_shows_its_words(rt: HostRuntime) -> Result<(), AllocError> {
    for (row, (fault, words)) in LIMITS.iter().enumerate() {
        let shown = format!(in rt.alloc(); "{fault}")?;
        equal(&rt, &shown.as_str(), words, &row);
    }
    Ok(())
}
