//! Bands, by words that were read and ordered.

use super::guards::{DIRECT, FALLING, LINEAR, first, guard, learn, read, refusal};
use crate::checks::{equal, is_true};
use pm_host::Job;
use pm_limits::{Guard, OutputLimits, Within};
use pm_num::Frac;
use pm_table::Reg;
use std::process::Abort;

// A band from one fraction to another, as numerators over a denominator.
fn is_band(rt: &impl Abort, guard: &Guard, den: i128, least: i128, greatest: i128) {
    let same = match (band(guard), Frac::new(least, den), Frac::new(greatest, den)) {
        (Some(found), Some(low), Some(high)) => found.0.same_value(&low)
            && found.1.same_value(&high),
        _ => false,
    };
    is_true(rt, same, &(den, least, greatest));
}

// The ends of the band of the first output.
fn band(guard: &Guard) -> Option<(Frac, Frac)> {
    if guard.host().outputs() == 0 {
        return None;
    }
    match guard.band(0) {
        Some(band) => Some((band.least, band.greatest)),
        None => None,
    }
}

// Whether the first output is within its limits.
pub(super) fn within(guard: &Guard) -> Option<Within> {
    if guard.host().outputs() == 0 {
        return None;
    }
    Some(guard.within(0))
}

#[test]
fn a_band_is_what_the_words_can_command(rt: HostRuntime) {
    let mut guard = guard(3_200_000, 3_465_000);
    is_true(&rt, band(&guard).is_none(), &1);
    learn(&mut guard, 0, LINEAR, &[]);
    is_band(&rt, &guard, 4096, 0, 0xFFFF);
    // Only VOUT_MAX bounds it from above.
    read(&mut guard, Reg::VoutMax, 14000);
    is_band(&rt, &guard, 4096, 0, 14000);
    read(&mut guard, Reg::VoutMin, 13000);
    is_band(&rt, &guard, 4096, 13000, 14000);
    // The margins may be selected until OPERATION is read.
    read(&mut guard, Reg::VoutCommand, 13500);
    is_band(&rt, &guard, 4096, 13000, 14000);
    read(&mut guard, Reg::Operation, 0x80);
    is_band(&rt, &guard, 4096, 13500, 13500);
    // A margin counts from the order of OPERATION on.
    read(&mut guard, Reg::MarginHigh, 13900);
    is_band(&rt, &guard, 4096, 13500, 13500);
    compare! { &rt, 2; refusal(&mut guard, Job::Order(first(Reg::Operation), 0xA8)) => None }
    is_band(&rt, &guard, 4096, 13500, 13900);
    // An order that wasn't read back leaves both words.
    compare! { &rt, 3; refusal(&mut guard, Job::Order(first(Reg::VoutCommand), 13110)) => None }
    is_band(&rt, &guard, 4096, 13110, 13900);
}

#[test]
fn vout_max_wins_where_vout_min_is_above_it(rt: HostRuntime) {
    let mut guard = guard(0, 16_000_000);
    learn(&mut guard, 0, LINEAR, &[]);
    read(&mut guard, Reg::Operation, 0x80);
    read(&mut guard, Reg::VoutCommand, 13500);
    read(&mut guard, Reg::VoutMax, 13000);
    read(&mut guard, Reg::VoutMin, 14000);
    is_band(&rt, &guard, 4096, 13000, 13000);
    // VOUT_MIN may be lower too, which changes nothing, and VOUT_MAX may be higher than it.
    compare! { &rt, 1; refusal(&mut guard, Job::Order(first(Reg::VoutMin), 12000)) => None }
    is_band(&rt, &guard, 4096, 13000, 13000);
    compare! { &rt, 2; refusal(&mut guard, Job::Order(first(Reg::VoutMax), 15000)) => None }
    is_band(&rt, &guard, 4096, 13000, 14000);
}

#[test]
fn a_slope_below_zero_turns_the_ends(rt: HostRuntime) {
    let mut guard = guard(3_200_000, 3_465_000);
    learn(&mut guard, 0, DIRECT, FALLING);
    is_band(&rt, &guard, 2000, -0x7FFF, 0x8000);
    read(&mut guard, Reg::VoutMin, 0xE700);
    read(&mut guard, Reg::VoutMax, 0xE4EE);
    is_band(&rt, &guard, 2000, 6400, 6930);
    equal(&rt, &within(&guard), &Some(Within::Yes), &1);
}

#[test]
fn a_band_is_within_or_not_or_that_isnt_known(rt: HostRuntime) {
    let mut guard = guard(3_200_000, 3_465_000);
    equal(&rt, &within(&guard), &Some(Within::NotKnown), &1);
    learn(&mut guard, 0, LINEAR, &[]);
    equal(&rt, &within(&guard), &Some(Within::NotKnown), &2);
    read(&mut guard, Reg::Operation, 0x80);
    for (command, wanted) in [
        (13107, Within::No),
        (13108, Within::Yes),
        (14192, Within::Yes),
        (14193, Within::No),
    ] {
        for register in [Reg::VoutCommand, Reg::VoutMax, Reg::VoutMin] {
            read(&mut guard, register, command);
        }
        equal(&rt, &within(&guard), &Some(wanted), &command);
    }
    // Nothing lies within limits that aren't there.
    let mut free = guard_without_limits();
    equal(&rt, &within(&free), &Some(Within::NoLimits), &3);
    learn(&mut free, 0, LINEAR, &[]);
    equal(&rt, &within(&free), &Some(Within::NoLimits), &4);
}

fn guard_without_limits() -> Guard {
    match Guard::new(0x58, 1, 1, [OutputLimits::Unlimited; 8]) {
        Ok(guard) => guard,
        Err(_) => unreachable!(),
    }
}
