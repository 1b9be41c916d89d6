//! How READ_VOUT stands beside what an output commands.

ghost use Rattle.std.specs.Prelude.{◌≡◌, ◌≤◌, ◌<◌, ◌^◌, unsigned_abs, true, None};
ghost use Rattle.pm_delivery.specs.Heard.{is_good as spec_is_good};
ghost use Rattle.pm_host.specs.Image.{held};
ghost use Rattle.pm_num.specs.Ratio.{micros};
ghost use Rattle.pm_delivery.specs.Reading.{is_below as spec_is_below, lies_beyond as spec_is_beyond, is_more as spec_is_more, is_over as spec_is_over, numerator_over as spec_over, reading_in, reading_of as spec_reading_of, share as spec_share};

use crate::delivery::Delivery;
use pm_host::State;
use pm_limits::{Band, Limits, OutputLimits, PartRegisters, Within, band_in, within_limits};
use pm_num::{Frac, NumFormat, micro};
use std::cmp::Ordering;

/// How READ_VOUT stands beside what an output commands, and its limits.
#[derive(Clone, Copy, Debug, PartialEq, Eq)]
pub enum Reading {
    /// It gave no good answer, or what the output commands isn't known.
    NotKnown,
    /// It lies below the output's limits.
    Outside,
    /// It lies above them.
    Above,
    /// It is farther from what the output commands than it may be.
    Beyond,
    /// It lies within the limits, and near what the output commands.
    Right,
}

// The most thousandths that a reading may be away.
const MOST_WITHIN: u16 = 1000;

impl Delivery {
    /// How READ_VOUT stands, by what the host holds beside its open job. The output's number is below 8.
    pub fn reading(&self, state: &State, part: PartRegisters, limits: &OutputLimits) -> Reading
        requires { self.now.output < 8 }
        ensures value { result ≡ reading_in part limits.now (held None state.now) self.now }
        ensures good { result ≡ Reading.Right → spec_is_good self.now.read_vout ≡ true }
    {
        if !self.read_vout.is_good() {
            return Reading::NotKnown;
        }
        let Some(format) = state.format(self.output).format() else {
            return Reading::NotKnown;
        };
        let Some(band) = band_in(state, part, self.output) else {
            return Reading::NotKnown;
        };
        reading_of(
            limits,
            self.within,
            &format.value_of(self.read_vout.word),
            &band,
        )
    }
}

// How a reading stands beside limits and a band.
fn reading_of(limits: &OutputLimits, within: u16, value: &Frac, band: &Band) -> Reading
    ensures { result ≡ spec_reading_of limits.now within value.now band.now }
{
    let read = Band {
        least: *value,
        greatest: *value,
    };
    if within_limits(limits, Some(read)) == Within::No {
        if is_over(limits, value) {
            Reading::Above
        } else {
            Reading::Outside
        }
    } else if is_below(within, value, &band.least) || is_beyond(within, value, &band.greatest) {
        Reading::Beyond
    } else {
        Reading::Right
    }
}

// Whether a value lies above the upper limit.
fn is_over(limits: &OutputLimits, value: &Frac) -> bool
    ensures { result ≡ spec_is_over limits.now value.now }
{
    match limits {
        OutputLimits::Between(bounds) => value.cmp_value(&most_value(bounds)) == Ordering::Greater,
        _ => false,
    }
}

// The upper limit as a fraction.
fn most_value(bounds: &Limits) -> Frac
    ensures { result ≡ micros bounds.now.most }
{
    let _least = bounds.least();
    match micro(bounds.most()) {
        Ok(value) => value,
        Err(_) => unreachable!(),
    }
}

// Whether a value is below another one by more than so many thousandths of that.
fn is_below(within: u16, value: &Frac, from: &Frac) -> bool
    ensures { result ≡ spec_is_below within value.now from.now }
{
    let (own, other) = (over(value, from), over(from, value));
    is_more(within, other, other - own)
}

// Whether a value is above another one by more than so many thousandths of that.
fn is_beyond(within: u16, value: &Frac, from: &Frac) -> bool
    ensures { result ≡ spec_is_beyond within value.now from.now }
{
    let (own, other) = (over(value, from), over(from, value));
    is_more(within, other, own - other)
}

// Whether so many thousandths of a number's size are less than a gap.
fn is_more(within: u16, of: i128, gap: i128) -> bool
    requires of { unsigned_abs of ≤ 2 ^ 110 }
    requires gap { unsigned_abs gap ≤ 2 ^ 111 }
    ensures { result ≡ spec_is_more within of gap }
{
    let thousandths = of.unsigned_abs() * u128::from(share(within));
    (thousandths as i128) < 1000 * gap
}

// How many thousandths a reading may be away.
fn share(within: u16) -> u16
    ensures value { result ≡ spec_share within }
    ensures most { result ≤ 1000 }
{
    if MOST_WITHIN < within {
        MOST_WITHIN
    } else {
        within
    }
}

// The numerator of the first of two fractions over the product of their denominators.
fn over(p: &Frac, q: &Frac) -> i128
    ensures value { result ≡ spec_over p.now q.now }
    ensures size { unsigned_abs result ≤ 2 ^ 110 }
{
    p.num() * q.den()
}
