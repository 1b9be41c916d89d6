//! Words and microvolts, both ways.

ghost use Rattle.std.specs.Prelude.{◌≡◌, ◌≢◌, ◌<◌, pos};
ghost use Rattle.pm_num.specs.Ratio.{is_above as spec_is_above, micros, InBounds, is_far as spec_is_far};
ghost use Rattle.pm_memory.specs.Voltages.{floor_number, IsCeil, IsFloor, IsNear, IsSmall};

use crate::numbers::ACCEPTED;
use pm_num::{Frac, NumFault, micro};
use std::cmp::Ordering;

// The greatest number of microvolts that is answered, in size.
const LIMIT: i128 = 1_000_000_000_000_000;

// Microvolts in a volt.
const MILLION: i128 = 1_000_000;

/// A value in microvolts, rounded down. N5 exactly if the value is beyond 10^15 microvolts in
/// size.
pub fn put_floor(value: &Frac, microvolts: &mut i64) -> u8
    ensures number { result ≡ floor_number value.now }
    ensures floor { result ≡ 0 → IsFloor value.now microvolts.new }
    ensures near { result ≡ 0 → IsNear microvolts.new }
    ensures positive { 0 < value.now.den }
    ensures refused { result ≢ 0 → microvolts.new ≡ microvolts.old }
{
    if is_far(value) {
        return NumFault::TooLarge.number();
    }
    *microvolts = value.floor_micro() as i64;
    ACCEPTED
}

/// A value in microvolts, rounded up. N5 exactly if the value is beyond 10^15 microvolts in
/// size.
pub(crate) fn put_ceil(value: &Frac, microvolts: &mut i64) -> u8
    ensures number { result ≡ floor_number value.now }
    ensures ceil { result ≡ 0 → IsCeil value.now microvolts.new }
    ensures small { result ≡ 0 → IsSmall microvolts.new }
    ensures refused { result ≢ 0 → microvolts.new ≡ microvolts.old }
{
    let mut floor = 0;
    let number = put_floor(value, &mut floor);
    if number != ACCEPTED {
        return number;
    }
    *microvolts = if is_above(value, &whole(floor)) {
        floor + 1
    } else {
        floor
    };
    ACCEPTED
}

// This many microvolts as a fraction.
fn whole(x: i64) -> Frac
    requires { IsNear x }
    ensures { result ≡ micros x }
{
    match micro(x) {
        Ok(value) => value,
        Err(_) => unreachable!(),
    }
}

// Whether the first value is the greater one.
fn is_above(p: &Frac, q: &Frac) -> bool
    ensures { result ≡ spec_is_above p.now q.now }
{
    p.cmp_value(q) == Ordering::Greater
}

// Whether a value is beyond 10^15 microvolts in size, by cross products.
fn is_far(value: &Frac) -> bool
    ensures far { result ≡ spec_is_far value.now }
    ensures bounds { InBounds value.now.num (pos value.now.den) }
{
    let microvolts = value.num() * MILLION;
    LIMIT * value.den() < microvolts || microvolts < -LIMIT * value.den()
}
