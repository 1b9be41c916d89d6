//! Exact fractions.

ghost use Rattle.std.specs.Prelude.{◌≡◌, ◌^◌, ◌≤◌, ◌↔◌, ℤ, pos, ◌*ℤ◌, ◌≤ℤ◌, IsTrue, IfOk, IfErr, IsOk, unsigned_abs};
ghost use Rattle.std.specs.Option.{SomeIff};
ghost use Rattle.std.specs.Ordering.{int_cmp};
ghost use Rattle.std.specs.Result.{result_err};
ghost use Rattle.pm_num.specs.Ratio.{AtMost, LessThan, SameValue, InBounds, IsMicroFloor, far_fault, is_far, micros};
ghost use Rattle.std.specs.declared.cmp.Ordering.TheVariants.{Less, Equal, Greater};
ghost use Rattle.pm_num.specs.declared.fault.NumFault.TheVariants.{TooLarge};

use crate::fault::NumFault;
use crate::whole::{floor, product};
use std::cmp::Ordering;
use std::marker::Model;

// The greatest denominator, and the greatest size of a numerator.
const LIMIT: i128 = 1 << 55;

// Millionths in one.
const MILLION: i64 = 1_000_000;

// The greatest number of whole millionths of a value that is given in microvolts, in size.
const FAR: i64 = 1_000_000_000_000_000;

// The greatest number of millionths that [`micro`] takes, in size.
const MICRO_LIMIT: i64 = 1_000_000_000_000_000;

/// A fraction `num / den` of whole numbers, with `den` from 1 to 2^55 and `num` from -2^55 to 2^55.
///
/// It is kept as it stands and not reduced, so two fractions of one value may differ in both parts;
/// that is why there is no `==`. [`Frac::same_value`] and [`Frac::cmp_value`] compare values.
#[derive(Clone, Copy, Debug)]
pub struct Frac {
    num: i64,
    den: i64,
}

impl Model for Frac {
    ghost use Rattle.std.specs.Prelude.{pos, unsigned_abs};
    ghost use Rattle.pm_num.specs.Ratio.{Ratio, InBounds};
    ghost use Rattle.pm_num.specs.Lemmas.Integers.{back_from_size};

    ghost Value = { Ratio };

    ghost view = { λ f. record { num = f.num; den = unsigned_abs f.den } };

    ghost invariant = { λ f. InBounds f.num f.den };

    ghost inverse = { λ r. record { num = r.num; den = pos r.den } };

    ghost inverse_ok = { λ f h.
        back_from_size (λ n. record { num = f.num; den = n }) f.den h.den_above };
}

impl Frac {
    /// The fraction `num / den`. None exactly if `den` is not from 1 to 2^55, or `num` not from -2^55 to
    /// 2^55.
    pub fn new(num: i128, den: i128) -> Option<Frac>
        ensures { SomeIff result (InBounds num den) (record { num = num; den = unsigned_abs den }) }
    {
        if den < 1 || LIMIT < den || num < -LIMIT || LIMIT < num {
            return None;
        }
        Some(Frac {
            num: num as i64,
            den: den as i64,
        })
    }

    /// The fraction `num / den`, which are in bounds.
    pub(crate) fn of(num: i64, den: i64) -> Frac
        requires { InBounds num den }
        ensures { result ≡ record { num = num; den = unsigned_abs den } }
    {
        Frac { num, den }
    }

    /// The numerator, as it was given.
    pub fn num(&self) -> i128
        ensures value { result ≡ self.now.num }
        ensures bounds { InBounds self.now.num (pos self.now.den) }
    {
        i128::from(self.num)
    }

    /// The denominator, as it was given.
    pub fn den(&self) -> i128
        ensures value { result ≡ pos self.now.den }
        ensures bounds { InBounds self.now.num (pos self.now.den) }
    {
        i128::from(self.den)
    }

    // The numerator in 64 bits.
    pub(crate) fn short_num(&self) -> i64
        ensures value { result ≡ self.now.num }
        ensures bounds { InBounds self.now.num (pos self.now.den) }
    {
        self.num
    }

    // The denominator in 64 bits.
    pub(crate) fn short_den(&self) -> i64
        ensures value { result ≡ pos self.now.den }
        ensures bounds { InBounds self.now.num (pos self.now.den) }
    {
        self.den
    }

    // This numerator times the other's denominator.
    fn cross(&self, o: &Frac) -> i128
        ensures { result ≡ self.now.num *ℤ pos o.now.den }
    {
        product(self.short_num(), o.short_den())
    }

    /// The order of the two values, by cross products.
    // It isn't inlined: its products are long.
    #[inline(never)]
    pub fn cmp_value(&self, o: &Frac) -> Ordering
        ensures order { result
            ≡ int_cmp (self.now.num *ℤ pos o.now.den) (o.now.num *ℤ pos self.now.den) }
        ensures less { (result ≡ Less) ↔ LessThan self.now o.now }
        ensures equal { (result ≡ Equal) ↔ SameValue self.now o.now }
        ensures greater { (result ≡ Greater) ↔ LessThan o.now self.now }
    {
        self.cross(o).cmp(&o.cross(self))
    }

    /// Whether the two are one value, by cross products.
    pub fn same_value(&self, o: &Frac) -> bool
        ensures { IsTrue result ↔ SameValue self.now o.now }
    {
        self.cross(o) == o.cross(self)
    }

    /// The greatest whole `k` for which `k` millionths are not above the value.
    pub fn floor_micro(&self) -> i128
        ensures reached { AtMost (micros result) self.now }
        ensures greatest { (k : ℤ) → AtMost (micros k) self.now → k ≤ℤ result }
    {
        floor(product(self.short_num(), MILLION), self.den())
    }

    /// A value in volts as microvolts, rounded down. N5 [`NumFault::TooLarge`] exactly if the value is beyond
    /// 10^15 microvolts in size.
    pub fn floor_microvolts(&self) -> Result<i64, NumFault>
        ensures fault { result_err result ≡ far_fault self.now }
        ensures floor { IfOk result (λ microvolts. IsMicroFloor self.now microvolts) }
    {
        if self.is_far() {
            return Err(NumFault::TooLarge);
        }
        let microvolts = self.floor_micro();
        Ok(microvolts as i64)
    }

    // Whether the value is beyond 10^15 millionths in size, by cross products.
    fn is_far(&self) -> bool
        ensures far { result ≡ is_far self.now }
        ensures bounds { InBounds self.now.num (pos self.now.den) }
    {
        let microvolts = product(self.short_num(), MILLION);
        let far = product(FAR, self.short_den());
        far < microvolts || microvolts < -far
    }
}

/// `x` millionths. N5 [`NumFault::TooLarge`] exactly if `x` is beyond 10^15 in size.
pub fn micro(x: i64) -> Result<Frac, NumFault>
    ensures size { IsOk result ↔ (unsigned_abs x ≤ 10 ^ 15) }
    ensures value { IfOk result (λ f. f ≡ micros x) }
    ensures fault { IfErr result (λ e. e ≡ TooLarge) }
{
    if x < -MICRO_LIMIT || MICRO_LIMIT < x {
        return Err(NumFault::TooLarge);
    }
    Ok(Frac {
        num: x,
        den: MILLION,
    })
}
