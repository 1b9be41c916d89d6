//! Evenly spaced numbers, and which of them is nearest to a fraction, at most it or at least it.

ghost use Rattle.std.specs.Prelude.{◌≡◌, ◌^◌, ◌*◌, ◌<◌, ℤ, pos, ◌+ℤ◌, ◌*ℤ◌, ◌<ℤ◌, unsigned_abs};
ghost use Rattle.pm_num.specs.Steps.{IsSpacing, IsPlace, IsPlaceBelow, IsPlaceAbove};

use crate::frac::Frac;
use crate::whole::{ceiling, floor, product, rounded};
use std::marker::Model;

/// The numbers `(k * step - offset) / den`, one for each whole `k`.
#[derive(Drop)]
pub struct Grid {
    den: i64,
    step: i64,
    offset: i64,
}

impl Model for Grid {
    ghost use Rattle.std.specs.Prelude.{pos, unsigned_abs};
    ghost use Rattle.pm_num.specs.Steps.{Spacing, IsSpacing};

    ghost Value = { Spacing };

    ghost view = { λ g.
        record { den = unsigned_abs g.den; step = unsigned_abs g.step; offset = g.offset } };

    ghost invariant = { λ g. IsSpacing g.den g.step g.offset };
}

impl Grid {
    /// The grid of these three numbers.
    pub fn new(den: i64, step: i64, offset: i64) -> Grid
        requires { IsSpacing den step offset }
        ensures { result
            ≡ record { den = unsigned_abs den; step = unsigned_abs step; offset = offset } }
    {
        Grid { den, step, offset }
    }

    // The denominator of every number.
    fn den(&self) -> i64
        ensures value { result ≡ pos self.now.den }
        ensures sizes { IsSpacing (pos self.now.den) (pos self.now.step) self.now.offset }
    {
        self.den
    }

    // How far neighbours are apart, as a numerator.
    fn step(&self) -> i64
        ensures value { result ≡ pos self.now.step }
        ensures sizes { IsSpacing (pos self.now.den) (pos self.now.step) self.now.offset }
    {
        self.step
    }

    // What is taken from every numerator.
    fn offset(&self) -> i64
        ensures value { result ≡ self.now.offset }
        ensures sizes { IsSpacing (pos self.now.den) (pos self.now.step) self.now.offset }
    {
        self.offset
    }

    // `x`, moved by the offset, as a numerator over both denominators.
    #[inline(never)]
    fn moved(&self, x: &Frac) -> i128
        ensures value { result
            ≡ x.now.num *ℤ pos self.now.den +ℤ self.now.offset *ℤ pos x.now.den }
        ensures sizes { IsSpacing (pos self.now.den) (pos self.now.step) self.now.offset }
        ensures small { unsigned_abs result < 2 ^ 120 }
    {
        product(x.short_num(), self.den()) + product(self.offset(), x.short_den())
    }

    // The step, as a numerator over both denominators.
    #[inline(never)]
    fn spacing(&self, x: &Frac) -> i128
        ensures value { result ≡ pos (self.now.step * x.now.den) }
        ensures positive { pos 0 <ℤ result }
        ensures small { unsigned_abs result < 2 ^ 120 }
    {
        product(self.step(), x.short_den())
    }

    /// The `k` of the number nearest to `x`, and of two that are equally near the lower.
    pub fn nearest(&self, x: &Frac) -> i128
        ensures { IsPlace self.now x.now result }
    {
        rounded(self.moved(x), self.spacing(x))
    }

    /// The `k` of the greatest number that is not above `x`.
    pub fn floor(&self, x: &Frac) -> i128
        ensures { IsPlaceBelow self.now x.now result }
    {
        floor(self.moved(x), self.spacing(x))
    }

    /// The `k` of the least number that is not below `x`.
    pub fn ceiling(&self, x: &Frac) -> i128
        ensures { IsPlaceAbove self.now x.now result }
    {
        ceiling(self.moved(x), self.spacing(x))
    }
}
