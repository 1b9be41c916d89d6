//! The least and the most that an output's voltage may be.

ghost use Rattle.std.specs.Prelude.{◌≡◌, ◌≤◌, ◌^◌, unsigned_abs, Some, IfOk};
ghost use Rattle.std.specs.Result.{result_err};
ghost use Rattle.pm_num.specs.Ratio.{is_above as spec_is_above, micros};
ghost use Rattle.pm_limits.specs.Band.{band_within};
ghost use Rattle.pm_limits.specs.Bounds.{bounds_fault, is_wider, outside_fault, place_fault, AreBounds};
ghost use Rattle.pm_limits.specs.Guard.{narrower_fault};

use crate::band::Band;
use crate::fault::LimitFault;
use crate::guard::Within;
use crate::output_limits::OutputLimits;
use pm_host::HostFault;
use pm_num::{Frac, NumFault, micro};
use std::cmp::Ordering;
use std::marker::Model;

// The greatest limit, in size, in microvolts.
const MICRO_LIMIT: u64 = 1_000_000_000_000_000;

/// The least and the most that an output's voltage may be, in whole microvolts. Both count as within.
#[derive(Clone, Copy, Debug)]
pub struct Limits {
    least: i64,
    most: i64,
}

impl Model for Limits {
    ghost use Rattle.std.specs.Prelude.{refl};
    ghost use Rattle.pm_limits.specs.Bounds.{Bounds, AreBounds};

    ghost Value = { Bounds };

    ghost view = { λ l. record { least = l.least; most = l.most } };

    ghost invariant = { λ l. AreBounds l.least l.most };

    ghost inverse = { λ b. record { least = b.least; most = b.most } };

    ghost inverse_ok = { λ l h. refl };
}

impl Limits {
    /// Limits of these microvolts. N5 if one is beyond 10^15 in size, otherwise L1 if the least is
    /// above the most.
    pub fn new(least: i64, most: i64) -> Result<Limits, LimitFault>
        ensures made { IfOk result (λ limits. limits ≡ record { least = least; most = most }) }
        ensures fault { result_err result ≡ bounds_fault least most }
    {
        if least.unsigned_abs() > MICRO_LIMIT || most.unsigned_abs() > MICRO_LIMIT {
            return Err(LimitFault::Host(HostFault::Num(NumFault::TooLarge)));
        }
        if most < least {
            return Err(LimitFault::LimitsInverted);
        }
        Ok(Limits { least, most })
    }

    /// The least voltage, in microvolts.
    pub fn least(&self) -> i64
        ensures value { result ≡ self.now.least }
        ensures bounds { AreBounds self.now.least self.now.most }
    {
        self.least
    }

    /// The most, in microvolts.
    pub fn most(&self) -> i64
        ensures { result ≡ self.now.most }
    {
        self.most
    }

    /// Limits of these microvolts in the place of those that an output has, or of none. N5 and L1 as for new ones, then L6 if these
    /// let through what those don't.
    pub fn narrower(old: &OutputLimits, least: i64, most: i64) -> Result<Limits, LimitFault>
        ensures made { IfOk result (λ limits. limits ≡ record { least = least; most = most }) }
        ensures fault { result_err result ≡ narrower_fault old.now least most }
    {
        let limits = Limits::new(least, most)?;
        match old {
            OutputLimits::Between(old) if limits.is_wider(old) => Err(LimitFault::LimitsWidened),
            _ => Ok(limits),
        }
    }

    // Whether they let through what others don't.
    fn is_wider(&self, old: &Limits) -> bool
        ensures { result ≡ is_wider old.now self.now }
    {
        self.least < old.least || old.most < self.most
    }

    /// The place of a value beside the limits: `Less` below, `Equal` within, `Greater` above.
    pub(crate) fn place(&self, value: &Frac) -> Ordering
        ensures { place_fault (Some result) ≡ outside_fault self.now value.now }
    {
        if is_above(&self.least_value(), value) {
            Ordering::Less
        } else if is_above(value, &self.most_value()) {
            Ordering::Greater
        } else {
            Ordering::Equal
        }
    }

    /// Whether a band lies within them.
    pub(crate) fn within(&self, band: &Band) -> Within
        ensures { result ≡ band_within self.now band.now }
    {
        let (least, most) = (self.least_value(), self.most_value());
        if !(is_above(&least, &band.least) || is_above(&band.greatest, &most)) {
            Within::Yes
        } else if is_above(&least, &band.greatest) || is_above(&band.least, &most) {
            Within::No
        } else {
            Within::NotKnown
        }
    }

    // The least voltage as a fraction.
    fn least_value(&self) -> Frac
        ensures { result ≡ micros self.now.least }
    {
        volts(self.least)
    }

    // The most as a fraction.
    fn most_value(&self) -> Frac
        ensures { result ≡ micros self.now.most }
    {
        volts(self.most)
    }
}

// This many microvolts as a fraction.
fn volts(x: i64) -> Frac
    requires { unsigned_abs x ≤ 10 ^ 15 }
    ensures { result ≡ micros x }
{
    match micro(x) {
        Ok(value) => value,
        Err(_) => unreachable!(),
    }
}

// Whether the first value is the greater one.
fn is_above(p: &Frac, q: &Frac) -> bool
    ensures { result ≡ spec_is_above p.now q.now }
{
    p.cmp_value(q) == Ordering::Greater
}
