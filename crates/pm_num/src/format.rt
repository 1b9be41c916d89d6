//! What the numeric formats have in common.
ghost use Rattle.std.specs.Prelude.{◌≡◌, ℕ, ◌^◌, ◌<◌, ◌↔◌, IsOk, OnOk, IfOk, IfErr, Some};
ghost use Rattle.pm_num.specs.Ratio.{Ratio, AtMost, LessThan, SameValue, IsBetween};
ghost use Rattle.pm_num.specs.Nearest.{IsNearest, IsOutside, IsValue, Near};
ghost use Rattle.pm_num.specs.NearestWord.{nearest_word};
ghost use Rattle.std.specs.Result.{result_err};
ghost use Rattle.pm_num.specs.Bounds.{below_fault, above_fault};
ghost use Rattle.pm_num.specs.Steps.{IsCapped, IsRaised};
ghost use Rattle.pm_num.specs.declared.fault.NumFault.TheVariants.{BelowLeast, AboveGreatest};

use crate::fault::NumFault;
use crate::frac::Frac;
use crate::laws::nearest_words_hold;
use crate::num_format::NumFormat;
use std::cmp::Ordering;

/// The word that a word's value is encoded as: the same value, in the spelling that the format
/// prefers.
pub fn canonical<F: NumFormat>(format: &F, word: u16) -> u16
    ensures nearest { let values = F.value format.now in
        IsNearest values (F.rank format.now) (values word) result }
    ensures same { SameValue (F.value format.now result) (F.value format.now word) }
    ensures only { let values = F.value format.now in
        (w : ℕ) → IsNearest values (F.rank format.now) (values word) w → w ≡ result }
{
    // law: what the nearest words of a format are
    nearest_words_hold(format);
    match format.nearest(format.value_of(word)) {
        Ok(canonical) => canonical,
        Err(_) => unreachable!(),
    }
}

/// Refuses `x` if it lies outside `least` and `greatest`.
#[inline(never)]
pub(crate) fn in_range(x: &Frac, least: &Frac, greatest: &Frac) -> Result<(), NumFault>
    ensures inside { IsOk result ↔ IsBetween least.now greatest.now x.now }
    ensures refused { IfErr result (IsOutside least.now greatest.now x.now) }
{
    match not_below(x, least) {
        Ok(()) => not_above(x, greatest),
        Err(fault) => Err(fault),
    }
}

/// `x`, or `greatest` if `x` lies above it. N3 if `x` lies below `least`.
#[inline(never)]
pub(crate) fn capped(x: Frac, least: &Frac, greatest: &Frac) -> Result<Frac, NumFault>
    requires { AtMost least.now greatest.now }
    ensures fault { result_err result ≡ below_fault least.now x }
    ensures capped { IfOk result (IsCapped least.now greatest.now x) }
{
    match not_below(&x, least) {
        Ok(()) => match not_above(&x, greatest) {
            Ok(()) => Ok(x),
            Err(_) => Ok(*greatest),
        },
        Err(fault) => Err(fault),
    }
}

/// `x`, or `least` if `x` lies below it. N4 if `x` lies above `greatest`.
#[inline(never)]
pub(crate) fn raised(x: Frac, least: &Frac, greatest: &Frac) -> Result<Frac, NumFault>
    requires { AtMost least.now greatest.now }
    ensures fault { result_err result ≡ above_fault greatest.now x }
    ensures raised { IfOk result (IsRaised least.now greatest.now x) }
{
    match not_above(&x, greatest) {
        Ok(()) => match not_below(&x, least) {
            Ok(()) => Ok(x),
            Err(_) => Ok(*least),
        },
        Err(fault) => Err(fault),
    }
}

// N3 [`NumFault::BelowLeast`] if `x` lies below `least`.
fn not_below(x: &Frac, least: &Frac) -> Result<(), NumFault>
    ensures fault { result_err result ≡ below_fault least.now x.now }
    ensures inside { OnOk result (AtMost least.now x.now) }
    ensures refused { IfErr result (λ fault. (fault ≡ BelowLeast) × LessThan x.now least.now) }
{
    if x.cmp_value(least) == Ordering::Less {
        return Err(NumFault::BelowLeast);
    }
    Ok(())
}

// N4 [`NumFault::AboveGreatest`] if `x` lies above `greatest`.
fn not_above(x: &Frac, greatest: &Frac) -> Result<(), NumFault>
    ensures fault { result_err result ≡ above_fault greatest.now x.now }
    ensures inside { OnOk result (AtMost x.now greatest.now) }
    ensures refused { IfErr result (λ fault. (fault ≡ AboveGreatest) × LessThan greatest.now x.now) }
{
    if x.cmp_value(greatest) == Ordering::Greater {
        return Err(NumFault::AboveGreatest);
    }
    Ok(())
}
