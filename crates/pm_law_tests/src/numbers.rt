//! What the laws of numbers say of a voltage that is refused, of a format, and of a limit that is rounded.

ghost use Rattle.std.specs.Prelude.{◌≡◌, ℕ, Some, true, IfSome};
ghost use Rattle.pm_num.specs.AnyFormat.{InUlinear16, shape_of};
ghost use Rattle.pm_num.specs.NearestWord.{nearest_word};
ghost use Rattle.pm_num.specs.Ratio.{AtMost, LessThan, SameValue};

use pm_num::{
    AnyFormat, BoundFormat, Frac, NumFault, NumFormat, Ulinear16, bounds_hold,
    found_words_are_nearest, parameters_are_the_shape, refusals_tell_the_side,
};

/// A number that is refused as N4 lies strictly above the greatest value of the format.
pub fn is_above_the_greatest<F: NumFormat>(format: &F, x: Frac) -> bool
    ensures { result ≡ true → LessThan (F.highest format.now) x }
{
    // law: N4 is a number strictly above the greatest value
    refusals_tell_the_side();
    match format.nearest(x) {
        Err(NumFault::AboveGreatest) => true,
        _ => false,
    }
}

/// The format that was made of an exponent is ULINEAR16 with that exponent.
pub fn a_format_of_an_exponent(n: i8) -> Option<AnyFormat>
    ensures { IfSome result (λ format. shape_of format ≡ InUlinear16 n) }
{
    parameters_are_the_shape();
    match Ulinear16::new(n) {
        Some(format) => Some(AnyFormat::Ulinear16(format)),
        None => None,
    }
}

/// The word that is sought among all words for a number is the one that is sent for it.
pub fn a_word_that_is_sought<F: NumFormat>(format: &F, x: Frac) -> Option<u16>
    ensures { IfSome result (λ sent. (word : ℕ) →
        nearest_word (F.value format.now) (F.rank format.now) x ≡ Some word → word ≡ sent) }
{
    found_words_are_nearest();
    match format.nearest(x) {
        Ok(word) => Some(word),
        Err(_) => None,
    }
}

/// A limit at or above the greatest value of the format, rounded down, is that value.
pub fn a_limit_beyond_the_range<F: BoundFormat>(format: &F, limit: Frac) -> Option<u16>
    ensures { IfSome result (λ word. AtMost (F.highest format.now) limit →
        SameValue (F.value format.now word) (F.highest format.now)) }
{
    bounds_hold(format);
    match format.round_down(limit) {
        Ok(word) => Some(word),
        Err(_) => None,
    }
}
