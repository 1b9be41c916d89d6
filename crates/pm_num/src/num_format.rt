//! What a format of numbers has to offer.

ghost use Rattle.std.specs.Prelude.{◌≡◌, ℕ, ◌^◌, ◌<◌, ◌↔◌, IsOk, IfOk, IfErr};
ghost use Rattle.pm_num.specs.Ratio.{Ratio, IsBetween};
ghost use Rattle.pm_num.specs.Nearest.{IsNearest, IsOutside, IsValue};

use crate::fault::NumFault;
use crate::frac::Frac;

/// A numeric format of PMBus 1.3 Part II: what each 16-bit word stands for, and which word a number
/// is encoded as.
///
/// The encoding is this project's own: the word of the nearest value; of two values that are
/// equally near, the lower; of several words with that value, the one whose exponent is nearest to
/// 0, and of two such the negative one. What follows for each format from these clauses is
/// [`nearest_words_hold`](crate::nearest_words_hold).
pub trait NumFormat {
    // What a word stands for.
    ghost value: { Self → ℕ → Ratio };

    // The place of a word among those of its value; the least is preferred.
    ghost rank: { Self → ℕ → ℕ };

    // The least and the greatest value.
    ghost lowest: { Self → Ratio };

    ghost highest: { Self → Ratio };

    /// The least value of all words.
    fn least(&self) -> Frac
        ensures { result ≡ lowest self.now };

    /// The greatest value of all words.
    fn greatest(&self) -> Frac
        ensures { result ≡ highest self.now };

    /// The value of `word`, as the format defines it and not reduced.
    fn value_of(&self, word: u16) -> Frac
        ensures { result ≡ value self.now word };

    /// The word for `x`. N3 [`NumFault::BelowLeast`] exactly if `x` lies strictly below the least value, N4
    /// [`NumFault::AboveGreatest`] exactly if it lies strictly above the greatest.
    fn nearest(&self, x: Frac) -> Result<u16, NumFault>
        ensures word { IfOk result (IsNearest (value self.now) (rank self.now) x) }
        ensures inside { IsOk result ↔ IsBetween (lowest self.now) (highest self.now) x }
        ensures refused { IfErr result (IsOutside (lowest self.now) (highest self.now) x) };

    // The denominator of a value is not 0.
    ghost has_den: { (f : Self) (w : ℕ) → w < 2 ^ 16 → 0 < (value f w).den };

    // Every value lies between the least and the greatest value.
    ghost within: { (f : Self) (w : ℕ) → w < 2 ^ 16 →
        IsBetween (lowest f) (highest f) (value f w) };

    // The least and the greatest value are each the value of a word.
    ghost least_met: { (f : Self) → IsValue (value f) (lowest f) };

    ghost greatest_met: { (f : Self) → IsValue (value f) (highest f) };

    // There is one word for x at most.
    ghost one: { (f : Self) (x : Ratio) (u w : ℕ) →
        IsNearest (value f) (rank f) x u → IsNearest (value f) (rank f) x w → u ≡ w };
}
