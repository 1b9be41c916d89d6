//! The words of bounds: a voltage rounded down, or up, to a word.

ghost use Rattle.std.specs.Prelude.{◌≡◌, IfOk};
ghost use Rattle.std.specs.Result.{result_err};
ghost use Rattle.pm_num.specs.Bounds.{IsAtMost, IsAtLeast, below_fault, above_fault, at_most_fault, at_least_fault};
ghost use Rattle.pm_num.specs.Ratio.{micros};

use crate::fault::NumFault;
use crate::frac::{Frac, micro};
use crate::num_format::NumFormat;

/// A format that rounds a number down and up to a word. It gives the word that [`NumFormat::nearest`] gives
/// for the value, if several words have this value.
pub trait BoundFormat: NumFormat {
    /// The word of the greatest value that is not above `x`. N3 [`NumFault::BelowLeast`] exactly if `x` lies
    /// strictly below the least value. The word is that of the greatest value if `x` lies above it.
    fn round_down(&self, x: Frac) -> Result<u16, NumFault>
        ensures word { IfOk result (IsAtMost (Self.value self.now) (Self.rank self.now) x) }
        ensures fault { result_err result ≡ below_fault (Self.lowest self.now) x };

    /// The word of the least value that is not below `x`. N4 [`NumFault::AboveGreatest`] exactly if `x` lies
    /// strictly above the greatest value. The word is that of the least value if `x` lies below it.
    fn round_up(&self, x: Frac) -> Result<u16, NumFault>
        ensures word { IfOk result (IsAtLeast (Self.value self.now) (Self.rank self.now) x) }
        ensures fault { result_err result ≡ above_fault (Self.highest self.now) x };
}

/// The word of the greatest value that is not above this number of microvolts. N5 [`NumFault::TooLarge`]
/// exactly if they are beyond 10^15 in size, otherwise N3 [`NumFault::BelowLeast`] exactly if they lie
/// strictly below the least value. The word is that of the greatest value if they lie above it.
pub fn at_most<F: BoundFormat>(format: &F, microvolts: i64) -> Result<u16, NumFault>
    ensures word { IfOk result (IsAtMost (F.value format.now) (F.rank format.now) (micros microvolts)) }
    ensures fault { result_err result ≡ at_most_fault (F.lowest format.now) microvolts }
{
    format.round_down(micro(microvolts)?)
}

/// The word of the least value that is not below this number of microvolts. N5 [`NumFault::TooLarge`] exactly
/// if they are beyond 10^15 in size, otherwise N4 [`NumFault::AboveGreatest`] exactly if they lie strictly
/// above the greatest value. The word is that of the least value if they lie below it.
pub fn at_least<F: BoundFormat>(format: &F, microvolts: i64) -> Result<u16, NumFault>
    ensures word { IfOk result (IsAtLeast (F.value format.now) (F.rank format.now) (micros microvolts)) }
    ensures fault { result_err result ≡ at_least_fault (F.highest format.now) microvolts }
{
    format.round_up(micro(microvolts)?)
}
