//! Laws over nothing but definitions: each is the contract of a function with an empty body, and what it says
//! stands in the definitions, under its name.

ghost use Rattle.pm_num.specs.Laws.{BoundsHold, RefusalsTellTheSide, ParametersAreTheShape, FoundWordsAreNearest, NearestWordsHold};

use crate::num_format::NumFormat;

/// What a refusal of `NumFormat::nearest` says: N3 that the number lies strictly below the least
/// value, N4 strictly above the greatest, and no other fault is one.
pub fn refusals_tell_the_side()
    ensures { RefusalsTellTheSide }
{}

/// What a format was made from is its shape, and nothing of it is lost.
pub fn parameters_are_the_shape()
    ensures { ParametersAreTheShape }
{}

/// The word that is sought among all words for a fraction is its nearest word, whatever the words stand for.
/// A format finds it if there is one such word: `nearest_words_hold` says so.
pub fn found_words_are_nearest()
    ensures { FoundWordsAreNearest }
{}

/// What the nearest words of every format are. The word for a word's value has that value. No word is nearer
/// than the one for a fraction, which has the lower value of two that are equally near. It is the word that
/// is found among all words.
pub fn nearest_words_hold<F: NumFormat>(format: &F)
    ensures { NearestWordsHold (F.value format.now) (F.rank format.now) }
{}

/// What the words of bounds are in every format. There is one word at most for a number rounded down, and one
/// for it rounded up; each is the word that is sent for its own value. Its value is the end of the range at
/// and beyond that end, and the number's own value if a word has that.
pub fn bounds_hold<F: NumFormat>(format: &F)
    ensures { BoundsHold (F.value format.now) (F.rank format.now) (F.lowest format.now) (F.highest format.now) }
{}
