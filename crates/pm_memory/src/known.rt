//! What a host knows.

ghost use Rattle.std.specs.Prelude.{◌≡◌, ◌≤◌};
ghost use Rattle.pm_host.specs.Image.{standing_held, words_held};

use pm_host::{StandingImage, WordsImage};

/// The numbers of what is said of a cell, each 0 unless the flag is 1: damaged memory may have any flag.
pub fn flagged(standing: StandingImage) -> StandingImage
    ensures same { standing_held result ≡ standing_held standing }
    ensures flag { result.is_confirmed ≤ 1 }
{
    if standing.is_confirmed == 1 {
        standing
    } else {
        StandingImage {
            is_confirmed: 0,
            word: 0,
        }
    }
}

/// The numbers of a cell's possible words, each 0 if the count is above 16, which damaged memory may have.
pub fn counted(words: &WordsImage) -> WordsImage
    ensures same { words_held result ≡ words_held words.now }
    ensures count { result.count ≤ 16 }
{
    if words.count <= 16 {
        *words
    } else {
        WordsImage {
            count: 0,
            words: [0; 16],
        }
    }
}
