//! The words that a cell may hold, as plain numbers.

ghost use Rattle.std.specs.Prelude.{◌≡◌, true, false, MatchOption};
ghost use Rattle.pm_host.specs.Image.{listing, words_held};
ghost use Rattle.pm_host.specs.Memory.{IsWordsImage};
ghost use Rattle.pm_host.specs.Possible.{is_possible, has_room, is_listed as spec_is_listed, joined, only as spec_only};

use crate::knowledge::Possible;
use arrayvec::ArrayVec;

/// The words that a cell may hold, as plain numbers: the first `count` of `words`, if that is 1 to
/// 16; any word if `count` is another number.
#[repr(C)]
#[derive(Clone, Copy, Debug)]
pub struct WordsImage {
    /// How many words are listed.
    pub count: u16,
    /// The words, in the order in which they first came; after them 0, as the host leaves them.
    pub words: [u16; 16],
}

impl WordsImage {
    /// Any word.
    pub(crate) const ANY: WordsImage = WordsImage {
        count: 0,
        words: [0; 16],
    };

    /// The words that are listed; `None` if any word is possible.
    pub fn listed(&self) -> Option<&[u16]>
        ensures { MatchOption result (words_held self.now ≡ Possible.Any)
            (λ words. words_held self.now ≡ listing words.now) }
    {
        if (1..=16).contains(&self.count) {
            Some(&self.words[..usize::from(self.count)])
        } else {
            None
        }
    }

    /// What the numbers mean.
    pub fn possible(&self) -> Possible
        ensures { result ≡ words_held self.now }
    {
        match self.listed() {
            Some(words) => {
                let mut copied = ArrayVec::new();
                let _ = copied.try_extend_from_slice(words);
                Possible::Words(copied)
            }
            None => Possible::Any,
        }
    }

    /// Whether the cell may hold this word. The word that was listed last is looked at first: it is that of the open
    /// order.
    #[inline(always)]
    pub fn allows(&self, word: u16) -> bool
        ensures { result ≡ is_possible word (words_held self.now) }
    {
        match self.listed() {
            Some(words) => words.last() == Some(&word) || is_listed(words, word),
            None => true,
        }
    }

    /// Joins this word, and says whether it has room: it is listed, or there are fewer than 16.
    pub(crate) fn join(&mut self, word: u16) -> bool
        ensures room { result ≡ has_room word (words_held self.old) }
        ensures joined { result ≡ true → words_held self.new ≡ joined (words_held self.old) word }
        ensures listed { result ≡ true → is_possible word (words_held self.new) ≡ true }
        ensures full { result ≡ false → self.new ≡ self.old }
        ensures written { IsWordsImage self.old → IsWordsImage self.new }
    {
        if self.allows(word) {
            return true;
        }
        if self.count == 16 {
            return false;
        }
        self.words[usize::from(self.count)] = word;
        self.count += 1;
        true
    }

    /// Exactly this word.
    pub(crate) fn only(word: u16) -> WordsImage
        ensures held { words_held result ≡ spec_only word }
        ensures written { IsWordsImage result }
    {
        WordsImage {
            count: 1,
            words: [word, 0, 0, 0, 0, 0, 0, 0, 0, 0, 0, 0, 0, 0, 0, 0],
        }
    }
}

// Whether a word is in the list.
fn is_listed(words: &[u16], word: u16) -> bool
    ensures { result ≡ spec_is_listed word words.now }
{
    words.iter().any(|listed| *listed == word)
}
