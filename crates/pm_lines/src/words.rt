//! The words of a line.

ghost use Rattle.std.specs.Prelude.{◌≡◌, ◌≢◌, true, false, [], ◌∷◌, IfNone, MatchBool, MatchOption, position};
ghost use Rattle.std.specs.List.{before_first, after_first};
ghost use Rattle.pm_lines.specs.Lines.{has_space_first, is_next, is_one_word, is_space, words_of};

use crate::lines::Line;
use std::marker::Model;

/// The words of a line, one after another: what stands between its spaces. A word isn't empty.
#[derive(Debug, Drop)]
pub struct Words<'a> {
    line: u64,
    // From the next word on: no space stands before it.
    rest: &'a [u8],
}

impl<'a> Model for Words<'a> {
    ghost use Rattle.std.specs.Prelude.{◌≡◌, false};
    ghost use Rattle.pm_lines.specs.Lines.{WordsLeft, has_space_first, words_of};

    ghost Value = { WordsLeft };

    ghost view = { λ w. record { line = w.line; words = words_of w.rest.now } };

    ghost invariant = { λ w. has_space_first w.rest.now ≡ false };
}

impl<'a> Words<'a> {
    /// All words of a line.
    pub fn new(line: Line<'a>) -> Words<'a>
        ensures line { result.line ≡ line.entry.number }
        ensures words { result.words ≡ words_of line.entry.text.now }
    {
        Words {
            line: line.number,
            rest: without_spaces(line.text),
        }
    }

    /// The number of the line.
    pub fn line(&self) -> u64
        ensures { result ≡ self.now.line }
    {
        self.line
    }

    /// The next word. No word is left after None.
    pub fn next_word(&mut self) -> Option<&'a [u8]>
        ensures words { MatchOption result (self.old.words ≡ [])
            (λ word. self.old.words ≡ word.now ∷ self.new.words) }
        ensures end { IfNone result (self.new.words ≡ []) }
        ensures line { self.new.line ≡ self.old.line }
    {
        if self.rest.is_empty() {
            return None;
        }
        let (word, rest) = cut_at_space(self.rest);
        self.rest = without_spaces(rest);
        Some(word)
    }

    /// Takes the next word if it is this one, and says whether it was. Any other stays. What is asked for is
    /// a word: it isn't empty, and has no space.
    pub fn take_word(&mut self, word: &[u8]) -> bool
        requires { is_one_word word.now ≡ true }
        ensures words { MatchBool result (self.old.words ≡ word.now ∷ self.new.words)
            (is_next word.now self.old.words ≡ false) }
        ensures kept { result ≡ false → self.new ≡ self.old }
        ensures line { self.new.line ≡ self.old.line }
    {
        match behind_word(self.rest, word) {
            Some(rest) => {
                self.rest = without_spaces(rest);
                true
            }
            None => false,
        }
    }
}

// What follows this word at the front of a text that begins with no space.
fn behind_word<'a>(text: &'a [u8], word: &[u8]) -> Option<&'a [u8]>
    requires word { is_one_word word.now ≡ true }
    requires text { has_space_first text.now ≡ false }
    ensures { MatchOption result (is_next word.now (words_of text.now) ≡ false)
        (λ rest. words_of text.now ≡ word.now ∷ words_of rest.now) }
{
    match text.strip_prefix(word) {
        Some(rest) => behind_space(rest),
        None => None,
    }
}

// What follows the space that a text begins with, or the end of the text.
fn behind_space(text: &[u8]) -> Option<&[u8]>
    ensures { MatchOption result (before_first is_space text.now ≢ [])
        (λ rest. (before_first is_space text.now ≡ []) × (rest.now ≡ after_first is_space text.now)) }
{
    match text {
        [] => Some(text),
        [b' ', rest @ ..] => Some(rest),
        _ => None,
    }
}

// The text from its first byte on that is no space.
fn without_spaces(text: &[u8]) -> &[u8]
    ensures words { words_of result.now ≡ words_of text.now }
    ensures first { has_space_first result.now ≡ false }
{
    let mut rest = text;
    'spaces: while let [b' ', more @ ..] = rest {
        rest = more;
    }
    rest
}

// What stands before the first space, and what follows it.
fn cut_at_space(text: &[u8]) -> (&[u8], &[u8])
    ensures before { result.0.now ≡ before_first is_space text.now }
    ensures after { result.1.now ≡ after_first is_space text.now }
{
    match first_space(text) {
        Some(at) => (&text[..at], &text[at + 1..]),
        None => (text, &[]),
    }
}

// The place of the first space. A word is short, so that a plain search is the fastest.
fn first_space(text: &[u8]) -> Option<usize>
    ensures { result ≡ position is_space text.now }
{
    text.iter().position(|byte| *byte == b' ')
}
