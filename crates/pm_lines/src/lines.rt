//! The lines of a text, with their numbers.

ghost use Rattle.std.specs.Prelude.{◌≡◌, ◌<◌, ◌≤◌, ◌+◌, ◌^◌, [], ◌∷◌, length, MatchOption, IfNone};
ghost use Rattle.std.specs.List.{list_all};
ghost use Rattle.pm_lines.specs.Lines.{lines_of, unskipped_from, is_line_feed, is_skipped, is_space, without_return};

use crate::bytes::cut_at;
use memchr::memchr_iter;
use std::marker::Model;

/// A line of a text, without what ended it. The first line of a text has number 1.
#[derive(Clone, Copy, Debug)]
pub struct Line<'a> {
    /// The line's number.
    pub number: u64,
    /// The line's bytes.
    pub text: &'a [u8],
}

/// The lines of a text that are not skipped, one after another. A line ends at a line feed or at the text's
/// end, and a carriage return before either is no part of it. Lines that are empty, have nothing but spaces
/// or begin with `#` are skipped, and numbered like any other.
#[derive(Debug, Drop)]
pub struct Lines<'a> {
    rest: &'a [u8],
    number: u64,
}

impl<'a> Model for Lines<'a> {
    ghost use Rattle.std.specs.Prelude.{◌+◌, ◌^◌, ◌<◌, length};
    ghost use Rattle.pm_lines.specs.Lines.{LinesLeft, lines_of, unskipped_from};

    ghost Value = { LinesLeft };

    ghost view = { λ l. record {
      unskipped = unskipped_from (l.number + 1) l.rest.now;
      passed = l.number;
      count = l.number + length (lines_of l.rest.now);
    } };

    ghost invariant = { λ l. l.number + length l.rest.now + 1 < 2 ^ 64 };
}

impl<'a> Lines<'a> {
    /// All lines of a text that leaves room to count them.
    pub fn new(text: &'a [u8]) -> Lines<'a>
        requires { length text.now + 1 < 2 ^ 64 }
        ensures unskipped { result.unskipped ≡ unskipped_from 1 text.now }
        ensures passed { result.passed ≡ 0 }
        ensures count { result.count ≡ length (lines_of text.now) }
    {
        Lines {
            rest: text,
            number: 0,
        }
    }

    /// The most lines that may be left, without those that are skipped: as many as there are line feeds,
    /// and one.
    pub fn most_left(&self) -> usize
        ensures { length self.now.unskipped ≤ result }
    {
        // `count` of `Memchr` itself looks at byte after byte.
        Iterator::count(memchr_iter(b'\n', self.rest)) + 1
    }

    /// The next line that is not skipped. Every line of the text was passed after None.
    pub fn next_line(&mut self) -> Option<Line<'a>>
        ensures unskipped { MatchOption result (self.old.unskipped ≡ [])
            (λ line. self.old.unskipped ≡ (line.number, line.text.now) ∷ self.new.unskipped) }
        ensures end { IfNone result (self.new.passed ≡ self.new.count) }
        ensures none { IfNone result (self.new.unskipped ≡ []) }
        ensures count { self.new.count ≡ self.old.count }
    {
        'lines: while !self.rest.is_empty() {
            let (line, rest) = cut_at(self.rest, b'\n');
            let text = without_carriage_return(line);
            self.rest = rest;
            self.number += 1;
            if !is_skipped_line(text) {
                return Some(Line {
                    number: self.number,
                    text,
                });
            }
        }
        None
    }

    /// The number of the next line. After `next_line` gave `None` it is the number to report for a
    /// missing line.
    pub fn next_number(&self) -> u64
        ensures { result ≡ self.now.passed + 1 }
    {
        self.number + 1
    }
}

/// The line without one carriage return at its end, if it has one.
pub fn without_carriage_return(line: &[u8]) -> &[u8]
    ensures { result.now ≡ without_return line.now }
{
    if line.ends_with(b"\r") {
        &line[..line.len() - 1]
    } else {
        line
    }
}

// Whether the line is blank or a comment.
fn is_skipped_line(line: &[u8]) -> bool
    ensures { result ≡ is_skipped line.now }
{
    is_blank(line) || line.starts_with(b"#")
}

/// Whether the line has no byte but spaces.
pub fn is_blank(line: &[u8]) -> bool
    ensures { result ≡ list_all is_space line.now }
{
    line.iter().all(|byte| *byte == b' ')
}
