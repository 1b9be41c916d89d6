//! The lines of a scenario, one after another.
ghost use Rattle.std.specs.Prelude.{◌≡◌, ◌<◌, ◌≤◌, ◌+◌, ◌^◌, Ok, Err, [], ◌∷◌, length, MatchOption, MatchResult};
ghost use Rattle.pm_text.specs.Readers.{next_row};
ghost use Rattle.pm_text.specs.ScenarioText.{rest_of};
ghost use Rattle.pm_text.specs.declared.scenario.fault.ScenarioFault.TheVariants.{Syntax};

use crate::scenario::fault::ScenarioFault;
use pm_lines::{Line, Lines};
use std::marker::Model;

/// The lines that are left of a text, without those that are skipped.
#[derive(Debug, Drop)]
pub(crate) struct Rows<'a> {
    lines: Lines<'a>,
}

impl<'a> Model for Rows<'a> {
    ghost use Rattle.pm_text.specs.Readers.{Rest};

    ghost Value = { Rest };

    ghost view = { λ r. record { count = r.lines.count; lines = r.lines.unskipped } };
}

impl<'a> Rows<'a> {
    /// All lines of a text that leaves room to count them.
    pub(crate) fn new(text: &'a [u8]) -> Rows<'a>
        requires { length text.now + 1 < 2 ^ 64 }
        ensures { result ≡ rest_of text.now }
    {
        Rows {
            lines: Lines::new(text),
        }
    }

    /// The most lines that may be left.
    pub(crate) fn most_left(&self) -> usize
        ensures { length self.now.lines ≤ result }
    {
        self.lines.most_left()
    }

    /// The next line, if there is one.
    pub(crate) fn next(&mut self) -> Option<Line<'a>>
        ensures lines { MatchOption result (self.old.lines ≡ [])
            (λ line. self.old.lines ≡ (line.number, line.text.now) ∷ self.new.lines) }
        ensures count { self.new.count ≡ self.old.count }
    {
        self.lines.next_line()
    }

    /// The next line. If there is none, X1 with the number after the last.
    #[tactic(auto, unfolding(crate::specs::Readers::next_row))]
    pub(crate) fn row(&mut self) -> Result<Line<'a>, ScenarioFault>
        ensures read { MatchResult result
            (λ line. next_row self.old ≡ Ok ((line.number, line.text.now), self.new))
            (λ fault. next_row self.old ≡ Err fault) }
        ensures lines { MatchResult result
            (λ line. self.old.lines ≡ (line.number, line.text.now) ∷ self.new.lines)
            (λ fault. (self.old.lines ≡ []) × (fault ≡ Syntax (self.old.count + 1))) }
        ensures count { self.new.count ≡ self.old.count }
    {
        match self.lines.next_line() {
            Some(line) => Ok(line),
            None => Err(ScenarioFault::Syntax(self.lines.next_number())),
        }
    }
}
