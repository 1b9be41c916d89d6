//! What is known after lines of a log, or which line isn't accepted.

ghost use Rattle.std.specs.Prelude.{◌≡◌, ◌+◌, IfErr, IfOk, OnOk, Err};
ghost use Rattle.pm_log.specs.Holdings.{refusal_of_line};
ghost use Rattle.pm_log.specs.Logs.{line_said};

use crate::fault::LogFault;
use crate::lacks::Lacks;
use crate::log_line::{LogLine, read_log_line};
use crate::log_text::MAX_LINE;
use crate::open_log::OpenLog;
use pm_lines::{Line, TextFault, without_carriage_return};
use pm_text::ScenarioFault;
use std::alloc::Global;
use std::marker::Model;

/// The first line that isn't accepted, and why.
#[derive(Debug, PartialEq, Eq, Drop)]
pub struct Refusal {
    /// The number of the line.
    pub line: u64,
    /// Why.
    pub fault: LogFault,
}

/// What lines of a log come to.
#[derive(Debug, Drop)]
pub struct Checked {
    // How many lines there were.
    ended: u64,
    so_far: OpenLog,
    refusal: Option<Refusal>,
}

impl Model for Checked {
    ghost use Rattle.std.specs.Prelude.{◌≤◌};
    ghost use Rattle.pm_log.specs.Logs.{Checked as Lines};
    ghost use Rattle.pm_log.specs.Holdings.{kept_unless_refused};

    ghost Value = { Lines };

    ghost view = { λ c. record { ended = c.ended; log = kept_unless_refused c.so_far c.refusal } };

    ghost invariant = { λ c. (c.so_far.claims ≤ c.ended) × (c.so_far.transfers ≤ c.ended) };
}

impl Checked {
    ghost use Rattle.std.specs.Prelude.{◌<◌, ◌≤◌, ◌^◌, Ok, OnErr, None, Some, IfSome, IfNone, MatchResult};
    ghost use Rattle.pm_log.specs.Logs.{at_end, no_line, with_line};

    /// No line, for a receiver who lets parts lack these registers.
    pub fn new(allowed: &Lacks) -> Checked
        ensures { result ≡ no_line allowed.now.parts }
    {
        Checked {
            ended: 0,
            so_far: OpenLog::new(allowed),
            refusal: None,
        }
    }

    /// What is known by the lines, or the first that isn't accepted.
    pub fn log(&self) -> Result<&OpenLog, &Refusal>
        ensures { MatchResult result (λ known. self.now.log ≡ Ok known.now) (λ refusal. self.now.log ≡ Err refusal.now) }
    {
        match &self.refusal {
            Some(refusal) => Err(refusal),
            None => Ok(&self.so_far),
        }
    }

    /// Takes one line more, with a carriage return that ends it. After one that isn't accepted lines are only counted. Takes
    /// memory for the bytes of a packet.
    ///
    /// # Errors
    ///
    /// X6; then nothing has changed.
    #[tactic(auto, unfolding(crate::specs::Logs::with_line))]
    pub fn take(&mut self, alloc: Global, text: &[u8]) -> Result<(), TextFault>
        requires { self.old.ended + 1 < 2 ^ 64 }
        ensures taken { OnOk result (self.new ≡ with_line self.old text.now) }
        ensures unchanged { OnErr result (self.new ≡ self.old) }
        ensures memory { IfErr result (λ fault. fault ≡ TextFault.Memory) }
    {
        let number = self.ended + 1;
        if self.refusal.is_none() {
            self.refusal = match line_of(alloc, number, text)? {
                Ok(line) => refused(number, self.so_far.take(number, &line)),
                Err(fault) => refused(number, Err(LogFault::Line(fault))),
            };
        }
        self.ended = number;
        Ok(())
    }

    /// Ends the text: one without a head isn't accepted.
    pub fn end(&mut self)
        requires { self.old.ended + 1 < 2 ^ 64 }
        ensures { self.new ≡ record self.old { log = at_end self.old.ended self.old.log } }
    {
        if self.refusal.is_none() && !self.so_far.has_head() {
            self.refusal = Some(Refusal {
                line: self.ended + 1,
                fault: LogFault::NoHead,
            });
        }
    }
}

// What a line says, or that it is none.
#[tactic(auto, unfolding(crate::specs::Logs::max_line))]
fn line_of(
    alloc: Global,
    number: u64,
    text: &[u8],
) -> Result<Result<LogLine, ScenarioFault>, TextFault>
    ensures said { IfOk result (λ found. found ≡ line_said (number, text.now)) }
    ensures memory { IfErr result (λ fault. fault ≡ TextFault.Memory) }
{
    if text.len() > MAX_LINE {
        return Ok(Err(ScenarioFault::Syntax(number)));
    }
    read_log_line(
        alloc,
        Line {
            number,
            text: without_carriage_return(text),
        },
    )
}

// The refusal of a line.
fn refused(line: u64, taken: Result<(), LogFault>) -> Option<Refusal>
    ensures { result ≡ refusal_of_line line taken }
{
    match taken {
        Ok(()) => None,
        Err(fault) => Some(Refusal { line, fault }),
    }
}
