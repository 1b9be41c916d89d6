//! A capture as its bytes come.
ghost use Rattle.std.specs.Prelude.{[], ◌≡◌, ◌+◌, ◌≤◌, ◌<◌, ◌^◌, ◌++◌, ◌&&◌, if◌then◌else◌, OnOk, OnErr};
ghost use Rattle.pm_decode.specs.CaptureText.{line_text};
ghost use Rattle.pm_decode.specs.Hearing.{heard_lines, line_heard_with};
ghost use Rattle.pm_decode.specs.Options.{is_plain, notes_comments};
ghost use Rattle.pm_decode.specs.TimedLines.{passes_timed, timed_said};

use crate::counts_text::push_counts;
use crate::heard_lines::HeardLines;
use crate::hints::hint_of;
use crate::telling::TellEnd;
use crate::told_text::ToldText;
use crate::{TellOptions, TimedLine};
use pm_lines::MAX_TEXT;
use pm_trace::DecodeEnd;
use std::alloc::{AllocError, Global};
use std::marker::Model;

/// What is kept of the bytes of a capture that were taken: what their lines said, and the line that goes on.
#[derive(Debug, Drop)]
pub(crate) struct Capture {
    options: TellOptions,
    // No option changes what is shown.
    is_plain: bool,
    heard: HeardLines,
    line: TimedLine,
    // How many bytes were taken.
    taken: u64,
    // How many lines ended, the skipped ones too.
    ended: u64,
}

impl Model for Capture {
    ghost use Rattle.pm_decode.specs.Capturing.{IsBounded, Kept};
    ghost use Rattle.pm_decode.specs.Captures.{kept_in_capture};
    ghost use Rattle.pm_decode.specs.Options.{is_plain as spec_is_plain};
    ghost use Rattle.std.specs.Prelude.{◌≡◌};

    ghost Value = { Kept };

    ghost view = { kept_in_capture };

    ghost invariant = { λ c. IsBounded (kept_in_capture c) × (c.is_plain ≡ spec_is_plain c.options) };
}

impl Capture {
    ghost use Rattle.std.specs.Prelude.{[], ◌+◌, ◌≤◌, ◌<◌, ◌++◌, true, OnOk, OnErr, OnSome, IfSome, MatchOption, List, ℕ, length, string_bytes};
    ghost use Rattle.pm_decode.specs.Hearing.{told_end};
    ghost use Rattle.pm_decode.specs.Capturing.{capture_at_end, kept_of, capture_line_ended, most_bytes, capture_with_bytes, text_ended, told_of_capture, told_at_capture_end};
    ghost use Rattle.pm_decode.specs.CaptureText.{counts_text};

    /// A capture of no bytes. Takes no memory.
    #[tactic(auto, unfolding(crate::specs::Capturing::kept_of, crate::specs::Capturing::said_in_capture, crate::specs::Hearing::heard_in_lines, pm_trace::specs::Counts::counts_of))]
    pub(crate) fn new(alloc: Global, options: &TellOptions) -> Capture
        ensures { result ≡ kept_of options.now [] }
    {
        Capture {
            options: *options,
            is_plain: options.is_plain(),
            heard: HeardLines::new(alloc),
            line: TimedLine::new(options.times),
            taken: 0,
            ended: 0,
        }
    }

    /// How many more bytes the capture may have, at most this many.
    pub(crate) fn room(&self, wanted: usize) -> usize
        ensures few { result ≤ wanted }
        ensures room { self.now.taken + result ≤ most_bytes self.now.options.long }
        ensures full { result < wanted → self.now.taken + result ≡ most_bytes self.now.options.long }
    {
        let most = if self.options.long {
            u64::MAX
        } else {
            MAX_TEXT as u64
        };
        let left = most - self.taken;
        if left < wanted as u64 {
            left as usize
        } else {
            wanted
        }
    }

    /// Takes the bytes, and gathers what the lines say that end with them. If memory is refused, the lines before are
    /// gathered.
    pub(crate) fn take(&mut self, bytes: &[u8], gathered: &mut ToldText) -> Result<(), AllocError>
        requires { self.old.taken + length bytes.now ≤ most_bytes self.old.options.long }
        ensures kept { OnOk result (self.new ≡ capture_with_bytes self.old bytes.now) }
        ensures told { OnOk result (gathered.new ≡ gathered.old ++ told_of_capture self.old bytes.now) }
        ensures front { OnErr result ((rest : List ℕ)
            × (gathered.old ++ told_of_capture self.old bytes.now ≡ gathered.new ++ rest)) }
        ensures some { OnErr result (0 < length bytes.now) }
    {
        let mut rest = bytes;
        'lines: loop {
            let Some(more) = self.take_front(rest) else {
                return Ok(());
            };
            self.end_line(gathered)?;
            rest = more;
        }
    }

    // Takes bytes up to the first line feed and with it, or all of them, and gives what follows it. The line isn't
    // ended yet.
    fn take_front<'a>(&mut self, bytes: &'a [u8]) -> Option<&'a [u8]>
        requires { self.old.taken + length bytes.now ≤ most_bytes self.old.options.long }
        ensures kept { MatchOption result (capture_with_bytes self.old bytes.entry.now ≡ self.new)
            (λ more. capture_with_bytes self.old bytes.entry.now ≡ capture_with_bytes (capture_line_ended self.new) more.now) }
        ensures told { MatchOption result (told_of_capture self.old bytes.entry.now ≡ [])
            (λ more. told_of_capture self.old bytes.entry.now ≡ text_ended self.new
            ++ told_of_capture (capture_line_ended self.new) more.now) }
        ensures fewer { IfSome result (λ more. length more.now < length bytes.entry.now) }
        ensures room { IfSome result (λ more. self.new.taken + length more.now ≤ most_bytes self.new.options.long) }
        ensures ended { OnSome result (self.new.ended + 1 ≤ self.new.taken) }
    {
        let rest = self.line.take_line(bytes);
        self.taken += (bytes.len() - rest.len()) as u64;
        let [_, more @ ..] = rest else {
            return None;
        };
        self.taken += 1;
        Some(more)
    }

    // Ends the line, and gathers what it says, if it isn't skipped.
    fn end_line(&mut self, gathered: &mut ToldText) -> Result<(), AllocError>
        requires { self.old.ended + 1 ≤ self.old.taken }
        ensures kept { OnOk result (self.new ≡ capture_line_ended self.old) }
        ensures told { OnOk result (gathered.new ≡ gathered.old ++ text_ended self.old) }
        ensures unchanged { OnErr result (gathered.new ≡ gathered.old) }
    {
        let heard = hear_line(
            &mut self.heard,
            &self.options,
            self.is_plain,
            self.ended + 1,
            &self.line,
            gathered,
        );
        self.ended += 1;
        self.line.clear();
        heard
    }

    /// Whether the line that goes on has a byte.
    fn is_begun(&self) -> bool
        ensures begun { result ≡ self.now.line.is_begun }
        ensures room { result ≡ true → self.now.ended + 1 ≤ self.now.taken }
    {
        self.line.is_begun()
    }

    /// Ends the capture: a last line ends here that has bytes and no line feed.
    pub(crate) fn finish(&mut self, gathered: &mut ToldText) -> Result<(), AllocError>
        ensures kept { OnOk result (self.new ≡ capture_at_end self.old) }
        ensures told { OnOk result (gathered.new ≡ gathered.old ++ told_at_capture_end self.old) }
    {
        if self.is_begun() {
            self.end_line(gathered)?;
        }
        Ok(())
    }

    /// Appends the text of the counts to a text.
    pub(crate) fn push_counts(&self, text: &mut String) -> Result<(), AllocError>
        ensures { OnOk result (string_bytes text.new ≡ string_bytes text.old ++ counts_text self.now.options self.now.heard) }
    {
        push_counts(text, &self.options, &self.heard)
    }

    /// How many bytes were taken.
    pub(crate) fn taken(&self) -> u64
        ensures { result ≡ self.now.taken }
    {
        self.taken
    }

    /// How a capture ends that was counted.
    pub(crate) fn end(&self) -> TellEnd
        ensures { result ≡ told_end self.now.options self.now.heard }
    {
        let (_, _, _, bad) = self.heard.tally().lines();
        TellEnd {
            end: if bad == 0 {
                DecodeEnd::Clean
            } else {
                DecodeEnd::BadLines
            },
            hint: hint_of(&self.options, &self.heard),
        }
    }
}

// Gathers what a line says that ends here, with its number, and has it heard, if it isn't skipped. A comment is noted if an option
// changes what is shown.
#[tactic(auto, using(crate::proofs::Captures::heard_one))]
fn hear_line(
    heard: &mut HeardLines,
    options: &TellOptions,
    plain: bool,
    number: u64,
    line: &TimedLine,
    gathered: &mut ToldText,
) -> Result<(), AllocError>
    requires few { heard_lines heard.old + 1 < 2 ^ 64 }
    requires plain { plain ≡ is_plain options.now }
    ensures heard { OnOk result (heard.new ≡ (if passes_timed (notes_comments options.now) line.now then heard.old
        else line_heard_with options.now heard.old (number, timed_said (notes_comments options.now) line.now))) }
    ensures told { OnOk result (gathered.new ≡ gathered.old ++ (if passes_timed (notes_comments options.now) line.now then []
        else line_text options.now heard.old.known (number, timed_said (notes_comments options.now) line.now))) }
    ensures unchanged { OnErr result (gathered.new ≡ gathered.old) }
    ensures few { heard_lines heard.new ≤ heard_lines heard.old + 1 }
{
    if is_noted(options, line) {
        let said = line.note();
        return gathered.note(heard, options, number, &said);
    }
    if line.is_skipped() {
        return Ok(());
    }
    gathered.hear(heard, options, plain, number, &line.reading())
}

// Whether a line is a comment that is noted.
fn is_noted(options: &TellOptions, line: &TimedLine) -> bool
    ensures { result ≡ (notes_comments options.now && line.now.has_mark) }
{
    line.is_comment() && options.notes_comments()
}
