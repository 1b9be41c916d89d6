//! A decoder of traces, which is fed in pieces.

mod intake;
mod line_kind;
mod line_part;
pub(crate) mod open_line;
mod slashes;

ghost use Rattle.std.specs.Prelude.{◌≡◌};

use crate::decoder::intake::Intake;
pub use crate::decoder::line_part::{LinePart, PART_BYTES};
use crate::decoder::open_line::OpenLine;
use crate::fed::Fed;
use crate::shown::Shown;
use crate::tally::Tally;
use pm_lines::{MAX_TEXT, TextFault};
use std::alloc::{AllocError, Global};
use std::marker::Model;

/// Reads a trace as its bytes come, in pieces of any size, and shows each line as it ends. It keeps
/// no line as text: the bytes that a line writes go to two buffers of its own, from which the line
/// is shown. It takes no memory but for the count of a code that is new in the trace.
#[derive(Debug, Drop)]
pub struct Decoder {
    // The lines that ended, but for those that are skipped.
    tally: Tally,
    // The line that goes on, or the one that is shown.
    line: OpenLine,
    // The last call ended the line, which isn't skipped.
    is_shown: bool,
    // How many bytes were taken.
    taken: usize,
    // How many lines ended, the skipped ones too.
    ended: u64,
    intake: Intake,
}

impl Model for Decoder {
    ghost use Rattle.pm_trace.specs.Decoding.{Holding};

    ghost Value = { Holding };

    ghost use Rattle.pm_trace.specs.Holdings.{holding_in, IsSound};

    ghost view = { holding_in };

    ghost invariant = { IsSound };
}

impl Decoder {
    ghost use Rattle.std.specs.Prelude.{[], ◌⊎◌, ◌+◌, ◌≤◌, ◌<◌, length, take, None, Some, IfSome, IfOk, IfErr, OnOk, OnErr, option_map};
    ghost use Rattle.std.specs.Result.{result_err};
    ghost use Rattle.pm_trace.specs.Counts.{lines_in};
    ghost use Rattle.pm_trace.specs.Decoding.{IsFresh, Feeds, Finishes, Fails, CarriesNew, refusal_of_piece, taken_from_piece};
    ghost use Rattle.pm_trace.specs.Decoding.{first_line, told, told_by_intake, some_told, line_told, line_ended};
    ghost use Rattle.pm_trace.specs.Holdings.{IsBounded, Takes, lines_at_end};
    ghost use Rattle.pm_trace.specs.OpenLines.{is_begun as spec_is_begun};
    ghost use Rattle.pm_trace.specs.ShownLines.{told_in_shown_line};
    ghost use Rattle.pm_lines.specs.Streams.{max_text};

    /// A decoder that took no byte. Takes no memory.
    #[tactic(auto, unfolding(crate::specs::Decoding::kept_of_bytes, crate::specs::Decoding::said, crate::specs::Counts::counts_of))]
    pub fn new(alloc: Global) -> Decoder
        ensures { IsFresh result }
    {
        Decoder {
            tally: Tally::new(alloc),
            line: OpenLine::new(),
            is_shown: false,
            taken: 0,
            ended: 0,
            intake: Intake::Open,
        }
    }

    /// Takes bytes of a piece: up to the first line feed and with it, or all of them, and no more
    /// than a text may have. Feed the rest next, until the piece is taken:
    ///
    /// ```text
    /// while !piece.is_empty() {
    ///     let fed = decoder.feed(piece)?;
    ///     if fed.ended { show(decoder.line()); }
    ///     piece = &piece[fed.taken..];
    /// }
    /// ```
    ///
    /// After `finish` it takes nothing, and refuses nothing. Takes memory only for the counts, and only if a
    /// code is new.
    ///
    /// # Errors
    ///
    /// X3 if a byte comes after the 1,048,576th, and X6 if memory was refused for the count of an ended line,
    /// whose code is new. The decoder has failed then: it shows no line, counts nothing more, and gives the
    /// same refusal from then on.
    pub fn feed(&mut self, piece: &[u8]) -> Result<Fed, TextFault>
        ensures fed { IfOk result (λ fed. Feeds self.old piece.now fed self.new) }
        ensures within { IfOk result (λ fed. fed.taken ≤ length piece.now) }
        ensures room { self.new.kept.taken ≤ max_text }
        ensures failed { IfErr result (λ fault. Fails self.old fault self.new) }

        // X3 and a repeated refusal come exactly when they are due, and X6 only for a new code.
        ensures taken { OnOk result (refusal_of_piece self.old piece.now ≡ None) }
        ensures refused { IfErr result (λ fault. (refusal_of_piece self.old piece.now ≡ Some fault)
            ⊎ ((refusal_of_piece self.old piece.now ≡ None) × (fault ≡ TextFault.Memory)
            × CarriesNew self.old.kept.counts (told self.old.kept (taken_from_piece self.old piece.now)))) }
    {
        let fed = self.take(piece);
        if let Err(fault) = fed {
            self.fail(fault);
        }
        fed
    }

    // As `feed`. Nothing is shown after a refusal, and the decoder has yet to fail.
    fn take(&mut self, piece: &[u8]) -> Result<Fed, TextFault>
        ensures fed { IfOk result (λ fed. Feeds self.old piece.now fed self.new) }
        ensures within { IfOk result (λ fed. fed.taken ≤ length piece.now) }
        ensures room { self.new.kept.taken ≤ max_text }
        ensures counts { OnErr result (self.new.kept.counts ≡ self.old.kept.counts) }
        ensures taken { OnOk result (refusal_of_piece self.old piece.now ≡ None) }
        ensures refused { IfErr result (λ fault. (refusal_of_piece self.old piece.now ≡ Some fault)
            ⊎ ((refusal_of_piece self.old piece.now ≡ None) × (fault ≡ TextFault.Memory)
            × CarriesNew self.old.kept.counts (told self.old.kept (taken_from_piece self.old piece.now)))) }
    {
        let room = self.room(piece)?;
        self.begin();
        if room == 0 {
            return Ok(Fed::NOTHING);
        }
        let fed = self.take_bytes(&piece[..room]);
        if fed.ended {
            self.end_line()?;
        }
        Ok(fed)
    }

    // How many bytes of a piece may be looked at, or why none is taken.
    fn room(&self, piece: &[u8]) -> Result<usize, TextFault>
        ensures limit { self.now.kept.taken ≤ max_text }
        ensures within { IfOk result (λ room. room ≤ length piece.now) }
        ensures room { IfOk result (λ room. self.now.kept.taken + room ≤ max_text) }
        ensures open { IfOk result (λ room. 0 < room → self.now.intake ≡ Intake.Open) }
        ensures taken { IfOk result (λ room. taken_from_piece self.now piece.now ≡ first_line (take room piece.now)) }
        ensures refused { result_err result ≡ refusal_of_piece self.now piece.now }
    {
        match self.intake {
            Intake::Open => {}
            Intake::Finished => return Ok(0),
            Intake::Failed(fault) => return Err(fault),
        }
        let room = MAX_TEXT - self.taken;
        if room == 0 && !piece.is_empty() {
            return Err(TextFault::TooLong);
        }
        Ok(room.min(piece.len()))
    }

    // Shows no line from here on.
    fn begin(&mut self)
        ensures begun { self.new ≡ record self.old { shown = None } }
        ensures bounded { IsBounded (lines_at_end self.new.intake) self.new.kept }
    {
        if self.is_shown {
            self.line.clear();
            self.is_shown = false;
        }
    }

    // Takes the bytes up to the first line feed, and with it, or all of them. A line that ends with
    // them isn't ended yet.
    fn take_bytes(&mut self, bytes: &[u8]) -> Fed
        requires unshown { self.old.shown ≡ None }
        requires room { self.old.kept.taken + length bytes.now ≤ max_text }
        ensures { Takes self.old bytes.now result self.new }
    {
        let rest = self.line.take_line(bytes);
        let ended = !rest.is_empty();
        let taken = bytes.len() - rest.len() + usize::from(ended);
        self.taken += taken;
        Fed { taken, ended }
    }

    // Ends the line: counts and shows it, if it isn't skipped. Memory is taken only if its code is new; nothing changes
    // if it was refused.
    fn end_line(&mut self) -> Result<(), AllocError>
        requires unshown { self.old.shown ≡ None }
        requires bounded { IsBounded (lines_at_end self.old.intake) self.old.kept }
        requires ended { self.old.kept.ended + 1 ≤ self.old.kept.taken + lines_at_end self.old.intake }
        ensures ended { OnOk result (self.new ≡ record self.old {
          kept = line_ended self.old.kept;
          shown = line_told self.old.kept;
        }) }
        ensures memory { OnErr result (CarriesNew self.old.kept.counts (some_told (line_told self.old.kept))) }
        ensures unchanged { OnErr result (self.new ≡ self.old) }
    {
        match self.line.shown() {
            Some(shown) => {
                self.tally.count(&shown)?;
                self.is_shown = true;
            }
            None => self.line.clear(),
        }
        self.ended += 1;
        Ok(())
    }

    // Refuses from then on.
    fn fail(&mut self, fault: TextFault)
        ensures fails { Fails self.old fault self.new }
        ensures room { self.new.kept.taken ≤ max_text }
    {
        self.begin();
        self.intake = Intake::Failed(fault);
    }

    /// Ends the trace: a last line ends here that has bytes and no line feed, and the answer is whether there
    /// was one. `line` then shows it. A further `finish` is false. Takes memory for the count of the last
    /// line's code, if it is new.
    ///
    /// # Errors
    ///
    /// X6 if memory was refused for the count of the last line, whose code is new, as for `feed`; and the
    /// refusal of a decoder that has failed.
    pub fn finish(&mut self) -> Result<bool, TextFault>
        ensures finished { IfOk result (λ ended. Finishes self.old ended self.new) }
        ensures failed { IfErr result (λ fault. Fails self.old fault self.new) }
        ensures taken { OnOk result (refusal_of_piece self.old [] ≡ None) }
        ensures refused { IfErr result (λ fault. (refusal_of_piece self.old [] ≡ Some fault)
            ⊎ ((refusal_of_piece self.old [] ≡ None) × (fault ≡ TextFault.Memory)
            × CarriesNew self.old.kept.counts (some_told (told_by_intake self.old.intake self.old.kept)))) }
    {
        let ended = self.end();
        if let Err(fault) = ended {
            self.fail(fault);
        }
        ended
    }

    // Ends the trace.
    fn end(&mut self) -> Result<bool, TextFault>
        ensures finished { IfOk result (λ ended. Finishes self.old ended self.new) }
        ensures counts { OnErr result (self.new.kept.counts ≡ self.old.kept.counts) }
        ensures taken { OnOk result (refusal_of_piece self.old [] ≡ None) }
        ensures refused { IfErr result (λ fault. (refusal_of_piece self.old [] ≡ Some fault)
            ⊎ ((refusal_of_piece self.old [] ≡ None) × (fault ≡ TextFault.Memory)
            × CarriesNew self.old.kept.counts (some_told (told_by_intake self.old.intake self.old.kept)))) }
    {
        let is_open = match self.intake {
            Intake::Open => true,
            Intake::Finished => false,
            Intake::Failed(fault) => return Err(fault),
        };
        self.begin();
        let ends = is_open && self.is_begun();
        self.intake = Intake::Finished;
        if ends {
            self.end_line()?;
        }
        Ok(ends)
    }

    // Whether the line that goes on has a byte.
    fn is_begun(&self) -> bool
        requires { self.now.shown ≡ None }
        ensures { result ≡ spec_is_begun self.now.kept.line }
    {
        self.line.is_begun()
    }

    /// The line that the last call ended, with its number; the first line of a trace has number 1. None if
    /// that line is skipped (it is empty, has nothing but spaces or begins with `#`) or the last call ended
    /// none. What is shown borrows the decoder's buffers.
    pub fn line(&self) -> Option<(u64, Shown<'_>)>
        ensures { option_map told_in_shown_line result ≡ self.now.shown }
    {
        if !self.is_shown {
            return None;
        }
        let shown = self.line.shown()?;
        Some((self.ended, shown))
    }

    /// How many lines ended that are not skipped, and how many of these were accepted, have a faulty
    /// packet, and are bad.
    pub fn counts(&self) -> (u64, u64, u64, u64)
        ensures { result ≡ (
          lines_in self.now.kept.counts,
          self.now.kept.counts.accepted,
          self.now.kept.counts.faults,
          self.now.kept.counts.bad,
        ) }
    {
        self.tally.lines()
    }
}
