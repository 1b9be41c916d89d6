//! The text of lines that ended and was not written yet.

ghost use Rattle.std.specs.Prelude.{◌≡◌};

use crate::capture::Capture;
use crate::heard_lines::HeardLines;
use crate::line_number::LineNumber;
use crate::usual_line::{Usual, push_usual, usual_of};
use crate::{LineReading, Note, TellOptions};
use std::alloc::{AllocError, Global};
use std::marker::Model;

/// The text of lines that ended and was not written yet.
#[derive(Debug, Drop)]
pub(crate) struct ToldText {
    text: Vec<u8>,
    // The text of the line that is being made.
    line: String,
    // The digits of the last usual line's number.
    number: LineNumber,
}

impl Model for ToldText {
    ghost use Rattle.std.specs.Prelude.{List, ℕ};

    ghost Value = { List ℕ };

    ghost view = { λ t. t.text.items };
}

impl ToldText {
    ghost use Rattle.std.specs.Prelude.{[], ◌+◌, ◌<◌, ◌≤◌, ◌++◌, ◌^◌, OnErr, OnOk, codes, decimal, length};
    ghost use Rattle.pm_decode.specs.UsualLines.{code_counted, usual_text};
    ghost use Rattle.pm_decode.specs.CaptureText.{counts_text, line_text};
    ghost use Rattle.pm_decode.specs.Hearing.{heard_lines, line_heard_with};
    ghost use Rattle.pm_decode.specs.Options.{is_plain};
    ghost use Rattle.pm_decode.specs.Readings.{Noted, Told};
    ghost use Rattle.pm_decode.specs.ShownReadings.{reading_in_line};

    /// No line. Takes no memory.
    pub(crate) fn new(alloc: Global) -> ToldText
        ensures { result ≡ [] }
    {
        ToldText {
            text: Vec::new(alloc),
            line: String::new(alloc),
            number: LineNumber::new(alloc),
        }
    }

    /// The text.
    pub(crate) fn bytes(&self) -> &[u8]
        ensures { result.now ≡ self.now }
    {
        &self.text
    }

    /// How many bytes the text has.
    pub(crate) fn len(&self) -> usize
        ensures { result ≡ length self.now }
    {
        self.text.len()
    }

    /// Leaves no byte.
    pub(crate) fn clear(&mut self)
        ensures { self.new ≡ [] }
    {
        self.text.clear();
    }

    /// Gathers what a line says, with its number, and has it heard.
    #[tactic(auto, using(crate::proofs::Shown::usual_told, crate::proofs::Shown::usual_heard))]
    pub(crate) fn hear(
        &mut self,
        heard: &mut HeardLines,
        options: &TellOptions,
        plain: bool,
        number: u64,
        line: &LineReading<'_>,
    ) -> Result<(), AllocError>
        requires few { heard_lines heard.old + 1 < 2 ^ 64 }
        requires plain { plain ≡ is_plain options.now }
        ensures told { OnOk result (self.new
            ≡ self.old ++ line_text options.now heard.old.known (number, Told (reading_in_line line.now))) }
        ensures heard { OnOk result (heard.new ≡ line_heard_with options.now heard.old (number, Told (reading_in_line line.now))) }
        ensures unchanged { OnErr result (self.new ≡ self.old) }
        ensures few { heard_lines heard.new ≤ heard_lines heard.old + 1 }
    {
        if plain
            && line.time.is_none()
            && let Ok(packet) = &line.packet
            && let Some(usual) = usual_of(packet.write, packet.read)
        {
            return self.hear_usual(heard, number, &usual);
        }
        self.hear_any(heard, options, number, line)
    }

    // Hears a usual packet, if no option changes what is shown.
    #[tactic(auto, using(crate::proofs::Shown::fronts))]
    fn hear_usual(
        &mut self,
        heard: &mut HeardLines,
        number: u64,
        usual: &Usual,
    ) -> Result<(), AllocError>
        requires { heard_lines heard.old + 1 < 2 ^ 64 }
        ensures told { OnOk result (self.new
            ≡ self.old ++ (decimal number ++ (codes " " ++ (usual_text usual.now ++ codes "\n")))) }
        ensures heard { OnOk result (heard.new ≡ record heard.old { counts = code_counted heard.old.counts usual.now.code }) }
        ensures unchanged { OnErr result (self.new ≡ self.old) }
        ensures few { heard_lines heard.new ≤ heard_lines heard.old + 1 }
    {
        let length = self.text.len();
        let pushed = push_usual(&mut self.text, self.number.digits(number)?, usual);
        if pushed.is_err() {
            self.text.truncate(length);
            return pushed;
        }
        let counted = heard.count_usual(usual.code);
        if counted.is_err() {
            self.text.truncate(length);
        }
        counted
    }

    // Hears any line, whatever the options are.
    #[inline(never)]
    fn hear_any(
        &mut self,
        heard: &mut HeardLines,
        options: &TellOptions,
        number: u64,
        line: &LineReading<'_>,
    ) -> Result<(), AllocError>
        requires { heard_lines heard.old + 1 < 2 ^ 64 }
        ensures told { OnOk result (self.new
            ≡ self.old ++ line_text options.now heard.old.known (number, Told (reading_in_line line.now))) }
        ensures heard { OnOk result (heard.new ≡ line_heard_with options.now heard.old (number, Told (reading_in_line line.now))) }
        ensures unchanged { OnErr result (self.new ≡ self.old) }
        ensures few { heard_lines heard.new ≤ heard_lines heard.old + 1 }
    {
        self.line.clear();
        heard.hear(options, number, line, &mut self.line)?;
        self.line.push_str("\n")?;
        self.text.extend_from_slice(self.line.as_str().as_bytes())
    }

    /// Gathers what a comment says of a transfer that failed, with its number, and has it heard.
    pub(crate) fn note(
        &mut self,
        heard: &mut HeardLines,
        options: &TellOptions,
        number: u64,
        note: &Note,
    ) -> Result<(), AllocError>
        ensures told { OnOk result (self.new
            ≡ self.old ++ line_text options.now heard.old.known (number, Noted note.now)) }
        ensures heard { OnOk result (heard.new ≡ line_heard_with options.now heard.old (number, Noted note.now)) }
        ensures unchanged { OnErr result (self.new ≡ self.old) }
        ensures few { heard_lines heard.new ≡ heard_lines heard.old }
    {
        self.line.clear();
        let pushed = heard
            .known()
            .push_note(options, number, note, &mut self.line);
        pushed?;
        heard.note(options, number, note)?;
        self.text.extend_from_slice(self.line.as_str().as_bytes())
    }

    /// Gathers the text of the counts.
    pub(crate) fn gather_counts(&mut self, capture: &Capture) -> Result<(), AllocError>
        ensures { OnOk result (self.new ≡ self.old ++ counts_text capture.now.options capture.now.heard) }
    {
        self.line.clear();
        capture.push_counts(&mut self.line)?;
        self.text.extend_from_slice(self.line.as_str().as_bytes())
    }
}
