//! The lines of a capture, heard one after another.
ghost use Rattle.std.specs.Prelude.{◌≡◌, None, not, option_map, true};
ghost use Rattle.pm_trace.specs.ShownLines.{judged_in};
ghost use Rattle.pm_trace.specs.Trace.{parts_judged};
ghost use Rattle.pm_trace.specs.Otherwise.{is_accepted};
ghost use Rattle.pm_decode.specs.Readings.{is_without_pec, judged_by, other_address};
ghost use Rattle.pm_decode.specs.ShownReadings.{packet_in};

use crate::aside_text::push_aside;
use crate::known::Known;
use crate::line_text::push_bad_line;
use crate::{
    LineReading, Marks, Note, PacketLine, Special, TellOptions, bad_shown, completed_if, is_plain,
    is_to_all, told_code,
};
use pm_trace::{Others, Tally, address_otherwise, packet_shown, shown_with};
use std::alloc::{AllocError, Global};
use std::marker::Model;

/// What the lines taught and said of PAGE, and how many there were of each kind.
#[derive(Debug, Drop)]
pub(crate) struct HeardLines {
    known: Known,
    tally: Tally,
    others: Others,
    // How many packets were refused.
    refused: u64,
    // How many packets went to an address that is no part's.
    special: u64,
}

impl Model for HeardLines {
    ghost use Rattle.pm_decode.specs.Hearing.{HeardLines};

    ghost Value = { HeardLines };

    ghost view = { λ h. record { known = h.known; counts = h.tally; others = h.others; refused = h.refused; special = h.special } };
}

impl HeardLines {
    ghost use Rattle.std.specs.Prelude.{◌+◌, ◌<◌, ◌≤◌, ◌^◌, ◌++◌, codes, OnOk, Ok, string_bytes};
    ghost use Rattle.pm_trace.specs.Counts.{lines_in};
    ghost use Rattle.std.specs.Prelude.{◌&&◌, if◌then◌else◌};
    ghost use Rattle.pm_decode.specs.CaptureText.{aside_line, line_text, read_line};
    ghost use Rattle.pm_decode.specs.CaptureText.{told_line};
    ghost use Rattle.pm_trace.specs.Answers.{ones_of};
    ghost use Rattle.pm_trace.specs.declared.answers.Ones.TheVariants.{Answer};
    ghost use Rattle.pm_decode.specs.Hearing.{answers_read, counted_with, heard_aside, heard_lines, heard_told, line_heard_with, known_read, ones_in, time_since, taught_read, unheard};
    ghost use Rattle.pm_trace.specs.Otherwise.{content_of};
    ghost use Rattle.pm_decode.specs.Hints.{beyond_by, lacking_by};
    ghost use Rattle.pm_decode.specs.UsualLines.{code_counted};
    ghost use Rattle.pm_decode.specs.PageSteps.{used_by};
    ghost use Rattle.pm_trace.specs.declared.pages.PageUse.TheVariants.{Beside};
    ghost use Rattle.pm_decode.specs.declared.page_steps.Marks.{Marks};
    ghost use Rattle.pm_decode.specs.Readings.{Noted, Told};
    ghost use Rattle.pm_decode.specs.ShownReadings.{reading_in_line};
    ghost use Rattle.pm_decode.specs.declared.options.TellOptions.{TellOptions};

    /// No line yet. Takes no memory.
    pub(crate) fn new(alloc: Global) -> HeardLines
        ensures { result ≡ unheard }
    {
        HeardLines {
            known: Known::new(alloc),
            tally: Tally::new(alloc),
            others: Others::new(alloc),
            refused: 0,
            special: 0,
        }
    }

    /// Appends what a line says to a text, with its number and without a line feed, and counts it. Takes memory for the
    /// text, and for a code, an output and an address that is new.
    #[tactic(auto, using(crate::proofs::Captures::heard_one))]
    pub(crate) fn hear(
        &mut self,
        options: &TellOptions,
        number: u64,
        line: &LineReading<'_>,
        text: &mut String,
    ) -> Result<(), AllocError>
        requires { heard_lines self.old + 1 < 2 ^ 64 }
        ensures text { OnOk result (string_bytes text.new ++ codes "\n" ≡ string_bytes text.old
            ++ line_text options.now self.old.known (number, Told (reading_in_line line.now))) }
        ensures heard { OnOk result (self.new ≡ line_heard_with options.now self.old (number, Told (reading_in_line line.now))) }
        ensures few { heard_lines self.new ≤ heard_lines self.old + 1 }
    {
        match &line.packet {
            Ok(packet) => {
                let shown = packet_shown(packet.write, packet.read);
                let line = PacketLine {
                    number,
                    time: line.time,
                    packet: *packet,
                    shown: &shown,
                    ones: self.known.ones(options, *packet, &shown),
                    other: None,
                };
                self.hear_readable(options, &line, text)
            }
            Err(fault) => {
                push_bad_line(text, options, number, *fault)?;
                self.known.lose_line(options.notes_comments(), number);
                self.tally.count(&bad_shown(*fault))
            }
        }
    }

    // Hears a line that could be read: a packet to a part, or to an address that is no part's.
    #[tactic(auto, using(crate::proofs::Captures::seen_told, crate::proofs::Captures::seen_aside, crate::proofs::Captures::heard_one))]
    fn hear_readable(
        &mut self,
        options: &TellOptions,
        line: &PacketLine<'_>,
        text: &mut String,
    ) -> Result<(), AllocError>
        requires few { heard_lines self.old + 1 < 2 ^ 64 }
        requires shown { judged_in line.now.shown.now
            ≡ parts_judged line.now.packet.write.now (option_map (λ bytes. bytes.now) line.now.packet.read) }
        requires ones { line.now.ones ≡ ones_in options.now self.old.known (Ok (packet_in line.now.packet)) }
        requires plain { line.now.other ≡ None }
        ensures text { OnOk result (string_bytes text.new ++ codes "\n" ≡ string_bytes text.old
            ++ line_text options.now self.old.known
            (line.now.number, Told (record { time = line.now.time; parts = Ok (packet_in line.now.packet) }))) }
        ensures heard { OnOk result (self.new
            ≡ line_heard_with options.now self.old (line.now.number, Told (record { time = line.now.time; parts = Ok (packet_in line.now.packet) }))) }
        ensures few { heard_lines self.new ≤ heard_lines self.old + 1 }
    {
        match self.known.special(options, line) {
            None => self.hear_packet(options, line, text),
            Some(special) => self.hear_aside(options, special, line, text),
        }
    }

    // Hears a packet to an address that is no part's.
    fn hear_aside(
        &mut self,
        options: &TellOptions,
        special: Special,
        line: &PacketLine<'_>,
        text: &mut String,
    ) -> Result<(), AllocError>
        requires few { heard_lines self.old + 1 < 2 ^ 64 }
        ensures text { OnOk result (string_bytes text.new ++ codes "\n" ≡ string_bytes text.old
            ++ aside_line options.now.json special line.now.ones line.now.number (time_since self.old.known.first line.now.time)
            (Ok (packet_in line.now.packet))) }
        ensures heard { OnOk result (self.new
            ≡ heard_aside options.now line.now.number line.now.time special line.now.ones (Ok (packet_in line.now.packet)) self.old) }
        ensures few { heard_lines self.new ≤ heard_lines self.old + 1 }
    {
        let since = self.known.since(line.time);
        push_aside(text, options.json, special, since, line)?;
        self.known.set_aside(options, special, line);
        if line.ones.is_refused() {
            self.refused += 1;
        } else {
            self.special += 1;
        }
        Ok(())
    }

    // Hears a line that could be read.
    #[tactic(auto, using(crate::proofs::Captures::heard_one, crate::proofs::Shown::good_said, crate::proofs::Shown::good_whole, crate::proofs::Shown::good_known))]
    fn hear_packet(
        &mut self,
        options: &TellOptions,
        line: &PacketLine<'_>,
        text: &mut String,
    ) -> Result<(), AllocError>
        requires few { heard_lines self.old + 1 < 2 ^ 64 }
        requires shown { judged_in line.now.shown.now
            ≡ parts_judged line.now.packet.write.now (option_map (λ bytes. bytes.now) line.now.packet.read) }
        requires ones { line.now.ones ≡ ones_in options.now self.old.known (Ok (packet_in line.now.packet)) }
        requires plain { line.now.other ≡ None }
        ensures text { OnOk result (string_bytes text.new ++ codes "\n" ≡ string_bytes text.old
            ++ read_line options.now self.old.known line.now.number line.now.time (Ok (packet_in line.now.packet))) }
        ensures heard { OnOk result (self.new
            ≡ heard_told options.now line.now.number (record { time = line.now.time; parts = Ok (packet_in line.now.packet) }) self.old) }
        ensures few { heard_lines self.new ≤ heard_lines self.old + 1 }
    {
        if options.pages
            || line.ones.is_refused()
            || !is_plain(options.all, line.shown)
            || (options.notes_comments() && is_to_all(line.packet.write, line.packet.is_read()))
        {
            return self.hear_closely(options, line, text);
        }
        let marks = Marks::without_page(line.ones, false);
        self.known.tell_packet(options, &marks, line, text)?;
        self.tally.count(line.shown)
    }

    // Hears a line closely: packets without PEC are shown, or PAGE is followed.
    #[tactic(auto, using(crate::proofs::Shown::completed_said, crate::proofs::Shown::usual_said))]
    fn hear_closely(
        &mut self,
        options: &TellOptions,
        line: &PacketLine<'_>,
        text: &mut String,
    ) -> Result<(), AllocError>
        requires few { heard_lines self.old + 1 < 2 ^ 64 }
        requires shown { judged_in line.now.shown.now
            ≡ parts_judged line.now.packet.write.now (option_map (λ bytes. bytes.now) line.now.packet.read) }
        requires ones { line.now.ones ≡ ones_in options.now self.old.known (Ok (packet_in line.now.packet)) }
        requires plain { line.now.other ≡ None }
        ensures text { OnOk result (string_bytes text.new ++ codes "\n" ≡ string_bytes text.old
            ++ read_line options.now self.old.known line.now.number line.now.time (Ok (packet_in line.now.packet))) }
        ensures heard { OnOk result (self.new
            ≡ heard_told options.now line.now.number (record { time = line.now.time; parts = Ok (packet_in line.now.packet) }) self.old) }
        ensures few { heard_lines self.new ≤ heard_lines self.old + 1 }
    {
        match completed_if(options.all, line) {
            Some(part) => {
                let whole = shown_with(line.packet.write, line.packet.is_read(), &part);
                let line = PacketLine {
                    number: line.number,
                    time: line.time,
                    packet: line.packet,
                    shown: &whole,
                    ones: line.ones,
                    other: None,
                };
                self.hear_shown(options, &line, true, text)
            }
            None => self.hear_shown(options, line, false, text),
        }
    }

    // Hears a packet by what it says; `lacks` is whether it lacks its PEC.
    #[tactic(auto, using(crate::proofs::Captures::heard_one))]
    fn hear_shown(
        &mut self,
        options: &TellOptions,
        line: &PacketLine<'_>,
        lacks: bool,
        text: &mut String,
    ) -> Result<(), AllocError>
        requires few { heard_lines self.old + 1 < 2 ^ 64 }
        requires shown { judged_in line.now.shown.now ≡ judged_by options.now.all line.now.ones (packet_in line.now.packet) }
        requires lacks { lacks ≡ is_without_pec options.now.all line.now.ones (packet_in line.now.packet) }
        requires ones { line.now.ones ≡ ones_in options.now self.old.known (Ok (packet_in line.now.packet)) }
        requires plain { line.now.other ≡ None }
        ensures text { OnOk result (string_bytes text.new ++ codes "\n" ≡ string_bytes text.old
            ++ read_line options.now self.old.known line.now.number line.now.time (Ok (packet_in line.now.packet))) }
        ensures heard { OnOk result (self.new
            ≡ heard_told options.now line.now.number (record { time = line.now.time; parts = Ok (packet_in line.now.packet) }) self.old) }
        ensures few { heard_lines self.new ≤ heard_lines self.old + 1 }
    {
        match other_if(options.all, line) {
            None => self.hear_told(options, line, lacks, text),
            Some(addr) => {
                let line = PacketLine {
                    number: line.number,
                    time: line.time,
                    packet: line.packet,
                    shown: line.shown,
                    ones: line.ones,
                    other: Some(addr),
                };
                self.hear_told(options, &line, lacks, text)
            }
        }
    }

    // Hears a packet by what it says, as the command table has it or by its code and bytes.
    #[tactic(auto, using(crate::proofs::Captures::heard_one))]
    fn hear_told(
        &mut self,
        options: &TellOptions,
        line: &PacketLine<'_>,
        lacks: bool,
        text: &mut String,
    ) -> Result<(), AllocError>
        requires few { heard_lines self.old + 1 < 2 ^ 64 }
        requires shown { judged_in line.now.shown.now ≡ judged_by options.now.all line.now.ones (packet_in line.now.packet) }
        requires lacks { lacks ≡ is_without_pec options.now.all line.now.ones (packet_in line.now.packet) }
        requires ones { line.now.ones ≡ ones_in options.now self.old.known (Ok (packet_in line.now.packet)) }
        requires other { line.now.other ≡ other_address options.now.all line.now.ones (packet_in line.now.packet) }
        ensures text { OnOk result (string_bytes text.new ++ codes "\n" ≡ string_bytes text.old
            ++ read_line options.now self.old.known line.now.number line.now.time (Ok (packet_in line.now.packet))) }
        ensures heard { OnOk result (self.new
            ≡ heard_told options.now line.now.number (record { time = line.now.time; parts = Ok (packet_in line.now.packet) }) self.old) }
        ensures few { heard_lines self.new ≤ heard_lines self.old + 1 }
    {
        if options.pages {
            self.known.tell_on_page(options, lacks, line, text)?;
        } else {
            let marks = Marks::without_page(line.ones, lacks);
            self.known.tell_packet(options, &marks, line, text)?;
        }
        if options.notes_comments() && is_to_all(line.packet.write, line.packet.is_read()) {
            self.known.lose(line.number);
        }
        self.count(line)
    }

    // Counts a packet by what it says, as the command table has it or by its code and bytes, or as a refused one.
    fn count(&mut self, line: &PacketLine<'_>) -> Result<(), AllocError>
        requires few { heard_lines self.old + 1 < 2 ^ 64 }
        ensures heard { OnOk result (self.new ≡ counted_with line.now.ones line.now.other (content_of line.now.packet.write.now
            (option_map (λ bytes. bytes.now) line.now.packet.read)).code (line.now.number, judged_in line.now.shown.now) self.old) }
        ensures few { heard_lines self.new ≤ heard_lines self.old + 1 }
    {
        if line.ones.is_refused() {
            self.refused += 1;
            return Ok(());
        }
        match line.other {
            None => self.tally.count(line.shown),
            Some(_) => self.others.count(told_code(&line.packet)),
        }
    }

    /// Counts a good packet of this code that teaches nothing, if PAGE isn't followed. Takes memory for a code that is
    /// new.
    pub(crate) fn count_usual(&mut self, code: u8) -> Result<(), AllocError>
        requires { heard_lines self.old + 1 < 2 ^ 64 }
        ensures heard { OnOk result (self.new ≡ record self.old { counts = code_counted self.old.counts code }) }
        ensures few { heard_lines self.new ≤ heard_lines self.old + 1 }
    {
        self.tally.count_accepted(code)
    }

    /// Hears a comment, with its number. Takes memory for an address that is new.
    pub(crate) fn note(
        &mut self,
        options: &TellOptions,
        number: u64,
        note: &Note,
    ) -> Result<(), AllocError>
        ensures heard { OnOk result (self.new ≡ line_heard_with options.now self.old (number, Noted note.now)) }
        ensures few { heard_lines self.new ≡ heard_lines self.old }
    {
        self.known.note(options, number, note)
    }

    /// How many lines there were.
    pub(crate) fn lines(&self) -> u64
        requires { heard_lines self.now < 2 ^ 64 }
        ensures { result ≡ heard_lines self.now }
    {
        let (lines, _, _, _) = self.tally.lines();
        lines + self.others.total() + self.refused + self.special
    }

    /// What is known after the lines.
    pub(crate) fn known(&self) -> &Known
        ensures { result.now ≡ self.now.known }
    {
        &self.known
    }

    /// The counts of the lines that are shown as the command table has them.
    pub(crate) fn tally(&self) -> &Tally
        ensures { result.now ≡ self.now.counts }
    {
        &self.tally
    }

    /// How many packets were refused.
    pub(crate) fn refused(&self) -> u64
        ensures { result ≡ self.now.refused }
    {
        self.refused
    }

    /// How many packets went to an address that is no part's.
    pub(crate) fn special(&self) -> u64
        ensures { result ≡ self.now.special }
    {
        self.special
    }

    /// How often other codes were carried.
    pub(crate) fn others(&self) -> &Others
        ensures { result.now ≡ self.now.others }
    {
        &self.others
    }
}

// The address of a packet that is shown by its code and bytes, if packets without PEC are shown.
fn other_if(all: bool, line: &PacketLine<'_>) -> Option<u8>
    requires { judged_in line.now.shown.now ≡ judged_by all line.now.ones (packet_in line.now.packet) }
    ensures { result ≡ other_address all line.now.ones (packet_in line.now.packet) }
{
    if all {
        address_otherwise(&line.packet, line.shown, line.ones)
    } else {
        None
    }
}
