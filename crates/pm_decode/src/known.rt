//! What is known after the lines of a capture.
ghost use Rattle.std.specs.Option.{option_or};
ghost use Rattle.std.specs.Prelude.{◌≡◌, ◌<◌, Bool, None, option_map, true};
ghost use Rattle.pm_decode.specs.Specials.{shows_part as spec_shows_part};
ghost use Rattle.pm_trace.specs.ShownLines.{judged_in};
ghost use Rattle.pm_trace.specs.Otherwise.{is_accepted};
ghost use Rattle.pm_trace.specs.Trace.{parts_judged};
ghost use Rattle.pm_decode.specs.Options.{notes_comments};
ghost use Rattle.pm_decode.specs.Hearing.{first_refusal as spec_first_refusal};
ghost use Rattle.pm_decode.specs.Readings.{is_without_pec, judged_by};
ghost use Rattle.pm_decode.specs.ShownReadings.{packet_in};

use crate::hints::{first_beyond, first_paging, first_timed, still_lacking};
use crate::line_text::{push_failed, push_packet_line, since_first};
use crate::{
    Addresses, Marks, NOWHERE, Note, PacketLine, Remark, ShownPacket, Special, TellOptions,
    WordRead, Words, address_in, aside_ends_all, change_in, completed_if, is_beside, is_checked,
    is_lost, is_lost_shown, is_part_answer, is_received, is_told, kept_for, page_step,
    shown_change, shown_ends_all, shown_use, shows_pages, special_of, written_to,
};
use pm_trace::{
    Answers, Lessons, ModeChange, Ones, Packet, PageUse, Pages, Refusal, Shown, shown_with,
};
use std::alloc::{AllocError, Global};
use std::marker::Model;

/// What the lines taught and said of PAGE, and what decides of answers and hints.
#[derive(Debug, Drop)]
pub(crate) struct Known {
    lessons: Lessons,
    pages: Pages,
    answers: Answers,
    // The first byte of the next packet that wasn't acknowledged.
    refused: Option<Refusal>,
    // The first line that orders a voltage beyond 1000 V by the format that was given.
    beyond: Option<u64>,
    // The first line that wrote PAGE, where values are shown and PAGE isn't followed.
    paging: Option<u64>,
    // Each packet that isn't good would be with its PEC.
    lacking: bool,
    // The first line that begins with its time, where lines have none.
    timed: Option<u64>,
    // The time of the first packet, if lines have times.
    first: Option<u64>,
    // The words of registers that were read, if failed transfers and words that changed are shown.
    words: Words,
    // The addresses that SMBus keeps for something else, and that answered as parts.
    parts: Addresses,
}

impl Model for Known {
    ghost use Rattle.pm_decode.specs.Hearing.{Known};

    ghost Value = { Known };

    ghost view = { λ k. record { taught = k.lessons; pages = k.pages; beyond = k.beyond; answers = k.answers; refused = k.refused; paging = k.paging; lacking = k.lacking; timed = k.timed; first = k.first; words = k.words; parts = k.parts } };
}

impl Known {
    ghost use Rattle.std.specs.Prelude.{◌++◌, codes, OnOk, Ok, string_bytes, true};
    ghost use Rattle.std.specs.Prelude.{if◌then◌else◌, is_some};
    ghost use Rattle.pm_decode.specs.CaptureText.{noted_line, read_line, told_line};
    ghost use Rattle.pm_trace.specs.declared.pages.PageUse.TheVariants.{Beside};
    ghost use Rattle.pm_decode.specs.PageSteps.{change_by, judged_address, shows_pages as spec_shows_pages, used_by};
    ghost use Rattle.pm_trace.specs.Taught.{changed_by, paged_if};
    ghost use Rattle.pm_decode.specs.Readings.{other_address};
    ghost use Rattle.pm_decode.specs.Words.{word_read as spec_word_read, words_heard};
    ghost use Rattle.pm_decode.specs.Hearing.{answered_as, answers_read, known_aside, known_lost, known_noted, known_remarked, known_shown, known_told, marks_with, ones_in, part_seen, time_since, special_in, taught_read, unknown, words_told};
    ghost use Rattle.pm_decode.specs.Hints.{beyond_by, lacking_by, paging_by, timed_by};

    /// Before the first line. Takes no memory.
    pub(crate) fn new(alloc: Global) -> Known
        ensures { result ≡ unknown }
    {
        Known {
            lessons: Lessons::new(alloc),
            pages: Pages::new(alloc),
            answers: Answers::new(alloc),
            refused: None,
            beyond: None,
            paging: None,
            lacking: true,
            timed: None,
            first: None,
            words: Words::new(alloc),
            parts: Addresses::none(),
        }
    }

    /// Something was lost in a line, of nobody knows which address: no page and no mode is known any more.
    pub(crate) fn lose(&mut self, number: u64)
        ensures { self.new ≡ known_lost number self.old }
    {
        self.pages.lose(number);
        self.lessons.lose(number);
        self.words.lose(number);
    }

    /// A line couldn't be read.
    pub(crate) fn lose_line(&mut self, notes: bool, number: u64)
        ensures { self.new ≡ record (known_lost number self.old) { refused = if notes then None else self.old.refused } }
    {
        self.lose(number);
        if notes {
            self.refused = None;
        }
    }

    /// Appends a packet's line to a text if PAGE is followed, and learns what the packet teaches, orders and says of PAGE.
    pub(crate) fn tell_on_page(
        &mut self,
        options: &TellOptions,
        lacks: bool,
        line: &PacketLine<'_>,
        text: &mut String,
    ) -> Result<(), AllocError>
        requires pages { options.now.pages ≡ true }
        requires shown { judged_in line.now.shown.now ≡ judged_by options.now.all line.now.ones (packet_in line.now.packet) }
        requires lacks { lacks ≡ is_without_pec options.now.all line.now.ones (packet_in line.now.packet) }
        requires other { line.now.other ≡ other_address options.now.all line.now.ones (packet_in line.now.packet) }
        requires ones { line.now.ones ≡ ones_in options.now self.old (Ok (packet_in line.now.packet)) }
        ensures text { OnOk result (string_bytes text.new ++ codes "\n" ≡ string_bytes text.old
            ++ read_line options.now self.old line.now.number line.now.time (Ok (packet_in line.now.packet))) }
        ensures known { OnOk result (self.new
            ≡ known_told options.now line.now.number line.now.time line.now.ones (Ok (packet_in line.now.packet)) self.old) }
    {
        if is_beside(line) {
            self.tell_beside(options, lacks, line, text)
        } else {
            self.tell_at_place(options, lacks, line, text)
        }
    }

    // Appends the line of a packet that says nothing of PAGE and has no time, and learns from it.
    fn tell_beside(
        &mut self,
        options: &TellOptions,
        lacks: bool,
        line: &PacketLine<'_>,
        text: &mut String,
    ) -> Result<(), AllocError>
        requires pages { options.now.pages ≡ true }
        requires shown { judged_in line.now.shown.now ≡ judged_by options.now.all line.now.ones (packet_in line.now.packet) }
        requires lacks { lacks ≡ is_without_pec options.now.all line.now.ones (packet_in line.now.packet) }
        requires other { line.now.other ≡ other_address options.now.all line.now.ones (packet_in line.now.packet) }
        requires ones { line.now.ones ≡ ones_in options.now self.old (Ok (packet_in line.now.packet)) }
        requires time { line.now.time ≡ None }
        requires used { (lost : Bool) → used_by lost line.now.ones (packet_in line.now.packet) (judged_in line.now.shown.now) line.now.other ≡ Beside }
        ensures text { OnOk result (string_bytes text.new ++ codes "\n" ≡ string_bytes text.old
            ++ read_line options.now self.old line.now.number line.now.time (Ok (packet_in line.now.packet))) }
        ensures known { OnOk result (self.new
            ≡ known_told options.now line.now.number line.now.time line.now.ones (Ok (packet_in line.now.packet)) self.old) }
    {
        let marks = Marks::without_page(line.ones, lacks);
        self.tell_packet(options, &marks, line, text)?;
        self.pages
            .learn(line.number, None, &NOWHERE, PageUse::Beside)
    }

    // Appends the line of any packet, by what is known of the page of its address, and learns from it.
    fn tell_at_place(
        &mut self,
        options: &TellOptions,
        lacks: bool,
        line: &PacketLine<'_>,
        text: &mut String,
    ) -> Result<(), AllocError>
        requires pages { options.now.pages ≡ true }
        requires shown { judged_in line.now.shown.now ≡ judged_by options.now.all line.now.ones (packet_in line.now.packet) }
        requires lacks { lacks ≡ is_without_pec options.now.all line.now.ones (packet_in line.now.packet) }
        requires other { line.now.other ≡ other_address options.now.all line.now.ones (packet_in line.now.packet) }
        requires ones { line.now.ones ≡ ones_in options.now self.old (Ok (packet_in line.now.packet)) }
        ensures text { OnOk result (string_bytes text.new ++ codes "\n" ≡ string_bytes text.old
            ++ read_line options.now self.old line.now.number line.now.time (Ok (packet_in line.now.packet))) }
        ensures known { OnOk result (self.new
            ≡ known_told options.now line.now.number line.now.time line.now.ones (Ok (packet_in line.now.packet)) self.old) }
    {
        let lost = is_lost(&self.answers, &line.packet, line.ones);
        let step = page_step(&self.pages, options.gap, lost, line);
        let marks = Marks::of(line.ones, lacks, &step);
        self.tell_packet(options, &marks, line, text)?;
        self.pages
            .learn(line.number, step.addr, &step.place, step.used)
    }

    /// Appends a packet's line to a text, and learns what the packet teaches and orders.
    pub(crate) fn tell_packet(
        &mut self,
        options: &TellOptions,
        marks: &Marks,
        line: &PacketLine<'_>,
        text: &mut String,
    ) -> Result<(), AllocError>
        requires shown { judged_in line.now.shown.now ≡ judged_by options.now.all marks.now.ones (packet_in line.now.packet) }
        requires other { line.now.other ≡ other_address options.now.all marks.now.ones (packet_in line.now.packet) }
        requires lacks { marks.now.lacks ≡ is_without_pec options.now.all marks.now.ones (packet_in line.now.packet) }
        ensures text { OnOk result (string_bytes text.new ++ codes "\n" ≡ string_bytes text.old
            ++ told_line options.now self.old.taught (marks_with options.now self.old.words marks.now (packet_in line.now.packet)) line.now.number (time_since self.old.first line.now.time) (Ok (packet_in line.now.packet))) }
        ensures known { OnOk result (self.new ≡ record self.old {
          taught = taught_read options.now line.now.number marks.now (Ok (packet_in line.now.packet)) self.old.taught;
          beyond = beyond_by options.now self.old.taught marks.now.reached line.now.number (judged_in line.now.shown.now) self.old.beyond;
          answers = answers_read options.now marks.now.ones (Ok (packet_in line.now.packet)) self.old.answers;
          refused = if notes_comments options.now then None else self.old.refused;
          paging = paging_by options.now line.now.number (judged_in line.now.shown.now) self.old.paging;
          lacking = lacking_by options.now.all (packet_in line.now.packet) self.old.lacking;
          timed = timed_by options.now line.now.number (packet_in line.now.packet) self.old.timed;
          first = option_or self.old.first line.now.time;
          words = words_told options.now line.now.number marks.now (packet_in line.now.packet) self.old.words;
        }) }
    {
        self.tell_line(options, marks, line, text)?;
        self.hint(options, marks, line);
        self.hear_answer(options, marks, line)?;
        self.learn(options, marks, line)
    }

    // Appends a packet's line to a text, and hears its words if words that changed are shown.
    #[tactic(auto, using(crate::proofs::Shown::unchanged))]
    fn tell_line(
        &mut self,
        options: &TellOptions,
        marks: &Marks,
        line: &PacketLine<'_>,
        text: &mut String,
    ) -> Result<(), AllocError>
        requires shown { judged_in line.now.shown.now ≡ judged_by options.now.all marks.now.ones (packet_in line.now.packet) }
        requires other { line.now.other ≡ other_address options.now.all marks.now.ones (packet_in line.now.packet) }
        ensures text { OnOk result (string_bytes text.new ++ codes "\n" ≡ string_bytes text.old
            ++ told_line options.now self.old.taught (marks_with options.now self.old.words marks.now (packet_in line.now.packet)) line.now.number (time_since self.old.first line.now.time) (Ok (packet_in line.now.packet))) }
        ensures words { OnOk result (self.new ≡ record self.old {
          words = words_told options.now line.now.number marks.now (packet_in line.now.packet) self.old.words;
        }) }
    {
        if options.explain || marks.changed.is_some() {
            self.tell_changed(options, marks, line, text)
        } else {
            push_packet_line(text, options, &self.lessons, marks, self.first, line)
        }
    }

    // Appends a packet's line to a text with the mark of a word that changed, if it did, and hears its words.
    #[inline(never)]
    fn tell_changed(
        &mut self,
        options: &TellOptions,
        marks: &Marks,
        line: &PacketLine<'_>,
        text: &mut String,
    ) -> Result<(), AllocError>
        requires shown { judged_in line.now.shown.now ≡ judged_by options.now.all marks.now.ones (packet_in line.now.packet) }
        requires other { line.now.other ≡ other_address options.now.all marks.now.ones (packet_in line.now.packet) }
        ensures text { OnOk result (string_bytes text.new ++ codes "\n" ≡ string_bytes text.old
            ++ told_line options.now self.old.taught (marks_with options.now self.old.words marks.now (packet_in line.now.packet)) line.now.number (time_since self.old.first line.now.time) (Ok (packet_in line.now.packet))) }
        ensures words { OnOk result (self.new ≡ record self.old {
          words = words_told options.now line.now.number marks.now (packet_in line.now.packet) self.old.words;
        }) }
    {
        let read = self.word_read(options.explain, marks, line);
        let shown_marks = Marks {
            changed: self.words.changed(read),
            ..*marks
        };
        push_packet_line(text, options, &self.lessons, &shown_marks, self.first, line)?;
        self.hear_words(options.explain, marks, read, line)
    }

    // Takes what a packet says of hints and times, and that a refusal is over.
    #[tactic(auto, using(crate::proofs::Shown::no_time))]
    fn hint(&mut self, options: &TellOptions, marks: &Marks, line: &PacketLine<'_>)
        requires shown { judged_in line.now.shown.now ≡ judged_by options.now.all marks.now.ones (packet_in line.now.packet) }
        requires lacks { marks.now.lacks ≡ is_without_pec options.now.all marks.now.ones (packet_in line.now.packet) }
        ensures { self.new ≡ record self.old {
          beyond = beyond_by options.now self.old.taught marks.now.reached line.now.number (judged_in line.now.shown.now) self.old.beyond;
          refused = if notes_comments options.now then None else self.old.refused;
          paging = paging_by options.now line.now.number (judged_in line.now.shown.now) self.old.paging;
          lacking = lacking_by options.now.all (packet_in line.now.packet) self.old.lacking;
          timed = timed_by options.now line.now.number (packet_in line.now.packet) self.old.timed;
          first = option_or self.old.first line.now.time;
        } }
    {
        self.hint_values(options, marks, line);
        self.hint_fault(options, marks, line);
        self.end_refusal(options);
        if line.time.is_some() {
            self.first = self.first.or(line.time);
        }
    }

    // Takes what a packet says of hints if values are shown.
    fn hint_values(&mut self, options: &TellOptions, marks: &Marks, line: &PacketLine<'_>)
        ensures { self.new ≡ record self.old {
          beyond = beyond_by options.now self.old.taught marks.now.reached line.now.number (judged_in line.now.shown.now) self.old.beyond;
          paging = paging_by options.now line.now.number (judged_in line.now.shown.now) self.old.paging;
        } }
    {
        if options.values {
            self.beyond = first_beyond(options, &self.lessons, marks.reached, line, self.beyond);
            self.paging = first_paging(options, line, self.paging);
        }
    }

    // Takes what a packet says of hints that isn't good as it is.
    fn hint_fault(&mut self, options: &TellOptions, marks: &Marks, line: &PacketLine<'_>)
        requires shown { judged_in line.now.shown.now ≡ judged_by options.now.all marks.now.ones (packet_in line.now.packet) }
        requires lacks { marks.now.lacks ≡ is_without_pec options.now.all marks.now.ones (packet_in line.now.packet) }
        ensures { self.new ≡ record self.old {
          lacking = lacking_by options.now.all (packet_in line.now.packet) self.old.lacking;
          timed = timed_by options.now line.now.number (packet_in line.now.packet) self.old.timed;
        } }
    {
        if is_whole(options.all, marks, line) {
            return;
        }
        self.lacking = still_lacking(options.all, line, self.lacking);
        self.timed = first_timed(options, line.number, &line.packet, self.timed);
    }

    // A refusal is over: a packet follows it.
    fn end_refusal(&mut self, options: &TellOptions)
        ensures { self.new ≡ record self.old { refused = if notes_comments options.now then None else self.old.refused } }
    {
        if self.refused.is_some() && options.notes_comments() {
            self.refused = None;
        }
    }

    // The read of a register, if words that changed are shown.
    fn word_read(&self, explain: bool, marks: &Marks, line: &PacketLine<'_>) -> Option<WordRead>
        ensures { result ≡ (if explain then spec_word_read self.now.words marks.now line.now.other (judged_in line.now.shown.now)
            (packet_in line.now.packet) else None) }
    {
        if explain {
            self.words.read(marks, line)
        } else {
            None
        }
    }

    // Hears what a packet writes and reads of registers, if words that changed are shown.
    fn hear_words(
        &mut self,
        explain: bool,
        marks: &Marks,
        read: Option<WordRead>,
        line: &PacketLine<'_>,
    ) -> Result<(), AllocError>
        requires { explain ≡ true → read ≡ spec_word_read self.old.words marks.now line.now.other (judged_in line.now.shown.now)
            (packet_in line.now.packet) }
        ensures { OnOk result (self.new ≡ record self.old {
          words = if explain then words_heard line.now.number marks.now line.now.other
              (judged_in line.now.shown.now) (packet_in line.now.packet) self.old.words else self.old.words;
        }) }
    {
        if explain {
            self.words.hear(marks, read, line)
        } else {
            Ok(())
        }
    }

    /// A time, counted from the first one.
    pub(crate) fn since(&self, time: Option<u64>) -> Option<i128>
        ensures { result ≡ time_since self.now.first time }
    {
        since_first(self.first, time)
    }

    // Hears what a clear packet says of answers.
    fn hear_answer(
        &mut self,
        options: &TellOptions,
        marks: &Marks,
        line: &PacketLine<'_>,
    ) -> Result<(), AllocError>
        requires shown { judged_in line.now.shown.now ≡ judged_by options.now.all marks.now.ones (packet_in line.now.packet) }
        requires other { line.now.other ≡ other_address options.now.all marks.now.ones (packet_in line.now.packet) }
        requires lacks { marks.now.lacks ≡ is_without_pec options.now.all marks.now.ones (packet_in line.now.packet) }
        ensures known { OnOk result (self.new ≡ record self.old {
          answers = answers_read options.now marks.now.ones (Ok (packet_in line.now.packet)) self.old.answers;
        }) }
    {
        if !options.all && !options.pages {
            return Ok(());
        }
        if !is_received(&line.packet, marks.ones) || !is_told(line) {
            return Ok(());
        }
        if options.all {
            self.answers.hear(&line.packet, is_checked(marks, line))?;
        }
        if options.pages {
            self.answers.hear_answered(&line.packet)?;
        }
        Ok(())
    }

    // Learns what a packet teaches: a refused one teaches nothing, nor does an answer that may be nobody's, or a packet that is marked.
    fn learn(
        &mut self,
        options: &TellOptions,
        marks: &Marks,
        line: &PacketLine<'_>,
    ) -> Result<(), AllocError>
        requires shown { judged_in line.now.shown.now ≡ judged_by options.now.all marks.now.ones (packet_in line.now.packet) }
        requires other { line.now.other ≡ other_address options.now.all marks.now.ones (packet_in line.now.packet) }
        ensures known { OnOk result (self.new ≡ record self.old {
          taught = taught_read options.now line.now.number marks.now (Ok (packet_in line.now.packet)) self.old.taught;
        }) }
    {
        if options.values {
            self.see_values(marks, line)?;
        }
        if !marks.ones.is_answer() || marks.wrong.is_some() {
            return Ok(());
        }
        self.lessons.learn(line.number, marks.reached, line.shown)
    }

    // Forgets modes that a packet may have changed, and learns that its address has pages, if it shows so.
    #[tactic(auto, using(crate::proofs::Shown::none_changed))]
    fn see_values(&mut self, marks: &Marks, line: &PacketLine<'_>) -> Result<(), AllocError>
        ensures { OnOk result (self.new ≡ record self.old {
          taught = paged_if (spec_shows_pages marks.now.ones (packet_in line.now.packet)) (judged_address (judged_in line.now.shown.now))
              (changed_by line.now.number (judged_address (judged_in line.now.shown.now))
              (change_by marks.now line.now.other (judged_in line.now.shown.now) (packet_in line.now.packet)) self.old.taught);
        }) }
    {
        let addr = address_in(line.shown);
        let change = change_in(marks, line);
        if !matches!(change, ModeChange::OfNone) {
            self.lessons.forget(line.number, addr, change)?;
        }
        self.lessons.see_pages(addr, shows_pages(marks, line))
    }

    /// What the address of a packet is, if that is no part's. If it is a part's that SMBus keeps for something else, and the packet
    /// shows so, that is noted.
    pub(crate) fn special(
        &mut self,
        options: &TellOptions,
        line: &PacketLine<'_>,
    ) -> Option<Special>
        requires shown { judged_in line.now.shown.now
            ≡ parts_judged line.now.packet.write.now (option_map (λ bytes. bytes.now) line.now.packet.read) }
        requires ones { line.now.ones ≡ ones_in options.now self.old (Ok (packet_in line.now.packet)) }
        ensures special { result ≡ special_in options.now self.old (Ok (packet_in line.now.packet)) }
        ensures noted { self.new ≡ (if is_some result then self.old else part_seen options.now (Ok (packet_in line.now.packet)) self.old) }
    {
        let addr = written_to(line.packet.write)?;
        if kept_for(addr).is_none() && !options.muxes.has(addr) {
            return None;
        }
        if !options.notes_comments() {
            return None;
        }
        let answers = shows_part(options.all, line);
        let special = special_of(options, self.parts.has(addr) || answers, addr);
        if special.is_none() && answers {
            self.parts = self.parts.with(addr);
        }
        special
    }

    /// Hears a packet in this line to an address that is no part's.
    pub(crate) fn set_aside(
        &mut self,
        options: &TellOptions,
        special: Special,
        line: &PacketLine<'_>,
    )
        ensures { self.new ≡ known_aside options.now line.now.number special line.now.time (Ok (packet_in line.now.packet)) self.old }
    {
        if aside_ends_all(special, &line.packet) {
            self.lose(line.number);
        } else {
            self.words.hear_aside(line.number, line.packet.write);
        }
        self.refused = None;
        self.timed = first_timed(options, line.number, &line.packet, self.timed);
        self.first = self.first.or(line.time);
    }

    /// How a packet was received that says so.
    pub(crate) fn ones(&self, options: &TellOptions, packet: Packet<'_>, shown: &Shown<'_>) -> Ones
        requires { judged_in shown.now ≡ parts_judged packet.write.now (option_map (λ bytes. bytes.now) packet.read) }
        ensures { result ≡ ones_in options.now self.now (Ok (packet_in packet.entry)) }
    {
        match self.refused {
            None => self.answered(options.all, packet, shown),
            Some(refusal) if options.notes_comments() => Ones::Refused(refusal),
            Some(_) => Ones::Answer,
        }
    }

    // What an answer of ones is taken for, if packets without PEC are shown and it isn't good with one.
    fn answered(&self, all: bool, packet: Packet<'_>, shown: &Shown<'_>) -> Ones
        requires { judged_in shown.now ≡ parts_judged packet.write.now (option_map (λ bytes. bytes.now) packet.read) }
        ensures { result ≡ answered_as all self.now.answers (packet_in packet.entry) }
    {
        if all && !matches!(shown, Shown::Accepted { .. }) {
            self.answers.ones(&packet, shown)
        } else {
            Ones::Answer
        }
    }

    /// Appends that a transfer failed, if a comment with this number says so and that is shown.
    pub(crate) fn push_note(
        &self,
        options: &TellOptions,
        number: u64,
        note: &Note,
        text: &mut String,
    ) -> Result<(), AllocError>
        ensures { OnOk result (string_bytes text.new
            ≡ string_bytes text.old ++ noted_line options.now self.now.first number note.now.failure) }
    {
        match &note.failure {
            Some(failure) if options.explain => {
                let time = if options.times { failure.time } else { None };
                push_failed(text, options.json, number, self.since(time), failure.why)
            }
            _ => Ok(()),
        }
    }

    /// Hears a comment, with its number. Takes memory for an address that is new.
    pub(crate) fn note(
        &mut self,
        options: &TellOptions,
        number: u64,
        note: &Note,
    ) -> Result<(), AllocError>
        ensures { OnOk result (self.new ≡ known_noted options.now number note.now self.old) }
    {
        self.hear_remark(options, number, note.remark)?;
        if let Some(failure) = &note.failure {
            self.first = self.first.or(failure.time);
        }
        Ok(())
    }

    // Hears what a comment says.
    fn hear_remark(
        &mut self,
        options: &TellOptions,
        number: u64,
        remark: Remark,
    ) -> Result<(), AllocError>
        ensures { OnOk result (self.new ≡ known_remarked options.now number remark self.old) }
    {
        match remark {
            Remark::Elsewhere => Ok(()),
            Remark::Refuses(refusal) => {
                self.refused = first_refusal(self.refused, refusal);
                Ok(())
            }
            Remark::Shows(shown)
                if shown_ends_all(options, self.parts.has(shown.first / 2), &shown) => {
                self.lose(number);
                Ok(())
            }
            Remark::Shows(shown) => {
                let lost = is_lost_shown(&self.answers, &shown);
                self.note_shown(number, lost, &shown)
            }
            Remark::Loss => {
                self.lose(number);
                Ok(())
            }
        }
    }

    // Hears a comment that shows a packet; `lost` is whether nobody answered what was answered before.
    fn note_shown(&mut self, number: u64, lost: bool, shown: &ShownPacket) -> Result<(), AllocError>
        ensures { OnOk result (self.new ≡ known_shown number lost shown.now self.old) }
    {
        let addr = shown.first / 2;
        self.lessons
            .forget(number, Some(addr), shown_change(lost, shown))?;
        self.lessons.see_pages(Some(addr), shown.has_pages)?;
        self.words.hear_shown(number, lost, shown)?;
        self.pages.learn_shown(number, addr, shown_use(lost, shown))
    }

    /// The first line that ordered a voltage beyond 1000 V by the format that was given.
    pub(crate) fn beyond(&self) -> Option<u64>
        ensures { result ≡ self.now.beyond }
    {
        self.beyond
    }

    /// The first line that wrote PAGE, where values are shown and PAGE isn't followed.
    pub(crate) fn paging(&self) -> Option<u64>
        ensures { result ≡ self.now.paging }
    {
        self.paging
    }

    /// The first line that begins with its time, where lines have none.
    pub(crate) fn timed(&self) -> Option<u64>
        ensures { result ≡ self.now.timed }
    {
        self.timed
    }

    /// Whether each packet that wasn't good would have been with its PEC.
    pub(crate) fn is_lacking(&self) -> bool
        ensures { result ≡ self.now.lacking }
    {
        self.lacking
    }
}

// The first refusal before a packet.
fn first_refusal(before: Option<Refusal>, refusal: Refusal) -> Option<Refusal>
    ensures { result ≡ spec_first_refusal before refusal }
{
    match before {
        Some(before) => Some(before),
        None => Some(refusal),
    }
}

// Whether a packet with these marks is good as it is, with its PEC.
#[tactic(auto, using(crate::proofs::Shown::whole_good))]
fn is_whole(all: bool, marks: &Marks, line: &PacketLine<'_>) -> bool
    requires shown { judged_in line.now.shown.now ≡ judged_by all marks.now.ones (packet_in line.now.packet) }
    requires lacks { marks.now.lacks ≡ is_without_pec all marks.now.ones (packet_in line.now.packet) }
    ensures { result ≡ true → is_accepted (parts_judged line.now.packet.write.now (option_map (λ bytes. bytes.now) line.now.packet.read)) ≡ true }
{
    !marks.lacks && matches!(line.shown, Shown::Accepted { .. })
}

// Whether a packet is a clear answer as parts give it.
#[tactic(auto, using(crate::proofs::Shown::completed_said, crate::proofs::Shown::usual_said))]
fn shows_part(all: bool, line: &PacketLine<'_>) -> bool
    requires shown { judged_in line.now.shown.now
        ≡ parts_judged line.now.packet.write.now (option_map (λ bytes. bytes.now) line.now.packet.read) }
    ensures { result ≡ spec_shows_part all line.now.ones (packet_in line.now.packet) }
{
    if !is_received(&line.packet, line.ones) {
        return false;
    }
    match completed_if(all, line) {
        Some(part) => is_part_answer(&shown_with(line.packet.write, line.packet.is_read(), &part)),
        None => is_part_answer(line.shown),
    }
}
