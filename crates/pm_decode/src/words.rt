//! The words of registers that a capture shows being read.
ghost use Rattle.std.specs.Prelude.{◌≡◌, option_map};
ghost use Rattle.pm_trace.specs.ShownLines.{judged_in};
ghost use Rattle.pm_trace.specs.Contents.{content_in};
ghost use Rattle.pm_trace.specs.Modes.{key_of as spec_key_of};
ghost use Rattle.pm_decode.specs.ShownReadings.{packet_in};
ghost use Rattle.pm_decode.specs.Words.{content_read as spec_content_read, content_shown as spec_content_shown, differs_from as spec_differs_from, is_other_word as spec_is_other, is_other_high as spec_is_other_high, last_of, output_read as spec_output_read, read_at as spec_read_at, single as spec_single, ended_by_packet as spec_word_end, word_in_answer as spec_word_in, word_key as spec_word_key, word_read as spec_word_read};

use crate::comment::ShownPacket;
use crate::page_steps::{Marks, is_received};
use crate::told_as::{PacketLine, is_clear, is_told, shows_pages};
use crate::word_change::{WordEnd, end_by, is_change, is_watched, reaches_all, word_change};
use indexmap::IndexMap;
use pm_table::Code;
use pm_trace::{Content, Shown, key_of};
use std::alloc::{AllocError, Global};
use std::marker::Model;

/// One or two bytes that were read, the low one first.
#[derive(Clone, Copy, Debug, PartialEq, Eq)]
pub struct Word {
    pub low: u8,
    pub high: Option<u8>,
}

/// What a line said of a register's word.
#[derive(Clone, Copy, Debug)]
pub struct WordLine {
    /// Not known if it was written over.
    pub word: Option<Word>,
    pub line: u64,
}

/// A clear read of a register of an output.
#[derive(Clone, Copy, Debug)]
pub struct WordRead {
    pub addr: u8,
    /// The output; 256 for a register of the device, and of an address that has no pages.
    pub page: u16,
    pub code: u8,
    pub word: Word,
}

/// The last word that was read of each register of each output, until it may have been written. It takes memory for an output, a code
/// and an address that is new.
#[derive(Debug, Drop)]
pub struct Words {
    said: IndexMap<u32, WordLine>,
    // The last line that may have written a code of any output of an address.
    written: IndexMap<u16, u64>,
    // The last line by which all words of an address may have changed.
    changed: IndexMap<u8, u64>,
    // The addresses that have pages.
    paged: IndexMap<u8, bool>,
    // The last line in which something was lost, of nobody knows which address, or 0.
    lost: u64,
}

impl Model for Words {
    ghost use Rattle.pm_decode.specs.Words.{Words};

    ghost Value = { Words };

    ghost view = { λ w. record { said = w.said.entries; written = w.written.entries; changed = w.changed.entries; paged = w.paged.entries; lost = w.lost } };
}

impl Words {
    ghost use Rattle.std.specs.Prelude.{OnOk};
    ghost use Rattle.pm_decode.specs.Words.{changed_since, words_ended_by, is_kept as spec_is_kept, no_words, paged_by, read_said, word_said, words_aside, words_heard, words_lost, words_shown};

    /// Nothing yet. Takes no memory.
    pub fn new(alloc: Global) -> Words
        ensures { result ≡ no_words }
    {
        Words {
            said: IndexMap::new(alloc),
            written: IndexMap::new(alloc),
            changed: IndexMap::new(alloc),
            paged: IndexMap::new(alloc),
            lost: 0,
        }
    }

    /// Something was lost in this line, of nobody knows which address: no word that was read is known any more.
    pub fn lose(&mut self, line: u64)
        ensures { self.new ≡ words_lost line self.old }
    {
        self.lost = line;
    }

    /// The register and the word of a clear read, if the packet is one of an output that is known.
    pub fn read(&self, marks: &Marks, line: &PacketLine<'_>) -> Option<WordRead>
        ensures { result ≡ spec_word_read self.now marks.now line.now.other (judged_in line.now.shown.now) (packet_in line.now.packet) }
    {
        if !is_told(line) || !is_received(&line.packet, marks.ones) || marks.wrong.is_some() {
            return None;
        }
        self.content_read(line.packet.address(), marks.reached, &content_shown(line))
    }

    // The read of a packet that carries this.
    fn content_read(&self, addr: u8, reached: Option<u8>, content: &Content<'_>) -> Option<WordRead>
        ensures { result ≡ spec_content_read self.now addr reached (content_in content.now) }
    {
        if !is_watched(content.code) || !content.written.is_empty() {
            return None;
        }
        let paged = self.paged.get(&addr).is_some();
        let page = output_read(paged, reached, content.code, content.page);
        read_at(addr, content.code, page, word_in(content.answer))
    }

    /// The line of the read before, which gave another word with nothing in between that writes it.
    pub fn changed(&self, read: Option<WordRead>) -> Option<u64>
        ensures { result ≡ changed_since self.now read }
    {
        let read = read?;
        let key = word_key(read.addr, read.page, read.code);
        self.differs_from(&read, self.said.get(&key).copied())
    }

    // The line of what was said before, if that is another word.
    fn differs_from(&self, read: &WordRead, said: Option<WordLine>) -> Option<u64>
        ensures { result ≡ spec_differs_from self.now read.now said }
    {
        match said {
            Some(said) if self.is_kept(read, said.line) && is_other(said.word, read.word) => {
                Some(said.line)
            }
            _ => None,
        }
    }

    // Whether nothing may have changed a word since this line.
    fn is_kept(&self, read: &WordRead, line: u64) -> bool
        ensures { result ≡ spec_is_kept self.now read.now line }
    {
        self.lost < line && self.changed_at(read.addr) < line && self.written_at(read) < line
    }

    // The last line by which all words of an address may have changed, or 0.
    fn changed_at(&self, addr: u8) -> u64
        ensures { result ≡ last_of self.now.changed addr }
    {
        self.changed.get(&addr).copied().unwrap_or(0)
    }

    // The last line that may have written the code of a read of any output, or 0.
    fn written_at(&self, read: &WordRead) -> u64
        ensures { result ≡ last_of self.now.written (spec_key_of read.now.addr read.now.code) }
    {
        self.written
            .get(&key_of(read.addr, read.code))
            .copied()
            .unwrap_or(0)
    }

    /// Hears a packet, whose read was this: what it may write isn't known any more, and what was read is. Takes memory for an output, a
    /// code and an address that is new.
    pub fn hear(
        &mut self,
        marks: &Marks,
        read: Option<WordRead>,
        line: &PacketLine<'_>,
    ) -> Result<(), AllocError>
        requires { read ≡ spec_word_read self.old marks.now line.now.other (judged_in line.now.shown.now) (packet_in line.now.packet) }
        ensures { OnOk result (self.new ≡ words_heard line.now.number marks.now line.now.other (judged_in line.now.shown.now)
            (packet_in line.now.packet) self.old) }
    {
        let addr = line.packet.address();
        self.see_pages(addr, shows_pages(marks, line))?;
        self.end(line.number, addr, word_end(marks, line))?;
        match read {
            Some(read) => {
                let key = word_key(read.addr, read.page, read.code);
                self.say(line.number, key, Some(read.word))
            }
            None => Ok(()),
        }
    }

    /// Hears a packet that a comment of this line shows; `lost` is whether nobody answered what was answered before. Takes memory for a
    /// code and an address that is new.
    pub fn hear_shown(
        &mut self,
        line: u64,
        lost: bool,
        shown: &ShownPacket,
    ) -> Result<(), AllocError>
        ensures { OnOk result (self.new ≡ words_shown line lost shown.now self.old) }
    {
        let addr = shown.first / 2;
        self.see_pages(addr, shown.has_pages)?;
        self.end(
            line,
            addr,
            end_by(lost, reaches_all(addr), false, None, shown.changes),
        )
    }

    /// Hears the write part of a packet of this line to an address that is no part's: it may be a write to a zone.
    pub fn hear_aside(&mut self, line: u64, write: &[u8])
        ensures { self.new ≡ words_aside line write.now self.old }
    {
        let addr = write.first().copied().unwrap_or(0) / 2;
        if reaches_all(addr) && is_change(word_change(write)) {
            self.lost = line;
        }
    }

    // Learns that an address has pages, if it has.
    fn see_pages(&mut self, addr: u8, has_pages: bool) -> Result<(), AllocError>
        ensures { OnOk result (self.new ≡ paged_by addr has_pages self.old) }
    {
        if has_pages {
            self.paged.insert(addr, true)?;
        }
        Ok(())
    }

    // Takes that words of an address may have changed in this line.
    fn end(&mut self, line: u64, addr: u8, end: WordEnd) -> Result<(), AllocError>
        ensures { OnOk result (self.new ≡ words_ended_by line addr end self.old) }
    {
        match end {
            WordEnd::OfNone => {}
            WordEnd::OfOutput(page, code) => {
                self.say(line, word_key(addr, u16::from(page), code), None)?;
            }
            WordEnd::OfCode(code) => {
                self.written.insert(key_of(addr, code), line)?;
            }
            WordEnd::OfAll => {
                self.changed.insert(addr, line)?;
            }
            WordEnd::OfEach => self.lost = line,
        }
        Ok(())
    }

    // Takes the word of a register, or that it isn't known any more.
    fn say(&mut self, line: u64, key: u32, word: Option<Word>) -> Result<(), AllocError>
        ensures { OnOk result (self.new ≡ word_said line key word self.old) }
    {
        self.said.insert(key, WordLine { word, line })?;
        Ok(())
    }
}

// What a packet carries, as the command table has it or by its code and bytes.
fn content_shown<'a>(line: &PacketLine<'a>) -> Content<'a>
    ensures { content_in result ≡ spec_content_shown (judged_in line.now.shown.now) (packet_in line.now.packet) }
{
    match line.shown {
        Shown::Accepted { view, answer, .. } => Content {
            page: view.page(),
            code: view.code(),
            written: &[],
            answer: *answer,
        },
        _ => line.packet.content(line.packet.has_pec()),
    }
}

// What the packet of a line with these marks ends.
fn word_end(marks: &Marks, line: &PacketLine<'_>) -> WordEnd
    ensures { result ≡ spec_word_end marks.now line.now.other (judged_in line.now.shown.now) (packet_in line.now.packet) }
{
    end_by(
        marks.is_restart,
        reaches_all(line.packet.address()),
        is_clear(marks.ones, line),
        marks.page,
        word_change(line.packet.write),
    )
}

// The output of a read: the one that it names, or that plain packets reach.
fn output_read(paged: bool, reached: Option<u8>, code: u8, named: Option<u8>) -> Option<u16>
    ensures { result ≡ spec_output_read paged reached code named }
{
    match named {
        _ if Code(code) == Code::WRITE_PROTECT => Some(256),
        Some(page) => single(Some(page)),
        None if paged => single(reached),
        None => Some(256),
    }
}

// An output, which FFh isn't.
fn single(page: Option<u8>) -> Option<u16>
    ensures { result ≡ spec_single page }
{
    match page {
        Some(page) if page != 0xFF => Some(u16::from(page)),
        _ => None,
    }
}

// The read of a word, if the output is known.
fn read_at(addr: u8, code: u8, page: Option<u16>, word: Option<Word>) -> Option<WordRead>
    ensures { result ≡ spec_read_at addr code page word }
{
    match (page, word) {
        (Some(page), Some(word)) => Some(WordRead {
            addr,
            page,
            code,
            word,
        }),
        _ => None,
    }
}

// An answer of one or two bytes.
fn word_in(answer: Option<&[u8]>) -> Option<Word>
    ensures { result ≡ spec_word_in (option_map (λ bytes. bytes.now) answer.entry) }
{
    match answer {
        Some([low]) => Some(Word {
            low: *low,
            high: None,
        }),
        Some([low, high]) => Some(Word {
            low: *low,
            high: Some(*high),
        }),
        _ => None,
    }
}

// Whether two words of as many bytes differ.
fn is_other(before: Option<Word>, word: Word) -> bool
    ensures { result ≡ spec_is_other before word }
{
    match before {
        Some(before) => is_other_high(before.high, word.high, before.low != word.low),
        None => false,
    }
}

// Whether two words differ, of which the low bytes do or don't.
fn is_other_high(before: Option<u8>, high: Option<u8>, is_other_low: bool) -> bool
    ensures { result ≡ spec_is_other_high before high is_other_low }
{
    match (before, high) {
        (None, None) => is_other_low,
        (Some(before), Some(high)) => is_other_low || before != high,
        _ => false,
    }
}

// A code of an output.
fn word_key(addr: u8, page: u16, code: u8) -> u32
    ensures { result ≡ spec_word_key addr page code }
{
    (u32::from(addr) * 257 + u32::from(page)) * 256 + u32::from(code)
}
