//! A line of a capture while its bytes come.
ghost use Rattle.std.specs.Prelude.{◌≡◌};
ghost use Rattle.pm_decode.specs.Readings.{time_in as spec_time_in};

use crate::comment::{CommentHead, Note};
use pm_lines::{read_i64, without_carriage_return};
use pm_trace::{LineFault, LinePart, OpenLine, Packet};

/// What is kept of a line while its bytes come one after another: the word that is the packet's time, if lines
/// have one, the packet, and the beginning of a comment.
#[derive(Debug, Drop)]
pub struct TimedLine {
    // Lines begin with a time.
    times: bool,
    // The first byte is `#`.
    has_mark: bool,
    // There is a byte.
    is_begun: bool,
    // Bytes are the packet's own: lines have no time, or a space ended the word.
    is_over: bool,
    // What a comment begins with.
    head: CommentHead,
    // The first word, if lines begin with a time.
    word: LinePart,
    // The packet, with the space before it.
    packet: OpenLine,
}

/// What a line reads as: the time, if lines have one, and the packet's bytes.
#[derive(Clone, Copy)]
pub struct LineReading<'a> {
    pub time: Option<u64>,
    pub packet: Result<Packet<'a>, LineFault>,
}

impl TimedLine {
    ghost use Rattle.std.specs.Prelude.{[], ◌==◌, None, if◌then◌else◌, true};
    ghost use Rattle.pm_trace.specs.OpenLines.{open_read};
    ghost use Rattle.pm_trace.specs.OpenLines.{IsAtLineFeed};
    ghost use Rattle.pm_decode.specs.ShownReadings.{parts_in, reading_in_line};
    ghost use Rattle.pm_decode.specs.TimedLines.{PassesTimed, line_begun_with, head_note, is_comment_full, skips_timed, timed_of, timed_read, timed_takes, word_ended};

    /// A line without bytes.
    #[tactic(auto, unfolding(crate::specs::TimedLines::timed_of))]
    pub fn new(times: bool) -> TimedLine
        ensures { result ≡ timed_of times [] }
    {
        TimedLine {
            times,
            has_mark: false,
            is_begun: false,
            is_over: !times,
            head: CommentHead::new(),
            word: LinePart::new(),
            packet: OpenLine::new(),
        }
    }

    /// Leaves no byte.
    #[tactic(auto, unfolding(crate::specs::TimedLines::timed_of))]
    pub fn clear(&mut self)
        ensures { self.new ≡ timed_of self.old.times [] }
    {
        self.has_mark = false;
        self.is_begun = false;
        self.is_over = !self.times;
        self.head.clear();
        self.word.clear();
        self.packet.clear();
    }

    /// Takes further bytes up to the first line feed, and gives what is left: nothing, or what begins
    /// with that line feed.
    #[tactic(auto, using(crate::specs::Lemmas::TimedLines::passes_none))]
    pub fn take_line<'a>(&mut self, bytes: &'a [u8]) -> &'a [u8]
        ensures passes { PassesTimed self.old bytes.entry.now result.now self.new }
        ensures stops { IsAtLineFeed result.now }
    {
        let mut rest = bytes;
        'bytes: loop {
            rest = self.take_packet(self.take_comment(rest));
            let [first, more @ ..] = rest else {
                return rest;
            };
            if *first == b'\n' {
                return rest;
            }
            self.take(*first);
            rest = more;
        }
    }

    // Takes at once what is all the packet's own, up to the first line feed, and gives what is left.
    #[tactic(auto, using(crate::specs::Lemmas::TimedLines::passes_none, crate::specs::Lemmas::TimedLines::passes_packet))]
    fn take_packet<'a>(&mut self, bytes: &'a [u8]) -> &'a [u8]
        ensures { PassesTimed self.old bytes.entry.now result.now self.new }
    {
        if !self.is_over {
            return bytes;
        }
        let [first, ..] = bytes else {
            return bytes;
        };
        if *first == b'\n' {
            return bytes;
        }
        if self.is_marked_with(*first) {
            return bytes;
        }
        self.begin(*first);
        self.packet.take_line(bytes)
    }

    // Takes at once what a comment has after the first bytes, up to the first line feed, and gives what is left.
    #[tactic(auto, using(crate::specs::Lemmas::TimedLines::passes_none))]
    fn take_comment<'a>(&self, bytes: &'a [u8]) -> &'a [u8]
        ensures { PassesTimed self.now bytes.entry.now result.now self.now }
    {
        if self.is_told() {
            self.pass_over(bytes)
        } else {
            bytes
        }
    }

    // Takes bytes that say nothing more, up to the first line feed, and gives what is left.
    #[tactic(auto, using(crate::specs::Lemmas::TimedLines::passes_none))]
    fn pass_over<'a>(&self, bytes: &'a [u8]) -> &'a [u8]
        requires { is_comment_full self.now ≡ true }
        ensures { PassesTimed self.now bytes.entry.now result.now self.now }
    {
        let mut rest = bytes;
        'bytes: loop {
            let [first, more @ ..] = rest else {
                return rest;
            };
            if *first == b'\n' {
                return rest;
            }
            rest = more;
        }
    }

    // Whether further bytes say nothing more: the line is a comment, and its first bytes are kept.
    fn is_told(&self) -> bool
        ensures { result ≡ is_comment_full self.now }
    {
        self.is_begun && self.has_mark && self.head.is_full()
    }

    // Takes one byte more.
    #[tactic(auto, unfolding(crate::specs::TimedLines::timed_takes))]
    fn take(&mut self, byte: u8)
        ensures { self.new ≡ timed_takes self.old byte }
    {
        let goes_on = self.is_begun && self.has_mark;
        self.begin(byte);
        if self.has_mark {
            self.head.take(byte);
        }
        if goes_on {
            return;
        }
        if byte == b' ' && !self.word.bytes().is_empty() {
            self.is_over = true;
        }
        if self.is_over {
            self.packet.take(byte);
        } else if byte != b' ' {
            self.word.take(byte);
        }
    }

    // Whether the line's first byte is `#`, with this byte more.
    fn is_marked_with(&self, byte: u8) -> bool
        ensures { result ≡ (if self.now.is_begun then self.now.has_mark else byte == 35) }
    {
        if self.is_begun {
            self.has_mark
        } else {
            byte == b'#'
        }
    }

    // Notes that the line has a byte, of which this is the first one if it had none.
    fn begin(&mut self, byte: u8)
        ensures { self.new ≡ line_begun_with self.old byte }
    {
        self.has_mark = self.is_marked_with(byte);
        self.is_begun = true;
    }

    /// Whether the line is a comment.
    pub fn is_comment(&self) -> bool
        ensures { result ≡ self.now.has_mark }
    {
        self.has_mark
    }

    /// What a comment says.
    pub fn note(&self) -> Note
        ensures { result ≡ head_note self.now.head }
    {
        self.head.note()
    }

    /// Whether the line is skipped, if it ends here.
    pub fn is_skipped(&self) -> bool
        ensures { result ≡ skips_timed self.now }
    {
        if self.has_mark {
            return true;
        }
        if self.times {
            self.word_ended().is_empty()
        } else {
            self.packet.is_skipped()
        }
    }

    // The word, if the line ends here: a carriage return at its end is no part of it.
    fn word_ended(&self) -> &[u8]
        ensures { result.now ≡ word_ended self.now }
    {
        let word = self.word.bytes();
        if self.is_over {
            word
        } else {
            without_carriage_return(word)
        }
    }

    /// What the line reads as, if it ends here.
    pub fn reading(&self) -> LineReading<'_>
        ensures { reading_in_line result ≡ timed_read self.now }
    {
        if !self.times {
            return LineReading {
                time: None,
                packet: self.packet(),
            };
        }
        match self.time() {
            None => LineReading {
                time: None,
                packet: Err(LineFault::Syntax),
            },
            time => LineReading {
                time,
                packet: self.packet(),
            },
        }
    }

    // The time that the word is.
    fn time(&self) -> Option<u64>
        ensures { result ≡ (if self.now.word.is_long then None else spec_time_in (word_ended self.now)) }
    {
        if self.word.is_long() {
            return None;
        }
        time_in(self.word_ended())
    }

    // The packet's bytes.
    fn packet(&self) -> Result<Packet<'_>, LineFault>
        ensures { parts_in result ≡ open_read self.now.packet }
    {
        match self.packet.parts() {
            Ok((write, read)) => Ok(Packet { write, read }),
            Err(fault) => Err(fault),
        }
    }

    /// Whether the line has a byte.
    pub fn is_begun(&self) -> bool
        ensures { result ≡ self.now.is_begun }
    {
        self.is_begun
    }
}

// The time that a word is: one to eighteen decimal digits, microseconds.
fn time_in(word: &[u8]) -> Option<u64>
    ensures { result ≡ spec_time_in word.now }
{
    if word.len() > 18 || word.starts_with(b"-") {
        return None;
    }
    let time = read_i64(word)?;
    if time < 0 { None } else { Some(time as u64) }
}
