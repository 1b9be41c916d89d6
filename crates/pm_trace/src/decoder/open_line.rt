//! What is kept of a line while its bytes come.

ghost use Rattle.std.specs.Prelude.{◌≡◌};

use crate::decoder::line_kind::LineKind;
use crate::decoder::line_part::LinePart;
use crate::decoder::slashes::Slashes;
use crate::line_fault::LineFault;
use crate::shown::{Shown, packet_shown};
use pm_lines::{byte_of, is_digit};

/// What is kept of a line of a trace while its bytes come one after another.
#[derive(Debug, Drop)]
pub struct OpenLine {
    // What it is by its first bytes.
    kind: LineKind,
    // The bytes before the first slash, and after it.
    write: LinePart,
    read: LinePart,
    // The last digit, if it has no other to make a byte with yet.
    digit: Option<u8>,
    slashes: Slashes,
    // A word isn't hexadecimal: one that ended, or the one that goes on by its bytes so far.
    is_bad: bool,
    // A carriage return is held back that may be the line's last byte: it is no part of a line that
    // ends after it.
    is_returned: bool,
}

impl OpenLine {
    ghost use Rattle.std.specs.Prelude.{[], option_map, IfOk, IfErr, IfSome, Ok, Err, Some};
    ghost use Rattle.pm_trace.specs.OpenLines.{open_line_of, line_takes, plain_takes, word_ends, word_goes_on, part_with_byte, is_begun};
    ghost use Rattle.pm_trace.specs.OpenLines.{is_skipped_kind, open_read, open_told, Passes, IsAtLineFeed};
    ghost use Rattle.pm_trace.specs.ShownLines.{judged_in};
    ghost use Rattle.pm_trace.specs.Trace.{line_read};

    /// A line without bytes.
    #[tactic(auto, unfolding(crate::specs::OpenLines::open_line_of, crate::specs::OpenLines::plain_line))]
    pub fn new() -> OpenLine
        ensures { result ≡ open_line_of [] }
    {
        OpenLine {
            kind: LineKind::Empty,
            write: LinePart::new(),
            read: LinePart::new(),
            digit: None,
            slashes: Slashes::None,
            is_bad: false,
            is_returned: false,
        }
    }

    /// A line of these bytes, each of which counts.
    #[tactic(auto, using(crate::specs::Lemmas::OpenLines::empty_line_is_plain))]
    pub(crate) fn of(line: &[u8]) -> OpenLine
        ensures { open_read result ≡ line_read line.now }
    {
        let mut open = OpenLine::new();
        for byte in line {
            open.take_plain(*byte);
        }
        open
    }

    /// Leaves no byte.
    #[tactic(auto, unfolding(crate::specs::OpenLines::open_line_of, crate::specs::OpenLines::plain_line))]
    pub fn clear(&mut self)
        ensures { self.new ≡ open_line_of [] }
    {
        self.kind = LineKind::Empty;
        self.write.clear();
        self.read.clear();
        self.digit = None;
        self.slashes = Slashes::None;
        self.is_bad = false;
        self.is_returned = false;
    }

    /// Takes further bytes up to the first line feed, and gives what is left: nothing, or what
    /// begins with that line feed.
    #[tactic(auto, using(crate::proofs::Pieces::passes_none))]
    pub fn take_line<'a>(&mut self, bytes: &'a [u8]) -> &'a [u8]
        ensures passes { Passes self.old bytes.entry.now result.now self.new }
        ensures stops { IsAtLineFeed result.now }
    {
        let mut rest = bytes;
        'bytes: loop {
            rest = self.take_pairs(rest);
            let [first, more @ ..] = rest else {
                return rest;
            };
            if *first == b'\n' {
                return rest;
            }
            self.take(*first);
            rest = more;
        }
    }

    // Takes at once what most lines have most of, pairs of digits with spaces between them, if they change
    // nothing but the part that goes on and the kind. Gives what is left.
    #[tactic(auto, using(crate::proofs::Pieces::passes_none))]
    fn take_pairs<'a>(&mut self, bytes: &'a [u8]) -> &'a [u8]
        ensures { Passes self.old bytes.entry.now result.now self.new }
    {
        if self.is_returned || self.digit.is_some() || !self.kind.takes_pairs(bytes) {
            return bytes;
        }
        self.kind = LineKind::Packet;
        match self.slashes {
            Slashes::None => self.write.take_pairs(bytes),
            Slashes::One | Slashes::More => self.read.take_pairs(bytes),
        }
    }

    /// Takes one byte more, which is no line feed.
    #[inline(always)]
    #[tactic(auto, unfolding(crate::specs::OpenLines::line_takes))]
    pub fn take(&mut self, byte: u8)
        ensures { self.new ≡ line_takes self.old byte }
    {
        if self.is_returned {
            self.is_returned = false;
            self.take_plain(b'\r');
        }
        if byte == b'\r' {
            self.is_returned = true;
        } else {
            self.take_plain(byte);
        }
    }

    // Takes one byte more, which counts.
    #[tactic(auto, unfolding(crate::specs::OpenLines::plain_takes))]
    fn take_plain(&mut self, byte: u8)
        ensures { self.new ≡ plain_takes self.old byte }
    {
        if byte == b' ' || byte == b'/' {
            self.end_word(byte);
        } else {
            self.go_on(byte);
        }
    }

    // Takes a space or a slash, which ends the word.
    fn end_word(&mut self, byte: u8)
        ensures { self.new ≡ word_ends self.old byte }
    {
        self.kind = self.kind.with(byte);
        self.is_bad = self.is_bad || self.digit.is_some();
        self.digit = None;
        if byte == b'/' {
            self.slashes = self.slashes.more();
        }
    }

    // Takes another byte, with which the word goes on.
    fn go_on(&mut self, byte: u8)
        ensures { self.new ≡ word_goes_on self.old byte }
    {
        self.kind = self.kind.with(byte);
        self.is_bad = self.is_bad || !is_digit(byte);
        match self.digit {
            None => self.digit = Some(byte),
            Some(high) => {
                self.digit = None;
                self.take_byte(byte_of(high, byte));
            }
        }
    }

    // Takes a byte that two digits wrote, for the part that goes on.
    fn take_byte(&mut self, byte: u8)
        ensures { self.new ≡ part_with_byte self.old byte }
    {
        match self.slashes {
            Slashes::None => self.write.take(byte),
            Slashes::One | Slashes::More => self.read.take(byte),
        }
    }

    /// The write part and the read part of the line as it stands.
    #[tactic(auto, unfolding(crate::specs::OpenLines::open_read))]
    pub fn parts(&self) -> Result<(&[u8], Option<&[u8]>), LineFault>
        ensures parts { IfOk result (λ parts. open_read self.now ≡ Ok (record {
          write = parts.0.now;
          read = option_map (λ read. read.now) parts.1;
        })) }
        ensures fault { IfErr result (λ fault. open_read self.now ≡ Err fault) }
    {
        if self.is_bad || self.digit.is_some() {
            return Err(LineFault::BadHex);
        }
        if self.write.is_long() || self.read.is_long() {
            return Err(LineFault::Syntax);
        }
        match self.slashes {
            Slashes::None => Ok((self.write.bytes(), None)),
            Slashes::One => Ok((self.write.bytes(), Some(self.read.bytes()))),
            Slashes::More => Err(LineFault::Syntax),
        }
    }

    /// What the line says as it stands, if it isn't skipped.
    pub(crate) fn shown(&self) -> Option<Shown<'_>>
        ensures { option_map judged_in result ≡ open_told self.now }
    {
        if self.kind.is_skipped() {
            return None;
        }
        Some(match self.parts() {
            Ok((write, read)) => packet_shown(write, read),
            Err(LineFault::Syntax) => Shown::BadSyntax,
            Err(LineFault::BadHex) => Shown::BadHex,
        })
    }

    /// Whether the line is skipped, as it stands: it has no byte, nothing but spaces, or `#` first.
    pub fn is_skipped(&self) -> bool
        ensures { result ≡ is_skipped_kind self.now.kind }
    {
        self.kind.is_skipped()
    }

    /// Whether the line has a byte.
    pub fn is_begun(&self) -> bool
        ensures { result ≡ is_begun self.now }
    {
        !matches!(self.kind, LineKind::Empty) || self.is_returned
    }
}
