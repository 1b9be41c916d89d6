//! Comments of a capture while their bytes come.
ghost use Rattle.std.specs.Prelude.{◌≡◌, drop, take};
ghost use Rattle.std.specs.Prelude.{◌+◌, ◌*◌, ◌++◌, ◌≤◌, ◌<◌, IfSome, length, option_map};
ghost use Rattle.pm_decode.specs.Readings.{behind_colon as spec_behind_colon, behind_slash as spec_behind_slash, behind_space as spec_behind_space, bytes_shown, first_byte, are_packets_missing as spec_is_missing, is_packet_comment as spec_is_packet_comment, is_read_shown as spec_is_read_shown, is_together as spec_is_together, packet_shown as spec_packet_shown, failure_at as spec_failure_at, failure_in as spec_failure_in, note_in as spec_note_in, number_shown as spec_number_shown, refusal_by, why_in as spec_why_in, remark_in as spec_remark_in, transfer_shown as spec_transfer_shown, write_shown as spec_write_shown};

use crate::word_change::{WordChange, word_change};
use arrayvec::ArrayVec;
use pm_lines::{pair_of, without_carriage_return};
use pm_trace::{Refusal, Touch, is_paging, touch_of};
use std::marker::Model;

/// A time has at most one digit more than this.
const MOST_TIME: u64 = 100_000_000_000_000_000;

/// A packet that a comment shows, by its first bytes.
#[derive(Clone, Copy, Debug, PartialEq, Eq)]
pub struct ShownPacket {
    /// The address byte.
    pub first: u8,
    /// The code, 0 if there is none.
    pub code: u8,
    /// What it may change.
    pub touch: Touch,
    /// It shows that its part has pages.
    pub has_pages: bool,
    /// A byte follows the address.
    pub has_data: bool,
    /// It is a read that failed.
    pub is_failed_read: bool,
    /// What it may write of the words of registers.
    pub changes: WordChange,
}

/// Why a transfer failed, as Linux names it.
#[derive(Clone, Copy, Debug, PartialEq, Eq)]
pub enum Why {
    /// ENXIO and EREMOTEIO: the address, or a byte, wasn't acknowledged.
    NotAcknowledged,
    /// ETIMEDOUT.
    TimedOut,
    /// EAGAIN: another master was faster.
    LostArbitration,
    /// EBUSY.
    Busy,
    /// EIO.
    BusError,
    /// A number that none of these is, or none.
    Unsaid,
}

impl Why {
    ghost use Rattle.pm_decode.specs.Readings.{why_words};

    /// The reason in words.
    pub fn words(self) -> &'static str
        ensures { result.now ≡ why_words self }
    {
        match self {
            Why::NotAcknowledged => "not acknowledged",
            Why::TimedOut => "timed out",
            Why::LostArbitration => "lost the arbitration",
            Why::Busy => "the bus was busy",
            Why::BusError => "bus error",
            Why::Unsaid => "no reason is given",
        }
    }
}

/// A transfer that failed.
#[derive(Clone, Copy, Debug)]
pub struct Failure {
    /// Its time, in microseconds, if the comment has one.
    pub time: Option<u64>,
    pub why: Why,
}

/// What a comment says, and the transfer that it says failed.
#[derive(Clone, Copy, Debug)]
pub struct Note {
    pub remark: Remark,
    pub failure: Option<Failure>,
}

/// What a comment says, as `pmhost capture` writes them.
#[derive(Clone, Copy, Debug, PartialEq, Eq)]
pub enum Remark {
    /// Nothing, as a person's.
    Elsewhere,
    /// `# byte 3 wasn't acknowledged` stands above the packet that has the byte.
    Refuses(Refusal),
    /// `# failed (-6): B0 00 / B1` and `# no stop: B0 00 01` show a packet that failed or was cut.
    Shows(ShownPacket),
    /// Packets are missing, or a transfer is shown with parts of several devices.
    Loss,
}

/// The first bytes of a comment, as many as tell what it says.
#[derive(Debug, Drop)]
pub struct CommentHead {
    bytes: ArrayVec<u8, 64>,
}

impl Model for CommentHead {
    ghost use Rattle.std.specs.Prelude.{List, ℕ};

    ghost Value = { List ℕ };

    ghost view = { λ h. h.bytes.items };
}

impl CommentHead {
    ghost use Rattle.std.specs.Prelude.{[], length, nat_lt, not};
    ghost use Rattle.pm_decode.specs.TimedLines.{head_note, head_takes};

    /// No byte.
    pub fn new() -> CommentHead
        ensures { result ≡ [] }
    {
        CommentHead {
            bytes: ArrayVec::new(),
        }
    }

    /// Leaves no byte.
    pub fn clear(&mut self)
        ensures { self.new ≡ [] }
    {
        self.bytes.clear();
    }

    /// Takes one byte more, of which only the first ones are kept.
    pub fn take(&mut self, byte: u8)
        ensures { self.new ≡ head_takes self.old byte }
    {
        if self.bytes.len() < 64 {
            self.bytes.push(byte);
        }
    }

    /// Whether there are as many bytes as are kept.
    pub fn is_full(&self) -> bool
        ensures { result ≡ not (nat_lt (length self.now) 64) }
    {
        self.bytes.len() >= 64
    }

    /// What the comment says.
    pub fn note(&self) -> Note
        ensures { result ≡ head_note self.now }
    {
        note_in(front(without_carriage_return(&self.bytes)))
    }
}

// The first 63 bytes of a comment: one more is kept, which may be the carriage return at its end.
fn front(text: &[u8]) -> &[u8]
    ensures { result.now ≡ take 63 text.now }
{
    if text.len() < 63 { text } else { &text[..63] }
}

// What a comment with these first bytes says, and the transfer that failed.
fn note_in(text: &[u8]) -> Note
    ensures { result ≡ spec_note_in text.now }
{
    Note {
        remark: remark_in(text),
        failure: failure_in(text),
    }
}

// The transfer that a comment with these first bytes says failed.
fn failure_in(text: &[u8]) -> Option<Failure>
    ensures { result ≡ spec_failure_in text.now }
{
    if text.starts_with(b"# failed at ") {
        Some(failure_at(number_shown(MOST_TIME, 0, behind(text, 12))))
    } else if text.starts_with(b"# failed (") {
        Some(Failure {
            time: None,
            why: why_in(behind(text, 9)),
        })
    } else if text.starts_with(b"# failed: ") {
        Some(Failure {
            time: None,
            why: Why::Unsaid,
        })
    } else {
        None
    }
}

// A transfer that failed at a time, and what follows that.
fn failure_at(shown: Option<(u64, &[u8])>) -> Failure
    ensures { result ≡ spec_failure_at (option_map (λ shown. (shown.0, shown.1.now)) shown.entry) }
{
    match shown {
        Some((time, rest)) => Failure {
            time: Some(time),
            why: why_in(rest),
        },
        None => Failure {
            time: None,
            why: Why::Unsaid,
        },
    }
}

// The reason that a text begins with, as a number of Linux in parentheses.
fn why_in(text: &[u8]) -> Why
    ensures { result ≡ spec_why_in text.now }
{
    if text.starts_with(b"(-6)") || text.starts_with(b"(-121)") {
        Why::NotAcknowledged
    } else if text.starts_with(b"(-110)") {
        Why::TimedOut
    } else if text.starts_with(b"(-11)") {
        Why::LostArbitration
    } else if text.starts_with(b"(-16)") {
        Why::Busy
    } else if text.starts_with(b"(-5)") {
        Why::BusError
    } else {
        Why::Unsaid
    }
}

// What a comment with these first bytes says.
fn remark_in(text: &[u8]) -> Remark
    ensures { result ≡ spec_remark_in text.now }
{
    if text.starts_with(b"# byte ") {
        refusal_in(behind(text, 7))
    } else if is_missing(text) {
        Remark::Loss
    } else if text.starts_with(b"# failed") {
        transfer_shown(true, behind_colon(text))
    } else if is_packet_comment(text) {
        transfer_shown(false, behind_colon(text))
    } else {
        Remark::Elsewhere
    }
}

// The refusal that a text says behind `# byte `.
fn refusal_in(text: &[u8]) -> Remark
    ensures { result ≡ refusal_by (spec_number_shown 1000 0 text.now) }
{
    match number_shown(1000, 0, text) {
        Some((place, rest)) if rest.starts_with(b"wasn't acknowledged") => {
            Remark::Refuses(Refusal {
                place: place as u16,
                of_answer: false,
            })
        }
        Some((place, rest)) if rest.starts_with(b"of the answer wasn't acknowledged") => {
            Remark::Refuses(Refusal {
                place: place as u16,
                of_answer: true,
            })
        }
        _ => Remark::Elsewhere,
    }
}

// The number that a text begins with, behind these digits, and what follows the space behind it.
fn number_shown<'a>(most: u64, so_far: u64, text: &'a [u8]) -> Option<(u64, &'a [u8])>
    requires few { most ≤ MOST_TIME }
    requires so_far { so_far < 10 * most }
    ensures number { option_map (λ shown. (shown.0, shown.1.now)) result ≡ spec_number_shown most so_far text.entry.now }
    ensures few { IfSome result (λ shown. shown.0 < 10 * most) }
{
    let [byte, rest @ ..] = text else {
        return None;
    };
    if *byte == b' ' {
        return Some((so_far, rest));
    }
    if *byte < b'0' || *byte > b'9' || so_far >= most {
        return None;
    }
    number_shown(most, 10 * so_far + u64::from(*byte - b'0'), rest)
}

// Whether the comment says that packets are missing, or that a transfer had more than two parts, or a second one of another device.
fn is_missing(text: &[u8]) -> bool
    ensures { result ≡ spec_is_missing text.now }
{
    text.starts_with(b"# the kernel dropped events")
        || text.starts_with(b"# the kernel shows ")
        || text.starts_with(b"# the capture shows ")
        || text.starts_with(b"# the second part is no read")
        || behind(text, 3).starts_with(b" parts: ")
        || behind(text, 4).starts_with(b" parts: ")
}

// Whether the comment shows a transfer that was cut, is no packet, or another device's.
fn is_packet_comment(text: &[u8]) -> bool
    ensures { result ≡ spec_is_packet_comment text.now }
{
    text.starts_with(b"# no stop: ")
        || text.starts_with(b"# no result: ")
        || text.starts_with(b"# a read alone: ")
        || text.starts_with(b"# a part ")
        || text.starts_with(b"# another device: ")
}

// What follows the first colon and space.
fn behind_colon(text: &[u8]) -> &[u8]
    ensures { result.now ≡ spec_behind_colon text.now }
{
    let [byte, more @ ..] = text else {
        return &[];
    };
    let [next, rest @ ..] = more else {
        return &[];
    };
    if *byte == b':' && *next == b' ' {
        rest
    } else {
        behind_colon(more)
    }
}

// What follows the first slash between two spaces.
fn behind_slash(text: &[u8]) -> &[u8]
    ensures { result.now ≡ spec_behind_slash text.now }
{
    let [byte, more @ ..] = text else {
        return &[];
    };
    let [next, last, rest @ ..] = more else {
        return &[];
    };
    if *byte == b' ' && *next == b'/' && *last == b' ' {
        rest
    } else {
        behind_slash(more)
    }
}

// What a transfer says whose bytes begin a text.
fn transfer_shown(is_failed: bool, text: &[u8]) -> Remark
    ensures { result ≡ spec_transfer_shown is_failed text.now }
{
    let mut bytes = ArrayVec::new();
    take_bytes(&mut bytes, 6, text);
    let Some(first) = bytes.first().copied() else {
        return Remark::Elsewhere;
    };
    if is_together(first, behind_slash(text)) {
        return Remark::Loss;
    }
    write_shown(is_failed, is_read_shown(text, bytes.len()), &bytes)
}

// Appends the bytes that begin a text, at most `left`.
#[tactic(auto, using(pm_lines::specs::Lemmas::Joins::joins))]
fn take_bytes(bytes: &mut ArrayVec<u8, 6>, left: usize, text: &[u8])
    requires { length bytes.old.items + left ≤ 6 }
    ensures { bytes.new.items ≡ bytes.old.items ++ bytes_shown left text.now }
{
    if left == 0 {
        return;
    }
    let Some(byte) = byte_shown(text) else {
        return;
    };
    bytes.push(byte);
    take_bytes(bytes, left - 1, behind_space(behind(text, 2)));
}

// What follows a space.
fn behind_space(text: &[u8]) -> &[u8]
    ensures { result.now ≡ spec_behind_space text.now }
{
    match text {
        [space, rest @ ..] if *space == b' ' => rest,
        _ => &[],
    }
}

// Whether a read part follows this many bytes.
fn is_read_shown(text: &[u8], count: usize) -> bool
    requires { count ≤ 6 }
    ensures { result ≡ spec_is_read_shown text.now count }
{
    behind(text, (3 * count).saturating_sub(1)).starts_with(b" /")
}

// What a packet with these first bytes says.
fn write_shown(is_failed: bool, is_read: bool, bytes: &[u8]) -> Remark
    ensures { result ≡ spec_write_shown is_failed is_read bytes.now }
{
    let first = bytes.first().copied().unwrap_or(0);
    if first % 2 == 1 {
        Remark::Elsewhere
    } else {
        Remark::Shows(packet_shown(is_failed, is_read, bytes))
    }
}

// A packet with these first bytes.
fn packet_shown(is_failed: bool, is_read: bool, bytes: &[u8]) -> ShownPacket
    ensures { result ≡ spec_packet_shown is_failed is_read bytes.now }
{
    ShownPacket {
        first: bytes.first().copied().unwrap_or(0),
        code: bytes.get(1).copied().unwrap_or(0),
        touch: touch_of(bytes, is_read),
        has_pages: is_paging(bytes, false),
        has_data: bytes.len() >= 2,
        changes: word_change(bytes),
        is_failed_read: is_failed && is_read && bytes.len() >= 2,
    }
}

// Whether a part of another device follows, which begins a text, or a third part.
fn is_together(first: u8, rest: &[u8]) -> bool
    ensures { result ≡ spec_is_together first rest.now }
{
    match byte_shown(rest) {
        Some(second) => second / 2 != first / 2
            || second % 2 == 0
            || byte_shown(behind_slash(rest)).is_some(),
        None => false,
    }
}

// What follows so many bytes.
#[tactic(auto, using(std::proofs::lemmas::List::drop_all))]
fn behind(bytes: &[u8], count: usize) -> &[u8]
    ensures { result.now ≡ drop count bytes.now }
{
    if bytes.len() < count {
        &[]
    } else {
        &bytes[count..]
    }
}

// The byte that a text begins with.
fn byte_shown(bytes: &[u8]) -> Option<u8>
    ensures { result ≡ first_byte bytes.now }
{
    match bytes {
        [high, low, ..] => pair_of(*high, *low),
        _ => None,
    }
}
