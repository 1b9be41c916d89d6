//! What a line of a trace is by its first bytes.

ghost use Rattle.std.specs.Prelude.{◌≡◌};
ghost use Rattle.pm_trace.specs.OpenLines.{begins_with_pair as spec_begins_with_pair};

use pm_lines::pair_of;

/// What a line of a trace is by its first bytes.
#[derive(Clone, Copy, Debug)]
pub(crate) enum LineKind {
    /// It has no byte.
    Empty,
    /// It has nothing but spaces.
    Blank,
    /// Its first byte is `#`.
    Comment,
    /// It says something of a packet: it isn't skipped.
    Packet,
}

impl LineKind {
    ghost use Rattle.pm_trace.specs.OpenLines.{kind_takes, is_skipped_kind, takes_pairs};

    /// The kind of the line with one byte more.
    pub(crate) fn with(self, byte: u8) -> LineKind
        ensures { result ≡ kind_takes self byte }
    {
        match (self, byte) {
            (LineKind::Empty, b'#') => LineKind::Comment,
            (LineKind::Empty | LineKind::Blank, b' ') => LineKind::Blank,
            (LineKind::Comment, _) => LineKind::Comment,
            _ => LineKind::Packet,
        }
    }

    /// Whether a line of this kind is skipped.
    pub(crate) fn is_skipped(self) -> bool
        ensures { result ≡ is_skipped_kind self }
    {
        !matches!(self, LineKind::Packet)
    }

    /// Whether these bytes begin with pairs of digits, which change nothing but the part that goes on and the
    /// kind, in a line of this kind in which no digit waits for another.
    pub(crate) fn takes_pairs(self, bytes: &[u8]) -> bool
        ensures { result ≡ takes_pairs self bytes.now }
    {
        match self {
            LineKind::Packet => true,
            LineKind::Comment => false,
            LineKind::Empty | LineKind::Blank => begins_with_pair(bytes),
        }
    }
}

// Whether two digits stand first.
fn begins_with_pair(bytes: &[u8]) -> bool
    ensures { result ≡ spec_begins_with_pair bytes.now }
{
    match bytes {
        [high, low, ..] => pair_of(*high, *low).is_some(),
        _ => false,
    }
}
