//! What a frame says: its address, page, code and payload.

ghost use Rattle.std.specs.Prelude.{◌≡◌, ◌≤◌, ◌&&◌, ◌==◌, if◌then◌else◌, length};
ghost use Rattle.pm_table.specs.Commands.{payload_length};
ghost use Rattle.pm_frame.specs.Layout.{fits_layout, is_plain_write};

use crate::row::Row;
use crate::rules::Direction;
use pm_table::Code;

/// What a write carries beside its code.
#[derive(Clone, Copy, Debug, PartialEq, Eq)]
pub enum Payload {
    /// No byte.
    Empty,
    /// One byte.
    Byte(u8),
    /// Two bytes, which go over the bus low byte first.
    Word(u16),
}

impl Payload {
    ghost use Rattle.pm_frame.specs.Layout.{payload_bytes};

    /// How many bytes it has.
    pub(crate) fn len(self) -> usize
        ensures { result ≡ length (payload_bytes self) }
    {
        match self {
            Payload::Empty => 0,
            Payload::Byte(_) => 1,
            Payload::Word(_) => 2,
        }
    }
}

/// What a packet says, whatever its bytes: one variant for each of the seven layouts of SMBus and
/// PMBus 1.3 Part II that this project has. `aw` is twice the address, `ar` one more; RS is the
/// repeated start, which is no byte.
///
/// `code` is the command code, in PAGE_PLUS the one that is carried, and in COEFFICIENTS the one
/// that is asked about. `page` is any byte; whether the device has that output isn't asked here.
/// `byte`, `word` and `payload` are what is written.
#[derive(Clone, Copy, Debug, PartialEq, Eq)]
pub enum Message {
    /// SMBus send byte: a code without data.
    ///
    /// | aw | code | PEC |
    /// |----|------|-----|
    /// | B0 | 03   | 46  |
    SendByte {
        code: u8,
    },
    /// SMBus write byte.
    ///
    /// | aw | code | byte | PEC |
    /// |----|------|------|-----|
    /// | B0 | 10   | 80   | 34  |
    WriteByte {
        code: u8,
        byte: u8,
    },
    /// SMBus write word.
    ///
    /// | aw | code | low | high | PEC |
    /// |----|------|-----|------|-----|
    /// | B0 | 21   | CD  | 34   | 38  |
    WriteWord {
        code: u8,
        word: u16,
    },
    /// PAGE_PLUS_WRITE, a block write: the carried code acts on the output that the page names.
    ///
    /// | aw | 05 | count | page | code | payload | PEC |
    /// |----|----|-------|------|------|---------|-----|
    /// | B0 | 05 | 04    | 00   | 21   | CD 34   | 5A  |
    PagePlusWrite {
        page: u8,
        code: u8,
        payload: Payload,
    },
    /// SMBus read byte or read word.
    ///
    /// | aw | code | RS | ar | payload | PEC |
    /// |----|------|----|----|---------|-----|
    /// | B0 | 20   |    | B1 | 14      | ED  |
    ReadCommand {
        code: u8,
    },
    /// PAGE_PLUS_READ, a block process call: the carried code is read at the output that the page
    /// names.
    ///
    /// | aw | 06 | 02 | page | code | RS | ar | count | payload | PEC |
    /// |----|----|----|------|------|----|----|-------|---------|-----|
    /// | B0 | 06 | 02 | 00   | 21   |    | B1 | 02    | CD 34   | B9  |
    PagePlusRead {
        page: u8,
        code: u8,
    },
    /// COEFFICIENTS, a block process call: the coefficients of a code, for values written (side
    /// 00h) or read (01h).
    ///
    /// | aw | 30 | 02 | code | side | RS | ar | 05 | m, b, R        | PEC |
    /// |----|----|----|------|------|----|----|----|----------------|-----|
    /// | B0 | 30 | 02 | 21   | 00   |    | B1 | 05 | 01 00 00 00 03 | 6B  |
    ReadCoefficients {
        code: u8,
        side: u8,
    },
}

impl Message {
    ghost use Rattle.pm_frame.specs.Layout.{is_read_message, has_count, answer_length};
    ghost use Rattle.pm_frame.specs.Fault.{whole_answer};

    /// Whether it's a read, and not a write: the host sends a request, and the device answers it.
    pub fn is_read(&self) -> bool
        ensures { result ≡ is_read_message self.now }
    {
        matches!(
            self,
            Message::ReadCommand { .. }
                | Message::PagePlusRead { .. }
                | Message::ReadCoefficients { .. }
        )
    }

    /// A count stands before the payload of its answer.
    pub(crate) fn has_count(&self) -> bool
        ensures { result ≡ has_count self.now }
    {
        matches!(
            self,
            Message::PagePlusRead { .. } | Message::ReadCoefficients { .. }
        )
    }

    /// The place of the payload's first byte in the answer to this message.
    pub(crate) fn payload_place(&self) -> usize
        ensures { result ≡ (if has_count self.now then 2 else 1) }
    {
        if self.has_count() { 2 } else { 1 }
    }

    /// How many bytes of payload the answer to it has, 0 to 5: as many as its code has, 5 for
    /// COEFFICIENTS; 0 for a write, which has no answer.
    pub fn answer_length(&self) -> usize
        ensures length { result ≡ answer_length self.now }
        ensures short { result ≤ 5 }
    {
        match *self {
            Message::ReadCommand { code } => Code(code).payload_length(),
            Message::PagePlusRead { page: _, code } => Code(code).payload_length(),
            Message::ReadCoefficients { .. } => 5,
            _ => 0,
        }
    }

    /// How many bytes its whole answer has: the address, a count if there is one, the payload and the PEC. 2
    /// to 8; 2 for a write, which has no answer.
    pub fn whole_answer(&self) -> usize
        ensures length { result ≡ whole_answer self.now }
        ensures short { result ≤ 8 }
    {
        self.payload_place() + self.answer_length() + 1
    }
}

/// Whether the code of the message has this layout: it is written, or read, in a packet of this
/// kind, and has a payload of this length. PAGE_PLUS doesn't carry 00h, 05h, 06h and 30h.
/// COEFFICIENTS may be asked of any code and side.
pub fn fits(m: &Message) -> bool
    ensures { result ≡ fits_layout m.now }
{
    match *m {
        Message::SendByte { code } => is_plain(code, 0),
        Message::WriteByte { code, byte: _ } => is_plain(code, 1),
        Message::WriteWord { code, word: _ } => is_plain(code, 2),
        Message::PagePlusWrite {
            page: _,
            code,
            payload,
        } => {
            let row = Row::of(Code(code));
            row.is_carried() && row.goes(Direction::Write) && row.payload_length() == payload.len()
        }
        Message::ReadCommand { code } => Row::of(Code(code)).is_plain_read(),
        Message::PagePlusRead { page: _, code } => {
            let row = Row::of(Code(code));
            row.is_carried() && row.goes(Direction::Read)
        }
        Message::ReadCoefficients { code: _, side: _ } => true,
    }
}

// A plain packet writes the code, with this many bytes of payload.
fn is_plain(code: u8, length: usize) -> bool
    ensures { result ≡ (is_plain_write code && payload_length code == length) }
{
    let row = Row::of(Code(code));
    row.is_plain_write() && row.payload_length() == length
}
