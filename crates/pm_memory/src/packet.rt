//! Packets without a host: their packet error code, their bytes and what bytes say.

ghost use Rattle.std.specs.Prelude.{◌≡◌, Some};
ghost use Rattle.pm_memory.specs.Packets.{packet_message, payload_of_numbers};

use pm_frame::{Message, Payload};

/// What a packet says.
#[repr(C)]
#[derive(Clone, Copy, Debug)]
pub struct PacketImage {
    /// 1 send byte, 2 write byte, 3 write word, 4 PAGE_PLUS_WRITE, 5 read byte or word, 6
    /// PAGE_PLUS_READ, 7 COEFFICIENTS.
    pub kind: u8,
    /// The page, for 4 and 6; the side, for 7.
    pub page: u8,
    /// The command code; in PAGE_PLUS the one that is carried, in COEFFICIENTS the one asked about.
    pub code: u8,
    /// How many bytes PAGE_PLUS_WRITE carries, 0 to 2.
    pub count: u8,
    /// What is written, a byte as a word below 256.
    pub word: u16,
}

impl PacketImage {
    /// The message; `None` if the numbers mean none.
    pub fn message(&self) -> Option<Message>
        ensures { result ≡ packet_message self.now }
    {
        let (code, page) = (self.code, self.page);
        match self.kind {
            1 => Some(Message::SendByte { code }),
            2 => match u8::try_from(self.word) {
                Ok(byte) => Some(Message::WriteByte { code, byte }),
                Err(_) => None,
            },
            3 => Some(Message::WriteWord {
                code,
                word: self.word,
            }),
            4 => match payload(self.count, self.word) {
                Some(payload) => Some(Message::PagePlusWrite {
                    page,
                    code,
                    payload,
                }),
                None => None,
            },
            5 => Some(Message::ReadCommand { code }),
            6 => Some(Message::PagePlusRead { page, code }),
            7 => Some(Message::ReadCoefficients { code, side: page }),
            _ => None,
        }
    }
}

// What a write of this many bytes carries.
fn payload(count: u8, word: u16) -> Option<Payload>
    ensures { result ≡ payload_of_numbers count word }
{
    match count {
        0 => Some(Payload::Empty),
        1 => match u8::try_from(word) {
            Ok(byte) => Some(Payload::Byte(byte)),
            Err(_) => None,
        },
        2 => Some(Payload::Word(word)),
        _ => None,
    }
}

/// The packet of a message.
pub fn packet_of(message: Message) -> PacketImage
    ensures { packet_message result ≡ Some message }
{
    let (kind, page, code, count, word) = match message {
        Message::SendByte { code } => (1, 0, code, 0, 0),
        Message::WriteByte { code, byte } => (2, 0, code, 1, u16::from(byte)),
        Message::WriteWord { code, word } => (3, 0, code, 2, word),
        Message::PagePlusWrite {
            page,
            code,
            payload: Payload::Empty,
        } => (4, page, code, 0, 0),
        Message::PagePlusWrite {
            page,
            code,
            payload: Payload::Byte(byte),
        } => (4, page, code, 1, u16::from(byte)),
        Message::PagePlusWrite {
            page,
            code,
            payload: Payload::Word(word),
        } => (4, page, code, 2, word),
        Message::ReadCommand { code } => (5, 0, code, 0, 0),
        Message::PagePlusRead { page, code } => (6, page, code, 0, 0),
        Message::ReadCoefficients { code, side } => (7, side, code, 0, 0),
    };
    PacketImage {
        kind,
        page,
        code,
        count,
        word,
    }
}
