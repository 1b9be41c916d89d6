//! The bytes of a packet that was read without a fault.

ghost use Rattle.std.specs.Prelude.{◌≡◌};
ghost use Rattle.pm_frame.specs.Whole.{IsWhole};
ghost use Rattle.pm_frame.specs.View.{message_in, message_page, message_code, message_payload, payload_in, plain_write as spec_plain_write};

use crate::message::{Message, Payload};
use crate::places::{CARRIED, CARRIED_PAYLOAD, CODE, PAGE, PAYLOAD};
use pm_table::Code;
use std::marker::Model;

/// The bytes of a packet that was read without a fault, borrowed from the caller: a write, or the
/// request of a read. A clause sees it as the message that the bytes are.
#[derive(Clone, Debug, Drop)]
pub struct FrameView<'a> {
    bytes: &'a [u8],
}

impl<'a> Model for FrameView<'a> {
    ghost use Rattle.pm_frame.specs.declared.message.Message.{Message};
    ghost use Rattle.pm_frame.specs.View.{message_in};
    ghost use Rattle.pm_frame.specs.Whole.{IsWhole};

    ghost Value = { Message };

    ghost view = { λ v. message_in v.bytes.now };

    ghost invariant = { λ v. IsWhole v.bytes.now };
}

impl<'a> FrameView<'a> {
    /// A view of bytes that are as many as a packet has.
    pub(crate) fn new(bytes: &'a [u8]) -> FrameView<'a>
        requires { IsWhole bytes.now }
        ensures { result ≡ message_in bytes.entry.now }
    {
        FrameView { bytes }
    }
}

impl FrameView<'_> {
    /// The page that PAGE_PLUS_WRITE or PAGE_PLUS_READ names; `None` for every other packet.
    #[tactic(auto, unfolding(crate::specs::View::message_in))]
    pub fn page(&self) -> Option<u8>
        ensures { result ≡ message_page self.now }
    {
        match Code(self.bytes[CODE]) {
            Code::PAGE_PLUS_WRITE | Code::PAGE_PLUS_READ => Some(self.bytes[PAGE]),
            _ => None,
        }
    }

    /// The code that is meant: the one that PAGE_PLUS carries, otherwise the packet's own. It is 30h if
    /// coefficients are read; the code whose coefficients they are is in the message.
    #[tactic(auto, unfolding(crate::specs::View::message_in))]
    pub fn code(&self) -> u8
        ensures { result ≡ message_code self.now }
    {
        match Code(self.bytes[CODE]) {
            Code::PAGE_PLUS_WRITE | Code::PAGE_PLUS_READ => self.bytes[CARRIED],
            Code(code) => code,
        }
    }

    /// The payload of a write, 0 to 2 bytes, a word low byte first; no byte for a request, but the code and
    /// the side if coefficients are read.
    #[tactic(auto, unfolding(crate::specs::View::message_in))]
    pub fn payload(&self) -> &[u8]
        ensures { result.now ≡ message_payload self.now }
    {
        let length = self.bytes.len();
        match Code(self.bytes[CODE]) {
            Code::PAGE_PLUS_WRITE => &self.bytes[CARRIED_PAYLOAD..length - 1],
            Code::PAGE_PLUS_READ => &[],
            Code::COEFFICIENTS => &self.bytes[PAGE..],
            _ if length == 2 => &[],
            _ => &self.bytes[PAYLOAD..length - 1],
        }
    }

    /// The whole meaning of the packet.
    #[tactic(auto, unfolding(crate::specs::View::message_in))]
    pub fn message(&self) -> Message
        ensures { result ≡ self.now }
    {
        match Code(self.bytes[CODE]) {
            Code::PAGE_PLUS_WRITE => Message::PagePlusWrite {
                page: self.bytes[PAGE],
                code: self.bytes[CARRIED],
                payload: payload_of(&self.bytes[CARRIED_PAYLOAD..self.bytes.len() - 1]),
            },
            Code::PAGE_PLUS_READ => Message::PagePlusRead {
                page: self.bytes[PAGE],
                code: self.bytes[CARRIED],
            },
            Code::COEFFICIENTS => Message::ReadCoefficients {
                code: self.bytes[PAGE],
                side: self.bytes[CARRIED],
            },
            Code(code) if self.bytes.len() == 2 => Message::ReadCommand { code },
            Code(code) => plain_write(code, &self.bytes[PAYLOAD..self.bytes.len() - 1]),
        }
    }
}

// The payload that these bytes are.
fn payload_of(bytes: &[u8]) -> Payload
    ensures { result ≡ payload_in bytes.now }
{
    match bytes {
        [] => Payload::Empty,
        [byte] => Payload::Byte(*byte),
        [low, high, ..] => Payload::Word(u16::from_le_bytes([*low, *high])),
    }
}

// The plain packet that writes these bytes.
fn plain_write(code: u8, payload: &[u8]) -> Message
    ensures { result ≡ spec_plain_write code (payload_in payload.now) }
{
    match payload_of(payload) {
        Payload::Empty => Message::SendByte { code },
        Payload::Byte(byte) => Message::WriteByte { code, byte },
        Payload::Word(word) => Message::WriteWord { code, word },
    }
}
