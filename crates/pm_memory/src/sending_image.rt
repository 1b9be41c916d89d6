//! A frame to be sent, as callers in C have it.

ghost use Rattle.std.specs.Prelude.{◌≡◌, true, length, take, drop};
ghost use Rattle.pm_table.specs.Address.{IsAddress};
ghost use Rattle.pm_frame.specs.Layout.{fits_layout};
ghost use Rattle.pm_memory.specs.Sending.{IsNothing, IsSending};

use pm_frame::{Frame, Message, write_part};

/// A frame that is to be sent now, as plain numbers.
#[repr(C)]
#[derive(Clone, Copy, Debug)]
pub struct SendingImage {
    /// 0 for nothing; 1 for a write, which a stop ends; 2 for a request, which a repeated start ends.
    pub kind: u8,
    /// How many bytes it has.
    pub length: u8,
    /// For a request how many bytes a whole answer has, 3 to 8, the read address first; otherwise 0.
    pub answer: u8,
    /// No meaning.
    pub unused: u8,
    /// The bytes, the address first; after them anything.
    pub bytes: [u8; 16],
}

impl SendingImage {
    /// Nothing is to be sent.
    pub fn clear(&mut self)
        ensures { IsNothing self.new }
    {
        self.kind = 0;
        self.length = 0;
        self.answer = 0;
    }

    /// The frame of a message is to be sent.
    #[inline(always)]
    pub fn put(&mut self, address: u8, message: &Message)
        requires address { IsAddress address }
        requires fits { fits_layout message.now ≡ true }
        ensures { IsSending address message.now self.new }
    {
        let frame = write_part(address, message);
        self.length = copy_frame(&mut self.bytes, &frame);
        if message.is_read() {
            self.kind = 2;
            self.answer = message.whole_answer() as u8;
        } else {
            self.kind = 1;
            self.answer = 0;
        }
    }

    /// The request of a read by PAGE_PLUS is to be sent, to which a whole answer has so many bytes.
    pub fn put_paged(&mut self, request: &[u8; 5], answer: u8)
        ensures kind { self.new.kind ≡ 2 }
        ensures answer { self.new.answer ≡ answer }
        ensures frame { take self.new.length self.new.bytes ≡ request.now }
    {
        copy_request(&mut self.bytes, request);
        self.kind = 2;
        self.length = 5;
        self.answer = answer;
    }
}

// Copies a request to the front of the bytes.
fn copy_request(bytes: &mut [u8; 16], request: &[u8; 5])
    ensures { take 5 bytes.new ≡ request.now }
{
    bytes[..5].copy_from_slice(request);
}

// Copies a frame to the front of the bytes, and answers how many it has.
fn copy_frame(bytes: &mut [u8; 16], frame: &Frame) -> u8
    ensures length { result ≡ length frame.now.items }
    ensures copied { take result bytes.new ≡ frame.now.items }
    ensures rest { drop result bytes.new ≡ drop result bytes.old }
{
    let sent = frame.as_slice();
    match sent.len() {
        // A request and a write of a word are the usual frames: of a length that is known, a copy is one of words.
        5 => bytes[..5].copy_from_slice(sent),
        8 => bytes[..8].copy_from_slice(sent),
        count => bytes[..count].copy_from_slice(sent),
    }
    sent.len() as u8
}
