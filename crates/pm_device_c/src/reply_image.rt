//! The answer of a part, as C has it.

ghost use Rattle.std.specs.Prelude.{◌≡◌, length, take, drop};
ghost use Rattle.pm_device_c.specs.Part.{HasReply, frame_number};
ghost use Rattle.pm_device_c.specs.Numbers.{heard_number};

use crate::numbers::{ANSWERED, SILENT, TAKEN};
use pm_device::{DeviceFault, Heard};
use pm_frame::Frame;

/// What a part answers to a request, as plain numbers.
#[repr(C)]
#[derive(Clone, Copy, Debug)]
pub struct ReplyImage {
    /// How many bytes it has, the read address first; 0 if there is no answer.
    pub length: u8,
    /// The fault of the frame after K1: 32h to 35h, F2 to F5. 0 if the frame isn't refused by K1.
    pub frame_fault: u8,
    /// The bytes; after them what stood there before.
    pub bytes: [u8; 16],
}

impl ReplyImage {
    /// Takes what a part made of a frame: its bytes, if it has any, and the fault of a frame that is refused by K1. Answers
    /// its number.
    pub(crate) fn give(&mut self, heard: Heard) -> u8
        ensures number { result ≡ heard_number heard }
        ensures reply { HasReply heard self.old self.new }
    {
        self.length = 0;
        self.frame_fault = 0;
        match heard {
            Heard::Silent => SILENT,
            Heard::Taken => TAKEN,
            Heard::Answer(frame) => {
                self.length = copy_frame(&mut self.bytes, &frame);
                ANSWERED
            }
            Heard::Refused(fault) => {
                self.frame_fault = frame_number(fault);
                fault.number()
            }
        }
    }
}

// The number of the frame's fault, 0 of every other.
fn frame_number(fault: DeviceFault) -> u8
    ensures { result ≡ frame_number fault }
{
    match fault {
        DeviceFault::Frame(frame) => frame.number(),
        _ => 0,
    }
}

// Copies a frame to the front of the bytes, and answers how many it has.
fn copy_frame(bytes: &mut [u8; 16], frame: &Frame) -> u8
    ensures length { result ≡ length frame.now.items }
    ensures copied { take result bytes.new ≡ frame.now.items }
    ensures rest { drop result bytes.new ≡ drop result bytes.old }
{
    let count = frame.len();
    bytes[..count].copy_from_slice(frame.as_slice());
    count as u8
}
