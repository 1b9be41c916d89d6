//! What a converter answers, in words. Nothing here takes memory: the longest answer has at most 151 bytes.
ghost use Rattle.std.specs.Prelude.{◌≡◌, ◌≤◌, ◌++◌, length};
ghost use Rattle.arrayvec.specs.ArrayVec.{array_vec_len};
ghost use Rattle.pm_device.specs.FaultWords.{device_fault_text, device_fault_words};
ghost use Rattle.pm_frame.specs.FaultWords.{frame_fault_text, frame_fault_words};
ghost use Rattle.pm_tool.specs.HeardText.{reply_words};

use super::answer_text::{AnswerText, push_spaced_bytes, push_text};
use pm_device::{DeviceFault, Heard};
use pm_frame::FrameFault;

/// The word for a write that was taken.
pub const TAKEN: &str = "taken";

/// Appends what a converter answered to a frame to a text that is empty: `taken`, `silent`, `answer` and the bytes in
/// hexadecimal, or `refused` and why.
#[tactic(auto, using(pm_lines::specs::Lemmas::Joins::joins))]
pub fn push_heard(text: &mut AnswerText, heard: &Heard)
    requires { array_vec_len text.old ≡ 0 }
    ensures words { text.new.items ≡ text.old.items ++ reply_words heard.now }
    ensures room { array_vec_len text.new ≤ 191 }
{
    match heard {
        Heard::Silent => push_text(text, b"silent"),
        Heard::Taken => push_text(text, TAKEN.as_bytes()),
        Heard::Answer(frame) => {
            push_text(text, b"answer");
            push_spaced_bytes(text, frame.as_slice());
        }
        Heard::Refused(fault) => {
            push_text(text, b"refused ");
            push_device_fault(text, fault);
        }
    }
}

// Appends the letter and the name of the converter's refusal, and the frame's fault after K1.
#[tactic(auto, using(pm_lines::specs::Lemmas::Joins::joins))]
fn push_device_fault(text: &mut AnswerText, fault: &DeviceFault)
    requires { array_vec_len text.old ≤ 8 }
    ensures words { text.new.items ≡ text.old.items ++ device_fault_text fault.now }
    ensures room { array_vec_len text.new ≤ 191 }
{
    push_text(text, device_words(*fault).as_bytes());
    if let DeviceFault::Frame(frame_fault) = fault {
        push_text(text, b" ");
        push_frame_fault(text, *frame_fault);
    }
}

// The letter and the name of a converter's refusal, which are short.
fn device_words(fault: DeviceFault) -> &'static str
    ensures words { result.now ≡ device_fault_words fault }
    ensures short { length result.now ≤ 32 }
{
    fault.words()
}

// Appends the letter and the name of a frame's fault, and its place.
#[tactic(auto, using(pm_lines::specs::Lemmas::Joins::joins))]
fn push_frame_fault(text: &mut AnswerText, fault: FrameFault)
    requires { array_vec_len text.old ≤ 41 }
    ensures words { text.new.items ≡ text.old.items ++ frame_fault_text fault }
    ensures room { array_vec_len text.new ≤ 191 }
{
    push_text(text, frame_words(fault).as_bytes());
    if let Some(place) = fault.place() {
        let mut digits = itoa::Buffer::new();
        push_text(text, b" ");
        push_text(text, digits.format(place).as_bytes());
    }
}

// The letter and the name of a frame's fault, which are short.
fn frame_words(fault: FrameFault) -> &'static str
    ensures words { result.now ≡ frame_fault_words fault }
    ensures short { length result.now ≤ 32 }
{
    fault.words()
}
