//! What arrives of a frame and of an answer, which hearings and which returns a world takes, and what a
//! hearing leaves.

ghost use Rattle.std.specs.Prelude.{◌≡◌, take};
ghost use Rattle.pm_device.specs.Effect.{Hearing};
ghost use Rattle.pm_device.specs.History.{device_next};
ghost use Rattle.pm_device.specs.Reply.{reply_of};
ghost use Rattle.pm_frame.specs.Layout.{AreBytes};
ghost use Rattle.pm_world.specs.Legal.{heard_bytes as spec_heard_bytes, ending_of, back_bytes as spec_back_bytes, answer_in as spec_answer_in, is_heard_whole as spec_is_heard_whole, is_legal_hearing as spec_is_legal_hearing, is_legal_return as spec_is_legal_return};

use crate::event::{Arrival, Back};
use pm_device::{Converter, Ending, Heard, refusals_set_one_bit};
use pm_frame::is_betrayed;

/// What is heard of a frame.
pub fn heard_bytes<'a>(frame: &'a [u8], arrival: &'a Arrival) -> &'a [u8]
    ensures { result.now ≡ spec_heard_bytes frame.entry.now arrival.entry.now }
{
    match arrival {
        Arrival::Whole => frame,
        Arrival::Cut(count) => first(frame, *count),
        Arrival::Bytes(bytes, _) => bytes.as_slice(),
    }
}

/// How the arrived bytes end, if the whole frame ends so.
pub fn heard_ending(whole: Ending, arrival: &Arrival) -> Ending
    ensures { result ≡ ending_of whole arrival.now }
{
    match arrival {
        Arrival::Whole => whole,
        Arrival::Cut(_) => Ending::Stop,
        Arrival::Bytes(_, ending) => *ending,
    }
}

/// The bytes that a converter answers, which are bytes.
pub fn answer_in(heard: &Heard) -> &[u8]
    ensures value { result.now ≡ spec_answer_in heard.now }
    ensures bytes { AreBytes (spec_answer_in heard.now) }
{
    match heard {
        Heard::Answer(frame) => spelled(frame.as_slice()),
        Heard::Silent | Heard::Taken | Heard::Refused(_) => &[],
    }
}

// Bytes are below 256.
pub(crate) fn spelled(bytes: &[u8]) -> &[u8]
    ensures same { result.now ≡ bytes.entry.now }
    ensures bytes { AreBytes bytes.entry.now }
{
    bytes
}

/// What comes back of an answer.
pub fn back_bytes<'a>(answer: &'a [u8], back: &'a Back) -> &'a [u8]
    ensures { result.now ≡ spec_back_bytes answer.entry.now back.entry.now }
{
    match back {
        Back::Whole => answer,
        Back::Cut(count) => first(answer, *count),
        Back::Bytes(bytes) => bytes.as_slice(),
    }
}

// The first bytes, or all if there are no more.
fn first(bytes: &[u8], count: u8) -> &[u8]
    ensures { result.now ≡ take count bytes.entry.now }
{
    match bytes.split_at_checked(usize::from(count)) {
        Some((front, _)) => front,
        None => bytes,
    }
}

/// Whether bytes that are heard while this frame is being sent are legal.
#[tactic(auto, unfolding(crate::specs::Legal::is_legal_hearing))]
pub fn is_legal_hearing(frame: &[u8], bytes: &[u8], ending: Ending) -> bool
    ensures { result ≡ spec_is_legal_hearing frame.now bytes.now ending }
{
    ending == Ending::Restart || frame.starts_with(bytes) || is_betrayed(&[], bytes)
}

/// Whether a request was heard whole.
pub fn is_heard_whole(frame: &[u8], bytes: &[u8], ending: Ending) -> bool
    ensures { result ≡ spec_is_heard_whole frame.now bytes.now ending }
{
    ending == Ending::Restart && bytes == frame
}

/// Whether bytes that come back for a request are legal, if this is the converter's answer to it.
#[tactic(auto, unfolding(crate::specs::Legal::is_legal_return))]
pub fn is_legal_return(
    request: &[u8],
    whole_answer: usize,
    whole: bool,
    answer: &[u8],
    bytes: &[u8],
) -> bool
    ensures { result ≡ spec_is_legal_return request.now whole_answer whole answer.now bytes.now }
{
    whole && bytes == answer || bytes.len() < whole_answer || is_betrayed(request, bytes)
}

/// The converter hears bytes to which it replies so. An answer and silence change nothing.
pub(crate) fn hear_replied(device: &mut Converter, reply: &Heard, bytes: &[u8], ending: Ending)
    requires { reply.now ≡ reply_of device.old bytes.now ending }
    ensures after { device.new ≡ device_next device.old (Hearing bytes.now ending) }
    ensures kept { device.old.config ≡ device.new.config }
{
    // law: silence and an answer leave a converter as it was
    refusals_set_one_bit();
    match reply {
        Heard::Answer(_) | Heard::Silent => {}
        Heard::Taken | Heard::Refused(_) => {
            let _ = device.hear(bytes, ending);
        }
    }
}
