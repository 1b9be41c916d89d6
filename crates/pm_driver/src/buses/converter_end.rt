//! The converter's end of a bus: what it hears of a frame, and what comes back of its answer.

ghost use Rattle.std.specs.Prelude.{◌≡◌, ◌≤◌, [], length, take};
ghost use Rattle.pm_device.specs.declared.converter.Ending.TheVariants.{Stop};
ghost use Rattle.pm_device.specs.Effect as effect;
ghost use Rattle.pm_device.specs.History.{device_next};
ghost use Rattle.pm_driver.specs.Plan.{held_after_request, held_after_packet, delivered_some, disturbed, returned};
ghost use Rattle.pm_driver.specs.Disturbed.{IsAskedPart, IsDisturbed, IsSentPart};

use pm_device::{Converter, Ending};
use pm_world::{
    Arrival, Back, answer_in, back_bytes, heard_bytes, heard_ending, is_heard_whole,
    is_legal_hearing, is_legal_return,
};

/// The converter restarts, or not.
pub(crate) fn disturb(device: &mut Converter, restarts: bool)
    ensures is { IsDisturbed device.old restarts device.new }
    ensures after { device.new ≡ disturbed device.old restarts }
{
    if restarts {
        device.restart();
    }
}

/// The converter hears a packet as it arrives, if that is legal; otherwise the packet is lost.
pub(crate) fn deliver(device: &mut Converter, packet: &[u8], arrival: &Arrival)
    ensures is { IsSentPart packet.now device.old device.new }
    ensures after { device.new ≡ held_after_packet packet.now device.old arrival.now }
{
    let bytes = heard_bytes(packet, arrival);
    let ending = heard_ending(Ending::Stop, arrival);
    if is_legal_hearing(packet, bytes, ending) {
        let _ = device.hear(bytes, ending);
    }
}

/// The converter hears a packet as it arrives, if that is legal; otherwise the packet is lost. A packet without an
/// arrival is lost.
pub(crate) fn deliver_some(device: &mut Converter, packet: &[u8], arrival: &Option<Arrival>)
    ensures is { IsSentPart packet.now device.old device.new }
    ensures after { device.new ≡ delivered_some packet.now device.old arrival.now }
{
    match arrival {
        Some(arrival) => deliver(device, packet, arrival),
        None => {}
    }
}

/// A request is lost: nothing of it arrives, and nothing comes back.
pub(crate) fn lose_request(device: &mut Converter, request: &[u8], answer: &mut [u8]) -> usize
    requires { 1 ≤ length answer.old }
    ensures none { result ≡ 0 }
    ensures after { device.new ≡ device_next device.old (effect.Hearing [] Stop) }
    ensures fits { result ≤ length answer.new }
    ensures asked { IsAskedPart request.now (length answer.old) device.old (take result answer.new) device.new }
{
    let _ = device.hear(&[], Ending::Stop);
    0
}

/// The converter hears a request as it arrives, and what comes back of its answer is put into the room for it: how
/// many bytes. What isn't legal, and what is longer than the room, is lost.
pub(crate) fn ask(
    device: &mut Converter,
    request: &[u8],
    arrival: &Arrival,
    back: &Back,
    answer: &mut [u8],
) -> usize
    requires { 1 ≤ length answer.old }
    ensures after { device.new ≡ held_after_request request.now device.old arrival.now }
    ensures came { take result answer.new ≡ returned request.now (length answer.old) device.old arrival.now back.now }
    ensures fits { result ≤ length answer.new }
    ensures asked { IsAskedPart request.now (length answer.old) device.old (take result answer.new) device.new }
{
    let bytes = heard_bytes(request, arrival);
    let ending = heard_ending(Ending::Restart, arrival);
    if !is_legal_hearing(request, bytes, ending) {
        return lose_request(device, request, answer);
    }
    let reply = device.hear(bytes, ending);
    let given = answer_in(&reply);
    let came = back_bytes(given, back);
    let whole = is_heard_whole(request, bytes, ending);
    let count = came.len();
    if count > answer.len() || !is_legal_return(request, answer.len(), whole, given, came) {
        return 0;
    }
    answer[..count].copy_from_slice(came);
    count
}
