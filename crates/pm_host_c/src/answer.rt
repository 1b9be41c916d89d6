//! What came back after a request.

ghost use Rattle.std.specs.Prelude.{◌≡◌, ◌≢◌, IsSomeAnd};
ghost use Rattle.pm_frame.specs.Layout.{IsAnswer};
ghost use Rattle.pm_memory.specs.Packets.{answer_number, payload_of, packet_message, HasPayload};

use pm_frame::{fits, read_answer};
use pm_memory::answer::PayloadImage;
use pm_memory::numbers::{ACCEPTED, NO_ADDRESS, NO_PACKET};
use pm_memory::packet::PacketImage;
use pm_table::address_ok;

/// What the bytes that came back after a request say, the read address first: their PEC covers the request too. E3h,
/// E4h if the numbers mean no request, F1 to F5.
#[unsafe(no_mangle)]
pub extern "C" fn pm_packet_read_answer(
    address: u8,
    request: &PacketImage,
    bytes: &[u8],
    payload: &mut PayloadImage,
) -> u8
    ensures number { result ≡ answer_number address (packet_message request.now) bytes.now }
    ensures said { result ≡ 0 → IsSomeAnd (packet_message request.now)
        (λ message. IsAnswer address message (payload_of payload.new) bytes.now) }
    ensures payload { result ≡ 0 → HasPayload payload.new }
    ensures refused { result ≢ 0 → payload.new ≡ payload.old }
{
    if !address_ok(address) {
        return NO_ADDRESS;
    }
    match request.message() {
        Some(message) if message.is_read() && fits(&message) => {
            match read_answer(address, &message, bytes) {
                Ok(found) => {
                    *payload = PayloadImage::of(&found[..message.answer_length()]);
                    ACCEPTED
                }
                Err(fault) => fault.number(),
            }
        }
        _ => NO_PACKET,
    }
}
