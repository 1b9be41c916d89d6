//! Packets without a host: their packet error code, their bytes and what bytes say.

ghost use Rattle.std.specs.Prelude.{◌≡◌, ◌≢◌, IsSomeAnd};
ghost use Rattle.pm_frame.specs.Fault.{write_fault, request_fault};
ghost use Rattle.pm_frame.specs.Layout.{IsWrite, IsRequest};
ghost use Rattle.pm_frame.specs.Pec.{pec_of};
ghost use Rattle.pm_memory.specs.Sending.{IsSending};
ghost use Rattle.pm_memory.specs.Packets.{packet_message, read_number, written_number};

use pm_frame::{fits, pec, read_request, read_write};
use pm_memory::SendingImage;
use pm_memory::numbers::{ACCEPTED, NO_ADDRESS, NO_PACKET};
use pm_memory::packet::{PacketImage, packet_of};
use pm_table::address_ok;

/// The packet error code of bytes, of any number.
#[unsafe(no_mangle)]
pub extern "C" fn pm_pec(bytes: &[u8]) -> u8
    ensures { result ≡ pec_of bytes.now }
{
    pec(bytes)
}

/// The bytes of a packet before its stop or its repeated start. E3h, E4h if the numbers mean no
/// packet, or its code doesn't have this layout.
#[unsafe(no_mangle)]
pub extern "C" fn pm_packet_write(address: u8, packet: &PacketImage, frame: &mut SendingImage) -> u8
    ensures number { result ≡ written_number address (packet_message packet.now) }
    ensures frame { result ≡ 0 → IsSomeAnd (packet_message packet.now)
        (λ message. IsSending address message frame.new) }
    ensures refused { result ≢ 0 → frame.new ≡ frame.old }
{
    if !address_ok(address) {
        return NO_ADDRESS;
    }
    match packet.message() {
        Some(message) if fits(&message) => {
            frame.put(address, &message);
            ACCEPTED
        }
        _ => NO_PACKET,
    }
}

/// What the bytes of a write before its stop say. E3h, F1 to F8.
#[unsafe(no_mangle)]
pub extern "C" fn pm_packet_read_write(address: u8, bytes: &[u8], packet: &mut PacketImage) -> u8
    ensures number { result ≡ read_number address (write_fault address bytes.now) }
    ensures said { result ≡ 0 → IsSomeAnd (packet_message packet.new)
        (λ message. IsWrite address message bytes.now) }
    ensures refused { result ≢ 0 → packet.new ≡ packet.old }
{
    if !address_ok(address) {
        return NO_ADDRESS;
    }
    match read_write(address, bytes) {
        Ok(view) => {
            *packet = packet_of(view.message());
            ACCEPTED
        }
        Err(fault) => fault.number(),
    }
}

/// What the bytes of a request before its repeated start say. E3h, F1 to F8.
#[unsafe(no_mangle)]
pub extern "C" fn pm_packet_read_request(address: u8, bytes: &[u8], packet: &mut PacketImage) -> u8
    ensures number { result ≡ read_number address (request_fault address bytes.now) }
    ensures said { result ≡ 0 → IsSomeAnd (packet_message packet.new)
        (λ message. IsRequest address message bytes.now) }
    ensures refused { result ≢ 0 → packet.new ≡ packet.old }
{
    if !address_ok(address) {
        return NO_ADDRESS;
    }
    match read_request(address, bytes) {
        Ok(view) => {
            *packet = packet_of(view.message());
            ACCEPTED
        }
        Err(fault) => fault.number(),
    }
}
