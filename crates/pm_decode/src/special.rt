//! Addresses that SMBus and PMBus keep for a purpose of their own, and those of muxes.
ghost use Rattle.std.specs.Prelude.{◌≡◌, ◌<◌, IfSome};
ghost use Rattle.pm_trace.specs.ShownLines.{judged_in};
ghost use Rattle.pm_decode.specs.ShownReadings.{packet_in};
ghost use Rattle.pm_decode.specs.Specials.{aside_ends_all as spec_aside_ends_all, ends_all as spec_ends_all, is_part_answer as spec_is_part_answer, is_to_all as spec_is_to_all, is_touching as spec_is_touching, kept_for as spec_kept_for, shown_ends_all as spec_shown_ends_all, special_of as spec_special_of, special_words, written_to as spec_written_to};

use crate::comment::ShownPacket;
use crate::options::TellOptions;
use pm_table::Code;
use pm_trace::{Packet, Shown, Touch, touch_of};

/// What an address is for that is no part's.
#[derive(Clone, Copy, Debug, PartialEq, Eq)]
pub enum Special {
    /// 08h: parts write to the SMBus host.
    HostNotify,
    /// 0Ch: a part that pulls SMBALERT# answers with its address.
    AlertResponse,
    /// 28h: reads of all parts of a zone.
    ZoneRead,
    /// 37h: writes to all parts of a zone.
    ZoneWrite,
    /// 61h: parts are given their addresses.
    Arp,
    /// A mux, which a user names.
    Mux,
}

impl Special {
    /// What is shown of a packet to such an address: `ZONE_WRITE`.
    pub fn words(self) -> &'static str
        ensures { result.now ≡ special_words self }
    {
        match self {
            Special::HostNotify => "host notify",
            Special::AlertResponse => "alert response",
            Special::ZoneRead => "ZONE_READ",
            Special::ZoneWrite => "ZONE_WRITE",
            Special::Arp => "ARP",
            Special::Mux => "mux",
        }
    }
}

/// What an address is kept for.
pub fn kept_for(addr: u8) -> Option<Special>
    ensures { result ≡ spec_kept_for addr }
{
    match addr {
        0x08 => Some(Special::HostNotify),
        0x0C => Some(Special::AlertResponse),
        0x28 => Some(Special::ZoneRead),
        0x37 => Some(Special::ZoneWrite),
        0x61 => Some(Special::Arp),
        _ => None,
    }
}

/// What an address below 80h is that is no part's; `is_part` is whether it answered as a part does. No part has 0Ch.
pub fn special_of(options: &TellOptions, is_part: bool, addr: u8) -> Option<Special>
    requires { addr < 128 }
    ensures { result ≡ spec_special_of options.now is_part addr }
{
    if options.muxes.has(addr) {
        return Some(Special::Mux);
    }
    match kept_for(addr) {
        None => None,
        Some(Special::AlertResponse) => Some(Special::AlertResponse),
        Some(kept) => {
            if is_part || options.parts.has(addr) {
                None
            } else {
                Some(kept)
            }
        }
    }
}

/// The address that a packet is written to.
pub fn written_to(write: &[u8]) -> Option<u8>
    ensures to { result ≡ spec_written_to write.now }
    ensures few { IfSome result (λ addr. addr < 128) }
{
    match write {
        [first, ..] if *first % 2 == 0 => Some(*first / 2),
        _ => None,
    }
}

/// Whether a packet is a general call that may change PAGE or VOUT_MODE of all parts.
pub fn is_to_all(write: &[u8], is_read: bool) -> bool
    ensures { result ≡ spec_is_to_all write.now is_read }
{
    write.first().copied().unwrap_or(0) / 2 == 0 && is_touching(touch_of(write, is_read))
}

/// Whether a packet to a special address changes what is known of all parts.
pub fn aside_ends_all(special: Special, packet: &Packet<'_>) -> bool
    ensures { result ≡ spec_aside_ends_all special (packet_in packet.now) }
{
    ends_all(
        Some(special),
        0,
        touch_of(packet.write, packet.is_read()),
        packet.write.len() >= 2,
    )
}

/// Whether a packet that a comment shows does; `is_part` is whether its address answered as a part does.
pub fn shown_ends_all(options: &TellOptions, is_part: bool, shown: &ShownPacket) -> bool
    ensures { result ≡ spec_shown_ends_all options.now is_part shown.now }
{
    let addr = shown.first / 2;
    ends_all(
        special_of(options, is_part, addr),
        addr,
        shown.touch,
        shown.has_data,
    )
}

// Whether a packet changes what is known of all parts: a general call or a zone write of PAGE, VOUT_MODE or RESTORE, or a write to a
// mux; `has_data` is whether a byte follows the address.
fn ends_all(special: Option<Special>, addr: u8, touch: Touch, has_data: bool) -> bool
    ensures { result ≡ spec_ends_all special addr touch has_data }
{
    match special {
        Some(Special::Mux) => has_data,
        Some(Special::ZoneWrite) => is_touching(touch),
        Some(_) => false,
        None => addr == 0 && is_touching(touch),
    }
}

// Whether a packet may change PAGE or VOUT_MODE.
fn is_touching(touch: Touch) -> bool
    ensures { result ≡ spec_is_touching touch }
{
    !matches!(touch, Touch::Nothing | Touch::AsksPage)
}

/// Whether a packet is a good answer to a read of VOUT_MODE, STATUS_BYTE or PMBUS_REVISION, as parts give it.
pub fn is_part_answer(shown: &Shown<'_>) -> bool
    ensures { result ≡ spec_is_part_answer (judged_in shown.now) }
{
    match shown {
        Shown::Accepted {
            view,
            answer: Some(_),
            ..
        } => matches!(
            Code(view.code()),
            Code::VOUT_MODE | Code::STATUS_BYTE | Code::PMBUS_REVISION
        ),
        _ => false,
    }
}
