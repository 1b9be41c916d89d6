//! What a line of a trace says.

ghost use Rattle.std.specs.Prelude.{◌≡◌, option_map};
ghost use Rattle.pm_table.specs.Address.{IsAddress};
ghost use Rattle.pm_frame.specs.Fault.{write_fault, request_fault};
ghost use Rattle.pm_frame.specs.View.{message_in};
ghost use Rattle.pm_trace.specs.Trace.{parts_judged, write_judged, read_judged};
ghost use Rattle.pm_trace.specs.Trace.{address_of as spec_address_of};
ghost use Rattle.pm_trace.specs.ShownLines.{judged_in};

use pm_frame::{FrameFault, FrameView, read_answer, read_request, read_write};
use pm_table::address_ok;

/// What a line of a trace says.
#[derive(Debug, Drop)]
pub enum Shown<'a> {
    /// The packet of a device at this address: what was written, or what was asked for and the
    /// payload of the answer.
    Accepted {
        /// The device's address.
        addr: u8,
        /// The packet that a stop ended, or the request that a repeated start ended.
        view: FrameView<'a>,
        /// The payload of the answer to a request.
        answer: Option<&'a [u8]>,
    },
    /// A packet with a fault.
    Faulty {
        /// The address, if byte 0 of the write part gives one: an even byte, and half of it is 08h to 77h.
        addr: Option<u8>,
        /// Whether the fault is in the read part, and not in the write part.
        read: bool,
        /// The first fault, with its place in that part.
        fault: FrameFault,
    },
    /// X1: the line has a second `/`, or a part of more than 300 bytes.
    BadSyntax,
    /// X2: a word of the line isn't an even number of hexadecimal digits.
    BadHex,
}

/// What a packet says by its two parts; there is no read part if a stop ended the write part.
#[tactic(auto, unfolding(crate::specs::Trace::parts_judged))]
pub fn packet_shown<'a>(write: &'a [u8], read: Option<&'a [u8]>) -> Shown<'a>
    ensures { judged_in result ≡ parts_judged write.entry.now
        (option_map (λ bytes. bytes.now) read.entry) }
{
    match (address_of(write), read) {
        (None, _) => Shown::Faulty {
            addr: None,
            read: false,
            fault: FrameFault::NotOurs,
        },
        (Some(addr), None) => write_shown(addr, write),
        (Some(addr), Some(read)) => read_shown(addr, write, read),
    }
}

// The address that byte 0 gives.
fn address_of(write: &[u8]) -> Option<u8>
    ensures { result ≡ spec_address_of write.now }
{
    match write.first() {
        Some(first) if first % 2 == 0 && address_ok(first / 2) => Some(first / 2),
        _ => None,
    }
}

// Judges a write, which a stop ends.
fn write_shown(addr: u8, write: &[u8]) -> Shown<'_>
    requires { IsAddress addr }
    ensures { judged_in result
        ≡ write_judged addr (message_in write.entry.now) (write_fault addr write.entry.now) }
{
    match read_write(addr, write) {
        Ok(view) => Shown::Accepted {
            addr,
            view,
            answer: None,
        },
        Err(fault) => Shown::Faulty {
            addr: Some(addr),
            read: false,
            fault,
        },
    }
}

// Judges a read: the request, which a repeated start ends, then the answer.
fn read_shown<'a>(addr: u8, write: &'a [u8], read: &'a [u8]) -> Shown<'a>
    requires { IsAddress addr }
    ensures { judged_in result ≡ read_judged addr (message_in write.entry.now) read.entry.now
        (request_fault addr write.entry.now) }
{
    let view = match read_request(addr, write) {
        Ok(view) => view,
        Err(fault) => {
            return Shown::Faulty {
                addr: Some(addr),
                read: false,
                fault,
            };
        }
    };
    match read_answer(addr, &view.message(), read) {
        Ok(payload) => Shown::Accepted {
            addr,
            view,
            answer: Some(payload),
        },
        Err(fault) => Shown::Faulty {
            addr: Some(addr),
            read: true,
            fault,
        },
    }
}
