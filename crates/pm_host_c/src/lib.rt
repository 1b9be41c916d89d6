//! The host core for callers in C: a static library, whose header is `include/pmhost.h`. It has the host, and calls for
//! packets and numbers that need no host. A converter to try firmware against is the library `pm_device_c`.
//!
//! A host lives in the caller's memory, as plain numbers that are worked on in place. No call needs
//! anything of what is in that memory: a call of a host asks first whether a host is there, and refuses
//! if none is. The library takes no memory, keeps nothing between calls and calls nothing.
//!
//! An order, by the exported calls. In C each reference is a pointer, and bytes are a pointer and their number:
//!
//! ```
//! // 3.3 V for VOUT_COMMAND of output 0, by a host of a part at address 58h with two outputs.
//! fn ordered(host: &mut GuardImage, frame: &mut SendingImage) -> HostStep {
//!     pm_host_new(host, 0x58, 2, 2); // the last number: two passes
//!     pm_host_no_limits(host, 0); // of output 0 any voltage is ordered
//!     pm_host_order(host, 0, 0x21, 0x34CD);
//!     pm_host_frame(host, frame); // a write: B0 05 04 00 21 CD 34 5A
//!     pm_host_write_ended(host, 0); // no acknowledgement came; the host reads the cell back
//!     pm_host_frame(host, frame); // a request: B0 06 02 00 21
//!     pm_host_read_ended(host, &[0xB1, 0x02, 0xCD, 0x34, 0xB9]) // kind 1 Done
//! }
//! ```
//!
//! Tests: crates/pm_host_c/src/tests.rt, trials/c
#![tactic(auto)]

mod answer;
mod course;
mod goal;
mod host;
mod known;
mod known_cells;
mod limits;
mod names;
mod other_read;
mod packet;
mod rail;
mod sequence;
#[cfg(test)]
mod tests;
mod told;
mod voltages;
