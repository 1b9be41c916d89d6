//! The model converter for callers in C: a static library, whose header is `include/pmpart.h`. It is a part of a
//! power supply as firmware and scripts meet it: PAGE, the store, latched status and readings are all there.
//!
//! A part lives in the caller's memory, as plain numbers. No call needs anything of what is in that memory: each asks
//! first whether a part is there, and refuses if none is. The library takes no memory, keeps nothing between calls
//! and calls nothing. Firmware that links a host needs nothing of it.
//!
//! A write and a request, by the exported calls. Each reference is a pointer in C, and bytes are a pointer and their
//! number:
//!
//! ```
//! // A write of 3.3 V for VOUT_COMMAND of output 0, and the request for it, which a repeated start ends.
//! fn answered(part: &mut PartImage, config: &ConfigImage, reply: &mut ReplyImage) -> [u8; 3] {
//!     let made = pm_part_new(part, config); // 0
//!     let write = &[0xB0, 0x05, 0x04, 0x00, 0x21, 0xCD, 0x34, 0x5A];
//!     let taken = pm_part_hear(part, write, 0, reply); // 82h
//!     let request = &[0xB0, 0x06, 0x02, 0x00, 0x21];
//!     let told = pm_part_hear(part, request, 1, reply); // 83h, and in reply: B1 02 CD 34 B9
//!     [made, taken, told]
//! }
//! ```
//!
//! Tests: crates/pm_device_c/src/tests.rt, trials/c
#![tactic(auto)]

mod asked;
mod events;
mod numbers;
mod reply_image;
mod status;
#[cfg(test)]
mod tests;
