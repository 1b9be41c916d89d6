//! The packets of SMBus and PMBus 1.3 Part II, with packet error code (PEC): seven layouts, read
//! and written.
//!
//! A `Message` is what a packet says. `write_part` gives the bytes that the host sends for it,
//! `answer` those that the device answers. `read_write`, `read_request` and `read_answer` read
//! bytes of any number, and take exactly the layouts: what they refuse has the fault that comes
//! first, with its place. A `FrameView` borrows the bytes that were read.
//!
//! `read_block`, `read_plain` and `read_paged` judge what comes back for reads that are no `Message`: a block, a plain read, and a
//! read by PAGE_PLUS, each of up to 32 bytes of any code.
//!
//! The PEC betrays damage if the last byte of what was heard isn't the PEC of what stands before it:
//! `is_betrayed` says so of bytes, and the laws say which damage it always betrays.
//!
//! It keeps no state, knows no setting and takes no memory. What a write does is the converter's
//! affair.
//!
//! An order of 3.3 V for output 0 of the device at 58h, written and read again:
//!
//! ```
//! fn taken() -> Result<Message, FrameFault> {
//!     let written = Message::PagePlusWrite {
//!         page: 0,
//!         code: 0x21,
//!         payload: Payload::Word(0x34CD),
//!     };
//!     let bytes = write_part(0x58, &written); // B0 05 04 00 21 CD 34 5A
//!     let view = read_write(0x58, bytes.as_slice())?; // F5 if one of its bits changed
//!     Ok(view.message()) // what was written
//! }
//! ```
//!
//! Tests: crates/pm_core_tests
#![tactic(auto)]

mod block_read;
mod fault;
mod frame_view;
mod laws;
mod message;
mod packet_error_code;
mod paged_read;
mod places;
mod plain_read;
mod received;
mod row;
mod rules;
mod sent;

use arrayvec::ArrayVec;
pub use block_read::read_block;
pub use fault::FrameFault;
pub use frame_view::FrameView;
pub use laws::{
    answers_are_exact, betrayal_is_refused, bursts_are_betrayed, codes_are_shared,
    damage_is_betrayed, damage_is_refused, few_changes_are_betrayed, late_answers_pass,
    requests_are_exact, writes_are_exact,
};
pub use message::{Message, Payload, fits};
pub use packet_error_code::{is_betrayed, pec, pec_after};
pub use paged_read::{is_carried, paged_request, read_paged};
pub use plain_read::{MOST_READ, code_request, read_plain};
pub use received::{read_answer, read_request, read_write};
pub use sent::{answer, write_part};

/// The bytes of a frame that is sent, at most 16.
pub type Frame = ArrayVec<u8, 16>;
