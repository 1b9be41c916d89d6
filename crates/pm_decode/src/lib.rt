//! Captures shown to a person: what the lines of a trace say, as `pm_trace` has it, and after it what
//! the payloads mean, with times, packets of codes that the command table doesn't have, and without
//! a limit, as text or as objects of JSON.
//!
//! It reads the same lines as `pm_trace` and judges packets by it, which says what a packet means, and what the
//! capture itself teaches of the formats of voltages. [`decode`] is [`tell`]
//! with [`TellOptions::none`]: the text of a trace. With what payloads mean:
//!
//! ```
//! fn told<R: Read + Drop, W: Write + Drop>(
//!     alloc: Global,
//!     trace: R,
//!     paper: W,
//! ) -> Result<W, TextFault> {
//!     let options = TellOptions {
//!         values: true, // a voltage in volts, a status register bit by bit
//!         ..TellOptions::none()
//!     };
//!     let mut sink = Sink::new(paper);
//!     tell(alloc, &mut Source::new(trace), &mut sink, &options)?;
//!     Ok(sink.into_inner())
//! }
//! ```
//!
//! A line is read as its bytes come: the time before its packet, the packet's bytes, what a comment says of lost or failed
//! packets, PAGE followed from packet to packet, and the words of registers that are read. One that begins with its time:
//!
//! ```
//! fn time_of(line: &[u8]) -> Option<u64> {
//!     let mut open = TimedLine::new(true);
//!     open.take_line(line);
//!     open.reading().time
//! }
//! ```
//!
//! In JSON a packet is fields of an object. A field, as `,"bad":0`:
//!
//! ```
//! fn bad_lines(alloc: Global, count: u64) -> Result<String, AllocError> {
//!     let mut text = String::new(alloc);
//!     push_number_field(&mut text, "bad", count)?;
//!     Ok(text)
//! }
//! ```
//!
//! Tests: crates/pm_text_tests
#![tactic(auto)]

mod addresses;
mod aside_text;
mod capture;
mod comment;
mod counts_text;
mod decoding;
mod heard_lines;
mod hints;
mod json;
mod json_counts;
mod known;
mod laws;
mod line_number;
mod line_text;
mod options;
mod page_steps;
mod special;
mod telling;
mod timed_line;
mod told_as;
mod told_text;
mod usual_line;
mod usual_packet;
mod word_change;
mod words;

pub use addresses::Addresses;
pub use comment::{Failure, Note, Remark, ShownPacket, Why};
pub use decoding::decode;
pub use hints::Hint;
pub use json::{
    push_address_field, push_judged_fields, push_lack_field, push_marks_fields, push_number_field,
    push_other_fields, push_other_payload, push_received_field, push_signed_field_if,
    push_text_field,
};
pub use laws::plain_captures_are_traces;
pub use options::TellOptions;
pub use page_steps::{
    Marks, NOWHERE, PageStep, address_in, is_beside, is_lost, is_lost_shown, is_received,
    page_step, shown_change, shown_use,
};
pub use special::{
    Special, aside_ends_all, is_part_answer, is_to_all, kept_for, shown_ends_all, special_of,
    written_to,
};
pub use telling::{TellEnd, tell};
pub use timed_line::{LineReading, TimedLine};
pub use told_as::{
    PacketLine, bad_shown, change_in, completed_if, is_checked, is_plain, is_told, shows_pages,
    told_code,
};
pub use word_change::{WordChange, WordEnd};
pub use words::{Word, WordLine, WordRead, Words};
